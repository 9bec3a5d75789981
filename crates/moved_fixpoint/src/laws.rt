//! Laws of sets that name what moved, as functions that do nothing.

ghost use Rattle.moved_fixpoint.specs.Moved.{QuietUnlessMoved};
ghost use Rattle.moved_fixpoint.specs.Resting.{KnownUnlessMoved};
ghost use Rattle.moved_fixpoint.specs.Sweeps.{SweepsDecide};

use guarded_tell::{law_local, law_tell_place};
use interval::law_inside_order;

/// How callers come by a set that names what moved. A search puts the bounds of one variable into a closed box, and
/// marks that variable.
pub fn law_quiet_unless_moved()
    ensures { QuietUnlessMoved }
{
    law_tell_place();
    law_local();
}

/// How callers come by sets of kernels that rest. They are those at the end of one call, and the search puts the bounds of
/// one variable into that box, and marks that variable.
pub fn law_known_unless_moved()
    ensures { KnownUnlessMoved }
{
    law_inside_order();
}

/// What one lane's propagation ended with tells whether it would have spent a limit on its rounds: sweeps are a function.
pub fn law_sweeps_decide()
    ensures { SweepsDecide }
{}
