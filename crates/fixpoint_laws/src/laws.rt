//! Laws of closed boxes, as functions that do nothing.

ghost use Rattle.fixpoint_laws.specs.Changes.{TightensOne};
ghost use Rattle.fixpoint_laws.specs.Fixpoints.{OneFixpoint};
ghost use Rattle.fixpoint_laws.specs.Greatest.{GreatestIsComputed};
ghost use Rattle.fixpoint_laws.specs.OneRound.{RoundsLead};

use guarded_tell::{law_monotone, law_tell_place};
use interval::law_inside_order;

/// For every start and list of kernels there is either exactly one greatest closed box, or no closed box.
pub fn law_one_fixpoint()
    ensures { OneFixpoint }
{
    law_inside_order();
    law_greatest_is_computed();
}

/// A definition names the greatest closed box inside each start, or that the start fails, so that contracts can speak
/// of it before it is found.
pub fn law_greatest_is_computed()
    ensures { GreatestIsComputed }
{
    law_inside_order();
    law_monotone();
    law_tell_place();
}

/// What tighter bounds of one variable mean for a box.
pub fn law_tightens_one()
    ensures { TightensOne }
{}

/// How lists of rounds begin and go on, and what they do to the widths of a box.
pub fn law_rounds_lead()
    ensures { RoundsLead }
{
    law_inside_order();
}
