//! Laws of narrowers, as functions that do nothing.

ghost use Rattle.narrowing.specs.Narrowers.{KnownWhereRests, QuietWhereClosed};

use moved_fixpoint::{law_known_unless_moved, law_quiet_unless_moved};

/// A search goes on from a closed box: any narrower may narrow what it makes of it, once it has noted the variables whose
/// bounds were put.
pub fn law_quiet_where_closed()
    ensures { QuietWhereClosed }
{
    law_quiet_unless_moved();
}

/// It goes on with the kernels that rest on that box: any narrower knows them.
pub fn law_known_where_rests()
    ensures { KnownWhereRests }
{
    law_known_unless_moved();
}
