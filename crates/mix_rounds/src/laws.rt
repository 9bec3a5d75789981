//! That the greatest closed mix is the computed one.

ghost use Rattle.mix_rounds.specs.Existence.{GreatestMixIsComputed};

use bit_domain::law_hull;
use domain_drops::{law_drop, law_drop_place, law_hull_inside, law_inside_mix_order, law_weight};
use guarded_tell::{law_monotone, law_tell_place};

/// The computed mix is the greatest closed one, and where there is none the start fails. It does nothing.
pub(crate) fn law_greatest_mix_is_computed()
    ensures { GreatestMixIsComputed }
{
    law_monotone();
    law_tell_place();
    law_hull();
    law_hull_inside();
    law_drop();
    law_drop_place();
    law_inside_mix_order();
    law_weight();
}
