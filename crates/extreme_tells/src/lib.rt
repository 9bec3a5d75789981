//! The bounds that the greatest and the least of a list tell.
//!
//! Exactly the tells of the definitions, in order (`visit_max`, `visit_min`); monotone, exact at a point, on their own
//! variables alone (`src/laws.rt`). It stands on `tells`; `guarded_tell` has both as kernels. `specs/Extremes.antt`, which
//! elements and sets use too, has the words on the least and the greatest over a list.
#![tactic(auto)]

mod laws;
mod maximum;
mod minimum;

pub use laws::{
    law_maximum_local, law_maximum_monotone, law_maximum_place, law_maximum_point,
    law_minimum_local, law_minimum_monotone, law_minimum_place, law_minimum_point,
};
pub use maximum::{is_max_quiet, visit_max};
pub use minimum::{is_min_quiet, visit_min};
