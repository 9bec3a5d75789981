//! The bounds that membership in a set of numbers tells.
//!
//! Exactly the tells of the definition, in order (`visit_in_set`); monotone, exact at a point, on its own variables alone
//! (`src/laws.rt`). It stands on `tells`, and on `extreme_tells` for the words on lists; `guarded_tell` has it as a
//! kernel. Begin with `specs/InSet.antt`. It is on bounds: a hole of the set inside them isn't told.
#![tactic(auto)]

mod in_set;
mod laws;

pub use in_set::visit_in_set;
pub use laws::{law_in_set_local, law_in_set_monotone, law_in_set_place, law_in_set_point};
