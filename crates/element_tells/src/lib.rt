//! The bounds that the element at a place of a list tells.
//!
//! Exactly the tells of the definition, in order (`visit_element`); monotone, exact at a point, on its own variables alone
//! (`src/laws.rt`). It stands on `tells`, and on `extreme_tells` for the words on lists; `guarded_tell` has it as a
//! kernel. Begin with `specs/Element.antt`. It is on bounds: a place inside them that can't be had isn't told.
#![tactic(auto)]

mod element;
mod laws;

pub use element::visit_element;
pub use laws::{law_element_local, law_element_monotone, law_element_place, law_element_point};
