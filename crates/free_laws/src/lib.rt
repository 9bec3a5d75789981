//! Laws of a search in a free order: what a refutation under assumptions tells, and which solution is the first of a static order.
#![tactic(auto)]

mod laws;

pub use laws::{law_assumptions, law_first_by_keys, law_keys_done, law_none_solves};
