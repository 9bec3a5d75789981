//! Literals: bounds of variables, as tells, which a box meets or not, and lists of them.
//!
//! A list of literals stands for the boxes that meet them all. `see` says whether a box meets all, or all but one; `meet` adds
//! a literal and `take` takes one out. It builds on `tells`, and knows no propagator.
#![tactic(auto)]

mod laws;
mod list;
mod literal;
mod seen;

pub use laws::law_literals;
pub use list::Literals;
pub use literal::{is_as_tight, is_met, opposite};
pub use seen::{Seen, see};
