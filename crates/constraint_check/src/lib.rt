//! Whether a constraint holds of numbers for its variables.
//!
//! `holds_now` answers exactly as the constraint's row of the table says, for each of the 48 names and whatever its arguments
//! are. It builds on `constraint_model`, and searches nothing.
#![tactic(auto)]

mod comparing;
mod holding;
mod rows;
mod shapes;
mod tasks;
mod values;

pub use holding::{holds, holds_now};
