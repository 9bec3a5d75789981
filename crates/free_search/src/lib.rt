//! A search in a free order that learns from failures.
//!
//! `run_free` looks for a solution in a box. It says that there is none only where a nogood that it keeps is met by that box, and
//! gives a solution only of a closed point in it; both are looked at when it says so. So nothing is claimed of what it branches
//! on, of what it jumps over, of where it begins anew, or of why it thinks that a bound was put: all these are hints, and a wrong
//! one costs time alone. What it may spend is counted in units of work. `least_value` finds the least number of a variable so.
//! `FreeSearch` keeps what was learned over searches of one box after another.
//!
//! It builds on `nogoods`, `narrowing` and `search`. Begin with `src/node.rt`.
#![tactic(auto)]

mod boxes;
mod ends;
mod free;
mod guide;
mod least;
mod node;
mod points;
mod refuting;
mod root;
mod run;
mod searcher;
mod task;

pub use ends::FreeEnd;
pub use free::FreeSearch;
pub use guide::Guide;
pub use least::least_value;
pub use root::root_of;
pub use run::run_free;
