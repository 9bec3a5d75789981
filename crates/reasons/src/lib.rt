//! Reasons: bounds from which a kernel tells a literal.
//!
//! `propose` puts the bounds by which a kernel told a literal, as a log says, and widens those that the tell doesn't need: by the slack of
//! a sum, by the numbers of an all-different that are full, by the tasks of a resource that are surely under way. All of that is a
//! hint. `is_told` looks: it says yes only where the kernel tells the literal on a box. So whoever uses what is proposed asks that. The
//! log is read here too: `place_met` and `met_by` say which of its events met a literal, as hints. It builds on `literals`,
//! `trailed_box` and `guarded_tell`; begin with `src/watch.rt`.
#![tactic(auto)]

mod crowds;
mod elements;
mod halls;
mod past;
mod proposing;
mod ranges;
mod sums;
mod watch;
mod weakening;

pub use past::{is_one_since, met_by, place_met, told_by};
pub use proposing::propose;
pub use ranges::is_bound;
pub use watch::{is_proper_in, is_told};
