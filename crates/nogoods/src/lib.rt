//! Nogoods: lists of literals that no solution meets, learned from a box that failed.
//!
//! `begin` makes a first one of a literal and its opposite. `resolve` takes a literal out and puts in the bounds by which a kernel told
//! it, and `resolve_by` those by which a nogood did; both look whether the literal is told, so that whatever proposes a reason is a
//! hint. `analyze` goes back along a log of what was put, and a `Learner` keeps what it finds. It builds on `literals`,
//! `trailed_box` and `fixpoint_laws`; begin with `specs/Nogoods.antt`.
#![tactic(auto)]

mod analysis;
mod bearing;
mod bounds_met;
mod crossing;
mod explaining;
mod first;
mod laws;
mod learner;
mod resolving;
mod store;
mod touched;
mod uses;
mod watches;

pub use analysis::{Learning, analyze};
pub use bearing::Bearing;
pub use first::{begin, begin_by};
pub use laws::law_nogoods;
pub use learner::Learner;
pub use resolving::{resolve, resolve_by};
pub use store::Nogood;
pub use touched::Touched;
