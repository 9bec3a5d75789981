//! The one fixpoint of propagation: the greatest closed box inside a start, or none, whatever the order.
//!
//! For every start exactly one of the two (`law_one_fixpoint`), and rounds in whatever order lead there (`law_rounds_lead`).
//! `settle_alone` computes it on one thread, with all kernels in each round; laws and tests alone use it. It builds on
//! `guarded_tell`. The propagation that runs is `moved_fixpoint`'s or `rounds`'. Begin with `specs/Fixpoints.antt`.
#![tactic(auto)]

mod laws;
mod limited;
mod settle;

pub use laws::{law_greatest_is_computed, law_one_fixpoint, law_rounds_lead, law_tightens_one};
pub use limited::Limited;
pub use settle::{Settled, copy_variables, settle_alone};
