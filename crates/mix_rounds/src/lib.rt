//! Propagation by lanes over shared domains that keep their holes: every interleaving ends in the one greatest closed mix, or
//! in that there is none. Each lane runs its share of the kernels, tells and drops, a round ends when all lanes are done, and
//! propagation ends with a round in which no lane saw a number go, or in which some variable has no number left.
//!
//! Begin with `propagate_mix`. It builds on `mix_store`, `domain_drops`, `shared_lanes`, `fixpoint_laws` and `gate`.
#![tactic(auto)]

mod asking;
mod cache;
mod dealt;
mod laws;
mod masks;
mod propagate;
mod share;
mod telling;

pub use propagate::{PropagatedMix, propagate_mix};
