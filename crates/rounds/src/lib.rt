//! Propagation by lanes over shared bounds: every interleaving ends in the one greatest closed box, or in that there is none.
//! Each lane runs its share of the kernels, a round ends when all lanes are done, and propagation ends with a round in which no
//! lane saw a bound move, or in which some variable has no number left.
//!
//! `Engine::propagate` keeps its store from box to box; with one share and an epoch left it takes no memory. It builds on
//! `lattice_store`, `shared_lanes`, `fixpoint_laws` and `gate`. Each lane visits all its kernels in each round, unlike
//! `moved_fixpoint`. That lanes run at once isn't claimed. Begin with `src/engine.rt`.
#![tactic(auto)]

mod cache;
mod cuts;
mod dealt;
mod engine;
mod once;
mod settling;
mod share;
mod work;

pub use cache::Cache;
pub use cuts::even_cut;
pub use engine::Engine;
pub use fixpoint_laws::Limited;
pub use once::{Propagated, propagate};
pub use share::run_share;
pub use work::Work;
