//! Propagation that asks what moved: a kernel is visited where one of its variables moved since its last visit, or a bound that
//! it reads if it is one-sided, unless it rests.
//!
//! `settle_proper` and `settle_moved` end as propagation by one thread does: with the greatest closed box inside, or that there
//! is none, or after as many rounds as the limit says; where memory is refused the box holds every closed box that it held. A
//! caller has to note what moved: each kernel that names no noted variable has to be quiet (`law_quiet_unless_moved`). No
//! clause says which kernels are passed over: each round is a sweep over all of them, forth and back by turns, so that a limit
//! is spent exactly where so many sweeps each move the box (`specs/Sweeps.antt`, `law_sweeps_decide`).
//!
//! It builds on `fixpoint_laws`, `trailed_box` and `moved_set`. There is no queue of woken kernels: sets say which ones may be
//! passed over. Begin with `src/settle.rt`, then `src/round.rt` and `src/running.rt`.
#![tactic(auto)]

mod drawing;
mod joiner;
mod laws;
mod rests;
mod round;
mod running;
mod sets;
mod settle;
mod told;

pub use laws::{law_known_unless_moved, law_quiet_unless_moved, law_sweeps_decide};
pub use rests::Rests;
pub use sets::{AskedSets, MovedSets};
pub use settle::{settle_moved, settle_proper};
