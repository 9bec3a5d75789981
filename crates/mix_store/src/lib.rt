//! Domains of variables that threads share without locks: sets of bits and pairs of bounds. Each thread has a seat; it asks and
//! tells single sets and bounds, which only tighten, whatever the threads' steps interleave to.
//!
//! The like of `lattice_store` over `bit_domain`, without epochs. That an ask shows more than its seat has
//! seen isn't claimed. Begin with `specs/Seats.antt`.
#![tactic(auto)]

mod asking;
mod close;
mod laws;
mod make;
mod seat;
mod seats;
mod seen;
mod steps;
mod store;
mod table;
mod telling;
mod words;

pub use seat::MixSeat;
pub use store::MixStore;
