//! Bounds of variables that threads share without locks. Each thread has a seat; it asks and tells single bounds, which only
//! tighten, whatever the threads' steps interleave to. A store serves many searches one after another: its first seat opens an
//! epoch, with a new box, by joins.
//!
//! What a seat has seen never passes the floor (`law_floor`), and after a tell is as tight as what was told, unless it has seen
//! a later epoch. It stands on `interval` and on the kit's `atomic_table`, and knows no propagator: `rounds` does. That an ask
//! shows more than its seat has seen isn't claimed. Begin with `specs/Seats.antt`.
#![tactic(auto)]

mod calls;
mod close;
mod laws;
mod make;
mod open;
mod seat;
mod seats;
mod seen;
mod steps;
mod store;
mod table;
mod words;

pub use seat::Seat;
pub use store::{Full, Store};
