//! The least value that any of some threads has posted, in one shared word that only falls. `Best` keeps the least cost of a
//! solution, `Found` the least number of a subproblem that has one. Each thread has a seat.
//!
//! A look (`seen`) answers the least that the seat has then seen, at or below all that it posted; what a seat with all 1024
//! parts has seen was posted. It stands on `interval` and on the kit's `atomic_table`. That a look shows more than its seat has
//! seen isn't claimed. Begin with `specs/Seats.antt`.
#![tactic(auto)]

mod best;
mod found;
mod object;
mod seat;
mod table;
mod word;

pub use object::{Best, Costs, Found, Numbers};
pub use seat::{BestSeat, FoundSeat};
