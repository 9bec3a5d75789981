//! Numbers that threads draw from one object, each of them once. Each number has a shared word, 0 until it is drawn. Each
//! thread has a seat, which goes over the words from the first on.
//!
//! `draw` gives a number at or above the seat's next, or none once all are passed; a seat with all parts that has answered none
//! has drawn each number exactly once. It stands on `interval` and on the kit's `atomic_table`. That a thread draws at all
//! isn't claimed.
#![tactic(auto)]

mod laws;
mod seat;
mod steps;
mod table;
mod tickets;

pub use laws::law_counting;
pub use seat::TicketSeat;
pub use tickets::Tickets;
