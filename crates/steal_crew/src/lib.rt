//! Numbers that are dealt to the hands of some workers, one deque each. A hand takes its own numbers first, and then those of
//! the others; all hands together give each number once.
//!
//! Begin with `deal`, `Hand::take` and `gather`. What all have drawn holds each number at most once, and all of them once every
//! hand is done and its deque was looked at (`settle`). It stands on `tickets` for the laws of counting, and on the kit's
//! `crossbeam_deque`. Which hand gets which number isn't claimed, nor that a deque which was found empty stays so.
#![tactic(auto)]

mod dealing;
mod deque;
mod drawing;
mod gathering;
mod hand;
mod laws;
mod settling;
mod steps;
mod victim;

pub use dealing::deal;
pub use deque::View;
pub use gathering::{NotDone, gather};
pub use hand::Hand;
pub use laws::law_hands;
pub use settling::settle;
pub use victim::Victim;
