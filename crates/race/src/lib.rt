//! The plain search and a free one by turns, on one thread: what the faster of the two says.
//!
//! The plain search begins, and keeps what it has left over its turns. Then the free search, which learns from failures, and the
//! plain one have turns, doubled each time, of which the free one's are the shorter (`src/turns.rt`); in the end the plain one goes on alone, so that a race ends where
//! the plain search does. `first_of_race` gives the first solution of a box in the order of the search tree; there the free
//! search refutes, and in a static order finds the first solution key by key. `least_of_race` gives a solution of least
//! cost; there each search cuts its boxes below the best cost of both.
//!
//! Each answer is told by the model alone, whichever search gives it. When a turn ends is a hint of which no contract speaks.
//! It builds on `first_keys`, `free_search` and `search`. Begin with `src/first.rt`.
#![tactic(auto)]

mod first;
mod incumbent;
mod least;
mod lowering;
mod road;
mod task;
mod turns;

pub use first::first_of_race;
pub use incumbent::Incumbent;
pub use least::least_of_race;
pub use lowering::{Raced, look_below};
pub use road::{Road, RoadTurn, free_turn, road_from};
pub use task::Task;
pub use turns::Turns;
