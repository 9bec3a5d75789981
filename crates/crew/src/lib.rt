//! Numbers that workers run side by side, each number once. Which of several workers runs which number is open; the ends of the
//! runs stand in the order of the numbers.
//!
//! `run_numbers` is the one call, for any job that keeps the clauses of `Job` (`src/job.rt`). One worker runs the numbers in
//! turn (`src/in_turn.rt`); several draw tickets or steal (`src/source.rt`). Where memory is refused in a run its worker draws
//! no more, the others go on, and the first seat has all parts again. It stands on `tickets`, `steal_crew` and `gate`, and knows
//! no search: `answer` does. That a thread runs isn't claimed.
#![tactic(auto)]

mod ends;
mod hand_source;
mod hiring;
mod in_turn;
mod job;
mod numbers;
mod recruit;
mod source;
mod sourced;
mod ticket_source;
mod work;
mod worker;
mod workers;

pub use job::Job;
pub use numbers::run_numbers;
pub use work::Work;
pub use workers::Workers;
