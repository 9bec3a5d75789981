//! A worker's numbers, and the right to take those of the others.

ghost use Rattle.std.specs.Prelude.{◌≡◌, ◌≤◌, ◌++◌, flat_map, vec_capacity};
ghost use Rattle.std.proofs.Props.{props};
ghost use Rattle.crossbeam_deque.specs.Handles.{worker_flavor, worker_view};
ghost use Rattle.steal_crew.specs.Numbers.{IsPart, numbers_below};
ghost use Rattle.steal_crew.specs.Rights.{taken_by, dealt_to};

use crate::steps::Own;
use crate::victim::Victim;

/// A worker's own numbers, in a deque, and the right to take those of the others.
#[derive(Drop)]
pub struct Hand {
    pub(crate) own: Own,
    /// In the order in which they are tried.
    pub(crate) others: Vec<Victim>,
    pub(crate) drawn: Vec<u32>,
    /// How many numbers the deal had.
    pub(crate) count: u32,
    /// Whether the last answer was that no number was found.
    pub(crate) is_done: bool,
    ghost fifo: { worker_flavor own ≡ 0 },
    ghost live: { 1 ≤ (worker_view own).parts },
    ghost within: { IsPart (worker_view own).taken (worker_view own).dealt } by { Prim.hlevel props },
    // What it gave, and what was dealt to its deques less what it took there, are together among the numbers of the deal.
    ghost below: { IsPart (drawn.items ++ ((worker_view own).dealt ++ flat_map dealt_to others.items)) (numbers_below count ++ ((worker_view own).taken ++ flat_map taken_by others.items)) } by { Prim.hlevel props },
    ghost room: { count ≤ vec_capacity drawn },
}
