//! Jobs: what the workers run.

use memory::NoMemory;
use std::alloc::Global;

/// Runs of the numbers below a count. Each worker has an `S`, its seat of what all workers share (`()` where that is
/// nothing), and keeps a `W` over its runs; a run ends in an `E`. The job says what it means that runs were made with a
/// seat.
pub trait Job<S, W, E> {
    ghost use Rattle.std.specs.Prelude.{ℕ, ◌+◌, ◌<◌, List, [], ◌∷◌, ◌++◌, IfOk};

    // the numbers to run are those below it
    ghost count: { Self → ℕ };

    // it is a seat of what the workers of this job share
    ghost fits: { Self → S → Type 0 };

    // the seat has so many of the 1024 parts that all seats have together
    ghost has_parts: { S → ℕ → Type 0 };

    // a worker of this job may keep it
    ghost owns: { Self → W → Type 0 };

    // these are the runs that were made with the seat, or a seat joined into it, in the order in which they were made
    ghost stands: { Self → S → List (ℕ × E) → Type 0 };

    // several workers may run it, each with a seat of its own
    ghost may_split: { Self → Type 0 };

    /// What a worker keeps before its first run.
    fn own(&self, alloc: Global) -> Result<W, NoMemory>
        ensures { IfOk result (owns self.now) };

    /// Another seat, with one of the seat's parts, with which no run was made.
    fn split(&self, seat: &mut S) -> S
        requires may_split { may_split self.now }
        requires fits { fits self.now seat.old }
        requires parts { (n : ℕ) × (1 < n) × has_parts seat.old n }
        ensures fits { fits self.now seat.new }
        ensures parts { (n : ℕ) → has_parts seat.old (n + 1) → has_parts seat.new n }
        ensures stands { (runs : List (ℕ × E)) → stands self.now seat.old runs → stands self.now seat.new runs }
        ensures new_fits { fits self.now result }
        ensures new_parts { has_parts result 1 }
        ensures new_stands { (runs : List (ℕ × E)) → stands self.now seat.old runs → stands self.now result [] };

    /// Takes in another seat, with its parts and the runs that were made with it.
    fn join_back(&self, seat: &mut S, other: S)
        requires may_split { may_split self.now }
        requires fits { fits self.now seat.old }
        requires other_fits { fits self.now other }
        ensures fits { fits self.now seat.new }
        ensures parts { (m n : ℕ) → has_parts seat.old m → has_parts other n → has_parts seat.new (m + n) }
        ensures stands { (runs others : List (ℕ × E)) → stands self.now seat.old runs → stands self.now other others →
            stands self.now seat.new (runs ++ others) };
}
