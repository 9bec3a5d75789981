//! What lanes share.

use memory::NoMemory;
use std::alloc::Global;

/// What the lanes of a round share. Each lane has an `S`, its seat, from the start of a round to its end, and keeps a `C` from
/// round to round. The seats of all lanes are split from a first one and taken back into it. What is shared says what it means
/// that a seat was given, that a share was run with it, and that lanes were taken back.
pub trait Shared<S, C> {
    ghost use Rattle.std.specs.Prelude.{ℕ, ◌+◌, ◌||◌, Bool, false, IfOk};

    // the number of the lanes
    ghost count: { Self → ℕ };

    // a lane may keep it in a round that begins with the seat
    ghost fits: { Self → S → C → Type 0 };

    // the second seat was given to a lane in a round that began with the first
    ghost given: { Self → S → S → Type 0 };

    // with the second seat the lane of this number ran its share in that round, and the mark says whether it saw something
    // move
    ghost ran: { Self → S → ℕ → S → Bool → Type 0 };

    // as many lanes, the first ones, were taken back in that round into the second seat, and the mark says whether one of
    // them saw something move
    ghost taken: { Self → S → ℕ → S → Bool → Type 0 };

    /// A seat for a lane.
    fn split(&self, alloc: Global, seat: &mut S) -> Result<S, NoMemory>
        requires { (first : S) × taken self.now first 0 seat.old false }
        ensures taken { (first : S) → taken self.now first 0 seat.old false → taken self.now first 0 seat.new false }
        ensures given { (first : S) → taken self.now first 0 seat.old false → IfOk result (given self.now first) };

    /// Takes back the seat of the next lane.
    fn join_back(&self, seat: &mut S, other: S)
        requires { (first : S) × (done : ℕ) × (mark : Bool) × (moved : Bool) × taken self.now first done seat.old mark × ran self.now first done other moved }
        ensures { (first : S) (done : ℕ) (mark moved : Bool) → taken self.now first done seat.old mark → ran self.now first done other moved
            → taken self.now first (done + 1) seat.new (mark || moved) };
}
