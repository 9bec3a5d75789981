//! What a seat has seen, read without a step.

ghost use Rattle.std.specs.Prelude.{◌≡◌, ◌<◌, length};
ghost use Rattle.interval.specs.Limits.{IsBound};
ghost use Rattle.interval.specs.Boxes.{low_of, high_of};
ghost use Rattle.lattice_store.specs.Seats.{seen_of};

use crate::seat::{Seat, at};
use crate::steps::{high_place, low_place};
use crate::words::{high_bound, low_bound};

impl Seat {
    /// The tightest lower bound of variable `v` that the seat has seen at its epoch. It looks at no shared word.
    pub fn seen_low(&self, v: u32) -> i64
        requires { v < length (seen_of self.now) }
        ensures value { result ≡ low_of (seen_of self.now) v }
        ensures in_range { IsBound result }
    {
        low_bound(self.origin, at(&self.seen, low_place(v)))
    }

    /// The tightest upper bound of variable `v` that the seat has seen at its epoch. It looks at no shared word.
    pub fn seen_high(&self, v: u32) -> i64
        requires { v < length (seen_of self.now) }
        ensures value { result ≡ high_of (seen_of self.now) v }
        ensures in_range { IsBound result }
    {
        high_bound(self.origin, at(&self.seen, high_place(v)))
    }
}
