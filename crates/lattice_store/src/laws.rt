//! What holds of every seat.

ghost use Rattle.std.specs.Prelude.{IfSome};
ghost use Rattle.interval.specs.Boxes.{IsInside};
ghost use Rattle.lattice_store.specs.Seats.{seen_of, floor_of, IsFirst, IsPast};

use crate::seat::Seat;

impl Seat {
    /// What a seat has seen holds its floor, and the first seat is never past. It does nothing.
    pub fn law_floor(&self)
        ensures floor { IfSome (floor_of self.now) (λ f. IsInside f (seen_of self.now)) }
        ensures first { IsFirst self.now → ¬ IsPast self.now }
    {
        let _seen = &self.seen;
    }
}
