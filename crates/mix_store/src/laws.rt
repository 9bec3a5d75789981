//! What holds of every seat.

ghost use Rattle.std.specs.Prelude.{IfSome};
ghost use Rattle.bit_domain.specs.Mixes.{IsInsideMix};
ghost use Rattle.mix_store.specs.Seats.{seen_of, floor_of};

use crate::seat::MixSeat;

impl MixSeat {
    /// What a seat has seen holds its floor. It does nothing.
    pub fn law_floor(&self)
        ensures { IfSome (floor_of self.now) (λ f. IsInsideMix f (seen_of self.now)) }
    {
        let _seen = &self.seen;
    }
}
