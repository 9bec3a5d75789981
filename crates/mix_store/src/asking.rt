//! Asking sets and bounds.

ghost use Rattle.std.specs.Prelude.{◌≡◌, ◌≤ℤ◌, IfSome};
ghost use Rattle.interval.specs.Limits.{IsBound};
ghost use Rattle.bit_domain.specs.Bits.{IsSubset};
ghost use Rattle.bit_domain.specs.Mixes.{IsInsideMix};
ghost use Rattle.mix_store.specs.Domains.{IsBitsAt, IsPairAt, set_of, low_of, high_of, set_put, low_put, high_put};
ghost use Rattle.mix_store.specs.Seats.{seen_of, floor_of, IsSeatOf, IsSameSeat};

use crate::seat::MixSeat;
use crate::seen::{put_high, put_low, put_set};
use crate::steps::look;
use crate::store::MixStore;
use crate::words::bound_of;

impl MixStore {
    /// The bits of variable `v`, which is kept as bits, that the seat has seen after one load of them.
    pub fn ask_set(&self, seat: &mut MixSeat, v: u32) -> u64
        requires store { IsSeatOf self.now seat.old }
        requires variable { IsBitsAt (seen_of seat.old) v }
        ensures value { result ≡ set_of (seen_of seat.new) v }
        ensures seen { seen_of seat.new ≡ set_put (seen_of seat.old) v result }
        ensures inside { IsInsideMix (seen_of seat.new) (seen_of seat.old) }
        ensures not_behind { IsSubset result (set_of (seen_of seat.old) v) }
        ensures floor { IfSome (floor_of seat.new) (λ f. IsSubset (set_of f v) result) }
        ensures seat { IsSameSeat seat.old seat.new }
    {
        let k = self.place(v);
        let set = look(&self.table, &mut seat.place, k);
        put_set(&mut seat.seen, v, set);
        set
    }

    /// The tightest lower bound of variable `v`, which is kept as a pair, that the seat has seen after one load of it.
    pub fn ask_low(&self, seat: &mut MixSeat, v: u32) -> i64
        requires store { IsSeatOf self.now seat.old }
        requires variable { IsPairAt (seen_of seat.old) v }
        ensures value { result ≡ low_of (seen_of seat.new) v }
        ensures seen { seen_of seat.new ≡ low_put (seen_of seat.old) v result }
        ensures inside { IsInsideMix (seen_of seat.new) (seen_of seat.old) }
        ensures not_behind { low_of (seen_of seat.old) v ≤ℤ result }
        ensures floor { IfSome (floor_of seat.new) (λ f. result ≤ℤ low_of f v) }
        ensures in_range { IsBound result }
        ensures seat { IsSameSeat seat.old seat.new }
    {
        let k = self.place(v);
        let word = look(&self.table, &mut seat.place, k);
        let low = bound_of(word);
        put_low(&mut seat.seen, v, low);
        low
    }

    /// The tightest upper bound of variable `v`, which is kept as a pair, that the seat has seen after one load of it.
    pub fn ask_high(&self, seat: &mut MixSeat, v: u32) -> i64
        requires store { IsSeatOf self.now seat.old }
        requires variable { IsPairAt (seen_of seat.old) v }
        ensures value { result ≡ high_of (seen_of seat.new) v }
        ensures seen { seen_of seat.new ≡ high_put (seen_of seat.old) v result }
        ensures inside { IsInsideMix (seen_of seat.new) (seen_of seat.old) }
        ensures not_behind { result ≤ℤ high_of (seen_of seat.old) v }
        ensures floor { IfSome (floor_of seat.new) (λ f. high_of f v ≤ℤ result) }
        ensures in_range { IsBound result }
        ensures seat { IsSameSeat seat.old seat.new }
    {
        let k = self.place(v) + 1;
        let word = look(&self.table, &mut seat.place, k);
        let high = bound_of(word);
        put_high(&mut seat.seen, v, high);
        high
    }
}
