//! Telling sets and bounds.

ghost use Rattle.std.specs.Prelude.{◌≡◌, ◌≢◌, ◌≤ℤ◌, ◌<ℤ◌, IsTrue, IsFalse, IfSome};
ghost use Rattle.interval.specs.Limits.{IsBound};
ghost use Rattle.bit_domain.specs.Bits.{IsSubset};
ghost use Rattle.bit_domain.specs.Mixes.{IsInsideMix};
ghost use Rattle.mix_store.specs.Domains.{IsBitsAt, IsPairAt, set_of, low_of, high_of, set_put, low_put, high_put};
ghost use Rattle.mix_store.specs.Seats.{seen_of, floor_of, IsSeatOf, IsSameSeat};

use crate::seat::MixSeat;
use crate::seen::{high_at, low_at, put_high, put_low, put_set, set_at};
use crate::steps::{keep, lower, raise};
use crate::store::MixStore;
use crate::words::{bound_of, distance_of};

impl MixStore {
    /// Tells that variable `v`, which is kept as bits, has no bit outside `set`. Answers whether the bits that the seat
    /// has seen changed.
    pub fn keep_set(&self, seat: &mut MixSeat, v: u32, set: u64) -> bool
        requires store { IsSeatOf self.now seat.old }
        requires variable { IsBitsAt (seen_of seat.old) v }
        requires floor { IfSome (floor_of seat.old) (λ f. IsSubset (set_of f v) set) }
        ensures seen { seen_of seat.new ≡ set_put (seen_of seat.old) v (set_of (seen_of seat.new) v) }
        ensures inside { IsInsideMix (seen_of seat.new) (seen_of seat.old) }
        ensures not_behind { IsSubset (set_of (seen_of seat.new) v) (set_of (seen_of seat.old) v) }
        ensures changed { IsTrue result → set_of (seen_of seat.new) v ≢ set_of (seen_of seat.old) v }
        ensures unchanged { IsFalse result → seen_of seat.new ≡ seen_of seat.old }
        ensures told { IsSubset (set_of (seen_of seat.new) v) set }
        ensures floor { IfSome (floor_of seat.new) (λ f. IsSubset (set_of f v) (set_of (seen_of seat.new) v)) }
        ensures seat { IsSameSeat seat.old seat.new }
    {
        let k = self.place(v);
        let before = set_at(&seat.seen, v);
        let found = keep(&self.table, &mut seat.place, k, set);
        let kept = found & set;
        put_set(&mut seat.seen, v, kept);
        kept != before
    }

    /// Tells that variable `v`, which is kept as a pair, is at least `value`. Answers whether the lower bound that the
    /// seat has seen changed.
    pub fn tell_low(&self, seat: &mut MixSeat, v: u32, value: i64) -> bool
        requires store { IsSeatOf self.now seat.old }
        requires variable { IsPairAt (seen_of seat.old) v }
        requires in_range { IsBound value }
        requires floor { IfSome (floor_of seat.old) (λ f. value ≤ℤ low_of f v) }
        ensures seen { seen_of seat.new ≡ low_put (seen_of seat.old) v (low_of (seen_of seat.new) v) }
        ensures inside { IsInsideMix (seen_of seat.new) (seen_of seat.old) }
        ensures changed { IsTrue result → low_of (seen_of seat.old) v <ℤ low_of (seen_of seat.new) v }
        ensures unchanged { IsFalse result → seen_of seat.new ≡ seen_of seat.old }
        ensures told { value ≤ℤ low_of (seen_of seat.new) v }
        ensures floor { IfSome (floor_of seat.new) (λ f. low_of (seen_of seat.new) v ≤ℤ low_of f v) }
        ensures seat { IsSameSeat seat.old seat.new }
    {
        let k = self.place(v);
        let before = low_at(&seat.seen, v);
        let word = distance_of(value);
        let found = raise(&self.table, &mut seat.place, k, word);
        let low = bound_of(found.max(word));
        put_low(&mut seat.seen, v, low);
        before < low
    }

    /// Tells that variable `v`, which is kept as a pair, is at most `value`. Answers whether the upper bound that the
    /// seat has seen changed.
    pub fn tell_high(&self, seat: &mut MixSeat, v: u32, value: i64) -> bool
        requires store { IsSeatOf self.now seat.old }
        requires variable { IsPairAt (seen_of seat.old) v }
        requires in_range { IsBound value }
        requires floor { IfSome (floor_of seat.old) (λ f. high_of f v ≤ℤ value) }
        ensures seen { seen_of seat.new ≡ high_put (seen_of seat.old) v (high_of (seen_of seat.new) v) }
        ensures inside { IsInsideMix (seen_of seat.new) (seen_of seat.old) }
        ensures changed { IsTrue result → high_of (seen_of seat.new) v <ℤ high_of (seen_of seat.old) v }
        ensures unchanged { IsFalse result → seen_of seat.new ≡ seen_of seat.old }
        ensures told { high_of (seen_of seat.new) v ≤ℤ value }
        ensures floor { IfSome (floor_of seat.new) (λ f. high_of f v ≤ℤ high_of (seen_of seat.new) v) }
        ensures seat { IsSameSeat seat.old seat.new }
    {
        let k = self.place(v) + 1;
        let before = high_at(&seat.seen, v);
        let word = distance_of(value);
        let found = lower(&self.table, &mut seat.place, k, word);
        let high = bound_of(found.min(word));
        put_high(&mut seat.seen, v, high);
        high < before
    }
}
