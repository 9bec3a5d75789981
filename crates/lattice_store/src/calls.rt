//! Asking and telling bounds.

ghost use Rattle.std.specs.Prelude.{◌≡◌, ◌<◌, ◌≤◌, ◌≤ℤ◌, ◌<ℤ◌, length, IsTrue, IsFalse, IfSome};
ghost use Rattle.interval.specs.Limits.{IsBound};
ghost use Rattle.interval.specs.Boxes.{low_of, high_of, put_of};
ghost use Rattle.lattice_store.specs.Seats.{seen_of, floor_of, IsPast, IsSeatOf, IsSameSeat};

use crate::seat::{Seat, at};
use crate::steps::{high_place, low_place};
use crate::store::Store;
use crate::words::{high_bound, high_word, low_bound, low_word};

impl Store {
    /// The tightest lower bound of variable `v` that the seat has seen at its epoch, after one load of it.
    pub fn ask_low(&self, seat: &mut Seat, v: u32) -> i64
        requires store { IsSeatOf self.now seat.old }
        requires variable { v < length (seen_of seat.old) }
        ensures value { result ≡ low_of (seen_of seat.new) v }
        ensures seen { seen_of seat.new ≡ put_of (seen_of seat.old) v result (high_of (seen_of seat.old) v) }
        ensures not_behind { low_of (seen_of seat.old) v ≤ℤ result }
        ensures floor { IfSome (floor_of seat.new) (λ f. result ≤ℤ low_of f v) }
        ensures past { IsPast seat.new → seen_of seat.new ≡ seen_of seat.old }
        ensures in_range { IsBound result }
        ensures seat { IsSameSeat seat.old seat.new }
    {
        let k = low_place(v);
        self.look(seat, k);
        low_bound(seat.origin, at(&seat.seen, k))
    }

    /// The tightest upper bound of variable `v` that the seat has seen at its epoch, after one load of it.
    pub fn ask_high(&self, seat: &mut Seat, v: u32) -> i64
        requires store { IsSeatOf self.now seat.old }
        requires variable { v < length (seen_of seat.old) }
        ensures value { result ≡ high_of (seen_of seat.new) v }
        ensures seen { seen_of seat.new ≡ put_of (seen_of seat.old) v (low_of (seen_of seat.old) v) result }
        ensures not_behind { result ≤ℤ high_of (seen_of seat.old) v }
        ensures floor { IfSome (floor_of seat.new) (λ f. high_of f v ≤ℤ result) }
        ensures past { IsPast seat.new → seen_of seat.new ≡ seen_of seat.old }
        ensures in_range { IsBound result }
        ensures seat { IsSameSeat seat.old seat.new }
    {
        let k = high_place(v);
        self.look(seat, k);
        high_bound(seat.origin, at(&seat.seen, k))
    }

    /// Tells that variable `v` is at least `value`. Answers whether the lower bound that the seat has seen changed.
    pub fn tell_low(&self, seat: &mut Seat, v: u32, value: i64) -> bool
        requires store { IsSeatOf self.now seat.old }
        requires variable { v < length (seen_of seat.old) }
        requires in_range { IsBound value }
        requires floor { IfSome (floor_of seat.old) (λ f. value ≤ℤ low_of f v) }
        ensures seen { seen_of seat.new ≡ put_of (seen_of seat.old) v (low_of (seen_of seat.new) v) (high_of (seen_of seat.old) v) }
        ensures changed { IsTrue result → low_of (seen_of seat.old) v <ℤ low_of (seen_of seat.new) v }
        ensures unchanged { IsFalse result → seen_of seat.new ≡ seen_of seat.old }
        ensures told { (¬ IsPast seat.new) → value ≤ℤ low_of (seen_of seat.new) v }
        ensures floor { IfSome (floor_of seat.new) (λ f. low_of (seen_of seat.new) v ≤ℤ low_of f v) }
        ensures past { IsPast seat.new → IsFalse result }
        ensures seat { IsSameSeat seat.old seat.new }
    {
        let k = low_place(v);
        let before = at(&seat.seen, k);
        let word = low_word(seat.origin, value);
        self.raise(seat, k, word);
        at(&seat.seen, k) != before
    }

    /// Tells that variable `v` is at most `value`. Answers whether the upper bound that the seat has seen changed.
    pub fn tell_high(&self, seat: &mut Seat, v: u32, value: i64) -> bool
        requires store { IsSeatOf self.now seat.old }
        requires variable { v < length (seen_of seat.old) }
        requires in_range { IsBound value }
        requires floor { IfSome (floor_of seat.old) (λ f. high_of f v ≤ℤ value) }
        ensures seen { seen_of seat.new ≡ put_of (seen_of seat.old) v (low_of (seen_of seat.old) v) (high_of (seen_of seat.new) v) }
        ensures changed { IsTrue result → high_of (seen_of seat.new) v <ℤ high_of (seen_of seat.old) v }
        ensures unchanged { IsFalse result → seen_of seat.new ≡ seen_of seat.old }
        ensures told { (¬ IsPast seat.new) → high_of (seen_of seat.new) v ≤ℤ value }
        ensures floor { IfSome (floor_of seat.new) (λ f. high_of f v ≤ℤ high_of (seen_of seat.new) v) }
        ensures past { IsPast seat.new → IsFalse result }
        ensures seat { IsSameSeat seat.old seat.new }
    {
        let k = high_place(v);
        let old = at(&seat.seen, k);
        let word = high_word(seat.origin, value);
        self.raise(seat, k, word);
        at(&seat.seen, k) != old
    }
}
