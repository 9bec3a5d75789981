//! Sets of places of a list of variables, as the bits of a word.

ghost use Rattle.std.specs.Prelude.{◌≡◌, ◌<◌, ◌≤◌, ◌+◌, ◌*◌, ◌^◌, ℕ, List, [], cond, length, int_le, bit_and, count_ones, IsTrue, ◌↔◌};
ghost use Rattle.std.specs.Bool.{OnTrue};
ghost use Rattle.interval.specs.Boxes.{low_of, high_of};
ghost use Rattle.tells.specs.Words.{AreVariables};
ghost use Rattle.global_tells.specs.Places as places;
ghost use Rattle.global_tells.specs.Places.{AreUpToHighs, IsWithin};
ghost use Rattle.global_tells.specs.AllDifferent.{range_tells};

use crate::all_different::{Ends, has_numbers, is_full, is_overfull};
use interval::BoxOf;

/// A word has the bits of so many places.
pub const WORD_PLACES: usize = 128;

/// The places whose lows, and those whose highs, are on one side of a number. The first place is the lowest bit.
#[derive(Clone, Copy)]
pub struct Places {
    /// Those of the lows.
    pub lows: u128,
    /// Those of the highs.
    pub highs: u128,
}

/// The places whose lows, and those whose highs, are at least the low of a variable.
pub fn places_from(xs: &[u32], first: u32, b: &BoxOf) -> Places
    requires variables { AreVariables (length b.now) xs.now }
    requires few { length xs.now ≤ 128 }
    requires first { first < length b.now }
    ensures { result ≡ places.places_from b.now (low_of b.now first) xs.now }
{
    let mut lows = 0;
    let mut highs = 0;
    for i in 0..xs.len() {
        let x = xs[xs.len() - 1 - i];
        lows = with_place(is_low_from(x, first, b), lows);
        highs = with_place(has_numbers(Ends { first, last: x }, b), highs);
    }
    Places { lows, highs }
}

/// The places whose lows, and those whose highs, are at most the high of a variable.
pub fn places_to(xs: &[u32], last: u32, b: &BoxOf) -> Places
    requires variables { AreVariables (length b.now) xs.now }
    requires few { length xs.now ≤ 128 }
    requires last { last < length b.now }
    ensures { result ≡ places.places_to b.now (high_of b.now last) xs.now }
{
    let mut lows = 0;
    let mut highs = 0;
    for i in 0..xs.len() {
        let x = xs[xs.len() - 1 - i];
        lows = with_place(has_numbers(Ends { first: x, last }, b), lows);
        highs = with_place(is_high_to(x, last, b), highs);
    }
    Places { lows, highs }
}

/// For each place, the places up to its high.
pub fn places_up_to_highs(xs: &[u32], b: &BoxOf) -> [Places; WORD_PLACES]
    requires variables { AreVariables (length b.now) xs.now }
    requires few { length xs.now ≤ 128 }
    ensures { AreUpToHighs xs.now xs.now b.now result }
{
    let mut upto = [Places { lows: 0, highs: 0 }; WORD_PLACES];
    for j in 0..xs.len() {
        upto[j] = places_to(xs, xs[j], b);
    }
    upto
}

/// Whether nothing is told of the range, by the places from its first number and up to its last.
#[tactic(auto, unfolding(crate::specs::Ranges::place_limit))]
pub fn is_untold(ends: Ends, from: &Places, upto: &Places, b: &BoxOf) -> bool
    requires first { ends.first < length b.now }
    requires last { ends.last < length b.now }
    ensures { OnTrue result ((xs : List ℕ) → from.now ≡ places.places_from b.now (low_of b.now ends.first) xs
        → upto.now ≡ places.places_to b.now (high_of b.now ends.last) xs
        → range_tells xs b.now (low_of b.now ends.first) (high_of b.now ends.last) ≡ []) }
{
    if !has_numbers(ends, b) {
        return true;
    }
    let count = count_inside(from, upto);
    if is_overfull(ends, count, b) {
        return false;
    }
    if !is_full(ends, count, b) {
        return true;
    }
    has_no_others(from, upto)
}

/// How many places have no numbers but those of the range.
pub fn count_inside(from: &Places, upto: &Places) -> usize
    ensures value { result ≡ count_ones (bit_and from.now.lows upto.now.highs) }
    ensures most { result ≤ 128 }
{
    size_of(from.lows & upto.highs)
}

/// Whether only places that have no numbers but those of the range have a low or a high in it.
pub fn has_no_others(from: &Places, upto: &Places) -> bool
    ensures lows { OnTrue result (IsWithin (bit_and from.now.lows upto.now.lows) (bit_and from.now.lows upto.now.highs)) }
    ensures highs { OnTrue result (IsWithin (bit_and from.now.highs upto.now.highs) (bit_and from.now.lows upto.now.highs)) }
{
    let inside = from.lows & upto.highs;
    is_within(from.lows & upto.lows, inside) && is_within(from.highs & upto.highs, inside)
}

/// The set of places of a list that has one more in front, which may be in it.
fn with_place(is_in: bool, set: u128) -> u128
    requires { set < 2 ^ 127 }
    ensures { result ≡ cond is_in 1 0 + 2 * set }
{
    u128::from(is_in) + 2 * set
}

/// Whether the low of the variable is at least that of another.
fn is_low_from(x: u32, first: u32, b: &BoxOf) -> bool
    requires variable { x < length b.now }
    requires first { first < length b.now }
    ensures { result ≡ int_le (low_of b.now first) (low_of b.now x) }
{
    b.low(first) <= b.low(x)
}

/// Whether the high of the variable is at most that of another.
fn is_high_to(x: u32, last: u32, b: &BoxOf) -> bool
    requires variable { x < length b.now }
    requires last { last < length b.now }
    ensures { result ≡ int_le (high_of b.now x) (high_of b.now last) }
{
    b.high(x) <= b.high(last)
}

/// How many places are in the set.
fn size_of(set: u128) -> usize
    ensures value { result ≡ count_ones set }
    ensures most { result ≤ 128 }
{
    set.count_ones() as usize
}

/// Whether each place of the first set is in the second.
fn is_within(inner: u128, outer: u128) -> bool
    ensures { IsTrue result ↔ IsWithin inner outer }
{
    inner & outer == inner
}
