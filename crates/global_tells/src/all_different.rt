//! All different: no two places of a list of variables have the same number.

ghost use Rattle.std.specs.Prelude.{◌≡◌, ◌<◌, ◌≤◌, ◌≤ℤ◌, ◌+ℤ◌, ◌-ℤ◌, pos, [], ◌∷◌, length, int_le, int_lt};
ghost use Rattle.std.specs.List.{flat_map};
ghost use Rattle.std.specs.Ordering.{int_eq};
ghost use Rattle.interval.specs.Boxes.{low_of, high_of};
ghost use Rattle.tells.specs.Words.{AreVariables, when};
ghost use Rattle.tells.specs.Words as words;
ghost use Rattle.tells.specs.Hearing.{MayHearAll, HearsAll};
ghost use Rattle.global_tells.specs.Ranges.{place_limit, is_from_to, none_tells};
ghost use Rattle.global_tells.specs.Places as sets;
ghost use Rattle.global_tells.specs.Places.{AreUpToHighs};
ghost use Rattle.global_tells.specs.AllDifferent as different;
ghost use Rattle.global_tells.specs.AllDifferent.{range_tells, counted_tells, outside_tells, numbers_between, all_different_tells};

use crate::halves::tell_by_halves;
use crate::places::{Places, WORD_PLACES, is_untold, places_from, places_up_to_highs};
use crate::ranges::{is_from_to, tell_none};
use interval::BoxOf;
use tells::{Hear, high_tell, low_tell};

/// A range of numbers, from the low of one variable to the high of another.
#[derive(Clone, Copy)]
pub struct Ends {
    /// The one whose low begins it.
    pub first: u32,
    /// The one whose high ends it.
    pub last: u32,
}

/// A list of fewer places is visited as fast without sets of places.
const FEW_PLACES: usize = 10;

/// Gives the tells of: no two places of the list have the same number, to `h`, in order. It takes no memory.
#[tactic(auto, unfolding(crate::specs::Ranges::place_limit))]
pub fn visit_all_different<H: Hear>(xs: &[u32], b: &BoxOf, h: &mut H)
    requires variables { AreVariables (length b.now) xs.now }
    requires short { length xs.now ≤ place_limit }
    requires hearer { MayHearAll H.can_hear H.hears h.old (all_different_tells xs.now b.now) }
    ensures { HearsAll H.hears h.old (all_different_tells xs.now b.now) h.new }
{
    if xs.len() < FEW_PLACES {
        tell_ranges(xs, b, h);
    } else if xs.len() <= WORD_PLACES {
        tell_by_sets(xs, b, h);
    } else {
        tell_by_halves(xs, b, h);
    }
}

/// Tells of the ranges, of which each counts its places anew.
fn tell_ranges<H: Hear>(xs: &[u32], b: &BoxOf, h: &mut H)
    requires variables { AreVariables (length b.now) xs.now }
    requires short { length xs.now ≤ place_limit }
    requires hearer { MayHearAll H.can_hear H.hears h.old (all_different_tells xs.now b.now) }
    ensures { HearsAll H.hears h.old (all_different_tells xs.now b.now) h.new }
{
    for i in 0..xs.len() {
        tell_from(xs, xs[i], b, h);
    }
}

/// Tells of the ranges, of which sets of places say whether there is anything to tell.
fn tell_by_sets<H: Hear>(xs: &[u32], b: &BoxOf, h: &mut H)
    requires variables { AreVariables (length b.now) xs.now }
    requires few { length xs.now ≤ 128 }
    requires hearer { MayHearAll H.can_hear H.hears h.old (all_different_tells xs.now b.now) }
    ensures { HearsAll H.hears h.old (all_different_tells xs.now b.now) h.new }
{
    let upto = places_up_to_highs(xs, b);
    for i in 0..xs.len() {
        tell_from_by_sets(xs, xs[i], &upto, b, h);
    }
}

/// Tells of the ranges that begin with the low of one variable, by the places up to each high.
fn tell_from_by_sets<H: Hear>(xs: &[u32], first: u32, upto: &[Places], b: &BoxOf, h: &mut H)
    requires variables { AreVariables (length b.now) xs.now }
    requires few { length xs.now ≤ 128 }
    requires first { first < length b.now }
    requires upto { AreUpToHighs xs.now xs.now b.now upto.now }
    requires hearer { MayHearAll H.can_hear H.hears h.old
        (flat_map (λ y. range_tells xs.now b.now (low_of b.now first) (high_of b.now y)) xs.now) }
    ensures { HearsAll H.hears h.old
        (flat_map (λ y. range_tells xs.now b.now (low_of b.now first) (high_of b.now y)) xs.now) h.new }
{
    let from = places_from(xs, first, b);
    for j in 0..xs.len() {
        let ends = Ends { first, last: xs[j] };
        tell_range_by_sets(xs, ends, &from, &upto[j], b, h);
    }
}

/// Tells of one range, unless the places from its first number and up to its last say that there is nothing to tell.
#[tactic(auto, unfolding(crate::specs::Ranges::place_limit))]
fn tell_range_by_sets<H: Hear>(
    xs: &[u32],
    ends: Ends,
    from: &Places,
    upto: &Places,
    b: &BoxOf,
    h: &mut H,
)
    requires variables { AreVariables (length b.now) xs.now }
    requires few { length xs.now ≤ 128 }
    requires first { ends.first < length b.now }
    requires last { ends.last < length b.now }
    requires from { from.now ≡ sets.places_from b.now (low_of b.now ends.first) xs.now }
    requires upto { upto.now ≡ sets.places_to b.now (high_of b.now ends.last) xs.now }
    requires hearer { MayHearAll H.can_hear H.hears h.old
        (range_tells xs.now b.now (low_of b.now ends.first) (high_of b.now ends.last)) }
    ensures { HearsAll H.hears h.old
        (range_tells xs.now b.now (low_of b.now ends.first) (high_of b.now ends.last)) h.new }
{
    if !is_untold(ends, from, upto, b) {
        tell_range(xs, ends, b, h);
    }
}

/// Tells of the ranges that begin with the low of one variable.
fn tell_from<H: Hear>(xs: &[u32], first: u32, b: &BoxOf, h: &mut H)
    requires variables { AreVariables (length b.now) xs.now }
    requires short { length xs.now ≤ place_limit }
    requires first { first < length b.now }
    requires hearer { MayHearAll H.can_hear H.hears h.old
        (flat_map (λ y. range_tells xs.now b.now (low_of b.now first) (high_of b.now y)) xs.now) }
    ensures { HearsAll H.hears h.old
        (flat_map (λ y. range_tells xs.now b.now (low_of b.now first) (high_of b.now y)) xs.now) h.new }
{
    for j in 0..xs.len() {
        tell_range(xs, Ends { first, last: xs[j] }, b, h);
    }
}

/// Tells of one range.
pub fn tell_range<H: Hear>(xs: &[u32], ends: Ends, b: &BoxOf, h: &mut H)
    requires variables { AreVariables (length b.now) xs.now }
    requires short { length xs.now ≤ place_limit }
    requires first { ends.first < length b.now }
    requires last { ends.last < length b.now }
    requires hearer { MayHearAll H.can_hear H.hears h.old
        (range_tells xs.now b.now (low_of b.now ends.first) (high_of b.now ends.last)) }
    ensures { HearsAll H.hears h.old
        (range_tells xs.now b.now (low_of b.now ends.first) (high_of b.now ends.last)) h.new }
{
    if has_numbers(ends, b) {
        let count = places_inside(xs, ends, b);
        tell_counted(xs, ends, count, b, h);
    }
}

/// Whether the range doesn't end before it begins.
pub fn has_numbers(ends: Ends, b: &BoxOf) -> bool
    requires first { ends.first < length b.now }
    requires last { ends.last < length b.now }
    ensures { result ≡ int_le (low_of b.now ends.first) (high_of b.now ends.last) }
{
    b.low(ends.first) <= b.high(ends.last)
}

/// How many places have no numbers but those of the range.
#[tactic(auto, unfolding(crate::specs::AllDifferent::places_inside))]
fn places_inside(xs: &[u32], ends: Ends, b: &BoxOf) -> usize
    requires variables { AreVariables (length b.now) xs.now }
    requires first { ends.first < length b.now }
    requires last { ends.last < length b.now }
    ensures value { result ≡ different.places_inside b.now (low_of b.now ends.first) (high_of b.now ends.last) xs.now }
    ensures most { result ≤ length xs.now }
{
    let mut count = 0;
    for i in 0..xs.len() {
        if is_inside(xs[i], ends, b) {
            count += 1;
        }
    }
    count
}

/// Whether the variable has no numbers but those of the range.
#[tactic(auto, unfolding(crate::specs::AllDifferent::is_inside))]
fn is_inside(x: u32, ends: Ends, b: &BoxOf) -> bool
    requires variable { x < length b.now }
    requires first { ends.first < length b.now }
    requires last { ends.last < length b.now }
    ensures { result ≡ different.is_inside b.now (low_of b.now ends.first) (high_of b.now ends.last) x }
{
    b.low(ends.first) <= b.low(x) && b.high(x) <= b.high(ends.last)
}

/// Tells of a range by how many places have no numbers but those of the range.
fn tell_counted<H: Hear>(xs: &[u32], ends: Ends, count: usize, b: &BoxOf, h: &mut H)
    requires variables { AreVariables (length b.now) xs.now }
    requires first { ends.first < length b.now }
    requires last { ends.last < length b.now }
    requires most { count ≤ place_limit }
    requires hearer { MayHearAll H.can_hear H.hears h.old
        (counted_tells xs.now b.now (low_of b.now ends.first) (high_of b.now ends.last) count) }
    ensures { HearsAll H.hears h.old
        (counted_tells xs.now b.now (low_of b.now ends.first) (high_of b.now ends.last) count) h.new }
{
    tell_overfull(xs, ends, count, b, h);
    tell_full(xs, ends, count, b, h);
}

/// Where more places have no numbers but those of the range than it has numbers, tells that none is left.
fn tell_overfull<H: Hear>(xs: &[u32], ends: Ends, count: usize, b: &BoxOf, h: &mut H)
    requires first { ends.first < length b.now }
    requires last { ends.last < length b.now }
    requires most { count ≤ place_limit }
    requires hearer { MayHearAll H.can_hear H.hears h.old
        (when (int_lt (numbers_between (low_of b.now ends.first) (high_of b.now ends.last)) (pos count)) (none_tells xs.now)) }
    ensures { HearsAll H.hears h.old
        (when (int_lt (numbers_between (low_of b.now ends.first) (high_of b.now ends.last)) (pos count)) (none_tells xs.now)) h.new }
{
    if is_overfull(ends, count, b) {
        tell_none(xs, h);
    }
}

/// Where as many places as the range has numbers have no others, tells the other places that these are taken.
fn tell_full<H: Hear>(xs: &[u32], ends: Ends, count: usize, b: &BoxOf, h: &mut H)
    requires variables { AreVariables (length b.now) xs.now }
    requires first { ends.first < length b.now }
    requires last { ends.last < length b.now }
    requires most { count ≤ place_limit }
    requires hearer { MayHearAll H.can_hear H.hears h.old
        (when (int_eq (pos count) (numbers_between (low_of b.now ends.first) (high_of b.now ends.last)))
        (flat_map (outside_tells b.now (low_of b.now ends.first) (high_of b.now ends.last)) xs.now)) }
    ensures { HearsAll H.hears h.old
        (when (int_eq (pos count) (numbers_between (low_of b.now ends.first) (high_of b.now ends.last)))
        (flat_map (outside_tells b.now (low_of b.now ends.first) (high_of b.now ends.last)) xs.now)) h.new }
{
    if is_full(ends, count, b) {
        tell_outside(xs, ends, b, h);
    }
}

/// Whether so many places are more than the range has numbers.
#[tactic(auto, unfolding(crate::specs::Ranges::place_limit))]
pub fn is_overfull(ends: Ends, count: usize, b: &BoxOf) -> bool
    requires first { ends.first < length b.now }
    requires last { ends.last < length b.now }
    requires most { count ≤ place_limit }
    ensures { result ≡ int_lt (numbers_between (low_of b.now ends.first) (high_of b.now ends.last)) (pos count) }
{
    numbers_of(ends, b) < count as i64
}

/// Whether so many places are as many as the range has numbers.
#[tactic(auto, unfolding(crate::specs::Ranges::place_limit))]
pub fn is_full(ends: Ends, count: usize, b: &BoxOf) -> bool
    requires first { ends.first < length b.now }
    requires last { ends.last < length b.now }
    requires most { count ≤ place_limit }
    ensures { result ≡ int_eq (pos count) (numbers_between (low_of b.now ends.first) (high_of b.now ends.last)) }
{
    count as i64 == numbers_of(ends, b)
}

/// How many numbers the range has; at most 0 where it ends before it begins.
#[tactic(auto, unfolding(interval::specs::Limits::bound_limit, interval::specs::Limits::largest_number))]
fn numbers_of(ends: Ends, b: &BoxOf) -> i64
    requires first { ends.first < length b.now }
    requires last { ends.last < length b.now }
    ensures { result ≡ numbers_between (low_of b.now ends.first) (high_of b.now ends.last) }
{
    b.high(ends.last) - b.low(ends.first) + 1
}

/// Tells each place that has other numbers that those of the range are taken.
fn tell_outside<H: Hear>(xs: &[u32], ends: Ends, b: &BoxOf, h: &mut H)
    requires variables { AreVariables (length b.now) xs.now }
    requires first { ends.first < length b.now }
    requires last { ends.last < length b.now }
    requires hearer { MayHearAll H.can_hear H.hears h.old
        (flat_map (outside_tells b.now (low_of b.now ends.first) (high_of b.now ends.last)) xs.now) }
    ensures { HearsAll H.hears h.old
        (flat_map (outside_tells b.now (low_of b.now ends.first) (high_of b.now ends.last)) xs.now) h.new }
{
    for k in 0..xs.len() {
        tell_taken(xs[k], ends, b, h);
    }
}

/// Tells the variable, where it has other numbers, that those of the range are taken.
fn tell_taken<H: Hear>(x: u32, ends: Ends, b: &BoxOf, h: &mut H)
    requires variable { x < length b.now }
    requires first { ends.first < length b.now }
    requires last { ends.last < length b.now }
    requires hearer { MayHearAll H.can_hear H.hears h.old
        (outside_tells b.now (low_of b.now ends.first) (high_of b.now ends.last) x) }
    ensures { HearsAll H.hears h.old
        (outside_tells b.now (low_of b.now ends.first) (high_of b.now ends.last) x) h.new }
{
    if !is_inside(x, ends, b) {
        tell_past(x, ends, b, h);
        tell_before(x, ends, b, h);
    }
}

/// Where the variable's low is in the range, tells that it is past the range.
fn tell_past<H: Hear>(x: u32, ends: Ends, b: &BoxOf, h: &mut H)
    requires variable { x < length b.now }
    requires first { ends.first < length b.now }
    requires last { ends.last < length b.now }
    requires hearer { MayHearAll H.can_hear H.hears h.old
        (when (is_from_to (low_of b.now ends.first) (high_of b.now ends.last) (low_of b.now x))
        (words.low_tell x (high_of b.now ends.last +ℤ pos 1) ∷ [])) }
    ensures { HearsAll H.hears h.old
        (when (is_from_to (low_of b.now ends.first) (high_of b.now ends.last) (low_of b.now x))
        (words.low_tell x (high_of b.now ends.last +ℤ pos 1) ∷ [])) h.new }
{
    if is_from_to(b.low(ends.first), b.high(ends.last), b.low(x)) {
        h.hear(low_tell(x, b.high(ends.last) as i128 + 1));
    }
}

/// Where the variable's high is in the range, tells that it is before the range.
fn tell_before<H: Hear>(x: u32, ends: Ends, b: &BoxOf, h: &mut H)
    requires variable { x < length b.now }
    requires first { ends.first < length b.now }
    requires last { ends.last < length b.now }
    requires hearer { MayHearAll H.can_hear H.hears h.old
        (when (is_from_to (low_of b.now ends.first) (high_of b.now ends.last) (high_of b.now x))
        (words.high_tell x (low_of b.now ends.first -ℤ pos 1) ∷ [])) }
    ensures { HearsAll H.hears h.old
        (when (is_from_to (low_of b.now ends.first) (high_of b.now ends.last) (high_of b.now x))
        (words.high_tell x (low_of b.now ends.first -ℤ pos 1) ∷ [])) h.new }
{
    if is_from_to(b.low(ends.first), b.high(ends.last), b.high(x)) {
        h.hear(high_tell(x, b.low(ends.first) as i128 - 1));
    }
}
