//! Membership in a set of numbers.

ghost use Rattle.std.specs.Prelude.{◌≡◌, ◌<◌, ◌≤◌, ◌≤ℤ◌, true, false, ℤ, length, int_lt, int_le};
ghost use Rattle.std.specs.Int.{int_min, int_max};
ghost use Rattle.std.specs.List.{flat_map, list_any};
ghost use Rattle.std.specs.List.Sorted.{IsPartitionPoint};
ghost use Rattle.interval.specs.Boxes.{low_of, high_of};
ghost use Rattle.tells.specs.Words as words;
ghost use Rattle.tells.specs.Hearing.{MayHearAll, HearsAll};
ghost use Rattle.set_tells.specs.InSet as set;
ghost use Rattle.set_tells.specs.InSet.{IsSet};
ghost use Rattle.extreme_tells.specs.Extremes.{at_place, last_of};

use interval::BoxOf;
use tells::{Hear, Lit, Tell, high_tell, is_out, is_sure, low_tell, tell_false, tell_true};

/// Gives the tells of the membership to `h`, in order. It searches the ranges twice, by halves.
pub fn visit_in_set<H: Hear>(lit: Lit, x: u32, ranges: &[(i64, i64)], b: &BoxOf, h: &mut H)
    requires ranges { IsSet ranges.now }
    requires literal { lit.var < length b.now }
    requires variable { x < length b.now }
    requires proper { low_of b.now x ≤ℤ high_of b.now x }
    requires hearer { MayHearAll H.can_hear H.hears h.old (set.in_set_tells lit x ranges.now b.now) }
    ensures { HearsAll H.hears h.old (set.in_set_tells lit x ranges.now b.now) h.new }
{
    let first = first_from(ranges, x, b);
    let count = count_upto(ranges, x, b);
    tell_at(lit, x, ranges, first, count, b, h);
}

/// The place of the first range that ends at or after the low of x; past all where there is none.
fn first_from(ranges: &[(i64, i64)], x: u32, b: &BoxOf) -> usize
    requires ranges { IsSet ranges.now }
    requires variable { x < length b.now }
    ensures bound { result ≤ length ranges.now }
    ensures point { IsPartitionPoint (λ r. int_lt r.1 (low_of b.now x) ≡ true)
        (λ r. int_lt r.1 (low_of b.now x) ≡ false) ranges.now result }
{
    let low = b.low(x);
    ranges.partition_point(
        |range: &(i64, i64)| -> bool
            ensures { result ≡ int_lt range.now.1 low }
        { range.1 < low },
    )
}

/// How many ranges begin at or before the high of x.
fn count_upto(ranges: &[(i64, i64)], x: u32, b: &BoxOf) -> usize
    requires ranges { IsSet ranges.now }
    requires variable { x < length b.now }
    ensures bound { result ≤ length ranges.now }
    ensures point { IsPartitionPoint (λ r. int_le r.0 (high_of b.now x) ≡ true)
        (λ r. int_le r.0 (high_of b.now x) ≡ false) ranges.now result }
{
    let high = b.high(x);
    ranges.partition_point(
        |range: &(i64, i64)| -> bool
            ensures { result ≡ int_le range.now.0 high }
        { range.0 <= high },
    )
}

/// Gives the tells by the two places.
fn tell_at<H: Hear>(
    lit: Lit,
    x: u32,
    ranges: &[(i64, i64)],
    first: usize,
    count: usize,
    b: &BoxOf,
    h: &mut H,
)
    requires literal { lit.var < length b.now }
    requires variable { x < length b.now }
    requires count { count ≤ length ranges.now }
    requires hearer { MayHearAll H.can_hear H.hears h.old (set.in_set_tells_at lit x ranges.now first count b.now) }
    ensures { HearsAll H.hears h.old (set.in_set_tells_at lit x ranges.now first count b.now) h.new }
{
    tell_membership(lit, x, ranges, first, b, h);
    tell_bounds(lit, x, ranges, first, count, b, h);
}

/// Tells the literal where the box decides the membership.
fn tell_membership<H: Hear>(
    lit: Lit,
    x: u32,
    ranges: &[(i64, i64)],
    first: usize,
    b: &BoxOf,
    h: &mut H,
)
    requires variable { x < length b.now }
    requires hearer { MayHearAll H.can_hear H.hears h.old
        (set.membership_tells lit (at_place ranges.now first) (low_of b.now x) (high_of b.now x)) }
    ensures { HearsAll H.hears h.old
        (set.membership_tells lit (at_place ranges.now first) (low_of b.now x) (high_of b.now x)) h.new }
{
    if has_all(ranges, first, x, b) {
        h.hear(tell_true(lit));
    }
    if !has_some(ranges, first, x, b) {
        h.hear(tell_false(lit));
    }
}

/// Whether the range at the place has all values of x.
fn has_all(ranges: &[(i64, i64)], place: usize, x: u32, b: &BoxOf) -> bool
    requires { x < length b.now }
    ensures { result ≡ list_any (set.has_all (low_of b.now x) (high_of b.now x)) (at_place ranges.now place) }
{
    if place < ranges.len() {
        covers(&ranges[place], x, b)
    } else {
        false
    }
}

/// Whether the range has all values of x.
fn covers(range: &(i64, i64), x: u32, b: &BoxOf) -> bool
    requires { x < length b.now }
    ensures { result ≡ set.has_all (low_of b.now x) (high_of b.now x) range.now }
{
    range.0 <= b.low(x) && b.high(x) <= range.1
}

/// Whether the range at the place has some value of x.
fn has_some(ranges: &[(i64, i64)], place: usize, x: u32, b: &BoxOf) -> bool
    requires { x < length b.now }
    ensures { result ≡ list_any (set.has_some (low_of b.now x) (high_of b.now x)) (at_place ranges.now place) }
{
    if place < ranges.len() {
        meets(&ranges[place], x, b)
    } else {
        false
    }
}

/// Whether the range has some value of x.
fn meets(range: &(i64, i64), x: u32, b: &BoxOf) -> bool
    requires { x < length b.now }
    ensures { result ≡ set.has_some (low_of b.now x) (high_of b.now x) range.now }
{
    range.0 <= b.high(x) && b.low(x) <= range.1
}

/// Tells the bounds of x where the box decides the literal.
fn tell_bounds<H: Hear>(
    lit: Lit,
    x: u32,
    ranges: &[(i64, i64)],
    first: usize,
    count: usize,
    b: &BoxOf,
    h: &mut H,
)
    requires literal { lit.var < length b.now }
    requires variable { x < length b.now }
    requires count { count ≤ length ranges.now }
    requires hearer { MayHearAll H.can_hear H.hears h.old (set.bound_tells_at lit x ranges.now first count b.now) }
    ensures { HearsAll H.hears h.old (set.bound_tells_at lit x ranges.now first count b.now) h.new }
{
    tell_where_sure(lit, x, ranges, first, count, b, h);
    tell_where_out(lit, x, ranges, first, count, b, h);
}

/// Tells that x is in the set, where the literal is sure.
fn tell_where_sure<H: Hear>(
    lit: Lit,
    x: u32,
    ranges: &[(i64, i64)],
    first: usize,
    count: usize,
    b: &BoxOf,
    h: &mut H,
)
    requires literal { lit.var < length b.now }
    requires variable { x < length b.now }
    requires count { count ≤ length ranges.now }
    requires hearer { MayHearAll H.can_hear H.hears h.old
        (words.when (words.is_sure lit b.now) (set.member_tells_at x ranges.now first count b.now)) }
    ensures { HearsAll H.hears h.old
        (words.when (words.is_sure lit b.now) (set.member_tells_at x ranges.now first count b.now)) h.new }
{
    if is_sure(lit, b) {
        tell_members(x, ranges, first, count, b, h);
    }
}

/// Tells that x isn't in the set, where the literal is out.
fn tell_where_out<H: Hear>(
    lit: Lit,
    x: u32,
    ranges: &[(i64, i64)],
    first: usize,
    count: usize,
    b: &BoxOf,
    h: &mut H,
)
    requires literal { lit.var < length b.now }
    requires variable { x < length b.now }
    requires count { count ≤ length ranges.now }
    requires hearer { MayHearAll H.can_hear H.hears h.old
        (words.when (words.is_out lit b.now) (set.gap_tells_at x ranges.now first count b.now)) }
    ensures { HearsAll H.hears h.old
        (words.when (words.is_out lit b.now) (set.gap_tells_at x ranges.now first count b.now)) h.new }
{
    if is_out(lit, b) {
        tell_gaps(x, ranges, first, count, b, h);
    }
}

/// Tells that x is in the set.
fn tell_members<H: Hear>(
    x: u32,
    ranges: &[(i64, i64)],
    first: usize,
    count: usize,
    b: &BoxOf,
    h: &mut H,
)
    requires variable { x < length b.now }
    requires count { count ≤ length ranges.now }
    requires hearer { MayHearAll H.can_hear H.hears h.old (set.member_tells_at x ranges.now first count b.now) }
    ensures { HearsAll H.hears h.old (set.member_tells_at x ranges.now first count b.now) h.new }
{
    tell_from(x, ranges, first, b, h);
    tell_upto(x, ranges, count, b, h);
}

/// Tells that x isn't in the set.
fn tell_gaps<H: Hear>(
    x: u32,
    ranges: &[(i64, i64)],
    first: usize,
    count: usize,
    b: &BoxOf,
    h: &mut H,
)
    requires variable { x < length b.now }
    requires count { count ≤ length ranges.now }
    requires hearer { MayHearAll H.can_hear H.hears h.old (set.gap_tells_at x ranges.now first count b.now) }
    ensures { HearsAll H.hears h.old (set.gap_tells_at x ranges.now first count b.now) h.new }
{
    tell_past(x, ranges, first, b, h);
    tell_before(x, ranges, count, b, h);
}

/// Tells that x is at least the least number from its low on in the range at the place.
fn tell_from<H: Hear>(x: u32, ranges: &[(i64, i64)], place: usize, b: &BoxOf, h: &mut H)
    requires variable { x < length b.now }
    requires hearer { MayHearAll H.can_hear H.hears h.old (set.from_tells x (low_of b.now x) (at_place ranges.now place)) }
    ensures { HearsAll H.hears h.old (set.from_tells x (low_of b.now x) (at_place ranges.now place)) h.new }
{
    if place < ranges.len() {
        h.hear(from_tell(&ranges[place], x, b));
    }
}

/// The tell of the least number from the low of x on in the range.
fn from_tell(range: &(i64, i64), x: u32, b: &BoxOf) -> Tell
    requires { x < length b.now }
    ensures { result ≡ words.low_tell x (int_max range.now.0 (low_of b.now x)) }
{
    low_tell(x, range.0.max(b.low(x)) as i128)
}

/// Tells that x is at most the greatest number up to its high in the last of the first `count` ranges.
fn tell_upto<H: Hear>(x: u32, ranges: &[(i64, i64)], count: usize, b: &BoxOf, h: &mut H)
    requires variable { x < length b.now }
    requires count { count ≤ length ranges.now }
    requires hearer { MayHearAll H.can_hear H.hears h.old (set.upto_tells x (high_of b.now x) (last_of ranges.now count)) }
    ensures { HearsAll H.hears h.old (set.upto_tells x (high_of b.now x) (last_of ranges.now count)) h.new }
{
    if count > 0 {
        h.hear(upto_tell(&ranges[count - 1], x, b));
    }
}

/// The tell of the greatest number up to the high of x in the range.
fn upto_tell(range: &(i64, i64), x: u32, b: &BoxOf) -> Tell
    requires { x < length b.now }
    ensures { result ≡ words.high_tell x (int_min range.now.1 (high_of b.now x)) }
{
    high_tell(x, range.1.min(b.high(x)) as i128)
}

/// Tells that x is past the range at the place, if that range has its low.
fn tell_past<H: Hear>(x: u32, ranges: &[(i64, i64)], place: usize, b: &BoxOf, h: &mut H)
    requires variable { x < length b.now }
    requires hearer { MayHearAll H.can_hear H.hears h.old
        (flat_map (set.past_tells x (low_of b.now x)) (at_place ranges.now place)) }
    ensures { HearsAll H.hears h.old (flat_map (set.past_tells x (low_of b.now x)) (at_place ranges.now place)) h.new }
{
    if place < ranges.len() {
        tell_past_range(&ranges[place], x, b, h);
    }
}

/// Tells that x is past the range, if it has the low of x.
fn tell_past_range<H: Hear>(range: &(i64, i64), x: u32, b: &BoxOf, h: &mut H)
    requires variable { x < length b.now }
    requires hearer { MayHearAll H.can_hear H.hears h.old (set.past_tells x (low_of b.now x) range.now) }
    ensures { HearsAll H.hears h.old (set.past_tells x (low_of b.now x) range.now) h.new }
{
    if has_low(range, x, b) {
        h.hear(low_tell(x, range.1 as i128 + 1));
    }
}

/// Whether the range has the low of x.
fn has_low(range: &(i64, i64), x: u32, b: &BoxOf) -> bool
    requires { x < length b.now }
    ensures { result ≡ set.has_number (low_of b.now x) range.now }
{
    range.0 <= b.low(x) && b.low(x) <= range.1
}

/// Tells that x is before the last of the first `count` ranges, if that range has its high.
fn tell_before<H: Hear>(x: u32, ranges: &[(i64, i64)], count: usize, b: &BoxOf, h: &mut H)
    requires variable { x < length b.now }
    requires count { count ≤ length ranges.now }
    requires hearer { MayHearAll H.can_hear H.hears h.old
        (flat_map (set.before_tells x (high_of b.now x)) (last_of ranges.now count)) }
    ensures { HearsAll H.hears h.old (flat_map (set.before_tells x (high_of b.now x)) (last_of ranges.now count)) h.new }
{
    if count > 0 {
        tell_before_range(&ranges[count - 1], x, b, h);
    }
}

/// Tells that x is before the range, if it has the high of x.
fn tell_before_range<H: Hear>(range: &(i64, i64), x: u32, b: &BoxOf, h: &mut H)
    requires variable { x < length b.now }
    requires hearer { MayHearAll H.can_hear H.hears h.old (set.before_tells x (high_of b.now x) range.now) }
    ensures { HearsAll H.hears h.old (set.before_tells x (high_of b.now x) range.now) h.new }
{
    if has_high(range, x, b) {
        h.hear(high_tell(x, range.0 as i128 - 1));
    }
}

/// Whether the range has the high of x.
fn has_high(range: &(i64, i64), x: u32, b: &BoxOf) -> bool
    requires { x < length b.now }
    ensures { result ≡ set.has_number (high_of b.now x) range.now }
{
    range.0 <= b.high(x) && b.high(x) <= range.1
}
