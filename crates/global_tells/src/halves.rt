//! All different of more places than a word has bits: sets of the places of each half of the list.

ghost use Rattle.std.specs.Prelude.{◌≡◌, ◌<◌, ◌≤◌, ◌++◌, ◌∷◌, ℕ, List, [], length};
ghost use Rattle.std.specs.Bool.{OnTrue};
ghost use Rattle.std.specs.List.{flat_map};
ghost use Rattle.interval.specs.Boxes.{low_of, high_of};
ghost use Rattle.tells.specs.Words.{AreVariables};
ghost use Rattle.tells.specs.Hearing.{MayHearAll, HearsAll};
ghost use Rattle.global_tells.specs.Ranges.{place_limit};
ghost use Rattle.global_tells.specs.Places.{AreUpToHighs, places_from, places_to};
ghost use Rattle.global_tells.specs.AllDifferent.{range_tells, all_different_tells};

use crate::all_different::{Ends, has_numbers, is_full, is_overfull, tell_range};
use crate::places::{Places, WORD_PLACES, count_inside, has_no_others, places_from, places_to};
use interval::BoxOf;
use tells::Hear;

/// The most places of a list.
const MOST_PLACES: usize = 256;

/// Half of a list, no longer than a word, and for each place of the whole list the places of this half up to its high.
#[derive(Clone, Copy)]
struct Half<'a> {
    /// The half.
    xs: &'a [u32],
    /// Those places.
    upto: &'a [Places],
}

/// What half of a list says of a range.
#[derive(Clone, Copy)]
struct Sides {
    /// The places from the range's first number on.
    from: Places,
    /// Those up to its last.
    upto: Places,
}

/// Tells of the ranges, of which sets of places say whether there is anything to tell.
pub fn tell_by_halves<H: Hear>(xs: &[u32], b: &BoxOf, h: &mut H)
    requires variables { AreVariables (length b.now) xs.now }
    requires long { 128 ≤ length xs.now }
    requires short { length xs.now ≤ 256 }
    requires hearer { MayHearAll H.can_hear H.hears h.old (all_different_tells xs.now b.now) }
    ensures { HearsAll H.hears h.old (all_different_tells xs.now b.now) h.new }
{
    let (front, back) = xs.split_at(WORD_PLACES);
    let front_upto = places_up_to(front, xs, b);
    let back_upto = places_up_to(back, xs, b);
    let front = Half {
        xs: front,
        upto: &front_upto,
    };
    let back = Half {
        xs: back,
        upto: &back_upto,
    };
    tell_ranges_by_halves(xs, &front, &back, b, h);
}

/// The same, by both halves.
fn tell_ranges_by_halves<H: Hear>(
    xs: &[u32],
    front: &Half<'_>,
    back: &Half<'_>,
    b: &BoxOf,
    h: &mut H,
)
    requires variables { AreVariables (length b.now) xs.now }
    requires short { length xs.now ≤ 256 }
    requires front_variables { AreVariables (length b.now) front.now.xs.now }
    requires back_variables { AreVariables (length b.now) back.now.xs.now }
    requires front_few { length front.now.xs.now ≤ 128 }
    requires back_few { length back.now.xs.now ≤ 128 }
    requires whole { front.now.xs.now ++ back.now.xs.now ≡ xs.now }
    requires front_upto { AreUpToHighs front.now.xs.now xs.now b.now front.now.upto.now }
    requires back_upto { AreUpToHighs back.now.xs.now xs.now b.now back.now.upto.now }
    requires hearer { MayHearAll H.can_hear H.hears h.old (all_different_tells xs.now b.now) }
    ensures { HearsAll H.hears h.old (all_different_tells xs.now b.now) h.new }
{
    for i in 0..xs.len() {
        tell_from_by_halves(xs, xs[i], front, back, b, h);
    }
}

/// Tells of the ranges that begin with the low of one variable.
fn tell_from_by_halves<H: Hear>(
    xs: &[u32],
    first: u32,
    front: &Half<'_>,
    back: &Half<'_>,
    b: &BoxOf,
    h: &mut H,
)
    requires variables { AreVariables (length b.now) xs.now }
    requires short { length xs.now ≤ 256 }
    requires first { first < length b.now }
    requires front_variables { AreVariables (length b.now) front.now.xs.now }
    requires back_variables { AreVariables (length b.now) back.now.xs.now }
    requires front_few { length front.now.xs.now ≤ 128 }
    requires back_few { length back.now.xs.now ≤ 128 }
    requires whole { front.now.xs.now ++ back.now.xs.now ≡ xs.now }
    requires front_upto { AreUpToHighs front.now.xs.now xs.now b.now front.now.upto.now }
    requires back_upto { AreUpToHighs back.now.xs.now xs.now b.now back.now.upto.now }
    requires hearer { MayHearAll H.can_hear H.hears h.old
        (flat_map (λ y. range_tells xs.now b.now (low_of b.now first) (high_of b.now y)) xs.now) }
    ensures { HearsAll H.hears h.old
        (flat_map (λ y. range_tells xs.now b.now (low_of b.now first) (high_of b.now y)) xs.now) h.new }
{
    let front_from = places_from(front.xs, first, b);
    let back_from = places_from(back.xs, first, b);
    for j in 0..xs.len() {
        let ends = Ends { first, last: xs[j] };
        let front_sides = Sides {
            from: front_from,
            upto: front.upto[j],
        };
        let back_sides = Sides {
            from: back_from,
            upto: back.upto[j],
        };
        let untold = is_untold_by_halves(ends, &front_sides, &back_sides, b);
        tell_unless(untold, xs, ends, b, h);
    }
}

/// Tells of one range, unless there is nothing to tell.
#[tactic(auto, unfolding(crate::specs::Ranges::place_limit))]
fn tell_unless<H: Hear>(untold: bool, xs: &[u32], ends: Ends, b: &BoxOf, h: &mut H)
    requires variables { AreVariables (length b.now) xs.now }
    requires short { length xs.now ≤ 256 }
    requires first { ends.first < length b.now }
    requires last { ends.last < length b.now }
    requires untold { OnTrue untold (range_tells xs.now b.now (low_of b.now ends.first) (high_of b.now ends.last) ≡ []) }
    requires hearer { MayHearAll H.can_hear H.hears h.old
        (range_tells xs.now b.now (low_of b.now ends.first) (high_of b.now ends.last)) }
    ensures { HearsAll H.hears h.old
        (range_tells xs.now b.now (low_of b.now ends.first) (high_of b.now ends.last)) h.new }
{
    if !untold {
        tell_range(xs, ends, b, h);
    }
}

/// For each place of the whole list the places of a half up to its high.
fn places_up_to(xs: &[u32], lasts: &[u32], b: &BoxOf) -> [Places; MOST_PLACES]
    requires variables { AreVariables (length b.now) xs.now }
    requires few { length xs.now ≤ 128 }
    requires lasts { AreVariables (length b.now) lasts.now }
    requires short { length lasts.now ≤ 256 }
    ensures { AreUpToHighs xs.now lasts.now b.now result }
{
    let mut upto = [Places { lows: 0, highs: 0 }; MOST_PLACES];
    for j in 0..lasts.len() {
        upto[j] = places_to(xs, lasts[j], b);
    }
    upto
}

/// Whether nothing is told of the range, by what both halves say of it.
#[tactic(auto, unfolding(crate::specs::Ranges::place_limit))]
fn is_untold_by_halves(ends: Ends, front: &Sides, back: &Sides, b: &BoxOf) -> bool
    requires first { ends.first < length b.now }
    requires last { ends.last < length b.now }
    ensures { OnTrue result ((xs ys : List ℕ)
        → front.now.from ≡ places_from b.now (low_of b.now ends.first) xs
        → front.now.upto ≡ places_to b.now (high_of b.now ends.last) xs
        → back.now.from ≡ places_from b.now (low_of b.now ends.first) ys
        → back.now.upto ≡ places_to b.now (high_of b.now ends.last) ys
        → range_tells (xs ++ ys) b.now (low_of b.now ends.first) (high_of b.now ends.last) ≡ []) }
{
    if !has_numbers(ends, b) {
        return true;
    }
    let front_count = count_inside(&front.from, &front.upto);
    let back_count = count_inside(&back.from, &back.upto);
    let count = front_count + back_count;
    if is_overfull(ends, count, b) {
        return false;
    }
    if !is_full(ends, count, b) {
        return true;
    }
    if !has_no_others(&front.from, &front.upto) {
        return false;
    }
    has_no_others(&back.from, &back.upto)
}
