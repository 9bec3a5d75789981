//! The element at a place of a list.

ghost use Rattle.std.specs.Prelude.{◌≡◌, ◌<◌, ◌≤◌, ◌<ℤ◌, ◌+◌, ℕ, List, pos, [], ◌∷◌, ◌++◌, cond, length};
ghost use Rattle.std.specs.Int.{int_min, int_max};
ghost use Rattle.std.specs.List.{filter, flat_map};
ghost use Rattle.std.specs.Option.{MatchOption};
ghost use Rattle.interval.specs.Boxes.{low_of, high_of};
ghost use Rattle.tells.specs.Words.{AreVariables};
ghost use Rattle.tells.specs.Hearing.{MayHearAll, HearsAll};
ghost use Rattle.extreme_tells.specs.Extremes.{member_limit};
ghost use Rattle.element_tells.specs.Element as element;
ghost use Rattle.element_tells.specs.Hull.{IsHull, IsHullOf, told_hull};

use interval::BoxOf;
use tells::{Hear, high_tell, low_tell, no_number};

/// How far the places that are left reach, and how far the bounds of their variables do.
#[derive(Clone, Copy)]
pub struct Hull {
    /// The least place.
    pub first: i64,
    /// The greatest place.
    pub last: i64,
    /// The least low.
    pub low: i64,
    /// The greatest high.
    pub high: i64,
}

/// Gives the tells of the element to `h`, in order.
pub fn visit_element<H: Hear>(x: u32, entries: &[u32], c: u32, b: &BoxOf, h: &mut H)
    requires short { length entries.now ≤ member_limit }
    requires variables { AreVariables (length b.now) (x ∷ c ∷ entries.now) }
    requires hearer { MayHearAll H.can_hear H.hears h.old (element.element_tells x entries.now c b.now) }
    ensures { HearsAll H.hears h.old (element.element_tells x entries.now c b.now) h.new }
{
    tell_range(x, entries, h);
    tell_places(x, entries, c, b, h);
}

/// Tells that x is a place of the list.
#[tactic(auto, unfolding(extreme_tells::specs::Extremes::member_limit))]
fn tell_range<H: Hear>(x: u32, entries: &[u32], h: &mut H)
    requires short { length entries.now ≤ member_limit }
    requires hearer { MayHearAll H.can_hear H.hears h.old (element.between_tells x (pos 1) (pos (length entries.now))) }
    ensures { HearsAll H.hears h.old (element.between_tells x (pos 1) (pos (length entries.now))) h.new }
{
    h.hear(low_tell(x, 1));
    h.hear(high_tell(x, entries.len() as i128));
}

/// Tells what the places that are left say, and the place that x is fixed to.
fn tell_places<H: Hear>(x: u32, entries: &[u32], c: u32, b: &BoxOf, h: &mut H)
    requires short { length entries.now ≤ member_limit }
    requires variables { AreVariables (length b.now) (x ∷ c ∷ entries.now) }
    requires hearer { MayHearAll H.can_hear H.hears h.old
        (element.hull_tells x c b.now (filter (element.can_be x c b.now) (element.places_of entries.now))
        ++ flat_map (element.fixed_tells x c b.now) (element.places_of entries.now)) }
    ensures { HearsAll H.hears h.old
        (element.hull_tells x c b.now (filter (element.can_be x c b.now) (element.places_of entries.now))
        ++ flat_map (element.fixed_tells x c b.now) (element.places_of entries.now)) h.new }
{
    tell_left(x, entries, c, b, h);
    tell_fixed(x, entries, c, b, h);
}

/// Tells that x and c lie within what is left.
fn tell_left<H: Hear>(x: u32, entries: &[u32], c: u32, b: &BoxOf, h: &mut H)
    requires short { length entries.now ≤ member_limit }
    requires variables { AreVariables (length b.now) (x ∷ c ∷ entries.now) }
    requires hearer { MayHearAll H.can_hear H.hears h.old
        (element.hull_tells x c b.now (filter (element.can_be x c b.now) (element.places_of entries.now))) }
    ensures { HearsAll H.hears h.old
        (element.hull_tells x c b.now (filter (element.can_be x c b.now) (element.places_of entries.now))) h.new }
{
    let hull = hull_of(x, entries, c, b);
    tell_hull(x, c, hull, h);
}

/// The hull of the places that x can be, if there are any.
fn hull_of(x: u32, entries: &[u32], c: u32, b: &BoxOf) -> Option<Hull>
    requires short { length entries.now ≤ member_limit }
    requires variables { AreVariables (length b.now) (x ∷ c ∷ entries.now) }
    ensures { IsHullOf b.now (filter (element.can_be x c b.now) (element.places_of entries.now)) result }
{
    let mut found = None;
    for i in first_place(x, entries.len(), b)..place_count(x, entries.len(), b) {
        found = next_hull(found, x, i + 1, entries[i], c, b);
    }
    found
}

/// The first place, counted from 0, that isn't below x, or `count` where all are.
#[tactic(auto, unfolding(extreme_tells::specs::Extremes::member_limit))]
fn first_place(x: u32, count: usize, b: &BoxOf) -> usize
    requires count { count ≤ member_limit }
    requires x { x < length b.now }
    ensures bound { result ≤ count }
    ensures below { (k : ℕ) → k < result → pos (k + 1) <ℤ low_of b.now x }
{
    let low = b.low(x);
    if low <= 1 {
        0
    } else if low > count as i64 {
        count
    } else {
        low as usize - 1
    }
}

/// How many of the first `count` places there are up to the last that isn't above x.
#[tactic(auto, unfolding(extreme_tells::specs::Extremes::member_limit))]
fn place_count(x: u32, count: usize, b: &BoxOf) -> usize
    requires count { count ≤ member_limit }
    requires x { x < length b.now }
    ensures bound { result ≤ count }
    ensures above { (k : ℕ) → result ≤ k → k < count → high_of b.now x <ℤ pos (k + 1) }
{
    let high = b.high(x);
    if high < 1 {
        0
    } else if high >= count as i64 {
        count
    } else {
        high as usize
    }
}

/// The hull with one more place, whose variable is y, if x can be it.
fn next_hull(found: Option<Hull>, x: u32, place: usize, y: u32, c: u32, b: &BoxOf) -> Option<Hull>
    requires place { place ≤ member_limit }
    requires x { x < length b.now }
    requires y { y < length b.now }
    requires c { c < length b.now }
    ensures { (ps : List (ℕ × ℕ)) → IsHullOf b.now ps found
        → IsHullOf b.now (ps ++ cond (element.can_be x c b.now (place, y)) ((place, y) ∷ []) []) result }
{
    if can_be(x, place, y, c, b) {
        Some(hull_with(found, place, y, b))
    } else {
        found
    }
}

/// Whether x can be the place, whose variable is y.
#[tactic(auto, unfolding(crate::specs::Element::can_be))]
fn can_be(x: u32, place: usize, y: u32, c: u32, b: &BoxOf) -> bool
    requires place { place ≤ member_limit }
    requires x { x < length b.now }
    requires y { y < length b.now }
    requires c { c < length b.now }
    ensures { result ≡ element.can_be x c b.now (place, y) }
{
    is_within(x, place, b) && can_equal(y, c, b)
}

/// Whether the place is within x.
#[tactic(auto, unfolding(extreme_tells::specs::Extremes::member_limit))]
fn is_within(x: u32, place: usize, b: &BoxOf) -> bool
    requires place { place ≤ member_limit }
    requires x { x < length b.now }
    ensures { result ≡ element.is_within x b.now place }
{
    b.low(x) <= place as i64 && place as i64 <= b.high(x)
}

/// Whether y and c can be equal.
fn can_equal(y: u32, c: u32, b: &BoxOf) -> bool
    requires y { y < length b.now }
    requires c { c < length b.now }
    ensures { result ≡ element.can_equal y c b.now }
{
    b.low(y) <= b.high(c) && b.low(c) <= b.high(y)
}

/// The hull with one more place, whose variable is y.
fn hull_with(found: Option<Hull>, place: usize, y: u32, b: &BoxOf) -> Hull
    requires place { place ≤ member_limit }
    requires y { y < length b.now }
    ensures { (ps : List (ℕ × ℕ)) → IsHullOf b.now ps found → IsHull b.now (ps ++ (place, y) ∷ []) result }
{
    match found {
        None => hull_at(place, y, b),
        Some(hull) => wider(hull, place, y, b),
    }
}

/// The hull of one place, whose variable is y.
#[tactic(auto, unfolding(extreme_tells::specs::Extremes::member_limit))]
fn hull_at(place: usize, y: u32, b: &BoxOf) -> Hull
    requires place { place ≤ member_limit }
    requires y { y < length b.now }
    ensures first { result.first ≡ pos place }
    ensures last { result.last ≡ pos place }
    ensures low { result.low ≡ low_of b.now y }
    ensures high { result.high ≡ high_of b.now y }
{
    Hull {
        first: place as i64,
        last: place as i64,
        low: b.low(y),
        high: b.high(y),
    }
}

/// The hull with one more place, whose variable is y.
#[tactic(auto, unfolding(extreme_tells::specs::Extremes::member_limit))]
fn wider(hull: Hull, place: usize, y: u32, b: &BoxOf) -> Hull
    requires place { place ≤ member_limit }
    requires y { y < length b.now }
    ensures first { result.first ≡ int_min hull.first (pos place) }
    ensures last { result.last ≡ int_max hull.last (pos place) }
    ensures low { result.low ≡ int_min hull.low (low_of b.now y) }
    ensures high { result.high ≡ int_max hull.high (high_of b.now y) }
{
    Hull {
        first: hull.first.min(place as i64),
        last: hull.last.max(place as i64),
        low: hull.low.min(b.low(y)),
        high: hull.high.max(b.high(y)),
    }
}

/// Tells that x and c lie in the hull, or that there is none.
fn tell_hull<H: Hear>(x: u32, c: u32, hull: Option<Hull>, h: &mut H)
    requires { MayHearAll H.can_hear H.hears h.old (told_hull x c hull) }
    ensures { HearsAll H.hears h.old (told_hull x c hull) h.new }
{
    match hull {
        None => h.hear(no_number(x)),
        Some(hull) => tell_within(x, c, hull, h),
    }
}

/// Tells that x and c lie in the hull.
fn tell_within<H: Hear>(x: u32, c: u32, hull: Hull, h: &mut H)
    requires { MayHearAll H.can_hear H.hears h.old
        (element.between_tells x hull.first hull.last ++ element.between_tells c hull.low hull.high) }
    ensures { HearsAll H.hears h.old
        (element.between_tells x hull.first hull.last ++ element.between_tells c hull.low hull.high) h.new }
{
    h.hear(low_tell(x, hull.first as i128));
    h.hear(high_tell(x, hull.last as i128));
    h.hear(low_tell(c, hull.low as i128));
    h.hear(high_tell(c, hull.high as i128));
}

/// Tells that c equals the variable at the place that x is fixed to, if it is fixed to one.
fn tell_fixed<H: Hear>(x: u32, entries: &[u32], c: u32, b: &BoxOf, h: &mut H)
    requires short { length entries.now ≤ member_limit }
    requires variables { AreVariables (length b.now) (x ∷ c ∷ entries.now) }
    requires hearer { MayHearAll H.can_hear H.hears h.old
        (flat_map (element.fixed_tells x c b.now) (element.places_of entries.now)) }
    ensures { HearsAll H.hears h.old (flat_map (element.fixed_tells x c b.now) (element.places_of entries.now)) h.new }
{
    if let Some(i) = fixed_at(x, entries.len(), b) {
        tell_equal(entries[i], c, b, h);
    }
}

/// The place, counted from 0, that x is fixed to, if it is one of the first `count`.
#[tactic(auto, unfolding(extreme_tells::specs::Extremes::member_limit))]
fn fixed_at(x: u32, count: usize, b: &BoxOf) -> Option<usize>
    requires count { count ≤ member_limit }
    requires x { x < length b.now }
    ensures { MatchOption result
        ((i : ℕ) → i < count → low_of b.now x ≡ pos (1 + i) → high_of b.now x ≡ pos (1 + i) → ⊥)
        (λ i. (i < count) × (low_of b.now x ≡ pos (1 + i)) × (high_of b.now x ≡ pos (1 + i))) }
{
    let place = b.low(x);
    if place == b.high(x) && place >= 1 && place <= count as i64 {
        Some(place as usize - 1)
    } else {
        None
    }
}

/// Tells that y and c are equal.
fn tell_equal<H: Hear>(y: u32, c: u32, b: &BoxOf, h: &mut H)
    requires y { y < length b.now }
    requires c { c < length b.now }
    requires hearer { MayHearAll H.can_hear H.hears h.old (element.equal_tells y c b.now) }
    ensures { HearsAll H.hears h.old (element.equal_tells y c b.now) h.new }
{
    tell_inside(y, c, b, h);
    tell_inside(c, y, b, h);
}

/// Tells that y lies within the bounds of c.
fn tell_inside<H: Hear>(y: u32, c: u32, b: &BoxOf, h: &mut H)
    requires c { c < length b.now }
    requires hearer { MayHearAll H.can_hear H.hears h.old (element.between_tells y (low_of b.now c) (high_of b.now c)) }
    ensures { HearsAll H.hears h.old (element.between_tells y (low_of b.now c) (high_of b.now c)) h.new }
{
    h.hear(low_tell(y, b.low(c) as i128));
    h.hear(high_tell(y, b.high(c) as i128));
}
