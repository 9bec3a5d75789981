//! Which bounds a tell of all-different rests on: those of the places that have no other numbers than those of a range. Nothing here is
//! relied on, and numbers may wrap: whoever uses the bounds looks whether the kernel tells the literal there.

ghost use Rattle.std.specs.Prelude.{◌≡◌, length};

use crate::ranges::{Range, put_range, range_of};
use guarded_tell::{Side, Tell};
use interval::{BOUND_LIMIT, BoxOf};

/// Of longer lists no range is looked for.
const MOST_PLACES: usize = 40;

/// Whether it is told that no number is left.
pub(crate) fn is_of_none(sought: Tell) -> bool {
    match sought.side {
        Side::Low => sought.bound == BOUND_LIMIT,
        Side::High => sought.bound == -BOUND_LIMIT,
    }
}

/// Whether one range lies inside another.
fn is_inside(range: Range, outer: Range) -> bool {
    outer.low <= range.low && range.high <= outer.high
}

/// How many places have no other numbers than those of the range.
fn count_inside(xs: &[u32], past: &BoxOf, outer: Range) -> i64 {
    let mut count: i64 = 0;
    for v in xs {
        if is_inside(range_of(past, *v), outer) {
            count = count.wrapping_add(1);
        }
    }
    count
}

/// Whether the range would push the bound of a variable that is sought so far, if it is full.
fn is_pushing(range: Range, own: Range, sought: Tell) -> bool {
    if is_inside(own, range) {
        return false;
    }
    match sought.side {
        Side::Low => range.low <= own.low
            && own.low <= range.high
            && sought.bound <= range.high.wrapping_add(1),
        Side::High => range.low <= own.high
            && own.high <= range.high
            && range.low.wrapping_sub(1) <= sought.bound,
    }
}

/// Whether the places that have no other numbers tell the literal.
fn is_telling(xs: &[u32], past: &BoxOf, range: Range, sought: Tell) -> bool {
    if range.high < range.low {
        return false;
    }
    let size = range.high.wrapping_sub(range.low).wrapping_add(1);
    if is_of_none(sought) {
        return count_inside(xs, past, range) > size;
    }
    is_pushing(range, range_of(past, sought.var), sought) && count_inside(xs, past, range) >= size
}

/// A range from this number on that tells the literal.
fn hall_from(xs: &[u32], past: &BoxOf, low: i64, sought: Tell) -> Option<Range> {
    for v in xs {
        let range = Range {
            low,
            high: range_of(past, *v).high,
        };
        if is_telling(xs, past, range, sought) {
            return Some(range);
        }
    }
    None
}

/// A range that tells the literal.
fn hall_of(xs: &[u32], past: &BoxOf, sought: Tell) -> Option<Range> {
    for v in xs {
        if let Some(range) = hall_from(xs, past, range_of(past, *v).low, sought) {
            return Some(range);
        }
    }
    None
}

/// The bounds that a place needs.
fn part_of(v: u32, range: Range, past: &BoxOf, widest: Range, sought: Tell) -> Range {
    if is_inside(range_of(past, v), range) {
        return range;
    }
    if v != sought.var {
        return widest;
    }
    match sought.side {
        Side::Low => Range {
            low: range.low,
            high: widest.high,
        },
        Side::High => Range {
            low: widest.low,
            high: range.high,
        },
    }
}

/// Widens the bounds of all places that a tell of all-different doesn't need, the others to the range that it rests on. Whether one is
/// known.
pub(crate) fn weaken_hall(xs: &[u32], space: &BoxOf, past: &mut BoxOf, sought: Tell) -> bool
    ensures { length past.new ≡ length past.old }
{
    if xs.len() > MOST_PLACES {
        return false;
    }
    let Some(range) = hall_of(xs, past, sought) else {
        return false;
    };
    for v in xs {
        let part = part_of(*v, range, past, range_of(space, *v), sought);
        put_range(past, *v, part);
    }
    true
}
