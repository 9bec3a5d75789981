//! Which bounds a tell of an element rests on. Nothing here is relied on, and numbers may wrap: whoever uses the bounds looks whether
//! the kernel tells the literal there.

ghost use Rattle.std.specs.Prelude.{◌≡◌, length};

use crate::ranges::{Range, put_range, range_of, sought_range};
use guarded_tell::{Kernel, Side, Tell};
use interval::BoxOf;

/// An element, and the literal that it told.
#[derive(Clone, Copy)]
struct Told<'a> {
    x: u32,
    entries: &'a [u32],
    c: u32,
    sought: Tell,
}

/// The places of the list that a tell rests on, counted from 0: from `first` to before `end`.
#[derive(Clone, Copy)]
struct Places {
    first: usize,
    end: usize,
}

/// How many of so many places are at most a number, where the first is 1.
fn places_up_to(z: i64, count: usize) -> usize {
    if z < 1 {
        return 0;
    }
    match usize::try_from(z) {
        Ok(place) => place.min(count),
        Err(_) => count,
    }
}

/// A place as the number that it is, where the first is 1.
fn number_of(places: usize) -> i64 {
    i64::try_from(places).unwrap_or(i64::MAX)
}

/// Whether an entry has the bound that is sought for the result.
fn reaches(told: Told<'_>, entry: Range) -> bool {
    if told.sought.var != told.c {
        return false;
    }
    match told.sought.side {
        Side::Low => told.sought.bound <= entry.low,
        Side::High => entry.high <= told.sought.bound,
    }
}

/// Whether an entry has no number in common with the result.
fn is_out(entry: Range, own: Range) -> bool {
    entry.high < own.low || own.high < entry.low
}

/// The bounds that the result needs, if the entry is out by those that it has; none where it isn't.
fn shut_out(needed: Range, entry: Range, own: Range) -> Option<Range> {
    if entry.high < own.low {
        Some(Range {
            low: needed.low.max(entry.high.wrapping_add(1)),
            high: needed.high,
        })
    } else if own.high < entry.low {
        Some(Range {
            low: needed.low,
            high: needed.high.min(entry.low.wrapping_sub(1)),
        })
    } else {
        None
    }
}

/// The places that x has in the box, or those that it left by the tell.
fn places_of(told: Told<'_>, past: &BoxOf) -> Places {
    let count = told.entries.len();
    let range = range_of(past, told.x);
    let mut places = Places {
        first: places_up_to(range.low.saturating_sub(1), count),
        end: places_up_to(range.high, count),
    };
    if told.sought.var == told.x {
        match told.sought.side {
            Side::Low => places.end = places_up_to(told.sought.bound.saturating_sub(1), count),
            Side::High => places.first = places_up_to(told.sought.bound, count),
        }
    }
    places
}

/// The bounds that the result needs so that each entry at these places is out or has the bound that is sought, if it is so.
fn needed_by(told: Told<'_>, places: Places, past: &BoxOf, widest: Range) -> Option<Range> {
    let own = range_of(past, told.c);
    let mut needed = widest;
    for v in told.entries.iter().take(places.end).skip(places.first) {
        let entry = range_of(past, *v);
        if !reaches(told, entry) {
            needed = shut_out(needed, entry, own)?;
        }
    }
    Some(needed)
}

/// Whether the entry at a place, as it is in the space, is out of what the result needs, or has the bound that is sought.
fn is_spare(told: Told<'_>, place: usize, space: &BoxOf, needed: Range) -> bool {
    match told.entries.get(place) {
        None => false,
        Some(v) => {
            let entry = range_of(space, *v);
            is_out(entry, needed) || reaches(told, entry)
        }
    }
}

/// The first of the places just before these which may be there without a reason.
fn first_spare(told: Told<'_>, places: Places, space: &BoxOf, needed: Range) -> usize {
    let mut first = places.first;
    while first > 0 {
        if !is_spare(told, first - 1, space, needed) {
            return first;
        }
        first -= 1;
    }
    first
}

/// The end of the places just behind these which may be there without a reason.
fn end_spare(told: Told<'_>, places: Places, space: &BoxOf, needed: Range) -> usize {
    for place in places.end..told.entries.len() {
        if !is_spare(told, place, space, needed) {
            return place;
        }
    }
    told.entries.len()
}

/// The bounds that x needs: those that it keeps to the places.
fn place_range(told: Told<'_>, places: Places, space: &BoxOf, needed: Range) -> Range {
    let widest = range_of(space, told.x);
    let low = number_of(first_spare(told, places, space, needed)).wrapping_add(1);
    let high = number_of(end_spare(told, places, space, needed));
    if told.sought.var != told.x {
        return Range { low, high };
    }
    match told.sought.side {
        Side::Low => Range {
            low,
            high: widest.high,
        },
        Side::High => Range {
            low: widest.low,
            high,
        },
    }
}

/// The bounds that an entry needs.
fn entry_range(told: Told<'_>, entry: Range, widest: Range, needed: Range) -> Range {
    if reaches(told, entry) {
        return sought_range(told.sought, widest);
    }
    if entry.high < needed.low {
        return Range {
            low: widest.low,
            high: needed.low.wrapping_sub(1),
        };
    }
    if needed.high < entry.low {
        return Range {
            low: needed.high.wrapping_add(1),
            high: widest.high,
        };
    }
    widest
}

/// Puts the bounds that the entry at a place needs.
fn put_entry(
    told: Told<'_>,
    place: usize,
    is_needed: bool,
    space: &BoxOf,
    past: &mut BoxOf,
    needed: Range,
)
    ensures { length past.new ≡ length past.old }
{
    let Some(v) = told.entries.get(place) else {
        return;
    };
    let widest = range_of(space, *v);
    if widest.low == widest.high {
        return;
    }
    if is_needed {
        let range = entry_range(told, range_of(past, *v), widest, needed);
        put_range(past, *v, range);
    } else {
        put_range(past, *v, widest);
    }
}

/// Puts the bounds that the entries need: all are as in the space but those at the places.
fn put_entries(told: Told<'_>, places: Places, space: &BoxOf, past: &mut BoxOf, needed: Range)
    ensures { length past.new ≡ length past.old }
{
    for place in 0..told.entries.len() {
        let is_needed = places.first <= place && place < places.end;
        put_entry(told, place, is_needed, space, past, needed);
    }
}

/// Widens what a tell of x or of the result doesn't need. Whether that is known.
fn weaken_hull(told: Told<'_>, space: &BoxOf, past: &mut BoxOf) -> bool
    ensures { length past.new ≡ length past.old }
{
    let places = places_of(told, past);
    let Some(needed) = needed_by(told, places, past, range_of(space, told.c)) else {
        return false;
    };
    let range = place_range(told, places, space, needed);
    put_entries(told, places, space, past, needed);
    put_range(past, told.c, needed);
    put_range(past, told.x, range);
    true
}

/// Widens what the tell of the entry at the place of x doesn't need: the place, and the bound of the result.
fn weaken_entry(told: Told<'_>, space: &BoxOf, past: &mut BoxOf) -> bool
    ensures { length past.new ≡ length past.old }
{
    let none = Places { first: 0, end: 0 };
    let widest = range_of(space, told.c);
    put_entries(told, none, space, past, widest);
    put_range(past, told.c, sought_range(told.sought, widest));
    true
}

/// Widens the bounds of an element's variables as far as its tell of the literal lets. Whether that is known; the bounds may be
/// others all the same.
pub(crate) fn weaken_element(kernel: &Kernel, space: &BoxOf, past: &mut BoxOf, sought: Tell) -> bool
    ensures { length past.new ≡ length past.old }
{
    let Kernel::Element { x, entries, c } = kernel else {
        return false;
    };
    let told = Told {
        x: *x,
        entries: entries.as_slice(),
        c: *c,
        sought,
    };
    if sought.var == *x || sought.var == *c {
        weaken_hull(told, space, past)
    } else {
        weaken_entry(told, space, past)
    }
}
