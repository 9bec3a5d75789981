//! The ends of runs, put in the order of their numbers.

ghost use Rattle.std.specs.Prelude.{◌≡◌, ◌<◌, ℕ, length, IfOk, IsSome, slice_set, Some};
ghost use Rattle.std.specs.List.{All};
ghost use Rattle.tickets.specs.Counting.{IsEachOnce};
ghost use Rattle.crew.specs.Ends.{numbers_of, AreInOrder};
ghost use Rattle.crew.specs.Slots.{AreEmpty, HoldEnds, AreFilledWith};

use list_of::ListOf;
use memory::NoMemory;
use std::alloc::{AllocError, Global};

/// So many empty slots.
fn empty_slots<E: Drop>(alloc: Global, count: u32) -> Result<Vec<Option<E>>, AllocError>
    ensures { IfOk result (λ slots. AreEmpty count slots.items) }
{
    let mut slots = Vec::new(alloc);
    for _ in 0..count {
        slots.push(None)?;
    }
    Ok(slots)
}

/// Puts an end into the slot of its number.
fn put<E: Drop>(slots: &mut Vec<Option<E>>, number: u32, end: E)
    requires { number < length slots.old.items }
    ensures { slots.new.items ≡ slice_set slots.old.items number (Some end) }
{
    slots[number as usize] = Some(end);
}

/// Puts the end of each run into the slot of its number.
fn fill<E: Drop>(slots: &mut Vec<Option<E>>, count: u32, runs: Vec<(u32, E)>)
    requires empty { AreEmpty count slots.old.items }
    requires each_once { IsEachOnce count (numbers_of runs.items) }
    ensures { HoldEnds count runs.items slots.new.items }
{
    for (number, end) in runs {
        put(slots, number, end);
    }
}

/// The ends in the slots, none of which is empty.
fn ends_of<E: Drop>(alloc: Global, slots: Vec<Option<E>>) -> Result<ListOf<E>, NoMemory>
    requires { All IsSome slots.items }
    ensures { IfOk result (λ ends. AreFilledWith slots.items ends) }
{
    let mut ends = ListOf::new(alloc);
    for slot in slots {
        if let Some(end) = slot {
            if ends.push(end).is_err() {
                return Err(NoMemory);
            }
        }
    }
    Ok(ends)
}

/// The ends of runs in the order of their numbers.
pub(crate) fn in_order<E: Drop>(
    alloc: Global,
    count: u32,
    runs: Vec<(u32, E)>,
) -> Result<ListOf<E>, NoMemory>
    requires { IsEachOnce count (numbers_of runs.items) }
    ensures { IfOk result (AreInOrder count runs.items) }
{
    let mut slots = empty_slots(alloc, count)?;
    fill(&mut slots, count, runs);
    let ends = ends_of(alloc, slots)?;
    Ok(ends)
}
