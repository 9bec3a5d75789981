//! A log of the bounds that were put and why. It is a hint: whoever reads it looks whether it is so, and no contract speaks of it.

use std::alloc::Global;

/// Why a bound was put.
#[derive(Clone, Copy, PartialEq, Eq, Debug)]
pub enum Cause {
    /// The search chose it.
    Choice,
    /// The kernel of this number told it.
    Kernel(u32),
    /// The nogood of this number told it.
    Nogood(u32),
}

/// A bound that was put.
#[derive(Clone, Copy, PartialEq, Eq, Debug)]
pub struct Event {
    /// The variable.
    pub var: u32,
    /// Whether it is its upper bound.
    pub is_high: bool,
    /// The bound.
    pub bound: i64,
    /// Why it was put.
    pub cause: Cause,
    /// The number of events up to the last one before it of the same side of the same variable; 0 where there is none.
    pub earlier: u32,
}

impl Event {
    /// Whether its bound is as tight as another of its side.
    fn reaches(&self, bound: i64) -> bool {
        if self.is_high {
            self.bound <= bound
        } else {
            bound <= self.bound
        }
    }
}

/// The bounds that were put, the last one last. It is closed until it is asked to keep them, and where memory is refused.
#[derive(Drop)]
pub struct Log {
    events: Vec<Event>,
    // for each side of each variable the number of events up to its last one
    last: Vec<u32>,
    // why what is put now is put
    cause: Cause,
    // whether bounds are kept
    is_open: bool,
}

/// The place of a side of a variable.
fn slot_of(var: u32, is_high: bool) -> usize {
    let low = var as usize * 2;
    if is_high { low + 1 } else { low }
}

impl Log {
    /// One that keeps nothing.
    pub(crate) fn closed(alloc: Global) -> Log {
        Log {
            events: Vec::new(alloc),
            last: Vec::new(alloc),
            cause: Cause::Choice,
            is_open: false,
        }
    }

    /// Keeps the bounds of so many variables from now on, if there is memory for that.
    pub(crate) fn open(&mut self, alloc: Global, count: u32) {
        if let Ok(last) = vec![in alloc; 0; count as usize * 2] {
            self.last = last;
            self.events.clear();
            self.is_open = true;
        }
    }

    /// Whether bounds are kept.
    pub fn is_open(&self) -> bool {
        self.is_open
    }

    /// How many events there are.
    pub fn len(&self) -> usize {
        self.events.as_slice().len()
    }

    /// The event at a place, if there is one.
    pub fn at(&self, place: usize) -> Option<Event> {
        self.events.as_slice().get(place).copied()
    }

    /// The number of events up to the last one of a side of a variable.
    fn last_of(&self, var: u32, is_high: bool) -> u32 {
        match self.last.as_slice().get(slot_of(var, is_high)) {
            Some(last) => *last,
            None => 0,
        }
    }

    /// The bound of a side of a variable before the event at a place, if one was put.
    pub fn before(&self, var: u32, is_high: bool, place: usize) -> Option<i64> {
        let mut count = self.last_of(var, is_high);
        'back: while count > 0 {
            let event = self.at(count as usize - 1)?;
            if count as usize <= place {
                return Some(event.bound);
            }
            if event.earlier >= count {
                return None;
            }
            count = event.earlier;
        }
        None
    }

    /// The place of the event that first put a bound as tight as this one, if one did.
    pub fn place_of(&self, var: u32, is_high: bool, bound: i64) -> Option<usize> {
        let mut found = None;
        let mut count = self.last_of(var, is_high);
        'back: while count > 0 {
            let event = self.at(count as usize - 1)?;
            if !event.reaches(bound) {
                return found;
            }
            found = Some(count as usize - 1);
            if event.earlier >= count {
                return None;
            }
            count = event.earlier;
        }
        found
    }

    /// Says why what is put from now on is put.
    pub(crate) fn because(&mut self, cause: Cause) {
        self.cause = cause;
    }

    /// Notes which bounds of a variable change.
    #[inline(never)]
    pub(crate) fn note(&mut self, var: u32, was: (i64, i64), now: (i64, i64)) {
        if now.0 != was.0 {
            self.append(var, false, now.0);
        }
        if now.1 != was.1 {
            self.append(var, true, now.1);
        }
    }

    /// Appends an event.
    fn append(&mut self, var: u32, is_high: bool, bound: i64) {
        let event = Event {
            var,
            is_high,
            bound,
            cause: self.cause,
            earlier: self.last_of(var, is_high),
        };
        if self.events.push(event).is_err() {
            self.is_open = false;
            return;
        }
        let slot = slot_of(var, is_high);
        let count = self.events.as_slice().len();
        if let Ok(count) = u32::try_from(count)
            && slot < self.last.as_slice().len()
        {
            self.last[slot] = count;
        }
    }

    /// Drops the events from a place on, where bounds are kept.
    pub(crate) fn forget(&mut self, from: usize) {
        if self.is_open {
            self.truncate(from);
        }
    }

    /// Drops the events from a place on.
    #[inline(never)]
    fn truncate(&mut self, from: usize) {
        let mut place = self.events.as_slice().len();
        while place > from {
            place -= 1;
            let event = self.events[place];
            let slot = slot_of(event.var, event.is_high);
            if slot < self.last.as_slice().len() {
                self.last[slot] = event.earlier;
            }
        }
        self.events.truncate(from);
    }
}
