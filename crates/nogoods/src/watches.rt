//! Which nogoods are looked at where bounds moved. Nothing here is relied on: a nogood that is named is looked at, and one that isn't
//! named though it bears on the box narrows it later or never.

use crate::store::Nogood;
use guarded_tell::{Side, Tell};
use interval::BoxOf;
use literals::{is_as_tight, is_met};
use memory::NoMemory;
use reasons::{place_met, told_by};
use std::alloc::{AllocError, Global};
use trailed_box::Log;

/// A nogood that watches a literal with this bound.
#[derive(Clone, Copy)]
struct Watch {
    bound: i64,
    number: u32,
}

/// The places of the two literals that a nogood watches: mostly such that the box doesn't meet.
#[derive(Clone, Copy)]
struct Pair {
    first: u32,
    second: u32,
}

/// What becomes of a watch.
#[derive(Clone, Copy)]
enum Look {
    /// It stays.
    Stay,
    /// The nogood watches this pair of literals from now on, the new one at this place.
    Turn(Pair, u32),
    /// No other literal is open: the nogood may bear on the box.
    Suspect,
}

/// Which nogoods watch which literals.
#[derive(Drop)]
pub(crate) struct Watches {
    // for each side of each variable the nogoods that watch a literal there
    rows: Vec<Vec<Watch>>,
    // for each nogood what it watches
    pairs: Vec<Pair>,
    // how many nogoods watch something, or were looked at as a whole
    begun: usize,
    // how many events of the log were looked at
    looked: usize,
    // the place in the row of the next event from which on it is looked at
    place: usize,
    // the units of work of all looks so far
    work: u64,
}

/// What a look at a nogood costs of which so many literals are read.
pub(crate) fn look_work(literals: usize) -> u64 {
    (literals as u64).saturating_add(2).saturating_mul(2)
}

/// The row of a side of a variable.
fn row_of(t: Tell) -> usize {
    match t.side {
        Side::Low => t.var as usize * 2,
        Side::High => t.var as usize * 2 + 1,
    }
}

/// Whether the box meets the literal.
fn is_met_by(t: Tell, b: &BoxOf) -> bool {
    t.var < b.len() && is_met(t, b)
}

/// Whether no box inside this one meets the literal.
fn is_excluded(t: Tell, b: &BoxOf) -> bool {
    if t.var >= b.len() {
        return false;
    }
    match t.side {
        Side::Low => b.high(t.var) < t.bound,
        Side::High => t.bound < b.low(t.var),
    }
}

/// How late the log says that the literal was met; the last of all where the box doesn't meet it.
fn lateness(t: Tell, b: &BoxOf, log: &Log) -> usize {
    if !is_met_by(t, b) {
        return usize::MAX;
    }
    place_met(log, t).unwrap_or(0)
}

/// The places of the two literals that were met last.
fn latest_two(literals: &[Tell], b: &BoxOf, log: &Log) -> Pair {
    let mut pair = Pair {
        first: 0,
        second: 0,
    };
    let (mut latest, mut next) = (0, 0);
    for (place, t) in (0..u32::MAX).zip(literals.iter()) {
        let late = lateness(*t, b, log);
        if place == 0 || late > latest {
            pair = Pair {
                first: place,
                second: pair.first,
            };
            next = latest;
            latest = late;
        } else if place == 1 || late > next {
            pair.second = place;
            next = late;
        }
    }
    pair
}

/// The place of a literal that the box doesn't meet and that isn't watched, if there is one.
fn open_place(literals: &[Tell], pair: Pair, b: &BoxOf) -> Option<u32> {
    for (place, t) in (0..u32::MAX).zip(literals.iter()) {
        if place != pair.first && place != pair.second && !is_met_by(*t, b) {
            return Some(place);
        }
    }
    None
}

/// What becomes of the watch of a literal that was met.
fn look_at(met: Tell, pair: Pair, literals: &[Tell], b: &BoxOf) -> Look {
    let is_first = literals.get(pair.first as usize).copied() == Some(met);
    let other = if is_first { pair.second } else { pair.first };
    if let Some(t) = literals.get(other as usize)
        && is_excluded(*t, b)
    {
        return Look::Stay;
    }
    match open_place(literals, pair, b) {
        None => Look::Suspect,
        Some(place) => Look::Turn(
            Pair {
                first: place,
                second: other,
            },
            place,
        ),
    }
}

/// How many literals the nogood of this number has.
fn length_of(store: &[Nogood], number: u32) -> usize {
    match store.get(number as usize) {
        None => 0,
        Some(nogood) => nogood.literals.as_slice().len(),
    }
}

/// Empty rows for so many variables.
fn empty_rows(alloc: Global, count: u32) -> Result<Vec<Vec<Watch>>, AllocError> {
    let mut rows = Vec::new(alloc);
    for _ in 0..count as u64 * 2 {
        rows.push(Vec::new(alloc))?;
    }
    Ok(rows)
}

impl Watches {
    /// None, for a box of so many variables. Errors: memory.
    pub(crate) fn new(alloc: Global, count: u32) -> Result<Watches, NoMemory> {
        Ok(Watches {
            rows: empty_rows(alloc, count)?,
            pairs: Vec::new(alloc),
            begun: 0,
            looked: 0,
            place: 0,
            work: 0,
        })
    }

    /// The units of work of all looks so far.
    pub(crate) fn work(&self) -> u64 {
        self.work
    }

    /// Counts units of work.
    fn spend(&mut self, units: u64) {
        self.work = self.work.saturating_add(units);
    }

    /// Forgets what is watched: all nogoods are looked at, and watch something, from now on.
    pub(crate) fn clear(&mut self) {
        for row in self.rows.iter_mut() {
            row.clear();
        }
        self.pairs.clear();
        self.begun = 0;
        self.looked = 0;
        self.place = 0;
    }

    /// Says that the log was cut to this length since it was looked at.
    pub(crate) fn back_to(&mut self, len: usize) {
        if len < self.looked || (len == self.looked && self.place > 0) {
            self.looked = len;
            self.place = 0;
        }
    }

    /// Puts a watch of a literal into its row. Whether there was memory for it.
    fn put(&mut self, t: Tell, number: u32) -> bool {
        let row = row_of(t);
        if row >= self.rows.as_slice().len() {
            return false;
        }
        let watch = Watch {
            bound: t.bound,
            number,
        };
        self.rows[row].push(watch).is_ok()
    }

    /// Has a nogood watch two of its literals, those that the log says were met last.
    fn begin(&mut self, literals: &[Tell], number: usize, b: &BoxOf, log: &Log) {
        let Ok(number) = u32::try_from(number) else {
            return;
        };
        self.spend(literals.len() as u64);
        let pair = latest_two(literals, b, log);
        if self.pairs.as_slice().len() != number as usize || self.pairs.push(pair).is_err() {
            return;
        }
        if let Some(t) = literals.get(pair.first as usize) {
            self.put(*t, number);
        }
        if pair.first != pair.second
            && let Some(t) = literals.get(pair.second as usize)
        {
            self.put(*t, number);
        }
    }

    /// What becomes of a watch of a literal.
    fn look(&self, t: Tell, number: u32, store: &[Nogood], b: &BoxOf) -> Look {
        let Some(pair) = self.pairs.as_slice().get(number as usize) else {
            return Look::Stay;
        };
        match store.get(number as usize) {
            None => Look::Stay,
            Some(nogood) => look_at(t, *pair, nogood.literals.as_slice(), b),
        }
    }

    /// Has a nogood watch another literal than the one at a place of a row. Whether that is done.
    fn turn(&mut self, row: usize, watch: Watch, pair: Pair, t: Tell) -> bool {
        if !self.put(t, watch.number) {
            return false;
        }
        if let Some(watched) = self.pairs.as_mut_slice().get_mut(watch.number as usize) {
            *watched = pair;
        }
        if row < self.rows.as_slice().len() && self.place < self.rows[row].as_slice().len() {
            self.rows[row].swap_remove(self.place);
        }
        true
    }

    /// Goes on by one watch.
    fn pass(&mut self) {
        self.place = self.place.wrapping_add(1);
    }

    /// The number of the next nogood in the row of a literal that was met which may bear on the box.
    fn next_in_row(&mut self, told: Tell, store: &[Nogood], b: &BoxOf) -> Option<usize> {
        let row = row_of(told);
        if row >= self.rows.as_slice().len() {
            return None;
        }
        for _ in 0..self.rows[row].as_slice().len() {
            let watch = self.watch_at(row)?;
            let t = Tell {
                var: told.var,
                side: told.side,
                bound: watch.bound,
            };
            if !is_as_tight(told, t) {
                self.pass();
            } else if let Some(number) = self.next_of(row, watch, t, store, b) {
                return Some(number);
            }
        }
        None
    }

    /// The watch that is next in a row.
    fn watch_at(&self, row: usize) -> Option<Watch> {
        self.rows
            .as_slice()
            .get(row)?
            .as_slice()
            .get(self.place)
            .copied()
    }

    /// The number of the nogood of a watch whose literal was met, if it may bear on the box; else its watch stays or turns.
    fn next_of(
        &mut self,
        row: usize,
        watch: Watch,
        t: Tell,
        store: &[Nogood],
        b: &BoxOf,
    ) -> Option<usize> {
        match self.look(t, watch.number, store, b) {
            Look::Stay => {
                self.spend(look_work(1));
                self.pass();
                None
            }
            Look::Turn(pair, place) => {
                self.spend(look_work(place as usize));
                self.turn_to(row, watch, pair, place, store);
                None
            }
            Look::Suspect => {
                self.spend(look_work(length_of(store, watch.number)));
                self.pass();
                Some(watch.number as usize)
            }
        }
    }

    /// Has the nogood of a watch watch the literal at a place instead, if there is memory for it.
    fn turn_to(&mut self, row: usize, watch: Watch, pair: Pair, place: u32, store: &[Nogood]) {
        if let Some(nogood) = store.get(watch.number as usize)
            && let Some(other) = nogood.literals.as_slice().get(place as usize)
            && self.turn(row, watch, pair, *other)
        {
            return;
        }
        self.pass();
    }

    /// The number of the next nogood that may bear on the box: each that is new, then those that watch what the log says was put
    /// since it was looked at.
    pub(crate) fn next(&mut self, store: &[Nogood], b: &BoxOf, log: &Log) -> Option<usize> {
        let number = self.begun;
        if number < store.len() {
            self.begin(store[number].literals.as_slice(), number, b, log);
            self.begun = number.wrapping_add(1);
            return Some(number);
        }
        let end = log.len();
        self.back_to(end);
        for _ in self.looked..end {
            let event = log.at(self.looked)?;
            if let Some(number) = self.next_in_row(told_by(event), store, b) {
                return Some(number);
            }
            self.looked = self.looked.wrapping_add(1);
            self.place = 0;
        }
        None
    }
}
