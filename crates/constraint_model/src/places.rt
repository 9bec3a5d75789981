//! Where numbers are found: those from 0 on by a table while it is short enough, others by a search tree.

ghost use Rattle.std.specs.Prelude.{◌≡◌, ℤ, None, OnOk, OnErr};
ghost use Rattle.constraint_model.specs.Places.{place_kept, near_at, found_in, Puts, Stays};

use std::alloc::{AllocError, Global};
use std::collections::BTreeMap;

/// The table may have so many entries for each number that was added.
const MOST_EACH: usize = 1024;

/// The table may have so many entries at most.
const MOST: usize = 262_144;

/// Places of numbers. Contracts speak of what is found at each number.
#[derive(Drop)]
pub(crate) struct Places {
    /// For each number from 0 on its place and 1, or 0.
    near: Vec<u32>,
    /// The places of the others.
    far: BTreeMap<i64, usize>,
}

fn place_kept(kept: u32) -> Option<usize>
    ensures { result ≡ place_kept kept }
{
    if kept == 0 {
        None
    } else {
        Some(kept as usize - 1)
    }
}

/// The place that the table has of a number.
fn near_at(near: &[u32], number: i64) -> Option<usize>
    ensures { result ≡ near_at near.now number }
{
    if number < 0 {
        return None;
    }
    let at = number as usize;
    if at < near.len() {
        place_kept(near[at])
    } else {
        None
    }
}

impl Places {
    /// No places. It takes no memory.
    pub(crate) fn new(alloc: Global) -> Places
        ensures { (n : ℤ) → found_in result n ≡ None }
    {
        Places {
            near: Vec::new(alloc),
            far: BTreeMap::new(alloc),
        }
    }

    /// The place of a number, where it was put.
    pub(crate) fn get(&self, number: i64) -> Option<usize>
        ensures { result ≡ found_in self.now number }
    {
        match near_at(self.near.as_slice(), number) {
            Some(place) => Some(place),
            None => self.far.get(&number).copied(),
        }
    }

    /// Makes the table longer, where a number from 0 on is to have a place in it that it lacks.
    fn grow(&mut self, at: usize, count: usize) -> Result<(), AllocError>
        ensures { Stays self.old self.new }
    {
        if at >= self.near.len() && at < MOST && at / MOST_EACH <= count {
            self.near.resize((at + 1).next_power_of_two(), 0)?;
        }
        Ok(())
    }

    /// Puts a number at a place. Where memory is refused, all stay where they were.
    pub(crate) fn put(&mut self, number: i64, place: usize) -> Result<(), AllocError>
        ensures put { OnOk result (Puts self.old number place self.new) }
        ensures kept { OnErr result (Stays self.old self.new) }
    {
        if number < 0 {
            self.far.insert(number, place)?;
            return Ok(());
        }
        let at = number as usize;
        self.grow(at, place)?;
        if at >= self.near.len() {
            self.far.insert(number, place)?;
            return Ok(());
        }
        if place >= u32::MAX as usize {
            return Err(AllocError);
        }
        self.near[at] = place as u32 + 1;
        Ok(())
    }
}
