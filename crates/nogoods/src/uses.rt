//! How much nogoods were used: by this it is chosen which are forgotten. A hint.

use std::alloc::Global;

/// For each nogood how often it was a reason, of late.
#[derive(Drop)]
pub(crate) struct Uses {
    counts: Vec<u32>,
    // with more nogoods some are forgotten
    most: usize,
}

/// How many nogoods are kept at first.
const FIRST_KEPT: usize = 2_000;

/// How many more are kept each time that some were forgotten.
const MORE_KEPT: usize = 500;

/// What a use adds.
const USE: u32 = 1 << 16;

/// Adds a use to a count.
fn used(count: u32) -> u32 {
    count.saturating_add(USE)
}

impl Uses {
    /// Of no nogoods.
    pub(crate) fn new(alloc: Global) -> Uses {
        Uses {
            counts: Vec::new(alloc),
            most: FIRST_KEPT,
        }
    }

    /// Notes a nogood that is new.
    pub(crate) fn begin(&mut self) {
        match self.counts.push(USE) {
            Ok(()) => {}
            Err(_) => {}
        }
    }

    /// Notes that a nogood was used.
    pub(crate) fn add(&mut self, number: u32) {
        if let Some(count) = self.counts.as_mut_slice().get_mut(number as usize) {
            *count = used(*count);
        }
    }

    /// How much the nogood of this number was used.
    pub(crate) fn of(&self, number: usize) -> u32 {
        self.counts.as_slice().get(number).copied().unwrap_or(0)
    }

    /// Notes that the nogood of this number is forgotten, and that the last one has its number from now on.
    pub(crate) fn take(&mut self, number: usize) {
        if number < self.counts.as_slice().len() {
            self.counts.swap_remove(number);
        }
    }

    /// Whether so many nogoods are more than are kept.
    pub(crate) fn are_too_many(&self, count: usize) -> bool {
        count > self.most
    }

    /// Halves all, so that what was used long ago counts less, and lets more be kept: a long search needs more of them.
    pub(crate) fn halve(&mut self) {
        self.most = self.most.saturating_add(MORE_KEPT);
        for count in self.counts.iter_mut() {
            *count /= 2;
        }
    }

    /// How much half of the nogoods were used at most, if there is memory to say it.
    pub(crate) fn median(&self, alloc: Global) -> Option<u32> {
        let Ok(mut counts) = Vec::from_slice(alloc, self.counts.as_slice()) else {
            return None;
        };
        counts.sort_unstable();
        counts.as_slice().get(counts.as_slice().len() / 2).copied()
    }
}
