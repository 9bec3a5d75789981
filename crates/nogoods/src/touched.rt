//! What an analysis read, and how much work that was: hints for whoever chooses variables, for which nogoods are kept, and for
//! how long a search goes on.

use guarded_tell::Tell;
use std::alloc::Global;

/// The variables whose literals were replaced or are left, and the nogoods that were reasons, in the last analysis. Where memory is
/// refused some are missing.
#[derive(Drop)]
pub struct Touched {
    /// The variables, some of them several times.
    pub variables: Vec<u32>,
    /// The numbers of the nogoods.
    pub nogoods: Vec<u32>,
    // the units of work of all analyses so far
    work: u64,
}

/// Puts a number behind the others, if there is memory for it.
fn put_behind(numbers: &mut Vec<u32>, number: u32) {
    match numbers.push(number) {
        Ok(()) => {}
        Err(_) => {}
    }
}

impl Touched {
    /// None.
    pub(crate) fn new(alloc: Global) -> Touched {
        Touched {
            variables: Vec::new(alloc),
            nogoods: Vec::new(alloc),
            work: 0,
        }
    }

    /// The units of work of all analyses so far.
    pub(crate) fn work(&self) -> u64 {
        self.work
    }

    /// Counts units of work.
    pub(crate) fn spend(&mut self, units: u64) {
        self.work = self.work.saturating_add(units);
    }

    /// Forgets them, for another analysis.
    pub(crate) fn clear(&mut self) {
        self.variables.clear();
        self.nogoods.clear();
    }

    /// Notes a variable.
    pub(crate) fn touch(&mut self, var: u32) {
        put_behind(&mut self.variables, var);
    }

    /// Notes the variables of literals.
    pub(crate) fn touch_all(&mut self, literals: &[Tell]) {
        for t in literals {
            self.touch(t.var);
        }
    }

    /// Notes a nogood that was a reason.
    pub(crate) fn touch_nogood(&mut self, number: u32) {
        put_behind(&mut self.nogoods, number);
    }
}
