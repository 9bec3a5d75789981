//! A gate for tests: two lanes, or two workers, that get past it have run beside each other.
//!
//! It stands on `gate`. No clause says that a wait ends by the other's coming: a test asserts `Meet::was_passed`.
#![tactic(auto)]

use gate::Gate;
use std::sync::atomic::{AtomicBool, Ordering};
use std::thread::yield_now;

/// So many turns others may run in before a wait gives up.
const MOST_TURNS: u32 = 20_000_000;

/// Lets turn 0 of number 1 end only after turn 0 of number 0 was called, and that one only after turn 1 of number 1 was
/// called.
#[derive(Drop)]
pub struct Meet {
    first: AtomicBool,
    second: AtomicBool,
    third: AtomicBool,
    gave_up: AtomicBool,
}

impl Meet {
    /// A gate that nobody has come to.
    pub fn new() -> Meet {
        Meet {
            first: AtomicBool::new(false),
            second: AtomicBool::new(false),
            third: AtomicBool::new(false),
            gave_up: AtomicBool::new(false),
        }
    }

    /// Whether all three passes were called, and no wait gave up.
    pub fn was_passed(&self) -> bool {
        let first = self.first.load(Ordering::SeqCst);
        let second = self.second.load(Ordering::SeqCst);
        let third = self.third.load(Ordering::SeqCst);
        first && second && third && !self.gave_up.load(Ordering::SeqCst)
    }
}

/// Waits for the other, and says so where that takes too long.
fn wait_for(flag: &AtomicBool, gave_up: &AtomicBool) {
    for _ in 0..MOST_TURNS {
        if flag.load(Ordering::SeqCst) {
            return;
        }
        yield_now();
    }
    gave_up.store(true, Ordering::SeqCst);
}

impl Gate for Meet {
    fn pass(&self, number: u32, turn: u64) {
        match (number, turn) {
            (0, 0) => {
                self.first.store(true, Ordering::SeqCst);
                wait_for(&self.third, &self.gave_up);
            }
            (1, 0) => {
                self.second.store(true, Ordering::SeqCst);
                wait_for(&self.first, &self.gave_up);
            }
            (1, 1) => self.third.store(true, Ordering::SeqCst),
            _ => {}
        }
    }
}
