//! The answer of a model where one worker is held up before its first number.

use crate::models::model_of;
use answer::{Gates, Options, answer};
use fzn_print::Mark;
use gate::{Gate, NoGate};
use std::sync::atomic::{AtomicBool, Ordering};
use std::test::Fail;
use std::thread::yield_now;

/// Holds worker 0's first pass until worker 1's first pass was called.
#[derive(Drop)]
struct SecondFirst {
    first: AtomicBool,
    second: AtomicBool,
    gave_up: AtomicBool,
}

impl SecondFirst {
    fn new() -> SecondFirst {
        SecondFirst {
            first: AtomicBool::new(false),
            second: AtomicBool::new(false),
            gave_up: AtomicBool::new(false),
        }
    }

    /// Waits for worker 1, for so many turns in which others may run.
    fn wait(&self) {
        for _ in 0..20_000_000u32 {
            if self.second.load(Ordering::SeqCst) {
                return;
            }
            yield_now();
        }
        self.gave_up.store(true, Ordering::SeqCst);
    }

    /// Whether both passes were called, and the wait didn't give up.
    fn was_passed(&self) -> bool {
        let first = self.first.load(Ordering::SeqCst);
        let second = self.second.load(Ordering::SeqCst);
        first && second && !self.gave_up.load(Ordering::SeqCst)
    }
}

impl Gate for SecondFirst {
    fn pass(&self, worker: u32, turn: u64) {
        match (worker, turn) {
            (0, 0) => {
                self.first.store(true, Ordering::SeqCst);
                self.wait();
            }
            (1, 0) => self.second.store(true, Ordering::SeqCst),
            _ => {}
        }
    }
}

#[test]
fn a_worker_that_begins_late_changes_no_answer(rt: HostRuntime) -> Result<(), Fail> {
    let text = "var 0..1: x; var 0..1: y; var 0..9: o; constraint int_lin_eq([1,1],[x,y],1); \
         constraint int_le(4,o); solve minimize o;";
    let model = model_of(rt.alloc(), text)?;
    for steal in [false, true] {
        let gate = SecondFirst::new();
        let gates = Gates {
            crew: &gate,
            lanes: &NoGate,
        };
        let options = Options {
            all: false,
            workers: 2,
            lanes: 1,
            depth: 1,
            most_parts: 2,
            node_limit: 0,
            round_limit: 0,
            steal,
        };
        let given = answer(&rt, rt.alloc(), &model, &options, &gates)?;
        assert_eq!(rt; given.mark, Mark::Complete);
        assert_eq!(rt; given.solutions.len(), 1);
        for solution in given.solutions.as_slice() {
            assert_eq!(rt; solution.as_slice(), [0, 1, 4].as_slice());
        }
        assert!(rt; gate.was_passed());
    }
    Ok(())
}
