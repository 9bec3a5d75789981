//! Parts that a limit stops, by two workers that are held up in an order.

use crate::calls::{SOUND, assert_ended, run_gated};
use crate::goals::{EASY_FIRST, HARD_FIRST};
use gate::{Gate, NoGate};
use solver_top::{Gates, Status};
use std::alloc::Global;
use std::process::Abort;
use std::sync::atomic::{AtomicBool, AtomicU64, Ordering};
use std::test::Fail;
use std::thread::{Threads, yield_now};

/// A pass: the worker, and how often it had asked for a number before.
type Pass = (u32, u64);

/// The bit of a pass of two workers, or none of a later one.
fn bit_of(pass: Pass) -> u64 {
    let (worker, turn) = pass;
    if worker < 2 && turn < 32 {
        1 << (u64::from(worker) * 32 + turn)
    } else {
        0
    }
}

/// Lets some passes of two workers end only after others were called.
#[derive(Drop)]
struct InOrder<'a> {
    // the pass that waits, and the one that it waits for
    waits: &'a [(Pass, Pass)],
    called: AtomicU64,
    gave_up: AtomicBool,
}

impl InOrder<'_> {
    fn new(waits: &[(Pass, Pass)]) -> InOrder<'_> {
        InOrder {
            waits,
            called: AtomicU64::new(0),
            gave_up: AtomicBool::new(false),
        }
    }

    fn was_called(&self, pass: Pass) -> bool {
        self.called.load(Ordering::SeqCst) & bit_of(pass) != 0
    }

    /// Waits for a pass, for so many turns in which others may run.
    fn wait(&self, pass: Pass) {
        for _ in 0..20_000_000u32 {
            if self.was_called(pass) {
                return;
            }
            yield_now();
        }
        self.gave_up.store(true, Ordering::SeqCst);
    }

    /// Whether all that waited were called, and no wait gave up.
    fn was_passed(&self) -> bool {
        let all = self.waits.iter().all(|(held, _)| self.was_called(*held));
        all && !self.gave_up.load(Ordering::SeqCst)
    }
}

impl Gate for InOrder<'_> {
    fn pass(&self, worker: u32, turn: u64) {
        self.called
            .fetch_or(bit_of((worker, turn)), Ordering::SeqCst);
        for (held, until) in self.waits {
            if *held == (worker, turn) {
                self.wait(*until);
            }
        }
    }
}

/// Under this order of passes the words have this answer on the text.
fn assert_in_order(
    rt: &(impl Abort + Threads + Sync),
    alloc: Global,
    waits: &[(Pass, Pass)],
    text: &str,
    answer: &str,
) -> Result<(), Fail> {
    let words = "turbofzn -p 2 --steal --depth 1 --node-limit 3 m.fzn";
    let gate = InOrder::new(waits);
    let gates = Gates {
        crew: &gate,
        lanes: &NoGate,
    };
    let outcome = run_gated(rt, alloc, words, text, (SOUND, SOUND), &gates)?;
    assert_ended(rt, &outcome, &(Status::Answered, answer, ""), words, text);
    assert!(rt; gate.was_passed());
    Ok(())
}

/// In the second search part 1 is stopped before part 0 has begun, which then has the first solution: it stays the first.
#[test]
fn a_part_behind_the_first_solution_stays_open(rt: HostRuntime) -> Result<(), Fail> {
    let waits = [((1, 0), (0, 1)), ((0, 1), (1, 1)), ((0, 2), (1, 3))];
    let answer = "x = 0;\no = 4;\n----------\n==========\n";
    assert_in_order(&rt, rt.alloc(), &waits, EASY_FIRST, answer)
}

/// Part 1 posts the least cost before part 0 begins, where then nothing costs less; in the second search part 0 is stopped.
#[test]
fn a_part_before_the_first_solution_stays_open(rt: HostRuntime) -> Result<(), Fail> {
    let answer = "x = 1;\no = 4;\n----------\n";
    assert_in_order(&rt, rt.alloc(), &[((0, 0), (1, 1))], HARD_FIRST, answer)
}
