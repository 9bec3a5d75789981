//! That lanes and workers run beside each other: each of two is held up until the other has come so far, and each of eight
//! until all eight have begun.

use crate::calls::{SOUND, assert_ended, run_gated};
use gate::{Gate, NoGate};
use meeting::Meet;
use solver_top::{Gates, Status};
use std::sync::atomic::{AtomicBool, AtomicU64, Ordering};
use std::test::Fail;
use std::thread::yield_now;

#[test]
fn two_lanes_meet(rt: HostRuntime) -> Result<(), Fail> {
    let text = "var 0..3: x :: output_var; var 0..3: y; \
         constraint int_lin_le([1],[x],3); constraint int_lin_le([1],[y],3); \
         constraint int_lin_le([1],[x],3); constraint int_lin_le([1],[y],3); solve satisfy;";
    let gate = Meet::new();
    let gates = Gates {
        crew: &NoGate,
        lanes: &gate,
    };
    let words = "turbofzn --lanes 2 m.fzn";
    let outcome = run_gated(&rt, rt.alloc(), words, text, (SOUND, SOUND), &gates)?;
    let ended = (Status::Answered, "x = 0;\n----------\n", "");
    assert_ended(&rt, &outcome, &ended, words, text);
    assert!(rt; gate.was_passed());
    Ok(())
}

#[test]
fn two_lanes_meet_over_domains(rt: HostRuntime) -> Result<(), Fail> {
    let text = "var 0..3: x :: output_var; var 0..3: y :: output_var; \
         constraint int_lin_le([1],[x],3); constraint int_lin_le([1],[y],3); \
         constraint int_ne(x,1); constraint int_lin_le([1],[y],3); solve satisfy;";
    let gate = Meet::new();
    let gates = Gates {
        crew: &NoGate,
        lanes: &gate,
    };
    let words = "turbofzn --domains --lanes 2 m.fzn";
    let outcome = run_gated(&rt, rt.alloc(), words, text, (SOUND, SOUND), &gates)?;
    let left = "x: {0, 2, 3};\ny: {0, 1, 2, 3};\n";
    assert_ended(&rt, &outcome, &(Status::Answered, left, ""), words, text);
    assert!(rt; gate.was_passed());
    Ok(())
}

#[test]
fn two_workers_meet(rt: HostRuntime) -> Result<(), Fail> {
    let text = "var 0..1: x :: output_var; var 0..1: y :: output_var; var 0..9: o :: output_var; \
         constraint int_lin_eq([1,1],[x,y],1); constraint int_le(4,o); solve minimize o;";
    let answer = "x = 0;\ny = 1;\no = 4;\n----------\n==========\n";
    for words in [
        "turbofzn -p 2 --depth 2 m.fzn",
        "turbofzn -p 2 --depth 2 --steal m.fzn",
    ] {
        let gate = Meet::new();
        let gates = Gates {
            crew: &gate,
            lanes: &NoGate,
        };
        let outcome = run_gated(&rt, rt.alloc(), words, text, (SOUND, SOUND), &gates)?;
        assert_ended(&rt, &outcome, &(Status::Answered, answer, ""), words, text);
        assert!(rt; gate.was_passed());
    }
    Ok(())
}

/// Lets the turn 0 of each of the numbers 0 to 7 end only after that of all eight was called.
#[derive(Drop)]
struct AllMeet {
    // bit k for number k
    begun: AtomicU64,
    gave_up: AtomicBool,
}

impl AllMeet {
    fn new() -> AllMeet {
        AllMeet {
            begun: AtomicU64::new(0),
            gave_up: AtomicBool::new(false),
        }
    }

    fn have_all_begun(&self) -> bool {
        self.begun.load(Ordering::SeqCst) == 255
    }

    /// Whether all eight passes were called, and no wait gave up.
    fn was_passed(&self) -> bool {
        self.have_all_begun() && !self.gave_up.load(Ordering::SeqCst)
    }

    /// Waits for all eight, for so many turns in which others may run.
    fn wait(&self) {
        for _ in 0..20_000_000u32 {
            if self.have_all_begun() {
                return;
            }
            yield_now();
        }
        self.gave_up.store(true, Ordering::SeqCst);
    }
}

impl Gate for AllMeet {
    fn pass(&self, number: u32, turn: u64) {
        if number < 8 && turn == 0 {
            self.begun.fetch_or(1 << number, Ordering::SeqCst);
            self.wait();
        }
    }
}

#[test]
fn eight_workers_meet(rt: HostRuntime) -> Result<(), Fail> {
    let text = "var 0..7: x :: output_var; constraint int_le(6,x); solve satisfy;";
    for words in [
        "turbofzn -p 8 --depth 3 m.fzn",
        "turbofzn -p 8 --depth 3 --steal m.fzn",
    ] {
        let gate = AllMeet::new();
        let gates = Gates {
            crew: &gate,
            lanes: &NoGate,
        };
        let outcome = run_gated(&rt, rt.alloc(), words, text, (SOUND, SOUND), &gates)?;
        let ended = (Status::Answered, "x = 6;\n----------\n", "");
        assert_ended(&rt, &outcome, &ended, words, text);
        assert!(rt; gate.was_passed());
    }
    Ok(())
}

/// A call that another thread waits for.
#[derive(Drop)]
pub(crate) struct Call {
    was_made: AtomicBool,
    was_awaited: AtomicBool,
}

impl Call {
    pub(crate) fn new() -> Call {
        Call {
            was_made: AtomicBool::new(false),
            was_awaited: AtomicBool::new(false),
        }
    }

    pub(crate) fn make(&self) {
        self.was_made.store(true, Ordering::SeqCst);
    }

    /// Waits for it, for so many turns in which others may run, and notes that it was made.
    pub(crate) fn wait(&self) {
        for _ in 0..20_000_000u32 {
            if self.was_made.load(Ordering::SeqCst) {
                self.was_awaited.store(true, Ordering::SeqCst);
                return;
            }
            yield_now();
        }
    }

    /// Whether a wait for it ended by the call.
    pub(crate) fn was_awaited(&self) -> bool {
        self.was_awaited.load(Ordering::SeqCst)
    }
}

/// Lets the turn 1 of each of two workers end only after that of both was called: by then each has run a number. It counts
/// the passes of the two, not those of a search in a free order, which has a number above all workers'.
#[derive(Drop)]
struct EachRunsOne {
    first: Call,
    second: Call,
    passes: AtomicU64,
}

impl EachRunsOne {
    fn new() -> EachRunsOne {
        EachRunsOne {
            first: Call::new(),
            second: Call::new(),
            passes: AtomicU64::new(0),
        }
    }
}

impl Gate for EachRunsOne {
    fn pass(&self, worker: u32, turn: u64) {
        if worker < 2 {
            self.passes.fetch_add(1, Ordering::SeqCst);
        }
        match (worker, turn) {
            (0, 1) => {
                self.first.make();
                self.second.wait();
            }
            (1, 1) => {
                self.second.make();
                self.first.wait();
            }
            _ => {}
        }
    }
}

#[test]
fn two_workers_run_a_half_each(rt: HostRuntime) -> Result<(), Fail> {
    let text =
        "var 0..1: x :: output_var; var 0..1: y :: output_var; constraint int_lin_eq([1,1],[x,y],1); solve satisfy;";
    for words in [
        "turbofzn -p 2 --depth 1 m.fzn",
        "turbofzn -p 2 --depth 1 --steal m.fzn",
    ] {
        let gate = EachRunsOne::new();
        let gates = Gates {
            crew: &gate,
            lanes: &NoGate,
        };
        let outcome = run_gated(&rt, rt.alloc(), words, text, (SOUND, SOUND), &gates)?;
        let ended = (Status::Answered, "x = 0;\ny = 1;\n----------\n", "");
        assert_ended(&rt, &outcome, &ended, words, text);
        assert!(rt; gate.first.was_awaited() && gate.second.was_awaited());
        // two halves and the search in a free order are asked for, and each worker asks once in vain
        assert_eq!(rt; gate.passes.load(Ordering::SeqCst), 5, "at {words}");
    }
    Ok(())
}
