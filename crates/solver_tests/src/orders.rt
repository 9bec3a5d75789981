//! In which order a worker runs the numbers while the other is held up: rising by tickets, its own first where they are dealt.

use crate::calls::{SOUND, assert_ended, run_gated};
use crate::held_up::Call;
use gate::Gate;
use solver_top::{Gates, Status};
use std::sync::atomic::{AtomicU64, Ordering};
use std::test::Fail;

/// The gate of two workers: the turn 0 of worker 0 ends only after that of worker 1 was called, and that one only after the turn
/// 4 of worker 0, which has run four numbers then.
#[derive(Drop)]
struct FirstAlone {
    begun: Call,
    run: Call,
    // bit k at turn k of worker 0
    turn: AtomicU64,
    // the turns at which it had a number whose box was searched
    searched: AtomicU64,
}

impl FirstAlone {
    fn new() -> FirstAlone {
        FirstAlone {
            begun: Call::new(),
            run: Call::new(),
            turn: AtomicU64::new(0),
            searched: AtomicU64::new(0),
        }
    }
}

impl Gate for FirstAlone {
    fn pass(&self, worker: u32, turn: u64) {
        if worker == 0 && turn < 4 {
            self.turn.store(1 << turn, Ordering::SeqCst);
        }
        match (worker, turn) {
            (0, 0) => self.begun.wait(),
            (0, 4) => self.run.make(),
            (1, 0) => {
                self.begun.make();
                self.run.wait();
            }
            _ => {}
        }
    }
}

/// The gate of the lanes of these workers, which is passed only where a box is searched.
#[derive(Drop)]
struct Searches<'a> {
    workers: &'a FirstAlone,
}

impl Gate for Searches<'_> {
    fn pass(&self, _lane: u32, _turn: u64) {
        let turn = self.workers.turn.load(Ordering::SeqCst);
        self.workers.searched.fetch_or(turn, Ordering::SeqCst);
    }
}

/// A limit that stops nothing makes the parts those of depth 2. Only once x and y are fixed propagation sees that x is odd and
/// y even. So of the four parts the third alone is left, x = 1 and y = 0.
const THIRD_PART: &str =
    "var 0..1: x :: output_var; var 0..1: y :: output_var; var 0..9: a; var 0..9: b; var 0..9: c; var 0..9: d; \
     constraint int_lin_eq([1,2,-2],[x,a,b],1); constraint int_lin_eq([1,2,-2],[y,c,d],0); solve satisfy;";

#[test]
fn a_worker_gets_numbers_as_the_words_say(rt: HostRuntime) -> Result<(), Fail> {
    for (words, third) in [
        // 0, 1, 2, 3
        (
            "turbofzn -p 2 --depth 2 --node-limit 1000 --lanes 2 m.fzn",
            0b100,
        ),
        // 0 and 2, then 1 and 3 of the other's
        (
            "turbofzn -p 2 --depth 2 --node-limit 1000 --lanes 2 --steal m.fzn",
            0b10,
        ),
    ] {
        let gate = FirstAlone::new();
        let gates = Gates {
            crew: &gate,
            lanes: &Searches { workers: &gate },
        };
        let outcome = run_gated(&rt, rt.alloc(), words, THIRD_PART, (SOUND, SOUND), &gates)?;
        let ended = (Status::Answered, "x = 1;\ny = 0;\n----------\n", "");
        assert_ended(&rt, &outcome, &ended, words, THIRD_PART);
        assert!(rt; gate.begun.was_awaited() && gate.run.was_awaited());
        assert_eq!(rt; gate.searched.load(Ordering::SeqCst), third, "at {words}");
    }
    Ok(())
}
