//! The order in which one worker of a crew gets the numbers, alone or while the other is held up.

use crew::{Job, Work, Workers, run_numbers};
use gate::{Gate, NoGate};
use list_of::ListOf;
use memory::NoMemory;
use std::alloc::Global;
use std::sync::atomic::{AtomicBool, AtomicU64, Ordering};
use std::test::Fail;
use std::thread::{Threads, yield_now};

/// Each run ends in how many runs were made before it.
#[derive(Drop)]
struct Ranking {
    made: AtomicU64,
}

impl Job<(), (), u64> for Ranking {
    ghost use Rattle.std.specs.Prelude.{⊤};

    ghost count = { λ _. 4 };

    ghost fits = { λ _ _. ⊤ };

    ghost has_parts = { λ _ _. ⊤ };

    ghost owns = { λ _ _. ⊤ };

    ghost stands = { λ _ _ _. ⊤ };

    ghost may_split = { λ _. ⊤ };

    fn own(&self, _alloc: Global) -> Result<(), NoMemory> {
        Ok(())
    }

    fn split(&self, _seat: &mut ()) {}

    fn join_back(&self, _seat: &mut (), _other: ()) {}
}

/// Holds worker 1's first pass until worker 0's fifth was called, before which it has run four numbers.
#[derive(Drop)]
struct FirstAlone {
    has_waited: AtomicBool,
    fifth: AtomicBool,
}

impl FirstAlone {
    fn new() -> FirstAlone {
        FirstAlone {
            has_waited: AtomicBool::new(false),
            fifth: AtomicBool::new(false),
        }
    }

    /// Waits for worker 0, for so many turns in which others may run, and notes that it came.
    fn wait(&self) {
        for _ in 0..20_000_000u32 {
            if self.fifth.load(Ordering::SeqCst) {
                self.has_waited.store(true, Ordering::SeqCst);
                return;
            }
            yield_now();
        }
    }

    /// Whether both passes were called, and the wait didn't give up.
    fn was_passed(&self) -> bool {
        self.fifth.load(Ordering::SeqCst) && self.has_waited.load(Ordering::SeqCst)
    }
}

impl Gate for FirstAlone {
    fn pass(&self, worker: u32, turn: u64) {
        match (worker, turn) {
            (0, 4) => self.fifth.store(true, Ordering::SeqCst),
            (1, 0) => self.wait(),
            _ => {}
        }
    }
}

/// How many runs were made before that of each of the numbers 0 to 3.
fn ranks<R: Threads + Sync, C: Gate + Sync>(
    rt: &R,
    alloc: Global,
    crew: &mut Workers,
    gate: &C,
) -> Result<ListOf<u64>, NoMemory> {
    let job = Ranking {
        made: AtomicU64::new(0),
    };
    let run = |_own: &mut (), _seat: &mut (), _number: u32| -> Result<u64, NoMemory> {
        Ok(job.made.fetch_add(1, Ordering::SeqCst))
    };
    let work = Work {
        job: &job,
        run: &run,
        count: 4,
    };
    run_numbers(rt, alloc, crew, &work, gate, &mut ())
}

#[test]
fn a_worker_draws_tickets_in_order(rt: HostRuntime) -> Result<(), Fail> {
    let mut crew = Workers::new(rt.alloc(), 2, false)?;
    let gate = FirstAlone::new();
    let ends = ranks(&rt, rt.alloc(), &mut crew, &gate)?;
    assert_eq!(rt; ends.as_slice(), [0, 1, 2, 3].as_slice());
    assert!(rt; gate.was_passed());
    Ok(())
}

#[test]
fn a_worker_that_steals_takes_its_own_first(rt: HostRuntime) -> Result<(), Fail> {
    let mut crew = Workers::new(rt.alloc(), 2, true)?;
    let gate = FirstAlone::new();
    let ends = ranks(&rt, rt.alloc(), &mut crew, &gate)?;
    assert_eq!(rt; ends.as_slice(), [0, 2, 1, 3].as_slice());
    assert!(rt; gate.was_passed());
    Ok(())
}

#[test]
fn one_worker_takes_the_numbers_in_turn(rt: HostRuntime) -> Result<(), Fail> {
    for steals in [false, true] {
        let mut crew = Workers::new(rt.alloc(), 1, steals)?;
        let ends = ranks(&rt, rt.alloc(), &mut crew, &NoGate)?;
        assert_eq!(rt; ends.as_slice(), [0, 1, 2, 3].as_slice());
    }
    Ok(())
}
