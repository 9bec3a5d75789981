//! Answers of several workers, where those that have the parts, or the one that has the free search, are held up.

ghost use Rattle.std.specs.Prelude.{◌≤◌};

use crate::models::model_of;
use answer::{Answer, Gates, Options, answer};
use fzn_print::Mark;
use gate::{Gate, NoGate};
use memory::NoMemory;
use std::alloc::Global;
use std::process::Abort;
use std::sync::atomic::{AtomicBool, AtomicU64, Ordering};
use std::test::Fail;
use std::thread::{Threads, yield_now};

/// For how many turns, in which others may run, a pass is waited for.
const PATIENCE: u32 = 20_000_000;

/// Holds each worker's first pass until worker 0, which draws the free search, asks for its second number.
#[derive(Drop)]
struct FreeFirst {
    waited: AtomicBool,
    asked_again: AtomicBool,
    gave_up: AtomicBool,
}

impl FreeFirst {
    fn new() -> FreeFirst {
        FreeFirst {
            waited: AtomicBool::new(false),
            asked_again: AtomicBool::new(false),
            gave_up: AtomicBool::new(false),
        }
    }

    fn wait(&self) {
        for _ in 0..PATIENCE {
            if self.asked_again.load(Ordering::SeqCst) {
                return;
            }
            yield_now();
        }
        self.gave_up.store(true, Ordering::SeqCst);
    }

    /// Whether the pass was waited for and called.
    fn was_passed(&self) -> bool {
        let waited = self.waited.load(Ordering::SeqCst);
        let asked = self.asked_again.load(Ordering::SeqCst);
        waited && asked && !self.gave_up.load(Ordering::SeqCst)
    }
}

impl Gate for FreeFirst {
    fn pass(&self, worker: u32, turn: u64) {
        match (worker, turn) {
            (0, 0) => {}
            (0, _) => self.asked_again.store(true, Ordering::SeqCst),
            (1, 0) => {
                self.waited.store(true, Ordering::SeqCst);
                self.wait();
            }
            (2..=7, 0) => self.wait(),
            _ => {}
        }
    }
}

/// Holds the free search before its first turn until the workers have asked so often that each part is over.
#[derive(Drop)]
struct PartsFirst {
    workers: u32,
    passes: AtomicU64,
    waited: AtomicBool,
    gave_up: AtomicBool,
}

impl PartsFirst {
    fn new(workers: u32) -> PartsFirst {
        PartsFirst {
            workers,
            passes: AtomicU64::new(0),
            waited: AtomicBool::new(false),
            gave_up: AtomicBool::new(false),
        }
    }

    /// Whether both parts are over: each worker but the one that has the free search asks once more than it gets.
    fn are_over(&self) -> bool {
        self.passes.load(Ordering::SeqCst) >= u64::from(self.workers) + 2
    }

    fn wait(&self) {
        for _ in 0..PATIENCE {
            if self.are_over() {
                return;
            }
            yield_now();
        }
        self.gave_up.store(true, Ordering::SeqCst);
    }

    /// Whether the free search was held up until then.
    fn was_passed(&self) -> bool {
        self.waited.load(Ordering::SeqCst) && !self.gave_up.load(Ordering::SeqCst)
    }
}

impl Gate for PartsFirst {
    fn pass(&self, worker: u32, _turn: u64) {
        if worker < self.workers {
            self.passes.fetch_add(1, Ordering::SeqCst);
        } else if !self.waited.swap(true, Ordering::SeqCst) {
            self.wait();
        }
    }
}

/// Answers the model of a text by so many workers, with two parts.
fn answer_by<R: Threads + Sync, C: Gate + Sync>(
    rt: &R,
    alloc: Global,
    text: &str,
    workers: u32,
    steal: bool,
    gate: &C,
) -> Result<Answer, NoMemory>
    requires some { 1 ≤ workers }
    requires few { workers ≤ 64 }
{
    let model = model_of(alloc, text)?;
    let gates = Gates {
        crew: gate,
        lanes: &NoGate,
    };
    let options = Options {
        all: false,
        workers,
        lanes: 1,
        depth: 1,
        most_parts: 2,
        node_limit: 0,
        round_limit: 0,
        steal,
    };
    answer(rt, alloc, &model, &options, &gates)
}

/// Whether this is the one solution with this mark, or none.
fn is_given(answer: &Answer, solution: Option<&[i64]>, mark: Mark) -> bool {
    let given = answer.solutions.as_slice();
    match (solution, given) {
        (None, []) => answer.mark == mark,
        (Some(values), [one]) => answer.mark == mark && one.as_slice() == values,
        _ => false,
    }
}

/// The text has this answer, whoever is held up.
fn assert_both<R: Abort + Threads + Sync>(
    rt: &R,
    alloc: Global,
    text: &str,
    workers: u32,
    solution: Option<&[i64]>,
    mark: Mark,
) -> Result<(), NoMemory>
    requires some { 2 ≤ workers }
    requires few { workers ≤ 8 }
{
    for steal in [false, true] {
        let free_first = FreeFirst::new();
        let answer = answer_by(rt, alloc, text, workers, steal, &free_first)?;
        assert!(rt; is_given(&answer, solution, mark), "{workers} at {text}");
        assert!(rt; free_first.was_passed());
        let parts_first = PartsFirst::new(workers);
        let answer = answer_by(rt, alloc, text, workers, steal, &parts_first)?;
        assert!(rt; is_given(&answer, solution, mark), "{workers} at {text}");
        assert!(rt; parts_first.was_passed());
    }
    Ok(())
}

/// So it has with two, three and eight workers.
fn assert_all<R: Abort + Threads + Sync>(
    rt: &R,
    alloc: Global,
    text: &str,
    solution: Option<&[i64]>,
    mark: Mark,
) -> Result<(), NoMemory> {
    assert_both(rt, alloc, text, 2, solution, mark)?;
    assert_both(rt, alloc, text, 3, solution, mark)?;
    assert_both(rt, alloc, text, 8, solution, mark)
}

#[test]
fn the_first_solution_is_one_whoever_ends_first(rt: HostRuntime) -> Result<(), Fail> {
    let text = "var 0..3: x; var 0..3: y; constraint int_lin_eq([1,1],[x,y],3); solve satisfy;";
    assert_all(&rt, rt.alloc(), text, Some(&[0, 3]), Mark::Plain)?;
    let text = "var 0..3: x; var 0..3: y; constraint int_lin_eq([1,1],[x,y],3); \
         solve :: int_search([y,x],input_order,indomain_max) satisfy;";
    assert_all(&rt, rt.alloc(), text, Some(&[0, 3]), Mark::Plain)?;
    let text = "var 0..3: x; var 0..3: y; constraint int_lin_eq([1,1],[x,y],3); \
         solve :: int_search([x,y],first_fail,indomain_max) satisfy;";
    assert_all(&rt, rt.alloc(), text, Some(&[3, 0]), Mark::Plain)?;
    Ok(())
}

#[test]
fn no_solution_is_told_by_either(rt: HostRuntime) -> Result<(), Fail> {
    let text =
        "var 0..3: x; var 0..3: y; constraint int_lin_eq([1,1],[x,y],3); constraint int_eq(x,y); \
         solve satisfy;";
    assert_all(&rt, rt.alloc(), text, None, Mark::Unsatisfiable)?;
    let text =
        "var 0..3: x; var 0..3: y; constraint int_lin_eq([1,1],[x,y],3); constraint int_eq(x,y); \
         solve minimize x;";
    assert_all(&rt, rt.alloc(), text, None, Mark::Unsatisfiable)?;
    Ok(())
}

#[test]
fn the_first_of_the_least_cost_is_one_whoever_ends_first(rt: HostRuntime) -> Result<(), Fail> {
    let text = "var 0..3: x; var 0..3: y; var 0..9: o; constraint int_lin_eq([1,1],[x,y],3); \
         constraint int_le(4,o); solve minimize o;";
    assert_all(&rt, rt.alloc(), text, Some(&[0, 3, 4]), Mark::Complete)?;
    let text = "var 0..3: x; var 0..3: y; var 0..9: o; constraint int_lin_le([1,1,1],[x,y,o],7); \
         solve :: int_search([x,y,o],first_fail,indomain_min) maximize o;";
    assert_all(&rt, rt.alloc(), text, Some(&[0, 0, 7]), Mark::Complete)?;
    Ok(())
}
