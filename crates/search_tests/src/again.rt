//! Runs of one worker after another: what one that a limit stopped leaves behind is used by the next.

ghost use Rattle.std.specs.Prelude.{length};
ghost use Rattle.search.specs.Keeping.{IsKeptFor};
ghost use Rattle.search_tests.specs.Models.{IsCompiled};

use crate::models::{Compiled, compile_text};
use gate::NoGate;
use interval::law_inside_order;
use list_of::ListOf;
use memory::NoMemory;
use search::{AllEnd, Kept, Run, Start, run_all_from};
use std::alloc::Global;
use std::test::Fail;
use std::thread::Threads;
use trailed_box::TrailedBox;

/// Three solutions; the first round moves both variables, and some kernel rests where a part is left.
const BELOW: &str = "var 0..2: x; var 0..2: y; constraint int_lt(x,y); solve satisfy;";

/// Two of three variables are told apart; several boxes are left before the first solution.
const APART: &str = "var 0..2: x; var 0..2: y; var 0..2: z; constraint int_ne(x,y); \
                     constraint int_ne(y,z); constraint int_ne(x,z); solve satisfy;";

/// The most nodes and the most rounds; 0 is no limit.
type Limits = (u64, u64);

/// Searches a model's start for all solutions, as a worker that has made other runs.
fn all_again<R: Threads + Sync>(
    rt: &R,
    alloc: Global,
    searched: &Compiled,
    limits: Limits,
    kept: &mut Kept,
) -> Result<AllEnd, NoMemory>
    requires compiled { IsCompiled searched.now.model searched.now.program searched.now.masks }
    requires kept { IsKeptFor searched.now.program.kernels 1 (length searched.now.program.start) kept.old }
    ensures { IsKeptFor searched.now.program.kernels 1 (length searched.now.program.start) kept.new }
{
    law_inside_order();
    let run = Run {
        model: &searched.model,
        program: &searched.program,
        masks: &searched.masks,
        lanes: 1,
        node_limit: limits.0,
        round_limit: limits.1,
        gate: &NoGate,
    };
    let start = Start {
        boxes: TrailedBox::new(alloc, searched.program.start.copy(alloc)?)?,
        changed: None,
    };
    let over = run_all_from(rt, alloc, &run, start, kept)?;
    Ok(over.end)
}

/// Whether these are the same lists.
fn are_same(lists: &[ListOf<i64>], others: &[ListOf<i64>]) -> bool {
    if lists.len() != others.len() {
        return false;
    }
    for place in 0..lists.len() {
        if lists[place].as_slice() != others[place].as_slice() {
            return false;
        }
    }
    true
}

/// Whether two runs came to their ends with the same solutions.
fn are_alike(end: &AllEnd, other: &AllEnd) -> bool {
    match (end, other) {
        (AllEnd::Done(found), AllEnd::Done(others)) => {
            are_same(found.as_slice(), others.as_slice())
        }
        _ => false,
    }
}

/// Whether a limit stopped a run.
fn is_spent(end: &AllEnd) -> bool {
    matches!(end, AllEnd::Spent { .. })
}

#[test]
fn a_run_after_one_that_was_stopped_finds_the_same(rt: HostRuntime) -> Result<(), Fail> {
    for text in [BELOW, APART] {
        let searched = compile_text(rt.alloc(), text)?;
        let mut new = Kept::new();
        let alone = all_again(&rt, rt.alloc(), &searched, (0, 0), &mut new)?;
        for limits in [(1, 0), (2, 0), (3, 0), (4, 0), (0, 1)] {
            let mut kept = Kept::new();
            let stopped = all_again(&rt, rt.alloc(), &searched, limits, &mut kept)?;
            assert!(rt; is_spent(&stopped), "at {limits:?} of {text}");
            let again = all_again(&rt, rt.alloc(), &searched, (0, 0), &mut kept)?;
            assert!(rt; are_alike(&again, &alone), "after {limits:?} of {text}");
        }
    }
    Ok(())
}
