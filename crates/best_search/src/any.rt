//! A solution of a model, whichever search finds one.

ghost use Rattle.std.specs.Prelude.{◌≡◌, None, IfOk};
ghost use Rattle.search.specs.Premises.{IsRun};
ghost use Rattle.search.specs.Turns.{IfFirstPaused};
ghost use Rattle.free_search.specs.Free.{IsFreeSearch};
ghost use Rattle.best_search.specs.Plans.{IsAny};
ghost use Rattle.best_search.specs.Searches.{IsPlain, IsPlainTurn};

use crate::clock::{MOST_TURNS, doubled, free_units};
use branching::law_every_list;
use free_search::{FreeEnd, FreeSearch};
use gate::Gate;
use interval::law_inside_order;
use list_of::ListOf;
use memory::NoMemory;
use race::Turns;
use search::{FirstTurn, FirstTurns, Run};
use solution_lists::law_solutions_listed;
use std::alloc::Global;
use std::thread::Threads;

/// A turn of the plain search of so many units of work; without a number until its end. Errors: memory.
fn plain_turn<R: Threads + Sync, L: Gate + Sync>(
    rt: &R,
    alloc: Global,
    run: &Run<'_, L>,
    plain: &mut FirstTurns,
    work: Option<u64>,
) -> Result<FirstTurn, NoMemory>
    requires run { IsRun run.now }
    requires plain { IsPlain run.now plain.old }
    ensures turn { IfOk result (IsPlainTurn run.now plain.new) }
    ensures whole { work ≡ None → IfOk result (λ turn. IfFirstPaused turn ⊥) }
{
    law_inside_order();
    law_every_list();
    law_solutions_listed();
    plain.go_on(rt, alloc, run, work)
}

/// The plain search alone, to its end. Errors: memory.
fn finish<R: Threads + Sync, L: Gate + Sync>(
    rt: &R,
    alloc: Global,
    run: &Run<'_, L>,
    plain: &mut FirstTurns,
) -> Result<Option<ListOf<i64>>, NoMemory>
    requires run { IsRun run.now }
    requires plain { IsPlain run.now plain.old }
    ensures { IfOk result (IsAny run.now.model.now) }
{
    match plain_turn(rt, alloc, run, plain, None)? {
        FirstTurn::Done(answer) => Ok(answer),
        FirstTurn::Paused => unreachable!(),
    }
}

/// The free search and the plain one by turns. Errors: memory that is refused to the plain one.
fn by_turns<R: Threads + Sync, L: Gate + Sync>(
    rt: &R,
    alloc: Global,
    run: &Run<'_, L>,
    plain: &mut FirstTurns,
    free: FreeSearch,
    least: u64,
) -> Result<Option<ListOf<i64>>, NoMemory>
    requires run { IsRun run.now }
    requires plain { IsPlain run.now plain.old }
    requires free { IsFreeSearch run.now free }
    ensures { IfOk result (IsAny run.now.model.now) }
{
    law_inside_order();
    let mut free = free;
    let mut units = least;
    for _ in 0..MOST_TURNS {
        match free.look_for(rt, alloc, run, &run.program.start, free_units(units)) {
            Ok(FreeEnd::Found(plan)) => return Ok(Some(plan)),
            Ok(FreeEnd::Refuted) => return Ok(None),
            Ok(FreeEnd::GaveUp) => {}
            Err(_) => return finish(rt, alloc, run, plain),
        }
        match plain_turn(rt, alloc, run, plain, Some(units))? {
            FirstTurn::Done(answer) => return Ok(answer),
            FirstTurn::Paused => units = doubled(units),
        }
    }
    finish(rt, alloc, run, plain)
}

/// Makes the free search, and goes on with both. Errors: memory that is refused to the plain one.
fn with_free<R: Threads + Sync, L: Gate + Sync>(
    rt: &R,
    alloc: Global,
    run: &Run<'_, L>,
    plain: &mut FirstTurns,
    least: u64,
) -> Result<Option<ListOf<i64>>, NoMemory>
    requires run { IsRun run.now }
    requires plain { IsPlain run.now plain.old }
    ensures { IfOk result (IsAny run.now.model.now) }
{
    match FreeSearch::new(rt, alloc, run) {
        Ok(Some(free)) => by_turns(rt, alloc, run, plain, free, least),
        Ok(None) => Ok(None),
        Err(_) => finish(rt, alloc, run, plain),
    }
}

/// A solution, or none where the model has none, by the plain search and a free one in turn. Errors: memory that is refused to the plain
/// search; where it is refused to the free one that is dropped.
pub fn any_solution<R: Threads + Sync, L: Gate + Sync>(
    rt: &R,
    alloc: Global,
    run: &Run<'_, L>,
) -> Result<Option<ListOf<i64>>, NoMemory>
    requires run { IsRun run.now }
    requires node_limit { run.now.node_limit ≡ 0 }
    requires round_limit { run.now.round_limit ≡ 0 }
    ensures { IfOk result (IsAny run.now.model.now) }
{
    law_inside_order();
    let turns = Turns::usual(run);
    let mut plain = FirstTurns::new(alloc, run, &run.program.start)?;
    match plain_turn(rt, alloc, run, &mut plain, Some(turns.first))? {
        FirstTurn::Done(answer) => Ok(answer),
        FirstTurn::Paused => with_free(rt, alloc, run, &mut plain, turns.least),
    }
}
