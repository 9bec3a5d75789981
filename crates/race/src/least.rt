//! The race for the least cost.

ghost use Rattle.std.specs.Prelude.{◌≡◌, ◌≢◌, None, IfOk, IfSome};
ghost use Rattle.constraint_model.specs.declared.model.Goal.TheVariants.{Satisfy};
ghost use Rattle.search.specs.Premises.{IsRun};
ghost use Rattle.free_search.specs.Free.{IsFreeSearch};
ghost use Rattle.race.specs.Tasks.{IsTask};
ghost use Rattle.race.specs.Leasts.{IsLeastIn, IsStanding, IsPlainTurn, IfPaused, IsOutcome};

use crate::incumbent::{Incumbent, by_plain, cost_of};
use crate::lowering::{FreeTurn, Raced, free_turn};
use crate::task::Task;
use crate::turns::{DOUBLINGS, Turns, doubled, free_turn_before};
use first_keys::is_static;
use gate::Gate;
use interval::law_inside_order;
use memory::NoMemory;
use search::{LeastTurn, LeastTurns, Run};
use std::alloc::Global;
use std::thread::Threads;

/// How a turn of the plain search ends, with the best solution so far.
#[derive(Drop)]
pub(crate) enum PlainTurn {
    /// No solution costs less.
    Done(Option<Incumbent>),
    /// It can have another turn.
    Paused(Option<Incumbent>),
}

/// The units of work that are left until so many are done; none: there is no end.
fn left(plain: &LeastTurns, most: Option<u64>) -> Option<u64>
    ensures { most ≡ None → result ≡ None }
{
    match most {
        Some(most) => Some(most.saturating_sub(plain.spent())),
        None => None,
    }
}

/// The units of work after which a turn of so many ends.
fn end_of(plain: &LeastTurns, units: Option<u64>) -> Option<u64>
    ensures { units ≡ None → result ≡ None }
{
    match units {
        Some(units) => Some(plain.spent().saturating_add(units)),
        None => None,
    }
}

/// A turn of the plain search, below the best cost. Errors: memory.
fn plain_turn<R: Threads + Sync, L: Gate + Sync>(
    rt: &R,
    alloc: Global,
    task: &Task<'_, '_, L>,
    plain: &mut LeastTurns,
    best: Option<Incumbent>,
    units: Option<u64>,
) -> Result<PlainTurn, NoMemory>
    requires task { IsTask task.now }
    requires standing { IsStanding task.now plain.old best }
    ensures turn { IfOk result (IsPlainTurn task.now plain.new) }
    ensures whole { units ≡ None → IfOk result (λ turn. IfPaused turn ⊥) }
{
    let most = end_of(plain, units);
    let mut incumbent = best;
    'turns: loop {
        let cost = cost_of(&incumbent);
        match plain.go_on(rt, alloc, task.run, cost, left(plain, most))? {
            LeastTurn::Found => incumbent = by_plain(alloc, plain, task.is_static)?,
            LeastTurn::Done => return Ok(PlainTurn::Done(incumbent)),
            LeastTurn::Paused => return Ok(PlainTurn::Paused(incumbent)),
        }
    }
}

/// The plain search alone, to its end. Errors: memory.
fn finish<R: Threads + Sync, L: Gate + Sync>(
    rt: &R,
    alloc: Global,
    task: &Task<'_, '_, L>,
    plain: &mut LeastTurns,
    raced: Raced,
) -> Result<Raced, NoMemory>
    requires task { IsTask task.now }
    requires standing { IsStanding task.now plain.old raced.best }
    requires free { IfSome raced.free (IsFreeSearch task.now.run.now) }
    ensures { IfOk result (IsOutcome task.now.run.now task.now.sub.now) }
{
    let Raced { best, free } = raced;
    match plain_turn(rt, alloc, task, plain, best, None)? {
        PlainTurn::Done(best) => Ok(Raced { best, free }),
        PlainTurn::Paused(_) => unreachable!(),
    }
}

/// The free search and the plain one by turns, until one of them ends it. Errors: memory.
fn race<R: Threads + Sync, L: Gate + Sync>(
    rt: &R,
    alloc: Global,
    task: &Task<'_, '_, L>,
    plain: &mut LeastTurns,
    best: Option<Incumbent>,
    least: u64,
) -> Result<Raced, NoMemory>
    requires task { IsTask task.now }
    requires whole { task.now.sub.now ≡ task.now.run.now.program.now.start }
    requires standing { IsStanding task.now plain.old best }
    ensures { IfOk result (IsOutcome task.now.run.now task.now.sub.now) }
{
    let mut raced = Raced { best, free: None };
    let mut units = least;
    for _ in 0..DOUBLINGS {
        match free_turn(rt, alloc, task, raced, free_turn_before(units)) {
            FreeTurn::Proved(outcome) => return Ok(outcome),
            FreeTurn::Over(best) => {
                return finish(rt, alloc, task, plain, Raced { best, free: None });
            }
            FreeTurn::Goes(Raced { best, free }) => {
                match plain_turn(rt, alloc, task, plain, best, Some(units))? {
                    PlainTurn::Done(best) => return Ok(Raced { best, free }),
                    PlainTurn::Paused(best) => raced = Raced { best, free },
                }
            }
        }
        units = doubled(units);
    }
    finish(rt, alloc, task, plain, raced)
}

/// A solution of least cost, if the model has one, by the plain search and a free one in turn; with it comes the free search,
/// if it was made. Errors: memory that is refused to the plain search; where it is refused to the free one that is dropped.
pub fn least_of_race<R: Threads + Sync, L: Gate + Sync>(
    rt: &R,
    alloc: Global,
    run: &Run<'_, L>,
    turns: Turns,
) -> Result<Raced, NoMemory>
    requires run { IsRun run.now }
    requires node_limit { run.now.node_limit ≡ 0 }
    requires round_limit { run.now.round_limit ≡ 0 }
    requires objective { run.now.model.now.goal ≢ Satisfy }
    ensures { IfOk result (IsOutcome run.now run.now.program.now.start) }
{
    law_inside_order();
    let task = Task {
        run,
        sub: &run.program.start,
        is_static: is_static(run.model),
    };
    let mut plain = LeastTurns::new(alloc, run, task.sub)?;
    match plain_turn(rt, alloc, &task, &mut plain, None, Some(turns.first))? {
        PlainTurn::Done(best) => Ok(Raced { best, free: None }),
        PlainTurn::Paused(best) => race(rt, alloc, &task, &mut plain, best, turns.least),
    }
}
