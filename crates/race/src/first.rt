//! The race for the first solution of a box.

ghost use Rattle.std.specs.Prelude.{◌≡◌, IfOk, IfSome};
ghost use Rattle.interval.specs.Boxes.{IsInside};
ghost use Rattle.solution_lists.specs.Solutions.{SolvesInside};
ghost use Rattle.search.specs.Premises.{IsRun};
ghost use Rattle.free_search.specs.Free.{IsFreeSearch};
ghost use Rattle.race.specs.Tasks.{IsTask};
ghost use Rattle.race.specs.Firsts.{IsFirstIn, IsPlain, IsRoad};

use crate::road::{Road, RoadTurn, free_turn, road_from};
use crate::task::Task;
use crate::turns::{DOUBLINGS, Turns, doubled, free_turn_before};
use first_keys::is_static;
use free_search::FreeSearch;
use gate::Gate;
use interval::BoxOf;
use list_of::ListOf;
use memory::NoMemory;
use search::{FirstTurn, FirstTurns, Run};
use std::alloc::Global;
use std::thread::Threads;

/// The plain search alone, to its end.
fn finish<R: Threads + Sync, L: Gate + Sync>(
    rt: &R,
    alloc: Global,
    task: &Task<'_, '_, L>,
    plain: &mut FirstTurns,
) -> Result<Option<ListOf<i64>>, NoMemory>
    requires task { IsTask task.now }
    requires plain { IsPlain task.now plain.old }
    ensures { IfOk result (IsFirstIn task.now.run.now task.now.sub.now) }
{
    match plain.go_on(rt, alloc, task.run, None)? {
        FirstTurn::Done(answer) => Ok(answer),
        FirstTurn::Paused => unreachable!(),
    }
}

/// The free search and the plain one by turns, until one of them gives the answer.
fn race<R: Threads + Sync, L: Gate + Sync>(
    rt: &R,
    alloc: Global,
    task: &Task<'_, '_, L>,
    plain: &mut FirstTurns,
    road: Road,
    least: u64,
) -> Result<Option<ListOf<i64>>, NoMemory>
    requires task { IsTask task.now }
    requires plain { IsPlain task.now plain.old }
    requires road { IsRoad task.now road }
    ensures { IfOk result (IsFirstIn task.now.run.now task.now.sub.now) }
{
    let mut road = road;
    let mut units = least;
    for _ in 0..DOUBLINGS {
        match free_turn(rt, alloc, task, road, free_turn_before(units)) {
            RoadTurn::Answered(answer) => return Ok(answer),
            RoadTurn::Over => return finish(rt, alloc, task, plain),
            RoadTurn::Goes(next) => match plain.go_on(rt, alloc, task.run, Some(units))? {
                FirstTurn::Done(answer) => return Ok(answer),
                FirstTurn::Paused => road = next,
            },
        }
        units = doubled(units);
    }
    finish(rt, alloc, task, plain)
}

/// The first solution of a box in the order of the search tree, if it has one, by the plain search and a free one in turn.
/// `known` is a solution there, if one is known, and `free` a free search that is made already. Errors: memory that is refused
/// to the plain search; where it is refused to the free one that is dropped.
pub fn first_of_race<R: Threads + Sync, L: Gate + Sync>(
    rt: &R,
    alloc: Global,
    run: &Run<'_, L>,
    sub: &BoxOf,
    known: Option<ListOf<i64>>,
    free: Option<FreeSearch>,
    turns: Turns,
) -> Result<Option<ListOf<i64>>, NoMemory>
    requires run { IsRun run.now }
    requires node_limit { run.now.node_limit ≡ 0 }
    requires round_limit { run.now.round_limit ≡ 0 }
    requires inside { IsInside sub.now run.now.program.now.start }
    requires known { IfSome known (SolvesInside run.now.model.now sub.now) }
    requires free { IfSome free (IsFreeSearch run.now) }
    ensures { IfOk result (IsFirstIn run.now sub.now) }
{
    let task = Task {
        run,
        sub,
        is_static: is_static(run.model),
    };
    let mut plain = FirstTurns::new(alloc, run, sub)?;
    match plain.go_on(rt, alloc, run, Some(turns.first))? {
        FirstTurn::Done(answer) => Ok(answer),
        FirstTurn::Paused => match road_from(alloc, &task, known, free) {
            Some(road) => race(rt, alloc, &task, &mut plain, road, turns.least),
            None => finish(rt, alloc, &task, &mut plain),
        },
    }
}
