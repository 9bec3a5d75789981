//! The free search for the first solution, which other searches may end.

ghost use Rattle.std.specs.Prelude.{IfSome};
ghost use Rattle.interval.specs.Boxes.{IsInside};
ghost use Rattle.solution_lists.specs.Solutions.{SolvesInside};
ghost use Rattle.search.specs.Premises.{IsRun};
ghost use Rattle.race.specs.Tasks.{IsTask};
ghost use Rattle.race.specs.Firsts.{IsRoad};
ghost use Rattle.portfolio.specs.Told.{TellsFirstIn};

use crate::progress::FreeTurns;
use crate::told::FirstTold;
use first_keys::is_static;
use gate::Gate;
use interval::BoxOf;
use list_of::ListOf;
use race::{Road, RoadTurn, Task, free_turn, road_from};
use search::Run;
use std::alloc::Global;
use std::thread::Threads;

/// Turn by turn, until the first solution is known, or nothing more need be searched.
fn go_on<R: Threads + Sync, L: Gate + Sync, G: Gate>(
    rt: &R,
    alloc: Global,
    task: &Task<'_, '_, L>,
    road: Road,
    turns: &mut FreeTurns<'_, G>,
) -> FirstTold
    requires task { IsTask task.now }
    requires road { IsRoad task.now road }
    ensures { TellsFirstIn task.now.run.now task.now.sub.now result }
{
    let mut road = road;
    let mut spent = 0u64;
    for _ in 0..u64::MAX {
        let Some(budget) = turns.next(spent) else {
            return FirstTold::Unknown;
        };
        match free_turn(rt, alloc, task, road, budget) {
            RoadTurn::Answered(answer) => return FirstTold::Known(answer),
            RoadTurn::Over => return FirstTold::Unknown,
            RoadTurn::Goes(next) => road = next,
        }
        spent = spent.saturating_add(budget);
    }
    FirstTold::Unknown
}

/// The first solution in a box by a search in a free order, from one that is known, if one is: in a static order by its keys, in
/// another one only that there is none. It does without the memory that it is refused.
pub fn first_by_free<R: Threads + Sync, L: Gate + Sync, G: Gate>(
    rt: &R,
    alloc: Global,
    run: &Run<'_, L>,
    sub: &BoxOf,
    known: Option<ListOf<i64>>,
    turns: &mut FreeTurns<'_, G>,
) -> FirstTold
    requires run { IsRun run.now }
    requires inside { IsInside sub.now run.now.program.now.start }
    requires known { IfSome known (SolvesInside run.now.model.now sub.now) }
    ensures { TellsFirstIn run.now sub.now result }
{
    let task = Task {
        run,
        sub,
        is_static: is_static(run.model),
    };
    match road_from(alloc, &task, known, None) {
        Some(road) => go_on(rt, alloc, &task, road, turns),
        None => FirstTold::Unknown,
    }
}
