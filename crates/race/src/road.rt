//! What the free search says of the first solution of a box.

ghost use Rattle.std.specs.Prelude.{◌≡◌, ℤ, List, true, None, IfSome};
ghost use Rattle.solution_lists.specs.Solutions.{SolvesInside};
ghost use Rattle.free_search.specs.Free.{IsFreeSearch};
ghost use Rattle.first_keys.specs.Least.{IsKeys, IsDone, asked};
ghost use Rattle.race.specs.Tasks.{IsTask};
ghost use Rattle.race.specs.Firsts.{AreKeyed, IsRoad, IsTurn};

use crate::task::Task;
use first_keys::Keys;
use free_search::{FreeEnd, FreeSearch};
use gate::Gate;
use interval::law_inside_order;
use list_of::ListOf;
use solution_lists::law_solutions_listed;
use std::alloc::Global;
use std::thread::Threads;

/// How far the free search has come.
#[derive(Drop)]
pub enum Road {
    /// It isn't made yet; this solution is known, if one is.
    Unmade(Option<ListOf<i64>>),
    /// It looks for a solution.
    Looking(FreeSearch),
    /// It looks for the first one, key by key.
    Keyed(FreeSearch, Keys),
}

/// How a turn of the free search ends.
#[derive(Drop)]
pub enum RoadTurn {
    /// With the first solution in the box, or with none where it has none.
    Answered(Option<ListOf<i64>>),
    /// It can have another turn.
    Goes(Road),
    /// It has nothing more to say, or memory was refused.
    Over,
}

/// The answer where the box has no solution.
fn nothing<L>(task: &Task<'_, '_, L>) -> RoadTurn
    requires task { IsTask task.now }
    requires none { (a : List ℤ) → SolvesInside task.now.run.now.model.now task.now.sub.now a → ⊥ }
    ensures { IsTurn task.now result }
{
    law_inside_order();
    law_solutions_listed();
    // its contract says that the bounds are in range
    let _length = task.sub.len();
    RoadTurn::Answered(None)
}

/// The answer where all keys are found.
fn keys_done<L>(task: &Task<'_, '_, L>, keys: Keys) -> RoadTurn
    requires task { IsTask task.now }
    requires keys { IsKeys task.now.run.now keys }
    requires same_box { asked keys ≡ task.now.sub.now }
    requires done { IsDone keys }
    ensures { IsTurn task.now result }
{
    RoadTurn::Answered(Some(keys.into_solution(task.run)))
}

/// Goes on with the keys.
fn go_on<R: Threads + Sync, L: Gate + Sync>(
    rt: &R,
    alloc: Global,
    task: &Task<'_, '_, L>,
    mut free: FreeSearch,
    mut keys: Keys,
    budget: u64,
) -> RoadTurn
    requires task { IsTask task.now }
    requires keyed { AreKeyed task.now free keys }
    ensures { IsTurn task.now result }
{
    match keys.go_on(rt, alloc, task.run, &mut free, budget) {
        Ok(true) => keys_done(task, keys),
        Ok(false) => RoadTurn::Goes(Road::Keyed(free, keys)),
        Err(_) => RoadTurn::Over,
    }
}

/// Begins with the keys, where the order is static, from a solution in the box. Else nothing more can be said.
fn begin_keys<R: Threads + Sync, L: Gate + Sync>(
    rt: &R,
    alloc: Global,
    task: &Task<'_, '_, L>,
    free: FreeSearch,
    solution: ListOf<i64>,
    budget: u64,
) -> RoadTurn
    requires task { IsTask task.now }
    requires free { IsFreeSearch task.now.run.now free }
    requires solves { SolvesInside task.now.run.now.model.now task.now.sub.now solution }
    ensures { IsTurn task.now result }
{
    if !task.is_static {
        return RoadTurn::Over;
    }
    match Keys::new(alloc, task.run, task.sub, solution) {
        Ok(keys) => go_on(rt, alloc, task, free, keys, budget),
        Err(_) => RoadTurn::Over,
    }
}

/// Looks for a solution.
fn look<R: Threads + Sync, L: Gate + Sync>(
    rt: &R,
    alloc: Global,
    task: &Task<'_, '_, L>,
    mut free: FreeSearch,
    budget: u64,
) -> RoadTurn
    requires task { IsTask task.now }
    requires free { IsFreeSearch task.now.run.now free }
    ensures { IsTurn task.now result }
{
    let most = free.spent().saturating_add(budget);
    match free.look_for(rt, alloc, task.run, task.sub, budget) {
        Ok(FreeEnd::Found(solution)) => {
            let left = most.saturating_sub(free.spent());
            begin_keys(rt, alloc, task, free, solution, left)
        }
        Ok(FreeEnd::Refuted) => nothing(task),
        Ok(FreeEnd::GaveUp) => RoadTurn::Goes(Road::Looking(free)),
        Err(_) => RoadTurn::Over,
    }
}

/// Makes the free search, and begins with it.
fn begin<R: Threads + Sync, L: Gate + Sync>(
    rt: &R,
    alloc: Global,
    task: &Task<'_, '_, L>,
    known: Option<ListOf<i64>>,
    budget: u64,
) -> RoadTurn
    requires task { IsTask task.now }
    requires known { IfSome known (SolvesInside task.now.run.now.model.now task.now.sub.now) }
    ensures { IsTurn task.now result }
{
    law_inside_order();
    match FreeSearch::new(rt, alloc, task.run) {
        Ok(Some(free)) => match known {
            Some(solution) => begin_keys(rt, alloc, task, free, solution, budget),
            None => look(rt, alloc, task, free, budget),
        },
        Ok(None) => nothing(task),
        Err(_) => RoadTurn::Over,
    }
}

/// A turn of the free search. Memory that is refused ends it, and nothing else.
pub fn free_turn<R: Threads + Sync, L: Gate + Sync>(
    rt: &R,
    alloc: Global,
    task: &Task<'_, '_, L>,
    road: Road,
    budget: u64,
) -> RoadTurn
    requires task { IsTask task.now }
    requires road { IsRoad task.now road }
    ensures { IsTurn task.now result }
{
    match road {
        Road::Unmade(known) => begin(rt, alloc, task, known, budget),
        Road::Looking(free) => look(rt, alloc, task, free, budget),
        Road::Keyed(free, keys) => go_on(rt, alloc, task, free, keys, budget),
    }
}

/// The keys from a solution that is known, by a search that is made.
fn keyed<L>(
    alloc: Global,
    task: &Task<'_, '_, L>,
    free: FreeSearch,
    solution: ListOf<i64>,
) -> Option<Road>
    requires task { IsTask task.now }
    requires free { IsFreeSearch task.now.run.now free }
    requires solves { SolvesInside task.now.run.now.model.now task.now.sub.now solution }
    requires static_order { task.now.is_static ≡ true }
    ensures { IfSome result (IsRoad task.now) }
{
    match Keys::new(alloc, task.run, task.sub, solution) {
        Ok(keys) => Some(Road::Keyed(free, keys)),
        Err(_) => None,
    }
}

/// Where the free search begins: it goes on if it is made, and from a solution if one is known. None: it has nothing to say.
pub fn road_from<L>(
    alloc: Global,
    task: &Task<'_, '_, L>,
    known: Option<ListOf<i64>>,
    free: Option<FreeSearch>,
) -> Option<Road>
    requires task { IsTask task.now }
    requires known { IfSome known (SolvesInside task.now.run.now.model.now task.now.sub.now) }
    requires free { IfSome free (IsFreeSearch task.now.run.now) }
    ensures { IfSome result (IsRoad task.now) }
{
    match (known, free) {
        (None, Some(free)) => Some(Road::Looking(free)),
        (None, None) => Some(Road::Unmade(None)),
        (Some(_), _) if !task.is_static => None,
        (Some(solution), Some(free)) => keyed(alloc, task, free, solution),
        (Some(solution), None) => Some(Road::Unmade(Some(solution))),
    }
}
