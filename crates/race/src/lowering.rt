//! What the free search says of the least cost.

ghost use Rattle.std.specs.Prelude.{◌≡◌, ◌≢◌, Some, IfOk, IfSome};
ghost use Rattle.constraint_model.specs.declared.model.Goal.TheVariants.{Satisfy};
ghost use Rattle.search.specs.LeastEnds.{IsCost};
ghost use Rattle.search.specs.Turns.{CostsAtLeast};
ghost use Rattle.free_search.specs.Ends.{IfFound, IfRefuted};
ghost use Rattle.free_search.specs.Free.{IsFreeSearch};
ghost use Rattle.race.specs.Tasks.{IsTask};
ghost use Rattle.race.specs.Leasts.{IsIncumbent, best_cost, IsLower, IsFreeTurn};

use crate::incumbent::{Incumbent, by_free, cost_of};
use crate::task::Task;
use free_search::{FreeEnd, FreeSearch};
use gate::Gate;
use interval::law_inside_order;
use memory::NoMemory;
use search::cut_below_cost;
use std::alloc::Global;
use std::thread::Threads;

/// What a race for the least cost has found so far, or in the end.
#[derive(Drop)]
pub struct Raced {
    /// The best solution, if one is known.
    pub best: Option<Incumbent>,
    /// The free search, if it is made.
    pub free: Option<FreeSearch>,
}

/// The two of them.
fn with_search(best: Option<Incumbent>, free: FreeSearch) -> Raced
    ensures best { result.best ≡ best }
    ensures free { result.free ≡ Some free }
{
    Raced {
        best,
        free: Some(free),
    }
}

/// How a turn of the free search ends.
#[derive(Drop)]
pub(crate) enum FreeTurn {
    /// No solution costs less than the best one.
    Proved(Raced),
    /// It can have another turn.
    Goes(Raced),
    /// Memory was refused.
    Over(Option<Incumbent>),
}

/// Looks for a solution that costs less than so much, if that is given, and else for any. Errors: memory.
pub fn look_below<R: Threads + Sync, L: Gate + Sync>(
    rt: &R,
    alloc: Global,
    task: &Task<'_, '_, L>,
    free: &mut FreeSearch,
    best: Option<i64>,
    units: u64,
) -> Result<FreeEnd, NoMemory>
    requires task { IsTask task.now }
    requires objective { task.now.run.now.model.now.goal ≢ Satisfy }
    requires free { IsFreeSearch task.now.run.now free.old }
    requires best { IfSome best (IsCost task.now.run.now.model.now) }
    ensures free { IfOk result (λ _. IsFreeSearch task.now.run.now free.new) }
    ensures found { IfOk result (λ end. IfFound end (IsLower task.now.run.now.model.now task.now.sub.now best)) }
    ensures refuted { IfOk result (λ end. IfRefuted end (CostsAtLeast task.now.run.now.model.now task.now.sub.now best)) }
{
    law_inside_order();
    match best {
        None => free.look_for(rt, alloc, task.run, task.sub, units),
        Some(cost) => {
            let mut cut = task.sub.copy(alloc)?;
            cut_below_cost(task.run, cost, &mut cut);
            free.look_for(rt, alloc, task.run, &cut, units)
        }
    }
}

/// Looks for better and better solutions, until so many units of work are spent.
fn improve<R: Threads + Sync, L: Gate + Sync>(
    rt: &R,
    alloc: Global,
    task: &Task<'_, '_, L>,
    free: FreeSearch,
    best: Option<Incumbent>,
    units: u64,
) -> FreeTurn
    requires task { IsTask task.now }
    requires objective { task.now.run.now.model.now.goal ≢ Satisfy }
    requires free { IsFreeSearch task.now.run.now free }
    requires best { IfSome best (IsIncumbent task.now.run.now.model.now task.now.sub.now) }
    ensures { IsFreeTurn task.now (best_cost best) result }
{
    let mut free = free;
    let mut incumbent = best;
    let most = free.spent().saturating_add(units);
    for _ in 0..u64::MAX {
        let left = most.saturating_sub(free.spent());
        let cost = cost_of(&incumbent);
        match look_below(rt, alloc, task, &mut free, cost, left) {
            Ok(FreeEnd::Found(values)) => incumbent = Some(by_free(task, values)),
            Ok(FreeEnd::Refuted) => return FreeTurn::Proved(with_search(incumbent, free)),
            Ok(FreeEnd::GaveUp) => return FreeTurn::Goes(with_search(incumbent, free)),
            Err(_) => return FreeTurn::Over(incumbent),
        }
    }
    FreeTurn::Goes(with_search(incumbent, free))
}

/// A turn of the free search, which is made first if it isn't. Memory that is refused ends it, and nothing else.
pub(crate) fn free_turn<R: Threads + Sync, L: Gate + Sync>(
    rt: &R,
    alloc: Global,
    task: &Task<'_, '_, L>,
    raced: Raced,
    units: u64,
) -> FreeTurn
    requires task { IsTask task.now }
    requires objective { task.now.run.now.model.now.goal ≢ Satisfy }
    requires whole { task.now.sub.now ≡ task.now.run.now.program.now.start }
    requires free { IfSome raced.free (IsFreeSearch task.now.run.now) }
    requires best { IfSome raced.best (IsIncumbent task.now.run.now.model.now task.now.sub.now) }
    ensures { IsFreeTurn task.now (best_cost raced.best) result }
{
    let Raced { best, free } = raced;
    match free {
        Some(free) => improve(rt, alloc, task, free, best, units),
        None => match FreeSearch::new(rt, alloc, task.run) {
            Ok(Some(free)) => improve(rt, alloc, task, free, best, units),
            Ok(None) => FreeTurn::Proved(Raced { best, free: None }),
            Err(_) => FreeTurn::Over(best),
        },
    }
}
