//! The best solution that is known.

ghost use Rattle.std.specs.Prelude.{◌≡◌, ◌≢◌, false, IfOk, IfSome, IfNone};
ghost use Rattle.constraint_model.specs.declared.model.Goal.TheVariants.{Satisfy};
ghost use Rattle.solution_lists.specs.Solutions.{SolvesInside};
ghost use Rattle.search.specs.Turns.{found_last, lowest_of};
ghost use Rattle.race.specs.Tasks.{IsTask};
ghost use Rattle.race.specs.Leasts.{IsIncumbent, best_cost, IsCopy};

use crate::task::Task;
use list_of::ListOf;
use memory::NoMemory;
use search::{LeastTurns, solution_cost};
use std::alloc::Global;

/// The best solution that is known.
#[derive(Drop)]
pub struct Incumbent {
    /// Its numbers, one for each declared variable.
    pub values: ListOf<i64>,
    /// What it costs: the objective to be minimized, or the opposite of the one to be maximized.
    pub cost: i64,
    /// Whether it is known to be the first that costs so much, in the order of the search tree.
    pub is_first: bool,
}

/// What the best one costs, if there is one.
pub(crate) fn cost_of(best: &Option<Incumbent>) -> Option<i64>
    ensures { result ≡ best_cost best.now }
{
    match best {
        Some(best) => Some(best.cost),
        None => None,
    }
}

/// What the plain search found last. Errors: memory.
pub(crate) fn by_plain(
    alloc: Global,
    plain: &LeastTurns,
    is_static: bool,
) -> Result<Option<Incumbent>, NoMemory>
    ensures some { IfOk result (λ best. IfSome best (λ found. IsCopy plain.now found × (found.is_first ≡ is_static))) }
    ensures none { IfOk result (λ best. IfNone best (lowest_of plain.now ≢ None → found_last plain.now ≡ None)) }
{
    match (plain.last(), plain.lowest()) {
        (Some(a), Some(cost)) => {
            let values = Vec::from_slice(alloc, a.as_slice())?;
            Ok(Some(Incumbent {
                values: ListOf::from_vec(values),
                cost,
                is_first: is_static,
            }))
        }
        _ => Ok(None),
    }
}

/// A solution that the free search found.
pub(crate) fn by_free<L>(task: &Task<'_, '_, L>, values: ListOf<i64>) -> Incumbent
    requires task { IsTask task.now }
    requires objective { task.now.run.now.model.now.goal ≢ Satisfy }
    requires solves { SolvesInside task.now.run.now.model.now task.now.sub.now values }
    ensures incumbent { IsIncumbent task.now.run.now.model.now task.now.sub.now result }
    ensures values { result.values ≡ values }
    ensures is_first { result.is_first ≡ false }
{
    let cost = solution_cost(task.run, values.as_slice());
    Incumbent {
        values,
        cost,
        is_first: false,
    }
}
