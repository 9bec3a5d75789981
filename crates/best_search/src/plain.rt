//! What the plain search found.

ghost use Rattle.std.specs.Prelude.{None, IfNone, IfOk, ◌≢◌};
ghost use Rattle.search.specs.Turns.{found_last, lowest_of};
ghost use Rattle.best_search.specs.Searches.{IsLastOf};

use list_of::ListOf;
use memory::NoMemory;
use search::LeastTurns;
use std::alloc::Global;

/// A solution and its cost.
#[derive(Drop)]
pub(crate) struct Found {
    pub(crate) plan: ListOf<i64>,
    pub(crate) cost: i64,
}

/// What the plain search found last. Errors: memory.
pub(crate) fn last_of(alloc: Global, plain: &LeastTurns) -> Result<Found, NoMemory>
    requires plan { found_last plain.now ≢ None }
    requires cost { lowest_of plain.now ≢ None }
    ensures { IfOk result (IsLastOf plain.now) }
{
    match (plain.last(), plain.lowest()) {
        (Some(plan), Some(cost)) => {
            let numbers = Vec::from_slice(alloc, plan.as_slice())?;
            Ok(Found {
                plan: ListOf::from_vec(numbers),
                cost,
            })
        }
        _ => unreachable!(),
    }
}
