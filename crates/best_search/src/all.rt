//! All solutions of a model.

ghost use Rattle.std.specs.Prelude.{◌≡◌, IfOk};
ghost use Rattle.search.specs.Premises.{IsRun};
ghost use Rattle.best_search.specs.Plans.{AreAll};

use gate::Gate;
use interval::law_inside_order;
use list_of::ListOf;
use memory::NoMemory;
use search::{AllEnd, Run, run_all};
use solution_lists::law_solutions_listed;
use std::alloc::Global;
use std::thread::Threads;

/// All solutions, each once, in the order of the search tree. Errors: memory.
pub fn all_solutions<R: Threads + Sync, L: Gate + Sync>(
    rt: &R,
    alloc: Global,
    run: &Run<'_, L>,
) -> Result<ListOf<ListOf<i64>>, NoMemory>
    requires run { IsRun run.now }
    requires node_limit { run.now.node_limit ≡ 0 }
    requires round_limit { run.now.round_limit ≡ 0 }
    ensures { IfOk result (AreAll run.now.model.now) }
{
    law_inside_order();
    law_solutions_listed();
    match run_all(rt, alloc, run, &run.program.start)? {
        AllEnd::Done(found) => Ok(found),
        AllEnd::Spent { .. } => unreachable!(),
    }
}
