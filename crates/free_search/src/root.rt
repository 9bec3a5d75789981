//! Where a free search begins.

ghost use Rattle.std.specs.Prelude.{◌≡◌, IfOk, IfSome, IfNone};
ghost use Rattle.interval.specs.Boxes.{IsInside};
ghost use Rattle.fixpoint_laws.specs.Fixpoints.{IsGreatest, Fails};
ghost use Rattle.search.specs.Premises.{IsRun};

use crate::searcher::Searcher;
use gate::Gate;
use interval::{BoxOf, is_crossed, law_inside_order};
use memory::NoMemory;
use search::{Run, law_can_search};
use std::alloc::Global;
use std::thread::Threads;

/// A searcher whose current box is the greatest closed one in a box inside the start; none where no closed box is inside.
pub(crate) fn settled_in<R: Threads + Sync, L: Gate + Sync>(
    rt: &R,
    alloc: Global,
    run: &Run<'_, L>,
    b: &BoxOf,
) -> Result<Option<Searcher>, NoMemory>
    requires run { IsRun run.now }
    requires inside { IsInside b.now run.now.program.now.start }
    ensures some { IfOk result (λ settled. IfSome settled (λ s. IsGreatest s.boxes.current b.now run.now.program.now.kernels)) }
    ensures none { IfOk result (λ settled. IfNone settled (Fails b.now run.now.program.now.kernels)) }
{
    law_inside_order();
    law_can_search(run, b);
    if is_crossed(b) {
        return Ok(None);
    }
    let mut searcher = Searcher::new(alloc, run, b)?;
    searcher.restart(run, b);
    if !searcher.narrow(rt, alloc, run)? {
        return Ok(None);
    }
    Ok(Some(searcher))
}

/// The greatest closed box in the start of the run's program: all its solutions lie there, so nogoods of it are nogoods of the
/// start, and leave out what propagation alone knows. None where no closed box is inside. Errors: memory.
pub fn root_of<R: Threads + Sync, L: Gate + Sync>(
    rt: &R,
    alloc: Global,
    run: &Run<'_, L>,
) -> Result<Option<BoxOf>, NoMemory>
    requires { IsRun run.now }
    ensures some { IfOk result (λ root. IfSome root (λ b. IsGreatest b run.now.program.now.start run.now.program.now.kernels)) }
    ensures none { IfOk result (λ root. IfNone root (Fails run.now.program.now.start run.now.program.now.kernels)) }
{
    law_inside_order();
    let Some(settled) = settled_in(rt, alloc, run, &run.program.start)? else {
        return Ok(None);
    };
    let root = settled.boxes.current().copy(alloc)?;
    Ok(Some(root))
}
