//! A run of the free search.

ghost use Rattle.std.specs.Prelude.{◌≡◌, length, IfOk, IfSome, IfNone, OnOk};
ghost use Rattle.interval.specs.Boxes.{IsInside, IsProper};
ghost use Rattle.narrowing.specs.Narrowers.{Fits};
ghost use Rattle.solution_lists.specs.Solutions.{SolvesInside};
ghost use Rattle.nogoods.specs.Nogoods.{HasNone};
ghost use Rattle.nogoods.specs.Learners.{Serves};
ghost use Rattle.search.specs.Premises.{IsRun, CanSearch};
ghost use Rattle.free_search.specs.Ends.{IfFound, IfRefuted};
ghost use Rattle.free_search.specs.Ready.{IsReady, count_of};
ghost use Rattle.free_search.specs.Tasks.{IsTask};

use crate::ends::FreeEnd;
use crate::guide::Guide;
use crate::node::nodes;
use crate::refuting::is_refuted;
use crate::searcher::Searcher;
use crate::task::Task;
use gate::Gate;
use interval::{BoxOf, is_crossed, law_inside_order};
use memory::NoMemory;
use nogoods::Learner;
use search::{Run, law_can_search};
use std::alloc::Global;
use std::thread::Threads;
use trailed_box::Cause;

/// Puts the bounds of a box, as choices: they are what is assumed.
fn assume<L>(run: &Run<'_, L>, searcher: &mut Searcher, sub: &BoxOf) -> Result<(), NoMemory>
    requires run { CanSearch run.now (count_of searcher.old) }
    requires ready { IsReady run.now.program.now.kernels searcher.old }
    ensures ready { OnOk result (IsReady run.now.program.now.kernels searcher.new) }
    ensures count { OnOk result (count_of searcher.new ≡ count_of searcher.old) }
{
    for v in 0..sub.len() {
        searcher.tighten(run, v, sub.low(v), sub.high(v), Cause::Choice)?;
    }
    Ok(())
}

/// One search from the beginning, with the nogoods of all before it, until it ends or is to begin anew.
fn round<R: Threads + Sync, L: Gate + Sync>(
    rt: &R,
    alloc: Global,
    task: &Task<'_, '_, L>,
    searcher: &mut Searcher,
    learner: &mut Learner,
    guide: &mut Guide,
    most: u64,
) -> Result<Option<FreeEnd>, NoMemory>
    requires task { IsTask task.now }
    requires proper { IsProper task.now.space.now }
    requires fits { Fits searcher.old.narrower task.now.run.now.program.now.kernels (count_of searcher.old) }
    requires count { count_of searcher.old ≡ length task.now.space.now }
    requires serves { Serves task.now.run.now.program.now.kernels task.now.space.now learner.old }
    ensures fits { IfOk result (λ end. IfNone end (Fits searcher.new.narrower task.now.run.now.program.now.kernels (count_of searcher.new))) }
    ensures count { IfOk result (λ _. count_of searcher.new ≡ count_of searcher.old) }
    ensures serves { IfOk result (λ _. Serves task.now.run.now.program.now.kernels task.now.space.now learner.new) }
    ensures found { IfOk result (λ end. IfSome end (λ e. IfFound e (SolvesInside task.now.run.now.model.now task.now.sub.now))) }
    ensures refuted { IfOk result (λ end. IfSome end (λ e. IfRefuted e (HasNone task.now.run.now.program.now.kernels task.now.space.now task.now.sub.now))) }
{
    searcher.restart(task.run, task.space);
    learner.forget(alloc);
    learner.begin_anew();
    assume(task.run, searcher, task.sub)?;
    nodes(rt, alloc, task, searcher, learner, guide, most)
}

/// Rounds until the search ends. So many units of work may be spent in all.
fn rounds<R: Threads + Sync, L: Gate + Sync>(
    rt: &R,
    alloc: Global,
    task: &Task<'_, '_, L>,
    searcher: &mut Searcher,
    learner: &mut Learner,
    guide: &mut Guide,
    most: u64,
) -> Result<FreeEnd, NoMemory>
    requires task { IsTask task.now }
    requires proper { IsProper task.now.space.now }
    requires fits { Fits searcher.old.narrower task.now.run.now.program.now.kernels (count_of searcher.old) }
    requires count { count_of searcher.old ≡ length task.now.space.now }
    requires serves { Serves task.now.run.now.program.now.kernels task.now.space.now learner.old }
    ensures serves { IfOk result (λ _. Serves task.now.run.now.program.now.kernels task.now.space.now learner.new) }
    ensures found { IfOk result (λ end. IfFound end (SolvesInside task.now.run.now.model.now task.now.sub.now)) }
    ensures refuted { IfOk result (λ end. IfRefuted end (HasNone task.now.run.now.program.now.kernels task.now.space.now task.now.sub.now)) }
{
    for _ in 0..u64::MAX {
        if let Some(end) = round(rt, alloc, task, searcher, learner, guide, most)? {
            return Ok(end);
        }
    }
    Ok(FreeEnd::GaveUp)
}

/// Looks for a solution in the box `sub`, which is the space under assumptions, in any order, with one lane, and until so many
/// units of work are spent. What it learns are nogoods of the space, whatever is assumed; what guides it goes on from one
/// search to the next. Errors: memory.
pub fn run_free<R: Threads + Sync, L: Gate + Sync>(
    rt: &R,
    alloc: Global,
    run: &Run<'_, L>,
    learner: &mut Learner,
    guide: &mut Guide,
    space: &BoxOf,
    sub: &BoxOf,
    budget: u64,
) -> Result<FreeEnd, NoMemory>
    requires run { IsRun run.now }
    requires inside { IsInside space.now run.now.program.now.start }
    requires assumed { IsInside sub.now space.now }
    requires serves { Serves run.now.program.now.kernels space.now learner.old }
    ensures serves { IfOk result (λ _. Serves run.now.program.now.kernels space.now learner.new) }
    ensures found { IfOk result (λ end. IfFound end (SolvesInside run.now.model.now sub.now)) }
    ensures refuted { IfOk result (λ end. IfRefuted end (HasNone run.now.program.now.kernels space.now sub.now)) }
{
    law_inside_order();
    law_can_search(run, space);
    let most = guide.spent().saturating_add(budget);
    guide.begin_search(learner.store.as_slice().len());
    if is_crossed(sub) {
        return Ok(FreeEnd::Refuted);
    }
    if is_refuted(learner, sub) {
        return Ok(FreeEnd::Refuted);
    }
    let mut searcher = Searcher::new(alloc, run, space)?;
    let task = Task { run, space, sub };
    rounds(rt, alloc, &task, &mut searcher, learner, guide, most)
}
