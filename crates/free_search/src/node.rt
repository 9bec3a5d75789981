//! The nodes of a free search.

ghost use Rattle.std.specs.Prelude.{◌≡◌, length, IfOk, IfSome, IfNone, OnOk};
ghost use Rattle.std.specs.Bool.{OnTrue};
ghost use Rattle.solution_lists.specs.Solutions.{SolvesInside};
ghost use Rattle.nogoods.specs.Nogoods.{HasNone};
ghost use Rattle.nogoods.specs.Learners.{Serves, AreFor, RulesOut};
ghost use Rattle.free_search.specs.Ends.{IfFound, IfRefuted};
ghost use Rattle.search.specs.Premises.{CanSearch};
ghost use Rattle.free_search.specs.Ready.{AreLeft, IsReady, IsSettled, count_of};
ghost use Rattle.free_search.specs.Tasks.{IsTask};

use crate::ends::FreeEnd;
use crate::guide::Guide;
use crate::points::point_in;
use crate::searcher::Searcher;
use crate::task::Task;
use branching::are_fixed;
use gate::Gate;
use guarded_tell::{Side, Tell};
use interval::{BoxOf, law_inside_order};
use list_of::ListOf;
use memory::NoMemory;
use narrowing::{law_known_where_rests, law_quiet_where_closed};
use nogoods::{Bearing, Learner};
use search::Run;
use std::alloc::Global;
use std::thread::Threads;
use trailed_box::{Cause, Log};

/// The reason why a nogood told something.
fn cause_of(number: usize) -> Cause {
    match u32::try_from(number) {
        Ok(number) => Cause::Nogood(number),
        Err(_) => Cause::Choice,
    }
}

/// Goes back to boxes that were left, while the log was as long as that where they were.
fn go_back_to<L>(run: &Run<'_, L>, searcher: &mut Searcher, length: usize)
    requires { IsSettled run.now.program.now.kernels searcher.old }
    ensures settled { IsSettled run.now.program.now.kernels searcher.new }
    ensures count { count_of searcher.new ≡ count_of searcher.old }
{
    for _ in 0..searcher.depth {
        if searcher.boxes.level_start() < length {
            return;
        }
        if !searcher.back(run) {
            return;
        }
    }
}

/// Goes back from a box that failed to the last one that was left, and further, as long as the log was as long as that. Whether it
/// went back: not where no box is left, nor where no place is known to go back to.
fn go_back<L>(run: &Run<'_, L>, searcher: &mut Searcher, length: Option<usize>) -> bool
    requires { AreLeft run.now.program.now.kernels searcher.old }
    ensures ready { OnTrue result (IsReady run.now.program.now.kernels searcher.new) }
    ensures count { count_of searcher.new ≡ count_of searcher.old }
{
    law_quiet_where_closed();
    law_known_where_rests();
    let Some(length) = length else {
        return false;
    };
    if !searcher.back(run) {
        return false;
    }
    go_back_to(run, searcher, length);
    true
}

/// Learns from a box that failed: of the nogood that it met, if it met one. The number of what it learned, if it learned something.
fn learn<L>(
    alloc: Global,
    task: &Task<'_, '_, L>,
    searcher: &Searcher,
    learner: &mut Learner,
    met: Option<usize>,
) -> Option<usize>
    requires task { IsTask task.now }
    requires count { count_of searcher.now ≡ length task.now.space.now }
    requires serves { Serves task.now.run.now.program.now.kernels task.now.space.now learner.old }
    ensures { Serves task.now.run.now.program.now.kernels task.now.space.now learner.new }
{
    let boxes = &searcher.boxes;
    let kernels = task.run.program.kernels.as_slice();
    let is_whole = searcher.depth == 0;
    let from = boxes.level_start();
    let log = boxes.log();
    match met {
        Some(number) => learner.learn_again(
            alloc, kernels, task.space, log, number, from, is_whole,
        ),
        None => learner.learn(
            alloc,
            kernels,
            task.space,
            log,
            boxes.current(),
            from,
            is_whole,
        ),
    }
}

/// Whether what was learned refutes the box.
fn refutes(learner: &Learner, learned: Option<usize>, b: &BoxOf) -> bool
    requires { AreFor (length b.now) learner.now }
    ensures { OnTrue result (RulesOut learner.now b.now) }
{
    match learned {
        Some(number) => learner.refutes(number, b),
        None => false,
    }
}

/// How long the log was where what was learned says something; none where nothing was learned, or where no log is kept, as after memory
/// was refused: the search would decide the same again.
fn jump_place(learner: &Learner, learned: Option<usize>, log: &Log) -> Option<usize> {
    let number = learned?;
    if log.is_open() {
        Some(learner.jump_place(number, log))
    } else {
        None
    }
}

/// Learns from a box that failed, and goes back. It says how the search ends, where it does: it gives up where it can't learn.
fn fail<L>(
    alloc: Global,
    task: &Task<'_, '_, L>,
    searcher: &mut Searcher,
    learner: &mut Learner,
    guide: &mut Guide,
    met: Option<usize>,
) -> Option<FreeEnd>
    requires task { IsTask task.now }
    requires left { AreLeft task.now.run.now.program.now.kernels searcher.old }
    requires count { count_of searcher.old ≡ length task.now.space.now }
    requires serves { Serves task.now.run.now.program.now.kernels task.now.space.now learner.old }
    ensures ready { IfNone result (IsReady task.now.run.now.program.now.kernels searcher.new) }
    ensures count { count_of searcher.new ≡ count_of searcher.old }
    ensures serves { Serves task.now.run.now.program.now.kernels task.now.space.now learner.new }
    ensures found { IfSome result (λ end. IfFound end (SolvesInside task.now.run.now.model.now task.now.sub.now)) }
    ensures refuted { IfSome result (λ end. IfRefuted end (HasNone task.now.run.now.program.now.kernels task.now.space.now task.now.sub.now)) }
{
    guide.count_node();
    let learned = learn(alloc, task, searcher, learner, met);
    if refutes(learner, learned, task.sub) {
        return Some(FreeEnd::Refuted);
    }
    guide.hear(learner.touched.variables.as_slice());
    let length = jump_place(learner, learned, searcher.boxes.log());
    if !go_back(task.run, searcher, length) {
        return Some(FreeEnd::GaveUp);
    }
    learner.back_to(searcher.boxes.log().len());
    None
}

/// Decides something of the current box, which is closed.
fn decide<L>(run: &Run<'_, L>, searcher: &mut Searcher, guide: &mut Guide) -> Result<(), NoMemory>
    requires run { CanSearch run.now (count_of searcher.old) }
    requires settled { IsSettled run.now.program.now.kernels searcher.old }
    ensures ready { OnOk result (IsReady run.now.program.now.kernels searcher.new) }
    ensures count { OnOk result (count_of searcher.new ≡ count_of searcher.old) }
{
    guide.count_node();
    let (v, low, high) = guide.choose(searcher.boxes.current());
    searcher.leave(run)?;
    searcher.tighten(run, v, low, high, Cause::Choice)?;
    Ok(())
}

/// Puts a bound that a nogood tells.
fn tell<L>(
    run: &Run<'_, L>,
    searcher: &mut Searcher,
    t: Tell,
    number: usize,
) -> Result<(), NoMemory>
    requires run { CanSearch run.now (count_of searcher.old) }
    requires ready { IsReady run.now.program.now.kernels searcher.old }
    ensures ready { OnOk result (IsReady run.now.program.now.kernels searcher.new) }
    ensures count { OnOk result (count_of searcher.new ≡ count_of searcher.old) }
{
    let cause = cause_of(number);
    match t.side {
        Side::Low => searcher.tighten(run, t.var, t.bound, i64::MAX, cause),
        Side::High => searcher.tighten(run, t.var, i64::MIN, t.bound, cause),
    }
}

/// Gives the numbers of the current box, which is closed, where it fixes each declared variable; else decides something, or begins
/// anew.
fn settle<L>(
    alloc: Global,
    task: &Task<'_, '_, L>,
    searcher: &mut Searcher,
    guide: &mut Guide,
) -> Result<Option<FreeEnd>, NoMemory>
    requires task { IsTask task.now }
    requires settled { IsSettled task.now.run.now.program.now.kernels searcher.old }
    requires count { count_of searcher.old ≡ length task.now.space.now }
    ensures ready { IfOk result (λ end. IfNone end (IsReady task.now.run.now.program.now.kernels searcher.new)) }
    ensures count { IfOk result (λ _. count_of searcher.new ≡ count_of searcher.old) }
    ensures found { IfOk result (λ end. IfSome end (λ e. IfFound e (SolvesInside task.now.run.now.model.now task.now.sub.now))) }
    ensures refuted { IfOk result (λ end. IfSome end (λ e. IfRefuted e (HasNone task.now.run.now.program.now.kernels task.now.space.now task.now.sub.now))) }
{
    law_inside_order();
    if are_fixed(task.run.model, searcher.boxes.current()) {
        let point = point_in(alloc, task.run, searcher.boxes.current(), task.sub)?;
        return Ok(Some(end_at(task, point, guide)));
    }
    decide(task.run, searcher, guide)?;
    Ok(None)
}

/// The end of a search at a point, if that lies in the box that is searched.
fn end_at<L>(task: &Task<'_, '_, L>, point: Option<ListOf<i64>>, guide: &mut Guide) -> FreeEnd
    requires { IfSome point (SolvesInside task.now.run.now.model.now task.now.sub.now) }
    ensures found { IfFound result (SolvesInside task.now.run.now.model.now task.now.sub.now) }
    ensures refuted { IfRefuted result (HasNone task.now.run.now.program.now.kernels task.now.space.now task.now.sub.now) }
{
    match point {
        None => FreeEnd::GaveUp,
        Some(point) => {
            guide.keep_values(point.as_slice());
            FreeEnd::Found(point)
        }
    }
}

/// One node: the current box is narrowed; where it fails something is learned and gone back to an earlier one, else a nogood tells
/// it something, or it gives a solution, or something is decided.
pub(crate) fn node<R: Threads + Sync, L: Gate + Sync>(
    rt: &R,
    alloc: Global,
    task: &Task<'_, '_, L>,
    searcher: &mut Searcher,
    learner: &mut Learner,
    guide: &mut Guide,
) -> Result<Option<FreeEnd>, NoMemory>
    requires task { IsTask task.now }
    requires ready { IsReady task.now.run.now.program.now.kernels searcher.old }
    requires count { count_of searcher.old ≡ length task.now.space.now }
    requires serves { Serves task.now.run.now.program.now.kernels task.now.space.now learner.old }
    ensures ready { IfOk result (λ end. IfNone end (IsReady task.now.run.now.program.now.kernels searcher.new)) }
    ensures count { IfOk result (λ _. count_of searcher.new ≡ count_of searcher.old) }
    ensures serves { IfOk result (λ _. Serves task.now.run.now.program.now.kernels task.now.space.now learner.new) }
    ensures found { IfOk result (λ end. IfSome end (λ e. IfFound e (SolvesInside task.now.run.now.model.now task.now.sub.now))) }
    ensures refuted { IfOk result (λ end. IfSome end (λ e. IfRefuted e (HasNone task.now.run.now.program.now.kernels task.now.space.now task.now.sub.now))) }
{
    law_quiet_where_closed();
    law_known_where_rests();
    let is_fixed = searcher.narrow(rt, alloc, task.run)?;
    guide.spend_visits(searcher.narrower.visits());
    if !is_fixed {
        return Ok(fail(alloc, task, searcher, learner, guide, None));
    }
    match learner.bearing(searcher.boxes.current(), searcher.boxes.log()) {
        Bearing::Failed(number) => Ok(fail(alloc, task, searcher, learner, guide, Some(number))),
        Bearing::Told(t, number) => {
            tell(task.run, searcher, t, number)?;
            Ok(None)
        }
        Bearing::Quiet => settle(alloc, task, searcher, guide),
    }
}

/// Nodes until the search ends or is to begin anew, which is said by none. So many units of work may be spent in all.
pub(crate) fn nodes<R: Threads + Sync, L: Gate + Sync>(
    rt: &R,
    alloc: Global,
    task: &Task<'_, '_, L>,
    searcher: &mut Searcher,
    learner: &mut Learner,
    guide: &mut Guide,
    most: u64,
) -> Result<Option<FreeEnd>, NoMemory>
    requires task { IsTask task.now }
    requires ready { IsReady task.now.run.now.program.now.kernels searcher.old }
    requires count { count_of searcher.old ≡ length task.now.space.now }
    requires serves { Serves task.now.run.now.program.now.kernels task.now.space.now learner.old }
    ensures ready { IfOk result (λ end. IfNone end (IsReady task.now.run.now.program.now.kernels searcher.new)) }
    ensures count { IfOk result (λ _. count_of searcher.new ≡ count_of searcher.old) }
    ensures serves { IfOk result (λ _. Serves task.now.run.now.program.now.kernels task.now.space.now learner.new) }
    ensures found { IfOk result (λ end. IfSome end (λ e. IfFound e (SolvesInside task.now.run.now.model.now task.now.sub.now))) }
    ensures refuted { IfOk result (λ end. IfSome end (λ e. IfRefuted e (HasNone task.now.run.now.program.now.kernels task.now.space.now task.now.sub.now))) }
{
    for _ in 0..u64::MAX {
        if guide.restarts() {
            return Ok(None);
        }
        guide.spend_learned(learner.work());
        if guide.spent() >= most {
            return Ok(Some(FreeEnd::GaveUp));
        }
        if let Some(end) = node(rt, alloc, task, searcher, learner, guide)? {
            return Ok(Some(end));
        }
    }
    Ok(None)
}
