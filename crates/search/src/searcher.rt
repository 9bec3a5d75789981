//! The boxes that are still to be searched, and what narrows them.

ghost use Rattle.std.specs.Prelude.{◌≡◌, ◌≢◌, ◌<◌, ◌-◌, ◌<ℤ◌, ◌≤ℤ◌, ◌⊎◌, ℕ, List, true, false, [], ◌∷◌, ◌++◌, length, All, IfOk, OnOk, IfSome, IfNone};
ghost use Rattle.std.specs.Bool.{OnTrue, OnFalse};
ghost use Rattle.interval.specs.Limits.{IsNumber};
ghost use Rattle.interval.specs.Boxes.{Bounds, IsInside, IsProper, IsCrossed, put_of};
ghost use Rattle.guarded_tell.specs.declared.kernel.Kernel.{Kernel};
ghost use Rattle.guarded_tell.specs.Kernels.{IsKernel};
ghost use Rattle.fixpoint_laws.specs.Fixpoints.{IsClosed};
ghost use Rattle.moved_fixpoint.specs.Made.{IsMadeBy};
ghost use Rattle.trailed_box.specs.Trailed.{Left, IsPart, IsOver, left_of, boxes_of as left_boxes};
ghost use Rattle.branching.specs.Fronts.{IsFrontOf, FitsBox, left_by, right_by};
ghost use Rattle.branching.specs.Parts.{AreParts};
ghost use Rattle.narrowing.specs.Narrowing.{IsNarrowed, IsNarrowedAlone};
ghost use Rattle.narrowing.specs.Narrowers.{Fits, AreQuietUnlessNoted, Knows, LetsRest, LetRest, LetsRestWhereFixed, len_of, lanes_of};
ghost use Rattle.search.specs.declared.kind.Kind.TheVariants.{Least};
ghost use Rattle.search.specs.Costs.{IsObjectiveIn};
ghost use Rattle.search.specs.Machine.{cut_by};
ghost use Rattle.search.specs.Premises.{CanSearch};
ghost use Rattle.search.specs.Nodes.{IsSettled, IsTopVisit, HasVisited};
ghost use Rattle.search.specs.Stacks.{boxes_of, own_of, below_of, count_of, CanRestart, IsReady, IsFrontNear, AreLeft};
ghost use Rattle.search.specs.Keeping.{CanServe};

use crate::closing::last_of;
use crate::costs::cut_below;
use crate::kept::Spare;
use crate::node::{Visit, record};
use crate::run::{Run, Start};
use branching::{Branching, Front, branch_from, law_fronts};
use fixpoint_laws::law_tightens_one;
use gate::Gate;
use guarded_tell::Kernel;
use interval::{BoxOf, is_crossed, law_inside_order};
use list_of::ListOf;
use memory::NoMemory;
use narrowing::{Narrowed, Narrower, Propagation, law_known_where_rests, law_quiet_where_closed};
use std::alloc::{AllocError, Global};
use std::thread::Threads;
use trailed_box::{Part, TrailedBox};

/// The boxes that are still to be searched, and what narrows them. One is the current box of a trailed box, and the others
/// are the last on its stack, as many as there are fronts: so no box is copied. What lies below them stays as it is.
#[derive(Drop)]
pub(crate) struct Searcher {
    pub(crate) boxes: TrailedBox,
    // for each box that is left how far the search had come in its base
    pub(crate) fronts: Vec<Front>,
    // how far it has come in the current box
    pub(crate) front: Front,
    pub(crate) narrower: Narrower,
    // whether the current box is still to be searched
    pub(crate) is_open: bool,
    // whether it is crossed; that is known from how it came about, so that no node looks at all its pairs
    pub(crate) is_crossed: bool,
}

/// Sets the bounds of a pair of the current box, and notes it.
fn put(boxes: &mut TrailedBox, narrower: &mut Narrower, part: Part) -> Result<(), NoMemory>
    requires part { IsPart (length boxes.old.current) part.var part.low part.high }
    requires noted { part.var < len_of narrower.old }
    ensures current { OnOk result (boxes.new.current ≡ put_of boxes.old.current part.var part.low part.high) }
    ensures stack { OnOk result (boxes.new.stack ≡ boxes.old.stack) }
    ensures fits { OnOk result ((kernels : List Kernel) (count : ℕ) → Fits narrower.old kernels count → Fits narrower.new kernels count) }
    ensures lanes { OnOk result (lanes_of narrower.new ≡ lanes_of narrower.old) }
    ensures quiet { OnOk result ((kernels : List Kernel) → All (IsKernel (length boxes.old.current)) kernels →
        AreQuietUnlessNoted narrower.old kernels boxes.old.current → AreQuietUnlessNoted narrower.new kernels boxes.new.current) }
    ensures knows { OnOk result ((kernels : List Kernel) →
        IsInside (put_of boxes.old.current part.var part.low part.high) boxes.old.current → part.low ≤ℤ part.high →
        Knows narrower.old kernels boxes.old.current → Knows narrower.new kernels boxes.new.current) }
    ensures let_rest { OnOk result ((kernels : List Kernel) (stack : List Left) → LetRest narrower.old kernels stack → LetRest narrower.new kernels stack) }
{
    boxes.put(part.var, part.low, part.high)?;
    narrower.note(part.var);
    Ok(())
}

/// Whether a box is crossed once a pair is cut to these bounds: it was crossed, or no number is left for the pair.
fn is_crossed_by(was_crossed: bool, cut: Part) -> bool
    ensures crossed { OnTrue result ((was_crossed ≡ true) ⊎ (cut.high <ℤ cut.low)) }
    ensures proper { OnFalse result ((was_crossed ≡ false) × (cut.low ≤ℤ cut.high)) }
{
    was_crossed || cut.high < cut.low
}

/// Leaves the other part of a box for later.
fn leave(boxes: &mut TrailedBox, parts: Branching) -> Result<(), NoMemory>
    requires { FitsBox boxes.old.current parts }
    ensures current { OnOk result (boxes.new.current ≡ boxes.old.current) }
    ensures stack { OnOk result (boxes.new.stack ≡ boxes.old.stack ++ left_of boxes.old.current parts.pair parts.right_low parts.right_high ∷ []) }
{
    boxes.push(parts.pair, parts.right_low, parts.right_high)
}

/// The bounds of the part that comes first.
fn first_part(parts: Branching) -> Part
    ensures { result ≡ record { var = parts.pair; low = parts.left_low; high = parts.left_high } }
{
    Part {
        var: parts.pair,
        low: parts.left_low,
        high: parts.left_high,
    }
}

/// Notes of a box where a run begins what is known of it.
fn note_start(narrower: &mut Narrower, changed: Option<u32>)
    requires { IfSome changed (λ pair. pair < len_of narrower.old) }
    ensures fits { (kernels : List Kernel) (count : ℕ) → Fits narrower.old kernels count → Fits narrower.new kernels count }
    ensures lanes { lanes_of narrower.new ≡ lanes_of narrower.old }
    ensures quiet { (kernels : List Kernel) (b : Bounds) → length b ≡ len_of narrower.old → All (IsKernel (length b)) kernels →
        IsMadeBy changed kernels b → AreQuietUnlessNoted narrower.new kernels b }
    ensures knows { (kernels : List Kernel) (count : ℕ) (b : Bounds) → Fits narrower.old kernels count → Knows narrower.new kernels b }
    ensures let_rest { (kernels : List Kernel) → LetRest narrower.new kernels [] }
{
    match changed {
        Some(pair) => narrower.note_alone(pair),
        None => narrower.note_all(),
    }
}

/// Whether the box where a run begins is crossed. One that was made of a closed one isn't; only a box of which nothing is
/// known is looked at.
fn is_crossed_start(b: &BoxOf, changed: Option<u32>) -> bool
    ensures crossed { OnTrue result (IsCrossed b.now) }
    ensures proper { OnFalse result ((kernels : List Kernel) → IsMadeBy changed kernels b.now → IsProper b.now) }
{
    changed.is_none() && is_crossed(b)
}

/// Keeps a front.
fn keep(fronts: &mut Vec<Front>, front: Front) -> Result<(), AllocError>
    ensures { OnOk result (fronts.new.items ≡ fronts.old.items ++ front ∷ []) }
{
    fronts.push(front)?;
    Ok(())
}

/// Takes the last front, if there is one.
fn last(fronts: &mut Vec<Front>) -> Option<Front>
    ensures none { IfNone result (fronts.old.items ≡ []) }
    ensures unchanged { IfNone result (fronts.new.items ≡ []) }
    ensures some { IfSome result (λ front. fronts.old.items ≡ fronts.new.items ++ front ∷ []) }
{
    fronts.pop()
}

/// Goes back to the base of the box that was left last, and gives the part in which that box differs from it.
fn unwind(boxes: &mut TrailedBox) -> Part
    requires { boxes.old.stack ≢ [] }
    ensures stack { boxes.old.stack ≡ boxes.new.stack ++ left_of boxes.new.current result.var result.low result.high ∷ [] }
    ensures part { IsPart (length boxes.new.current) result.var result.low result.high }
    ensures same_length { length boxes.new.current ≡ length boxes.old.current }
{
    match boxes.pop() {
        Some(part) => part,
        None => unreachable!(),
    }
}

impl Searcher {
    /// A searcher of the box where a run begins. That takes no memory.
    pub(crate) fn new<L>(run: &Run<'_, L>, start: Start, spare: Spare) -> Searcher
        requires run { CanSearch run.now (length start.boxes.current) }
        requires spare { CanServe run.now.program.now.kernels run.now.lanes (length start.boxes.current) spare }
        requires made { IsMadeBy start.changed run.now.program.now.kernels start.boxes.current }
        ensures current { result.boxes.current ≡ start.boxes.current }
        ensures boxes { boxes_of result ≡ result.boxes.current ∷ [] }
        ensures below { below_of result ≡ start.boxes.stack }
        ensures ready { IsReady run.now result }
    {
        law_inside_order();
        let Start { boxes, changed } = start;
        let Spare {
            mut fronts,
            mut narrower,
        } = spare;
        fronts.clear();
        note_start(&mut narrower, changed);
        let is_crossed = is_crossed_start(boxes.current(), changed);
        Searcher {
            boxes,
            fronts,
            front: Front::first(),
            narrower,
            is_open: true,
            is_crossed,
        }
    }

    /// What it was given: the boxes, and what the next one may use.
    pub(crate) fn into_parts(self) -> (TrailedBox, Spare)
        ensures boxes { result.0 ≡ self.boxes }
        ensures over { IsOver (below_of self) result.0.stack }
        ensures spare { (kernels : List Kernel) (lanes count : ℕ) → CanRestart kernels lanes count self → CanServe kernels lanes count result.1 }
    {
        let Searcher {
            boxes,
            fronts,
            narrower,
            ..
        } = self;
        (boxes, Spare { fronts, narrower })
    }

    /// Whether a box is left.
    pub(crate) fn has_next(&self) -> bool
        ensures some { OnTrue result (boxes_of self.now ≢ []) }
        ensures none { OnFalse result (boxes_of self.now ≡ []) }
    {
        self.is_open
    }

    /// Goes on with the box that was left last, if one is left.
    fn back<L>(&mut self, run: &Run<'_, L>) -> Result<(), NoMemory>
        requires run { CanSearch run.now (count_of self.old) }
        requires left { AreLeft run.now self.old }
        requires open { self.old.is_open ≡ true }
        ensures ready { OnOk result (IsReady run.now self.new) }
        ensures count { OnOk result (count_of self.new ≡ count_of self.old) }
        ensures boxes { OnOk result (boxes_of self.new ≡ left_boxes (own_of self.old)) }
        ensures below { OnOk result (below_of self.new ≡ below_of self.old) }
    {
        law_quiet_where_closed();
        law_known_where_rests();
        match last(&mut self.fronts) {
            None => {
                self.is_open = false;
                Ok(())
            }
            Some(front) => {
                let part = unwind(&mut self.boxes);
                self.front = front;
                self.is_crossed = false;
                self.narrower.back();
                put(&mut self.boxes, &mut self.narrower, part)?;
                Ok(())
            }
        }
    }

    /// Leaves the other part of the current box for later, and goes on with the part that comes first.
    fn part<L>(&mut self, run: &Run<'_, L>, parts: Branching, front: Front) -> Result<(), NoMemory>
        requires run { CanSearch run.now (count_of self.old) }
        requires left { AreLeft run.now self.old }
        requires open { self.old.is_open ≡ true }
        requires closed { IsClosed self.old.boxes.current run.now.program.now.kernels }
        requires rests { LetsRest self.old.narrower run.now.program.now.kernels self.old.boxes.current }
        requires fits { FitsBox self.old.boxes.current parts }
        requires front { IsFrontOf run.now.model.now self.old.boxes.current front }
        requires parts { AreParts self.old.boxes.current (left_by self.old.boxes.current parts) (right_by self.old.boxes.current parts) }
        ensures ready { OnOk result (IsReady run.now self.new) }
        ensures count { OnOk result (count_of self.new ≡ count_of self.old) }
        ensures boxes { OnOk result (boxes_of self.new ≡
            left_boxes (own_of self.old) ++ right_by self.old.boxes.current parts ∷ left_by self.old.boxes.current parts ∷ []) }
        ensures below { OnOk result (below_of self.new ≡ below_of self.old) }
    {
        law_quiet_where_closed();
        law_known_where_rests();
        leave(&mut self.boxes, parts)?;
        keep(&mut self.fronts, front)?;
        self.narrower.leave()?;
        self.front = front;
        self.is_crossed = false;
        put(&mut self.boxes, &mut self.narrower, first_part(parts))?;
        Ok(())
    }

    /// Records the current box, which is closed, where it fixes each declared variable; parts another.
    fn settle<L>(
        &mut self,
        alloc: Global,
        run: &Run<'_, L>,
        found: &mut ListOf<ListOf<i64>>,
    ) -> Result<(), NoMemory>
        requires run { CanSearch run.now (count_of self.old) }
        requires left { AreLeft run.now self.old }
        requires open { self.old.is_open ≡ true }
        requires closed { IsClosed self.old.boxes.current run.now.program.now.kernels }
        requires rests { LetsRest self.old.narrower run.now.program.now.kernels self.old.boxes.current }
        requires front { IsFrontNear run.now.model.now self.old.boxes.current self.old.front }
        ensures ready { OnOk result (IsReady run.now self.new) }
        ensures count { OnOk result (count_of self.new ≡ count_of self.old) }
        ensures settled { OnOk result (
            IsSettled run.now.model.now self.old.boxes.current (left_boxes (own_of self.old)) (boxes_of self.new) found.old found.new) }
        ensures below { OnOk result (below_of self.new ≡ below_of self.old) }
    {
        law_fronts();
        match branch_from(run.model, self.boxes.current(), self.front) {
            None => {
                record(alloc, run.model, self.boxes.current(), found)?;
                self.back(run)?;
                Ok(())
            }
            Some((parts, front)) => {
                self.part(run, parts, front)?;
                Ok(())
            }
        }
    }

    /// Cuts the current box to what costs less than the best.
    fn cut<L>(&mut self, run: &Run<'_, L>, best: Option<i64>) -> Result<(), NoMemory>
        requires run { CanSearch run.now (count_of self.old) }
        requires ready { IsReady run.now self.old }
        requires open { self.old.is_open ≡ true }
        requires best { IfSome best (λ cost. IsNumber cost × IsObjectiveIn (count_of self.old - 1) run.now.model.now.goal) }
        ensures ready { OnOk result (IsReady run.now self.new) }
        ensures open { OnOk result (self.new.is_open ≡ true) }
        ensures count { OnOk result (count_of self.new ≡ count_of self.old) }
        ensures current { OnOk result (self.new.boxes.current ≡ cut_by Least run.now.model.now.goal best self.old.boxes.current) }
        ensures own { OnOk result (own_of self.new ≡ own_of self.old) }
        ensures below { OnOk result (below_of self.new ≡ below_of self.old) }
    {
        law_inside_order();
        law_tightens_one();
        match cut_below(run.model.goal, best, self.boxes.current()) {
            None => Ok(()),
            Some(cut) => {
                put(&mut self.boxes, &mut self.narrower, cut)?;
                self.is_crossed = is_crossed_by(self.is_crossed, cut);
                Ok(())
            }
        }
    }

    /// Narrows the current box. No closed box is inside a crossed one: that fails at once, and what was noted of it is
    /// forgotten.
    fn narrow<R: Threads + Sync, L: Gate + Sync>(
        &mut self,
        rt: &R,
        alloc: Global,
        run: &Run<'_, L>,
    ) -> Result<Narrowed, NoMemory>
        requires run { CanSearch run.now (count_of self.old) }
        requires ready { IsReady run.now self.old }
        requires open { self.old.is_open ≡ true }
        ensures left { IfOk result (λ _. AreLeft run.now self.new) }
        ensures open { IfOk result (λ _. self.new.is_open ≡ true) }
        ensures front { IfOk result (λ _. self.new.front ≡ self.old.front) }
        ensures count { IfOk result (λ _. count_of self.new ≡ count_of self.old) }
        ensures own { IfOk result (λ _. own_of self.new ≡ own_of self.old) }
        ensures below { IfOk result (λ _. below_of self.new ≡ below_of self.old) }
        ensures rests { IfOk result (LetsRestWhereFixed self.new.narrower run.now.program.now.kernels self.new.boxes.current) }
        ensures narrowed { IfOk result (IsNarrowed run.now.program.now.kernels run.now.round_limit self.old.boxes.current self.new.boxes.current) }
        ensures alone { run.now.lanes ≡ 1 → IfOk result (IsNarrowedAlone run.now.program.now.kernels run.now.round_limit self.old.boxes.current) }
    {
        if self.is_crossed {
            self.narrower.forget();
            return Ok(Narrowed::Failed { rounds: 0 });
        }
        let what = Propagation {
            kernels: run.program.kernels.as_slice(),
            masks: run.masks,
            round_limit: run.round_limit,
            gate: run.gate,
        };
        let narrowed = self.narrower.narrow(rt, alloc, &what, &mut self.boxes)?;
        Ok(narrowed)
    }

    /// One node: the next box, cut to what costs less than the best, is dropped, recorded or parted, or given up where the
    /// limit on rounds is spent.
    pub(crate) fn node<R: Threads + Sync, L: Gate + Sync>(
        &mut self,
        rt: &R,
        alloc: Global,
        run: &Run<'_, L>,
        best: Option<i64>,
        found: &mut ListOf<ListOf<i64>>,
    ) -> Result<Visit, NoMemory>
        requires run { CanSearch run.now (count_of self.old) }
        requires ready { IsReady run.now self.old }
        requires next { boxes_of self.old ≢ [] }
        requires best { IfSome best (λ cost. IsNumber cost × IsObjectiveIn (count_of self.old - 1) run.now.model.now.goal) }
        ensures ready { IfOk result (λ how. how ≡ Visit.Done → IsReady run.now self.new) }
        ensures count { IfOk result (λ how. how ≡ Visit.Done → count_of self.new ≡ count_of self.old) }
        ensures again { IfOk result (λ _. CanRestart run.now.program.now.kernels run.now.lanes (count_of self.old) self.new) }
        ensures below { IfOk result (λ _. below_of self.new ≡ below_of self.old) }
        ensures visit { IfOk result (
            IsTopVisit run.now.model.now run.now.program.now.kernels run.now.round_limit run.now.lanes best (boxes_of self.old) (boxes_of self.new)
            found.old found.new) }
    {
        law_inside_order();
        self.cut(run, best)?;
        match self.narrow(rt, alloc, run)? {
            Narrowed::GivenUp { .. } => Ok(Visit::GivenUp),
            Narrowed::Failed { .. } => {
                self.back(run)?;
                Ok(Visit::Done)
            }
            Narrowed::Fixed { .. } => {
                self.settle(alloc, run, found)?;
                Ok(Visit::Done)
            }
        }
    }

    /// One node where there is no limit on rounds: what it records, if it records something.
    pub(crate) fn node_unlimited<R: Threads + Sync, L: Gate + Sync>(
        &mut self,
        rt: &R,
        alloc: Global,
        run: &Run<'_, L>,
        best: Option<i64>,
    ) -> Result<Option<ListOf<i64>>, NoMemory>
        requires run { CanSearch run.now (count_of self.old) }
        requires no_round_limit { run.now.round_limit ≡ 0 }
        requires ready { IsReady run.now self.old }
        requires next { boxes_of self.old ≢ [] }
        requires best { IfSome best (λ cost. IsNumber cost × IsObjectiveIn (count_of self.old - 1) run.now.model.now.goal) }
        ensures ready { IfOk result (λ _. IsReady run.now self.new) }
        ensures count { IfOk result (λ _. count_of self.new ≡ count_of self.old) }
        ensures visit { IfOk result (
            HasVisited run.now.model.now run.now.program.now.kernels run.now.round_limit run.now.lanes best (boxes_of self.old) (boxes_of self.new)) }
    {
        let mut found = ListOf::new(alloc);
        match self.node(rt, alloc, run, best, &mut found)? {
            Visit::Done => Ok(last_of(found)),
            Visit::GivenUp => unreachable!(),
        }
    }
}
