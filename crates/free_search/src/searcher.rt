//! The box that is searched, the boxes that are left for later, and what narrows them.

ghost use Rattle.std.specs.Prelude.{◌≡◌, ◌<◌, ◌≤ℤ◌, ◌⊎◌, ℕ, true, false, List, [], length, All, IfOk, OnOk, IfSome};
ghost use Rattle.std.specs.Bool.{OnTrue, OnFalse};
ghost use Rattle.interval.specs.Boxes.{IsInside, IsProper, put_of};
ghost use Rattle.guarded_tell.specs.declared.kernel.Kernel.{Kernel};
ghost use Rattle.guarded_tell.specs.Kernels.{IsKernel};
ghost use Rattle.fixpoint_laws.specs.Fixpoints.{IsGreatest, Fails};
ghost use Rattle.trailed_box.specs.Trailed.{Left, IsPart};
ghost use Rattle.narrowing.specs.Narrowers.{Fits, AreQuietUnlessNoted, Knows, LetRest, len_of};
ghost use Rattle.search.specs.Premises.{CanSearch};
ghost use Rattle.free_search.specs.Ready.{IsTighter, AreLeft, IsReady, IsSettled, count_of};

use fixpoint_laws::law_tightens_one;
use gate::Gate;
use interval::BoxOf;
use memory::NoMemory;
use narrowing::{Narrowed, Narrower, Propagation, law_known_where_rests, law_quiet_where_closed};
use search::Run;
use std::alloc::Global;
use std::thread::Threads;
use trailed_box::{Cause, Part, TrailedBox};

/// The box that is searched, the boxes that are left for later, and what narrows them.
#[derive(Drop)]
pub(crate) struct Searcher {
    pub(crate) boxes: TrailedBox,
    pub(crate) narrower: Narrower,
    // how many boxes are left for later, a hint
    pub(crate) depth: u32,
}

/// Sets the bounds of a variable of the current box, for a reason.
fn put_by(boxes: &mut TrailedBox, part: Part, cause: Cause) -> Result<(), NoMemory>
    requires { IsPart (length boxes.old.current) part.var part.low part.high }
    ensures current { OnOk result (boxes.new.current ≡ put_of boxes.old.current part.var part.low part.high) }
    ensures stack { OnOk result (boxes.new.stack ≡ boxes.old.stack) }
{
    boxes.because(cause);
    boxes.put(part.var, part.low, part.high)
}

/// Sets the bounds of a variable of the current box, and notes it.
fn put(
    boxes: &mut TrailedBox,
    narrower: &mut Narrower,
    part: Part,
    cause: Cause,
) -> Result<(), NoMemory>
    requires part { IsPart (length boxes.old.current) part.var part.low part.high }
    requires noted { part.var < len_of narrower.old }
    ensures current { OnOk result (boxes.new.current ≡ put_of boxes.old.current part.var part.low part.high) }
    ensures stack { OnOk result (boxes.new.stack ≡ boxes.old.stack) }
    ensures fits { OnOk result ((kernels : List Kernel) (count : ℕ) → Fits narrower.old kernels count → Fits narrower.new kernels count) }
    ensures quiet { OnOk result ((kernels : List Kernel) → All (IsKernel (length boxes.old.current)) kernels →
        AreQuietUnlessNoted narrower.old kernels boxes.old.current → AreQuietUnlessNoted narrower.new kernels boxes.new.current) }
    ensures knows { OnOk result ((kernels : List Kernel) →
        IsInside (put_of boxes.old.current part.var part.low part.high) boxes.old.current → part.low ≤ℤ part.high →
        Knows narrower.old kernels boxes.old.current → Knows narrower.new kernels boxes.new.current) }
    ensures let_rest { OnOk result ((kernels : List Kernel) (stack : List Left) → LetRest narrower.old kernels stack → LetRest narrower.new kernels stack) }
{
    put_by(boxes, part, cause)?;
    narrower.note(part.var);
    Ok(())
}

/// The bounds of a variable of the box where these are tighter, if they leave some number.
fn tighter(b: &BoxOf, v: u32, low: i64, high: i64) -> Option<Part>
    ensures { IfSome result (IsTighter b.now) }
{
    if v >= b.len() {
        return None;
    }
    let low = greater(b.low(v), low);
    let high = lesser(b.high(v), high);
    if high < low {
        return None;
    }
    Some(Part { var: v, low, high })
}

/// The greater of two numbers.
fn greater(x: i64, y: i64) -> i64
    ensures first { x ≤ℤ result }
    ensures one { (result ≡ x) ⊎ (result ≡ y) }
{
    if x < y { y } else { x }
}

/// The lesser of two numbers.
fn lesser(x: i64, y: i64) -> i64
    ensures first { result ≤ℤ x }
    ensures one { (result ≡ x) ⊎ (result ≡ y) }
{
    if y < x { y } else { x }
}

impl Searcher {
    /// A searcher of boxes of as many variables as the space, with one lane. It keeps a log.
    #[tactic(auto, unfolding(rounds::specs::Shares::share_limit))]
    pub(crate) fn new<L>(
        alloc: Global,
        run: &Run<'_, L>,
        space: &BoxOf,
    ) -> Result<Searcher, NoMemory>
        requires { CanSearch run.now (length space.now) }
        ensures fits { IfOk result (λ made. Fits made.narrower run.now.program.now.kernels (count_of made)) }
        ensures count { IfOk result (λ made. count_of made ≡ length space.now) }
    {
        let mut boxes = TrailedBox::new(alloc, space.copy(alloc)?)?;
        boxes.keep_log(alloc);
        let kernels = run.program.kernels.as_slice();
        let narrower = Narrower::new(alloc, kernels, boxes.len(), 1)?;
        Ok(Searcher {
            boxes,
            narrower,
            depth: 0,
        })
    }

    /// Goes over to a proper box of which nothing is known, with nothing left for later.
    pub(crate) fn restart<L>(&mut self, run: &Run<'_, L>, space: &BoxOf)
        requires run { CanSearch run.now (length space.now) }
        requires same_count { length space.now ≡ count_of self.old }
        requires fits { Fits self.old.narrower run.now.program.now.kernels (count_of self.old) }
        requires proper { IsProper space.now }
        ensures ready { IsReady run.now.program.now.kernels self.new }
        ensures current { self.new.boxes.current ≡ space.now }
        ensures count { count_of self.new ≡ count_of self.old }
    {
        self.boxes.restart(space);
        self.narrower.note_all();
        self.depth = 0;
    }

    /// Puts bounds of a variable where they are tighter, if they leave some number.
    pub(crate) fn tighten<L>(
        &mut self,
        run: &Run<'_, L>,
        v: u32,
        low: i64,
        high: i64,
        cause: Cause,
    ) -> Result<(), NoMemory>
        requires run { CanSearch run.now (count_of self.old) }
        requires ready { IsReady run.now.program.now.kernels self.old }
        ensures ready { OnOk result (IsReady run.now.program.now.kernels self.new) }
        ensures count { OnOk result (count_of self.new ≡ count_of self.old) }
    {
        law_tightens_one();
        match tighter(self.boxes.current(), v, low, high) {
            None => Ok(()),
            Some(part) => {
                put(&mut self.boxes, &mut self.narrower, part, cause)?;
                Ok(())
            }
        }
    }

    /// Leaves the current box for later, which is closed. What is put then is undone where it is gone back to.
    pub(crate) fn leave<L>(&mut self, run: &Run<'_, L>) -> Result<(), NoMemory>
        requires run { CanSearch run.now (count_of self.old) }
        requires settled { IsSettled run.now.program.now.kernels self.old }
        ensures ready { OnOk result (IsReady run.now.program.now.kernels self.new) }
        ensures count { OnOk result (count_of self.new ≡ count_of self.old) }
    {
        law_quiet_where_closed();
        law_known_where_rests();
        let low = self.boxes.low(0);
        let high = self.boxes.high(0);
        self.boxes.push(0, low, high)?;
        self.narrower.leave()?;
        self.depth = self.depth.saturating_add(1);
        Ok(())
    }

    /// Goes back to the box that was left last, if one is left.
    pub(crate) fn back<L>(&mut self, run: &Run<'_, L>) -> bool
        requires { AreLeft run.now.program.now.kernels self.old }
        ensures settled { OnTrue result (IsSettled run.now.program.now.kernels self.new) }
        ensures unchanged { OnFalse result (self.new ≡ self.old) }
        ensures count { count_of self.new ≡ count_of self.old }
    {
        match self.boxes.pop() {
            None => false,
            Some(_part) => {
                self.narrower.back();
                self.depth = self.depth.saturating_sub(1);
                true
            }
        }
    }

    /// Narrows the current box to the greatest closed one, or finds that there is none.
    pub(crate) fn narrow<R: Threads + Sync, L: Gate + Sync>(
        &mut self,
        rt: &R,
        alloc: Global,
        run: &Run<'_, L>,
    ) -> Result<bool, NoMemory>
        requires run { CanSearch run.now (count_of self.old) }
        requires ready { IsReady run.now.program.now.kernels self.old }
        ensures left { IfOk result (λ _. AreLeft run.now.program.now.kernels self.new) }
        ensures settled { IfOk result (λ is_fixed. is_fixed ≡ true → IsSettled run.now.program.now.kernels self.new) }
        ensures greatest { IfOk result (λ is_fixed. is_fixed ≡ true → IsGreatest self.new.boxes.current self.old.boxes.current run.now.program.now.kernels) }
        ensures fails { IfOk result (λ is_fixed. is_fixed ≡ false → Fails self.old.boxes.current run.now.program.now.kernels) }
        ensures count { IfOk result (λ _. count_of self.new ≡ count_of self.old) }
    {
        let what = Propagation {
            kernels: run.program.kernels.as_slice(),
            masks: run.masks,
            round_limit: 0,
            gate: run.gate,
        };
        match self.narrower.narrow(rt, alloc, &what, &mut self.boxes)? {
            Narrowed::Fixed { .. } => Ok(true),
            Narrowed::Failed { .. } => Ok(false),
            Narrowed::GivenUp { .. } => Ok(false),
        }
    }
}
