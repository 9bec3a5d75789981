//! What narrows the boxes of one searcher.

ghost use Rattle.std.specs.Prelude.{◌≡◌, ◌≤◌, ◌<◌, ◌≤ℤ◌, ◌++◌, [], ◌∷◌, ℕ, ℤ, List, length, All, IfOk, OnOk, OnErr};
ghost use Rattle.interval.specs.Limits.{box_limit};
ghost use Rattle.interval.specs.Boxes.{Bounds, IsInside, IsProper, put_of};
ghost use Rattle.trailed_box.specs.Trailed.{Left, left_of};
ghost use Rattle.guarded_tell.specs.declared.kernel.Kernel.{Kernel};
ghost use Rattle.guarded_tell.specs.Kernels.{IsKernel};
ghost use Rattle.fixpoint_laws.specs.Rounds.{HaveRun};
ghost use Rattle.moved_fixpoint.specs.Made.{IsMadeAt};
ghost use Rattle.moved_fixpoint.specs.Moved.{AreMasksOf};
ghost use Rattle.rounds.specs.Shares.{share_limit};
ghost use Rattle.narrowing.specs.Narrowing.{IsNarrowed, IsNarrowedAlone};
ghost use Rattle.narrowing.specs.Narrowers.{Fits, AreQuietUnlessNoted, NotesNone, NotesAlone, Knows, LetsRest, LetRest, LetsRestWhereFixed, len_of, lanes_of, lanes_for};

use crate::alone::Alone;
use crate::lanes::Lanes;
use crate::narrowed::Narrowed;
use crate::propagation::Propagation;
use gate::Gate;
use guarded_tell::Kernel;
use memory::NoMemory;
use moved_fixpoint::{law_known_unless_moved, law_quiet_unless_moved};
use std::alloc::Global;
use std::thread::Threads;
use trailed_box::TrailedBox;

/// What narrows the boxes of one searcher, kept over its nodes. The searcher notes each variable whose bounds
/// it puts.
#[derive(Drop)]
pub enum Narrower {
    /// One lane, which asks what moved.
    Alone(Alone),
    /// Several lanes, which run all kernels in each round.
    Lanes(Lanes),
}

impl Narrower {
    /// A narrower of so many lanes for these kernels and boxes of so many variables; without kernels it has one lane. No
    /// variable is noted. More than 2^32 kernels of several lanes count as refused memory.
    pub fn new(
        alloc: Global,
        kernels: &[Kernel],
        len: u32,
        lanes: u32,
    ) -> Result<Narrower, NoMemory>
        requires len { len ≤ box_limit }
        requires some { 1 ≤ lanes }
        requires short { lanes ≤ share_limit }
        ensures fits { IfOk result (λ made. Fits made kernels.now len) }
        ensures lanes { IfOk result (λ made. lanes_of made ≡ lanes_for kernels.now lanes) }
    {
        if lanes == 1 || kernels.is_empty() {
            Ok(Narrower::Alone(Alone::new(alloc, kernels, len)?))
        } else {
            Ok(Narrower::Lanes(Lanes::new(alloc, kernels, len, lanes)?))
        }
    }

    /// The units of work of all visits so far, a hint: a visit costs some, and more of a kernel that names many variables. Those
    /// of several lanes aren't counted.
    pub fn visits(&self) -> u64 {
        match self {
            Narrower::Alone(alone) => alone.sets.visits(),
            Narrower::Lanes(_) => 0,
        }
    }

    /// Notes variable `v`, whose bounds are put.
    pub fn note(&mut self, v: u32)
        requires { v < len_of self.old }
        ensures fits { (kernels : List Kernel) (count : ℕ) → Fits self.old kernels count → Fits self.new kernels count }
        ensures lanes { lanes_of self.new ≡ lanes_of self.old }
        ensures quiet { (kernels : List Kernel) (b : Bounds) (low high : ℤ) → All (IsKernel (length b)) kernels →
            AreQuietUnlessNoted self.old kernels b → AreQuietUnlessNoted self.new kernels (put_of b v low high) }
        ensures knows { (kernels : List Kernel) (b : Bounds) (low high : ℤ) → IsInside (put_of b v low high) b → low ≤ℤ high →
            Knows self.old kernels b → Knows self.new kernels (put_of b v low high) }
        ensures let_rest { (kernels : List Kernel) (stack : List Left) → LetRest self.old kernels stack → LetRest self.new kernels stack }
    {
        law_quiet_unless_moved();
        law_known_unless_moved();
        if let Narrower::Alone(alone) = self {
            alone.sets.moved.mark(v);
        }
    }

    /// Notes all variables, for a box of which nothing is known. No kernel rests, and none that was let rest where a box was
    /// left is kept.
    pub fn note_all(&mut self)
        ensures fits { (kernels : List Kernel) (count : ℕ) → Fits self.old kernels count → Fits self.new kernels count }
        ensures lanes { lanes_of self.new ≡ lanes_of self.old }
        ensures quiet { (kernels : List Kernel) (b : Bounds) → length b ≡ len_of self.old → All (IsKernel (length b)) kernels →
            AreQuietUnlessNoted self.new kernels b }
        ensures knows { (kernels : List Kernel) (count : ℕ) (b : Bounds) → Fits self.old kernels count → Knows self.new kernels b }
        ensures let_rest { (kernels : List Kernel) → LetRest self.new kernels [] }
    {
        law_quiet_unless_moved();
        law_known_unless_moved();
        if let Narrower::Alone(alone) = self {
            alone.sets.note_all();
        }
    }

    /// Notes one variable alone, for a box that the bounds of this variable make of a closed one. No kernel rests, and none
    /// that was let rest where a box was left is kept.
    pub fn note_alone(&mut self, v: u32)
        requires { v < len_of self.old }
        ensures fits { (kernels : List Kernel) (count : ℕ) → Fits self.old kernels count → Fits self.new kernels count }
        ensures lanes { lanes_of self.new ≡ lanes_of self.old }
        ensures alone { NotesAlone self.new v }
        ensures quiet { (kernels : List Kernel) (b : Bounds) → All (IsKernel (length b)) kernels → IsMadeAt kernels v b → AreQuietUnlessNoted self.new kernels b }
        ensures knows { (kernels : List Kernel) (count : ℕ) (b : Bounds) → Fits self.old kernels count → Knows self.new kernels b }
        ensures let_rest { (kernels : List Kernel) → LetRest self.new kernels [] }
    {
        law_quiet_unless_moved();
        law_known_unless_moved();
        if let Narrower::Alone(alone) = self {
            alone.note_alone(v);
        }
    }

    /// Notes no variable any more: what was noted of a box that is let go.
    pub fn forget(&mut self)
        ensures fits { (kernels : List Kernel) (count : ℕ) → Fits self.old kernels count → Fits self.new kernels count }
        ensures lanes { lanes_of self.new ≡ lanes_of self.old }
        ensures none { NotesNone self.new }
        ensures let_rest { (kernels : List Kernel) (stack : List Left) → LetRest self.old kernels stack → LetRest self.new kernels stack }
    {
        if let Narrower::Alone(alone) = self {
            alone.forget();
        }
    }

    /// Keeps which kernels rest where a box is left for later, to go back to it. Errors: memory.
    pub fn leave(&mut self) -> Result<(), NoMemory>
        ensures fits { OnOk result ((kernels : List Kernel) (count : ℕ) → Fits self.old kernels count → Fits self.new kernels count) }
        ensures lanes { OnOk result (lanes_of self.new ≡ lanes_of self.old) }
        ensures quiet { OnOk result ((kernels : List Kernel) (b : Bounds) → AreQuietUnlessNoted self.old kernels b → AreQuietUnlessNoted self.new kernels b) }
        ensures rests { OnOk result ((kernels : List Kernel) (b : Bounds) → LetsRest self.old kernels b → LetsRest self.new kernels b) }
        ensures let_rest { OnOk result ((kernels : List Kernel) (stack : List Left) (b : Bounds) (var : ℕ) (low high : ℤ) →
            LetsRest self.old kernels b → LetRest self.old kernels stack → LetRest self.new kernels (stack ++ left_of b var low high ∷ [])) }
    {
        match self {
            Narrower::Alone(alone) => alone.sets.leave(),
            Narrower::Lanes(_) => Ok(()),
        }
    }

    /// Goes back to the kernels that rested where the box was left for later to whose base the search goes back.
    pub fn back(&mut self)
        ensures fits { (kernels : List Kernel) (count : ℕ) → Fits self.old kernels count → Fits self.new kernels count }
        ensures lanes { lanes_of self.new ≡ lanes_of self.old }
        ensures rests { (kernels : List Kernel) (stack : List Left) (left : Left) → LetRest self.old kernels (stack ++ left ∷ []) → LetsRest self.new kernels left.base }
        ensures let_rest { (kernels : List Kernel) (stack : List Left) (left : Left) → LetRest self.old kernels (stack ++ left ∷ []) → LetRest self.new kernels stack }
    {
        if let Narrower::Alone(alone) = self {
            alone.sets.back();
        }
    }

    /// Narrows the proper box to the greatest closed box inside it, or finds that there is none, or gives up after so many rounds
    /// as the limit. Each kernel that names none of the variables that are noted has to be quiet on the box, and what
    /// rests has to be known; none is noted then. The stack stays as it is. Where memory is refused the stack stays too, and the box is one between what it was and
    /// the greatest closed box inside that.
    pub fn narrow<R: Threads + Sync, L: Gate + Sync>(
        &mut self,
        rt: &R,
        alloc: Global,
        what: &Propagation<'_, L>,
        b: &mut TrailedBox,
    ) -> Result<Narrowed, NoMemory>
        requires kernels { All (IsKernel (length b.old.current)) what.now.kernels.now }
        requires masks { AreMasksOf what.now.kernels.now (length b.old.current) what.now.masks.now }
        requires fits { Fits self.old what.now.kernels.now (length b.old.current) }
        requires quiet { AreQuietUnlessNoted self.old what.now.kernels.now b.old.current }
        requires knows { Knows self.old what.now.kernels.now b.old.current }
        requires proper { IsProper b.old.current }
        ensures fits { Fits self.new what.now.kernels.now (length b.old.current) }
        ensures lanes { lanes_of self.new ≡ lanes_of self.old }
        ensures stack { b.new.stack ≡ b.old.stack }
        ensures same_length { length b.new.current ≡ length b.old.current }
        ensures none { NotesNone self.new }
        ensures rests { IfOk result (LetsRestWhereFixed self.new what.now.kernels.now b.new.current) }
        ensures let_rest { (kernels : List Kernel) (stack : List Left) → LetRest self.old kernels stack → LetRest self.new kernels stack }
        ensures narrowed { IfOk result (IsNarrowed what.now.kernels.now what.now.round_limit b.old.current b.new.current) }
        ensures alone { lanes_of self.old ≡ 1 → IfOk result (IsNarrowedAlone what.now.kernels.now what.now.round_limit b.old.current) }
        ensures err { OnErr result (HaveRun what.now.kernels.now b.old.current b.new.current) }
    {
        match self {
            Narrower::Alone(alone) => alone.narrow(what, b),
            Narrower::Lanes(lanes) => lanes.narrow(rt, alloc, what, b),
        }
    }
}
