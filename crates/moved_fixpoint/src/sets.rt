//! What propagation keeps from round to round and from call to call.

ghost use Rattle.std.specs.Prelude.{◌≡◌, ◌<◌, false, [], length, IfOk, IfSome, IfNone, OnOk, OnErr};
ghost use Rattle.interval.specs.Boxes.{Bounds};
ghost use Rattle.guarded_tell.specs.declared.kernel.Kernel.{Kernel};
ghost use Rattle.guarded_tell.specs.Words.{IsProperIn};
ghost use Rattle.guarded_tell.specs.Kernels.{vars_of, IsKernel};
ghost use Rattle.kernel_visits.specs.Narrowing.{narrowing_tells};
ghost use Rattle.kernel_visits.specs.Shapes.{IsShapeOf};
ghost use Rattle.kernel_visits.specs.Rests.{IsRest};
ghost use Rattle.moved_fixpoint.specs.Gathered.{AreGathered};
ghost use Rattle.moved_fixpoint.specs.Moved.{count_of, Fit, IsEmpty};
ghost use Rattle.moved_fixpoint.specs.Resting.{AreAwake, AreFresh, AreLeft, FitRests, HasEach, IsBack, KeepCounts, KeepStacks};
ghost use Rattle.moved_fixpoint.specs.Rested.{HasRested};

use crate::rests::Rests;
use crate::told::Told;
use guarded_tell::Kernel;
use interval::BoxOf;
use kernel_visits::{Hint, Rest, Shape, rest_of};
use memory::NoMemory;
use moved_set::{AskedSet, MovedSet};
use std::alloc::Global;
use tell_laws::law_narrowing;

/// The variables that moved since the last call, and what the rounds work with.
#[derive(Drop)]
pub struct MovedSets {
    /// Those variables.
    pub moved: MovedSet,
    /// The kernels that are asked, and those that rest.
    pub asking: AskedSets,
    // the units of work of all rounds so far, besides those of long kernels: no contract speaks of them
    pub(crate) visits: u64,
}

impl MovedSets {
    /// No variable of so many moved, no kernel of so many is asked, and none rests for good. Errors: memory.
    pub fn new(alloc: Global, count: u32, kernels: usize) -> Result<MovedSets, NoMemory>
        ensures moved { IfOk result (λ s. IsEmpty s.moved) }
        ensures asked { IfOk result (λ s. IsEmpty s.asking.asked) }
        ensures fit { IfOk result (λ s. Fit count kernels s.moved s.asking.asked) }
        ensures fit_rests { IfOk result (λ s. FitRests kernels s.asking.rests) }
        ensures fresh { IfOk result (λ s. AreFresh s.asking.rests) }
    {
        Ok(MovedSets {
            moved: MovedSet::new(alloc, count)?,
            asking: AskedSets::new(alloc, kernels)?,
            visits: 0,
        })
    }

    /// The units of work of all visits so far: a hint.
    #[inline(always)]
    pub fn visits(&self) -> u64 {
        self.visits.saturating_add(self.asking.long_visits)
    }

    /// For a box of which nothing is known: all variables moved, all kernels are asked, none rests, and none that was left is kept.
    pub fn note_all(&mut self)
        ensures moved_count { count_of self.new.moved ≡ count_of self.old.moved }
        ensures moved { HasEach (count_of self.old.moved) self.new.moved }
        ensures asked_count { count_of self.new.asking.asked ≡ count_of self.old.asking.asked }
        ensures asked { HasEach (count_of self.old.asking.asked) self.new.asking.asked }
        ensures rests_count { KeepCounts self.old.asking.rests self.new.asking.rests }
        ensures fresh { AreFresh self.new.asking.rests }
    {
        self.moved.mark_all();
        self.asking.asked.ask_all();
        self.asking.rests.renew();
    }

    /// Leaves which kernels rest, to go back to it. Where memory is refused all is as it was.
    pub fn leave(&mut self) -> Result<(), NoMemory>
        ensures moved { self.new.moved ≡ self.old.moved }
        ensures asked { self.new.asking.asked ≡ self.old.asking.asked }
        ensures left { OnOk result (AreLeft self.old.asking.rests self.new.asking.rests) }
        ensures err { OnErr result (self.new.asking.rests ≡ self.old.asking.rests) }
    {
        self.asking.rests.leave()
    }

    /// Goes back to the kernels that rested when that was left last, as the box goes back.
    pub fn back(&mut self)
        ensures moved { self.new.moved ≡ self.old.moved }
        ensures asked { self.new.asking.asked ≡ self.old.asking.asked }
        ensures open { IsBack self.old.asking.rests.open self.new.asking.rests.open }
        ensures alert { IsBack self.old.asking.rests.alert self.new.asking.rests.alert }
    {
        self.asking.rests.back();
    }

    /// No kernel rests, on whatever box; none that was left is kept.
    pub fn wake_all(&mut self)
        ensures moved { self.new.moved ≡ self.old.moved }
        ensures asked { self.new.asking.asked ≡ self.old.asking.asked }
        ensures rests_count { KeepCounts self.old.asking.rests self.new.asking.rests }
        ensures awake { AreAwake self.new.asking.rests }
    {
        self.asking.rests.wake();
    }
}

/// The kernels that are asked and those that rest, and what makes visits faster: room for what one tells, and hints.
#[derive(Drop)]
pub struct AskedSets {
    /// Those that are asked for in this round or in the next.
    pub asked: AskedSet,
    /// Those that rest.
    pub rests: Rests,
    /// What the kernel told that was visited last.
    pub(crate) told: Told,
    // one for each kernel
    hints: Vec<Hint>,
    // the units of work of the variables of all kernels that were visited to gather their tells
    long_visits: u64,
}

impl AskedSets {
    /// No kernel of so many is asked, and none rests for good.
    fn new(alloc: Global, kernels: usize) -> Result<AskedSets, NoMemory>
        ensures none { IfOk result (λ s. IsEmpty s.asked) }
        ensures count { IfOk result (λ s. count_of s.asked ≡ kernels) }
        ensures fit { IfOk result (λ s. FitRests kernels s.rests) }
        ensures fresh { IfOk result (λ s. AreFresh s.rests) }
    {
        Ok(AskedSets {
            asked: AskedSet::new(alloc, kernels)?,
            rests: Rests::new(alloc, kernels)?,
            told: Told::new(alloc),
            hints: vec![in alloc; Hint::new(); kernels]?,
            long_visits: 0,
        })
    }

    /// Visits the kernel at a place: says how long it needs no visit where it narrows nothing, or says nothing and has gathered
    /// its tells that narrow the box, up to one that leaves its variable no number, unless memory was refused for one.
    pub(crate) fn visit(
        &mut self,
        kernel: &Kernel,
        shape: &Shape,
        place: usize,
        b: &BoxOf,
    ) -> Option<Rest>
        requires kernel { IsKernel (length b.now) kernel.now }
        requires shape { IsShapeOf kernel.now shape.now }
        requires proper { IsProperIn (vars_of kernel.now) b.now }
        ensures asked { self.new.asked ≡ self.old.asked }
        ensures rests { self.new.rests ≡ self.old.rests }
        ensures quiet { IfSome result (λ rest. narrowing_tells kernel.now b.now ≡ []) }
        ensures rest { IfSome result (IsRest kernel.now b.now) }
        ensures told { IfNone result (self.new.told.refused ≡ false → AreGathered b.now (narrowing_tells kernel.now b.now) self.new.told.tells.items) }
    {
        law_narrowing();
        let rest = self.gather(kernel, shape, place, b);
        if self.told.refused || !self.told.tells.is_empty() {
            None
        } else {
            Some(rest)
        }
    }

    /// Gathers those tells of the kernel at a place that narrow the box, up to one that leaves its variable no number, and says
    /// how long the kernel needs no visit where there are none.
    fn gather(&mut self, kernel: &Kernel, shape: &Shape, place: usize, b: &BoxOf) -> Rest
        requires kernel { IsKernel (length b.now) kernel.now }
        requires shape { IsShapeOf kernel.now shape.now }
        requires proper { IsProperIn (vars_of kernel.now) b.now }
        ensures asked { self.new.asked ≡ self.old.asked }
        ensures rests { self.new.rests ≡ self.old.rests }
        ensures told { self.new.told.refused ≡ false → AreGathered b.now (narrowing_tells kernel.now b.now) self.new.told.tells.items }
        ensures rest { IsRest kernel.now b.now result }
    {
        let units = kernel.var_count() as u64;
        self.long_visits = self.long_visits.saturating_add(units);
        if place < self.hints.len() {
            self.told.gather(kernel, shape, b, &mut self.hints[place])
        } else {
            self.told.gather(kernel, shape, b, &mut Hint::new())
        }
    }

    /// How long the kernel at a place needs no visit.
    fn rest_at(&self, kernel: &Kernel, shape: &Shape, place: usize, b: &BoxOf) -> Rest
        requires kernel { IsKernel (length b.now) kernel.now }
        requires shape { IsShapeOf kernel.now shape.now }
        requires proper { IsProperIn (vars_of kernel.now) b.now }
        ensures { IsRest kernel.now b.now result }
    {
        if place < self.hints.len() {
            rest_of(kernel, shape, b, self.hints[place])
        } else {
            rest_of(kernel, shape, b, Hint::new())
        }
    }

    /// Lets the kernel at a place rest as long as it needs no visit.
    pub(crate) fn rest(
        &mut self,
        kernel: &Kernel,
        shape: &Shape,
        place: usize,
        b: &BoxOf,
    ) -> Result<(), NoMemory>
        requires kernel { IsKernel (length b.now) kernel.now }
        requires shape { IsShapeOf kernel.now shape.now }
        requires proper { IsProperIn (vars_of kernel.now) b.now }
        requires open { place < count_of self.old.rests.open.current }
        requires alert { place < count_of self.old.rests.alert.current }
        ensures asked { self.new.asked ≡ self.old.asked }
        ensures told { self.new.told ≡ self.old.told }
        ensures counts { KeepCounts self.old.rests self.new.rests }
        ensures stacks { KeepStacks self.old.rests self.new.rests }
        ensures rested { OnOk result (HasRested kernel.now place b.now self.old.rests self.new.rests) }
    {
        let rest = self.rest_at(kernel, shape, place, b);
        self.rest_for(place, rest)
    }

    /// Lets the kernel at a place rest so long. Each visit that doesn't cross the box ends so.
    #[inline(always)]
    pub(crate) fn rest_for(&mut self, place: usize, rest: Rest) -> Result<(), NoMemory>
        requires open { place < count_of self.old.rests.open.current }
        requires alert { place < count_of self.old.rests.alert.current }
        ensures asked { self.new.asked ≡ self.old.asked }
        ensures told { self.new.told ≡ self.old.told }
        ensures counts { KeepCounts self.old.rests self.new.rests }
        ensures stacks { KeepStacks self.old.rests self.new.rests }
        ensures rested { (k : Kernel) (b : Bounds) → IsRest k b rest → OnOk result (HasRested k place b self.old.rests self.new.rests) }
    {
        self.rests.note(place, rest)
    }
}
