//! What narrows alone, by propagation that asks what moved.

ghost use Rattle.std.specs.Prelude.{◌≡◌, ◌<◌, ◌≤◌, ℕ, List, true, false, length, replicate, slice_set, All, IfOk, OnErr};
ghost use Rattle.interval.specs.Limits.{box_limit};
ghost use Rattle.interval.specs.Boxes.{IsProper};
ghost use Rattle.guarded_tell.specs.declared.kernel.Kernel.{Kernel};
ghost use Rattle.guarded_tell.specs.Kernels.{IsKernel};
ghost use Rattle.fixpoint_laws.specs.Rounds.{HaveRun};
ghost use Rattle.moved_fixpoint.specs.Moved.{AreMasksOf, count_of, IsEmpty, AreMovedOrQuiet};
ghost use Rattle.narrowing.specs.Narrowing.{IsNarrowed, IsNarrowedAlone};
ghost use Rattle.moved_fixpoint.specs.Resting.{AreAwake, KeepCounts, KeepStacks};
ghost use Rattle.narrowing.specs.declared.narrower.Narrower.{Narrower};
ghost use Rattle.narrowing.specs.Narrowers.{IsAloneFor, Knows, LetsRestWhereFixed};

use crate::narrowed::Narrowed;
use crate::propagation::Propagation;
use fixpoint_laws::Limited;
use gate::Gate;
use guarded_tell::Kernel;
use interval::BoxOf;
use memory::NoMemory;
use moved_fixpoint::{MovedSets, law_sweeps_decide, settle_proper};
use std::alloc::Global;
use trailed_box::TrailedBox;

/// A box of so many variables, each of them 0.
pub(crate) fn flat_box(alloc: Global, len: u32) -> Result<BoxOf, NoMemory>
    requires { len ≤ box_limit }
    ensures { IfOk result (λ b. length b ≡ len) }
{
    let pairs = vec![in alloc; (0, 0); len as usize]?;
    BoxOf::from_pairs(alloc, pairs.as_slice())
}

/// What narrows alone: the variables that are noted.
#[derive(Drop)]
pub struct Alone {
    pub(crate) sets: MovedSets,
}

impl Alone {
    /// For these kernels and boxes of so many variables. No variable is noted.
    pub(crate) fn new(alloc: Global, kernels: &[Kernel], len: u32) -> Result<Alone, NoMemory>
        ensures { IfOk result (λ alone. IsAloneFor alone kernels.now len) }
    {
        Ok(Alone {
            sets: MovedSets::new(alloc, len, kernels.len())?,
        })
    }

    /// Notes no variable any more.
    pub(crate) fn forget(&mut self)
        ensures fits { (kernels : List Kernel) (count : ℕ) → IsAloneFor self.old kernels count → IsAloneFor self.new kernels count }
        ensures none { IsEmpty self.new.sets.moved }
        ensures stacks { KeepStacks self.old.sets.asking.rests self.new.sets.asking.rests }
    {
        self.sets.moved.clear();
    }

    /// Notes one variable alone, and lets no kernel rest.
    pub(crate) fn note_alone(&mut self, v: u32)
        requires { v < count_of self.old.sets.moved }
        ensures moved { self.new.sets.moved ≡ slice_set (replicate (count_of self.old.sets.moved) false) v true }
        ensures count { count_of self.new.sets.moved ≡ count_of self.old.sets.moved }
        ensures asked { self.new.sets.asking.asked ≡ self.old.sets.asking.asked }
        ensures rests_count { KeepCounts self.old.sets.asking.rests self.new.sets.asking.rests }
        ensures awake { AreAwake self.new.sets.asking.rests }
    {
        self.sets.moved.clear();
        self.sets.moved.mark(v);
        self.sets.wake_all();
    }

    /// Narrows the proper box by the kernels that name a noted variable, and so on. No variable is noted then.
    pub(crate) fn narrow<L: Gate>(
        &mut self,
        what: &Propagation<'_, L>,
        b: &mut TrailedBox,
    ) -> Result<Narrowed, NoMemory>
        requires kernels { All (IsKernel (length b.old.current)) what.now.kernels.now }
        requires masks { AreMasksOf what.now.kernels.now (length b.old.current) what.now.masks.now }
        requires fits { IsAloneFor self.old what.now.kernels.now (length b.old.current) }
        requires quiet { AreMovedOrQuiet self.old.sets.moved b.old.current what.now.kernels.now }
        requires knows { Knows (Narrower.Alone self.old) what.now.kernels.now b.old.current }
        requires proper { IsProper b.old.current }
        ensures fits { IsAloneFor self.new what.now.kernels.now (length b.old.current) }
        ensures stack { b.new.stack ≡ b.old.stack }
        ensures same_length { length b.new.current ≡ length b.old.current }
        ensures none { IsEmpty self.new.sets.moved }
        ensures stacks { KeepStacks self.old.sets.asking.rests self.new.sets.asking.rests }
        ensures rests { IfOk result (LetsRestWhereFixed (Narrower.Alone self.new) what.now.kernels.now b.new.current) }
        ensures narrowed { IfOk result (IsNarrowed what.now.kernels.now what.now.round_limit b.old.current b.new.current) }
        ensures alone { IfOk result (IsNarrowedAlone what.now.kernels.now what.now.round_limit b.old.current) }
        ensures err { OnErr result (HaveRun what.now.kernels.now b.old.current b.new.current) }
    {
        law_sweeps_decide();
        match settle_proper(
            b,
            what.kernels,
            what.masks,
            &mut self.sets,
            what.round_limit,
        )? {
            Limited::Fixed { rounds } => Ok(Narrowed::Fixed { rounds }),
            Limited::Failed { rounds } => Ok(Narrowed::Failed { rounds }),
            Limited::RoundsSpent { rounds } => Ok(Narrowed::GivenUp { rounds }),
        }
    }
}
