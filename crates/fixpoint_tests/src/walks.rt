//! Walks along boxes of drawn programs, where propagation that asks what moved has to end as propagation that runs all
//! kernels in each round.

ghost use Rattle.std.specs.Prelude.{◌≡◌, ◌<◌, ℕ, List, IfOk, OnOk, length, true};
ghost use Rattle.interval.specs.Limits.{IsBound};
ghost use Rattle.guarded_tell.specs.declared.kernel.Kernel.{Kernel};
ghost use Rattle.std.specs.List.{All};
ghost use Rattle.guarded_tell.specs.Kernels.{IsKernel};
ghost use Rattle.fixpoint_laws.specs.Fixpoints.{IsClosed};
ghost use Rattle.moved_fixpoint.specs.Moved.{AreMasksOf, AreMovedOrQuiet, Fit, count_of};
ghost use Rattle.moved_fixpoint.specs.Resting.{AreResting, FitRests, KeepStacks, Knows};

use crate::drawn::{Draws, program, start};
use fixpoint_laws::{Limited, Settled, settle_alone};
use guarded_tell::Kernel;
use interval::BoxOf;
use memory::NoMemory;
use moved_fixpoint::{MovedSets, law_known_unless_moved, law_quiet_unless_moved, settle_moved};
use moved_set::Masks;
use std::alloc::Global;
use std::test::Fail;
use trailed_box::TrailedBox;

/// How both ways of propagation end on a box.
#[derive(Clone, Copy)]
pub(crate) struct Ended {
    /// Whether they end alike, and in the same box where it isn't crossed.
    pub(crate) alike: bool,
    /// Whether the one that asks what moved ends in a closed box.
    pub(crate) fixed: bool,
}

/// Whether both boxes have the same bounds.
fn have_same_bounds(a: &BoxOf, b: &BoxOf) -> bool
    requires { length a.now ≡ length b.now }
{
    (0..a.len()).all(|v| a.low(v) == b.low(v) && a.high(v) == b.high(v))
}

/// Whether two ends are alike.
fn are_alike(all: Settled, asked: Limited, all_box: &BoxOf, asked_box: &BoxOf) -> bool
    requires { length all_box.now ≡ length asked_box.now }
{
    match (all, asked) {
        (Settled::Fixed { .. }, Limited::Fixed { .. }) => have_same_bounds(all_box, asked_box),
        (Settled::Failed { .. }, Limited::Failed { .. }) => true,
        _ => false,
    }
}

/// Propagates the box in both ways.
pub(crate) fn settle_both(
    alloc: Global,
    b: &mut TrailedBox,
    kernels: &[Kernel],
    masks: &Masks,
    sets: &mut MovedSets,
) -> Result<Ended, NoMemory>
    requires kernels { All (IsKernel (length b.old.current)) kernels.now }
    requires masks { AreMasksOf kernels.now (length b.old.current) masks.now }
    requires sets { Fit (length b.old.current) (length kernels.now) sets.old.moved sets.old.asking.asked }
    requires rests { FitRests (length kernels.now) sets.old.asking.rests }
    requires quiet { AreMovedOrQuiet sets.old.moved b.old.current kernels.now }
    requires knows { Knows sets.old.asking.asked sets.old.asking.rests.open.current sets.old.asking.rests.alert.current sets.old.moved b.old.current kernels.now }
    ensures length { OnOk result (length b.new.current ≡ length b.old.current) }
    ensures stack { OnOk result (b.new.stack ≡ b.old.stack) }
    ensures sets { OnOk result (Fit (length b.old.current) (length kernels.now) sets.new.moved sets.new.asking.asked) }
    ensures rests { OnOk result (FitRests (length kernels.now) sets.new.asking.rests) }
    ensures stacks { OnOk result (KeepStacks sets.old.asking.rests sets.new.asking.rests) }
    ensures closed { IfOk result (λ ended. ended.fixed ≡ true → IsClosed b.new.current kernels.now) }
    ensures resting { IfOk result (λ ended. ended.fixed ≡ true → AreResting sets.new.asking.rests.open.current sets.new.asking.rests.alert.current b.new.current kernels.now) }
{
    let mut all = b.current().copy(alloc)?;
    let mut spare = all.copy(alloc)?;
    let settled = settle_alone(&mut all, &mut spare, kernels);
    let limited = settle_moved(b, kernels, masks, sets, 0)?;
    let alike = are_alike(settled, limited, &all, b.current());
    match limited {
        Limited::Fixed { .. } => Ok(Ended { alike, fixed: true }),
        _ => Ok(Ended {
            alike,
            fixed: false,
        }),
    }
}

/// Propagates the box in both ways, where no kernel rests.
fn settle_awake(
    alloc: Global,
    b: &mut TrailedBox,
    kernels: &[Kernel],
    masks: &Masks,
    sets: &mut MovedSets,
) -> Result<Ended, NoMemory>
    requires kernels { All (IsKernel (length b.old.current)) kernels.now }
    requires masks { AreMasksOf kernels.now (length b.old.current) masks.now }
    requires sets { Fit (length b.old.current) (length kernels.now) sets.old.moved sets.old.asking.asked }
    requires rests { FitRests (length kernels.now) sets.old.asking.rests }
    requires quiet { AreMovedOrQuiet sets.old.moved b.old.current kernels.now }
    ensures length { OnOk result (length b.new.current ≡ length b.old.current) }
    ensures sets { OnOk result (Fit (length b.old.current) (length kernels.now) sets.new.moved sets.new.asking.asked) }
    ensures rests { OnOk result (FitRests (length kernels.now) sets.new.asking.rests) }
    ensures closed { IfOk result (λ ended. ended.fixed ≡ true → IsClosed b.new.current kernels.now) }
{
    law_known_unless_moved();
    sets.wake_all();
    settle_both(alloc, b, kernels, masks, sets)
}

/// Other bounds for a variable: most often one number that it had, seldom any two.
#[tactic(auto, unfolding(interval::specs::Limits::bound_limit, interval::specs::Limits::largest_number))]
fn other_bounds(draws: &mut Draws, b: &TrailedBox, v: u32) -> (i64, i64)
    requires { v < length b.now.current }
    ensures low { IsBound result.0 }
    ensures high { IsBound result.1 }
{
    match draws.below(8) {
        0 => {
            let low = draws.number();
            let high = draws.number();
            (low, high)
        }
        1 | 2 | 3 => (b.low(v), b.low(v)),
        _ => (b.high(v), b.high(v)),
    }
}

/// Gives a variable other bounds, and notes it.
fn put_one(draws: &mut Draws, b: &mut TrailedBox, sets: &mut MovedSets) -> Result<(), NoMemory>
    requires length { length b.old.current ≡ 40 }
    requires sets { count_of sets.old.moved ≡ 40 }
    ensures length { OnOk result (length b.new.current ≡ 40) }
    ensures sets { OnOk result ((kernels : ℕ) → Fit 40 kernels sets.old.moved sets.old.asking.asked → Fit 40 kernels sets.new.moved sets.new.asking.asked) }
    ensures rests { OnOk result (sets.new.asking.rests ≡ sets.old.asking.rests) }
    ensures quiet { OnOk result ((kernels : List Kernel) → All (IsKernel 40) kernels → AreMovedOrQuiet sets.old.moved b.old.current kernels → AreMovedOrQuiet sets.new.moved b.new.current kernels) }
{
    law_quiet_unless_moved();
    let v = draws.below(40);
    let (low, high) = other_bounds(draws, b, v);
    sets.moved.mark(v);
    b.put(v, low, high)?;
    Ok(())
}

/// How many boxes ended closed, ended crossed, and ended otherwise in one way than in the other.
#[derive(Drop)]
pub(crate) struct Tally {
    pub(crate) fixed: u32,
    pub(crate) failed: u32,
    pub(crate) unlike: u32,
}

impl Tally {
    /// Counts an end.
    pub(crate) fn count(&mut self, ended: Ended) {
        if !ended.alike {
            self.unlike = self.unlike.saturating_add(1);
        } else if ended.fixed {
            self.fixed = self.fixed.saturating_add(1);
        } else {
            self.failed = self.failed.saturating_add(1);
        }
    }
}

/// Walks from a drawn box: propagates it, gives one variable other bounds, and so on until a box fails.
fn walk(
    alloc: Global,
    draws: &mut Draws,
    kernels: &[Kernel],
    tally: &mut Tally,
) -> Result<(), NoMemory>
    requires { All (IsKernel 40) kernels.now }
{
    law_quiet_unless_moved();
    let first = start(alloc, draws)?;
    let masks = Masks::new(alloc, kernels, 40)?;
    let mut sets = MovedSets::new(alloc, 40, kernels.len())?;
    sets.moved.mark_all();
    let mut b = TrailedBox::new(alloc, first)?;
    for _ in 0..8 {
        let ended = settle_awake(alloc, &mut b, kernels, &masks, &mut sets)?;
        tally.count(ended);
        if !ended.fixed {
            return Ok(());
        }
        put_one(draws, &mut b, &mut sets)?;
    }
    Ok(())
}

#[test]
fn both_ways_end_alike(rt: HostRuntime) -> Result<(), Fail> {
    let mut draws = Draws::new(2026);
    let mut tally = Tally {
        fixed: 0,
        failed: 0,
        unlike: 0,
    };
    for count in [1, 3, 10, 20, 150] {
        for _ in 0..200 {
            let kernels = program(rt.alloc(), &mut draws, count)?;
            walk(rt.alloc(), &mut draws, &kernels, &mut tally)?;
        }
    }
    assert_eq!(rt; tally.unlike, 0);
    assert!(rt; tally.fixed > 1000);
    assert!(rt; tally.failed > 300);
    Ok(())
}
