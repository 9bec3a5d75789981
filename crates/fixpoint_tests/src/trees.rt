//! Trees of boxes of drawn programs: a closed box is parted, one part is narrowed on and on, and the other after it, with the
//! kernels that rested where the box was left.

ghost use Rattle.std.specs.Prelude.{◌≡◌, ◌<◌, true, List, length, All, IfOk, OnOk};
ghost use Rattle.std.specs.Bool.{OnFalse};
ghost use Rattle.interval.specs.Boxes.{low_of, high_of};
ghost use Rattle.guarded_tell.specs.declared.kernel.Kernel.{Kernel};
ghost use Rattle.moved_set.specs.Sets.{Naming};
ghost use Rattle.guarded_tell.specs.Kernels.{IsKernel};
ghost use Rattle.trailed_box.specs.declared.trail.Part.{Part};
ghost use Rattle.trailed_box.specs.Trailed.{IsPart, Trailed};
ghost use Rattle.moved_fixpoint.specs.Moved.{count_of};
ghost use Rattle.moved_fixpoint.specs.declared.rests.Rests.{Rests};
ghost use Rattle.fixpoint_tests.specs.Trees.{AreFor, CanSettle, IsPartOf, IsSettled, Keeps, LeavesPart};

use crate::drawn::{Draws, program, start};
use crate::walks::{Tally, settle_both};
use fixpoint_laws::law_tightens_one;
use guarded_tell::Kernel;
use memory::NoMemory;
use moved_fixpoint::{MovedSets, law_known_unless_moved, law_quiet_unless_moved};
use moved_set::Masks;
use std::alloc::Global;
use std::test::Fail;
use trailed_box::{Part, TrailedBox};

/// Gives a variable of the box bounds inside its own, and notes it.
fn put_inside(b: &mut TrailedBox, sets: &mut MovedSets, part: Part) -> Result<(), NoMemory>
    requires part { IsPart (length b.old.current) part.var part.low part.high }
    requires sets { length b.old.current ≡ count_of sets.old.moved }
    ensures keeps { OnOk result (Keeps b.old b.new sets.old.asking.rests sets.new.asking.rests) }
    ensures can_settle { OnOk result ((kernels : List Kernel) (masks : Naming) → AreFor kernels masks (length b.old.current) sets.old →
        IsSettled kernels b.old.current sets.old.asking.rests → IsPartOf b.old.current part → CanSettle kernels masks b.new.current sets.new) }
{
    law_quiet_unless_moved();
    law_known_unless_moved();
    law_tightens_one();
    b.put(part.var, part.low, part.high)?;
    sets.moved.mark(part.var);
    Ok(())
}

/// The part where a variable has its lowest number.
fn lowest(b: &TrailedBox, v: u32) -> Part
    requires { v < length b.now.current }
    ensures is { result ≡ record { var = v; low = low_of b.now.current v; high = low_of b.now.current v } }
    ensures part { IsPart (length b.now.current) result.var result.low result.high }
{
    let low = b.low(v);
    Part {
        var: v,
        low,
        high: low,
    }
}

/// The part where it has its highest number.
fn highest(b: &TrailedBox, v: u32) -> Part
    requires { v < length b.now.current }
    ensures is { result ≡ record { var = v; low = high_of b.now.current v; high = high_of b.now.current v } }
    ensures part { IsPart (length b.now.current) result.var result.low result.high }
{
    let high = b.high(v);
    Part {
        var: v,
        low: high,
        high,
    }
}

/// Leaves the part with a variable's highest number for later, and goes on with that with its lowest.
fn go_down(b: &mut TrailedBox, sets: &mut MovedSets, v: u32) -> Result<(), NoMemory>
    requires variable { v < length b.old.current }
    requires sets { length b.old.current ≡ count_of sets.old.moved }
    ensures leaves { OnOk result (LeavesPart (record { var = v; low = high_of b.old.current v; high = high_of b.old.current v }) b.old b.new sets.old.asking.rests sets.new.asking.rests) }
    ensures can_settle { OnOk result ((kernels : List Kernel) (masks : Naming) → AreFor kernels masks (length b.old.current) sets.old →
        IsSettled kernels b.old.current sets.old.asking.rests → CanSettle kernels masks b.new.current sets.new) }
{
    let first = lowest(b, v);
    let other = highest(b, v);
    b.push(other.var, other.low, other.high)?;
    sets.leave()?;
    put_inside(b, sets, first)?;
    Ok(())
}

/// Goes on with the part that was left last.
fn go_back(b: &mut TrailedBox, sets: &mut MovedSets) -> Result<(), NoMemory>
    requires { length b.old.current ≡ count_of sets.old.moved }
    ensures { OnOk result ((kernels : List Kernel) (masks : Naming) (before : Trailed) (rests : Rests) (part : Part) → AreFor kernels masks (length b.old.current) sets.old →
        LeavesPart part before b.old rests sets.old.asking.rests → IsSettled kernels before.current rests → IsPartOf before.current part →
        CanSettle kernels masks b.new.current sets.new × Keeps before b.new rests sets.new.asking.rests) }
{
    match b.pop() {
        None => Ok(()),
        Some(part) => {
            sets.back();
            put_inside(b, sets, part)?;
            Ok(())
        }
    }
}

/// Propagates the box in both ways, and counts how they end.
fn settle_here(
    alloc: Global,
    kernels: &[Kernel],
    masks: &Masks,
    b: &mut TrailedBox,
    sets: &mut MovedSets,
    tally: &mut Tally,
) -> Result<bool, NoMemory>
    requires { CanSettle kernels.now masks.now b.old.current sets.old }
    ensures keeps { OnOk result (Keeps b.old b.new sets.old.asking.rests sets.new.asking.rests) }
    ensures are_for { OnOk result (AreFor kernels.now masks.now (length b.new.current) sets.new) }
    ensures settled { IfOk result (λ fixed. fixed ≡ true → IsSettled kernels.now b.new.current sets.new.asking.rests) }
{
    let ended = settle_both(alloc, b, kernels, masks, sets)?;
    tally.count(ended);
    Ok(ended.fixed)
}

/// Whether a tree ends at a box.
fn is_leaf(fixed: bool, levels: u32) -> bool
    ensures { OnFalse result ((fixed ≡ true) × (0 < levels)) }
{
    !fixed || levels == 0
}

/// Propagates the box, and where it ends closed, both ends of a variable of it, and so on so many levels down.
fn tree(
    alloc: Global,
    draws: &mut Draws,
    kernels: &[Kernel],
    masks: &Masks,
    b: &mut TrailedBox,
    sets: &mut MovedSets,
    levels: u32,
    tally: &mut Tally,
) -> Result<(), NoMemory>
    requires { CanSettle kernels.now masks.now b.old.current sets.old }
    ensures keeps { OnOk result (Keeps b.old b.new sets.old.asking.rests sets.new.asking.rests) }
    ensures are_for { OnOk result (AreFor kernels.now masks.now (length b.new.current) sets.new) }
{
    let fixed = settle_here(alloc, kernels, masks, b, sets, tally)?;
    if is_leaf(fixed, levels) {
        return Ok(());
    }
    let v = draws.below(b.len());
    go_down(b, sets, v)?;
    tree(alloc, draws, kernels, masks, b, sets, levels - 1, tally)?;
    go_back(b, sets)?;
    tree(alloc, draws, kernels, masks, b, sets, levels - 1, tally)?;
    Ok(())
}

/// A tree from a drawn box.
fn tree_from_start(
    alloc: Global,
    draws: &mut Draws,
    kernels: &[Kernel],
    tally: &mut Tally,
) -> Result<(), NoMemory>
    requires { All (IsKernel 40) kernels.now }
{
    law_quiet_unless_moved();
    law_known_unless_moved();
    let first = start(alloc, draws)?;
    let masks = Masks::new(alloc, kernels, 40)?;
    let mut sets = MovedSets::new(alloc, 40, kernels.len())?;
    sets.note_all();
    let mut b = TrailedBox::new(alloc, first)?;
    tree(alloc, draws, kernels, &masks, &mut b, &mut sets, 4, tally)?;
    Ok(())
}

#[test]
fn both_ways_end_alike_on_trees(rt: HostRuntime) -> Result<(), Fail> {
    let mut draws = Draws::new(2027);
    let mut tally = Tally {
        fixed: 0,
        failed: 0,
        unlike: 0,
    };
    for count in [1, 3, 10, 20, 150] {
        for _ in 0..40 {
            let kernels = program(rt.alloc(), &mut draws, count)?;
            tree_from_start(rt.alloc(), &mut draws, &kernels, &mut tally)?;
        }
    }
    assert_eq!(rt; tally.unlike, 0);
    assert!(rt; tally.fixed > 1000);
    assert!(rt; tally.failed > 100);
    Ok(())
}
