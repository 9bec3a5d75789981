//! Propagation that asks what moved, with rounds counted by hand.

ghost use Rattle.std.specs.Prelude.{◌≡◌, length, IfOk, OnOk};
ghost use Rattle.std.specs.List.{All};
ghost use Rattle.guarded_tell.specs.Kernels.{IsKernel};
ghost use Rattle.moved_fixpoint.specs.Moved.{AreMasksOf};

use crate::boxes::{at_most, bounds_of, four, opposed};
use fixpoint_laws::Limited;
use guarded_tell::Kernel;
use memory::NoMemory;
use moved_fixpoint::{MovedSets, law_known_unless_moved, law_quiet_unless_moved, settle_moved};
use moved_set::Masks;
use std::alloc::{AllocError, Global};
use std::test::Fail;
use trailed_box::TrailedBox;

/// The kernel by which variable 1 is the absolute value of variable 0.
fn absolute() -> [Kernel; 1]
    ensures { All (IsKernel 4) result }
{
    [Kernel::Abs { x: 0, y: 1 }]
}

/// How propagation of a box ends where all may have moved.
fn settle_all(
    alloc: Global,
    b: &mut TrailedBox,
    kernels: &[Kernel],
    masks: &Masks,
    round_limit: u64,
) -> Result<Limited, NoMemory>
    requires length { length b.old.current ≡ 4 }
    requires kernels { All (IsKernel 4) kernels.now }
    requires masks { AreMasksOf kernels.now 4 masks.now }
    ensures { OnOk result (length b.new.current ≡ 4) }
{
    law_quiet_unless_moved();
    law_known_unless_moved();
    let mut sets = MovedSets::new(alloc, 4, kernels.len())?;
    sets.wake_all();
    sets.moved.mark_all();
    settle_moved(b, kernels, masks, &mut sets, round_limit)
}

/// How a box ends, and the upper bounds that the first two variables then have.
fn settled(
    alloc: Global,
    start: [(i8, i8); 4],
    kernels: &[Kernel],
    round_limit: u64,
) -> Result<(Limited, [i64; 2]), NoMemory>
    requires { All (IsKernel 4) kernels.now }
{
    let mut b = TrailedBox::new(alloc, four(alloc, start)?)?;
    let masks = Masks::new(alloc, kernels, 4)?;
    let end = settle_all(alloc, &mut b, kernels, &masks, round_limit)?;
    Ok((end, [b.high(0), b.high(1)]))
}

#[test]
fn rounds_are_those_counted_by_hand(rt: HostRuntime) -> Result<(), Fail> {
    let kernels = absolute();
    for (y, round_limit, end, bounds) in [
        ((0, 9), 0, Limited::Fixed { rounds: 2 }, Some([3, 3])),
        ((0, 9), 1, Limited::RoundsSpent { rounds: 1 }, Some([3, 3])),
        ((5, 9), 0, Limited::Failed { rounds: 1 }, None),
        ((5, 4), 7, Limited::Failed { rounds: 0 }, None),
    ] {
        let start = [(-2, 3), y, (0, 0), (0, 0)];
        let (ended, highs) = settled(rt.alloc(), start, &kernels, round_limit)?;
        assert_eq!(rt; ended, end);
        if bounds.is_some() {
            assert_eq!(rt; Some(highs), bounds);
        }
    }
    Ok(())
}

/// How a box ends, and the bounds that all variables then have, unless one has no number left.
fn swept(
    alloc: Global,
    start: [(i8, i8); 4],
    kernels: &[Kernel],
    round_limit: u64,
) -> Result<(Limited, Option<[i64; 8]>), NoMemory>
    requires { All (IsKernel 4) kernels.now }
{
    let mut b = TrailedBox::new(alloc, four(alloc, start)?)?;
    let masks = Masks::new(alloc, kernels, 4)?;
    let end = settle_all(alloc, &mut b, kernels, &masks, round_limit)?;
    match end {
        Limited::Failed { .. } => Ok((end, None)),
        _ => Ok((end, Some(bounds_of(b.current())))),
    }
}

/// Each sweep but the first is stopped by what the one before ended with: of two kernels that move in turn, the one that
/// ended a sweep begins the next, and moves nothing.
#[test]
fn sweeps_go_forth_and_back_by_turns(rt: HostRuntime) -> Result<(), Fail> {
    let creeping = opposed(rt.alloc())?;
    let start = [(1, 1), (0, 14), (0, 14), (0, 0)];
    let after_one = Some([1, 1, 2, 13, 1, 12, 0, 0]);
    let after_two = Some([1, 1, 2, 11, 3, 12, 0, 0]);
    let after_six = Some([1, 1, 6, 7, 7, 8, 0, 0]);
    for (round_limit, end) in [
        (1, (Limited::RoundsSpent { rounds: 1 }, after_one)),
        (2, (Limited::RoundsSpent { rounds: 2 }, after_two)),
        (6, (Limited::RoundsSpent { rounds: 6 }, after_six)),
        (7, (Limited::Failed { rounds: 7 }, None)),
        (0, (Limited::Failed { rounds: 7 }, None)),
    ] {
        let found = swept(rt.alloc(), start, &creeping, round_limit)?;
        assert_eq!(rt; found, end);
    }
    Ok(())
}

/// The kernels of x <= y and of y <= x - 1.
fn meeting(alloc: Global) -> Result<[Kernel; 2], AllocError>
    ensures { IfOk result (All (IsKernel 4)) }
{
    let x_at_most_y = at_most(alloc, &[1, -1], &[1, 2], 0)?;
    let y_below_x = at_most(alloc, &[1, -1], &[2, 1], -1)?;
    Ok([x_at_most_y, y_below_x])
}

#[test]
fn each_sweep_moves_until_one_crosses(rt: HostRuntime) -> Result<(), Fail> {
    let kernels = meeting(rt.alloc())?;
    let start = [(1, 1), (0, 3), (0, 3), (0, 0)];
    let after_one = Some([1, 1, 1, 3, 0, 2, 0, 0]);
    let after_two = Some([1, 1, 1, 2, 1, 2, 0, 0]);
    let after_three = Some([1, 1, 2, 2, 1, 1, 0, 0]);
    for (round_limit, end) in [
        (1, (Limited::RoundsSpent { rounds: 1 }, after_one)),
        (2, (Limited::RoundsSpent { rounds: 2 }, after_two)),
        (3, (Limited::RoundsSpent { rounds: 3 }, after_three)),
        (4, (Limited::Failed { rounds: 4 }, None)),
        (0, (Limited::Failed { rounds: 4 }, None)),
    ] {
        let found = swept(rt.alloc(), start, &kernels, round_limit)?;
        assert_eq!(rt; found, end);
    }
    Ok(())
}

/// The kernels of x <= y and of y <= z.
fn chain(alloc: Global) -> Result<[Kernel; 2], AllocError>
    ensures { IfOk result (All (IsKernel 4)) }
{
    let x_at_most_y = at_most(alloc, &[1, -1], &[1, 2], 0)?;
    let y_at_most_z = at_most(alloc, &[1, -1], &[2, 3], 0)?;
    Ok([x_at_most_y, y_at_most_z])
}

/// A low goes up the chain in the first sweep, and a high comes down it in the second; then one moves nothing, which the limit
/// allows.
#[test]
fn a_chain_is_swept_forth_at_once_and_back_in_two(rt: HostRuntime) -> Result<(), Fail> {
    let kernels = chain(rt.alloc())?;
    let rising = [(1, 1), (2, 9), (0, 9), (0, 9)];
    let falling = [(1, 1), (0, 9), (0, 9), (0, 4)];
    let closed = [(1, 1), (0, 4), (0, 4), (0, 4)];
    let raised = Some([1, 1, 2, 9, 2, 9, 2, 9]);
    let half = Some([1, 1, 0, 9, 0, 4, 0, 4]);
    let lowered = Some([1, 1, 0, 4, 0, 4, 0, 4]);
    for (start, round_limit, end) in [
        (rising, 1, (Limited::RoundsSpent { rounds: 1 }, raised)),
        (rising, 2, (Limited::Fixed { rounds: 2 }, raised)),
        (falling, 1, (Limited::RoundsSpent { rounds: 1 }, half)),
        (falling, 2, (Limited::RoundsSpent { rounds: 2 }, lowered)),
        (falling, 3, (Limited::Fixed { rounds: 3 }, lowered)),
        (closed, 1, (Limited::Fixed { rounds: 1 }, lowered)),
    ] {
        let found = swept(rt.alloc(), start, &kernels, round_limit)?;
        assert_eq!(rt; found, end);
    }
    Ok(())
}
