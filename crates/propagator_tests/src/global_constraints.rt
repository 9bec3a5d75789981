//! The tells of all-different and of a cumulative resource, with the bounds worked out by hand.

ghost use Rattle.std.specs.Prelude.{IfOk};
ghost use Rattle.guarded_tell.specs.Kernels.{IsKernel};

use crate::four_variables::{PAST, Pairs, Told, expect_bounds, expect_tells};
use guarded_tell::Kernel;
use guarded_tell::Side::{High, Low};
use shared_list::SharedList;
use std::alloc::{AllocError, Global};
use std::process::Abort;
use std::test::Fail;

/// Variables 0, 1 and 2 are different.
fn different(alloc: Global) -> Result<Kernel, AllocError>
    ensures { IfOk result (IsKernel 4) }
{
    let xs = SharedList::from_vec(vec![in alloc; 0u32, 1, 2]?)?;
    Ok(Kernel::AllDiff { xs })
}

/// Bounds of the three, and the tells.
static DIFFERENT_TELLS: [(Pairs, &[Told]); 5] = [
    // 1 and 2 are taken by the first two, from each of their lows to each of their highs.
    (
        [(1, 2), (1, 2), (2, 4), (0, 0)],
        &[(2, Low, 3), (2, Low, 3), (2, Low, 3), (2, Low, 3)],
    ),
    // 3 and 4 are, and the third's own high ends the range as well.
    (
        [(3, 4), (3, 4), (1, 4), (0, 0)],
        &[
            (2, High, 2),
            (2, High, 2),
            (2, High, 2),
            (2, High, 2),
            (2, High, 2),
            (2, High, 2),
        ],
    ),
    // Two places have the one number 1: no number is left, and both bounds of the first variable say so.
    (
        [(1, 1), (1, 1), (5, 5), (0, 0)],
        &[
            (0, Low, PAST),
            (0, High, -PAST),
            (0, Low, PAST),
            (0, High, -PAST),
            (0, Low, PAST),
            (0, High, -PAST),
            (0, Low, PAST),
            (0, High, -PAST),
        ],
    ),
    // As many numbers as places, and none is left over for another.
    ([(1, 3), (1, 3), (1, 3), (0, 0)], &[]),
    // At both ends of the range: the greatest bound is taken, whatever variable's high ends the range.
    (
        [(-PAST, PAST), (-PAST, PAST), (PAST, PAST), (0, 0)],
        &[
            (0, High, PAST - 1),
            (1, High, PAST - 1),
            (0, High, PAST - 1),
            (1, High, PAST - 1),
            (0, High, PAST - 1),
            (1, High, PAST - 1),
        ],
    ),
];

#[test]
fn all_different_gives_its_tells_in_order(rt: HostRuntime) -> Result<(), Fail> {
    expect_tells(&rt, rt.alloc(), different(rt.alloc())?, &DIFFERENT_TELLS)?;
    Ok(())
}

/// Bounds of the three, and all after the tells.
static DIFFERENT_BOUNDS: [(&Pairs, &Pairs); 2] = [
    (
        &[(1, 2), (1, 2), (1, 4), (0, 0)],
        &[(1, 2), (1, 2), (3, 4), (0, 0)],
    ),
    (
        &[(1, 2), (1, 2), (1, 2), (0, 0)],
        &[(PAST, -PAST), (1, 2), (1, 2), (0, 0)],
    ),
];

#[test]
fn all_different_tells_what_is_worked_out_by_hand(rt: HostRuntime) -> Result<(), Fail> {
    expect_bounds(&rt, rt.alloc(), different(rt.alloc())?, &DIFFERENT_BOUNDS)?;
    Ok(())
}

/// Variable 0 differs from itself and from variable 1.
fn different_from_itself(alloc: Global) -> Result<Kernel, AllocError>
    ensures { IfOk result (IsKernel 4) }
{
    let xs = SharedList::from_vec(vec![in alloc; 0u32, 0, 1]?)?;
    Ok(Kernel::AllDiff { xs })
}

/// Bounds of the two, and all after the tells: a variable that occurs twice takes two numbers until it is fixed.
static TWICE_BOUNDS: [(&Pairs, &Pairs); 2] = [
    (
        &[(1, 2), (2, 5), (0, 0), (0, 0)],
        &[(1, 2), (3, 5), (0, 0), (0, 0)],
    ),
    (
        &[(1, 1), (2, 5), (0, 0), (0, 0)],
        &[(PAST, -PAST), (2, 5), (0, 0), (0, 0)],
    ),
];

#[test]
fn a_variable_that_stands_twice_is_told(rt: HostRuntime) -> Result<(), Fail> {
    expect_bounds(
        &rt,
        rt.alloc(),
        different_from_itself(rt.alloc())?,
        &TWICE_BOUNDS,
    )?;
    Ok(())
}

/// A list of no variables is different.
fn none_different(alloc: Global) -> Kernel
    ensures { IsKernel 4 result }
{
    Kernel::AllDiff {
        xs: SharedList::empty(alloc),
    }
}

/// Any bounds, and no tells.
static NO_TELLS: [(Pairs, &[Told]); 1] = [([(1, 1), (0, 1), (0, 0), (0, 0)], &[])];

#[test]
fn no_variables_tell_nothing(rt: HostRuntime) -> Result<(), Fail> {
    expect_tells(&rt, rt.alloc(), none_different(rt.alloc()), &NO_TELLS)?;
    Ok(())
}

/// A task of duration 3 that begins at variable 0 and one of duration 2 that begins at variable 1, each of usage 2, of a
/// resource of 3.
fn two_tasks(alloc: Global) -> Result<Kernel, AllocError>
    ensures { IfOk result (IsKernel 4) }
{
    let starts = SharedList::from_vec(vec![in alloc; 0u32, 1]?)?;
    let durations = SharedList::from_vec(vec![in alloc; 3i64, 2]?)?;
    let usages = SharedList::from_vec(vec![in alloc; 2i64, 2]?)?;
    Ok(Kernel::Cumulative {
        starts,
        durations,
        usages,
        limit: 3,
    })
}

/// Bounds of the two starts, and the tells.
static TASKS_TELLS: [(Pairs, &[Told]); 6] = [
    // The second can't begin at 0: told at the first's latest start, and at its own earliest.
    (
        [(0, 0), (0, 5), (0, 0), (0, 0)],
        &[(1, Low, 1), (1, Low, 1)],
    ),
    // It can't be under way at 3, nor at 4.
    ([(3, 3), (0, 4), (0, 0), (0, 0)], &[(1, High, 2)]),
    // The first is over when the second may begin.
    ([(0, 0), (3, 5), (0, 0), (0, 0)], &[]),
    // Both are sure to be under way at 1.
    (
        [(0, 0), (1, 1), (0, 0), (0, 0)],
        &[(0, Low, PAST), (0, High, -PAST)],
    ),
    // Neither is sure to be under way at any time.
    ([(0, 9), (0, 9), (0, 0), (0, 0)], &[]),
    // At both ends of the range.
    ([(-PAST, -PAST), (PAST, PAST), (0, 0), (0, 0)], &[]),
];

#[test]
fn tasks_give_their_tells_in_order(rt: HostRuntime) -> Result<(), Fail> {
    expect_tells(&rt, rt.alloc(), two_tasks(rt.alloc())?, &TASKS_TELLS)?;
    Ok(())
}
