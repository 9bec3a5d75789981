//! The tells of the division and the remainder, with the bounds worked out by hand.

ghost use Rattle.std.specs.Prelude.{◌<◌};
ghost use Rattle.guarded_tell.specs.Kernels.{IsKernel};

use crate::four_variables::{LARGEST, PAST, Pairs, Told, expect_tells};
use guarded_tell::Kernel;
use guarded_tell::Side::{High, Low};
use std::test::Fail;

/// Variable `z` is variable `x` divided by variable `y`.
fn quotient(x: u32, y: u32, z: u32) -> Kernel
    requires x { x < 4 }
    requires y { y < 4 }
    requires z { z < 4 }
    ensures { IsKernel 4 result }
{
    Kernel::Div { x, y, z }
}

/// Variable `z` is what the division of variable `x` by variable `y` leaves.
fn remainder(x: u32, y: u32, z: u32) -> Kernel
    requires x { x < 4 }
    requires y { y < 4 }
    requires z { z < 4 }
    ensures { IsKernel 4 result }
{
    Kernel::Mod { x, y, z }
}

/// Bounds of the dividend, the divisor and the quotient, and the tells.
static QUOTIENT_TELLS: [(Pairs, &[Told]); 11] = [
    (
        [(-7, 7), (2, 3), (-10, 10), (0, 0)],
        &[
            (2, Low, -7),
            (2, High, 7),
            (2, Low, -3),
            (2, High, 3),
            (0, Low, -32),
            (0, High, 32),
        ],
    ),
    (
        [(-7, -5), (2, 3), (-1, 0), (0, 0)],
        &[
            (2, Low, -7),
            (2, High, 7),
            (2, Low, -3),
            (2, High, -1),
            (0, Low, -5),
            (0, High, 2),
        ],
    ),
    (
        [(-7, -5), (-3, -2), (2, 2), (0, 0)],
        &[
            (2, Low, -7),
            (2, High, 7),
            (2, Low, 1),
            (2, High, 3),
            (0, Low, -8),
            (0, High, -2),
        ],
    ),
    (
        [(5, 7), (-3, -2), (-2, -2), (0, 0)],
        &[
            (2, Low, -7),
            (2, High, 7),
            (2, Low, -3),
            (2, High, -1),
            (0, Low, 2),
            (0, High, 8),
        ],
    ),
    (
        [(-20, 20), (3, 3), (2, 2), (0, 0)],
        &[
            (2, Low, -20),
            (2, High, 20),
            (2, Low, -6),
            (2, High, 6),
            (0, Low, 4),
            (0, High, 8),
        ],
    ),
    // 0 at an end of the divisor's range, as all of it, and within it.
    (
        [(5, 5), (0, 2), (-9, 9), (0, 0)],
        &[
            (1, Low, 1),
            (2, Low, -5),
            (2, High, 5),
            (0, Low, -19),
            (0, High, 19),
        ],
    ),
    (
        [(-5, 4), (-2, 0), (-9, 9), (0, 0)],
        &[
            (1, High, -1),
            (2, Low, -5),
            (2, High, 5),
            (0, Low, -19),
            (0, High, 19),
        ],
    ),
    (
        [(5, 5), (0, 0), (-9, 9), (0, 0)],
        &[(1, Low, 1), (1, High, -1), (2, Low, -5), (2, High, 5)],
    ),
    (
        [(5, 5), (-2, 3), (-9, 9), (0, 0)],
        &[(2, Low, -5), (2, High, 5), (0, Low, -29), (0, High, 29)],
    ),
    // At both ends of the range.
    (
        [(-PAST, PAST), (PAST, PAST), (-PAST, PAST), (0, 0)],
        &[
            (2, Low, -PAST),
            (2, High, PAST),
            (2, Low, -1),
            (2, High, 1),
            (0, Low, -PAST),
            (0, High, PAST),
        ],
    ),
    (
        [(-PAST, PAST), (-1, -1), (0, 0), (0, 0)],
        &[
            (2, Low, -PAST),
            (2, High, PAST),
            (2, Low, -PAST),
            (2, High, PAST),
            (0, Low, 0),
            (0, High, 0),
        ],
    ),
];

#[test]
fn the_division_gives_its_tells_in_order(rt: HostRuntime) -> Result<(), Fail> {
    expect_tells(&rt, rt.alloc(), quotient(0, 1, 2), &QUOTIENT_TELLS)?;
    Ok(())
}

/// Bounds of the dividend and the divisor, and the tells.
static REMAINDER_TELLS: [(Pairs, &[Told]); 11] = [
    (
        [(-7, 7), (2, 3), (0, 0), (0, 0)],
        &[(2, Low, -2), (2, High, 2)],
    ),
    (
        [(1, 7), (-5, -2), (0, 0), (0, 0)],
        &[(2, Low, 0), (2, High, 4)],
    ),
    (
        [(1, 2), (-3, 9), (0, 0), (0, 0)],
        &[(2, Low, 0), (2, High, 2)],
    ),
    (
        [(-2, -1), (0, 9), (0, 0), (0, 0)],
        &[(1, Low, 1), (2, Low, -2), (2, High, 0)],
    ),
    (
        [(-9, 9), (-4, 0), (0, 0), (0, 0)],
        &[(1, High, -1), (2, Low, -3), (2, High, 3)],
    ),
    (
        [(3, 3), (0, 0), (0, 0), (0, 0)],
        &[(1, Low, 1), (1, High, -1)],
    ),
    // Both fixed, with every sign.
    (
        [(-7, -7), (2, 2), (0, 0), (0, 0)],
        &[(2, Low, -1), (2, High, 0), (2, Low, -1), (2, High, -1)],
    ),
    (
        [(7, 7), (-2, -2), (0, 0), (0, 0)],
        &[(2, Low, 0), (2, High, 1), (2, Low, 1), (2, High, 1)],
    ),
    (
        [(-7, -7), (-2, -2), (0, 0), (0, 0)],
        &[(2, Low, -1), (2, High, 0), (2, Low, -1), (2, High, -1)],
    ),
    // At both ends of the range.
    (
        [(-PAST, -PAST), (PAST, PAST), (0, 0), (0, 0)],
        &[(2, Low, -LARGEST), (2, High, 0), (2, Low, 0), (2, High, 0)],
    ),
    (
        [(LARGEST, LARGEST), (-PAST, -PAST), (0, 0), (0, 0)],
        &[
            (2, Low, 0),
            (2, High, LARGEST),
            (2, Low, LARGEST),
            (2, High, LARGEST),
        ],
    ),
];

#[test]
fn the_remainder_gives_its_tells_in_order(rt: HostRuntime) -> Result<(), Fail> {
    expect_tells(&rt, rt.alloc(), remainder(0, 1, 2), &REMAINDER_TELLS)?;
    Ok(())
}

/// Bounds of the one variable, and the tells.
static REMAINDER_BY_ITSELF: [(Pairs, &[Told]); 3] = [
    (
        [(-5, 5), (0, 0), (0, 0), (0, 0)],
        &[(0, Low, -4), (0, High, 4)],
    ),
    (
        [(0, 0), (0, 0), (0, 0), (0, 0)],
        &[(0, Low, 1), (0, High, -1)],
    ),
    (
        [(1, 1), (0, 0), (0, 0), (0, 0)],
        &[(0, Low, 0), (0, High, 0), (0, Low, 0), (0, High, 0)],
    ),
];

#[test]
fn a_variable_may_be_all_of_a_remainder(rt: HostRuntime) -> Result<(), Fail> {
    expect_tells(&rt, rt.alloc(), remainder(0, 0, 0), &REMAINDER_BY_ITSELF)?;
    Ok(())
}

/// Bounds of a variable that is divided by itself and of the quotient, and the tells.
static QUOTIENT_BY_ITSELF: [(Pairs, &[Told]); 1] = [(
    [(3, 5), (1, 1), (0, 0), (0, 0)],
    &[
        (1, Low, -5),
        (1, High, 5),
        (1, Low, 0),
        (1, High, 1),
        (0, Low, -1),
        (0, High, 9),
    ],
)];

#[test]
fn a_variable_may_be_divided_by_itself(rt: HostRuntime) -> Result<(), Fail> {
    expect_tells(&rt, rt.alloc(), quotient(0, 0, 1), &QUOTIENT_BY_ITSELF)?;
    Ok(())
}
