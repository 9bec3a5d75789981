//! The tells of the product and the absolute value, with the bounds worked out by hand.

ghost use Rattle.std.specs.Prelude.{◌<◌};
ghost use Rattle.guarded_tell.specs.Kernels.{IsKernel};

use crate::four_variables::{PAST, Pairs, Told, expect_bounds, expect_tells, narrows_nothing};
use guarded_tell::Kernel;
use guarded_tell::Side::{High, Low};
use std::test::Fail;

/// Variable 2 is the product of variables 0 and 1.
fn product() -> Kernel
    ensures { IsKernel 4 result }
{
    Kernel::Times { x: 0, y: 1, z: 2 }
}

/// Variable 1 is the absolute value of variable 0.
fn absolute_value() -> Kernel
    ensures { IsKernel 4 result }
{
    Kernel::Abs { x: 0, y: 1 }
}

/// Bounds of the two factors and the product, and the tells.
static PRODUCT_TELLS: [(Pairs, &[Told]); 3] = [
    (
        [(-3, 3), (2, 3), (-6, -6), (0, 0)],
        &[(2, Low, -9), (2, High, 9), (0, Low, -3), (0, High, -2)],
    ),
    (
        [(2, 3), (-3, -2), (-7, 5), (0, 0)],
        &[
            (2, Low, -9),
            (2, High, -4),
            (0, Low, -2),
            (0, High, 3),
            (1, Low, -3),
            (1, High, 2),
        ],
    ),
    // At both ends of the range.
    (
        [(-PAST, PAST), (PAST, PAST), (-PAST, PAST), (0, 0)],
        &[(2, Low, -PAST), (2, High, PAST), (0, Low, -1), (0, High, 1)],
    ),
];

#[test]
fn the_product_gives_its_tells_in_order(rt: HostRuntime) -> Result<(), Fail> {
    expect_tells(&rt, rt.alloc(), product(), &PRODUCT_TELLS)?;
    Ok(())
}

/// Bounds of the two factors and the product, and all after the tells.
static PRODUCT_BOUNDS: [(&Pairs, &Pairs); 6] = [
    (
        &[(-2, 3), (1, 2), (-9, 9), (0, 0)],
        &[(-2, 3), (1, 2), (-4, 6), (0, 0)],
    ),
    (
        &[(-9, 9), (-1, 1), (1, 6), (0, 0)],
        &[(-9, 9), (-1, 1), (1, 6), (0, 0)],
    ),
    (
        &[(-9, 9), (-3, -2), (5, 7), (0, 0)],
        &[(-3, -2), (-3, -2), (5, 7), (0, 0)],
    ),
    (
        &[(2, 2), (-9, 9), (7, 7), (0, 0)],
        &[(2, 2), (4, 3), (7, 7), (0, 0)],
    ),
    (
        &[(0, 3), (0, 3), (4, 9), (0, 0)],
        &[(0, 3), (0, 3), (4, 9), (0, 0)],
    ),
    (
        &[(1, 3), (2, 9), (8, 9), (0, 0)],
        &[(1, 3), (3, 9), (8, 9), (0, 0)],
    ),
];

#[test]
fn the_product_tells_what_is_worked_out_by_hand(rt: HostRuntime) -> Result<(), Fail> {
    expect_bounds(&rt, rt.alloc(), product(), &PRODUCT_BOUNDS)?;
    Ok(())
}

/// Ranges of a factor: on either side of 0, beginning or ending at it, and over it.
static FACTORS: [(i64, i64); 11] = [
    (-3, -2),
    (-3, -1),
    (-2, 2),
    (-1, 0),
    (0, 0),
    (0, 3),
    (1, 1),
    (1, 3),
    (2, 3),
    (3, 3),
    (-3, 3),
];

/// Ranges of a product.
static PRODUCTS: [(i64, i64); 13] = [
    (-9, 9),
    (-9, -6),
    (-6, 6),
    (-6, -2),
    (-2, -1),
    (0, 0),
    (0, 4),
    (1, 9),
    (2, 6),
    (3, 3),
    (4, 9),
    (6, 9),
    (-1, 1),
];

/// The bounds of the box of this number: a range of each factor with one of the product.
fn box_at(number: usize) -> Pairs
    requires { number < 1573 }
{
    let x = FACTORS[number / 143];
    let y = FACTORS[number / 13 % 11];
    let z = PRODUCTS[number % 13];
    [x, y, z, (0, 0)]
}

#[test]
fn the_product_narrows_nothing_on_some_of_all_small_boxes(rt: HostRuntime) -> Result<(), Fail> {
    let mut quiet = 0u32;
    for number in 0..1573 {
        if narrows_nothing(&rt, rt.alloc(), product(), &box_at(number))? {
            quiet = quiet.saturating_add(1);
        }
    }
    // Counted by another program, over the same 1,573 boxes.
    assert_eq!(rt; quiet, 181);
    Ok(())
}

/// All numbers.
const ALL: (i64, i64) = (-PAST, PAST);

/// Bounds of the two factors and the product, and whether the product narrows nothing.
static QUIET_AT_ENDS: [(&Pairs, bool); 9] = [
    (&[ALL, ALL, ALL, (0, 0)], true),
    (&[ALL, (-1, -1), ALL, (0, 0)], true),
    (&[ALL, (PAST, PAST), ALL, (0, 0)], false),
    (&[(1, PAST), (1, PAST), (1, PAST), (0, 0)], true),
    (&[(-PAST, -1), (1, PAST), (-PAST, -1), (0, 0)], true),
    (&[(-PAST, -1), (-PAST, -1), (1, PAST), (0, 0)], true),
    (&[(-PAST, -1), (-PAST, -2), (1, PAST), (0, 0)], false),
    (&[(PAST, PAST), (1, 1), (PAST, PAST), (0, 0)], true),
    (&[(PAST, PAST), (1, 2), (PAST, PAST), (0, 0)], false),
];

#[test]
fn the_product_narrows_nothing_on_some_boxes_at_both_ends(rt: HostRuntime) -> Result<(), Fail> {
    for (pairs, is_quiet) in &QUIET_AT_ENDS {
        assert_eq!(rt;
            narrows_nothing(&rt, rt.alloc(), product(), pairs)?,
            *is_quiet
        );
    }
    Ok(())
}

/// Bounds of the variable and its absolute value, and the tells.
static ABSOLUTE_TELLS: [(Pairs, &[Told]); 2] = [
    (
        [(-5, 3), (4, 5), (0, 0), (0, 0)],
        &[
            (1, Low, 0),
            (1, High, 5),
            (0, High, 5),
            (0, Low, -5),
            (0, High, -4),
        ],
    ),
    // At both ends of the range.
    (
        [(-PAST, -PAST), (PAST, PAST), (0, 0), (0, 0)],
        &[
            (1, Low, PAST),
            (1, High, PAST),
            (0, High, PAST),
            (0, Low, -PAST),
            (0, High, -PAST),
        ],
    ),
];

#[test]
fn the_absolute_value_gives_its_tells_in_order(rt: HostRuntime) -> Result<(), Fail> {
    expect_tells(&rt, rt.alloc(), absolute_value(), &ABSOLUTE_TELLS)?;
    Ok(())
}

/// Bounds of the variable and its absolute value, and both after the tells.
static ABSOLUTE_BOUNDS: [(&Pairs, &Pairs); 6] = [
    (
        &[(-3, 5), (4, 5), (0, 0), (0, 0)],
        &[(4, 5), (4, 5), (0, 0), (0, 0)],
    ),
    (
        &[(-9, 9), (1, 2), (0, 0), (0, 0)],
        &[(-2, 2), (1, 2), (0, 0), (0, 0)],
    ),
    (
        &[(-7, -3), (-9, 9), (0, 0), (0, 0)],
        &[(-7, -3), (3, 7), (0, 0), (0, 0)],
    ),
    (
        &[(2, 4), (0, 9), (0, 0), (0, 0)],
        &[(2, 4), (2, 4), (0, 0), (0, 0)],
    ),
    (
        &[(-2, 4), (-9, 9), (0, 0), (0, 0)],
        &[(-2, 4), (0, 4), (0, 0), (0, 0)],
    ),
    (
        &[(-1, 1), (3, 4), (0, 0), (0, 0)],
        &[(3, -3), (3, 1), (0, 0), (0, 0)],
    ),
];

#[test]
fn the_absolute_value_tells_what_is_worked_out_by_hand(rt: HostRuntime) -> Result<(), Fail> {
    expect_bounds(&rt, rt.alloc(), absolute_value(), &ABSOLUTE_BOUNDS)?;
    Ok(())
}
