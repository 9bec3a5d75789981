//! Floors and ceilings of exact quotients, bounds nearest to a number, and corners, worked out by hand.

ghost use Rattle.std.specs.Prelude.{◌≢◌, pos};

use crate::four_variables::{LARGEST, PAST, bounds};
use interval::{ceil_div, clamp_bound, corner_products, corner_quotients, floor_div};
use std::process::Abort;
use std::test::Fail;

/// A number far past all bounds.
const HUGE: i128 = 1 << 100;

/// Dividends and divisors, with the floors and the ceilings of their quotients.
static QUOTIENTS: [(i128, i128, i128, i128); 7] = [
    (7, 2, 3, 4),
    (-7, 2, -4, -3),
    (7, -2, -4, -3),
    (-7, -2, 3, 4),
    (-6, 3, -2, -2),
    (
        HUGE,
        3,
        422_550_200_076_076_467_165_567_735_125,
        422_550_200_076_076_467_165_567_735_126,
    ),
    (7, -HUGE, -1, 0),
];

#[tactic(auto, unfolding(interval::specs::Limits::dividend_limit))]
#[test]
fn quotients_are_rounded_down_and_up(rt: HostRuntime) -> Result<(), Fail> {
    for (dividend, divisor, floor, ceiling) in &QUOTIENTS {
        let (a, b) = (*dividend, *divisor);
        assert!(rt; -HUGE <= a && a <= HUGE && b != 0);
        assert_eq!(rt; (floor_div(a, b), ceil_div(a, b)), (*floor, *ceiling));
    }
    Ok(())
}

/// Numbers, and the bounds that are nearest to them.
static CLAMPED: [(i128, i64); 6] = [
    (HUGE, PAST),
    (140_737_488_355_329, PAST),
    (140_737_488_355_327, LARGEST),
    (-140_737_488_355_329, -PAST),
    (-140_737_488_355_327, -LARGEST),
    (-5, -5),
];

#[test]
fn bounds_are_clamped_one_past_the_numbers(rt: HostRuntime) -> Result<(), Fail> {
    for (value, bound) in &CLAMPED {
        assert_eq!(rt; clamp_bound(*value), *bound);
    }
    Ok(())
}

/// Two ranges, with the least and the greatest product of their ends.
static PRODUCTS: [((i64, i64), (i64, i64), (i128, i128)); 5] = [
    ((-3, 4), (-5, 2), (-20, 15)),
    ((2, 3), (5, 7), (10, 21)),
    ((-3, -2), (-7, 0), (0, 21)),
    ((-PAST, 1), (-PAST, 0), (-140_737_488_355_328, 1 << 94)),
    ((-PAST, -2), (3, PAST), (-(1 << 94), -6)),
];

#[test]
fn corners_of_products_are_those_of_the_rectangle(rt: HostRuntime) -> Result<(), Fail> {
    for (x, y, corners) in &PRODUCTS {
        assert_eq!(rt; corner_products(bounds(&rt, *x), bounds(&rt, *y)), *corners);
    }
    Ok(())
}

/// The bounds of a divisor, neither of which is 0.
fn divisor(rt: &impl Abort, pair: (i64, i64)) -> (i64, i64)
    ensures low { result.0 ≢ pos 0 }
    ensures high { result.1 ≢ pos 0 }
{
    assert!(rt; pair.0 != 0 && pair.1 != 0);
    pair
}

/// Two ranges, with the least ceiling and the greatest floor of the quotients of their ends.
static CORNER_QUOTIENTS: [((i64, i64), (i64, i64), (i128, i128)); 5] = [
    ((-6, -6), (2, 3), (-3, -2)),
    ((7, 9), (2, 4), (2, 4)),
    ((-7, 9), (-4, -2), (-4, 3)),
    ((5, 5), (3, 3), (2, 1)),
    (
        (-PAST, PAST),
        (-PAST, -1),
        (-140_737_488_355_328, 140_737_488_355_328),
    ),
];

#[test]
fn corners_of_quotients_are_those_of_the_rectangle(rt: HostRuntime) -> Result<(), Fail> {
    for (z, y, corners) in &CORNER_QUOTIENTS {
        assert_eq!(rt;
            corner_quotients(bounds(&rt, *z), divisor(&rt, *y)),
            *corners
        );
    }
    Ok(())
}
