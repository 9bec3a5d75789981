//! The corners of a rectangle of two ranges.

ghost use Rattle.std.specs.Prelude.{◌≡◌, ◌≢◌, ◌*ℤ◌, ◌≤ℤ◌, pos, unsigned_abs, ◌≤◌};
ghost use Rattle.std.specs.Bool.{OnTrue};
ghost use Rattle.interval.specs.Limits.{IsBound, bound_limit};
ghost use Rattle.interval.specs.Quotients.{floor_of, ceiling_of};
ghost use Rattle.interval.specs.Corners as corners;

use crate::quotients::{Rounded, round_both_ways};

/// The least and the greatest of the four products of a bound of `x` and a bound of `y`.
pub fn corner_products(x: (i64, i64), y: (i64, i64)) -> (i128, i128)
    requires x_low { IsBound x.0 }
    requires x_high { IsBound x.1 }
    requires y_low { IsBound y.0 }
    requires y_high { IsBound y.1 }
    ensures least { result.0 ≡ corners.least_product x y }
    ensures greatest { result.1 ≡ corners.greatest_product x y }
{
    if is_natural(x) && is_natural(y) {
        return natural_products(x, y);
    }
    let at_lows = product(x.0, y.0);
    let at_low_high = product(x.0, y.1);
    let at_high_low = product(x.1, y.0);
    let at_highs = product(x.1, y.1);
    (
        least_of_four(at_lows, at_low_high, at_high_low, at_highs),
        greatest_of_four(at_lows, at_low_high, at_high_low, at_highs),
    )
}

/// The least ceiling and the greatest floor of the four quotients of a bound of `z` by a bound of `y`.
pub fn corner_quotients(z: (i64, i64), y: (i64, i64)) -> (i128, i128)
    requires z_low { IsBound z.0 }
    requires z_high { IsBound z.1 }
    requires low_divisor { y.0 ≢ pos 0 }
    requires high_divisor { y.1 ≢ pos 0 }
    ensures least { result.0 ≡ corners.least_ceiling z y }
    ensures greatest { result.1 ≡ corners.greatest_floor z y }
{
    if is_natural(z) && is_natural(y) {
        return natural_quotients(z, y);
    }
    let at_lows = quotient(z.0, y.0);
    let at_low_high = quotient(z.0, y.1);
    let at_high_low = quotient(z.1, y.0);
    let at_highs = quotient(z.1, y.1);
    (
        least_of_four(
            at_lows.ceiling,
            at_low_high.ceiling,
            at_high_low.ceiling,
            at_highs.ceiling,
        ),
        greatest_of_four(
            at_lows.floor,
            at_low_high.floor,
            at_high_low.floor,
            at_highs.floor,
        ),
    )
}

/// Whether the range is in order, with no number below zero.
fn is_natural(range: (i64, i64)) -> bool
    ensures above_zero { OnTrue result (pos 0 ≤ℤ range.0) }
    ensures order { OnTrue result (range.0 ≤ℤ range.1) }
{
    0 <= range.0 && range.0 <= range.1
}

/// The least and the greatest corner product of ranges with no number below zero: those of the lows and of the highs.
fn natural_products(x: (i64, i64), y: (i64, i64)) -> (i128, i128)
    requires x_low { IsBound x.0 }
    requires x_high { IsBound x.1 }
    requires y_low { IsBound y.0 }
    requires y_high { IsBound y.1 }
    requires x_above_zero { pos 0 ≤ℤ x.0 }
    requires y_above_zero { pos 0 ≤ℤ y.0 }
    requires x_order { x.0 ≤ℤ x.1 }
    requires y_order { y.0 ≤ℤ y.1 }
    ensures least { result.0 ≡ corners.least_product x y }
    ensures greatest { result.1 ≡ corners.greatest_product x y }
{
    (product(x.0, y.0), product(x.1, y.1))
}

/// The least ceiling and the greatest floor of the corner quotients of such ranges: the low by the high, and the high by the
/// low.
fn natural_quotients(z: (i64, i64), y: (i64, i64)) -> (i128, i128)
    requires z_low { IsBound z.0 }
    requires z_high { IsBound z.1 }
    requires low_divisor { y.0 ≢ pos 0 }
    requires z_above_zero { pos 0 ≤ℤ z.0 }
    requires y_above_zero { pos 0 ≤ℤ y.0 }
    requires z_order { z.0 ≤ℤ z.1 }
    requires y_order { y.0 ≤ℤ y.1 }
    ensures least { result.0 ≡ corners.least_ceiling z y }
    ensures greatest { result.1 ≡ corners.greatest_floor z y }
{
    (quotient(z.0, y.1).ceiling, quotient(z.1, y.0).floor)
}

/// The order of the corners, as a law: it does nothing.
pub fn law_corner_order()
    ensures { corners.CornerOrder }
{}

#[tactic(auto, unfolding(crate::specs::Limits::bound_limit, crate::specs::Limits::largest_number))]
fn product(a: i64, b: i64) -> i128
    requires first { IsBound a }
    requires second { IsBound b }
    ensures { result ≡ a *ℤ b }
{
    a as i128 * b as i128
}

#[tactic(auto, unfolding(crate::specs::Limits::bound_limit, crate::specs::Limits::largest_number, crate::specs::Limits::short_limit))]
fn quotient(a: i64, b: i64) -> Rounded
    requires dividend { IsBound a }
    requires divisor { b ≢ pos 0 }
    ensures floor { result.floor ≡ floor_of a b }
    ensures ceiling { result.ceiling ≡ ceiling_of a b }
{
    round_both_ways(a, b)
}

fn least_of_four(p: i128, q: i128, r: i128, s: i128) -> i128
    ensures { result ≡ corners.least_of_four p q r s }
{
    p.min(q).min(r.min(s))
}

fn greatest_of_four(p: i128, q: i128, r: i128, s: i128) -> i128
    ensures { result ≡ corners.greatest_of_four p q r s }
{
    p.max(q).max(r.max(s))
}
