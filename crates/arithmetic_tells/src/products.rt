//! The tells of a product that narrow a box.

ghost use Rattle.std.specs.Prelude.{◌≡◌, ◌<◌, ◌∷◌, [], ◌≤ℤ◌, ◌*ℤ◌, true, length};
ghost use Rattle.std.specs.Bool.{OnTrue};
ghost use Rattle.std.specs.List.{All};
ghost use Rattle.interval.specs.Limits.{IsBound};
ghost use Rattle.interval.specs.Boxes.{low_of, high_of};
ghost use Rattle.interval.specs.Corners.{least_ceiling, greatest_floor};
ghost use Rattle.tells.specs.Words.{AreVariables, IsProperIn, Keeps};
ghost use Rattle.tells.specs.Words as words;
ghost use Rattle.tells.specs.Hearing.{MayHearAll, HearsAll};
ghost use Rattle.tell_laws.specs.Narrowing.{narrowing};
ghost use Rattle.arithmetic_tells.specs.Times.{product_tells, quotient_tells, factor_tells, times_tells};
ghost use Rattle.arithmetic_tells.specs.Times as times;
ghost use Rattle.arithmetic_tells.specs.Products.{IsUnderOne, IsOverOne, IsFactorQuiet};

use crate::times::{corners_of, excludes_zero, range_of};
use interval::{BoxOf, corner_quotients, law_clamp_order, law_quotient_order};
use tell_laws::tell_narrowing;
use tells::{Hear, Tell, high_tell, low_tell};

/// Gives the tells of `z` being the product of `x` and `y` that narrow the box to `h`, in order. A factor is divided for only
/// where it isn't seen that this narrows nothing.
#[tactic(auto, unfolding(crate::specs::Times::times_tells))]
pub fn narrow_times<H: Hear>(x: u32, y: u32, z: u32, b: &BoxOf, h: &mut H)
    requires variables { AreVariables (length b.now) (x ∷ y ∷ z ∷ []) }
    requires proper { IsProperIn (x ∷ y ∷ z ∷ []) b.now }
    requires hearer { MayHearAll H.can_hear H.hears h.old (narrowing b.now (times_tells x y z b.now)) }
    ensures { HearsAll H.hears h.old (narrowing b.now (times_tells x y z b.now)) h.new }
{
    narrow_product(x, y, z, b, h);
    narrow_factor(x, y, z, b, h);
    narrow_factor(y, x, z, b, h);
}

/// Tells that `z` is between the corner products.
#[inline(always)]
fn narrow_product<H: Hear>(x: u32, y: u32, z: u32, b: &BoxOf, h: &mut H)
    requires x { x < length b.now }
    requires y { y < length b.now }
    requires z { z < length b.now }
    requires hearer { MayHearAll H.can_hear H.hears h.old (narrowing b.now (product_tells x y z b.now)) }
    ensures { HearsAll H.hears h.old (narrowing b.now (product_tells x y z b.now)) h.new }
{
    let corners = corners_of(x, y, b);
    narrow_between(z, corners, b, h);
}

/// Tells that `x` is between the corner quotients of `z` by `y`, where 0 isn't in `y`.
fn narrow_factor<H: Hear>(x: u32, y: u32, z: u32, b: &BoxOf, h: &mut H)
    requires x { x < length b.now }
    requires y { y < length b.now }
    requires z { z < length b.now }
    requires y_proper { low_of b.now y ≤ℤ high_of b.now y }
    requires hearer { MayHearAll H.can_hear H.hears h.old (narrowing b.now (factor_tells x y z b.now)) }
    ensures { HearsAll H.hears h.old (narrowing b.now (factor_tells x y z b.now)) h.new }
{
    if excludes_zero(range_of(b, y)) {
        narrow_quotient(x, y, z, b, h);
    }
}

/// Tells that `x` is between the corner quotients of `z` by `y`.
fn narrow_quotient<H: Hear>(x: u32, y: u32, z: u32, b: &BoxOf, h: &mut H)
    requires x { x < length b.now }
    requires y { y < length b.now }
    requires z { z < length b.now }
    requires y_proper { low_of b.now y ≤ℤ high_of b.now y }
    requires y_not_zero { times.excludes_zero (times.range_of b.now y) ≡ true }
    requires hearer { MayHearAll H.can_hear H.hears h.old (narrowing b.now (quotient_tells x (times.range_of b.now z) (times.range_of b.now y))) }
    ensures { HearsAll H.hears h.old (narrowing b.now (quotient_tells x (times.range_of b.now z) (times.range_of b.now y))) h.new }
{
    law_quotient_order();
    law_clamp_order();
    if !is_factor_seen_quiet(x, y, z, b) {
        let corners = quotients_of(z, y, b);
        narrow_between(x, corners, b, h);
    }
}

/// Whether no corner quotient of `z` by `y` is seen to be tighter than `x`.
#[inline(always)]
fn is_factor_seen_quiet(x: u32, y: u32, z: u32, b: &BoxOf) -> bool
    requires x { x < length b.now }
    requires y { y < length b.now }
    requires z { z < length b.now }
    requires y_proper { low_of b.now y ≤ℤ high_of b.now y }
    ensures { OnTrue result (All (Keeps b.now) (factor_tells x y z b.now)) }
{
    law_quotient_order();
    law_clamp_order();
    is_factor_quiet(range_of(b, x), range_of(b, y), range_of(b, z))
}

/// The least ceiling and the greatest floor of the corner quotients of `z` by `y`.
fn quotients_of(z: u32, y: u32, b: &BoxOf) -> (i128, i128)
    requires y { y < length b.now }
    requires z { z < length b.now }
    requires y_proper { low_of b.now y ≤ℤ high_of b.now y }
    requires y_not_zero { times.excludes_zero (times.range_of b.now y) ≡ true }
    ensures least { result.0 ≡ least_ceiling (times.range_of b.now z) (times.range_of b.now y) }
    ensures greatest { result.1 ≡ greatest_floor (times.range_of b.now z) (times.range_of b.now y) }
{
    corner_quotients(range_of(b, z), range_of(b, y))
}

/// Tells that `var` is between these two, where that narrows the box.
#[inline(always)]
fn narrow_between<H: Hear>(var: u32, bounds: (i128, i128), b: &BoxOf, h: &mut H)
    requires variable { var < length b.now }
    requires hearer { MayHearAll H.can_hear H.hears h.old (narrowing b.now (words.low_tell var bounds.0 ∷ words.high_tell var bounds.1 ∷ [])) }
    ensures { HearsAll H.hears h.old (narrowing b.now (words.low_tell var bounds.0 ∷ words.high_tell var bounds.1 ∷ [])) h.new }
{
    narrow_two(low_tell(var, bounds.0), high_tell(var, bounds.1), b, h);
}

/// Gives two tells, each where it narrows the box.
#[inline(always)]
fn narrow_two<H: Hear>(first: Tell, second: Tell, b: &BoxOf, h: &mut H)
    requires first { first.var < length b.now }
    requires second { second.var < length b.now }
    requires hearer { MayHearAll H.can_hear H.hears h.old (narrowing b.now (first ∷ second ∷ [])) }
    ensures { HearsAll H.hears h.old (narrowing b.now (first ∷ second ∷ [])) h.new }
{
    tell_narrowing(first, b, h);
    tell_narrowing(second, b, h);
}

/// Whether no corner quotient of `z` by `y` is tighter than `x`, or 0 is in `y`, so that none is told.
fn is_factor_quiet(x: (i64, i64), y: (i64, i64), z: (i64, i64)) -> bool
    requires x_low { IsBound x.0 }
    requires x_high { IsBound x.1 }
    requires y_low { IsBound y.0 }
    requires y_high { IsBound y.1 }
    requires y_proper { y.0 ≤ℤ y.1 }
    ensures { OnTrue result (IsFactorQuiet x y z) }
{
    if y.0 > 0 {
        is_under_one(z.0, x.0, y) && is_over_one(z.1, x.1, y)
    } else if y.1 < 0 {
        is_over_one(z.1, x.0, y) && is_under_one(z.0, x.1, y)
    } else {
        true
    }
}

/// Whether `z` is at most one of the products of the factor with the two bounds. Where none is below zero, the second is the
/// greater.
fn is_under_one(z: i64, factor: i64, y: (i64, i64)) -> bool
    requires factor { IsBound factor }
    requires low { IsBound y.0 }
    requires high { IsBound y.1 }
    ensures { OnTrue result (IsUnderOne z factor y) }
{
    z as i128 <= product(factor, y.1) || z as i128 <= product(factor, y.0)
}

/// Whether `z` is at least one of the products of the factor with the two bounds.
fn is_over_one(z: i64, factor: i64, y: (i64, i64)) -> bool
    requires factor { IsBound factor }
    requires low { IsBound y.0 }
    requires high { IsBound y.1 }
    ensures { OnTrue result (IsOverOne z factor y) }
{
    product(factor, y.0) <= z as i128 || product(factor, y.1) <= z as i128
}

/// The product of two bounds.
#[tactic(auto, unfolding(interval::specs::Limits::bound_limit, interval::specs::Limits::largest_number))]
fn product(a: i64, b: i64) -> i128
    requires first { IsBound a }
    requires second { IsBound b }
    ensures { result ≡ a *ℤ b }
{
    a as i128 * b as i128
}
