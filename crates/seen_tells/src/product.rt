//! A visit of a product of natural factors: quiet, or its one or two tells, from bounds that are read once.

ghost use Rattle.std.specs.Prelude.{◌≡◌, ◌<◌, ◌≤ℤ◌, ◌<ℤ◌, ◌*ℤ◌, ◌∷◌, ◌++◌, [], List, length, pos};
ghost use Rattle.std.specs.Bool.{OnTrue};
ghost use Rattle.std.specs.List.{All};
ghost use Rattle.interval.specs.Boxes.{low_of, high_of};
ghost use Rattle.interval.specs.Limits.{IsBound};
ghost use Rattle.interval.specs.Quotients.{floor_of, ceiling_of};
ghost use Rattle.arithmetic_tells.specs.Times.{product_tells, factor_tells, times_tells};
ghost use Rattle.tell_laws.specs.Narrowing.{narrowing};
ghost use Rattle.tells.specs.Words as tell_words;
ghost use Rattle.tells.specs.declared.tell.Tell.{Tell};
ghost use Rattle.guarded_tell.specs.Words.{Keeps, IsProperIn};
ghost use Rattle.guarded_tell.specs.Kernels.{vars_of, IsKernel};
ghost use Rattle.kernel_visits.specs.Shapes.{IsShapeOf};
ghost use Rattle.seen_tells.specs.Seen.{IsSeen};
ghost use Rattle.seen_tells.specs.Natural.{IsFactor, HasFactors, IsNaturalProduct};
ghost use Rattle.seen_tells.specs.Few.{AreFew};

use crate::few::with_tell;
use crate::seen::Seen;
use guarded_tell::Kernel;
use interval::{BoxOf, law_clamp_order, law_quotient_order};
use kernel_visits::{Rest, Shape};
use tells::{high_tell, low_tell};

/// A natural factor is at most this much, 2^31: the product of two fits 64 bits.
const FACTOR_LIMIT: i64 = 2_147_483_648;

/// What the shape of a product says of a visit. It says nothing where a factor may be below 1 or above 2^31, where the product
/// may be below 0, or where more than two tells narrow the box.
#[inline(always)]
pub fn seen_product(k: &Kernel, x: u32, y: u32, z: u32, b: &BoxOf) -> Seen
    requires kernel { IsKernel (length b.now) k.now }
    requires shape { IsShapeOf k.now (Shape.Product x y z) }
    requires proper { IsProperIn (vars_of k.now) b.now }
    ensures { IsSeen k.now b.now result }
{
    if !is_natural_product(x, y, z, b) {
        Seen::Unseen
    } else if is_product_kept(x, y, z, b)
        && is_factor_kept(x, y, z, b)
        && is_factor_kept(y, x, z, b)
    {
        Seen::Quiet(Rest::Awake)
    } else {
        few_tells(x, y, z, b)
    }
}

/// Whether both factors are natural, and the product isn't below 0.
#[inline(always)]
fn is_natural_product(x: u32, y: u32, z: u32, b: &BoxOf) -> bool
    requires x { x < length b.now }
    requires y { y < length b.now }
    requires z { z < length b.now }
    requires x_proper { low_of b.now x ≤ℤ high_of b.now x }
    requires y_proper { low_of b.now y ≤ℤ high_of b.now y }
    requires z_proper { low_of b.now z ≤ℤ high_of b.now z }
    ensures { OnTrue result (IsNaturalProduct b.now x y z) }
{
    is_factor(x, b) && is_factor(y, b) && 0 <= b.low(z)
}

/// Whether all numbers of a variable are natural factors: from 1 to `FACTOR_LIMIT`.
#[inline(always)]
fn is_factor(v: u32, b: &BoxOf) -> bool
    requires variable { v < length b.now }
    requires proper { low_of b.now v ≤ℤ high_of b.now v }
    ensures { OnTrue result (HasFactors b.now v) }
{
    1 <= b.low(v) && b.high(v) <= FACTOR_LIMIT
}

/// Whether no corner product is tighter than the product.
#[inline(always)]
fn is_product_kept(x: u32, y: u32, z: u32, b: &BoxOf) -> bool
    requires x { x < length b.now }
    requires y { y < length b.now }
    requires z { z < length b.now }
    requires natural { IsNaturalProduct b.now x y z }
    ensures { OnTrue result (All (Keeps b.now) (product_tells x y z b.now)) }
{
    law_clamp_order();
    product(b.low(x), b.low(y)) <= b.low(z) && b.high(z) <= product(b.high(x), b.high(y))
}

/// Whether no corner quotient of `z` by `y` is tighter than `x`.
#[inline(always)]
fn is_factor_kept(x: u32, y: u32, z: u32, b: &BoxOf) -> bool
    requires x { x < length b.now }
    requires y { y < length b.now }
    requires z { z < length b.now }
    requires natural { IsNaturalProduct b.now x y z }
    ensures { OnTrue result (All (Keeps b.now) (factor_tells x y z b.now)) }
{
    law_quotient_order();
    law_clamp_order();
    b.low(z) <= product(b.low(x), b.high(y)) && product(b.high(x), b.low(y)) <= b.high(z)
}

/// The tells that narrow the box; `Unseen` where there are more than two.
#[inline(never)]
fn few_tells(x: u32, y: u32, z: u32, b: &BoxOf) -> Seen
    requires x { x < length b.now }
    requires y { y < length b.now }
    requires z { z < length b.now }
    requires natural { IsNaturalProduct b.now x y z }
    ensures { AreFew (narrowing b.now (times_tells x y z b.now)) result }
{
    let seen = few_products(x, y, z, b);
    let seen = with_factor(seen, x, y, z, b);
    with_factor(seen, y, x, z, b)
}

/// Those of the product.
#[inline(always)]
fn few_products(x: u32, y: u32, z: u32, b: &BoxOf) -> Seen
    requires x { x < length b.now }
    requires y { y < length b.now }
    requires z { z < length b.now }
    requires natural { IsNaturalProduct b.now x y z }
    ensures { AreFew (narrowing b.now (product_tells x y z b.now)) result }
{
    let seen = with_least_product(Seen::Quiet(Rest::Awake), x, y, z, b);
    with_greatest_product(seen, x, y, z, b)
}

/// The same with that of the least product.
#[inline(always)]
fn with_least_product(seen: Seen, x: u32, y: u32, z: u32, b: &BoxOf) -> Seen
    requires x { x < length b.now }
    requires y { y < length b.now }
    requires z { z < length b.now }
    requires natural { IsNaturalProduct b.now x y z }
    ensures { (ts : List Tell) → AreFew ts seen → AreFew (ts ++ narrowing b.now (tell_words.low_tell z (low_of b.now x *ℤ low_of b.now y) ∷ [])) result }
{
    law_clamp_order();
    let least = product(b.low(x), b.low(y));
    if b.low(z) < least {
        with_tell(seen, low_tell(z, least as i128), b)
    } else {
        seen
    }
}

/// The same with that of the greatest.
#[inline(always)]
fn with_greatest_product(seen: Seen, x: u32, y: u32, z: u32, b: &BoxOf) -> Seen
    requires x { x < length b.now }
    requires y { y < length b.now }
    requires z { z < length b.now }
    requires natural { IsNaturalProduct b.now x y z }
    ensures { (ts : List Tell) → AreFew ts seen → AreFew (ts ++ narrowing b.now (tell_words.high_tell z (high_of b.now x *ℤ high_of b.now y) ∷ [])) result }
{
    law_clamp_order();
    let greatest = product(b.high(x), b.high(y));
    if greatest < b.high(z) {
        with_tell(seen, high_tell(z, greatest as i128), b)
    } else {
        seen
    }
}

/// The same with those of the factor `x`.
#[inline(always)]
fn with_factor(seen: Seen, x: u32, y: u32, z: u32, b: &BoxOf) -> Seen
    requires x { x < length b.now }
    requires y { y < length b.now }
    requires z { z < length b.now }
    requires natural { IsNaturalProduct b.now x y z }
    ensures { (ts : List Tell) → AreFew ts seen → AreFew (ts ++ narrowing b.now (factor_tells x y z b.now)) result }
{
    let seen = with_least(seen, x, y, z, b);
    with_most(seen, x, y, z, b)
}

/// The same with that of the least number of `x`.
#[inline(always)]
fn with_least(seen: Seen, x: u32, y: u32, z: u32, b: &BoxOf) -> Seen
    requires x { x < length b.now }
    requires y { y < length b.now }
    requires z { z < length b.now }
    requires natural { IsNaturalProduct b.now x y z }
    ensures { (ts : List Tell) → AreFew ts seen → AreFew (ts ++ narrowing b.now (tell_words.low_tell x (ceiling_of (low_of b.now z) (high_of b.now y)) ∷ [])) result }
{
    law_quotient_order();
    law_clamp_order();
    if product(b.low(x), b.high(y)) < b.low(z) {
        with_tell(seen, low_tell(x, ceiling(b.low(z), b.high(y)) as i128), b)
    } else {
        seen
    }
}

/// The same with that of the greatest.
#[inline(always)]
fn with_most(seen: Seen, x: u32, y: u32, z: u32, b: &BoxOf) -> Seen
    requires x { x < length b.now }
    requires y { y < length b.now }
    requires z { z < length b.now }
    requires natural { IsNaturalProduct b.now x y z }
    ensures { (ts : List Tell) → AreFew ts seen → AreFew (ts ++ narrowing b.now (tell_words.high_tell x (floor_of (high_of b.now z) (low_of b.now y)) ∷ [])) result }
{
    law_quotient_order();
    law_clamp_order();
    if b.high(z) < product(b.high(x), b.low(y)) {
        with_tell(seen, high_tell(x, floor(b.high(z), b.low(y)) as i128), b)
    } else {
        seen
    }
}

/// The product of two natural factors.
#[tactic(auto, unfolding(crate::specs::Natural::factor_limit))]
#[inline(always)]
fn product(first: i64, second: i64) -> i64
    requires first { IsFactor first }
    requires second { IsFactor second }
    ensures { result ≡ first *ℤ second }
{
    (first as i128 * second as i128) as i64
}

/// The greatest whole number that is at most a natural number divided by a factor.
#[inline(always)]
fn floor(dividend: i64, divisor: i64) -> i64
    requires natural { pos 0 ≤ℤ dividend }
    requires divisor { IsFactor divisor }
    ensures { result ≡ floor_of dividend divisor }
{
    dividend / divisor
}

/// The least that is at least that.
#[inline(always)]
#[tactic(auto, unfolding(crate::specs::Natural::factor_limit, interval::specs::Limits::bound_limit, interval::specs::Limits::largest_number))]
fn ceiling(dividend: i64, divisor: i64) -> i64
    requires natural { pos 0 ≤ℤ dividend }
    requires short { IsBound dividend }
    requires divisor { IsFactor divisor }
    ensures { result ≡ ceiling_of dividend divisor }
{
    law_quotient_order();
    floor(dividend + (divisor - 1), divisor)
}
