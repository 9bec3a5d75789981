//! The product.

ghost use Rattle.std.specs.Prelude.{◌≡◌, ◌≤◌, ◌<◌, ◌≤ℤ◌, ◌∷◌, [], ◌++◌, ℤ, pos, true, length, unsigned_abs};
ghost use Rattle.interval.specs.Limits.{IsBound, bound_limit};
ghost use Rattle.interval.specs.Boxes.{low_of, high_of};
ghost use Rattle.interval.specs.Corners.{least_product, greatest_product};
ghost use Rattle.tells.specs.Words.{AreVariables, IsProperIn};
ghost use Rattle.tells.specs.Words as words;
ghost use Rattle.tells.specs.Hearing.{MayHearAll, HearsAll};
ghost use Rattle.arithmetic_tells.specs.Times as times;

use interval::{BoxOf, corner_products, corner_quotients};
use tells::{Hear, high_tell, low_tell};

/// Gives the tells of `z` being the product of `x` and `y` to `h`, in order.
#[tactic(auto, unfolding(crate::specs::Times::times_tells))]
pub fn visit_times<H: Hear>(x: u32, y: u32, z: u32, b: &BoxOf, h: &mut H)
    requires variables { AreVariables (length b.now) (x ∷ y ∷ z ∷ []) }
    requires proper { IsProperIn (x ∷ y ∷ z ∷ []) b.now }
    requires hearer { MayHearAll H.can_hear H.hears h.old (times.times_tells x y z b.now) }
    ensures { HearsAll H.hears h.old (times.times_tells x y z b.now) h.new }
{
    tell_product(x, y, z, b, h);
    tell_factors(x, y, z, b, h);
}

/// Tells that `z` is between the corner products.
fn tell_product<H: Hear>(x: u32, y: u32, z: u32, b: &BoxOf, h: &mut H)
    requires x { x < length b.now }
    requires y { y < length b.now }
    requires hearer { MayHearAll H.can_hear H.hears h.old (times.product_tells x y z b.now) }
    ensures { HearsAll H.hears h.old (times.product_tells x y z b.now) h.new }
{
    let corners = corners_of(x, y, b);
    tell_between(z, corners, h);
}

/// Tells that each factor is between the corner quotients, where the other isn't 0.
fn tell_factors<H: Hear>(x: u32, y: u32, z: u32, b: &BoxOf, h: &mut H)
    requires x { x < length b.now }
    requires y { y < length b.now }
    requires z { z < length b.now }
    requires x_proper { low_of b.now x ≤ℤ high_of b.now x }
    requires y_proper { low_of b.now y ≤ℤ high_of b.now y }
    requires hearer { MayHearAll H.can_hear H.hears h.old (times.factor_tells x y z b.now ++ times.factor_tells y x z b.now) }
    ensures { HearsAll H.hears h.old (times.factor_tells x y z b.now ++ times.factor_tells y x z b.now) h.new }
{
    tell_factor(x, y, z, b, h);
    tell_factor(y, x, z, b, h);
}

/// Tells that `x` is between the corner quotients of `z` by `y`, where 0 isn't in `y`.
fn tell_factor<H: Hear>(x: u32, y: u32, z: u32, b: &BoxOf, h: &mut H)
    requires y { y < length b.now }
    requires z { z < length b.now }
    requires y_proper { low_of b.now y ≤ℤ high_of b.now y }
    requires hearer { MayHearAll H.can_hear H.hears h.old (times.factor_tells x y z b.now) }
    ensures { HearsAll H.hears h.old (times.factor_tells x y z b.now) h.new }
{
    let divisor = range_of(b, y);
    if excludes_zero(divisor) {
        tell_quotient(x, range_of(b, z), divisor, h);
    }
}

/// Tells that `x` is between the corner quotients of `z` by `y`.
fn tell_quotient<H: Hear>(x: u32, z: (i64, i64), y: (i64, i64), h: &mut H)
    requires z_low { IsBound z.0 }
    requires z_high { IsBound z.1 }
    requires y_proper { y.0 ≤ℤ y.1 }
    requires y_not_zero { times.excludes_zero y ≡ true }
    requires hearer { MayHearAll H.can_hear H.hears h.old (times.quotient_tells x z y) }
    ensures { HearsAll H.hears h.old (times.quotient_tells x z y) h.new }
{
    let corners = corner_quotients(z, y);
    tell_between(x, corners, h);
}

/// Tells that `var` is between these two.
pub fn tell_between<H: Hear>(var: u32, bounds: (i128, i128), h: &mut H)
    requires hearer { MayHearAll H.can_hear H.hears h.old (words.low_tell var bounds.0 ∷ words.high_tell var bounds.1 ∷ []) }
    ensures { HearsAll H.hears h.old (words.low_tell var bounds.0 ∷ words.high_tell var bounds.1 ∷ []) h.new }
{
    h.hear(low_tell(var, bounds.0));
    h.hear(high_tell(var, bounds.1));
}

/// The least and the greatest corner product of two variables.
pub fn corners_of(x: u32, y: u32, b: &BoxOf) -> (i128, i128)
    requires x { x < length b.now }
    requires y { y < length b.now }
    ensures least { result.0 ≡ least_product (times.range_of b.now x) (times.range_of b.now y) }
    ensures greatest { result.1 ≡ greatest_product (times.range_of b.now x) (times.range_of b.now y) }
{
    corner_products(range_of(b, x), range_of(b, y))
}

/// The bounds of a variable.
pub fn range_of(b: &BoxOf, v: u32) -> (i64, i64)
    requires { v < length b.now }
    ensures value { result ≡ times.range_of b.now v }
    ensures low { IsBound result.0 }
    ensures high { IsBound result.1 }
{
    (b.low(v), b.high(v))
}

/// Whether 0 isn't in the range.
pub fn excludes_zero(range: (i64, i64)) -> bool
    ensures { result ≡ times.excludes_zero range }
{
    range.0 > 0 || range.1 < 0
}
