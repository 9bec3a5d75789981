//! Division, rounded toward zero.

ghost use Rattle.std.specs.Prelude.{◌≡◌, ◌≢◌, ◌≤◌, ◌<◌, ◌≤ℤ◌, ◌∷◌, [], ◌++◌, ◌+ℤ◌, ◌-ℤ◌, ℤ, pos, true, length, unsigned_abs};
ghost use Rattle.interval.specs.Limits.{IsBound, bound_limit};
ghost use Rattle.interval.specs.Boxes.{low_of, high_of};
ghost use Rattle.interval.specs.Corners as corners;
ghost use Rattle.tells.specs.Words.{AreVariables, IsProperIn};
ghost use Rattle.tells.specs.Hearing.{MayHearAll, HearsAll};
ghost use Rattle.arithmetic_tells.specs.Times as times;
ghost use Rattle.arithmetic_tells.specs.Division as division;

use crate::absolute::greatest_absolute;
use crate::times::{excludes_zero, range_of, tell_between};
use interval::{BoxOf, corner_products};
use tells::{Hear, high_tell, low_tell};

/// Gives the tells of `z` being `x` divided by `y`, rounded toward zero, to `h`, in order.
#[tactic(auto, unfolding(crate::specs::Division::div_tells))]
pub fn visit_div<H: Hear>(x: u32, y: u32, z: u32, b: &BoxOf, h: &mut H)
    requires variables { AreVariables (length b.now) (x ∷ y ∷ z ∷ []) }
    requires proper { IsProperIn (x ∷ y ∷ z ∷ []) b.now }
    requires hearer { MayHearAll H.can_hear H.hears h.old (division.div_tells x y z b.now) }
    ensures { HearsAll H.hears h.old (division.div_tells x y z b.now) h.new }
{
    tell_divisor(y, b, h);
    tell_division(x, y, z, b, h);
}

/// Tells that the divisor isn't 0.
pub fn tell_divisor<H: Hear>(y: u32, b: &BoxOf, h: &mut H)
    requires y { y < length b.now }
    requires hearer { MayHearAll H.can_hear H.hears h.old (division.divisor_tells y b.now) }
    ensures { HearsAll H.hears h.old (division.divisor_tells y b.now) h.new }
{
    if b.low(y) == 0 {
        h.hear(low_tell(y, 1));
    }
    if b.high(y) == 0 {
        h.hear(high_tell(y, -1));
    }
}

/// Tells how far from 0 the quotient may be, where it lies, and what the dividend then is.
fn tell_division<H: Hear>(x: u32, y: u32, z: u32, b: &BoxOf, h: &mut H)
    requires x { x < length b.now }
    requires y { y < length b.now }
    requires z { z < length b.now }
    requires proper { low_of b.now y ≤ℤ high_of b.now y }
    requires hearer { MayHearAll H.can_hear H.hears h.old
        (division.shrinking_tells x z b.now ++ (division.truncated_tells x y z b.now ++ division.dividend_tells x y z b.now)) }
    ensures { HearsAll H.hears h.old
        (division.shrinking_tells x z b.now ++ (division.truncated_tells x y z b.now ++ division.dividend_tells x y z b.now))
        h.new }
{
    tell_shrinking(x, z, b, h);
    tell_parts(x, y, z, b, h);
}

/// Tells that the quotient is no further from 0 than the dividend can be.
#[tactic(auto, unfolding(interval::specs::Limits::bound_limit, interval::specs::Limits::largest_number))]
fn tell_shrinking<H: Hear>(x: u32, z: u32, b: &BoxOf, h: &mut H)
    requires x { x < length b.now }
    requires hearer { MayHearAll H.can_hear H.hears h.old (division.shrinking_tells x z b.now) }
    ensures { HearsAll H.hears h.old (division.shrinking_tells x z b.now) h.new }
{
    let size = size_of(range_of(b, x));
    tell_between(z, (-size, size), h);
}

/// Tells where the quotient lies, and what the dividend is by it.
fn tell_parts<H: Hear>(x: u32, y: u32, z: u32, b: &BoxOf, h: &mut H)
    requires x { x < length b.now }
    requires y { y < length b.now }
    requires z { z < length b.now }
    requires proper { low_of b.now y ≤ℤ high_of b.now y }
    requires hearer { MayHearAll H.can_hear H.hears h.old (division.truncated_tells x y z b.now ++ division.dividend_tells x y z b.now) }
    ensures { HearsAll H.hears h.old (division.truncated_tells x y z b.now ++ division.dividend_tells x y z b.now) h.new }
{
    tell_truncated(x, y, z, b, h);
    tell_dividend(x, y, z, b, h);
}

/// Tells that the quotient is between the corner quotients, where 0 isn't in the divisor's range.
fn tell_truncated<H: Hear>(x: u32, y: u32, z: u32, b: &BoxOf, h: &mut H)
    requires x { x < length b.now }
    requires y { y < length b.now }
    requires proper { low_of b.now y ≤ℤ high_of b.now y }
    requires hearer { MayHearAll H.can_hear H.hears h.old (division.truncated_tells x y z b.now) }
    ensures { HearsAll H.hears h.old (division.truncated_tells x y z b.now) h.new }
{
    let divisor = range_of(b, y);
    if excludes_zero(divisor) {
        let corners = corner_truncations(range_of(b, x), divisor);
        tell_between(z, corners, h);
    }
}

/// Tells that the dividend is nearer to the product of quotient and divisor than a divisor is to 0.
fn tell_dividend<H: Hear>(x: u32, y: u32, z: u32, b: &BoxOf, h: &mut H)
    requires y { y < length b.now }
    requires z { z < length b.now }
    requires hearer { MayHearAll H.can_hear H.hears h.old (division.dividend_tells x y z b.now) }
    ensures { HearsAll H.hears h.old (division.dividend_tells x y z b.now) h.new }
{
    let divisor = range_of(b, y);
    if size_of(divisor) > 0 {
        let bounds = dividends(divisor, range_of(b, z));
        tell_between(x, bounds, h);
    }
}

/// The greatest absolute value of the numbers of a range.
#[tactic(auto, unfolding(crate::specs::Absolute::greatest_absolute, interval::specs::Limits::bound_limit, interval::specs::Limits::largest_number))]
pub fn size_of(range: (i64, i64)) -> i128
    requires low { IsBound range.0 }
    requires high { IsBound range.1 }
    ensures value { result ≡ division.size_of range }
    ensures in_range { IsBound result }
{
    greatest_absolute(range.0, range.1)
}

/// The least and the greatest dividend of these divisors and quotients.
#[tactic(auto, unfolding(interval::specs::Limits::bound_limit, interval::specs::Limits::largest_number))]
fn dividends(y: (i64, i64), z: (i64, i64)) -> (i128, i128)
    requires y_low { IsBound y.0 }
    requires y_high { IsBound y.1 }
    requires z_low { IsBound z.0 }
    requires z_high { IsBound z.1 }
    ensures least { result.0 ≡ corners.least_product z y -ℤ (division.size_of y -ℤ pos 1) }
    ensures greatest { result.1 ≡ corners.greatest_product z y +ℤ (division.size_of y -ℤ pos 1) }
{
    let (least, greatest) = corner_products(z, y);
    let rest = size_of(y) - 1;
    (least - rest, greatest + rest)
}

/// The least and the greatest of the four quotients, rounded toward zero, of a bound of `x` by a bound of `y`.
fn corner_truncations(x: (i64, i64), y: (i64, i64)) -> (i128, i128)
    requires x_low { IsBound x.0 }
    requires x_high { IsBound x.1 }
    requires proper { y.0 ≤ℤ y.1 }
    requires not_zero { times.excludes_zero y ≡ true }
    ensures least { result.0 ≡ division.least_quotient x y }
    ensures greatest { result.1 ≡ division.greatest_quotient x y }
{
    let at_lows = tdiv(x.0, y.0);
    let at_low_high = tdiv(x.0, y.1);
    let at_high_low = tdiv(x.1, y.0);
    let at_highs = tdiv(x.1, y.1);
    (
        least_of_four(at_lows, at_low_high, at_high_low, at_highs),
        greatest_of_four(at_lows, at_low_high, at_high_low, at_highs),
    )
}

/// `a` divided by `b`, rounded toward zero.
#[tactic(auto, unfolding(crate::specs::Division::quotient_of, interval::specs::Limits::bound_limit, interval::specs::Limits::largest_number))]
fn tdiv(a: i64, b: i64) -> i128
    requires dividend { IsBound a }
    requires divisor { b ≢ pos 0 }
    ensures { result ≡ division.quotient_of a b }
{
    (a / b) as i128
}

fn least_of_four(p: i128, q: i128, r: i128, s: i128) -> i128
    ensures { result ≡ corners.least_of_four p q r s }
{
    p.min(q).min(r.min(s))
}

fn greatest_of_four(p: i128, q: i128, r: i128, s: i128) -> i128
    ensures { result ≡ corners.greatest_of_four p q r s }
{
    p.max(q).max(r.max(s))
}
