//! The remainder of a division whose quotient is rounded toward zero.

ghost use Rattle.std.specs.Prelude.{◌≡◌, ◌≢◌, ◌≤◌, ◌<◌, ◌∷◌, [], ◌++◌, ℤ, pos, length, unsigned_abs};
ghost use Rattle.interval.specs.Limits.{IsBound, bound_limit};
ghost use Rattle.tells.specs.Words.{AreVariables};
ghost use Rattle.tells.specs.Hearing.{MayHearAll, HearsAll};
ghost use Rattle.arithmetic_tells.specs.Division.{divisor_tells};
ghost use Rattle.arithmetic_tells.specs.Remainder as remainder;

use crate::division::{size_of, tell_divisor};
use crate::times::{range_of, tell_between};
use interval::BoxOf;
use tells::Hear;

/// Gives the tells of `z` being what the division of `x` by `y` leaves to `h`, in order.
#[tactic(auto, unfolding(crate::specs::Remainder::mod_tells))]
pub fn visit_mod<H: Hear>(x: u32, y: u32, z: u32, b: &BoxOf, h: &mut H)
    requires variables { AreVariables (length b.now) (x ∷ y ∷ z ∷ []) }
    requires hearer { MayHearAll H.can_hear H.hears h.old (remainder.mod_tells x y z b.now) }
    ensures { HearsAll H.hears h.old (remainder.mod_tells x y z b.now) h.new }
{
    tell_divisor(y, b, h);
    tell_remainder(x, y, z, b, h);
}

/// Tells where the remainder lies, and what it is where both numbers are fixed.
fn tell_remainder<H: Hear>(x: u32, y: u32, z: u32, b: &BoxOf, h: &mut H)
    requires x { x < length b.now }
    requires y { y < length b.now }
    requires hearer { MayHearAll H.can_hear H.hears h.old (remainder.reach_tells x y z b.now ++ remainder.fixed_tells x y z b.now) }
    ensures { HearsAll H.hears h.old (remainder.reach_tells x y z b.now ++ remainder.fixed_tells x y z b.now) h.new }
{
    tell_reach(x, y, z, b, h);
    tell_fixed(x, y, z, b, h);
}

/// Tells where the remainder lies, where some divisor isn't 0.
fn tell_reach<H: Hear>(x: u32, y: u32, z: u32, b: &BoxOf, h: &mut H)
    requires x { x < length b.now }
    requires y { y < length b.now }
    requires hearer { MayHearAll H.can_hear H.hears h.old (remainder.reach_tells x y z b.now) }
    ensures { HearsAll H.hears h.old (remainder.reach_tells x y z b.now) h.new }
{
    let divisor = range_of(b, y);
    if size_of(divisor) > 0 {
        let reach = reach_of(range_of(b, x), divisor);
        tell_between(z, reach, h);
    }
}

/// Tells the remainder, where both numbers are fixed.
fn tell_fixed<H: Hear>(x: u32, y: u32, z: u32, b: &BoxOf, h: &mut H)
    requires x { x < length b.now }
    requires y { y < length b.now }
    requires hearer { MayHearAll H.can_hear H.hears h.old (remainder.fixed_tells x y z b.now) }
    ensures { HearsAll H.hears h.old (remainder.fixed_tells x y z b.now) h.new }
{
    let dividend = range_of(b, x);
    let divisor = range_of(b, y);
    if have_remainder(dividend, divisor) {
        let rest = remainder_of(dividend.0, divisor.0);
        tell_between(z, (rest, rest), h);
    }
}

/// The least and the greatest remainder of these dividends and divisors.
#[tactic(auto, unfolding(crate::specs::Remainder::least_remainder, crate::specs::Remainder::greatest_remainder, interval::specs::Limits::bound_limit, interval::specs::Limits::largest_number))]
fn reach_of(x: (i64, i64), y: (i64, i64)) -> (i128, i128)
    requires x_low { IsBound x.0 }
    requires x_high { IsBound x.1 }
    requires y_low { IsBound y.0 }
    requires y_high { IsBound y.1 }
    ensures least { result.0 ≡ remainder.least_remainder x y }
    ensures greatest { result.1 ≡ remainder.greatest_remainder x y }
{
    let most = size_of(y) - 1;
    (
        (-most).max((x.0 as i128).min(0)),
        most.min((x.1 as i128).max(0)),
    )
}

/// Whether both are fixed, and the divisor isn't 0.
fn have_remainder(x: (i64, i64), y: (i64, i64)) -> bool
    ensures { result ≡ remainder.have_remainder x y }
{
    x.0 == x.1 && y.0 == y.1 && y.0 != 0
}

/// What `a` leaves when it is divided by `b`: `a` less `b` times the quotient rounded toward zero.
#[tactic(auto, unfolding(crate::specs::Remainder::remainder_of, crate::specs::Division::quotient_of, interval::specs::Limits::bound_limit, interval::specs::Limits::largest_number))]
fn remainder_of(a: i64, b: i64) -> i128
    requires dividend { IsBound a }
    requires divisor { b ≢ pos 0 }
    ensures { result ≡ remainder.remainder_of a b }
{
    (a % b) as i128
}
