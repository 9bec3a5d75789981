//! The absolute value.

ghost use Rattle.std.specs.Prelude.{◌≡◌, ◌≤◌, ◌<◌, ◌∷◌, [], ◌++◌, ℤ, neg_ℤ, length, unsigned_abs};
ghost use Rattle.interval.specs.Limits.{IsBound, bound_limit};
ghost use Rattle.tells.specs.Words.{AreVariables};
ghost use Rattle.tells.specs.Hearing.{MayHearAll, HearsAll};
ghost use Rattle.arithmetic_tells.specs.Absolute as absolute;

use interval::BoxOf;
use tells::{Hear, high_tell, low_tell};

/// Gives the tells of `y` being the absolute value of `x` to `h`, in order.
#[tactic(auto, unfolding(crate::specs::Absolute::abs_tells))]
pub fn visit_abs<H: Hear>(x: u32, y: u32, b: &BoxOf, h: &mut H)
    requires variables { AreVariables (length b.now) (x ∷ y ∷ []) }
    requires hearer { MayHearAll H.can_hear H.hears h.old (absolute.abs_tells x y b.now) }
    ensures { HearsAll H.hears h.old (absolute.abs_tells x y b.now) h.new }
{
    tell_absolute(x, y, b, h);
    tell_away(x, y, b, h);
}

/// Tells that `y` is between the least and the greatest absolute value of `x`.
fn tell_absolute<H: Hear>(x: u32, y: u32, b: &BoxOf, h: &mut H)
    requires x { x < length b.now }
    requires y { y < length b.now }
    requires hearer { MayHearAll H.can_hear H.hears h.old (absolute.absolute_tells x y b.now) }
    ensures { HearsAll H.hears h.old (absolute.absolute_tells x y b.now) h.new }
{
    let low = b.low(x);
    let high = b.high(x);
    h.hear(low_tell(y, least_absolute(low, high)));
    h.hear(high_tell(y, greatest_absolute(low, high)));
}

/// Tells how far from 0 `x` may be, and then how far it has to be.
fn tell_away<H: Hear>(x: u32, y: u32, b: &BoxOf, h: &mut H)
    requires x { x < length b.now }
    requires y { y < length b.now }
    requires hearer { MayHearAll H.can_hear H.hears h.old (absolute.within_tells x y b.now ++ absolute.branch_tells x y b.now) }
    ensures { HearsAll H.hears h.old (absolute.within_tells x y b.now ++ absolute.branch_tells x y b.now) h.new }
{
    tell_within(x, y, b, h);
    tell_branches(x, y, b, h);
}

/// Tells that `x` is at most the high of `y` away from 0.
fn tell_within<H: Hear>(x: u32, y: u32, b: &BoxOf, h: &mut H)
    requires y { y < length b.now }
    requires hearer { MayHearAll H.can_hear H.hears h.old (absolute.within_tells x y b.now) }
    ensures { HearsAll H.hears h.old (absolute.within_tells x y b.now) h.new }
{
    let high = b.high(y) as i128;
    h.hear(high_tell(x, high));
    h.hear(low_tell(x, -high));
}

/// Tells that `x` is at least the low of `y` away from 0, where only one side is left.
fn tell_branches<H: Hear>(x: u32, y: u32, b: &BoxOf, h: &mut H)
    requires x { x < length b.now }
    requires y { y < length b.now }
    requires hearer { MayHearAll H.can_hear H.hears h.old (absolute.branch_tells x y b.now) }
    ensures { HearsAll H.hears h.old (absolute.branch_tells x y b.now) h.new }
{
    tell_above(x, y, b, h);
    tell_below(x, y, b, h);
}

/// Tells that `x` is above 0, where it can't be far enough below.
fn tell_above<H: Hear>(x: u32, y: u32, b: &BoxOf, h: &mut H)
    requires x { x < length b.now }
    requires y { y < length b.now }
    requires hearer { MayHearAll H.can_hear H.hears h.old (absolute.above_tells x y b.now) }
    ensures { HearsAll H.hears h.old (absolute.above_tells x y b.now) h.new }
{
    let least = b.low(y) as i128;
    if -least < b.low(x) as i128 {
        h.hear(low_tell(x, least));
    }
}

/// Tells that `x` is below 0, where it can't be far enough above.
fn tell_below<H: Hear>(x: u32, y: u32, b: &BoxOf, h: &mut H)
    requires x { x < length b.now }
    requires y { y < length b.now }
    requires hearer { MayHearAll H.can_hear H.hears h.old (absolute.below_tells x y b.now) }
    ensures { HearsAll H.hears h.old (absolute.below_tells x y b.now) h.new }
{
    let least = b.low(y) as i128;
    if (b.high(x) as i128) < least {
        h.hear(high_tell(x, -least));
    }
}

/// The least absolute value of the numbers from `low` to `high`.
#[tactic(auto, unfolding(crate::specs::Absolute::least_absolute, interval::specs::Limits::bound_limit, interval::specs::Limits::largest_number))]
fn least_absolute(low: i64, high: i64) -> i128
    requires low { IsBound low }
    requires high { IsBound high }
    ensures { result ≡ absolute.least_absolute low high }
{
    if low >= 0 {
        low as i128
    } else if high <= 0 {
        -(high as i128)
    } else {
        0
    }
}

/// The greatest absolute value of the numbers from `low` to `high`.
#[tactic(auto, unfolding(crate::specs::Absolute::greatest_absolute, interval::specs::Limits::bound_limit, interval::specs::Limits::largest_number))]
pub fn greatest_absolute(low: i64, high: i64) -> i128
    requires low { IsBound low }
    requires high { IsBound high }
    ensures { result ≡ absolute.greatest_absolute low high }
{
    (-(low as i128)).max(high as i128)
}
