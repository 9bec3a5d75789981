//! Sums of three terms or more whose coefficients' sizes add up to little. Whatever the bounds are, such a sum fits 64 bits:
//! no number is looked at while it is formed.

ghost use Rattle.std.specs.Prelude.{◌≡◌, ◌<◌, ◌≤◌, ◌+◌, ◌≤ℤ◌, pos, sum_by, unsigned_abs, length, IsTrue, ◌↔◌, MatchOption};
ghost use Rattle.interval.specs.Boxes.{low_of, high_of};
ghost use Rattle.tells.specs.Words.{AreVariables, IsProperIn};
ghost use Rattle.sum_tells.specs.Linear.{IsLinear};
ghost use Rattle.small_sums.specs.Short.{slight_limit, small_product_limit, AreSums, AreShortSums};
ghost use Rattle.small_sums.specs.Slight.{AreSlight, IsReach, IsSlightWith, HasRoomFor, HasMoved, HasReached, sums_of_reach};

use crate::short::{Sums, small_product};
use interval::BoxOf;
use sum_tells::Extended;

/// The sizes of slight coefficients add up to at most this.
const SLIGHT_LIMIT: u64 = 32_767;

/// Whether the coefficients are three or more and slight.
pub fn are_slight(coeffs: &[i64]) -> bool
    ensures { IsTrue result ↔ AreSlight coeffs.now }
{
    coeffs.len() > 2 && left_of_limit(coeffs).is_some()
}

/// The same of a list whose last item may stand apart.
pub fn are_slight_extended(coeffs: &Extended<i64>) -> bool
    ensures { IsTrue result ↔ AreSlight coeffs.now }
{
    match coeffs.split_last() {
        Some((front, last)) => front.len() > 1 && leaves_room_for(front, last),
        None => false,
    }
}

/// Whether the coefficients are slight with one more.
fn leaves_room_for(coeffs: &[i64], last: i64) -> bool
    ensures { IsTrue result ↔ (sum_by unsigned_abs coeffs.now + unsigned_abs last ≤ slight_limit) }
{
    match left_of_limit(coeffs) {
        Some(left) => last.unsigned_abs() <= left,
        None => false,
    }
}

/// What the sizes of the coefficients leave of the limit, if they keep to it.
#[tactic(auto, unfolding(crate::specs::Short::slight_limit))]
fn left_of_limit(coeffs: &[i64]) -> Option<u64>
    ensures { MatchOption result (slight_limit < sum_by unsigned_abs coeffs.now) (λ left. left + sum_by unsigned_abs coeffs.now ≡ slight_limit) }
{
    let mut left = SLIGHT_LIMIT;
    for coeff in coeffs {
        let size = coeff.unsigned_abs();
        if left < size {
            return None;
        }
        left -= size;
    }
    Some(left)
}

/// The terms so far, in parts: their sum with each variable at its low, and how far they can fall and rise from there.
#[derive(Clone, Copy)]
pub struct Reach {
    /// The sum with each variable at its low.
    pub base: i64,
    /// How far the terms that fall can fall: a number below zero, or zero.
    pub down: i64,
    /// How far the terms that rise can rise.
    pub up: i64,
    /// The most that one term can fall or rise.
    pub widest: i64,
}

/// What a slight sum is at least and at most.
#[tactic(auto, unfolding(crate::specs::Short::slight_limit, crate::specs::Short::short_sum_limit, interval::specs::Limits::bound_limit, interval::specs::Limits::largest_number))]
pub fn slight_sums(coeffs: &[i64], vars: &[u32], b: &BoxOf) -> Sums
    requires linear { IsLinear coeffs.now vars.now (pos 0) }
    requires variables { AreVariables (length b.now) vars.now }
    requires proper { IsProperIn vars.now b.now }
    requires slight { sum_by unsigned_abs coeffs.now ≤ slight_limit }
    ensures { AreShortSums b.now coeffs.now vars.now result }
{
    sums_of(reach_of(coeffs, vars, b))
}

/// The parts of the whole sum.
fn reach_of(coeffs: &[i64], vars: &[u32], b: &BoxOf) -> Reach
    requires linear { IsLinear coeffs.now vars.now (pos 0) }
    requires variables { AreVariables (length b.now) vars.now }
    requires proper { IsProperIn vars.now b.now }
    requires slight { sum_by unsigned_abs coeffs.now ≤ slight_limit }
    ensures sums { AreSums b.now coeffs.now vars.now (sums_of_reach result) }
    ensures in_range { IsReach slight_limit result }
{
    let mut reach = Reach {
        base: 0,
        down: 0,
        up: 0,
        widest: 0,
    };
    for i in 0..coeffs.len() {
        reach = reach_with(reach, coeffs[i], vars[i], b);
    }
    reach
}

/// What the parts make.
#[tactic(auto, unfolding(crate::specs::Short::slight_limit, interval::specs::Limits::bound_limit, interval::specs::Limits::largest_number))]
fn sums_of(reach: Reach) -> Sums
    requires { IsReach slight_limit reach }
    ensures { result ≡ sums_of_reach reach }
{
    Sums {
        least: reach.base + reach.down,
        greatest: reach.base + reach.up,
        widest: reach.widest,
    }
}

/// The parts with one more term. A variable that has one number left moves the base alone.
fn reach_with(reach: Reach, coeff: i64, var: u32, b: &BoxOf) -> Reach
    requires variable { var < length b.now }
    requires proper { low_of b.now var ≤ℤ high_of b.now var }
    requires slight { IsSlightWith coeff reach }
    ensures { HasReached b.now coeff var reach result }
{
    let low = b.low(var);
    let high = b.high(var);
    let at_low = small_product(coeff, low);
    if low < high {
        reach_with_both(reach, at_low, small_product(coeff, high))
    } else {
        reach_with_one(reach, at_low)
    }
}

/// The parts with one more term, which has one value.
#[tactic(auto, unfolding(crate::specs::Short::short_sum_limit))]
fn reach_with_one(reach: Reach, value: i64) -> Reach
    requires { HasRoomFor reach value value }
    ensures { HasMoved reach value value result }
{
    Reach {
        base: reach.base + value,
        down: reach.down,
        up: reach.up,
        widest: reach.widest,
    }
}

/// The parts with one more term, which has these values at the low and at the high of its variable.
#[tactic(auto, unfolding(crate::specs::Short::short_sum_limit, crate::specs::Short::small_product_limit, crate::specs::Short::small_limit))]
fn reach_with_both(reach: Reach, at_low: i64, at_high: i64) -> Reach
    requires low { unsigned_abs at_low ≤ small_product_limit }
    requires high { unsigned_abs at_high ≤ small_product_limit }
    requires room { HasRoomFor reach at_low at_high }
    ensures { HasMoved reach at_low at_high result }
{
    let growth = at_high - at_low;
    if growth < 0 {
        Reach {
            base: reach.base + at_low,
            down: reach.down + growth,
            up: reach.up,
            widest: reach.widest.max(-growth),
        }
    } else {
        Reach {
            base: reach.base + at_low,
            down: reach.down,
            up: reach.up + growth,
            widest: reach.widest.max(growth),
        }
    }
}
