//! Sums of terms, each a coefficient times a variable.

ghost use Rattle.std.specs.Prelude.{◌≡◌, ◌≢◌, ◌<◌, ◌≤◌, ◌+◌, ◌*◌, ◌+ℤ◌, ◌-ℤ◌, ℤ, pos, unsigned_abs, length};
ghost use Rattle.std.specs.List.{zip};
ghost use Rattle.interval.specs.Limits.{IsNumber, dividend_limit};
ghost use Rattle.interval.specs.Quotients.{floor_of, ceiling_of};
ghost use Rattle.tells.specs.Words.{AreVariables};
ghost use Rattle.tells.specs.Hearing.{MayHearAll, HearsAll};
ghost use Rattle.sum_tells.specs.Linear.{least_of, greatest_of, sum_over, sum_limit, product_limit, product_at_most, product_at_least, IsLinear};

use interval::{BoxOf, ceil_div, floor_div, law_quotient_order};
use tells::{Hear, high_tell, low_tell};

/// What a term, or a sum of terms, is at least and at most in a box.
#[derive(Clone, Copy)]
pub struct Range {
    /// The least value.
    pub least: i128,
    /// The greatest value.
    pub greatest: i128,
}

/// What the whole sum is at least and at most.
pub fn sum_range(coeffs: &[i64], vars: &[u32], b: &BoxOf) -> Range
    requires linear { IsLinear coeffs.now vars.now (pos 0) }
    requires variables { AreVariables (length b.now) vars.now }
    ensures least { result.least ≡ sum_over (least_of b.now) (zip coeffs.now vars.now) }
    ensures greatest { result.greatest ≡ sum_over (greatest_of b.now) (zip coeffs.now vars.now) }
    ensures least_in_range { unsigned_abs result.least ≤ sum_limit }
    ensures greatest_in_range { unsigned_abs result.greatest ≤ sum_limit }
    ensures least_small { unsigned_abs result.least ≤ length coeffs.now * product_limit }
    ensures greatest_small { unsigned_abs result.greatest ≤ length coeffs.now * product_limit }
{
    let mut sum = Range {
        least: 0,
        greatest: 0,
    };
    for i in 0..coeffs.len() {
        let term = term_range(coeffs[i], vars[i], b);
        sum = sum_with(sum, term);
    }
    sum
}

/// The sum with one more term.
#[tactic(auto, unfolding(crate::specs::Linear::sum_limit, crate::specs::Linear::term_limit, crate::specs::Linear::product_limit, interval::specs::Limits::bound_limit, interval::specs::Limits::largest_number))]
pub fn sum_with(sum: Range, term: Range) -> Range
    requires sum_least { unsigned_abs sum.least ≤ sum_limit }
    requires sum_greatest { unsigned_abs sum.greatest ≤ sum_limit }
    requires term_least { unsigned_abs term.least ≤ product_limit }
    requires term_greatest { unsigned_abs term.greatest ≤ product_limit }
    ensures least { result.least ≡ sum.least +ℤ term.least }
    ensures greatest { result.greatest ≡ sum.greatest +ℤ term.greatest }
{
    Range {
        least: sum.least + term.least,
        greatest: sum.greatest + term.greatest,
    }
}

/// What one term is at least and at most.
#[tactic(auto, unfolding(crate::specs::Linear::least_of, crate::specs::Linear::greatest_of))]
pub fn term_range(coeff: i64, var: u32, b: &BoxOf) -> Range
    requires coefficient { IsNumber coeff }
    requires variable { var < length b.now }
    ensures least { result.least ≡ least_of b.now (coeff, var) }
    ensures greatest { result.greatest ≡ greatest_of b.now (coeff, var) }
    ensures least_in_range { unsigned_abs result.least ≤ product_limit }
    ensures greatest_in_range { unsigned_abs result.greatest ≤ product_limit }
{
    let coeff = coeff as i128;
    let at_low = coeff * b.low(var) as i128;
    let at_high = coeff * b.high(var) as i128;
    Range {
        least: at_low.min(at_high),
        greatest: at_low.max(at_high),
    }
}

/// What the values of the other terms of a sum leave for a term of the limit.
#[tactic(auto, unfolding(crate::specs::Linear::sum_limit, crate::specs::Linear::term_limit, crate::specs::Linear::product_limit, interval::specs::Limits::bound_limit, interval::specs::Limits::largest_number, interval::specs::Limits::dividend_limit))]
pub fn room_for(limit: i64, sum: i128, term: i128) -> i128
    requires limit { IsNumber limit }
    requires sum { unsigned_abs sum ≤ sum_limit }
    requires term { unsigned_abs term ≤ product_limit }
    ensures value { result ≡ limit -ℤ (sum -ℤ term) }
    ensures in_range { unsigned_abs result ≤ dividend_limit }
{
    limit as i128 - (sum - term)
}

/// Tells that `coeff` times the variable is at most `room`.
pub fn tell_product_at_most<H: Hear>(var: u32, coeff: i64, room: i128, h: &mut H)
    requires dividend { unsigned_abs room ≤ dividend_limit }
    requires hearer { MayHearAll H.can_hear H.hears h.old (product_at_most var coeff room) }
    ensures { HearsAll H.hears h.old (product_at_most var coeff room) h.new }
{
    if h.knows_at_most(var, coeff, room) {
        return;
    }
    if coeff > 0 {
        let greatest = floor_quotient(room, coeff);
        h.hear(high_tell(var, greatest));
    } else if coeff < 0 {
        h.hear(low_tell(var, ceiling_quotient(room, coeff)));
    }
}

/// Tells that `coeff` times the variable is at least `room`.
pub fn tell_product_at_least<H: Hear>(var: u32, coeff: i64, room: i128, h: &mut H)
    requires dividend { unsigned_abs room ≤ dividend_limit }
    requires hearer { MayHearAll H.can_hear H.hears h.old (product_at_least var coeff room) }
    ensures { HearsAll H.hears h.old (product_at_least var coeff room) h.new }
{
    if h.knows_at_least(var, coeff, room) {
        return;
    }
    if coeff > 0 {
        h.hear(low_tell(var, ceiling_quotient(room, coeff)));
    } else if coeff < 0 {
        h.hear(high_tell(var, floor_quotient(room, coeff)));
    }
}

/// The greatest whole number that is at most `room` divided by `coeff`. A coefficient 1 or -1 takes no division.
pub fn floor_quotient(room: i128, coeff: i64) -> i128
    requires coefficient { coeff ≢ pos 0 }
    requires dividend { unsigned_abs room ≤ dividend_limit }
    ensures { result ≡ floor_of room coeff }
{
    law_quotient_order();
    if coeff == 1 {
        room
    } else if coeff == -1 {
        -room
    } else {
        floor_div(room, coeff as i128)
    }
}

/// The least whole number that is at least `room` divided by `coeff`.
fn ceiling_quotient(room: i128, coeff: i64) -> i128
    requires coefficient { coeff ≢ pos 0 }
    requires dividend { unsigned_abs room ≤ dividend_limit }
    ensures { result ≡ ceiling_of room coeff }
{
    law_quotient_order();
    if coeff == 1 {
        room
    } else if coeff == -1 {
        -room
    } else {
        ceil_div(room, coeff as i128)
    }
}
