//! The linear inequality.

ghost use Rattle.std.specs.Prelude.{◌≡◌, ◌<◌, ◌≤◌, ◌+ℤ◌, ◌-ℤ◌, ℤ, pos, unsigned_abs, ◌∷◌, length};
ghost use Rattle.std.specs.List.{zip, flat_map};
ghost use Rattle.interval.specs.Limits.{IsNumber, dividend_limit};
ghost use Rattle.tells.specs.Words.{AreVariables};
ghost use Rattle.tells.specs.Words as words;
ghost use Rattle.tells.specs.Hearing.{MayHearAll, HearsAll};
ghost use Rattle.sum_tells.specs.Linear.{sum_limit, product_limit, at_most_tell, more_than_tell, at_most_tells, literal_tells, sure_tells, out_tells, bound_tells, IsLinear};

use crate::terms::{
    Range, room_for, sum_range, tell_product_at_least, tell_product_at_most, term_range,
};
use interval::BoxOf;
use tells::{Hear, Lit, is_out, is_sure, tell_false, tell_true};

/// Gives the tells of the inequality to `h`, in order.
pub fn visit_le<H: Hear>(lit: Lit, coeffs: &[i64], vars: &[u32], limit: i64, b: &BoxOf, h: &mut H)
    requires linear { IsLinear coeffs.now vars.now limit }
    requires variables { AreVariables (length b.now) (lit.var ∷ vars.now) }
    requires hearer { MayHearAll H.can_hear H.hears h.old (at_most_tells lit coeffs.now vars.now limit b.now) }
    ensures { HearsAll H.hears h.old (at_most_tells lit coeffs.now vars.now limit b.now) h.new }
{
    let sum = sum_range(coeffs, vars, b);
    tell_literal(lit, limit, sum, h);
    tell_bounds(lit, coeffs, vars, limit, sum, b, h);
}

/// Tells the literal where the box decides the inequality.
fn tell_literal<H: Hear>(lit: Lit, limit: i64, sum: Range, h: &mut H)
    requires { MayHearAll H.can_hear H.hears h.old (literal_tells lit limit sum.least sum.greatest) }
    ensures { HearsAll H.hears h.old (literal_tells lit limit sum.least sum.greatest) h.new }
{
    if sum.greatest <= limit as i128 {
        h.hear(tell_true(lit));
    }
    if (limit as i128) < sum.least {
        h.hear(tell_false(lit));
    }
}

/// Tells the bounds of the terms' variables where the box decides the literal.
fn tell_bounds<H: Hear>(
    lit: Lit,
    coeffs: &[i64],
    vars: &[u32],
    limit: i64,
    sum: Range,
    b: &BoxOf,
    h: &mut H,
)
    requires linear { IsLinear coeffs.now vars.now limit }
    requires literal { lit.var < length b.now }
    requires variables { AreVariables (length b.now) vars.now }
    requires least_in_range { unsigned_abs sum.least ≤ sum_limit }
    requires greatest_in_range { unsigned_abs sum.greatest ≤ sum_limit }
    requires hearer { MayHearAll H.can_hear H.hears h.old
        (bound_tells lit (zip coeffs.now vars.now) limit sum.least sum.greatest b.now) }
    ensures { HearsAll H.hears h.old (bound_tells lit (zip coeffs.now vars.now) limit sum.least sum.greatest b.now) h.new }
{
    tell_where_sure(lit, coeffs, vars, limit, sum.least, b, h);
    tell_where_out(lit, coeffs, vars, limit, sum.greatest, b, h);
}

/// Tells that the sum is at most the limit, where the literal is sure.
fn tell_where_sure<H: Hear>(
    lit: Lit,
    coeffs: &[i64],
    vars: &[u32],
    limit: i64,
    least: i128,
    b: &BoxOf,
    h: &mut H,
)
    requires linear { IsLinear coeffs.now vars.now limit }
    requires literal { lit.var < length b.now }
    requires variables { AreVariables (length b.now) vars.now }
    requires least_in_range { unsigned_abs least ≤ sum_limit }
    requires hearer { MayHearAll H.can_hear H.hears h.old (sure_tells lit (zip coeffs.now vars.now) limit least b.now) }
    ensures { HearsAll H.hears h.old (sure_tells lit (zip coeffs.now vars.now) limit least b.now) h.new }
{
    if is_sure(lit, b) {
        tell_at_most(coeffs, vars, limit, least, b, h);
    }
}

/// Tells that the sum is more than the limit, where the literal is out.
fn tell_where_out<H: Hear>(
    lit: Lit,
    coeffs: &[i64],
    vars: &[u32],
    limit: i64,
    greatest: i128,
    b: &BoxOf,
    h: &mut H,
)
    requires linear { IsLinear coeffs.now vars.now limit }
    requires literal { lit.var < length b.now }
    requires variables { AreVariables (length b.now) vars.now }
    requires greatest_in_range { unsigned_abs greatest ≤ sum_limit }
    requires hearer { MayHearAll H.can_hear H.hears h.old (out_tells lit (zip coeffs.now vars.now) limit greatest b.now) }
    ensures { HearsAll H.hears h.old (out_tells lit (zip coeffs.now vars.now) limit greatest b.now) h.new }
{
    if is_out(lit, b) {
        tell_more_than(coeffs, vars, limit, greatest, b, h);
    }
}

/// Tells that the sum is at most the limit.
fn tell_at_most<H: Hear>(
    coeffs: &[i64],
    vars: &[u32],
    limit: i64,
    least: i128,
    b: &BoxOf,
    h: &mut H,
)
    requires linear { IsLinear coeffs.now vars.now limit }
    requires variables { AreVariables (length b.now) vars.now }
    requires least_in_range { unsigned_abs least ≤ sum_limit }
    requires hearer { MayHearAll H.can_hear H.hears h.old
        (flat_map (at_most_tell b.now limit least) (zip coeffs.now vars.now)) }
    ensures { HearsAll H.hears h.old (flat_map (at_most_tell b.now limit least) (zip coeffs.now vars.now)) h.new }
{
    for i in 0..coeffs.len() {
        let term = term_range(coeffs[i], vars[i], b);
        let room = room_for(limit, least, term.least);
        tell_product_at_most(vars[i], coeffs[i], room, h);
    }
}

/// Tells that the sum is more than the limit.
fn tell_more_than<H: Hear>(
    coeffs: &[i64],
    vars: &[u32],
    limit: i64,
    greatest: i128,
    b: &BoxOf,
    h: &mut H,
)
    requires linear { IsLinear coeffs.now vars.now limit }
    requires variables { AreVariables (length b.now) vars.now }
    requires greatest_in_range { unsigned_abs greatest ≤ sum_limit }
    requires hearer { MayHearAll H.can_hear H.hears h.old
        (flat_map (more_than_tell b.now limit greatest) (zip coeffs.now vars.now)) }
    ensures { HearsAll H.hears h.old (flat_map (more_than_tell b.now limit greatest) (zip coeffs.now vars.now)) h.new }
{
    for i in 0..coeffs.len() {
        let term = term_range(coeffs[i], vars[i], b);
        let room = room_more_than(limit, greatest, term.greatest);
        tell_product_at_least(vars[i], coeffs[i], room, h);
    }
}

/// What the greatest values of the other terms demand of a term of a sum that is more than the limit.
#[tactic(auto, unfolding(crate::specs::Linear::sum_limit, crate::specs::Linear::term_limit, crate::specs::Linear::product_limit, interval::specs::Limits::bound_limit, interval::specs::Limits::largest_number, interval::specs::Limits::dividend_limit))]
fn room_more_than(limit: i64, greatest: i128, term_greatest: i128) -> i128
    requires limit { IsNumber limit }
    requires sum { unsigned_abs greatest ≤ sum_limit }
    requires term { unsigned_abs term_greatest ≤ product_limit }
    ensures value { result ≡ limit +ℤ pos 1 -ℤ (greatest -ℤ term_greatest) }
    ensures in_range { unsigned_abs result ≤ dividend_limit }
{
    limit as i128 + 1 - (greatest - term_greatest)
}
