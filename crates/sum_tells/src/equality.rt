//! The linear equation.

ghost use Rattle.std.specs.Prelude.{◌≡◌, ◌<◌, ◌≤◌, ◌-ℤ◌, ◌*ℤ◌, ◌&&◌, ◌||◌, ℤ, int_lt, ◌∷◌, ◌++◌, unsigned_abs, length};
ghost use Rattle.std.specs.List.{zip, flat_map};
ghost use Rattle.interval.specs.Limits.{IsBound, IsNumber, bound_limit, dividend_limit};
ghost use Rattle.tells.specs.Words.{AreVariables, when};
ghost use Rattle.tells.specs.Hearing.{MayHearAll, HearsAll};
ghost use Rattle.sum_tells.specs.Linear.{least_of, greatest_of, sum_limit, product_limit, product_at_most, product_at_least, IsLinear};
ghost use Rattle.sum_tells.specs.Equality as equality;

use crate::terms::{
    Range, room_for, sum_range, tell_product_at_least, tell_product_at_most, term_range,
};
use interval::BoxOf;
use tells::{Hear, Lit, high_tell, is_out, is_sure, low_tell, tell_false, tell_true};

/// What the sum is at least and at most, and the limit that it is to be.
#[derive(Clone, Copy)]
pub struct Equation {
    /// What the sum is at least and at most.
    pub sum: Range,
    /// The limit.
    pub limit: i64,
}

/// A term with what it is at least and at most.
#[derive(Clone, Copy)]
pub struct Term {
    /// The coefficient.
    pub coeff: i64,
    /// The variable.
    pub var: u32,
    /// What they are at least and at most.
    pub range: Range,
}

/// Gives the tells of the equation to `h`, in order.
#[tactic(auto, unfolding(crate::specs::Equality::eq_tells))]
pub fn visit_eq<H: Hear>(lit: Lit, coeffs: &[i64], vars: &[u32], limit: i64, b: &BoxOf, h: &mut H)
    requires linear { IsLinear coeffs.now vars.now limit }
    requires variables { AreVariables (length b.now) (lit.var ∷ vars.now) }
    requires hearer { MayHearAll H.can_hear H.hears h.old (equality.eq_tells lit coeffs.now vars.now limit b.now) }
    ensures { HearsAll H.hears h.old (equality.eq_tells lit coeffs.now vars.now limit b.now) h.new }
{
    let sum = sum_range(coeffs, vars, b);
    let equation = Equation { sum, limit };
    tell_equation(lit, equation, h);
    tell_terms(lit, coeffs, vars, equation, b, h);
}

/// Tells the literal where the box decides the equation.
pub fn tell_equation<H: Hear>(lit: Lit, equation: Equation, h: &mut H)
    requires { MayHearAll H.can_hear H.hears h.old
        (equality.equation_tells lit equation.limit equation.sum.least equation.sum.greatest) }
    ensures { HearsAll H.hears h.old
        (equality.equation_tells lit equation.limit equation.sum.least equation.sum.greatest) h.new }
{
    if is_impossible(equation) {
        h.hear(tell_false(lit));
    }
    if is_certain(equation) {
        h.hear(tell_true(lit));
    }
}

/// Whether the limit isn't from the least to the greatest sum.
fn is_impossible(equation: Equation) -> bool
    ensures { result ≡ (int_lt equation.limit equation.sum.least || int_lt equation.sum.greatest equation.limit) }
{
    let limit = equation.limit as i128;
    limit < equation.sum.least || equation.sum.greatest < limit
}

/// Whether the least and the greatest sum are the limit.
fn is_certain(equation: Equation) -> bool
    ensures { result ≡ (equality.is_same equation.sum.least equation.limit
        && equality.is_same equation.sum.greatest equation.limit) }
{
    let limit = equation.limit as i128;
    is_same(equation.sum.least, limit) && is_same(equation.sum.greatest, limit)
}

/// Whether two numbers are the same.
fn is_same(y: i128, z: i128) -> bool
    ensures { result ≡ equality.is_same y z }
{
    y <= z && z <= y
}

/// Tells the bounds of the terms' variables where the box decides the literal.
fn tell_terms<H: Hear>(
    lit: Lit,
    coeffs: &[i64],
    vars: &[u32],
    equation: Equation,
    b: &BoxOf,
    h: &mut H,
)
    requires linear { IsLinear coeffs.now vars.now equation.limit }
    requires literal { lit.var < length b.now }
    requires variables { AreVariables (length b.now) vars.now }
    requires least_in_range { unsigned_abs equation.sum.least ≤ sum_limit }
    requires greatest_in_range { unsigned_abs equation.sum.greatest ≤ sum_limit }
    requires hearer { MayHearAll H.can_hear H.hears h.old
        (equality.equal_tells lit (zip coeffs.now vars.now) equation.limit equation.sum.least equation.sum.greatest b.now
        ++ equality.unequal_tells lit (zip coeffs.now vars.now) equation.limit equation.sum.least equation.sum.greatest b.now) }
    ensures { HearsAll H.hears h.old
        (equality.equal_tells lit (zip coeffs.now vars.now) equation.limit equation.sum.least equation.sum.greatest b.now
        ++ equality.unequal_tells lit (zip coeffs.now vars.now) equation.limit equation.sum.least equation.sum.greatest b.now)
        h.new }
{
    tell_where_sure(lit, coeffs, vars, equation, b, h);
    tell_where_out(lit, coeffs, vars, equation, b, h);
}

/// Tells that the sum is the limit, where the literal is sure.
fn tell_where_sure<H: Hear>(
    lit: Lit,
    coeffs: &[i64],
    vars: &[u32],
    equation: Equation,
    b: &BoxOf,
    h: &mut H,
)
    requires linear { IsLinear coeffs.now vars.now equation.limit }
    requires literal { lit.var < length b.now }
    requires variables { AreVariables (length b.now) vars.now }
    requires least_in_range { unsigned_abs equation.sum.least ≤ sum_limit }
    requires greatest_in_range { unsigned_abs equation.sum.greatest ≤ sum_limit }
    requires hearer { MayHearAll H.can_hear H.hears h.old
        (equality.equal_tells lit (zip coeffs.now vars.now) equation.limit equation.sum.least equation.sum.greatest b.now) }
    ensures { HearsAll H.hears h.old
        (equality.equal_tells lit (zip coeffs.now vars.now) equation.limit equation.sum.least equation.sum.greatest b.now)
        h.new }
{
    if is_sure(lit, b) {
        tell_equal(coeffs, vars, equation, b, h);
    }
}

/// Tells that the sum isn't the limit, where the literal is out.
fn tell_where_out<H: Hear>(
    lit: Lit,
    coeffs: &[i64],
    vars: &[u32],
    equation: Equation,
    b: &BoxOf,
    h: &mut H,
)
    requires linear { IsLinear coeffs.now vars.now equation.limit }
    requires literal { lit.var < length b.now }
    requires variables { AreVariables (length b.now) vars.now }
    requires least_in_range { unsigned_abs equation.sum.least ≤ sum_limit }
    requires greatest_in_range { unsigned_abs equation.sum.greatest ≤ sum_limit }
    requires hearer { MayHearAll H.can_hear H.hears h.old
        (equality.unequal_tells lit (zip coeffs.now vars.now) equation.limit equation.sum.least equation.sum.greatest b.now) }
    ensures { HearsAll H.hears h.old
        (equality.unequal_tells lit (zip coeffs.now vars.now) equation.limit equation.sum.least equation.sum.greatest b.now)
        h.new }
{
    if is_out(lit, b) {
        tell_unequal(coeffs, vars, equation, b, h);
    }
}

/// Tells that the sum is the limit.
pub fn tell_equal<H: Hear>(coeffs: &[i64], vars: &[u32], equation: Equation, b: &BoxOf, h: &mut H)
    requires linear { IsLinear coeffs.now vars.now equation.limit }
    requires variables { AreVariables (length b.now) vars.now }
    requires least_in_range { unsigned_abs equation.sum.least ≤ sum_limit }
    requires greatest_in_range { unsigned_abs equation.sum.greatest ≤ sum_limit }
    requires hearer { MayHearAll H.can_hear H.hears h.old (flat_map
        (equality.equal_tell b.now equation.limit equation.sum.least equation.sum.greatest) (zip coeffs.now vars.now)) }
    ensures { HearsAll H.hears h.old (flat_map
        (equality.equal_tell b.now equation.limit equation.sum.least equation.sum.greatest) (zip coeffs.now vars.now)) h.new }
{
    for i in 0..coeffs.len() {
        let term = term_of(coeffs[i], vars[i], b);
        tell_equal_term(term, equation, h);
    }
}

/// Tells that the sum isn't the limit.
pub fn tell_unequal<H: Hear>(coeffs: &[i64], vars: &[u32], equation: Equation, b: &BoxOf, h: &mut H)
    requires linear { IsLinear coeffs.now vars.now equation.limit }
    requires variables { AreVariables (length b.now) vars.now }
    requires least_in_range { unsigned_abs equation.sum.least ≤ sum_limit }
    requires greatest_in_range { unsigned_abs equation.sum.greatest ≤ sum_limit }
    requires hearer { MayHearAll H.can_hear H.hears h.old (flat_map
        (equality.unequal_tell b.now equation.limit equation.sum.least equation.sum.greatest) (zip coeffs.now vars.now)) }
    ensures { HearsAll H.hears h.old (flat_map
        (equality.unequal_tell b.now equation.limit equation.sum.least equation.sum.greatest) (zip coeffs.now vars.now)) h.new }
{
    for i in 0..coeffs.len() {
        let term = term_of(coeffs[i], vars[i], b);
        tell_unequal_term(term, equation, b, h);
    }
}

/// The term of a coefficient and a variable.
pub fn term_of(coeff: i64, var: u32, b: &BoxOf) -> Term
    requires coefficient { IsNumber coeff }
    requires variable { var < length b.now }
    ensures coeff { result.coeff ≡ coeff }
    ensures var { result.var ≡ var }
    ensures least { result.range.least ≡ least_of b.now (coeff, var) }
    ensures greatest { result.range.greatest ≡ greatest_of b.now (coeff, var) }
    ensures least_in_range { unsigned_abs result.range.least ≤ product_limit }
    ensures greatest_in_range { unsigned_abs result.range.greatest ≤ product_limit }
{
    let range = term_range(coeff, var, b);
    Term { coeff, var, range }
}

/// Tells that the term is what the others leave of the limit.
pub fn tell_equal_term<H: Hear>(term: Term, equation: Equation, h: &mut H)
    requires limit { IsNumber equation.limit }
    requires least_sum { unsigned_abs equation.sum.least ≤ sum_limit }
    requires greatest_sum { unsigned_abs equation.sum.greatest ≤ sum_limit }
    requires least_term { unsigned_abs term.range.least ≤ product_limit }
    requires greatest_term { unsigned_abs term.range.greatest ≤ product_limit }
    requires hearer { MayHearAll H.can_hear H.hears h.old
        (product_at_most term.var term.coeff (equation.limit -ℤ (equation.sum.least -ℤ term.range.least))
        ++ product_at_least term.var term.coeff (equation.limit -ℤ (equation.sum.greatest -ℤ term.range.greatest))) }
    ensures { HearsAll H.hears h.old
        (product_at_most term.var term.coeff (equation.limit -ℤ (equation.sum.least -ℤ term.range.least))
        ++ product_at_least term.var term.coeff (equation.limit -ℤ (equation.sum.greatest -ℤ term.range.greatest))) h.new }
{
    let most = room_for(equation.limit, equation.sum.least, term.range.least);
    let least = room_for(equation.limit, equation.sum.greatest, term.range.greatest);
    tell_product_at_most(term.var, term.coeff, most, h);
    tell_product_at_least(term.var, term.coeff, least, h);
}

/// Tells that the term isn't what the others leave of the limit, where they are fixed.
pub fn tell_unequal_term<H: Hear>(term: Term, equation: Equation, b: &BoxOf, h: &mut H)
    requires limit { IsNumber equation.limit }
    requires coefficient { IsNumber term.coeff }
    requires variable { term.var < length b.now }
    requires least_sum { unsigned_abs equation.sum.least ≤ sum_limit }
    requires greatest_sum { unsigned_abs equation.sum.greatest ≤ sum_limit }
    requires least_term { unsigned_abs term.range.least ≤ product_limit }
    requires greatest_term { unsigned_abs term.range.greatest ≤ product_limit }
    requires hearer { MayHearAll H.can_hear H.hears h.old
        (when (equality.is_same (equation.sum.least -ℤ term.range.least) (equation.sum.greatest -ℤ term.range.greatest))
        (equality.product_is_not term.var term.coeff (equation.limit -ℤ (equation.sum.least -ℤ term.range.least)) b.now)) }
    ensures { HearsAll H.hears h.old
        (when (equality.is_same (equation.sum.least -ℤ term.range.least) (equation.sum.greatest -ℤ term.range.greatest))
        (equality.product_is_not term.var term.coeff (equation.limit -ℤ (equation.sum.least -ℤ term.range.least)) b.now))
        h.new }
{
    if are_others_fixed(term.range, equation.sum) {
        let product = room_for(equation.limit, equation.sum.least, term.range.least);
        tell_product_is_not(term, product, b, h);
    }
}

/// Whether the other terms of a sum are fixed: what they are at least and at most is the same.
#[tactic(auto, unfolding(crate::specs::Linear::sum_limit, crate::specs::Linear::term_limit, crate::specs::Linear::product_limit, interval::specs::Limits::bound_limit, interval::specs::Limits::largest_number))]
fn are_others_fixed(term: Range, sum: Range) -> bool
    requires least_sum { unsigned_abs sum.least ≤ sum_limit }
    requires greatest_sum { unsigned_abs sum.greatest ≤ sum_limit }
    requires least_term { unsigned_abs term.least ≤ product_limit }
    requires greatest_term { unsigned_abs term.greatest ≤ product_limit }
    ensures { result ≡ equality.is_same (sum.least -ℤ term.least) (sum.greatest -ℤ term.greatest) }
{
    is_same(sum.least - term.least, sum.greatest - term.greatest)
}

/// Tells that the term isn't `product`.
fn tell_product_is_not<H: Hear>(term: Term, product: i128, b: &BoxOf, h: &mut H)
    requires coefficient { IsNumber term.coeff }
    requires variable { term.var < length b.now }
    requires hearer { MayHearAll H.can_hear H.hears h.old (equality.product_is_not term.var term.coeff product b.now) }
    ensures { HearsAll H.hears h.old (equality.product_is_not term.var term.coeff product b.now) h.new }
{
    tell_low_is_not(term, product, b, h);
    tell_high_is_not(term, product, b, h);
}

/// Leaves the low of the term's variable out, where it makes the term `product`.
fn tell_low_is_not<H: Hear>(term: Term, product: i128, b: &BoxOf, h: &mut H)
    requires coefficient { IsNumber term.coeff }
    requires variable { term.var < length b.now }
    requires hearer { MayHearAll H.can_hear H.hears h.old (equality.low_is_not term.var term.coeff product b.now) }
    ensures { HearsAll H.hears h.old (equality.low_is_not term.var term.coeff product b.now) h.new }
{
    let low = b.low(term.var);
    if is_product(term.coeff, low, product) {
        h.hear(low_tell(term.var, low as i128 + 1));
    }
}

/// Leaves the high of the term's variable out, where it makes the term `product`.
fn tell_high_is_not<H: Hear>(term: Term, product: i128, b: &BoxOf, h: &mut H)
    requires coefficient { IsNumber term.coeff }
    requires variable { term.var < length b.now }
    requires hearer { MayHearAll H.can_hear H.hears h.old (equality.high_is_not term.var term.coeff product b.now) }
    ensures { HearsAll H.hears h.old (equality.high_is_not term.var term.coeff product b.now) h.new }
{
    let high = b.high(term.var);
    if is_product(term.coeff, high, product) {
        h.hear(high_tell(term.var, high as i128 - 1));
    }
}

/// Whether the coefficient isn't 0, and times this number it is `product`.
#[tactic(auto, unfolding(crate::specs::Linear::product_limit, interval::specs::Limits::bound_limit, interval::specs::Limits::largest_number))]
fn is_product(coeff: i64, z: i64, product: i128) -> bool
    requires coefficient { IsNumber coeff }
    requires number { IsBound z }
    ensures { result ≡ equality.is_product coeff z product }
{
    coeff != 0 && is_same(coeff as i128 * z as i128, product)
}
