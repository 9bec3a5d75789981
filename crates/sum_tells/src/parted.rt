//! The linear equation, wherever its terms stand.

ghost use Rattle.std.specs.Prelude.{◌≡◌, ◌<◌, ◌≤◌, ◌++◌, [], ◌∷◌, pos, length, unsigned_abs};
ghost use Rattle.std.specs.List.{zip, flat_map};
ghost use Rattle.interval.specs.Limits.{IsNumber};
ghost use Rattle.tells.specs.Words.{AreVariables};
ghost use Rattle.tells.specs.Hearing.{MayHearAll, HearsAll};
ghost use Rattle.sum_tells.specs.Linear.{least_of, greatest_of, sum_over, sum_limit, IsLinear};
ghost use Rattle.sum_tells.specs.Equality.{eq_tells, equal_tell, equal_tells, unequal_tell, unequal_tells};

use crate::Extended;
use crate::equality::{
    Equation, tell_equal, tell_equal_term, tell_equation, tell_unequal, tell_unequal_term, term_of,
    visit_eq,
};
use crate::terms::{Range, sum_range, sum_with, term_range};
use interval::BoxOf;
use tells::{Hear, Lit, is_out, is_sure};

/// Gives the tells of the equation to `h`, in order.
pub fn visit_equation<H: Hear>(
    lit: Lit,
    coeffs: &Extended<i64>,
    vars: &Extended<u32>,
    limit: i64,
    b: &BoxOf,
    h: &mut H,
)
    requires linear { IsLinear coeffs.now vars.now limit }
    requires variables { AreVariables (length b.now) (lit.var ∷ vars.now) }
    requires hearer { MayHearAll H.can_hear H.hears h.old (eq_tells lit coeffs.now vars.now limit b.now) }
    ensures { HearsAll H.hears h.old (eq_tells lit coeffs.now vars.now limit b.now) h.new }
{
    if let (Some(coeffs), Some(vars)) = (coeffs.as_slice(), vars.as_slice()) {
        visit_eq(lit, coeffs, vars, limit, b, h);
    } else if let (Some((coeffs, coeff)), Some((vars, var))) = (
        coeffs.split_last(),
        vars.split_last(),
    ) {
        visit_parted(lit, coeffs, vars, (coeff, var), limit, b, h);
    }
}

/// The same of a sum whose last term stands apart.
#[tactic(auto, using(crate::proofs::PartedLaws::zip_last), unfolding(crate::specs::Equality::eq_tells))]
fn visit_parted<H: Hear>(
    lit: Lit,
    coeffs: &[i64],
    vars: &[u32],
    last: (i64, u32),
    limit: i64,
    b: &BoxOf,
    h: &mut H,
)
    requires lengths { length coeffs.now ≡ length vars.now }
    requires linear { IsLinear (coeffs.now ++ last.0 ∷ []) (vars.now ++ last.1 ∷ []) limit }
    requires variables { AreVariables (length b.now) (lit.var ∷ (vars.now ++ last.1 ∷ [])) }
    requires hearer { MayHearAll H.can_hear H.hears h.old (eq_tells lit (coeffs.now ++ last.0 ∷ []) (vars.now ++ last.1 ∷ []) limit b.now) }
    ensures { HearsAll H.hears h.old (eq_tells lit (coeffs.now ++ last.0 ∷ []) (vars.now ++ last.1 ∷ []) limit b.now) h.new }
{
    let sum = parted_range(coeffs, vars, last, b);
    let equation = Equation { sum, limit };
    tell_equation(lit, equation, h);
    tell_terms(lit, coeffs, vars, last, equation, b, h);
}

/// What the whole sum is at least and at most.
fn parted_range(coeffs: &[i64], vars: &[u32], last: (i64, u32), b: &BoxOf) -> Range
    requires lengths { length coeffs.now ≡ length vars.now }
    requires linear { IsLinear (coeffs.now ++ last.0 ∷ []) (vars.now ++ last.1 ∷ []) (pos 0) }
    requires variables { AreVariables (length b.now) (vars.now ++ last.1 ∷ []) }
    ensures least { result.least ≡ sum_over (least_of b.now) (zip coeffs.now vars.now ++ last ∷ []) }
    ensures greatest { result.greatest ≡ sum_over (greatest_of b.now) (zip coeffs.now vars.now ++ last ∷ []) }
    ensures least_in_range { unsigned_abs result.least ≤ sum_limit }
    ensures greatest_in_range { unsigned_abs result.greatest ≤ sum_limit }
{
    let term = term_range(last.0, last.1, b);
    sum_with(sum_range(coeffs, vars, b), term)
}

/// Tells the bounds of the terms' variables where the box decides the literal.
fn tell_terms<H: Hear>(
    lit: Lit,
    coeffs: &[i64],
    vars: &[u32],
    last: (i64, u32),
    equation: Equation,
    b: &BoxOf,
    h: &mut H,
)
    requires linear { IsLinear coeffs.now vars.now equation.limit }
    requires last { IsNumber last.0 }
    requires literal { lit.var < length b.now }
    requires variables { AreVariables (length b.now) vars.now }
    requires last_variable { last.1 < length b.now }
    requires least_in_range { unsigned_abs equation.sum.least ≤ sum_limit }
    requires greatest_in_range { unsigned_abs equation.sum.greatest ≤ sum_limit }
    requires hearer { MayHearAll H.can_hear H.hears h.old
        (equal_tells lit (zip coeffs.now vars.now ++ last ∷ []) equation.limit equation.sum.least equation.sum.greatest b.now
        ++ unequal_tells lit (zip coeffs.now vars.now ++ last ∷ []) equation.limit equation.sum.least equation.sum.greatest b.now) }
    ensures { HearsAll H.hears h.old
        (equal_tells lit (zip coeffs.now vars.now ++ last ∷ []) equation.limit equation.sum.least equation.sum.greatest b.now
        ++ unequal_tells lit (zip coeffs.now vars.now ++ last ∷ []) equation.limit equation.sum.least equation.sum.greatest b.now)
        h.new }
{
    tell_where_sure(lit, coeffs, vars, last, equation, b, h);
    tell_where_out(lit, coeffs, vars, last, equation, b, h);
}

/// Tells that the sum is the limit, where the literal is sure.
fn tell_where_sure<H: Hear>(
    lit: Lit,
    coeffs: &[i64],
    vars: &[u32],
    last: (i64, u32),
    equation: Equation,
    b: &BoxOf,
    h: &mut H,
)
    requires linear { IsLinear coeffs.now vars.now equation.limit }
    requires last { IsNumber last.0 }
    requires literal { lit.var < length b.now }
    requires variables { AreVariables (length b.now) vars.now }
    requires last_variable { last.1 < length b.now }
    requires least_in_range { unsigned_abs equation.sum.least ≤ sum_limit }
    requires greatest_in_range { unsigned_abs equation.sum.greatest ≤ sum_limit }
    requires hearer { MayHearAll H.can_hear H.hears h.old
        (equal_tells lit (zip coeffs.now vars.now ++ last ∷ []) equation.limit equation.sum.least equation.sum.greatest b.now) }
    ensures { HearsAll H.hears h.old
        (equal_tells lit (zip coeffs.now vars.now ++ last ∷ []) equation.limit equation.sum.least equation.sum.greatest b.now)
        h.new }
{
    if is_sure(lit, b) {
        tell_parted_equal(coeffs, vars, last, equation, b, h);
    }
}

/// Tells that the sum is the limit.
#[tactic(auto, using(crate::proofs::PartedLaws::flat_map_last))]
fn tell_parted_equal<H: Hear>(
    coeffs: &[i64],
    vars: &[u32],
    last: (i64, u32),
    equation: Equation,
    b: &BoxOf,
    h: &mut H,
)
    requires linear { IsLinear coeffs.now vars.now equation.limit }
    requires last { IsNumber last.0 }
    requires variables { AreVariables (length b.now) vars.now }
    requires last_variable { last.1 < length b.now }
    requires least_in_range { unsigned_abs equation.sum.least ≤ sum_limit }
    requires greatest_in_range { unsigned_abs equation.sum.greatest ≤ sum_limit }
    requires hearer { MayHearAll H.can_hear H.hears h.old (flat_map
        (equal_tell b.now equation.limit equation.sum.least equation.sum.greatest) (zip coeffs.now vars.now ++ last ∷ [])) }
    ensures { HearsAll H.hears h.old (flat_map
        (equal_tell b.now equation.limit equation.sum.least equation.sum.greatest) (zip coeffs.now vars.now ++ last ∷ [])) h.new }
{
    tell_equal(coeffs, vars, equation, b, h);
    tell_last_equal(last, equation, b, h);
}

/// Tells that the last term makes it so.
fn tell_last_equal<H: Hear>(last: (i64, u32), equation: Equation, b: &BoxOf, h: &mut H)
    requires limit { IsNumber equation.limit }
    requires last { IsNumber last.0 }
    requires last_variable { last.1 < length b.now }
    requires least_in_range { unsigned_abs equation.sum.least ≤ sum_limit }
    requires greatest_in_range { unsigned_abs equation.sum.greatest ≤ sum_limit }
    requires hearer { MayHearAll H.can_hear H.hears h.old (equal_tell b.now equation.limit equation.sum.least equation.sum.greatest last) }
    ensures { HearsAll H.hears h.old (equal_tell b.now equation.limit equation.sum.least equation.sum.greatest last) h.new }
{
    let term = term_of(last.0, last.1, b);
    tell_equal_term(term, equation, h);
}

/// Tells that the sum isn't the limit, where the literal is out.
fn tell_where_out<H: Hear>(
    lit: Lit,
    coeffs: &[i64],
    vars: &[u32],
    last: (i64, u32),
    equation: Equation,
    b: &BoxOf,
    h: &mut H,
)
    requires linear { IsLinear coeffs.now vars.now equation.limit }
    requires last { IsNumber last.0 }
    requires literal { lit.var < length b.now }
    requires variables { AreVariables (length b.now) vars.now }
    requires last_variable { last.1 < length b.now }
    requires least_in_range { unsigned_abs equation.sum.least ≤ sum_limit }
    requires greatest_in_range { unsigned_abs equation.sum.greatest ≤ sum_limit }
    requires hearer { MayHearAll H.can_hear H.hears h.old
        (unequal_tells lit (zip coeffs.now vars.now ++ last ∷ []) equation.limit equation.sum.least equation.sum.greatest b.now) }
    ensures { HearsAll H.hears h.old
        (unequal_tells lit (zip coeffs.now vars.now ++ last ∷ []) equation.limit equation.sum.least equation.sum.greatest b.now)
        h.new }
{
    if is_out(lit, b) {
        tell_parted_unequal(coeffs, vars, last, equation, b, h);
    }
}

/// Tells that the sum isn't the limit.
#[tactic(auto, using(crate::proofs::PartedLaws::flat_map_last))]
fn tell_parted_unequal<H: Hear>(
    coeffs: &[i64],
    vars: &[u32],
    last: (i64, u32),
    equation: Equation,
    b: &BoxOf,
    h: &mut H,
)
    requires linear { IsLinear coeffs.now vars.now equation.limit }
    requires last { IsNumber last.0 }
    requires variables { AreVariables (length b.now) vars.now }
    requires last_variable { last.1 < length b.now }
    requires least_in_range { unsigned_abs equation.sum.least ≤ sum_limit }
    requires greatest_in_range { unsigned_abs equation.sum.greatest ≤ sum_limit }
    requires hearer { MayHearAll H.can_hear H.hears h.old (flat_map
        (unequal_tell b.now equation.limit equation.sum.least equation.sum.greatest) (zip coeffs.now vars.now ++ last ∷ [])) }
    ensures { HearsAll H.hears h.old (flat_map
        (unequal_tell b.now equation.limit equation.sum.least equation.sum.greatest) (zip coeffs.now vars.now ++ last ∷ [])) h.new }
{
    tell_unequal(coeffs, vars, equation, b, h);
    tell_last_unequal(last, equation, b, h);
}

/// Tells that the last term makes it so.
fn tell_last_unequal<H: Hear>(last: (i64, u32), equation: Equation, b: &BoxOf, h: &mut H)
    requires limit { IsNumber equation.limit }
    requires last { IsNumber last.0 }
    requires last_variable { last.1 < length b.now }
    requires least_in_range { unsigned_abs equation.sum.least ≤ sum_limit }
    requires greatest_in_range { unsigned_abs equation.sum.greatest ≤ sum_limit }
    requires hearer { MayHearAll H.can_hear H.hears h.old (unequal_tell b.now equation.limit equation.sum.least equation.sum.greatest last) }
    ensures { HearsAll H.hears h.old (unequal_tell b.now equation.limit equation.sum.least equation.sum.greatest last) h.new }
{
    let term = term_of(last.0, last.1, b);
    tell_unequal_term(term, equation, b, h);
}
