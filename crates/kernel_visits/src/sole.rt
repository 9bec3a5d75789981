//! The tells of a sum that must not be the limit, where one term alone isn't fixed.

ghost use Rattle.std.specs.Prelude.{◌≡◌, ◌<◌, ◌≤◌, ◌+◌, ◌≤ℤ◌, ◌-ℤ◌, ◌∷◌, true, length, sum_by, unsigned_abs, MatchOption};
ghost use Rattle.std.specs.Bool.{OnTrue, OnFalse};
ghost use Rattle.interval.specs.Limits.{IsBound, IsNumber, bound_limit};
ghost use Rattle.interval.specs.Boxes.{low_of, high_of};
ghost use Rattle.guarded_tell.specs.Words.{AreVariables, IsProperIn};
ghost use Rattle.guarded_tell.specs.Words as words;
ghost use Rattle.guarded_tell.specs.Hearing.{MayHearAll, HearsAll};
ghost use Rattle.sum_tells.specs.Linear.{IsLinear};
ghost use Rattle.sum_tells.specs.Equality.{eq_tells};
ghost use Rattle.tell_laws.specs.Narrowing.{narrowing};
ghost use Rattle.small_sums.specs.Short.{slight_limit, short_sum_limit};
ghost use Rattle.kernel_visits.specs.Sole.{IsBoundTerm, IsLeftBeside};

use crate::differences::narrow_apart;
use guarded_tell::{Hear, Lit};
use interval::{BoxOf, law_clamp_order};
use small_sums::{SmallTerm, Sums, opposite, plain, slight_sums};

/// Where the term at this place of an equation that must not hold is its variable or the opposite, and the only one that isn't
/// fixed, gives the tells that narrow the box to `h` and answers yes. Else it gives none and answers no.
pub fn is_sole_given<H: Hear>(
    lit: Lit,
    coeffs: &[i64],
    vars: &[u32],
    limit: i64,
    place: usize,
    b: &BoxOf,
    h: &mut H,
) -> bool
    requires place { place < length coeffs.now }
    requires linear { IsLinear coeffs.now vars.now limit }
    requires variables { AreVariables (length b.now) (lit.var ∷ vars.now) }
    requires proper { IsProperIn (lit.var ∷ vars.now) b.now }
    requires slight { sum_by unsigned_abs coeffs.now ≤ slight_limit }
    requires out { words.is_out lit b.now ≡ true }
    requires hearer { MayHearAll H.can_hear H.hears h.old (narrowing b.now (eq_tells lit coeffs.now vars.now limit b.now)) }
    ensures given { OnTrue result (HearsAll H.hears h.old (narrowing b.now (eq_tells lit coeffs.now vars.now limit b.now)) h.new) }
    ensures left { OnFalse result (h.new ≡ h.old) }
{
    law_clamp_order();
    if !is_unit(coeffs[place]) {
        return false;
    }
    let term = unit_term(coeffs[place], vars[place], b);
    let sums = slight_sums(coeffs, vars, b);
    match left_beside(term, limit, sums) {
        Some(product) => {
            narrow_apart(coeffs[place], vars[place], product, b, h);
            true
        }
        None => false,
    }
}

/// Whether the coefficient is 1 or -1.
fn is_unit(coeff: i64) -> bool
    ensures { OnTrue result (unsigned_abs coeff ≡ 1) }
{
    coeff == 1 || coeff == -1
}

/// What a term with such a coefficient is at least and at most.
fn unit_term(coeff: i64, var: u32, b: &BoxOf) -> SmallTerm
    requires unit { unsigned_abs coeff ≡ 1 }
    requires variable { var < length b.now }
    requires proper { low_of b.now var ≤ℤ high_of b.now var }
    ensures { IsBoundTerm b.now coeff var result }
{
    if coeff > 0 {
        plain(var, b)
    } else {
        opposite(var, b)
    }
}

/// What the terms beside this one leave of the limit, if they are fixed and it isn't.
fn left_beside(term: SmallTerm, limit: i64, sums: Sums) -> Option<i64>
    requires least_bound { IsBound term.least }
    requires greatest_bound { IsBound term.greatest }
    requires limit { IsNumber limit }
    requires least { unsigned_abs sums.least ≤ short_sum_limit }
    requires greatest { unsigned_abs sums.greatest ≤ short_sum_limit }
    ensures { MatchOption result (Unit {0}) (IsLeftBeside term limit sums) }
{
    let least = without(sums.least, term.least);
    let greatest = without(sums.greatest, term.greatest);
    if term.least < term.greatest && least <= greatest && greatest <= least {
        Some(left_of(limit, least))
    } else {
        None
    }
}

/// The sum without one of its terms.
#[tactic(auto, unfolding(small_sums::specs::Short::short_sum_limit, interval::specs::Limits::bound_limit, interval::specs::Limits::largest_number))]
fn without(sum: i64, term: i64) -> i64
    requires sum { unsigned_abs sum ≤ short_sum_limit }
    requires term { IsBound term }
    ensures value { result ≡ sum -ℤ term }
    ensures in_range { unsigned_abs result ≤ short_sum_limit + bound_limit }
{
    sum - term
}

/// What the sum leaves of the limit.
#[tactic(auto, unfolding(small_sums::specs::Short::short_sum_limit, interval::specs::Limits::bound_limit, interval::specs::Limits::largest_number))]
fn left_of(limit: i64, sum: i64) -> i64
    requires limit { IsNumber limit }
    requires sum { unsigned_abs sum ≤ short_sum_limit + bound_limit }
    ensures { result ≡ limit -ℤ sum }
{
    limit - sum
}
