//! Tests that a sum narrows nothing, by what it is at least and at most in 64 bits.

ghost use Rattle.std.specs.Prelude.{◌≡◌, ◌<◌, ◌≤◌, ◌≤ℤ◌, false, unsigned_abs, ◌∷◌, length};
ghost use Rattle.std.specs.Bool.{OnTrue};
ghost use Rattle.std.specs.List.{All};
ghost use Rattle.interval.specs.Limits.{IsNumber};
ghost use Rattle.interval.specs.Boxes.{low_of, high_of};
ghost use Rattle.tells.specs.Words.{AreVariables, IsProperIn, Keeps};
ghost use Rattle.sum_tells.specs.Linear.{at_most_tells, IsLinear};
ghost use Rattle.sum_tells.specs.Equality.{eq_tells};
ghost use Rattle.small_sums.specs.Short.{short_sum_limit, IsAtMostQuiet, IsUnequalQuiet, IsEquationQuiet};

use crate::pairs::{pair_leaves_room, pair_leaves_room_on_both_sides, pair_of};
use crate::short::{Sums, short_sums};
use interval::{BoxOf, law_clamp_order, law_quotient_order};
use tells::{Lit, stands_false, stands_true};

/// Whether the inequality of two terms is seen to narrow nothing. Where its numbers are large, it isn't seen.
pub fn is_pair_at_most_quiet(lit: Lit, coeffs: &[i64], vars: &[u32], limit: i64, b: &BoxOf) -> bool
    requires two { length coeffs.now ≡ 2 }
    requires linear { IsLinear coeffs.now vars.now limit }
    requires variables { AreVariables (length b.now) (lit.var ∷ vars.now) }
    requires proper { IsProperIn (lit.var ∷ vars.now) b.now }
    ensures { OnTrue result (All (Keeps b.now) (at_most_tells lit coeffs.now vars.now limit b.now)) }
{
    law_quotient_order();
    law_clamp_order();
    match pair_of(coeffs, vars, b) {
        Some(pair) => pair_leaves_room(lit, limit, pair, b),
        None => false,
    }
}

/// Whether the sums leave more room to the limit than a term can grow by.
#[tactic(auto, unfolding(crate::specs::Short::short_sum_limit, interval::specs::Limits::largest_number))]
pub fn leaves_room(lit: Lit, limit: i64, sums: Sums, b: &BoxOf) -> bool
    requires variable { lit.var < length b.now }
    requires proper { low_of b.now lit.var ≤ℤ high_of b.now lit.var }
    requires limit { IsNumber limit }
    requires least { unsigned_abs sums.least ≤ short_sum_limit }
    requires greatest { unsigned_abs sums.greatest ≤ short_sum_limit }
    ensures { OnTrue result (IsAtMostQuiet b.now lit limit sums) }
{
    if stands_true(lit, b) {
        sums.widest <= limit - sums.least
    } else if stands_false(lit, b) {
        sums.widest < sums.greatest - limit
    } else {
        sums.least <= limit && limit < sums.greatest
    }
}

/// Whether the equation is seen to narrow nothing. Where its numbers are large, it isn't seen.
pub fn is_equation_quiet(lit: Lit, coeffs: &[i64], vars: &[u32], limit: i64, b: &BoxOf) -> bool
    requires linear { IsLinear coeffs.now vars.now limit }
    requires variables { AreVariables (length b.now) (lit.var ∷ vars.now) }
    requires proper { IsProperIn (lit.var ∷ vars.now) b.now }
    ensures { OnTrue result (All (Keeps b.now) (eq_tells lit coeffs.now vars.now limit b.now)) }
{
    if coeffs.len() == 2 {
        is_pair_equation_quiet(lit, coeffs, vars, limit, b)
    } else {
        is_sum_equation_quiet(lit, coeffs, vars, limit, b)
    }
}

/// The same for the equation of two terms.
pub fn is_pair_equation_quiet(lit: Lit, coeffs: &[i64], vars: &[u32], limit: i64, b: &BoxOf) -> bool
    requires two { length coeffs.now ≡ 2 }
    requires linear { IsLinear coeffs.now vars.now limit }
    requires variables { AreVariables (length b.now) (lit.var ∷ vars.now) }
    requires proper { IsProperIn (lit.var ∷ vars.now) b.now }
    ensures { OnTrue result (All (Keeps b.now) (eq_tells lit coeffs.now vars.now limit b.now)) }
{
    law_quotient_order();
    law_clamp_order();
    match pair_of(coeffs, vars, b) {
        Some(pair) => pair_leaves_room_on_both_sides(lit, limit, pair, b),
        None => false,
    }
}

/// The same for the equation of any number of terms.
fn is_sum_equation_quiet(lit: Lit, coeffs: &[i64], vars: &[u32], limit: i64, b: &BoxOf) -> bool
    requires linear { IsLinear coeffs.now vars.now limit }
    requires variables { AreVariables (length b.now) (lit.var ∷ vars.now) }
    requires proper { IsProperIn (lit.var ∷ vars.now) b.now }
    ensures { OnTrue result (All (Keeps b.now) (eq_tells lit coeffs.now vars.now limit b.now)) }
{
    law_quotient_order();
    law_clamp_order();
    match short_sums(coeffs, vars, b) {
        Some(sums) => leaves_room_on_both_sides(lit, limit, sums, b),
        None => false,
    }
}

/// Whether the sums leave more room to the limit, on either side, than a term can grow by.
#[tactic(auto, unfolding(crate::specs::Short::short_sum_limit, interval::specs::Limits::largest_number))]
pub fn leaves_room_on_both_sides(lit: Lit, limit: i64, sums: Sums, b: &BoxOf) -> bool
    requires variable { lit.var < length b.now }
    requires proper { low_of b.now lit.var ≤ℤ high_of b.now lit.var }
    requires limit { IsNumber limit }
    requires least { unsigned_abs sums.least ≤ short_sum_limit }
    requires greatest { unsigned_abs sums.greatest ≤ short_sum_limit }
    ensures { OnTrue result (IsEquationQuiet b.now lit limit sums) }
{
    if stands_true(lit, b) {
        let room = (limit - sums.least).min(sums.greatest - limit);
        sums.widest <= room
    } else if stands_false(lit, b) {
        leaves_bounds_alone(limit, sums)
    } else {
        sums.least <= limit && limit <= sums.greatest && sums.least < sums.greatest
    }
}

/// Whether no bound of a variable makes the sum the limit once all other terms are fixed: two terms or more aren't
/// fixed, or the limit is neither of the sums.
#[tactic(auto, unfolding(crate::specs::Short::short_sum_limit))]
fn leaves_bounds_alone(limit: i64, sums: Sums) -> bool
    requires least { unsigned_abs sums.least ≤ short_sum_limit }
    requires greatest { unsigned_abs sums.greatest ≤ short_sum_limit }
    ensures { OnTrue result (IsUnequalQuiet limit sums) }
{
    sums.widest < sums.greatest - sums.least || (limit != sums.least && limit != sums.greatest)
}
