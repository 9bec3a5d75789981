//! Tests that the equation of a sum whose last term stands apart narrows nothing.

ghost use Rattle.std.specs.Prelude.{◌≡◌, pos, ◌∷◌, [], ◌++◌, length, MatchOption};
ghost use Rattle.std.specs.Bool.{OnTrue};
ghost use Rattle.std.specs.List.{All};
ghost use Rattle.tells.specs.Words.{AreVariables, IsProperIn, Keeps};
ghost use Rattle.sum_tells.specs.Linear.{IsLinear};
ghost use Rattle.sum_tells.specs.Equality.{eq_tells};
ghost use Rattle.small_sums.specs.Short.{AreShortSums};

use crate::quiet::{is_equation_quiet, leaves_room_on_both_sides};
use crate::short::{Sums, short_sums, small_term, sums_with};
use interval::{BoxOf, law_clamp_order, law_quotient_order};
use sum_tells::Extended;
use tells::Lit;

/// Whether the equation of a sum whose last term stands apart is seen to narrow nothing. Where its numbers are large, it
/// isn't seen.
pub fn is_parted_equation_quiet(
    lit: Lit,
    coeffs: &[i64],
    vars: &[u32],
    last: (i64, u32),
    limit: i64,
    b: &BoxOf,
) -> bool
    requires lengths { length coeffs.now ≡ length vars.now }
    requires linear { IsLinear (coeffs.now ++ last.0 ∷ []) (vars.now ++ last.1 ∷ []) limit }
    requires variables { AreVariables (length b.now) (lit.var ∷ (vars.now ++ last.1 ∷ [])) }
    requires proper { IsProperIn (lit.var ∷ (vars.now ++ last.1 ∷ [])) b.now }
    ensures { OnTrue result (All (Keeps b.now) (eq_tells lit (coeffs.now ++ last.0 ∷ []) (vars.now ++ last.1 ∷ []) limit b.now)) }
{
    law_quotient_order();
    law_clamp_order();
    match short_parted_sums(coeffs, vars, last, b) {
        Some(sums) => leaves_room_on_both_sides(lit, limit, sums, b),
        None => false,
    }
}

/// What the sum is at least and at most, its last term with the others, unless some number is too large for 64 bits.
fn short_parted_sums(coeffs: &[i64], vars: &[u32], last: (i64, u32), b: &BoxOf) -> Option<Sums>
    requires lengths { length coeffs.now ≡ length vars.now }
    requires linear { IsLinear (coeffs.now ++ last.0 ∷ []) (vars.now ++ last.1 ∷ []) (pos 0) }
    requires variables { AreVariables (length b.now) (vars.now ++ last.1 ∷ []) }
    requires proper { IsProperIn (vars.now ++ last.1 ∷ []) b.now }
    ensures { MatchOption result (Unit {0}) (λ s. AreShortSums b.now (coeffs.now ++ last.0 ∷ []) (vars.now ++ last.1 ∷ []) s) }
{
    let sums = short_sums(coeffs, vars, b)?;
    let term = small_term(last.0, last.1, b)?;
    sums_with(sums, term)
}

/// Whether the equation is seen to narrow nothing, wherever its terms stand.
pub fn is_whole_equation_quiet(
    lit: Lit,
    coeffs: &Extended<i64>,
    vars: &Extended<u32>,
    limit: i64,
    b: &BoxOf,
) -> bool
    requires linear { IsLinear coeffs.now vars.now limit }
    requires variables { AreVariables (length b.now) (lit.var ∷ vars.now) }
    requires proper { IsProperIn (lit.var ∷ vars.now) b.now }
    ensures { OnTrue result (All (Keeps b.now) (eq_tells lit coeffs.now vars.now limit b.now)) }
{
    if let (Some(coeffs), Some(vars)) = (coeffs.as_slice(), vars.as_slice()) {
        is_equation_quiet(lit, coeffs, vars, limit, b)
    } else if let (Some((coeffs, coeff)), Some((vars, var))) = (
        coeffs.split_last(),
        vars.split_last(),
    ) {
        is_parted_equation_quiet(lit, coeffs, vars, (coeff, var), limit, b)
    } else {
        false
    }
}
