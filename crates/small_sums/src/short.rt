//! Sums of small terms, in 64 bits.

ghost use Rattle.std.specs.Prelude.{◌≡◌, ◌<◌, ◌≤◌, ◌≤ℤ◌, ◌+ℤ◌, ◌-ℤ◌, ◌*ℤ◌, pos, unsigned_abs, length, MatchOption};
ghost use Rattle.std.specs.Bool.{OnTrue};
ghost use Rattle.interval.specs.Limits.{IsBound};
ghost use Rattle.interval.specs.Boxes.{low_of, high_of};
ghost use Rattle.tells.specs.Words.{AreVariables, IsProperIn};
ghost use Rattle.sum_tells.specs.Linear.{IsLinear};
ghost use Rattle.small_sums.specs.Short.{slight_limit, small_limit, small_product_limit, short_sum_limit, AreShortSums, IsSmallTerm, IsTermOf, HasOneMore};

use interval::BoxOf;

/// A slight coefficient lies between this and its opposite. Its product with any bound fits 64 bits.
const SLIGHT_LIMIT: i64 = 32_767;

/// A small coefficient, and a small bound, lie between this and its opposite.
const SMALL_LIMIT: i64 = 2_147_483_647;

/// A sum that is formed in 64 bits lies between this and its opposite.
const SHORT_SUM_LIMIT: i64 = 4_611_686_018_427_387_903;

/// What a sum of small terms is at least and at most, and by how much one of its terms can grow.
#[derive(Clone, Copy)]
pub struct Sums {
    /// The least value.
    pub least: i64,
    /// The greatest value.
    pub greatest: i64,
    /// The most that a term's greatest value is above its least.
    pub widest: i64,
}

/// What a small term is at least and at most.
#[derive(Clone, Copy)]
pub struct SmallTerm {
    /// The least value.
    pub least: i64,
    /// The greatest value.
    pub greatest: i64,
}

/// What the sum is at least and at most, unless some number is too large for 64 bits.
pub fn short_sums(coeffs: &[i64], vars: &[u32], b: &BoxOf) -> Option<Sums>
    requires linear { IsLinear coeffs.now vars.now (pos 0) }
    requires variables { AreVariables (length b.now) vars.now }
    requires proper { IsProperIn vars.now b.now }
    ensures { MatchOption result (Unit {0}) (λ s. AreShortSums b.now coeffs.now vars.now s) }
{
    let mut sums = Sums {
        least: 0,
        greatest: 0,
        widest: 0,
    };
    for i in 0..coeffs.len() {
        let term = small_term(coeffs[i], vars[i], b)?;
        sums = sums_with(sums, term)?;
    }
    Some(sums)
}

/// What the term is at least and at most, unless its numbers are too large.
pub fn small_term(coeff: i64, var: u32, b: &BoxOf) -> Option<SmallTerm>
    requires variable { var < length b.now }
    requires proper { low_of b.now var ≤ℤ high_of b.now var }
    ensures { MatchOption result (Unit {0}) (λ t. IsTermOf b.now coeff var t) }
{
    let low = b.low(var);
    let high = b.high(var);
    if !has_small_products(coeff, low, high) {
        return None;
    }
    let at_low = small_product(coeff, low);
    let at_high = small_product(coeff, high);
    Some(SmallTerm {
        least: at_low.min(at_high),
        greatest: at_low.max(at_high),
    })
}

/// Whether the products of the coefficient with both bounds are small: one look at the coefficient mostly says so.
fn has_small_products(coeff: i64, low: i64, high: i64) -> bool
    requires low { IsBound low }
    requires high { IsBound high }
    requires proper { low ≤ℤ high }
    ensures low { OnTrue result (unsigned_abs (coeff *ℤ low) ≤ small_product_limit) }
    ensures high { OnTrue result (unsigned_abs (coeff *ℤ high) ≤ small_product_limit) }
{
    is_slight(coeff) || are_small(coeff, low, high)
}

/// Whether the coefficient has small products with all bounds.
#[tactic(auto, unfolding(crate::specs::Short::slight_limit))]
fn is_slight(coeff: i64) -> bool
    ensures { OnTrue result (unsigned_abs coeff ≤ slight_limit) }
{
    -SLIGHT_LIMIT <= coeff && coeff <= SLIGHT_LIMIT
}

/// Whether the coefficient and the bounds are small.
#[tactic(auto, unfolding(crate::specs::Short::small_limit))]
fn are_small(coeff: i64, low: i64, high: i64) -> bool
    requires { low ≤ℤ high }
    ensures coefficient { OnTrue result (unsigned_abs coeff ≤ small_limit) }
    ensures low { OnTrue result (unsigned_abs low ≤ small_limit) }
    ensures high { OnTrue result (unsigned_abs high ≤ small_limit) }
{
    -SMALL_LIMIT <= coeff && coeff <= SMALL_LIMIT && -SMALL_LIMIT <= low && high <= SMALL_LIMIT
}

/// The product of two numbers, where it is small.
pub fn small_product(a: i64, z: i64) -> i64
    requires { unsigned_abs (a *ℤ z) ≤ small_product_limit }
    ensures value { result ≡ a *ℤ z }
    ensures in_range { unsigned_abs result ≤ small_product_limit }
{
    a * z
}

/// The sums with one more term, unless they get too large.
#[tactic(auto, unfolding(crate::specs::Short::short_sum_limit, crate::specs::Short::small_product_limit, crate::specs::Short::small_limit))]
pub fn sums_with(sums: Sums, term: SmallTerm) -> Option<Sums>
    requires sum_least { unsigned_abs sums.least ≤ short_sum_limit }
    requires sum_greatest { unsigned_abs sums.greatest ≤ short_sum_limit }
    requires term { IsSmallTerm term }
    ensures { MatchOption result (Unit {0}) (λ s. HasOneMore sums term s) }
{
    let least = sums.least + term.least;
    let greatest = sums.greatest + term.greatest;
    if !is_short(least) || !is_short(greatest) {
        return None;
    }
    Some(Sums {
        least,
        greatest,
        widest: sums.widest.max(term.greatest - term.least),
    })
}

/// Whether the sum is small enough for one more term.
#[tactic(auto, unfolding(crate::specs::Short::short_sum_limit))]
fn is_short(sum: i64) -> bool
    ensures { OnTrue result (unsigned_abs sum ≤ short_sum_limit) }
{
    -SHORT_SUM_LIMIT <= sum && sum <= SHORT_SUM_LIMIT
}
