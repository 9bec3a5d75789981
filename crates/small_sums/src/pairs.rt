//! Sums of two terms.

ghost use Rattle.std.specs.Prelude.{◌≡◌, ◌≢◌, ◌<◌, ◌≤◌, ◌≤ℤ◌, ◌<ℤ◌, ◌+ℤ◌, pos, negsuc, unsigned_abs, length, MatchOption};
ghost use Rattle.std.specs.Bool.{OnTrue};
ghost use Rattle.interval.specs.Boxes.{low_of, high_of};
ghost use Rattle.tells.specs.Words.{AreVariables, IsProperIn};
ghost use Rattle.sum_tells.specs.Linear.{IsLinear};
ghost use Rattle.small_sums.specs.Short.{small_product_limit, IsSmallTerm, IsTermOf, IsPairOf, IsPairAtMostQuiet, IsPairUnequalQuiet, IsPairEquationQuiet};

use crate::short::{SmallTerm, small_term};
use interval::BoxOf;
use tells::{Lit, stands_false, stands_true};

/// What the two terms of a sum are at least and at most.
#[derive(Clone, Copy)]
pub struct Pair {
    /// The first term.
    pub first: SmallTerm,
    /// The second term.
    pub second: SmallTerm,
}

/// What the two terms are at least and at most, unless some number is too large for 64 bits.
pub fn pair_of(coeffs: &[i64], vars: &[u32], b: &BoxOf) -> Option<Pair>
    requires two { length coeffs.now ≡ 2 }
    requires linear { IsLinear coeffs.now vars.now (pos 0) }
    requires variables { AreVariables (length b.now) vars.now }
    requires proper { IsProperIn vars.now b.now }
    ensures { MatchOption result (Unit {0}) (λ p. IsPairOf b.now coeffs.now vars.now p) }
{
    let first = term_of(coeffs[0], vars[0], b)?;
    let second = term_of(coeffs[1], vars[1], b)?;
    Some(Pair { first, second })
}

/// What the term is at least and at most, unless its numbers are too large. Most coefficients are 1 or -1.
fn term_of(coeff: i64, var: u32, b: &BoxOf) -> Option<SmallTerm>
    requires variable { var < length b.now }
    requires proper { low_of b.now var ≤ℤ high_of b.now var }
    ensures { MatchOption result (Unit {0}) (λ t. IsTermOf b.now coeff var t) }
{
    match coeff {
        1 => Some(plain(var, b)),
        -1 => Some(opposite(var, b)),
        _ => small_term(coeff, var, b),
    }
}

/// What the variable is at least and at most.
pub fn plain(var: u32, b: &BoxOf) -> SmallTerm
    requires variable { var < length b.now }
    requires proper { low_of b.now var ≤ℤ high_of b.now var }
    ensures { IsTermOf b.now (pos 1) var result }
{
    SmallTerm {
        least: b.low(var),
        greatest: b.high(var),
    }
}

/// What the opposite of the variable is at least and at most.
#[tactic(auto, unfolding(interval::specs::Limits::bound_limit, interval::specs::Limits::largest_number))]
pub fn opposite(var: u32, b: &BoxOf) -> SmallTerm
    requires variable { var < length b.now }
    requires proper { low_of b.now var ≤ℤ high_of b.now var }
    ensures { IsTermOf b.now (negsuc 0) var result }
{
    SmallTerm {
        least: -b.high(var),
        greatest: -b.low(var),
    }
}

/// Whether the sum of the two terms leaves room to the limit for each of them.
pub fn pair_leaves_room(lit: Lit, limit: i64, pair: Pair, b: &BoxOf) -> bool
    requires variable { lit.var < length b.now }
    requires proper { low_of b.now lit.var ≤ℤ high_of b.now lit.var }
    requires first { IsSmallTerm pair.first }
    requires second { IsSmallTerm pair.second }
    ensures { OnTrue result (IsPairAtMostQuiet b.now lit limit pair) }
{
    if stands_true(lit, b) {
        sum(pair.first.greatest, pair.second.least) <= limit
            && sum(pair.first.least, pair.second.greatest) <= limit
    } else if stands_false(lit, b) {
        limit < sum(pair.first.greatest, pair.second.least)
            && limit < sum(pair.first.least, pair.second.greatest)
    } else {
        sum(pair.first.least, pair.second.least) <= limit
            && limit < sum(pair.first.greatest, pair.second.greatest)
    }
}

/// Whether the sum of the two terms leaves room to the limit, on either side, for each of them.
pub fn pair_leaves_room_on_both_sides(lit: Lit, limit: i64, pair: Pair, b: &BoxOf) -> bool
    requires variable { lit.var < length b.now }
    requires proper { low_of b.now lit.var ≤ℤ high_of b.now lit.var }
    requires first { IsSmallTerm pair.first }
    requires second { IsSmallTerm pair.second }
    ensures { OnTrue result (IsPairEquationQuiet b.now lit limit pair) }
{
    if stands_true(lit, b) {
        pair_meets_limit(limit, pair)
    } else if stands_false(lit, b) {
        pair_leaves_bounds_alone(limit, pair)
    } else {
        pair_crosses_limit(limit, pair)
    }
}

/// Whether neither term is fixed, or the limit is neither the least nor the greatest sum.
fn pair_leaves_bounds_alone(limit: i64, pair: Pair) -> bool
    requires first { IsSmallTerm pair.first }
    requires second { IsSmallTerm pair.second }
    ensures { OnTrue result (IsPairUnequalQuiet limit pair) }
{
    if pair.first.least < pair.first.greatest && pair.second.least < pair.second.greatest {
        true
    } else {
        is_neither_sum(limit, pair)
    }
}

/// Whether the limit is neither the least nor the greatest sum.
fn is_neither_sum(limit: i64, pair: Pair) -> bool
    requires first { IsSmallTerm pair.first }
    requires second { IsSmallTerm pair.second }
    ensures least { OnTrue result (limit ≢ (pair.first.least +ℤ pair.second.least)) }
    ensures greatest { OnTrue result (limit ≢ (pair.first.greatest +ℤ pair.second.greatest)) }
{
    is_apart(limit, sum(pair.first.least, pair.second.least))
        && is_apart(limit, sum(pair.first.greatest, pair.second.greatest))
}

/// Whether each term at its greatest and the other at its least have the limit as their sum.
fn pair_meets_limit(limit: i64, pair: Pair) -> bool
    requires first { IsSmallTerm pair.first }
    requires second { IsSmallTerm pair.second }
    ensures first { OnTrue result (limit ≡ (pair.first.greatest +ℤ pair.second.least)) }
    ensures second { OnTrue result (limit ≡ (pair.first.least +ℤ pair.second.greatest)) }
{
    is_same(limit, sum(pair.first.greatest, pair.second.least))
        && is_same(limit, sum(pair.first.least, pair.second.greatest))
}

/// Whether the limit lies between the least and the greatest sum, which aren't the same.
fn pair_crosses_limit(limit: i64, pair: Pair) -> bool
    requires first { IsSmallTerm pair.first }
    requires second { IsSmallTerm pair.second }
    ensures least { OnTrue result ((pair.first.least +ℤ pair.second.least) ≤ℤ limit) }
    ensures greatest { OnTrue result (limit ≤ℤ (pair.first.greatest +ℤ pair.second.greatest)) }
    ensures wide { OnTrue result ((pair.first.least +ℤ pair.second.least) <ℤ (pair.first.greatest +ℤ pair.second.greatest)) }
{
    let least = sum(pair.first.least, pair.second.least);
    let greatest = sum(pair.first.greatest, pair.second.greatest);
    if least < greatest {
        least <= limit && limit <= greatest
    } else {
        false
    }
}

/// Whether the numbers are the same.
fn is_same(y: i64, z: i64) -> bool
    ensures { OnTrue result (y ≡ z) }
{
    y <= z && z <= y
}

/// Whether the numbers differ.
pub fn is_apart(y: i64, z: i64) -> bool
    ensures { OnTrue result (y ≢ z) }
{
    y < z || z < y
}

/// The sum of two small numbers.
#[tactic(auto, unfolding(crate::specs::Short::small_product_limit, crate::specs::Short::small_limit))]
pub fn sum(a: i64, z: i64) -> i64
    requires first { unsigned_abs a ≤ small_product_limit }
    requires second { unsigned_abs z ≤ small_product_limit }
    ensures { result ≡ a +ℤ z }
{
    a + z
}
