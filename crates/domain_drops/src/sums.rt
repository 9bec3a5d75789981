//! What sums are at least and at most on the hull of a mix.

ghost use Rattle.std.specs.Prelude.{◌≡◌, ◌<◌, ◌≤◌, ◌-ℤ◌, ◌+ℤ◌, pos, length, slice_index_or, unsigned_abs};
ghost use Rattle.std.specs.List.{zip};
ghost use Rattle.interval.specs.Limits.{IsBound, IsNumber, dividend_limit};
ghost use Rattle.guarded_tell.specs.Words.{AreVariables};
ghost use Rattle.sum_tells.specs.Linear.{least_of, greatest_of, sum_over, sum_limit, product_limit, IsLinear};
ghost use Rattle.sum_tells.specs.Equality as equality;
ghost use Rattle.bit_domain.specs.Mixes.{hull};

use crate::walk::NumberTest;
use bit_domain::MixOf;
use guarded_tell::Extended;

/// What a term, or a sum of terms, is at least and at most.
#[derive(Clone, Copy)]
pub(crate) struct Range {
    /// The least value.
    pub(crate) least: i128,
    /// The greatest value.
    pub(crate) greatest: i128,
}

/// A coefficient and its variable.
#[derive(Clone, Copy)]
pub(crate) struct Term {
    /// The coefficient.
    pub(crate) coeff: i64,
    /// The variable.
    pub(crate) var: u32,
}

/// What a term isn't to be.
#[derive(Clone, Copy)]
pub(crate) struct Product {
    /// The coefficient.
    pub(crate) coeff: i64,
    /// What the term isn't to be.
    pub(crate) room: i128,
}

impl NumberTest for Product {
    ghost is_ready = { λ p. IsNumber p.coeff };

    ghost test = { λ p z. equality.is_product p.coeff z p.room };

    fn passes(&self, value: i64) -> bool {
        is_product(self.coeff, value, self.room)
    }
}

/// Whether the coefficient isn't 0, and times this number it is `product`.
#[tactic(auto, unfolding(sum_tells::specs::Linear::product_limit, interval::specs::Limits::bound_limit, interval::specs::Limits::largest_number))]
fn is_product(coeff: i64, z: i64, product: i128) -> bool
    requires coefficient { IsNumber coeff }
    requires number { IsBound z }
    ensures { result ≡ equality.is_product coeff z product }
{
    coeff != 0 && is_same(coeff as i128 * z as i128, product)
}

/// Whether two numbers are the same.
fn is_same(y: i128, z: i128) -> bool
    ensures { result ≡ equality.is_same y z }
{
    y <= z && z <= y
}

/// The coefficient at a place.
fn coeff_at(coeffs: &Extended<i64>, place: usize) -> i64
    requires { place < length coeffs.now }
    ensures { result ≡ slice_index_or coeffs.now place (pos 0) }
{
    let (list, last) = coeffs.parts();
    match last {
        Some(last) if place == list.len() => last,
        _ => list.as_slice()[place],
    }
}

/// The term at a place.
pub(crate) fn term_at(coeffs: &Extended<i64>, vars: &Extended<u32>, place: usize) -> Term
    requires coefficient { place < length coeffs.now }
    requires variable { place < length vars.now }
    ensures coeff { result.coeff ≡ slice_index_or coeffs.now place (pos 0) }
    ensures var { result.var ≡ slice_index_or vars.now place 0 }
{
    Term {
        coeff: coeff_at(coeffs, place),
        var: vars.at(place),
    }
}

/// What the whole sum is at least and at most.
pub(crate) fn sum_range(coeffs: &Extended<i64>, vars: &Extended<u32>, m: &MixOf) -> Range
    requires linear { IsLinear coeffs.now vars.now (pos 0) }
    requires variables { AreVariables (length m.now) vars.now }
    ensures least { result.least ≡ sum_over (least_of (hull m.now)) (zip coeffs.now vars.now) }
    ensures greatest { result.greatest ≡ sum_over (greatest_of (hull m.now)) (zip coeffs.now vars.now) }
    ensures least_in_range { unsigned_abs result.least ≤ sum_limit }
    ensures greatest_in_range { unsigned_abs result.greatest ≤ sum_limit }
{
    let mut sum = Range {
        least: 0,
        greatest: 0,
    };
    for i in 0..vars.len() {
        let own = term_range(term_at(coeffs, vars, i), m);
        sum = sum_with(sum, own);
    }
    sum
}

/// The sum with one more term.
#[tactic(auto, unfolding(sum_tells::specs::Linear::sum_limit, sum_tells::specs::Linear::term_limit, sum_tells::specs::Linear::product_limit, interval::specs::Limits::bound_limit, interval::specs::Limits::largest_number))]
fn sum_with(sum: Range, own: Range) -> Range
    requires sum_least { unsigned_abs sum.least ≤ sum_limit }
    requires sum_greatest { unsigned_abs sum.greatest ≤ sum_limit }
    requires own_least { unsigned_abs own.least ≤ product_limit }
    requires own_greatest { unsigned_abs own.greatest ≤ product_limit }
    ensures least { result.least ≡ sum.least +ℤ own.least }
    ensures greatest { result.greatest ≡ sum.greatest +ℤ own.greatest }
{
    Range {
        least: sum.least + own.least,
        greatest: sum.greatest + own.greatest,
    }
}

/// What one term is at least and at most.
#[tactic(auto, unfolding(sum_tells::specs::Linear::least_of, sum_tells::specs::Linear::greatest_of))]
pub(crate) fn term_range(term: Term, m: &MixOf) -> Range
    requires coefficient { IsNumber term.coeff }
    requires variable { term.var < length m.now }
    ensures least { result.least ≡ least_of (hull m.now) (term.coeff, term.var) }
    ensures greatest { result.greatest ≡ greatest_of (hull m.now) (term.coeff, term.var) }
    ensures least_in_range { unsigned_abs result.least ≤ product_limit }
    ensures greatest_in_range { unsigned_abs result.greatest ≤ product_limit }
{
    let coeff = term.coeff as i128;
    let at_low = coeff * m.low(term.var) as i128;
    let at_high = coeff * m.high(term.var) as i128;
    Range {
        least: at_low.min(at_high),
        greatest: at_low.max(at_high),
    }
}

/// Whether the other terms of a sum are fixed: what they are at least and at most is the same.
#[tactic(auto, unfolding(sum_tells::specs::Linear::sum_limit, sum_tells::specs::Linear::term_limit, sum_tells::specs::Linear::product_limit, interval::specs::Limits::bound_limit, interval::specs::Limits::largest_number))]
pub(crate) fn are_others_fixed(own: Range, sum: Range) -> bool
    requires least_sum { unsigned_abs sum.least ≤ sum_limit }
    requires greatest_sum { unsigned_abs sum.greatest ≤ sum_limit }
    requires least_term { unsigned_abs own.least ≤ product_limit }
    requires greatest_term { unsigned_abs own.greatest ≤ product_limit }
    ensures { result ≡ equality.is_same (sum.least -ℤ own.least) (sum.greatest -ℤ own.greatest) }
{
    is_same(sum.least - own.least, sum.greatest - own.greatest)
}

/// What the values of the other terms of a sum leave for a term of the limit.
#[tactic(auto, unfolding(sum_tells::specs::Linear::sum_limit, sum_tells::specs::Linear::term_limit, sum_tells::specs::Linear::product_limit, interval::specs::Limits::bound_limit, interval::specs::Limits::largest_number, interval::specs::Limits::dividend_limit))]
pub(crate) fn room_for(limit: i64, sum: i128, own: i128) -> i128
    requires limit { IsNumber limit }
    requires sum { unsigned_abs sum ≤ sum_limit }
    requires own { unsigned_abs own ≤ product_limit }
    ensures value { result ≡ limit -ℤ (sum -ℤ own) }
    ensures in_range { unsigned_abs result ≤ dividend_limit }
{
    limit as i128 - (sum - own)
}
