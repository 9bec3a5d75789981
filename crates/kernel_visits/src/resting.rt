//! How long a kernel needs no visit.

ghost use Rattle.std.specs.Prelude.{◌≡◌, ◌<◌, ◌≤ℤ◌, ◌<ℤ◌, ◌+ℤ◌, ◌⊎◌, pos, true, ◌∷◌, length, MatchOption};
ghost use Rattle.std.specs.Bool.{OnTrue};
ghost use Rattle.interval.specs.Limits.{IsNumber};
ghost use Rattle.interval.specs.Boxes.{low_of, high_of};
ghost use Rattle.guarded_tell.specs.Words.{AreVariables, IsProperIn};
ghost use Rattle.guarded_tell.specs.Words as words;
ghost use Rattle.clause_tells.specs.Clause.{AreLiterals};
ghost use Rattle.sum_tells.specs.Linear.{IsLinear};
ghost use Rattle.small_sums.specs.Short.{IsSmallTerm};
ghost use Rattle.kernel_visits.specs.Found.{IsSearched};
ghost use Rattle.guarded_tell.specs.Kernels.{vars_of, IsKernel};
ghost use Rattle.kernel_visits.specs.Shapes.{IsShapeOf};
ghost use Rattle.kernel_visits.specs.Rests.{IsAtMostFor, IsAtMostSettled, IsClauseFor, IsEitherFor, IsOpenSum, IsQuietFor, IsRest, IsSameFor, IsTripleFor, IsUnequalFor, AreTwoLeft};

use crate::quiet::{Hint, are_open_at, are_two_open, is_clause_quiet};
use crate::shape::{Shape, difference};
use clause_tells::Literals;
use guarded_tell::{Kernel, Lit};
use interval::{BoxOf, law_clamp_order, law_quotient_order};
use small_sums::{Pair, pair_leaves_room, pair_leaves_room_on_both_sides, sum};
use sum_tells::Extended;
use tells::{is_sure, stands_false, stands_true};

/// How long a kernel needs no visit.
#[derive(Clone, Copy, PartialEq, Eq, Debug)]
pub enum Rest {
    /// It needs one wherever a bound of its variables moves.
    Awake,
    /// It narrows nothing until another of its variables is fixed.
    UntilFixed,
    /// It is entailed: it narrows no box inside this one.
    ForGood,
}

/// How long the kernel is seen to need no visit, from this box on: by its shape, and where that says nothing, by the
/// places that the hint remembers alone.
#[inline(always)]
pub fn rest_of(k: &Kernel, shape: &Shape, b: &BoxOf, hint: Hint) -> Rest
    requires kernel { IsKernel (length b.now) k.now }
    requires shape { IsShapeOf k.now shape.now }
    requires proper { IsProperIn (vars_of k.now) b.now }
    ensures { IsRest k.now b.now result }
{
    match seen_rest(k, shape, b) {
        Some(rest) => rest,
        None => hinted_rest(k, b, hint),
    }
}

/// How long the kernel needs no visit, where its shape alone says that it narrows nothing.
#[inline(always)]
pub fn seen_rest(k: &Kernel, shape: &Shape, b: &BoxOf) -> Option<Rest>
    requires kernel { IsKernel (length b.now) k.now }
    requires shape { IsShapeOf k.now shape.now }
    requires proper { IsProperIn (vars_of k.now) b.now }
    ensures { MatchOption result (Unit {0}) (IsQuietFor k.now b.now) }
{
    law_quotient_order();
    law_clamp_order();
    match shape {
        Shape::AtMost { lit, x, y, limit } => at_most_rest(*lit, *limit, difference(*x, *y, b), b),
        Shape::Same { lit, x, y, limit } => same_rest(*lit, *limit, difference(*x, *y, b), b),
        Shape::Either { first, second } => either_rest(*first, *second, b),
        Shape::Triple {
            first,
            second,
            third,
        } => triple_rest(*first, *second, *third, b),
        Shape::Three { .. }
        | Shape::Product { .. }
        | Shape::Greatest { .. }
        | Shape::Slight
        | Shape::Other => None,
    }
}

/// The same of a sum of two terms that is at most the limit where the literal is true.
#[inline(always)]
pub fn at_most_rest(lit: Lit, limit: i64, pair: Pair, b: &BoxOf) -> Option<Rest>
    requires variable { lit.var < length b.now }
    requires proper { low_of b.now lit.var ≤ℤ high_of b.now lit.var }
    requires first { IsSmallTerm pair.first }
    requires second { IsSmallTerm pair.second }
    ensures { MatchOption result (Unit {0}) (IsAtMostFor b.now lit limit pair) }
{
    if is_at_most_settled(lit, limit, pair, b) {
        Some(Rest::ForGood)
    } else if pair_leaves_room(lit, limit, pair, b) {
        Some(Rest::Awake)
    } else {
        None
    }
}

/// The same of a sum of two terms that is the limit where the literal is true.
#[inline(always)]
pub fn same_rest(lit: Lit, limit: i64, pair: Pair, b: &BoxOf) -> Option<Rest>
    requires variable { lit.var < length b.now }
    requires proper { low_of b.now lit.var ≤ℤ high_of b.now lit.var }
    requires first { IsSmallTerm pair.first }
    requires second { IsSmallTerm pair.second }
    ensures { MatchOption result (Unit {0}) (IsSameFor b.now lit limit pair) }
{
    law_clamp_order();
    if stands_false(lit, b) {
        unequal_rest(limit, pair)
    } else if pair_leaves_room_on_both_sides(lit, limit, pair, b) {
        Some(Rest::Awake)
    } else {
        None
    }
}

/// The same of a sum of two terms that must not be the limit. Most have a fixed term and a limit between their sums.
#[inline(always)]
pub fn unequal_rest(limit: i64, pair: Pair) -> Option<Rest>
    requires first { IsSmallTerm pair.first }
    requires second { IsSmallTerm pair.second }
    ensures { MatchOption result (Unit {0}) (IsUnequalFor limit pair) }
{
    if lies_between(limit, pair) {
        if are_open(pair) {
            Some(Rest::UntilFixed)
        } else {
            Some(Rest::Awake)
        }
    } else if lies_outside(limit, pair) {
        Some(Rest::ForGood)
    } else if are_open(pair) {
        Some(Rest::UntilFixed)
    } else {
        None
    }
}

/// The same of a clause of two literals.
pub fn either_rest(first: Lit, second: Lit, b: &BoxOf) -> Option<Rest>
    requires first { first.var < length b.now }
    requires second { second.var < length b.now }
    requires proper_first { low_of b.now first.var ≤ℤ high_of b.now first.var }
    requires proper_second { low_of b.now second.var ≤ℤ high_of b.now second.var }
    ensures { MatchOption result (Unit {0}) (IsEitherFor first second b.now) }
{
    if stands_true(first, b) || stands_true(second, b) {
        Some(Rest::ForGood)
    } else if stands_false(first, b) || stands_false(second, b) {
        None
    } else {
        Some(Rest::Awake)
    }
}

/// The same of a clause of three literals.
pub fn triple_rest(first: Lit, second: Lit, third: Lit, b: &BoxOf) -> Option<Rest>
    requires first { first.var < length b.now }
    requires second { second.var < length b.now }
    requires third { third.var < length b.now }
    requires proper_first { low_of b.now first.var ≤ℤ high_of b.now first.var }
    requires proper_second { low_of b.now second.var ≤ℤ high_of b.now second.var }
    requires proper_third { low_of b.now third.var ≤ℤ high_of b.now third.var }
    ensures { MatchOption result (Unit {0}) (IsTripleFor first second third b.now) }
{
    if stands_true(first, b) || stands_true(second, b) || stands_true(third, b) {
        Some(Rest::ForGood)
    } else if are_two_left(first, second, third, b) {
        Some(Rest::Awake)
    } else {
        None
    }
}

/// Whether two of three literals aren't out.
fn are_two_left(first: Lit, second: Lit, third: Lit, b: &BoxOf) -> bool
    requires first { first.var < length b.now }
    requires second { second.var < length b.now }
    requires third { third.var < length b.now }
    requires proper_first { low_of b.now first.var ≤ℤ high_of b.now first.var }
    requires proper_second { low_of b.now second.var ≤ℤ high_of b.now second.var }
    requires proper_third { low_of b.now third.var ≤ℤ high_of b.now third.var }
    ensures { OnTrue result (AreTwoLeft first second third b.now) }
{
    if stands_false(first, b) {
        !stands_false(second, b) && !stands_false(third, b)
    } else {
        !stands_false(second, b) || !stands_false(third, b)
    }
}

/// How long the kernel needs no visit, by the places that the hint remembers.
#[tactic(auto, unfolding(guarded_tell::specs::Kernels::vars_of, guarded_tell::specs::Kernels::HasNumbers))]
fn hinted_rest(k: &Kernel, b: &BoxOf, hint: Hint) -> Rest
    requires kernel { IsKernel (length b.now) k.now }
    requires proper { IsProperIn (vars_of k.now) b.now }
    ensures { IsRest k.now b.now result }
{
    law_quotient_order();
    law_clamp_order();
    match k {
        Kernel::Clause { lits } => clause_rest(lits, hint, b),
        Kernel::Eq {
            lit,
            coeffs,
            vars,
            ..
        } => {
            if is_open_at(*lit, coeffs, vars, hint, b) {
                Rest::UntilFixed
            } else {
                Rest::Awake
            }
        }
        _ => Rest::Awake,
    }
}

/// How long the kernel needs no visit, where it is a clause that is seen to narrow nothing or an equation that must not hold
/// with two open terms. What the hint remembers is looked at first, and then the whole list.
#[tactic(auto, unfolding(guarded_tell::specs::Kernels::vars_of, guarded_tell::specs::Kernels::HasNumbers))]
pub fn listed_rest(k: &Kernel, b: &BoxOf, hint: &mut Hint) -> Option<Rest>
    requires kernel { IsKernel (length b.now) k.now }
    requires proper { IsProperIn (vars_of k.now) b.now }
    ensures { MatchOption result (IsSearched k.now b.now) (IsQuietFor k.now b.now) }
{
    law_quotient_order();
    law_clamp_order();
    match k {
        Kernel::Clause { lits } => {
            if is_clause_quiet(lits, b, hint) {
                Some(clause_rest(lits, *hint, b))
            } else {
                None
            }
        }
        Kernel::Eq {
            lit,
            coeffs,
            vars,
            ..
        } => {
            if is_open_sum(*lit, coeffs, vars, b, hint) {
                Some(Rest::UntilFixed)
            } else {
                None
            }
        }
        _ => None,
    }
}

/// How long a clause needs no visit: for good where the literal at the first place is sure.
fn clause_rest(lits: &Literals, hint: Hint, b: &BoxOf) -> Rest
    requires { AreLiterals (length b.now) lits.now }
    ensures { IsClauseFor lits.now hint.first b.now result }
{
    let place = hint.first as usize;
    if place < lits.len() && is_sure(lits.at(place), b) {
        Rest::ForGood
    } else {
        Rest::Awake
    }
}

/// Whether the equation must not hold and the terms at both places are open.
fn is_open_at(lit: Lit, coeffs: &Extended<i64>, vars: &Extended<u32>, hint: Hint, b: &BoxOf) -> bool
    requires linear { IsLinear coeffs.now vars.now (pos 0) }
    requires variables { AreVariables (length b.now) (lit.var ∷ vars.now) }
    requires proper { IsProperIn (lit.var ∷ vars.now) b.now }
    ensures { OnTrue result (IsOpenSum b.now lit coeffs.now vars.now) }
{
    if let (Some(coeffs), Some(vars)) = (coeffs.as_slice(), vars.as_slice()) {
        stands_false(lit, b) && are_open_at(coeffs, vars, hint, b)
    } else {
        false
    }
}

/// Whether the equation must not hold and two of its terms are open. Those that the hint remembers are looked at first.
fn is_open_sum(
    lit: Lit,
    coeffs: &Extended<i64>,
    vars: &Extended<u32>,
    b: &BoxOf,
    hint: &mut Hint,
) -> bool
    requires linear { IsLinear coeffs.now vars.now (pos 0) }
    requires variables { AreVariables (length b.now) (lit.var ∷ vars.now) }
    requires proper { IsProperIn (lit.var ∷ vars.now) b.now }
    ensures { OnTrue result (IsOpenSum b.now lit coeffs.now vars.now) }
{
    if let (Some(coeffs), Some(vars)) = (coeffs.as_slice(), vars.as_slice()) {
        stands_false(lit, b) && are_two_open(coeffs, vars, b, hint)
    } else {
        false
    }
}

/// Whether the literal is sure and the greatest sum of two terms at most the limit, or it is out and the least sum above it.
fn is_at_most_settled(lit: Lit, limit: i64, pair: Pair, b: &BoxOf) -> bool
    requires variable { lit.var < length b.now }
    requires proper { low_of b.now lit.var ≤ℤ high_of b.now lit.var }
    requires first { IsSmallTerm pair.first }
    requires second { IsSmallTerm pair.second }
    ensures { OnTrue result (IsAtMostSettled b.now lit limit pair) }
{
    if stands_true(lit, b) {
        sum(pair.first.greatest, pair.second.greatest) <= limit
    } else if stands_false(lit, b) {
        limit < sum(pair.first.least, pair.second.least)
    } else {
        false
    }
}

/// Whether the limit lies between the least and the greatest sum of two terms.
fn lies_between(limit: i64, pair: Pair) -> bool
    requires first { IsSmallTerm pair.first }
    requires second { IsSmallTerm pair.second }
    ensures least { OnTrue result ((pair.first.least +ℤ pair.second.least) <ℤ limit) }
    ensures greatest { OnTrue result (limit <ℤ (pair.first.greatest +ℤ pair.second.greatest)) }
{
    sum(pair.first.least, pair.second.least) < limit
        && limit < sum(pair.first.greatest, pair.second.greatest)
}

/// Whether the limit lies below the least sum of two terms, or above the greatest.
fn lies_outside(limit: i64, pair: Pair) -> bool
    requires first { IsSmallTerm pair.first }
    requires second { IsSmallTerm pair.second }
    ensures { OnTrue result ((limit <ℤ (pair.first.least +ℤ pair.second.least)) ⊎ ((pair.first.greatest +ℤ pair.second.greatest) <ℤ limit)) }
{
    limit < sum(pair.first.least, pair.second.least)
        || sum(pair.first.greatest, pair.second.greatest) < limit
}

/// Whether neither term is fixed.
fn are_open(pair: Pair) -> bool
    ensures first { OnTrue result (pair.first.least <ℤ pair.first.greatest) }
    ensures second { OnTrue result (pair.second.least <ℤ pair.second.greatest) }
{
    pair.first.least < pair.first.greatest && pair.second.least < pair.second.greatest
}
