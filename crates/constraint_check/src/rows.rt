//! Tests of rows of terms.

ghost use Rattle.std.specs.Prelude.{◌≡◌, not, int_le};
ghost use Rattle.std.specs.List.{list_all, list_any};
ghost use Rattle.std.specs.Ordering.{int_eq};
ghost use Rattle.constraint_model.specs.Relations.{value};
ghost use Rattle.constraint_check.specs.Tests.{all_differ, all_true, is_clause, is_entry, is_extreme, is_in, is_true, joined, some_true};

use crate::comparing::{Extreme, Junction, is_true};
use crate::values::value_of;
use constraint_model::Term;

/// Whether some of these booleans is true.
fn is_some_true(booleans: &[Term], solution: &[i64]) -> bool
    ensures { result ≡ some_true solution.now booleans.now }
{
    booleans
        .iter()
        .any(|term| is_true(value_of(*term, solution)))
}

/// Whether all of these booleans are true.
fn are_all_true(booleans: &[Term], solution: &[i64]) -> bool
    ensures { result ≡ all_true solution.now booleans.now }
{
    booleans
        .iter()
        .all(|term| is_true(value_of(*term, solution)))
}

/// Whether some of these booleans isn't true.
fn is_some_false(booleans: &[Term], solution: &[i64]) -> bool
    ensures { result ≡ list_any (λ t. not (is_true (value solution.now t))) booleans.now }
{
    booleans
        .iter()
        .any(|term| !is_true(value_of(*term, solution)))
}

/// Whether all or some of these booleans are true.
pub(crate) fn are_joined(junction: Junction, booleans: &[Term], solution: &[i64]) -> bool
    ensures { result ≡ joined junction solution.now booleans.now }
{
    match junction {
        Junction::All => are_all_true(booleans, solution),
        Junction::Some => is_some_true(booleans, solution),
    }
}

/// Whether one of the first booleans is true or one of the second isn't.
pub(crate) fn is_clause(positive: &[Term], negative: &[Term], solution: &[i64]) -> bool
    ensures { result ≡ is_clause solution.now positive.now negative.now }
{
    is_some_true(positive, solution) || is_some_false(negative, solution)
}

/// Whether one of the terms is this number.
fn has_number(terms: &[Term], number: i64, solution: &[i64]) -> bool
    ensures { result ≡ list_any (λ t. int_eq (value solution.now t) number) terms.now }
{
    terms.iter().any(|term| value_of(*term, solution) == number)
}

/// Whether no two of the terms have the same number.
#[tactic(auto, using(crate::proofs::TestLaws::differ_laws))]
pub(crate) fn all_differ(terms: &[Term], solution: &[i64]) -> bool
    ensures { result ≡ all_differ solution.now terms.now }
{
    for (place, term) in terms.iter().enumerate() {
        let (_, later) = terms.split_at(place + 1);
        if has_number(later, value_of(*term, solution), solution) {
            return false;
        }
    }
    true
}

/// Whether none of the terms is greater than this number.
fn are_at_most(terms: &[Term], number: i64, solution: &[i64]) -> bool
    ensures { result ≡ list_all (λ t. int_le (value solution.now t) number) terms.now }
{
    terms.iter().all(|term| value_of(*term, solution) <= number)
}

/// Whether none of the terms is less than this number.
fn are_at_least(terms: &[Term], number: i64, solution: &[i64]) -> bool
    ensures { result ≡ list_all (λ t. int_le number (value solution.now t)) terms.now }
{
    terms.iter().all(|term| number <= value_of(*term, solution))
}

/// Whether this number is the greatest or the least of the terms.
pub(crate) fn is_extreme(extreme: Extreme, number: i64, terms: &[Term], solution: &[i64]) -> bool
    ensures { result ≡ is_extreme extreme solution.now number terms.now }
{
    match extreme {
        Extreme::Greatest => {
            has_number(terms, number, solution) && are_at_most(terms, number, solution)
        }
        Extreme::Least => {
            has_number(terms, number, solution) && are_at_least(terms, number, solution)
        }
    }
}

/// Whether the term at this place, counted from 1, is this number.
pub(crate) fn is_entry(place: i64, terms: &[Term], number: i64, solution: &[i64]) -> bool
    ensures { result ≡ is_entry solution.now place terms.now number }
{
    if place < 1 {
        return false;
    }
    match terms.get(place.unsigned_abs() as usize - 1) {
        Some(term) => value_of(*term, solution) == number,
        None => false,
    }
}

/// Whether a number lies in one of these ranges.
pub(crate) fn is_in(number: i64, ranges: &[(i64, i64)]) -> bool
    ensures { result ≡ is_in number ranges.now }
{
    ranges
        .iter()
        .any(|range| range.0 <= number && number <= range.1)
}
