//! Constraints by the shape of their arguments. None holds of arguments of another shape.

ghost use Rattle.std.specs.Prelude.{◌≡◌, All};
ghost use Rattle.constraint_model.specs.Numbers.{IsInProfile};
ghost use Rattle.constraint_model.specs.Relations.{value};
ghost use Rattle.constraint_check.specs.Asked.{IsSmall, IsSmallRow};
ghost use Rattle.constraint_check.specs.Tests.{compares, gives, is_absolute, is_true, on_all_differ, on_clause, on_differing, on_entry, on_extreme, on_row_joined, on_set, on_sum, on_tasks, on_three, on_two, on_two_joined, passes, says, sum_compares};

use crate::comparing::{
    Comparison, Extreme, Junction, Operation, compares, compares_sum, gives, is_absolute, is_true,
    same,
};
use crate::rows::{all_differ, are_joined, is_clause, is_entry, is_extreme, is_in};
use crate::tasks::{Tasks, is_cumulative};
use crate::values::{sum_of, value_of};
use constraint_model::{Operand, Term};

/// What is asked of the values of arguments, by the arguments' shape.
#[derive(Debug, Clone, Copy, PartialEq, Eq)]
pub(crate) enum Test {
    /// Two numbers compare so.
    Two(Comparison),
    /// The third number is that of the first two.
    Three(Operation),
    /// A sum compares so with a number.
    Sum(Comparison),
    /// The second number is the first without its sign.
    Absolute,
    /// A number is the greatest or the least of an array.
    Extreme(Extreme),
    /// The entry of an array at a place, counted from 1, is a number.
    Entry,
    /// A number lies in a set.
    Member,
    /// Two booleans differ, or a third is true exactly where they do.
    Differing,
    /// A boolean is true exactly where both of two others are, or one of them is.
    TwoJoined(Junction),
    /// A boolean is true exactly where all of an array are, or one of them is.
    RowJoined(Junction),
    /// One boolean of an array is true, or one of another isn't.
    Clause,
    /// No two numbers of an array are the same.
    AllDifferent,
    /// Tasks use no more than a limit at any time.
    Tasks,
}

/// Whether arguments pass a test. Those of another shape don't.
pub(crate) fn passes(test: Test, operands: &[Operand], solution: &[i64]) -> bool
    requires numbers { All IsInProfile solution.now }
    requires small { All IsSmall operands.now }
    ensures { result ≡ passes test solution.now operands.now }
{
    match test {
        Test::Two(comparison) => two(comparison, operands, solution),
        Test::Three(operation) => three(operation, operands, solution),
        Test::Sum(comparison) => sum(comparison, operands, solution),
        Test::Absolute => absolute(operands, solution),
        Test::Extreme(which) => extreme(which, operands, solution),
        Test::Entry => entry(operands, solution),
        Test::Member => member(operands, solution),
        Test::Differing => differing(operands, solution),
        Test::TwoJoined(junction) => two_joined(junction, operands, solution),
        Test::RowJoined(junction) => row_joined(junction, operands, solution),
        Test::Clause => clause(operands, solution),
        Test::AllDifferent => differ(operands, solution),
        Test::Tasks => resource(operands, solution),
    }
}

/// Whether a boolean is true.
fn is_true_term(term: Term, solution: &[i64]) -> bool
    ensures { result ≡ is_true (value solution.now term) }
{
    is_true(value_of(term, solution))
}

/// Two numbers compare so.
fn two(comparison: Comparison, operands: &[Operand], solution: &[i64]) -> bool
    ensures { result ≡ on_two (compares comparison) solution.now operands.now }
{
    match operands {
        [Operand::One(x), Operand::One(y)] => {
            compares(comparison, value_of(*x, solution), value_of(*y, solution))
        }
        _ => false,
    }
}

/// The second number is the first without its sign.
fn absolute(operands: &[Operand], solution: &[i64]) -> bool
    ensures { result ≡ on_two is_absolute solution.now operands.now }
{
    match operands {
        [Operand::One(x), Operand::One(y)] => {
            is_absolute(value_of(*x, solution), value_of(*y, solution))
        }
        _ => false,
    }
}

/// The third number is that of the first two.
fn three(operation: Operation, operands: &[Operand], solution: &[i64]) -> bool
    ensures { result ≡ on_three (gives operation) solution.now operands.now }
{
    match operands {
        [Operand::One(x), Operand::One(y), Operand::One(z)] => gives(
            operation,
            value_of(*x, solution),
            value_of(*y, solution),
            value_of(*z, solution),
        ),
        _ => false,
    }
}

/// A boolean is true exactly where both of two others are, or one of them is.
fn two_joined(junction: Junction, operands: &[Operand], solution: &[i64]) -> bool
    ensures { result ≡ on_two_joined junction solution.now operands.now }
{
    match operands {
        [Operand::One(x), Operand::One(y), Operand::One(r)] => same(
            is_true_term(*r, solution),
            are_joined(junction, &[*x, *y], solution),
        ),
        _ => false,
    }
}

/// A boolean is true exactly where all of an array are, or one of them is.
fn row_joined(junction: Junction, operands: &[Operand], solution: &[i64]) -> bool
    ensures { result ≡ on_row_joined junction solution.now operands.now }
{
    match operands {
        [Operand::Row(row), Operand::One(r)] => same(
            is_true_term(*r, solution),
            are_joined(junction, row.terms.as_slice(), solution),
        ),
        _ => false,
    }
}

/// A number is the greatest or the least of an array.
fn extreme(extreme: Extreme, operands: &[Operand], solution: &[i64]) -> bool
    ensures { result ≡ on_extreme extreme solution.now operands.now }
{
    match operands {
        [Operand::One(m), Operand::Row(row)] => is_extreme(
            extreme,
            value_of(*m, solution),
            row.terms.as_slice(),
            solution,
        ),
        _ => false,
    }
}

/// The entry of an array at a place, counted from 1, is a number.
fn entry(operands: &[Operand], solution: &[i64]) -> bool
    ensures { result ≡ on_entry solution.now operands.now }
{
    match operands {
        [Operand::One(x), Operand::Row(row), Operand::One(c)] => is_entry(
            value_of(*x, solution),
            row.terms.as_slice(),
            value_of(*c, solution),
            solution,
        ),
        _ => false,
    }
}

/// A number lies in a set.
fn member(operands: &[Operand], solution: &[i64]) -> bool
    ensures { result ≡ on_set solution.now operands.now }
{
    match operands {
        [Operand::One(x), Operand::Set(ranges)] => {
            is_in(value_of(*x, solution), ranges.as_slice())
        }
        _ => false,
    }
}

/// No two numbers of an array are the same.
fn differ(operands: &[Operand], solution: &[i64]) -> bool
    ensures { result ≡ on_all_differ solution.now operands.now }
{
    match operands {
        [Operand::Row(row)] => all_differ(row.terms.as_slice(), solution),
        _ => false,
    }
}

/// Tasks use no more than a limit at any time.
fn resource(operands: &[Operand], solution: &[i64]) -> bool
    requires numbers { All IsInProfile solution.now }
    requires small { All IsSmall operands.now }
    ensures { result ≡ on_tasks solution.now operands.now }
{
    match operands {
        [
            Operand::Row(starts),
            Operand::Row(durations),
            Operand::Row(usages),
            Operand::One(limit),
        ] => {
            let tasks = Tasks {
                starts: starts.terms.as_slice(),
                durations: durations.terms.as_slice(),
                usages: usages.terms.as_slice(),
                limit: value_of(*limit, solution),
            };
            is_cumulative(&tasks, solution)
        }
        _ => false,
    }
}

/// One boolean of an array is true, or one of another isn't.
fn clause(operands: &[Operand], solution: &[i64]) -> bool
    ensures { result ≡ on_clause solution.now operands.now }
{
    match operands {
        [Operand::Row(positive), Operand::Row(negative)] => is_clause(
            positive.terms.as_slice(),
            negative.terms.as_slice(),
            solution,
        ),
        _ => false,
    }
}

/// Whether the sum of the products of coefficients and terms compares so with a limit.
fn sum_compares(
    comparison: Comparison,
    coefficients: &[Term],
    terms: &[Term],
    limit: Term,
    solution: &[i64],
) -> bool
    requires numbers { All IsInProfile solution.now }
    requires coefficients { IsSmallRow coefficients.now }
    requires terms { IsSmallRow terms.now }
    ensures { result ≡ sum_compares comparison solution.now coefficients.now terms.now limit }
{
    let sum = sum_of(coefficients, terms, solution);
    compares_sum(comparison, sum, value_of(limit, solution))
}

/// A sum compares so with a number.
fn sum(comparison: Comparison, operands: &[Operand], solution: &[i64]) -> bool
    requires numbers { All IsInProfile solution.now }
    requires small { All IsSmall operands.now }
    ensures { result ≡ on_sum comparison solution.now operands.now }
{
    match operands {
        [
            Operand::Row(coefficients),
            Operand::Row(terms),
            Operand::One(limit),
        ] => sum_compares(
            comparison,
            coefficients.terms.as_slice(),
            terms.terms.as_slice(),
            *limit,
            solution,
        ),
        _ => false,
    }
}

/// Two booleans differ, or a third is true exactly where they do.
fn differing(operands: &[Operand], solution: &[i64]) -> bool
    ensures { result ≡ on_differing solution.now operands.now }
{
    match operands {
        [Operand::One(x), Operand::One(y)] => are_different(*x, *y, solution),
        [Operand::One(x), Operand::One(y), Operand::One(r)] => same(
            is_true_term(*r, solution),
            are_different(*x, *y, solution),
        ),
        _ => false,
    }
}

/// Whether the numbers of two terms differ.
fn are_different(x: Term, y: Term, solution: &[i64]) -> bool
    ensures { result ≡ compares Comparison.Different (value solution.now x) (value solution.now y) }
{
    compares(
        Comparison::Different,
        value_of(x, solution),
        value_of(y, solution),
    )
}

/// Whether the last argument is true exactly where the others are as they have to be.
pub(crate) fn says(last: &Operand, is_met: bool, solution: &[i64]) -> bool
    ensures { result ≡ says solution.now last.now is_met }
{
    match last {
        Operand::One(r) => same(is_true_term(*r, solution), is_met),
        Operand::Row(_) | Operand::Set(_) => false,
    }
}
