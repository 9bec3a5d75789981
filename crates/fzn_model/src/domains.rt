//! The bounds of declared variables, and the constraints that declarations add.

ghost use Rattle.std.specs.Prelude.{◌≡◌, ℤ, fold, ◌++◌, ◌∷◌, [], map, IfOk, OnOk};
ghost use Rattle.fzn_model.specs.Effects as effects;

use crate::exprs::{number_at, set_at};
use crate::stop::Stop;
use crate::types::equality_name;
use constraint_model::{Boxed, Constraint, ConstraintName, LARGEST, Operand, Term};
use fzn_parser::tree::{SetLit, Shape};
use list_of::ListOf;
use shared_list::SharedList;
use std::alloc::Global;

fn low_of(range: &(i64, i64)) -> i64
    ensures { result ≡ range.now.0 }
{
    range.0
}

fn last_high(first: &(i64, i64), rest: &[(i64, i64)]) -> i64
    ensures { result ≡ fold (λ (high : ℤ) s. s.1) first.now.1 rest.now }
{
    let mut high = first.1;
    for range in rest {
        high = range.1;
    }
    high
}

/// The least and the greatest number of a set; 1 and 0 for the empty one.
fn hull(ranges: &[(i64, i64)]) -> (i64, i64)
    ensures { result ≡ effects.hull ranges.now }
{
    match ranges {
        [] => (1, 0),
        [first, rest @ ..] => (low_of(first), last_high(first, rest)),
    }
}

/// The bounds that a variable of this type starts with.
#[tactic(auto, unfolding(constraint_model::specs::Numbers::largest))]
pub(crate) fn bounds_of(alloc: Global, text: &[u8], shape: &Shape) -> Result<(i64, i64), Stop>
    ensures { IfOk result (λ b. b ≡ effects.bounds_of text.now shape.now) }
{
    match shape {
        Shape::VarBool => Ok((0, 1)),
        Shape::VarIn(SetLit::Range(low, high)) => {
            Ok((number_at(text, low), number_at(text, high)))
        }
        Shape::VarIn(set) => {
            let ranges = set_at(alloc, text, set)?;
            Ok(hull(ranges.as_slice()))
        }
        Shape::Bool | Shape::Int | Shape::Float | Shape::SetOfInt => Ok((-LARGEST, LARGEST)),
        Shape::VarInt | Shape::VarFloat | Shape::VarFloats(_, _) => Ok((-LARGEST, LARGEST)),
        Shape::VarSet | Shape::VarSetIn(_) => Ok((-LARGEST, LARGEST)),
    }
}

fn two_operands(alloc: Global, first: Operand, second: Operand) -> Result<ListOf<Operand>, Stop>
    ensures { IfOk result (λ os. os ≡ first ∷ second ∷ []) }
{
    let mut operands = ListOf::new(alloc);
    operands.push(first)?;
    operands.push(second)?;
    Ok(operands)
}

/// The constraint that a term is in a set.
pub(crate) fn membership(
    alloc: Global,
    term: Term,
    ranges: SharedList<(i64, i64)>,
) -> Result<Constraint, Stop>
    ensures { IfOk result (λ c. c ≡ effects.membership term ranges) }
{
    let set = Operand::Set(Boxed::new(alloc, ranges)?);
    let operands = two_operands(alloc, Operand::One(term), set)?;
    Ok(Constraint {
        name: ConstraintName::SetIn,
        operands,
    })
}

/// The constraint that two booleans, or two integers, are equal.
pub(crate) fn equality(
    alloc: Global,
    is_bool: bool,
    x: Term,
    term: Term,
) -> Result<Constraint, Stop>
    ensures { IfOk result (λ c. c ≡ effects.equality is_bool x term) }
{
    let operands = two_operands(alloc, Operand::One(x), Operand::One(term))?;
    Ok(Constraint {
        name: equality_name(is_bool),
        operands,
    })
}

/// Adds the constraint that a variable is in the set that it is declared with, where that has braces.
pub(crate) fn push_domain(
    alloc: Global,
    text: &[u8],
    shape: &Shape,
    x: Term,
    constraints: &mut ListOf<Constraint>,
) -> Result<(), Stop>
    ensures { OnOk result (constraints.new ≡ constraints.old ++ effects.domain_constraints text.now shape.now x) }
{
    if let Shape::VarIn(set) = shape {
        if let SetLit::Braces(_) = set {
            let ranges = set_at(alloc, text, set)?;
            constraints.push(membership(alloc, x, ranges)?)?;
        }
    }
    Ok(())
}

fn memberships(
    alloc: Global,
    ranges: &SharedList<(i64, i64)>,
    entries: &[Term],
) -> Result<ListOf<Constraint>, Stop>
    ensures { IfOk result (λ cs. cs ≡ map (λ t. effects.membership t ranges.now) entries.now) }
{
    let mut constraints = ListOf::new(alloc);
    for term in entries {
        let set = ranges.share(alloc)?;
        constraints.push(membership(alloc, *term, set)?)?;
    }
    Ok(constraints)
}

/// The constraints that the entries of an array are in the set of its elements' type.
pub(crate) fn element_constraints(
    alloc: Global,
    text: &[u8],
    shape: &Shape,
    entries: &[Term],
) -> Result<ListOf<Constraint>, Stop>
    ensures { IfOk result (λ cs. cs ≡ effects.element_constraints text.now shape.now entries.now) }
{
    match shape {
        Shape::VarIn(set) => {
            let ranges = set_at(alloc, text, set)?;
            memberships(alloc, &ranges, entries)
        }
        _ => Ok(ListOf::new(alloc)),
    }
}
