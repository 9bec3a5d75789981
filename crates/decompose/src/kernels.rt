//! The kernels of constraints.

ghost use Rattle.std.specs.Prelude.{◌≡◌, ◌++◌, flat_map, All, IfOk, OnOk};
ghost use Rattle.constraint_model.specs.Arrays.{HasNumber, HaveNumbers};
ghost use Rattle.decompose.specs.Kernels.{kernels_on};
ghost use Rattle.decompose.specs.Places.{HasDeclared};

use crate::booleans::{clause, clause_reified, joined_row, joined_two};
use crate::comparisons::{AT_MOST, EQUAL, LESS, OPPOSITE, compare, compare_reified, exclusive_or};
use crate::globals::{all_different, cumulative};
use crate::places::{ALWAYS, NEVER, Places};
use crate::sums::{Relation, plus, sum, sum_equal, sum_reified};
use crate::terms::{
    Extreme, Operation, absolute, element, extreme_of_row, extreme_of_two, member, member_reified,
    operation_of_two,
};
use constraint_model::{Constraint, ConstraintName as Name};
use guarded_tell::Kernel;
use list_of::ListOf;
use std::alloc::{AllocError, Global};

/// Adds the kernels of a constraint to those of the constraints before it.
#[tactic(auto, unfolding(crate::specs::Kernels::row_of))]
fn add_kernels(
    alloc: Global,
    places: &Places,
    constraint: &Constraint,
    kernels: &mut ListOf<Kernel>,
) -> Result<(), AllocError>
    requires declared { All (HasDeclared places.now.numbering.count) constraint.now.operands }
    requires numbered { All (HasNumber places.now.arrays) constraint.now.operands }
    ensures { OnOk result (kernels.new ≡ kernels.old ++ kernels_on places.now.numbering constraint.now) }
{
    let operands = constraint.operands.as_slice();
    match constraint.name {
        Name::IntEq | Name::BoolToInt | Name::BoolEq => {
            compare(alloc, places, EQUAL, ALWAYS, operands, kernels)
        }
        Name::IntNe => compare(alloc, places, EQUAL, NEVER, operands, kernels),
        Name::IntLe | Name::BoolLe => compare(alloc, places, AT_MOST, ALWAYS, operands, kernels),
        Name::IntLt | Name::BoolLt => compare(alloc, places, LESS, ALWAYS, operands, kernels),
        Name::BoolNot => compare(alloc, places, OPPOSITE, ALWAYS, operands, kernels),
        Name::IntEqReif | Name::BoolEqReif => {
            compare_reified(alloc, places, EQUAL, true, operands, kernels)
        }
        Name::IntNeReif => compare_reified(alloc, places, EQUAL, false, operands, kernels),
        Name::IntLeReif | Name::BoolLeReif => {
            compare_reified(alloc, places, AT_MOST, true, operands, kernels)
        }
        Name::IntLtReif | Name::BoolLtReif => {
            compare_reified(alloc, places, LESS, true, operands, kernels)
        }
        Name::BoolXor => exclusive_or(alloc, places, operands, kernels),
        Name::IntLinEq => sum(alloc, places, Relation::Equal, ALWAYS, operands, kernels),
        Name::IntLinNe => sum(alloc, places, Relation::Equal, NEVER, operands, kernels),
        Name::IntLinLe | Name::BoolLinLe => {
            sum(alloc, places, Relation::AtMost, ALWAYS, operands, kernels)
        }
        Name::IntLinEqReif => sum_reified(alloc, places, Relation::Equal, true, operands, kernels),
        Name::IntLinNeReif => sum_reified(alloc, places, Relation::Equal, false, operands, kernels),
        Name::IntLinLeReif => sum_reified(alloc, places, Relation::AtMost, true, operands, kernels),
        Name::BoolLinEq => sum_equal(alloc, places, operands, kernels),
        Name::IntPlus => plus(alloc, places, operands, kernels),
        Name::IntTimes => operation_of_two(places, Operation::Product, operands, kernels),
        Name::IntDiv => operation_of_two(places, Operation::Quotient, operands, kernels),
        Name::IntMod => operation_of_two(places, Operation::Remainder, operands, kernels),
        Name::IntAbs => absolute(places, operands, kernels),
        Name::IntMax => extreme_of_two(alloc, places, Extreme::Greatest, operands, kernels),
        Name::IntMin => extreme_of_two(alloc, places, Extreme::Least, operands, kernels),
        Name::ArrayIntMaximum => extreme_of_row(
            alloc,
            places,
            Extreme::Greatest,
            operands,
            kernels,
        ),
        Name::ArrayIntMinimum => extreme_of_row(alloc, places, Extreme::Least, operands, kernels),
        Name::ArrayIntElement
        | Name::ArrayVarIntElement
        | Name::ArrayBoolElement
        | Name::ArrayVarBoolElement => element(alloc, places, operands, kernels),
        Name::SetIn => member(alloc, places, operands, kernels),
        Name::SetInReif => member_reified(alloc, places, operands, kernels),
        Name::BoolAnd => joined_two(alloc, places, false, operands, kernels),
        Name::BoolOr => joined_two(alloc, places, true, operands, kernels),
        Name::ArrayBoolAnd => joined_row(alloc, places, false, operands, kernels),
        Name::ArrayBoolOr => joined_row(alloc, places, true, operands, kernels),
        Name::BoolClause => clause(alloc, places, operands, kernels),
        Name::BoolClauseReif => clause_reified(alloc, places, operands, kernels),
        Name::PccpAllDifferent => all_different(alloc, places, operands, kernels),
        Name::PccpCumulative => cumulative(alloc, places, operands, kernels),
    }
}

/// The kernels of the constraints, in their order.
pub(crate) fn kernels_of(
    alloc: Global,
    places: &Places,
    constraints: &[Constraint],
) -> Result<ListOf<Kernel>, AllocError>
    requires declared { All (λ c. All (HasDeclared places.now.numbering.count) c.operands) constraints.now }
    requires numbered { HaveNumbers places.now.arrays constraints.now }
    ensures { IfOk result (λ kernels. kernels ≡ flat_map (kernels_on places.now.numbering) constraints.now) }
{
    let mut kernels = ListOf::new(alloc);
    for constraint in constraints {
        add_kernels(alloc, places, constraint, &mut kernels)?;
    }
    Ok(kernels)
}
