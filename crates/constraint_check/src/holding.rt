//! Whether a constraint holds.

ghost use Rattle.std.specs.Prelude.{◌≡◌, ◌≤◌, ◌↔◌, ℤ, List, length, All, IsTrue};
ghost use Rattle.constraint_model.specs.Numbers.{IsInProfile};
ghost use Rattle.constraint_model.specs.Relations.{Holds, HoldsOn};
ghost use Rattle.constraint_model.specs.WellFormed.{IsWellFormed};
ghost use Rattle.constraint_check.specs.Asked.{HoldsNumbered, IsSmall};
ghost use Rattle.constraint_check.specs.Decided.{Demanded};
ghost use Rattle.constraint_check.specs.Tests.{passes, is_met, reified};

use crate::comparing::{Comparison, Extreme, Junction, Operation};
use crate::shapes::{Test, passes, says};
use Demand::{Plain, Reified};
use constraint_model::{Constraint, ConstraintName as Name, FznModel, Operand};

/// What has to hold of the arguments of a constraint.
#[derive(Debug, Clone, Copy, PartialEq, Eq)]
enum Demand {
    /// They pass the test.
    Plain(Test),
    /// The last is true exactly where the others pass it.
    Reified(Test),
}

/// The table of tests: what has to hold of the arguments of each constraint.
#[tactic(auto, using(crate::proofs::HoldLaws::exactly), unfolding(constraint_model::specs::Table::HoldsOn))]
fn demand_of(name: Name) -> Demand
    ensures { (a : List ℤ) (operands : List Operand) → HoldsOn name a operands ↔ Demanded result a operands }
{
    match name {
        Name::IntEq | Name::BoolToInt | Name::BoolEq => Plain(Test::Two(Comparison::Equal)),
        Name::IntNe | Name::BoolNot => Plain(Test::Two(Comparison::Different)),
        Name::IntLe | Name::BoolLe => Plain(Test::Two(Comparison::AtMost)),
        Name::IntLt | Name::BoolLt => Plain(Test::Two(Comparison::Less)),
        Name::IntLinEq | Name::BoolLinEq => Plain(Test::Sum(Comparison::Equal)),
        Name::IntLinNe => Plain(Test::Sum(Comparison::Different)),
        Name::IntLinLe | Name::BoolLinLe => Plain(Test::Sum(Comparison::AtMost)),
        Name::IntEqReif | Name::BoolEqReif => Reified(Test::Two(Comparison::Equal)),
        Name::IntNeReif => Reified(Test::Two(Comparison::Different)),
        Name::IntLeReif | Name::BoolLeReif => Reified(Test::Two(Comparison::AtMost)),
        Name::IntLtReif | Name::BoolLtReif => Reified(Test::Two(Comparison::Less)),
        Name::IntLinEqReif => Reified(Test::Sum(Comparison::Equal)),
        Name::IntLinNeReif => Reified(Test::Sum(Comparison::Different)),
        Name::IntLinLeReif => Reified(Test::Sum(Comparison::AtMost)),
        Name::IntPlus => Plain(Test::Three(Operation::Sum)),
        Name::IntTimes => Plain(Test::Three(Operation::Product)),
        Name::IntDiv => Plain(Test::Three(Operation::Quotient)),
        Name::IntMod => Plain(Test::Three(Operation::Remainder)),
        Name::IntAbs => Plain(Test::Absolute),
        Name::IntMax => Plain(Test::Three(Operation::Greatest)),
        Name::IntMin => Plain(Test::Three(Operation::Least)),
        Name::ArrayIntMaximum => Plain(Test::Extreme(Extreme::Greatest)),
        Name::ArrayIntMinimum => Plain(Test::Extreme(Extreme::Least)),
        Name::ArrayIntElement
        | Name::ArrayVarIntElement
        | Name::ArrayBoolElement
        | Name::ArrayVarBoolElement => Plain(Test::Entry),
        Name::SetIn => Plain(Test::Member),
        Name::SetInReif => Reified(Test::Member),
        Name::BoolXor => Plain(Test::Differing),
        Name::BoolAnd => Plain(Test::TwoJoined(Junction::All)),
        Name::BoolOr => Plain(Test::TwoJoined(Junction::Some)),
        Name::ArrayBoolAnd => Plain(Test::RowJoined(Junction::All)),
        Name::ArrayBoolOr => Plain(Test::RowJoined(Junction::Some)),
        Name::BoolClause => Plain(Test::Clause),
        Name::BoolClauseReif => Reified(Test::Clause),
        Name::PccpAllDifferent => Plain(Test::AllDifferent),
        Name::PccpCumulative => Plain(Test::Tasks),
    }
}

/// Whether the last argument is true exactly where the others pass a test.
fn reified(test: Test, operands: &[Operand], solution: &[i64]) -> bool
    requires numbers { All IsInProfile solution.now }
    requires small { All IsSmall operands.now }
    ensures { result ≡ reified (passes test solution.now) solution.now operands.now }
{
    match operands.split_last() {
        Some((last, others)) => says(last, passes(test, others, solution), solution),
        None => false,
    }
}

/// Whether what is demanded holds of the arguments.
fn is_met(demand: Demand, operands: &[Operand], solution: &[i64]) -> bool
    requires numbers { All IsInProfile solution.now }
    requires small { All IsSmall operands.now }
    ensures { result ≡ is_met demand solution.now operands.now }
{
    match demand {
        Plain(test) => passes(test, operands, solution),
        Reified(test) => reified(test, operands, solution),
    }
}

/// Whether a constraint holds of these numbers for its variables.
pub fn holds(constraint: &Constraint, solution: &[i64]) -> bool
    requires numbers { All IsInProfile solution.now }
    requires small { All IsSmall constraint.now.operands }
    ensures { IsTrue result ↔ Holds constraint.now solution.now }
{
    is_met(
        demand_of(constraint.name),
        constraint.operands.as_slice(),
        solution,
    )
}

/// Whether the constraint of this number, from 1 to how many there are, holds of these numbers for the variables.
pub fn holds_now(model: &FznModel, number: usize, solution: &[i64]) -> bool
    requires model { IsWellFormed model.now }
    requires numbers { All IsInProfile solution.now }
    requires from_one { 1 ≤ number }
    requires within { number ≤ length model.now.constraints }
    ensures { IsTrue result ↔ HoldsNumbered model.now solution.now number }
{
    let place = number - 1;
    holds(&model.constraints.as_slice()[place], solution)
}
