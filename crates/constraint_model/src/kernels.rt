//! What a constraint counts for: its propagators, and the constants that it needs places for; and whether its lists are too
//! long.

ghost use Rattle.std.specs.Prelude.{◌≡◌, ◌≤◌, length, OnOk, OnErr, fold, flat_map, cond, []};
ghost use Rattle.std.specs.List.{All};
ghost use Rattle.constraint_model.specs.Arrays.{IsNumbered, HasNumber};
ghost use Rattle.constraint_model.specs.Fits.{IsFront, add_once, constants_in, constant_of, constants_of_operand, takes_variables, letters_of, constants_at, kernels_of, has_long_row};

use crate::constant_set::Constants;
use crate::model::{ArrayTerms, Constraint, Operand, Term};
use crate::table::{ConstraintName, Letter};
use std::alloc::AllocError;

/// The most variables that are told apart at once, and the most tasks of a resource.
const MOST_PLACES: usize = 256;

/// How many propagators a constraint is run as.
#[tactic(auto, unfolding(crate::specs::Fits::kernels_of))]
pub fn kernel_count(constraint: &Constraint) -> u64
    ensures { result ≡ kernels_of constraint.now }
{
    match constraint.name {
        ConstraintName::BoolAnd | ConstraintName::BoolOr => 3,
        ConstraintName::ArrayBoolAnd | ConstraintName::ArrayBoolOr => {
            match constraint.operands.as_slice() {
                [Operand::Row(row), ..] => row.terms.as_slice().len() as u64 + 1,
                _ => 1,
            }
        }
        ConstraintName::BoolClauseReif => match constraint.operands.as_slice() {
            [Operand::Row(positive), Operand::Row(negative), ..] => {
                positive.terms.as_slice().len() as u64 + negative.terms.as_slice().len() as u64 + 1
            }
            _ => 1,
        },
        _ => 1,
    }
}

/// Whether a list that may have only few places has too many: that of the variables that have to differ, or of the starts of
/// tasks.
pub fn has_long_row(constraint: &Constraint) -> bool
    ensures { result ≡ has_long_row constraint.now }
{
    match constraint.name {
        ConstraintName::PccpAllDifferent | ConstraintName::PccpCumulative => {
            match constraint.operands.as_slice() {
                [Operand::Row(row), ..] => row.terms.as_slice().len() > MOST_PLACES,
                _ => false,
            }
        }
        _ => false,
    }
}

/// Whether such an argument, or each entry of it, may be a variable.
fn takes_variables(letter: Letter) -> bool
    ensures { result ≡ takes_variables letter }
{
    !matches!(
        letter,
        Letter::Constant | Letter::Set | Letter::Coefficients | Letter::Amount | Letter::Amounts
    )
}

/// What the arguments of a constraint have to be, by their number.
#[tactic(auto, using(crate::proofs::Finds::finds))]
fn letters_of(constraint: &Constraint) -> &'static [Letter]
    ensures { result.now ≡ letters_of constraint.now }
{
    let count = constraint.operands.len();
    for letters in constraint.name.signatures() {
        if letters.len() == count {
            return letters;
        }
    }
    &[]
}

/// Adds the number of a term, where it is one other than 1, to those found so far. Where memory is refused, these are as
/// before.
pub fn add_constant(found: &mut Constants, term: Term) -> Result<(), AllocError>
    ensures added { OnOk result (found.new.numbers ≡ fold add_once found.old.numbers (constant_of term)) }
    ensures unchanged { OnErr result (found.new.numbers ≡ found.old.numbers) }
    ensures arrays { found.new.arrays ≡ found.old.arrays }
{
    match term {
        Term::Number(number) if number != 1 => found.add(number),
        _ => Ok(()),
    }
}

/// Adds those of these terms.
#[tactic(auto, using(crate::proofs::ConstantLaws::front_laws))]
fn add_terms(found: &mut Constants, terms: &[Term]) -> Result<(), AllocError>
    ensures kept { OnErr result (IsFront found.old.numbers found.new.numbers) }
    ensures added { OnOk result (found.new.numbers ≡ fold add_once found.old.numbers (flat_map constant_of terms.now)) }
    ensures arrays { found.new.arrays ≡ found.old.arrays }
{
    for term in terms {
        add_constant(found, *term)?;
    }
    Ok(())
}

/// Adds those of the entries of an array. A declared one that was counted before is passed over, since its constants are all
/// there.
fn add_row(found: &mut Constants, row: &ArrayTerms) -> Result<(), AllocError>
    requires { IsNumbered found.old.arrays row.now }
    ensures kept { OnErr result (IsFront found.old.numbers found.new.numbers) }
    ensures added { OnOk result (found.new.numbers ≡ fold add_once found.old.numbers (flat_map constant_of row.now.terms)) }
    ensures arrays { found.new.arrays ≡ found.old.arrays }
{
    if found.has_counted(row) {
        return Ok(());
    }
    add_terms(found, row.terms.as_slice())?;
    found.keep_row(row)
}

/// Adds those of an argument, where it may have variables.
#[tactic(auto, using(crate::proofs::ConstantLaws::front_laws))]
fn add_argument(found: &mut Constants, letter: Letter, operand: &Operand) -> Result<(), AllocError>
    requires { HasNumber found.old.arrays operand.now }
    ensures kept { OnErr result (IsFront found.old.numbers found.new.numbers) }
    ensures added { OnOk result (found.new.numbers ≡ fold add_once found.old.numbers (cond (takes_variables letter) (constants_of_operand operand.now) [])) }
    ensures arrays { found.new.arrays ≡ found.old.arrays }
{
    if !takes_variables(letter) {
        return Ok(());
    }
    match operand {
        Operand::One(term) => add_constant(found, *term),
        Operand::Row(row) => add_row(found, row),
        Operand::Set(_) => Ok(()),
    }
}

/// Adds the constants of a constraint to those found so far. Where memory is refused, these are as before.
#[tactic(auto, using(crate::proofs::ConstantLaws::front_laws), unfolding(crate::specs::Fits::constants_in))]
pub fn add_constants(found: &mut Constants, constraint: &Constraint) -> Result<(), AllocError>
    requires { All (HasNumber found.old.arrays) constraint.now.operands }
    ensures added { OnOk result (found.new.numbers ≡ fold add_once found.old.numbers (constants_in constraint.now)) }
    ensures unchanged { OnErr result (found.new.numbers ≡ found.old.numbers) }
    ensures arrays { found.new.arrays ≡ found.old.arrays }
{
    let count = found.len();
    let letters = letters_of(constraint);
    match add_arguments(found, letters, constraint.operands.as_slice()) {
        Ok(()) => Ok(()),
        Err(error) => {
            found.truncate(count);
            Err(error)
        }
    }
}

/// Adds those of the arguments at these letters.
#[tactic(auto, using(crate::proofs::ConstantLaws::constants_laws, crate::proofs::ConstantLaws::front_laws))]
fn add_arguments(
    found: &mut Constants,
    letters: &[Letter],
    operands: &[Operand],
) -> Result<(), AllocError>
    requires { All (HasNumber found.old.arrays) operands.now }
    ensures kept { OnErr result (IsFront found.old.numbers found.new.numbers) }
    ensures added { OnOk result (found.new.numbers ≡ fold add_once found.old.numbers (constants_at letters.now operands.now)) }
    ensures arrays { found.new.arrays ≡ found.old.arrays }
{
    for (place, letter) in letters.iter().enumerate() {
        if place >= operands.len() {
            return Ok(());
        }
        add_argument(found, *letter, &operands[place])?;
    }
    Ok(())
}
