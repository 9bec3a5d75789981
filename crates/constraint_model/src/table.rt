//! The constraints that are known, by name.

ghost use Rattle.std.specs.Prelude.{◌≡◌, ◌&&◌, map, find, bytes_eq, nat_eq, length, MatchOption, None, Some, is_some, true};
ghost use Rattle.std.specs.List.{list_all};
ghost use Rattle.constraint_model.specs.Table.{spelled, signatures};
ghost use Rattle.constraint_model.specs.Fits.{named, fits, all_fit, has_equal_lengths, fits_row, row_for, NamesAreFound, LettersAreThose};

use crate::kinds::{is_amount, is_constant};
use crate::meanings::{Array, Meaning, Scalar};

/// The name of a constraint of FlatZinc.
#[derive(Debug, Clone, Copy, PartialEq, Eq)]
pub enum ConstraintName {
    /// `int_eq`
    IntEq,
    /// `int_ne`
    IntNe,
    /// `int_le`
    IntLe,
    /// `int_lt`
    IntLt,
    /// `int_lin_eq`
    IntLinEq,
    /// `int_lin_ne`
    IntLinNe,
    /// `int_lin_le`
    IntLinLe,
    /// `int_eq_reif`
    IntEqReif,
    /// `int_ne_reif`
    IntNeReif,
    /// `int_le_reif`
    IntLeReif,
    /// `int_lt_reif`
    IntLtReif,
    /// `int_lin_eq_reif`
    IntLinEqReif,
    /// `int_lin_ne_reif`
    IntLinNeReif,
    /// `int_lin_le_reif`
    IntLinLeReif,
    /// `int_plus`
    IntPlus,
    /// `int_times`
    IntTimes,
    /// `int_div`
    IntDiv,
    /// `int_mod`
    IntMod,
    /// `int_abs`
    IntAbs,
    /// `int_max`
    IntMax,
    /// `int_min`
    IntMin,
    /// `array_int_maximum`
    ArrayIntMaximum,
    /// `array_int_minimum`
    ArrayIntMinimum,
    /// `array_int_element`
    ArrayIntElement,
    /// `array_var_int_element`
    ArrayVarIntElement,
    /// `array_bool_element`
    ArrayBoolElement,
    /// `array_var_bool_element`
    ArrayVarBoolElement,
    /// `set_in`
    SetIn,
    /// `set_in_reif`
    SetInReif,
    /// `bool2int`
    BoolToInt,
    /// `bool_eq`
    BoolEq,
    /// `bool_le`
    BoolLe,
    /// `bool_lt`
    BoolLt,
    /// `bool_eq_reif`
    BoolEqReif,
    /// `bool_le_reif`
    BoolLeReif,
    /// `bool_lt_reif`
    BoolLtReif,
    /// `bool_not`
    BoolNot,
    /// `bool_xor`
    BoolXor,
    /// `bool_and`
    BoolAnd,
    /// `bool_or`
    BoolOr,
    /// `array_bool_and`
    ArrayBoolAnd,
    /// `array_bool_or`
    ArrayBoolOr,
    /// `bool_clause`
    BoolClause,
    /// `bool_clause_reif`
    BoolClauseReif,
    /// `bool_lin_le`
    BoolLinLe,
    /// `bool_lin_eq`
    BoolLinEq,
    /// `pccp_all_different`
    PccpAllDifferent,
    /// `pccp_cumulative`
    PccpCumulative,
}

/// What an argument of a constraint has to be.
#[derive(Debug, Clone, Copy, PartialEq, Eq)]
pub enum Letter {
    /// An integer, constant or variable.
    Integer,
    /// A boolean, constant or variable.
    Boolean,
    /// An integer constant.
    Constant,
    /// A set of integers.
    Set,
    /// An array of integers.
    Integers,
    /// An array of booleans.
    Booleans,
    /// An array of integer constants: the coefficients of a linear constraint.
    Coefficients,
    /// An array of integer constants, each where a variable may be.
    Numbers,
    /// An array of boolean constants, each where a variable may be.
    Truths,
    /// An integer constant that isn't negative.
    Amount,
    /// An array of integer constants none of which is negative.
    Amounts,
}

/// What is said of a constraint.
struct Row {
    /// Its name.
    name: ConstraintName,
    /// How it is spelled.
    spelling: &'static str,
    /// What its arguments have to be. A name that may be called in two ways has two lists.
    signatures: &'static [&'static [Letter]],
}

/// The table, in the order of the names.
const TABLE: &[Row] = &[
    Row {
        name: ConstraintName::IntEq,
        spelling: "int_eq",
        signatures: &[&[Letter::Integer, Letter::Integer]],
    },
    Row {
        name: ConstraintName::IntNe,
        spelling: "int_ne",
        signatures: &[&[Letter::Integer, Letter::Integer]],
    },
    Row {
        name: ConstraintName::IntLe,
        spelling: "int_le",
        signatures: &[&[Letter::Integer, Letter::Integer]],
    },
    Row {
        name: ConstraintName::IntLt,
        spelling: "int_lt",
        signatures: &[&[Letter::Integer, Letter::Integer]],
    },
    Row {
        name: ConstraintName::IntLinEq,
        spelling: "int_lin_eq",
        signatures: &[&[Letter::Coefficients, Letter::Integers, Letter::Constant]],
    },
    Row {
        name: ConstraintName::IntLinNe,
        spelling: "int_lin_ne",
        signatures: &[&[Letter::Coefficients, Letter::Integers, Letter::Constant]],
    },
    Row {
        name: ConstraintName::IntLinLe,
        spelling: "int_lin_le",
        signatures: &[&[Letter::Coefficients, Letter::Integers, Letter::Constant]],
    },
    Row {
        name: ConstraintName::IntEqReif,
        spelling: "int_eq_reif",
        signatures: &[&[Letter::Integer, Letter::Integer, Letter::Boolean]],
    },
    Row {
        name: ConstraintName::IntNeReif,
        spelling: "int_ne_reif",
        signatures: &[&[Letter::Integer, Letter::Integer, Letter::Boolean]],
    },
    Row {
        name: ConstraintName::IntLeReif,
        spelling: "int_le_reif",
        signatures: &[&[Letter::Integer, Letter::Integer, Letter::Boolean]],
    },
    Row {
        name: ConstraintName::IntLtReif,
        spelling: "int_lt_reif",
        signatures: &[&[Letter::Integer, Letter::Integer, Letter::Boolean]],
    },
    Row {
        name: ConstraintName::IntLinEqReif,
        spelling: "int_lin_eq_reif",
        signatures: &[&[
            Letter::Coefficients,
            Letter::Integers,
            Letter::Constant,
            Letter::Boolean,
        ]],
    },
    Row {
        name: ConstraintName::IntLinNeReif,
        spelling: "int_lin_ne_reif",
        signatures: &[&[
            Letter::Coefficients,
            Letter::Integers,
            Letter::Constant,
            Letter::Boolean,
        ]],
    },
    Row {
        name: ConstraintName::IntLinLeReif,
        spelling: "int_lin_le_reif",
        signatures: &[&[
            Letter::Coefficients,
            Letter::Integers,
            Letter::Constant,
            Letter::Boolean,
        ]],
    },
    Row {
        name: ConstraintName::IntPlus,
        spelling: "int_plus",
        signatures: &[&[Letter::Integer, Letter::Integer, Letter::Integer]],
    },
    Row {
        name: ConstraintName::IntTimes,
        spelling: "int_times",
        signatures: &[&[Letter::Integer, Letter::Integer, Letter::Integer]],
    },
    Row {
        name: ConstraintName::IntDiv,
        spelling: "int_div",
        signatures: &[&[Letter::Integer, Letter::Integer, Letter::Integer]],
    },
    Row {
        name: ConstraintName::IntMod,
        spelling: "int_mod",
        signatures: &[&[Letter::Integer, Letter::Integer, Letter::Integer]],
    },
    Row {
        name: ConstraintName::IntAbs,
        spelling: "int_abs",
        signatures: &[&[Letter::Integer, Letter::Integer]],
    },
    Row {
        name: ConstraintName::IntMax,
        spelling: "int_max",
        signatures: &[&[Letter::Integer, Letter::Integer, Letter::Integer]],
    },
    Row {
        name: ConstraintName::IntMin,
        spelling: "int_min",
        signatures: &[&[Letter::Integer, Letter::Integer, Letter::Integer]],
    },
    Row {
        name: ConstraintName::ArrayIntMaximum,
        spelling: "array_int_maximum",
        signatures: &[&[Letter::Integer, Letter::Integers]],
    },
    Row {
        name: ConstraintName::ArrayIntMinimum,
        spelling: "array_int_minimum",
        signatures: &[&[Letter::Integer, Letter::Integers]],
    },
    Row {
        name: ConstraintName::ArrayIntElement,
        spelling: "array_int_element",
        signatures: &[&[Letter::Integer, Letter::Numbers, Letter::Integer]],
    },
    Row {
        name: ConstraintName::ArrayVarIntElement,
        spelling: "array_var_int_element",
        signatures: &[&[Letter::Integer, Letter::Integers, Letter::Integer]],
    },
    Row {
        name: ConstraintName::ArrayBoolElement,
        spelling: "array_bool_element",
        signatures: &[&[Letter::Integer, Letter::Truths, Letter::Boolean]],
    },
    Row {
        name: ConstraintName::ArrayVarBoolElement,
        spelling: "array_var_bool_element",
        signatures: &[&[Letter::Integer, Letter::Booleans, Letter::Boolean]],
    },
    Row {
        name: ConstraintName::SetIn,
        spelling: "set_in",
        signatures: &[&[Letter::Integer, Letter::Set]],
    },
    Row {
        name: ConstraintName::SetInReif,
        spelling: "set_in_reif",
        signatures: &[&[Letter::Integer, Letter::Set, Letter::Boolean]],
    },
    Row {
        name: ConstraintName::BoolToInt,
        spelling: "bool2int",
        signatures: &[&[Letter::Boolean, Letter::Integer]],
    },
    Row {
        name: ConstraintName::BoolEq,
        spelling: "bool_eq",
        signatures: &[&[Letter::Boolean, Letter::Boolean]],
    },
    Row {
        name: ConstraintName::BoolLe,
        spelling: "bool_le",
        signatures: &[&[Letter::Boolean, Letter::Boolean]],
    },
    Row {
        name: ConstraintName::BoolLt,
        spelling: "bool_lt",
        signatures: &[&[Letter::Boolean, Letter::Boolean]],
    },
    Row {
        name: ConstraintName::BoolEqReif,
        spelling: "bool_eq_reif",
        signatures: &[&[Letter::Boolean, Letter::Boolean, Letter::Boolean]],
    },
    Row {
        name: ConstraintName::BoolLeReif,
        spelling: "bool_le_reif",
        signatures: &[&[Letter::Boolean, Letter::Boolean, Letter::Boolean]],
    },
    Row {
        name: ConstraintName::BoolLtReif,
        spelling: "bool_lt_reif",
        signatures: &[&[Letter::Boolean, Letter::Boolean, Letter::Boolean]],
    },
    Row {
        name: ConstraintName::BoolNot,
        spelling: "bool_not",
        signatures: &[&[Letter::Boolean, Letter::Boolean]],
    },
    Row {
        name: ConstraintName::BoolXor,
        spelling: "bool_xor",
        signatures: &[
            &[Letter::Boolean, Letter::Boolean],
            &[Letter::Boolean, Letter::Boolean, Letter::Boolean],
        ],
    },
    Row {
        name: ConstraintName::BoolAnd,
        spelling: "bool_and",
        signatures: &[&[Letter::Boolean, Letter::Boolean, Letter::Boolean]],
    },
    Row {
        name: ConstraintName::BoolOr,
        spelling: "bool_or",
        signatures: &[&[Letter::Boolean, Letter::Boolean, Letter::Boolean]],
    },
    Row {
        name: ConstraintName::ArrayBoolAnd,
        spelling: "array_bool_and",
        signatures: &[&[Letter::Booleans, Letter::Boolean]],
    },
    Row {
        name: ConstraintName::ArrayBoolOr,
        spelling: "array_bool_or",
        signatures: &[&[Letter::Booleans, Letter::Boolean]],
    },
    Row {
        name: ConstraintName::BoolClause,
        spelling: "bool_clause",
        signatures: &[&[Letter::Booleans, Letter::Booleans]],
    },
    Row {
        name: ConstraintName::BoolClauseReif,
        spelling: "bool_clause_reif",
        signatures: &[&[Letter::Booleans, Letter::Booleans, Letter::Boolean]],
    },
    Row {
        name: ConstraintName::BoolLinLe,
        spelling: "bool_lin_le",
        signatures: &[&[Letter::Coefficients, Letter::Booleans, Letter::Constant]],
    },
    Row {
        name: ConstraintName::BoolLinEq,
        spelling: "bool_lin_eq",
        signatures: &[&[Letter::Coefficients, Letter::Booleans, Letter::Integer]],
    },
    Row {
        name: ConstraintName::PccpAllDifferent,
        spelling: "pccp_all_different",
        signatures: &[&[Letter::Integers]],
    },
    Row {
        name: ConstraintName::PccpCumulative,
        spelling: "pccp_cumulative",
        signatures: &[&[
            Letter::Integers,
            Letter::Amounts,
            Letter::Amounts,
            Letter::Amount,
        ]],
    },
];

/// The name of the first of these rows that is spelled so. Each of them is spelled as its name.
#[tactic(auto, using(crate::proofs::Finds::finds, crate::proofs::NameLaws::found_here))]
fn first_named(rows: &[Row], word: &[u8]) -> Option<ConstraintName>
    requires { list_all (λ row. bytes_eq row.spelling.now (spelled row.name)) rows.now ≡ true }
    ensures { result ≡ find (λ name. bytes_eq (spelled name) word.now) (map (λ row. row.name) rows.now) }
{
    for row in rows {
        if row.spelling.as_bytes() == word {
            return Some(row.name);
        }
    }
    None
}

impl ConstraintName {
    /// What is said of it.
    fn row(self) -> &'static Row
        ensures spelling { result.now.spelling.now ≡ spelled self }
        ensures signatures { map (λ letters. letters.now) result.now.signatures.now ≡ signatures self }
    {
        &TABLE[self as usize]
    }

    /// How it is spelled.
    pub fn text(self) -> &'static str
        ensures { result.now ≡ spelled self }
    {
        self.row().spelling
    }

    /// The name that is spelled so, where it is known.
    #[tactic(auto, unfolding(crate::specs::Fits::named))]
    pub fn named(word: &[u8]) -> Option<ConstraintName>
        ensures { result ≡ named word.now }
    {
        first_named(TABLE, word)
    }

    /// What its arguments have to be. A name that may be called in two ways has two lists.
    pub(crate) fn signatures(self) -> &'static [&'static [Letter]]
        ensures { map (λ letters. letters.now) result.now ≡ signatures self }
    {
        self.row().signatures
    }
}

/// Whether such an argument may be this boolean or integer.
fn scalar_fits(letter: Letter, scalar: Scalar) -> bool
    ensures { result ≡ fits letter (Meaning.One scalar) }
{
    match letter {
        Letter::Integer => !scalar.is_bool,
        Letter::Boolean => scalar.is_bool,
        Letter::Constant => !scalar.is_bool && is_constant(scalar),
        Letter::Amount => is_amount(scalar),
        _ => false,
    }
}

/// Whether it may be this array.
fn row_fits(letter: Letter, array: &Array) -> bool
    ensures { result ≡ fits letter (Meaning.Row array.now) }
{
    let entries = &array.entries;
    match letter {
        Letter::Integers => entries.are_integers(),
        Letter::Booleans => entries.are_booleans(),
        Letter::Coefficients | Letter::Numbers => entries.are_integers() && entries.are_constants(),
        Letter::Truths => entries.are_booleans() && entries.are_constants(),
        Letter::Amounts => entries.are_amounts(),
        _ => false,
    }
}

/// Whether such an argument may be this.
pub fn fits(letter: Letter, meaning: &Meaning) -> bool
    ensures { result ≡ fits letter meaning.now }
{
    match meaning {
        Meaning::One(scalar) => scalar_fits(letter, *scalar),
        Meaning::Row(array) => row_fits(letter, array),
        Meaning::Set(_) => matches!(letter, Letter::Set),
    }
}

/// Whether each argument fits its letter, and there is one for each.
#[tactic(auto, using(crate::proofs::FitLaws::unequal_fit))]
fn all_fit(letters: &[Letter], meanings: &[Meaning]) -> bool
    ensures { result ≡ all_fit letters.now meanings.now }
{
    if letters.len() != meanings.len() {
        return false;
    }
    for (place, letter) in letters.iter().enumerate() {
        if !fits(*letter, &meanings[place]) {
            return false;
        }
    }
    true
}

/// Whether three rows have the same length.
fn are_alike(first: &Array, second: &Array, third: &Array) -> bool
    ensures { result ≡ (nat_eq (length first.now.entries) (length second.now.entries) && nat_eq (length first.now.entries) (length third.now.entries)) }
{
    first.entries.len() == second.entries.len() && first.entries.len() == third.entries.len()
}

/// Whether a linear constraint has as many coefficients as variables, and tasks have a duration and a usage for each start.
fn has_equal_lengths(letters: &[Letter], meanings: &[Meaning]) -> bool
    ensures { result ≡ has_equal_lengths letters.now meanings.now }
{
    match letters {
        [Letter::Coefficients, ..] => match meanings {
            [Meaning::Row(coefficients), Meaning::Row(variables), ..] => {
                coefficients.entries.len() == variables.entries.len()
            }
            _ => true,
        },
        [Letter::Integers, Letter::Amounts, Letter::Amounts, ..] => match meanings {
            [
                Meaning::Row(starts),
                Meaning::Row(durations),
                Meaning::Row(usages),
                ..
            ] => are_alike(starts, durations, usages),
            _ => true,
        },
        _ => true,
    }
}

fn fits_row(meanings: &[Meaning], letters: &[Letter]) -> bool
    ensures { result ≡ fits_row meanings.now letters.now }
{
    all_fit(letters, meanings) && has_equal_lengths(letters, meanings)
}

/// What the arguments of this constraint have to be, of the ways in which it may be called the first that fits.
#[tactic(auto, using(crate::proofs::Finds::finds), unfolding(crate::specs::Fits::row_for))]
fn row_for(name: ConstraintName, meanings: &[Meaning]) -> Option<&'static [Letter]>
    ensures { MatchOption result (row_for name meanings.now ≡ None) (λ letters. row_for name meanings.now ≡ Some letters.now) }
{
    for letters in name.signatures() {
        if fits_row(meanings, letters) {
            return Some(letters);
        }
    }
    None
}

/// Whether the arguments fit one of the ways in which this constraint may be called.
pub fn fits_some_row(name: ConstraintName, meanings: &[Meaning]) -> bool
    ensures { result ≡ is_some (row_for name meanings.now) }
{
    row_for(name, meanings).is_some()
}

/// Each name is found by its spelling, and constants are counted by the letters that the arguments fit.
pub fn law_table()
    ensures names { NamesAreFound }
    ensures letters { LettersAreThose }
{}
