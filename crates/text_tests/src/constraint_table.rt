//! The table of constraints: spellings, what each takes, and what it counts for.

ghost use Rattle.std.specs.Prelude.{[], All, IfOk};
ghost use Rattle.constraint_model.specs.Arrays.{HasNumber};

use constraint_model::{
    Array, ArrayTerms, Boxed, Constants, Constraint, ConstraintName, Entries, Meaning, Operand,
    Scalar, Term, add_constants, fits_some_row, kernel_count,
};
use list_of::ListOf;
use shared_list::SharedList;
use std::alloc::{AllocError, Global};
use std::test::Fail;

/// Words with the names that they are, if any.
const WORDS: &[(&str, Option<ConstraintName>)] = &[
    ("int_eq", Some(ConstraintName::IntEq)),
    ("bool2int", Some(ConstraintName::BoolToInt)),
    ("pccp_cumulative", Some(ConstraintName::PccpCumulative)),
    ("int_e", None),
    ("int_eqs", None),
    ("", None),
];

#[test]
fn a_name_is_found_by_its_whole_spelling(rt: HostRuntime) -> Result<(), Fail> {
    for (word, name) in WORDS {
        assert_eq!(rt; ConstraintName::named(word.as_bytes()), *name);
    }
    Ok(())
}

/// A boolean variable.
const FLAG: Scalar = Scalar {
    is_bool: true,
    term: Term::Var(0),
};

/// An integer variable.
const NUMBER: Scalar = Scalar {
    is_bool: false,
    term: Term::Var(1),
};

/// A number.
const TWO: Scalar = Scalar {
    is_bool: false,
    term: Term::Number(2),
};

/// An argument: a boolean or an integer, or an array of these.
enum Argument {
    One(Scalar),
    Row(&'static [Scalar]),
}

/// A name with arguments, and whether it takes them.
struct Case {
    name: ConstraintName,
    arguments: &'static [Argument],
    fits: bool,
}

const CASES: &[Case] = &[
    Case {
        name: ConstraintName::BoolXor,
        arguments: &[Argument::One(FLAG), Argument::One(FLAG)],
        fits: true,
    },
    Case {
        name: ConstraintName::BoolXor,
        arguments: &[
            Argument::One(FLAG),
            Argument::One(FLAG),
            Argument::One(FLAG),
        ],
        fits: true,
    },
    Case {
        name: ConstraintName::BoolXor,
        arguments: &[Argument::One(FLAG)],
        fits: false,
    },
    Case {
        name: ConstraintName::BoolXor,
        arguments: &[Argument::One(FLAG), Argument::One(NUMBER)],
        fits: false,
    },
    // lists of one length
    Case {
        name: ConstraintName::IntLinLe,
        arguments: &[
            Argument::Row(&[TWO, TWO]),
            Argument::Row(&[NUMBER, TWO]),
            Argument::One(TWO),
        ],
        fits: true,
    },
    Case {
        name: ConstraintName::IntLinLe,
        arguments: &[
            Argument::Row(&[TWO, TWO]),
            Argument::Row(&[NUMBER]),
            Argument::One(TWO),
        ],
        fits: false,
    },
    // a coefficient is no variable
    Case {
        name: ConstraintName::IntLinLe,
        arguments: &[
            Argument::Row(&[NUMBER]),
            Argument::Row(&[NUMBER]),
            Argument::One(TWO),
        ],
        fits: false,
    },
    Case {
        name: ConstraintName::IntLinLe,
        arguments: &[Argument::Row(&[]), Argument::Row(&[]), Argument::One(TWO)],
        fits: true,
    },
];

/// An array of these entries.
fn array(alloc: Global, entries: &[Scalar]) -> Result<Array, AllocError> {
    let entries = Entries::new(alloc, Vec::from_slice(alloc, entries)?)?;
    Ok(Array {
        entries,
        number: None,
    })
}

/// The meaning of an argument.
fn meaning(alloc: Global, argument: &Argument) -> Result<Meaning, AllocError> {
    match argument {
        Argument::One(scalar) => Ok(Meaning::One(*scalar)),
        Argument::Row(entries) => Ok(Meaning::Row(array(alloc, entries)?)),
    }
}

/// The meanings of arguments.
fn meanings(alloc: Global, arguments: &[Argument]) -> Result<Vec<Meaning>, AllocError> {
    let mut meanings = Vec::new(alloc);
    for argument in arguments {
        meanings.push(meaning(alloc, argument)?)?;
    }
    Ok(meanings)
}

/// Whether a name takes these arguments.
fn takes(alloc: Global, name: ConstraintName, arguments: &[Argument]) -> Result<bool, AllocError> {
    let meanings = meanings(alloc, arguments)?;
    Ok(fits_some_row(name, meanings.as_slice()))
}

#[test]
fn arguments_fit_or_do_not(rt: HostRuntime) -> Result<(), Fail> {
    for case in CASES {
        let fits = takes(rt.alloc(), case.name, case.arguments)?;
        assert_eq!(rt; fits, case.fits, "at {}", case.name.text());
    }
    Ok(())
}

/// The entries of a row.
fn row(alloc: Global, terms: &[Term]) -> Result<Operand, AllocError>
    ensures { IfOk result (λ operand. HasNumber [] operand) }
{
    let terms = SharedList::from_vec(Vec::from_slice(alloc, terms)?)?;
    let row = ArrayTerms {
        terms,
        number: None,
    };
    Ok(Operand::Row(Boxed::new(alloc, row)?))
}

/// A list of a row and a term.
fn row_and_term(alloc: Global, terms: &[Term], term: Term) -> Result<ListOf<Operand>, AllocError>
    ensures { IfOk result (λ operands. All (HasNumber []) operands) }
{
    let row = row(alloc, terms)?;
    Ok(ListOf::from_vec(vec![in alloc; row, Operand::One(term)]?))
}

/// The disjunction of a row of 0, a variable, 1 and 0, that is as 5 says.
fn disjunction(alloc: Global) -> Result<Constraint, AllocError>
    ensures { IfOk result (λ constraint. All (HasNumber []) constraint.operands) }
{
    let row = [
        Term::Number(0),
        Term::Var(3),
        Term::Number(1),
        Term::Number(0),
    ];
    Ok(Constraint {
        name: ConstraintName::ArrayBoolOr,
        operands: row_and_term(alloc, &row, Term::Number(5))?,
    })
}

#[test]
fn constraints_count_for_kernels_and_constants(rt: HostRuntime) -> Result<(), Fail> {
    let constraint = disjunction(rt.alloc())?;
    assert_eq!(rt; kernel_count(&constraint), 5);
    let mut found = Constants::new(rt.alloc());
    add_constants(&mut found, &constraint)?;
    assert_eq!(rt; found.as_slice(), [0, 5].as_slice());
    Ok(())
}
