//! The texts of solutions and of marks, worked out by hand.

use constraint_model::{FznModel, Goal, Output, Term};
use fzn_print::{Mark, mark_text, print_solution};
use list_of::ListOf;
use shared_list::SharedList;
use std::alloc::{AllocError, Global};
use std::test::Fail;

const YES: Term = Term::Number(1);

const NO: Term = Term::Number(0);

/// The value that an answer gives a name: one, or index sets with entries.
#[derive(Clone, Copy)]
enum Value {
    One(Term),
    Row(&'static [(i64, i64)], &'static [Term]),
}

/// An output: its name, whether it is written in booleans, and the value behind its name.
type Line = (&'static str, bool, Value);

/// A list of these.
fn list_of_all<T: Copy>(alloc: Global, items: &[T]) -> Result<ListOf<T>, AllocError> {
    Ok(ListOf::from_vec(Vec::from_slice(alloc, items)?))
}

/// A shared list of these.
fn shared(alloc: Global, terms: &[Term]) -> Result<SharedList<Term>, AllocError> {
    SharedList::from_vec(Vec::from_slice(alloc, terms)?)
}

/// The output that a line describes.
fn output_of(alloc: Global, line: &Line) -> Result<Output, AllocError> {
    let (name, is_bool, value) = *line;
    let name = list_of_all(alloc, name.as_bytes())?;
    match value {
        Value::One(value) => Ok(Output::Scalar {
            name,
            is_bool,
            value,
        }),
        Value::Row(ranges, entries) => Ok(Output::Array {
            name,
            is_bool,
            ranges: list_of_all(alloc, ranges)?,
            entries: shared(alloc, entries)?,
        }),
    }
}

/// The outputs that lines describe.
fn outputs_of(alloc: Global, lines: &[Line]) -> Result<ListOf<Output>, AllocError> {
    let mut output = ListOf::new(alloc);
    for line in lines {
        output.push(output_of(alloc, line)?)?;
    }
    Ok(output)
}

/// A model with these outputs and nothing else.
fn model_of(alloc: Global, lines: &[Line]) -> Result<FznModel, AllocError> {
    let output = outputs_of(alloc, lines)?;
    Ok(FznModel {
        vars: ListOf::new(alloc),
        arrays: ListOf::new(alloc),
        constraints: ListOf::new(alloc),
        search: ListOf::new(alloc),
        goal: Goal::Satisfy,
        output,
    })
}

/// Whether the solution of a model with these outputs is written so.
fn is_written(
    alloc: Global,
    lines: &[Line],
    solution: &[i64],
    text: &str,
) -> Result<bool, AllocError> {
    let model = model_of(alloc, lines)?;
    match print_solution(alloc, &model, solution) {
        Ok(written) => Ok(written.as_slice() == text.as_bytes()),
        Err(_) => Err(AllocError),
    }
}

/// The solution of the tables of single lines.
const SOLUTION: &[i64] = &[7, -12, 0, 1];

/// Lines of a model, and the text of a solution.
type Case = (&'static [Line], &'static [i64], &'static str);

/// Values.
const SCALARS: &[Case] = &[
    (
        &[("x", false, Value::One(Term::Var(0)))],
        SOLUTION,
        "x = 7;\n----------\n",
    ),
    (
        &[("y", false, Value::One(Term::Var(1)))],
        SOLUTION,
        "y = -12;\n----------\n",
    ),
    (
        &[("x_0_", false, Value::One(Term::Var(2)))],
        SOLUTION,
        "x_0_ = 0;\n----------\n",
    ),
    (
        &[("_late", true, Value::One(Term::Var(2)))],
        SOLUTION,
        "_late = false;\n----------\n",
    ),
    (
        &[("early", true, Value::One(Term::Var(3)))],
        SOLUTION,
        "early = true;\n----------\n",
    ),
    (
        &[("p", false, Value::One(Term::Number(-1)))],
        SOLUTION,
        "p = -1;\n----------\n",
    ),
    (
        &[("top", false, Value::One(Term::Number(140737488355327)))],
        SOLUTION,
        "top = 140737488355327;\n----------\n",
    ),
    (
        &[("least", false, Value::One(Term::Number(i64::MIN)))],
        SOLUTION,
        "least = -9223372036854775808;\n----------\n",
    ),
    (
        &[("q", true, Value::One(YES))],
        SOLUTION,
        "q = true;\n----------\n",
    ),
    (
        &[("q", true, Value::One(NO))],
        SOLUTION,
        "q = false;\n----------\n",
    ),
    (
        &[("q", true, Value::One(Term::Number(2)))],
        SOLUTION,
        "q = true;\n----------\n",
    ),
    (
        &[("q", true, Value::One(Term::Number(-1)))],
        SOLUTION,
        "q = false;\n----------\n",
    ),
];

/// Arrays of one index set, empty ones, and those of more index sets.
const ARRAYS: &[Case] = &[
    // of one index set
    (
        &[(
            "a",
            false,
            Value::Row(&[(1, 3)], &[Term::Var(0), Term::Var(1), Term::Number(3)]),
        )],
        SOLUTION,
        "a = array1d(1..3, [7, -12, 3]);\n----------\n",
    ),
    (
        &[(
            "a",
            false,
            Value::Row(&[(-1, 1)], &[Term::Var(0), Term::Var(1), Term::Number(3)]),
        )],
        SOLUTION,
        "a = array1d(-1..1, [7, -12, 3]);\n----------\n",
    ),
    (
        &[("a", false, Value::Row(&[(5, 5)], &[Term::Var(1)]))],
        SOLUTION,
        "a = array1d(5..5, [-12]);\n----------\n",
    ),
    (
        &[(
            "a",
            true,
            Value::Row(&[(1, 3)], &[Term::Var(2), Term::Var(3), YES]),
        )],
        SOLUTION,
        "a = array1d(1..3, [false, true, true]);\n----------\n",
    ),
    (
        &[(
            "a",
            false,
            Value::Row(&[(1, 2)], &[Term::Number(4), Term::Number(4)]),
        )],
        SOLUTION,
        "a = array1d(1..2, [4, 4]);\n----------\n",
    ),
    // empty
    (
        &[("a", false, Value::Row(&[(1, 0)], &[]))],
        SOLUTION,
        "a = array1d(1..0, []);\n----------\n",
    ),
    (
        &[("a", true, Value::Row(&[(1, 0)], &[]))],
        SOLUTION,
        "a = array1d(1..0, []);\n----------\n",
    ),
    (
        &[("a", false, Value::Row(&[(3, -2)], &[]))],
        SOLUTION,
        "a = array1d(3..-2, []);\n----------\n",
    ),
    (
        &[("a", false, Value::Row(&[(1, 2), (1, 0)], &[]))],
        SOLUTION,
        "a = array2d(1..2, 1..0, []);\n----------\n",
    ),
    // of more index sets
    (
        &[(
            "a",
            true,
            Value::Row(&[(1, 2), (1, 2)], &[YES, NO, NO, YES]),
        )],
        SOLUTION,
        "a = array2d(1..2, 1..2, [true, false, false, true]);\n----------\n",
    ),
    (
        &[(
            "a",
            false,
            Value::Row(&[(0, 0), (-3, -2), (1, 1)], &[NO, YES]),
        )],
        SOLUTION,
        "a = array3d(0..0, -3..-2, 1..1, [0, 1]);\n----------\n",
    ),
    (
        &[(
            "a",
            false,
            Value::Row(&[(1, 1), (2, 2), (3, 3), (4, 4)], &[Term::Var(0)]),
        )],
        SOLUTION,
        "a = array4d(1..1, 2..2, 3..3, 4..4, [7]);\n----------\n",
    ),
    (
        &[(
            "a",
            false,
            Value::Row(&[(1, 1), (2, 2), (3, 3), (4, 4), (5, 5)], &[Term::Var(0)]),
        )],
        SOLUTION,
        "a = array5d(1..1, 2..2, 3..3, 4..4, 5..5, [7]);\n----------\n",
    ),
    (
        &[(
            "a",
            false,
            Value::Row(
                &[(1, 1), (2, 2), (3, 3), (4, 4), (5, 5), (6, 6)],
                &[Term::Var(0)],
            ),
        )],
        SOLUTION,
        "a = array6d(1..1, 2..2, 3..3, 4..4, 5..5, 6..6, [7]);\n----------\n",
    ),
];

/// Lines in the order of their outputs.
const LINES: &[Case] = &[
    (
        &[
            ("late", true, Value::One(Term::Var(2))),
            (
                "x_s",
                false,
                Value::Row(&[(1, 2)], &[Term::Var(1), Term::Var(0)]),
            ),
            ("x", false, Value::One(Term::Var(0))),
            ("e", true, Value::Row(&[(1, 0)], &[])),
        ],
        &[25, -40, 1],
        "late = true;\nx_s = array1d(1..2, [-40, 25]);\nx = 25;\ne = array1d(1..0, []);\n----------\n",
    ),
    (&[], &[25, -40, 1], "----------\n"),
];

#[test]
fn solutions_are_written(rt: HostRuntime) -> Result<(), Fail> {
    for table in [SCALARS, ARRAYS, LINES] {
        for (lines, solution, text) in table {
            assert!(rt; is_written(rt.alloc(), lines, solution, text)?, "at {text}");
        }
    }
    Ok(())
}

#[test]
fn marks_are_written(rt: HostRuntime) -> Result<(), Fail> {
    for (mark, expected) in [
        (Mark::Plain, ""),
        (Mark::Complete, "==========\n"),
        (Mark::Unsatisfiable, "=====UNSATISFIABLE=====\n"),
        (Mark::Unknown, "=====UNKNOWN=====\n"),
    ] {
        assert_eq!(rt; mark_text(mark), expected);
    }
    Ok(())
}
