//! Refused texts: the kind of the first fault, and its line.

use crate::calls::{BOUNDS, assert_refusals, assert_text};
use solver_top::Status;
use std::test::Fail;

/// Each kind but the limits, on one line.
const KINDS: &[(&str, u8, u64, &str)] = &[
    ("", 10, 1, "refused 10 NoSolve line 1\n"),
    ("% solve satisfy;", 10, 1, "refused 10 NoSolve line 1\n"),
    (
        "var 1..3: x; constraint int_le(2,x);",
        10,
        1,
        "refused 10 NoSolve line 1\n",
    ),
    ("var 1..2: x; $", 1, 1, "refused 1 Lex line 1\n"),
    ("var bool: x; $", 1, 1, "refused 1 Lex line 1\n"),
    ("solve satisfy; \"open", 1, 1, "refused 1 Lex line 1\n"),
    (
        "var 1..2: x solve satisfy;",
        2,
        1,
        "refused 2 Syntax line 1\n",
    ),
    (
        "var bool: x solve satisfy;",
        2,
        1,
        "refused 2 Syntax line 1\n",
    ),
    ("solve satisfy", 2, 1, "refused 2 Syntax line 1\n"),
    ("solve satisfy;;", 2, 1, "refused 2 Syntax line 1\n"),
    (
        "var 1..2: x; var 1..2: x; solve satisfy;",
        3,
        1,
        "refused 3 NameTwice line 1\n",
    ),
    (
        "var bool: x; var bool: x; solve satisfy;",
        3,
        1,
        "refused 3 NameTwice line 1\n",
    ),
    (
        "constraint int_le(q,1); solve satisfy;",
        4,
        1,
        "refused 4 NameUnknown line 1\n",
    ),
    (
        "constraint bool_eq(q,true); solve satisfy;",
        4,
        1,
        "refused 4 NameUnknown line 1\n",
    ),
    (
        "constraint no_such(1); solve satisfy;",
        5,
        1,
        "refused 5 UnknownConstraint line 1\n",
    ),
    (
        "constraint int_pow(1,1,1); solve satisfy;",
        5,
        1,
        "refused 5 UnknownConstraint line 1\n",
    ),
    (
        "predicate p(var int: x); constraint p(1); solve satisfy;",
        5,
        1,
        "refused 5 UnknownConstraint line 1\n",
    ),
    (
        "constraint int_le(1); solve satisfy;",
        6,
        1,
        "refused 6 WrongArgument line 1\n",
    ),
    (
        "array [1..2] of int: a = [1]; solve satisfy;",
        6,
        1,
        "refused 6 WrongArgument line 1\n",
    ),
    (
        "var bool: b; constraint int_le(b,1); solve satisfy;",
        6,
        1,
        "refused 6 WrongArgument line 1\n",
    ),
    (
        "var float: f; solve satisfy;",
        7,
        1,
        "refused 7 Unsupported line 1\n",
    ),
    (
        "var bool: b; solve minimize b;",
        6,
        1,
        "refused 6 WrongArgument line 1\n",
    ),
    (
        "var 0..140737488355328: x; solve satisfy;",
        8,
        1,
        "refused 8 OutOfRange line 1\n",
    ),
    (
        "constraint int_le(-140737488355328,0); solve satisfy;",
        8,
        1,
        "refused 8 OutOfRange line 1\n",
    ),
    (
        "solve satisfy; var 1..2: x;",
        11,
        1,
        "refused 11 AfterSolve line 1\n",
    ),
    (
        "solve satisfy; var bool: x;",
        11,
        1,
        "refused 11 AfterSolve line 1\n",
    ),
    (
        "solve satisfy; solve satisfy;",
        11,
        1,
        "refused 11 AfterSolve line 1\n",
    ),
];

/// Faults on other lines: the line is that of the first byte of the item, of the byte that begins no token, or of the text's end.
const LINES: &[(&str, u8, u64, &str)] = &[
    (
        "var 1..5: x;\nconstraint int_le(2,x);\nconstraint int_le(x,",
        2,
        3,
        "refused 2 Syntax line 3\n",
    ),
    (
        "var 1..3: x;\nconstraint int_le(2,x);\n\n",
        10,
        4,
        "refused 10 NoSolve line 4\n",
    ),
    (
        "var 1..3: x;\nconstraint\nint_le(\n2,q\n);\nsolve satisfy;\n",
        4,
        2,
        "refused 4 NameUnknown line 2\n",
    ),
    (
        "var 1..3: x;\n\nvar 1..2\n:\nx;\nsolve satisfy;\n",
        3,
        3,
        "refused 3 NameTwice line 3\n",
    ),
    (
        "% x\n% y\n\nvar 1..3 x\n;\nsolve satisfy;\n",
        2,
        4,
        "refused 2 Syntax line 4\n",
    ),
    (
        "var 1..3 x;\nvar 1..2: y;\n$ solve satisfy;\n",
        1,
        3,
        "refused 1 Lex line 3\n",
    ),
    (
        "constraint no_such(1);\nvar 1..2 x;\nsolve satisfy;\n",
        2,
        2,
        "refused 2 Syntax line 2\n",
    ),
    (
        "var 1..2: x; constraint int_le(1,\n999999999999999);\nconstraint int_le(q,1);\nsolve satisfy;\n",
        8,
        1,
        "refused 8 OutOfRange line 1\n",
    ),
    (
        "\n\r\n\tsolve\nsatisfy;\n   var\n1..2: x;\n",
        11,
        5,
        "refused 11 AfterSolve line 5\n",
    ),
    ("\n\n\n", 10, 4, "refused 10 NoSolve line 4\n"),
    ("\n$\n", 1, 2, "refused 1 Lex line 2\n"),
    ("\r\r$", 1, 1, "refused 1 Lex line 1\n"),
    (
        "\n\n\n\n\n\n\n\n\nsolve maximize true;",
        6,
        10,
        "refused 6 WrongArgument line 10\n",
    ),
];

#[test]
fn refused_texts_have_their_kinds(rt: HostRuntime) -> Result<(), Fail> {
    assert_refusals(&rt, rt.alloc(), KINDS)
}

#[test]
fn refused_texts_have_their_lines(rt: HostRuntime) -> Result<(), Fail> {
    assert_refusals(&rt, rt.alloc(), LINES)
}

/// The fault of the first bytes of a text of 65, so many of them: after an item the solve item is missing, one byte of two
/// dots is no token, and elsewhere an item isn't ended.
fn fault_of_front(count: usize) -> (u8, &'static str) {
    match count {
        0 | 26 | 27 | 50 | 51 => (10, "refused 10 NoSolve line 1\n"),
        6 => (1, "refused 1 Lex line 1\n"),
        _ => (2, "refused 2 Syntax line 1\n"),
    }
}

#[test]
fn each_front_of_a_text_is_refused(rt: HostRuntime) -> Result<(), Fail> {
    let text = BOUNDS.as_bytes();
    assert_eq!(rt; text.len(), 65);
    for count in 0..text.len() {
        let front = std::str::from_utf8(&text[..count])?;
        let (kind, told) = fault_of_front(count);
        assert_text(
            &rt,
            rt.alloc(),
            front,
            &(Status::Refused { kind, line: 1 }, "", told),
        )?;
    }
    Ok(())
}
