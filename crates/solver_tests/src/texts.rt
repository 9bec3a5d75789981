//! Whole texts and their answers: declarations, annotations, comments and small constraints.

use crate::calls::{assert_answers, assert_text};
use solver_top::Status;
use std::alloc::{AllocError, Global};
use std::test::Fail;

/// Declarations and a few constraints.
const SMALL: &[(&str, &str)] = &[
    (
        "var 1..3: x :: output_var; constraint int_le(2,x); solve satisfy;",
        "x = 2;\n----------\n",
    ),
    ("solve satisfy;", "----------\n"),
    ("var 5..3: x; solve satisfy;", "=====UNSATISFIABLE=====\n"),
    (
        "constraint int_le(4,3);solve satisfy;",
        "=====UNSATISFIABLE=====\n",
    ),
    (
        "constraint int_le(1,1); constraint int_le(-7,3); solve satisfy;",
        "----------\n",
    ),
    (
        "var -3..007: a :: output_var;\nvar 0..9: b;\nvar -140737488355327..140737488355327: c :: output_var;\n\
         constraint int_le(b, a);\nconstraint int_le(c, -4);\nsolve satisfy;\n",
        "a = 0;\nc = -140737488355327;\n----------\n",
    ),
    (
        "var 0..4: early :: output_var; var 6..9: late; constraint int_le(late,early); solve satisfy;",
        "=====UNSATISFIABLE=====\n",
    ),
    (
        "var 0..3: x; var 0..3: y; constraint int_lt(x,y); constraint int_lt(y,x); solve satisfy;",
        "=====UNSATISFIABLE=====\n",
    ),
    (
        "constraint int_lin_le([],[],-1); solve satisfy;",
        "=====UNSATISFIABLE=====\n",
    ),
    (
        "constraint int_lin_le([],[],0); solve satisfy;",
        "----------\n",
    ),
    (
        "constraint bool_clause([],[]); solve satisfy;",
        "=====UNSATISFIABLE=====\n",
    ),
    (
        "var bool: b :: output_var; constraint bool_clause([],[b]); solve satisfy;",
        "b = false;\n----------\n",
    ),
    (
        "var 3..4: x :: output_var; constraint int_eq_reif(x,3,false); solve satisfy;",
        "x = 4;\n----------\n",
    ),
    (
        "var 140737488355327..140737488355327: x; var int: y; constraint int_plus(x,1,y); solve satisfy;",
        "=====UNSATISFIABLE=====\n",
    ),
    (
        "var -3..3: x :: output_var; var -3..3: y :: output_var; constraint int_times(x,y,-6); solve satisfy;",
        "x = -3;\ny = 2;\n----------\n",
    ),
    (
        "var 0..5: i :: output_var; var int: c :: output_var; \
         constraint array_int_element(i,[7,8,7],c); solve satisfy;",
        "i = 1;\nc = 7;\n----------\n",
    ),
];

/// What is written, and what a reader passes over.
const WRITTEN: &[(&str, &str)] = &[
    (
        "var bool: b :: output_var; solve satisfy;",
        "b = false;\n----------\n",
    ),
    (
        "int: n :: output_var = 7; bool: t :: output_var = true; var bool: b :: output_var = t; solve satisfy;",
        "n = 7;\nt = true;\nb = true;\n----------\n",
    ),
    (
        "int: n :: output_var = -0x1F; var 0o7..0xA: _x1 :: output_var; bool: f :: output_var = false; solve satisfy;",
        "n = -31;\n_x1 = 7;\nf = false;\n----------\n",
    ),
    (
        "var 1..5: x :: weight(1.5) :: output_var; solve satisfy;",
        "x = 1;\n----------\n",
    ),
    (
        "var 1..5: x :: note(\"a\\\";b\") :: output_var; solve satisfy;",
        "x = 1;\n----------\n",
    ),
    (
        "var 1..5: x :: output_var(1); var 2..5: y :: output; solve satisfy;",
        "----------\n",
    ),
    (
        "% nothing;\n\n  var 1..3: x % a name :: output_var;\n :: output_var;\r\n\tconstraint int_ne(x,1);\
         % solve satisfy;\n\nsolve%\nsatisfy\n;\n\n% the end",
        "x = 2;\n----------\n",
    ),
    (
        "var 1..3: x :: output_var;constraint int_le(2,x)::domain::defines_var(x)::a([b,c(1..2)],{3},\"s\");\
         solve::int_search([x],first_fail,indomain_max,complete)satisfy;",
        "x = 3;\n----------\n",
    ),
    (
        "predicate p(var int: x); predicate my_own(array [int] of var bool: xs, set of int: s, var 1..3: y); \
         predicate p(float: y); var 1..3: p :: output_var; solve satisfy;",
        "p = 1;\n----------\n",
    ),
    (
        "var 1..3: x :: output_var; array [1..2] of var int: a :: output_array([1..2]) = [x,4]; \
         array [1..0] of bool: e = []; var 2..3: y :: output_var; solve satisfy;",
        "x = 1;\na = array1d(1..2, [1, 4]);\ny = 2;\n----------\n",
    ),
    (
        "var 0..2: x :: output_var; var 0..1: y :: output_var; \
         solve :: int_search([x,y], first_fail, indomain_max, complete) satisfy;",
        "x = 2;\ny = 1;\n----------\n",
    ),
    (
        "array [1..4] of var bool: a :: output_array([1..2,1..2]) = [true,false,false,true]; \
         array [1..0] of var int: e :: output_array([1..0]) = []; solve satisfy;",
        "a = array2d(1..2, 1..2, [true, false, false, true]);\ne = array1d(1..0, []);\n----------\n",
    ),
];

#[test]
fn small_texts_have_their_answers(rt: HostRuntime) -> Result<(), Fail> {
    assert_answers(&rt, rt.alloc(), SMALL)
}

#[test]
fn outputs_are_written_and_the_rest_is_passed_over(rt: HostRuntime) -> Result<(), Fail> {
    assert_answers(&rt, rt.alloc(), WRITTEN)
}

/// A text with so many pairs of brackets in an annotation.
fn nested(alloc: Global, pairs: usize) -> Result<String, AllocError> {
    let mut text = String::from_str(alloc, "var bool: b :: a")?;
    for _ in 0..pairs {
        text.push_str("(a")?;
    }
    for _ in 0..pairs {
        text.push_str(")")?;
    }
    text.push_str("; solve satisfy;")?;
    Ok(text)
}

#[test]
fn sixty_four_pairs_of_brackets_are_taken_and_one_more_is_not(rt: HostRuntime) -> Result<(), Fail> {
    let refused = Status::Refused { kind: 2, line: 1 };
    for (pairs, ended) in [
        (64, (Status::Answered, "----------\n", "")),
        (65, (refused, "", "refused 2 Syntax line 1\n")),
    ] {
        let text = nested(rt.alloc(), pairs)?;
        assert_text(&rt, rt.alloc(), &text, &ended)?;
    }
    Ok(())
}
