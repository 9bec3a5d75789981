//! The domains that propagation leaves, by one lane and by three.

use crate::calls::{BOUNDS, SOUND, assert_calls, assert_streams};
use solver_top::Status;
use std::alloc::Global;
use std::process::Abort;
use std::test::Fail;
use std::thread::Threads;

/// A set of three numbers, and a range that they bound.
const SET_AND_RANGE: &str =
    "var 0..100: y :: output_var; var {1,4,9}: x :: output_var; constraint int_plus(x,1,y); solve satisfy;";

/// What is left on these texts, whichever number of lanes propagates.
const LEFT: &[(&str, &str)] = &[
    (
        "var 1..5: x :: output_var; constraint int_ne(x,3); solve satisfy;",
        "x: {1, 2, 4, 5};\n",
    ),
    (SET_AND_RANGE, "y: 2..10;\nx: {1, 4, 9};\n"),
    (
        "var 1..4: x :: output_var; var 2..4: y :: output_var; var 0..5: z :: output_var; \
         constraint int_ne(x,2); constraint int_le(y,x); constraint int_le(x,z); solve satisfy;",
        "x: {3, 4};\ny: {2, 3, 4};\nz: {3, 4, 5};\n",
    ),
    (
        "var bool: b :: output_var; var bool: c :: output_var; constraint bool_clause([c],[]); solve satisfy;",
        "b: {0, 1};\nc: {1};\n",
    ),
    (
        "var -5..-1: x :: output_var; constraint set_in(x,{-5,-3,-1}); solve satisfy;",
        "x: {-5, -3, -1};\n",
    ),
    ("var 3..3: x :: output_var; solve satisfy;", "x: {3};\n"),
];

/// The numbers at the ends of a word, and of the range.
const ENDS: &[(&str, &str)] = &[
    (
        "var 0..63: x :: output_var; constraint int_ne(x,62); constraint int_le(61,x); solve satisfy;",
        "x: {61, 63};\n",
    ),
    (
        "var 0..64: x :: output_var; constraint int_ne(x,62); constraint int_le(61,x); solve satisfy;",
        "x: 61..64;\n",
    ),
    (
        "var -140737488355327..-140737488355326: x :: output_var; var 140737488355265..140737488355327: y :: output_var; \
         constraint int_ne(y,140737488355326); constraint int_le(140737488355325,y); solve satisfy;",
        "x: {-140737488355327, -140737488355326};\ny: {140737488355325, 140737488355327};\n",
    ),
    (
        "var -140737488355327..140737488355327: x :: output_var; solve satisfy;",
        "x: -140737488355327..140737488355327;\n",
    ),
    (
        "var 1..64: x :: output_var; var 5..6: c; constraint array_int_element(x,[1,2,3,4,5,6,0,1,2,3,4,5,6,0,1,2,3,4,5,6,0,1,2,3,4,5,6,0,1,2,3,4,5,6,0,1,2,3,4,5,6,0,1,2,3,4,5,6,0,1,2,3,4,5,6,0,1,2,3,4,5,6,0,1,2,3,4,5,6,0],c); solve satisfy;",
        "x: {5, 6, 12, 13, 19, 20, 26, 27, 33, 34, 40, 41, 47, 48, 54, 55, 61, 62};\n",
    ),
];

/// What has no line, and what has no domain left.
const WITHOUT: &[(&str, &str)] = &[
    ("solve satisfy;", ""),
    ("var 1..3: x; constraint int_ne(x,2); solve satisfy;", ""),
    (
        "int: n :: output_var = 7; var 1..2: x; array [1..2] of var int: a :: output_array([1..2]) = [x,5]; solve satisfy;",
        "",
    ),
    ("var 5..3: x; solve satisfy;", "=====UNSATISFIABLE=====\n"),
    (
        "var 1..2: x :: output_var; constraint int_ne(x,1); constraint int_ne(x,2); solve satisfy;",
        "=====UNSATISFIABLE=====\n",
    ),
];

/// Each text has this left by one lane and by three.
fn assert_left(
    rt: &(impl Abort + Threads + Sync),
    alloc: Global,
    table: &[(&str, &str)],
) -> Result<(), Fail> {
    for (text, left) in table {
        assert_calls(rt, alloc, &[("turbofzn --domains m.fzn", *text, *left)])?;
        assert_calls(
            rt,
            alloc,
            &[("turbofzn --lanes 3 --domains m.fzn", *text, *left)],
        )?;
    }
    Ok(())
}

#[test]
fn sets_keep_their_holes(rt: HostRuntime) -> Result<(), Fail> {
    assert_left(&rt, rt.alloc(), LEFT)
}

#[test]
fn sets_reach_the_ends(rt: HostRuntime) -> Result<(), Fail> {
    assert_left(&rt, rt.alloc(), ENDS)
}

#[test]
fn what_is_no_variable_has_no_line(rt: HostRuntime) -> Result<(), Fail> {
    assert_left(&rt, rt.alloc(), WITHOUT)
}

#[test]
fn a_made_text_has_no_lines(rt: HostRuntime) -> Result<(), Fail> {
    assert_calls(
        &rt,
        rt.alloc(),
        &[("turbofzn --domains --make 6", BOUNDS, "")],
    )
}

#[test]
fn the_search_is_passed_over(rt: HostRuntime) -> Result<(), Fail> {
    let text = "var 1..3: x :: output_var; constraint int_ne(x,2); solve maximize x;";
    let words = "turbofzn -a -p 2 --depth 1 --node-limit 1 --round-limit 1 --domains m.fzn";
    assert_calls(&rt, rt.alloc(), &[(words, text, "x: {1, 3};\n")])
}

#[test]
fn a_failing_write_leaves_a_front(rt: HostRuntime) -> Result<(), Fail> {
    let ended = (Status::WriteFault, "y: 2..", "write fault\n");
    let streams = ((3, 3), SOUND);
    assert_streams(
        &rt,
        rt.alloc(),
        "turbofzn --domains m.fzn",
        SET_AND_RANGE,
        streams,
        &ended,
    )?;
    Ok(())
}
