//! Whole texts in tables: their faults, and that lawful ones have none.

use crate::resolved::fault_of;
use std::test::Fail;

/// The kind of the fault of a text in two parts. The faulty item begins the second, so that its place is the length of
/// the first.
type Case = (u8, &'static str, &'static str);

/// Faults of names and constraints.
const NAMES_AND_CONSTRAINTS: &[Case] = &[
    (3, "var 1..2: x; ", "var 1..2: x; solve satisfy;"),
    (3, "bool: x = true; ", "array [1..0] of int: x = [];"),
    (4, "", "constraint int_le(q,1); solve satisfy;"),
    (4, "", "int: a = a; solve satisfy;"),
    (4, "", "array [1..1] of int: a = [q]; solve satisfy;"),
    (4, "", "array [1..1] of var int: a = q;"),
    (4, "predicate q(int: q); ", "solve minimize q;"),
    (4, "", "var {1}: x = q; solve satisfy;"),
    (5, "", "constraint no_such(1); solve satisfy;"),
    (5, "", "constraint int_pow(4, 2, 16); solve satisfy;"),
    (5, "", "constraint int_negate(4, -4); solve satisfy;"),
    (5, "", "constraint INT_EQ(1, 1); solve satisfy;"),
    (
        5,
        "predicate p(int: x); ",
        "constraint p(1); solve satisfy;",
    ),
];

/// Faults of arguments, values, objectives and types.
const ARGUMENTS_AND_TYPES: &[Case] = &[
    (6, "", "constraint int_le(1); solve satisfy;"),
    (6, "", "constraint int_le(true, 1); solve satisfy;"),
    (6, "", "constraint int_lin_le([1], [], 0); solve satisfy;"),
    (6, "", "array [1..2] of int: a = [1]; solve satisfy;"),
    (6, "", "array [0..0] of int: a = [1]; solve satisfy;"),
    (
        6,
        "array [1..0] of int: a = []; ",
        "array [1..0] of int: b = a;",
    ),
    (6, "", "int: x = 1.5; solve satisfy;"),
    (6, "var int: x; ", "int: y = x; solve satisfy;"),
    (6, "", "constraint set_in(1, 1); solve satisfy;"),
    (6, "", "constraint bool_xor(true); solve satisfy;"),
    (6, "", "constraint array_int_element(1, [true], 1);"),
    (6, "", "var 1..2: x = true; solve satisfy;"),
    (6, "", "var {1}: x = {1}; solve satisfy;"),
    (6, "var int: x; ", "var bool: y = x; solve satisfy;"),
    (6, "var int: b; ", "array [1..1] of var 1..2: a = b;"),
    (6, "", "array [1..1] of var {1}: a = [true];"),
    (6, "", "array [1..1] of var int: a = [1.5];"),
    (6, "", "array [1..1] of var int: a = {3, 1, 2};"),
    (
        6,
        "var int: x; ",
        "array [1..3] of var int: a = [x, 0x10, true];",
    ),
    (
        6,
        "array [1..1] of int: row = [1]; ",
        "array [1..1] of var int: a = [row];",
    ),
    (7, "", "float: f = 1.5; solve satisfy;"),
    (7, "", "var float: f; solve satisfy;"),
    (7, "", "var set of {1}: s = {1}; solve satisfy;"),
    (
        7,
        "",
        "array [1..1] of set of int: a = [{1}]; solve satisfy;",
    ),
    (6, "", "solve minimize true;"),
    (6, "var bool: b; ", "solve maximize b;"),
    (6, "bool: b = false; ", "solve minimize b;"),
    (6, "var 1..2: x; ", "solve minimize [x];"),
    (6, "array [1..1] of int: a = [1]; ", "solve maximize a;"),
    (6, "", "solve minimize {1};"),
    (6, "", "solve maximize 1.5;"),
    (6, "", "solve minimize [];"),
    (8, "", "solve minimize 140737488355328;"),
];

/// Faults of numbers, and of what comes at the end.
const NUMBERS_AND_ENDS: &[Case] = &[
    (8, "", "var 0..140737488355328: x; solve satisfy;"),
    (8, "", "int: a = -0x800000000000; solve satisfy;"),
    (
        8,
        "",
        "constraint int_le(0o4000000000000000, 1); solve satisfy;",
    ),
    (8, "", "var {1, 140737488355328}: x; solve satisfy;"),
    (8, "", "var int: x = 140737488355328; solve satisfy;"),
    (8, "", "array [1..0] of var {140737488355328}: a = [];"),
    (
        8,
        "",
        "set of int: s = {1, 140737488355328}; solve satisfy;",
    ),
    (
        8,
        "",
        "array [1..1] of int: a = [140737488355328]; solve satisfy;",
    ),
    (10, "", ""),
    (10, "var bool: b; % solve satisfy;", ""),
    (11, "solve satisfy; ", "solve satisfy;"),
    (11, "solve satisfy; ", "var 1..2: x;"),
    (11, "solve satisfy; ", "predicate p();"),
    (
        7,
        "var 1..2: x; ",
        "float: f = 1.5; var bool: x = q; solve satisfy;",
    ),
    (
        6,
        "",
        "int: x = true; constraint no_such(q); solve satisfy;",
    ),
];

/// Of two faults in an item the least counts.
const LEAST_OF_TWO: &[Case] = &[
    (3, "var bool: x; ", "var bool: x = q; solve satisfy;"),
    (3, "var 1..2: x; ", "var {1}: x; solve satisfy;"),
    (3, "int: x = 1; ", "int: x = true; solve satisfy;"),
    (3, "int: x = 1; ", "float: x = 1.5; solve satisfy;"),
    (
        3,
        "int: x = 1; ",
        "int: x = 140737488355328; solve satisfy;",
    ),
    (3, "var bool: x; solve satisfy; ", "var bool: x;"),
    (4, "", "constraint no_such(q); solve satisfy;"),
    (4, "", "constraint int_le(q); solve satisfy;"),
    (4, "", "var float: f = q; solve satisfy;"),
    (
        4,
        "",
        "constraint int_le(q, 140737488355328); solve satisfy;",
    ),
    (4, "solve satisfy; ", "constraint int_le(q, 1);"),
];

/// And so of two greater ones.
const LEAST_OF_TWO_GREATER: &[Case] = &[
    (5, "solve satisfy; ", "constraint no_such(1);"),
    (5, "", "constraint no_such(140737488355328); solve satisfy;"),
    (6, "", "var {140737488355328}: x = true; solve satisfy;"),
    (
        6,
        "",
        "array [1..140737488355328] of int: a = [1]; solve satisfy;",
    ),
    (6, "solve satisfy; ", "constraint int_le(1);"),
    (7, "", "float: f = true; solve satisfy;"),
    (7, "", "array [0..0] of float: a = [true]; solve satisfy;"),
    (7, "", "var set of 1..140737488355328: s; solve satisfy;"),
    (6, "solve satisfy; ", "solve minimize true;"),
    (11, "solve satisfy; ", "solve minimize 1;"),
    (8, "solve satisfy; ", "int: a = 140737488355328;"),
    (8, "solve satisfy; ", "var {140737488355328}: x;"),
    (11, "solve satisfy; ", "var {1}: x = 2;"),
];

/// Faults of variables that differ and of tasks.
const DIFFERENT_AND_TASKS: &[Case] = &[
    (6, "", "constraint pccp_all_different(1); solve satisfy;"),
    (6, "", "constraint pccp_all_different([1, true]);"),
    (6, "", "constraint pccp_all_different([1], [2]);"),
    (6, "", "constraint pccp_cumulative([1], [1], [1]);"),
    (6, "", "constraint pccp_cumulative([1], [1], [1, 1], 1);"),
    (6, "", "constraint pccp_cumulative([1], [1, 1], [1], 1);"),
    (6, "", "constraint pccp_cumulative([1, 1], [1], [1], 1);"),
    (6, "", "constraint pccp_cumulative([true], [1], [1], 1);"),
    (
        6,
        "",
        "constraint pccp_cumulative([1, 1], [1, -1], [1, 1], 1);",
    ),
    (
        6,
        "",
        "constraint pccp_cumulative([1, 1], [1, 1], [-1, 1], 1);",
    ),
    (6, "", "constraint pccp_cumulative([1], [1], [1], -1);"),
    (
        6,
        "var 1..2: x; ",
        "constraint pccp_cumulative([1], [x], [1], 1);",
    ),
    (
        6,
        "var 1..2: x; ",
        "constraint pccp_cumulative([1], [1], [x], 1);",
    ),
    (
        6,
        "var 1..2: x; ",
        "constraint pccp_cumulative([1], [1], [1], x);",
    ),
];

/// A duration, a usage or a limit is told to be negative before it is told to be out of range; elsewhere both signs are out of range.
const LONG_LITERALS_OF_TASKS: &[Case] = &[
    (
        6,
        "",
        "constraint pccp_cumulative([1], [-140737488355328], [1], 1);",
    ),
    (
        6,
        "var 1..2: x; ",
        "constraint pccp_cumulative([x], [1], [-140737488355328], 1);",
    ),
    (
        6,
        "",
        "constraint pccp_cumulative([1], [1], [1], -140737488355328);",
    ),
    (
        6,
        "",
        "constraint pccp_cumulative([1], [1], [1], -99999999999999999999999);",
    ),
    (
        6,
        "",
        "constraint pccp_cumulative([1], [-0xffffffffffffffffffff], [1], 1);",
    ),
    (
        6,
        "",
        "constraint pccp_cumulative([1, 1], [1, 1], [140737488355328, -140737488355328], 1);",
    ),
    (
        8,
        "",
        "constraint pccp_cumulative([1, 1], [1, 1], [1, 140737488355328], 1);",
    ),
    (
        8,
        "",
        "constraint pccp_cumulative([1], [1], [1], 99999999999999999999999);",
    ),
    (
        8,
        "",
        "constraint pccp_cumulative([-140737488355328], [1], [1], 1);",
    ),
    (
        8,
        "",
        "array [1..1] of int: r = [-140737488355328]; constraint pccp_cumulative([1], [1], r, 1);",
    ),
];

/// All tables.
const TABLES: &[&[Case]] = &[
    NAMES_AND_CONSTRAINTS,
    ARGUMENTS_AND_TYPES,
    NUMBERS_AND_ENDS,
    LEAST_OF_TWO,
    LEAST_OF_TWO_GREATER,
    DIFFERENT_AND_TASKS,
    LONG_LITERALS_OF_TASKS,
];

#[test]
fn each_text_has_its_fault(rt: HostRuntime) -> Result<(), Fail> {
    for table in TABLES {
        for (kind, front, rest) in *table {
            let fault = fault_of(rt.alloc(), front, rest)?;
            assert_eq!(rt; fault, Some((*kind, front.len())), "at {front}{rest}");
        }
    }
    Ok(())
}

/// Texts without a fault.
const LAWFUL: &[&str] = &[
    "solve satisfy;",
    "solve maximize 1;",
    "var 1..2: x; solve minimize x;",
    "int: c = 3; solve :: q maximize c;",
    "predicate p(140737488355328: x); predicate p(); var bool: p; solve satisfy;",
    "var 5..3: x; var -140737488355327..140737488355327: y; solve satisfy;",
    "var 0..140737488355327: x; constraint int_le(x, -0x7fffffffffff); solve satisfy;",
    "array [1..0] of var 1..2: a = []; solve satisfy;",
    "array [0x1..01] of var int: a = [0]; solve satisfy;",
    "int: c = 1; array [1..1] of var 1..2: a = [c]; solve satisfy;",
    "var bool: x; var bool: y = x; var {4, 2}: z; var int: v = 1; solve satisfy;",
    "constraint int_eq(1, 2); constraint set_in(3, {}); solve satisfy;",
    "constraint pccp_all_different([]); constraint pccp_cumulative([], [], [], 0); solve satisfy;",
    "var -3..3: x; constraint pccp_all_different([x, x]); constraint pccp_cumulative([x, -1], [0, 2], [2, 0], 1); solve satisfy;",
    "constraint bool_xor(true, true); constraint bool_xor(true, false, true); solve satisfy;",
    "var 1..2: x :: note(140737488355328, q, 1.5); solve :: q satisfy;",
    "set of int: s = {3, 1}; set of int: t = s; set of int: u = 2..1; solve satisfy;",
];

#[test]
fn lawful_texts_have_a_model(rt: HostRuntime) -> Result<(), Fail> {
    for text in LAWFUL {
        assert_eq!(rt; fault_of(rt.alloc(), text, "")?, None, "at {text}");
    }
    Ok(())
}
