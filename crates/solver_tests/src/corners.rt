//! Constraints at their corners and at the ends of the range.

use crate::calls::assert_answers;
use std::test::Fail;

/// Empty lists and sets, one variable at several places, constants alone; names and values of declarations.
const CORNERS: &[(&str, &str)] = &[
    (
        "constraint int_lin_eq([], [], 0); solve satisfy;",
        "----------\n",
    ),
    (
        "constraint int_lin_eq([], [], 1); solve satisfy;",
        "=====UNSATISFIABLE=====\n",
    ),
    (
        "constraint int_lin_ne([], [], 0); solve satisfy;",
        "=====UNSATISFIABLE=====\n",
    ),
    (
        "constraint int_lin_le([], [], -1); solve satisfy;",
        "=====UNSATISFIABLE=====\n",
    ),
    (
        "constraint bool_lin_eq([], [], 0); solve satisfy;",
        "----------\n",
    ),
    (
        "var 1..3: s; constraint bool_lin_eq([], [], s); solve satisfy;",
        "=====UNSATISFIABLE=====\n",
    ),
    (
        "var bool: r :: output_var; constraint int_lin_eq_reif([], [], 0, r); solve satisfy;",
        "r = true;\n----------\n",
    ),
    (
        "var bool: r :: output_var; constraint int_lin_ne_reif([], [], 0, r); solve satisfy;",
        "r = false;\n----------\n",
    ),
    (
        "var 0..3: m; constraint array_int_maximum(m, []); solve satisfy;",
        "=====UNSATISFIABLE=====\n",
    ),
    (
        "var 0..3: m; constraint array_int_minimum(m, []); solve satisfy;",
        "=====UNSATISFIABLE=====\n",
    ),
    (
        "var 0..3: i; var 0..3: c; constraint array_int_element(i, [], c); solve satisfy;",
        "=====UNSATISFIABLE=====\n",
    ),
    (
        "var -1..0: i; constraint array_int_element(i, [1, 1], 1); solve satisfy;",
        "=====UNSATISFIABLE=====\n",
    ),
    (
        "var 3..9: i; var 0..9: x; constraint array_var_int_element(i, [x, x], x); solve satisfy;",
        "=====UNSATISFIABLE=====\n",
    ),
    (
        "var bool: r :: output_var; constraint array_bool_and([], r); solve satisfy;",
        "r = true;\n----------\n",
    ),
    (
        "var bool: r :: output_var; constraint array_bool_or([], r); solve satisfy;",
        "r = false;\n----------\n",
    ),
    (
        "constraint bool_clause([], []); solve satisfy;",
        "=====UNSATISFIABLE=====\n",
    ),
    (
        "var bool: r :: output_var; constraint bool_clause_reif([], [], r); solve satisfy;",
        "r = false;\n----------\n",
    ),
    (
        "var bool: a; constraint bool_clause([a], [a]); solve satisfy;",
        "----------\n",
    ),
    (
        "var bool: r :: output_var; constraint bool_clause_reif([r], [], r); solve satisfy;",
        "r = false;\n----------\n",
    ),
    (
        "var bool: r; constraint bool_clause_reif([], [r], r); solve satisfy;",
        "=====UNSATISFIABLE=====\n",
    ),
    (
        "var bool: r :: output_var; constraint array_bool_and([r, r], r); solve satisfy;",
        "r = false;\n----------\n",
    ),
    (
        "var 0..3: x; constraint set_in(x, {}); solve satisfy;",
        "=====UNSATISFIABLE=====\n",
    ),
    (
        "var 0..3: x; constraint set_in(x, 3..1); solve satisfy;",
        "=====UNSATISFIABLE=====\n",
    ),
    (
        "var 0..3: x; var bool: r :: output_var; constraint set_in_reif(x, {}, r); solve satisfy;",
        "r = false;\n----------\n",
    ),
    (
        "var bool: r :: output_var; constraint set_in_reif(5, {1, 5}, r); solve satisfy;",
        "r = true;\n----------\n",
    ),
    (
        "var 1..9: x :: output_var; constraint int_times(x, x, x); solve satisfy;",
        "x = 1;\n----------\n",
    ),
    (
        "var 2..9: x; constraint int_times(x, x, x); solve satisfy;",
        "=====UNSATISFIABLE=====\n",
    ),
    (
        "var -5..5: x :: output_var; var 1..9: y :: output_var; constraint int_times(x, y, 0); \
         solve satisfy;",
        "x = 0;\ny = 1;\n----------\n",
    ),
    (
        "var -5..5: x :: output_var; constraint int_abs(x, x); solve satisfy;",
        "x = 0;\n----------\n",
    ),
    (
        "var -5..5: x; constraint int_abs(x, -1); solve satisfy;",
        "=====UNSATISFIABLE=====\n",
    ),
    (
        "var -5..5: x; constraint int_plus(x, 1, x); solve satisfy;",
        "=====UNSATISFIABLE=====\n",
    ),
    (
        "var 0..9: x; constraint int_lin_eq([1, 1], [x, x], 5); solve satisfy;",
        "=====UNSATISFIABLE=====\n",
    ),
    (
        "var 0..9: x :: output_var; constraint int_lin_eq([1, 1], [x, x], 6); solve satisfy;",
        "x = 3;\n----------\n",
    ),
    (
        "var 0..9: x :: output_var; var 0..9: y :: output_var; constraint int_lin_eq([0, -1], [x, y], -3); \
         solve satisfy;",
        "x = 0;\ny = 3;\n----------\n",
    ),
    (
        "var 0..9: x; constraint int_ne(x, x); solve satisfy;",
        "=====UNSATISFIABLE=====\n",
    ),
    (
        "var bool: r :: output_var; var 0..9: x; constraint int_eq_reif(x, x, r); solve satisfy;",
        "r = true;\n----------\n",
    ),
    (
        "var bool: r; constraint bool_eq_reif(r, false, r); solve satisfy;",
        "=====UNSATISFIABLE=====\n",
    ),
    (
        "var bool: r :: output_var; constraint bool_le_reif(true, false, r); solve satisfy;",
        "r = false;\n----------\n",
    ),
    (
        "constraint int_eq(3, 3); constraint bool_lt(false, true); constraint bool2int(true, 1); \
         solve satisfy;",
        "----------\n",
    ),
    (
        "constraint bool_not(true, true); solve satisfy;",
        "=====UNSATISFIABLE=====\n",
    ),
    (
        "constraint bool2int(false, 1); solve satisfy;",
        "=====UNSATISFIABLE=====\n",
    ),
    (
        "var -9..9: x :: output_var; constraint int_max(x, -7, -4); solve satisfy;",
        "x = -4;\n----------\n",
    ),
    (
        "var -9..9: x :: output_var; constraint array_int_minimum(-7, [x, -4, -7]); solve satisfy;",
        "x = -7;\n----------\n",
    ),
    (
        "int: k = 3; array [1..2] of int: cs = [1, -1]; var 0..9: x :: output_var; \
         var 2..9: y :: output_var; array [1..2] of var int: xs = [x, y]; constraint int_lin_eq(cs, xs, k); \
         solve satisfy;",
        "x = 5;\ny = 2;\n----------\n",
    ),
    (
        "set of int: s = {2, 4, 7}; var 3..9: x :: output_var; constraint set_in(x, s); solve satisfy;",
        "x = 4;\n----------\n",
    ),
    (
        "array [1..3] of bool: bs = [false, false, true]; var 0..9: i :: output_var; bool: t = true; \
         constraint array_bool_element(i, bs, t); solve satisfy;",
        "i = 3;\n----------\n",
    ),
    (
        "array [1..2] of int: ns = [4, 2]; var 0..9: i :: output_var; \
         constraint array_int_element(i, ns, 2); solve satisfy;",
        "i = 2;\n----------\n",
    ),
    (
        "var 0..9: x :: output_var; var 0..9: y :: output_var; array [1..2] of var 3..5: xs = [x, y]; \
         constraint int_lt(x, y); solve satisfy;",
        "x = 3;\ny = 4;\n----------\n",
    ),
    (
        "var 0..9: x :: output_var; var 0..9: y :: output_var = x; constraint int_ne(y, 0); solve satisfy;",
        "x = 1;\ny = 1;\n----------\n",
    ),
    (
        "var bool: a :: output_var; var bool: b :: output_var = a; constraint bool_or(a, b, true); \
         solve satisfy;",
        "a = true;\nb = true;\n----------\n",
    ),
    (
        "var {7, 2, 3, 9}: x :: output_var; constraint int_lt(3, x); solve satisfy;",
        "x = 7;\n----------\n",
    ),
    ("var {}: x; solve satisfy;", "=====UNSATISFIABLE=====\n"),
];

#[test]
fn corners(rt: HostRuntime) -> Result<(), Fail> {
    assert_answers(&rt, rt.alloc(), CORNERS)
}

/// At the ends of the range; 11863283 squared is the greatest square in it.
const ENDS: &[(&str, &str)] = &[
    (
        "var int: x :: output_var; constraint int_times(11863283, 11863283, x); solve satisfy;",
        "x = 140737483538089;\n----------\n",
    ),
    (
        "var int: x; constraint int_times(11863284, 11863284, x); solve satisfy;",
        "=====UNSATISFIABLE=====\n",
    ),
    (
        "var int: x; constraint int_times(140737488355327, 140737488355327, x); solve satisfy;",
        "=====UNSATISFIABLE=====\n",
    ),
    (
        "var int: x; constraint int_plus(140737488355327, 1, x); solve satisfy;",
        "=====UNSATISFIABLE=====\n",
    ),
    (
        "var int: x :: output_var; constraint int_abs(-140737488355327, x); solve satisfy;",
        "x = 140737488355327;\n----------\n",
    ),
    (
        "var int: x :: output_var; constraint int_lt(140737488355326, x); solve satisfy;",
        "x = 140737488355327;\n----------\n",
    ),
    (
        "var int: x; constraint int_lt(140737488355327, x); solve satisfy;",
        "=====UNSATISFIABLE=====\n",
    ),
    (
        "var int: x; constraint int_lin_le([140737488355327, 140737488355327], [x, x], -140737488355327); \
         constraint int_le(0, x); solve satisfy;",
        "=====UNSATISFIABLE=====\n",
    ),
    (
        "var int: x :: output_var; constraint int_le(x, x); solve satisfy;",
        "x = -140737488355327;\n----------\n",
    ),
];

#[test]
fn ends_of_the_range(rt: HostRuntime) -> Result<(), Fail> {
    assert_answers(&rt, rt.alloc(), ENDS)
}
