//! Each constraint on integers: a text with its least solution, and one with none.

use crate::calls::assert_answers;
use std::test::Fail;

/// Comparisons of two integers: a text with its least solution, then one with none, for each name.
const COMPARISONS: &[(&str, &str)] = &[
    (
        "var -3..5: x :: output_var; var 3..7: y :: output_var; constraint int_eq(x, y); solve satisfy;",
        "x = 3;\ny = 3;\n----------\n",
    ),
    (
        "var {1, 3}: x; var {2, 4}: y; constraint int_eq(x, y); solve satisfy;",
        "=====UNSATISFIABLE=====\n",
    ),
    (
        "var 2..3: x :: output_var; var 1..3: y :: output_var; constraint int_ne(x, y); \
         constraint int_ne(y, 1); solve satisfy;",
        "x = 2;\ny = 3;\n----------\n",
    ),
    (
        "var 1..2: x; var 1..2: y; var 1..2: z; constraint int_ne(x, y); constraint int_ne(y, z); \
         constraint int_ne(x, z); solve satisfy;",
        "=====UNSATISFIABLE=====\n",
    ),
    (
        "var 6..9: x :: output_var; var 4..7: y :: output_var; constraint int_le(y, x); \
         constraint int_le(5, y); solve satisfy;",
        "x = 6;\ny = 5;\n----------\n",
    ),
    (
        "var 0..5: x; var 3..8: y; constraint int_le(y, x); constraint int_le(x, 4); \
         constraint int_le(5, y); solve satisfy;",
        "=====UNSATISFIABLE=====\n",
    ),
    (
        "var 1..9: x :: output_var; var 1..9: y :: output_var; var 1..9: z :: output_var; \
         constraint int_lt(x, y); constraint int_lt(y, z); constraint int_lt(2, x); solve satisfy;",
        "x = 3;\ny = 4;\nz = 5;\n----------\n",
    ),
    (
        "var 0..3: x; var 0..3: y; constraint int_lt(x, y); constraint int_lt(y, x); solve satisfy;",
        "=====UNSATISFIABLE=====\n",
    ),
];

#[test]
fn comparisons(rt: HostRuntime) -> Result<(), Fail> {
    assert_answers(&rt, rt.alloc(), COMPARISONS)
}

/// Sums: a text with its least solution, then one with none, for each name.
const SUMS: &[(&str, &str)] = &[
    (
        "var 0..5: x :: output_var; var 0..5: y :: output_var; var 0..5: z :: output_var; \
         constraint int_lin_eq([3, 5, -2], [x, y, z], 7); solve satisfy;",
        "x = 0;\ny = 3;\nz = 4;\n----------\n",
    ),
    (
        "var 0..5: x; var 0..5: y; constraint int_lin_eq([2, 4], [x, y], 7); solve satisfy;",
        "=====UNSATISFIABLE=====\n",
    ),
    (
        "var 0..1: x :: output_var; var 0..2: y :: output_var; constraint int_lin_ne([1, 1], [x, y], 0); \
         constraint int_lin_ne([1, 1], [x, y], 1); constraint int_lin_ne([3, -1], [x, y], -2); \
         solve satisfy;",
        "x = 1;\ny = 1;\n----------\n",
    ),
    (
        "var 0..1: x; var 0..1: y; constraint int_lin_ne([1, 1], [x, y], 0); \
         constraint int_lin_ne([1, 1], [x, y], 1); constraint int_lin_ne([1, 1], [x, y], 2); solve satisfy;",
        "=====UNSATISFIABLE=====\n",
    ),
    (
        "var 0..3: x :: output_var; var 0..3: y :: output_var; \
         constraint int_lin_le([-2, -3], [x, y], -13); constraint int_lin_le([1, 1], [x, y], 6); \
         solve satisfy;",
        "x = 2;\ny = 3;\n----------\n",
    ),
    (
        "var 0..3: x; var 0..3: y; constraint int_lin_le([1, 1], [x, y], 3); \
         constraint int_lin_le([-1, -1], [x, y], -4); solve satisfy;",
        "=====UNSATISFIABLE=====\n",
    ),
];

#[test]
fn sums(rt: HostRuntime) -> Result<(), Fail> {
    assert_answers(&rt, rt.alloc(), SUMS)
}

/// Comparisons and sums with a boolean: a text with its least solution, then one with none, for each name.
const REIFIED: &[(&str, &str)] = &[
    (
        "var 1..3: x :: output_var; var 2..4: y :: output_var; var bool: r :: output_var; \
         var 0..9: z :: output_var; constraint int_eq_reif(x, 1, false); constraint int_eq_reif(x, y, r); \
         constraint int_eq_reif(z, y, true); solve satisfy;",
        "x = 2;\ny = 2;\nr = true;\nz = 2;\n----------\n",
    ),
    (
        "var 1..2: x; constraint int_eq_reif(x, 1, false); constraint int_eq_reif(x, 2, false); \
         solve satisfy;",
        "=====UNSATISFIABLE=====\n",
    ),
    (
        "var 1..3: x :: output_var; var 0..9: y :: output_var; var bool: r :: output_var; \
         constraint int_ne_reif(x, 1, true); constraint int_ne_reif(y, x, false); \
         constraint int_ne_reif(y, 3, r); solve satisfy;",
        "x = 2;\ny = 2;\nr = true;\n----------\n",
    ),
    (
        "var {1, 3}: x; var {2, 4}: y; constraint int_ne_reif(x, y, false); solve satisfy;",
        "=====UNSATISFIABLE=====\n",
    ),
    (
        "var 0..5: x :: output_var; var 0..5: y :: output_var; var bool: r :: output_var; \
         constraint int_le_reif(x, 2, false); constraint int_le_reif(4, y, true); \
         constraint int_le_reif(y, x, r); solve satisfy;",
        "x = 3;\ny = 4;\nr = false;\n----------\n",
    ),
    (
        "var 0..3: x; var 0..3: y; constraint int_le_reif(x, y, false); \
         constraint int_le_reif(y, x, false); solve satisfy;",
        "=====UNSATISFIABLE=====\n",
    ),
    (
        "var 0..5: x :: output_var; var 0..5: y :: output_var; var bool: r :: output_var; \
         constraint int_lt_reif(x, 2, false); constraint int_lt_reif(1, y, true); \
         constraint int_lt_reif(y, x, r); solve satisfy;",
        "x = 2;\ny = 2;\nr = false;\n----------\n",
    ),
    (
        "var 0..3: x; var 0..3: y; constraint int_lt_reif(x, 1, false); constraint int_lt_reif(x, y, true); \
         constraint int_lt_reif(y, 2, true); solve satisfy;",
        "=====UNSATISFIABLE=====\n",
    ),
    (
        "var 0..4: x :: output_var; var 0..4: y :: output_var; var bool: r :: output_var; \
         constraint int_lin_eq_reif([2, 3], [x, y], 12, true); \
         constraint int_lin_eq_reif([1, 1], [x, y], 4, false); \
         constraint int_lin_eq_reif([1, -1], [x, y], 1, r); solve satisfy;",
        "x = 3;\ny = 2;\nr = true;\n----------\n",
    ),
    (
        "var 0..3: x; var 0..3: y; constraint int_lin_eq_reif([2, -4], [x, y], 3, true); solve satisfy;",
        "=====UNSATISFIABLE=====\n",
    ),
    (
        "var 0..4: x :: output_var; var 0..4: y :: output_var; var bool: r :: output_var; \
         constraint int_lin_ne_reif([1, 2], [x, y], 7, false); \
         constraint int_lin_ne_reif([1, 1], [x, y], 4, true); \
         constraint int_lin_ne_reif([1, -1], [x, y], -2, r); solve satisfy;",
        "x = 3;\ny = 2;\nr = true;\n----------\n",
    ),
    (
        "var 0..3: x; var 0..3: y; constraint int_lin_ne_reif([3, 6], [x, y], 10, false); solve satisfy;",
        "=====UNSATISFIABLE=====\n",
    ),
    (
        "var 1..5: x :: output_var; var 0..5: y :: output_var; var bool: r :: output_var; \
         constraint int_lin_le_reif([1, 1], [x, y], 4, false); \
         constraint int_lin_le_reif([3, -1], [x, y], -2, true); \
         constraint int_lin_le_reif([1, 1], [x, y], 5, r); solve satisfy;",
        "x = 1;\ny = 5;\nr = false;\n----------\n",
    ),
    (
        "var 0..3: x; var 0..3: y; constraint int_lin_le_reif([1, 1], [x, y], 3, false); \
         constraint int_lin_le_reif([-1, -1], [x, y], -4, false); solve satisfy;",
        "=====UNSATISFIABLE=====\n",
    ),
];

#[test]
fn comparisons_with_a_boolean(rt: HostRuntime) -> Result<(), Fail> {
    assert_answers(&rt, rt.alloc(), REIFIED)
}

/// Arithmetic, and the greatest and the least: a text with its least solution, then one with none, for each name.
const ARITHMETIC: &[(&str, &str)] = &[
    (
        "var 1..4: x :: output_var; var 2..5: y :: output_var; var 6..9: z :: output_var; \
         constraint int_plus(x, y, z); solve satisfy;",
        "x = 1;\ny = 5;\nz = 6;\n----------\n",
    ),
    (
        "var 0..4: x; var {1, 3, 5}: y; constraint int_plus(x, x, y); solve satisfy;",
        "=====UNSATISFIABLE=====\n",
    ),
    (
        "var -3..3: x :: output_var; var 1..4: y :: output_var; var -12..-5: z :: output_var; \
         constraint int_times(x, y, z); solve satisfy;",
        "x = -3;\ny = 2;\nz = -6;\n----------\n",
    ),
    (
        "var -3..3: x; var {2, 3, 5, 7, 8}: y; constraint int_times(x, x, y); solve satisfy;",
        "=====UNSATISFIABLE=====\n",
    ),
    (
        "var -9..9: x :: output_var; var -9..9: y :: output_var; var 0..9: z :: output_var; \
         constraint int_div(-7, 2, x); constraint int_div(7, y, -2); constraint int_div(y, y, z); solve satisfy;",
        "x = -3;\ny = -3;\nz = 1;\n----------\n",
    ),
    (
        "var -9..9: x; constraint int_div(x, 0, 1); solve satisfy;",
        "=====UNSATISFIABLE=====\n",
    ),
    (
        "var -9..9: x :: output_var; var 5..9: y :: output_var; var 1..2: z :: output_var; \
         constraint int_mod(-7, 2, x); constraint int_mod(y, -3, z); solve satisfy;",
        "x = -1;\ny = 5;\nz = 2;\n----------\n",
    ),
    (
        "var -9..9: x; constraint int_mod(x, x, x); solve satisfy;",
        "=====UNSATISFIABLE=====\n",
    ),
    (
        "var -4..4: x :: output_var; var 0..2: y :: output_var; var 0..4: z :: output_var; \
         constraint int_abs(x, y); constraint int_abs(z, y); solve satisfy;",
        "x = -2;\ny = 2;\nz = 2;\n----------\n",
    ),
    (
        "var {-3, 2}: x; var {0, 1, 4}: y; constraint int_abs(x, y); solve satisfy;",
        "=====UNSATISFIABLE=====\n",
    ),
    (
        "var 0..6: m :: output_var; var 2..5: x :: output_var; var 1..4: y :: output_var; \
         var 0..4: z :: output_var; constraint int_max(x, y, m); constraint int_max(x, z, 3); \
         solve satisfy;",
        "m = 2;\nx = 2;\ny = 1;\nz = 3;\n----------\n",
    ),
    (
        "var {1, 4}: x; var {2, 5}: y; constraint int_max(x, y, 3); solve satisfy;",
        "=====UNSATISFIABLE=====\n",
    ),
    (
        "var 1..5: x :: output_var; var 2..6: y :: output_var; var 3..4: m :: output_var; \
         constraint int_min(x, y, m); solve satisfy;",
        "x = 3;\ny = 3;\nm = 3;\n----------\n",
    ),
    (
        "var {1, 4}: x; var {2, 5}: y; constraint int_min(x, y, 3); solve satisfy;",
        "=====UNSATISFIABLE=====\n",
    ),
    (
        "var 0..9: m :: output_var; var 1..3: x :: output_var; var 2..5: y :: output_var; \
         var 0..9: z :: output_var; constraint array_int_maximum(m, [x, y, 3]); \
         constraint array_int_maximum(4, [z, x, y]); solve satisfy;",
        "m = 3;\nx = 1;\ny = 2;\nz = 4;\n----------\n",
    ),
    (
        "var {2, 5}: x; var {1, 4}: y; constraint array_int_maximum(3, [x, y]); solve satisfy;",
        "=====UNSATISFIABLE=====\n",
    ),
    (
        "var 5..9: m :: output_var; var 4..6: x :: output_var; var 5..7: y :: output_var; \
         var 3..9: z :: output_var; constraint array_int_minimum(m, [x, y, z]); solve satisfy;",
        "m = 5;\nx = 5;\ny = 5;\nz = 5;\n----------\n",
    ),
    (
        "var {2, 5}: x; var {1, 4}: y; constraint array_int_minimum(3, [x, y]); solve satisfy;",
        "=====UNSATISFIABLE=====\n",
    ),
];

#[test]
fn arithmetic(rt: HostRuntime) -> Result<(), Fail> {
    assert_answers(&rt, rt.alloc(), ARITHMETIC)
}

/// Elements and sets: a text with its least solution, then one with none, for each name.
const PLACES: &[(&str, &str)] = &[
    (
        "var 0..9: i :: output_var; var 5..9: c :: output_var; \
         constraint array_int_element(i, [3, 4, 2, 7], c); solve satisfy;",
        "i = 4;\nc = 7;\n----------\n",
    ),
    (
        "var 1..3: i; var {2, 4}: c; constraint array_int_element(i, [1, 3, 5], c); solve satisfy;",
        "=====UNSATISFIABLE=====\n",
    ),
    (
        "var 0..9: i :: output_var; var 1..2: x :: output_var; var 4..6: y :: output_var; \
         var 5..9: c :: output_var; constraint array_var_int_element(i, [x, 3, y], c); solve satisfy;",
        "i = 3;\nx = 1;\ny = 5;\nc = 5;\n----------\n",
    ),
    (
        "var 2..4: i; var {1, 4}: x; var {2, 6}: y; var {3, 5}: c; \
         constraint array_var_int_element(i, [c, x, y], c); solve satisfy;",
        "=====UNSATISFIABLE=====\n",
    ),
    (
        "var 0..9: i :: output_var; var bool: c :: output_var; \
         constraint array_bool_element(i, [false, false, false, true], true); \
         constraint array_bool_element(i, [true, true, true, false], c); solve satisfy;",
        "i = 4;\nc = false;\n----------\n",
    ),
    (
        "var 1..2: i; constraint array_bool_element(i, [false, false, true], true); solve satisfy;",
        "=====UNSATISFIABLE=====\n",
    ),
    (
        "var 0..9: i :: output_var; var bool: a :: output_var; var bool: b :: output_var; \
         constraint array_var_bool_element(i, [false, false, a], true); \
         constraint array_var_bool_element(i, [a, a, b], false); solve satisfy;",
        "i = 3;\na = true;\nb = false;\n----------\n",
    ),
    (
        "var 1..4: i; var bool: a; constraint array_var_bool_element(i, [a, false, a], true); \
         constraint array_var_bool_element(1, [a], false); solve satisfy;",
        "=====UNSATISFIABLE=====\n",
    ),
    (
        "var 0..9: x :: output_var; var 0..9: y :: output_var; var 2..9: z :: output_var; \
         constraint set_in(x, {3, 5, 6}); constraint set_in(x, 4..8); constraint set_in(y, {2, 7}); \
         constraint set_in(z, {1, 9}); solve satisfy;",
        "x = 5;\ny = 2;\nz = 9;\n----------\n",
    ),
    (
        "var 0..9: x; constraint set_in(x, {1, 2, 7, 8}); constraint set_in(x, 3..6); solve satisfy;",
        "=====UNSATISFIABLE=====\n",
    ),
    (
        "var 0..9: x :: output_var; var 0..9: y :: output_var; var bool: r :: output_var; \
         var bool: s :: output_var; constraint set_in_reif(x, {0, 1, 4}, false); \
         constraint set_in_reif(y, {3, 9}, true); constraint set_in_reif(x, {2, 5}, r); \
         constraint set_in_reif(y, {1, 2, 4, 5}, s); solve satisfy;",
        "x = 2;\ny = 3;\nr = true;\ns = false;\n----------\n",
    ),
    (
        "var 0..3: x; constraint set_in_reif(x, {0, 2}, false); constraint set_in_reif(x, {1, 3}, false); \
         solve satisfy;",
        "=====UNSATISFIABLE=====\n",
    ),
];

#[test]
fn elements_and_sets(rt: HostRuntime) -> Result<(), Fail> {
    assert_answers(&rt, rt.alloc(), PLACES)
}

/// Variables that differ, and tasks that share a resource: a text with its least solution, then one with none.
const DIFFERENT_AND_TASKS: &[(&str, &str)] = &[
    (
        "var 1..2: x :: output_var; var 1..2: y :: output_var; var 1..4: z :: output_var; \
         constraint pccp_all_different([x, y, z]); solve minimize z;",
        "x = 1;\ny = 2;\nz = 3;\n----------\n==========\n",
    ),
    (
        "var 1..2: x; var 1..2: y; var 1..2: z; constraint pccp_all_different([x, y, z]); solve satisfy;",
        "=====UNSATISFIABLE=====\n",
    ),
    (
        "var 0..5: t :: output_var; constraint pccp_cumulative([0, t], [3, 2], [2, 2], 3); solve minimize t;",
        "t = 3;\n----------\n==========\n",
    ),
    (
        "var 0..2: t; constraint pccp_cumulative([0, t], [3, 2], [2, 2], 3); solve satisfy;",
        "=====UNSATISFIABLE=====\n",
    ),
    // a variable that occurs twice never differs, and a task may run beside itself where both fit
    (
        "var 1..9: x; constraint pccp_all_different([x, x]); solve satisfy;",
        "=====UNSATISFIABLE=====\n",
    ),
    (
        "var 4..9: x :: output_var; constraint pccp_cumulative([x, x], [1, 1], [1, 2], 3); solve satisfy;",
        "x = 4;\n----------\n",
    ),
    (
        "var 4..9: x; constraint pccp_cumulative([x, x], [1, 1], [1, 2], 2); solve satisfy;",
        "=====UNSATISFIABLE=====\n",
    ),
    // a task without a duration or a usage uses nothing
    (
        "var 4..9: x :: output_var; constraint pccp_cumulative([x, x, x], [2, 0, 3], [2, 9, 0], 2); solve satisfy;",
        "x = 4;\n----------\n",
    ),
    (
        "var 0..1: x :: output_var; constraint pccp_all_different([]); \
         constraint pccp_cumulative([], [], [], 0); solve satisfy;",
        "x = 0;\n----------\n",
    ),
    (
        "constraint pccp_all_different([3, -1, 3]); solve satisfy;",
        "=====UNSATISFIABLE=====\n",
    ),
];

#[test]
fn different_numbers_and_tasks(rt: HostRuntime) -> Result<(), Fail> {
    assert_answers(&rt, rt.alloc(), DIFFERENT_AND_TASKS)
}
