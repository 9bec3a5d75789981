//! Each constraint on booleans: a text with its least solution, and one with none.

use crate::calls::assert_answers;
use std::test::Fail;

/// Booleans: a text with its least solution, then one with none, for each name.
const BOOLEANS: &[(&str, &str)] = &[
    (
        "var bool: b :: output_var; var 1..5: i :: output_var; constraint bool2int(b, i); solve satisfy;",
        "b = true;\ni = 1;\n----------\n",
    ),
    (
        "var bool: b; var {-1, 2}: i; constraint bool2int(b, i); solve satisfy;",
        "=====UNSATISFIABLE=====\n",
    ),
    (
        "var bool: a :: output_var; var bool: b :: output_var; var bool: c :: output_var; \
         constraint bool_eq(a, b); constraint bool_eq(b, true); constraint bool_eq(c, false); \
         solve satisfy;",
        "a = true;\nb = true;\nc = false;\n----------\n",
    ),
    (
        "var bool: a; var bool: b; constraint bool_eq(a, b); constraint bool_eq(a, true); \
         constraint bool_eq(b, false); solve satisfy;",
        "=====UNSATISFIABLE=====\n",
    ),
    (
        "var bool: a :: output_var; var bool: b :: output_var; var bool: c :: output_var; \
         constraint bool_le(true, a); constraint bool_le(a, b); constraint bool_le(c, b); solve satisfy;",
        "a = true;\nb = true;\nc = false;\n----------\n",
    ),
    (
        "var bool: a; var bool: b; constraint bool_le(true, a); constraint bool_le(a, b); \
         constraint bool_le(b, false); solve satisfy;",
        "=====UNSATISFIABLE=====\n",
    ),
    (
        "var bool: a :: output_var; var bool: b :: output_var; constraint bool_lt(a, b); solve satisfy;",
        "a = false;\nb = true;\n----------\n",
    ),
    (
        "var bool: a; var bool: b; var bool: c; constraint bool_lt(a, b); constraint bool_lt(b, c); \
         solve satisfy;",
        "=====UNSATISFIABLE=====\n",
    ),
    (
        "var bool: a :: output_var; var bool: b :: output_var; var bool: c :: output_var; \
         var bool: r :: output_var; var bool: s :: output_var; constraint bool_eq_reif(a, true, false); \
         constraint bool_eq_reif(c, true, true); constraint bool_eq_reif(a, b, r); \
         constraint bool_eq_reif(c, a, s); solve satisfy;",
        "a = false;\nb = false;\nc = true;\nr = true;\ns = false;\n----------\n",
    ),
    (
        "var bool: a; var bool: b; var bool: c; constraint bool_eq_reif(a, b, false); \
         constraint bool_eq_reif(b, c, false); constraint bool_eq_reif(a, c, false); solve satisfy;",
        "=====UNSATISFIABLE=====\n",
    ),
    (
        "var bool: a :: output_var; var bool: b :: output_var; var bool: c :: output_var; \
         var bool: d :: output_var; var bool: r :: output_var; var bool: s :: output_var; \
         constraint bool_le_reif(a, b, false); constraint bool_le_reif(a, d, true); \
         constraint bool_le_reif(b, c, r); constraint bool_le_reif(a, c, s); solve satisfy;",
        "a = true;\nb = false;\nc = false;\nd = true;\nr = true;\ns = false;\n----------\n",
    ),
    (
        "var bool: a; var bool: b; var bool: c; constraint bool_le_reif(a, b, false); \
         constraint bool_le_reif(b, c, false); solve satisfy;",
        "=====UNSATISFIABLE=====\n",
    ),
    (
        "var bool: a :: output_var; var bool: b :: output_var; var bool: c :: output_var; \
         var bool: r :: output_var; var bool: s :: output_var; constraint bool_lt_reif(a, b, true); \
         constraint bool_lt_reif(c, b, false); constraint bool_lt_reif(c, a, r); \
         constraint bool_lt_reif(a, c, s); solve satisfy;",
        "a = false;\nb = true;\nc = true;\nr = false;\ns = true;\n----------\n",
    ),
    (
        "var bool: a; var bool: b; constraint bool_lt_reif(a, true, true); \
         constraint bool_lt_reif(false, b, true); constraint bool_lt_reif(a, b, false); solve satisfy;",
        "=====UNSATISFIABLE=====\n",
    ),
    (
        "var bool: a :: output_var; var bool: b :: output_var; var bool: c :: output_var; \
         constraint bool_not(a, b); constraint bool_not(b, c); solve satisfy;",
        "a = false;\nb = true;\nc = false;\n----------\n",
    ),
    (
        "var bool: a; var bool: b; var bool: c; constraint bool_not(a, b); constraint bool_not(b, c); \
         constraint bool_not(a, c); solve satisfy;",
        "=====UNSATISFIABLE=====\n",
    ),
    (
        "var bool: a :: output_var; var bool: b :: output_var; var bool: c :: output_var; \
         var bool: d :: output_var; var bool: r :: output_var; constraint bool_xor(a, b, true); \
         constraint bool_xor(b, c, false); constraint bool_xor(b, d); constraint bool_xor(c, d, r); \
         solve satisfy;",
        "a = false;\nb = true;\nc = true;\nd = false;\nr = true;\n----------\n",
    ),
    (
        "var bool: a; var bool: b; var bool: c; constraint bool_xor(a, b, true); constraint bool_xor(b, c); \
         constraint bool_xor(a, c, true); solve satisfy;",
        "=====UNSATISFIABLE=====\n",
    ),
];

#[test]
fn booleans(rt: HostRuntime) -> Result<(), Fail> {
    assert_answers(&rt, rt.alloc(), BOOLEANS)
}

/// Conjunctions, disjunctions and clauses: a text with its least solution, then one with none, for each name.
const CLAUSES: &[(&str, &str)] = &[
    (
        "var bool: a :: output_var; var bool: b :: output_var; var bool: c :: output_var; \
         var bool: r :: output_var; var bool: s :: output_var; constraint bool_and(c, a, true); \
         constraint bool_and(a, b, r); constraint bool_and(a, c, s); solve satisfy;",
        "a = true;\nb = false;\nc = true;\nr = false;\ns = true;\n----------\n",
    ),
    (
        "var bool: a; var bool: b; constraint bool_and(a, a, true); constraint bool_and(b, b, true); \
         constraint bool_and(a, b, false); solve satisfy;",
        "=====UNSATISFIABLE=====\n",
    ),
    (
        "var bool: a :: output_var; var bool: b :: output_var; var bool: c :: output_var; \
         var bool: r :: output_var; var bool: s :: output_var; constraint bool_or(a, b, true); \
         constraint bool_or(c, a, false); constraint bool_or(a, c, r); constraint bool_or(b, c, s); \
         solve satisfy;",
        "a = false;\nb = true;\nc = false;\nr = false;\ns = true;\n----------\n",
    ),
    (
        "var bool: a; var bool: b; constraint bool_or(a, a, false); constraint bool_or(b, b, false); \
         constraint bool_or(a, b, true); solve satisfy;",
        "=====UNSATISFIABLE=====\n",
    ),
    (
        "var bool: a :: output_var; var bool: b :: output_var; var bool: c :: output_var; \
         var bool: r :: output_var; var bool: s :: output_var; \
         constraint array_bool_and([b, c, true], true); constraint array_bool_and([a, b, c], false); \
         constraint array_bool_and([c, b], r); constraint array_bool_and([c, b, a], s); solve satisfy;",
        "a = false;\nb = true;\nc = true;\nr = true;\ns = false;\n----------\n",
    ),
    (
        "var bool: a; var bool: b; var bool: c; constraint array_bool_and([a, b, c], true); \
         constraint array_bool_and([a, c], false); solve satisfy;",
        "=====UNSATISFIABLE=====\n",
    ),
    (
        "var bool: a :: output_var; var bool: b :: output_var; var bool: c :: output_var; \
         var bool: r :: output_var; var bool: s :: output_var; constraint array_bool_or([a, b, c], true); \
         constraint array_bool_or([a, b], false); constraint array_bool_or([b, c], r); \
         constraint array_bool_or([a, b, false], s); solve satisfy;",
        "a = false;\nb = false;\nc = true;\nr = true;\ns = false;\n----------\n",
    ),
    (
        "var bool: a; var bool: b; var bool: c; constraint array_bool_or([a, c], true); \
         constraint array_bool_or([c, b, a], false); solve satisfy;",
        "=====UNSATISFIABLE=====\n",
    ),
    (
        "var bool: a :: output_var; var bool: b :: output_var; var bool: c :: output_var; \
         var bool: d :: output_var; constraint bool_clause([a, b], []); constraint bool_clause([], [b]); \
         constraint bool_clause([b, c], [a]); constraint bool_clause([d], [a, b]); solve satisfy;",
        "a = true;\nb = false;\nc = true;\nd = false;\n----------\n",
    ),
    (
        "var bool: a; var bool: b; constraint bool_clause([a, b], []); constraint bool_clause([a], [b]); \
         constraint bool_clause([b], [a]); constraint bool_clause([], [a, b]); solve satisfy;",
        "=====UNSATISFIABLE=====\n",
    ),
    (
        "var bool: a :: output_var; var bool: b :: output_var; var bool: c :: output_var; \
         var bool: r :: output_var; var bool: s :: output_var; \
         constraint bool_clause_reif([a], [b], false); constraint bool_clause_reif([a, c], [b], true); \
         constraint bool_clause_reif([a], [c], r); constraint bool_clause_reif([], [b, a], s); \
         solve satisfy;",
        "a = false;\nb = true;\nc = true;\nr = false;\ns = true;\n----------\n",
    ),
    (
        "var bool: a; var bool: b; constraint bool_clause_reif([a], [b], false); \
         constraint bool_clause_reif([b], [a], false); solve satisfy;",
        "=====UNSATISFIABLE=====\n",
    ),
];

#[test]
fn conjunctions_and_clauses(rt: HostRuntime) -> Result<(), Fail> {
    assert_answers(&rt, rt.alloc(), CLAUSES)
}

/// Sums of booleans: a text with its least solution, then one with none, for each name.
const BOOLEAN_SUMS: &[(&str, &str)] = &[
    (
        "var bool: a :: output_var; var bool: b :: output_var; var bool: c :: output_var; \
         constraint bool_lin_le([-2, -3, -4], [a, b, c], -7); \
         constraint bool_lin_le([1, 1, 1], [a, b, c], 3); solve satisfy;",
        "a = false;\nb = true;\nc = true;\n----------\n",
    ),
    (
        "var bool: a; var bool: b; var bool: c; constraint bool_lin_le([-2, -3, -4], [a, b, c], -6); \
         constraint bool_lin_le([1, 1, 1], [a, b, c], 1); solve satisfy;",
        "=====UNSATISFIABLE=====\n",
    ),
    (
        "var bool: a :: output_var; var bool: b :: output_var; var bool: c :: output_var; \
         var 5..6: s :: output_var; constraint bool_lin_eq([2, 3, 4], [a, b, c], s); solve satisfy;",
        "a = true;\nb = false;\nc = true;\ns = 6;\n----------\n",
    ),
    (
        "var bool: a; var bool: b; var bool: c; var {1, 8}: s; \
         constraint bool_lin_eq([2, 3, 4], [a, b, c], s); solve satisfy;",
        "=====UNSATISFIABLE=====\n",
    ),
];

#[test]
fn sums_of_booleans(rt: HostRuntime) -> Result<(), Fail> {
    assert_answers(&rt, rt.alloc(), BOOLEAN_SUMS)
}

/// Sums of 70 booleans, 40 a + 20 b - 10 c, that equal two numbers: a text with its least solution, then one with none.
const LONG_SUMS: &[(&str, &str)] = &[
    (
        "var bool: a :: output_var; var bool: b :: output_var; var bool: c :: output_var; \
         var {45, 50, 60}: s :: output_var; var -99..99: t :: output_var; \
         array [1..70] of int: weights = [ \
         1, 1, 1, 1, 1, 1, 1, 1, 1, 1, 1, 1, 1, 1, 1, 1, 1, 1, 1, 1, \
         1, 1, 1, 1, 1, 1, 1, 1, 1, 1, 1, 1, 1, 1, 1, 1, 1, 1, 1, 1, \
         1, 1, 1, 1, 1, 1, 1, 1, 1, 1, 1, 1, 1, 1, 1, 1, 1, 1, 1, 1, \
         -1, -1, -1, -1, -1, -1, -1, -1, -1, -1]; \
         array [1..70] of var bool: list = [ \
         a, a, a, a, a, a, a, a, a, a, a, a, a, a, a, a, a, a, a, a, \
         a, a, a, a, a, a, a, a, a, a, a, a, a, a, a, a, a, a, a, a, \
         b, b, b, b, b, b, b, b, b, b, b, b, b, b, b, b, b, b, b, b, \
         c, c, c, c, c, c, c, c, c, c]; \
         constraint bool_lin_eq(weights, list, s); constraint bool_lin_eq(weights, list, t); solve satisfy;",
        "a = true;\nb = true;\nc = false;\ns = 60;\nt = 60;\n----------\n",
    ),
    (
        "var bool: a; var bool: b; var bool: c; var -99..40: s; var 45..99: t; \
         array [1..70] of int: weights = [ \
         1, 1, 1, 1, 1, 1, 1, 1, 1, 1, 1, 1, 1, 1, 1, 1, 1, 1, 1, 1, \
         1, 1, 1, 1, 1, 1, 1, 1, 1, 1, 1, 1, 1, 1, 1, 1, 1, 1, 1, 1, \
         1, 1, 1, 1, 1, 1, 1, 1, 1, 1, 1, 1, 1, 1, 1, 1, 1, 1, 1, 1, \
         -1, -1, -1, -1, -1, -1, -1, -1, -1, -1]; \
         array [1..70] of var bool: list = [ \
         a, a, a, a, a, a, a, a, a, a, a, a, a, a, a, a, a, a, a, a, \
         a, a, a, a, a, a, a, a, a, a, a, a, a, a, a, a, a, a, a, a, \
         b, b, b, b, b, b, b, b, b, b, b, b, b, b, b, b, b, b, b, b, \
         c, c, c, c, c, c, c, c, c, c]; \
         constraint bool_lin_eq(weights, list, s); constraint bool_lin_eq(weights, list, t); solve satisfy;",
        "=====UNSATISFIABLE=====\n",
    ),
];

#[test]
fn long_sums_of_booleans(rt: HostRuntime) -> Result<(), Fail> {
    assert_answers(&rt, rt.alloc(), LONG_SUMS)
}
