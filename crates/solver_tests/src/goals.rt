//! Whole texts with objectives, with all solutions, under limits and cut into parts.

use crate::calls::assert_calls;
use std::test::Fail;

/// Two numbers whose product is given.
const PRODUCT: &str =
    "var -3..3: x :: output_var; var -3..3: y :: output_var; constraint int_times(x,y,-6); solve satisfy;";

/// A sum under a bound, with the greatest value of another.
const SUMS: &str =
    "var 0..10: x :: output_var; var 0..10: y :: output_var; var 0..14: z :: output_var; \
     constraint int_lin_le([1,1],[x,y],7); constraint int_lin_eq([1,2,-1],[x,y,z],0); solve maximize z;";

const SUMS_ANSWER: &str = "x = 0;\ny = 7;\nz = 14;\n----------\n==========\n";

/// One variable of three values.
const THREE: &str = "var 1..3: x :: output_var; solve maximize x;";

const TWO: &str = "var 1..2: x :: output_var; solve satisfy;";

const FOUR: &str = "var 0..3: x :: output_var; solve satisfy;";

const BOUNDS: &str = "var 1..3: x :: output_var; constraint int_le(2,x); solve satisfy;";

/// Where x is 0 it takes three nodes to see that y and z can't be equal and differ; where x is 1, two to the first of two
/// solutions.
const LATE: &str =
    "var 0..1: x :: output_var; var 0..1: y :: output_var; var 0..1: z :: output_var; \
     constraint int_lin_le([1,-1,-1],[y,z,x],0); constraint int_lin_le([1,-1,-1],[z,y,x],0); constraint int_ne(y,z); solve satisfy;";

/// The same without what solves it.
const NEVER: &str = "var 0..0: x; var 0..1: y; var 0..1: z; \
     constraint int_lin_le([1,-1,-1],[y,z,x],0); constraint int_lin_le([1,-1,-1],[z,y,x],0); constraint int_ne(y,z); solve satisfy;";

const LATE_FIRST: &str = "x = 1;\ny = 0;\nz = 1;\n----------\n";

/// The least cost, 4, is at once known to be it. Where x is 0 all else is fixed; where x is 1 four more variables are to be.
pub(crate) const EASY_FIRST: &str =
    "var 0..1: x :: output_var; var 0..1: a; var 0..1: b; var 0..1: c; var 0..1: d; var 0..9: o :: output_var; \
     constraint int_le(a,x); constraint int_le(b,x); constraint int_le(c,x); constraint int_le(d,x); constraint int_le(4,o); \
     solve minimize o;";

/// The other way round.
pub(crate) const HARD_FIRST: &str =
    "var 0..1: x :: output_var; var 0..1: a; var 0..1: b; var 0..1: c; var 0..1: d; var 0..9: o :: output_var; \
     constraint int_lin_le([1,1],[a,x],1); constraint int_lin_le([1,1],[b,x],1); constraint int_lin_le([1,1],[c,x],1); \
     constraint int_lin_le([1,1],[d,x],1); constraint int_le(4,o); solve minimize o;";

/// Words, a text, and its answer.
const GOALS: &[(&str, &str, &str)] = &[
    (
        "turbofzn -a m.fzn",
        PRODUCT,
        "x = -3;\ny = 2;\n----------\nx = -2;\ny = 3;\n----------\nx = 2;\ny = -3;\n----------\nx = 3;\ny = -2;\n----------\n==========\n",
    ),
    ("turbofzn m.fzn", PRODUCT, "x = -3;\ny = 2;\n----------\n"),
    (
        "turbofzn m.fzn",
        "var -5..5: x :: output_var; constraint int_lin_le([2],[x],-3); solve maximize x;",
        "x = -2;\n----------\n==========\n",
    ),
    ("turbofzn m.fzn", SUMS, SUMS_ANSWER),
    ("turbofzn -p 2 m.fzn", SUMS, SUMS_ANSWER),
    ("turbofzn -p 2 --lanes 3 m.fzn", SUMS, SUMS_ANSWER),
    ("turbofzn -p 8 --lanes 1 m.fzn", SUMS, SUMS_ANSWER),
    ("turbofzn -p 8 --lanes 3 m.fzn", SUMS, SUMS_ANSWER),
    ("turbofzn --lanes 3 --depth 0 m.fzn", SUMS, SUMS_ANSWER),
    ("turbofzn -a --round-limit 35 m.fzn", SUMS, SUMS_ANSWER),
    ("turbofzn -p 1 --steal m.fzn", SUMS, SUMS_ANSWER),
    ("turbofzn -p 2 --steal m.fzn", SUMS, SUMS_ANSWER),
    ("turbofzn -p 8 --steal m.fzn", SUMS, SUMS_ANSWER),
    (
        "turbofzn -p 1 --steal --node-limit 1000 m.fzn",
        SUMS,
        SUMS_ANSWER,
    ),
    ("turbofzn -p 64 --depth 2 --steal m.fzn", SUMS, SUMS_ANSWER),
    ("turbofzn -p 64 --depth 16 --steal m.fzn", SUMS, SUMS_ANSWER),
    (
        "turbofzn -p 2 --depth 1 m.fzn",
        "var 0..1: x :: output_var; var 0..1: y :: output_var; var 0..9: o :: output_var; \
         constraint int_lin_eq([1,1],[x,y],1); constraint int_le(4,o); solve minimize o;",
        "x = 0;\ny = 1;\no = 4;\n----------\n==========\n",
    ),
    (
        "turbofzn m.fzn",
        "var {1,4,9}: x :: output_var; constraint int_ne(x,1); solve minimize x;",
        "x = 4;\n----------\n==========\n",
    ),
    (
        "turbofzn -a m.fzn",
        "var 0..5: i :: output_var; var int: c :: output_var; constraint array_int_element(i,[7,8,7],c); solve satisfy;",
        "i = 1;\nc = 7;\n----------\ni = 2;\nc = 8;\n----------\ni = 3;\nc = 7;\n----------\n==========\n",
    ),
    (
        "turbofzn -a m.fzn",
        "var -3..3: y :: output_var; var -9..9: z :: output_var; constraint int_div(7,y,z); solve satisfy;",
        "y = -3;\nz = -2;\n----------\ny = -2;\nz = -3;\n----------\ny = -1;\nz = -7;\n----------\n\
         y = 1;\nz = 7;\n----------\ny = 2;\nz = 3;\n----------\ny = 3;\nz = 2;\n----------\n==========\n",
    ),
    (
        "turbofzn m.fzn",
        "var 0..140737488355327: x :: output_var; \
         solve :: int_search([x], input_order, indomain_max, complete) maximize x;",
        "x = 140737488355327;\n----------\n==========\n",
    ),
    (
        "turbofzn m.fzn",
        "var 1..2: x; constraint int_lt(x,x); solve minimize x;",
        "=====UNSATISFIABLE=====\n",
    ),
    (
        "turbofzn m.fzn",
        "var 4..6: x :: output_var; solve minimize 3;",
        "x = 4;\n----------\n==========\n",
    ),
];

/// The same under limits.
const LIMITS: &[(&str, &str, &str)] = &[
    (
        "turbofzn --depth 0 --node-limit 2 m.fzn",
        THREE,
        "x = 1;\n----------\n",
    ),
    (
        "turbofzn -a --depth 0 --node-limit 2 m.fzn",
        "var 1..3: x :: output_var; solve satisfy;",
        "x = 1;\n----------\n",
    ),
    (
        "turbofzn --depth 0 --node-limit 1 m.fzn",
        TWO,
        "=====UNKNOWN=====\n",
    ),
    (
        "turbofzn --depth 0 --node-limit 0 m.fzn",
        TWO,
        "x = 1;\n----------\n",
    ),
    (
        "turbofzn -a --depth 1 --node-limit 1 m.fzn",
        FOUR,
        "x = 0;\n----------\n",
    ),
    (
        "turbofzn --depth 0 --round-limit 1 m.fzn",
        BOUNDS,
        "=====UNKNOWN=====\n",
    ),
    (
        "turbofzn --round-limit 1 m.fzn",
        BOUNDS,
        "x = 2;\n----------\n",
    ),
    // part 0 has no solution, part 1 has one
    ("turbofzn --depth 1 --node-limit 3 m.fzn", LATE, LATE_FIRST),
    // part 0 is stopped, part 1 has one
    ("turbofzn --depth 1 --node-limit 2 m.fzn", LATE, LATE_FIRST),
    // both are stopped
    (
        "turbofzn --depth 1 --node-limit 1 m.fzn",
        LATE,
        "=====UNKNOWN=====\n",
    ),
    // neither has one
    (
        "turbofzn --depth 1 --node-limit 1 m.fzn",
        NEVER,
        "=====UNSATISFIABLE=====\n",
    ),
    // part 0 has none, part 1 has two
    (
        "turbofzn -a --depth 1 --node-limit 3 m.fzn",
        LATE,
        "x = 1;\ny = 0;\nz = 1;\n----------\nx = 1;\ny = 1;\nz = 0;\n----------\n==========\n",
    ),
    // both are stopped, part 1 behind its first
    (
        "turbofzn -a --depth 1 --node-limit 2 m.fzn",
        LATE,
        LATE_FIRST,
    ),
    // part 0 has the least cost, and nothing in part 1 costs less; then part 0 has the first solution that costs so much
    (
        "turbofzn --depth 1 --node-limit 3 m.fzn",
        EASY_FIRST,
        "x = 0;\no = 4;\n----------\n==========\n",
    ),
    // part 0 is stopped with nothing, part 1 has the best
    (
        "turbofzn --depth 1 --node-limit 3 m.fzn",
        HARD_FIRST,
        "x = 1;\no = 4;\n----------\n",
    ),
];

/// Made texts; the objective of 200 variables is the longest way through the drawn distances.
const MADE: &[(&str, &str, &str)] = &[
    (
        "turbofzn --make 2",
        "",
        "variables 2 kernels 8 objective 9\n",
    ),
    (
        "turbofzn --make 200",
        "",
        "variables 200 kernels 800 objective 53\n",
    ),
    (
        "turbofzn --make 200 -p 2",
        "",
        "variables 200 kernels 800 objective 53\n",
    ),
    (
        "turbofzn --make 200 -p 8",
        "",
        "variables 200 kernels 800 objective 53\n",
    ),
    (
        "turbofzn --make 2 --depth 0 --node-limit 1 m.fzn",
        "$",
        "variables 2 kernels 8 objective unknown\n",
    ),
];

#[test]
fn objectives_and_all_solutions(rt: HostRuntime) -> Result<(), Fail> {
    assert_calls(&rt, rt.alloc(), GOALS)
}

/// Trees of many parts, and of many nodes.
const LARGE: &[(&str, &str, &str)] = &[
    ("turbofzn --depth 16 m.fzn", SUMS, SUMS_ANSWER),
    (
        "turbofzn --depth 0 m.fzn",
        "var 0..20001: x :: output_var; constraint int_le(x,20000); solve maximize x;",
        "x = 20000;\n----------\n==========\n",
    ),
];

#[test]
fn large_trees_are_searched(rt: HostRuntime) -> Result<(), Fail> {
    assert_calls(&rt, rt.alloc(), LARGE)
}

#[test]
fn limits_leave_marks_away(rt: HostRuntime) -> Result<(), Fail> {
    assert_calls(&rt, rt.alloc(), LIMITS)
}

#[test]
fn made_texts_have_a_line(rt: HostRuntime) -> Result<(), Fail> {
    assert_calls(&rt, rt.alloc(), MADE)
}
