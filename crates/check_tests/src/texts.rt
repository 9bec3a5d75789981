//! Texts of models and of solutions, and how the check of each two ends.

use crate::calls::{FACTORS, assert_texts};
use fzn_check::Status;
use std::test::Fail;

/// A model whose one variable is printed by itself, twice in an array with a constant, and not in an array without entries.
const TWICE: &str = "var 0..3: x :: output_var; \
     array [1..3] of var int: a :: output_array([1..3]) = [x,5,x]; \
     array [1..0] of var int: e :: output_array([1..0]) = []; solve satisfy;";

/// A boolean that says whether a number is 3.
const REIFIED: &str = "var 1..3: x :: output_var; var bool: b :: output_var; \
     constraint int_eq_reif(x,3,b); solve satisfy;";

/// Three constraints, of which the first is added by a declaration.
const CHAIN: &str = "var {1,4,9}: x :: output_var; var 0..9: y :: output_var; \
     constraint int_le(x,y); constraint int_ne(x,y); solve satisfy;";

/// A model without variables.
const EMPTY: &str = "solve satisfy;";

/// A model, solutions, and the line of the verdict where all are right.
const RIGHT: &[(&str, &str, &str)] = &[
    (
        FACTORS,
        "x = -3;\ny = 2;\n----------\nx = -2;\ny = 3;\n----------\nx = 2;\ny = -3;\n----------\nx = 3;\ny = -2;\n----------\n==========\n",
        "ok 4\n",
    ),
    (
        FACTORS,
        "x = 3;\ny = -2;\n----------\nx = 3;\ny = -2;\n----------\n",
        "ok 2\n",
    ),
    // Whether what the mark says is true isn't judged.
    (FACTORS, "", "ok 0\n"),
    (FACTORS, "==========\n", "ok 0\n"),
    (FACTORS, "=====UNSATISFIABLE=====\n", "ok 0\n"),
    (FACTORS, "=====UNKNOWN=====\n", "ok 0\n"),
    (
        TWICE,
        "x = 1;\na = array1d(1..3, [1, 5, 1]);\ne = array1d(1..0, []);\n----------\n",
        "ok 1\n",
    ),
    (
        REIFIED,
        "x = 3;\nb = true;\n----------\nx = 2;\nb = false;\n----------\n",
        "ok 2\n",
    ),
    (CHAIN, "x = 4;\ny = 9;\n----------\n", "ok 1\n"),
    (EMPTY, "----------\n----------\n==========\n", "ok 2\n"),
];

#[test]
fn right_solutions_are_counted(rt: HostRuntime) -> Result<(), Fail> {
    for (model, solutions, line) in RIGHT {
        let ended = (Status::Right, *line, "");
        assert_texts(&rt, rt.alloc(), model, solutions, &ended)?;
    }
    Ok(())
}

/// A model, solutions, and the line of the verdict where some solution is none.
const WRONG: &[(&str, &str, &str)] = &[
    (
        FACTORS,
        "x = -3;\ny = 3;\n----------\nx = -2;\ny = 3;\n----------\n",
        "solution 1 violates 1 int_times\n",
    ),
    (
        FACTORS,
        "x = 4;\ny = 2;\n----------\nx = -2;\ny = 3;\n----------\n",
        "solution 1 outside x\n",
    ),
    (
        FACTORS,
        "x = -3;\ny = 2;\n----------\nx = -2;\ny = 2;\n----------\nx = 9;\ny = 9;\n----------\n==========\n",
        "solution 2 violates 1 int_times\n",
    ),
    // Both variables are outside, and the product is no -6.
    (
        FACTORS,
        "x = -4;\ny = 9;\n----------\n",
        "solution 1 outside x\n",
    ),
    (
        FACTORS,
        "x = 3;\ny = 4;\n----------\n",
        "solution 1 outside y\n",
    ),
    // The greatest number that a text may have.
    (
        FACTORS,
        "x = 140737488355327;\ny = 1;\n----------\n",
        "solution 1 outside x\n",
    ),
    (
        REIFIED,
        "x = 3;\nb = false;\n----------\n",
        "solution 1 violates 1 int_eq_reif\n",
    ),
    (
        REIFIED,
        "x = 2;\nb = true;\n----------\n",
        "solution 1 violates 1 int_eq_reif\n",
    ),
    // A hole of the declared set is no bound.
    (
        CHAIN,
        "x = 5;\ny = 9;\n----------\n",
        "solution 1 violates 1 set_in\n",
    ),
    (
        CHAIN,
        "x = 0;\ny = 9;\n----------\n",
        "solution 1 outside x\n",
    ),
    (
        CHAIN,
        "x = 9;\ny = 8;\n----------\n",
        "solution 1 violates 2 int_le\n",
    ),
    (
        CHAIN,
        "x = 9;\ny = 9;\n----------\n",
        "solution 1 violates 3 int_ne\n",
    ),
];

#[test]
fn the_first_that_is_wrong_is_told(rt: HostRuntime) -> Result<(), Fail> {
    for (model, solutions, line) in WRONG {
        let ended = (Status::Wrong, *line, "");
        assert_texts(&rt, rt.alloc(), model, solutions, &ended)?;
    }
    Ok(())
}

/// A model, and a text that is the text of no answer.
const BAD: &[(&str, &str)] = &[
    (FACTORS, "x = -3;\ny = 2;\n----------\n=========="),
    (FACTORS, "x = -3;\ny = 2;\n----------\n====="),
    (FACTORS, "=====UNSATISFIABLE"),
    (FACTORS, "==========\nx = -3;\ny = 2;\n----------\n"),
    (FACTORS, "==========\n==========\n"),
    (FACTORS, "x = -3;\ny = 2;\n----------"),
    (FACTORS, "x = -3;\ny = 2;\n"),
    (FACTORS, "y = 2;\nx = -3;\n----------\n"),
    (FACTORS, "\n"),
    (FACTORS, "x = -3;\n\ny = 2;\n----------\n"),
    (FACTORS, "x = -3;\r\ny = 2;\r\n----------\r\n"),
    (FACTORS, "x = +2;\ny = -3;\n----------\n"),
    (FACTORS, "x = -0;\ny = -3;\n----------\n"),
    (FACTORS, "x = 02;\ny = -3;\n----------\n"),
    (FACTORS, "x = 2 ;\ny = -3;\n----------\n"),
    (FACTORS, "x = ;\ny = -3;\n----------\n"),
    // One more than a text may have.
    (FACTORS, "x = 140737488355328;\ny = 1;\n----------\n"),
    (
        FACTORS,
        "x = 99999999999999999999999999;\ny = 1;\n----------\n",
    ),
    // Two numbers for one variable, and another number for a constant.
    (
        TWICE,
        "x = 1;\na = array1d(1..3, [1, 5, 2]);\ne = array1d(1..0, []);\n----------\n",
    ),
    (
        TWICE,
        "x = 1;\na = array1d(1..3, [2, 5, 2]);\ne = array1d(1..0, []);\n----------\n",
    ),
    (
        TWICE,
        "x = 1;\na = array1d(1..3, [1, 6, 1]);\ne = array1d(1..0, []);\n----------\n",
    ),
    (
        TWICE,
        "x = 1;\na = array1d(1..3, [1, 5]);\ne = array1d(1..0, []);\n----------\n",
    ),
    (REIFIED, "x = 3;\nb = 1;\n----------\n"),
    (EMPTY, "---------\n"),
];

#[test]
fn other_texts_are_bad(rt: HostRuntime) -> Result<(), Fail> {
    for (model, solutions) in BAD {
        let ended = (Status::BadText, "", "bad solution text\n");
        assert_texts(&rt, rt.alloc(), model, solutions, &ended)?;
    }
    Ok(())
}

/// A model that hides a variable, and the line that says so.
const HIDDEN: &[(&str, &str)] = &[
    (
        "var 0..3: x; var 0..3: y; constraint int_lt(x,y); constraint int_lt(y,x); solve satisfy;",
        "hidden x\n",
    ),
    (
        "var 0..3: x :: output_var; var bool: flag; solve satisfy;",
        "hidden flag\n",
    ),
    (
        "var 0..3: x; var 0..3: y; array [1..1] of var int: a :: output_array([1..1]) = [x]; solve satisfy;",
        "hidden y\n",
    ),
];

#[test]
fn a_hidden_variable_is_told(rt: HostRuntime) -> Result<(), Fail> {
    for (model, line) in HIDDEN {
        let ended = (Status::Hidden, "", *line);
        assert_texts(&rt, rt.alloc(), model, "no solution", &ended)?;
    }
    Ok(())
}
