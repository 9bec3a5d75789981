//! Models of many constraints, which several threads test: the first that is violated is told, whichever ends first.

use crate::calls::assert_texts;
use fzn_check::Status;
use std::alloc::{AllocError, Global};
use std::test::Fail;

/// The solution that all are tried on.
const SOLUTION: &str = "x = 7;\n----------\n";

/// Holds of the solution, and takes long to test.
const LONG: &str = "constraint array_int_maximum(x,a);\n";

/// Holds of the solution.
const SHORT: &str = "constraint int_le(x,9);\n";

/// Doesn't hold of it.
const VIOLATED: &str = "constraint int_lt(x,5);\n";

/// Parts of the constraints, each with how often it occurs, and the line that is told.
const MODELS: &[(&[(&str, usize)], &str)] = &[
    // The last of 3,000.
    (
        &[(SHORT, 2_999), (VIOLATED, 1)],
        "solution 1 violates 3000 int_lt\n",
    ),
    (
        &[(VIOLATED, 1), (SHORT, 2_999)],
        "solution 1 violates 1 int_lt\n",
    ),
    // Two of which the later one is found first.
    (
        &[
            (LONG, 63),
            (VIOLATED, 1),
            (SHORT, 2_000),
            (VIOLATED, 1),
            (SHORT, 900),
        ],
        "solution 1 violates 64 int_lt\n",
    ),
];

/// Adds a text so often.
fn push_often(text: &mut String, part: &str, count: usize) -> Result<(), AllocError> {
    for _ in 0..count {
        text.push_str(part)?;
    }
    Ok(())
}

/// The model of these parts. The array has 400 entries.
fn model_of(alloc: Global, parts: &[(&str, usize)]) -> Result<String, AllocError> {
    let mut text = String::from_str(alloc, "var 0..9: x :: output_var;\n")?;
    text.push_str("array [1..400] of var int: a = [")?;
    push_often(&mut text, "x,", 399)?;
    text.push_str("x];\n")?;
    for (part, count) in parts {
        push_often(&mut text, part, *count)?;
    }
    text.push_str("solve satisfy;\n")?;
    Ok(text)
}

#[test]
fn the_first_of_many_constraints_is_told(rt: HostRuntime) -> Result<(), Fail> {
    for (parts, line) in MODELS {
        let model = model_of(rt.alloc(), parts)?;
        let ended = (Status::Wrong, *line, "");
        assert_texts(&rt, rt.alloc(), &model, SOLUTION, &ended)?;
    }
    Ok(())
}
