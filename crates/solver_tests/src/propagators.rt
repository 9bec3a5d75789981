//! The propagators of each row of the table of constraints, worked out by hand. The variables x, y, z, a, b and r are
//! declared, so that they are the variables 1 to 6; the constant 1 is variable 0, and the other constants of a text are
//! the variables from 7 on, in their order.

use crate::programs::program_of;
use guarded_tell::{Extended, Kernel, Lit, Literals};
use list_of::ListOf;
use std::alloc::{AllocError, Global};
use std::process::Abort;
use std::test::Fail;

/// A propagator as it is written in a table: its parts in the order of those of `Kernel`.
#[derive(Clone, Copy)]
pub(crate) enum Shape {
    Le(Lit, &'static [i64], &'static [u32], i64),
    Eq(Lit, &'static [i64], &'static [u32], i64),
    Times(u32, u32, u32),
    Div(u32, u32, u32),
    Mod(u32, u32, u32),
    Abs(u32, u32),
    Max(u32, &'static [u32]),
    Min(u32, &'static [u32]),
    Clause(&'static [Lit]),
    Element(u32, &'static [u32], u32),
    InSet(Lit, u32, &'static [(i64, i64)]),
    AllDiff(&'static [u32]),
    Cumulative(&'static [u32], &'static [i64], &'static [i64], i64),
}

/// Whether an equation's coefficients are these.
fn are_numbers(coeffs: &Extended<i64>, numbers: &[i64]) -> bool {
    match (coeffs.split_last(), numbers.split_last()) {
        (Some((front, last)), Some((end, others))) => front == others && last == *end,
        (None, None) => true,
        _ => false,
    }
}

/// Whether its variables are these.
fn are_variables(vars: &Extended<u32>, places: &[u32]) -> bool {
    match (vars.split_last(), places.split_last()) {
        (Some((front, last)), Some((end, others))) => front == others && last == *end,
        (None, None) => true,
        _ => false,
    }
}

/// Whether the kernel is this sum.
fn is_sum(kernel: &Kernel, shape: &Shape) -> bool {
    match (kernel, *shape) {
        (
            Kernel::Le {
                lit,
                coeffs,
                vars,
                limit,
            },
            Shape::Le(literal, numbers, places, most),
        ) => {
            *lit == literal
                && coeffs.as_slice() == numbers
                && vars.as_slice() == places
                && *limit == most
        }
        (
            Kernel::Eq {
                lit,
                coeffs,
                vars,
                limit,
            },
            Shape::Eq(literal, numbers, places, sum),
        ) => {
            *lit == literal
                && are_numbers(coeffs, numbers)
                && are_variables(vars, places)
                && *limit == sum
        }
        _ => false,
    }
}

/// Whether the kernel is this operation on numbers.
fn is_operation(kernel: &Kernel, shape: &Shape) -> bool {
    match (kernel, *shape) {
        (Kernel::Times { x, y, z }, Shape::Times(a, b, c))
        | (Kernel::Div { x, y, z }, Shape::Div(a, b, c))
        | (Kernel::Mod { x, y, z }, Shape::Mod(a, b, c)) => *x == a && *y == b && *z == c,
        (Kernel::Abs { x, y }, Shape::Abs(a, b)) => *x == a && *y == b,
        _ => false,
    }
}

/// Whether a clause has these literals.
fn are_literals(found: &Literals, literals: &[Lit]) -> bool {
    if found.len() != literals.len() {
        return false;
    }
    for place in 0..literals.len() {
        if found.at(place) != literals[place] {
            return false;
        }
    }
    true
}

/// Whether the kernel is this clause, entry or extreme, or says that a variable is in this set.
fn is_choice(kernel: &Kernel, shape: &Shape) -> bool {
    match (kernel, *shape) {
        (Kernel::Max { m, xs }, Shape::Max(extreme, places))
        | (Kernel::Min { m, xs }, Shape::Min(extreme, places)) => {
            *m == extreme && xs.as_slice() == places
        }
        (Kernel::Clause { lits }, Shape::Clause(literals)) => are_literals(lits, literals),
        (Kernel::Element { x, entries, c }, Shape::Element(place, places, entry)) => {
            *x == place && entries.as_slice() == places && *c == entry
        }
        (Kernel::InSet { lit, x, ranges }, Shape::InSet(literal, place, set)) => {
            *lit == literal && *x == place && ranges.as_slice() == set
        }
        _ => false,
    }
}

/// Whether the kernel says that these differ, or that these tasks share a resource.
fn is_global(kernel: &Kernel, shape: &Shape) -> bool {
    match (kernel, *shape) {
        (Kernel::AllDiff { xs }, Shape::AllDiff(places)) => xs.as_slice() == places,
        (
            Kernel::Cumulative {
                starts,
                durations,
                usages,
                limit,
            },
            Shape::Cumulative(places, times, uses, most),
        ) => {
            starts.as_slice() == places
                && durations.as_slice() == times
                && usages.as_slice() == uses
                && *limit == most
        }
        _ => false,
    }
}

/// Whether the kernel is this one.
fn is_kernel(kernel: &Kernel, shape: &Shape) -> bool {
    is_sum(kernel, shape)
        || is_operation(kernel, shape)
        || is_choice(kernel, shape)
        || is_global(kernel, shape)
}

/// Whether the kernels are these, in this order.
pub(crate) fn are_kernels(kernels: &[Kernel], shapes: &[Shape]) -> bool {
    kernels.len() == shapes.len()
        && kernels
            .iter()
            .zip(shapes)
            .all(|(kernel, shape)| is_kernel(kernel, shape))
}

/// The declarations before each constraint.
pub(crate) const DECLARATIONS: &str =
    "var 0..9: x; var 0..9: y; var 0..9: z; var bool: a; var bool: b; var bool: r; ";

/// The kernels of one constraint.
fn kernels_of(alloc: Global, constraint: &str) -> Result<ListOf<Kernel>, AllocError> {
    let text = format!(in alloc; "{DECLARATIONS}constraint {constraint}; solve satisfy;")?;
    let program = program_of(alloc, &text)?;
    Ok(program.kernels)
}

/// Each constraint has its kernels.
fn assert_kernels(rt: &impl Abort, alloc: Global, table: &[(&str, &[Shape])]) -> Result<(), Fail> {
    for (constraint, shapes) in table {
        let kernels = kernels_of(alloc, constraint)?;
        assert!(rt; are_kernels(kernels.as_slice(), shapes), "at {constraint}");
    }
    Ok(())
}

/// The literals of the constant 1, the one that is true and the other.
pub(crate) const ALWAYS: Lit = Lit {
    var: 0,
    positive: true,
};

const NEVER: Lit = Lit {
    var: 0,
    positive: false,
};

/// Those of the booleans a, b and r.
const IS_A: Lit = Lit {
    var: 4,
    positive: true,
};

const NOT_A: Lit = Lit {
    var: 4,
    positive: false,
};

const IS_B: Lit = Lit {
    var: 5,
    positive: true,
};

const NOT_B: Lit = Lit {
    var: 5,
    positive: false,
};

const IS_R: Lit = Lit {
    var: 6,
    positive: true,
};

const NOT_R: Lit = Lit {
    var: 6,
    positive: false,
};

/// Those of the first constant that isn't 1.
const IS_FIRST: Lit = Lit {
    var: 7,
    positive: true,
};

const NOT_FIRST: Lit = Lit {
    var: 7,
    positive: false,
};

/// Two terms that are compared.
const COMPARISONS: &[(&str, &[Shape])] = &[
    ("int_eq(x, y)", &[Shape::Eq(ALWAYS, &[1, -1], &[1, 2], 0)]),
    ("int_ne(x, y)", &[Shape::Eq(NEVER, &[1, -1], &[1, 2], 0)]),
    ("int_le(x, y)", &[Shape::Le(ALWAYS, &[1, -1], &[1, 2], 0)]),
    ("int_lt(x, y)", &[Shape::Le(ALWAYS, &[1, -1], &[1, 2], -1)]),
    ("bool2int(a, x)", &[Shape::Eq(ALWAYS, &[1, -1], &[4, 1], 0)]),
    ("bool_eq(a, b)", &[Shape::Eq(ALWAYS, &[1, -1], &[4, 5], 0)]),
    ("bool_le(a, b)", &[Shape::Le(ALWAYS, &[1, -1], &[4, 5], 0)]),
    ("bool_lt(a, b)", &[Shape::Le(ALWAYS, &[1, -1], &[4, 5], -1)]),
    ("bool_not(a, b)", &[Shape::Eq(ALWAYS, &[1, 1], &[4, 5], 1)]),
    ("bool_xor(a, b)", &[Shape::Eq(ALWAYS, &[1, 1], &[4, 5], 1)]),
];

/// The same with a boolean that says whether they hold.
const REIFIED: &[(&str, &[Shape])] = &[
    (
        "int_eq_reif(1, y, r)",
        &[Shape::Eq(IS_R, &[1, -1], &[0, 2], 0)],
    ),
    (
        "int_ne_reif(1, y, r)",
        &[Shape::Eq(NOT_R, &[1, -1], &[0, 2], 0)],
    ),
    (
        "int_le_reif(1, y, r)",
        &[Shape::Le(IS_R, &[1, -1], &[0, 2], 0)],
    ),
    (
        "int_lt_reif(1, y, r)",
        &[Shape::Le(IS_R, &[1, -1], &[0, 2], -1)],
    ),
    (
        "bool_eq_reif(true, b, r)",
        &[Shape::Eq(IS_R, &[1, -1], &[0, 5], 0)],
    ),
    (
        "bool_le_reif(true, b, r)",
        &[Shape::Le(IS_R, &[1, -1], &[0, 5], 0)],
    ),
    (
        "bool_lt_reif(true, b, r)",
        &[Shape::Le(IS_R, &[1, -1], &[0, 5], -1)],
    ),
    (
        "bool_xor(true, b, r)",
        &[Shape::Eq(NOT_R, &[1, -1], &[0, 5], 0)],
    ),
];

/// Sums that are compared with a number, and sums that equal a term.
const SUMS: &[(&str, &[Shape])] = &[
    (
        "int_lin_eq([2, -3], [x, 4], 7)",
        &[Shape::Eq(ALWAYS, &[2, -3], &[1, 7], 7)],
    ),
    (
        "int_lin_ne([2, -3], [x, 4], 7)",
        &[Shape::Eq(NEVER, &[2, -3], &[1, 7], 7)],
    ),
    (
        "int_lin_le([2, -3], [x, 4], 7)",
        &[Shape::Le(ALWAYS, &[2, -3], &[1, 7], 7)],
    ),
    (
        "bool_lin_le([2, -3], [a, false], 7)",
        &[Shape::Le(ALWAYS, &[2, -3], &[4, 7], 7)],
    ),
    (
        "int_lin_eq_reif([2, -3], [x, 4], 7, r)",
        &[Shape::Eq(IS_R, &[2, -3], &[1, 7], 7)],
    ),
    (
        "int_lin_ne_reif([2, -3], [x, 4], 7, r)",
        &[Shape::Eq(NOT_R, &[2, -3], &[1, 7], 7)],
    ),
    (
        "int_lin_le_reif([2, -3], [x, 4], 7, r)",
        &[Shape::Le(IS_R, &[2, -3], &[1, 7], 7)],
    ),
    (
        "int_plus(x, y, 4)",
        &[Shape::Eq(ALWAYS, &[1, 1, -1], &[1, 2, 7], 0)],
    ),
    (
        "bool_lin_eq([2, 3], [a, b], x)",
        &[Shape::Eq(ALWAYS, &[2, 3, -1], &[4, 5, 1], 0)],
    ),
];

#[test]
fn comparisons_and_sums(rt: HostRuntime) -> Result<(), Fail> {
    for table in [COMPARISONS, REIFIED, SUMS] {
        assert_kernels(&rt, rt.alloc(), table)?;
    }
    Ok(())
}

/// Products, quotients, absolute values and extremes.
const ARITHMETIC: &[(&str, &[Shape])] = &[
    ("int_times(x, y, 9)", &[Shape::Times(1, 2, 7)]),
    ("int_div(x, 9, y)", &[Shape::Div(1, 7, 2)]),
    ("int_mod(x, x, y)", &[Shape::Mod(1, 1, 2)]),
    ("int_abs(x, 4)", &[Shape::Abs(1, 7)]),
    ("int_max(x, y, z)", &[Shape::Max(3, &[1, 2])]),
    ("int_min(x, y, z)", &[Shape::Min(3, &[1, 2])]),
    (
        "array_int_maximum(z, [x, y, 4])",
        &[Shape::Max(3, &[1, 2, 7])],
    ),
    (
        "array_int_minimum(z, [x, y, 4])",
        &[Shape::Min(3, &[1, 2, 7])],
    ),
];

/// Entries of arrays and members of sets.
const PLACES: &[(&str, &[Shape])] = &[
    (
        "array_int_element(x, [4, 9, 1], z)",
        &[Shape::Element(1, &[7, 8, 0], 3)],
    ),
    (
        "array_var_int_element(x, [4, y, 1], z)",
        &[Shape::Element(1, &[7, 2, 0], 3)],
    ),
    (
        "array_bool_element(x, [false, true], a)",
        &[Shape::Element(1, &[7, 0], 4)],
    ),
    (
        "array_var_bool_element(x, [false, b, true], a)",
        &[Shape::Element(1, &[7, 5, 0], 4)],
    ),
    (
        "set_in(x, {5, 1, 2, 3})",
        &[Shape::InSet(ALWAYS, 1, &[(1, 3), (5, 5)])],
    ),
    (
        "set_in_reif(x, {5, 1, 2, 3}, r)",
        &[Shape::InSet(IS_R, 1, &[(1, 3), (5, 5)])],
    ),
];

/// Conjunctions, disjunctions and clauses.
const BOOLEANS: &[(&str, &[Shape])] = &[
    (
        "bool_and(a, b, r)",
        &[
            Shape::Clause(&[NOT_R, IS_A]),
            Shape::Clause(&[NOT_R, IS_B]),
            Shape::Clause(&[IS_R, NOT_A, NOT_B]),
        ],
    ),
    (
        "bool_or(a, b, r)",
        &[
            Shape::Clause(&[IS_R, NOT_A]),
            Shape::Clause(&[IS_R, NOT_B]),
            Shape::Clause(&[NOT_R, IS_A, IS_B]),
        ],
    ),
    (
        "array_bool_and([a, true], r)",
        &[
            Shape::Clause(&[NOT_R, IS_A]),
            Shape::Clause(&[NOT_R, ALWAYS]),
            Shape::Clause(&[IS_R, NOT_A, NEVER]),
        ],
    ),
    (
        "array_bool_or([a], false)",
        &[
            Shape::Clause(&[IS_FIRST, NOT_A]),
            Shape::Clause(&[NOT_FIRST, IS_A]),
        ],
    ),
    (
        "bool_clause([a], [b, false])",
        &[Shape::Clause(&[IS_A, NOT_B, NOT_FIRST])],
    ),
    (
        "bool_clause_reif([a], [b], r)",
        &[
            Shape::Clause(&[IS_R, NOT_A]),
            Shape::Clause(&[IS_R, IS_B]),
            Shape::Clause(&[NOT_R, IS_A, NOT_B]),
        ],
    ),
];

/// Variables that differ, and tasks.
const DIFFERENT_AND_TASKS: &[(&str, &[Shape])] = &[
    (
        "pccp_all_different([z, x, 4, z])",
        &[Shape::AllDiff(&[3, 1, 7, 3])],
    ),
    (
        "pccp_cumulative([y, 2, x], [3, 0, 1], [4, 1, 5], 6)",
        &[Shape::Cumulative(&[2, 7, 1], &[3, 0, 1], &[4, 1, 5], 6)],
    ),
];

#[test]
fn arithmetic_places_and_booleans(rt: HostRuntime) -> Result<(), Fail> {
    for table in [ARITHMETIC, PLACES, BOOLEANS, DIFFERENT_AND_TASKS] {
        assert_kernels(&rt, rt.alloc(), table)?;
    }
    Ok(())
}
