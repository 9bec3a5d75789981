//! Long lists that several constraints name are once in a program: each propagator has one of their owners. A list's mark
//! tells which of the program's shared lists it is, counted from 1; one that a propagator has alone tells none.

ghost use Rattle.std.specs.Prelude.{◌≡◌};

use crate::programs::model_of;
use crate::propagators::DECLARATIONS;
use constraint_model::{FznModel, Operand, Term};
use decompose::compile;
use guarded_tell::{Extended, Kernel};
use list_of::ListOf;
use shared_list::SharedList;
use std::alloc::{AllocError, Global};
use std::test::Fail;

/// A propagator on lists of 100 like entries: each entry, and the mark of its list. An equation says that a sum of these
/// is one more variable.
#[derive(Clone, Copy)]
enum Shape {
    Le((i64, Option<usize>), (u32, Option<usize>)),
    Eq((i64, Option<usize>), (u32, Option<usize>), u32),
    Max(u32, (u32, Option<usize>)),
    Element(u32, (u32, Option<usize>), u32),
}

/// Adds 100 of these entries.
fn add_row(text: &mut String, entry: &str) -> Result<(), AllocError> {
    for _ in 0..99 {
        text.push_str(entry)?;
        text.push_str(",")?;
    }
    text.push_str(entry)
}

/// The text that is written so, where `#` is written before and after an entry that is to come 100 times.
fn text_of(alloc: Global, written: &str) -> Result<String, AllocError> {
    let mut text = String::from_str(alloc, DECLARATIONS)?;
    for (place, part) in written.split('#').enumerate() {
        if place % 2 == 0 {
            text.push_str(part)?;
        } else {
            add_row(&mut text, part)?;
        }
    }
    text.push_str("solve satisfy;")?;
    Ok(text)
}

/// Adds an owner of each array among these arguments.
fn add_owners(
    alloc: Global,
    operands: &[Operand],
    owners: &mut Vec<SharedList<Term>>,
) -> Result<(), AllocError> {
    for operand in operands {
        if let Operand::Row(row) = operand {
            owners.push(row.terms.share(alloc)?)?;
        }
    }
    Ok(())
}

/// An owner of each array of a model.
fn owners_of(alloc: Global, model: &FznModel) -> Result<Vec<SharedList<Term>>, AllocError> {
    let mut owners = Vec::new(alloc);
    for constraint in model.constraints.as_slice() {
        add_owners(alloc, constraint.operands.as_slice(), &mut owners)?;
    }
    Ok(owners)
}

/// The kernels of a text, of whose arrays each has another owner while they are made.
fn kernels_of(alloc: Global, written: &str) -> Result<ListOf<Kernel>, AllocError> {
    let text = text_of(alloc, written)?;
    let model = model_of(alloc, &text)?;
    let owners = owners_of(alloc, &model)?;
    let kernels = match compile(alloc, &model) {
        Ok(program) => Ok(program.kernels),
        Err(_) => Err(AllocError),
    };
    drop(owners);
    kernels
}

/// Whether all of these 100 numbers are this one, and their list has this mark.
fn are_numbers(numbers: &SharedList<i64>, all: (i64, Option<usize>)) -> bool {
    numbers.len() == 100
        && numbers.as_slice().iter().all(|number| *number == all.0)
        && numbers.mark_if_shared() == all.1
}

/// The same of variables.
fn are_variables(places: &SharedList<u32>, all: (u32, Option<usize>)) -> bool {
    places.len() == 100
        && places.as_slice().iter().all(|place| *place == all.0)
        && places.mark_if_shared() == all.1
}

/// Whether the coefficients are 100 of this number, in a list of this mark, and -1.
fn are_numbers_and_minus_one(coeffs: &Extended<i64>, all: (i64, Option<usize>)) -> bool {
    let (front, last) = coeffs.parts();
    are_numbers(front, all) && last == Some(-1)
}

/// Whether the variables are 100 times this one, in a list of this mark, and one more.
fn are_variables_and_one(vars: &Extended<u32>, all: (u32, Option<usize>), total: u32) -> bool {
    let (front, last) = vars.parts();
    are_variables(front, all) && last == Some(total)
}

/// Whether the kernel is this one; a sum is at most 7, and that of an equation is 0.
fn is_kernel(kernel: &Kernel, shape: Shape) -> bool {
    match (kernel, shape) {
        (
            Kernel::Le {
                coeffs,
                vars,
                limit: 7,
                ..
            },
            Shape::Le(number, place),
        ) => are_numbers(coeffs, number) && are_variables(vars, place),
        (
            Kernel::Eq {
                coeffs,
                vars,
                limit: 0,
                ..
            },
            Shape::Eq(number, place, total),
        ) => {
            are_numbers_and_minus_one(coeffs, number) && are_variables_and_one(vars, place, total)
        }
        (Kernel::Max { m, xs }, Shape::Max(extreme, place)) => {
            *m == extreme && are_variables(xs, place)
        }
        (Kernel::Element { x, entries, c }, Shape::Element(index, place, entry)) => {
            *x == index && are_variables(entries, place) && *c == entry
        }
        _ => false,
    }
}

/// Whether the two kernels are these.
fn are_kernels(kernels: &[Kernel], shapes: (Shape, Shape)) -> bool {
    match kernels {
        [first, second] => is_kernel(first, shapes.0) && is_kernel(second, shapes.1),
        _ => false,
    }
}

/// A list of coefficients or of variables; an array as both; lists that are written out, which no other propagator has; two
/// arrays that are alike, which have lists of their own; an entry and an extreme of one array; a sum that equals two variables;
/// a sum that has a limit and equals a variable.
const TEXTS: &[(&str, (Shape, Shape))] = &[
    (
        "array [1..100] of int: threes = [#3#]; array [1..100] of int: fours = [#4#]; \
         constraint int_lin_le(threes, fours, 7); constraint int_lin_le(fours, fours, 7);",
        (
            Shape::Le((3, None), (7, Some(1))),
            Shape::Le((4, None), (7, Some(1))),
        ),
    ),
    (
        "array [1..100] of int: ones = [#1#]; \
         constraint int_lin_le(ones, [#x#], 7); constraint int_lin_le(ones, [#y#], 7);",
        (
            Shape::Le((1, Some(1)), (1, None)),
            Shape::Le((1, Some(1)), (2, None)),
        ),
    ),
    (
        "array [1..100] of int: ones = [#1#]; array [1..100] of var int: one = [#x#]; array [1..100] of var int: other = [#x#]; \
         constraint int_lin_le(ones, one, 7); constraint int_lin_le(ones, other, 7);",
        (
            Shape::Le((1, Some(1)), (1, None)),
            Shape::Le((1, Some(1)), (1, None)),
        ),
    ),
    (
        "array [1..100] of var int: list = [#y#]; \
         constraint array_int_maximum(x, list); constraint array_var_int_element(x, list, z);",
        (
            Shape::Max(1, (2, Some(1))),
            Shape::Element(1, (2, Some(1)), 3),
        ),
    ),
    (
        "array [1..100] of int: twos = [#2#]; array [1..100] of var bool: list = [#b#]; \
         constraint bool_lin_eq(twos, list, x); constraint bool_lin_eq(twos, list, z);",
        (
            Shape::Eq((2, Some(1)), (5, Some(2)), 1),
            Shape::Eq((2, Some(1)), (5, Some(2)), 3),
        ),
    ),
    (
        "array [1..100] of int: twos = [#2#]; array [1..100] of var bool: list = [#b#]; \
         constraint bool_lin_le(twos, list, 7); constraint bool_lin_eq(twos, list, y);",
        (
            Shape::Le((2, Some(1)), (5, Some(2))),
            Shape::Eq((2, Some(1)), (5, Some(2)), 2),
        ),
    ),
];

#[test]
fn long_lists_are_shared_and_told_apart(rt: HostRuntime) -> Result<(), Fail> {
    for (written, shapes) in TEXTS {
        let kernels = kernels_of(rt.alloc(), written)?;
        assert!(rt; are_kernels(kernels.as_slice(), *shapes), "at {written}");
    }
    Ok(())
}
