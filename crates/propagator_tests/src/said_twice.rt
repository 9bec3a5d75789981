//! What a kernel's shape has to say of a visit, where one variable occurs twice.

ghost use Rattle.guarded_tell.specs.Kernels.{IsKernel};

use crate::four_variables::{PAST, Told, box_of};
use crate::repeats::Kind::{AtMost, Equal, Greatest, Root};
use crate::repeats::{Repeated, repeated};
use crate::said::Way::{Fails, Last, Nothing, One, Quiet, Rests, Two};
use crate::said::{Way, is_said};
use guarded_tell::Kernel;
use guarded_tell::Side::{High, Low};
use memory::NoMemory;
use std::alloc::Global;
use std::process::Abort;
use std::test::Fail;

/// Bounds of variables 0, 1 and 2, what is said there, and the tells that are said.
type Row = ([(i64, i64); 3], Way, &'static [Told]);

/// Kernels in which a variable occurs twice.
static REPEATS: [(Repeated, &[Row]); 7] = [
    // The greater of itself and variable 1.
    (
        (Greatest, &[0, 1], 0),
        &[
            ([(4, 6), (0, 9), (0, 0)], One, &[(1, High, 6)]),
            ([(4, 6), (0, 3), (0, 0)], Quiet, &[]),
            ([(4, 6), (5, 9), (0, 0)], Two, &[(0, Low, 5), (1, High, 6)]),
        ],
    ),
    // The greater of variable 1 and variable 1: neither is the only one that can be as great.
    (
        (Greatest, &[1, 1], 0),
        &[
            ([(-PAST, PAST), (-PAST, PAST), (0, 0)], Quiet, &[]),
            ([(PAST, PAST), (-PAST, PAST), (0, 0)], Quiet, &[]),
            ([(-PAST, PAST), (0, PAST), (0, 0)], One, &[(0, Low, 0)]),
            ([(0, 5), (0, 9), (0, 0)], Two, &[(1, High, 5), (1, High, 5)]),
        ],
    ),
    // Variable 1 is the square of variable 0.
    (
        (Root, &[], 0),
        &[
            ([(2, 3), (4, 9), (0, 0)], Quiet, &[]),
            ([(1, 9), (10, 20), (0, 0)], Two, &[(0, Low, 2), (0, Low, 2)]),
            ([(2, 9), (4, 9), (0, 0)], Two, &[(0, High, 4), (0, High, 4)]),
            ([(1, 9), (10, 99), (0, 0)], Nothing, &[]),
        ],
    ),
    // Variable 2 is twice variable 1.
    (
        (Equal, &[1, 1, 2], 0),
        &[
            ([(1, 1), (0, 5), (3, 4)], Two, &[(1, High, 4), (1, High, 4)]),
            ([(1, 1), (2, 2), (4, 4)], Rests, &[]),
        ],
    ),
    // Variable 1 less itself is at most -1.
    (
        (AtMost, &[1, 1], -1),
        &[
            ([(1, 1), (0, 10), (0, 0)], Two, &[(1, High, 9), (1, Low, 1)]),
            ([(1, 1), (4, 4), (0, 0)], Fails, &[(0, High, 0)]),
            ([(0, 1), (4, 4), (0, 0)], Last, &[(0, High, 0)]),
        ],
    ),
    // Variable 1 less itself is 1.
    (
        (Equal, &[1, 1], 1),
        &[([(1, 1), (0, 3), (0, 0)], Two, &[(1, Low, 1), (1, High, 2)])],
    ),
    // Variable 0, which says whether, is variable 1.
    (
        (Equal, &[0, 1], 0),
        &[
            ([(-3, 0), (-3, -3), (0, 0)], Last, &[(0, Low, -2)]),
            ([(0, 3), (7, 7), (0, 0)], Last, &[(0, High, 0)]),
            ([(1, 5), (2, 9), (0, 0)], Two, &[(0, Low, 2), (1, High, 5)]),
        ],
    ),
];

/// Compares what is said of a kernel with its rows.
fn try_rows(rt: &impl Abort, alloc: Global, of: &Repeated, rows: &[Row]) -> Result<(), NoMemory> {
    let kernel = repeated(rt, alloc, of)?;
    compare(rt, alloc, &kernel, rows)
}

/// The same of a kernel that is lent.
fn compare(rt: &impl Abort, alloc: Global, kernel: &Kernel, rows: &[Row]) -> Result<(), NoMemory>
    requires { IsKernel 4 kernel.now }
{
    for (spans, way, tells) in rows {
        let pairs = [spans[0], spans[1], spans[2], (0, 0)];
        let b = box_of(rt, alloc, &pairs)?;
        assert!(rt; is_said(kernel, &b, *way, tells));
    }
    Ok(())
}

#[test]
fn the_shape_says_what_a_variable_that_stands_twice_is_told(rt: HostRuntime) -> Result<(), Fail> {
    for (of, rows) in &REPEATS {
        try_rows(&rt, rt.alloc(), of, rows)?;
    }
    Ok(())
}
