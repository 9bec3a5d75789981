//! What a kernel's shape has to say of a visit, so that no tells are gathered: one that says nothing would pass elsewhere.

ghost use Rattle.std.specs.Prelude.{◌≡◌, length};
ghost use Rattle.interval.specs.Boxes.{IsProper};
ghost use Rattle.guarded_tell.specs.Kernels.{IsKernel};

use crate::four_variables::{LARGEST, PAST, Pairs, Told, box_of, row, tell_on_each};
use crate::linear::Relation::{AtMost, Equal};
use crate::linear::{Sum, WAYS, linear};
use crate::lists::{clause, clause_of_three, greatest};
use guarded_tell::Kernel;
use guarded_tell::Side::{High, Low};
use interval::BoxOf;
use kernel_visits::{Rest, shape_of};
use memory::NoMemory;
use seen_tells::{Seen, failing_tell, seen_visit, sole_tell};
use std::alloc::Global;
use std::process::Abort;
use std::test::Fail;

/// What a kernel's shape says of a visit.
#[derive(Clone, Copy, PartialEq, Eq, Debug)]
pub(crate) enum Way {
    /// Nothing: the tells are gathered.
    Nothing,
    /// It narrows nothing.
    Quiet,
    /// It narrows nothing, and rests for good.
    Rests,
    /// Its one tell.
    One,
    /// Its one tell, after which it rests for good.
    Last,
    /// Its two tells.
    Two,
    /// Its first tell, which leaves its variable no number.
    Fails,
}

use Way::{Fails, Last, Nothing, One, Quiet, Rests, Two};

/// Bounds of the variables, what is said there, and the tells that are said.
type Row = (Pairs, Way, &'static [Told]);

/// Whether the kernel's shape says this of a visit on the box, asked in the order of propagation.
pub(crate) fn is_said(kernel: &Kernel, b: &BoxOf, way: Way, tells: &[Told]) -> bool
    requires kernel { IsKernel 4 kernel.now }
    requires four { length b.now ≡ 4 }
    requires proper { IsProper b.now }
{
    let shape = shape_of(kernel);
    if let Some(sole) = sole_tell(kernel, &shape, b) {
        let said = if sole.is_last { Last } else { One };
        return way == said && Some(tells) == Some(&[row(sole.tell)]);
    }
    if let Some(t) = failing_tell(kernel, &shape, b) {
        return way == Fails && Some(tells) == Some(&[row(t)]);
    }
    is_seen(seen_visit(kernel, &shape, b), way, tells)
}

/// Whether this is seen.
fn is_seen(seen: Seen, way: Way, tells: &[Told]) -> bool {
    match seen {
        Seen::Quiet(rest) => way == Quiet || (way == Rests && rest == Rest::ForGood),
        Seen::One(t) => way == One && Some(tells) == Some(&[row(t)]),
        Seen::Two(t, u) => way == Two && Some(tells) == Some(&[row(t), row(u)]),
        Seen::Unseen => way == Nothing,
    }
}

/// Compares what is said of a kernel with a table.
fn compare(rt: &impl Abort, alloc: Global, kernel: &Kernel, rows: &[Row]) -> Result<(), NoMemory>
    requires { IsKernel 4 kernel.now }
{
    for (pairs, way, tells) in rows {
        let b = box_of(rt, alloc, pairs)?;
        assert!(rt; is_said(kernel, &b, *way, tells));
    }
    Ok(())
}

/// The same of a sum.
fn compare_sum(rt: &impl Abort, alloc: Global, sum: &Sum, rows: &[Row]) -> Result<(), NoMemory> {
    let kernel = linear(rt, alloc, sum, WAYS[0])?;
    compare(rt, alloc, &kernel, rows)
}

/// Variable 0 says whether variable 1 less variable 2 is at most 2.
static AT_MOST: [Row; 8] = [
    ([(1, 1), (0, 9), (0, 5), (0, 0)], One, &[(1, High, 7)]),
    ([(1, 1), (5, 6), (0, 9), (0, 0)], One, &[(2, Low, 3)]),
    (
        [(1, 1), (5, 9), (0, 5), (0, 0)],
        Two,
        &[(1, High, 7), (2, Low, 3)],
    ),
    ([(0, 1), (0, 2), (0, 9), (0, 0)], Last, &[(0, Low, 1)]),
    ([(0, 1), (8, 9), (0, 5), (0, 0)], Last, &[(0, High, 0)]),
    ([(1, 1), (8, 9), (0, 5), (0, 0)], Fails, &[(0, High, 0)]),
    ([(0, 0), (0, 2), (0, 9), (0, 0)], Fails, &[(0, Low, 1)]),
    ([(0, 0), (0, 9), (0, 5), (0, 0)], Nothing, &[]),
];

/// Variable 0 says whether variable 1 less variable 2 is 2.
static SAME: [Row; 10] = [
    ([(0, 0), (5, 9), (3, 3), (0, 0)], Last, &[(1, Low, 6)]),
    ([(0, 0), (1, 5), (3, 3), (0, 0)], Last, &[(1, High, 4)]),
    ([(0, 0), (5, 5), (0, 3), (0, 0)], Last, &[(2, High, 2)]),
    ([(0, 0), (5, 5), (3, 3), (0, 0)], Fails, &[(0, Low, 1)]),
    ([(1, 1), (5, 9), (3, 5), (0, 0)], One, &[(1, High, 7)]),
    (
        [(1, 1), (0, 9), (3, 5), (0, 0)],
        Two,
        &[(1, High, 7), (1, Low, 5)],
    ),
    ([(1, 1), (8, 9), (0, 5), (0, 0)], Fails, &[(0, High, 0)]),
    ([(1, 1), (0, 1), (0, 5), (0, 0)], Fails, &[(0, High, 0)]),
    ([(0, 1), (9, 9), (0, 5), (0, 0)], Last, &[(0, High, 0)]),
    ([(0, 1), (5, 5), (3, 3), (0, 0)], Last, &[(0, Low, 1)]),
];

/// Variable 0 says whether the sum of variables 1 and 2 less variable 3 is 0.
static THREE: [Row; 5] = [
    ([(1, 1), (0, 2), (0, 2), (0, 9)], One, &[(3, High, 4)]),
    (
        [(1, 1), (0, 9), (0, 2), (4, 4)],
        Two,
        &[(1, High, 4), (1, Low, 2)],
    ),
    ([(1, 1), (0, 2), (0, 2), (0, 4)], Quiet, &[]),
    ([(1, 1), (1, 1), (2, 2), (3, 3)], Rests, &[]),
    ([(0, 1), (0, 2), (0, 2), (0, 4)], Nothing, &[]),
];

/// Variable 0 is true or variable 1 is false.
static EITHER: [Row; 3] = [
    ([(0, 0), (0, 1), (0, 0), (0, 0)], Last, &[(1, High, 0)]),
    ([(0, 1), (1, 1), (0, 0), (0, 0)], Last, &[(0, Low, 1)]),
    ([(0, 0), (1, 1), (0, 0), (0, 0)], Fails, &[(0, Low, 1)]),
];

/// Variable 0 is true, variable 1 is false or variable 2 is true.
static TRIPLE: [Row; 4] = [
    ([(0, 0), (1, 1), (0, 1), (0, 0)], Last, &[(2, Low, 1)]),
    ([(0, 0), (0, 1), (0, 0), (0, 0)], Last, &[(1, High, 0)]),
    ([(0, 1), (1, 1), (0, 0), (0, 0)], Last, &[(0, Low, 1)]),
    ([(0, 0), (1, 1), (0, 0), (0, 0)], Fails, &[(0, Low, 1)]),
];

/// Variable 0 is the greatest of variables 1 and 2.
static GREATEST: [Row; 7] = [
    ([(0, 9), (0, 5), (0, 9), (0, 0)], Quiet, &[]),
    ([(0, 9), (3, 5), (0, 9), (0, 0)], One, &[(0, Low, 3)]),
    ([(5, 9), (0, 3), (0, 9), (0, 0)], One, &[(2, Low, 5)]),
    ([(5, 9), (0, 9), (0, 3), (0, 0)], One, &[(1, Low, 5)]),
    ([(0, 9), (0, 5), (0, 12), (0, 0)], One, &[(2, High, 9)]),
    (
        [(0, 12), (3, 5), (0, 9), (0, 0)],
        Two,
        &[(0, Low, 3), (0, High, 9)],
    ),
    ([(0, 12), (3, 20), (0, 20), (0, 0)], Nothing, &[]),
];

#[test]
fn the_shape_of_a_difference_says_what_it_tells(rt: HostRuntime) -> Result<(), Fail> {
    compare_sum(&rt, rt.alloc(), &(AtMost, true, &[1, -1], 2), &AT_MOST)?;
    compare_sum(&rt, rt.alloc(), &(Equal, true, &[1, -1], 2), &SAME)?;
    Ok(())
}

#[test]
fn the_shape_of_three_terms_says_what_it_tells(rt: HostRuntime) -> Result<(), Fail> {
    compare_sum(&rt, rt.alloc(), &(Equal, true, &[1, 1, -1], 0), &THREE)?;
    Ok(())
}

#[test]
fn the_shape_of_a_clause_of_two_says_what_it_tells(rt: HostRuntime) -> Result<(), Fail> {
    let kernel = clause(rt.alloc())?;
    compare(&rt, rt.alloc(), &kernel, &EITHER)?;
    Ok(())
}

#[test]
fn the_shape_of_a_clause_of_three_says_what_it_tells(rt: HostRuntime) -> Result<(), Fail> {
    let kernel = clause_of_three(rt.alloc())?;
    compare(&rt, rt.alloc(), &kernel, &TRIPLE)?;
    Ok(())
}

#[test]
fn the_shape_of_the_greater_of_two_says_what_it_tells(rt: HostRuntime) -> Result<(), Fail> {
    let kernel = greatest(rt.alloc())?;
    compare(&rt, rt.alloc(), &kernel, &GREATEST)?;
    Ok(())
}

/// Spans of numbers that lie beside, over and apart from each other, up to the ends of the range.
static SPANS: [(i64, i64); 8] = [
    (0, 0),
    (0, 1),
    (1, 1),
    (1, 2),
    (0, 2),
    (-PAST, 1),
    (1, PAST),
    (LARGEST, PAST),
];

/// The box of this number among those in which each of variables 0, 1 and 2 has one of the spans.
fn box_number(number: usize) -> Pairs {
    let third = SPANS[number % 8];
    let second = SPANS[number / 8 % 8];
    let first = SPANS[number / 64 % 8];
    [first, second, third, (0, 0)]
}

#[test]
fn the_greater_of_two_narrows_each_box_as_its_tells_do(rt: HostRuntime) -> Result<(), Fail> {
    for number in 0..512usize {
        tell_on_each(
            &rt,
            rt.alloc(),
            greatest(rt.alloc())?,
            &[box_number(number)],
        )?;
    }
    Ok(())
}
