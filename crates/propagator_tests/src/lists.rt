//! The tells of clauses, lists and sets, with the bounds worked out by hand.

ghost use Rattle.std.specs.Prelude.{◌≤◌, ◌≤ℤ◌, IfOk, pos, unsigned_abs};
ghost use Rattle.interval.specs.Limits.{IsNumber, largest_number};
ghost use Rattle.guarded_tell.specs.Kernels.{IsKernel};

use crate::four_variables::{LARGEST, PAST, Pairs, Told, expect_bounds, expect_tells, number};
use guarded_tell::Side::{High, Low};
use guarded_tell::{Kernel, Lit, Literals};
use shared_list::SharedList;
use std::alloc::{AllocError, Global};
use std::process::Abort;
use std::test::Fail;

/// Variable 0 is the greatest of variables 1 and 2.
pub(crate) fn greatest(alloc: Global) -> Result<Kernel, AllocError>
    ensures { IfOk result (IsKernel 4) }
{
    let xs = SharedList::from_vec(vec![in alloc; 1u32, 2]?)?;
    Ok(Kernel::Max { m: 0, xs })
}

/// Bounds of the greatest and of the two others, and the tells.
static GREATEST_TELLS: [(Pairs, &[Told]); 2] = [
    (
        [(5, 9), (0, 3), (0, 9), (0, 0)],
        &[
            (0, Low, 0),
            (0, High, 9),
            (1, High, 9),
            (2, High, 9),
            (2, Low, 5),
        ],
    ),
    // At both ends of the range.
    (
        [(-PAST, PAST), (-PAST, PAST), (LARGEST, LARGEST), (0, 0)],
        &[
            (0, Low, LARGEST),
            (0, High, PAST),
            (1, High, PAST),
            (2, High, PAST),
        ],
    ),
];

#[test]
fn the_greatest_gives_its_tells_in_order(rt: HostRuntime) -> Result<(), Fail> {
    expect_tells(&rt, rt.alloc(), greatest(rt.alloc())?, &GREATEST_TELLS)?;
    Ok(())
}

/// Bounds of the greatest and of the two others, and all after the tells.
static GREATEST_BOUNDS: [(&Pairs, &Pairs); 2] = [
    (
        &[(0, 9), (1, 3), (2, 4), (0, 0)],
        &[(2, 4), (1, 3), (2, 4), (0, 0)],
    ),
    (
        &[(2, 4), (0, 9), (0, 9), (0, 0)],
        &[(2, 4), (0, 4), (0, 4), (0, 0)],
    ),
];

#[test]
fn the_greatest_tells_what_is_worked_out_by_hand(rt: HostRuntime) -> Result<(), Fail> {
    expect_bounds(&rt, rt.alloc(), greatest(rt.alloc())?, &GREATEST_BOUNDS)?;
    Ok(())
}

/// Variable 0 is the least of variables 1 and 2.
fn least(alloc: Global) -> Result<Kernel, AllocError>
    ensures { IfOk result (IsKernel 4) }
{
    let xs = SharedList::from_vec(vec![in alloc; 1u32, 2]?)?;
    Ok(Kernel::Min { m: 0, xs })
}

/// Bounds of the least and of the two others, and the tells.
static LEAST_TELLS: [(Pairs, &[Told]); 2] = [
    (
        [(0, 4), (6, 9), (0, 9), (0, 0)],
        &[
            (0, High, 9),
            (0, Low, 0),
            (1, Low, 0),
            (2, Low, 0),
            (2, High, 4),
        ],
    ),
    // At both ends of the range.
    (
        [(-PAST, PAST), (-LARGEST, -LARGEST), (-PAST, PAST), (0, 0)],
        &[
            (0, High, -LARGEST),
            (0, Low, -PAST),
            (1, Low, -PAST),
            (2, Low, -PAST),
        ],
    ),
];

#[test]
fn the_least_gives_its_tells_in_order(rt: HostRuntime) -> Result<(), Fail> {
    expect_tells(&rt, rt.alloc(), least(rt.alloc())?, &LEAST_TELLS)?;
    Ok(())
}

/// Bounds of the least and of the two others, and all after the tells.
static LEAST_BOUNDS: [(&Pairs, &Pairs); 1] = [(
    &[(0, 9), (1, 3), (2, 4), (0, 0)],
    &[(1, 3), (1, 3), (2, 4), (0, 0)],
)];

#[test]
fn the_least_tells_what_is_worked_out_by_hand(rt: HostRuntime) -> Result<(), Fail> {
    expect_bounds(&rt, rt.alloc(), least(rt.alloc())?, &LEAST_BOUNDS)?;
    Ok(())
}

/// Variable 0 is true or variable 1 is false.
pub(crate) fn clause(alloc: Global) -> Result<Kernel, AllocError>
    ensures { IfOk result (IsKernel 4) }
{
    let first = Lit {
        var: 0,
        positive: true,
    };
    let second = Lit {
        var: 1,
        positive: false,
    };
    let lits = SharedList::from_vec(vec![in alloc; first, second]?)?;
    Ok(Kernel::Clause {
        lits: Literals::from_list(lits),
    })
}

/// The same by the variables of its literals of each sign.
fn clause_by_sign(alloc: Global) -> Result<Kernel, AllocError>
    ensures { IfOk result (IsKernel 4) }
{
    let positives = SharedList::from_vec(vec![in alloc; 0u32]?)?;
    let negatives = SharedList::from_vec(vec![in alloc; 1u32]?)?;
    Ok(Kernel::Clause {
        lits: Literals::by_sign(positives, negatives),
    })
}

/// Bounds of the two variables, and the tells.
static CLAUSE_TELLS: [(Pairs, &[Told]); 4] = [
    ([(0, 0), (0, 1), (0, 0), (0, 0)], &[(1, High, 0)]),
    (
        [(0, 0), (1, 1), (0, 0), (0, 0)],
        &[(0, Low, 1), (1, High, 0)],
    ),
    ([(PAST, PAST), (0, 1), (0, 0), (0, 0)], &[]),
    (
        [(-PAST, -PAST), (PAST, PAST), (0, 0), (0, 0)],
        &[(0, Low, 1), (1, High, 0)],
    ),
];

#[test]
fn the_clause_gives_its_tells_in_order(rt: HostRuntime) -> Result<(), Fail> {
    expect_tells(&rt, rt.alloc(), clause(rt.alloc())?, &CLAUSE_TELLS)?;
    Ok(())
}

#[test]
fn the_clause_by_sign_gives_the_same_tells(rt: HostRuntime) -> Result<(), Fail> {
    expect_tells(&rt, rt.alloc(), clause_by_sign(rt.alloc())?, &CLAUSE_TELLS)?;
    Ok(())
}

/// Variable 0 is true, variable 1 is false or variable 2 is true.
pub(crate) fn clause_of_three(alloc: Global) -> Result<Kernel, AllocError>
    ensures { IfOk result (IsKernel 4) }
{
    let first = Lit {
        var: 0,
        positive: true,
    };
    let second = Lit {
        var: 1,
        positive: false,
    };
    let third = Lit {
        var: 2,
        positive: true,
    };
    let lits = SharedList::from_vec(vec![in alloc; first, second, third]?)?;
    Ok(Kernel::Clause {
        lits: Literals::from_list(lits),
    })
}

/// Bounds of the three variables, and the tells.
static THREE_TELLS: [(Pairs, &[Told]); 7] = [
    ([(0, 0), (1, 1), (0, 1), (0, 0)], &[(2, Low, 1)]),
    ([(0, 0), (0, 1), (0, 0), (0, 0)], &[(1, High, 0)]),
    ([(0, 1), (1, 1), (0, 0), (0, 0)], &[(0, Low, 1)]),
    (
        [(0, 0), (1, 1), (0, 0), (0, 0)],
        &[(0, Low, 1), (1, High, 0), (2, Low, 1)],
    ),
    ([(0, 0), (0, 1), (0, 1), (0, 0)], &[]),
    ([(0, 1), (0, 1), (0, 0), (0, 0)], &[]),
    (
        [(-PAST, -PAST), (PAST, PAST), (-PAST, PAST), (0, 0)],
        &[(2, Low, 1)],
    ),
];

#[test]
fn the_clause_of_three_gives_its_tells_in_order(rt: HostRuntime) -> Result<(), Fail> {
    expect_tells(&rt, rt.alloc(), clause_of_three(rt.alloc())?, &THREE_TELLS)?;
    Ok(())
}

/// Bounds of the two variables, and both after the tells.
static CLAUSE_BOUNDS: [(&Pairs, &Pairs); 3] = [
    (
        &[(0, 0), (0, 1), (0, 0), (0, 0)],
        &[(0, 0), (0, 0), (0, 0), (0, 0)],
    ),
    (
        &[(0, 1), (0, 1), (0, 0), (0, 0)],
        &[(0, 1), (0, 1), (0, 0), (0, 0)],
    ),
    (
        &[(0, 1), (1, 1), (0, 0), (0, 0)],
        &[(1, 1), (1, 1), (0, 0), (0, 0)],
    ),
];

#[test]
fn the_clause_tells_what_is_worked_out_by_hand(rt: HostRuntime) -> Result<(), Fail> {
    expect_bounds(&rt, rt.alloc(), clause(rt.alloc())?, &CLAUSE_BOUNDS)?;
    Ok(())
}

/// No literal is true.
fn no_literals(alloc: Global) -> Kernel
    ensures { IsKernel 4 result }
{
    Kernel::Clause {
        lits: Literals::from_list(SharedList::empty(alloc)),
    }
}

/// Any bounds, and the tell that none meets.
static NO_LITERALS_TELLS: [(Pairs, &[Told]); 1] = [(
    [(1, 1), (0, 1), (0, 0), (0, 0)],
    &[(0, Low, PAST)],
)];

#[test]
fn the_clause_of_no_literals_tells_what_none_meets(rt: HostRuntime) -> Result<(), Fail> {
    expect_tells(&rt, rt.alloc(), no_literals(rt.alloc()), &NO_LITERALS_TELLS)?;
    Ok(())
}

/// Variable 1 equals the one of variables 2, 3 and 2 whose place is variable 0.
fn element(alloc: Global) -> Result<Kernel, AllocError>
    ensures { IfOk result (IsKernel 4) }
{
    let entries = SharedList::from_vec(vec![in alloc; 2u32, 3, 2]?)?;
    Ok(Kernel::Element {
        x: 0,
        entries,
        c: 1,
    })
}

/// Bounds of the place, the value and the two entries, and the tells.
static ELEMENT_TELLS: [(Pairs, &[Told]); 3] = [
    (
        [(0, 5), (8, 8), (7, 7), (8, 8)],
        &[
            (0, Low, 1),
            (0, High, 3),
            (0, Low, 2),
            (0, High, 2),
            (1, Low, 8),
            (1, High, 8),
        ],
    ),
    (
        [(2, 2), (0, 5), (2, 4), (5, 9)],
        &[
            (0, Low, 1),
            (0, High, 3),
            (0, Low, 2),
            (0, High, 2),
            (1, Low, 5),
            (1, High, 9),
            (3, Low, 0),
            (3, High, 5),
            (1, Low, 5),
            (1, High, 9),
        ],
    ),
    // At both ends of the range.
    (
        [
            (-PAST, PAST),
            (-PAST, PAST),
            (LARGEST, LARGEST),
            (-PAST, -PAST),
        ],
        &[
            (0, Low, 1),
            (0, High, 3),
            (0, Low, 1),
            (0, High, 3),
            (1, Low, -PAST),
            (1, High, LARGEST),
        ],
    ),
];

#[test]
fn the_element_gives_its_tells_in_order(rt: HostRuntime) -> Result<(), Fail> {
    expect_tells(&rt, rt.alloc(), element(rt.alloc())?, &ELEMENT_TELLS)?;
    Ok(())
}

/// Bounds of the place, the value and the two entries, and all after the tells.
static ELEMENT_BOUNDS: [(&Pairs, &Pairs); 2] = [
    (
        &[(1, 3), (0, 9), (2, 4), (5, 6)],
        &[(1, 3), (2, 6), (2, 4), (5, 6)],
    ),
    (
        &[(1, 3), (0, 1), (2, 4), (5, 6)],
        &[(PAST, 3), (0, 1), (2, 4), (5, 6)],
    ),
];

#[test]
fn the_element_tells_what_is_worked_out_by_hand(rt: HostRuntime) -> Result<(), Fail> {
    expect_bounds(&rt, rt.alloc(), element(rt.alloc())?, &ELEMENT_BOUNDS)?;
    Ok(())
}

/// The first number of the first range, the last one of the middle range and the last one of the last range.
type Ends = (i64, i64, i64);

/// Variable 0 is true exactly where variable 1 is from `first` to 1, from 4 to `middle` or from 9 to `last`.
fn in_set(alloc: Global, first: i64, middle: i64, last: i64) -> Result<Kernel, AllocError>
    requires first { IsNumber first }
    requires last { IsNumber last }
    requires first_range { first ≤ℤ pos 1 }
    requires middle_range { pos 4 ≤ℤ middle }
    requires apart { middle ≤ℤ pos 7 }
    requires last_range { pos 9 ≤ℤ last }
    ensures { IfOk result (IsKernel 4) }
{
    let lit = Lit {
        var: 0,
        positive: true,
    };
    let ranges = SharedList::from_vec(vec![in alloc;
        (first, 1i64),
        (4i64, middle),
        (9i64, last),
    ]?)?;
    Ok(Kernel::InSet { lit, x: 1, ranges })
}

/// The set of these ends.
fn in_set_of(rt: &impl Abort, alloc: Global, ends: &Ends) -> Result<Kernel, AllocError>
    ensures { IfOk result (IsKernel 4) }
{
    let first = number(rt, ends.0);
    let middle = ends.1;
    let last = number(rt, ends.2);
    assert!(rt; first <= 1 && 4 <= middle && middle <= 7 && 9 <= last);
    in_set(alloc, first, middle, last)
}

/// The ends of sets, the bounds of the literal's variable and of the other, and the tells.
static SET_TELLS: [(Ends, Pairs, &[Told]); 8] = [
    (
        (1, 5, 9),
        [(1, 1), (2, 8), (0, 0), (0, 0)],
        &[(1, Low, 4), (1, High, 5)],
    ),
    (
        (1, 5, 9),
        [(0, 0), (4, 9), (0, 0), (0, 0)],
        &[(1, Low, 6), (1, High, 8)],
    ),
    ((1, 5, 9), [(0, 1), (4, 5), (0, 0), (0, 0)], &[(0, Low, 1)]),
    (
        (1, 5, 9),
        [(1, 1), (6, 8), (0, 0), (0, 0)],
        &[(0, High, 0), (1, Low, 9), (1, High, 5)],
    ),
    (
        (1, 4, 9),
        [(1, 1), (2, 8), (0, 0), (0, 0)],
        &[(1, Low, 4), (1, High, 4)],
    ),
    // At both ends of the range.
    (
        (-LARGEST, 4, LARGEST),
        [(1, 1), (-PAST, PAST), (0, 0), (0, 0)],
        &[(1, Low, -LARGEST), (1, High, LARGEST)],
    ),
    (
        (-LARGEST, 4, LARGEST),
        [(0, 0), (-LARGEST, LARGEST), (0, 0), (0, 0)],
        &[(1, Low, 2), (1, High, 8)],
    ),
    (
        (-LARGEST, 4, LARGEST),
        [(0, 0), (LARGEST, LARGEST), (0, 0), (0, 0)],
        &[(0, Low, 1), (1, Low, PAST), (1, High, 8)],
    ),
];

#[test]
fn the_set_gives_its_tells_in_order(rt: HostRuntime) -> Result<(), Fail> {
    let alloc = rt.alloc();
    for (ends, pairs, tells) in &SET_TELLS {
        let kernel = in_set_of(&rt, alloc, ends)?;
        expect_tells(&rt, alloc, kernel, &[(*pairs, *tells)])?;
    }
    Ok(())
}
