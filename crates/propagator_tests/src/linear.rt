//! The tells of the linear inequality and the linear equation, with the bounds worked out by hand.

ghost use Rattle.std.specs.Prelude.{◌≡◌, ◌<◌, ◌≤◌, ◌∷◌, ℕ, IfOk, pos, length, slice_index_or, unsigned_abs};
ghost use Rattle.std.specs.Bool.{OnTrue};
ghost use Rattle.interval.specs.Limits.{IsNumber, largest_number};
ghost use Rattle.guarded_tell.specs.Words.{AreVariables};
ghost use Rattle.sum_tells.specs.Linear.{IsLinear};
ghost use Rattle.guarded_tell.specs.Kernels.{IsKernel};

use crate::four_variables::{
    LARGEST, PAST, Pairs, Told, expect_bounds, expect_tells, narrowing_told, number, shape,
    tell_on_each,
};
use guarded_tell::Side::{High, Low};
use guarded_tell::{Extended, Kernel, Lit};
use kernel_visits::{Hint, Shape, Sign, Terms};
use memory::NoMemory;
use shared_list::SharedList;
use std::alloc::{AllocError, Global};
use std::process::Abort;
use std::test::Fail;

/// How a sum is compared with its limit.
#[derive(Clone, Copy)]
pub(crate) enum Relation {
    AtMost,
    Equal,
}

use Relation::{AtMost, Equal};

/// The literal of variable 0, positive or not, is true exactly where the sum of the coefficients times variables 1, 2
/// and so on has this relation to the limit.
pub(crate) type Sum = (Relation, bool, &'static [i64], i64);

/// Whether these are numbers of a model.
#[tactic(auto, unfolding(interval::specs::Limits::largest_number))]
pub(crate) fn are_numbers(numbers: &[i64]) -> bool
    ensures { OnTrue result ((i : ℕ) → i < length numbers.now → IsNumber (slice_index_or numbers.now i (pos 0))) }
{
    numbers.iter().all(|z| -LARGEST <= *z && *z <= LARGEST)
}

/// Which lists of an equation have their last item apart.
#[derive(Clone, Copy)]
pub(crate) struct Apart {
    coeffs: bool,
    vars: bool,
}

/// Each way in which the lists of an equation may be kept. In the first they are in one piece.
pub(crate) static WAYS: [Apart; 4] = [
    Apart {
        coeffs: false,
        vars: false,
    },
    Apart {
        coeffs: true,
        vars: true,
    },
    Apart {
        coeffs: true,
        vars: false,
    },
    Apart {
        coeffs: false,
        vars: true,
    },
];

/// The ways in which the lists of a sum may be kept. Those of an inequality are in one piece.
fn ways(relation: Relation) -> &'static [Apart] {
    match relation {
        AtMost => &WAYS[..1],
        Equal => &WAYS,
    }
}

/// The variables of the terms.
static VARIABLES: [u32; 3] = [1, 2, 3];

/// The terms with these coefficients: the coefficients, and as many of variables 1, 2 and 3.
#[tactic(auto, unfolding(sum_tells::specs::Linear::term_limit, interval::specs::Limits::largest_number))]
fn terms<'a>(rt: &impl Abort, coeffs: &'a [i64]) -> (&'a [i64], &'a [u32])
    ensures linear { IsLinear result.0.now result.1.now (pos 0) }
    ensures variables { AreVariables 4 (0 ∷ result.1.now) }
{
    assert!(rt; coeffs.len() <= 3);
    assert!(rt; are_numbers(coeffs));
    (coeffs, &VARIABLES[..coeffs.len()])
}

/// These items in one piece.
pub(crate) fn whole<T: Copy + Drop>(alloc: Global, items: &[T]) -> Result<SharedList<T>, AllocError>
    ensures { IfOk result (λ list. list ≡ items.now) }
{
    SharedList::from_vec(Vec::from_slice(alloc, items)?)
}

/// These items, with the last one apart if that is wanted and there is one.
fn parted<T: Copy + Drop>(
    alloc: Global,
    items: &[T],
    is_apart: bool,
) -> Result<Extended<T>, AllocError>
    ensures { IfOk result (λ list. list ≡ items.now) }
{
    match items.split_last() {
        Some((last, front)) if is_apart => Ok(Extended::with_last(whole(alloc, front)?, *last)),
        _ => Ok(Extended::from_list(whole(alloc, items)?)),
    }
}

/// The kernel of the sum, where the lists of an equation are kept in this way.
#[tactic(auto, unfolding(guarded_tell::specs::Kernels::vars_of, guarded_tell::specs::Kernels::HasNumbers))]
pub(crate) fn linear(
    rt: &impl Abort,
    alloc: Global,
    sum: &Sum,
    apart: Apart,
) -> Result<Kernel, AllocError>
    ensures { IfOk result (IsKernel 4) }
{
    let lit = Lit {
        var: 0,
        positive: sum.1,
    };
    let limit = number(rt, sum.3);
    let (coeffs, vars) = terms(rt, sum.2);
    Ok(match sum.0 {
        AtMost => Kernel::Le {
            lit,
            coeffs: whole(alloc, coeffs)?,
            vars: whole(alloc, vars)?,
            limit,
        },
        Equal => Kernel::Eq {
            lit,
            coeffs: parted(alloc, coeffs, apart.coeffs)?,
            vars: parted(alloc, vars, apart.vars)?,
            limit,
        },
    })
}

/// Boxes round the limits 0 and 1 of a difference, with the literal false, true and open.
static NEAR: [Pairs; 18] = [
    [(0, 0), (0, 2), (0, 2), (0, 2)],
    [(0, 0), (0, 2), (2, 2), (1, 1)],
    [(0, 0), (1, 1), (0, 2), (1, 1)],
    [(0, 0), (1, 1), (0, 1), (0, 0)],
    [(0, 0), (1, 1), (1, 2), (0, 1)],
    [(0, 0), (2, 2), (1, 1), (0, 0)],
    [(1, 1), (0, 2), (0, 2), (0, 2)],
    [(1, 1), (0, 2), (2, 2), (1, 1)],
    [(1, 1), (0, 2), (1, 3), (0, 0)],
    [(1, 1), (1, 3), (0, 2), (0, 1)],
    [(1, 1), (1, 1), (1, 1), (0, 2)],
    [(1, 1), (0, 3), (0, 2), (0, 0)],
    [(0, 1), (0, 2), (0, 2), (0, 2)],
    [(0, 1), (0, 2), (2, 3), (0, 0)],
    [(0, 1), (0, 2), (3, 4), (1, 1)],
    [(0, 1), (2, 3), (0, 2), (0, 0)],
    [(0, 1), (3, 4), (0, 2), (0, 1)],
    [(0, 1), (1, 1), (1, 1), (1, 1)],
];

/// Coefficients and limits.
static SUMS: [(&[i64], i64); 13] = [
    (&[1, -1], 0),
    (&[1, -1], 1),
    (&[-1, 1], 0),
    (&[-1, 1], -1),
    (&[1, 1], 3),
    (&[-1, -1], -3),
    (&[2, -1], 1),
    (&[0, 1], 2),
    (&[1, -1, 1], 0),
    (&[1, -1, -1], 1),
    (&[-1, 1, 0], 0),
    (&[2, -1, 3], 1),
    (&[1, 1, 1], 4),
];

/// Boxes at the ends of the range, with the literal false, true and open.
static FAR: [Pairs; 9] = [
    [(0, 0), (-PAST, PAST), (-PAST, PAST), (0, 0)],
    [(0, 0), (PAST, PAST), (-PAST, PAST), (0, 0)],
    [(0, 0), (LARGEST, LARGEST), (0, PAST), (0, 0)],
    [(1, 1), (-PAST, PAST), (-PAST, PAST), (0, 0)],
    [(1, 1), (-PAST, -PAST), (PAST, PAST), (0, 0)],
    [(1, 1), (-LARGEST, 0), (0, 0), (0, 0)],
    [(0, 1), (-PAST, PAST), (-PAST, PAST), (0, 0)],
    [(0, 1), (LARGEST, PAST), (0, 0), (0, 0)],
    [(0, 1), (LARGEST, LARGEST), (0, 0), (0, 0)],
];

/// Differences with limits at the ends of the range.
static FAR_SUMS: [(&[i64], i64); 5] = [
    (&[1, -1], LARGEST),
    (&[1, -1], -LARGEST),
    (&[-1, 1], LARGEST),
    (&[-1, 1], -LARGEST),
    (&[1, -1], 0),
];

/// Boxes at the ends of the range, and inside what fits 32 bits, with the literal false, true and open.
static WIDE: [Pairs; 12] = [
    [(0, 0), (-PAST, PAST), (-PAST, PAST), (-PAST, PAST)],
    [(0, 0), (-9, 9), (-9, 9), (-9, 9)],
    [(0, 0), (LARGEST, PAST), (-PAST, -LARGEST), (7, 7)],
    [(1, 1), (-PAST, PAST), (-PAST, PAST), (-PAST, PAST)],
    [(1, 1), (-9, 9), (-9, 9), (-9, 9)],
    [(1, 1), (LARGEST, PAST), (-PAST, -LARGEST), (-9, 9)],
    [(1, 1), (-PAST, -PAST), (PAST, PAST), (-9, 9)],
    [
        (1, 1),
        (-2_147_483_647, 2_147_483_647),
        (-2_147_483_647, 2_147_483_647),
        (0, 9),
    ],
    [
        (1, 1),
        (-2_147_483_648, 2_147_483_647),
        (-32_768, 32_767),
        (-9, 0),
    ],
    [(0, 1), (-PAST, PAST), (-PAST, PAST), (-PAST, PAST)],
    [(0, 1), (-9, 9), (-9, 9), (-9, 9)],
    [(0, 1), (4, 4), (-6, -6), (2, 2)],
];

/// Coefficients on both sides of those whose products fit 64 bits, with limits that their terms reach.
static STEEP: [(&[i64], i64); 10] = [
    (&[1, -1, 2], 3),
    (&[-1, 2, -2], -17),
    (&[2, -2, 1], -100),
    (&[32_767, -32_767, 1], 5),
    (&[-32_767, 32_767, -2], -65_537),
    (&[32_768, -1, 32_767], 32_767),
    (&[2_147_483_647, -2_147_483_647, 2], 2_147_483_646),
    (&[2_147_483_648, -2_147_483_648, -1], -2_147_483_647),
    (&[-2_147_483_648, 1, -32_767], LARGEST),
    (&[3, -5], -LARGEST),
];

/// Sums of three terms with each of their signs, with limits that leave them room, little of it or none.
static THREE: [(&[i64], i64); 18] = [
    (&[1, 1, 1], 7),
    (&[1, 1, -1], 2),
    (&[1, -1, 1], 2),
    (&[1, -1, -1], 0),
    (&[-1, 1, 1], 1),
    (&[-1, 1, -1], -1),
    (&[-1, -1, 1], -2),
    (&[-1, -1, -1], -7),
    (&[1, 1, 1], 0),
    (&[1, 1, -1], 12),
    (&[1, -1, 1], -3),
    (&[1, -1, -1], -9),
    (&[-1, 1, 1], 6),
    (&[-1, -1, 1], 8),
    (&[-1, -1, -1], -14),
    (&[1, -1, -1], LARGEST),
    (&[-1, 1, 1], -LARGEST),
    (&[1, 1, 1], 100),
];

/// Boxes in which such a sum narrows nothing, and those in which it narrows one bound, two or more, most with the literal true.
static TIGHT: [Pairs; 12] = [
    [(1, 1), (0, 5), (0, 5), (0, 5)],
    [(1, 1), (0, 9), (2, 3), (4, 4)],
    [(1, 1), (2, 3), (-9, 9), (3, 4)],
    [(1, 1), (2, 2), (3, 4), (-9, 9)],
    [(1, 1), (-9, 9), (1, 1), (2, 2)],
    [(1, 1), (2, 2), (0, 9), (5, 5)],
    [(1, 1), (-2, -2), (3, 3), (-9, 9)],
    [(1, 1), (0, 2), (0, 20), (0, 2)],
    [(1, 1), (4, 4), (-1, -1), (3, 3)],
    [(1, 1), (0, 0), (0, 0), (0, 0)],
    [(0, 1), (0, 5), (0, 5), (0, 5)],
    [(0, 0), (1, 1), (-9, 9), (2, 2)],
];

/// Visits the kernels of the sums with this relation on the boxes, where what narrows is compared with the tells.
fn told_of_sums(
    rt: &impl Abort,
    alloc: Global,
    relation: Relation,
    sums: &'static [(&'static [i64], i64)],
    boxes: &[Pairs],
) -> Result<(), NoMemory> {
    for (coeffs, limit) in sums {
        for apart in ways(relation) {
            let kernel = linear(rt, alloc, &(relation, true, coeffs, *limit), *apart)?;
            tell_on_each(rt, alloc, kernel, boxes)?;
        }
    }
    Ok(())
}

#[test]
fn inequalities_give_just_what_narrows(rt: HostRuntime) -> Result<(), Fail> {
    told_of_sums(&rt, rt.alloc(), AtMost, &SUMS, &NEAR)?;
    told_of_sums(&rt, rt.alloc(), AtMost, &STEEP, &WIDE)?;
    told_of_sums(&rt, rt.alloc(), AtMost, &FAR_SUMS, &FAR)?;
    Ok(())
}

#[test]
fn equations_give_just_what_narrows(rt: HostRuntime) -> Result<(), Fail> {
    told_of_sums(&rt, rt.alloc(), Equal, &SUMS, &NEAR)?;
    told_of_sums(&rt, rt.alloc(), Equal, &STEEP, &WIDE)?;
    told_of_sums(&rt, rt.alloc(), Equal, &FAR_SUMS, &FAR)?;
    Ok(())
}

#[test]
fn equations_of_three_terms_give_just_what_narrows(rt: HostRuntime) -> Result<(), Fail> {
    told_of_sums(&rt, rt.alloc(), Equal, &THREE, &TIGHT)?;
    told_of_sums(&rt, rt.alloc(), Equal, &THREE, &NEAR)?;
    told_of_sums(&rt, rt.alloc(), Equal, &THREE, &WIDE)?;
    Ok(())
}

#[test]
fn three_terms_are_seen_by_their_signs(rt: HostRuntime) -> Result<(), Fail> {
    for apart in &WAYS {
        let three = linear(&rt, rt.alloc(), &(Equal, true, &[1, -1, -1], -5), *apart)?;
        assert_eq!(rt;
            shape(three),
            Shape::Three {
                terms: Terms {
                    x: 1,
                    y: 2,
                    z: 3,
                    x_sign: Sign::Plus,
                    y_sign: Sign::Minus,
                    z_sign: Sign::Minus,
                },
                limit: -5
            }
        );
        let sum = linear(&rt, rt.alloc(), &(Equal, true, &[1, -1, 2], -5), *apart)?;
        assert_eq!(rt; shape(sum), Shape::Slight);
    }
    let at_most = linear(&rt, rt.alloc(), &(AtMost, true, &[1, -1, -1], -5), WAYS[0])?;
    assert_eq!(rt; shape(at_most), Shape::Slight);
    Ok(())
}

#[test]
fn a_difference_is_seen_in_either_order(rt: HostRuntime) -> Result<(), Fail> {
    let lit = Lit {
        var: 0,
        positive: true,
    };
    let at_most = linear(&rt, rt.alloc(), &(AtMost, true, &[-1, 1], 5), WAYS[0])?;
    assert_eq!(rt;
        shape(at_most),
        Shape::AtMost {
            lit,
            x: 2,
            y: 1,
            limit: 5
        }
    );
    for apart in &WAYS {
        let same = linear(&rt, rt.alloc(), &(Equal, true, &[1, -1], -5), *apart)?;
        assert_eq!(rt;
            shape(same),
            Shape::Same {
                lit,
                x: 1,
                y: 2,
                limit: -5
            }
        );
        let sum = linear(&rt, rt.alloc(), &(Equal, true, &[1, 1], -5), *apart)?;
        assert_eq!(rt; shape(sum), Shape::Other);
    }
    Ok(())
}

/// Asserts that the kernels of these sums give just these tells on the boxes of these bounds, in this order, in whichever
/// way their lists are kept.
fn expect_linear_tells(
    rt: &impl Abort,
    alloc: Global,
    cases: &[(Sum, Pairs, &[Told])],
) -> Result<(), NoMemory> {
    for (sum, pairs, tells) in cases {
        for apart in ways(sum.0) {
            let kernel = linear(rt, alloc, sum, *apart)?;
            expect_tells(rt, alloc, kernel, &[(*pairs, *tells)])?;
        }
    }
    Ok(())
}

/// Asserts of the kernels of these sums, in whichever way their lists are kept, that these are the bounds once the kernel has
/// told.
fn expect_linear_bounds(
    rt: &impl Abort,
    alloc: Global,
    cases: &[(Sum, Pairs, Pairs)],
) -> Result<(), NoMemory> {
    for (sum, pairs, after) in cases {
        for apart in ways(sum.0) {
            let kernel = linear(rt, alloc, sum, *apart)?;
            expect_bounds(rt, alloc, kernel, &[(pairs, after)])?;
        }
    }
    Ok(())
}

/// Inequalities, the bounds of the literal's variable and of the terms', and the tells.
static INEQUALITY_TELLS: [(Sum, Pairs, &[Told]); 7] = [
    (
        (AtMost, true, &[2, -3], -13),
        [(1, 1), (-5, 5), (0, 2), (0, 0)],
        &[(1, High, -4), (2, Low, 1)],
    ),
    (
        (AtMost, true, &[2, -3], 1),
        [(1, 1), (-5, 5), (0, 2), (0, 0)],
        &[(1, High, 3), (2, Low, -3)],
    ),
    (
        (AtMost, true, &[2, -3], 4),
        [(0, 0), (-5, 5), (0, 2), (0, 0)],
        &[(1, Low, 3), (2, High, 1)],
    ),
    (
        (AtMost, true, &[2, 0], 10),
        [(1, 1), (-5, 5), (0, 2), (0, 0)],
        &[(0, Low, 1), (1, High, 5)],
    ),
    // At both ends of the range.
    (
        (AtMost, true, &[LARGEST, -LARGEST], -LARGEST),
        [(1, 1), (-PAST, PAST), (-PAST, PAST), (0, 0)],
        &[(1, High, LARGEST), (2, Low, -LARGEST)],
    ),
    (
        (AtMost, true, &[1, 1], LARGEST),
        [(1, 1), (-PAST, -PAST), (-PAST, -PAST), (0, 0)],
        &[(0, Low, 1), (1, High, PAST), (2, High, PAST)],
    ),
    // No terms.
    (
        (AtMost, true, &[], -1),
        [(1, 1), (0, 0), (0, 0), (0, 0)],
        &[(0, High, 0)],
    ),
];

#[test]
fn the_inequality_gives_its_tells_in_order(rt: HostRuntime) -> Result<(), Fail> {
    expect_linear_tells(&rt, rt.alloc(), &INEQUALITY_TELLS)?;
    Ok(())
}

/// Inequalities, the bounds of the literal's variable and of the term's, and all after the tells.
static INEQUALITY_BOUNDS: [(Sum, Pairs, Pairs); 10] = [
    (
        (AtMost, true, &[2, 0], -3),
        [(1, 1), (-5, 5), (0, 0), (0, 0)],
        [(1, 1), (-5, -2), (0, 0), (0, 0)],
    ),
    (
        (AtMost, true, &[1, 0], 4),
        [(0, 1), (0, 4), (0, 0), (0, 0)],
        [(1, 1), (0, 4), (0, 0), (0, 0)],
    ),
    (
        (AtMost, true, &[-2, 0], 3),
        [(1, 1), (-5, 5), (0, 0), (0, 0)],
        [(1, 1), (-1, 5), (0, 0), (0, 0)],
    ),
    (
        (AtMost, true, &[3, 0], 4),
        [(0, 0), (-5, 5), (0, 0), (0, 0)],
        [(0, 0), (2, 5), (0, 0), (0, 0)],
    ),
    (
        (AtMost, true, &[-3, 0], 4),
        [(0, 0), (-5, 5), (0, 0), (0, 0)],
        [(0, 0), (-5, -2), (0, 0), (0, 0)],
    ),
    (
        (AtMost, false, &[2, 0], -3),
        [(0, 0), (-5, 5), (0, 0), (0, 0)],
        [(0, 0), (-5, -2), (0, 0), (0, 0)],
    ),
    (
        (AtMost, true, &[1, 0], 4),
        [(0, 1), (5, 7), (0, 0), (0, 0)],
        [(0, 0), (5, 7), (0, 0), (0, 0)],
    ),
    (
        (AtMost, false, &[1, 0], 4),
        [(0, 1), (5, 7), (0, 0), (0, 0)],
        [(1, 1), (5, 7), (0, 0), (0, 0)],
    ),
    (
        (AtMost, true, &[0, 0], -1),
        [(0, 1), (5, 7), (0, 0), (0, 0)],
        [(0, 0), (5, 7), (0, 0), (0, 0)],
    ),
    (
        (AtMost, true, &[1, 0], 4),
        [(0, 1), (3, 7), (0, 0), (0, 0)],
        [(0, 1), (3, 7), (0, 0), (0, 0)],
    ),
];

#[test]
fn the_inequality_tells_what_is_worked_out_by_hand(rt: HostRuntime) -> Result<(), Fail> {
    expect_linear_bounds(&rt, rt.alloc(), &INEQUALITY_BOUNDS)?;
    Ok(())
}

/// Equations, the bounds of the literal's variable and of the terms', and the tells.
static EQUATION_TELLS: [(Sum, Pairs, &[Told]); 7] = [
    (
        (Equal, true, &[2, -3], 1),
        [(1, 1), (-5, 5), (0, 2), (0, 0)],
        &[(1, High, 3), (1, Low, 1), (2, Low, -3), (2, High, 3)],
    ),
    (
        (Equal, true, &[1, -1], 0),
        [(0, 0), (1, 3), (1, 1), (0, 0)],
        &[(1, Low, 2)],
    ),
    (
        (Equal, true, &[1, -1], 0),
        [(1, 1), (3, 3), (1, 1), (0, 0)],
        &[
            (0, High, 0),
            (1, High, 1),
            (1, Low, 1),
            (2, Low, 3),
            (2, High, 3),
        ],
    ),
    // One term, and three.
    (
        (Equal, true, &[2], 7),
        [(1, 1), (0, 5), (0, 0), (0, 0)],
        &[(1, High, 3), (1, Low, 4)],
    ),
    (
        (Equal, true, &[1, 1, -1], 0),
        [(1, 1), (1, 3), (2, 2), (0, 9)],
        &[
            (1, High, 7),
            (1, Low, -2),
            (2, High, 8),
            (2, Low, -3),
            (3, Low, 3),
            (3, High, 5),
        ],
    ),
    // At both ends of the range.
    (
        (Equal, true, &[LARGEST, -LARGEST], 0),
        [(1, 1), (PAST, PAST), (-PAST, PAST), (0, 0)],
        &[
            (1, High, PAST),
            (1, Low, -PAST),
            (2, Low, PAST),
            (2, High, PAST),
        ],
    ),
    (
        (Equal, true, &[1, 0], LARGEST),
        [(0, 0), (LARGEST, LARGEST), (-PAST, PAST), (0, 0)],
        &[(0, Low, 1), (1, Low, PAST), (1, High, LARGEST - 1)],
    ),
];

#[test]
fn the_equation_gives_its_tells_in_order(rt: HostRuntime) -> Result<(), Fail> {
    expect_linear_tells(&rt, rt.alloc(), &EQUATION_TELLS)?;
    Ok(())
}

/// Equations, the bounds of the literal's variable and of the terms', and all after the tells.
static EQUATION_BOUNDS: [(Sum, Pairs, Pairs); 11] = [
    (
        (Equal, false, &[1, -1], 0),
        [(1, 1), (1, 3), (1, 1), (0, 0)],
        [(1, 1), (2, 3), (1, 1), (0, 0)],
    ),
    (
        (Equal, false, &[1, -1], 0),
        [(1, 1), (-1, 1), (1, 1), (0, 0)],
        [(1, 1), (-1, 0), (1, 1), (0, 0)],
    ),
    (
        (Equal, true, &[1, -1], 0),
        [(0, 0), (4, 4), (4, 7), (0, 0)],
        [(0, 0), (4, 4), (5, 7), (0, 0)],
    ),
    (
        (Equal, true, &[2, 0], 6),
        [(0, 0), (3, 3), (4, 7), (0, 0)],
        [(1, 0), (4, 2), (4, 7), (0, 0)],
    ),
    (
        (Equal, true, &[2, 0], 5),
        [(0, 0), (2, 3), (4, 7), (0, 0)],
        [(0, 0), (2, 3), (4, 7), (0, 0)],
    ),
    (
        (Equal, true, &[1, -1], 0),
        [(0, 0), (1, 3), (1, 3), (0, 0)],
        [(0, 0), (1, 3), (1, 3), (0, 0)],
    ),
    (
        (Equal, true, &[2, -3], 1),
        [(1, 1), (3, 9), (-9, 2), (0, 0)],
        [(1, 1), (3, 3), (2, 2), (0, 0)],
    ),
    (
        (Equal, true, &[1, 1], 5),
        [(0, 1), (2, 2), (3, 3), (0, 0)],
        [(1, 1), (2, 2), (3, 3), (0, 0)],
    ),
    (
        (Equal, true, &[1, 1], 5),
        [(0, 1), (2, 3), (0, 1), (0, 0)],
        [(0, 0), (2, 3), (0, 1), (0, 0)],
    ),
    (
        (Equal, false, &[1, 1], 5),
        [(0, 1), (3, 4), (3, 4), (0, 0)],
        [(1, 1), (3, 4), (3, 4), (0, 0)],
    ),
    (
        (Equal, true, &[1, 1], 5),
        [(0, 1), (0, 9), (0, 9), (0, 0)],
        [(0, 1), (0, 9), (0, 9), (0, 0)],
    ),
];

#[test]
fn the_equation_tells_what_is_worked_out_by_hand(rt: HostRuntime) -> Result<(), Fail> {
    expect_linear_bounds(&rt, rt.alloc(), &EQUATION_BOUNDS)?;
    Ok(())
}

/// Inequalities, the bounds of the literal's variable and of the terms', and the tells that narrow.
static NARROWING: [(Sum, Pairs, &[Told]); 5] = [
    (
        (AtMost, true, &[2, -3], 1),
        [(1, 1), (-5, 5), (0, 2), (0, 0)],
        &[(1, High, 3)],
    ),
    (
        (AtMost, true, &[1, -1], -4),
        [(1, 1), (-5, 5), (0, 2), (0, 0)],
        &[(1, High, -2)],
    ),
    (
        (AtMost, true, &[-1, 1], -2),
        [(0, 1), (-5, -3), (0, 2), (0, 0)],
        &[(0, High, 0)],
    ),
    // The box is closed: the sum reaches the limit, and the literal isn't decided.
    (
        (AtMost, true, &[1, 1], 7),
        [(1, 1), (0, 5), (0, 2), (0, 0)],
        &[],
    ),
    (
        (AtMost, true, &[1, 1], 6),
        [(0, 1), (0, 5), (0, 2), (0, 0)],
        &[],
    ),
];

#[test]
fn only_what_narrows_the_box_is_given(rt: HostRuntime) -> Result<(), Fail> {
    let alloc = rt.alloc();
    let mut hint = Hint::new();
    for (sum, pairs, tells) in &NARROWING {
        let kernel = linear(&rt, alloc, sum, WAYS[0])?;
        let narrowing = narrowing_told(&rt, alloc, kernel, pairs, &mut hint)?;
        assert_eq!(rt; narrowing.as_slice(&rt), *tells);
    }
    Ok(())
}
