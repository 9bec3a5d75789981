//! What the shape of a product says of a visit, beside its tells.

ghost use Rattle.std.specs.Prelude.{◌≡◌, ◌<◌, length};
ghost use Rattle.interval.specs.Boxes.{IsProper};
ghost use Rattle.guarded_tell.specs.Kernels.{IsKernel};

use crate::four_variables::{
    PAST, Pairs, Told, are_those_that_narrow, box_of, narrows, row, tells_on,
};
use guarded_tell::Kernel;
use guarded_tell::Side::{High, Low};
use interval::BoxOf;
use kernel_visits::shape_of;
use memory::NoMemory;
use seen_tells::{Seen, seen_visit};
use std::alloc::Global;
use std::process::Abort;
use std::test::Fail;

/// A natural factor is at most this much.
const FACTOR: i64 = 2_147_483_648;

/// So many boxes are drawn.
const DRAWN: u32 = 2_000;

/// Variable 2 is the product of variables 0 and 1.
fn product() -> Kernel
    ensures { IsKernel 4 result }
{
    Kernel::Times { x: 0, y: 1, z: 2 }
}

/// What the kernel's shape says of a visit on the box.
fn seen_on(kernel: &Kernel, b: &BoxOf) -> Seen
    requires kernel { IsKernel 4 kernel.now }
    requires four { length b.now ≡ 4 }
    requires proper { IsProper b.now }
{
    seen_visit(kernel, &shape_of(kernel), b)
}

/// Bounds of the two factors and the product, and the tells that are seen there, if anything is.
static SEEN: [(Pairs, Option<&[Told]>); 12] = [
    ([(2, 5), (3, 4), (6, 20), (0, 0)], Some(&[])),
    ([(2, 5), (3, 4), (5, 20), (0, 0)], Some(&[(2, Low, 6)])),
    ([(2, 5), (3, 4), (6, 14), (0, 0)], Some(&[(0, High, 4)])),
    ([(3, 4), (2, 5), (9, 20), (0, 0)], Some(&[(1, Low, 3)])),
    (
        [(2, 5), (3, 4), (9, 14), (0, 0)],
        Some(&[(0, Low, 3), (0, High, 4)]),
    ),
    (
        [(2, 5), (3, 4), (0, 40), (0, 0)],
        Some(&[(2, Low, 6), (2, High, 20)]),
    ),
    // Both factors cross: the first is told to be at most 1, the second at most 2.
    ([(2, 5), (3, 4), (0, 5), (0, 0)], None),
    // The product and both factors are told.
    ([(2, 5), (3, 4), (17, 40), (0, 0)], None),
    // No natural factor, and a product below 0.
    ([(0, 5), (3, 4), (6, 20), (0, 0)], None),
    ([(2, 5), (3, 4), (-1, 20), (0, 0)], None),
    // At the ends of the ranges.
    (
        [(FACTOR, FACTOR), (FACTOR, FACTOR), (PAST, PAST), (0, 0)],
        Some(&[(0, High, 65_536), (1, High, 65_536)]),
    ),
    ([(1, FACTOR + 1), (1, 1), (1, FACTOR + 1), (0, 0)], None),
];

#[test]
fn the_shape_of_a_product_says_what_it_tells(rt: HostRuntime) -> Result<(), Fail> {
    compare_seen(&rt, rt.alloc(), product())?;
    Ok(())
}

/// Compares what is seen with the table.
fn compare_seen(rt: &impl Abort, alloc: Global, kernel: Kernel) -> Result<(), NoMemory>
    requires { IsKernel 4 kernel }
{
    compare_rows(rt, alloc, &kernel)
}

/// The same of a kernel that is lent.
fn compare_rows(rt: &impl Abort, alloc: Global, kernel: &Kernel) -> Result<(), NoMemory>
    requires { IsKernel 4 kernel.now }
{
    for (pairs, seen) in &SEEN {
        let b = box_of(rt, alloc, pairs)?;
        assert!(rt; is_said(seen_on(kernel, &b), *seen));
    }
    Ok(())
}

/// Whether just these tells are seen, or nothing is.
fn is_said(seen: Seen, tells: Option<&[Told]>) -> bool {
    match seen {
        Seen::Quiet(_) => tells == Some(&[]),
        Seen::One(t) => tells == Some(&[row(t)]),
        Seen::Two(t, u) => tells == Some(&[row(t), row(u)]),
        Seen::Unseen => tells.is_none(),
    }
}

/// Numbers that look random, the same in each run.
#[derive(Drop)]
struct Draws {
    state: u64,
}

impl Draws {
    /// A number below a count.
    fn below(&mut self, count: u32) -> u32
        requires { 0 < count }
        ensures { result < count }
    {
        self.state = self
            .state
            .wrapping_mul(6_364_136_223_846_793_005)
            .wrapping_add(1_442_695_040_888_963_407);
        ((self.state >> 33) as u32) % count
    }

    /// The bounds of a variable, from -2 on.
    fn range(&mut self, count: u32) -> (i64, i64)
        requires { 0 < count }
    {
        let low = self.below(count) as i64 - 2;
        (low, low + self.below(count) as i64)
    }
}

#[test]
fn the_shape_of_a_product_says_what_narrows_drawn_boxes(rt: HostRuntime) -> Result<(), Fail> {
    compare_drawn(&rt, rt.alloc(), product())?;
    Ok(())
}

/// Compares what is seen with the tells that narrow boxes that are drawn.
fn compare_drawn(rt: &impl Abort, alloc: Global, kernel: Kernel) -> Result<(), NoMemory>
    requires { IsKernel 4 kernel }
{
    compare_each(rt, alloc, &kernel)
}

/// The same of a kernel that is lent.
fn compare_each(rt: &impl Abort, alloc: Global, kernel: &Kernel) -> Result<(), NoMemory>
    requires { IsKernel 4 kernel.now }
{
    let mut draws = Draws { state: 1 };
    for _ in 0..DRAWN {
        let pairs = [draws.range(12), draws.range(12), draws.range(90), (0, 0)];
        let b = box_of(rt, alloc, &pairs)?;
        let heard = tells_on(kernel, &b);
        assert!(rt; agrees(seen_on(kernel, &b), heard.as_slice(rt), &pairs));
    }
    Ok(())
}

/// Whether what is seen are those of these tells that narrow the bounds, if it is anything.
fn agrees(seen: Seen, tells: &[Told], pairs: &Pairs) -> bool {
    match seen {
        Seen::Quiet(_) => are_those_that_narrow(tells, pairs, &[]),
        Seen::One(t) => are_those_that_narrow(tells, pairs, &[row(t)]),
        Seen::Two(t, u) => are_those_that_narrow(tells, pairs, &[row(t), row(u)]),
        Seen::Unseen => !is_natural(pairs) || are_many(tells, pairs),
    }
}

/// Whether the factors are natural and the product isn't below 0.
fn is_natural(pairs: &Pairs) -> bool {
    pairs[0].0 > 0 && pairs[1].0 > 0 && pairs[2].0 >= 0
}

/// Whether more than two of the tells narrow the bounds.
fn are_many(tells: &[Told], pairs: &Pairs) -> bool {
    tells.iter().filter(|t| narrows(pairs, **t)).count() > 2
}
