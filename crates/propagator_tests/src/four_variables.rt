//! A box of four variables, and what a kernel tells on it.

ghost use Rattle.std.specs.Prelude.{◌≡◌, ◌≤◌, IfOk, length, unsigned_abs};
ghost use Rattle.interval.specs.Limits.{IsBound, IsNumber, bound_limit, largest_number};
ghost use Rattle.interval.specs.Boxes.{IsProper};
ghost use Rattle.guarded_tell.specs.Kernels.{IsKernel};
ghost use Rattle.kernel_visits.specs.Shapes.{IsShapeOf};

use guarded_tell::{Hear, Kernel, Side, Tell, visit_tells};
use interval::{BoxOf, is_crossed};
use kernel_visits::{Hint, Shape, shape_of, visit_narrowing};
use memory::NoMemory;
use seen_tells::{Seen, failing_tell, seen_visit, sole_tell};
use std::alloc::Global;
use std::process::Abort;

/// The greatest number of a model.
pub const LARGEST: i64 = 140_737_488_355_327;

/// One past the numbers of a model.
pub const PAST: i64 = 140_737_488_355_328;

/// The bounds of four variables.
pub type Pairs = [(i64, i64); 4];

/// A tell: the variable, which of its bounds, and the bound.
pub type Told = (u32, Side, i64);

/// So many tells are kept.
const MOST: usize = 24;

/// The tells that were heard, in order.
#[derive(Clone, Copy)]
pub struct Heard {
    tells: [Told; MOST],
    count: usize,
}

impl Heard {
    /// Nothing was heard.
    fn new() -> Heard {
        Heard {
            tells: [(0, Side::Low, 0); MOST],
            count: 0,
        }
    }

    /// What was heard, if it is no more than could be kept.
    pub fn as_slice(&self, rt: &impl Abort) -> &[Told] {
        assert!(rt; self.count <= MOST);
        &self.tells[..self.count]
    }
}

impl Hear for Heard {
    ghost can_hear = { λ _ _. Unit {0} };

    ghost hears = { λ _ _ _. Unit {0} };

    fn hear(&mut self, t: Tell) {
        if self.count < MOST {
            self.tells[self.count] = (t.var, t.side, t.bound);
        }
        self.count = self.count.saturating_add(1);
    }
}

/// A number of an example.
#[tactic(auto, unfolding(interval::specs::Limits::largest_number))]
pub fn number(rt: &impl Abort, z: i64) -> i64
    ensures value { result ≡ z }
    ensures in_range { IsNumber result }
{
    assert!(rt; -LARGEST <= z && z <= LARGEST);
    z
}

/// A bound of an example.
#[tactic(auto, unfolding(interval::specs::Limits::largest_number, interval::specs::Limits::bound_limit))]
fn bound(rt: &impl Abort, z: i64) -> i64
    ensures value { result ≡ z }
    ensures in_range { IsBound result }
{
    assert!(rt; -PAST <= z && z <= PAST);
    z
}

/// The bounds of a variable of an example.
pub fn bounds(rt: &impl Abort, pair: (i64, i64)) -> (i64, i64)
    ensures value { result ≡ pair }
    ensures low { IsBound result.0 }
    ensures high { IsBound result.1 }
{
    (bound(rt, pair.0), bound(rt, pair.1))
}

/// The box of four variables with these bounds, none of which cross.
pub fn box_of(rt: &impl Abort, alloc: Global, pairs: &Pairs) -> Result<BoxOf, NoMemory>
    ensures four { IfOk result (λ b. length b ≡ 4) }
    ensures proper { IfOk result IsProper }
{
    let first = bounds(rt, pairs[0]);
    let second = bounds(rt, pairs[1]);
    let third = bounds(rt, pairs[2]);
    let fourth = bounds(rt, pairs[3]);
    let b = BoxOf::from_pairs(alloc, &[first, second, third, fourth])?;
    let crossed = is_crossed(&b);
    assert!(rt; !crossed);
    Ok(b)
}

/// The tells of the kernel on the box, in order.
pub fn tells_on(kernel: &Kernel, b: &BoxOf) -> Heard
    requires kernel { IsKernel 4 kernel.now }
    requires four { length b.now ≡ 4 }
    requires proper { IsProper b.now }
{
    let mut heard = Heard::new();
    visit_tells(kernel, b, &mut heard);
    heard
}

/// The tells of the kernel of this shape that narrow the box, in order.
fn narrowing_on(kernel: &Kernel, shape: &Shape, b: &BoxOf, hint: &mut Hint) -> Heard
    requires kernel { IsKernel 4 kernel.now }
    requires shape { IsShapeOf kernel.now shape.now }
    requires four { length b.now ≡ 4 }
    requires proper { IsProper b.now }
{
    let mut heard = Heard::new();
    visit_narrowing(kernel, shape, b, hint, &mut heard);
    heard
}

/// Asserts that the tells that narrow these bounds are given alone, whatever is remembered of the visit before.
fn expect_narrowing(
    rt: &impl Abort,
    kernel: &Kernel,
    shape: Shape,
    b: &BoxOf,
    pairs: &Pairs,
    tells: &[Told],
)
    requires kernel { IsKernel 4 kernel.now }
    requires shape { IsShapeOf kernel.now shape }
    requires four { length b.now ≡ 4 }
    requires proper { IsProper b.now }
{
    let mut hint = Hint::new();
    for _ in 0..2 {
        let narrowing = narrowing_on(kernel, &shape, b, &mut hint);
        assert!(rt; are_those_that_narrow(tells, pairs, narrowing.as_slice(rt)));
    }
}

/// Asserts that what the kernel's shape alone says of a visit is so.
fn expect_seen(
    rt: &impl Abort,
    kernel: &Kernel,
    shape: &Shape,
    b: &BoxOf,
    pairs: &Pairs,
    tells: &[Told],
)
    requires kernel { IsKernel 4 kernel.now }
    requires shape { IsShapeOf kernel.now shape.now }
    requires four { length b.now ≡ 4 }
    requires proper { IsProper b.now }
{
    if let Some(sole) = sole_tell(kernel, shape, b) {
        assert!(rt; are_those_that_narrow(tells, pairs, &[row(sole.tell)]));
    }
    if let Some(t) = failing_tell(kernel, shape, b) {
        assert!(rt; is_first_and_fails(tells, pairs, row(t)));
    }
    assert!(rt; is_seen_so(seen_visit(kernel, shape, b), pairs, tells));
}

/// Whether what is seen are those of these tells that narrow the bounds, if it is anything.
fn is_seen_so(seen: Seen, pairs: &Pairs, tells: &[Told]) -> bool {
    match seen {
        Seen::Quiet(_) => are_those_that_narrow(tells, pairs, &[]),
        Seen::One(t) => are_those_that_narrow(tells, pairs, &[row(t)]),
        Seen::Two(t, u) => are_those_that_narrow(tells, pairs, &[row(t), row(u)]),
        Seen::Unseen => true,
    }
}

/// A tell as a row.
pub fn row(t: Tell) -> Told {
    (t.var, t.side, t.bound)
}

/// The tells of the kernel on the box of these bounds, in order. Those that narrow it are given alone too, by its shape and
/// without it, and what its shape alone says of them is so.
#[tactic(auto, unfolding(kernel_visits::specs::Shapes::IsShapeOf))]
fn told(rt: &impl Abort, alloc: Global, kernel: &Kernel, pairs: &Pairs) -> Result<Heard, NoMemory>
    requires { IsKernel 4 kernel.now }
{
    let b = box_of(rt, alloc, pairs)?;
    let heard = tells_on(kernel, &b);
    expect_seen(rt, kernel, &shape_of(kernel), &b, pairs, heard.as_slice(rt));
    expect_narrowing(rt, kernel, shape_of(kernel), &b, pairs, heard.as_slice(rt));
    expect_narrowing(rt, kernel, Shape::Other, &b, pairs, heard.as_slice(rt));
    Ok(heard)
}

/// The shape of the kernel.
pub fn shape(kernel: Kernel) -> Shape
    requires { IsKernel 4 kernel }
{
    shape_of(&kernel)
}

/// The tells of the kernel that narrow the box of these bounds, in order.
pub fn narrowing_told(
    rt: &impl Abort,
    alloc: Global,
    kernel: Kernel,
    pairs: &Pairs,
    hint: &mut Hint,
) -> Result<Heard, NoMemory>
    requires { IsKernel 4 kernel }
{
    narrowing_by(rt, alloc, &kernel, pairs, hint)
}

/// The same of a kernel that is lent.
fn narrowing_by(
    rt: &impl Abort,
    alloc: Global,
    kernel: &Kernel,
    pairs: &Pairs,
    hint: &mut Hint,
) -> Result<Heard, NoMemory>
    requires { IsKernel 4 kernel.now }
{
    let b = box_of(rt, alloc, pairs)?;
    Ok(narrowing_on(kernel, &shape_of(kernel), &b, hint))
}

/// Whether `narrowing` are the tells that narrow these bounds, in their order.
pub fn are_those_that_narrow(tells: &[Told], pairs: &Pairs, narrowing: &[Told]) -> bool {
    tells
        .iter()
        .filter(|t| narrows(pairs, **t))
        .eq(narrowing.iter())
}

/// Whether the tell is the first that narrows these bounds, and leaves its variable no number.
fn is_first_and_fails(tells: &[Told], pairs: &Pairs, first: Told) -> bool {
    let mut narrowing = tells.iter().filter(|t| narrows(pairs, **t));
    match narrowing.next() {
        Some(t) => *t == first && leaves_none(pairs, first),
        None => false,
    }
}

/// Whether the tell is past the other bound of its variable.
fn leaves_none(pairs: &Pairs, (var, side, bound): Told) -> bool {
    let v = var as usize;
    v < pairs.len()
        && match side {
            Side::Low => pairs[v].1 < bound,
            Side::High => bound < pairs[v].0,
        }
}

/// Whether the tell is tighter than these bounds.
pub fn narrows(pairs: &Pairs, (var, side, bound): Told) -> bool {
    let v = var as usize;
    v < pairs.len()
        && match side {
            Side::Low => pairs[v].0 < bound,
            Side::High => bound < pairs[v].1,
        }
}

/// Visits the kernel on each box, where what narrows is compared with the tells.
pub fn tell_on_each(
    rt: &impl Abort,
    alloc: Global,
    kernel: Kernel,
    boxes: &[Pairs],
) -> Result<(), NoMemory>
    requires { IsKernel 4 kernel }
{
    visit_each(rt, alloc, &kernel, boxes)
}

/// Visits the same with a kernel that is lent.
fn visit_each(
    rt: &impl Abort,
    alloc: Global,
    kernel: &Kernel,
    boxes: &[Pairs],
) -> Result<(), NoMemory>
    requires { IsKernel 4 kernel.now }
{
    for pairs in boxes {
        let _heard = told(rt, alloc, kernel, pairs)?;
    }
    Ok(())
}

/// Asserts that on each box the kernel gives just these tells, in this order. It takes the kernel, so that no test has to
/// drop one.
pub fn expect_tells(
    rt: &impl Abort,
    alloc: Global,
    kernel: Kernel,
    cases: &[(Pairs, &[Told])],
) -> Result<(), NoMemory>
    requires { IsKernel 4 kernel }
{
    compare_tells(rt, alloc, &kernel, cases)
}

/// Asserts the same of a kernel that is lent.
fn compare_tells(
    rt: &impl Abort,
    alloc: Global,
    kernel: &Kernel,
    cases: &[(Pairs, &[Told])],
) -> Result<(), NoMemory>
    requires { IsKernel 4 kernel.now }
{
    for (pairs, tells) in cases {
        let heard = told(rt, alloc, kernel, pairs)?;
        assert_eq!(rt; heard.as_slice(rt), *tells);
    }
    Ok(())
}

/// Asserts of each box that these are its bounds once the kernel has told.
pub fn expect_bounds(
    rt: &impl Abort,
    alloc: Global,
    kernel: Kernel,
    cases: &[(&Pairs, &Pairs)],
) -> Result<(), NoMemory>
    requires { IsKernel 4 kernel }
{
    compare_bounds(rt, alloc, &kernel, cases)
}

/// Asserts the same of a kernel that is lent.
fn compare_bounds(
    rt: &impl Abort,
    alloc: Global,
    kernel: &Kernel,
    cases: &[(&Pairs, &Pairs)],
) -> Result<(), NoMemory>
    requires { IsKernel 4 kernel.now }
{
    for (pairs, after) in cases {
        assert_eq!(rt; bounds_after(rt, alloc, kernel, pairs)?, **after);
    }
    Ok(())
}

/// Whether no tell of the kernel narrows the box of these bounds.
pub fn narrows_nothing(
    rt: &impl Abort,
    alloc: Global,
    kernel: Kernel,
    pairs: &Pairs,
) -> Result<bool, NoMemory>
    requires { IsKernel 4 kernel }
{
    keeps_bounds(rt, alloc, &kernel, pairs)
}

/// The same of a kernel that is lent.
fn keeps_bounds(
    rt: &impl Abort,
    alloc: Global,
    kernel: &Kernel,
    pairs: &Pairs,
) -> Result<bool, NoMemory>
    requires { IsKernel 4 kernel.now }
{
    Ok(bounds_after(rt, alloc, kernel, pairs)? == *pairs)
}

/// The bounds once the kernel has told.
fn bounds_after(
    rt: &impl Abort,
    alloc: Global,
    kernel: &Kernel,
    pairs: &Pairs,
) -> Result<Pairs, NoMemory>
    requires { IsKernel 4 kernel.now }
{
    let heard = told(rt, alloc, kernel, pairs)?;
    Ok(joined(*pairs, heard.as_slice(rt)))
}

/// The bounds once all tells are joined to them.
fn joined(pairs: Pairs, tells: &[Told]) -> Pairs {
    let mut joined = pairs;
    for t in tells {
        join_tell(&mut joined, *t);
    }
    joined
}

/// Joins the tell to the bounds.
fn join_tell(pairs: &mut Pairs, (var, side, bound): Told) {
    let v = var as usize;
    if v < pairs.len() {
        let (low, high) = pairs[v];
        pairs[v] = match side {
            Side::Low => (low.max(bound), high),
            Side::High => (low, high.min(bound)),
        };
    }
}
