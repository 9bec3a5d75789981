//! What kernels drop from the domains of four variables.

ghost use Rattle.std.specs.Prelude.{◌≡◌, ◌<◌, ◌++◌, [], ◌∷◌, IfOk, length, replicate};
ghost use Rattle.std.specs.Bool.{OnTrue};
ghost use Rattle.interval.specs.Limits.{IsBound, IsNumber};
ghost use Rattle.guarded_tell.specs.Words.{AreVariables};
ghost use Rattle.sum_tells.specs.Linear.{IsLinear};
ghost use Rattle.interval.specs.Boxes.{IsProper};
ghost use Rattle.guarded_tell.specs.Kernels.{IsKernel};
ghost use Rattle.bit_domain.specs.Mixes.{hull};

use bit_domain::{Dom, MixOf};
use domain_drops::{HearDrop, visit_drops};
use guarded_tell::{Extended, Kernel, Lit};
use interval::BoxOf;
use memory::NoMemory;
use shared_list::SharedList;
use std::alloc::{AllocError, Global};
use std::process::Abort;
use std::test::Fail;

/// One past the numbers of a model.
const PAST: i64 = 140_737_488_355_328;

/// The bounds of four variables.
type Pairs = [(i64, i64); 4];

/// A variable, and a number that was dropped from it.
type Dropped = (u32, i64);

/// A coefficient and a variable.
type Term = (i64, u32);

/// So many drops are kept.
const MOST: usize = 24;

/// The drops that were heard, in order.
#[derive(Clone, Copy)]
struct Heard {
    drops: [Dropped; MOST],
    count: usize,
}

impl Heard {
    /// Nothing was heard.
    fn new() -> Heard {
        Heard {
            drops: [(0, 0); MOST],
            count: 0,
        }
    }

    /// What was heard, if it is no more than could be kept.
    fn as_slice(&self, rt: &impl Abort) -> &[Dropped] {
        assert!(rt; self.count <= MOST);
        &self.drops[..self.count]
    }
}

impl HearDrop for Heard {
    ghost can_hear = { λ _ _. Unit {0} };

    ghost hears = { λ _ _ _. Unit {0} };

    fn drop_value(&mut self, var: u32, value: i64) {
        if self.count < MOST {
            self.drops[self.count] = (var, value);
        }
        self.count = self.count.saturating_add(1);
    }
}

/// A bound of an example.
#[tactic(auto, unfolding(interval::specs::Limits::largest_number, interval::specs::Limits::bound_limit))]
fn bound(rt: &impl Abort, z: i64) -> i64
    ensures value { result ≡ z }
    ensures in_range { IsBound result }
{
    assert!(rt; -PAST <= z && z <= PAST);
    z
}

/// The bounds of a variable of an example.
fn bounds(rt: &impl Abort, pair: (i64, i64)) -> (i64, i64)
    ensures low { IsBound result.0 }
    ensures high { IsBound result.1 }
{
    (bound(rt, pair.0), bound(rt, pair.1))
}

/// The mix of four variables with these bounds.
fn mix(rt: &impl Abort, alloc: Global, pairs: &Pairs) -> Result<MixOf, NoMemory>
    ensures { IfOk result (λ m. length m ≡ 4) }
{
    let first = bounds(rt, pairs[0]);
    let second = bounds(rt, pairs[1]);
    let third = bounds(rt, pairs[2]);
    let fourth = bounds(rt, pairs[3]);
    let b = BoxOf::from_pairs(alloc, &[first, second, third, fourth])?;
    MixOf::from_box(alloc, &b)
}

/// The same mix, where variable 1 has the numbers of this set over a base.
fn with_set(
    rt: &impl Abort,
    alloc: Global,
    pairs: &Pairs,
    base: i32,
    set: u64,
) -> Result<MixOf, NoMemory>
    ensures { IfOk result (λ m. length m ≡ 4) }
{
    let mut m = mix(rt, alloc, pairs)?;
    m.put(
        1,
        Dom::Bits {
            base: base as i64,
            set,
        },
    );
    Ok(m)
}

/// Whether each variable has a number.
fn is_proper(m: &MixOf) -> bool
    ensures { OnTrue result (IsProper (hull m.now)) }
{
    for v in 0..m.len() {
        if m.low(v) > m.high(v) {
            return false;
        }
    }
    true
}

/// The drops of the kernel on a proper mix, in order.
fn drops_on(kernel: &Kernel, m: &MixOf) -> Heard
    requires kernel { IsKernel 4 kernel.now }
    requires four { length m.now ≡ 4 }
    requires proper { IsProper (hull m.now) }
{
    let mut heard = Heard::new();
    visit_drops(kernel, m, &mut heard);
    heard
}

/// Asserts that on this mix the kernel gives just these drops, in this order.
fn compare(rt: &impl Abort, kernel: &Kernel, m: &MixOf, drops: &[Dropped])
    requires kernel { IsKernel 4 kernel.now }
    requires four { length m.now ≡ 4 }
{
    let proper = is_proper(m);
    assert!(rt; proper);
    assert_eq!(rt; drops_on(kernel, m).as_slice(rt), drops);
}

/// Asserts the same of a mix of each of these bounds.
fn compare_each(
    rt: &impl Abort,
    alloc: Global,
    kernel: &Kernel,
    cases: &[(Pairs, &[Dropped])],
) -> Result<(), NoMemory>
    requires { IsKernel 4 kernel.now }
{
    for (pairs, drops) in cases {
        let m = mix(rt, alloc, pairs)?;
        compare(rt, kernel, &m, drops);
    }
    Ok(())
}

/// Asserts the same. It takes the kernel, so that no test has to drop one.
fn expect(
    rt: &impl Abort,
    alloc: Global,
    kernel: Kernel,
    cases: &[(Pairs, &[Dropped])],
) -> Result<(), NoMemory>
    requires { IsKernel 4 kernel }
{
    compare_each(rt, alloc, &kernel, cases)
}

/// Asserts the same where variable 1 has the numbers of a set over a base.
fn expect_of_set(
    rt: &impl Abort,
    alloc: Global,
    kernel: Kernel,
    m: MixOf,
    drops: &[Dropped],
) -> Result<(), NoMemory>
    requires kernel { IsKernel 4 kernel }
    requires four { length m ≡ 4 }
{
    compare(rt, &kernel, &m, drops);
    Ok(())
}

/// Variable 0 is at least 1 exactly where the sum of two products is the limit.
fn equation(
    rt: &impl Abort,
    alloc: Global,
    first: Term,
    second: Term,
    limit: i64,
) -> Result<Kernel, AllocError>
    ensures { IfOk result (IsKernel 4) }
{
    let a = number(rt, first.0);
    let b = number(rt, second.0);
    let limit = number(rt, limit);
    let x = variable(rt, first.1);
    let y = variable(rt, second.1);
    sum_of(alloc, (a, x), (b, y), limit)
}

/// The same, whose numbers have been looked at.
fn sum_of(alloc: Global, first: Term, second: Term, limit: i64) -> Result<Kernel, AllocError>
    requires first { IsNumber first.0 }
    requires second { IsNumber second.0 }
    requires limit { IsNumber limit }
    requires x { first.1 < 4 }
    requires y { second.1 < 4 }
    ensures { IfOk result (IsKernel 4) }
{
    let coeffs = SharedList::from_vec(vec![in alloc; first.0, second.0]?)?;
    let vars = SharedList::from_vec(vec![in alloc; first.1, second.1]?)?;
    Ok(equal(
        Extended::from_list(coeffs),
        Extended::from_list(vars),
        limit,
    ))
}

/// The kernel of an equation.
#[tactic(auto, unfolding(guarded_tell::specs::Kernels::vars_of, guarded_tell::specs::Kernels::HasNumbers))]
fn equal(coeffs: Extended<i64>, vars: Extended<u32>, limit: i64) -> Kernel
    requires linear { IsLinear coeffs vars limit }
    requires variables { AreVariables 4 (0 ∷ vars) }
    ensures { IsKernel 4 result }
{
    let lit = Lit {
        var: 0,
        positive: true,
    };
    Kernel::Eq {
        lit,
        coeffs,
        vars,
        limit,
    }
}

/// A number of an example.
#[tactic(auto, unfolding(interval::specs::Limits::largest_number))]
fn number(rt: &impl Abort, z: i64) -> i64
    ensures value { result ≡ z }
    ensures in_range { IsNumber result }
{
    assert!(rt; -PAST < z && z < PAST);
    z
}

/// A variable of an example.
fn variable(rt: &impl Abort, v: u32) -> u32
    ensures value { result ≡ v }
    ensures in_range { result < 4 }
{
    assert!(rt; v < 4);
    v
}

/// Variable 0 is at least 1 exactly where variable 1 is in a set.
fn membership(alloc: Global) -> Result<Kernel, AllocError>
    ensures { IfOk result (IsKernel 4) }
{
    let lit = Lit {
        var: 0,
        positive: true,
    };
    let ranges = SharedList::from_vec(vec![in alloc;
        (-9i64, -5i64),
        (-2i64, -1i64),
        (3i64, 7i64),
    ]?)?;
    Ok(Kernel::InSet { lit, x: 1, ranges })
}

/// Variable 0 equals the variable at the place 1 of a list.
fn element(alloc: Global) -> Result<Kernel, AllocError>
    ensures { IfOk result (IsKernel 4) }
{
    let entries = SharedList::from_vec(vec![in alloc; 2u32, 3, 2]?)?;
    Ok(Kernel::Element {
        x: 1,
        entries,
        c: 0,
    })
}

/// Variable 2, 69 times, and behind it variable 3.
fn long_list(alloc: Global) -> Result<Vec<u32>, AllocError>
    ensures { IfOk result (λ list. list.items ≡ replicate 69 2 ++ 3 ∷ []) }
{
    let mut list = vec![in alloc; 2u32; 69]?;
    list.push(3)?;
    Ok(list)
}

/// The same of a list that is longer than a set.
fn long_element(alloc: Global) -> Result<Kernel, AllocError>
    ensures { IfOk result (IsKernel 4) }
{
    let entries = SharedList::from_vec(long_list(alloc)?)?;
    Ok(Kernel::Element {
        x: 1,
        entries,
        c: 0,
    })
}

/// Variable 2 is the absolute value of variable 1.
fn absolute() -> Kernel
    ensures { IsKernel 4 result }
{
    Kernel::Abs { x: 1, y: 2 }
}

/// Two terms, a limit, the bounds of four variables, and the drops.
type Case = (Term, Term, i64, Pairs, &'static [Dropped]);

/// Asserts the drops of each equation.
fn expect_equations(rt: &impl Abort, alloc: Global, cases: &[Case]) -> Result<(), NoMemory> {
    for (first, second, limit, pairs, drops) in cases {
        let kernel = equation(rt, alloc, *first, *second, *limit)?;
        expect(rt, alloc, kernel, &[(*pairs, *drops)])?;
    }
    Ok(())
}

/// Equations that drop the quotient: by 1, by 2, where 2 doesn't divide, by -3, and from both sides.
static QUOTIENTS: [Case; 5] = [
    (
        (1, 1),
        (0, 2),
        3,
        [(0, 0), (1, 5), (0, 9), (0, 0)],
        &[(1, 3)],
    ),
    (
        (2, 1),
        (1, 2),
        8,
        [(0, 0), (1, 9), (2, 2), (0, 0)],
        &[(1, 3)],
    ),
    ((2, 1), (1, 2), 8, [(0, 0), (1, 9), (3, 3), (0, 0)], &[]),
    (
        (1, 2),
        (-3, 1),
        -7,
        [(0, 0), (1, 9), (2, 2), (0, 0)],
        &[(1, 3)],
    ),
    (
        (1, 1),
        (-1, 2),
        0,
        [(0, 0), (4, 4), (4, 4), (0, 0)],
        &[(1, 4), (2, 4)],
    ),
];

/// Equations that drop nothing: another term is open, the literal is open or true, the quotient isn't there, and the
/// variable is kept as a pair.
static OPEN: [Case; 5] = [
    ((1, 1), (1, 2), 5, [(0, 0), (1, 9), (2, 3), (0, 0)], &[]),
    ((1, 1), (1, 2), 5, [(0, 1), (1, 9), (2, 2), (0, 0)], &[]),
    ((1, 1), (1, 2), 5, [(1, 1), (1, 9), (2, 2), (0, 0)], &[]),
    ((1, 1), (1, 2), 5, [(0, 0), (4, 9), (2, 2), (0, 0)], &[]),
    ((1, 1), (1, 2), 5, [(0, 0), (0, 64), (2, 2), (0, 0)], &[]),
];

/// Equations that name a variable twice.
static TWICE: [Case; 2] = [
    ((1, 1), (1, 1), 4, [(0, 0), (1, 3), (0, 0), (0, 0)], &[]),
    (
        (1, 1),
        (1, 1),
        4,
        [(0, 0), (2, 2), (0, 0), (0, 0)],
        &[(1, 2), (1, 2)],
    ),
];

/// Drops of the last number of a set and of the ends of the range.
static ENDS: [Case; 3] = [
    (
        (1, 1),
        (-1, 2),
        0,
        [(0, 0), (0, 63), (63, 63), (0, 0)],
        &[(1, 63)],
    ),
    (
        (1, 1),
        (-1, 2),
        0,
        [(0, 0), (PAST - 63, PAST), (PAST, PAST), (0, 0)],
        &[(1, PAST)],
    ),
    (
        (1, 1),
        (1, 2),
        0,
        [(0, 0), (-PAST, 63 - PAST), (PAST, PAST), (0, 0)],
        &[(1, -PAST)],
    ),
];

#[test]
fn an_equation_that_is_false_drops_the_quotient(rt: HostRuntime) -> Result<(), Fail> {
    expect_equations(&rt, rt.alloc(), &QUOTIENTS)?;
    Ok(())
}

#[test]
fn an_equation_drops_nothing_unless_all_else_is_decided(rt: HostRuntime) -> Result<(), Fail> {
    expect_equations(&rt, rt.alloc(), &OPEN)?;
    Ok(())
}

#[test]
fn an_equation_may_name_a_variable_twice(rt: HostRuntime) -> Result<(), Fail> {
    expect_equations(&rt, rt.alloc(), &TWICE)?;
    Ok(())
}

#[test]
fn numbers_at_the_ends_of_a_set_are_dropped(rt: HostRuntime) -> Result<(), Fail> {
    expect_equations(&rt, rt.alloc(), &ENDS)?;
    Ok(())
}

/// Asserts the drops where variable 1, which isn't the limit, is 1, 2, 4 or 5.
fn expect_round_a_hole(
    rt: &impl Abort,
    alloc: Global,
    limit: i64,
    drops: &[Dropped],
) -> Result<(), NoMemory> {
    let m = with_set(rt, alloc, &[(0, 0), (1, 5), (0, 0), (0, 0)], 1, 0b11011)?;
    expect_of_set(
        rt,
        alloc,
        equation(rt, alloc, (1, 1), (0, 2), limit)?,
        m,
        drops,
    )
}

#[test]
fn a_number_that_is_gone_is_not_dropped(rt: HostRuntime) -> Result<(), Fail> {
    expect_round_a_hole(&rt, rt.alloc(), 3, &[])?;
    expect_round_a_hole(&rt, rt.alloc(), 4, &[(1, 4)])?;
    Ok(())
}

/// The literal true, false and open.
static MEMBERS: [(Pairs, &[Dropped]); 3] = [
    (
        [(1, 1), (-10, 8), (0, 0), (0, 0)],
        &[(1, -10), (1, -4), (1, -3), (1, 0), (1, 1), (1, 2), (1, 8)],
    ),
    (
        [(0, 0), (-7, 4), (0, 0), (0, 0)],
        &[(1, -7), (1, -6), (1, -5), (1, -2), (1, -1), (1, 3), (1, 4)],
    ),
    ([(0, 1), (-10, 8), (0, 0), (0, 0)], &[]),
];

#[test]
fn a_membership_drops_one_side_of_the_set(rt: HostRuntime) -> Result<(), Fail> {
    expect(&rt, rt.alloc(), membership(rt.alloc())?, &MEMBERS)?;
    Ok(())
}

/// Places of variable 2 apart, those of variable 3, and none.
static PLACES: [(Pairs, &[Dropped]); 3] = [
    ([(5, 8), (0, 5), (1, 4), (6, 9)], &[(1, 1), (1, 3)]),
    ([(5, 8), (0, 5), (1, 5), (9, 9)], &[(1, 2)]),
    ([(5, 8), (2, 3), (1, 5), (8, 9)], &[]),
];

#[test]
fn an_element_drops_the_places_that_are_apart(rt: HostRuntime) -> Result<(), Fail> {
    expect(&rt, rt.alloc(), element(rt.alloc())?, &PLACES)?;
    Ok(())
}

/// The last places of a long list, and numbers past it.
static LAST_PLACES: [(Pairs, &[Dropped]); 2] = [
    (
        [(5, 8), (67, 120), (1, 4), (6, 9)],
        &[(1, 67), (1, 68), (1, 69)],
    ),
    ([(5, 8), (67, 120), (1, 5), (9, 9)], &[(1, 70)]),
];

#[test]
fn an_element_may_be_longer_than_a_set(rt: HostRuntime) -> Result<(), Fail> {
    expect(&rt, rt.alloc(), long_element(rt.alloc())?, &LAST_PLACES)?;
    Ok(())
}

/// A box that an absolute value narrows.
static APART: [(Pairs, &[Dropped]); 1] = [([(0, 0), (-2, 2), (1, 2), (0, 0)], &[])];

#[test]
fn other_kernels_drop_nothing(rt: HostRuntime) -> Result<(), Fail> {
    expect(&rt, rt.alloc(), absolute(), &APART)?;
    Ok(())
}
