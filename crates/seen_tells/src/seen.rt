//! What a kernel's shape alone says of a visit: that it narrows nothing, or its one tell or two.

ghost use Rattle.std.specs.Prelude.{◌≡◌, ◌<◌, ◌≤ℤ◌, ◌+ℤ◌, ◌-ℤ◌, true, false, length, MatchOption};
ghost use Rattle.interval.specs.Limits.{IsBound};
ghost use Rattle.interval.specs.Boxes.{low_of, high_of};
ghost use Rattle.sum_tells.specs.Equality as equality;
ghost use Rattle.guarded_tell.specs.Words.{IsProperIn};
ghost use Rattle.guarded_tell.specs.Words as words;
ghost use Rattle.guarded_tell.specs.Kernels.{vars_of, IsKernel};
ghost use Rattle.kernel_visits.specs.Shapes.{IsShapeOf};
ghost use Rattle.seen_tells.specs.Seen.{IsSeen, IsSole, LeavesOut};

use crate::greatest::seen_greatest;
use crate::held::{held_at_most, held_same, held_sole};
use crate::product::seen_product;
use crate::three::seen_three;
use guarded_tell::{Kernel, Lit, Side, Tell};
use interval::{BoxOf, law_clamp_order, law_quotient_order};
use kernel_visits::{Rest, Shape, difference};
use short_tells::is_same;
use small_sums::sum;
use tells::{stands_false, stands_true, tell_false, tell_true};

/// The one tell of a kernel that narrows the box.
#[derive(Clone, Copy, PartialEq, Eq, Debug)]
pub struct Sole {
    /// The tell.
    pub tell: Tell,
    /// Whether it is seen that the kernel rests for good once the tell is joined.
    pub is_last: bool,
}

/// What is seen of a visit by the kernel's shape alone.
#[derive(Clone, Copy, PartialEq, Eq, Debug)]
pub enum Seen {
    /// The kernel narrows nothing, and rests so long.
    Quiet(Rest),
    /// It has this one tell that narrows the box, and no other.
    One(Tell),
    /// It has these two tells that narrow the box, in this order, and no other.
    Two(Tell, Tell),
    /// Its shape doesn't say.
    Unseen,
}

impl Sole {
    /// This tell, after which the kernel may need visits.
    #[inline(always)]
    pub(crate) fn one(tell: Tell) -> Sole
        ensures tell { result.tell ≡ tell }
        ensures last { result.is_last ≡ false }
    {
        let is_last = false;
        Sole { tell, is_last }
    }

    /// This tell, after which the kernel rests for good.
    #[inline(always)]
    pub(crate) fn last(tell: Tell) -> Sole
        ensures tell { result.tell ≡ tell }
        ensures last { result.is_last ≡ true }
    {
        let is_last = true;
        Sole { tell, is_last }
    }
}

/// The kernel's one tell that narrows the box, where the shape of a difference or of a short clause says what it is.
#[inline(always)]
pub fn sole_tell(k: &Kernel, shape: &Shape, b: &BoxOf) -> Option<Sole>
    requires kernel { IsKernel (length b.now) k.now }
    requires shape { IsShapeOf k.now shape.now }
    requires proper { IsProperIn (vars_of k.now) b.now }
    ensures { MatchOption result (Unit {0}) (IsSole k.now b.now) }
{
    match shape {
        Shape::AtMost { lit, x, y, limit } => seen_at_most(k, *lit, *x, *y, *limit, b),
        Shape::Same { lit, x, y, limit } => seen_same(k, *lit, *x, *y, *limit, b),
        Shape::Either { first, second } => seen_either(k, *first, *second, b),
        Shape::Triple {
            first,
            second,
            third,
        } => seen_triple(k, *first, *second, *third, b),
        Shape::Three { .. }
        | Shape::Product { .. }
        | Shape::Greatest { .. }
        | Shape::Slight
        | Shape::Other => None,
    }
}

/// What the kernel's shape says of a visit where it may have two tells: a difference whose literal is sure, an equation of three
/// terms, a product, or the greater of two. Of any other kernel it says nothing, not even that it narrows nothing.
#[inline(always)]
pub fn seen_visit(k: &Kernel, shape: &Shape, b: &BoxOf) -> Seen
    requires kernel { IsKernel (length b.now) k.now }
    requires shape { IsShapeOf k.now shape.now }
    requires proper { IsProperIn (vars_of k.now) b.now }
    ensures { IsSeen k.now b.now result }
{
    match shape {
        Shape::Three { terms, limit } => seen_three(k, *terms, *limit, b),
        Shape::Product { x, y, z } => seen_product(k, *x, *y, *z, b),
        Shape::Greatest { m, x, y } => seen_greatest(k, *m, *x, *y, b),
        Shape::AtMost { lit, x, y, limit } => {
            if stands_true(*lit, b) {
                held_at_most(k, *lit, *x, *y, *limit, b)
            } else {
                Seen::Unseen
            }
        }
        Shape::Same { lit, x, y, limit } => {
            if stands_true(*lit, b) {
                held_same(k, *lit, *x, *y, *limit, b)
            } else {
                Seen::Unseen
            }
        }
        _ => Seen::Unseen,
    }
}

/// The one tell of an inequality that narrows the box, where that is seen.
#[inline(always)]
fn seen_at_most(k: &Kernel, lit: Lit, x: u32, y: u32, limit: i64, b: &BoxOf) -> Option<Sole>
    requires kernel { IsKernel (length b.now) k.now }
    requires shape { IsShapeOf k.now (Shape.AtMost lit x y limit) }
    requires proper { IsProperIn (vars_of k.now) b.now }
    ensures { MatchOption result (Unit {0}) (IsSole k.now b.now) }
{
    if stands_true(lit, b) {
        at_most_sure(k, lit, x, y, limit, b)
    } else if stands_false(lit, b) {
        None
    } else {
        at_most_open(k, lit, x, y, limit, b)
    }
}

/// The same of an inequality that has to hold.
#[inline(always)]
fn at_most_sure(k: &Kernel, lit: Lit, x: u32, y: u32, limit: i64, b: &BoxOf) -> Option<Sole>
    requires kernel { IsKernel (length b.now) k.now }
    requires shape { IsShapeOf k.now (Shape.AtMost lit x y limit) }
    requires proper { IsProperIn (vars_of k.now) b.now }
    requires sure { words.is_sure lit b.now ≡ true }
    ensures { MatchOption result (Unit {0}) (IsSole k.now b.now) }
{
    law_quotient_order();
    law_clamp_order();
    let pair = difference(x, y, b);
    if limit < sum(pair.first.greatest, pair.second.least) {
        if limit < sum(pair.first.least, pair.second.greatest) {
            return None;
        }
        let bound = added(limit, b.high(y));
        Some(Sole::one(Tell {
            var: x,
            side: Side::High,
            bound,
        }))
    } else if limit < sum(pair.first.least, pair.second.greatest) {
        let bound = less(b.low(x), limit);
        Some(Sole::one(Tell {
            var: y,
            side: Side::Low,
            bound,
        }))
    } else {
        None
    }
}

/// The same of an inequality whose literal is neither sure nor out: that literal alone may be told.
#[inline(always)]
fn at_most_open(k: &Kernel, lit: Lit, x: u32, y: u32, limit: i64, b: &BoxOf) -> Option<Sole>
    requires kernel { IsKernel (length b.now) k.now }
    requires shape { IsShapeOf k.now (Shape.AtMost lit x y limit) }
    requires proper { IsProperIn (vars_of k.now) b.now }
    requires unsure { words.is_sure lit b.now ≡ false }
    requires possible { words.is_out lit b.now ≡ false }
    ensures { MatchOption result (Unit {0}) (IsSole k.now b.now) }
{
    law_quotient_order();
    law_clamp_order();
    let pair = difference(x, y, b);
    if sum(pair.first.greatest, pair.second.greatest) <= limit {
        Some(Sole::last(tell_true(lit)))
    } else if limit < sum(pair.first.least, pair.second.least) {
        Some(Sole::last(tell_false(lit)))
    } else {
        None
    }
}

/// The same of an equation. Most that are visited must not hold.
#[inline(always)]
fn seen_same(k: &Kernel, lit: Lit, x: u32, y: u32, limit: i64, b: &BoxOf) -> Option<Sole>
    requires kernel { IsKernel (length b.now) k.now }
    requires shape { IsShapeOf k.now (Shape.Same lit x y limit) }
    requires proper { IsProperIn (vars_of k.now) b.now }
    ensures { MatchOption result (Unit {0}) (IsSole k.now b.now) }
{
    if stands_false(lit, b) {
        same_out(k, lit, x, y, limit, b)
    } else if stands_true(lit, b) {
        held_sole(k, lit, x, y, limit, b)
    } else {
        same_open(k, lit, x, y, limit, b)
    }
}

/// The same of an equation that must not hold: where one variable is fixed, the other may be told.
#[inline(always)]
fn same_out(k: &Kernel, lit: Lit, x: u32, y: u32, limit: i64, b: &BoxOf) -> Option<Sole>
    requires kernel { IsKernel (length b.now) k.now }
    requires shape { IsShapeOf k.now (Shape.Same lit x y limit) }
    requires proper { IsProperIn (vars_of k.now) b.now }
    requires out { words.is_out lit b.now ≡ true }
    ensures { MatchOption result (Unit {0}) (IsSole k.now b.now) }
{
    law_quotient_order();
    law_clamp_order();
    if is_fixed(y, b) {
        if is_fixed(x, b) {
            None
        } else {
            apart_seen(x, added(limit, b.low(y)), b)
        }
    } else if is_fixed(x, b) {
        apart_seen(y, less(b.low(x), limit), b)
    } else {
        None
    }
}

/// The tell that leaves a value out of a variable, where the value is one of its bounds.
#[inline(always)]
fn apart_seen(var: u32, value: i64, b: &BoxOf) -> Option<Sole>
    requires { var < length b.now }
    ensures { MatchOption result (Unit {0}) (λ s. (s.is_last ≡ true) × LeavesOut b.now var value s.tell) }
{
    let low = b.low(var);
    let high = b.high(var);
    if low == value {
        Some(Sole::last(Tell {
            var,
            side: Side::Low,
            bound: added(low, 1),
        }))
    } else if high == value {
        Some(Sole::last(Tell {
            var,
            side: Side::High,
            bound: less(high, 1),
        }))
    } else {
        None
    }
}

/// The same of an equation whose literal is neither sure nor out: that literal alone may be told.
#[inline(always)]
fn same_open(k: &Kernel, lit: Lit, x: u32, y: u32, limit: i64, b: &BoxOf) -> Option<Sole>
    requires kernel { IsKernel (length b.now) k.now }
    requires shape { IsShapeOf k.now (Shape.Same lit x y limit) }
    requires proper { IsProperIn (vars_of k.now) b.now }
    requires unsure { words.is_sure lit b.now ≡ false }
    requires possible { words.is_out lit b.now ≡ false }
    ensures { MatchOption result (Unit {0}) (IsSole k.now b.now) }
{
    law_quotient_order();
    law_clamp_order();
    let pair = difference(x, y, b);
    let least = sum(pair.first.least, pair.second.least);
    let greatest = sum(pair.first.greatest, pair.second.greatest);
    if limit < least {
        Some(Sole::last(tell_false(lit)))
    } else if greatest < limit {
        Some(Sole::last(tell_false(lit)))
    } else if greatest <= least {
        Some(Sole::last(tell_true(lit)))
    } else {
        None
    }
}

/// The same of a clause of two literals: where one is out, the other may be told.
#[inline(always)]
fn seen_either(k: &Kernel, first: Lit, second: Lit, b: &BoxOf) -> Option<Sole>
    requires kernel { IsKernel (length b.now) k.now }
    requires shape { IsShapeOf k.now (Shape.Either first second) }
    requires proper { IsProperIn (vars_of k.now) b.now }
    ensures { MatchOption result (Unit {0}) (IsSole k.now b.now) }
{
    law_quotient_order();
    law_clamp_order();
    if stands_false(first, b) {
        sole_true(second, b)
    } else if stands_false(second, b) {
        sole_true(first, b)
    } else {
        None
    }
}

/// The same of a clause of three literals: where two are out, the third may be told.
#[inline(always)]
fn seen_triple(k: &Kernel, first: Lit, second: Lit, third: Lit, b: &BoxOf) -> Option<Sole>
    requires kernel { IsKernel (length b.now) k.now }
    requires shape { IsShapeOf k.now (Shape.Triple first second third) }
    requires proper { IsProperIn (vars_of k.now) b.now }
    ensures { MatchOption result (Unit {0}) (IsSole k.now b.now) }
{
    law_quotient_order();
    law_clamp_order();
    if stands_false(first, b) {
        if stands_false(second, b) {
            sole_true(third, b)
        } else if stands_false(third, b) {
            sole_true(second, b)
        } else {
            None
        }
    } else if stands_false(second, b) && stands_false(third, b) {
        sole_true(first, b)
    } else {
        None
    }
}

/// The tell that makes a literal true, where it is neither sure nor out.
#[inline(always)]
fn sole_true(lit: Lit, b: &BoxOf) -> Option<Sole>
    requires variable { lit.var < length b.now }
    requires proper { low_of b.now lit.var ≤ℤ high_of b.now lit.var }
    ensures { MatchOption result (Unit {0}) (λ s. (s.is_last ≡ true) × (words.is_sure lit b.now ≡ false) × (words.is_out lit b.now ≡ false) × (s.tell ≡ words.tell_true lit)) }
{
    if stands_true(lit, b) {
        None
    } else if stands_false(lit, b) {
        None
    } else {
        Some(Sole::last(tell_true(lit)))
    }
}

/// The sum of two bounds.
#[tactic(auto, unfolding(interval::specs::Limits::bound_limit, interval::specs::Limits::largest_number))]
fn added(a: i64, z: i64) -> i64
    requires first { IsBound a }
    requires second { IsBound z }
    ensures { result ≡ a +ℤ z }
{
    a + z
}

/// What one bound is above another.
#[tactic(auto, unfolding(interval::specs::Limits::bound_limit, interval::specs::Limits::largest_number))]
fn less(a: i64, z: i64) -> i64
    requires first { IsBound a }
    requires second { IsBound z }
    ensures { result ≡ a -ℤ z }
{
    a - z
}

/// Whether the variable has one number left.
fn is_fixed(v: u32, b: &BoxOf) -> bool
    requires { v < length b.now }
    ensures { result ≡ equality.is_same (low_of b.now v) (high_of b.now v) }
{
    is_same(b.low(v), b.high(v))
}
