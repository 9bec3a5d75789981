//! What the shape of a difference says of a visit where its literal is sure: both variables may be told.

ghost use Rattle.std.specs.Prelude.{◌≡◌, ◌≤ℤ◌, ◌<ℤ◌, ◌<◌, ◌+ℤ◌, ◌-ℤ◌, ◌∷◌, [], pos, negsuc, ℕ, List, true, false, length, MatchOption};
ghost use Rattle.interval.specs.Limits.{IsBound};
ghost use Rattle.interval.specs.Boxes.{low_of, high_of};
ghost use Rattle.guarded_tell.specs.Words.{IsProperIn, low_tell, high_tell};
ghost use Rattle.guarded_tell.specs.Words as words;
ghost use Rattle.tell_laws.specs.Narrowing.{narrowing};
ghost use Rattle.short_tells.specs.ShortTells.{room_tells};
ghost use Rattle.kernel_visits.specs.declared.shape.Shape.{Shape};
ghost use Rattle.seen_tells.specs.Few.{AreFew};
ghost use Rattle.seen_tells.specs.Held.{ordered_signs, ordered_vars, ordered_tells, IsSoleOfTwo};
ghost use Rattle.guarded_tell.specs.Kernels.{vars_of, IsKernel};
ghost use Rattle.kernel_visits.specs.Shapes.{IsDifference, IsShapeOf};
ghost use Rattle.seen_tells.specs.Seen.{IsSeen, IsSole};
ghost use Rattle.seen_tells.specs.Three.{room_of};

use crate::seen::{Seen, Sole};
use crate::three::{add_high, add_low, add_term, gap, left, lowered, raised};
use guarded_tell::{Kernel, Lit, Side, Tell};
use interval::{BoxOf, law_clamp_order, law_quotient_order};
use kernel_visits::{Rest, Sign, difference};
use small_sums::sum;
use sum_tells::Extended;

/// What the shape of an inequality whose literal is sure says of a visit: nothing where it can't hold.
#[inline(never)]
pub(crate) fn held_at_most(k: &Kernel, lit: Lit, x: u32, y: u32, limit: i64, b: &BoxOf) -> Seen
    requires kernel { IsKernel (length b.now) k.now }
    requires shape { IsShapeOf k.now (Shape.AtMost lit x y limit) }
    requires proper { IsProperIn (vars_of k.now) b.now }
    requires sure { words.is_sure lit b.now ≡ true }
    ensures { IsSeen k.now b.now result }
{
    match k {
        Kernel::Le { coeffs, .. } => {
            let x_first = begins_above(coeffs.as_slice());
            ordered_at_most(k, x_first, lit, x, y, limit, b)
        }
        _ => Seen::Unseen,
    }
}

/// What the shape of an equation whose literal is sure says of a visit: nothing where its least sum is above the limit or its
/// greatest below it, or where more than two tells narrow the box.
#[inline(never)]
pub(crate) fn held_same(k: &Kernel, lit: Lit, x: u32, y: u32, limit: i64, b: &BoxOf) -> Seen
    requires kernel { IsKernel (length b.now) k.now }
    requires shape { IsShapeOf k.now (Shape.Same lit x y limit) }
    requires proper { IsProperIn (vars_of k.now) b.now }
    requires sure { words.is_sure lit b.now ≡ true }
    ensures { IsSeen k.now b.now result }
{
    match k {
        Kernel::Eq { coeffs, .. } => {
            let x_first = ends_below(coeffs);
            ordered_same(k, x_first, lit, x, y, limit, b)
        }
        _ => Seen::Unseen,
    }
}

/// The one tell of such an equation that narrows the box, where there is just one: four comparisons, not a list of tells.
#[inline(always)]
pub(crate) fn held_sole(k: &Kernel, lit: Lit, x: u32, y: u32, limit: i64, b: &BoxOf) -> Option<Sole>
    requires kernel { IsKernel (length b.now) k.now }
    requires shape { IsShapeOf k.now (Shape.Same lit x y limit) }
    requires proper { IsProperIn (vars_of k.now) b.now }
    requires sure { words.is_sure lit b.now ≡ true }
    ensures { MatchOption result (Unit {0}) (IsSole k.now b.now) }
{
    law_quotient_order();
    law_clamp_order();
    let pair = difference(x, y, b);
    let least = sum(pair.first.least, pair.second.least);
    let greatest = sum(pair.first.greatest, pair.second.greatest);
    let rise = left(limit, least);
    let fall = left(greatest, limit);
    if rise >= 0 && fall >= 0 {
        sole_of_four(x, y, rise, fall, b)
    } else {
        None
    }
}

/// The one bound of the four that narrows the box, where `x` and the opposite of `y` may each rise and fall by so much.
#[inline(always)]
fn sole_of_four(x: u32, y: u32, rise: i64, fall: i64, b: &BoxOf) -> Option<Sole>
    requires first { x < length b.now }
    requires second { y < length b.now }
    requires proper_first { low_of b.now x ≤ℤ high_of b.now x }
    requires proper_second { low_of b.now y ≤ℤ high_of b.now y }
    requires rise { pos 0 ≤ℤ rise }
    requires fall { pos 0 ≤ℤ fall }
    ensures { MatchOption result (Unit {0}) (IsSoleOfTwo b.now x y (room_of rise fall)) }
{
    law_quotient_order();
    law_clamp_order();
    let x_width = gap(b.low(x), b.high(x));
    let y_width = gap(b.low(y), b.high(y));
    if rise < x_width {
        if rise < y_width || fall < x_width || fall < y_width {
            None
        } else {
            Some(sole_high(x, rise, b))
        }
    } else if rise < y_width {
        if fall < x_width || fall < y_width {
            None
        } else {
            Some(sole_low(y, rise, b))
        }
    } else if fall < x_width {
        if fall < y_width {
            None
        } else {
            Some(sole_low(x, fall, b))
        }
    } else if fall < y_width {
        Some(sole_high(y, fall, b))
    } else {
        None
    }
}

/// The tell that a variable is at most so far above its low, where that bound is below its high.
#[inline(always)]
fn sole_high(var: u32, slack: i64, b: &BoxOf) -> Sole
    requires variable { var < length b.now }
    requires slack { pos 0 ≤ℤ slack }
    requires narrows { (low_of b.now var +ℤ slack) <ℤ high_of b.now var }
    requires in_range { IsBound (high_of b.now var) }
    ensures one { narrowing b.now (high_tell var (low_of b.now var +ℤ slack) ∷ []) ≡ result.tell ∷ [] }
    ensures last { result.is_last ≡ false }
{
    law_clamp_order();
    let bound = raised(b.low(var), slack);
    Sole::one(Tell {
        var,
        side: Side::High,
        bound,
    })
}

/// The tell that a variable is at most so far below its high, where that bound is above its low.
#[inline(always)]
fn sole_low(var: u32, slack: i64, b: &BoxOf) -> Sole
    requires variable { var < length b.now }
    requires slack { pos 0 ≤ℤ slack }
    requires narrows { low_of b.now var <ℤ (high_of b.now var -ℤ slack) }
    requires in_range { IsBound (low_of b.now var) }
    ensures one { narrowing b.now (low_tell var (high_of b.now var -ℤ slack) ∷ []) ≡ result.tell ∷ [] }
    ensures last { result.is_last ≡ false }
{
    law_clamp_order();
    let bound = lowered(b.high(var), slack);
    Sole::one(Tell {
        var,
        side: Side::Low,
        bound,
    })
}

/// Whether the first coefficient is above zero: then the variable that is added comes first.
#[inline(always)]
fn begins_above(coeffs: &[i64]) -> bool
    ensures { (vs : List ℕ) (x y : ℕ) → IsDifference coeffs.now vs x y → (coeffs.now ≡ ordered_signs result) × (vs ≡ ordered_vars result x y) }
{
    match coeffs.first() {
        Some(first) => *first > 0,
        None => true,
    }
}

/// Whether the last coefficient is below zero: then the variable that is added comes first.
#[inline(always)]
fn ends_below(coeffs: &Extended<i64>) -> bool
    ensures { (vs : List ℕ) (x y : ℕ) → IsDifference coeffs.now vs x y → (coeffs.now ≡ ordered_signs result) × (vs ≡ ordered_vars result x y) }
{
    match coeffs.split_last() {
        Some((_front, last)) => last < 0,
        None => true,
    }
}

/// What the inequality says, where the order of its terms is known.
#[inline(always)]
fn ordered_at_most(
    k: &Kernel,
    x_first: bool,
    lit: Lit,
    x: u32,
    y: u32,
    limit: i64,
    b: &BoxOf,
) -> Seen
    requires kernel { IsKernel (length b.now) k.now }
    requires order { k.now ≡ Kernel.Le lit (ordered_signs x_first) (ordered_vars x_first x y) limit }
    requires shape { IsShapeOf k.now (Shape.AtMost lit x y limit) }
    requires proper { IsProperIn (vars_of k.now) b.now }
    requires sure { words.is_sure lit b.now ≡ true }
    ensures { IsSeen k.now b.now result }
{
    law_quotient_order();
    law_clamp_order();
    let pair = difference(x, y, b);
    let least = sum(pair.first.least, pair.second.least);
    let rise = left(limit, least);
    if rise >= 0 {
        told_at_most(x_first, x, y, rise, b)
    } else {
        Seen::Unseen
    }
}

/// What the equation says, where the order of its terms is known.
#[inline(always)]
fn ordered_same(k: &Kernel, x_first: bool, lit: Lit, x: u32, y: u32, limit: i64, b: &BoxOf) -> Seen
    requires kernel { IsKernel (length b.now) k.now }
    requires order { k.now ≡ Kernel.Eq lit (ordered_signs x_first) (ordered_vars x_first x y) limit }
    requires shape { IsShapeOf k.now (Shape.Same lit x y limit) }
    requires proper { IsProperIn (vars_of k.now) b.now }
    requires sure { words.is_sure lit b.now ≡ true }
    ensures { IsSeen k.now b.now result }
{
    law_quotient_order();
    law_clamp_order();
    let pair = difference(x, y, b);
    let least = sum(pair.first.least, pair.second.least);
    let greatest = sum(pair.first.greatest, pair.second.greatest);
    let rise = left(limit, least);
    let fall = left(greatest, limit);
    if rise >= 0 && fall >= 0 {
        told_same(x_first, x, y, rise, fall, b)
    } else {
        Seen::Unseen
    }
}

/// The tells of `x` and of the opposite of `y` that narrow the box, where each may rise by so much, in the order of the kernel's
/// terms.
#[inline(always)]
fn told_at_most(x_first: bool, x: u32, y: u32, rise: i64, b: &BoxOf) -> Seen
    requires first { x < length b.now }
    requires second { y < length b.now }
    requires rise { pos 0 ≤ℤ rise }
    ensures { AreFew (ordered_tells x_first (narrowing b.now (high_tell x (low_of b.now x +ℤ rise) ∷ [])) (narrowing b.now (low_tell y (high_of b.now y -ℤ rise) ∷ []))) result }
{
    let mut seen = Seen::Quiet(Rest::Awake);
    if x_first {
        add_high(&mut seen, x, rise, b);
        add_low(&mut seen, y, rise, b);
        seen
    } else {
        add_low(&mut seen, y, rise, b);
        add_high(&mut seen, x, rise, b);
        seen
    }
}

/// The same where each may rise and fall by so much; `Unseen` where more than two narrow the box.
#[inline(always)]
fn told_same(x_first: bool, x: u32, y: u32, rise: i64, fall: i64, b: &BoxOf) -> Seen
    requires first { x < length b.now }
    requires second { y < length b.now }
    requires proper_first { low_of b.now x ≤ℤ high_of b.now x }
    requires proper_second { low_of b.now y ≤ℤ high_of b.now y }
    requires rise { pos 0 ≤ℤ rise }
    requires fall { pos 0 ≤ℤ fall }
    ensures { AreFew (ordered_tells x_first (narrowing b.now (room_tells b.now (room_of rise fall) (pos 1, x))) (narrowing b.now (room_tells b.now (room_of rise fall) (negsuc 0, y)))) result }
{
    let mut seen = Seen::Quiet(Rest::Awake);
    if x_first {
        add_term(&mut seen, Sign::Plus, x, rise, fall, b);
        add_term(&mut seen, Sign::Minus, y, rise, fall, b);
        seen
    } else {
        add_term(&mut seen, Sign::Minus, y, rise, fall, b);
        add_term(&mut seen, Sign::Plus, x, rise, fall, b);
        seen
    }
}
