//! What the shape of an equation of three terms, each a variable or its opposite, says of a visit.

ghost use Rattle.std.specs.Prelude.{◌≡◌, ◌<◌, ◌≤◌, ◌≤ℤ◌, ◌+ℤ◌, ◌-ℤ◌, pos, true, List, ◌++◌, ◌∷◌, [], length, unsigned_abs};
ghost use Rattle.std.specs.Int.{int_max};
ghost use Rattle.std.specs.List.{zip, flat_map};
ghost use Rattle.interval.specs.Limits.{IsBound};
ghost use Rattle.interval.specs.Boxes.{low_of, high_of};
ghost use Rattle.tells.specs.declared.tell.Tell.{Tell as Told};
ghost use Rattle.guarded_tell.specs.Words.{IsProperIn, low_tell, high_tell};
ghost use Rattle.guarded_tell.specs.Words as words;
ghost use Rattle.tell_laws.specs.Narrowing.{narrowing};
ghost use Rattle.small_sums.specs.Short.{short_sum_limit, IsTermOf};
ghost use Rattle.short_tells.specs.ShortTells.{room_tells};
ghost use Rattle.seen_tells.specs.Few.{AreFew};
ghost use Rattle.guarded_tell.specs.Kernels.{vars_of, IsKernel};
ghost use Rattle.seen_tells.specs.Seen.{IsSeen};
ghost use Rattle.kernel_visits.specs.Shapes.{IsShapeOf, unit_of, units_of, places_of};
ghost use Rattle.seen_tells.specs.Three.{ArePlaced, AreSpansOf, AreBounds, room_of, width_of};

use crate::seen::Seen;
use guarded_tell::{Kernel, Lit, Side, Tell};
use interval::{BoxOf, law_clamp_order, law_quotient_order};
use kernel_visits::{Rest, Shape, Sign, Terms};
use small_sums::{SmallTerm, Sums, opposite, plain};
use tells::stands_true;

/// What three terms are at least and at most.
#[derive(Clone, Copy)]
pub struct Spans {
    /// The first term.
    pub x: SmallTerm,
    /// The second term.
    pub y: SmallTerm,
    /// The third term.
    pub z: SmallTerm,
}

/// What the shape of an equation of three terms says of a visit. It says nothing where the literal isn't sure, where the
/// least sum is above the limit or the greatest below it, or where more than two tells narrow the box.
#[inline(always)]
pub fn seen_three(k: &Kernel, terms: Terms, limit: i64, b: &BoxOf) -> Seen
    requires kernel { IsKernel (length b.now) k.now }
    requires shape { IsShapeOf k.now (Shape.Three terms limit) }
    requires proper { IsProperIn (vars_of k.now) b.now }
    ensures { IsSeen k.now b.now result }
{
    match k {
        Kernel::Eq { lit, .. } => {
            if stands_true(*lit, b) {
                seen_sure(k, *lit, terms, limit, b)
            } else {
                Seen::Unseen
            }
        }
        _ => Seen::Unseen,
    }
}

/// The same where the literal is sure.
#[inline(always)]
fn seen_sure(k: &Kernel, lit: Lit, terms: Terms, limit: i64, b: &BoxOf) -> Seen
    requires kernel { IsKernel (length b.now) k.now }
    requires equation { k.now ≡ Kernel.Eq lit (units_of terms) (places_of terms) limit }
    requires proper { IsProperIn (vars_of k.now) b.now }
    requires sure { words.is_sure lit b.now ≡ true }
    ensures { IsSeen k.now b.now result }
{
    law_quotient_order();
    law_clamp_order();
    let sums = sums_of(spans_of(terms, b));
    let rise = left(limit, sums.least);
    let fall = left(sums.greatest, limit);
    if sums.widest <= rise && sums.widest <= fall {
        if rise <= 0 && fall <= 0 {
            Seen::Quiet(Rest::ForGood)
        } else {
            Seen::Quiet(Rest::Awake)
        }
    } else if rise >= 0 && fall >= 0 {
        told(terms, rise, fall, b)
    } else {
        Seen::Unseen
    }
}

/// What the terms are at least and at most.
#[inline(always)]
fn spans_of(terms: Terms, b: &BoxOf) -> Spans
    requires { ArePlaced b.now terms }
    ensures terms { AreSpansOf b.now terms result }
    ensures bounds { AreBounds result }
{
    Spans {
        x: span_of(terms.x_sign, terms.x, b),
        y: span_of(terms.y_sign, terms.y, b),
        z: span_of(terms.z_sign, terms.z, b),
    }
}

/// What the variable, or its opposite, is at least and at most.
#[inline(always)]
fn span_of(sign: Sign, var: u32, b: &BoxOf) -> SmallTerm
    requires variable { var < length b.now }
    requires proper { low_of b.now var ≤ℤ high_of b.now var }
    ensures term { IsTermOf b.now (unit_of sign) var result }
    ensures least { IsBound result.least }
    ensures greatest { IsBound result.greatest }
{
    match sign {
        Sign::Plus => plain(var, b),
        Sign::Minus => opposite(var, b),
    }
}

/// The sums of the terms.
#[inline(always)]
fn sums_of(spans: Spans) -> Sums
    requires { AreBounds spans }
    ensures least { result.least ≡ (spans.x.least +ℤ spans.y.least) +ℤ spans.z.least }
    ensures greatest { result.greatest ≡ (spans.x.greatest +ℤ spans.y.greatest) +ℤ spans.z.greatest }
    ensures x { width_of spans.x ≤ℤ result.widest }
    ensures y { width_of spans.y ≤ℤ result.widest }
    ensures z { width_of spans.z ≤ℤ result.widest }
    ensures short_least { unsigned_abs result.least ≤ short_sum_limit }
    ensures short_greatest { unsigned_abs result.greatest ≤ short_sum_limit }
{
    Sums {
        least: sum_of(spans.x.least, spans.y.least, spans.z.least),
        greatest: sum_of(spans.x.greatest, spans.y.greatest, spans.z.greatest),
        widest: widest(spans),
    }
}

/// The sum of three bounds.
#[tactic(auto, unfolding(small_sums::specs::Short::short_sum_limit, interval::specs::Limits::bound_limit, interval::specs::Limits::largest_number))]
#[inline(always)]
fn sum_of(x: i64, y: i64, z: i64) -> i64
    requires x { IsBound x }
    requires y { IsBound y }
    requires z { IsBound z }
    ensures value { result ≡ (x +ℤ y) +ℤ z }
    ensures in_range { unsigned_abs result ≤ short_sum_limit }
{
    x + y + z
}

/// The most that one of the terms is above its least.
#[inline(always)]
fn widest(spans: Spans) -> i64
    requires { AreBounds spans }
    ensures x { width_of spans.x ≤ℤ result }
    ensures y { width_of spans.y ≤ℤ result }
    ensures z { width_of spans.z ≤ℤ result }
{
    let first = width(spans.x);
    let second = width(spans.y);
    let third = width(spans.z);
    let both = larger(first, second);
    larger(both, third)
}

/// How far a term's greatest value is above its least.
#[tactic(auto, unfolding(interval::specs::Limits::bound_limit, interval::specs::Limits::largest_number))]
#[inline(always)]
fn width(term: SmallTerm) -> i64
    requires least { IsBound term.least }
    requires greatest { IsBound term.greatest }
    ensures { result ≡ width_of term }
{
    term.greatest - term.least
}

/// The larger of two numbers.
#[inline(always)]
pub(crate) fn larger(first: i64, second: i64) -> i64
    ensures { result ≡ int_max first second }
{
    if first < second { second } else { first }
}

/// What one number leaves of another.
#[tactic(auto, unfolding(small_sums::specs::Short::short_sum_limit))]
#[inline(always)]
pub(crate) fn left(whole: i64, part: i64) -> i64
    requires whole { unsigned_abs whole ≤ short_sum_limit }
    requires part { unsigned_abs part ≤ short_sum_limit }
    ensures { result ≡ whole -ℤ part }
{
    whole - part
}

/// The tells of the terms that narrow the box; `Unseen` where there are more than two.
fn told(terms: Terms, rise: i64, fall: i64, b: &BoxOf) -> Seen
    requires places { ArePlaced b.now terms }
    requires rise { pos 0 ≤ℤ rise }
    requires fall { pos 0 ≤ℤ fall }
    ensures { AreFew (flat_map (λ t. narrowing b.now (room_tells b.now (room_of rise fall) t)) (zip (units_of terms) (places_of terms))) result }
{
    let mut seen = Seen::Quiet(Rest::Awake);
    add_if_wide(&mut seen, terms.x_sign, terms.x, rise, fall, b);
    add_if_wide(&mut seen, terms.y_sign, terms.y, rise, fall, b);
    add_if_wide(&mut seen, terms.z_sign, terms.z, rise, fall, b);
    seen
}

/// Adds the tells of one more term. Most are told nothing.
#[inline(always)]
fn add_if_wide(seen: &mut Seen, sign: Sign, var: u32, rise: i64, fall: i64, b: &BoxOf)
    requires variable { var < length b.now }
    requires proper { low_of b.now var ≤ℤ high_of b.now var }
    requires rise { pos 0 ≤ℤ rise }
    requires fall { pos 0 ≤ℤ fall }
    ensures { (ts : List Told) → AreFew ts seen.old → AreFew (ts ++ narrowing b.now (room_tells b.now (room_of rise fall) (unit_of sign, var))) seen.new }
{
    law_quotient_order();
    law_clamp_order();
    let width = gap(b.low(var), b.high(var));
    if rise < width || fall < width {
        add_term_apart(seen, sign, var, rise, fall, b);
    }
}

/// The same of a term that is told something. It is a function of its own, so that a term that is told nothing moves no tells.
#[inline(never)]
fn add_term_apart(seen: &mut Seen, sign: Sign, var: u32, rise: i64, fall: i64, b: &BoxOf)
    requires variable { var < length b.now }
    requires proper { low_of b.now var ≤ℤ high_of b.now var }
    requires rise { pos 0 ≤ℤ rise }
    requires fall { pos 0 ≤ℤ fall }
    ensures { (ts : List Told) → AreFew ts seen.old → AreFew (ts ++ narrowing b.now (room_tells b.now (room_of rise fall) (unit_of sign, var))) seen.new }
{
    add_term(seen, sign, var, rise, fall, b);
}

/// Adds the tells of one more term that narrow the box, where the term may rise and fall by so much.
#[inline(always)]
pub(crate) fn add_term(seen: &mut Seen, sign: Sign, var: u32, rise: i64, fall: i64, b: &BoxOf)
    requires variable { var < length b.now }
    requires proper { low_of b.now var ≤ℤ high_of b.now var }
    requires rise { pos 0 ≤ℤ rise }
    requires fall { pos 0 ≤ℤ fall }
    ensures { (ts : List Told) → AreFew ts seen.old → AreFew (ts ++ narrowing b.now (room_tells b.now (room_of rise fall) (unit_of sign, var))) seen.new }
{
    law_quotient_order();
    match sign {
        Sign::Plus => {
            add_high(seen, var, rise, b);
            add_low(seen, var, fall, b);
        }
        Sign::Minus => {
            add_low(seen, var, rise, b);
            add_high(seen, var, fall, b);
        }
    }
}

/// Adds the tell that a variable is at most so far above its low, where that narrows the box.
#[inline(always)]
pub(crate) fn add_high(seen: &mut Seen, var: u32, slack: i64, b: &BoxOf)
    requires variable { var < length b.now }
    requires slack { pos 0 ≤ℤ slack }
    ensures { (ts : List Told) → AreFew ts seen.old → AreFew (ts ++ narrowing b.now (high_tell var (low_of b.now var +ℤ slack) ∷ [])) seen.new }
{
    law_clamp_order();
    let low = b.low(var);
    let high = b.high(var);
    if slack < gap(low, high) {
        let bound = raised(low, slack);
        seen.add(Tell {
            var,
            side: Side::High,
            bound,
        });
    }
}

/// Adds the tell that a variable is at most so far below its high, where that narrows the box.
#[inline(always)]
pub(crate) fn add_low(seen: &mut Seen, var: u32, slack: i64, b: &BoxOf)
    requires variable { var < length b.now }
    requires slack { pos 0 ≤ℤ slack }
    ensures { (ts : List Told) → AreFew ts seen.old → AreFew (ts ++ narrowing b.now (low_tell var (high_of b.now var -ℤ slack) ∷ [])) seen.new }
{
    law_clamp_order();
    let low = b.low(var);
    let high = b.high(var);
    if slack < gap(low, high) {
        let bound = lowered(high, slack);
        seen.add(Tell {
            var,
            side: Side::Low,
            bound,
        });
    }
}

/// How far the high is above the low.
#[tactic(auto, unfolding(interval::specs::Limits::bound_limit, interval::specs::Limits::largest_number))]
#[inline(always)]
pub(crate) fn gap(low: i64, high: i64) -> i64
    requires low { IsBound low }
    requires high { IsBound high }
    ensures { result ≡ high -ℤ low }
{
    high - low
}

/// The bound that is so far above another.
#[tactic(auto, unfolding(interval::specs::Limits::bound_limit, interval::specs::Limits::largest_number))]
#[inline(always)]
pub(crate) fn raised(low: i64, slack: i64) -> i64
    requires { IsBound (low +ℤ slack) }
    ensures { result ≡ low +ℤ slack }
{
    low + slack
}

/// The bound that is so far below another.
#[tactic(auto, unfolding(interval::specs::Limits::bound_limit, interval::specs::Limits::largest_number))]
#[inline(always)]
pub(crate) fn lowered(high: i64, slack: i64) -> i64
    requires { IsBound (high -ℤ slack) }
    ensures { result ≡ high -ℤ slack }
{
    high - slack
}
