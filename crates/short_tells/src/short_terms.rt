//! The tells of the terms of a sum, from the room that the sum leaves them.

ghost use Rattle.std.specs.Prelude.{◌≡◌, ◌≤ℤ◌, ◌<ℤ◌, ◌<◌, ◌+ℤ◌, ◌-ℤ◌, ◌*ℤ◌, pos, unsigned_abs, ◌≤◌, length, int_le, Some, [], ◌∷◌, MatchOption};
ghost use Rattle.std.specs.Bool.{OnFalse};
ghost use Rattle.std.specs.List.{zip, flat_map};
ghost use Rattle.interval.specs.Limits.{IsBound, IsNumber, dividend_limit};
ghost use Rattle.interval.specs.Boxes.{low_of, high_of};
ghost use Rattle.interval.specs.Quotients.{floor_of};
ghost use Rattle.tells.specs.Words as words;
ghost use Rattle.tells.specs.Words.{AreVariables, IsProperIn};
ghost use Rattle.tells.specs.Hearing.{MayHearAll, HearsAll};
ghost use Rattle.sum_tells.specs.Linear.{IsLinear};
ghost use Rattle.tell_laws.specs.Narrowing.{narrowing};
ghost use Rattle.short_tells.specs.ShortTells.{rise_tells, fall_tells, room_tells, any_room, IsSlackOf};
ghost use Rattle.small_sums.specs.Short.{growth_of, growth_limit, IsShortGrowth, AreShortGrowths};
ghost use Rattle.std.specs.Int.{int_min, int_max};

use interval::{BoxOf, law_clamp_order, law_quotient_order};
use sum_tells::floor_quotient;
use tell_laws::tell_narrowing;
use tells::{Hear, Side, Tell, high_tell, low_tell};

/// By how much each term of a sum may rise above its least value and fall below its greatest. Where there is none, by
/// any amount.
#[derive(Clone, Copy)]
pub struct Room {
    /// How far a term may rise.
    pub rise: Option<i64>,
    /// How far a term may fall.
    pub fall: Option<i64>,
}

/// Tells of each term of a short sum that it keeps to the room, where that narrows the box and the hearer isn't done.
#[inline(always)]
pub fn narrow_terms<H: Hear>(coeffs: &[i64], vars: &[u32], room: Room, b: &BoxOf, h: &mut H)
    requires linear { IsLinear coeffs.now vars.now (pos 0) }
    requires variables { AreVariables (length b.now) vars.now }
    requires proper { IsProperIn vars.now b.now }
    requires growths { AreShortGrowths b.now coeffs.now vars.now }
    requires hearer { MayHearAll H.can_hear H.hears h.old
        (flat_map (λ t. narrowing b.now (room_tells b.now room t)) (zip coeffs.now vars.now)) }
    ensures { HearsAll H.hears h.old (flat_map (λ t. narrowing b.now (room_tells b.now room t)) (zip coeffs.now vars.now)) h.new }
{
    if !h.is_done() {
        narrow_terms_to(coeffs, vars, room, b, h);
    }
}

/// The same, whether the hearer is done or not.
#[inline(always)]
fn narrow_terms_to<H: Hear>(coeffs: &[i64], vars: &[u32], room: Room, b: &BoxOf, h: &mut H)
    requires linear { IsLinear coeffs.now vars.now (pos 0) }
    requires variables { AreVariables (length b.now) vars.now }
    requires proper { IsProperIn vars.now b.now }
    requires growths { AreShortGrowths b.now coeffs.now vars.now }
    requires hearer { MayHearAll H.can_hear H.hears h.old
        (flat_map (λ t. narrowing b.now (room_tells b.now room t)) (zip coeffs.now vars.now)) }
    ensures { HearsAll H.hears h.old (flat_map (λ t. narrowing b.now (room_tells b.now room t)) (zip coeffs.now vars.now)) h.new }
{
    match least_slack(room) {
        Some(slack) => {
            if slack < 0 {
                narrow_all(coeffs, vars, room, b, h);
            } else {
                narrow_wide(coeffs, vars, slack, room, b, h);
            }
        }
        None => {}
    }
}

/// The lesser of how far terms may rise and fall, where one of them is bounded.
fn least_slack(room: Room) -> Option<i64>
    ensures { MatchOption result (room ≡ any_room) (λ slack. IsSlackOf room slack) }
{
    match (room.rise, room.fall) {
        (Some(rise), Some(fall)) => Some(rise.min(fall)),
        (Some(rise), None) => Some(rise),
        (None, Some(fall)) => Some(fall),
        (None, None) => None,
    }
}

/// Tells of each term that it keeps to the room.
#[inline(never)]
fn narrow_all<H: Hear>(coeffs: &[i64], vars: &[u32], room: Room, b: &BoxOf, h: &mut H)
    requires linear { IsLinear coeffs.now vars.now (pos 0) }
    requires variables { AreVariables (length b.now) vars.now }
    requires proper { IsProperIn vars.now b.now }
    requires growths { AreShortGrowths b.now coeffs.now vars.now }
    requires hearer { MayHearAll H.can_hear H.hears h.old
        (flat_map (λ t. narrowing b.now (room_tells b.now room t)) (zip coeffs.now vars.now)) }
    ensures { HearsAll H.hears h.old (flat_map (λ t. narrowing b.now (room_tells b.now room t)) (zip coeffs.now vars.now)) h.new }
{
    for i in 0..coeffs.len() {
        let term = (coeffs[i], vars[i]);
        narrow_term(term, room, b, h);
    }
}

/// The same where the room is at least the slack: only what grows by more is told.
#[inline(always)]
fn narrow_wide<H: Hear>(coeffs: &[i64], vars: &[u32], slack: i64, room: Room, b: &BoxOf, h: &mut H)
    requires linear { IsLinear coeffs.now vars.now (pos 0) }
    requires variables { AreVariables (length b.now) vars.now }
    requires proper { IsProperIn vars.now b.now }
    requires growths { AreShortGrowths b.now coeffs.now vars.now }
    requires slack { IsSlackOf room slack }
    requires above_zero { pos 0 ≤ℤ slack }
    requires hearer { MayHearAll H.can_hear H.hears h.old
        (flat_map (λ t. narrowing b.now (room_tells b.now room t)) (zip coeffs.now vars.now)) }
    ensures { HearsAll H.hears h.old (flat_map (λ t. narrowing b.now (room_tells b.now room t)) (zip coeffs.now vars.now)) h.new }
{
    for i in 0..coeffs.len() {
        let term = (coeffs[i], vars[i]);
        narrow_where_wide(term, slack, &room, b, h);
    }
}

/// Tells of a term that it keeps to the room, which is at least the slack, unless it grows by no more.
#[inline(always)]
fn narrow_where_wide<H: Hear>(term: (i64, u32), slack: i64, room: &Room, b: &BoxOf, h: &mut H)
    requires coefficient { IsNumber term.0 }
    requires variable { term.1 < length b.now }
    requires proper { low_of b.now term.1 ≤ℤ high_of b.now term.1 }
    requires growth { IsShortGrowth b.now term.0 term.1 }
    requires slack { IsSlackOf room.now slack }
    requires above_zero { pos 0 ≤ℤ slack }
    requires hearer { MayHearAll H.can_hear H.hears h.old (narrowing b.now (room_tells b.now room.now term)) }
    ensures { HearsAll H.hears h.old (narrowing b.now (room_tells b.now room.now term)) h.new }
{
    law_quotient_order();
    law_clamp_order();
    if is_wide(term, slack, b) {
        narrow_term(term, *room, b, h);
    }
}

/// Whether the term may grow by more than the slack.
#[inline(always)]
fn is_wide(term: (i64, u32), slack: i64, b: &BoxOf) -> bool
    requires variable { term.1 < length b.now }
    requires proper { low_of b.now term.1 ≤ℤ high_of b.now term.1 }
    requires coefficient { IsNumber term.0 }
    requires growth { IsShortGrowth b.now term.0 term.1 }
    requires above_zero { pos 0 ≤ℤ slack }
    ensures { OnFalse result (growth_of b.now term.0 term.1 ≤ℤ slack) }
{
    let low = b.low(term.1);
    let high = b.high(term.1);
    low < high && slack < growth(term.0, low, high)
}

/// By how much the coefficient's products with two bounds differ.
fn growth(coeff: i64, low: i64, high: i64) -> i64
    requires coefficient { IsNumber coeff }
    requires low { IsBound low }
    requires high { IsBound high }
    requires proper { low ≤ℤ high }
    requires short { (int_max (coeff *ℤ low) (coeff *ℤ high) -ℤ int_min (coeff *ℤ low) (coeff *ℤ high)) ≤ℤ pos growth_limit }
    ensures { result ≡ int_max (coeff *ℤ low) (coeff *ℤ high) -ℤ int_min (coeff *ℤ low) (coeff *ℤ high) }
{
    if coeff < 0 {
        span(opposite(coeff), low, high)
    } else {
        span(coeff, low, high)
    }
}

/// How far apart two bounds are, times a size.
fn span(size: i64, low: i64, high: i64) -> i64
    requires low { IsBound low }
    requires high { IsBound high }
    requires proper { low ≤ℤ high }
    requires size { pos 0 ≤ℤ size }
    requires short { ((high -ℤ low) *ℤ size) ≤ℤ pos growth_limit }
    ensures { result ≡ (high -ℤ low) *ℤ size }
{
    short_product(width(low, high), size)
}

/// The product of two numbers, where it fits 64 bits.
fn short_product(y: i64, z: i64) -> i64
    requires { unsigned_abs (y *ℤ z) ≤ growth_limit }
    ensures { result ≡ y *ℤ z }
{
    y * z
}

/// Tells of a term that it keeps to the room, where that narrows the box.
#[inline(always)]
pub fn narrow_term<H: Hear>(term: (i64, u32), room: Room, b: &BoxOf, h: &mut H)
    requires coefficient { IsNumber term.0 }
    requires variable { term.1 < length b.now }
    requires proper { low_of b.now term.1 ≤ℤ high_of b.now term.1 }
    requires growth { IsShortGrowth b.now term.0 term.1 }
    requires hearer { MayHearAll H.can_hear H.hears h.old (narrowing b.now (room_tells b.now room term)) }
    ensures { HearsAll H.hears h.old (narrowing b.now (room_tells b.now room term)) h.new }
{
    narrow_rise(term, room, b, h);
    narrow_fall(term, room, b, h);
}

/// Tells of a term that it rises no further than the room says, where that narrows the box.
fn narrow_rise<H: Hear>(term: (i64, u32), room: Room, b: &BoxOf, h: &mut H)
    requires coefficient { IsNumber term.0 }
    requires variable { term.1 < length b.now }
    requires proper { low_of b.now term.1 ≤ℤ high_of b.now term.1 }
    requires growth { IsShortGrowth b.now term.0 term.1 }
    requires hearer { MayHearAll H.can_hear H.hears h.old (narrowing b.now (rise_tells b.now room.rise term)) }
    ensures { HearsAll H.hears h.old (narrowing b.now (rise_tells b.now room.rise term)) h.new }
{
    if let Some(slack) = room.rise {
        narrow_rise_by(term, slack, b, h);
    }
}

/// The same for a term that may rise by the slack.
fn narrow_rise_by<H: Hear>(term: (i64, u32), slack: i64, b: &BoxOf, h: &mut H)
    requires coefficient { IsNumber term.0 }
    requires variable { term.1 < length b.now }
    requires proper { low_of b.now term.1 ≤ℤ high_of b.now term.1 }
    requires growth { IsShortGrowth b.now term.0 term.1 }
    requires hearer { MayHearAll H.can_hear H.hears h.old (narrowing b.now (rise_tells b.now (Some slack) term)) }
    ensures { HearsAll H.hears h.old (narrowing b.now (rise_tells b.now (Some slack) term)) h.new }
{
    law_quotient_order();
    if term.0 > 0 {
        narrow_high(term.1, term.0, slack, b, h);
    } else if term.0 < 0 {
        narrow_low(term.1, opposite(term.0), slack, b, h);
    }
}

/// Tells of a term that it falls no further than the room says, where that narrows the box.
fn narrow_fall<H: Hear>(term: (i64, u32), room: Room, b: &BoxOf, h: &mut H)
    requires coefficient { IsNumber term.0 }
    requires variable { term.1 < length b.now }
    requires proper { low_of b.now term.1 ≤ℤ high_of b.now term.1 }
    requires growth { IsShortGrowth b.now term.0 term.1 }
    requires hearer { MayHearAll H.can_hear H.hears h.old (narrowing b.now (fall_tells b.now room.fall term)) }
    ensures { HearsAll H.hears h.old (narrowing b.now (fall_tells b.now room.fall term)) h.new }
{
    if let Some(slack) = room.fall {
        narrow_fall_by(term, slack, b, h);
    }
}

/// The same for a term that may fall by the slack.
fn narrow_fall_by<H: Hear>(term: (i64, u32), slack: i64, b: &BoxOf, h: &mut H)
    requires coefficient { IsNumber term.0 }
    requires variable { term.1 < length b.now }
    requires proper { low_of b.now term.1 ≤ℤ high_of b.now term.1 }
    requires growth { IsShortGrowth b.now term.0 term.1 }
    requires hearer { MayHearAll H.can_hear H.hears h.old (narrowing b.now (fall_tells b.now (Some slack) term)) }
    ensures { HearsAll H.hears h.old (narrowing b.now (fall_tells b.now (Some slack) term)) h.new }
{
    law_quotient_order();
    if term.0 > 0 {
        narrow_low(term.1, term.0, slack, b, h);
    } else if term.0 < 0 {
        narrow_high(term.1, opposite(term.0), slack, b, h);
    }
}

/// Tells that the variable is at most its low and the slack divided by `size`, where that narrows the box.
fn narrow_high<H: Hear>(var: u32, size: i64, slack: i64, b: &BoxOf, h: &mut H)
    requires size { pos 0 <ℤ size }
    requires variable { var < length b.now }
    requires growth { ((high_of b.now var -ℤ low_of b.now var) *ℤ size) ≤ℤ pos growth_limit }
    requires proper { low_of b.now var ≤ℤ high_of b.now var }
    requires hearer { MayHearAll H.can_hear H.hears h.old
        (narrowing b.now (words.high_tell var (low_of b.now var +ℤ floor_of slack size) ∷ [])) }
    ensures { HearsAll H.hears h.old (narrowing b.now (words.high_tell var (low_of b.now var +ℤ floor_of slack size) ∷ [])) h.new }
{
    law_quotient_order();
    law_clamp_order();
    if is_within(size, b.low(var), b.high(var), slack) {
        return;
    }
    if slack < 0 {
        tell_narrowing(high_from_low(size, var, slack, b), b, h);
    } else {
        hear_high(var, size, slack, b, h);
    }
}

/// The same where the slack isn't below zero and the term grows by more: the tell narrows, and takes one short division.
fn hear_high<H: Hear>(var: u32, size: i64, slack: i64, b: &BoxOf, h: &mut H)
    requires size { pos 0 <ℤ size }
    requires variable { var < length b.now }
    requires above_zero { pos 0 ≤ℤ slack }
    requires wide { slack <ℤ ((high_of b.now var -ℤ low_of b.now var) *ℤ size) }
    requires hearer { MayHearAll H.can_hear H.hears h.old
        (narrowing b.now (words.high_tell var (low_of b.now var +ℤ floor_of slack size) ∷ [])) }
    ensures { HearsAll H.hears h.old (narrowing b.now (words.high_tell var (low_of b.now var +ℤ floor_of slack size) ∷ [])) h.new }
{
    law_quotient_order();
    law_clamp_order();
    let low = b.low(var);
    let high = b.high(var);
    h.hear(Tell {
        var,
        side: Side::High,
        bound: low + steps(slack, size, low, high),
    });
}

/// Tells that the variable is at least its high less the slack divided by `size`, where that narrows the box.
fn narrow_low<H: Hear>(var: u32, size: i64, slack: i64, b: &BoxOf, h: &mut H)
    requires size { pos 0 <ℤ size }
    requires variable { var < length b.now }
    requires growth { ((high_of b.now var -ℤ low_of b.now var) *ℤ size) ≤ℤ pos growth_limit }
    requires proper { low_of b.now var ≤ℤ high_of b.now var }
    requires hearer { MayHearAll H.can_hear H.hears h.old
        (narrowing b.now (words.low_tell var (high_of b.now var -ℤ floor_of slack size) ∷ [])) }
    ensures { HearsAll H.hears h.old (narrowing b.now (words.low_tell var (high_of b.now var -ℤ floor_of slack size) ∷ [])) h.new }
{
    law_quotient_order();
    law_clamp_order();
    if is_within(size, b.low(var), b.high(var), slack) {
        return;
    }
    if slack < 0 {
        tell_narrowing(low_from_high(size, var, slack, b), b, h);
    } else {
        hear_low(var, size, slack, b, h);
    }
}

/// The same where the slack isn't below zero and the term grows by more.
fn hear_low<H: Hear>(var: u32, size: i64, slack: i64, b: &BoxOf, h: &mut H)
    requires size { pos 0 <ℤ size }
    requires variable { var < length b.now }
    requires above_zero { pos 0 ≤ℤ slack }
    requires wide { slack <ℤ ((high_of b.now var -ℤ low_of b.now var) *ℤ size) }
    requires hearer { MayHearAll H.can_hear H.hears h.old
        (narrowing b.now (words.low_tell var (high_of b.now var -ℤ floor_of slack size) ∷ [])) }
    ensures { HearsAll H.hears h.old (narrowing b.now (words.low_tell var (high_of b.now var -ℤ floor_of slack size) ∷ [])) h.new }
{
    law_quotient_order();
    law_clamp_order();
    let low = b.low(var);
    let high = b.high(var);
    h.hear(Tell {
        var,
        side: Side::Low,
        bound: high - steps(slack, size, low, high),
    });
}

/// How often a step of this size fits the slack. Two bounds are more steps apart.
fn steps(slack: i64, size: i64, low: i64, high: i64) -> i64
    requires size { pos 0 <ℤ size }
    requires above_zero { pos 0 ≤ℤ slack }
    requires wide { slack <ℤ ((high -ℤ low) *ℤ size) }
    ensures value { result ≡ floor_of slack size }
    ensures above_zero { pos 0 ≤ℤ result }
    ensures inside { result <ℤ (high -ℤ low) }
{
    law_quotient_order();
    if size == 1 { slack } else { slack / size }
}

/// Whether a term of this size grows by no more than the slack between the bounds.
fn is_within(size: i64, low: i64, high: i64, slack: i64) -> bool
    requires low { IsBound low }
    requires high { IsBound high }
    requires proper { low ≤ℤ high }
    requires size { pos 0 <ℤ size }
    requires short { ((high -ℤ low) *ℤ size) ≤ℤ pos growth_limit }
    ensures { result ≡ int_le ((high -ℤ low) *ℤ size) slack }
{
    span(size, low, high) <= slack
}

/// How far apart two bounds are.
#[tactic(auto, unfolding(interval::specs::Limits::bound_limit, interval::specs::Limits::largest_number))]
fn width(low: i64, high: i64) -> i64
    requires low { IsBound low }
    requires high { IsBound high }
    ensures { result ≡ high -ℤ low }
{
    high - low
}

/// The variable is told to be at most its low and the slack divided by `size`.
fn high_from_low(size: i64, var: u32, slack: i64, b: &BoxOf) -> Tell
    requires size { pos 0 <ℤ size }
    requires variable { var < length b.now }
    ensures { result ≡ words.high_tell var (low_of b.now var +ℤ floor_of slack size) }
{
    high_tell(var, above_low(size, var, slack, b))
}

/// The low of the variable and the slack divided by `size`.
#[tactic(auto, unfolding(interval::specs::Limits::bound_limit, interval::specs::Limits::largest_number, interval::specs::Limits::dividend_limit))]
fn above_low(size: i64, var: u32, slack: i64, b: &BoxOf) -> i128
    requires size { pos 0 <ℤ size }
    requires variable { var < length b.now }
    ensures { result ≡ low_of b.now var +ℤ floor_of slack size }
{
    b.low(var) as i128 + quotient(slack, size)
}

/// The variable is told to be at least its high less the slack divided by `size`.
fn low_from_high(size: i64, var: u32, slack: i64, b: &BoxOf) -> Tell
    requires size { pos 0 <ℤ size }
    requires variable { var < length b.now }
    ensures { result ≡ words.low_tell var (high_of b.now var -ℤ floor_of slack size) }
{
    low_tell(var, below_high(size, var, slack, b))
}

/// The high of the variable less the slack divided by `size`.
#[tactic(auto, unfolding(interval::specs::Limits::bound_limit, interval::specs::Limits::largest_number, interval::specs::Limits::dividend_limit))]
fn below_high(size: i64, var: u32, slack: i64, b: &BoxOf) -> i128
    requires size { pos 0 <ℤ size }
    requires variable { var < length b.now }
    ensures { result ≡ high_of b.now var -ℤ floor_of slack size }
{
    b.high(var) as i128 - quotient(slack, size)
}

/// The greatest whole number that is at most the slack divided by `size`.
#[tactic(auto, using(crate::proofs::ShortTellLaws::floor_small), unfolding(interval::specs::Limits::dividend_limit))]
fn quotient(slack: i64, size: i64) -> i128
    requires { pos 0 <ℤ size }
    ensures value { result ≡ floor_of slack size }
    ensures in_range { unsigned_abs result ≤ dividend_limit }
{
    floor_quotient(slack as i128, size)
}

/// The size of a coefficient below zero.
#[tactic(auto, unfolding(interval::specs::Limits::largest_number))]
fn opposite(coeff: i64) -> i64
    requires { IsNumber coeff }
    ensures { result ≡ pos 0 -ℤ coeff }
{
    -coeff
}
