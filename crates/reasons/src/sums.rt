//! Which bounds a tell of a sum rests on, and by how much they may be wider. Nothing here is relied on, and numbers may wrap:
//! whoever uses the bounds looks whether the kernel tells the literal there.

ghost use Rattle.std.specs.Prelude.{◌≡◌, ◌<◌, length, IfSome};
ghost use Rattle.guarded_tell.specs.Kernels.{vars_of, IsKernel};

use crate::past::put_if_bounds;
use guarded_tell::{Extended, Kernel, Lit, Side, Tell};
use interval::BoxOf;

/// What a sum is compared with.
#[derive(Clone, Copy)]
struct Comparison {
    lit: Lit,
    limit: i64,
    is_equation: bool,
}

/// The ends of the terms of a sum on which a tell rests: all the least or all the greatest, but for that of the told variable,
/// which is the one at the place `own`; and by how much their sum may be wider.
#[derive(Clone, Copy)]
struct Need {
    own: usize,
    is_least: bool,
    slack: i64,
}

/// The least and the greatest of a sum.
#[derive(Clone, Copy)]
struct Ends {
    least: i64,
    greatest: i64,
}

/// What the kernel compares, if it is of a sum.
fn comparison_of(kernel: &Kernel) -> Option<Comparison> {
    match kernel {
        Kernel::Le { lit, limit, .. } => Some(Comparison {
            lit: *lit,
            limit: *limit,
            is_equation: false,
        }),
        Kernel::Eq { lit, limit, .. } => Some(Comparison {
            lit: *lit,
            limit: *limit,
            is_equation: true,
        }),
        _ => None,
    }
}

/// A coefficient of a list.
fn listed(coeffs: &Extended<i64>, place: usize) -> i64 {
    if let Some(all) = coeffs.as_slice() {
        return all.get(place).copied().unwrap_or(0);
    }
    match coeffs.split_last() {
        None => 0,
        Some((front, last)) => front.get(place).copied().unwrap_or(last),
    }
}

/// The coefficient of the variable that the kernel names at a place, behind the literal's; 0 where it is of no sum.
fn coefficient(kernel: &Kernel, place: usize) -> i64 {
    let Some(term) = place.checked_sub(1) else {
        return 0;
    };
    match kernel {
        Kernel::Le { coeffs, .. } => coeffs.as_slice().get(term).copied().unwrap_or(0),
        Kernel::Eq { coeffs, .. } => listed(coeffs, term),
        _ => 0,
    }
}

/// The least and the greatest of the terms but the one at a place.
fn ends_but(kernel: &Kernel, b: &BoxOf, own: usize) -> Ends
    requires { IsKernel (length b.now) kernel.now }
{
    let mut ends = Ends {
        least: 0,
        greatest: 0,
    };
    for place in 1..kernel.var_count() {
        if place != own {
            let coeff = coefficient(kernel, place);
            let v = kernel.var_at(place);
            let low = coeff.wrapping_mul(b.low(v));
            let high = coeff.wrapping_mul(b.high(v));
            ends.least = ends.least.wrapping_add(low.min(high));
            ends.greatest = ends.greatest.wrapping_add(low.max(high));
        }
    }
    ends
}

/// Whether the literal is true or false for all numbers that the box has for its variable, if it is.
fn value_of(lit: Lit, b: &BoxOf) -> Option<bool>
    requires { lit.var < length b.now }
{
    if b.low(lit.var) >= 1 {
        Some(lit.positive)
    } else if b.high(lit.var) <= 0 {
        Some(!lit.positive)
    } else {
        None
    }
}

/// The place of a term of this variable, if there is one.
fn term_of(kernel: &Kernel, b: &BoxOf, v: u32) -> Option<usize>
    requires { IsKernel (length b.now) kernel.now }
{
    for place in 1..kernel.var_count() {
        if kernel.var_at(place) == v {
            return Some(place);
        }
    }
    None
}

/// What the tell of the comparison's literal rests on.
fn literal_need(kernel: &Kernel, b: &BoxOf, how: Comparison, sought: Tell) -> Option<Need>
    requires { IsKernel (length b.now) kernel.now }
{
    let ends = ends_but(kernel, b, 0);
    let is_true = (sought.side == Side::Low) == how.lit.positive;
    let below = how.limit.wrapping_sub(ends.greatest);
    let above = ends.least.wrapping_sub(how.limit).wrapping_sub(1);
    if is_true && !how.is_equation {
        Some(Need {
            own: 0,
            is_least: false,
            slack: below,
        })
    } else if !is_true && above >= 0 {
        Some(Need {
            own: 0,
            is_least: true,
            slack: above,
        })
    } else if !is_true && how.is_equation && below >= 1 {
        Some(Need {
            own: 0,
            is_least: false,
            slack: below - 1,
        })
    } else {
        None
    }
}

/// What the tell of a term's variable rests on: with the number just beyond the told bound the sum of the ends is beyond the limit.
fn term_need(kernel: &Kernel, b: &BoxOf, how: Comparison, sought: Tell, own: usize) -> Option<Need>
    requires kernel { IsKernel (length b.now) kernel.now }
    requires literal { how.lit.var < length b.now }
{
    let is_true = value_of(how.lit, b)?;
    let coeff = coefficient(kernel, own);
    let beyond = match sought.side {
        Side::Low => sought.bound.wrapping_sub(1),
        Side::High => sought.bound.wrapping_add(1),
    };
    let term = coeff.wrapping_mul(beyond);
    let ends = ends_but(kernel, b, own);
    let above = ends
        .least
        .wrapping_add(term)
        .wrapping_sub(how.limit)
        .wrapping_sub(1);
    let below = how.limit.wrapping_sub(ends.greatest).wrapping_sub(term);
    if is_true && (coeff > 0) == (sought.side == Side::High) {
        Some(Need {
            own,
            is_least: true,
            slack: above,
        })
    } else if is_true {
        Some(Need {
            own,
            is_least: false,
            slack: below.wrapping_sub(1),
        })
    } else if !how.is_equation {
        Some(Need {
            own,
            is_least: false,
            slack: below,
        })
    } else {
        None
    }
}

/// What a tell of a sum rests on, where that is known.
fn need_of(kernel: &Kernel, b: &BoxOf, sought: Tell) -> Option<Need>
    requires { IsKernel (length b.now) kernel.now }
{
    let how = comparison_of(kernel)?;
    if how.lit.var == sought.var {
        return literal_need(kernel, b, how, sought);
    }
    let own = term_of(kernel, b, sought.var)?;
    if how.lit.var >= b.len() {
        return None;
    }
    term_need(kernel, b, how, sought, own)
}

/// How much less tight the sum of the ends gets, where that of a term is as in the space.
fn cost_of(need: Need, coeff: i64, v: u32, space: &BoxOf, past: &BoxOf) -> i64
    requires space { v < length space.now }
    requires past { v < length past.now }
{
    let rise = past.low(v).wrapping_sub(space.low(v));
    let fall = space.high(v).wrapping_sub(past.high(v));
    let moved = if need.is_least == (coeff > 0) {
        rise
    } else {
        fall
    };
    coeff.wrapping_abs().wrapping_mul(moved)
}

/// Widens the end of a term that isn't needed, and as far as the slack goes the whole of the other. What is left of the slack.
fn widen_whole(kernel: &Kernel, need: Need, place: usize, space: &BoxOf, past: &mut BoxOf) -> i64
    requires kernel { IsKernel (length space.now) kernel.now }
    requires same_count { length past.old ≡ length space.now }
    requires place { place < length (vars_of kernel.now) }
    ensures { length past.new ≡ length past.old }
{
    let v = kernel.var_at(place);
    let coeff = coefficient(kernel, place);
    let (low, high) = (past.low(v), past.high(v));
    let (widest_low, widest_high) = (space.low(v), space.high(v));
    let cost = cost_of(need, coeff, v, space, past);
    if place == need.own || (0 <= cost && cost <= need.slack) {
        put_if_bounds(past, v, widest_low, widest_high);
        return if place == need.own {
            need.slack
        } else {
            need.slack.wrapping_sub(cost)
        };
    }
    if need.is_least == (coeff > 0) {
        put_if_bounds(past, v, low, widest_high);
    } else {
        put_if_bounds(past, v, widest_low, high);
    }
    need.slack
}

/// Widens the end of a term as far as the slack goes. What is left of it.
fn widen_some(kernel: &Kernel, need: Need, place: usize, space: &BoxOf, past: &mut BoxOf) -> i64
    requires kernel { IsKernel (length space.now) kernel.now }
    requires same_count { length past.old ≡ length space.now }
    requires place { place < length (vars_of kernel.now) }
    ensures { length past.new ≡ length past.old }
{
    let v = kernel.var_at(place);
    let coeff = coefficient(kernel, place);
    let weight = coeff.wrapping_abs();
    if place == need.own || weight < 1 || need.slack < weight {
        return need.slack;
    }
    if cost_of(need, coeff, v, space, past) == 0 {
        return need.slack;
    }
    let steps = need.slack / weight;
    let (low, high) = (past.low(v), past.high(v));
    if need.is_least == (coeff > 0) {
        put_if_bounds(past, v, low.wrapping_sub(steps), high);
    } else {
        put_if_bounds(past, v, low, high.wrapping_add(steps));
    }
    need.slack.wrapping_sub(steps.wrapping_mul(weight))
}

/// Widens the bounds of a sum's variables as far as its tell of the literal lets, by its slack. Whether that is known.
pub(crate) fn weaken_sum(kernel: &Kernel, space: &BoxOf, past: &mut BoxOf, sought: Tell) -> bool
    requires kernel { IsKernel (length space.now) kernel.now }
    requires same_count { length past.old ≡ length space.now }
    ensures { length past.new ≡ length past.old }
{
    let Some(need) = need_of(kernel, past, sought) else {
        return false;
    };
    let need = widen_wholes(kernel, need, space, past);
    widen_somes(kernel, need, space, past);
    true
}

/// Widens the ends of all terms that needn't be as they are.
fn widen_wholes(kernel: &Kernel, need: Need, space: &BoxOf, past: &mut BoxOf) -> Need
    requires kernel { IsKernel (length space.now) kernel.now }
    requires same_count { length past.old ≡ length space.now }
    ensures { length past.new ≡ length past.old }
{
    let mut need = need;
    for place in 1..kernel.var_count() {
        need.slack = widen_whole(kernel, need, place, space, past);
    }
    need
}

/// Widens the others by what is left of the slack.
fn widen_somes(kernel: &Kernel, need: Need, space: &BoxOf, past: &mut BoxOf)
    requires kernel { IsKernel (length space.now) kernel.now }
    requires same_count { length past.old ≡ length space.now }
    ensures { length past.new ≡ length past.old }
{
    let mut need = need;
    for place in 1..kernel.var_count() {
        need.slack = widen_some(kernel, need, place, space, past);
    }
}
