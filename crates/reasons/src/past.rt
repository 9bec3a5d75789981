//! The box before a bound was put, as the log says. Nothing here is relied on: what is made of it is looked at.

ghost use Rattle.std.specs.Prelude.{◌≡◌, ◌<◌, length, IfSome};
ghost use Rattle.guarded_tell.specs.Kernels.{IsKernel};

use crate::ranges::is_bound;
use guarded_tell::{Kernel, Side, Tell};
use interval::BoxOf;
use literals::{Literals, is_as_tight};
use trailed_box::{Event, Log};

/// Whether the literal is of an upper bound.
fn is_high(t: Tell) -> bool {
    t.side == Side::High
}

/// The bound of an event as a literal.
pub fn told_by(event: Event) -> Tell {
    Tell {
        var: event.var,
        side: if event.is_high { Side::High } else { Side::Low },
        bound: event.bound,
    }
}

/// Puts bounds of a variable, if they can be bounds.
pub(crate) fn put_if_bounds(past: &mut BoxOf, v: u32, low: i64, high: i64)
    requires { v < length past.old }
    ensures { length past.new ≡ length past.old }
{
    if is_bound(low) && is_bound(high) {
        past.put(v, low, high);
    }
}

/// Puts the bounds that the kernel's variables had before the event at a place.
pub(crate) fn recall(kernel: &Kernel, space: &BoxOf, log: &Log, place: usize, past: &mut BoxOf)
    requires kernel { IsKernel (length space.now) kernel.now }
    requires same_count { length past.old ≡ length space.now }
    ensures { length past.new ≡ length past.old }
{
    for i in 0..kernel.var_count() {
        let v = kernel.var_at(i);
        let low = log.before(v, false, place).unwrap_or(space.low(v));
        let high = log.before(v, true, place).unwrap_or(space.high(v));
        put_if_bounds(past, v, low, high);
    }
}

/// The place of the event just before the one at a place, if it has the same cause.
pub(crate) fn same_before(log: &Log, place: usize) -> Option<usize> {
    let before = place.checked_sub(1)?;
    if log.at(before)?.cause == log.at(place)?.cause {
        Some(before)
    } else {
        None
    }
}

/// The place in the log of the event that first met the literal, if one did.
pub fn place_met(log: &Log, t: Tell) -> Option<usize> {
    log.place_of(t.var, is_high(t), t.bound)
}

/// Whether the log has a bound as tight as the literal among its first events, so many of them, of which the last is of its side.
fn is_met_before(log: &Log, t: Tell, count: u32) -> bool {
    let Some(place) = (count as usize).checked_sub(1) else {
        return false;
    };
    match log.at(place) {
        None => false,
        Some(event) => is_as_tight(told_by(event), t),
    }
}

/// The place in the list of the literal that the event was the first to meet, if there is one.
pub fn met_by(log: &Log, event: Event, literals: &Literals) -> Option<usize>
    ensures { IfSome result (λ at. at < length literals.now) }
{
    let told = told_by(event);
    let at = literals.place_of(told)?;
    let t = literals.at(at);
    if is_as_tight(told, t) && !is_met_before(log, t, event.earlier) {
        Some(at)
    } else {
        None
    }
}

/// Whether at most one literal was met by an event from a place on.
pub fn is_one_since(log: &Log, from: usize, literals: &Literals) -> bool {
    let mut is_one = false;
    for t in literals.as_slice() {
        if let Some(place) = place_met(log, *t)
            && place >= from
        {
            if is_one {
                return false;
            }
            is_one = true;
        }
    }
    true
}
