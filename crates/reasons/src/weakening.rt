//! A reason that a kernel gives is weakened: bounds that its tell doesn't need get as wide as in the space. Nothing here is relied
//! on: whoever uses the reason looks whether the kernel tells the literal there.

ghost use Rattle.std.specs.Prelude.{◌≡◌, ◌<◌, length};
ghost use Rattle.guarded_tell.specs.Kernels.{IsKernel};

use crate::crowds::weaken_crowd;
use crate::elements::weaken_element;
use crate::halls::weaken_hall;
use crate::past::put_if_bounds;
use crate::sums::weaken_sum;
use crate::watch::{is_proper_in, is_told};
use guarded_tell::{Kernel, Side, Tell};
use interval::BoxOf;

/// Of so many variables of a kernel it is tried whether the tell needs their bounds.
const MOST_TRIED: usize = 32;

/// Widens bounds of the kernel's variables as far as it tells the literal still. Whether it does: else the box is of no use.
pub(crate) fn weaken(kernel: &Kernel, space: &BoxOf, past: &mut BoxOf, sought: Tell) -> bool
    requires kernel { IsKernel (length space.now) kernel.now }
    requires same_count { length past.old ≡ length space.now }
    ensures { length past.new ≡ length past.old }
{
    // of a clause the space meets what isn't read
    if let Kernel::Clause { .. } = kernel {
        return true;
    }
    if weaken_by_kind(kernel, space, past, sought) {
        return is_proper_in(kernel, past) && is_told(kernel, past, sought);
    }
    if !is_proper_in(kernel, past) || !is_told(kernel, past, sought) {
        return false;
    }
    widen_each(kernel, space, past, sought);
    true
}

/// Widens bounds by what is known of the kernel's kind. Whether that is so.
fn weaken_by_kind(kernel: &Kernel, space: &BoxOf, past: &mut BoxOf, sought: Tell) -> bool
    requires kernel { IsKernel (length space.now) kernel.now }
    requires same_count { length past.old ≡ length space.now }
    ensures { length past.new ≡ length past.old }
{
    match kernel {
        Kernel::Element { .. } => weaken_element(kernel, space, past, sought),
        Kernel::AllDiff { xs } => weaken_hall(xs.as_slice(), space, past, sought),
        Kernel::Cumulative { .. } => weaken_crowd(kernel, space, past, sought),
        _ => weaken_sum(kernel, space, past, sought),
    }
}

/// Widens one bound after another, where the kernel tells the literal without it.
fn widen_each(kernel: &Kernel, space: &BoxOf, past: &mut BoxOf, sought: Tell)
    requires kernel { IsKernel (length space.now) kernel.now }
    requires same_count { length past.old ≡ length space.now }
    ensures { length past.new ≡ length past.old }
{
    for place in 0..kernel.var_count().min(MOST_TRIED) {
        widen_at(kernel, space, past, sought, kernel.var_at(place));
    }
}

/// Whether both bounds of a variable can be as in the space: the kernel tells the literal then. They are, if so.
fn is_needless(kernel: &Kernel, space: &BoxOf, past: &mut BoxOf, sought: Tell, v: u32) -> bool
    requires kernel { IsKernel (length space.now) kernel.now }
    requires same_count { length past.old ≡ length space.now }
    requires variable { v < length space.now }
    ensures { length past.new ≡ length past.old }
{
    let (low, high) = (past.low(v), past.high(v));
    put_if_bounds(past, v, space.low(v), space.high(v));
    if is_proper_in(kernel, past) && is_told(kernel, past, sought) {
        return true;
    }
    put_if_bounds(past, v, low, high);
    false
}

/// Widens the bounds of a variable, both where they aren't needed, else each.
fn widen_at(kernel: &Kernel, space: &BoxOf, past: &mut BoxOf, sought: Tell, v: u32)
    requires kernel { IsKernel (length space.now) kernel.now }
    requires same_count { length past.old ≡ length space.now }
    requires variable { v < length space.now }
    ensures { length past.new ≡ length past.old }
{
    if is_wider(past, v, Side::Low, space.low(v)) && is_wider(past, v, Side::High, space.high(v)) {
        return;
    }
    if is_needless(kernel, space, past, sought, v) {
        return;
    }
    widen(kernel, space, past, sought, v, Side::Low);
    widen(kernel, space, past, sought, v, Side::High);
}

/// Widens one bound of a variable to that of the space, or else to the number of the literal, where the kernel tells the literal
/// then.
fn widen(kernel: &Kernel, space: &BoxOf, past: &mut BoxOf, sought: Tell, v: u32, side: Side)
    requires kernel { IsKernel (length space.now) kernel.now }
    requires same_count { length past.old ≡ length space.now }
    requires variable { v < length space.now }
    ensures { length past.new ≡ length past.old }
{
    let wide = match side {
        Side::Low => space.low(v),
        Side::High => space.high(v),
    };
    if widen_to(kernel, past, sought, v, side, wide) {
        return;
    }
    widen_to(kernel, past, sought, v, side, sought.bound);
}

/// Whether the bound of a variable is wider than the number.
fn is_wider(past: &BoxOf, v: u32, side: Side, wide: i64) -> bool
    requires { v < length past.now }
{
    match side {
        Side::Low => past.low(v) <= wide,
        Side::High => wide <= past.high(v),
    }
}

/// Widens one bound of a variable to a number, if the kernel tells the literal then. Whether it is done, or was as wide.
fn widen_to(kernel: &Kernel, past: &mut BoxOf, sought: Tell, v: u32, side: Side, wide: i64) -> bool
    requires kernel { IsKernel (length past.old) kernel.now }
    requires variable { v < length past.old }
    ensures { length past.new ≡ length past.old }
{
    if is_wider(past, v, side, wide) {
        return true;
    }
    let (low, high) = (past.low(v), past.high(v));
    match side {
        Side::Low => put_if_bounds(past, v, wide, high),
        Side::High => put_if_bounds(past, v, low, wide),
    }
    if is_proper_in(kernel, past) && is_told(kernel, past, sought) {
        return true;
    }
    put_if_bounds(past, v, low, high);
    false
}
