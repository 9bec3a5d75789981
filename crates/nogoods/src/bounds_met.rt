//! The literals of a reason: those that the whole space doesn't meet.

ghost use Rattle.std.specs.Prelude.{◌≡◌, ◌<◌, false, length, OnOk};
ghost use Rattle.std.specs.List.{All};
ghost use Rattle.interval.specs.Limits.{IsBound};
ghost use Rattle.interval.specs.Boxes.{Bounds, low_of, high_of, IsInside};
ghost use Rattle.guarded_tell.specs.Words.{Keeps, Low, High};
ghost use Rattle.guarded_tell.specs.Kernels.{IsKernel};
ghost use Rattle.literals.specs.Literals.{IsPlaced, Meets};
ghost use Rattle.nogoods.specs.Nogoods.{IsMetPair, AreMetBounds, AreMetBut};

use guarded_tell::{Kernel, Side, Tell};
use interval::BoxOf;
use literals::{Literals, is_met};
use memory::NoMemory;

/// Adds a literal, unless the whole space meets it.
pub(crate) fn meet_unless(t: Tell, space: &BoxOf, literals: &mut Literals) -> Result<(), NoMemory>
    requires placed { IsPlaced (length space.now) t }
    requires all_placed { All (IsPlaced (length space.now)) literals.old }
    ensures met { OnOk result ((p : Bounds) → IsInside p space.now → Meets p literals.new → Meets p literals.old × Keeps p t) }
    ensures all_placed { OnOk result (All (IsPlaced (length space.now)) literals.new) }
{
    if is_met(t, space) {
        return Ok(());
    }
    literals.meet(t)
}

/// The literal of a variable's lower bound in the box.
pub(crate) fn low_at(v: u32, b: &BoxOf) -> Tell
    requires { v < length b.now }
    ensures value { result ≡ record { var = v; side = Low; bound = low_of b.now v } }
    ensures in_range { IsBound result.bound }
{
    Tell {
        var: v,
        side: Side::Low,
        bound: b.low(v),
    }
}

/// The literal of its upper bound there.
pub(crate) fn high_at(v: u32, b: &BoxOf) -> Tell
    requires { v < length b.now }
    ensures value { result ≡ record { var = v; side = High; bound = high_of b.now v } }
    ensures in_range { IsBound result.bound }
{
    Tell {
        var: v,
        side: Side::High,
        bound: b.high(v),
    }
}

/// Adds the bounds of a variable in the box.
pub(crate) fn meet_pair(
    v: u32,
    b: &BoxOf,
    space: &BoxOf,
    literals: &mut Literals,
) -> Result<(), NoMemory>
    requires variable { v < length space.now }
    requires same_count { length b.now ≡ length space.now }
    requires placed { All (IsPlaced (length space.now)) literals.old }
    ensures met { OnOk result (IsMetPair space.now b.now v literals.old literals.new) }
    ensures placed { OnOk result (All (IsPlaced (length space.now)) literals.new) }
{
    meet_unless(low_at(v, b), space, literals)?;
    meet_unless(high_at(v, b), space, literals)
}

/// Adds the bounds of the kernel's variables in the box.
pub(crate) fn meet_bounds(
    kernel: &Kernel,
    b: &BoxOf,
    space: &BoxOf,
    literals: &mut Literals,
) -> Result<(), NoMemory>
    requires kernel { IsKernel (length space.now) kernel.now }
    requires same_count { length b.now ≡ length space.now }
    requires placed { All (IsPlaced (length space.now)) literals.old }
    ensures met { OnOk result (AreMetBounds space.now b.now kernel.now literals.old literals.new) }
    ensures placed { OnOk result (All (IsPlaced (length space.now)) literals.new) }
{
    for place in 0..kernel.var_count() {
        meet_pair(kernel.var_at(place), b, space, literals)?;
    }
    Ok(())
}

/// Adds a literal of a list, unless it is the one that is left out.
fn meet_other(t: Tell, is_own: bool, space: &BoxOf, literals: &mut Literals) -> Result<(), NoMemory>
    requires placed { IsPlaced (length space.now) t }
    requires all_placed { All (IsPlaced (length space.now)) literals.old }
    ensures others { OnOk result ((p : Bounds) → IsInside p space.now → Meets p literals.new → Meets p literals.old) }
    ensures met { OnOk result ((p : Bounds) → IsInside p space.now → Meets p literals.new → is_own ≡ false → Keeps p t) }
    ensures all_placed { OnOk result (All (IsPlaced (length space.now)) literals.new) }
{
    if is_own {
        return Ok(());
    }
    meet_unless(t, space, literals)
}

/// Adds the literals of a list but the one at a place.
pub(crate) fn meet_others(
    reason: &[Tell],
    own: usize,
    space: &BoxOf,
    literals: &mut Literals,
) -> Result<(), NoMemory>
    requires reason { All (IsPlaced (length space.now)) reason.now }
    requires placed { All (IsPlaced (length space.now)) literals.old }
    ensures met { OnOk result (AreMetBut space.now reason.now own literals.old literals.new) }
    ensures placed { OnOk result (All (IsPlaced (length space.now)) literals.new) }
{
    for place in 0..reason.len() {
        meet_other(reason[place], place == own, space, literals)?;
    }
    Ok(())
}
