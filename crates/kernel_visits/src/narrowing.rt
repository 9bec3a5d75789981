//! The tells that narrow a box.

ghost use Rattle.std.specs.Prelude.{◌≡◌, ◌≢◌, ◌<◌, pos, length, [], ◌∷◌};
ghost use Rattle.std.specs.Bool.{OnTrue, OnFalse};
ghost use Rattle.std.specs.List.{All};
ghost use Rattle.guarded_tell.specs.Words.{IsProperIn, Keeps};
ghost use Rattle.guarded_tell.specs.Hearing.{MayHearAll, HearsAll};
ghost use Rattle.sum_tells.specs.Linear.{product_at_most, product_at_least};
ghost use Rattle.guarded_tell.specs.Kernels.{vars_of, tells, IsKernel};
ghost use Rattle.kernel_visits.specs.Shapes.{IsShapeOf, IsSlightSum};
ghost use Rattle.tell_laws.specs.Narrowing.{narrowing};
ghost use Rattle.kernel_visits.specs.Narrowing.{narrowing_tells};
ghost use Rattle.kernel_visits.specs.Rests.{IsRest};

use crate::quiet::Hint;
use crate::resting::{Rest, listed_rest, seen_rest};
use crate::shape::Shape;
use crate::slight_sum::give_slight_sum;
use arithmetic_tells::narrow_times;
use extreme_tells::{is_max_quiet, is_min_quiet};
use global_tells::{is_all_different_quiet, is_cumulative_quiet};
use guarded_tell::{Hear, Kernel, Tell, law_tell_place, visit_tells};
use interval::{BoxOf, law_clamp_order, law_quotient_order};
use short_tells::{narrow_at_most, narrow_equation};
use tell_laws::tell_narrowing;

/// Gives the tells of the kernel that narrow the box to `h`, each once and in order, and answers how long the kernel needs
/// no visit where there are none. It takes no memory.
pub fn visit_narrowing<H: Hear>(
    k: &Kernel,
    shape: &Shape,
    b: &BoxOf,
    hint: &mut Hint,
    h: &mut H,
) -> Rest
    requires kernel { IsKernel (length b.now) k.now }
    requires shape { IsShapeOf k.now shape.now }
    requires proper { IsProperIn (vars_of k.now) b.now }
    requires hearer { MayHearAll H.can_hear H.hears h.old (narrowing_tells k.now b.now) }
    ensures heard { HearsAll H.hears h.old (narrowing_tells k.now b.now) h.new }
    ensures rest { narrowing_tells k.now b.now ≡ [] → IsRest k.now b.now result }
{
    match seen_rest(k, shape, b) {
        Some(rest) => rest,
        None => visit_unseen(k, shape, b, hint, h),
    }
}

/// The same without a look at what `seen_rest` sees: for a kernel of which it says nothing.
#[inline(always)]
pub fn visit_unseen<H: Hear>(
    k: &Kernel,
    shape: &Shape,
    b: &BoxOf,
    hint: &mut Hint,
    h: &mut H,
) -> Rest
    requires kernel { IsKernel (length b.now) k.now }
    requires shape { IsShapeOf k.now shape.now }
    requires proper { IsProperIn (vars_of k.now) b.now }
    requires hearer { MayHearAll H.can_hear H.hears h.old (narrowing_tells k.now b.now) }
    ensures heard { HearsAll H.hears h.old (narrowing_tells k.now b.now) h.new }
    ensures rest { IsRest k.now b.now result }
{
    match shape {
        Shape::Three { .. }
        | Shape::Product { .. }
        | Shape::Greatest { .. }
        | Shape::Slight
        | Shape::Other => { visit_listed(k, shape, b, hint, h) }
        _ => {
            pass_tells(k, b, h);
            Rest::Awake
        }
    }
}

/// The same of a kernel that is no difference and no clause of two literals or three.
#[tactic(auto, unfolding(crate::specs::Shapes::IsShapeOf))]
#[inline(always)]
fn visit_listed<H: Hear>(k: &Kernel, shape: &Shape, b: &BoxOf, hint: &mut Hint, h: &mut H) -> Rest
    requires kernel { IsKernel (length b.now) k.now }
    requires shape { IsShapeOf k.now shape.now }
    requires proper { IsProperIn (vars_of k.now) b.now }
    requires hearer { MayHearAll H.can_hear H.hears h.old (narrowing_tells k.now b.now) }
    ensures heard { HearsAll H.hears h.old (narrowing_tells k.now b.now) h.new }
    ensures rest { IsRest k.now b.now result }
{
    match shape {
        Shape::Three { .. } => visit_slight(k, b, hint, h),
        Shape::Slight => visit_slight(k, b, hint, h),
        _ => visit_other(k, b, hint, h),
    }
}

/// The same of any kernel.
#[inline(never)]
fn visit_other<H: Hear>(k: &Kernel, b: &BoxOf, hint: &mut Hint, h: &mut H) -> Rest
    requires kernel { IsKernel (length b.now) k.now }
    requires proper { IsProperIn (vars_of k.now) b.now }
    requires hearer { MayHearAll H.can_hear H.hears h.old (narrowing_tells k.now b.now) }
    ensures heard { HearsAll H.hears h.old (narrowing_tells k.now b.now) h.new }
    ensures rest { IsRest k.now b.now result }
{
    match listed_rest(k, b, hint) {
        Some(rest) => rest,
        None => {
            give_tells(k, b, h);
            Rest::Awake
        }
    }
}

/// The same of a sum with slight coefficients.
#[inline(never)]
fn visit_slight<H: Hear>(k: &Kernel, b: &BoxOf, hint: &mut Hint, h: &mut H) -> Rest
    requires kernel { IsKernel (length b.now) k.now }
    requires slight { IsSlightSum k.now }
    requires proper { IsProperIn (vars_of k.now) b.now }
    requires hearer { MayHearAll H.can_hear H.hears h.old (narrowing_tells k.now b.now) }
    ensures heard { HearsAll H.hears h.old (narrowing_tells k.now b.now) h.new }
    ensures rest { IsRest k.now b.now result }
{
    match give_slight_sum(k, b, hint, h) {
        Some(rest) => rest,
        None => {
            pass_tells(k, b, h);
            Rest::Awake
        }
    }
}

/// Gives the tells of any kernel.
fn give_tells<H: Hear>(k: &Kernel, b: &BoxOf, h: &mut H)
    requires kernel { IsKernel (length b.now) k.now }
    requires proper { IsProperIn (vars_of k.now) b.now }
    requires hearer { MayHearAll H.can_hear H.hears h.old (narrowing_tells k.now b.now) }
    ensures { HearsAll H.hears h.old (narrowing_tells k.now b.now) h.new }
{
    if !is_given(k, b, h) {
        pass_tells(k, b, h);
    }
}

/// Gives the tells of a sum that fits 64 bits or of a product, and answers yes; so too where another kernel is seen to narrow
/// nothing. Else it gives none and answers no.
#[tactic(auto, unfolding(guarded_tell::specs::Kernels::tells, guarded_tell::specs::Kernels::vars_of, guarded_tell::specs::Kernels::HasNumbers))]
fn is_given<H: Hear>(k: &Kernel, b: &BoxOf, h: &mut H) -> bool
    requires kernel { IsKernel (length b.now) k.now }
    requires proper { IsProperIn (vars_of k.now) b.now }
    requires hearer { MayHearAll H.can_hear H.hears h.old (narrowing_tells k.now b.now) }
    ensures given { OnTrue result (HearsAll H.hears h.old (narrowing_tells k.now b.now) h.new) }
    ensures left { OnFalse result (h.new ≡ h.old) }
{
    match k {
        Kernel::Le {
            lit,
            coeffs,
            vars,
            limit,
        } => narrow_at_most(*lit, coeffs.as_slice(), vars.as_slice(), *limit, b, h),
        Kernel::Eq {
            lit,
            coeffs,
            vars,
            limit,
        } => narrow_equation(*lit, coeffs, vars, *limit, b, h),
        Kernel::Times { x, y, z } => {
            narrow_times(*x, *y, *z, b, h);
            true
        }
        _ => is_quiet(k, b),
    }
}

/// Whether the kernel is seen to narrow nothing, without its tells being formed.
#[tactic(auto, unfolding(guarded_tell::specs::Kernels::tells, guarded_tell::specs::Kernels::vars_of, guarded_tell::specs::Kernels::HasNumbers))]
fn is_quiet(k: &Kernel, b: &BoxOf) -> bool
    requires kernel { IsKernel (length b.now) k.now }
    requires proper { IsProperIn (vars_of k.now) b.now }
    ensures { OnTrue result (All (Keeps b.now) (tells k.now b.now)) }
{
    match k {
        Kernel::Max { m, xs } => is_max_quiet(*m, xs.as_slice(), b),
        Kernel::Min { m, xs } => is_min_quiet(*m, xs.as_slice(), b),
        Kernel::AllDiff { xs } => is_all_different_quiet(xs.as_slice(), b),
        Kernel::Cumulative {
            starts,
            durations,
            usages,
            limit,
        } => is_cumulative_quiet(
            starts.as_slice(),
            durations.as_slice(),
            usages.as_slice(),
            *limit,
            b,
        ),
        _ => false,
    }
}

/// Passes the kernel's tells that narrow the box on to `h`.
#[inline(never)]
fn pass_tells<H: Hear>(k: &Kernel, b: &BoxOf, h: &mut H)
    requires kernel { IsKernel (length b.now) k.now }
    requires proper { IsProperIn (vars_of k.now) b.now }
    requires hearer { MayHearAll H.can_hear H.hears h.old (narrowing_tells k.now b.now) }
    ensures { HearsAll H.hears h.old (narrowing_tells k.now b.now) h.new }
{
    let mut passing = Passing { b, to: h };
    pass_all(k, &mut passing);
}

/// Has a hearer that passes on hear the kernel's tells on its box.
fn pass_all<H: Hear>(k: &Kernel, passing: &mut Passing<H>)
    requires kernel { IsKernel (length passing.old.b.now) k.now }
    requires proper { IsProperIn (vars_of k.now) passing.old.b.now }
    requires hearer { MayHearAll H.can_hear H.hears passing.old.to.now (narrowing_tells k.now passing.old.b.now) }
    ensures same_hearer { passing.new.to.ghost_name ≡ passing.old.to.ghost_name }
    ensures passed { HearsAll H.hears passing.old.to.now (narrowing_tells k.now passing.old.b.now) passing.new.to.now }
{
    law_tell_place();
    visit_tells(k, passing.b, passing);
}

/// Passes on the tells that narrow a box.
#[derive(Drop)]
struct Passing<'a, 'b, H> {
    b: &'a BoxOf,
    to: &'b mut H,
}

impl<H: Hear> Hear for Passing<'_, '_, H> {
    ghost can_hear = { λ p t. (t.var < length p.b.now) × MayHearAll H.can_hear H.hears p.to.now (narrowing p.b.now (t ∷ [])) };

    ghost hears = { λ p t after. HearsAll H.hears p.to.now (narrowing p.b.now (t ∷ [])) after.to.now × (after.b.now ≡ p.b.now) × (after.to.ghost_name ≡ p.to.ghost_name) };

    fn hear(&mut self, t: Tell) {
        tell_narrowing(t, self.b, self.to);
    }

    fn knows_at_most(&self, var: u32, coeff: i64, room: i128) -> bool {
        is_at_most_kept(var, coeff, room, self.b)
    }

    fn knows_at_least(&self, var: u32, coeff: i64, room: i128) -> bool {
        is_at_least_kept(var, coeff, room, self.b)
    }
}

/// Whether `coeff` times the variable is at most `room` at the bound that makes it greatest: nothing of it is then tighter
/// than the box.
fn is_at_most_kept(var: u32, coeff: i64, room: i128, b: &BoxOf) -> bool
    requires variable { coeff ≢ pos 0 → var < length b.now }
    ensures { OnTrue result (All (Keeps b.now) (product_at_most var coeff room)) }
{
    law_quotient_order();
    law_clamp_order();
    if coeff > 0 {
        coeff as i128 * b.high(var) as i128 <= room
    } else if coeff < 0 {
        coeff as i128 * b.low(var) as i128 <= room
    } else {
        true
    }
}

/// Whether `coeff` times the variable is at least `room` at the bound that makes it least.
fn is_at_least_kept(var: u32, coeff: i64, room: i128, b: &BoxOf) -> bool
    requires variable { coeff ≢ pos 0 → var < length b.now }
    ensures { OnTrue result (All (Keeps b.now) (product_at_least var coeff room)) }
{
    law_quotient_order();
    law_clamp_order();
    if coeff > 0 {
        room <= coeff as i128 * b.low(var) as i128
    } else if coeff < 0 {
        room <= coeff as i128 * b.high(var) as i128
    } else {
        true
    }
}
