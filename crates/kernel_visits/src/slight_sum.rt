//! The tells of sums with slight coefficients.

ghost use Rattle.std.specs.Prelude.{◌≡◌, ◌≤◌, ◌∷◌, true, length, sum_by, unsigned_abs, MatchOption, IfSome};
ghost use Rattle.std.specs.List.{All};
ghost use Rattle.guarded_tell.specs.Words.{AreVariables, IsProperIn, Keeps};
ghost use Rattle.guarded_tell.specs.Words as words;
ghost use Rattle.guarded_tell.specs.Hearing.{MayHearAll, HearsAll};
ghost use Rattle.sum_tells.specs.Linear.{at_most_tells, IsLinear};
ghost use Rattle.sum_tells.specs.Equality.{eq_tells};
ghost use Rattle.tell_laws.specs.Narrowing.{narrowing};
ghost use Rattle.kernel_visits.specs.Narrowing.{narrowing_tells};
ghost use Rattle.guarded_tell.specs.Kernels.{vars_of, IsKernel};
ghost use Rattle.small_sums.specs.Short.{slight_limit};
ghost use Rattle.guarded_tell.specs.declared.kernel.Kernel.{Kernel};
ghost use Rattle.kernel_visits.specs.Shapes.{IsSlightSum};
ghost use Rattle.kernel_visits.specs.Rests.{IsRest};

use crate::quiet::{Hint, are_two_open};
use crate::resting::Rest;
use crate::settled::{at_most_sum_rest, equation_sum_rest};
use crate::sole::is_sole_given;
use guarded_tell::{Hear, Kernel, Lit};
use interval::{BoxOf, law_clamp_order, law_quotient_order};
use short_tells::{narrow_short_at_most, narrow_short_equation};
use small_sums::{is_whole_equation_quiet, leaves_room_on_both_sides, slight_sums};
use sum_tells::Extended;
use tells::stands_false;

/// Gives the tells of a sum with slight coefficients that narrow the box to `h`, and says how long it needs no visit, or gives
/// none and says nothing. The terms of an equation whose last term is kept apart aren't told here, nor are those of one that must
/// not hold, but for the term at the hint's place.
#[tactic(auto, unfolding(guarded_tell::specs::Kernels::tells, guarded_tell::specs::Kernels::vars_of, guarded_tell::specs::Kernels::HasNumbers))]
pub fn give_slight_sum<H: Hear>(k: &Kernel, b: &BoxOf, hint: &mut Hint, h: &mut H) -> Option<Rest>
    requires kernel { IsKernel (length b.now) k.now }
    requires slight { IsSlightSum k.now }
    requires proper { IsProperIn (vars_of k.now) b.now }
    requires hearer { MayHearAll H.can_hear H.hears h.old (narrowing_tells k.now b.now) }
    ensures given { MatchOption result (h.new ≡ h.old) (λ rest. HearsAll H.hears h.old (narrowing_tells k.now b.now) h.new) }
    ensures rest { IfSome result (IsRest k.now b.now) }
{
    match k {
        Kernel::Le {
            lit,
            coeffs,
            vars,
            limit,
        } => Some(give_slight_at_most(*lit, coeffs.as_slice(), vars.as_slice(), *limit, b, h)),
        Kernel::Eq {
            lit,
            coeffs,
            vars,
            limit,
        } => give_slight_equation(*lit, coeffs, vars, *limit, b, hint, h),
        _ => None,
    }
}

/// The same of an inequality.
fn give_slight_at_most<H: Hear>(
    lit: Lit,
    coeffs: &[i64],
    vars: &[u32],
    limit: i64,
    b: &BoxOf,
    h: &mut H,
) -> Rest
    requires linear { IsLinear coeffs.now vars.now limit }
    requires variables { AreVariables (length b.now) (lit.var ∷ vars.now) }
    requires proper { IsProperIn (lit.var ∷ vars.now) b.now }
    requires slight { sum_by unsigned_abs coeffs.now ≤ slight_limit }
    requires hearer { MayHearAll H.can_hear H.hears h.old (narrowing b.now (at_most_tells lit coeffs.now vars.now limit b.now)) }
    ensures heard { HearsAll H.hears h.old (narrowing b.now (at_most_tells lit coeffs.now vars.now limit b.now)) h.new }
    ensures rest { (k : Kernel) → IsKernel (length b.now) k → k ≡ Kernel.Le lit coeffs.now vars.now limit → IsRest k b.now result }
{
    law_quotient_order();
    law_clamp_order();
    let sums = slight_sums(coeffs, vars, b);
    narrow_short_at_most(lit, coeffs, vars, limit, sums, b, h);
    at_most_sum_rest(lit, limit, sums, b)
}

/// The same of an equation.
fn give_slight_equation<H: Hear>(
    lit: Lit,
    coeffs: &Extended<i64>,
    vars: &Extended<u32>,
    limit: i64,
    b: &BoxOf,
    hint: &mut Hint,
    h: &mut H,
) -> Option<Rest>
    requires linear { IsLinear coeffs.now vars.now limit }
    requires variables { AreVariables (length b.now) (lit.var ∷ vars.now) }
    requires proper { IsProperIn (lit.var ∷ vars.now) b.now }
    requires slight { sum_by unsigned_abs coeffs.now ≤ slight_limit }
    requires hearer { MayHearAll H.can_hear H.hears h.old (narrowing b.now (eq_tells lit coeffs.now vars.now limit b.now)) }
    ensures given { MatchOption result (h.new ≡ h.old) (λ rest. HearsAll H.hears h.old (narrowing b.now (eq_tells lit coeffs.now vars.now limit b.now)) h.new) }
    ensures rest { IfSome result (λ rest. (k : Kernel) → IsKernel (length b.now) k → k ≡ Kernel.Eq lit coeffs.now vars.now limit → IsRest k b.now rest) }
{
    if let (Some(coeffs), Some(vars)) = (coeffs.as_slice(), vars.as_slice()) {
        give_whole_slight_equation(lit, coeffs, vars, limit, b, hint, h)
    } else if is_whole_equation_quiet(lit, coeffs, vars, limit, b) {
        Some(Rest::Awake)
    } else {
        None
    }
}

/// The same of an equation whose terms are all in one list.
fn give_whole_slight_equation<H: Hear>(
    lit: Lit,
    coeffs: &[i64],
    vars: &[u32],
    limit: i64,
    b: &BoxOf,
    hint: &mut Hint,
    h: &mut H,
) -> Option<Rest>
    requires linear { IsLinear coeffs.now vars.now limit }
    requires variables { AreVariables (length b.now) (lit.var ∷ vars.now) }
    requires proper { IsProperIn (lit.var ∷ vars.now) b.now }
    requires slight { sum_by unsigned_abs coeffs.now ≤ slight_limit }
    requires hearer { MayHearAll H.can_hear H.hears h.old (narrowing b.now (eq_tells lit coeffs.now vars.now limit b.now)) }
    ensures given { MatchOption result (h.new ≡ h.old) (λ rest. HearsAll H.hears h.old (narrowing b.now (eq_tells lit coeffs.now vars.now limit b.now)) h.new) }
    ensures rest { IfSome result (λ rest. (k : Kernel) → IsKernel (length b.now) k → k ≡ Kernel.Eq lit coeffs.now vars.now limit → IsRest k b.now rest) }
{
    law_quotient_order();
    law_clamp_order();
    if stands_false(lit, b) {
        return give_slight_inequation(lit, coeffs, vars, limit, b, hint, h);
    }
    let sums = slight_sums(coeffs, vars, b);
    narrow_short_equation(lit, coeffs, vars, limit, sums, b, h);
    Some(equation_sum_rest(lit, limit, sums, b))
}

/// The same of such an equation that must not hold. The one term that isn't fixed is told where the hint's place is its own and
/// its coefficient is 1 or -1.
fn give_slight_inequation<H: Hear>(
    lit: Lit,
    coeffs: &[i64],
    vars: &[u32],
    limit: i64,
    b: &BoxOf,
    hint: &mut Hint,
    h: &mut H,
) -> Option<Rest>
    requires linear { IsLinear coeffs.now vars.now limit }
    requires variables { AreVariables (length b.now) (lit.var ∷ vars.now) }
    requires proper { IsProperIn (lit.var ∷ vars.now) b.now }
    requires slight { sum_by unsigned_abs coeffs.now ≤ slight_limit }
    requires out { words.is_out lit b.now ≡ true }
    requires hearer { MayHearAll H.can_hear H.hears h.old (narrowing b.now (eq_tells lit coeffs.now vars.now limit b.now)) }
    ensures given { MatchOption result (h.new ≡ h.old) (λ rest. HearsAll H.hears h.old (narrowing b.now (eq_tells lit coeffs.now vars.now limit b.now)) h.new) }
    ensures rest { IfSome result (λ rest. (k : Kernel) → IsKernel (length b.now) k → k ≡ Kernel.Eq lit coeffs.now vars.now limit → IsRest k b.now rest) }
{
    match slight_inequation_rest(lit, coeffs, vars, limit, b, hint) {
        Some(rest) => Some(rest),
        None => give_sole(lit, coeffs, vars, limit, *hint, b, h),
    }
}

/// The same where the hint's place is that of the one term that isn't fixed.
fn give_sole<H: Hear>(
    lit: Lit,
    coeffs: &[i64],
    vars: &[u32],
    limit: i64,
    hint: Hint,
    b: &BoxOf,
    h: &mut H,
) -> Option<Rest>
    requires linear { IsLinear coeffs.now vars.now limit }
    requires variables { AreVariables (length b.now) (lit.var ∷ vars.now) }
    requires proper { IsProperIn (lit.var ∷ vars.now) b.now }
    requires slight { sum_by unsigned_abs coeffs.now ≤ slight_limit }
    requires out { words.is_out lit b.now ≡ true }
    requires hearer { MayHearAll H.can_hear H.hears h.old (narrowing b.now (eq_tells lit coeffs.now vars.now limit b.now)) }
    ensures given { MatchOption result (h.new ≡ h.old) (λ rest. HearsAll H.hears h.old (narrowing b.now (eq_tells lit coeffs.now vars.now limit b.now)) h.new) }
    ensures rest { IfSome result (λ rest. rest ≡ Rest.Awake) }
{
    let place = hint.first as usize;
    if place < coeffs.len() && is_sole_given(lit, coeffs, vars, limit, place, b, h) {
        Some(Rest::Awake)
    } else {
        None
    }
}

/// How long an equation that must not hold needs no visit, where two open terms or its sums say that it narrows nothing. What
/// the hint remembers is looked at first.
fn slight_inequation_rest(
    lit: Lit,
    coeffs: &[i64],
    vars: &[u32],
    limit: i64,
    b: &BoxOf,
    hint: &mut Hint,
) -> Option<Rest>
    requires linear { IsLinear coeffs.now vars.now limit }
    requires variables { AreVariables (length b.now) (lit.var ∷ vars.now) }
    requires proper { IsProperIn (lit.var ∷ vars.now) b.now }
    requires slight { sum_by unsigned_abs coeffs.now ≤ slight_limit }
    requires out { words.is_out lit b.now ≡ true }
    ensures quiet { IfSome result (λ rest. All (Keeps b.now) (eq_tells lit coeffs.now vars.now limit b.now)) }
    ensures rest { IfSome result (λ rest. (k : Kernel) → IsKernel (length b.now) k → k ≡ Kernel.Eq lit coeffs.now vars.now limit → IsRest k b.now rest) }
{
    law_quotient_order();
    law_clamp_order();
    if are_two_open(coeffs, vars, b, hint) {
        return Some(Rest::UntilFixed);
    }
    let sums = slight_sums(coeffs, vars, b);
    if leaves_room_on_both_sides(lit, limit, sums, b) {
        Some(equation_sum_rest(lit, limit, sums, b))
    } else {
        None
    }
}
