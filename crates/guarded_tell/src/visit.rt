//! The tells of any kernel.

ghost use Rattle.std.specs.Prelude.{length};
ghost use Rattle.guarded_tell.specs.Words.{IsProperIn};
ghost use Rattle.guarded_tell.specs.Hearing.{MayHearAll, HearsAll};
ghost use Rattle.guarded_tell.specs.Kernels.{vars_of, tells, IsKernel};

use crate::{Hear, Kernel};
use arithmetic_tells::{visit_abs, visit_div, visit_mod, visit_times};
use clause_tells::visit_clause;
use element_tells::visit_element;
use extreme_tells::{visit_max, visit_min};
use global_tells::{visit_all_different, visit_cumulative};
use interval::BoxOf;
use set_tells::visit_in_set;
use sum_tells::{visit_equation, visit_le};

/// Gives the tells of the kernel on the box to `h`, each once and in order. It takes no memory.
#[tactic(auto, unfolding(crate::specs::Kernels::tells, crate::specs::Kernels::vars_of, crate::specs::Kernels::HasNumbers))]
pub fn visit_tells<H: Hear>(k: &Kernel, b: &BoxOf, h: &mut H)
    requires kernel { IsKernel (length b.now) k.now }
    requires proper { IsProperIn (vars_of k.now) b.now }
    requires hearer { MayHearAll H.can_hear H.hears h.old (tells k.now b.now) }
    ensures { HearsAll H.hears h.old (tells k.now b.now) h.new }
{
    match k {
        Kernel::Le {
            lit,
            coeffs,
            vars,
            limit,
        } => visit_le(*lit, coeffs.as_slice(), vars.as_slice(), *limit, b, h),
        Kernel::Eq {
            lit,
            coeffs,
            vars,
            limit,
        } => visit_equation(*lit, coeffs, vars, *limit, b, h),
        Kernel::Times { x, y, z } => visit_times(*x, *y, *z, b, h),
        Kernel::Div { x, y, z } => visit_div(*x, *y, *z, b, h),
        Kernel::Mod { x, y, z } => visit_mod(*x, *y, *z, b, h),
        Kernel::Abs { x, y } => visit_abs(*x, *y, b, h),
        Kernel::Max { m, xs } => visit_max(*m, xs.as_slice(), b, h),
        Kernel::Min { m, xs } => visit_min(*m, xs.as_slice(), b, h),
        Kernel::Clause { lits } => visit_clause(lits, b, h),
        Kernel::Element { x, entries, c } => visit_element(*x, entries.as_slice(), *c, b, h),
        Kernel::InSet { lit, x, ranges } => visit_in_set(*lit, *x, ranges.as_slice(), b, h),
        Kernel::AllDiff { xs } => visit_all_different(xs.as_slice(), b, h),
        Kernel::Cumulative {
            starts,
            durations,
            usages,
            limit,
        } => visit_cumulative(
            starts.as_slice(),
            durations.as_slice(),
            usages.as_slice(),
            *limit,
            b,
            h,
        ),
    }
}
