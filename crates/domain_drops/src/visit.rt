//! The drops of any kernel.

ghost use Rattle.std.specs.Prelude.{length};
ghost use Rattle.guarded_tell.specs.Words.{IsProperIn};
ghost use Rattle.guarded_tell.specs.Kernels.{vars_of, IsKernel};
ghost use Rattle.bit_domain.specs.Mixes.{hull};
ghost use Rattle.domain_drops.specs.Hearing.{MayHearDrops, HearsDrops};
ghost use Rattle.domain_drops.specs.Drops.{drops};

use crate::HearDrop;
use crate::equation::drop_where_unequal;
use crate::membership::drop_against_set;
use crate::place::drop_places;
use bit_domain::MixOf;
use guarded_tell::Kernel;

/// Gives the drops of the kernel on the mix to `h`, each once and in order. It takes no memory.
#[tactic(auto, unfolding(crate::specs::Drops::drops, crate::specs::Removals::removals, guarded_tell::specs::Kernels::vars_of, guarded_tell::specs::Kernels::HasNumbers))]
pub fn visit_drops<H: HearDrop>(k: &Kernel, m: &MixOf, h: &mut H)
    requires kernel { IsKernel (length m.now) k.now }
    requires proper { IsProperIn (vars_of k.now) (hull m.now) }
    requires hearer { MayHearDrops H.can_hear H.hears h.old (drops k.now m.now) }
    ensures { HearsDrops H.hears h.old (drops k.now m.now) h.new }
{
    match k {
        Kernel::Eq {
            lit,
            coeffs,
            vars,
            limit,
        } => drop_where_unequal(*lit, coeffs, vars, *limit, m, h),
        Kernel::Element { x, entries, c } => drop_places(*x, entries.as_slice(), *c, m, h),
        Kernel::InSet { lit, x, ranges } => drop_against_set(*lit, *x, ranges.as_slice(), m, h),
        _ => {}
    }
}
