//! The laws of drops and of closed mixes. A law does nothing: its contract is what it says.

ghost use Rattle.std.specs.Prelude.{◌≡◌, ◌≢◌, ◌↔◌, ◌<◌, ◌≤◌, ◌+◌, ◌*◌, ℕ, List, length};
ghost use Rattle.std.specs.List.{All, Contains};
ghost use Rattle.interval.specs.Limits.{IsBound, IsNumber, bound_limit, box_limit};
ghost use Rattle.interval.specs.Boxes.{low_of, IsInRange, IsPoint, IsProper};
ghost use Rattle.guarded_tell.specs.declared.kernel.Kernel.{Kernel};
ghost use Rattle.guarded_tell.specs.Words.{AreVariables, IsProperIn, IsInsideIn, point_of};
ghost use Rattle.guarded_tell.specs.Kernels.{vars_of, Holds, IsKernel};
ghost use Rattle.bit_domain.specs.Mixes.{Mix, dom_of, hull, values_of, Has, IsBits, IsMixInRange, IsInsideMix};
ghost use Rattle.domain_drops.specs.Drops.{drops, IsInsideMixIn, AgreeMixIn};
ghost use Rattle.domain_drops.specs.Closed.{weight_of, IsClosedMixUnder, InsideMixOrder};

use bit_domain::{law_hull, law_inside, law_members, law_values};
use guarded_tell::law_point;

/// No drop of a kernel on a mix names a number of a mix that is closed under that kernel and, in the kernel's variables,
/// inside it.
pub fn law_drop()
    ensures { (k : Kernel) (outer inner : Mix) → IsKernel (length outer) k → IsMixInRange outer
        → IsClosedMixUnder k inner → IsInsideMixIn (vars_of k) inner outer
        → All (λ d. ¬ Has (dom_of inner d.0) d.1) (drops k outer) }
{
    law_hull();
    law_inside();
    law_values();
}

/// A mix of points within the range is closed under a kernel exactly where the kernel's relation holds.
pub fn law_drop_point()
    ensures { (k : Kernel) (m : Mix) → IsKernel (length m) k → IsMixInRange m → IsPoint (hull m)
        → ((v : ℕ) → v < length m → IsNumber (low_of (hull m) v))
        → (IsClosedMixUnder k m) ↔ (Holds k (point_of (hull m))) }
{
    law_point();
    law_hull();
    law_inside();
    law_values();
}

/// Each drop of a kernel is on one of the kernel's variables, which is kept as bits, and names a number that it has.
pub fn law_drop_place()
    ensures { (k : Kernel) (m : Mix) → IsKernel (length m) k → IsMixInRange m
        → All (λ d. Contains (vars_of k) d.0 × (d.0 < length m) × IsBits (dom_of m d.0) × Has (dom_of m d.0) d.1 × IsBound d.1)
        (drops k m) }
{
    law_hull();
    law_values();
}

/// Drops depend on the kernel's variables alone.
pub fn law_drop_local()
    ensures { (k : Kernel) (m n : Mix) → AgreeMixIn (vars_of k) m n → drops k m ≡ drops k n }
{}

/// The hull of a mix within the range is a box within it, and that of a mix inside another lies inside the other's.
pub fn law_hull_inside()
    ensures in_range { (m : Mix) → IsMixInRange m → IsInRange (hull m) }
    ensures inside { (vars : List ℕ) (inner outer : Mix) → AreVariables (length outer) vars → IsMixInRange outer
        → IsProperIn vars (hull inner) → IsInsideMixIn vars inner outer → IsInsideIn vars (hull inner) (hull outer) }
{
    law_hull();
    law_inside();
}

/// How mixes lie inside each other.
pub fn law_inside_mix_order()
    ensures { InsideMixOrder }
{
    law_hull();
    law_inside();
}

/// A proper mix inside another has no greater weight, and a smaller one where it isn't the other.
pub fn law_weight()
    ensures not_heavier { (inner outer : Mix) → IsProper (hull inner) → IsInsideMix inner outer
        → weight_of inner ≤ weight_of outer }
    ensures lighter { (inner outer : Mix) → IsProper (hull inner) → IsMixInRange outer → IsInsideMix inner outer
        → inner ≢ outer → weight_of inner < weight_of outer }
    ensures bounded { (m : Mix) → IsMixInRange m → weight_of m ≤ box_limit * (bound_limit + bound_limit) }
{
    law_members();
    law_inside();
}
