//! The laws of the kernels. A law does nothing: its contract is what it says.

ghost use Rattle.std.specs.Prelude.{◌≡◌, ◌↔◌, ◌<◌, ℕ, ℤ, List, length};
ghost use Rattle.std.specs.List.{All, Contains};
ghost use Rattle.interval.specs.Limits.{IsBound, IsNumber};
ghost use Rattle.interval.specs.Boxes.{Bounds, low_of, IsInRange, IsPoint};
ghost use Rattle.guarded_tell.specs.declared.kernel.Kernel.{Kernel};
ghost use Rattle.guarded_tell.specs.Words.{Keeps, IsProperIn, IsInsideIn, AgreeIn, SameValuesIn, point_of};
ghost use Rattle.guarded_tell.specs.Kernels.{vars_of, tells, Holds, IsKernel, IsClosedUnder};

use arithmetic_tells::{
    law_absolute_local, law_absolute_monotone, law_absolute_place, law_absolute_point,
    law_product_local, law_product_monotone, law_product_place, law_product_point,
    law_quotient_local, law_quotient_monotone, law_quotient_place, law_quotient_point,
    law_remainder_local, law_remainder_monotone, law_remainder_place, law_remainder_point,
};
use clause_tells::{law_clause_local, law_clause_monotone, law_clause_place, law_clause_point};
use element_tells::{
    law_element_local, law_element_monotone, law_element_place, law_element_point,
};
use extreme_tells::{
    law_maximum_local, law_maximum_monotone, law_maximum_place, law_maximum_point,
    law_minimum_local, law_minimum_monotone, law_minimum_place, law_minimum_point,
};
use global_tells::{
    law_all_different_local, law_all_different_monotone, law_all_different_place,
    law_all_different_point, law_cumulative_local, law_cumulative_monotone, law_cumulative_place,
    law_cumulative_point,
};
use set_tells::{law_in_set_local, law_in_set_monotone, law_in_set_place, law_in_set_point};
use sum_tells::{
    law_equation_local, law_equation_monotone, law_equation_place, law_equation_point,
    law_inequality_local, law_inequality_monotone, law_inequality_place, law_inequality_point,
};

/// No tell of a kernel on a box narrows a box that is closed under that kernel and, in the kernel's variables, inside it.
pub fn law_monotone()
    ensures { (k : Kernel) (outer inner : Bounds) → IsKernel (length outer) k → IsInRange outer
        → length inner ≡ length outer → IsProperIn (vars_of k) outer → IsClosedUnder k inner
        → IsInsideIn (vars_of k) inner outer → All (Keeps inner) (tells k outer) }
{
    law_inequality_monotone();
    law_equation_monotone();
    law_product_monotone();
    law_quotient_monotone();
    law_remainder_monotone();
    law_absolute_monotone();
    law_maximum_monotone();
    law_minimum_monotone();
    law_clause_monotone();
    law_element_monotone();
    law_in_set_monotone();
    law_all_different_monotone();
    law_cumulative_monotone();
}

/// A point within the range is closed under a kernel exactly where the kernel's relation holds.
pub fn law_point()
    ensures { (k : Kernel) (b : Bounds) → IsKernel (length b) k → IsInRange b → IsPoint b
        → ((v : ℕ) → v < length b → IsNumber (low_of b v))
        → (IsClosedUnder k b) ↔ (Holds k (point_of b)) }
{
    law_inequality_point();
    law_equation_point();
    law_product_point();
    law_quotient_point();
    law_remainder_point();
    law_absolute_point();
    law_maximum_point();
    law_minimum_point();
    law_clause_point();
    law_element_point();
    law_in_set_point();
    law_all_different_point();
    law_cumulative_point();
}

/// Each tell of a kernel is on one of the kernel's variables, and its bound is one.
pub fn law_tell_place()
    ensures { (k : Kernel) (b : Bounds) → IsKernel (length b) k
        → All (λ t. Contains (vars_of k) t.var × (t.var < length b) × IsBound t.bound) (tells k b) }
{
    law_inequality_place();
    law_equation_place();
    law_product_place();
    law_quotient_place();
    law_remainder_place();
    law_absolute_place();
    law_maximum_place();
    law_minimum_place();
    law_clause_place();
    law_element_place();
    law_in_set_place();
    law_all_different_place();
    law_cumulative_place();
}

/// Tells and relation depend on the kernel's variables alone.
pub fn law_local()
    ensures tells { (k : Kernel) (b c : Bounds) → AgreeIn (vars_of k) b c → tells k b ≡ tells k c }
    ensures relation { (k : Kernel) (f g : List ℤ) → SameValuesIn (vars_of k) f g → Holds k f → Holds k g }
{
    law_inequality_local();
    law_equation_local();
    law_product_local();
    law_quotient_local();
    law_remainder_local();
    law_absolute_local();
    law_maximum_local();
    law_minimum_local();
    law_clause_local();
    law_element_local();
    law_in_set_local();
    law_all_different_local();
    law_cumulative_local();
}
