//! The laws of the four. A law does nothing: its contract is what it says.

ghost use Rattle.std.specs.Prelude.{◌∷◌, [], ℕ};
ghost use Rattle.tells.specs.Laws.{IsMonotone, IsExact, TellsOnly, ReadsOnly, IsRelationOf};
ghost use Rattle.arithmetic_tells.specs.Times.{times_tells, IsProduct};
ghost use Rattle.arithmetic_tells.specs.Division.{div_tells, IsQuotient};
ghost use Rattle.arithmetic_tells.specs.Remainder.{mod_tells, IsRemainder};
ghost use Rattle.arithmetic_tells.specs.Absolute.{abs_tells, IsAbsolute};

use interval::{law_clamp_order, law_corner_order, law_quotient_order};

/// No tell of a product on a box narrows a box that is closed under it and, in its variables, inside that box.
pub fn law_product_monotone()
    ensures { (x y z : ℕ) → IsMonotone (x ∷ y ∷ z ∷ []) (times_tells x y z) }
{
    law_quotient_order();
    law_clamp_order();
    law_corner_order();
}

/// A point of numbers is closed under a product exactly where the relation holds.
pub fn law_product_point()
    ensures { (x y z : ℕ) → IsExact (x ∷ y ∷ z ∷ []) (times_tells x y z) (IsProduct x y z) }
{
    law_quotient_order();
    law_clamp_order();
}

/// Each tell of a product is on one of its variables, and its bound is one.
pub fn law_product_place()
    ensures { (x y z : ℕ) → TellsOnly (x ∷ y ∷ z ∷ []) (times_tells x y z) }
{
    law_clamp_order();
}

/// Tells and relation of a product depend on its variables alone.
pub fn law_product_local()
    ensures tells { (x y z : ℕ) → ReadsOnly (x ∷ y ∷ z ∷ []) (times_tells x y z) }
    ensures relation { (x y z : ℕ) → IsRelationOf (x ∷ y ∷ z ∷ []) (IsProduct x y z) }
{}

/// No tell of a quotient on a box narrows a box that is closed under it and, in its variables, inside that box.
pub fn law_quotient_monotone()
    ensures { (x y z : ℕ) → IsMonotone (x ∷ y ∷ z ∷ []) (div_tells x y z) }
{
    law_quotient_order();
    law_clamp_order();
    law_corner_order();
}

/// A point of numbers is closed under a quotient exactly where the relation holds.
pub fn law_quotient_point()
    ensures { (x y z : ℕ) → IsExact (x ∷ y ∷ z ∷ []) (div_tells x y z) (IsQuotient x y z) }
{
    law_clamp_order();
}

/// Each tell of a quotient is on one of its variables, and its bound is one.
pub fn law_quotient_place()
    ensures { (x y z : ℕ) → TellsOnly (x ∷ y ∷ z ∷ []) (div_tells x y z) }
{
    law_clamp_order();
}

/// Tells and relation of a quotient depend on its variables alone.
pub fn law_quotient_local()
    ensures tells { (x y z : ℕ) → ReadsOnly (x ∷ y ∷ z ∷ []) (div_tells x y z) }
    ensures relation { (x y z : ℕ) → IsRelationOf (x ∷ y ∷ z ∷ []) (IsQuotient x y z) }
{}

/// No tell of a remainder on a box narrows a box that is closed under it and, in its variables, inside that box.
pub fn law_remainder_monotone()
    ensures { (x y z : ℕ) → IsMonotone (x ∷ y ∷ z ∷ []) (mod_tells x y z) }
{
    law_quotient_order();
    law_clamp_order();
}

/// A point of numbers is closed under a remainder exactly where the relation holds.
pub fn law_remainder_point()
    ensures { (x y z : ℕ) → IsExact (x ∷ y ∷ z ∷ []) (mod_tells x y z) (IsRemainder x y z) }
{
    law_clamp_order();
}

/// Each tell of a remainder is on one of its variables, and its bound is one.
pub fn law_remainder_place()
    ensures { (x y z : ℕ) → TellsOnly (x ∷ y ∷ z ∷ []) (mod_tells x y z) }
{
    law_clamp_order();
}

/// Tells and relation of a remainder depend on its variables alone.
pub fn law_remainder_local()
    ensures tells { (x y z : ℕ) → ReadsOnly (x ∷ y ∷ z ∷ []) (mod_tells x y z) }
    ensures relation { (x y z : ℕ) → IsRelationOf (x ∷ y ∷ z ∷ []) (IsRemainder x y z) }
{}

/// No tell of an absolute value on a box narrows a box that is closed under it and, in its variables, inside that box.
pub fn law_absolute_monotone()
    ensures { (x y : ℕ) → IsMonotone (x ∷ y ∷ []) (abs_tells x y) }
{
    law_quotient_order();
    law_clamp_order();
}

/// A point of numbers is closed under an absolute value exactly where the relation holds.
pub fn law_absolute_point()
    ensures { (x y : ℕ) → IsExact (x ∷ y ∷ []) (abs_tells x y) (IsAbsolute x y) }
{
    law_clamp_order();
}

/// Each tell of an absolute value is on one of its variables, and its bound is one.
pub fn law_absolute_place()
    ensures { (x y : ℕ) → TellsOnly (x ∷ y ∷ []) (abs_tells x y) }
{
    law_clamp_order();
}

/// Tells and relation of an absolute value depend on its variables alone.
pub fn law_absolute_local()
    ensures tells { (x y : ℕ) → ReadsOnly (x ∷ y ∷ []) (abs_tells x y) }
    ensures relation { (x y : ℕ) → IsRelationOf (x ∷ y ∷ []) (IsAbsolute x y) }
{}
