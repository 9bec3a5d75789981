//! The laws of both. A law does nothing: its contract is what it says.

ghost use Rattle.std.specs.Prelude.{◌≡◌, ◌∷◌, ℕ, ℤ, List, length};
ghost use Rattle.tells.specs.declared.tell.Lit.{Lit};
ghost use Rattle.tells.specs.Laws.{IsMonotone, IsExact, TellsOnly, ReadsOnly, IsRelationOf};
ghost use Rattle.sum_tells.specs.Linear.{at_most_tells, IsAtMost};
ghost use Rattle.sum_tells.specs.Equality.{eq_tells, IsEquation};

use interval::{law_clamp_order, law_quotient_order};

/// No tell of an inequality on a box narrows a box that is closed under it and, in its variables, inside that box.
pub fn law_inequality_monotone()
    ensures { (l : Lit) (coeffs : List ℤ) (vars : List ℕ) (limit : ℤ) → length coeffs ≡ length vars
        → IsMonotone (l.var ∷ vars) (at_most_tells l coeffs vars limit) }
{
    law_quotient_order();
    law_clamp_order();
}

/// A point of numbers is closed under an inequality exactly where the relation holds.
pub fn law_inequality_point()
    ensures { (l : Lit) (coeffs : List ℤ) (vars : List ℕ) (limit : ℤ) → length coeffs ≡ length vars
        → IsExact (l.var ∷ vars) (at_most_tells l coeffs vars limit) (IsAtMost l coeffs vars limit) }
{
    law_quotient_order();
    law_clamp_order();
}

/// Each tell of an inequality is on one of its variables, and its bound is one.
pub fn law_inequality_place()
    ensures { (l : Lit) (coeffs : List ℤ) (vars : List ℕ) (limit : ℤ) → length coeffs ≡ length vars
        → TellsOnly (l.var ∷ vars) (at_most_tells l coeffs vars limit) }
{
    law_clamp_order();
}

/// Tells and relation of an inequality depend on its variables alone.
pub fn law_inequality_local()
    ensures tells { (l : Lit) (coeffs : List ℤ) (vars : List ℕ) (limit : ℤ)
        → ReadsOnly (l.var ∷ vars) (at_most_tells l coeffs vars limit) }
    ensures relation { (l : Lit) (coeffs : List ℤ) (vars : List ℕ) (limit : ℤ)
        → IsRelationOf (l.var ∷ vars) (IsAtMost l coeffs vars limit) }
{}

/// No tell of an equation on a box narrows a box that is closed under it and, in its variables, inside that box.
pub fn law_equation_monotone()
    ensures { (l : Lit) (coeffs : List ℤ) (vars : List ℕ) (limit : ℤ) → length coeffs ≡ length vars
        → IsMonotone (l.var ∷ vars) (eq_tells l coeffs vars limit) }
{
    law_quotient_order();
    law_clamp_order();
}

/// A point of numbers is closed under an equation exactly where the relation holds.
pub fn law_equation_point()
    ensures { (l : Lit) (coeffs : List ℤ) (vars : List ℕ) (limit : ℤ) → length coeffs ≡ length vars
        → IsExact (l.var ∷ vars) (eq_tells l coeffs vars limit) (IsEquation l coeffs vars limit) }
{
    law_quotient_order();
    law_clamp_order();
}

/// Each tell of an equation is on one of its variables, and its bound is one.
pub fn law_equation_place()
    ensures { (l : Lit) (coeffs : List ℤ) (vars : List ℕ) (limit : ℤ) → length coeffs ≡ length vars
        → TellsOnly (l.var ∷ vars) (eq_tells l coeffs vars limit) }
{
    law_clamp_order();
}

/// Tells and relation of an equation depend on its variables alone.
pub fn law_equation_local()
    ensures tells { (l : Lit) (coeffs : List ℤ) (vars : List ℕ) (limit : ℤ)
        → ReadsOnly (l.var ∷ vars) (eq_tells l coeffs vars limit) }
    ensures relation { (l : Lit) (coeffs : List ℤ) (vars : List ℕ) (limit : ℤ)
        → IsRelationOf (l.var ∷ vars) (IsEquation l coeffs vars limit) }
{}
