//! The laws of membership in a set of numbers. A law does nothing: its contract is what it says.

ghost use Rattle.std.specs.Prelude.{◌∷◌, [], ℕ, ℤ, List};
ghost use Rattle.tells.specs.declared.tell.Lit.{Lit};
ghost use Rattle.tells.specs.Laws.{IsMonotone, IsExact, TellsOnly, ReadsOnly, IsRelationOf};
ghost use Rattle.set_tells.specs.InSet.{in_set_tells, IsInSet, IsSet};

use interval::law_clamp_order;

/// No tell of a membership on a box narrows a box that is closed under it and, in its variables, inside that box.
pub fn law_in_set_monotone()
    ensures { (l : Lit) (x : ℕ) (ranges : List (ℤ × ℤ)) → IsSet ranges → IsMonotone (l.var ∷ x ∷ []) (in_set_tells l x ranges) }
{
    law_clamp_order();
}

/// A point of numbers is closed under a membership exactly where the relation holds.
pub fn law_in_set_point()
    ensures { (l : Lit) (x : ℕ) (ranges : List (ℤ × ℤ)) → IsExact (l.var ∷ x ∷ []) (in_set_tells l x ranges) (IsInSet l x ranges) }
{
    law_clamp_order();
}

/// Each tell of a membership is on one of its variables, and its bound is one.
pub fn law_in_set_place()
    ensures { (l : Lit) (x : ℕ) (ranges : List (ℤ × ℤ)) → TellsOnly (l.var ∷ x ∷ []) (in_set_tells l x ranges) }
{
    law_clamp_order();
}

/// Tells and relation of a membership depend on its variables alone.
pub fn law_in_set_local()
    ensures tells { (l : Lit) (x : ℕ) (ranges : List (ℤ × ℤ)) → ReadsOnly (l.var ∷ x ∷ []) (in_set_tells l x ranges) }
    ensures relation { (l : Lit) (x : ℕ) (ranges : List (ℤ × ℤ)) → IsRelationOf (l.var ∷ x ∷ []) (IsInSet l x ranges) }
{}
