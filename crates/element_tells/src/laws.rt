//! The laws of the element at a place of a list. A law does nothing: its contract is what it says.

ghost use Rattle.std.specs.Prelude.{◌≤◌, ◌∷◌, ℕ, List, length};
ghost use Rattle.tells.specs.Laws.{IsMonotone, IsExact, TellsOnly, ReadsOnly, IsRelationOf};
ghost use Rattle.extreme_tells.specs.Extremes.{member_limit};
ghost use Rattle.element_tells.specs.Element.{element_tells, IsElement};

use interval::law_clamp_order;

/// No tell of an element on a box narrows a box that is closed under it and, in its variables, inside that box.
pub fn law_element_monotone()
    ensures { (x : ℕ) (entries : List ℕ) (z : ℕ) → length entries ≤ member_limit → IsMonotone (x ∷ z ∷ entries) (element_tells x entries z) }
{
    law_clamp_order();
}

/// A point of numbers is closed under an element exactly where the relation holds.
pub fn law_element_point()
    ensures { (x : ℕ) (entries : List ℕ) (z : ℕ) → IsExact (x ∷ z ∷ entries) (element_tells x entries z) (IsElement x entries z) }
{
    law_clamp_order();
}

/// Each tell of an element is on one of its variables, and its bound is one.
pub fn law_element_place()
    ensures { (x : ℕ) (entries : List ℕ) (z : ℕ) → TellsOnly (x ∷ z ∷ entries) (element_tells x entries z) }
{
    law_clamp_order();
}

/// Tells and relation of an element depend on its variables alone.
pub fn law_element_local()
    ensures tells { (x : ℕ) (entries : List ℕ) (z : ℕ) → ReadsOnly (x ∷ z ∷ entries) (element_tells x entries z) }
    ensures relation { (x : ℕ) (entries : List ℕ) (z : ℕ) → IsRelationOf (x ∷ z ∷ entries) (IsElement x entries z) }
{}
