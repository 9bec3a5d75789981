//! The laws of the greatest and the least of a list. A law does nothing: its contract is what it says.

ghost use Rattle.std.specs.Prelude.{◌∷◌, ℕ, List};
ghost use Rattle.tells.specs.Laws.{IsMonotone, IsExact, TellsOnly, ReadsOnly, IsRelationOf};
ghost use Rattle.extreme_tells.specs.Maximum.{max_tells, IsGreatestOf};
ghost use Rattle.extreme_tells.specs.Minimum.{min_tells, IsLeastOf};

use interval::law_clamp_order;

/// No tell of the greatest of a list on a box narrows a box that is closed under it and, in its variables, inside that box.
pub fn law_maximum_monotone()
    ensures { (m : ℕ) (xs : List ℕ) → IsMonotone (m ∷ xs) (max_tells m xs) }
{
    law_clamp_order();
}

/// A point of numbers is closed under the greatest of a list exactly where the relation holds.
pub fn law_maximum_point()
    ensures { (m : ℕ) (xs : List ℕ) → IsExact (m ∷ xs) (max_tells m xs) (IsGreatestOf m xs) }
{
    law_clamp_order();
}

/// Each tell of the greatest of a list is on one of its variables, and its bound is one.
pub fn law_maximum_place()
    ensures { (m : ℕ) (xs : List ℕ) → TellsOnly (m ∷ xs) (max_tells m xs) }
{
    law_clamp_order();
}

/// Tells and relation of the greatest of a list depend on its variables alone.
pub fn law_maximum_local()
    ensures tells { (m : ℕ) (xs : List ℕ) → ReadsOnly (m ∷ xs) (max_tells m xs) }
    ensures relation { (m : ℕ) (xs : List ℕ) → IsRelationOf (m ∷ xs) (IsGreatestOf m xs) }
{}

/// No tell of the least of a list on a box narrows a box that is closed under it and, in its variables, inside that box.
pub fn law_minimum_monotone()
    ensures { (m : ℕ) (xs : List ℕ) → IsMonotone (m ∷ xs) (min_tells m xs) }
{
    law_clamp_order();
}

/// A point of numbers is closed under the least of a list exactly where the relation holds.
pub fn law_minimum_point()
    ensures { (m : ℕ) (xs : List ℕ) → IsExact (m ∷ xs) (min_tells m xs) (IsLeastOf m xs) }
{
    law_clamp_order();
}

/// Each tell of the least of a list is on one of its variables, and its bound is one.
pub fn law_minimum_place()
    ensures { (m : ℕ) (xs : List ℕ) → TellsOnly (m ∷ xs) (min_tells m xs) }
{
    law_clamp_order();
}

/// Tells and relation of the least of a list depend on its variables alone.
pub fn law_minimum_local()
    ensures tells { (m : ℕ) (xs : List ℕ) → ReadsOnly (m ∷ xs) (min_tells m xs) }
    ensures relation { (m : ℕ) (xs : List ℕ) → IsRelationOf (m ∷ xs) (IsLeastOf m xs) }
{}
