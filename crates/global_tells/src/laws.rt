//! The laws of the two constraints. A law does nothing: its contract is what it says.

ghost use Rattle.std.specs.Prelude.{◌≡◌, ◌≢◌, ◌↔◌, ◌<◌, ◌≤ℤ◌, ℕ, ℤ, List, length, slice_index};
ghost use Rattle.std.specs.List.{All, Contains};
ghost use Rattle.interval.specs.Limits.{IsBound};
ghost use Rattle.interval.specs.Boxes.{Bounds, IsInRange, IsPoint};
ghost use Rattle.tells.specs.Words.{Keeps, IsProperIn, IsInsideIn, AgreeIn, SameValuesIn, AreVariables, point_of, value_of};
ghost use Rattle.global_tells.specs.AllDifferent.{all_different_tells, AreAllDifferent};
ghost use Rattle.global_tells.specs.Cumulative.{AreTasks, tasks_of, cumulative_tells, used_at, IsCumulative};

use interval::law_clamp_order;

/// No tell of all-different on a box narrows a box that is closed under it and, in its variables, inside that box.
pub fn law_all_different_monotone()
    ensures { (xs : List ℕ) (outer inner : Bounds) → AreVariables (length outer) xs → IsInRange outer
        → IsProperIn xs inner → IsInsideIn xs inner outer
        → All (Keeps inner) (all_different_tells xs inner) → All (Keeps inner) (all_different_tells xs outer) }
{
    law_clamp_order();
}

/// A point is closed under all-different exactly where no two places have the same number.
pub fn law_all_different_point()
    ensures { (xs : List ℕ) (b : Bounds) → AreVariables (length b) xs → IsPoint b
        → All (Keeps b) (all_different_tells xs b) ↔ AreAllDifferent xs (point_of b) }
{
    law_clamp_order();
}

/// Each tell of all-different is on one of its variables, and its bound is one.
pub fn law_all_different_place()
    ensures { (xs : List ℕ) (b : Bounds) → AreVariables (length b) xs
        → All (λ t. Contains xs t.var × (t.var < length b) × IsBound t.bound) (all_different_tells xs b) }
{
    law_clamp_order();
}

/// Tells and relation of all-different depend on its variables alone.
pub fn law_all_different_local()
    ensures tells { (xs : List ℕ) (b c : Bounds) → AgreeIn xs b c → all_different_tells xs b ≡ all_different_tells xs c }
    ensures relation { (xs : List ℕ) (f g : List ℤ) → SameValuesIn xs f g → AreAllDifferent xs f → AreAllDifferent xs g }
{}

/// All are different exactly where every two places have unequal numbers.
pub fn law_all_different_pairs()
    ensures { (xs : List ℕ) (numbers : List ℤ) → AreAllDifferent xs numbers
        ↔ ((i j : ℕ) → i < j → j < length xs → value_of numbers (slice_index xs i) ≢ value_of numbers (slice_index xs j)) }
{}

/// No tell of a cumulative resource on a box narrows a box that is closed under it and, in the starts, inside that box.
pub fn law_cumulative_monotone()
    ensures { (s : List ℕ) (d r : List ℤ) (limit : ℤ) (outer inner : Bounds) → AreTasks s d r limit
        → AreVariables (length outer) s → IsInRange outer → IsProperIn s inner → IsInsideIn s inner outer
        → All (Keeps inner) (cumulative_tells (tasks_of s d r) limit inner)
        → All (Keeps inner) (cumulative_tells (tasks_of s d r) limit outer) }
{
    law_clamp_order();
}

/// A point is closed under a cumulative resource exactly where at no whole time more is used than the limit.
pub fn law_cumulative_point()
    ensures { (s : List ℕ) (d r : List ℤ) (limit : ℤ) (b : Bounds) → AreTasks s d r limit
        → AreVariables (length b) s → IsPoint b
        → All (Keeps b) (cumulative_tells (tasks_of s d r) limit b) ↔ IsCumulative (tasks_of s d r) limit (point_of b) }
{
    law_clamp_order();
}

/// Each tell of a cumulative resource is on the start of a task, and its bound is one.
pub fn law_cumulative_place()
    ensures { (s : List ℕ) (d r : List ℤ) (limit : ℤ) (b : Bounds) → AreTasks s d r limit → AreVariables (length b) s
        → All (λ t. Contains s t.var × (t.var < length b) × IsBound t.bound) (cumulative_tells (tasks_of s d r) limit b) }
{
    law_clamp_order();
}

/// Tells and relation of a cumulative resource depend on the starts alone.
pub fn law_cumulative_local()
    ensures tells { (s : List ℕ) (d r : List ℤ) (limit : ℤ) (b c : Bounds) → AgreeIn s b c
        → cumulative_tells (tasks_of s d r) limit b ≡ cumulative_tells (tasks_of s d r) limit c }
    ensures relation { (s : List ℕ) (d r : List ℤ) (limit : ℤ) (f g : List ℤ) → SameValuesIn s f g
        → IsCumulative (tasks_of s d r) limit f → IsCumulative (tasks_of s d r) limit g }
{}

/// At no whole time more is used than the limit exactly where this is so at the start of each task.
pub fn law_cumulative_starts()
    ensures { (s : List ℕ) (d r : List ℤ) (limit : ℤ) (numbers : List ℤ) → AreTasks s d r limit
        → IsCumulative (tasks_of s d r) limit numbers
        ↔ ((j : ℕ) → j < length s → used_at (tasks_of s d r) numbers (value_of numbers (slice_index s j)) ≤ℤ limit) }
{}
