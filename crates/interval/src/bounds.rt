//! The range of numbers and of bounds.

ghost use Rattle.std.specs.Prelude.{◌≡◌, ◌≤ℤ◌, pos, neg_ℤ, unsigned_abs, ◌≤◌};
ghost use Rattle.interval.specs.Limits.{IsBound, bound_limit, clamp_of, ClampOrder};

/// A number of a model lies between this and its opposite.
const LARGEST_NUMBER: i64 = 140_737_488_355_327;

/// A bound lies between this and its opposite. It is one past the numbers of a model, so that a bound can say that
/// no number is left.
pub const BOUND_LIMIT: i64 = LARGEST_NUMBER + 1;

/// The bound that is nearest to `value`.
pub fn clamp_bound(value: i128) -> i64
    ensures value { result ≡ clamp_of value }
    ensures in_range { IsBound result }
    ensures same { IsBound value → result ≡ value }
    ensures greatest { pos bound_limit ≤ℤ value → result ≡ pos bound_limit }
    ensures least { value ≤ℤ neg_ℤ (pos bound_limit) → result ≡ neg_ℤ (pos bound_limit) }
{
    let limit = BOUND_LIMIT as i128;
    value.clamp(-limit, limit) as i64
}

/// The order of clamped numbers, as a law: it does nothing.
pub fn law_clamp_order()
    ensures { ClampOrder }
{}
