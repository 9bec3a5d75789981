//! Bits of the numbers over a base that are to stay.

ghost use Rattle.std.specs.Prelude.{◌≡◌, ◌≢◌, ◌↔◌, ◌<◌, ◌≤◌, ◌≤ℤ◌, ◌<ℤ◌, ◌+ℤ◌, ℕ, pos};
ghost use Rattle.std.specs.Bool.{OnTrue, OnFalse};
ghost use Rattle.std.specs.Int.{bit_at};
ghost use Rattle.interval.specs.Limits.{IsBound};
ghost use Rattle.mix_rounds.specs.Masks.{AreBitsOf};
ghost use Rattle.mix_rounds.specs.Steps.{FitsSide};

use guarded_tell::{Side, Tell};

/// How far `to` is from `from`.
#[tactic(auto, unfolding(interval::specs::Limits::bound_limit, interval::specs::Limits::largest_number))]
fn distance(from: i64, to: i64) -> u32
    requires from { IsBound from }
    requires to { IsBound to }
    requires some { from ≤ℤ to }
    requires short { to ≤ℤ (from +ℤ pos 63) }
    ensures value { from +ℤ pos result ≡ to }
    ensures small { result < 64 }
{
    (to - from) as u32
}

/// Whether a number lies past the last one that has a bit.
#[tactic(auto, unfolding(interval::specs::Limits::bound_limit, interval::specs::Limits::largest_number))]
fn is_past(base: i64, value: i64) -> bool
    requires base { IsBound base }
    ensures past { OnTrue result ((base +ℤ pos 63) <ℤ value) }
    ensures within { OnFalse result (value ≤ℤ (base +ℤ pos 63)) }
{
    base + 63 < value
}

/// The bits from a place on.
fn bits_above(place: u32) -> u64
    requires { place < 64 }
    ensures { (i : ℕ) → i < 64 → (bit_at result i ≡ 1) ↔ (place ≤ i) }
{
    u64::MAX << place
}

/// The bits up to a place.
fn bits_below(place: u32) -> u64
    requires { place < 64 }
    ensures { (i : ℕ) → i < 64 → (bit_at result i ≡ 1) ↔ (i ≤ place) }
{
    u64::MAX >> (63 - place)
}

/// All bits but that of a place.
fn bits_but(place: u32) -> u64
    requires { place < 64 }
    ensures { (i : ℕ) → i < 64 → (bit_at result i ≡ 1) ↔ (i ≢ place) }
{
    !(1 << place)
}

/// The bits of the numbers that are at least a bound.
#[tactic(auto, unfolding(interval::specs::Limits::bound_limit, interval::specs::Limits::largest_number))]
fn bits_from(base: i64, bound: i64) -> u64
    requires base { IsBound base }
    requires bound { IsBound bound }
    ensures { AreBitsOf (λ z. bound ≤ℤ z) base result }
{
    if bound <= base {
        u64::MAX
    } else if is_past(base, bound) {
        0
    } else {
        bits_above(distance(base, bound))
    }
}

/// The bits of the numbers that are at most a bound.
#[tactic(auto, unfolding(interval::specs::Limits::bound_limit, interval::specs::Limits::largest_number))]
fn bits_to(base: i64, bound: i64) -> u64
    requires base { IsBound base }
    requires bound { IsBound bound }
    ensures { AreBitsOf (λ z. z ≤ℤ bound) base result }
{
    if bound < base {
        0
    } else if is_past(base, bound) {
        u64::MAX
    } else {
        bits_below(distance(base, bound))
    }
}

/// The bits of the numbers that a tell leaves.
pub(crate) fn bits_told(base: i64, t: Tell) -> u64
    requires base { IsBound base }
    requires bound { IsBound t.bound }
    ensures { AreBitsOf (FitsSide t.side t.bound) base result }
{
    match t.side {
        Side::Low => bits_from(base, t.bound),
        Side::High => bits_to(base, t.bound),
    }
}

/// The bits of all numbers but one.
#[tactic(auto, unfolding(interval::specs::Limits::bound_limit, interval::specs::Limits::largest_number))]
pub(crate) fn bits_without(base: i64, value: i64) -> u64
    requires base { IsBound base }
    requires value { IsBound value }
    ensures { AreBitsOf (λ z. z ≢ value) base result }
{
    if value < base {
        u64::MAX
    } else if is_past(base, value) {
        u64::MAX
    } else {
        bits_but(distance(base, value))
    }
}
