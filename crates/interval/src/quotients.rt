//! The floor and the ceiling of an exact quotient.

ghost use Rattle.std.specs.Prelude.{◌≡◌, ◌≢◌, ◌≤◌, ◌<◌, ◌+◌, ◌↔◌, ◌+ℤ◌, ◌*ℤ◌, IsTrue, pos, neg_ℤ, unsigned_abs};
ghost use Rattle.interval.specs.Limits.{dividend_limit, short_limit};
ghost use Rattle.interval.specs.Quotients.{floor_of, ceiling_of, IsFloorOf, IsCeilingOf, AreParts, QuotientOrder};

/// The quotient of two numbers between this and its opposite fits 64 bits.
const SHORT_LIMIT: i128 = 4_611_686_018_427_387_904;

/// A quotient rounded to one of the two whole numbers beside it, and the rest that it leaves.
#[derive(Clone, Copy)]
struct Parts {
    quotient: i128,
    rest: i128,
}

/// The greatest whole number that is at most `a` divided by `b`.
pub fn floor_div(a: i128, b: i128) -> i128
    requires divisor { b ≢ pos 0 }
    requires dividend { unsigned_abs a ≤ dividend_limit }
    ensures value { result ≡ floor_of a b }
    ensures exact { IsFloorOf a b result }
{
    lowered(divided(a, b), b)
}

/// The least whole number that is at least `a` divided by `b`.
pub fn ceil_div(a: i128, b: i128) -> i128
    requires divisor { b ≢ pos 0 }
    requires dividend { unsigned_abs a ≤ dividend_limit }
    ensures value { result ≡ ceiling_of a b }
    ensures exact { IsCeilingOf a b result }
{
    -floor_div(-a, b)
}

/// The greatest whole number that is at most a quotient, and the least that is at least it.
#[derive(Clone, Copy)]
pub(crate) struct Rounded {
    pub(crate) floor: i128,
    pub(crate) ceiling: i128,
}

/// The quotient of short numbers, rounded both ways, by one division in 64 bits.
pub(crate) fn round_both_ways(a: i64, b: i64) -> Rounded
    requires divisor { b ≢ pos 0 }
    requires dividend { unsigned_abs a ≤ short_limit }
    ensures floor { result.floor ≡ floor_of a b }
    ensures ceiling { result.ceiling ≡ ceiling_of a b }
{
    let parts = divided_short(a, b);
    Rounded {
        floor: lowered(parts, b as i128),
        ceiling: raised(parts, b as i128),
    }
}

/// The order of the floors and ceilings, as a law: it does nothing.
pub fn law_quotient_order()
    ensures { QuotientOrder }
{}

/// The quotient and the rest. Numbers that fit 64 bits are divided in 64 bits, which is much faster.
fn divided(a: i128, b: i128) -> Parts
    requires divisor { b ≢ pos 0 }
    requires dividend { unsigned_abs a ≤ dividend_limit }
    ensures parts { AreParts a b result.quotient result.rest }
    ensures in_range { unsigned_abs result.quotient ≤ dividend_limit }
{
    if are_short(a, b) {
        divided_short(a as i64, b as i64)
    } else {
        divided_wide(a, b)
    }
}

/// Whether both numbers and their quotient fit 64 bits.
fn are_short(a: i128, b: i128) -> bool
    ensures { IsTrue result ↔ ((unsigned_abs a ≤ short_limit) × (unsigned_abs b ≤ short_limit)) }
{
    is_short(a) && is_short(b)
}

#[tactic(auto, unfolding(crate::specs::Limits::short_limit))]
fn is_short(z: i128) -> bool
    ensures { IsTrue result ↔ (unsigned_abs z ≤ short_limit) }
{
    -SHORT_LIMIT <= z && z <= SHORT_LIMIT
}

fn divided_short(a: i64, b: i64) -> Parts
    requires divisor { b ≢ pos 0 }
    requires dividend { unsigned_abs a ≤ short_limit }
    ensures parts { AreParts a b result.quotient result.rest }
    ensures in_range { unsigned_abs result.quotient ≤ dividend_limit }
{
    Parts {
        quotient: (a / b) as i128,
        rest: (a % b) as i128,
    }
}

fn divided_wide(a: i128, b: i128) -> Parts
    requires divisor { b ≢ pos 0 }
    requires dividend { unsigned_abs a ≤ dividend_limit }
    ensures parts { AreParts a b result.quotient result.rest }
    ensures in_range { unsigned_abs result.quotient ≤ dividend_limit }
{
    Parts {
        quotient: a / b,
        rest: a % b,
    }
}

/// The floor, from the parts: one less than the quotient where the rest has the other sign than the divisor.
#[tactic(auto, unfolding(crate::specs::Limits::dividend_limit))]
fn lowered(parts: Parts, b: i128) -> i128
    requires divisor { b ≢ pos 0 }
    requires in_range { unsigned_abs parts.quotient ≤ dividend_limit }
    requires small { unsigned_abs parts.rest < unsigned_abs b }
    ensures value { result ≡ floor_of (parts.quotient *ℤ b +ℤ parts.rest) b }
    ensures in_range { unsigned_abs result ≤ dividend_limit + 1 }
{
    if b > 0 {
        if parts.rest < 0 {
            parts.quotient - 1
        } else {
            parts.quotient
        }
    } else if parts.rest > 0 {
        parts.quotient - 1
    } else {
        parts.quotient
    }
}

/// The ceiling, from the parts.
fn raised(parts: Parts, b: i128) -> i128
    requires divisor { b ≢ pos 0 }
    requires in_range { unsigned_abs parts.quotient ≤ dividend_limit }
    requires small { unsigned_abs parts.rest < unsigned_abs b }
    requires rest_in_range { unsigned_abs parts.rest ≤ dividend_limit }
    ensures { result ≡ ceiling_of (parts.quotient *ℤ b +ℤ parts.rest) b }
{
    -lowered(opposite(parts), b)
}

/// The parts of the quotient of the opposite number.
#[tactic(auto, unfolding(crate::specs::Limits::dividend_limit))]
fn opposite(parts: Parts) -> Parts
    requires in_range { unsigned_abs parts.quotient ≤ dividend_limit }
    requires rest_in_range { unsigned_abs parts.rest ≤ dividend_limit }
    ensures quotient { result.quotient ≡ neg_ℤ parts.quotient }
    ensures rest { result.rest ≡ neg_ℤ parts.rest }
{
    Parts {
        quotient: -parts.quotient,
        rest: -parts.rest,
    }
}
