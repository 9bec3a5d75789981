//! The better half of the numbers that a key may still have.

ghost use Rattle.std.specs.Prelude.{◌≡◌, ◌+ℤ◌, ◌-ℤ◌, ◌≤ℤ◌, ◌<ℤ◌, pos, true, false, IfSome, IfNone};
ghost use Rattle.interval.specs.Limits.{IsBound};
ghost use Rattle.first_keys.specs.Halves.{AreHalves, AreNearer, best_of};

/// Two ranges of the numbers of a variable.
#[derive(Clone, Copy, Debug)]
pub(crate) struct Halves {
    /// The least number of the one that is asked for: all of it is better than the number known.
    pub(crate) better_low: i64,
    /// The greatest.
    pub(crate) better_high: i64,
    /// The least number of the one that is left where nothing is found there.
    pub(crate) rest_low: i64,
    /// The greatest.
    pub(crate) rest_high: i64,
}

/// The middle of the numbers from `low` to those below `value`.
#[tactic(auto, unfolding(interval::specs::Limits::bound_limit, interval::specs::Limits::largest_number))]
fn middle_below(low: i64, value: i64) -> i64
    requires low { IsBound low }
    requires value { IsBound value }
    requires below { low <ℤ value }
    ensures from { low ≤ℤ result }
    ensures near { ((result -ℤ low) +ℤ (result -ℤ low)) <ℤ (value -ℤ low) }
    ensures middle { ((value -ℤ result) +ℤ (value -ℤ result)) ≤ℤ ((value -ℤ low) +ℤ pos 2) }
    ensures bound { IsBound result }
{
    let width = (value - low) as u64;
    low + ((width - 1) / 2) as i64
}

/// The halves of the numbers from `low` to `high` where the least is the best.
#[tactic(auto, unfolding(interval::specs::Limits::bound_limit, interval::specs::Limits::largest_number))]
fn halve_lower(low: i64, high: i64, value: i64) -> Halves
    requires low { IsBound low }
    requires high { IsBound high }
    requires below { low <ℤ value }
    requires to { value ≤ℤ high }
    ensures halves { AreHalves low high result }
    ensures nearer { AreNearer false low high value result }
{
    let middle = middle_below(low, value);
    Halves {
        better_low: low,
        better_high: middle,
        rest_low: middle + 1,
        rest_high: high,
    }
}

/// The same where the greatest is the best.
#[tactic(auto, unfolding(interval::specs::Limits::bound_limit, interval::specs::Limits::largest_number))]
fn halve_upper(low: i64, high: i64, value: i64) -> Halves
    requires low { IsBound low }
    requires high { IsBound high }
    requires from { low ≤ℤ value }
    requires above { value <ℤ high }
    ensures halves { AreHalves low high result }
    ensures nearer { AreNearer true low high value result }
{
    let middle = -middle_below(-high, -value);
    Halves {
        better_low: middle,
        better_high: high,
        rest_low: low,
        rest_high: middle - 1,
    }
}

/// The halves of the numbers from `low` to `high`, where `value` is the one that is known; none where it is the best of them.
pub(crate) fn halve(low: i64, high: i64, value: i64, is_upper_first: bool) -> Option<Halves>
    requires low { IsBound low }
    requires high { IsBound high }
    requires from { low ≤ℤ value }
    requires to { value ≤ℤ high }
    ensures halves { IfSome result (AreHalves low high) }
    ensures nearer { IfSome result (AreNearer is_upper_first low high value) }
    ensures best { IfNone result (value ≡ best_of is_upper_first low high) }
{
    if is_upper_first {
        if value == high {
            return None;
        }
        return Some(halve_upper(low, high, value));
    }
    if value == low {
        return None;
    }
    Some(halve_lower(low, high, value))
}
