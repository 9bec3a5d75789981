//! How a bound is kept in a word.

ghost use Rattle.std.specs.Prelude.{◌≡◌, ◌*◌, ◌≤◌};
ghost use Rattle.interval.specs.Limits.{IsBound, bound_limit};
ghost use Rattle.mix_store.specs.Words.{distance, bound_at};

use interval::BOUND_LIMIT;

/// How far a bound lies above the least one.
#[tactic(auto, unfolding(crate::specs::Words::distance, interval::specs::Limits::bound_limit, interval::specs::Limits::largest_number))]
pub(crate) fn distance_of(bound: i64) -> u64
    requires { IsBound bound }
    ensures value { result ≡ distance bound }
    ensures word { result ≤ 2 * bound_limit }
{
    (bound + BOUND_LIMIT) as u64
}

/// The bound that lies so far above the least one.
#[tactic(auto, unfolding(crate::specs::Words::bound_at, interval::specs::Limits::bound_limit, interval::specs::Limits::largest_number))]
pub(crate) fn bound_of(word: u64) -> i64
    requires { word ≤ 2 * bound_limit }
    ensures value { result ≡ bound_at word }
    ensures in_range { IsBound result }
{
    word as i64 - BOUND_LIMIT
}
