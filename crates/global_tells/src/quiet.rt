//! A first test that all-different tells nothing.

ghost use Rattle.std.specs.Prelude.{◌<◌, ◌≤◌, ◌≤ℤ◌, ◌+ℤ◌, pos, length};
ghost use Rattle.std.specs.Bool.{OnTrue};
ghost use Rattle.std.specs.List.{All};
ghost use Rattle.interval.specs.Boxes.{low_of, high_of};
ghost use Rattle.tells.specs.Words.{AreVariables, Keeps};
ghost use Rattle.global_tells.specs.Ranges.{place_limit};
ghost use Rattle.global_tells.specs.AllDifferent.{all_different_tells};

use interval::BoxOf;

/// Whether all-different is seen to tell nothing: each place has more numbers than there are places. It asks each place
/// once.
pub fn is_all_different_quiet(xs: &[u32], b: &BoxOf) -> bool
    requires variables { AreVariables (length b.now) xs.now }
    requires short { length xs.now ≤ place_limit }
    ensures { OnTrue result (All (Keeps b.now) (all_different_tells xs.now b.now)) }
{
    for i in 0..xs.len() {
        if !is_wide(xs[i], xs.len(), b) {
            return false;
        }
    }
    true
}

/// Whether the variable has more than so many numbers.
#[tactic(auto, unfolding(crate::specs::Ranges::place_limit, interval::specs::Limits::bound_limit, interval::specs::Limits::largest_number))]
fn is_wide(x: u32, count: usize, b: &BoxOf) -> bool
    requires variable { x < length b.now }
    requires short { count ≤ place_limit }
    ensures { OnTrue result ((low_of b.now x +ℤ pos count) ≤ℤ high_of b.now x) }
{
    b.low(x) + count as i64 <= b.high(x)
}
