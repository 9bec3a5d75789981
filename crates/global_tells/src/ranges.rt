//! Tests of ranges of numbers, and the tells that leave no number.

ghost use Rattle.std.specs.Prelude.{◌≡◌, pos, neg_ℤ, [], ◌∷◌};
ghost use Rattle.interval.specs.Limits.{bound_limit};
ghost use Rattle.tells.specs.Words as words;
ghost use Rattle.tells.specs.Hearing.{MayHearAll, HearsAll};
ghost use Rattle.global_tells.specs.Ranges.{none_tells};
ghost use Rattle.global_tells.specs.Ranges as ranges;

use interval::BOUND_LIMIT;
use tells::{Hear, high_tell, low_tell};

/// Whether the number is from `low` to `high`.
#[tactic(auto, unfolding(crate::specs::Ranges::is_from_to))]
pub fn is_from_to(low: i64, high: i64, number: i64) -> bool
    ensures { result ≡ ranges.is_from_to low high number }
{
    low <= number && number <= high
}

/// Tells the first variable of the list, if there is one, that no number is left.
pub fn tell_none<H: Hear>(xs: &[u32], h: &mut H)
    requires { MayHearAll H.can_hear H.hears h.old (none_tells xs.now) }
    ensures { HearsAll H.hears h.old (none_tells xs.now) h.new }
{
    if xs.is_empty() {
        return;
    }
    tell_no_number(xs[0], h);
}

/// Tells the variable that no number is left.
#[tactic(auto, unfolding(interval::specs::Limits::bound_limit, interval::specs::Limits::largest_number))]
fn tell_no_number<H: Hear>(x: u32, h: &mut H)
    requires { MayHearAll H.can_hear H.hears h.old
        (words.low_tell x (pos bound_limit) ∷ words.high_tell x (neg_ℤ (pos bound_limit)) ∷ []) }
    ensures { HearsAll H.hears h.old
        (words.low_tell x (pos bound_limit) ∷ words.high_tell x (neg_ℤ (pos bound_limit)) ∷ []) h.new }
{
    h.hear(low_tell(x, BOUND_LIMIT as i128));
    h.hear(high_tell(x, -(BOUND_LIMIT as i128)));
}
