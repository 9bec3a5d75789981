//! For which variable no number is left in a box.

ghost use Rattle.std.specs.Prelude.{length, IfSome};
ghost use Rattle.literals.specs.Literals as words;
ghost use Rattle.literals.specs.Literals.{IsPlaced};

use guarded_tell::{Side, Tell};
use interval::BoxOf;
use literals::opposite;
use reasons::is_bound;
use trailed_box::Log;

/// A literal and its opposite can be put.
fn checked(t: Tell, b: &BoxOf) -> Option<Tell>
    ensures { IfSome result (λ t. IsPlaced (length b.now) t × IsPlaced (length b.now) (words.opposite t)) }
{
    if t.var < b.len() && is_bound(t.bound) && is_bound(opposite(t).bound) {
        Some(t)
    } else {
        None
    }
}

/// The literal that the box meets with its opposite, if the bounds of the variable cross: such that the one that was put last has
/// to be no tighter than it must.
fn crossing_at(v: u32, b: &BoxOf, is_high_last: bool) -> Option<Tell>
    ensures { IfSome result (λ t. IsPlaced (length b.now) t × IsPlaced (length b.now) (words.opposite t)) }
{
    if v >= b.len() || b.low(v) <= b.high(v) {
        return None;
    }
    let bound = if is_high_last {
        b.low(v)
    } else {
        b.high(v).wrapping_add(1)
    };
    checked(
        Tell {
            var: v,
            side: Side::Low,
            bound,
        },
        b,
    )
}

/// The same where the event that was put last is of the variable.
fn last_crossing(b: &BoxOf, log: &Log) -> Option<Tell>
    ensures { IfSome result (λ t. IsPlaced (length b.now) t × IsPlaced (length b.now) (words.opposite t)) }
{
    let place = log.len().checked_sub(1)?;
    let event = log.at(place)?;
    crossing_at(event.var, b, event.is_high)
}

/// A literal that the box meets with its opposite, if there is one: of the variable whose bound was put last, where its bounds cross.
pub(crate) fn crossing_of(b: &BoxOf, log: &Log) -> Option<Tell>
    ensures { IfSome result (λ t. IsPlaced (length b.now) t × IsPlaced (length b.now) (words.opposite t)) }
{
    if let Some(t) = last_crossing(b, log) {
        return Some(t);
    }
    for v in 0..b.len() {
        if let Some(t) = crossing_at(v, b, false) {
            return Some(t);
        }
    }
    None
}
