//! Bounds of single variables, as a reason that is proposed reads and puts them.

ghost use Rattle.std.specs.Prelude.{◌≡◌, length};
ghost use Rattle.std.specs.Bool.{OnTrue};
ghost use Rattle.interval.specs.Limits.{IsBound};

use crate::past::put_if_bounds;
use guarded_tell::{Side, Tell};
use interval::{BOUND_LIMIT, BoxOf};

/// Whether the number can be a bound.
#[tactic(auto, unfolding(interval::specs::Limits::bound_limit, interval::specs::Limits::largest_number))]
pub fn is_bound(z: i64) -> bool
    ensures { OnTrue result (IsBound z) }
{
    z >= -BOUND_LIMIT && z <= BOUND_LIMIT
}

/// The bounds of a variable.
#[derive(Clone, Copy)]
pub(crate) struct Range {
    pub(crate) low: i64,
    pub(crate) high: i64,
}

/// The bounds of a variable; all numbers where the box has no such variable.
pub(crate) fn range_of(b: &BoxOf, v: u32) -> Range {
    if v < b.len() {
        Range {
            low: b.low(v),
            high: b.high(v),
        }
    } else {
        Range {
            low: i64::MIN,
            high: i64::MAX,
        }
    }
}

/// Puts bounds of a variable that the box has.
pub(crate) fn put_range(past: &mut BoxOf, v: u32, range: Range)
    ensures { length past.new ≡ length past.old }
{
    if v < past.len() {
        put_if_bounds(past, v, range.low, range.high);
    }
}

/// These bounds, but for that of a literal's side.
pub(crate) fn sought_range(sought: Tell, widest: Range) -> Range {
    match sought.side {
        Side::Low => Range {
            low: sought.bound,
            high: widest.high,
        },
        Side::High => Range {
            low: widest.low,
            high: sought.bound,
        },
    }
}
