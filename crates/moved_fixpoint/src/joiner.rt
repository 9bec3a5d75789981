//! How tells are joined into a box.

ghost use Rattle.std.specs.Prelude.{◌≡◌, ◌<◌, ◌↔◌, ◌∷◌, [], length, IsTrue};
ghost use Rattle.std.specs.List.{All};
ghost use Rattle.interval.specs.Limits.{IsBound};
ghost use Rattle.guarded_tell.specs.Hearing.{HearsAll};
ghost use Rattle.moved_fixpoint.specs.Heard.{GoesOn, HasPut, IsHeard, Hears, joined};

use fixpoint_laws::law_tightens_one;
use guarded_tell::{Side, Tell};
use interval::law_inside_order;
use trailed_box::TrailedBox;

/// How far a round has come.
#[derive(Clone, Copy, PartialEq, Eq, Debug)]
pub(crate) enum Progress {
    /// Nothing moved.
    Still,
    /// Some variable moved.
    Moved,
    /// Some variable has no number left.
    Crossed,
    /// Memory was refused.
    Refused,
}

impl Progress {
    /// Whether the round goes on.
    pub(crate) fn goes_on(self) -> bool
        ensures { IsTrue result ↔ GoesOn self }
    {
        match self {
            Progress::Still | Progress::Moved => true,
            Progress::Crossed | Progress::Refused => false,
        }
    }
}

/// Joins tells into a box, one after the other, until it is crossed or memory is refused.
pub(crate) fn join_all(told: &[Tell], b: &mut TrailedBox, mut progress: Progress) -> Progress
    requires placed { All (λ t. (t.var < length b.old.current) × IsBound t.bound) told.now }
    ensures stack { b.new.stack ≡ b.old.stack }
    ensures heard { HearsAll Hears (joined b.old.current progress) told.now (joined b.new.current result) }
{
    law_inside_order();
    law_tightens_one();
    for t in told {
        progress = join(*t, b, progress);
    }
    progress
}

/// Joins two tells into a box, one after the other.
#[inline(always)]
pub(crate) fn join_two(told: (Tell, Tell), b: &mut TrailedBox, progress: Progress) -> Progress
    requires first { told.0.var < length b.old.current }
    requires first_bound { IsBound told.0.bound }
    requires second { told.1.var < length b.old.current }
    requires second_bound { IsBound told.1.bound }
    ensures stack { b.new.stack ≡ b.old.stack }
    ensures heard { HearsAll Hears (joined b.old.current progress) (told.0 ∷ told.1 ∷ []) (joined b.new.current result) }
{
    law_inside_order();
    law_tightens_one();
    let first = join(told.0, b, progress);
    join(told.1, b, first)
}

/// Joins a tell into a box, unless the round is over.
#[inline(always)]
pub(crate) fn join(t: Tell, b: &mut TrailedBox, progress: Progress) -> Progress
    requires variable { t.var < length b.old.current }
    requires bound { IsBound t.bound }
    ensures stack { b.new.stack ≡ b.old.stack }
    ensures heard { IsHeard b.old.current progress t b.new.current result }
{
    if !progress.goes_on() {
        return progress;
    }
    let low = b.low(t.var);
    let high = b.high(t.var);
    match t.side {
        Side::Low => {
            if low < t.bound {
                return put_bounds(b, t.var, t.bound, high);
            }
        }
        Side::High => {
            if t.bound < high {
                return put_bounds(b, t.var, low, t.bound);
            }
        }
    }
    progress
}

/// Puts bounds of a variable. Nothing is put where memory is refused.
#[inline(always)]
fn put_bounds(b: &mut TrailedBox, v: u32, low: i64, high: i64) -> Progress
    requires variable { v < length b.old.current }
    requires low_in_range { IsBound low }
    requires high_in_range { IsBound high }
    ensures stack { b.new.stack ≡ b.old.stack }
    ensures put { HasPut result b.old.current v low high b.new.current }
{
    if b.put(v, low, high).is_err() {
        Progress::Refused
    } else if low > high {
        Progress::Crossed
    } else {
        Progress::Moved
    }
}
