//! How a nogood bears on a box.

ghost use Rattle.std.specs.Prelude.{◌<◌, length};
ghost use Rattle.std.specs.Bool.{OnTrue};
ghost use Rattle.std.specs.List.{All};
ghost use Rattle.interval.specs.Limits.{IsBound};
ghost use Rattle.guarded_tell.specs.Words.{Keeps};
ghost use Rattle.literals.specs.Literals.{IsPlaced};
ghost use Rattle.nogoods.specs.Bearings.{IfTold, IfFailed, IsFailing, IsTelling};

use crate::laws::law_nogoods;
use guarded_tell::Tell;
use interval::BoxOf;
use literals::{Seen, is_met, opposite, see};
use reasons::is_bound;

/// How nogoods bear on a box.
#[derive(Clone, Copy, PartialEq, Eq, Debug)]
pub enum Bearing {
    /// They leave the box as it is.
    Quiet,
    /// The nogood of this number puts this bound, which may leave the variable no number.
    Told(Tell, usize),
    /// The box meets the nogood of this number: no solution lies in it.
    Failed(usize),
}

/// Whether the box doesn't meet the literal, and its bound can be put.
fn is_put(t: Tell, b: &BoxOf) -> bool
    requires { t.var < length b.now }
    ensures bound { OnTrue result (IsBound t.bound) }
    ensures unmet { OnTrue result (Keeps b.now t → ⊥) }
{
    is_bound(t.bound) && !is_met(t, b)
}

/// How the nogood of a number bears on the box.
pub(crate) fn bearing_on(reason: &[Tell], number: usize, b: &BoxOf) -> Bearing
    requires { All (IsPlaced (length b.now)) reason.now }
    ensures failed { IfFailed result (IsFailing reason.now b.now) }
    ensures told { IfTold result (IsTelling reason.now b.now) }
    ensures placed { IfTold result (IsPlaced (length b.now)) }
    ensures unmet { IfTold result (λ t. Keeps b.now t → ⊥) }
{
    law_nogoods();
    match see(reason, b) {
        Seen::Met => Bearing::Failed(number),
        Seen::Open => Bearing::Quiet,
        Seen::AllBut(place) => {
            let t = opposite(reason[place]);
            if is_put(t, b) {
                Bearing::Told(t, number)
            } else {
                Bearing::Quiet
            }
        }
    }
}
