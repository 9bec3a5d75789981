//! What one thread has seen and posted, and the right to step.

ghost use Rattle.std.proofs.Props.{props};
ghost use Rattle.best_bound.specs.Rule.{IsReady};

use crate::table::Place;

/// What one thread has seen of a `Best` and posted there, and the right to step there.
#[derive(Drop)]
pub struct BestSeat {
    pub(crate) place: Place,
    ghost ready: { IsReady place.me } by { Prim.hlevel props },
}

/// What one thread has seen of a `Found` and posted there, and the right to step there.
#[derive(Drop)]
pub struct FoundSeat {
    pub(crate) place: Place,
    ghost ready: { IsReady place.me } by { Prim.hlevel props },
}
