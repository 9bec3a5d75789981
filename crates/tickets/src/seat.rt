//! What one thread has drawn, and the right to draw.

ghost use Rattle.std.specs.Prelude.{suc, ◌≡◌};
ghost use Rattle.std.proofs.Props.{props};
ghost use Rattle.tickets.specs.Rule.{IsReady};
ghost use Rattle.tickets.specs.Counting.{IsTally};

use crate::table::Place;

/// What one thread has drawn of a `Tickets`, and the right to draw there.
#[derive(Drop)]
pub struct TicketSeat {
    pub(crate) place: Place,
    pub(crate) next: u32,
    ghost ready: { IsReady place.me } by { Prim.hlevel props },
    ghost next_is: { next ≡ place.me.0.next },
    ghost words: { place.table_id.words ≡ suc place.me.0.count },
    ghost tally: { IsTally place.me.0.parts place.me.0.count place.me.0.next place.me.0.drawn } by { Prim.hlevel props },
}
