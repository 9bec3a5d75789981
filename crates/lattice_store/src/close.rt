//! The end of a store.

ghost use Rattle.std.specs.Prelude.{◌≡◌, length, IfSome};
ghost use Rattle.interval.specs.Boxes.{IsInside};
ghost use Rattle.lattice_store.specs.Seats.{seen_of, floor_of, IsFirst, IsSeatOf};

use crate::seat::Seat;
use crate::steps::{high_place, low_place};
use crate::store::Store;
use crate::words::{high_bound, low_bound};
use interval::BoxOf;

impl Store {
    /// Ends the store, and writes the box of its words, once all other seats were joined back into the first.
    pub fn close(self, seat: Seat, into: &mut BoxOf)
        requires store { IsSeatOf self seat }
        requires first { IsFirst seat }
        requires length { length into.old ≡ length (seen_of seat) }
        ensures inside { IsInside into.new (seen_of seat) }
        ensures floor { IfSome (floor_of seat) (λ f. IsInside f into.new) }
    {
        let Store { table } = self;
        let Seat {
            place,
            seen: _,
            origin,
            epoch: _,
            past: _,
        } = seat;
        let closed = table.close_with(place);
        for v in 0..into.len() {
            let low = low_bound(origin, closed.word(low_place(v)));
            let high = high_bound(origin, closed.word(high_place(v)));
            into.put(v, low, high);
        }
        closed.free();
    }
}
