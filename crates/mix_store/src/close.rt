//! The end of a store.

ghost use Rattle.std.specs.Prelude.{◌≡◌, ◌+◌, ◌*◌, ◌<◌, ◌≤◌, length, slice_index, IfSome};
ghost use Rattle.std.specs.Mem.Slots.{slots_items, slots_len, IsFull};
ghost use Rattle.interval.specs.Limits.{bound_limit};
ghost use Rattle.bit_domain.specs.Mixes.{IsDomInRange, IsInsideMix};
ghost use Rattle.mix_store.specs.Domains.{IsBits, IsPair};
ghost use Rattle.mix_store.specs.Words.{read_of};
ghost use Rattle.mix_store.specs.Seats.{seen_of, floor_of, IsSeatOf};

use crate::seat::MixSeat;
use crate::store::{MixStore, place_at};
use crate::words::bound_of;
use atomic_table::Closed;
use bit_domain::{Dom, MixOf};
use std::alloc::Global;

impl MixStore {
    /// Ends the store, and writes the mix of its words.
    pub fn close(self, seat: MixSeat, into: &mut MixOf)
        requires store { IsSeatOf self seat }
        requires length { length into.old ≡ length (seen_of seat) }
        ensures inside { IsInsideMix into.new (seen_of seat) }
        ensures floor { IfSome (floor_of seat) (λ f. IsInsideMix f into.new) }
    {
        let MixStore { table, places } = self;
        let MixSeat { place, seen } = seat;
        let closed = table.close_with(place);
        for v in 0..into.len() {
            let k = place_at(&places, v);
            let dom = last_dom(&closed, seen.dom(v), k);
            into.put(v, dom);
        }
        closed.free();
    }
}

/// The domain like `dom` of the words at a place of a store that has ended.
fn last_dom(closed: &Closed<u8, Global>, dom: Dom, k: usize) -> Dom
    requires dom { IsDomInRange dom }
    requires full { IsFull closed.now.words }
    requires bits { IsBits dom → k < slots_len closed.now.words }
    requires pair { IsPair dom → (k + 1 < slots_len closed.now.words) × (slice_index (slots_items closed.now.words) k ≤ 2 * bound_limit) × (slice_index (slots_items closed.now.words) (k + 1) ≤ 2 * bound_limit) }
    ensures { result ≡ read_of dom (slice_index (slots_items closed.now.words) k) (slice_index (slots_items closed.now.words) (k + 1)) }
{
    match dom {
        Dom::Bits { base, .. } => Dom::Bits {
            base,
            set: closed.word(k),
        },
        Dom::Pair { .. } => Dom::Pair {
            low: bound_of(closed.word(k)),
            high: bound_of(closed.word(k + 1)),
        },
    }
}
