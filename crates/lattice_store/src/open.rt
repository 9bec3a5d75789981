//! Opening an epoch.

ghost use Rattle.std.specs.Prelude.{◌≡◌, ◌+◌, ◌*◌, ◌<◌, ◌≤◌, ◌↔◌, length, true, false, Option, IsErr, OnOk, OnErr, []};
ghost use Rattle.interval.specs.Boxes.{Bounds, IsInRange};
ghost use Rattle.lattice_store.specs.Words.{last_epoch, epoch_of, IsOriginOf};
ghost use Rattle.lattice_store.specs.Steps.{IsReady, Opening};
ghost use Rattle.lattice_store.specs.Seats.{seen_of, floor_of, seat_epoch, IsFirst, IsSeatOf, IsSameStore, IsFloorIn};

use crate::seat::Seat;
use crate::steps::{high_place, low_place};
use crate::store::{Full, Store};
use crate::table::{Begins, Naming, Opens, Place, Table};
use crate::words::{LAST_EPOCH, high_word, low_word, origin_word};
use interval::BoxOf;
use std::marker::Brand;

/// Opens the two words of a variable.
fn open_pair<N: Naming>(
    table: &Table,
    place: &mut Place,
    seen: &mut Vec<u64>,
    origin: u64,
    start: &BoxOf,
    v: u32,
)
    requires table { place.old.table_id ≡ table.now.shared.table_id }
    requires variable { v < length start.now }
    requires origin { IsOriginOf (epoch_of origin) origin }
    requires floor { IsFloorIn N.floor start.now }
    requires in_range { IsInRange start.now }
    requires opening { Opening place.old.table_id place.old.me seen.old.items start.now N.floor (epoch_of origin) (2 * v + 1) }
    ensures table { place.new.table_id ≡ place.old.table_id }
    ensures opening { Opening place.new.table_id place.new.me seen.new.items start.now N.floor (epoch_of origin) (2 * v + 3) }
{
    let low = low_word(origin, start.low(v));
    table.shared.fetch_max::<Opens>(place, low_place(v), low);
    seen[low_place(v)] = low;
    let high = high_word(origin, start.high(v));
    table.shared.fetch_max::<Opens>(place, high_place(v), high);
    seen[high_place(v)] = high;
}

/// Opens all words at the next epoch.
fn open_words<N: Naming>(
    table: &Table,
    place: &mut Place,
    seen: &mut Vec<u64>,
    origin: u64,
    start: &BoxOf,
)
    requires table { place.old.table_id ≡ table.now.shared.table_id }
    requires ready { IsReady place.old.me.0 }
    requires first { place.old.me.0.first ≡ true }
    requires empty { place.old.me.1 ≡ [] }
    requires past { place.old.me.0.past ≡ false }
    requires epoch { place.old.me.0.epoch + 1 ≡ epoch_of origin }
    requires origin { IsOriginOf (epoch_of origin) origin }
    requires seen { place.old.me.0.seen ≡ seen.old.items }
    requires length { length seen.old.items ≡ 2 * length start.now + 1 }
    requires words { length seen.old.items ≡ table.now.shared.table_id.words }
    requires slots { table.now.shared.table_id.slots ≡ 0 }
    requires floor { IsFloorIn N.floor start.now }
    ensures table { place.new.table_id ≡ place.old.table_id }
    ensures in_range { IsInRange start.now }
    ensures opening { Opening place.new.table_id place.new.me seen.new.items start.now N.floor (epoch_of origin) (2 * length start.now + 1) }
{
    table.shared.fetch_max::<Begins<N>>(place, 0, 0);
    for v in 0..start.len() {
        open_pair::<N>(table, place, seen, origin, start, v);
    }
}

impl Store {
    /// Opens the next epoch: all words become the bounds of `start`, and the first seat has then seen exactly these.
    /// `Full` where the seat's epoch is the last, and then nothing is changed.
    pub fn open(&mut self, first: &mut Seat, start: &BoxOf) -> Result<(), Full>
        ghost floor: { Option Bounds }
        requires store { IsSeatOf self.old first.old }
        requires first { IsFirst first.old }
        requires length { length start.now ≡ length (seen_of first.old) }
        requires floor { IsFloorIn floor start.now }
        ensures full { IsErr result ↔ (seat_epoch first.old ≡ last_epoch) }
        ensures unchanged { OnErr result (first.new ≡ first.old) }
        ensures seen { OnOk result (seen_of first.new ≡ start.now) }
        ensures epoch { OnOk result (seat_epoch first.new ≡ seat_epoch first.old + 1) }
        ensures floor { OnOk result (floor_of first.new ≡ floor) }
        ensures first { IsFirst first.new }
        ensures seat { IsSeatOf self.new first.new }
        ensures same { IsSameStore self.old self.new }
    {
        let last = first.epoch == LAST_EPOCH;
        if last {
            return Err(Full);
        }
        let epoch = first.epoch + 1;
        let origin = origin_word(epoch);
        open_words::<Brand>(
            &self.table,
            &mut first.place,
            &mut first.seen,
            origin,
            start,
        );
        first.epoch = epoch;
        first.origin = origin;
        Ok(())
    }
}
