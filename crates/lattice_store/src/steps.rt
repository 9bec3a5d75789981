//! Single steps on a word.

ghost use Rattle.std.specs.Prelude.{◌≡◌, ◌+◌, ◌*◌, ◌<◌, ◌≤◌, max, length, slice_index, false};
ghost use Rattle.lattice_store.specs.Seats.{IsSeatOf, Moved};
ghost use Rattle.lattice_store.specs.Rule.{Notes};
ghost use Rattle.lattice_store.specs.Steps.{MayTell, MayJoin};

use crate::seat::{Seat, note};
use crate::store::Store;
use crate::table::{Asks, Place, Table, Tells};

/// The places of the words of a variable's bounds.
pub(crate) fn low_place(v: u32) -> usize
    ensures { result ≡ 2 * v + 1 }
{
    2 * v as usize + 1
}

pub(crate) fn high_place(v: u32) -> usize
    ensures { result ≡ 2 * v + 2 }
{
    2 * v as usize + 2
}

/// Joins a word: the greater of the two stands there then. Answers the word that stood there.
fn join(table: &Table, place: &mut Place, k: usize, word: u64) -> u64
    requires table { place.old.table_id ≡ table.now.shared.table_id }
    requires place { k < table.now.shared.table_id.words }
    requires lawful { MayJoin table.now.shared.table_id.slots place.old.id place.old.me k word }
    ensures table { place.new.table_id ≡ place.old.table_id }
    ensures slots { place.new.me.1 ≡ place.old.me.1 }
    ensures seen { Notes place.old.me.0 k (max result word) place.new.me.0 }
{
    table.shared.fetch_max::<Tells>(place, k, word)
}

impl Store {
    /// Looks at a word.
    pub(crate) fn look(&self, seat: &mut Seat, k: usize)
        requires store { IsSeatOf self.now seat.old }
        requires above { 1 ≤ k }
        requires inside { k < length seat.old.seen.items }
        ensures { Moved seat.old seat.new k }
    {
        let word = self.table.shared.load::<Asks>(&mut seat.place, k);
        note(&mut seat.seen, &mut seat.past, seat.epoch, k, word);
    }

    /// Joins a word.
    pub(crate) fn raise(&self, seat: &mut Seat, k: usize, word: u64)
        requires store { IsSeatOf self.now seat.old }
        requires above { 1 ≤ k }
        requires inside { k < length seat.old.seen.items }
        requires word { MayTell seat.old.place.me.0 k word }
        ensures moved { Moved seat.old seat.new k }
        ensures told { seat.new.past ≡ false → word ≤ slice_index seat.new.seen.items k }
    {
        let found = join(&self.table, &mut seat.place, k, word);
        note(
            &mut seat.seen,
            &mut seat.past,
            seat.epoch,
            k,
            found.max(word),
        );
    }
}
