//! Single steps on the shared word.

ghost use Rattle.std.specs.Prelude.{◌≡◌, ◌<◌, ◌≤◌, min, [], IfOk};
ghost use Rattle.best_bound.specs.Codes.{none_word};
ghost use Rattle.best_bound.specs.Rule.{first_view, one_less, one_part, joined, IsReady, Looked, Posted};

use crate::table::{Law, Looks, Merges, Parts, Place, Table, Tells};
use std::alloc::{AllocError, Global};

// The word of no value.
pub(crate) const NONE: u64 = u64::MAX;

/// A word of no value, and its first seat.
pub(crate) fn make<L: Law>(alloc: Global) -> Result<(Table<L>, Place), AllocError>
    ensures table { IfOk result (λ r. r.1.table_id ≡ r.0.shared.table_id) }
    ensures words { IfOk result (λ r. 0 < r.0.shared.table_id.words) }
    ensures seat { IfOk result (λ r. r.1.me ≡ (first_view, [])) }
{
    Table::<L>::of_words(alloc, &[NONE], &0)
}

/// Looks at the word.
pub(crate) fn look<L: Law>(table: &Table<L>, place: &mut Place) -> u64
    requires table { place.old.table_id ≡ table.now.shared.table_id }
    requires words { 0 < table.now.shared.table_id.words }
    requires ready { IsReady place.old.me }
    ensures table { place.new.table_id ≡ place.old.table_id }
    ensures looked { Looked L.passes place.old.me result place.new.me }
{
    table.shared.load::<Looks<L>>(place, 0)
}

/// Posts a word: the shared word becomes the least of the two.
pub(crate) fn tell<L: Law>(table: &Table<L>, place: &mut Place, word: u64) -> u64
    requires table { place.old.table_id ≡ table.now.shared.table_id }
    requires words { 0 < table.now.shared.table_id.words }
    requires ready { IsReady place.old.me }
    requires word { word < none_word }
    requires passes { L.passes word }
    ensures table { place.new.table_id ≡ place.old.table_id }
    ensures posted { Posted L.passes place.old.me word (min result word) place.new.me }
{
    table.shared.fetch_min::<Tells<L>>(place, 0, word)
}

/// Moves one part to a new seat.
pub(crate) fn part<L: Law>(table: &Table<L>, place: &mut Place) -> Place
    requires table { place.old.table_id ≡ table.now.shared.table_id }
    requires words { 0 < table.now.shared.table_id.words }
    requires ready { IsReady place.old.me }
    requires parts { 1 < place.old.me.0.parts }
    ensures table { place.new.table_id ≡ place.old.table_id }
    ensures new_table { result.table_id ≡ place.old.table_id }
    ensures left { place.new.me ≡ (one_less place.old.me.0, []) }
    ensures right { result.me ≡ (one_part place.old.me.0, []) }
{
    table.shared.split_seat::<Parts>(place)
}

/// Takes in another seat.
pub(crate) fn take_in<L: Law>(table: &Table<L>, place: &mut Place, other: Place)
    requires table { place.old.table_id ≡ table.now.shared.table_id }
    requires other_table { other.table_id ≡ table.now.shared.table_id }
    requires words { 0 < table.now.shared.table_id.words }
    requires ready { IsReady place.old.me }
    requires other_ready { IsReady other.me }
    ensures table { place.new.table_id ≡ place.old.table_id }
    ensures both { place.new.me ≡ (joined place.old.me.0 other.me.0, []) }
{
    table.shared.join_seat::<Merges>(place, other)
}
