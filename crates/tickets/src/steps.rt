//! Single steps on the shared words.

ghost use Rattle.std.specs.Prelude.{suc, ◌≡◌, ◌<◌, ◌≤◌, [], IfOk};
ghost use Rattle.tickets.specs.Rule.{first_view, one_less, one_part, joined, IsReady, Drew, Heard};

use crate::table::{Draws, Hears, Merges, Parts, Place, Table};
use std::alloc::{AllocError, Global};

/// The spare word and one of 0 for each number, and the first seat.
pub(crate) fn make(alloc: Global, count: u32) -> Result<(Table, Place), AllocError>
    ensures table { IfOk result (λ r. r.1.table_id ≡ r.0.shared.table_id) }
    ensures words { IfOk result (λ r. r.0.shared.table_id.words ≡ suc count) }
    ensures seat { IfOk result (λ r. r.1.me ≡ (first_view count, [])) }
{
    let words = vec![in alloc; 0u64; count as usize + 1]?;
    Table::of_words(alloc, &words, &u64::from(count))
}

/// Steps on the word of the seat's next number, and answers what it was.
pub(crate) fn step_on_next(table: &Table, place: &mut Place, next: u32) -> u64
    requires table { place.old.table_id ≡ table.now.shared.table_id }
    requires words { table.now.shared.table_id.words ≡ suc place.old.me.0.count }
    requires ready { IsReady place.old.me }
    requires next { next ≡ place.old.me.0.next }
    requires below { next < place.old.me.0.count }
    ensures table { place.new.table_id ≡ place.old.table_id }
    ensures drew { Drew place.old.me result place.new.me }
{
    table.shared.fetch_max::<Draws>(place, next as usize + 1, 1)
}

/// Looks at the spare word, which tells what the rule says of the seat.
pub(crate) fn hear(table: &Table, place: &mut Place)
    requires table { place.old.table_id ≡ table.now.shared.table_id }
    requires words { table.now.shared.table_id.words ≡ suc place.old.me.0.count }
    requires ready { IsReady place.old.me }
    ensures table { place.new.table_id ≡ place.old.table_id }
    ensures heard { Heard place.old.me place.new.me }
{
    let _spare = table.shared.load::<Hears>(place, 0);
}

/// Moves one part to a new seat.
pub(crate) fn part(table: &Table, place: &mut Place) -> Place
    requires table { place.old.table_id ≡ table.now.shared.table_id }
    requires words { table.now.shared.table_id.words ≡ suc place.old.me.0.count }
    requires ready { IsReady place.old.me }
    requires parts { 1 < place.old.me.0.parts }
    ensures table { place.new.table_id ≡ place.old.table_id }
    ensures new_table { result.table_id ≡ place.old.table_id }
    ensures left { place.new.me ≡ (one_less place.old.me.0, []) }
    ensures right { result.me ≡ (one_part place.old.me.0, []) }
{
    table.shared.split_seat::<Parts>(place)
}

/// Takes in another seat.
pub(crate) fn take_in(table: &Table, place: &mut Place, other: Place)
    requires table { place.old.table_id ≡ table.now.shared.table_id }
    requires other_table { other.table_id ≡ table.now.shared.table_id }
    requires words { table.now.shared.table_id.words ≡ suc place.old.me.0.count }
    requires ready { IsReady place.old.me }
    requires other_ready { IsReady other.me }
    ensures table { place.new.table_id ≡ place.old.table_id }
    ensures both { place.new.me ≡ (joined place.old.me.0 other.me.0, []) }
{
    table.shared.join_seat::<Merges>(place, other)
}
