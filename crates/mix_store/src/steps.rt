//! Single steps on a word.

ghost use Rattle.std.specs.Prelude.{◌≡◌, ◌<◌, [], length, max, min, bit_and};
ghost use Rattle.mix_store.specs.declared.table.WordKind.TheVariants.{Set, Low, High};
ghost use Rattle.mix_store.specs.Rule.{kind_at, IsAllowed, Notes};
ghost use Rattle.mix_store.specs.Steps.{IsReady};

use crate::table::{Asks, Place, Table, Tells};

/// Looks at a word.
pub(crate) fn look(table: &Table, place: &mut Place, k: usize) -> u64
    requires table { place.old.table_id ≡ table.now.shared.table_id }
    requires inside { k < table.now.shared.table_id.words }
    requires ready { IsReady place.old.me.0 k }
    ensures table { place.new.table_id ≡ place.old.table_id }
    ensures slots { place.new.me.1 ≡ place.old.me.1 }
    ensures seen { Notes place.old.me.0 k result place.new.me.0 }
{
    table.shared.load::<Asks>(place, k)
}

/// Keeps the bits of a set alone. Answers the word that stood there.
#[tactic(auto, unfolding(crate::specs::Order::join_of))]
pub(crate) fn keep(table: &Table, place: &mut Place, k: usize, set: u64) -> u64
    requires table { place.old.table_id ≡ table.now.shared.table_id }
    requires inside { k < table.now.shared.table_id.words }
    requires ready { IsReady place.old.me.0 k }
    requires kind { kind_at place.old.me.0.kinds k ≡ Set }
    requires word { IsAllowed place.old.me.0.kinds place.old.me.0.floor k set }
    ensures table { place.new.table_id ≡ place.old.table_id }
    ensures slots { place.new.me.1 ≡ place.old.me.1 }
    ensures seen { Notes place.old.me.0 k (bit_and result set) place.new.me.0 }
{
    table.shared.fetch_and::<Tells>(place, k, set)
}

/// Raises a lower bound to `word`, where it is below. Answers the word that stood there.
#[tactic(auto, unfolding(crate::specs::Order::join_of))]
pub(crate) fn raise(table: &Table, place: &mut Place, k: usize, word: u64) -> u64
    requires table { place.old.table_id ≡ table.now.shared.table_id }
    requires inside { k < table.now.shared.table_id.words }
    requires ready { IsReady place.old.me.0 k }
    requires kind { kind_at place.old.me.0.kinds k ≡ Low }
    requires word { IsAllowed place.old.me.0.kinds place.old.me.0.floor k word }
    ensures table { place.new.table_id ≡ place.old.table_id }
    ensures slots { place.new.me.1 ≡ place.old.me.1 }
    ensures seen { Notes place.old.me.0 k (max result word) place.new.me.0 }
{
    table.shared.fetch_max::<Tells>(place, k, word)
}

/// Lowers an upper bound to `word`, where it is above. Answers the word that stood there.
#[tactic(auto, unfolding(crate::specs::Order::join_of))]
pub(crate) fn lower(table: &Table, place: &mut Place, k: usize, word: u64) -> u64
    requires table { place.old.table_id ≡ table.now.shared.table_id }
    requires inside { k < table.now.shared.table_id.words }
    requires ready { IsReady place.old.me.0 k }
    requires kind { kind_at place.old.me.0.kinds k ≡ High }
    requires word { IsAllowed place.old.me.0.kinds place.old.me.0.floor k word }
    ensures table { place.new.table_id ≡ place.old.table_id }
    ensures slots { place.new.me.1 ≡ place.old.me.1 }
    ensures seen { Notes place.old.me.0 k (min result word) place.new.me.0 }
{
    table.shared.fetch_min::<Tells>(place, k, word)
}
