//! The words of a new store, and of a new epoch.

ghost use Rattle.std.specs.Prelude.{◌≡◌, ◌≢◌, ◌+◌, ◌*◌, ◌<◌, ◌≤◌, ℕ, length, slice_index, true, false, Option, IfOk};
ghost use Rattle.interval.specs.Boxes.{Bounds, IsInRange};
ghost use Rattle.lattice_store.specs.Words.{last_epoch, word_of, code_of, ceiling};
ghost use Rattle.lattice_store.specs.Standing.{AreWordsOf};
ghost use Rattle.lattice_store.specs.Rule.{with_floor};

use crate::table::{Names, Naming, Place, Table};
use crate::words::{high_word, low_word, origin_word};
use interval::BoxOf;
use std::alloc::{AllocError, Global};

/// The words of the bounds of a box, after the spare one.
pub(crate) fn words_of(alloc: Global, start: &BoxOf, epoch: u32) -> Result<Vec<u64>, AllocError>
    requires { epoch ≤ last_epoch }
    ensures words { IfOk result (λ w. AreWordsOf epoch start.now w.items) }
    ensures in_range { IfOk result (λ _. IsInRange start.now) }
{
    let origin = origin_word(epoch);
    let mut words = Vec::new(alloc);
    words.push(0)?;
    for v in 0..start.len() {
        words.push(low_word(origin, start.low(v)))?;
        words.push(high_word(origin, start.high(v)))?;
    }
    Ok(words)
}

/// Names the floor of a store that was just made.
pub(crate) fn name_floor<N: Naming>(table: &Table, place: &mut Place)
    requires table { place.old.table_id ≡ table.now.shared.table_id }
    requires words { 0 < table.now.shared.table_id.words }
    requires live { place.old.me.0.live ≡ true }
    requires fresh { place.old.me.0.fresh ≡ true }
    requires held { (k : ℕ) → 1 ≤ k → k < length place.old.me.0.seen → code_of (slice_index place.old.me.0.seen k) ≤ ceiling N.floor k }
    ensures table { place.new.table_id ≡ place.old.table_id }
    ensures slots { place.new.me.1 ≡ place.old.me.1 }
    ensures view { place.new.me.0 ≡ with_floor place.old.me.0 N.floor }
{
    table.shared.load::<Names<N>>(place, 0);
}
