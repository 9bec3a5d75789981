//! What one thread has seen of a store.

ghost use Rattle.std.specs.Prelude.{◌≡◌, ◌<◌, ◌≤◌, ◌==◌, length, slice_index, IfSome};
ghost use Rattle.interval.specs.Boxes.{IsInside};
ghost use Rattle.std.proofs.Props.{props};
ghost use Rattle.lattice_store.specs.Words.{last_epoch, epoch_of, IsOriginOf};
ghost use Rattle.lattice_store.specs.Rule.{seen_after, past_after, greater, either};
ghost use Rattle.lattice_store.specs.Standing.{Stands};

use crate::table::Place;
use crate::words::epoch_in;

/// What one thread has seen of a store, and the right to step there.
#[derive(Drop)]
pub struct Seat {
    pub(crate) place: Place,
    pub(crate) seen: Vec<u64>,
    /// The word of the bound 0 at its epoch.
    pub(crate) origin: u64,
    pub(crate) epoch: u32,
    pub(crate) past: bool,
    ghost in_range: { epoch ≤ last_epoch },
    ghost origin_is: { IsOriginOf epoch origin },
    ghost stands: { Stands place.table_id place.me seen.items epoch past } by { Prim.hlevel props },
}

/// The word at a place.
pub(crate) fn at(words: &Vec<u64>, k: usize) -> u64
    requires { k < length words.now.items }
    ensures { result ≡ slice_index words.now.items k }
{
    words[k]
}

/// Sees a word: it is kept where it is of the seat's epoch, and else the seat is past. Mostly it is the one that was
/// seen before, and then there is nothing to do.
pub(crate) fn note(seen: &mut Vec<u64>, past: &mut bool, epoch: u32, k: usize, word: u64)
    requires inside { k < length seen.old.items }
    requires own { epoch_of (slice_index seen.old.items k) ≡ epoch }
    ensures seen { seen.new.items ≡ seen_after past.old (epoch_of word == epoch) seen.old.items k word }
    ensures past { past.new ≡ past_after past.old (epoch_of word == epoch) }
{
    if at(seen, k) != word && !*past {
        if epoch_in(word) == u64::from(epoch) {
            seen[k] = word;
        } else {
            *past = true;
        }
    }
}

/// Whether one of the two holds.
pub(crate) fn one_of(a: bool, b: bool) -> bool
    ensures { result ≡ either a b }
{
    a || b
}

/// Keeps the greater word at each place.
pub(crate) fn keep_greater(seen: &mut Vec<u64>, other: &Vec<u64>)
    requires { length other.now.items ≡ length seen.old.items }
    ensures { seen.new.items ≡ greater seen.old.items other.now.items }
{
    for k in 0..other.len() {
        let word = at(seen, k).max(at(other, k));
        seen[k] = word;
    }
}
