//! The words of a new store.

ghost use Rattle.std.specs.Prelude.{◌≡◌, ◌<◌, ◌++◌, ℕ, length, slice_index, true, IfOk};
ghost use Rattle.bit_domain.specs.Mixes.{IsDomInRange, IsMixInRange};
ghost use Rattle.mix_store.specs.Words.{words_in, words_of};
ghost use Rattle.mix_store.specs.Standing.{ArePlacesOf};
ghost use Rattle.mix_store.specs.Rule.{IsAllowed, with_floor};

use crate::table::{Names, Naming, Place, Table};
use crate::words::distance_of;
use bit_domain::{Dom, MixOf};
use std::alloc::{AllocError, Global};

/// The words of a mix, and for each variable where its words begin.
#[derive(Drop)]
pub(crate) struct Layout {
    pub(crate) words: Vec<u64>,
    pub(crate) places: Vec<u32>,
}

/// Appends the words of a domain.
fn push_words(words: &mut Vec<u64>, dom: Dom) -> Result<(), AllocError>
    requires { IsDomInRange dom }
    ensures { IfOk result (λ _. words.new.items ≡ words.old.items ++ words_in dom) }
{
    match dom {
        Dom::Bits { set, .. } => words.push(set)?,
        Dom::Pair { low, high } => {
            words.push(distance_of(low))?;
            words.push(distance_of(high))?;
        }
    }
    Ok(())
}

/// The layout of a mix.
pub(crate) fn layout_of(alloc: Global, start: &MixOf) -> Result<Layout, AllocError>
    ensures words { IfOk result (λ l. l.words.items ≡ words_of start.now) }
    ensures places { IfOk result (λ l. ArePlacesOf l.places.items start.now) }
    ensures lawful { IfOk result (λ _. IsMixInRange start.now) }
{
    let mut words = Vec::new(alloc);
    let mut places = Vec::new(alloc);
    words.push(0)?;
    for v in 0..start.len() {
        places.push(words.as_slice().len() as u32)?;
        push_words(&mut words, start.dom(v))?;
    }
    Ok(Layout { words, places })
}

/// Names the floor of a store that was just made.
pub(crate) fn name_floor<N: Naming>(table: &Table, place: &mut Place)
    requires table { place.old.table_id ≡ table.now.shared.table_id }
    requires words { 0 < table.now.shared.table_id.words }
    requires live { place.old.me.0.live ≡ true }
    requires fresh { place.old.me.0.fresh ≡ true }
    requires held { (k : ℕ) → k < length place.old.me.0.seen → IsAllowed place.old.me.0.kinds N.floor k (slice_index place.old.me.0.seen k) }
    ensures table { place.new.table_id ≡ place.old.table_id }
    ensures slots { place.new.me.1 ≡ place.old.me.1 }
    ensures view { place.new.me.0 ≡ with_floor place.old.me.0 N.floor }
{
    table.shared.load::<Names<N>>(place, 0);
}
