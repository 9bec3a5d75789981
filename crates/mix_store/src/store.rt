//! The store: domains in shared words.

ghost use Rattle.std.specs.Prelude.{◌≡◌, ◌^◌, ◌<◌, length, slice_index};
ghost use Rattle.std.proofs.Props.{props};
ghost use Rattle.mix_store.specs.Standing.{ArePlacesOf};

use crate::table::Table;

/// The domains of some variables, shared by the seats of threads.
#[derive(Drop)]
pub struct MixStore {
    pub(crate) table: Table,
    /// For each variable where its words begin.
    pub(crate) places: Vec<u32>,
    ghost slots: { table.shared.table_id.slots ≡ 0 },
    ghost spare: { 0 < table.shared.table_id.words },
    ghost places_are: { ArePlacesOf places.items table.shared.key } by { Prim.hlevel props },
}

impl MixStore {
    /// Where the words of variable `v` begin.
    pub(crate) fn place(&self, v: u32) -> usize
        requires { v < length self.now.places.items }
        ensures value { result ≡ slice_index self.now.places.items v }
        ensures short { result < 2 ^ 32 }
    {
        place_at(&self.places, v)
    }
}

/// The place of variable `v`.
pub(crate) fn place_at(places: &Vec<u32>, v: u32) -> usize
    requires { v < length places.now.items }
    ensures value { result ≡ slice_index places.now.items v }
    ensures short { result < 2 ^ 32 }
{
    places[v as usize] as usize
}
