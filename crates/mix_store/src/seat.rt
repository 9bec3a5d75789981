//! What one thread has seen of a store.

ghost use Rattle.std.proofs.Props.{props};
ghost use Rattle.mix_store.specs.Props.{coded_kind, IsDomInRange-prop, IsInsideDom-prop};
ghost use Rattle.mix_store.specs.Standing.{Stands};

use crate::table::Place;
use bit_domain::MixOf;

/// What one thread has seen of a store, and the right to step there.
#[derive(Drop)]
pub struct MixSeat {
    pub(crate) place: Place,
    pub(crate) seen: MixOf,
    ghost stands: { Stands place.table_id place.me seen } by { Prim.hlevel (props, coded_kind, IsDomInRange-prop, IsInsideDom-prop) },
}
