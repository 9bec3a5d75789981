//! Making, splitting and joining seats.

ghost use Rattle.std.specs.Prelude.{◌≡◌, length, Option, IfOk, OnErr};
ghost use Rattle.bit_domain.specs.Mixes.{IsDomInRange, IsInsideMix, Mix};
ghost use Rattle.mix_store.specs.Domains.{both_of, tighter_of};
ghost use Rattle.mix_store.specs.Seats.{seen_of, IsSeatOf, IsSameSeat, IsCopyOf, IsFloorIn, IsStart};

use crate::make::{layout_of, name_floor};
use crate::seat::MixSeat;
use crate::store::MixStore;
use crate::table::{Copies, Learns, Merges, Table};
use bit_domain::{Dom, MixOf};
use memory::NoMemory;
use std::alloc::Global;
use std::marker::Brand;

impl MixStore {
    /// A store of the domains of `start`, and its first seat, which has seen exactly these.
    pub fn new(alloc: Global, start: &MixOf) -> Result<(MixStore, MixSeat), NoMemory>
        ghost floor: { Option Mix }
        requires { IsFloorIn floor start.now }
        ensures { IfOk result (λ r. IsStart r.0 r.1 start.now floor) }
    {
        let layout = layout_of(alloc, start)?;
        let seen = start.copy(alloc)?;
        let (table, mut place) = Table::of_words(alloc, layout.words.as_slice(), start)?;
        name_floor::<Brand>(&table, &mut place);
        let places = layout.places;
        Ok((MixStore { table, places }, MixSeat { place, seen }))
    }

    /// Another seat, which has seen the same.
    pub fn split(&self, alloc: Global, seat: &mut MixSeat) -> Result<MixSeat, NoMemory>
        requires { IsSeatOf self.now seat.old }
        ensures copy { IfOk result (λ r. IsCopyOf seat.old r) }
        ensures seen { seen_of seat.new ≡ seen_of seat.old }
        ensures same { IsSameSeat seat.old seat.new }
        ensures unchanged { OnErr result (seat.new ≡ seat.old) }
    {
        let seen = seat.seen.copy(alloc)?;
        let place = self.table.shared.split_seat::<Copies>(&mut seat.place);
        Ok(MixSeat { place, seen })
    }

    /// Takes in what another seat has seen.
    pub fn join_back(&self, seat: &mut MixSeat, other: MixSeat)
        requires store { IsSeatOf self.now seat.old }
        requires other_store { IsSeatOf self.now other }
        ensures seen { seen_of seat.new ≡ tighter_of (seen_of seat.old) (seen_of other) }
        ensures inside { IsInsideMix (seen_of seat.new) (seen_of seat.old) }
        ensures inside_other { IsInsideMix (seen_of seat.new) (seen_of other) }
        ensures same { IsSameSeat seat.old seat.new }
    {
        let MixSeat { place, seen } = other;
        self.table
            .shared
            .join_seat::<Merges>(&mut seat.place, place);
        self.table.shared.load::<Learns>(&mut seat.place, 0);
        keep_tighter(&mut seat.seen, &seen);
    }
}

/// What two domains both leave: of bits from one base those in both, and of pairs the tighter bounds.
fn tighter(one: Dom, other: Dom) -> Dom
    requires one { IsDomInRange one }
    requires other { IsDomInRange other }
    ensures { result ≡ both_of one other }
{
    match (one, other) {
        (Dom::Bits { base, set }, Dom::Bits { set: kept, .. }) => Dom::Bits {
            base,
            set: set & kept,
        },
        (
            Dom::Pair { low, high },
            Dom::Pair {
                low: least,
                high: greatest,
            },
        ) => Dom::Pair {
            low: low.max(least),
            high: high.min(greatest),
        },
        _ => one,
    }
}

/// Keeps for each variable what both mixes leave.
fn keep_tighter(seen: &mut MixOf, other: &MixOf)
    requires { length other.now ≡ length seen.old }
    ensures { seen.new ≡ tighter_of seen.old other.now }
{
    for v in 0..other.len() {
        let one = seen.dom(v);
        let dom = tighter(one, other.dom(v));
        seen.put(v, dom);
    }
}
