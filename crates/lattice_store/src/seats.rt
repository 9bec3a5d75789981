//! Making, splitting, joining and ending seats.

ghost use Rattle.std.specs.Prelude.{◌≡◌, ◌<◌, ◌≤◌, length, false, Option, IfOk, OnOk, OnErr};
ghost use Rattle.interval.specs.Boxes.{Bounds};
ghost use Rattle.lattice_store.specs.Words.{last_epoch};
ghost use Rattle.lattice_store.specs.Seats.{seen_of, floor_of, seat_epoch, IsFirst, IsPast, IsSeatOf, IsSameSeat, IsCopyOf, IsFloorIn, IsStart, tighter_of};

use crate::make::{name_floor, words_of};
use crate::seat::{Seat, keep_greater, one_of};
use crate::store::Store;
use crate::table::{Copies, Learns, Made, Merges, Table};
use crate::words::origin_word;
use interval::BoxOf;
use memory::NoMemory;
use std::alloc::Global;
use std::marker::Brand;

impl Store {
    /// A store of the bounds of `start` at epoch 0, and its first seat, which has seen exactly these.
    #[tactic(auto, unfolding(crate::specs::Words::last_epoch, crate::specs::Words::span, crate::specs::Words::middle, crate::specs::Words::doubled_to, interval::specs::Limits::bound_limit, interval::specs::Limits::largest_number))]
    pub fn new(alloc: Global, start: &BoxOf) -> Result<(Store, Seat), NoMemory>
        ghost floor: { Option Bounds }
        requires { IsFloorIn floor start.now }
        ensures { IfOk result (λ r. IsStart r.0 r.1 start.now 0 floor) }
    {
        Store::new_from(alloc, start, 0)
    }

    /// A store of the bounds of `start` at an epoch, and its first seat, which has seen exactly these.
    pub fn new_from(alloc: Global, start: &BoxOf, epoch: u32) -> Result<(Store, Seat), NoMemory>
        ghost floor: { Option Bounds }
        requires epoch { epoch ≤ last_epoch }
        requires floor { IsFloorIn floor start.now }
        ensures { IfOk result (λ r. IsStart r.0 r.1 start.now epoch floor) }
    {
        let words = words_of(alloc, start, epoch)?;
        let made = Made { words, epoch };
        let (table, mut place) = Table::of_words(alloc, made.words.as_slice(), &made)?;
        name_floor::<Brand>(&table, &mut place);
        let seen = made.words;
        let seat = Seat {
            place,
            seen,
            origin: origin_word(epoch),
            epoch,
            past: false,
        };
        Ok((Store { table }, seat))
    }

    /// Another seat, which has seen the same and isn't the first.
    pub fn split(&self, alloc: Global, seat: &mut Seat) -> Result<Seat, NoMemory>
        requires { IsSeatOf self.now seat.old }
        ensures copy { IfOk result (λ r. IsCopyOf seat.old r) }
        ensures seen { seen_of seat.new ≡ seen_of seat.old }
        ensures same { IsSameSeat seat.old seat.new }
        ensures unchanged { OnErr result (seat.new ≡ seat.old) }
    {
        let seen = Vec::from_slice(alloc, &seat.seen)?;
        let place = self.table.shared.split_seat::<Copies>(&mut seat.place);
        Ok(Seat {
            place,
            seen,
            origin: seat.origin,
            epoch: seat.epoch,
            past: seat.past,
        })
    }

    /// Takes in what another seat of the same epoch has seen.
    pub fn join_back(&self, seat: &mut Seat, other: Seat)
        requires store { IsSeatOf self.now seat.old }
        requires other_store { IsSeatOf self.now other }
        requires epoch { seat_epoch other ≡ seat_epoch seat.old }
        requires not_first { ¬ IsFirst other }
        ensures seen { seen_of seat.new ≡ tighter_of (seen_of seat.old) (seen_of other) }
        ensures never_past { IsFirst seat.old → ¬ IsPast other }
        ensures same { IsSameSeat seat.old seat.new }
    {
        let Seat {
            place,
            seen,
            origin: _,
            epoch: _,
            past,
        } = other;
        self.table
            .shared
            .join_seat::<Merges>(&mut seat.place, place);
        self.table.shared.load::<Learns>(&mut seat.place, 0);
        keep_greater(&mut seat.seen, &seen);
        seat.past = one_of(seat.past, past);
    }
}
