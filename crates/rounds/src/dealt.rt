//! Kernels that are dealt to lanes over a store.

ghost use Rattle.std.specs.Prelude.{◌≡◌, ◌≢◌, ◌<◌, length, IfSome};
ghost use Rattle.std.specs.Bool.{OnTrue, OnFalse};
ghost use Rattle.interval.specs.Boxes.{IsInside};
ghost use Rattle.guarded_tell.specs.Kernels.{IsKernel, IsClosedUnder};
ghost use Rattle.lattice_store.specs.Seats.{seen_of, floor_of, IsPast, IsSeatOf, IsSameSeat};
ghost use Rattle.rounds.specs.Shares.{AllNamed, WasHeard, share_at};
ghost use Rattle.rounds.specs.Lanes.{IsGiven, HasRun, AreTaken};

use crate::cache::Cache;
use crate::share::run_share;
use gate::Gate;
use guarded_tell::{Kernel, law_tell_place};
use lattice_store::{Seat, Store};
use memory::NoMemory;
use shared_lanes::Shared;
use std::alloc::Global;

/// The kernels and their cut, over a store of bounds.
#[derive(Drop)]
pub(crate) struct Dealt<'a> {
    pub(crate) store: &'a Store,
    pub(crate) kernels: &'a [Kernel],
    pub(crate) cut: &'a [Vec<u32>],
}

impl Shared<Seat, Cache> for Dealt<'_> {
    ghost use Rattle.std.specs.Prelude.{◌≡◌, length};
    ghost use Rattle.lattice_store.specs.Seats.{seen_of};
    ghost use Rattle.rounds.specs.Lanes.{IsGiven, HasRun, AreTaken};

    ghost count = { λ d. length d.cut.now };

    ghost fits = { λ d first cache. length cache.snapshot ≡ length (seen_of first) };

    ghost given = { IsGiven };

    ghost ran = { HasRun };

    ghost taken = { AreTaken };

    fn split(&self, alloc: Global, seat: &mut Seat) -> Result<Seat, NoMemory> {
        self.store.split(alloc, seat)
    }

    fn join_back(&self, seat: &mut Seat, other: Seat) {
        law_tell_place();
        self.store.join_back(seat, other);
    }
}
