//! Kernels that are dealt to lanes over a store of mixes.

ghost use Rattle.std.specs.Prelude.{◌≡◌, ◌<◌, false, length, IfOk, OnErr};
ghost use Rattle.std.specs.List.{All};
ghost use Rattle.mix_store.specs.Seats.{seen_of};
ghost use Rattle.mix_store.specs.declared.seat.MixSeat.{MixSeat};
ghost use Rattle.mix_rounds.specs.Lanes.{FitsLength, IsGiven, HasRun, AreTaken};

use crate::cache::Cache;
use crate::share::run_share;
use gate::Gate;
use guarded_tell::Kernel;
use memory::NoMemory;
use mix_store::{MixSeat, MixStore};
use shared_lanes::{Lane, Shared, run_lanes};
use std::alloc::Global;
use std::thread::Threads;

/// The kernels and their cut, over a store of mixes.
#[derive(Drop)]
pub(crate) struct Dealt<'a> {
    pub(crate) store: &'a MixStore,
    pub(crate) kernels: &'a [Kernel],
    pub(crate) cut: &'a [Vec<u32>],
}

impl Shared<MixSeat, Cache> for Dealt<'_> {
    ghost use Rattle.std.specs.Prelude.{length};
    ghost use Rattle.mix_store.specs.Seats.{seen_of};
    ghost use Rattle.mix_rounds.specs.Lanes.{FitsLength, IsGiven, HasRun, AreTaken};

    ghost count = { λ d. length d.cut.now };

    ghost fits = { λ d first cache. FitsLength (length (seen_of first)) cache };

    ghost given = { IsGiven };

    ghost ran = { HasRun };

    ghost taken = { AreTaken };

    fn split(&self, alloc: Global, seat: &mut MixSeat) -> Result<MixSeat, NoMemory> {
        self.store.split(alloc, seat)
    }

    fn join_back(&self, seat: &mut MixSeat, other: MixSeat) {
        self.store.join_back(seat, other);
    }
}

/// Runs the share of a lane.
fn run_one<G: Gate>(
    dealt: &Dealt<'_>,
    gate: &G,
    seat: &mut MixSeat,
    cache: &mut Cache,
    i: usize,
) -> bool
    requires index { i < length dealt.now.cut.now }
    requires lane { (first : MixSeat) × IsGiven dealt.now first seat.old × FitsLength (length (seen_of first)) cache.old }
    ensures { (first : MixSeat) → IsGiven dealt.now first seat.old → FitsLength (length (seen_of first)) cache.old → HasRun dealt.now first i seat.new result × FitsLength (length (seen_of first)) cache.new }
{
    run_share(dealt.store, seat, cache, dealt.kernels, &dealt.cut[i], gate)
}

/// A round: each lane runs its share in a thread. Says whether one of them saw a number go.
pub(crate) fn run_dealt<R: Threads + Sync, G: Gate + Sync>(
    rt: &R,
    alloc: Global,
    dealt: &Dealt<'_>,
    gate: &G,
    first: &mut MixSeat,
    lanes: &mut [Lane<MixSeat, Cache>],
) -> Result<bool, NoMemory>
    requires some { 0 < length lanes.old }
    requires count { length dealt.now.cut.now ≡ length lanes.old }
    requires begins { AreTaken dealt.now first.old 0 first.old false }
    requires lengths { All (λ l. FitsLength (length (seen_of first.old)) l.cache) lanes.old }
    ensures lengths { All (λ l. FitsLength (length (seen_of first.old)) l.cache) lanes.new }
    ensures taken { IfOk result (AreTaken dealt.now first.old (length lanes.old) first.new) }
{
    let run = |seat: &mut MixSeat, cache: &mut Cache, i: usize| -> bool
        requires { (i < length dealt.now.cut.now) × ((first : MixSeat) × IsGiven dealt.now first seat.now × FitsLength (length (seen_of first)) cache.now) }
        ensures { (first : MixSeat) → IsGiven dealt.entry.now first seat.entry.now → FitsLength (length (seen_of first)) cache.entry.now → HasRun dealt.entry.now first i seat.exit.now result × FitsLength (length (seen_of first)) cache.exit.now }
    { run_one(dealt, gate, seat, cache, i) };
    run_lanes(rt, alloc, dealt, &run, first, lanes)
}
