//! Engines: one store for many propagations.

ghost use Rattle.std.specs.Prelude.{◌≡◌, ◌≤◌, ◌↔◌, ◌+◌, length, Option, IfOk, IsErr, OnOk, OnErr};
ghost use Rattle.interval.specs.Limits.{box_limit};
ghost use Rattle.interval.specs.Boxes.{Bounds};
ghost use Rattle.lattice_store.specs.Words.{last_epoch};
ghost use Rattle.lattice_store.specs.Seats.{seen_of, floor_of, seat_epoch, IsFirst, IsSeatOf, IsFloorIn, IsStart};
ghost use Rattle.rounds.specs.Lanes.{AreLanes};
ghost use Rattle.rounds.specs.Flat.{IsFlat};

use crate::cache::{Cache, make_lanes, reset_turns};
use crate::settling::{copy_seen, settle_first};
use crate::work::Work;
use fixpoint_laws::{Limited, law_greatest_is_computed};
use gate::Gate;
use guarded_tell::Kernel;
use interval::{BoxOf, is_crossed, law_inside_order};
use lattice_store::{Full, Seat, Store};
use memory::NoMemory;
use shared_lanes::Lane;
use std::alloc::{AllocError, Global};
use std::thread::Threads;

/// Pairs of the bounds 0.
fn flat_pairs(alloc: Global, len: u32) -> Result<Vec<(i64, i64)>, AllocError>
    ensures length { IfOk result (λ v. length v.items ≡ len) }
    ensures flat { IfOk result (λ v. IsFlat v.items) }
{
    let mut pairs = Vec::new(alloc);
    for _ in 0..len {
        pairs.push((0, 0))?;
    }
    Ok(pairs)
}

/// A box of this length whose variables are all 0.
fn flat_box(alloc: Global, len: u32) -> Result<BoxOf, NoMemory>
    requires { len ≤ box_limit }
    ensures { IfOk result (λ b. length b ≡ len) }
{
    let pairs = flat_pairs(alloc, len)?;
    BoxOf::from_pairs(alloc, pairs.as_slice())
}

// A call names the floor by what it is passed, so these two are passed the kernels too.

/// Opens the next epoch of the store.
fn open_for(
    store: &mut Store,
    first: &mut Seat,
    start: &BoxOf,
    _kernels: &[Kernel],
) -> Result<(), Full>
    ghost floor: { Option Bounds }
    requires store { IsSeatOf store.old first.old }
    requires first { IsFirst first.old }
    requires length { length start.now ≡ length (seen_of first.old) }
    requires floor { IsFloorIn floor start.now }
    ensures full { IsErr result ↔ (seat_epoch first.old ≡ last_epoch) }
    ensures unchanged { OnErr result (first.new ≡ first.old) }
    ensures epoch { OnOk result (seat_epoch first.new ≡ seat_epoch first.old + 1) }
    ensures length { length (seen_of first.new) ≡ length (seen_of first.old) }
    ensures seen { OnOk result (seen_of first.new ≡ start.now) }
    ensures floor { OnOk result (floor_of first.new ≡ floor) }
    ensures first { IsFirst first.new }
    ensures seat { IsSeatOf store.new first.new }
{
    store.open(first, start)
}

/// Makes a new store.
fn make_for(alloc: Global, start: &BoxOf, _kernels: &[Kernel]) -> Result<(Store, Seat), NoMemory>
    ghost floor: { Option Bounds }
    requires { IsFloorIn floor start.now }
    ensures { IfOk result (λ r. IsStart r.0 r.1 start.now 0 floor) }
{
    Store::new(alloc, start)
}

/// A store with its first seat and its lanes, which serves one propagation after another.
#[derive(Drop)]
pub struct Engine {
    store: Store,
    first: Seat,
    lanes: Vec<Lane<Seat, Cache>>,
    ghost of_store: { IsSeatOf store first },
    ghost is_first: { IsFirst first },
    ghost snapshots: { AreLanes (length (seen_of first)) lanes.items },
}

impl Engine {
    ghost use Rattle.std.specs.Prelude.{◌≢◌, ◌<◌, ℕ, IsOk};
    ghost use Rattle.std.specs.List.{All};
    ghost use Rattle.interval.specs.Boxes.{IsInRange, IsProper};
    ghost use Rattle.guarded_tell.specs.Kernels.{IsKernel};
    ghost use Rattle.fixpoint_laws.specs.Greatest.{greatest_of};
    ghost use Rattle.rounds.specs.Shares.{IsCut};
    ghost use Rattle.rounds.specs.Lanes.{HaveMadeNoPass};
    ghost use Rattle.rounds.specs.Ends.{HasEnded};
    ghost use Rattle.rounds.specs.Engines.{engine_len, engine_shares, engine_epoch};

    /// An engine for boxes of this length and cuts of at most so many shares. Errors: memory.
    pub fn new(alloc: Global, len: u32, shares: u32) -> Result<Engine, NoMemory>
        requires { len ≤ box_limit }
        ensures len { IfOk result (λ e. engine_len e ≡ len) }
        ensures shares { IfOk result (λ e. engine_shares e ≡ shares) }
        ensures epoch { IfOk result (λ e. engine_epoch e ≡ 0) }
    {
        let start = flat_box(alloc, len)?;
        let (store, first) = make_for(alloc, &start, &[])?;
        let lanes = make_lanes(alloc, shares, &start)?;
        Ok(Engine {
            store,
            first,
            lanes,
        })
    }

    /// Has the first seat see the bounds of the start, in a new epoch or, where there is none left, in a new store.
    fn begin(&mut self, alloc: Global, start: &BoxOf, kernels: &[Kernel]) -> Result<(), NoMemory>
        requires kernels { All (IsKernel (length start.now)) kernels.now }
        requires start { length start.now ≡ engine_len self.old }
        ensures seen { OnOk result (seen_of self.new.first ≡ start.now) }
        ensures floor { OnOk result (floor_of self.new.first ≡ greatest_of start.now kernels.now) }
        ensures turns { HaveMadeNoPass self.new.lanes.items }
        ensures memory { engine_epoch self.old ≢ last_epoch → IsOk result }
        ensures epoch { engine_epoch self.new ≤ engine_epoch self.old + 1 }
        ensures len { engine_len self.new ≡ engine_len self.old }
        ensures shares { engine_shares self.new ≡ engine_shares self.old }
    {
        law_greatest_is_computed();
        // its contract says that the bounds are in range
        let _length = start.len();
        reset_turns(&mut self.lanes);
        if open_for(&mut self.store, &mut self.first, start, kernels).is_err() {
            let (store, first) = make_for(alloc, start, kernels)?;
            self.store = store;
            self.first = first;
        }
        Ok(())
    }

    /// Narrows the start to the greatest closed box inside it, which is written to `into`, round by round, until a round
    /// moves nothing. Where no closed box is inside, `into` ends crossed. Where as many rounds as the limit were run and
    /// the last one moved something, it stops there; limit 0 is none. With one share and an epoch left it takes no memory
    /// and starts no thread. Where memory was refused, `into` is unchanged and the engine may be used again.
    pub fn propagate<R: Threads + Sync, G: Gate + Sync>(
        &mut self,
        rt: &R,
        alloc: Global,
        work: &Work<'_, G>,
        into: &mut BoxOf,
    ) -> Result<Limited, NoMemory>
        requires kernels { All (IsKernel (length work.now.start.now)) work.now.kernels.now }
        requires start { length work.now.start.now ≡ engine_len self.old }
        requires cut { IsCut (length work.now.kernels.now) work.now.cut.now }
        requires shares { length work.now.cut.now ≤ engine_shares self.old }
        requires into { length into.old ≡ length work.now.start.now }
        ensures ended { IfOk result (HasEnded work.now.kernels.now work.now.start.now into.new work.now.round_limit) }
        ensures memory { length work.now.cut.now ≡ 1 → engine_epoch self.old ≢ last_epoch → IsOk result }
        ensures unchanged { OnErr result (into.new ≡ into.old) }
        ensures length { length into.new ≡ length work.now.start.now }
        ensures len { engine_len self.new ≡ engine_len self.old }
        ensures shares { engine_shares self.new ≡ engine_shares self.old }
        ensures epoch { engine_epoch self.new ≤ engine_epoch self.old + 1 }
    {
        law_inside_order();
        if is_crossed(work.start) {
            into.copy_from(work.start);
            return Ok(Limited::Failed { rounds: 0 });
        }
        self.begin(alloc, work.start, work.kernels)?;
        let ended = settle_first(
            rt,
            alloc,
            &self.store,
            work,
            &mut self.first,
            &mut self.lanes,
        )?;
        copy_seen(&self.first, into);
        Ok(ended)
    }
}
