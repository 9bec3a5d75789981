//! Rounds, until one moves nothing.

ghost use Rattle.std.specs.Prelude.{◌≡◌, ◌≢◌, ◌<◌, ◌≤◌, false, length, IfOk, OnErr, IsOk, IfSome, IsTrue, IsFalse, ◌↔◌};
ghost use Rattle.std.specs.List.{All};
ghost use Rattle.interval.specs.Boxes.{IsCrossed, IsProper, IsInRange};
ghost use Rattle.guarded_tell.specs.Kernels.{IsKernel, IsClosedUnder};
ghost use Rattle.fixpoint_laws.specs.Greatest.{greatest_of};
ghost use Rattle.lattice_store.specs.Seats.{seen_of, floor_of, IsFirst, IsSeatOf, IsSameSeat};
ghost use Rattle.rounds.specs.Shares.{IsCut};
ghost use Rattle.lattice_store.specs.declared.seat.Seat.{Seat};
ghost use Rattle.rounds.specs.Lanes.{AreLanes, IsGiven, HasRun, AreTaken};
ghost use Rattle.rounds.specs.Ends.{IsRound, HasEnded};

use crate::cache::Cache;
use crate::dealt::Dealt;
use crate::share::run_share;
use crate::work::Work;
use fixpoint_laws::{Limited, law_greatest_is_computed, law_rounds_lead};
use gate::Gate;
use interval::{BoxOf, law_inside_order};
use lattice_store::{Seat, Store};
use memory::NoMemory;
use shared_lanes::{Lane, run_lanes};
use std::alloc::Global;
use std::thread::Threads;

/// A round of the one lane of a cut of one share. The first seat runs it.
fn run_alone<G: Gate>(
    store: &Store,
    work: &Work<'_, G>,
    first: &mut Seat,
    lane: &mut Lane<Seat, Cache>,
) -> bool
    requires store { IsSeatOf store.now first.old }
    requires first { IsFirst first.old }
    requires kernels { All (IsKernel (length (seen_of first.old))) work.now.kernels.now }
    requires cut { IsCut (length work.now.kernels.now) work.now.cut.now }
    requires one { length work.now.cut.now ≡ 1 }
    requires snapshot { length lane.old.cache.snapshot ≡ length (seen_of first.old) }
    requires floor { IfSome (floor_of first.old) (λ f. All (λ k. IsClosedUnder k f) work.now.kernels.now) }
    ensures same { IsSameSeat first.old first.new }
    ensures snapshot { length lane.new.cache.snapshot ≡ length (seen_of first.old) }
    ensures round { IsRound work.now.kernels.now (seen_of first.old) (seen_of first.new) result }
{
    let moved = run_share(
        store,
        first,
        &mut lane.cache,
        work.kernels,
        &work.cut[0],
        work.gate,
    );
    first.law_floor();
    moved
}

/// Runs the share of a lane.
fn run_one<G: Gate>(
    dealt: &Dealt<'_>,
    gate: &G,
    seat: &mut Seat,
    cache: &mut Cache,
    i: usize,
) -> bool
    requires index { i < length dealt.now.cut.now }
    requires lane { (first : Seat) × IsGiven dealt.now first seat.old × (length cache.old.snapshot ≡ length (seen_of first)) }
    ensures { (first : Seat) → IsGiven dealt.now first seat.old → length cache.old.snapshot ≡ length (seen_of first) → HasRun dealt.now first i seat.new result × (length cache.new.snapshot ≡ length (seen_of first)) }
{
    run_share(dealt.store, seat, cache, dealt.kernels, &dealt.cut[i], gate)
}

/// Has each lane run its share in a thread.
fn run_dealt<R: Threads + Sync, G: Gate + Sync>(
    rt: &R,
    alloc: Global,
    dealt: &Dealt<'_>,
    gate: &G,
    first: &mut Seat,
    lanes: &mut [Lane<Seat, Cache>],
) -> Result<bool, NoMemory>
    requires some { 0 < length lanes.old }
    requires count { length dealt.now.cut.now ≡ length lanes.old }
    requires begins { AreTaken dealt.now first.old 0 first.old false }
    requires snapshots { AreLanes (length (seen_of first.old)) lanes.old }
    ensures snapshots { AreLanes (length (seen_of first.old)) lanes.new }
    ensures taken { IfOk result (AreTaken dealt.now first.old (length lanes.old) first.new) }
    ensures refused { OnErr result (AreTaken dealt.now first.old 0 first.new false) }
{
    let run = |seat: &mut Seat, cache: &mut Cache, i: usize| -> bool
        requires { (i < length dealt.now.cut.now) × ((first : Seat) × IsGiven dealt.now first seat.now × (length cache.now.snapshot ≡ length (seen_of first))) }
        ensures { (first : Seat) → IsGiven dealt.entry.now first seat.entry.now → length cache.entry.now.snapshot ≡ length (seen_of first) → HasRun dealt.entry.now first i seat.exit.now result × (length cache.exit.now.snapshot ≡ length (seen_of first)) }
    { run_one(dealt, gate, seat, cache, i) };
    run_lanes(rt, alloc, dealt, &run, first, lanes)
}

/// A round of all lanes, each in a thread.
fn run_together<R: Threads + Sync, G: Gate + Sync>(
    rt: &R,
    alloc: Global,
    store: &Store,
    work: &Work<'_, G>,
    first: &mut Seat,
    lanes: &mut [Lane<Seat, Cache>],
) -> Result<bool, NoMemory>
    requires store { IsSeatOf store.now first.old }
    requires first { IsFirst first.old }
    requires kernels { All (IsKernel (length (seen_of first.old))) work.now.kernels.now }
    requires cut { IsCut (length work.now.kernels.now) work.now.cut.now }
    requires count { length work.now.cut.now ≡ length lanes.old }
    requires snapshots { AreLanes (length (seen_of first.old)) lanes.old }
    requires floor { IfSome (floor_of first.old) (λ f. All (λ k. IsClosedUnder k f) work.now.kernels.now) }
    ensures same { IsSameSeat first.old first.new }
    ensures length { length (seen_of first.new) ≡ length (seen_of first.old) }
    ensures snapshots { AreLanes (length (seen_of first.old)) lanes.new }
    ensures round { IfOk result (λ m. IsRound work.now.kernels.now (seen_of first.old) (seen_of first.new) m) }
{
    let dealt = Dealt {
        store,
        kernels: work.kernels,
        cut: work.cut,
    };
    run_dealt(rt, alloc, &dealt, work.gate, first, lanes)
}

/// One round: each lane starts with all that all lanes had seen, and runs its share once. Says whether some lane saw a
/// bound move. With one lane it takes no memory and starts no thread.
fn run_round<R: Threads + Sync, G: Gate + Sync>(
    rt: &R,
    alloc: Global,
    store: &Store,
    work: &Work<'_, G>,
    first: &mut Seat,
    lanes: &mut [Lane<Seat, Cache>],
) -> Result<bool, NoMemory>
    requires store { IsSeatOf store.now first.old }
    requires first { IsFirst first.old }
    requires kernels { All (IsKernel (length (seen_of first.old))) work.now.kernels.now }
    requires cut { IsCut (length work.now.kernels.now) work.now.cut.now }
    requires count { length work.now.cut.now ≡ length lanes.old }
    requires snapshots { AreLanes (length (seen_of first.old)) lanes.old }
    requires floor { IfSome (floor_of first.old) (λ f. All (λ k. IsClosedUnder k f) work.now.kernels.now) }
    ensures same { IsSameSeat first.old first.new }
    ensures length { length (seen_of first.new) ≡ length (seen_of first.old) }
    ensures snapshots { AreLanes (length (seen_of first.old)) lanes.new }
    ensures memory { length work.now.cut.now ≡ 1 → IsOk result }
    ensures round { IfOk result (λ m. IsRound work.now.kernels.now (seen_of first.old) (seen_of first.new) m) }
{
    if lanes.len() == 1 {
        Ok(run_alone(store, work, first, &mut lanes[0]))
    } else {
        run_together(rt, alloc, store, work, first, lanes)
    }
}

/// Whether for some variable the seat has seen that no number is left.
fn is_seen_crossed(seat: &Seat, len: u32) -> bool
    requires { len ≡ length (seen_of seat.now) }
    ensures crossed { IsTrue result ↔ IsCrossed (seen_of seat.now) }
    ensures proper { IsFalse result ↔ IsProper (seen_of seat.now) }
{
    for v in 0..len {
        if seat.seen_low(v) > seat.seen_high(v) {
            return true;
        }
    }
    false
}

/// Copies what the seat has seen.
pub(crate) fn copy_seen(seat: &Seat, into: &mut BoxOf)
    requires { length into.old ≡ length (seen_of seat.now) }
    ensures { into.new ≡ seen_of seat.now }
{
    for v in 0..into.len() {
        into.put(v, seat.seen_low(v), seat.seen_high(v));
    }
}

/// Whether so many rounds are all that the limit allows.
fn is_spent(rounds: u128, round_limit: u64) -> bool
    ensures { IsTrue result ↔ ((round_limit ≢ 0) × (rounds ≡ round_limit)) }
{
    round_limit != 0 && rounds == u128::from(round_limit)
}

/// Runs rounds from a proper start, which the first seat has seen, until one moves nothing, some variable has no number
/// left or the limit is spent. Limit 0 is none.
fn settle<R: Threads + Sync, G: Gate + Sync>(
    rt: &R,
    alloc: Global,
    store: &Store,
    work: &Work<'_, G>,
    first: &mut Seat,
    lanes: &mut [Lane<Seat, Cache>],
) -> Result<Limited, NoMemory>
    requires store { IsSeatOf store.now first.old }
    requires first { IsFirst first.old }
    requires seen { seen_of first.old ≡ work.now.start.now }
    requires proper { IsProper work.now.start.now }
    requires kernels { All (IsKernel (length work.now.start.now)) work.now.kernels.now }
    requires cut { IsCut (length work.now.kernels.now) work.now.cut.now }
    requires count { length work.now.cut.now ≡ length lanes.old }
    requires snapshots { AreLanes (length work.now.start.now) lanes.old }
    requires floor { floor_of first.old ≡ greatest_of work.now.start.now work.now.kernels.now }
    ensures same { IsSameSeat first.old first.new }
    ensures length { length (seen_of first.new) ≡ length work.now.start.now }
    ensures snapshots { AreLanes (length work.now.start.now) lanes.new }
    ensures memory { length work.now.cut.now ≡ 1 → IsOk result }
    ensures ended { IfOk result (HasEnded work.now.kernels.now work.now.start.now (seen_of first.new) work.now.round_limit) }
{
    law_inside_order();
    law_greatest_is_computed();
    law_rounds_lead();
    let len = work.start.len();
    let mut rounds = 0;
    'rounds: loop {
        rounds += 1;
        first.law_floor();
        if !run_round(rt, alloc, store, work, first, lanes)? {
            return Ok(Limited::Fixed { rounds });
        }
        first.law_floor();
        if is_seen_crossed(first, len) {
            return Ok(Limited::Failed { rounds });
        }
        if is_spent(rounds, work.round_limit) {
            return Ok(Limited::RoundsSpent { rounds });
        }
    }
}

/// Settles with as many of the lanes as the cut has shares, within so many rounds. Limit 0 is none.
pub(crate) fn settle_first<R: Threads + Sync, G: Gate + Sync>(
    rt: &R,
    alloc: Global,
    store: &Store,
    work: &Work<'_, G>,
    first: &mut Seat,
    lanes: &mut Vec<Lane<Seat, Cache>>,
) -> Result<Limited, NoMemory>
    requires store { IsSeatOf store.now first.old }
    requires first { IsFirst first.old }
    requires seen { seen_of first.old ≡ work.now.start.now }
    requires proper { IsProper work.now.start.now }
    requires kernels { All (IsKernel (length work.now.start.now)) work.now.kernels.now }
    requires cut { IsCut (length work.now.kernels.now) work.now.cut.now }
    requires count { length work.now.cut.now ≤ length lanes.old.items }
    requires snapshots { AreLanes (length work.now.start.now) lanes.old.items }
    requires floor { floor_of first.old ≡ greatest_of work.now.start.now work.now.kernels.now }
    ensures same { IsSameSeat first.old first.new }
    ensures length { length (seen_of first.new) ≡ length work.now.start.now }
    ensures count { length lanes.new.items ≡ length lanes.old.items }
    ensures snapshots { AreLanes (length work.now.start.now) lanes.new.items }
    ensures memory { length work.now.cut.now ≡ 1 → IsOk result }
    ensures ended { IfOk result (HasEnded work.now.kernels.now work.now.start.now (seen_of first.new) work.now.round_limit) }
{
    let (used, _) = lanes.as_mut_slice().split_at_mut(work.cut.len());
    settle(rt, alloc, store, work, first, used)
}
