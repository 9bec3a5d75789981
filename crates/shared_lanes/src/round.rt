//! One round.

ghost use Rattle.std.specs.Prelude.{◌≡◌, ◌<◌, ℕ, false, length, slice_index_or, IfOk, OnErr};
ghost use Rattle.std.specs.List.{All};
ghost use Rattle.shared_lanes.specs.declared.lane.Lane.{Lane};
ghost use Rattle.shared_lanes.specs.Lanes.{HasSeat, SameCaches};

use crate::lane::{Lane, run_lane, seat_lane, unseat_lane};
use crate::shared::Shared;
use memory::NoMemory;
use std::alloc::Global;
use std::thread::{Threads, for_each_mut};

/// Gives each lane a seat.
fn seat_lanes<S: Drop, C, J: Shared<S, C>>(
    alloc: Global,
    job: &J,
    first: &mut S,
    lanes: &mut [Lane<S, C>],
) -> Result<(), NoMemory>
    requires { J.taken job.now first.old 0 first.old false }
    ensures taken { J.taken job.now first.old 0 first.new false }
    ensures caches { SameCaches lanes.old lanes.new }
    ensures given { IfOk result (λ _. (i : ℕ) (d : Lane S C) → i < length lanes.old → HasSeat (slice_index_or lanes.new i d).seat (J.given job.now first.old)) }
{
    for i in 0..lanes.len() {
        seat_lane(alloc, job, first, &mut lanes[i])?;
    }
    Ok(())
}

/// Has all lanes run their shares, side by side.
fn run_all<
    R: Threads + Sync,
    S: Send,
    C: Send,
    J: Shared<S, C> + Sync,
    F: Fn(&mut S, &mut C, usize) -> bool + Sync,
>(rt: &R, job: &J, run: &F, lanes: &mut [Lane<S, C>])
    requires some { 0 < length lanes.old }
    requires count { J.count job.now ≡ length lanes.old }
    requires can { (seat : _) (cache : _) (i : ℕ) → i < J.count job.now → ((first : S) × J.given job.now first seat.now × J.fits job.now first cache.now) → F.pre run.now seat cache i }
    requires does { (first : S) (seat : _) (cache : _) (i : ℕ) (moved : _) (seat2 : _) (cache2 : _) → i < J.count job.now → J.given job.now first seat.now → J.fits job.now first cache.now → F.post run.now seat cache i moved seat2 cache2 → J.ran job.now first i seat2.now moved × J.fits job.now first cache2.now }
    requires lanes { (first : S) × ((i : ℕ) (d : Lane S C) → i < length lanes.old → HasSeat (slice_index_or lanes.old i d).seat (J.given job.now first) × J.fits job.now first (slice_index_or lanes.old i d).cache) }
    ensures { (first : S) → ((i : ℕ) (d : Lane S C) → i < length lanes.old → HasSeat (slice_index_or lanes.old i d).seat (J.given job.now first) × J.fits job.now first (slice_index_or lanes.old i d).cache)
        → (i : ℕ) (d : Lane S C) → i < length lanes.old → HasSeat (slice_index_or lanes.new i d).seat (λ s. J.ran job.now first i s (slice_index_or lanes.new i d).moved) × J.fits job.now first (slice_index_or lanes.new i d).cache }
{
    let threads = lanes.len();
    for_each_mut(
        rt,
        lanes,
        threads,
        &|i, lane: &mut Lane<S, C>|
            requires { (i < J.count job.now) × ((seat : _) (cache : _) (i : ℕ) → i < J.count job.now → ((first : S) × J.given job.now first seat.now × J.fits job.now first cache.now) → F.pre run.now seat cache i) × ((first : S) (seat : _) (cache : _) (i : ℕ) (moved : _) (seat2 : _) (cache2 : _) → i < J.count job.now → J.given job.now first seat.now → J.fits job.now first cache.now → F.post run.now seat cache i moved seat2 cache2 → J.ran job.now first i seat2.now moved × J.fits job.now first cache2.now) × ((first : S) × HasSeat lane.now.seat (J.given job.now first) × J.fits job.now first lane.now.cache) }
            ensures { (first : S) → HasSeat lane.entry.now.seat (J.given job.entry.now first) → J.fits job.entry.now first lane.entry.now.cache → HasSeat lane.exit.now.seat (λ s. J.ran job.entry.now first i s lane.exit.now.moved) × J.fits job.entry.now first lane.exit.now.cache }
        { run_lane(job, run, i, lane) },
    );
}

/// Takes all lanes back into the first seat, and says whether one of them saw something move.
fn unseat_lanes<S: Drop, C, J: Shared<S, C>>(
    job: &J,
    first: &mut S,
    lanes: &mut [Lane<S, C>],
) -> bool
    requires { (begun : S) × J.taken job.now begun 0 first.old false × ((i : ℕ) (d : Lane S C) → i < length lanes.old → HasSeat (slice_index_or lanes.old i d).seat (λ s. J.ran job.now begun i s (slice_index_or lanes.old i d).moved)) }
    ensures taken { (begun : S) → J.taken job.now begun 0 first.old false → ((i : ℕ) (d : Lane S C) → i < length lanes.old → HasSeat (slice_index_or lanes.old i d).seat (λ s. J.ran job.now begun i s (slice_index_or lanes.old i d).moved))
        → J.taken job.now begun (length lanes.old) first.new result }
    ensures caches { SameCaches lanes.old lanes.new }
{
    let mut moved = false;
    for i in 0..lanes.len() {
        let news = unseat_lane(job, first, &mut lanes[i]);
        moved = moved | news;
    }
    moved
}

/// One round: gives each lane a seat, has each run its share with `run`, all side by side, and takes the seats back in the
/// order of the lanes. Says whether one of them saw something move. Where memory was refused, no lane has run.
pub fn run_lanes<
    R: Threads + Sync,
    S: Send + Drop,
    C: Send,
    J: Shared<S, C> + Sync,
    F: Fn(&mut S, &mut C, usize) -> bool + Sync,
>(
    rt: &R,
    alloc: Global,
    job: &J,
    run: &F,
    first: &mut S,
    lanes: &mut [Lane<S, C>],
) -> Result<bool, NoMemory>
    requires some { 0 < length lanes.old }
    requires count { J.count job.now ≡ length lanes.old }
    requires can { (seat : _) (cache : _) (i : ℕ) → i < J.count job.now → ((first : S) × J.given job.now first seat.now × J.fits job.now first cache.now) → F.pre run.now seat cache i }
    requires does { (first : S) (seat : _) (cache : _) (i : ℕ) (moved : _) (seat2 : _) (cache2 : _) → i < J.count job.now → J.given job.now first seat.now → J.fits job.now first cache.now → F.post run.now seat cache i moved seat2 cache2 → J.ran job.now first i seat2.now moved × J.fits job.now first cache2.now }
    requires begins { J.taken job.now first.old 0 first.old false }
    requires fits { All (λ lane. J.fits job.now first.old lane.cache) lanes.old }
    ensures taken { IfOk result (J.taken job.now first.old (length lanes.old) first.new) }
    ensures refused { OnErr result (J.taken job.now first.old 0 first.new false) }
    ensures fits { All (λ lane. J.fits job.now first.old lane.cache) lanes.new }
{
    seat_lanes(alloc, job, first, lanes)?;
    run_all(rt, job, run, lanes);
    Ok(unseat_lanes(job, first, lanes))
}
