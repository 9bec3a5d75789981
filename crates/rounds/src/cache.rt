//! What lanes keep from round to round.

ghost use Rattle.std.specs.Prelude.{◌≡◌, ℕ, length, IfOk};
ghost use Rattle.rounds.specs.Lanes.{AreLanes, HaveMadeNoPass};

use interval::BoxOf;
use lattice_store::Seat;
use memory::NoMemory;
use shared_lanes::Lane;
use std::alloc::Global;

/// What a lane keeps of its own from round to round.
#[derive(Drop)]
pub struct Cache {
    /// The number of the lane.
    pub lane: u32,
    /// How many passes the lane has made in this propagation. It stays at its greatest value.
    pub turn: u64,
    /// Where the bounds of a kernel's variables are copied before it runs.
    pub snapshot: BoxOf,
}

impl Cache {
    /// The cache of a lane that has made no pass, for boxes of the length of `start`. Errors: memory.
    pub fn new(alloc: Global, lane: u32, start: &BoxOf) -> Result<Cache, NoMemory>
        ensures lane { IfOk result (λ c. c.lane ≡ lane) }
        ensures turn { IfOk result (λ c. c.turn ≡ 0) }
        ensures snapshot { IfOk result (λ c. c.snapshot ≡ start.now) }
    {
        let snapshot = start.copy(alloc)?;
        Ok(Cache {
            lane,
            turn: 0,
            snapshot,
        })
    }
}

/// So many lanes without a seat.
pub(crate) fn make_lanes(
    alloc: Global,
    count: u32,
    start: &BoxOf,
) -> Result<Vec<Lane<Seat, Cache>>, NoMemory>
    ensures count { IfOk result (λ v. length v.items ≡ count) }
    ensures snapshots { IfOk result (λ v. AreLanes (length start.now) v.items) }
{
    let mut lanes = Vec::new(alloc);
    for i in 0..count {
        let lane = Lane::new(Cache::new(alloc, i, start)?);
        if lanes.push(lane).is_err() {
            return Err(NoMemory);
        }
    }
    Ok(lanes)
}

/// Has the lanes count their passes from 0.
pub(crate) fn reset_turns(lanes: &mut Vec<Lane<Seat, Cache>>)
    ensures length { length lanes.new.items ≡ length lanes.old.items }
    ensures turns { HaveMadeNoPass lanes.new.items }
    ensures snapshots { (count : ℕ) → AreLanes count lanes.old.items → AreLanes count lanes.new.items }
{
    for i in 0..lanes.len() {
        lanes[i].cache.turn = 0;
    }
}
