//! What lanes keep from round to round.

ghost use Rattle.std.specs.Prelude.{◌≡◌, length, IfOk};
ghost use Rattle.std.specs.List.{All};
ghost use Rattle.bit_domain.specs.Mixes.{hull};
ghost use Rattle.mix_rounds.specs.Lanes.{FitsLength};

use bit_domain::MixOf;
use domain_drops::law_hull_inside;
use interval::BoxOf;
use memory::NoMemory;
use mix_store::MixSeat;
use shared_lanes::Lane;
use std::alloc::{AllocError, Global};

/// What a lane keeps of its own from round to round.
#[derive(Drop)]
pub struct Cache {
    /// The number of the lane.
    pub lane: u32,
    /// How many passes the lane has made. It stays at its greatest value.
    pub turn: u64,
    /// Where the domains of a kernel's variables are copied before it runs.
    pub mix: MixOf,
    /// The bounds of these domains.
    pub bounds: BoxOf,
}

/// The pairs of a mix's bounds.
fn pairs_of(alloc: Global, m: &MixOf) -> Result<Vec<(i64, i64)>, AllocError>
    ensures { IfOk result (λ pairs. pairs.items ≡ hull m.now) }
{
    let mut pairs = Vec::new(alloc);
    for v in 0..m.len() {
        pairs.push((m.low(v), m.high(v)))?;
    }
    Ok(pairs)
}

/// The cache of a lane that has made no pass, for mixes of the length of `start`.
fn make_cache(alloc: Global, lane: u32, start: &MixOf) -> Result<Cache, NoMemory>
    ensures { IfOk result (FitsLength (length start.now)) }
{
    law_hull_inside();
    // its contract says that the start is in range
    let _length = start.len();
    let mix = start.copy(alloc)?;
    let pairs = pairs_of(alloc, start)?;
    let bounds = BoxOf::from_pairs(alloc, pairs.as_slice())?;
    Ok(Cache {
        lane,
        turn: 0,
        mix,
        bounds,
    })
}

/// So many lanes without a seat.
pub(crate) fn make_lanes(
    alloc: Global,
    count: u32,
    start: &MixOf,
) -> Result<Vec<Lane<MixSeat, Cache>>, NoMemory>
    ensures count { IfOk result (λ v. length v.items ≡ count) }
    ensures lengths { IfOk result (λ v. All (λ l. FitsLength (length start.now) l.cache) v.items) }
{
    let mut lanes = Vec::new(alloc);
    for i in 0..count {
        let lane = Lane::new(make_cache(alloc, i, start)?);
        if lanes.push(lane).is_err() {
            return Err(NoMemory);
        }
    }
    Ok(lanes)
}
