//! One propagation by lanes over a mix.

ghost use Rattle.std.specs.Prelude.{◌≡◌, ◌↔◌, length, IfOk, IsTrue, IsFalse, Option};
ghost use Rattle.std.specs.List.{All};
ghost use Rattle.interval.specs.Boxes.{IsCrossed, IsProper};
ghost use Rattle.guarded_tell.specs.Kernels.{IsKernel};
ghost use Rattle.shared_lanes.specs.Cuts.{IsCut};
ghost use Rattle.bit_domain.specs.Mixes.{Mix, hull, IsMixInRange};
ghost use Rattle.mix_store.specs.Seats.{seen_of, floor_of, IsFloorIn, IsStart};
ghost use Rattle.mix_rounds.specs.Greatest.{greatest_mix_of};
ghost use Rattle.mix_rounds.specs.Lanes.{FitsLength, MayBegin};
ghost use Rattle.mix_rounds.specs.Ends.{HasPropagatedMix, HasSettled};

use crate::cache::{Cache, make_lanes};
use crate::dealt::{Dealt, run_dealt};
use crate::laws::law_greatest_mix_is_computed;
use bit_domain::{MixOf, law_hull};
use domain_drops::{law_drop_place, law_inside_mix_order, law_weight};
use fixpoint_laws::Settled;
use gate::Gate;
use guarded_tell::{Kernel, law_tell_place};
use memory::NoMemory;
use mix_store::{MixSeat, MixStore};
use shared_lanes::Lane;
use std::alloc::Global;
use std::thread::Threads;

/// How one propagation over a mix ended, and after how many rounds.
#[derive(Drop)]
pub enum PropagatedMix {
    /// The mix is the greatest closed mix inside the start.
    Fixed {
        /// The mix.
        mix: MixOf,
        /// The rounds.
        rounds: u128,
    },
    /// No closed mix is inside the start.
    Failed {
        /// The rounds.
        rounds: u128,
    },
}

/// Whether for some variable no number is left.
fn is_crossed_mix(m: &MixOf) -> bool
    ensures crossed { IsTrue result ↔ IsCrossed (hull m.now) }
    ensures proper { IsFalse result ↔ IsProper (hull m.now) }
    ensures in_range { IsMixInRange m.now }
{
    for v in 0..m.len() {
        if m.low(v) > m.high(v) {
            return true;
        }
    }
    false
}

/// Copies what the seat has seen.
fn copy_seen(seat: &MixSeat, into: &mut MixOf)
    requires { length into.old ≡ length (seen_of seat.now) }
    ensures { into.new ≡ seen_of seat.now }
{
    for v in 0..into.len() {
        into.put(v, seat.seen_dom(v));
    }
}

// A call names the floor by what it is passed, so this one is passed the kernels too.

/// Makes a store.
fn make_for(
    alloc: Global,
    start: &MixOf,
    _kernels: &[Kernel],
) -> Result<(MixStore, MixSeat), NoMemory>
    ghost floor: { Option Mix }
    requires { IsFloorIn floor start.now }
    ensures { IfOk result (λ r. IsStart r.0 r.1 start.now floor) }
{
    MixStore::new(alloc, start)
}

/// Runs rounds from a proper start, which the first seat has seen and `into` is, until one moves nothing or some variable has
/// no number left. `into` ends as what the first seat has seen then.
fn settle<R: Threads + Sync, G: Gate + Sync>(
    rt: &R,
    alloc: Global,
    dealt: &Dealt<'_>,
    gate: &G,
    first: &mut MixSeat,
    lanes: &mut [Lane<MixSeat, Cache>],
    into: &mut MixOf,
) -> Result<Settled, NoMemory>
    requires begins { MayBegin dealt.now first.old }
    requires seen { seen_of first.old ≡ into.old }
    requires proper { IsProper (hull into.old) }
    requires kernels { All (IsKernel (length into.old)) dealt.now.kernels.now }
    requires count { length dealt.now.cut.now ≡ length lanes.old }
    requires lengths { All (λ l. FitsLength (length into.old) l.cache) lanes.old }
    requires floor { floor_of first.old ≡ greatest_mix_of into.old dealt.now.kernels.now }
    ensures { IfOk result (HasSettled dealt.now.kernels.now into.old into.new) }
{
    law_greatest_mix_is_computed();
    law_inside_mix_order();
    law_tell_place();
    law_drop_place();
    law_hull();
    law_weight();
    // its contract says that the start is in range
    let _length = into.len();
    let mut rounds = 0;
    'rounds: loop {
        rounds += 1;
        first.law_floor();
        let moved = run_dealt(rt, alloc, dealt, gate, first, lanes)?;
        copy_seen(first, into);
        if !moved {
            return Ok(Settled::Fixed { rounds });
        }
        first.law_floor();
        if is_crossed_mix(into) {
            return Ok(Settled::Failed { rounds });
        }
    }
}

/// The greatest closed mix inside a start, or that there is none. Errors: memory.
pub fn propagate_mix<R: Threads + Sync, G: Gate + Sync>(
    rt: &R,
    alloc: Global,
    start: &MixOf,
    kernels: &[Kernel],
    cut: &[Vec<u32>],
    gate: &G,
) -> Result<PropagatedMix, NoMemory>
    requires kernels { All (IsKernel (length start.now)) kernels.now }
    requires cut { IsCut (length kernels.now) cut.now }
    ensures { IfOk result (HasPropagatedMix kernels.now start.now) }
{
    law_greatest_mix_is_computed();
    law_inside_mix_order();
    if is_crossed_mix(start) {
        return Ok(PropagatedMix::Failed { rounds: 0 });
    }
    let (store, mut first) = make_for(alloc, start, kernels)?;
    let mut lanes = make_lanes(alloc, cut.len() as u32, start)?;
    let mut mix = start.copy(alloc)?;
    let dealt = Dealt {
        store: &store,
        kernels,
        cut,
    };
    let ended = settle(rt, alloc, &dealt, gate, &mut first, &mut lanes, &mut mix)?;
    Ok(match ended {
        Settled::Fixed { rounds } => PropagatedMix::Fixed { mix, rounds },
        Settled::Failed { rounds } => PropagatedMix::Failed { rounds },
    })
}
