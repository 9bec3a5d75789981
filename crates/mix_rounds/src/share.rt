//! One pass over a share of the kernels: a snapshot of each kernel's variables, by single loads, and tells and drops that go
//! straight into the store.

ghost use Rattle.std.specs.Prelude.{◌≡◌, ◌≢◌, length, false, IfSome};
ghost use Rattle.std.specs.Bool.{OnTrue, OnFalse};
ghost use Rattle.std.specs.List.{All};
ghost use Rattle.guarded_tell.specs.Kernels.{IsKernel};
ghost use Rattle.bit_domain.specs.Mixes.{IsInsideMix, IsMixInRange};
ghost use Rattle.domain_drops.specs.Closed.{IsClosedMixUnder};
ghost use Rattle.mix_store.specs.Seats.{seen_of, floor_of, IsSeatOf, IsSameSeat};
ghost use Rattle.shared_lanes.specs.Cuts.{IsShare, AllNamed};
ghost use Rattle.mix_rounds.specs.Steps.{Stepped};
ghost use Rattle.mix_rounds.specs.Heard.{WasHeard};
ghost use Rattle.mix_rounds.specs.Lanes.{FitsLength, IsLawfulFloor, IsLawfulFloorFor};

use crate::asking::take_snapshot;
use crate::cache::Cache;
use crate::telling::tell_and_drop;
use bit_domain::law_hull;
use domain_drops::{law_drop, law_drop_local, law_drop_place, law_hull_inside};
use gate::Gate;
use guarded_tell::{Kernel, law_local, law_monotone, law_tell_place};
use mix_store::{MixSeat, MixStore};

/// Runs the kernel on a snapshot of its variables, unless one of these has no number left there.
fn run_kernel(
    kernel: &Kernel,
    store: &MixStore,
    seat: &mut MixSeat,
    moved: &mut bool,
    cache: &mut Cache,
)
    requires store { IsSeatOf store.now seat.old }
    requires kernel { IsKernel (length (seen_of seat.old)) kernel.now }
    requires length { FitsLength (length (seen_of seat.old)) cache.old }
    requires floor { IfSome (floor_of seat.old) (IsLawfulFloorFor kernel.now) }
    ensures length { FitsLength (length (seen_of seat.old)) cache.new }
    ensures stepped { Stepped seat.old moved.old seat.new moved.new }
    ensures heard { WasHeard (seen_of seat.old) (seen_of seat.new) kernel.now }
{
    if take_snapshot(kernel, store, seat, moved, cache) {
        law_monotone();
        law_tell_place();
        law_local();
        law_hull();
        law_hull_inside();
        law_drop();
        law_drop_place();
        law_drop_local();
        seat.law_floor();
        // their contracts say that the numbers are in range
        let _length = cache.mix.len();
        let _bounds = cache.bounds.len();
        tell_and_drop(kernel, &cache.bounds, &cache.mix, store, seat, moved);
    }
}

/// Runs each kernel of the share once, in order, and says whether what the seat has seen moved. The gate is passed before
/// each kernel.
pub(crate) fn run_share<G: Gate>(
    store: &MixStore,
    seat: &mut MixSeat,
    cache: &mut Cache,
    kernels: &[Kernel],
    share: &[u32],
    gate: &G,
) -> bool
    requires store { IsSeatOf store.now seat.old }
    requires kernels { All (IsKernel (length (seen_of seat.old))) kernels.now }
    requires share { IsShare (length kernels.now) share.now }
    requires length { FitsLength (length (seen_of seat.old)) cache.old }
    requires floor { IfSome (floor_of seat.old) (IsLawfulFloor kernels.now) }
    ensures same { IsSameSeat seat.old seat.new }
    ensures inside { IsInsideMix (seen_of seat.new) (seen_of seat.old) }
    ensures still { OnFalse result (seen_of seat.new ≡ seen_of seat.old) }
    ensures moved { OnTrue result (seen_of seat.new ≢ seen_of seat.old) }
    ensures heard { AllNamed (WasHeard (seen_of seat.old) (seen_of seat.new)) share.now kernels.now }
    ensures length { FitsLength (length (seen_of seat.old)) cache.new }
{
    let mut moved = false;
    for j in share {
        gate.pass(cache.lane, cache.turn);
        cache.turn = cache.turn.saturating_add(1);
        run_kernel(&kernels[*j as usize], store, seat, &mut moved, cache);
    }
    moved
}
