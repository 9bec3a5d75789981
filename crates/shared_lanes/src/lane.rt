//! One lane.

ghost use Rattle.std.specs.Prelude.{◌≡◌, ◌<◌, ◌+◌, ◌||◌, ℕ, Bool, false, IfOk};
ghost use Rattle.shared_lanes.specs.Lanes.{HasSeat};

use crate::shared::Shared;
use memory::NoMemory;
use std::alloc::Global;

/// One lane. It has a seat from the start of a round to its end.
#[derive(Drop)]
pub struct Lane<S, C> {
    /// What it keeps from round to round.
    pub cache: C,
    pub(crate) seat: Option<S>,
    pub(crate) moved: bool,
}

impl<S, C> Lane<S, C> {
    /// A lane without a seat.
    pub fn new(cache: C) -> Lane<S, C>
        ensures { result.cache ≡ cache }
    {
        Lane {
            cache,
            seat: None,
            moved: false,
        }
    }
}

/// Gives a lane a seat.
pub(crate) fn seat_lane<S: Drop, C, J: Shared<S, C>>(
    alloc: Global,
    job: &J,
    first: &mut S,
    lane: &mut Lane<S, C>,
) -> Result<(), NoMemory>
    requires { (begun : S) × J.taken job.now begun 0 first.old false }
    ensures taken { (begun : S) → J.taken job.now begun 0 first.old false → J.taken job.now begun 0 first.new false }
    ensures given { (begun : S) → J.taken job.now begun 0 first.old false → IfOk result (λ _. HasSeat lane.new.seat (J.given job.now begun)) }
    ensures cache { lane.new.cache ≡ lane.old.cache }
{
    let seat = job.split(alloc, first)?;
    lane.seat = Some(seat);
    Ok(())
}

/// Runs a share with a lane's seat.
fn run_with<S, C, J: Shared<S, C>, F: Fn(&mut S, &mut C, usize) -> bool>(
    _job: &J,
    run: &F,
    i: usize,
    seat: &mut S,
    cache: &mut C,
) -> bool
    requires index { i < J.count _job.now }
    requires can { (seat : _) (cache : _) (i : ℕ) → i < J.count _job.now → ((first : S) × J.given _job.now first seat.now × J.fits _job.now first cache.now) → F.pre run.now seat cache i }
    requires does { (first : S) (seat : _) (cache : _) (i : ℕ) (moved : _) (seat2 : _) (cache2 : _) → i < J.count _job.now → J.given _job.now first seat.now → J.fits _job.now first cache.now → F.post run.now seat cache i moved seat2 cache2 → J.ran _job.now first i seat2.now moved × J.fits _job.now first cache2.now }
    requires lane { (first : S) × J.given _job.now first seat.old × J.fits _job.now first cache.old }
    ensures { (first : S) → J.given _job.now first seat.old → J.fits _job.now first cache.old → J.ran _job.now first i seat.new result × J.fits _job.now first cache.new }
{
    run(seat, cache, i)
}

/// Has a lane run its share.
pub(crate) fn run_lane<S, C, J: Shared<S, C>, F: Fn(&mut S, &mut C, usize) -> bool>(
    job: &J,
    run: &F,
    i: usize,
    lane: &mut Lane<S, C>,
)
    requires index { i < J.count job.now }
    requires can { (seat : _) (cache : _) (i : ℕ) → i < J.count job.now → ((first : S) × J.given job.now first seat.now × J.fits job.now first cache.now) → F.pre run.now seat cache i }
    requires does { (first : S) (seat : _) (cache : _) (i : ℕ) (moved : _) (seat2 : _) (cache2 : _) → i < J.count job.now → J.given job.now first seat.now → J.fits job.now first cache.now → F.post run.now seat cache i moved seat2 cache2 → J.ran job.now first i seat2.now moved × J.fits job.now first cache2.now }
    requires lane { (first : S) × HasSeat lane.old.seat (J.given job.now first) × J.fits job.now first lane.old.cache }
    ensures { (first : S) → HasSeat lane.old.seat (J.given job.now first) → J.fits job.now first lane.old.cache
        → HasSeat lane.new.seat (λ s. J.ran job.now first i s lane.new.moved) × J.fits job.now first lane.new.cache }
{
    if let Some(seat) = &mut lane.seat {
        lane.moved = run_with(job, run, i, seat, &mut lane.cache);
    }
}

/// Takes the lane's seat back, and says whether the lane saw something move.
pub(crate) fn unseat_lane<S: Drop, C, J: Shared<S, C>>(
    job: &J,
    first: &mut S,
    lane: &mut Lane<S, C>,
) -> bool
    requires { (begun : S) × (done : ℕ) × (mark : Bool) × J.taken job.now begun done first.old mark × HasSeat lane.old.seat (λ s. J.ran job.now begun done s lane.old.moved) }
    ensures taken { (begun : S) (done : ℕ) (mark : Bool) → J.taken job.now begun done first.old mark → HasSeat lane.old.seat (λ s. J.ran job.now begun done s lane.old.moved)
        → J.taken job.now begun (done + 1) first.new (mark || result) }
    ensures cache { lane.new.cache ≡ lane.old.cache }
{
    if let Some(seat) = lane.seat.take() {
        job.join_back(first, seat);
    }
    lane.moved
}
