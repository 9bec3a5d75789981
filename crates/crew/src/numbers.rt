//! All numbers of a job, run by a crew.

ghost use Rattle.std.specs.Prelude.{◌≡◌, ◌<◌, ℕ, [], IfOk, OnOk, OnErr};
ghost use Rattle.std.specs.List.{AllZip};
ghost use Rattle.crew.specs.Ends.{AreEndsOf, AreSomeRuns};
ghost use Rattle.crew.specs.Crews.{workers_of, turns_of, steals_of, HasAsked};
ghost use Rattle.crew.specs.AtWork.{CanRun, Runs, KeepRuns};

use crate::hand_source::deal_hands;
use crate::in_turn::run_in_turn;
use crate::job::Job;
use crate::sourced::run_from;
use crate::ticket_source::deal_tickets;
use crate::work::Work;
use crate::workers::Workers;
use gate::Gate;
use list_of::ListOf;
use memory::NoMemory;
use std::alloc::Global;
use std::thread::Threads;

/// Has a crew run all numbers of a job, each once, and gives the ends of the runs in the order of the numbers. One worker runs
/// the numbers in this order, on the calling thread, with the first seat itself. Several draw them by tickets, or steal them,
/// as the crew is made; which it is changes nothing of what is promised. Each worker passes the gate, with how many times it
/// has asked for a number before, and asks for the next, until none is left. So each has asked once at least. Where memory was
/// refused, to a run or here, all workers are taken in before that is answered.
pub fn run_numbers<
    R: Threads + Sync,
    C: Gate + Sync,
    S: Send + Drop,
    W: Send + Drop,
    E: Send + Drop,
    J: Job<S, W, E> + Sync,
    F: Fn(&mut W, &mut S, u32) -> Result<E, NoMemory> + Sync,
>(
    rt: &R,
    alloc: Global,
    crew: &mut Workers,
    work: &Work<'_, J, F>,
    gate: &C,
    seat: &mut S,
) -> Result<ListOf<E>, NoMemory>
    requires can { CanRun (J.count work.now.job.now) (J.owns work.now.job.now) (J.fits work.now.job.now) (F.pre work.now.run.now) }
    requires does { Runs (J.count work.now.job.now) (J.owns work.now.job.now) (J.fits work.now.job.now) J.has_parts (J.stands work.now.job.now)
        (F.post work.now.run.now) }
    requires count { work.now.count ≡ J.count work.now.job.now }
    requires fits { J.fits work.now.job.now seat.old }
    requires parts { J.has_parts seat.old 1024 }
    requires none { J.stands work.now.job.now seat.old [] }
    requires several { 1 < workers_of crew.old → J.may_split work.now.job.now }
    ensures ends { IfOk result (AreEndsOf work.now.count (workers_of crew.old) (J.stands work.now.job.now seat.new)) }
    ensures made { KeepRuns (J.count work.now.job.now) (J.owns work.now.job.now) (J.fits work.now.job.now) (J.stands work.now.job.now)
        (F.post work.now.run.now) → OnErr result (AreSomeRuns work.now.count (J.stands work.now.job.now seat.new)) }
    ensures fits { J.fits work.now.job.now seat.new }
    ensures parts { J.has_parts seat.new 1024 }
    ensures crew { workers_of crew.new ≡ workers_of crew.old }
    ensures turns { OnOk result (AllZip HasAsked (turns_of crew.old) (turns_of crew.new)) }
    ensures steals { steals_of crew.new ≡ steals_of crew.old }
{
    if crew.count() == 1 {
        return run_in_turn(alloc, crew, work, gate, seat);
    }
    if crew.steals() {
        let dealt = deal_hands(alloc, work.count, crew.count())?;
        return run_from(rt, alloc, crew, work, gate, seat, dealt);
    }
    let dealt = deal_tickets(alloc, work.count, crew.count())?;
    run_from(rt, alloc, crew, work, gate, seat, dealt)
}
