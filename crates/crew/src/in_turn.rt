//! All numbers, run in turn by the one worker of a crew, with the first seat itself.

ghost use Rattle.std.specs.Prelude.{◌≡◌, ◌<◌, ◌+◌, ℕ, [], IfOk, OnOk, OnErr};
ghost use Rattle.std.specs.List.{AllZip};
ghost use Rattle.crew.specs.Ends.{AreEndsOf, AreSomeRuns};
ghost use Rattle.crew.specs.Crews.{workers_of, turns_of, steals_of, HasAsked};
ghost use Rattle.crew.specs.AtWork.{CanRun, Runs, KeepRuns};
ghost use Rattle.crew.specs.InTurn.{HasRunBelow};

use crate::job::Job;
use crate::work::Work;
use crate::workers::Workers;
use gate::Gate;
use list_of::ListOf;
use memory::NoMemory;
use std::alloc::Global;

/// The one worker of a crew.
#[derive(Drop)]
pub struct SoleWorker<W, E> {
    /// How many times it has asked for a number. It stays at its greatest value.
    pub turn: u64,
    /// What it keeps over its runs.
    pub own: W,
    /// The ends of its runs: of number 0 first, of each other number behind the one before it.
    pub ends: ListOf<E>,
}

/// Asks for a number: passes the gate, and counts the time.
fn ask<C: Gate>(gate: &C, turn: &mut u64)
    ensures { HasAsked turn.old turn.new }
{
    gate.pass(0, *turn);
    *turn = turn.saturating_add(1);
}

/// Asks for this number and runs it. The numbers below it were run.
fn run_next<
    C: Gate,
    S,
    W,
    E: Drop,
    J: Job<S, W, E>,
    F: Fn(&mut W, &mut S, u32) -> Result<E, NoMemory>,
>(
    work: &Work<'_, J, F>,
    gate: &C,
    worker: &mut SoleWorker<W, E>,
    seat: &mut S,
    number: u32,
) -> Result<(), NoMemory>
    requires can { CanRun (J.count work.now.job.now) (J.owns work.now.job.now) (J.fits work.now.job.now) (F.pre work.now.run.now) }
    requires does { Runs (J.count work.now.job.now) (J.owns work.now.job.now) (J.fits work.now.job.now) J.has_parts (J.stands work.now.job.now)
        (F.post work.now.run.now) }
    requires below { number < J.count work.now.job.now }
    requires fits { J.fits work.now.job.now seat.old }
    requires parts { J.has_parts seat.old 1024 }
    requires run { HasRunBelow (J.owns work.now.job.now) (J.stands work.now.job.now) number worker.old seat.old }
    ensures fits { J.fits work.now.job.now seat.new }
    ensures parts { J.has_parts seat.new 1024 }
    ensures asked { HasAsked worker.old.turn worker.new.turn }
    ensures run { OnOk result (HasRunBelow (J.owns work.now.job.now) (J.stands work.now.job.now) (number + 1) worker.new seat.new) }
    ensures made { KeepRuns (J.count work.now.job.now) (J.owns work.now.job.now) (J.fits work.now.job.now) (J.stands work.now.job.now)
        (F.post work.now.run.now) → OnErr result (AreSomeRuns (J.count work.now.job.now) (J.stands work.now.job.now seat.new)) }
{
    ask(gate, &mut worker.turn);
    let run = work.run;
    let end = run(&mut worker.own, seat, number)?;
    if worker.ends.push(end).is_err() {
        return Err(NoMemory);
    }
    Ok(())
}

/// Runs all numbers in turn, and asks once more, where none is left.
fn run_each<
    C: Gate,
    S,
    W,
    E: Drop,
    J: Job<S, W, E>,
    F: Fn(&mut W, &mut S, u32) -> Result<E, NoMemory>,
>(
    work: &Work<'_, J, F>,
    gate: &C,
    worker: &mut SoleWorker<W, E>,
    seat: &mut S,
) -> Result<(), NoMemory>
    requires can { CanRun (J.count work.now.job.now) (J.owns work.now.job.now) (J.fits work.now.job.now) (F.pre work.now.run.now) }
    requires does { Runs (J.count work.now.job.now) (J.owns work.now.job.now) (J.fits work.now.job.now) J.has_parts (J.stands work.now.job.now)
        (F.post work.now.run.now) }
    requires count { work.now.count ≡ J.count work.now.job.now }
    requires fits { J.fits work.now.job.now seat.old }
    requires parts { J.has_parts seat.old 1024 }
    requires run { HasRunBelow (J.owns work.now.job.now) (J.stands work.now.job.now) 0 worker.old seat.old }
    ensures fits { J.fits work.now.job.now seat.new }
    ensures parts { J.has_parts seat.new 1024 }
    ensures asked { OnOk result (HasAsked worker.old.turn worker.new.turn) }
    ensures run { OnOk result (HasRunBelow (J.owns work.now.job.now) (J.stands work.now.job.now) work.now.count worker.new seat.new) }
    ensures made { KeepRuns (J.count work.now.job.now) (J.owns work.now.job.now) (J.fits work.now.job.now) (J.stands work.now.job.now)
        (F.post work.now.run.now) → OnErr result (AreSomeRuns (J.count work.now.job.now) (J.stands work.now.job.now seat.new)) }
{
    for number in 0..work.count {
        run_next(work, gate, worker, seat, number)?;
    }
    ask(gate, &mut worker.turn);
    Ok(())
}

/// Has the one worker of a crew run all numbers in turn, and gives the ends of the runs in this order.
pub(crate) fn run_in_turn<
    C: Gate,
    S,
    W: Drop,
    E: Drop,
    J: Job<S, W, E>,
    F: Fn(&mut W, &mut S, u32) -> Result<E, NoMemory>,
>(
    alloc: Global,
    crew: &mut Workers,
    work: &Work<'_, J, F>,
    gate: &C,
    seat: &mut S,
) -> Result<ListOf<E>, NoMemory>
    requires can { CanRun (J.count work.now.job.now) (J.owns work.now.job.now) (J.fits work.now.job.now) (F.pre work.now.run.now) }
    requires does { Runs (J.count work.now.job.now) (J.owns work.now.job.now) (J.fits work.now.job.now) J.has_parts (J.stands work.now.job.now)
        (F.post work.now.run.now) }
    requires count { work.now.count ≡ J.count work.now.job.now }
    requires fits { J.fits work.now.job.now seat.old }
    requires parts { J.has_parts seat.old 1024 }
    requires none { J.stands work.now.job.now seat.old [] }
    requires sole { workers_of crew.old ≡ 1 }
    ensures ends { IfOk result (AreEndsOf work.now.count (workers_of crew.old) (J.stands work.now.job.now seat.new)) }
    ensures made { KeepRuns (J.count work.now.job.now) (J.owns work.now.job.now) (J.fits work.now.job.now) (J.stands work.now.job.now)
        (F.post work.now.run.now) → OnErr result (AreSomeRuns work.now.count (J.stands work.now.job.now seat.new)) }
    ensures fits { J.fits work.now.job.now seat.new }
    ensures parts { J.has_parts seat.new 1024 }
    ensures crew { workers_of crew.new ≡ workers_of crew.old }
    ensures turns { OnOk result (AllZip HasAsked (turns_of crew.old) (turns_of crew.new)) }
    ensures steals { steals_of crew.new ≡ steals_of crew.old }
{
    let mut worker = SoleWorker {
        turn: crew.sole_turn(),
        own: work.job.own(alloc)?,
        ends: ListOf::new(alloc),
    };
    let ran = run_each(work, gate, &mut worker, seat);
    crew.note_sole_turn(worker.turn);
    match ran {
        Ok(()) => Ok(worker.ends),
        Err(stop) => Err(stop),
    }
}
