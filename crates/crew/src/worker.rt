//! One worker, which draws numbers and runs them until none is left.

ghost use Rattle.std.specs.Prelude.{◌≡◌, ◌<◌, ℕ, ◌≤◌, [], IfOk, OnOk, OnErr};
ghost use Rattle.std.specs.Bool.{OnTrue, OnFalse};
ghost use Rattle.crew.specs.Rights.{KeepsSame};
ghost use Rattle.crew.specs.Crews.{HasAsked};
ghost use Rattle.crew.specs.AtWork.{HasSeat, HasRun, HasRunSome, MayStart, MayDraw, IsHired, IsBack, CanRun, Runs, KeepRuns};

use crate::job::Job;
use crate::source::Source;
use gate::Gate;
use memory::NoMemory;

/// One worker, with what it has of its own.
#[derive(Drop)]
pub struct Worker<N, S, W, E> {
    /// The number of the worker.
    pub number: u32,
    /// How many times it has asked for a number. It stays at its greatest value.
    pub turn: u64,
    /// Its right to draw numbers.
    pub right: N,
    /// Its seat of what the workers share.
    pub seat: S,
    /// What it keeps over its runs.
    pub own: W,
    /// The numbers that it has run, in this order, with the ends of their runs.
    pub runs: Vec<(u32, E)>,
    /// Whether it has found no number left, and run all that it had drawn.
    pub is_done: bool,
}

/// Draws the next number and runs it, and says whether there was one. The gate is passed first.
fn run_next<
    C: Gate,
    N,
    S,
    W,
    E: Drop,
    Q: Source<N>,
    J: Job<S, W, E>,
    F: Fn(&mut W, &mut S, u32) -> Result<E, NoMemory>,
>(source: &Q, job: &J, run: &F, gate: &C, worker: &mut Worker<N, S, W, E>) -> Result<bool, NoMemory>
    requires can { CanRun (J.count job.now) (J.owns job.now) (J.fits job.now) (F.pre run.now) }
    requires does { Runs (J.count job.now) (J.owns job.now) (J.fits job.now) J.has_parts (J.stands job.now) (F.post run.now) }
    requires count { Q.count source.now ≡ J.count job.now }
    requires seat { HasSeat (J.fits job.now) J.has_parts worker.old }
    requires may_draw { MayDraw (Q.is_right source.now) Q.drawn (J.owns job.now) (J.stands job.now) worker.old }
    ensures seat { HasSeat (J.fits job.now) J.has_parts worker.new }
    ensures right { Q.is_right source.now worker.new.right }
    ensures asked { HasAsked worker.old.turn worker.new.turn }
    ensures same { KeepsSame Q.same worker.old.right worker.new.right }
    ensures may_draw { IfOk result (λ _. MayDraw (Q.is_right source.now) Q.drawn (J.owns job.now) (J.stands job.now) worker.new) }
    ensures went_on { IfOk result (λ went_on. OnTrue went_on (Q.most_left source.now worker.new.right < Q.most_left source.now worker.old.right)) }
    ensures made { KeepRuns (J.count job.now) (J.owns job.now) (J.fits job.now) (J.stands job.now) (F.post run.now) →
        OnErr result (HasRunSome Q.drawn (J.stands job.now) worker.new) }
    ensures ended { IfOk result (λ went_on. OnFalse went_on (Q.has_passed source.now worker.new.right)) }
{
    gate.pass(worker.number, worker.turn);
    worker.turn = worker.turn.saturating_add(1);
    let Some(number) = source.next(&mut worker.right) else {
        return Ok(false);
    };
    let end = run(&mut worker.own, &mut worker.seat, number)?;
    if worker.runs.push((number, end)).is_err() {
        return Err(NoMemory);
    }
    Ok(true)
}

/// Runs numbers until none is left.
fn run_all<
    C: Gate,
    N,
    S,
    W,
    E: Drop,
    Q: Source<N>,
    J: Job<S, W, E>,
    F: Fn(&mut W, &mut S, u32) -> Result<E, NoMemory>,
>(source: &Q, job: &J, run: &F, gate: &C, worker: &mut Worker<N, S, W, E>) -> Result<(), NoMemory>
    requires can { CanRun (J.count job.now) (J.owns job.now) (J.fits job.now) (F.pre run.now) }
    requires does { Runs (J.count job.now) (J.owns job.now) (J.fits job.now) J.has_parts (J.stands job.now) (F.post run.now) }
    requires count { Q.count source.now ≡ J.count job.now }
    requires seat { HasSeat (J.fits job.now) J.has_parts worker.old }
    requires may_draw { MayDraw (Q.is_right source.now) Q.drawn (J.owns job.now) (J.stands job.now) worker.old }
    ensures seat { HasSeat (J.fits job.now) J.has_parts worker.new }
    ensures right { Q.is_right source.now worker.new.right }
    ensures asked { HasAsked worker.old.turn worker.new.turn }
    ensures same { KeepsSame Q.same worker.old.right worker.new.right }
    ensures passed { OnOk result (Q.has_passed source.now worker.new.right) }
    ensures run { OnOk result (HasRun Q.drawn (J.stands job.now) worker.new) }
    ensures made { KeepRuns (J.count job.now) (J.owns job.now) (J.fits job.now) (J.stands job.now) (F.post run.now) →
        OnErr result (HasRunSome Q.drawn (J.stands job.now) worker.new) }
{
    'draws: while run_next(source, job, run, gate, worker)? {}
    Ok(())
}

/// Has a worker run numbers until none is left or memory is refused, and note in it which.
pub(crate) fn work<
    C: Gate,
    N,
    S,
    W,
    E: Drop,
    Q: Source<N>,
    J: Job<S, W, E>,
    F: Fn(&mut W, &mut S, u32) -> Result<E, NoMemory>,
>(source: &Q, job: &J, run: &F, gate: &C, worker: &mut Worker<N, S, W, E>)
    requires can { CanRun (J.count job.now) (J.owns job.now) (J.fits job.now) (F.pre run.now) }
    requires does { Runs (J.count job.now) (J.owns job.now) (J.fits job.now) J.has_parts (J.stands job.now) (F.post run.now) }
    requires count { Q.count source.now ≡ J.count job.now }
    requires hired { IsHired (J.fits job.now) J.has_parts (J.owns job.now) (J.stands job.now) worker.old }
    requires may_start { MayStart (Q.is_right source.now) Q.drawn worker.old }
    ensures back { IsBack (Q.is_right source.now) Q.drawn (Q.has_passed source.now) (J.fits job.now) J.has_parts (J.stands job.now) worker.new }
    ensures asked { HasAsked worker.old.turn worker.new.turn }
    ensures same { KeepsSame Q.same worker.old.right worker.new.right }
    ensures made { KeepRuns (J.count job.now) (J.owns job.now) (J.fits job.now) (J.stands job.now) (F.post run.now) →
        HasRunSome Q.drawn (J.stands job.now) worker.new }
{
    let ended = run_all(source, job, run, gate, worker);
    worker.is_done = ended.is_ok();
}
