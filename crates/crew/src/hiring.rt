//! Workers that are given seats, set to work side by side, and taken back.

ghost use Rattle.std.specs.Prelude.{◌≡◌, ◌<◌, ◌≤◌, ◌+◌, ◌++◌, ◌∷◌, ℕ, List, [], length, map, flat_map, true, vec_len, vec_capacity};
ghost use Rattle.std.specs.Bool.{OnTrue};
ghost use Rattle.std.specs.List.{All};
ghost use Rattle.crew.specs.Rights.{KeepsSame};
ghost use Rattle.crew.specs.AtWork.{HaveRun, HaveRunSome, HasRun, HasRunSome, HasSeat, IsFirstSeat, GivesPart, AtEachPlace};
ghost use Rattle.crew.specs.AtWork.{MayStart, IsHired, IsBack, CanRun, Runs, KeepRuns};
ghost use Rattle.crew.specs.Crews.{HasAsked};
ghost use Rattle.crew.specs.declared.worker.Worker.{Worker};

use crate::job::Job;
use crate::recruit::Recruit;
use crate::source::Source;
use crate::worker::{Worker, work};
use gate::Gate;
use memory::NoMemory;
use std::alloc::Global;
use std::thread::{Threads, for_each_mut};

/// Gives a recruit one part of the seat.
fn hire<N, S, W, E, J: Job<S, W, E>>(
    alloc: Global,
    job: &J,
    seat: &mut S,
    recruit: Recruit<N, W>,
) -> Worker<N, S, W, E>
    requires may_split { J.may_split job.now }
    requires seat { (workers : ℕ) × (workers < 64) × IsFirstSeat (J.fits job.now) J.has_parts workers seat.old }
    requires none { J.stands job.now seat.old [] }
    requires own { J.owns job.now recruit.own }
    ensures seat { GivesPart (J.fits job.now) J.has_parts seat.old seat.new }
    ensures none { J.stands job.now seat.new [] }
    ensures hired { IsHired (J.fits job.now) J.has_parts (J.owns job.now) (J.stands job.now) result }
    ensures number { result.number ≡ recruit.number }
    ensures turn { result.turn ≡ recruit.turn }
    ensures right { result.right ≡ recruit.right }
{
    let Recruit {
        number,
        turn,
        right,
        own,
    } = recruit;
    Worker {
        number,
        turn,
        right,
        seat: job.split(seat),
        own,
        runs: Vec::new(alloc),
        is_done: false,
    }
}

/// Gives each recruit one part of the seat. There is room for all workers.
pub(crate) fn hire_all<N: Drop, S: Drop, W: Drop, E: Drop, J: Job<S, W, E>>(
    alloc: Global,
    job: &J,
    seat: &mut S,
    recruits: Vec<Recruit<N, W>>,
    workers: &mut Vec<Worker<N, S, W, E>>,
)
    requires may_split { J.may_split job.now }
    requires fits { J.fits job.now seat.old }
    requires parts { J.has_parts seat.old 1024 }
    requires none { J.stands job.now seat.old [] }
    requires few { length recruits.items ≤ 64 }
    requires own { All (λ recruit. J.owns job.now recruit.own) recruits.items }
    requires empty { workers.old.items ≡ [] }
    requires room { length recruits.items ≤ vec_capacity workers.old }
    ensures seat { IsFirstSeat (J.fits job.now) J.has_parts (length workers.new.items) seat.new }
    ensures none { J.stands job.now seat.new [] }
    ensures hired { All (IsHired (J.fits job.now) J.has_parts (J.owns job.now) (J.stands job.now)) workers.new.items }
    ensures count { length workers.new.items ≡ length recruits.items }
    ensures numbers { map (λ worker. worker.number) workers.new.items ≡ map (λ recruit. recruit.number) recruits.items }
    ensures turns { map (λ worker. worker.turn) workers.new.items ≡ map (λ recruit. recruit.turn) recruits.items }
    ensures rights { map (λ worker. worker.right) workers.new.items ≡ map (λ recruit. recruit.right) recruits.items }
{
    for recruit in recruits {
        workers.push_reserved(hire(alloc, job, seat, recruit));
    }
}

/// Has all workers run numbers side by side, until none is left.
pub(crate) fn work_all<
    R: Threads + Sync,
    C: Gate + Sync,
    N: Send,
    S: Send,
    W: Send,
    E: Send + Drop,
    Q: Source<N> + Sync,
    J: Job<S, W, E> + Sync,
    F: Fn(&mut W, &mut S, u32) -> Result<E, NoMemory> + Sync,
>(rt: &R, source: &Q, job: &J, run: &F, gate: &C, workers: &mut [Worker<N, S, W, E>])
    requires some { 0 < length workers.old }
    requires can { CanRun (J.count job.now) (J.owns job.now) (J.fits job.now) (F.pre run.now) }
    requires does { Runs (J.count job.now) (J.owns job.now) (J.fits job.now) J.has_parts (J.stands job.now) (F.post run.now) }
    requires count { Q.count source.now ≡ J.count job.now }
    requires hired { All (IsHired (J.fits job.now) J.has_parts (J.owns job.now) (J.stands job.now)) workers.old }
    requires may_start { All (MayStart (Q.is_right source.now) Q.drawn) workers.old }
    ensures back { AtEachPlace (λ _. IsBack (Q.is_right source.now) Q.drawn (Q.has_passed source.now) (J.fits job.now) J.has_parts (J.stands job.now))
        workers.old workers.new }
    ensures asked { AtEachPlace (λ before after. HasAsked before.turn after.turn) workers.old workers.new }
    ensures same { AtEachPlace (λ before after. KeepsSame Q.same before.right after.right) workers.old workers.new }
    ensures made { KeepRuns (J.count job.now) (J.owns job.now) (J.fits job.now) (J.stands job.now) (F.post run.now) →
        AtEachPlace (λ _. HasRunSome Q.drawn (J.stands job.now)) workers.old workers.new }
{
    let threads = workers.len();
    for_each_mut(
        rt,
        workers,
        threads,
        &|_, worker: &mut Worker<N, S, W, E>|
            requires can { CanRun (J.count job.now) (J.owns job.now) (J.fits job.now) (F.pre run.now) }
            requires does { Runs (J.count job.now) (J.owns job.now) (J.fits job.now) J.has_parts (J.stands job.now) (F.post run.now) }
            requires count { Q.count source.now ≡ J.count job.now }
            requires hired { IsHired (J.fits job.now) J.has_parts (J.owns job.now) (J.stands job.now) worker.now }
            requires may_start { MayStart (Q.is_right source.now) Q.drawn worker.now }
            ensures back { IsBack (Q.is_right source.entry.now) Q.drawn (Q.has_passed source.entry.now)
                (J.fits job.entry.now) J.has_parts (J.stands job.entry.now) worker.exit.now }
            ensures asked { HasAsked worker.entry.now.turn worker.exit.now.turn }
            ensures same { KeepsSame Q.same worker.entry.now.right worker.exit.now.right }
            ensures made { KeepRuns (J.count job.entry.now) (J.owns job.entry.now) (J.fits job.entry.now) (J.stands job.entry.now) (F.post run.entry.now) →
                HasRunSome Q.drawn (J.stands job.entry.now) worker.exit.now }
        { work(source, job, run, gate, worker) },
    );
}

/// Takes back a worker's part of the seat, its right and its runs, and says whether these are all that it had drawn, with
/// nothing left to draw. There is room for the right.
fn take_in<N, S, W: Drop, E: Drop, J: Job<S, W, E>>(
    job: &J,
    seat: &mut S,
    worker: Worker<N, S, W, E>,
    rights: &mut Vec<N>,
    runs: &mut Vec<(u32, E)>,
) -> bool
    requires may_split { J.may_split job.now }
    requires fits { J.fits job.now seat.old }
    requires worker { HasSeat (J.fits job.now) J.has_parts worker }
    requires room { vec_len rights.old < vec_capacity rights.old }
    ensures seat { (workers : ℕ) → IsFirstSeat (J.fits job.now) J.has_parts (workers + 1) seat.old → IsFirstSeat (J.fits job.now) J.has_parts workers seat.new }
    ensures right { rights.new.items ≡ rights.old.items ++ worker.right ∷ [] }
    ensures capacity { vec_capacity rights.new ≡ vec_capacity rights.old }
    ensures done { OnTrue result (worker.is_done ≡ true) }
    ensures run { OnTrue result ((numbers others : List ℕ) → HaveRun (J.stands job.now) numbers seat.old runs.old.items →
        HaveRun (J.stands job.now) others worker.seat worker.runs.items → HaveRun (J.stands job.now) (numbers ++ others) seat.new runs.new.items) }
    ensures made { (numbers others : List ℕ) → HaveRunSome (J.stands job.now) numbers seat.old → HaveRunSome (J.stands job.now) others worker.seat →
        HaveRunSome (J.stands job.now) (numbers ++ others) seat.new }
{
    let Worker {
        right,
        seat: other,
        runs: mut others,
        is_done,
        ..
    } = worker;
    rights.push_reserved(right);
    job.join_back(seat, other);
    runs.append(&mut others).is_ok() && is_done
}

/// Takes back all workers, with their rights and runs in order, and says whether each had run all that it had drawn and
/// found nothing left to draw. There is room for the rights.
pub(crate) fn take_all<N: Drop, S: Drop, W: Drop, E: Drop, J: Job<S, W, E>>(
    job: &J,
    seat: &mut S,
    workers: Vec<Worker<N, S, W, E>>,
    rights: &mut Vec<N>,
    runs: &mut Vec<(u32, E)>,
) -> bool
    requires may_split { J.may_split job.now }
    requires seat { IsFirstSeat (J.fits job.now) J.has_parts (length workers.items) seat.old }
    requires none { J.stands job.now seat.old [] }
    requires seats { All (HasSeat (J.fits job.now) J.has_parts) workers.items }
    requires empty { rights.old.items ≡ [] }
    requires room { length workers.items ≤ vec_capacity rights.old }
    requires no_runs { runs.old.items ≡ [] }
    ensures fits { J.fits job.now seat.new }
    ensures parts { J.has_parts seat.new 1024 }
    ensures rights { rights.new.items ≡ map (λ worker. worker.right) workers.items }
    ensures done { OnTrue result (All (λ worker. worker.is_done ≡ true) workers.items) }
    ensures run { OnTrue result ((drawn : N → List ℕ) → All (HasRun drawn (J.stands job.now)) workers.items →
        HaveRun (J.stands job.now) (flat_map drawn rights.new.items) seat.new runs.new.items) }
    ensures made { (drawn : N → List ℕ) → All (HasRunSome drawn (J.stands job.now)) workers.items →
        HaveRunSome (J.stands job.now) (flat_map drawn rights.new.items) seat.new }
{
    let mut is_whole = true;
    for worker in workers {
        if !take_in(job, seat, worker, rights, runs) {
            is_whole = false;
        }
    }
    is_whole
}
