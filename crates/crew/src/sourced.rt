//! All numbers of a source, run by a crew.

ghost use Rattle.std.specs.Prelude.{◌≡◌, ◌<◌, ◌≤◌, ℕ, [], length, map, IfOk, OnOk, OnErr, vec_capacity};
ghost use Rattle.std.specs.List.{All, AllZip};
ghost use Rattle.tickets.specs.Counting.{IsEachOnce};
ghost use Rattle.crew.specs.Ends.{AreEndsOf, AreSomeRuns, numbers_of};
ghost use Rattle.crew.specs.Crews.{workers_of, turns_of, steals_of, HasAsked};
ghost use Rattle.crew.specs.Rights.{AreDrawn};
ghost use Rattle.crew.specs.AtWork.{HasRunSome, IsFirstSeat, IsBack, CanRun, Runs, KeepRuns};

use crate::ends::in_order;
use crate::hiring::{hire_all, take_all, work_all};
use crate::job::Job;
use crate::recruit::recruit_all;
use crate::source::{Dealt, Source};
use crate::work::Work;
use crate::worker::Worker;
use crate::workers::Workers;
use gate::Gate;
use list_of::ListOf;
use memory::NoMemory;
use std::alloc::Global;
use std::thread::Threads;

/// Takes back all workers and the source. Gives the runs, if each number was run. There is room for the rights.
fn gather<N: Drop, S: Drop, W: Drop, E: Drop, Q: Source<N>, J: Job<S, W, E>>(
    alloc: Global,
    source: Q,
    job: &J,
    seat: &mut S,
    workers: Vec<Worker<N, S, W, E>>,
    room: Vec<N>,
) -> Result<Vec<(u32, E)>, NoMemory>
    requires may_split { J.may_split job.now }
    requires seat { IsFirstSeat (J.fits job.now) J.has_parts (length workers.items) seat.old }
    requires none { J.stands job.now seat.old [] }
    requires back { All (IsBack (Q.is_right source) Q.drawn (Q.has_passed source) (J.fits job.now) J.has_parts (J.stands job.now)) workers.items }
    requires all { AreDrawn (Q.are_dealt source) Q.same (map (λ worker. worker.right) workers.items) }
    requires empty { room.items ≡ [] }
    requires room { length workers.items ≤ vec_capacity room }
    ensures fits { J.fits job.now seat.new }
    ensures parts { J.has_parts seat.new 1024 }
    ensures run { IfOk result (λ runs. J.stands job.now seat.new runs.items) }
    ensures each_once { IfOk result (λ runs. IsEachOnce (Q.count source) (numbers_of runs.items)) }
    ensures made { All (HasRunSome Q.drawn (J.stands job.now)) workers.items → AreSomeRuns (Q.count source) (J.stands job.now seat.new) }
{
    let mut rights = room;
    let mut runs = Vec::new(alloc);
    let is_done = take_all(job, seat, workers, &mut rights, &mut runs);
    let is_whole = source.gather(rights);
    if is_done && is_whole {
        Ok(runs)
    } else {
        Err(NoMemory)
    }
}

/// Has the several workers of a crew run all numbers of a source, each once, and gives the ends of the runs in the order of the numbers. All that
/// takes memory but the runs is made before the first seat is split.
pub(crate) fn run_from<
    R: Threads + Sync,
    C: Gate + Sync,
    N: Send + Drop,
    S: Send + Drop,
    W: Send + Drop,
    E: Send + Drop,
    Q: Source<N> + Sync + Drop,
    J: Job<S, W, E> + Sync,
    F: Fn(&mut W, &mut S, u32) -> Result<E, NoMemory> + Sync,
>(
    rt: &R,
    alloc: Global,
    crew: &mut Workers,
    work: &Work<'_, J, F>,
    gate: &C,
    seat: &mut S,
    dealt: Dealt<Q, N>,
) -> Result<ListOf<E>, NoMemory>
    requires can { CanRun (J.count work.now.job.now) (J.owns work.now.job.now) (J.fits work.now.job.now) (F.pre work.now.run.now) }
    requires does { Runs (J.count work.now.job.now) (J.owns work.now.job.now) (J.fits work.now.job.now) J.has_parts (J.stands work.now.job.now)
        (F.post work.now.run.now) }
    requires count { work.now.count ≡ J.count work.now.job.now }
    requires source { Q.count dealt.source ≡ work.now.count }
    requires fits { J.fits work.now.job.now seat.old }
    requires parts { J.has_parts seat.old 1024 }
    requires none { J.stands work.now.job.now seat.old [] }
    requires dealt { Q.are_dealt dealt.source dealt.rights.items }
    requires rights { All (Q.is_right dealt.source) dealt.rights.items }
    requires idle { All (λ right. Q.drawn right ≡ []) dealt.rights.items }
    requires workers { length dealt.rights.items ≡ workers_of crew.old }
    requires several { 1 < workers_of crew.old }
    requires may_split { J.may_split work.now.job.now }
    ensures ends { IfOk result (AreEndsOf work.now.count (workers_of crew.old) (J.stands work.now.job.now seat.new)) }
    ensures made { KeepRuns (J.count work.now.job.now) (J.owns work.now.job.now) (J.fits work.now.job.now) (J.stands work.now.job.now)
        (F.post work.now.run.now) → OnErr result (AreSomeRuns work.now.count (J.stands work.now.job.now seat.new)) }
    ensures fits { J.fits work.now.job.now seat.new }
    ensures parts { J.has_parts seat.new 1024 }
    ensures crew { workers_of crew.new ≡ workers_of crew.old }
    ensures turns { OnOk result (AllZip HasAsked (turns_of crew.old) (turns_of crew.new)) }
    ensures steals { steals_of crew.new ≡ steals_of crew.old }
{
    let Dealt { source, rights } = dealt;
    let job = work.job;
    let room = Vec::with_capacity(alloc, rights.len())?;
    let mut workers = Vec::with_capacity(alloc, rights.len())?;
    let recruits = recruit_all(alloc, job, crew.turns(), rights)?;
    hire_all(alloc, job, seat, recruits, &mut workers);
    work_all(rt, &source, job, work.run, gate, &mut workers);
    crew.note_turns(&workers);
    let runs = gather(alloc, source, job, seat, workers, room)?;
    in_order(alloc, work.count, runs)
}
