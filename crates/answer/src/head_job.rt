//! A portfolio for the first solution: the free search beside the searches of all parts.

ghost use Rattle.std.specs.Prelude.{◌≡◌, ◌<◌, suc, ℤ, List, [], Option, IfOk, IfSome};
ghost use Rattle.crew.specs.AtWork.{IsRun};
ghost use Rattle.crew.specs.Ends.{AreEndsOf};
ghost use Rattle.best_bound.specs.Seats.{IsFoundSeatOf, found_parts};
ghost use Rattle.solution_lists.specs.Solutions.{SolvesInside};
ghost use Rattle.search.specs.declared.ends.FirstEnd.TheVariants.{Done};
ghost use Rattle.portfolio.specs.declared.told.FirstTold.TheVariants.{Known};
ghost use Rattle.answer.specs.Plans.{IsPlan, IsCrewFor, model_of};
ghost use Rattle.answer.specs.Jobs.{numbers_of, Owns, FirstParts};
ghost use Rattle.answer.specs.Portfolios.{TellsHead, AreTellingEnds};
ghost use Rattle.answer.specs.PortfolioJobs.{all_numbers_of, HeadFits, HeadStands};

use crate::plan::{Own, Plan, subproblem};
use best_bound::{Found, FoundSeat, Numbers};
use branching::law_one_list;
use crew::{Job, Work, Workers, run_numbers};
use gate::Gate;
use list_of::ListOf;
use memory::NoMemory;
use portfolio::{FirstTold, FreeTurns, Progress, first_by_free};
use search::{FirstEnd, Numbered, Start, lesser_seen, run_first_from};
use std::alloc::Global;
use std::thread::Threads;
use subproblems::law_paths;

/// What may be posted: any number, since nothing rests on it.
pub(crate) struct AnyNumber;

impl Numbers for AnyNumber {
    ghost has_solution = { λ _. Unit {0} };
}

/// The runs share the least number of one that ended with a solution. That of the free search is 0, which ends all others.
#[derive(Drop)]
pub(crate) struct HeadJob<'a, L> {
    /// What is searched.
    pub(crate) plan: &'a Plan<'a, L>,
    /// A solution in the plan's box, if one is known.
    pub(crate) known: Option<&'a ListOf<i64>>,
    /// The least number so far.
    pub(crate) found: &'a Found<AnyNumber>,
    /// How far the runs have come.
    pub(crate) progress: &'a Progress,
}

impl<L> Job<FoundSeat, Own, FirstTold> for HeadJob<'_, L> {
    ghost use Rattle.answer.specs.Jobs.{Owns, FirstParts};
    ghost use Rattle.answer.specs.PortfolioJobs.{all_numbers_of, HeadFits, HeadStands};

    ghost count = { λ job. all_numbers_of job.plan.now };

    ghost fits = { λ job. HeadFits job };

    ghost has_parts = { FirstParts };

    ghost owns = { λ job. Owns job.plan.now };

    ghost stands = { λ job. HeadStands job };

    ghost may_split = { λ job. Unit {0} };

    fn own(&self, alloc: Global) -> Result<Own, NoMemory> {
        let own = Own::new(alloc);
        Ok(own)
    }

    fn split(&self, seat: &mut FoundSeat) -> FoundSeat {
        self.found.split(seat)
    }

    fn join_back(&self, seat: &mut FoundSeat, other: FoundSeat) {
        self.found.join_back(seat, other);
    }
}

/// What the end of a run tells.
fn told_by(end: FirstEnd) -> FirstTold
    ensures { (answer : Option (List ℤ)) → result ≡ Known answer → end ≡ Done answer }
{
    match end {
        FirstEnd::Done(answer) => FirstTold::Known(answer),
        FirstEnd::Spent { .. } | FirstEnd::Cut(_) => FirstTold::Unknown,
    }
}

/// Goes to what the part at a place leads to, and searches it for its first solution, until a lesser number is posted.
fn search_there<R: Threads + Sync, L: Gate + Sync>(
    rt: &R,
    alloc: Global,
    job: &HeadJob<'_, L>,
    own: &mut Own,
    seat: &mut FoundSeat,
    place: u32,
) -> Result<FirstTold, NoMemory>
    requires place { place < numbers_of job.now.plan.now }
    requires owns { Owns job.now.plan.now own.old }
    requires fits { HeadFits job.now seat.old }
    ensures seat { IsFoundSeatOf job.now.found.now seat.new }
    ensures parts { found_parts seat.new ≡ found_parts seat.old }
    ensures owns { IfOk result (λ _. Owns job.now.plan.now own.new) }
    ensures told { IfOk result (TellsHead (model_of job.now.plan.now) job.now.plan.now.parts.now job.now.plan.now.start.now (suc place)) }
{
    law_one_list();
    law_paths();
    match subproblem(alloc, job.plan, &mut own.walk, place)? {
        None => Ok(FirstTold::Known(None)),
        Some(found) => {
            let start = Start {
                boxes: found.boxes,
                changed: found.changed,
            };
            let numbered = Numbered {
                number: place + 1,
                found: job.found,
            };
            let over = run_first_from(
                rt,
                alloc,
                job.plan.run,
                start,
                &mut own.kept,
                &numbered,
                seat,
            )?;
            own.walk.take_back(over.boxes);
            Ok(told_by(over.end))
        }
    }
}

/// Searches what the part at a place leads to for its first solution, unless a lesser number is posted: then it isn't gone to.
fn search_part<R: Threads + Sync, L: Gate + Sync>(
    rt: &R,
    alloc: Global,
    job: &HeadJob<'_, L>,
    own: &mut Own,
    seat: &mut FoundSeat,
    place: u32,
) -> Result<FirstTold, NoMemory>
    requires place { place < numbers_of job.now.plan.now }
    requires owns { Owns job.now.plan.now own.old }
    requires fits { HeadFits job.now seat.old }
    ensures seat { IsFoundSeatOf job.now.found.now seat.new }
    ensures parts { found_parts seat.new ≡ found_parts seat.old }
    ensures owns { IfOk result (λ _. Owns job.now.plan.now own.new) }
    ensures told { IfOk result (TellsHead (model_of job.now.plan.now) job.now.plan.now.parts.now job.now.plan.now.start.now (suc place)) }
{
    if lesser_seen(job.found, seat, place + 1).is_some() {
        return Ok(FirstTold::Unknown);
    }
    search_there(rt, alloc, job, own, seat, place)
}

/// The same, where the others hear of its beginning and its end.
fn run_part<R: Threads + Sync, L: Gate + Sync>(
    rt: &R,
    alloc: Global,
    job: &HeadJob<'_, L>,
    own: &mut Own,
    seat: &mut FoundSeat,
    place: u32,
) -> Result<FirstTold, NoMemory>
    requires place { place < numbers_of job.now.plan.now }
    requires owns { Owns job.now.plan.now own.old }
    requires fits { HeadFits job.now seat.old }
    ensures seat { IsFoundSeatOf job.now.found.now seat.new }
    ensures parts { found_parts seat.new ≡ found_parts seat.old }
    ensures owns { IfOk result (λ _. Owns job.now.plan.now own.new) }
    ensures told { IfOk result (TellsHead (model_of job.now.plan.now) job.now.plan.now.parts.now job.now.plan.now.start.now (suc place)) }
{
    job.progress.begin();
    let told = search_part(rt, alloc, job, own, seat, place);
    job.progress.finish(told.is_err());
    told
}

/// A copy of a solution.
fn copy_of(alloc: Global, values: &ListOf<i64>) -> Result<ListOf<i64>, NoMemory>
    ensures { IfOk result (λ copy. copy ≡ values.now) }
{
    let copy = Vec::from_slice(alloc, values.as_slice())?;
    Ok(ListOf::from_vec(copy))
}

/// A copy of the solution that is known, if one is.
fn known_copy<L>(alloc: Global, job: &HeadJob<'_, L>) -> Result<Option<ListOf<i64>>, NoMemory>
    requires known { IfSome job.now.known (λ a. SolvesInside (model_of job.now.plan.now) job.now.plan.now.start.now a.now) }
    ensures { IfOk result (λ copy. IfSome copy (SolvesInside (model_of job.now.plan.now) job.now.plan.now.start.now)) }
{
    match job.known {
        Some(values) => {
            let copy = copy_of(alloc, values)?;
            Ok(Some(copy))
        }
        None => Ok(None),
    }
}

/// Has the free search tell the first solution, and ends the runs of all parts, if it can. It does without the memory that it is
/// refused.
fn run_free<R: Threads + Sync, C: Gate, L: Gate + Sync>(
    rt: &R,
    alloc: Global,
    job: &HeadJob<'_, L>,
    gate: &C,
    seat: &mut FoundSeat,
) -> FirstTold
    requires fits { HeadFits job.now seat.old }
    ensures seat { IsFoundSeatOf job.now.found.now seat.new }
    ensures parts { found_parts seat.new ≡ found_parts seat.old }
    ensures told { TellsHead (model_of job.now.plan.now) job.now.plan.now.parts.now job.now.plan.now.start.now 0 result }
{
    let mut turns = FreeTurns::new(job.progress, gate);
    let Ok(known) = known_copy(alloc, job) else {
        return FirstTold::Unknown;
    };
    let told = first_by_free(rt, alloc, job.plan.run, job.plan.start, known, &mut turns);
    if told.is_known() {
        job.found.post(seat, 0);
    }
    told
}

/// The run of a number.
fn run_number<R: Threads + Sync, C: Gate, L: Gate + Sync>(
    rt: &R,
    alloc: Global,
    job: &HeadJob<'_, L>,
    gate: &C,
    own: &mut Own,
    seat: &mut FoundSeat,
    number: u32,
) -> Result<FirstTold, NoMemory>
    requires number { number < all_numbers_of job.now.plan.now }
    requires owns { Owns job.now.plan.now own.old }
    requires fits { HeadFits job.now seat.old }
    ensures { IsRun (HeadFits job.now) FirstParts (Owns job.now.plan.now) (HeadStands job.now) own.new seat.old seat.new number result }
{
    if number == 0 {
        return Ok(run_free(rt, alloc, job, gate, seat));
    }
    run_part(rt, alloc, job, own, seat, number - 1)
}

/// Runs the free search and all parts, each once.
fn run_all<R: Threads + Sync, C: Gate + Sync, L: Gate + Sync>(
    rt: &R,
    alloc: Global,
    crew: &mut Workers,
    job: &HeadJob<'_, L>,
    gate: &C,
    seat: &mut FoundSeat,
) -> Result<ListOf<FirstTold>, NoMemory>
    requires fits { HeadFits job.now seat.old }
    requires parts { FirstParts seat.old 1024 }
    requires none { HeadStands job.now seat.old [] }
    requires crew { IsCrewFor job.now.plan.now.options crew.old }
    ensures ends { IfOk result (AreEndsOf (all_numbers_of job.now.plan.now) job.now.plan.now.options.workers (HeadStands job.now seat.new)) }
    ensures crew { IsCrewFor job.now.plan.now.options crew.new }
{
    let run = |own: &mut Own, seat: &mut FoundSeat, number: u32| -> Result<FirstTold, NoMemory>
        requires number { number < all_numbers_of job.now.plan.now }
        requires owns { Owns job.now.plan.now own.now }
        requires fits { HeadFits job.now seat.now }
        ensures { IsRun (HeadFits job.entry.now) FirstParts (Owns job.entry.now.plan.now) (HeadStands job.entry.now)
            own.exit.now seat.entry.now seat.exit.now number result }
    { run_number(rt, alloc, job, gate, own, seat, number) };
    let work = Work {
        job: &*job,
        run: &run,
        count: job.plan.count() + 1,
    };
    let ends = run_numbers(rt, alloc, crew, &work, gate, seat)?;
    Ok(ends)
}

/// What the free search and all parts tell of the first solution in the plan's box, in the order of their numbers.
pub(crate) fn head_ends<R: Threads + Sync, C: Gate + Sync, L: Gate + Sync>(
    rt: &R,
    alloc: Global,
    crew: &mut Workers,
    plan: &Plan<'_, L>,
    known: Option<&ListOf<i64>>,
    gate: &C,
) -> Result<ListOf<FirstTold>, NoMemory>
    requires plan { IsPlan plan.now }
    requires known { IfSome known (λ a. SolvesInside (model_of plan.now) plan.now.start.now a.now) }
    requires crew { IsCrewFor plan.now.options crew.old }
    ensures ends { IfOk result (AreTellingEnds (TellsHead (model_of plan.now) plan.now.parts.now plan.now.start.now) (numbers_of plan.now)) }
    ensures crew { IsCrewFor plan.now.options crew.new }
{
    let (found, mut seat) = Found::<AnyNumber>::new(alloc)?;
    let progress = Progress::new(plan.count());
    let job = HeadJob {
        plan: &*plan,
        known,
        found: &found,
        progress: &progress,
    };
    let ends = run_all(rt, alloc, crew, &job, gate, &mut seat)?;
    Ok(ends)
}
