//! The search of all parts for the first solution.

ghost use Rattle.std.specs.Prelude.{◌≡◌, ◌<◌, ℕ, [], IfOk};
ghost use Rattle.crew.specs.AtWork.{IsRun};
ghost use Rattle.crew.specs.Ends.{AreEndsOf};
ghost use Rattle.best_bound.specs.Lists.{Among};
ghost use Rattle.best_bound.specs.Seats.{numbers_seen};
ghost use Rattle.search.specs.Ends.{IsCut};
ghost use Rattle.answer.specs.Plans.{IsPlan, IsCrewFor, model_of};
ghost use Rattle.answer.specs.Results.{AreFirstResults};
ghost use Rattle.answer.specs.Jobs.{numbers_of, Owns, SaysWhichSolve, FirstFits, FirstParts, FirstStands};

use crate::plan::{Own, Plan, subproblem};
use best_bound::{Found, FoundSeat, Numbers};
use crew::{Job, Work, Workers, run_numbers};
use gate::Gate;
use interval::law_inside_order;
use list_of::ListOf;
use memory::NoMemory;
use search::{FirstEnd, Numbered, Start, lesser_seen, run_first_from};
use std::alloc::Global;
use std::marker::{Brand, PhantomData};
use std::thread::Threads;
use subproblems::law_paths;

/// The numbers of the parts that lead to a solution, for contracts alone.
pub(crate) trait OfParts {
    ghost use Rattle.std.specs.Prelude.{ℕ};

    ghost has_solution: { ℕ → Type 0 };
}

impl OfParts for Brand {
    ghost has_solution = { λ _. Unit {0} };
}

/// The same numbers, as what may be posted.
pub(crate) struct NumbersOf<M> {
    parts: PhantomData<M>,
}

impl<M: OfParts> Numbers for NumbersOf<M> {
    ghost has_solution = { M.has_solution };
}

/// The runs share the least number of a part that has a solution.
#[derive(Drop)]
pub(crate) struct FirstJob<'a, L, M: OfParts> {
    /// What is searched.
    pub(crate) plan: &'a Plan<'a, L>,
    /// The least number so far.
    pub(crate) found: &'a Found<NumbersOf<M>>,
}

impl<L, M: OfParts> Job<FoundSeat, Own, FirstEnd> for FirstJob<'_, L, M> {
    ghost use Rattle.answer.specs.Jobs.{numbers_of, Owns, FirstFits, FirstParts, FirstStands};

    ghost count = { λ job. numbers_of job.plan.now };

    ghost fits = { λ job. FirstFits job };

    ghost has_parts = { FirstParts };

    ghost owns = { λ job. Owns job.plan.now };

    ghost stands = { λ job. FirstStands job };

    ghost may_split = { λ job. Unit {0} };

    fn own(&self, alloc: Global) -> Result<Own, NoMemory> {
        let own = Own::new(alloc);
        Ok(own)
    }

    fn split(&self, seat: &mut FoundSeat) -> FoundSeat {
        self.found.split(seat)
    }

    fn join_back(&self, seat: &mut FoundSeat, other: FoundSeat) {
        self.found.join_back(seat, other);
    }
}

/// Goes to what the part with this number leads to, and searches it for its first solution.
fn run_there<R: Threads + Sync, L: Gate + Sync, M: OfParts>(
    rt: &R,
    alloc: Global,
    job: &FirstJob<'_, L, M>,
    own: &mut Own,
    seat: &mut FoundSeat,
    number: u32,
) -> Result<FirstEnd, NoMemory>
    requires number { number < numbers_of job.now.plan.now }
    requires owns { Owns job.now.plan.now own.old }
    requires fits { FirstFits job.now seat.old }
    requires numbers { SaysWhichSolve job.now.plan.now M.has_solution }
    ensures { IsRun (FirstFits job.now) FirstParts (Owns job.now.plan.now) (FirstStands job.now) own.new seat.old seat.new number result }
{
    match subproblem(alloc, job.plan, &mut own.walk, number)? {
        None => Ok(FirstEnd::Done(None)),
        Some(found) => {
            let start = Start {
                boxes: found.boxes,
                changed: found.changed,
            };
            let numbered = Numbered {
                number,
                found: job.found,
            };
            let over = run_first_from(
                rt,
                alloc,
                job.plan.run,
                start,
                &mut own.kept,
                &numbered,
                seat,
            )?;
            own.walk.take_back(over.boxes);
            Ok(over.end)
        }
    }
}

/// Searches what the part with this number leads to for its first solution, unless a lesser number has one: then it isn't gone
/// to.
fn run_number<R: Threads + Sync, L: Gate + Sync, M: OfParts>(
    rt: &R,
    alloc: Global,
    job: &FirstJob<'_, L, M>,
    own: &mut Own,
    seat: &mut FoundSeat,
    number: u32,
) -> Result<FirstEnd, NoMemory>
    requires number { number < numbers_of job.now.plan.now }
    requires owns { Owns job.now.plan.now own.old }
    requires fits { FirstFits job.now seat.old }
    requires numbers { SaysWhichSolve job.now.plan.now M.has_solution }
    ensures run { IsRun (FirstFits job.now) FirstParts (Owns job.now.plan.now) (FirstStands job.now) own.new seat.old seat.new number result }
    ensures at_once { (n : ℕ) → Among (numbers_seen seat.old) n → n < number → IfOk result IsCut × (own.new ≡ own.old) }
{
    law_inside_order();
    law_paths();
    // its contract says that the bounds are in range
    let _length = job.plan.start.len();
    if let Some(lesser) = lesser_seen(job.found, seat, number) {
        return Ok(FirstEnd::Cut(lesser));
    }
    run_there(rt, alloc, job, own, seat, number)
}

/// Runs all parts, each once.
fn run_all<R: Threads + Sync, C: Gate + Sync, L: Gate + Sync, M: OfParts + Sync>(
    rt: &R,
    alloc: Global,
    crew: &mut Workers,
    job: &FirstJob<'_, L, M>,
    gate: &C,
    seat: &mut FoundSeat,
) -> Result<ListOf<FirstEnd>, NoMemory>
    requires fits { FirstFits job.now seat.old }
    requires parts { FirstParts seat.old 1024 }
    requires none { FirstStands job.now seat.old [] }
    requires numbers { SaysWhichSolve job.now.plan.now M.has_solution }
    requires crew { IsCrewFor job.now.plan.now.options crew.old }
    ensures ends { IfOk result (AreEndsOf (numbers_of job.now.plan.now) job.now.plan.now.options.workers (FirstStands job.now seat.new)) }
    ensures fits { FirstFits job.now seat.new }
    ensures parts { FirstParts seat.new 1024 }
    ensures crew { IsCrewFor job.now.plan.now.options crew.new }
{
    let run = |own: &mut Own, seat: &mut FoundSeat, number: u32| -> Result<FirstEnd, NoMemory>
        requires number { number < numbers_of job.now.plan.now }
        requires owns { Owns job.now.plan.now own.now }
        requires fits { FirstFits job.now seat.now }
        requires numbers { SaysWhichSolve job.now.plan.now M.has_solution }
        ensures { IsRun (FirstFits job.entry.now) FirstParts (Owns job.entry.now.plan.now) (FirstStands job.entry.now)
            own.exit.now seat.entry.now seat.exit.now number result }
    { run_number(rt, alloc, job, own, seat, number) };
    let work = Work {
        job: &*job,
        run: &run,
        count: job.plan.count(),
    };
    let ends = run_numbers(rt, alloc, crew, &work, gate, seat)?;
    Ok(ends)
}

/// The same, where the test of numbers has a name.
fn ends_of<R: Threads + Sync, C: Gate + Sync, L: Gate + Sync, M: OfParts + Sync>(
    rt: &R,
    alloc: Global,
    crew: &mut Workers,
    plan: &Plan<'_, L>,
    gate: &C,
    _parts: PhantomData<M>,
) -> Result<ListOf<FirstEnd>, NoMemory>
    requires plan { IsPlan plan.now }
    requires numbers { SaysWhichSolve plan.now M.has_solution }
    requires crew { IsCrewFor plan.now.options crew.old }
    ensures ends { IfOk result (AreFirstResults (model_of plan.now) plan.now.options plan.now.parts.now plan.now.start.now) }
    ensures crew { IsCrewFor plan.now.options crew.new }
{
    let (found, mut seat) = Found::<NumbersOf<M>>::new(alloc)?;
    let job = FirstJob {
        plan: &*plan,
        found: &found,
    };
    let ends = run_all(rt, alloc, crew, &job, gate, &mut seat)?;
    // the look shows that all numbers that were seen were posted
    found.seen(&mut seat);
    Ok(ends)
}

/// The ends of the searches of all parts for the first solution.
pub(crate) fn first_ends<R: Threads + Sync, C: Gate + Sync, L: Gate + Sync>(
    rt: &R,
    alloc: Global,
    crew: &mut Workers,
    plan: &Plan<'_, L>,
    gate: &C,
) -> Result<ListOf<FirstEnd>, NoMemory>
    requires plan { IsPlan plan.now }
    requires crew { IsCrewFor plan.now.options crew.old }
    ensures ends { IfOk result (AreFirstResults (model_of plan.now) plan.now.options plan.now.parts.now plan.now.start.now) }
    ensures crew { IsCrewFor plan.now.options crew.new }
{
    ends_of(rt, alloc, crew, plan, gate, PhantomData::<Brand>)
}
