//! A portfolio for the least cost: the free search beside the searches of all parts.

ghost use Rattle.std.specs.Prelude.{◌≡◌, ◌≢◌, ◌<◌, suc, [], IfOk};
ghost use Rattle.crew.specs.AtWork.{IsRun};
ghost use Rattle.crew.specs.Ends.{AreEndsOf};
ghost use Rattle.best_bound.specs.Seats.{IsBestSeatOf, best_parts};
ghost use Rattle.constraint_model.specs.declared.model.Goal.TheVariants.{Satisfy};
ghost use Rattle.answer.specs.Plans.{IsPlan, IsCrewFor, model_of};
ghost use Rattle.answer.specs.Jobs.{numbers_of, Owns, SaysWhichCost, LeastParts};
ghost use Rattle.answer.specs.Raced.{IsUnlimited};
ghost use Rattle.answer.specs.Portfolios.{TellsCost, AreTellingEnds};
ghost use Rattle.answer.specs.PortfolioJobs.{all_numbers_of, CostFits, CostStands};

use crate::least_job::{CostsOf, OfModel};
use crate::plan::{Own, Plan, subproblem};
use best_bound::{Best, BestSeat};
use crew::{Job, Work, Workers, run_numbers};
use gate::Gate;
use list_of::ListOf;
use memory::NoMemory;
use portfolio::{Bound, CostTold, FreeTurns, Progress, Sharing, costs_by_free, costs_of_box};
use std::alloc::Global;
use std::marker::{Brand, PhantomData};
use std::thread::Threads;
use subproblems::law_paths;

/// The runs share the best cost.
#[derive(Drop)]
pub(crate) struct CostJob<'a, L, M: OfModel> {
    /// What is searched.
    pub(crate) plan: &'a Plan<'a, L>,
    /// The best cost so far.
    pub(crate) best: &'a Best<CostsOf<M>>,
    /// How far the runs have come.
    pub(crate) progress: &'a Progress,
}

impl<L, M: OfModel> Job<BestSeat, Own, CostTold> for CostJob<'_, L, M> {
    ghost use Rattle.answer.specs.Jobs.{Owns, LeastParts};
    ghost use Rattle.answer.specs.PortfolioJobs.{all_numbers_of, CostFits, CostStands};

    ghost count = { λ job. all_numbers_of job.plan.now };

    ghost fits = { λ job. CostFits job };

    ghost has_parts = { LeastParts };

    ghost owns = { λ job. Owns job.plan.now };

    ghost stands = { λ job. CostStands job };

    ghost may_split = { λ job. Unit {0} };

    fn own(&self, alloc: Global) -> Result<Own, NoMemory> {
        let own = Own::new(alloc);
        Ok(own)
    }

    fn split(&self, seat: &mut BestSeat) -> BestSeat {
        self.best.split(seat)
    }

    fn join_back(&self, seat: &mut BestSeat, other: BestSeat) {
        self.best.join_back(seat, other);
    }
}

/// Goes to what the part at a place leads to, and searches it for the least cost.
fn search_part<R: Threads + Sync, L: Gate + Sync, M: OfModel>(
    rt: &R,
    alloc: Global,
    job: &CostJob<'_, L, M>,
    own: &mut Own,
    seat: &mut BestSeat,
    place: u32,
) -> Result<CostTold, NoMemory>
    requires place { place < numbers_of job.now.plan.now }
    requires owns { Owns job.now.plan.now own.old }
    requires fits { CostFits job.now seat.old }
    requires costs { SaysWhichCost job.now.plan.now M.is_cost }
    ensures seat { IsBestSeatOf job.now.best.now seat.new }
    ensures parts { best_parts seat.new ≡ best_parts seat.old }
    ensures owns { IfOk result (λ _. Owns job.now.plan.now own.new) }
    ensures told { IfOk result (TellsCost (model_of job.now.plan.now) job.now.plan.now.parts.now job.now.plan.now.start.now (suc place)) }
{
    law_paths();
    if job.progress.is_ended() {
        return Ok(CostTold::nothing());
    }
    match subproblem(alloc, job.plan, &mut own.walk, place)? {
        None => Ok(CostTold {
            bound: Some(Bound { at_least: None }),
            best: None,
        }),
        Some(found) => {
            let sharing = Sharing {
                run: job.plan.run,
                best: job.best,
                progress: job.progress,
            };
            let told = costs_of_box(rt, alloc, &sharing, found.boxes.current(), seat)?;
            own.walk.take_back(found.boxes);
            Ok(told)
        }
    }
}

/// The same, where the others hear of its beginning and of its end.
fn run_part<R: Threads + Sync, L: Gate + Sync, M: OfModel>(
    rt: &R,
    alloc: Global,
    job: &CostJob<'_, L, M>,
    own: &mut Own,
    seat: &mut BestSeat,
    place: u32,
) -> Result<CostTold, NoMemory>
    requires place { place < numbers_of job.now.plan.now }
    requires owns { Owns job.now.plan.now own.old }
    requires fits { CostFits job.now seat.old }
    requires costs { SaysWhichCost job.now.plan.now M.is_cost }
    ensures seat { IsBestSeatOf job.now.best.now seat.new }
    ensures parts { best_parts seat.new ≡ best_parts seat.old }
    ensures owns { IfOk result (λ _. Owns job.now.plan.now own.new) }
    ensures told { IfOk result (TellsCost (model_of job.now.plan.now) job.now.plan.now.parts.now job.now.plan.now.start.now (suc place)) }
{
    job.progress.begin();
    let told = search_part(rt, alloc, job, own, seat, place);
    job.progress.finish(told.is_err());
    told
}

/// The run of the free search. Once it knows the least cost, nothing more need be searched.
fn run_free<R: Threads + Sync, C: Gate, L: Gate + Sync, M: OfModel>(
    rt: &R,
    alloc: Global,
    job: &CostJob<'_, L, M>,
    gate: &C,
    seat: &mut BestSeat,
) -> CostTold
    requires fits { CostFits job.now seat.old }
    requires costs { SaysWhichCost job.now.plan.now M.is_cost }
    ensures seat { IsBestSeatOf job.now.best.now seat.new }
    ensures parts { best_parts seat.new ≡ best_parts seat.old }
    ensures told { TellsCost (model_of job.now.plan.now) job.now.plan.now.parts.now job.now.plan.now.start.now 0 result }
{
    let mut turns = FreeTurns::new(job.progress, gate);
    let sharing = Sharing {
        run: job.plan.run,
        best: job.best,
        progress: job.progress,
    };
    let told = costs_by_free(rt, alloc, &sharing, seat, &mut turns);
    if told.bound.is_some() {
        job.progress.end();
    }
    told
}

/// The run of a number.
fn run_number<R: Threads + Sync, C: Gate, L: Gate + Sync, M: OfModel>(
    rt: &R,
    alloc: Global,
    job: &CostJob<'_, L, M>,
    gate: &C,
    own: &mut Own,
    seat: &mut BestSeat,
    number: u32,
) -> Result<CostTold, NoMemory>
    requires number { number < all_numbers_of job.now.plan.now }
    requires owns { Owns job.now.plan.now own.old }
    requires fits { CostFits job.now seat.old }
    requires costs { SaysWhichCost job.now.plan.now M.is_cost }
    ensures { IsRun (CostFits job.now) LeastParts (Owns job.now.plan.now) (CostStands job.now) own.new seat.old seat.new number result }
{
    if number == 0 {
        return Ok(run_free(rt, alloc, job, gate, seat));
    }
    run_part(rt, alloc, job, own, seat, number - 1)
}

/// Runs the free search and all parts, each once.
fn run_all<R: Threads + Sync, C: Gate + Sync, L: Gate + Sync, M: OfModel + Sync>(
    rt: &R,
    alloc: Global,
    crew: &mut Workers,
    job: &CostJob<'_, L, M>,
    gate: &C,
    seat: &mut BestSeat,
) -> Result<ListOf<CostTold>, NoMemory>
    requires fits { CostFits job.now seat.old }
    requires parts { LeastParts seat.old 1024 }
    requires none { CostStands job.now seat.old [] }
    requires costs { SaysWhichCost job.now.plan.now M.is_cost }
    requires crew { IsCrewFor job.now.plan.now.options crew.old }
    ensures ends { IfOk result (AreEndsOf (all_numbers_of job.now.plan.now) job.now.plan.now.options.workers (CostStands job.now seat.new)) }
    ensures crew { IsCrewFor job.now.plan.now.options crew.new }
{
    let run = |own: &mut Own, seat: &mut BestSeat, number: u32| -> Result<CostTold, NoMemory>
        requires number { number < all_numbers_of job.now.plan.now }
        requires owns { Owns job.now.plan.now own.now }
        requires fits { CostFits job.now seat.now }
        requires costs { SaysWhichCost job.now.plan.now M.is_cost }
        ensures { IsRun (CostFits job.entry.now) LeastParts (Owns job.entry.now.plan.now) (CostStands job.entry.now)
            own.exit.now seat.entry.now seat.exit.now number result }
    { run_number(rt, alloc, job, gate, own, seat, number) };
    let work = Work {
        job: &*job,
        run: &run,
        count: job.plan.count() + 1,
    };
    let ends = run_numbers(rt, alloc, crew, &work, gate, seat)?;
    Ok(ends)
}

/// The same, where the test of costs has a name.
fn ends_of<R: Threads + Sync, C: Gate + Sync, L: Gate + Sync, M: OfModel + Sync>(
    rt: &R,
    alloc: Global,
    crew: &mut Workers,
    plan: &Plan<'_, L>,
    gate: &C,
    _model: PhantomData<M>,
) -> Result<ListOf<CostTold>, NoMemory>
    requires plan { IsPlan plan.now }
    requires whole { plan.now.start.now ≡ plan.now.run.now.program.now.start }
    requires unlimited { IsUnlimited plan.now.options }
    requires objective { (model_of plan.now).goal ≢ Satisfy }
    requires costs { SaysWhichCost plan.now M.is_cost }
    requires crew { IsCrewFor plan.now.options crew.old }
    ensures ends { IfOk result (AreTellingEnds (TellsCost (model_of plan.now) plan.now.parts.now plan.now.start.now) (numbers_of plan.now)) }
    ensures crew { IsCrewFor plan.now.options crew.new }
{
    let (best, mut seat) = Best::<CostsOf<M>>::new(alloc)?;
    let progress = Progress::new(plan.count());
    let job = CostJob {
        plan: &*plan,
        best: &best,
        progress: &progress,
    };
    let ends = run_all(rt, alloc, crew, &job, gate, &mut seat)?;
    Ok(ends)
}

/// What the free search and all parts tell of the least cost in the plan's box, in the order of their numbers.
pub(crate) fn cost_ends<R: Threads + Sync, C: Gate + Sync, L: Gate + Sync>(
    rt: &R,
    alloc: Global,
    crew: &mut Workers,
    plan: &Plan<'_, L>,
    gate: &C,
) -> Result<ListOf<CostTold>, NoMemory>
    requires plan { IsPlan plan.now }
    requires whole { plan.now.start.now ≡ plan.now.run.now.program.now.start }
    requires unlimited { IsUnlimited plan.now.options }
    requires objective { (model_of plan.now).goal ≢ Satisfy }
    requires crew { IsCrewFor plan.now.options crew.old }
    ensures ends { IfOk result (AreTellingEnds (TellsCost (model_of plan.now) plan.now.parts.now plan.now.start.now) (numbers_of plan.now)) }
    ensures crew { IsCrewFor plan.now.options crew.new }
{
    ends_of(rt, alloc, crew, plan, gate, PhantomData::<Brand>)
}
