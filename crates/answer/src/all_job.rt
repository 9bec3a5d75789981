//! The search of all parts for all solutions.

ghost use Rattle.std.specs.Prelude.{◌<◌, [], IfOk};
ghost use Rattle.crew.specs.AtWork.{IsRun};
ghost use Rattle.crew.specs.Ends.{AreEndsOf};
ghost use Rattle.answer.specs.Plans.{IsPlan, IsCrewFor, model_of};
ghost use Rattle.answer.specs.Places.{AreResults};
ghost use Rattle.answer.specs.Results.{IsAllResult};
ghost use Rattle.answer.specs.Jobs.{numbers_of, Owns, AllFits, AllParts, AllStands};

use crate::plan::{Own, Plan, subproblem};
use crew::{Job, Work, Workers, run_numbers};
use gate::Gate;
use list_of::ListOf;
use memory::NoMemory;
use search::{AllEnd, Start, run_all_from};
use std::alloc::Global;
use std::thread::Threads;

/// The runs share nothing.
#[derive(Drop)]
pub(crate) struct AllJob<'a, L> {
    /// What is searched.
    pub(crate) plan: &'a Plan<'a, L>,
}

impl<L> Job<(), Own, AllEnd> for AllJob<'_, L> {
    ghost use Rattle.answer.specs.Jobs.{numbers_of, Owns, AllFits, AllParts, AllStands};

    ghost count = { λ job. numbers_of job.plan.now };

    ghost fits = { λ job. AllFits job };

    ghost has_parts = { AllParts };

    ghost owns = { λ job. Owns job.plan.now };

    ghost stands = { λ job. AllStands job };

    ghost may_split = { λ job. Unit {0} };

    fn own(&self, alloc: Global) -> Result<Own, NoMemory> {
        let own = Own::new(alloc);
        Ok(own)
    }

    fn split(&self, _seat: &mut ()) {}

    fn join_back(&self, _seat: &mut (), _other: ()) {}
}

/// Searches what the part with this number leads to for all its solutions.
fn run_number<R: Threads + Sync, L: Gate + Sync>(
    rt: &R,
    alloc: Global,
    job: &AllJob<'_, L>,
    own: &mut Own,
    number: u32,
) -> Result<AllEnd, NoMemory>
    requires number { number < numbers_of job.now.plan.now }
    requires owns { Owns job.now.plan.now own.old }
    requires plan { IsPlan job.now.plan.now }
    ensures { IsRun (AllFits job.now) AllParts (Owns job.now.plan.now) (AllStands job.now) own.new tt tt number result }
{
    match subproblem(alloc, job.plan, &mut own.walk, number)? {
        None => Ok(AllEnd::Done(ListOf::new(alloc))),
        Some(found) => {
            let start = Start {
                boxes: found.boxes,
                changed: found.changed,
            };
            let over = run_all_from(rt, alloc, job.plan.run, start, &mut own.kept)?;
            own.walk.take_back(over.boxes);
            Ok(over.end)
        }
    }
}

/// Runs all parts, each once.
fn run_each<R: Threads + Sync, C: Gate + Sync, L: Gate + Sync>(
    rt: &R,
    alloc: Global,
    crew: &mut Workers,
    job: &AllJob<'_, L>,
    gate: &C,
) -> Result<ListOf<AllEnd>, NoMemory>
    requires plan { IsPlan job.now.plan.now }
    requires crew { IsCrewFor job.now.plan.now.options crew.old }
    ensures ends { IfOk result (AreEndsOf (numbers_of job.now.plan.now) job.now.plan.now.options.workers (AllStands job.now tt)) }
    ensures crew { IsCrewFor job.now.plan.now.options crew.new }
{
    let run = |own: &mut Own, _seat: &mut (), number: u32| -> Result<AllEnd, NoMemory>
        requires { (number < numbers_of job.now.plan.now) × Owns job.now.plan.now own.now × IsPlan job.now.plan.now }
        ensures { IsRun (AllFits job.entry.now) AllParts (Owns job.entry.now.plan.now) (AllStands job.entry.now) own.exit.now tt tt number result }
    { run_number(rt, alloc, job, own, number) };
    let work = Work {
        job: &*job,
        run: &run,
        count: job.plan.count(),
    };
    let mut seat = ();
    let ends = run_numbers(rt, alloc, crew, &work, gate, &mut seat)?;
    Ok(ends)
}

/// The ends of the searches of all parts for all solutions.
pub(crate) fn all_ends<R: Threads + Sync, C: Gate + Sync, L: Gate + Sync>(
    rt: &R,
    alloc: Global,
    crew: &mut Workers,
    plan: &Plan<'_, L>,
    gate: &C,
) -> Result<ListOf<AllEnd>, NoMemory>
    requires plan { IsPlan plan.now }
    requires crew { IsCrewFor plan.now.options crew.old }
    ensures ends { IfOk result (AreResults (model_of plan.now) plan.now.parts.now plan.now.start.now (IsAllResult (model_of plan.now) plan.now.options)) }
    ensures crew { IsCrewFor plan.now.options crew.new }
{
    let job = AllJob { plan: &*plan };
    let ends = run_each(rt, alloc, crew, &job, gate)?;
    Ok(ends)
}
