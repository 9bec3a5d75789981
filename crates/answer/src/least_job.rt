//! The search of all parts for the least cost.

ghost use Rattle.std.specs.Prelude.{◌≡◌, ◌≢◌, ◌<◌, [], IfOk};
ghost use Rattle.constraint_model.specs.declared.model.Goal.TheVariants.{Satisfy};
ghost use Rattle.crew.specs.AtWork.{IsRun};
ghost use Rattle.crew.specs.Ends.{AreEndsOf};
ghost use Rattle.decompose.specs.Program.{start_of};
ghost use Rattle.tree_cover.specs.Covers.{AreCover};
ghost use Rattle.answer.specs.Plans.{IsPlan, IsCrewFor, model_of};
ghost use Rattle.answer.specs.Runs.{AreWholeEnds};
ghost use Rattle.answer.specs.Jobs.{numbers_of, Owns, SaysWhichCost, LeastFits, LeastParts, LeastStands};

use crate::plan::{Own, Plan, subproblem_below};
use best_bound::{Best, BestSeat, Costs};
use branching::{law_every_list, law_one_list};
use crew::{Job, Work, Workers, run_numbers};
use gate::Gate;
use interval::law_inside_order;
use list_of::ListOf;
use memory::NoMemory;
use search::{LeastEnd, Start, law_costs_fall, law_finds_least, law_more_posted, run_least_from};
use solution_lists::law_solutions_listed;
use std::alloc::Global;
use std::marker::{Brand, PhantomData};
use std::thread::Threads;
use subproblems::{law_cuts, law_paths};
use tickets::law_counting;
use tree_parts::law_whole_of_parts;

/// The costs of a model's solutions, for contracts alone.
pub(crate) trait OfModel {
    ghost use Rattle.std.specs.Prelude.{ℤ};

    ghost is_cost: { ℤ → Type 0 };
}

impl OfModel for Brand {
    ghost is_cost = { λ _. Unit {0} };
}

/// The same costs, as what may be posted.
pub(crate) struct CostsOf<M> {
    model: PhantomData<M>,
}

impl<M: OfModel> Costs for CostsOf<M> {
    ghost is_cost = { M.is_cost };
}

/// The runs share the best cost.
#[derive(Drop)]
pub(crate) struct LeastJob<'a, L, M: OfModel> {
    /// What is searched.
    pub(crate) plan: &'a Plan<'a, L>,
    /// The best cost so far.
    pub(crate) best: &'a Best<CostsOf<M>>,
}

impl<L, M: OfModel> Job<BestSeat, Own, LeastEnd> for LeastJob<'_, L, M> {
    ghost use Rattle.answer.specs.Jobs.{numbers_of, Owns, LeastFits, LeastParts, LeastStands, MaySplit};

    ghost count = { λ job. numbers_of job.plan.now };

    ghost fits = { λ job. LeastFits job };

    ghost has_parts = { LeastParts };

    ghost owns = { λ job. Owns job.plan.now };

    ghost stands = { λ job. LeastStands job };

    ghost may_split = { λ job. MaySplit job };

    fn own(&self, alloc: Global) -> Result<Own, NoMemory> {
        let own = Own::new(alloc);
        Ok(own)
    }

    fn split(&self, seat: &mut BestSeat) -> BestSeat {
        self.best.split(seat)
    }

    fn join_back(&self, seat: &mut BestSeat, other: BestSeat) {
        law_more_posted();
        self.best.join_back(seat, other);
    }
}

/// Searches what the part with this number leads to for the least cost. It isn't gone to where the best cost beats a box on the way: its
/// search would drop it.
fn run_number<R: Threads + Sync, L: Gate + Sync, M: OfModel>(
    rt: &R,
    alloc: Global,
    job: &LeastJob<'_, L, M>,
    own: &mut Own,
    seat: &mut BestSeat,
    number: u32,
) -> Result<LeastEnd, NoMemory>
    requires number { number < numbers_of job.now.plan.now }
    requires owns { Owns job.now.plan.now own.old }
    requires fits { LeastFits job.now seat.old }
    requires costs { SaysWhichCost job.now.plan.now M.is_cost }
    ensures { IsRun (LeastFits job.now) LeastParts (Owns job.now.plan.now) (LeastStands job.now) own.new seat.old seat.new number result }
{
    law_more_posted();
    law_costs_fall();
    law_inside_order();
    law_cuts();
    law_paths();
    law_finds_least();
    // its contract says that the bounds are in range
    let _length = job.plan.start.len();
    let best = job.best.seen(seat);
    match subproblem_below(alloc, job.plan, &mut own.walk, number, best)? {
        None => Ok(LeastEnd::Done(None)),
        Some(found) => {
            let start = Start {
                boxes: found.boxes,
                changed: found.changed,
            };
            // its contract says that the bounds are in range
            let _length = start.boxes.len();
            let over = run_least_from(
                rt,
                alloc,
                job.plan.run,
                start,
                &mut own.kept,
                job.best,
                seat,
            )?;
            own.walk.take_back(over.boxes);
            Ok(over.end)
        }
    }
}

/// Runs all parts, each once.
fn run_all<R: Threads + Sync, C: Gate + Sync, L: Gate + Sync, M: OfModel + Sync>(
    rt: &R,
    alloc: Global,
    crew: &mut Workers,
    job: &LeastJob<'_, L, M>,
    gate: &C,
    seat: &mut BestSeat,
) -> Result<ListOf<LeastEnd>, NoMemory>
    requires fits { LeastFits job.now seat.old }
    requires parts { LeastParts seat.old 1024 }
    requires none { LeastStands job.now seat.old [] }
    requires costs { SaysWhichCost job.now.plan.now M.is_cost }
    requires crew { IsCrewFor job.now.plan.now.options crew.old }
    ensures ends { IfOk result (AreEndsOf (numbers_of job.now.plan.now) job.now.plan.now.options.workers (LeastStands job.now seat.new)) }
    ensures fits { LeastFits job.now seat.new }
    ensures parts { LeastParts seat.new 1024 }
    ensures crew { IsCrewFor job.now.plan.now.options crew.new }
{
    let run = |own: &mut Own, seat: &mut BestSeat, number: u32| -> Result<LeastEnd, NoMemory>
        requires number { number < numbers_of job.now.plan.now }
        requires owns { Owns job.now.plan.now own.now }
        requires fits { LeastFits job.now seat.now }
        requires costs { SaysWhichCost job.now.plan.now M.is_cost }
        ensures { IsRun (LeastFits job.entry.now) LeastParts (Owns job.entry.now.plan.now) (LeastStands job.entry.now)
            own.exit.now seat.entry.now seat.exit.now number result }
    { run_number(rt, alloc, job, own, seat, number) };
    let work = Work {
        job: &*job,
        run: &run,
        count: job.plan.count(),
    };
    let ends = run_numbers(rt, alloc, crew, &work, gate, seat)?;
    Ok(ends)
}

/// The same, where the test of costs has a name.
fn ends_of<R: Threads + Sync, C: Gate + Sync, L: Gate + Sync, M: OfModel + Sync>(
    rt: &R,
    alloc: Global,
    crew: &mut Workers,
    plan: &Plan<'_, L>,
    gate: &C,
    _model: PhantomData<M>,
) -> Result<ListOf<LeastEnd>, NoMemory>
    requires plan { IsPlan plan.now }
    requires cover { AreCover plan.now.parts.now }
    requires start { plan.now.start.now ≡ start_of (model_of plan.now) }
    requires objective { (model_of plan.now).goal ≢ Satisfy }
    requires costs { SaysWhichCost plan.now M.is_cost }
    requires crew { IsCrewFor plan.now.options crew.old }
    ensures ends { IfOk result (AreWholeEnds (model_of plan.now) plan.now.options plan.now.parts.now) }
    ensures crew { IsCrewFor plan.now.options crew.new }
{
    law_inside_order();
    law_one_list();
    law_every_list();
    law_paths();
    law_cuts();
    law_whole_of_parts();
    law_solutions_listed();
    law_counting();
    let (best, mut seat) = Best::<CostsOf<M>>::new(alloc)?;
    let job = LeastJob {
        plan: &*plan,
        best: &best,
    };
    let ends = run_all(rt, alloc, crew, &job, gate, &mut seat)?;
    // the look shows that all costs that were seen were posted
    best.seen(&mut seat);
    Ok(ends)
}

/// The ends of the searches of all parts for the least cost.
pub(crate) fn least_ends<R: Threads + Sync, C: Gate + Sync, L: Gate + Sync>(
    rt: &R,
    alloc: Global,
    crew: &mut Workers,
    plan: &Plan<'_, L>,
    gate: &C,
) -> Result<ListOf<LeastEnd>, NoMemory>
    requires plan { IsPlan plan.now }
    requires cover { AreCover plan.now.parts.now }
    requires start { plan.now.start.now ≡ start_of (model_of plan.now) }
    requires objective { (model_of plan.now).goal ≢ Satisfy }
    requires crew { IsCrewFor plan.now.options crew.old }
    ensures ends { IfOk result (AreWholeEnds (model_of plan.now) plan.now.options plan.now.parts.now) }
    ensures crew { IsCrewFor plan.now.options crew.new }
{
    ends_of(rt, alloc, crew, plan, gate, PhantomData::<Brand>)
}
