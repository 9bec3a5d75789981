//! The answer by several workers without limits: one has a search in a free order, the others the parts of the search tree.

ghost use Rattle.std.specs.Prelude.{◌≡◌, ◌≢◌, Some, None, false, IfOk, IfSome};
ghost use Rattle.std.specs.Bool.{OnTrue};
ghost use Rattle.interval.specs.Boxes.{IsInside};
ghost use Rattle.constraint_model.specs.declared.model.Goal.TheVariants.{Satisfy};
ghost use Rattle.solution_lists.specs.Solutions.{SolvesInside};
ghost use Rattle.search.specs.Turns.{CostsAtLeast};
ghost use Rattle.race.specs.Firsts.{IsFirstIn};
ghost use Rattle.race.specs.Leasts.{IsIncumbent};
ghost use Rattle.portfolio.specs.Told.{TellsLeast};
ghost use Rattle.answer.specs.Given.{IsSetUp, IsGiven};
ghost use Rattle.answer.specs.Parts.{ArePartsFor};
ghost use Rattle.answer.specs.Plans.{IsPlan, IsCrewFor, model_of};
ghost use Rattle.answer.specs.Raced.{IsUnlimited};

use crate::collecting::{first_of, list_of_one};
use crate::cost_job::cost_ends;
use crate::first_job::first_ends;
use crate::head_job::head_ends;
use crate::marks::mark_of;
use crate::objective::cut_to_value;
use crate::options::Options;
use crate::parts::parts_of;
use crate::plan::Plan;
use crate::raced::no_answer;
use crate::told_ends::{first_of_runs, least_of_runs};
use branching::{law_every_list, law_one_list};
use crew::Workers;
use first_keys::is_static;
use fzn_print::{Answer, Mark};
use gate::Gate;
use interval::{BoxOf, law_inside_order};
use list_of::ListOf;
use memory::NoMemory;
use portfolio::{FirstTold, LeastTold};
use race::Incumbent;
use search::Run;
use solution_lists::{law_in_declaration_order, law_solutions_listed};
use std::alloc::Global;
use std::thread::Threads;
use subproblems::{law_cuts, law_paths};
use tree_parts::law_whole_of_parts;

/// Whether several workers search and no limit is set, each propagating alone.
pub(crate) fn is_beside(options: Options) -> bool
    ensures { OnTrue result (IsUnlimited options) }
{
    let are_several = options.workers > 1 && options.lanes == 1;
    are_several && options.node_limit == 0 && options.round_limit == 0
}

/// The first solution in the plan's box, by the parts alone.
fn first_by_parts<R: Threads + Sync, C: Gate + Sync, L: Gate + Sync>(
    rt: &R,
    alloc: Global,
    crew: &mut Workers,
    plan: &Plan<'_, L>,
    gate: &C,
) -> Result<Option<ListOf<i64>>, NoMemory>
    requires plan { IsPlan plan.now }
    requires parts { ArePartsFor plan.now.options plan.now.parts.now }
    requires unlimited { IsUnlimited plan.now.options }
    requires crew { IsCrewFor plan.now.options crew.old }
    ensures { IfOk result (IsFirstIn plan.now.run.now plan.now.start.now) }
{
    law_inside_order();
    law_one_list();
    law_every_list();
    law_paths();
    law_cuts();
    law_whole_of_parts();
    // its contract says that the bounds are in range
    let _length = plan.start.len();
    let ends = first_ends(rt, alloc, crew, plan, gate)?;
    Ok(first_of(ends))
}

/// The first solution in the plan's box, by a portfolio, if that tells it. A solution there may be known: then the free search
/// has something to say in a static order alone.
fn first_in_plan<R: Threads + Sync, C: Gate + Sync, L: Gate + Sync>(
    rt: &R,
    alloc: Global,
    crew: &mut Workers,
    plan: &Plan<'_, L>,
    known: Option<&ListOf<i64>>,
    gate: &C,
) -> Result<Option<ListOf<i64>>, NoMemory>
    requires plan { IsPlan plan.now }
    requires parts { ArePartsFor plan.now.options plan.now.parts.now }
    requires unlimited { IsUnlimited plan.now.options }
    requires known { IfSome known (λ a. SolvesInside (model_of plan.now) plan.now.start.now a.now) }
    requires crew { IsCrewFor plan.now.options crew.old }
    ensures { IfOk result (IsFirstIn plan.now.run.now plan.now.start.now) }
{
    if known.is_none() || is_static(plan.run.model) {
        let ends = head_ends(rt, alloc, crew, plan, known, gate)?;
        if let FirstTold::Known(answer) = first_of_runs(plan, ends) {
            return Ok(answer);
        }
    }
    first_by_parts(rt, alloc, crew, plan, gate)
}

/// The first solution in a box, where one may be known.
fn first_in_box<R: Threads + Sync, C: Gate + Sync, L: Gate + Sync>(
    rt: &R,
    alloc: Global,
    run: &Run<'_, L>,
    options: Options,
    crew: &mut Workers,
    gate: &C,
    start: &BoxOf,
    known: Option<&ListOf<i64>>,
) -> Result<Option<ListOf<i64>>, NoMemory>
    requires set_up { IsSetUp run.now options }
    requires unlimited { IsUnlimited options }
    requires inside { IsInside start.now run.now.program.now.start }
    requires known { IfSome known (λ a. SolvesInside run.now.model.now start.now a.now) }
    requires crew { IsCrewFor options crew.old }
    ensures { IfOk result (IsFirstIn run.now start.now) }
{
    let parts = parts_of(alloc, run, options, start)?;
    let plan = Plan {
        run: &*run,
        options,
        parts: parts.as_slice(),
        start: &*start,
    };
    first_in_plan(rt, alloc, crew, &plan, known, gate)
}

/// The first solution.
pub(crate) fn first_beside<R: Threads + Sync, C: Gate + Sync, L: Gate + Sync>(
    rt: &R,
    alloc: Global,
    run: &Run<'_, L>,
    options: Options,
    crew: &mut Workers,
    gate: &C,
) -> Result<Answer, NoMemory>
    requires set_up { IsSetUp run.now options }
    requires unlimited { IsUnlimited options }
    requires satisfy { run.now.model.now.goal ≡ Satisfy }
    requires first { options.all ≡ false }
    requires crew { IsCrewFor options crew.old }
    ensures { IfOk result (IsGiven run.now.model.now options) }
{
    law_inside_order();
    law_every_list();
    law_solutions_listed();
    law_in_declaration_order();
    let start = &run.program.start;
    let first = first_in_box(rt, alloc, run, options, crew, gate, start, None)?;
    let solutions = list_of_one(alloc, first)?;
    let mark = mark_of(false, &solutions, Mark::Plain);
    Ok(Answer { solutions, mark })
}

/// What a portfolio tells of the least cost.
fn least_in<R: Threads + Sync, C: Gate + Sync, L: Gate + Sync>(
    rt: &R,
    alloc: Global,
    run: &Run<'_, L>,
    options: Options,
    crew: &mut Workers,
    gate: &C,
) -> Result<LeastTold, NoMemory>
    requires set_up { IsSetUp run.now options }
    requires unlimited { IsUnlimited options }
    requires objective { run.now.model.now.goal ≢ Satisfy }
    requires crew { IsCrewFor options crew.old }
    ensures told { IfOk result (TellsLeast run.now.model.now run.now.program.now.start) }
    ensures crew { IsCrewFor options crew.new }
{
    law_inside_order();
    let parts = parts_of(alloc, run, options, &run.program.start)?;
    let plan = Plan {
        run: &*run,
        options,
        parts: parts.as_slice(),
        start: &run.program.start,
    };
    let ends = cost_ends(rt, alloc, crew, &plan, gate)?;
    Ok(least_of_runs(&plan, ends))
}

/// The first solution that costs as much as the best one, where none costs less.
fn optimum_beside<R: Threads + Sync, C: Gate + Sync, L: Gate + Sync>(
    rt: &R,
    alloc: Global,
    run: &Run<'_, L>,
    options: Options,
    crew: &mut Workers,
    gate: &C,
    best: &Incumbent,
) -> Result<Answer, NoMemory>
    requires set_up { IsSetUp run.now options }
    requires unlimited { IsUnlimited options }
    requires objective { run.now.model.now.goal ≢ Satisfy }
    requires best { IsIncumbent run.now.model.now run.now.program.now.start best.now }
    requires least { CostsAtLeast run.now.model.now run.now.program.now.start (Some best.now.cost) }
    requires crew { IsCrewFor options crew.old }
    ensures { IfOk result (IsGiven run.now.model.now options) }
{
    law_inside_order();
    law_every_list();
    law_solutions_listed();
    law_in_declaration_order();
    let mut cut = run.program.start.copy(alloc)?;
    cut_to_value(run.model.goal, best.values.as_slice(), &mut cut);
    let known = Some(&best.values);
    let first = first_in_box(rt, alloc, run, options, crew, gate, &cut, known)?;
    let solutions = list_of_one(alloc, first)?;
    Ok(Answer {
        solutions,
        mark: Mark::Complete,
    })
}

/// The first solution of least cost, or nothing, if the portfolio doesn't tell the least cost.
pub(crate) fn least_beside<R: Threads + Sync, C: Gate + Sync, L: Gate + Sync>(
    rt: &R,
    alloc: Global,
    run: &Run<'_, L>,
    options: Options,
    crew: &mut Workers,
    gate: &C,
) -> Result<Option<Answer>, NoMemory>
    requires set_up { IsSetUp run.now options }
    requires unlimited { IsUnlimited options }
    requires objective { run.now.model.now.goal ≢ Satisfy }
    requires crew { IsCrewFor options crew.old }
    ensures given { IfOk result (λ answer. IfSome answer (IsGiven run.now.model.now options)) }
    ensures crew { IfOk result (λ answer. answer ≡ None → IsCrewFor options crew.new) }
{
    match least_in(rt, alloc, run, options, crew, gate)? {
        LeastTold::Known(Some(best)) => {
            let answer = optimum_beside(rt, alloc, run, options, crew, gate, &best)?;
            Ok(Some(answer))
        }
        LeastTold::Known(None) => Ok(Some(no_answer(alloc, run, options))),
        LeastTold::Unknown => Ok(None),
    }
}
