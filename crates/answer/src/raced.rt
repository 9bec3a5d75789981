//! The answer by a race of two searches, on one thread and without limits.

ghost use Rattle.std.specs.Prelude.{◌≡◌, ◌≢◌, ℤ, List, true, false, Some, IfOk, IfSome};
ghost use Rattle.std.specs.Bool.{OnTrue};
ghost use Rattle.constraint_model.specs.declared.model.Goal.TheVariants.{Satisfy};
ghost use Rattle.free_search.specs.Free.{IsFreeSearch};
ghost use Rattle.solution_lists.specs.Solutions.{SolvesInside};
ghost use Rattle.search.specs.Turns.{CostsAtLeast};
ghost use Rattle.race.specs.Leasts.{IsIncumbent};
ghost use Rattle.answer.specs.Given.{IsSetUp, IsGiven};
ghost use Rattle.answer.specs.Raced.{IsUnlimited};

use crate::collecting::list_of_one;
use crate::laws::law_first_of_lists;
use crate::marks::mark_of;
use crate::objective::cut_to_value;
use crate::options::Options;
use branching::law_every_list;
use constraint_model::Goal;
use free_search::FreeSearch;
use fzn_print::{Answer, Mark};
use gate::Gate;
use interval::law_inside_order;
use list_of::ListOf;
use memory::NoMemory;
use race::{Incumbent, Raced, Turns, first_of_race, least_of_race};
use search::Run;
use solution_lists::{law_in_declaration_order, law_solutions_listed};
use std::alloc::Global;
use std::thread::Threads;

/// Whether no limit is set.
fn is_unlimited(options: Options) -> bool
    ensures { OnTrue result (IsUnlimited options) }
{
    options.node_limit == 0 && options.round_limit == 0
}

/// Whether one solution is asked for, and not all.
fn is_for_one(goal: Goal, all: bool) -> bool
    ensures { OnTrue result (goal ≡ Satisfy → all ≡ false) }
{
    match goal {
        Goal::Satisfy => !all,
        Goal::Minimize(_) | Goal::Maximize(_) => true,
    }
}

/// Whether a race gives the answer: no limit is set, and one thread searches with one lane, for one solution.
pub(crate) fn is_raced<L>(run: &Run<'_, L>, options: Options) -> bool
    ensures unlimited { OnTrue result (IsUnlimited options) }
    ensures one { OnTrue result (run.now.model.now.goal ≡ Satisfy → options.all ≡ false) }
{
    options.workers == 1
        && options.lanes == 1
        && is_unlimited(options)
        && is_for_one(run.model.goal, options.all)
}

/// The first solution.
fn raced_first<R: Threads + Sync, L: Gate + Sync>(
    rt: &R,
    alloc: Global,
    run: &Run<'_, L>,
    options: Options,
) -> Result<Answer, NoMemory>
    requires set_up { IsSetUp run.now options }
    requires unlimited { IsUnlimited options }
    requires satisfy { run.now.model.now.goal ≡ Satisfy }
    requires first { options.all ≡ false }
    ensures { IfOk result (IsGiven run.now.model.now options) }
{
    law_inside_order();
    law_every_list();
    law_solutions_listed();
    law_in_declaration_order();
    let start = &run.program.start;
    let first = first_of_race(rt, alloc, run, start, None, None, Turns::usual(run))?;
    let solutions = list_of_one(alloc, first)?;
    let mark = mark_of(false, &solutions, Mark::Plain);
    Ok(Answer { solutions, mark })
}

/// The answer where there is no solution.
pub(crate) fn no_answer<L>(alloc: Global, run: &Run<'_, L>, options: Options) -> Answer
    requires set_up { IsSetUp run.now options }
    requires unlimited { IsUnlimited options }
    requires none { (a : List ℤ) → SolvesInside run.now.model.now run.now.program.now.start a → ⊥ }
    ensures { IsGiven run.now.model.now options result }
{
    law_inside_order();
    law_every_list();
    law_solutions_listed();
    law_in_declaration_order();
    Answer {
        solutions: ListOf::new(alloc),
        mark: Mark::Unsatisfiable,
    }
}

/// The least-cost solution that is known to be the first of its cost.
fn settled_least<L>(
    alloc: Global,
    run: &Run<'_, L>,
    options: Options,
    best: Incumbent,
) -> Result<Answer, NoMemory>
    requires set_up { IsSetUp run.now options }
    requires unlimited { IsUnlimited options }
    requires objective { run.now.model.now.goal ≢ Satisfy }
    requires best { IsIncumbent run.now.model.now run.now.program.now.start best }
    requires least { CostsAtLeast run.now.model.now run.now.program.now.start (Some best.cost) }
    requires first { best.is_first ≡ true }
    ensures { IfOk result (IsGiven run.now.model.now options) }
{
    law_inside_order();
    law_every_list();
    law_solutions_listed();
    law_in_declaration_order();
    law_first_of_lists();
    let Incumbent { values, .. } = best;
    let solutions = list_of_one(alloc, Some(values))?;
    Ok(Answer {
        solutions,
        mark: Mark::Complete,
    })
}

/// The first solution that costs as much as the best one, where none costs less: by a race in the box cut to that cost.
fn raced_optimum<R: Threads + Sync, L: Gate + Sync>(
    rt: &R,
    alloc: Global,
    run: &Run<'_, L>,
    options: Options,
    best: Incumbent,
    free: Option<FreeSearch>,
) -> Result<Answer, NoMemory>
    requires set_up { IsSetUp run.now options }
    requires unlimited { IsUnlimited options }
    requires objective { run.now.model.now.goal ≢ Satisfy }
    requires best { IsIncumbent run.now.model.now run.now.program.now.start best }
    requires least { CostsAtLeast run.now.model.now run.now.program.now.start (Some best.cost) }
    requires free { IfSome free (IsFreeSearch run.now) }
    ensures { IfOk result (IsGiven run.now.model.now options) }
{
    law_inside_order();
    law_every_list();
    law_solutions_listed();
    law_in_declaration_order();
    let Incumbent { values, .. } = best;
    let mut cut = run.program.start.copy(alloc)?;
    cut_to_value(run.model.goal, values.as_slice(), &mut cut);
    let known = Some(values);
    let first = first_of_race(rt, alloc, run, &cut, known, free, Turns::usual(run))?;
    let solutions = list_of_one(alloc, first)?;
    Ok(Answer {
        solutions,
        mark: Mark::Complete,
    })
}

/// The first solution of least cost.
fn raced_least<R: Threads + Sync, L: Gate + Sync>(
    rt: &R,
    alloc: Global,
    run: &Run<'_, L>,
    options: Options,
) -> Result<Answer, NoMemory>
    requires set_up { IsSetUp run.now options }
    requires unlimited { IsUnlimited options }
    requires objective { run.now.model.now.goal ≢ Satisfy }
    ensures { IfOk result (IsGiven run.now.model.now options) }
{
    let Raced { best, free } = least_of_race(rt, alloc, run, Turns::usual(run))?;
    match best {
        None => Ok(no_answer(alloc, run, options)),
        Some(best) => {
            if best.is_first {
                return settled_least(alloc, run, options, best);
            }
            raced_optimum(rt, alloc, run, options, best, free)
        }
    }
}

/// The answer of a set up run, by races.
pub(crate) fn raced_answer<R: Threads + Sync, L: Gate + Sync>(
    rt: &R,
    alloc: Global,
    run: &Run<'_, L>,
    options: Options,
) -> Result<Answer, NoMemory>
    requires set_up { IsSetUp run.now options }
    requires unlimited { IsUnlimited options }
    requires one { run.now.model.now.goal ≡ Satisfy → options.all ≡ false }
    ensures { IfOk result (IsGiven run.now.model.now options) }
{
    match run.model.goal {
        Goal::Satisfy => raced_first(rt, alloc, run, options),
        Goal::Minimize(_) | Goal::Maximize(_) => raced_least(rt, alloc, run, options),
    }
}
