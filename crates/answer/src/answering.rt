//! The answer of a model.

ghost use Rattle.std.specs.Prelude.{◌≡◌, ◌≢◌, ◌≤◌, ◌++◌, ℤ, List, [], ◌∷◌, take, false, true, All, Some, IfOk};
ghost use Rattle.std.specs.Bool.{OnTrue, OnFalse};
ghost use Rattle.constraint_model.specs.declared.model.Goal.TheVariants.{Satisfy};
ghost use Rattle.constraint_model.specs.Relations.{cost_of, IsSolution};
ghost use Rattle.constraint_model.specs.WellFormed.{IsWellFormed};
ghost use Rattle.answer.specs.Plans.{IsCrewFor};
ghost use Rattle.answer.specs.Results.{listed};
ghost use Rattle.answer.specs.Finished.{IsFinished};
ghost use Rattle.answer.specs.Answers.{IsAnswer};
ghost use Rattle.answer.specs.Parts.{whole_tree};
ghost use Rattle.answer.specs.Given.{mark_for, IsSetUp, IsBestKnown, IsBestOfParts, IsGiven};
ghost use Rattle.answer.specs.Settled.{IsSettled};

use crate::all_job::all_ends;
use crate::beside::{first_beside, is_beside, least_beside};
use crate::collecting::{all_of, first_of, is_any_spent, is_open, list_of_one};
use crate::first_job::first_ends;
use crate::laws::law_best_is_first;
use crate::least_job::least_ends;
use crate::marks::{mark_of, second_mark};
use crate::objective::{best_of, cut_to_value};
use crate::options::Options;
use crate::parts::parts_of;
use crate::plan::Plan;
use crate::raced::{is_raced, raced_answer};
use crate::settled::is_settled;
use branching::{law_every_list, law_one_list};
use constraint_model::{FznModel, Goal};
use crew::Workers;
use decompose::compile;
use fzn_print::{Answer, Mark};
use gate::Gate;
use interval::law_inside_order;
use list_of::ListOf;
use memory::NoMemory;
use moved_set::Masks;
use search::{Run, law_records_solutions};
use solution_lists::{law_in_declaration_order, law_solutions_listed};
use std::alloc::Global;
use std::thread::Threads;
use subproblems::{law_cuts, law_paths};
use tree_parts::law_whole_of_parts;

/// The first solution.
fn first_answer<R: Threads + Sync, C: Gate + Sync, L: Gate + Sync>(
    rt: &R,
    alloc: Global,
    run: &Run<'_, L>,
    options: Options,
    crew: &mut Workers,
    gate: &C,
) -> Result<Answer, NoMemory>
    requires set_up { IsSetUp run.now options }
    requires crew { IsCrewFor options crew.old }
    requires satisfy { run.now.model.now.goal ≡ Satisfy }
    requires first { options.all ≡ false }
    ensures { IfOk result (IsGiven run.now.model.now options) }
{
    law_inside_order();
    law_one_list();
    law_every_list();
    law_paths();
    law_cuts();
    law_whole_of_parts();
    law_solutions_listed();
    law_in_declaration_order();
    law_records_solutions();
    let parts = parts_of(alloc, run, options, &run.program.start)?;
    let plan = Plan {
        run: &*run,
        options,
        parts: parts.as_slice(),
        start: &run.program.start,
    };
    let ends = first_ends(rt, alloc, crew, &plan, gate)?;
    let open_part = is_open(ends.as_slice());
    let solutions = list_of_one(alloc, first_of(ends))?;
    let mark = mark_of(open_part, &solutions, Mark::Plain);
    Ok(Answer { solutions, mark })
}

/// All solutions.
fn all_answer<R: Threads + Sync, C: Gate + Sync, L: Gate + Sync>(
    rt: &R,
    alloc: Global,
    run: &Run<'_, L>,
    options: Options,
    crew: &mut Workers,
    gate: &C,
) -> Result<Answer, NoMemory>
    requires set_up { IsSetUp run.now options }
    requires crew { IsCrewFor options crew.old }
    requires satisfy { run.now.model.now.goal ≡ Satisfy }
    requires all { options.all ≡ true }
    ensures { IfOk result (IsGiven run.now.model.now options) }
{
    law_inside_order();
    law_one_list();
    law_every_list();
    law_paths();
    law_cuts();
    law_whole_of_parts();
    law_solutions_listed();
    law_in_declaration_order();
    law_records_solutions();
    let parts = parts_of(alloc, run, options, &run.program.start)?;
    let plan = Plan {
        run: &*run,
        options,
        parts: parts.as_slice(),
        start: &run.program.start,
    };
    let ends = all_ends(rt, alloc, crew, &plan, gate)?;
    let is_spent = is_any_spent(ends.as_slice());
    let solutions = all_of(alloc, ends)?;
    let mark = mark_of(is_spent, &solutions, Mark::Complete);
    Ok(Answer { solutions, mark })
}

/// The first of a solution and another.
fn or_best(first: Option<ListOf<i64>>, best: ListOf<i64>) -> Option<ListOf<i64>>
    ensures { (found : List (List ℤ)) → listed first ≡ take 1 found → listed result ≡ take 1 (found ++ best ∷ []) }
{
    match first {
        Some(values) => Some(values),
        None => Some(best),
    }
}

/// The first solution that costs as much as the best one, where none costs less: it is searched for in the box cut to that cost.
fn optimum<R: Threads + Sync, C: Gate + Sync, L: Gate + Sync>(
    rt: &R,
    alloc: Global,
    run: &Run<'_, L>,
    options: Options,
    crew: &mut Workers,
    gate: &C,
    best: ListOf<i64>,
) -> Result<Answer, NoMemory>
    requires set_up { IsSetUp run.now options }
    requires crew { IsCrewFor options crew.old }
    requires objective { run.now.model.now.goal ≢ Satisfy }
    requires best { IsBestOfParts run.now.model.now options best }
    ensures { IfOk result (IsGiven run.now.model.now options) }
{
    law_inside_order();
    law_one_list();
    law_every_list();
    law_paths();
    law_cuts();
    law_whole_of_parts();
    law_solutions_listed();
    law_in_declaration_order();
    law_records_solutions();
    let mut cut = run.program.start.copy(alloc)?;
    cut_to_value(run.model.goal, best.as_slice(), &mut cut);
    let parts = parts_of(alloc, run, options, &cut)?;
    let plan = Plan {
        run: &*run,
        options,
        parts: parts.as_slice(),
        start: &cut,
    };
    let ends = first_ends(rt, alloc, crew, &plan, gate)?;
    let open_part = is_open(ends.as_slice());
    let solutions = list_of_one(alloc, or_best(first_of(ends), best))?;
    let mark = second_mark(open_part);
    Ok(Answer { solutions, mark })
}

/// The best solution, where it is known to be the first of those that cost as much.
fn settled_answer<L>(
    alloc: Global,
    run: &Run<'_, L>,
    options: Options,
    best: ListOf<i64>,
) -> Result<Answer, NoMemory>
    requires set_up { IsSetUp run.now options }
    requires objective { run.now.model.now.goal ≢ Satisfy }
    requires best { IsBestKnown run.now.model.now options whole_tree best }
    requires settled { IsSettled run.now.model.now options whole_tree }
    ensures { IfOk result (IsGiven run.now.model.now options) }
{
    law_inside_order();
    law_every_list();
    law_solutions_listed();
    law_in_declaration_order();
    law_best_is_first();
    let solutions = list_of_one(alloc, Some(best))?;
    Ok(Answer {
        solutions,
        mark: Mark::Complete,
    })
}

/// A solution of least cost.
fn least_answer<R: Threads + Sync, C: Gate + Sync, L: Gate + Sync>(
    rt: &R,
    alloc: Global,
    run: &Run<'_, L>,
    options: Options,
    crew: &mut Workers,
    gate: &C,
) -> Result<Answer, NoMemory>
    requires set_up { IsSetUp run.now options }
    requires crew { IsCrewFor options crew.old }
    requires objective { run.now.model.now.goal ≢ Satisfy }
    ensures { IfOk result (IsGiven run.now.model.now options) }
{
    law_inside_order();
    law_one_list();
    law_every_list();
    law_paths();
    law_cuts();
    law_whole_of_parts();
    law_solutions_listed();
    law_in_declaration_order();
    law_records_solutions();
    let parts = parts_of(alloc, run, options, &run.program.start)?;
    let slice = parts.as_slice();
    let plan = Plan {
        run: &*run,
        options,
        parts: slice,
        start: &run.program.start,
    };
    let ends = least_ends(rt, alloc, crew, &plan, gate)?;
    let is_spent = is_any_spent(ends.as_slice());
    let best = best_of(run.model.goal, ends);
    if is_spent {
        let solutions = list_of_one(alloc, best)?;
        let mark = mark_of(true, &solutions, Mark::Complete);
        return Ok(Answer { solutions, mark });
    }
    match best {
        None => Ok(Answer {
            solutions: ListOf::new(alloc),
            mark: Mark::Unsatisfiable,
        }),
        Some(values) => {
            if is_settled(run.model, options, slice) {
                return settled_answer(alloc, run, options, values);
            }
            optimum(rt, alloc, run, options, crew, gate, values)
        }
    }
}

/// The first solution, beside a free search if no limit is set.
fn one_answer<R: Threads + Sync, C: Gate + Sync, L: Gate + Sync>(
    rt: &R,
    alloc: Global,
    run: &Run<'_, L>,
    options: Options,
    crew: &mut Workers,
    gate: &C,
) -> Result<Answer, NoMemory>
    requires set_up { IsSetUp run.now options }
    requires crew { IsCrewFor options crew.old }
    requires satisfy { run.now.model.now.goal ≡ Satisfy }
    requires first { options.all ≡ false }
    ensures { IfOk result (IsGiven run.now.model.now options) }
{
    if is_beside(options) {
        return first_beside(rt, alloc, run, options, crew, gate);
    }
    first_answer(rt, alloc, run, options, crew, gate)
}

/// The first solution of least cost, beside a free search if no limit is set and the two tell it.
fn best_answer<R: Threads + Sync, C: Gate + Sync, L: Gate + Sync>(
    rt: &R,
    alloc: Global,
    run: &Run<'_, L>,
    options: Options,
    crew: &mut Workers,
    gate: &C,
) -> Result<Answer, NoMemory>
    requires set_up { IsSetUp run.now options }
    requires crew { IsCrewFor options crew.old }
    requires objective { run.now.model.now.goal ≢ Satisfy }
    ensures { IfOk result (IsGiven run.now.model.now options) }
{
    if is_beside(options) {
        if let Some(answer) = least_beside(rt, alloc, run, options, crew, gate)? {
            return Ok(answer);
        }
    }
    least_answer(rt, alloc, run, options, crew, gate)
}

/// The answer of a set up run.
fn answer_of<R: Threads + Sync, C: Gate + Sync, L: Gate + Sync>(
    rt: &R,
    alloc: Global,
    run: &Run<'_, L>,
    options: Options,
    crew: &mut Workers,
    gate: &C,
) -> Result<Answer, NoMemory>
    requires set_up { IsSetUp run.now options }
    requires crew { IsCrewFor options crew.old }
    ensures { IfOk result (IsGiven run.now.model.now options) }
{
    if is_raced(run, options) {
        return raced_answer(rt, alloc, run, options);
    }
    match run.model.goal {
        Goal::Satisfy => {
            if options.all {
                all_answer(rt, alloc, run, options, crew, gate)
            } else {
                one_answer(rt, alloc, run, options, crew, gate)
            }
        }
        Goal::Minimize(_) | Goal::Maximize(_) => best_answer(rt, alloc, run, options, crew, gate),
    }
}

/// What may hold the workers and the lanes up. The answer is lawful whatever they do, and without limits they don't change it.
#[derive(Drop)]
pub struct Gates<'a, C, L> {
    /// Is passed by each worker before it asks for a number.
    pub crew: &'a C,
    /// Is passed by each lane before it runs a propagator.
    pub lanes: &'a L,
}

/// The answer of a model: its first solution in the order of the search tree, all solutions, or the first of those of least
/// cost; where a limit stopped a part of the search, what is known. Errors: memory.
pub fn answer<R: Threads + Sync, C: Gate + Sync, L: Gate + Sync>(
    rt: &R,
    alloc: Global,
    model: &FznModel,
    options: &Options,
    gates: &Gates<'_, C, L>,
) -> Result<Answer, NoMemory>
    requires model { IsWellFormed model.now }
    requires some_workers { 1 ≤ options.now.workers }
    requires most_workers { options.now.workers ≤ 64 }
    requires some_lanes { 1 ≤ options.now.lanes }
    requires most_lanes { options.now.lanes ≤ 64 }
    requires depth { options.now.depth ≤ 16 }
    requires some_parts { 1 ≤ options.now.most_parts }
    requires few_parts { options.now.most_parts ≤ 65536 }
    ensures answer { IfOk result (IsAnswer model.now options.now) }
    ensures whole { options.now.node_limit ≡ 0 → options.now.round_limit ≡ 0 → IfOk result (IsFinished model.now options.now.all) }
    ensures solve { IfOk result (λ answer. All (IsSolution model.now) answer.solutions) }
{
    let program = compile(alloc, model)?;
    let masks = Masks::new(alloc, program.kernels.as_slice(), program.start.len())?;
    let run = Run {
        model: &*model,
        program: &program,
        masks: &masks,
        lanes: options.lanes,
        node_limit: options.node_limit,
        round_limit: options.round_limit,
        gate: &*gates.lanes,
    };
    let mut crew = Workers::new(alloc, options.workers, options.steal)?;
    let answer = answer_of(rt, alloc, &run, *options, &mut crew, gates.crew)?;
    Ok(answer)
}
