//! Races by short turns and long ones, and the plain search alone: they give the same.

ghost use Rattle.std.specs.Prelude.{◌≡◌, ◌≢◌};
ghost use Rattle.std.specs.Bool.{OnTrue};
ghost use Rattle.constraint_model.specs.declared.model.Goal.TheVariants.{Satisfy};
ghost use Rattle.search.specs.Premises.{IsRun};

use crate::models::compile_text;
use crate::texts::{
    CONSTANT, CROSSED, FREE, KNAPSACK, KNAPSACK_BY_SIZE, KNAPSACK_FROM_ABOVE, NO_LEAST, PIGEONS,
    PIGEONS_BY_SIZE, QUEENS, QUEENS_BY_SIZE, QUEENS_FROM_ABOVE, QUEENS_SPLIT, SHOP, SHOP_BY_START,
};
use best_bound::{Found, Numbers};
use constraint_model::{Goal, Term};
use gate::NoGate;
use interval::law_inside_order;
use list_of::ListOf;
use memory::NoMemory;
use race::{Raced, Turns, first_of_race, least_of_race};
use search::{FirstEnd, LeastTurn, LeastTurns, Run, run_first};
use std::alloc::Global;
use std::process::Abort;
use std::test::Fail;
use std::thread::Threads;

/// Turns that end after each node, after some, and seldom.
const UNITS: [u64; 3] = [1, 20, 1000];

/// Any number passes.
struct AnyNumber;

impl Numbers for AnyNumber {
    ghost use Rattle.std.specs.Prelude.{⊤};

    ghost has_solution = { λ _. ⊤ };
}

/// Turns of so many units.
fn turns_of(units: u64) -> Turns {
    Turns {
        first: units,
        least: units,
    }
}

/// The first solution by the plain search alone.
fn plain_first<R: Threads + Sync>(
    rt: &R,
    alloc: Global,
    run: &Run<'_, NoGate>,
) -> Result<Option<ListOf<i64>>, NoMemory>
    requires { IsRun run.now }
{
    law_inside_order();
    let (found, mut seat) = Found::<AnyNumber>::new(alloc)?;
    match run_first(rt, alloc, run, &run.program.start, 0, &found, &mut seat)? {
        FirstEnd::Done(values) => Ok(values),
        _ => Err(NoMemory),
    }
}

/// A solution of least cost by the plain search alone.
fn plain_least<R: Threads + Sync>(
    rt: &R,
    alloc: Global,
    run: &Run<'_, NoGate>,
) -> Result<Option<ListOf<i64>>, NoMemory>
    requires run { IsRun run.now }
    requires node_limit { run.now.node_limit ≡ 0 }
    requires round_limit { run.now.round_limit ≡ 0 }
    requires objective { run.now.model.now.goal ≢ Satisfy }
{
    law_inside_order();
    let mut turns = LeastTurns::new(alloc, run, &run.program.start)?;
    'turns: loop {
        match turns.go_on(rt, alloc, run, None, None)? {
            LeastTurn::Done => return Ok(turns.into_last()),
            LeastTurn::Found | LeastTurn::Paused => {}
        }
    }
}

/// The first solution by a race.
fn raced_first<R: Threads + Sync>(
    rt: &R,
    alloc: Global,
    run: &Run<'_, NoGate>,
    turns: Turns,
) -> Result<Option<ListOf<i64>>, NoMemory>
    requires run { IsRun run.now }
    requires node_limit { run.now.node_limit ≡ 0 }
    requires round_limit { run.now.round_limit ≡ 0 }
{
    law_inside_order();
    first_of_race(rt, alloc, run, &run.program.start, None, None, turns)
}

/// Whether both are the same solution, or none.
fn are_same(one: &Option<ListOf<i64>>, other: &Option<ListOf<i64>>) -> bool {
    match (one, other) {
        (Some(one), Some(other)) => one.as_slice() == other.as_slice(),
        (None, None) => true,
        _ => false,
    }
}

/// The number of a variable.
fn number_at(values: &ListOf<i64>, place: u32) -> Option<i64> {
    values.as_slice().get(place as usize).copied()
}

/// Whether both have the same objective.
fn cost_the_same(goal: Goal, one: &ListOf<i64>, other: &ListOf<i64>) -> bool {
    match goal {
        Goal::Minimize(Term::Var(var)) | Goal::Maximize(Term::Var(var)) => {
            number_at(one, var) == number_at(other, var)
        }
        _ => true,
    }
}

/// Whether the best one of a race costs as much as that of the plain search, and is the same where it is known to be the first.
fn is_as_good(goal: Goal, raced: &Raced, plain: &Option<ListOf<i64>>) -> bool {
    match (&raced.best, plain) {
        (Some(best), Some(values)) => {
            let is_same = best.values.as_slice() == values.as_slice();
            cost_the_same(goal, &best.values, values) && (is_same || !best.is_first)
        }
        (None, None) => true,
        _ => false,
    }
}

/// Whether the model has an objective.
fn has_objective(goal: Goal) -> bool
    ensures { OnTrue result (goal ≢ Satisfy) }
{
    match goal {
        Goal::Satisfy => false,
        Goal::Minimize(_) | Goal::Maximize(_) => true,
    }
}

/// By any turns the race has the first solution of the plain search.
fn assert_same_first<R: Abort + Threads + Sync>(
    rt: &R,
    alloc: Global,
    run: &Run<'_, NoGate>,
    text: &str,
) -> Result<(), NoMemory>
    requires run { IsRun run.now }
    requires node_limit { run.now.node_limit ≡ 0 }
    requires round_limit { run.now.round_limit ≡ 0 }
{
    let plain = plain_first(rt, alloc, run)?;
    for units in UNITS {
        let raced = raced_first(rt, alloc, run, turns_of(units))?;
        assert!(rt; are_same(&raced, &plain), "by {units} units of {text}");
    }
    Ok(())
}

/// By any turns the race has a solution that costs as little as that of the plain search.
fn assert_same_least<R: Abort + Threads + Sync>(
    rt: &R,
    alloc: Global,
    run: &Run<'_, NoGate>,
    text: &str,
) -> Result<(), NoMemory>
    requires run { IsRun run.now }
    requires node_limit { run.now.node_limit ≡ 0 }
    requires round_limit { run.now.round_limit ≡ 0 }
    requires objective { run.now.model.now.goal ≢ Satisfy }
{
    let plain = plain_least(rt, alloc, run)?;
    for units in UNITS {
        let raced = least_of_race(rt, alloc, run, turns_of(units))?;
        assert!(rt;
            is_as_good(run.model.goal, &raced, &plain),
            "by {units} units of {text}"
        );
    }
    Ok(())
}

/// The same of a text.
fn assert_first<R: Abort + Threads + Sync>(
    rt: &R,
    alloc: Global,
    text: &str,
) -> Result<(), NoMemory> {
    let searched = compile_text(alloc, text)?;
    let run = Run {
        model: &searched.model,
        program: &searched.program,
        masks: &searched.masks,
        lanes: 1,
        node_limit: 0,
        round_limit: 0,
        gate: &NoGate,
    };
    assert_same_first(rt, alloc, &run, text)
}

/// The same of a text with an objective.
fn assert_least<R: Abort + Threads + Sync>(
    rt: &R,
    alloc: Global,
    text: &str,
) -> Result<(), NoMemory> {
    let searched = compile_text(alloc, text)?;
    assert!(rt; has_objective(searched.model.goal));
    let run = Run {
        model: &searched.model,
        program: &searched.program,
        masks: &searched.masks,
        lanes: 1,
        node_limit: 0,
        round_limit: 0,
        gate: &NoGate,
    };
    assert_same_least(rt, alloc, &run, text)
}

#[test]
fn the_first_solution_is_that_of_the_plain_search(rt: HostRuntime) -> Result<(), Fail> {
    for text in [
        FREE,
        CROSSED,
        PIGEONS,
        PIGEONS_BY_SIZE,
        QUEENS,
        QUEENS_FROM_ABOVE,
        QUEENS_SPLIT,
        QUEENS_BY_SIZE,
    ] {
        assert_first(&rt, rt.alloc(), text)?;
    }
    Ok(())
}

#[test]
fn the_least_cost_is_that_of_the_plain_search(rt: HostRuntime) -> Result<(), Fail> {
    for text in [
        CONSTANT,
        NO_LEAST,
        KNAPSACK,
        KNAPSACK_FROM_ABOVE,
        KNAPSACK_BY_SIZE,
        SHOP,
        SHOP_BY_START,
    ] {
        assert_least(&rt, rt.alloc(), text)?;
    }
    Ok(())
}
