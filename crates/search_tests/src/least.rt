//! A model of one variable, searched for its least value.

ghost use Rattle.std.specs.Prelude.{◌≢◌, ◌↔◌, ℤ};
ghost use Rattle.std.specs.Bool.{OnTrue};
ghost use Rattle.constraint_model.specs.declared.model.Goal.TheVariants.{Satisfy};
ghost use Rattle.best_bound.specs.Seats.{IsBestSeatOf};
ghost use Rattle.search.specs.LeastEnds.{IsCost};
ghost use Rattle.search_tests.specs.Models.{IsCompiled};

use crate::models::{Compiled, compile_text};
use best_bound::{Best, BestSeat, Costs};
use constraint_model::Goal;
use gate::NoGate;
use interval::law_inside_order;
use list_of::ListOf;
use memory::NoMemory;
use search::{LeastEnd, Run, Why, run_least};
use std::alloc::Global;
use std::marker::{Brand, PhantomData};
use std::process::Abort;
use std::test::Fail;
use std::thread::Threads;

/// The costs of a model's solutions, for contracts alone.
trait OfModel {
    ghost use Rattle.std.specs.Prelude.{ℤ};

    ghost is_cost: { ℤ → Type 0 };
}

impl OfModel for Brand {
    ghost is_cost = { λ _. Unit {0} };
}

/// The same costs, as what may be posted.
struct CostsOf<M> {
    model: PhantomData<M>,
}

impl<M: OfModel> Costs for CostsOf<M> {
    ghost is_cost = { M.is_cost };
}

/// Searches the model for its least cost.
fn least<R: Threads + Sync, M: OfModel>(
    rt: &R,
    alloc: Global,
    searched: &Compiled,
    node_limit: u64,
    best: &Best<CostsOf<M>>,
    seat: &mut BestSeat,
) -> Result<LeastEnd, NoMemory>
    requires compiled { IsCompiled searched.now.model searched.now.program searched.now.masks }
    requires objective { searched.now.model.goal ≢ Satisfy }
    requires seat { IsBestSeatOf best.now seat.old }
    requires costs { (cost : ℤ) → M.is_cost cost ↔ IsCost searched.now.model cost }
    ensures { IsBestSeatOf best.now seat.new }
{
    law_inside_order();
    let run = Run {
        model: &searched.model,
        program: &searched.program,
        masks: &searched.masks,
        lanes: 1,
        node_limit,
        round_limit: 0,
        gate: &NoGate,
    };
    run_least(rt, alloc, &run, &searched.program.start, best, seat)
}

/// How a search is expected to end.
#[derive(Clone, Copy)]
enum Expected {
    /// With this value, or with none.
    Done(Option<i64>),
    /// By the limit after so many nodes, with this value found so far, or with none.
    Spent(u64, Option<i64>),
}

/// Whether this is the value of a solution, if there is one.
fn is_value(values: &Option<ListOf<i64>>, expected: Option<i64>) -> bool {
    match (values, expected) {
        (Some(values), Some(number)) => values.as_slice() == [number].as_slice(),
        (None, None) => true,
        _ => false,
    }
}

/// Whether a search ended so.
fn is_end(end: &LeastEnd, expected: Expected) -> bool {
    match (end, expected) {
        (LeastEnd::Done(values), Expected::Done(number)) => is_value(values, number),
        (
            LeastEnd::Spent {
                nodes,
                why: Why::Nodes,
                so_far,
            },
            Expected::Spent(limit, number),
        ) => *nodes == limit && is_value(so_far, number),
        _ => false,
    }
}

/// The model is searched again and again by one seat, with a limit on nodes; each end is as expected, and so is the
/// least cost that is seen then.
fn assert_ends<R: Abort + Threads + Sync, M: OfModel>(
    rt: &R,
    alloc: Global,
    searched: &Compiled,
    table: &[(u64, Expected, Option<i64>)],
    _model: PhantomData<M>,
) -> Result<(), NoMemory>
    requires compiled { IsCompiled searched.now.model searched.now.program searched.now.masks }
    requires objective { searched.now.model.goal ≢ Satisfy }
    requires costs { (cost : ℤ) → M.is_cost cost ↔ IsCost searched.now.model cost }
{
    let (best, mut seat) = Best::<CostsOf<M>>::new(alloc)?;
    for (node_limit, expected, cost) in table {
        let end = least(rt, alloc, searched, *node_limit, &best, &mut seat)?;
        assert!(rt; is_end(&end, *expected), "with at most {node_limit} nodes");
        assert_eq!(rt; best.seen(&mut seat), *cost);
    }
    Ok(())
}

/// Whether the model has an objective.
fn has_objective(goal: Goal) -> bool
    ensures { OnTrue result (goal ≢ Satisfy) }
{
    match goal {
        Goal::Satisfy => false,
        Goal::Minimize(_) | Goal::Maximize(_) => true,
    }
}

#[test]
fn the_least_value_is_found_and_posted(rt: HostRuntime) -> Result<(), Fail> {
    let searched = compile_text(rt.alloc(), "var 1..3: x; solve minimize x;")?;
    assert!(rt; has_objective(searched.model.goal));
    let table = [
        (1, Expected::Spent(1, None), None),
        (0, Expected::Done(Some(1)), Some(1)),
        (0, Expected::Done(None), Some(1)),
    ];
    assert_ends(&rt, rt.alloc(), &searched, &table, PhantomData::<Brand>)?;
    Ok(())
}

#[test]
fn a_search_finds_less_than_its_seat_has_seen(rt: HostRuntime) -> Result<(), Fail> {
    let searched = compile_text(
        rt.alloc(),
        "var 1..3: x; solve :: int_search([x], input_order, indomain_max, complete) minimize x;",
    )?;
    assert!(rt; has_objective(searched.model.goal));
    // two nodes find the greatest value that is less than what was seen, and a third one isn't needed for the last of all
    let table = [
        (2, Expected::Spent(2, Some(3)), Some(3)),
        (2, Expected::Spent(2, Some(2)), Some(2)),
        (2, Expected::Done(Some(1)), Some(1)),
        (2, Expected::Done(None), Some(1)),
    ];
    assert_ends(&rt, rt.alloc(), &searched, &table, PhantomData::<Brand>)?;
    Ok(())
}
