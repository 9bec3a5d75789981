//! The free search for the least cost, which other searches may end.

ghost use Rattle.std.specs.Prelude.{◌≡◌, IfOk};
ghost use Rattle.best_bound.specs.Seats.{IsBestSeatOf, best_parts};
ghost use Rattle.free_search.specs.Free.{IsFreeSearch};
ghost use Rattle.portfolio.specs.Sharings.{IsSharing, SaysWhichCost};
ghost use Rattle.portfolio.specs.Told.{TellsCosts};

use crate::progress::FreeTurns;
use crate::sharing::{Sharing, incumbent_of, post};
use crate::told::{Bound, CostTold};
use best_bound::{BestSeat, Costs};
use free_search::{FreeEnd, FreeSearch};
use gate::Gate;
use interval::law_inside_order;
use memory::NoMemory;
use race::{Task, look_below};
use std::alloc::Global;
use std::thread::Threads;

/// One turn: looks for a solution that costs less than the best, and posts what it costs. Tells whether there is none.
fn turn<R: Threads + Sync, L: Gate + Sync, C: Costs>(
    rt: &R,
    alloc: Global,
    sharing: &Sharing<'_, L, C>,
    free: &mut FreeSearch,
    seat: &mut BestSeat,
    budget: u64,
    told: &mut CostTold,
) -> Result<bool, NoMemory>
    requires sharing { IsSharing sharing.now }
    requires costs { SaysWhichCost sharing.now.run.now.model.now C.is_cost }
    requires free { IsFreeSearch sharing.now.run.now free.old }
    requires seat { IsBestSeatOf sharing.now.best.now seat.old }
    requires told { TellsCosts sharing.now.run.now.model.now sharing.now.run.now.program.now.start sharing.now.run.now.program.now.start told.old }
    ensures free { IfOk result (λ _. IsFreeSearch sharing.now.run.now free.new) }
    ensures seat { IsBestSeatOf sharing.now.best.now seat.new }
    ensures parts { best_parts seat.new ≡ best_parts seat.old }
    ensures told { TellsCosts sharing.now.run.now.model.now sharing.now.run.now.program.now.start sharing.now.run.now.program.now.start told.new }
{
    law_inside_order();
    let task = Task {
        run: sharing.run,
        sub: &sharing.run.program.start,
        is_static: false,
    };
    let best = sharing.best.seen(seat);
    match look_below(rt, alloc, &task, free, best, budget)? {
        FreeEnd::Found(values) => {
            post(sharing, seat, &values);
            told.best = Some(incumbent_of(sharing, values));
            Ok(false)
        }
        FreeEnd::Refuted => {
            told.bound = Some(Bound { at_least: best });
            Ok(true)
        }
        FreeEnd::GaveUp => Ok(false),
    }
}

/// Turn by turn, until no solution costs less than the best, or nothing more need be searched.
fn go_on<R: Threads + Sync, C: Costs, L: Gate + Sync, G: Gate>(
    rt: &R,
    alloc: Global,
    sharing: &Sharing<'_, L, C>,
    seat: &mut BestSeat,
    turns: &mut FreeTurns<'_, G>,
    told: &mut CostTold,
) -> Result<(), NoMemory>
    requires sharing { IsSharing sharing.now }
    requires costs { SaysWhichCost sharing.now.run.now.model.now C.is_cost }
    requires seat { IsBestSeatOf sharing.now.best.now seat.old }
    requires told { TellsCosts sharing.now.run.now.model.now sharing.now.run.now.program.now.start sharing.now.run.now.program.now.start told.old }
    ensures seat { IsBestSeatOf sharing.now.best.now seat.new }
    ensures parts { best_parts seat.new ≡ best_parts seat.old }
    ensures told { TellsCosts sharing.now.run.now.model.now sharing.now.run.now.program.now.start sharing.now.run.now.program.now.start told.new }
{
    let Some(mut free) = FreeSearch::new(rt, alloc, sharing.run)? else {
        told.bound = Some(Bound { at_least: None });
        return Ok(());
    };
    for _ in 0..u64::MAX {
        let Some(budget) = turns.next(free.spent()) else {
            return Ok(());
        };
        if turn(rt, alloc, sharing, &mut free, seat, budget, told)? {
            return Ok(());
        }
    }
    Ok(())
}

/// The least cost of the whole by a search in a free order: the best solution that it found, and what all cost at least, if that
/// came out. It does without the memory that it is refused.
pub fn costs_by_free<R: Threads + Sync, C: Costs, L: Gate + Sync, G: Gate>(
    rt: &R,
    alloc: Global,
    sharing: &Sharing<'_, L, C>,
    seat: &mut BestSeat,
    turns: &mut FreeTurns<'_, G>,
) -> CostTold
    requires sharing { IsSharing sharing.now }
    requires costs { SaysWhichCost sharing.now.run.now.model.now C.is_cost }
    requires seat { IsBestSeatOf sharing.now.best.now seat.old }
    ensures seat { IsBestSeatOf sharing.now.best.now seat.new }
    ensures parts { best_parts seat.new ≡ best_parts seat.old }
    ensures told { TellsCosts sharing.now.run.now.model.now sharing.now.run.now.program.now.start sharing.now.run.now.program.now.start result }
{
    let mut told = CostTold::nothing();
    match go_on(rt, alloc, sharing, seat, turns, &mut told) {
        Ok(()) => told,
        Err(NoMemory) => told,
    }
}
