//! The search of a box for its least cost, which other searches may end.

ghost use Rattle.std.specs.Prelude.{◌≡◌, true, IfOk};
ghost use Rattle.std.specs.Bool.{OnTrue};
ghost use Rattle.interval.specs.Boxes.{IsInside};
ghost use Rattle.best_bound.specs.Seats.{IsBestSeatOf, best_parts};
ghost use Rattle.search.specs.Turns.{CostsAtLeast, least_asked, lowest_of};
ghost use Rattle.portfolio.specs.Sharings.{IsSharing, IsBoxSearch, SaysWhichCost};
ghost use Rattle.portfolio.specs.Told.{TellsCosts};

use crate::sharing::{Sharing, incumbent_of, post};
use crate::told::{Bound, CostTold};
use best_bound::{BestSeat, Costs};
use gate::Gate;
use interval::{BoxOf, law_inside_order};
use memory::NoMemory;
use search::{LeastTurn, LeastTurns};
use std::alloc::Global;
use std::thread::Threads;

/// How many units of work a box is searched before it is asked whether that need go on.
const TURN: u64 = 20_000;

/// What the search of a box tells, once no solution there costs less than the best, or before.
fn told_by<L, C: Costs>(
    sharing: &Sharing<'_, L, C>,
    sub: &BoxOf,
    turns: LeastTurns,
    is_done: bool,
) -> CostTold
    requires sharing { IsSharing sharing.now }
    requires search { IsBoxSearch sharing.now sub.now turns }
    requires done { OnTrue is_done (CostsAtLeast sharing.now.run.now.model.now sub.now (lowest_of turns)) }
    ensures { TellsCosts sharing.now.run.now.model.now sharing.now.run.now.program.now.start sub.now result }
{
    let bound = if is_done {
        Some(Bound {
            at_least: turns.lowest(),
        })
    } else {
        None
    };
    let best = match turns.into_last() {
        Some(values) => Some(incumbent_of(sharing, values)),
        None => None,
    };
    CostTold { bound, best }
}

/// Posts the cost of the solution that was found last.
fn post_last<L, C: Costs>(
    sharing: &Sharing<'_, L, C>,
    sub: &BoxOf,
    seat: &mut BestSeat,
    turns: &LeastTurns,
)
    requires sharing { IsSharing sharing.now }
    requires costs { SaysWhichCost sharing.now.run.now.model.now C.is_cost }
    requires seat { IsBestSeatOf sharing.now.best.now seat.old }
    requires search { IsBoxSearch sharing.now sub.now turns.now }
    ensures seat { IsBestSeatOf sharing.now.best.now seat.new }
    ensures parts { best_parts seat.new ≡ best_parts seat.old }
{
    if let Some(values) = turns.last() {
        post(sharing, seat, values);
    }
}

/// One turn. Tells whether no solution in the box costs less than the best.
fn turn<R: Threads + Sync, L: Gate + Sync, C: Costs>(
    rt: &R,
    alloc: Global,
    sharing: &Sharing<'_, L, C>,
    sub: &BoxOf,
    seat: &mut BestSeat,
    turns: &mut LeastTurns,
) -> Result<bool, NoMemory>
    requires sharing { IsSharing sharing.now }
    requires costs { SaysWhichCost sharing.now.run.now.model.now C.is_cost }
    requires inside { IsInside sub.now sharing.now.run.now.program.now.start }
    requires seat { IsBestSeatOf sharing.now.best.now seat.old }
    requires search { IsBoxSearch sharing.now sub.now turns.old }
    ensures seat { IsBestSeatOf sharing.now.best.now seat.new }
    ensures parts { best_parts seat.new ≡ best_parts seat.old }
    ensures search { IfOk result (λ _. IsBoxSearch sharing.now sub.now turns.new) }
    ensures done { IfOk result (λ done. OnTrue done (CostsAtLeast sharing.now.run.now.model.now sub.now (lowest_of turns.new))) }
{
    law_inside_order();
    let best = sharing.best.seen(seat);
    match turns.go_on(rt, alloc, sharing.run, best, Some(TURN))? {
        LeastTurn::Found => {
            post_last(sharing, sub, seat, turns);
            Ok(false)
        }
        LeastTurn::Done => Ok(true),
        LeastTurn::Paused => Ok(false),
    }
}

/// Turn by turn, until nothing more need be searched.
fn go_on<R: Threads + Sync, L: Gate + Sync, C: Costs>(
    rt: &R,
    alloc: Global,
    sharing: &Sharing<'_, L, C>,
    sub: &BoxOf,
    seat: &mut BestSeat,
    before: LeastTurns,
) -> Result<CostTold, NoMemory>
    requires sharing { IsSharing sharing.now }
    requires costs { SaysWhichCost sharing.now.run.now.model.now C.is_cost }
    requires inside { IsInside sub.now sharing.now.run.now.program.now.start }
    requires seat { IsBestSeatOf sharing.now.best.now seat.old }
    requires search { IsBoxSearch sharing.now sub.now before }
    ensures seat { IsBestSeatOf sharing.now.best.now seat.new }
    ensures parts { best_parts seat.new ≡ best_parts seat.old }
    ensures told { IfOk result (TellsCosts sharing.now.run.now.model.now sharing.now.run.now.program.now.start sub.now) }
{
    let mut turns = before;
    for _ in 0..u64::MAX {
        if sharing.progress.is_ended() {
            return Ok(told_by(sharing, sub, turns, false));
        }
        if turn(rt, alloc, sharing, sub, seat, &mut turns)? {
            return Ok(told_by(sharing, sub, turns, true));
        }
    }
    Ok(told_by(sharing, sub, turns, false))
}

/// Searches a box for its least cost, in the order of its search tree, below the best cost, until nothing more need be searched.
/// Posts what each solution costs that it finds. Errors: memory.
pub fn costs_of_box<R: Threads + Sync, L: Gate + Sync, C: Costs>(
    rt: &R,
    alloc: Global,
    sharing: &Sharing<'_, L, C>,
    sub: &BoxOf,
    seat: &mut BestSeat,
) -> Result<CostTold, NoMemory>
    requires sharing { IsSharing sharing.now }
    requires costs { SaysWhichCost sharing.now.run.now.model.now C.is_cost }
    requires inside { IsInside sub.now sharing.now.run.now.program.now.start }
    requires seat { IsBestSeatOf sharing.now.best.now seat.old }
    ensures seat { IsBestSeatOf sharing.now.best.now seat.new }
    ensures parts { best_parts seat.new ≡ best_parts seat.old }
    ensures told { IfOk result (TellsCosts sharing.now.run.now.model.now sharing.now.run.now.program.now.start sub.now) }
{
    if sharing.progress.is_ended() {
        return Ok(CostTold::nothing());
    }
    let turns = LeastTurns::new(alloc, sharing.run, sub)?;
    go_on(rt, alloc, sharing, sub, seat, turns)
}
