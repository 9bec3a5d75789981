//! What the searches of a portfolio share where the least cost is sought.

ghost use Rattle.std.specs.Prelude.{◌≡◌};
ghost use Rattle.best_bound.specs.Seats.{IsBestSeatOf, best_parts};
ghost use Rattle.solution_lists.specs.Solutions.{SolvesInside};
ghost use Rattle.race.specs.Leasts.{IsIncumbent};
ghost use Rattle.portfolio.specs.Sharings.{IsSharing, SaysWhichCost};

use crate::progress::Progress;
use best_bound::{Best, BestSeat, Costs};
use list_of::ListOf;
use race::Incumbent;
use search::{Run, solution_cost};

/// The run of all searches, the best cost that they share, and how far they have come.
#[derive(Drop)]
pub struct Sharing<'a, L, C: Costs> {
    /// The run.
    pub run: &'a Run<'a, L>,
    /// The best cost so far.
    pub best: &'a Best<C>,
    /// How far the searches have come.
    pub progress: &'a Progress,
}

/// A solution with what it costs.
pub(crate) fn incumbent_of<L, C: Costs>(
    sharing: &Sharing<'_, L, C>,
    values: ListOf<i64>,
) -> Incumbent
    requires sharing { IsSharing sharing.now }
    requires solves { SolvesInside sharing.now.run.now.model.now sharing.now.run.now.program.now.start values }
    ensures { IsIncumbent sharing.now.run.now.model.now sharing.now.run.now.program.now.start result }
{
    let cost = solution_cost(sharing.run, values.as_slice());
    Incumbent {
        values,
        cost,
        is_first: false,
    }
}

/// Posts what a solution costs.
pub(crate) fn post<L, C: Costs>(
    sharing: &Sharing<'_, L, C>,
    seat: &mut BestSeat,
    values: &ListOf<i64>,
)
    requires sharing { IsSharing sharing.now }
    requires costs { SaysWhichCost sharing.now.run.now.model.now C.is_cost }
    requires seat { IsBestSeatOf sharing.now.best.now seat.old }
    requires solves { SolvesInside sharing.now.run.now.model.now sharing.now.run.now.program.now.start values.now }
    ensures seat { IsBestSeatOf sharing.now.best.now seat.new }
    ensures parts { best_parts seat.new ≡ best_parts seat.old }
{
    let cost = solution_cost(sharing.run, values.as_slice());
    if cost < i64::MAX {
        sharing.best.post(seat, cost);
    }
}
