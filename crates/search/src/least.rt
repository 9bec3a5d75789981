//! The run for the least cost: branch and bound, with the best cost shared.

ghost use Rattle.std.specs.Prelude.{◌≡◌, ◌≢◌, ◌≤◌, ◌++◌, ◌↔◌, ℤ, List, [], ◌∷◌, length, Option, All, IfOk, OnOk, OnErr};
ghost use Rattle.interval.specs.Limits.{IsNumber};
ghost use Rattle.interval.specs.Boxes.{Bounds, IsInside};
ghost use Rattle.trailed_box.specs.Trailed.{IsOver};
ghost use Rattle.moved_fixpoint.specs.Made.{IsMadeBy};
ghost use Rattle.constraint_model.specs.declared.model.Goal.TheVariants.{Satisfy};
ghost use Rattle.constraint_model.specs.Relations.{cost_of};
ghost use Rattle.best_bound.specs.Lists.{Among, IsLeastCost};
ghost use Rattle.best_bound.specs.Seats.{IsBestSeatOf, best_parts, costs_seen, costs_posted};
ghost use Rattle.search.specs.Costs.{IsObjectiveIn};
ghost use Rattle.search.specs.Premises.{IsRun};
ghost use Rattle.search.specs.Closings.{IsClosing};
ghost use Rattle.search.specs.Machine.{Search};
ghost use Rattle.search.specs.Stacks.{boxes_of, below_of, count_of, IsReady, CanRestart};
ghost use Rattle.search.specs.Keeping.{HasKept, IsKeptFor};
ghost use Rattle.search.specs.LeastEnds.{least_of, least_in, least_alone, IsCost, PostsCosts, SeesCosts, EndsLeast, IsLeastEnd, IsBrokenOff};
ghost use Rattle.search.specs.LeastEnds.{CostsLess, CostsBelow, CostAtLeast, OnDone};

use crate::closing::{Closing, counted, is_full};
use crate::costs::cost;
use crate::ends::{LeastEnd, Why};
use crate::kept::Kept;
use crate::laws::{
    law_can_search, law_finds_least, law_more_posted, law_records_below, law_records_solutions,
};
use crate::node::Visit;
use crate::run::{Over, Run, Start, alone};
use crate::searcher::Searcher;
use best_bound::{Best, BestSeat, Costs};
use branching::law_branches;
use constraint_model::{FznModel, Goal};
use gate::Gate;
use interval::{BoxOf, law_inside_order};
use list_of::ListOf;
use memory::NoMemory;
use std::alloc::{AllocError, Global};
use std::thread::Threads;

/// Records what a node found, a solution or nothing, and posts its cost. Where memory is refused nothing is posted.
#[tactic(auto, unfolding(interval::specs::Limits::largest_number))]
fn record_fresh<C: Costs>(
    goal: Goal,
    mut fresh: Vec<ListOf<i64>>,
    found: &mut ListOf<ListOf<i64>>,
    best: &Best<C>,
    seat: &mut BestSeat,
) -> Result<(), AllocError>
    requires seat { IsBestSeatOf best.now seat.old }
    requires one { length fresh.items ≤ 1 }
    requires objective { All (λ a. IsObjectiveIn (length a) goal) fresh.items }
    requires costs { All (λ a. (cost : ℤ) → cost_of goal a ≡ Some cost → IsNumber cost × C.is_cost cost) fresh.items }
    ensures seat { IsBestSeatOf best.now seat.new }
    ensures parts { best_parts seat.new ≡ best_parts seat.old }
    ensures kept { (cost : ℤ) → Among (costs_seen seat.old) cost → Among (costs_seen seat.new) cost }
    ensures recorded { OnOk result (found.new ≡ found.old ++ fresh.items) }
    ensures posted { OnOk result (PostsCosts goal fresh.items (costs_posted seat.old) (costs_posted seat.new)) }
    ensures seen { OnOk result (SeesCosts goal fresh.items (costs_seen seat.old) (costs_seen seat.new)) }
    ensures err { OnErr result (seat.new ≡ seat.old) }
{
    match fresh.pop() {
        None => Ok(()),
        Some(values) => {
            let cost = cost(goal, values.as_slice());
            found.push(values)?;
            best.post(seat, cost);
            Ok(())
        }
    }
}

/// Searches a box for the least cost.
fn search_least<R: Threads + Sync, L: Gate + Sync, C: Costs>(
    rt: &R,
    alloc: Global,
    run: &Run<'_, L>,
    searcher: &mut Searcher,
    best: &Best<C>,
    seat: &mut BestSeat,
) -> Result<Closing, NoMemory>
    requires run { IsRun run.now }
    requires objective { run.now.model.now.goal ≢ Satisfy }
    requires inside { IsInside searcher.old.boxes.current run.now.program.now.start }
    requires boxes { boxes_of searcher.old ≡ searcher.old.boxes.current ∷ [] }
    requires ready { IsReady run.now searcher.old }
    requires seat { IsBestSeatOf best.now seat.old }
    requires costs { (cost : ℤ) → C.is_cost cost ↔ IsCost run.now.model.now cost }
    ensures again { IfOk result (λ _. CanRestart run.now.program.now.kernels run.now.lanes (count_of searcher.old) searcher.new) }
    ensures bottom { IfOk result (λ _. below_of searcher.new ≡ below_of searcher.old) }
    ensures seat { IsBestSeatOf best.now seat.new }
    ensures parts { best_parts seat.new ≡ best_parts seat.old }
    ensures kept { (cost : ℤ) → Among (costs_seen seat.old) cost → Among (costs_seen seat.new) cost }
    ensures closing { IfOk result (λ closing. IsClosing (least_in run.now (costs_seen seat.new) searcher.old.boxes.current) closing) }
    ensures alone { best_parts seat.old ≡ 1024 → (known : Option ℤ) → IsLeastCost (costs_posted seat.old) known →
        IfOk result (IsClosing (least_alone run.now known searcher.old.boxes.current)) }
    ensures posted { IfOk result (λ closing. PostsCosts run.now.model.now.goal closing.found (costs_posted seat.old) (costs_posted seat.new)) }
    ensures least { IfOk result (λ closing. closing.stopped ≡ None → CostAtLeast run.now.model.now searcher.old.boxes.current (costs_seen seat.new)) }
    ensures below { IfOk result (λ closing. All (CostsLess run.now.model.now.goal (costs_seen seat.old)) closing.found) }
    ensures err { OnErr result (
        IsBrokenOff (least_in run.now (costs_seen seat.new) searcher.old.boxes.current) (costs_posted seat.old) (costs_posted seat.new)) }
{
    law_branches();
    law_inside_order();
    law_more_posted();
    law_records_solutions();
    law_finds_least();
    law_records_below();
    // its contract says that the bounds are in range
    let _length = searcher.boxes.len();
    let mut found = ListOf::new(alloc);
    let mut nodes = 0u64;
    'boxes: while searcher.has_next() {
        if is_full(run.node_limit, nodes) {
            return Ok(Closing {
                found,
                nodes,
                stopped: Some(Why::Nodes),
            });
        }
        nodes = counted(nodes);
        let lowest = best.seen(seat);
        let mut fresh = ListOf::new(alloc);
        match searcher.node(rt, alloc, run, lowest, &mut fresh)? {
            Visit::Done => record_fresh(run.model.goal, fresh.into_vec(), &mut found, best, seat)?,
            Visit::GivenUp => {
                return Ok(Closing {
                    found,
                    nodes,
                    stopped: Some(Why::Rounds),
                });
            }
        }
    }
    Ok(Closing {
        found,
        nodes,
        stopped: None,
    })
}

/// The end of a run, by how its search closed.
fn least_end(closing: Closing) -> LeastEnd
    ensures ends { (s : Search) → IsClosing s closing → EndsLeast s closing.found result }
    ensures least { (model : FznModel) (sub : Bounds) (seen : List ℤ) → (closing.stopped ≡ None → CostAtLeast model sub seen) →
        OnDone result (CostAtLeast model sub seen) }
    ensures below { (goal : Goal) (costs : List ℤ) → All (CostsLess goal costs) closing.found → CostsBelow goal costs result }
{
    let Closing {
        found,
        nodes,
        stopped,
    } = closing;
    let mut solutions = found.into_vec();
    let last = solutions.pop();
    match stopped {
        Some(why) => LeastEnd::Spent {
            nodes,
            why,
            so_far: last,
        },
        None => LeastEnd::Done(last),
    }
}

/// Searches a box for a solution of least cost, one that costs less than all that the seat has seen. Costs that other seats
/// post are used as the best, and each that is found is posted; those stay posted where memory is refused later. A seat with
/// all parts sees none of others, so that the run is that of its box from the least cost that was posted before.
pub fn run_least<R: Threads + Sync, L: Gate + Sync, C: Costs>(
    rt: &R,
    alloc: Global,
    run: &Run<'_, L>,
    sub: &BoxOf,
    best: &Best<C>,
    seat: &mut BestSeat,
) -> Result<LeastEnd, NoMemory>
    requires run { IsRun run.now }
    requires objective { run.now.model.now.goal ≢ Satisfy }
    requires inside { IsInside sub.now run.now.program.now.start }
    requires seat { IsBestSeatOf best.now seat.old }
    requires costs { (cost : ℤ) → C.is_cost cost ↔ IsCost run.now.model.now cost }
    ensures seat { IsBestSeatOf best.now seat.new }
    ensures parts { best_parts seat.new ≡ best_parts seat.old }
    ensures kept { (cost : ℤ) → Among (costs_seen seat.old) cost → Among (costs_seen seat.new) cost }
    ensures end { IfOk result (λ end. IsLeastEnd
        (least_of run.now.model.now run.now.program.now run.now.node_limit run.now.round_limit run.now.lanes None (costs_seen seat.new) sub.now)
        (costs_posted seat.old) (costs_posted seat.new) end) }
    ensures alone { best_parts seat.old ≡ 1024 → (known : Option ℤ) → IsLeastCost (costs_posted seat.old) known → IfOk result (IsLeastEnd
        (least_of run.now.model.now run.now.program.now run.now.node_limit run.now.round_limit run.now.lanes known [] sub.now)
        (costs_posted seat.old) (costs_posted seat.new)) }
    ensures least { IfOk result (λ end. OnDone end (CostAtLeast run.now.model.now sub.now (costs_seen seat.new))) }
    ensures below { IfOk result (CostsBelow run.now.model.now.goal (costs_seen seat.old)) }
    ensures err { OnErr result (IsBrokenOff
        (least_of run.now.model.now run.now.program.now run.now.node_limit run.now.round_limit run.now.lanes None (costs_seen seat.new) sub.now)
        (costs_posted seat.old) (costs_posted seat.new)) }
{
    let start = Start {
        boxes: alone(alloc, sub)?,
        changed: None,
    };
    let mut kept = Kept::new();
    let over = run_least_from(rt, alloc, run, start, &mut kept, best, seat)?;
    Ok(over.end)
}

/// The same in place, where it is known of what the box was made, and by a worker that has made other runs of as many
/// variables. Errors: memory.
pub fn run_least_from<R: Threads + Sync, L: Gate + Sync, C: Costs>(
    rt: &R,
    alloc: Global,
    run: &Run<'_, L>,
    start: Start,
    kept: &mut Kept,
    best: &Best<C>,
    seat: &mut BestSeat,
) -> Result<Over<LeastEnd>, NoMemory>
    requires run { IsRun run.now }
    requires objective { run.now.model.now.goal ≢ Satisfy }
    requires inside { IsInside start.boxes.current run.now.program.now.start }
    requires made { IsMadeBy start.changed run.now.program.now.kernels start.boxes.current }
    requires searcher { IsKeptFor run.now.program.now.kernels run.now.lanes (length start.boxes.current) kept.old }
    requires seat { IsBestSeatOf best.now seat.old }
    requires costs { (cost : ℤ) → C.is_cost cost ↔ IsCost run.now.model.now cost }
    ensures over { IfOk result (λ over. IsOver start.boxes.stack over.boxes.stack × (length over.boxes.current ≡ length start.boxes.current)) }
    ensures searcher { IsKeptFor run.now.program.now.kernels run.now.lanes (length start.boxes.current) kept.new }
    ensures spare { IfOk result (λ _. HasKept kept.new) }
    ensures seat { IsBestSeatOf best.now seat.new }
    ensures parts { best_parts seat.new ≡ best_parts seat.old }
    ensures kept { (cost : ℤ) → Among (costs_seen seat.old) cost → Among (costs_seen seat.new) cost }
    ensures end { IfOk result (λ over.
        IsLeastEnd (least_in run.now (costs_seen seat.new) start.boxes.current) (costs_posted seat.old) (costs_posted seat.new) over.end) }
    ensures alone { best_parts seat.old ≡ 1024 → (known : Option ℤ) → IsLeastCost (costs_posted seat.old) known → IfOk result (λ over.
        IsLeastEnd (least_alone run.now known start.boxes.current) (costs_posted seat.old) (costs_posted seat.new) over.end) }
    ensures least { IfOk result (λ over. OnDone over.end (CostAtLeast run.now.model.now start.boxes.current (costs_seen seat.new))) }
    ensures below { IfOk result (λ over. CostsBelow run.now.model.now.goal (costs_seen seat.old) over.end) }
    ensures err { OnErr result (IsBrokenOff (least_in run.now (costs_seen seat.new) start.boxes.current) (costs_posted seat.old) (costs_posted seat.new)) }
{
    law_can_search(run, start.boxes.current());
    let mut searcher = kept.begin(alloc, run, start)?;
    let closing = search_least(rt, alloc, run, &mut searcher, best, seat)?;
    let (boxes, spare) = searcher.into_parts();
    kept.keep(spare);
    let end = least_end(closing);
    Ok(Over { end, boxes })
}
