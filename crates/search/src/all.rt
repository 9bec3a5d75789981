//! The run for all solutions.

ghost use Rattle.std.specs.Prelude.{◌≡◌, [], ◌∷◌, length, IfOk};
ghost use Rattle.interval.specs.Boxes.{IsInside};
ghost use Rattle.trailed_box.specs.Trailed.{IsOver};
ghost use Rattle.moved_fixpoint.specs.Made.{IsMadeBy};
ghost use Rattle.search.specs.Machine.{Search};
ghost use Rattle.search.specs.Premises.{IsRun, CanSearch};
ghost use Rattle.search.specs.Ends.{search_of, search_in, IsAllEnd};
ghost use Rattle.search.specs.Closings.{IsClosing};
ghost use Rattle.search.specs.Stacks.{boxes_of, below_of, count_of, IsReady, CanRestart};
ghost use Rattle.search.specs.Keeping.{HasKept, IsKeptFor};

use crate::closing::{Closing, counted, is_full};
use crate::ends::{AllEnd, Why};
use crate::kept::Kept;
use crate::kind::Kind;
use crate::laws::law_can_search;
use crate::node::Visit;
use crate::run::{Over, Run, Start, alone};
use crate::searcher::Searcher;
use branching::law_branches;
use gate::Gate;
use interval::{BoxOf, law_inside_order};
use list_of::ListOf;
use memory::NoMemory;
use std::alloc::Global;
use std::thread::Threads;

/// Searches a box for all its solutions.
fn search_all<R: Threads + Sync, L: Gate + Sync>(
    rt: &R,
    alloc: Global,
    run: &Run<'_, L>,
    searcher: &mut Searcher,
) -> Result<Closing, NoMemory>
    requires run { CanSearch run.now (count_of searcher.old) }
    requires boxes { boxes_of searcher.old ≡ searcher.old.boxes.current ∷ [] }
    requires ready { IsReady run.now searcher.old }
    ensures closing { IfOk result (IsClosing (search_in run.now Kind.All searcher.old.boxes.current)) }
    ensures again { IfOk result (λ _. CanRestart run.now.program.now.kernels run.now.lanes (count_of searcher.old) searcher.new) }
    ensures bottom { IfOk result (λ _. below_of searcher.new ≡ below_of searcher.old) }
{
    law_branches();
    law_inside_order();
    // its contract says that the bounds are in range
    let _length = searcher.boxes.len();
    let mut found = ListOf::new(alloc);
    let mut nodes = 0u64;
    'boxes: while searcher.has_next() {
        if is_full(run.node_limit, nodes) {
            return Ok(Closing {
                found,
                nodes,
                stopped: Some(Why::Nodes),
            });
        }
        nodes = counted(nodes);
        match searcher.node(rt, alloc, run, None, &mut found)? {
            Visit::Done => {}
            Visit::GivenUp => {
                return Ok(Closing {
                    found,
                    nodes,
                    stopped: Some(Why::Rounds),
                });
            }
        }
    }
    Ok(Closing {
        found,
        nodes,
        stopped: None,
    })
}

/// The end of a run, by how its search closed.
fn all_end(closing: Closing) -> AllEnd
    ensures { (s : Search) → s.kind ≡ Kind.All → IsClosing s closing → IsAllEnd s result }
{
    let Closing {
        found,
        nodes,
        stopped,
    } = closing;
    match stopped {
        Some(why) => AllEnd::Spent {
            nodes,
            why,
            solutions: found,
        },
        None => AllEnd::Done(found),
    }
}

/// Searches a box for all its solutions in the order of the search tree. Errors: memory.
pub fn run_all<R: Threads + Sync, L: Gate + Sync>(
    rt: &R,
    alloc: Global,
    run: &Run<'_, L>,
    sub: &BoxOf,
) -> Result<AllEnd, NoMemory>
    requires run { IsRun run.now }
    requires inside { IsInside sub.now run.now.program.now.start }
    ensures { IfOk result (IsAllEnd
        (search_of run.now.model.now run.now.program.now run.now.node_limit run.now.round_limit run.now.lanes Kind.All sub.now)) }
{
    let start = Start {
        boxes: alone(alloc, sub)?,
        changed: None,
    };
    let mut kept = Kept::new();
    let over = run_all_from(rt, alloc, run, start, &mut kept)?;
    Ok(over.end)
}

/// The same in place, where it is known of what the box was made, and by a worker that has made other runs of as many
/// variables. Errors: memory.
pub fn run_all_from<R: Threads + Sync, L: Gate + Sync>(
    rt: &R,
    alloc: Global,
    run: &Run<'_, L>,
    start: Start,
    kept: &mut Kept,
) -> Result<Over<AllEnd>, NoMemory>
    requires run { IsRun run.now }
    requires inside { IsInside start.boxes.current run.now.program.now.start }
    requires made { IsMadeBy start.changed run.now.program.now.kernels start.boxes.current }
    requires searcher { IsKeptFor run.now.program.now.kernels run.now.lanes (length start.boxes.current) kept.old }
    ensures end { IfOk result (λ over. IsAllEnd (search_in run.now Kind.All start.boxes.current) over.end) }
    ensures over { IfOk result (λ over. IsOver start.boxes.stack over.boxes.stack × (length over.boxes.current ≡ length start.boxes.current)) }
    ensures searcher { IsKeptFor run.now.program.now.kernels run.now.lanes (length start.boxes.current) kept.new }
    ensures spare { IfOk result (λ _. HasKept kept.new) }
{
    law_can_search(run, start.boxes.current());
    let mut searcher = kept.begin(alloc, run, start)?;
    let closing = search_all(rt, alloc, run, &mut searcher)?;
    let (boxes, spare) = searcher.into_parts();
    kept.keep(spare);
    let end = all_end(closing);
    Ok(Over { end, boxes })
}
