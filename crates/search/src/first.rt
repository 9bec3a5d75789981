//! The run for the first solution.

ghost use Rattle.std.specs.Prelude.{◌≡◌, ◌≢◌, ◌<◌, ◌≤◌, ℕ, ℤ, List, [], ◌∷◌, length, IfOk, OnErr, IfSome, Some, None};
ghost use Rattle.std.specs.Bool.{OnTrue, OnFalse};
ghost use Rattle.interval.specs.Boxes.{IsInside};
ghost use Rattle.branching.specs.Tree.{SolutionsIn};
ghost use Rattle.best_bound.specs.Lists.{Among, IsLeastNumber};
ghost use Rattle.best_bound.specs.Seats.{IsFoundSeatOf, found_parts, numbers_seen, numbers_posted};
ghost use Rattle.trailed_box.specs.Trailed.{IsOver};
ghost use Rattle.moved_fixpoint.specs.Made.{IsMadeBy};
ghost use Rattle.search.specs.Premises.{IsRun, CanSearch};
ghost use Rattle.search.specs.Ends.{search_of, search_in, IsFirstEnd, IsCut, posts_of};
ghost use Rattle.search.specs.Stacks.{boxes_of, below_of, count_of, IsReady, CanRestart};
ghost use Rattle.search.specs.Keeping.{HasKept, IsKeptFor};

use crate::closing::{counted, is_full};
use crate::ends::{FirstEnd, Why};
use crate::kept::Kept;
use crate::kind::Kind;
use crate::laws::law_can_search;
use crate::node::Visit;
use crate::run::{Over, Run, Start, alone};
use crate::searcher::Searcher;
use best_bound::{Found, FoundSeat, Numbers};
use branching::{law_branches, law_every_list};
use gate::Gate;
use interval::{BoxOf, law_inside_order};
use list_of::ListOf;
use memory::NoMemory;
use std::alloc::Global;
use std::thread::Threads;

/// One of the numbered subproblems whose runs share the least number that has a solution.
#[derive(Drop)]
pub struct Numbered<'a, N: Numbers> {
    /// Its number.
    pub number: u32,
    /// Where that is posted, and lesser ones are looked for.
    pub found: &'a Found<N>,
}

/// The least number of a subproblem with a solution that the seat then sees, if it is below `number`.
pub fn lesser_seen<N: Numbers>(found: &Found<N>, seat: &mut FoundSeat, number: u32) -> Option<u32>
    requires seat { IsFoundSeatOf found.now seat.old }
    ensures seat { IsFoundSeatOf found.now seat.new }
    ensures parts { found_parts seat.new ≡ found_parts seat.old }
    ensures posted { numbers_posted seat.new ≡ numbers_posted seat.old }
    ensures seen { (n : ℕ) → Among (numbers_seen seat.old) n → Among (numbers_seen seat.new) n }
    ensures below { IfSome result (λ n. n < number) }
    ensures least { IfSome result (λ n. IsLeastNumber (numbers_seen seat.new) (Some n)) }
    ensures none { result ≡ None → (n : ℕ) → Among (numbers_seen seat.new) n → number ≤ n }
    ensures passes { IfSome result N.has_solution }
{
    match found.seen(seat) {
        Some(n) if n < number => Some(n),
        _ => None,
    }
}

/// Whether a solution was found.
fn is_found(solutions: &ListOf<ListOf<i64>>) -> bool
    ensures some { OnTrue result (solutions.now ≢ []) }
    ensures none { OnFalse result (solutions.now ≡ []) }
{
    !solutions.is_empty()
}

/// Searches a box for its first solution, as long as no lesser number is seen.
fn search_first<R: Threads + Sync, L: Gate + Sync, N: Numbers>(
    rt: &R,
    alloc: Global,
    run: &Run<'_, L>,
    searcher: &mut Searcher,
    numbered: &Numbered<'_, N>,
    seat: &mut FoundSeat,
) -> Result<FirstEnd, NoMemory>
    requires run { CanSearch run.now (count_of searcher.old) }
    requires boxes { boxes_of searcher.old ≡ searcher.old.boxes.current ∷ [] }
    requires ready { IsReady run.now searcher.old }
    requires seat { IsFoundSeatOf numbered.now.found.now seat.old }
    ensures again { IfOk result (λ _. CanRestart run.now.program.now.kernels run.now.lanes (count_of searcher.old) searcher.new) }
    ensures bottom { IfOk result (λ _. below_of searcher.new ≡ below_of searcher.old) }
    ensures seat { IsFoundSeatOf numbered.now.found.now seat.new }
    ensures parts { found_parts seat.new ≡ found_parts seat.old }
    ensures posted { numbers_posted seat.new ≡ numbers_posted seat.old }
    ensures seen { (n : ℕ) → Among (numbers_seen seat.old) n → Among (numbers_seen seat.new) n }
    ensures end { IfOk result (IsFirstEnd (search_in run.now Kind.First searcher.old.boxes.current) numbered.now.number (numbers_seen seat.new)) }
    ensures cut { IfOk result (λ end. (n : ℕ) → end ≡ FirstEnd.Cut n → N.has_solution n) }
    ensures at_once { (n : ℕ) → Among (numbers_seen seat.old) n → n < numbered.now.number → IfOk result IsCut }
{
    law_branches();
    law_every_list();
    law_inside_order();
    // its contract says that the bounds are in range
    let _length = searcher.boxes.len();
    let mut solutions = ListOf::new(alloc);
    let mut nodes = 0u64;
    'boxes: while searcher.has_next() {
        if let Some(n) = lesser_seen(numbered.found, seat, numbered.number) {
            return Ok(FirstEnd::Cut(n));
        }
        if is_full(run.node_limit, nodes) {
            return Ok(FirstEnd::Spent {
                nodes,
                why: Why::Nodes,
            });
        }
        nodes = counted(nodes);
        match searcher.node(rt, alloc, run, None, &mut solutions)? {
            Visit::Done => {}
            Visit::GivenUp => {
                return Ok(FirstEnd::Spent {
                    nodes,
                    why: Why::Rounds,
                });
            }
        }
        if is_found(&solutions) {
            return Ok(FirstEnd::Done(solutions.into_vec().pop()));
        }
    }
    Ok(FirstEnd::Done(None))
}

/// Searches the box where a run begins for its first solution. Nothing is posted.
fn run_unposted<R: Threads + Sync, L: Gate + Sync, N: Numbers>(
    rt: &R,
    alloc: Global,
    run: &Run<'_, L>,
    start: Start,
    kept: &mut Kept,
    numbered: &Numbered<'_, N>,
    seat: &mut FoundSeat,
) -> Result<Over<FirstEnd>, NoMemory>
    requires run { CanSearch run.now (length start.boxes.current) }
    requires made { IsMadeBy start.changed run.now.program.now.kernels start.boxes.current }
    requires searcher { IsKeptFor run.now.program.now.kernels run.now.lanes (length start.boxes.current) kept.old }
    requires seat { IsFoundSeatOf numbered.now.found.now seat.old }
    ensures over { IfOk result (λ over. IsOver start.boxes.stack over.boxes.stack × (length over.boxes.current ≡ length start.boxes.current)) }
    ensures searcher { IsKeptFor run.now.program.now.kernels run.now.lanes (length start.boxes.current) kept.new }
    ensures spare { IfOk result (λ _. HasKept kept.new) }
    ensures seat { IsFoundSeatOf numbered.now.found.now seat.new }
    ensures parts { found_parts seat.new ≡ found_parts seat.old }
    ensures posted { numbers_posted seat.new ≡ numbers_posted seat.old }
    ensures seen { (n : ℕ) → Among (numbers_seen seat.old) n → Among (numbers_seen seat.new) n }
    ensures end { IfOk result (λ over. IsFirstEnd (search_in run.now Kind.First start.boxes.current) numbered.now.number (numbers_seen seat.new) over.end) }
    ensures cut { IfOk result (λ over. (n : ℕ) → over.end ≡ FirstEnd.Cut n → N.has_solution n) }
    ensures at_once { (n : ℕ) → Among (numbers_seen seat.old) n → n < numbered.now.number → IfOk result (λ over. IsCut over.end) }
{
    let mut searcher = kept.begin(alloc, run, start)?;
    let end = search_first(rt, alloc, run, &mut searcher, numbered, seat)?;
    let (boxes, spare) = searcher.into_parts();
    kept.keep(spare);
    Ok(Over { end, boxes })
}

/// Searches a box, the subproblem `number`, for its first solution in the order of the search tree. It looks at `found`
/// before each node, and is cut where a lesser number is there: at once where the seat has seen one before. Where it has a
/// solution it posts its number. Errors: memory.
pub fn run_first<R: Threads + Sync, L: Gate + Sync, N: Numbers>(
    rt: &R,
    alloc: Global,
    run: &Run<'_, L>,
    sub: &BoxOf,
    number: u32,
    found: &Found<N>,
    seat: &mut FoundSeat,
) -> Result<FirstEnd, NoMemory>
    requires run { IsRun run.now }
    requires inside { IsInside sub.now run.now.program.now.start }
    requires seat { IsFoundSeatOf found.now seat.old }
    requires solution { (solutions : List (List ℤ)) → SolutionsIn run.now.model.now run.now.program.now.kernels sub.now solutions →
        solutions ≢ [] → N.has_solution number }
    ensures seat { IsFoundSeatOf found.now seat.new }
    ensures parts { found_parts seat.new ≡ found_parts seat.old }
    ensures seen { (n : ℕ) → Among (numbers_seen seat.old) n → Among (numbers_seen seat.new) n }
    ensures end { IfOk result (IsFirstEnd
        (search_of run.now.model.now run.now.program.now run.now.node_limit run.now.round_limit run.now.lanes Kind.First sub.now)
        number (numbers_seen seat.new)) }
    ensures cut { IfOk result (λ end. (n : ℕ) → end ≡ FirstEnd.Cut n → N.has_solution n) }
    ensures at_once { (n : ℕ) → Among (numbers_seen seat.old) n → n < number → IfOk result IsCut }
    ensures posts { IfOk result (λ end. numbers_posted seat.new ≡ posts_of number (numbers_posted seat.old) end) }
    ensures err { OnErr result (numbers_posted seat.new ≡ numbers_posted seat.old) }
{
    let start = Start {
        boxes: alone(alloc, sub)?,
        changed: None,
    };
    let numbered = Numbered {
        number,
        found: &*found,
    };
    let mut kept = Kept::new();
    let over = run_first_from(rt, alloc, run, start, &mut kept, &numbered, seat)?;
    Ok(over.end)
}

/// The same in place, where it is known of what the box was made, and by a worker that has made other runs of as many
/// variables. Errors: memory.
pub fn run_first_from<R: Threads + Sync, L: Gate + Sync, N: Numbers>(
    rt: &R,
    alloc: Global,
    run: &Run<'_, L>,
    start: Start,
    kept: &mut Kept,
    numbered: &Numbered<'_, N>,
    seat: &mut FoundSeat,
) -> Result<Over<FirstEnd>, NoMemory>
    requires run { IsRun run.now }
    requires inside { IsInside start.boxes.current run.now.program.now.start }
    requires made { IsMadeBy start.changed run.now.program.now.kernels start.boxes.current }
    requires searcher { IsKeptFor run.now.program.now.kernels run.now.lanes (length start.boxes.current) kept.old }
    requires seat { IsFoundSeatOf numbered.now.found.now seat.old }
    requires solution { (solutions : List (List ℤ)) → SolutionsIn run.now.model.now run.now.program.now.kernels start.boxes.current solutions →
        solutions ≢ [] → N.has_solution numbered.now.number }
    ensures over { IfOk result (λ over. IsOver start.boxes.stack over.boxes.stack × (length over.boxes.current ≡ length start.boxes.current)) }
    ensures searcher { IsKeptFor run.now.program.now.kernels run.now.lanes (length start.boxes.current) kept.new }
    ensures spare { IfOk result (λ _. HasKept kept.new) }
    ensures seat { IsFoundSeatOf numbered.now.found.now seat.new }
    ensures parts { found_parts seat.new ≡ found_parts seat.old }
    ensures seen { (n : ℕ) → Among (numbers_seen seat.old) n → Among (numbers_seen seat.new) n }
    ensures end { IfOk result (λ over. IsFirstEnd (search_in run.now Kind.First start.boxes.current) numbered.now.number (numbers_seen seat.new) over.end) }
    ensures cut { IfOk result (λ over. (n : ℕ) → over.end ≡ FirstEnd.Cut n → N.has_solution n) }
    ensures at_once { (n : ℕ) → Among (numbers_seen seat.old) n → n < numbered.now.number → IfOk result (λ over. IsCut over.end) }
    ensures posts { IfOk result (λ over. numbers_posted seat.new ≡ posts_of numbered.now.number (numbers_posted seat.old) over.end) }
    ensures err { OnErr result (numbers_posted seat.new ≡ numbers_posted seat.old) }
{
    law_can_search(run, start.boxes.current());
    let over = run_unposted(rt, alloc, run, start, kept, numbered, seat)?;
    if let FirstEnd::Done(Some(_)) = &over.end {
        numbered.found.post(seat, numbered.number);
    }
    Ok(over)
}
