//! The search for the least cost, kept over its turns.

ghost use Rattle.std.specs.Prelude.{◌≡◌, ◌≢◌, ◌<◌, ℤ, true, false, Some, None, [], length, IfOk, IfSome, IfNone};
ghost use Rattle.std.specs.Bool.{OnTrue, OnFalse};
ghost use Rattle.interval.specs.Limits.{IsNumber};
ghost use Rattle.interval.specs.Boxes.{IsInside};
ghost use Rattle.constraint_model.specs.declared.model.Goal.TheVariants.{Satisfy};
ghost use Rattle.constraint_model.specs.Relations.{cost_of};
ghost use Rattle.solution_lists.specs.Static.{IsStaticSearch};
ghost use Rattle.search.specs.Costs.{IsObjectiveIn};
ghost use Rattle.search.specs.Premises.{IsRun};
ghost use Rattle.search.specs.LeastEnds.{IsCost};
ghost use Rattle.search.specs.Stacks.{boxes_of};
ghost use Rattle.search.specs.Turns.{least_asked, least_left, lowest_of, found_last, IsLeastTurns, FindsBetter, IsLeastTurn};
ghost use Rattle.search.specs.Turns.{CostsAtLeast, IsFirstOfItsCost, IfLeastDone, UnlessLeastDone, IfLeastPaused};

use crate::costs::{cost, lesser};
use crate::kept::Kept;
use crate::laws::{
    law_can_search, law_finds_first, law_finds_least, law_more_posted, law_records_below,
    law_records_solutions,
};
use crate::meter::Meter;
use crate::run::{Run, Start, alone};
use crate::searcher::Searcher;
use branching::law_branches;
use constraint_model::Goal;
use gate::Gate;
use interval::{BoxOf, law_inside_order};
use list_of::ListOf;
use memory::NoMemory;
use std::alloc::Global;
use std::thread::Threads;

/// How a turn ends.
#[derive(Clone, Copy, PartialEq, Eq, Debug)]
pub enum LeastTurn {
    /// A solution was found that costs less than all costs that were given or found before.
    Found,
    /// No other solution costs less.
    Done,
    /// Neither: the next turn goes on.
    Paused,
}

/// A search of a box for its least cost, kept over its turns.
#[derive(Drop)]
pub struct LeastTurns {
    pub(crate) searcher: Searcher,
    // the box that is searched
    pub(crate) sub: BoxOf,
    // the least cost that was given or found
    pub(crate) lowest: Option<i64>,
    // the solution that was found last
    pub(crate) last: Option<ListOf<i64>>,
    pub(crate) meter: Meter,
}

impl LeastTurns {
    /// Before its first turn. Errors: memory.
    pub fn new<L>(alloc: Global, run: &Run<'_, L>, sub: &BoxOf) -> Result<LeastTurns, NoMemory>
        requires run { IsRun run.now }
        requires node_limit { run.now.node_limit ≡ 0 }
        requires round_limit { run.now.round_limit ≡ 0 }
        requires objective { run.now.model.now.goal ≢ Satisfy }
        requires inside { IsInside sub.now run.now.program.now.start }
        ensures turns { IfOk result (IsLeastTurns run.now) }
        ensures asked { IfOk result (λ turns. least_asked turns ≡ sub.now) }
        ensures lowest { IfOk result (λ turns. lowest_of turns ≡ None) }
        ensures last { IfOk result (λ turns. found_last turns ≡ None) }
    {
        // its contract says that the bounds are in range
        let _length = sub.len();
        let start = Start {
            boxes: alone(alloc, sub)?,
            changed: None,
        };
        law_can_search(run, start.boxes.current());
        let mut kept = Kept::new();
        let searcher = kept.begin(alloc, run, start)?;
        let asked = sub.copy(alloc)?;
        let meter = Meter::new(sub.len());
        Ok(LeastTurns {
            searcher,
            sub: asked,
            lowest: None,
            last: None,
            meter,
        })
    }

    /// How many units of work were done so far: a hint, comparable with that of a free search.
    pub fn spent(&self) -> u64 {
        self.meter.spent()
    }

    /// The least cost that was given or found, if there is one.
    pub fn lowest(&self) -> Option<i64>
        ensures { result ≡ lowest_of self.now }
    {
        self.lowest
    }

    /// The solution that was found last, one number for each declared variable, if one was found.
    pub fn last(&self) -> Option<&ListOf<i64>>
        ensures some { IfSome result (λ a. found_last self.now ≡ Some a.now) }
        ensures none { IfNone result (found_last self.now ≡ None) }
    {
        self.last.as_ref()
    }

    /// The same, when no other turn is taken.
    pub fn into_last(self) -> Option<ListOf<i64>>
        ensures { result ≡ found_last self }
    {
        let LeastTurns { last, .. } = self;
        last
    }

    /// Keeps what a node found, a solution or nothing, and its cost; whether it found one.
    fn keep(&mut self, goal: Goal, found: Option<ListOf<i64>>) -> bool
        requires objective { IfSome found (λ a. IsObjectiveIn (length a) goal) }
        requires numbers { IfSome found (λ a. (cost : ℤ) → cost_of goal a ≡ Some cost → IsNumber cost) }
        ensures some { IfSome found (λ a. (result ≡ true) × (self.new ≡ record self.old { lowest = cost_of goal a; last = Some a })) }
        ensures none { IfNone found ((result ≡ false) × (self.new ≡ self.old)) }
        ensures searcher { self.new.searcher ≡ self.old.searcher }
        ensures sub { self.new.sub ≡ self.old.sub }
    {
        match found {
            None => false,
            Some(values) => {
                self.lowest = Some(cost(goal, values.as_slice()));
                self.last = Some(values);
                true
            }
        }
    }

    /// One node of what costs less than the least cost: whether a solution is found there.
    fn step<R: Threads + Sync, L: Gate + Sync>(
        &mut self,
        rt: &R,
        alloc: Global,
        run: &Run<'_, L>,
    ) -> Result<bool, NoMemory>
        requires run { IsRun run.now }
        requires turns { IsLeastTurns run.now self.old }
        requires left { boxes_of self.old.searcher ≢ [] }
        ensures turns { IfOk result (λ _. IsLeastTurns run.now self.new) }
        ensures asked { IfOk result (λ _. least_asked self.new ≡ least_asked self.old) }
        ensures found { IfOk result (λ is_found. OnTrue is_found (FindsBetter run.now.model.now (lowest_of self.old) self.old self.new)) }
        ensures same { IfOk result (λ is_found. OnFalse is_found
            ((found_last self.new ≡ found_last self.old) × (lowest_of self.new ≡ lowest_of self.old))) }
        ensures less { IfOk result (λ _. least_left self.new < least_left self.old) }
    {
        law_inside_order();
        law_branches();
        law_records_solutions();
        law_records_below();
        law_can_search(run, &self.sub);
        let found = self.searcher.node_unlimited(rt, alloc, run, self.lowest)?;
        self.meter.count(&self.searcher);
        Ok(self.keep(run.model.goal, found))
    }

    /// Goes on for so many units of work, and no less than a node; without a number until a better solution is found or none
    /// is left. `best` is the cost of a solution that is known, if one is; it need not be the least one. After an error the
    /// search can't be used. Errors: memory.
    pub fn go_on<R: Threads + Sync, L: Gate + Sync>(
        &mut self,
        rt: &R,
        alloc: Global,
        run: &Run<'_, L>,
        best: Option<i64>,
        work: Option<u64>,
    ) -> Result<LeastTurn, NoMemory>
        requires run { IsRun run.now }
        requires turns { IsLeastTurns run.now self.old }
        requires best { IfSome best (IsCost run.now.model.now) }
        ensures turns { IfOk result (λ _. IsLeastTurns run.now self.new) }
        ensures asked { IfOk result (λ _. least_asked self.new ≡ least_asked self.old) }
        ensures turn { IfOk result (IsLeastTurn run.now.model.now best self.old self.new) }
        ensures done { IfOk result (λ turn. IfLeastDone turn (CostsAtLeast run.now.model.now (least_asked self.old) (lowest_of self.new))) }
        ensures first { IsStaticSearch run.now.model.now → IfOk result (λ _.
            IfSome (found_last self.new) (IsFirstOfItsCost run.now.model.now (least_asked self.old))) }
        ensures less { IfOk result (λ turn. UnlessLeastDone turn (least_left self.new < least_left self.old)) }
        ensures whole { work ≡ None → IfOk result (λ turn. IfLeastPaused turn ⊥) }
    {
        law_inside_order();
        law_branches();
        law_finds_least();
        law_finds_first();
        law_more_posted();
        self.lowest = lesser(self.lowest, best);
        let end = self.meter.end_of(work);
        'nodes: while self.searcher.has_next() {
            if self.step(rt, alloc, run)? {
                return Ok(LeastTurn::Found);
            }
            if self.meter.is_over(end) {
                return Ok(LeastTurn::Paused);
            }
        }
        Ok(LeastTurn::Done)
    }
}
