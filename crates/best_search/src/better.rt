//! The search for better and better plans.

ghost use Rattle.std.specs.Prelude.{◌≡◌, ◌≢◌, ◌<◌, None, Some, IfOk, IfSome, IfNone};
ghost use Rattle.constraint_model.specs.declared.model.Goal.TheVariants.{Satisfy};
ghost use Rattle.free_search.specs.Free.{IsFreeSearch};
ghost use Rattle.search.specs.Premises.{IsRun};
ghost use Rattle.best_search.specs.Plans.{IsCheaper, NoneIsCheaper};
ghost use Rattle.best_search.specs.Searches.{IfPaused, IsBestSearch, IsStep, lowest_of, room_of};

use crate::clock::{Clock, MOST_TURNS};
use crate::plain::{Found, last_of};
use free_search::{FreeEnd, FreeSearch};
use gate::Gate;
use interval::law_inside_order;
use list_of::ListOf;
use memory::NoMemory;
use race::{Task, Turns, look_below};
use search::{LeastTurn, LeastTurns, Run, solution_cost};
use std::alloc::Global;
use std::thread::Threads;

/// How a turn, or a part of it, ends.
#[derive(Drop)]
pub(crate) enum Step {
    /// With a plan that costs less than the last one.
    Found(ListOf<i64>),
    /// No solution costs less than the last plan.
    Done,
    /// Neither.
    Paused,
}

/// A search that gives better and better plans of a model with an objective.
#[derive(Drop)]
pub struct BestSearch {
    pub(crate) plain: LeastTurns,
    // the free search, if it is made and goes on
    pub(crate) free: Option<FreeSearch>,
    // what the last plan costs
    pub(crate) lowest: Option<i64>,
    pub(crate) clock: Clock,
}

impl BestSearch {
    /// Before the first plan. Errors: memory.
    pub fn new<L>(alloc: Global, run: &Run<'_, L>) -> Result<BestSearch, NoMemory>
        requires run { IsRun run.now }
        requires node_limit { run.now.node_limit ≡ 0 }
        requires round_limit { run.now.round_limit ≡ 0 }
        requires objective { run.now.model.now.goal ≢ Satisfy }
        ensures search { IfOk result (IsBestSearch run.now) }
        ensures lowest { IfOk result (λ search. lowest_of search ≡ None) }
    {
        law_inside_order();
        let plain = LeastTurns::new(alloc, run, &run.program.start)?;
        Ok(BestSearch {
            plain,
            free: None,
            lowest: None,
            clock: Clock::new(Turns::usual(run)),
        })
    }

    /// The next plan, a solution that costs less than the last one; none where no solution costs less. After an error the search can't
    /// be used. Errors: memory that is refused to the plain search; where it is refused to the free one that is dropped.
    pub fn next<R: Threads + Sync, L: Gate + Sync>(
        &mut self,
        rt: &R,
        alloc: Global,
        run: &Run<'_, L>,
    ) -> Result<Option<ListOf<i64>>, NoMemory>
        requires run { IsRun run.now }
        requires search { IsBestSearch run.now self.old }
        ensures search { IfOk result (λ _. IsBestSearch run.now self.new) }
        ensures plan { IfOk result (λ next. IfSome next (IsCheaper run.now.model.now (lowest_of self.old) (lowest_of self.new))) }
        ensures done { IfOk result (λ next. IfNone next (NoneIsCheaper run.now.model.now (lowest_of self.old))) }
        ensures same { IfOk result (λ next. IfNone next (lowest_of self.new ≡ lowest_of self.old)) }
        ensures less { IfOk result (λ next. IfSome next (λ _. room_of (lowest_of self.new) < room_of (lowest_of self.old))) }
    {
        for _ in 0..MOST_TURNS {
            match self.step(rt, alloc, run)? {
                Step::Found(plan) => return Ok(Some(plan)),
                Step::Done => return Ok(None),
                Step::Paused => self.pass(),
            }
        }
        match self.plain_step(rt, alloc, run, None)? {
            Step::Found(plan) => Ok(Some(plan)),
            Step::Done => Ok(None),
            Step::Paused => unreachable!(),
        }
    }

    /// What the last plan costs, if there is one: the objective to be minimized, or the opposite of the one to be maximized.
    pub fn lowest(&self) -> Option<i64>
        ensures { result ≡ lowest_of self.now }
    {
        self.lowest
    }

    /// How many units of work both searches did so far: a hint.
    pub fn spent(&self) -> u64 {
        self.plain.spent().saturating_add(self.free_spent())
    }

    /// How many the free one did.
    fn free_spent(&self) -> u64 {
        match &self.free {
            Some(free) => free.spent(),
            None => 0,
        }
    }

    /// The turn passes to the other search.
    fn pass(&mut self)
        ensures plain { self.new.plain ≡ self.old.plain }
        ensures free { self.new.free ≡ self.old.free }
        ensures lowest { self.new.lowest ≡ self.old.lowest }
    {
        let plain = self.plain.spent();
        let free = self.free_spent();
        self.clock.pass(plain, free);
    }

    /// A part of a turn of whichever search has it.
    fn step<R: Threads + Sync, L: Gate + Sync>(
        &mut self,
        rt: &R,
        alloc: Global,
        run: &Run<'_, L>,
    ) -> Result<Step, NoMemory>
        requires run { IsRun run.now }
        requires search { IsBestSearch run.now self.old }
        ensures search { IfOk result (λ _. IsBestSearch run.now self.new) }
        ensures step { IfOk result (IsStep run.now.model.now (lowest_of self.old) (lowest_of self.new)) }
    {
        if self.clock.is_free() {
            return Ok(self.free_step(rt, alloc, run));
        }
        let left = self.clock.left(self.plain.spent());
        self.plain_step(rt, alloc, run, Some(left))
    }

    /// The plain search, for so many units of work; without a number until it ends or finds a plan. Errors: memory.
    fn plain_step<R: Threads + Sync, L: Gate + Sync>(
        &mut self,
        rt: &R,
        alloc: Global,
        run: &Run<'_, L>,
        work: Option<u64>,
    ) -> Result<Step, NoMemory>
        requires run { IsRun run.now }
        requires search { IsBestSearch run.now self.old }
        ensures search { IfOk result (λ _. IsBestSearch run.now self.new) }
        ensures step { IfOk result (IsStep run.now.model.now (lowest_of self.old) (lowest_of self.new)) }
        ensures whole { work ≡ None → IfOk result (λ step. IfPaused step ⊥) }
    {
        match self.plain.go_on(rt, alloc, run, self.lowest, work)? {
            LeastTurn::Found => {
                let Found { plan, cost } = last_of(alloc, &self.plain)?;
                self.lowest = Some(cost);
                Ok(Step::Found(plan))
            }
            LeastTurn::Done => Ok(Step::Done),
            LeastTurn::Paused => Ok(Step::Paused),
        }
    }

    /// The free search, which is made first if it isn't. Memory that is refused ends it, and nothing else.
    fn free_step<R: Threads + Sync, L: Gate + Sync>(
        &mut self,
        rt: &R,
        alloc: Global,
        run: &Run<'_, L>,
    ) -> Step
        requires run { IsRun run.now }
        requires search { IsBestSearch run.now self.old }
        ensures search { IsBestSearch run.now self.new }
        ensures step { IsStep run.now.model.now (lowest_of self.old) (lowest_of self.new) result }
    {
        match self.free.take() {
            Some(free) => self.look(rt, alloc, run, free),
            None => self.make_free(rt, alloc, run),
        }
    }

    /// The free search is made, and looks for a plan.
    fn make_free<R: Threads + Sync, L: Gate + Sync>(
        &mut self,
        rt: &R,
        alloc: Global,
        run: &Run<'_, L>,
    ) -> Step
        requires run { IsRun run.now }
        requires search { IsBestSearch run.now self.old }
        ensures search { IsBestSearch run.now self.new }
        ensures step { IsStep run.now.model.now (lowest_of self.old) (lowest_of self.new) result }
    {
        match FreeSearch::new(rt, alloc, run) {
            Ok(Some(free)) => self.look(rt, alloc, run, free),
            Ok(None) => Step::Done,
            Err(_) => {
                self.clock.leave_alone();
                Step::Paused
            }
        }
    }

    /// The free search looks for a plan.
    fn look<R: Threads + Sync, L: Gate + Sync>(
        &mut self,
        rt: &R,
        alloc: Global,
        run: &Run<'_, L>,
        free: FreeSearch,
    ) -> Step
        requires run { IsRun run.now }
        requires search { IsBestSearch run.now self.old }
        requires free { IsFreeSearch run.now free }
        ensures search { IsBestSearch run.now self.new }
        ensures step { IsStep run.now.model.now (lowest_of self.old) (lowest_of self.new) result }
    {
        law_inside_order();
        let mut free = free;
        let task = Task {
            run,
            sub: &run.program.start,
            is_static: false,
        };
        let left = self.clock.left(free.spent());
        match look_below(rt, alloc, &task, &mut free, self.lowest, left) {
            Ok(FreeEnd::Found(plan)) => {
                self.free = Some(free);
                self.lowest = Some(solution_cost(run, plan.as_slice()));
                Step::Found(plan)
            }
            Ok(FreeEnd::Refuted) => {
                self.free = Some(free);
                Step::Done
            }
            Ok(FreeEnd::GaveUp) => {
                self.free = Some(free);
                Step::Paused
            }
            Err(_) => {
                self.clock.leave_alone();
                Step::Paused
            }
        }
    }
}
