//! The search for the first solution, kept over its turns.

ghost use Rattle.std.specs.Prelude.{◌≡◌, ◌≢◌, ◌<◌, Some, None, [], IfOk, IfSome, IfNone};
ghost use Rattle.interval.specs.Boxes.{IsInside};
ghost use Rattle.search.specs.Premises.{IsRun};
ghost use Rattle.search.specs.Stacks.{boxes_of};
ghost use Rattle.search.specs.Turns.{first_asked, first_left, IsFirstTurns, IsFirstOf, IsFirstTurn, IfFirstPaused};

use crate::kept::Kept;
use crate::laws::law_can_search;
use crate::meter::Meter;
use crate::run::{Run, Start, alone};
use crate::searcher::Searcher;
use branching::{law_branches, law_every_list, law_one_list};
use gate::Gate;
use interval::{BoxOf, law_inside_order};
use list_of::ListOf;
use memory::NoMemory;
use std::alloc::Global;
use std::thread::Threads;

/// How a turn ends.
#[derive(Drop)]
pub enum FirstTurn {
    /// With the first solution, one number for each declared variable, or with none where there is none.
    Done(Option<ListOf<i64>>),
    /// Before a solution was found: the next turn goes on.
    Paused,
}

/// A search of a box for its first solution in the order of the search tree, kept over its turns.
#[derive(Drop)]
pub struct FirstTurns {
    pub(crate) searcher: Searcher,
    // the box that is searched
    pub(crate) sub: BoxOf,
    pub(crate) meter: Meter,
}

impl FirstTurns {
    /// Before its first turn. Errors: memory.
    pub fn new<L>(alloc: Global, run: &Run<'_, L>, sub: &BoxOf) -> Result<FirstTurns, NoMemory>
        requires run { IsRun run.now }
        requires node_limit { run.now.node_limit ≡ 0 }
        requires round_limit { run.now.round_limit ≡ 0 }
        requires inside { IsInside sub.now run.now.program.now.start }
        ensures turns { IfOk result (IsFirstTurns run.now) }
        ensures asked { IfOk result (λ turns. first_asked turns ≡ sub.now) }
    {
        // its contract says that the bounds are in range
        let _length = sub.len();
        let start = Start {
            boxes: alone(alloc, sub)?,
            changed: None,
        };
        law_can_search(run, start.boxes.current());
        let mut kept = Kept::new();
        let searcher = kept.begin(alloc, run, start)?;
        let asked = sub.copy(alloc)?;
        let meter = Meter::new(sub.len());
        Ok(FirstTurns {
            searcher,
            sub: asked,
            meter,
        })
    }

    /// How many units of work were done so far: a hint, comparable with that of a free search.
    pub fn spent(&self) -> u64 {
        self.meter.spent()
    }

    /// One node: the first solution, if it is found there.
    fn step<R: Threads + Sync, L: Gate + Sync>(
        &mut self,
        rt: &R,
        alloc: Global,
        run: &Run<'_, L>,
    ) -> Result<Option<ListOf<i64>>, NoMemory>
        requires run { IsRun run.now }
        requires turns { IsFirstTurns run.now self.old }
        requires left { boxes_of self.old.searcher ≢ [] }
        ensures some { IfOk result (λ found. IfSome found (λ a.
            IsFirstOf run.now.model.now run.now.program.now.kernels (first_asked self.old) (Some a))) }
        ensures none { IfOk result (λ found. IfNone found (IsFirstTurns run.now self.new)) }
        ensures asked { IfOk result (λ _. first_asked self.new ≡ first_asked self.old) }
        ensures less { IfOk result (λ _. first_left self.new < first_left self.old) }
    {
        law_inside_order();
        law_branches();
        law_every_list();
        law_one_list();
        law_can_search(run, &self.sub);
        let found = self.searcher.node_unlimited(rt, alloc, run, None)?;
        self.meter.count(&self.searcher);
        Ok(found)
    }

    /// Goes on for so many units of work, and no less than a node; without a number until it is done. After an error the
    /// search can't be used. Errors: memory.
    pub fn go_on<R: Threads + Sync, L: Gate + Sync>(
        &mut self,
        rt: &R,
        alloc: Global,
        run: &Run<'_, L>,
        work: Option<u64>,
    ) -> Result<FirstTurn, NoMemory>
        requires run { IsRun run.now }
        requires turns { IsFirstTurns run.now self.old }
        ensures turn { IfOk result (IsFirstTurn run.now.model.now run.now.program.now.kernels (first_asked self.old)) }
        ensures asked { IfOk result (λ _. first_asked self.new ≡ first_asked self.old) }
        ensures turns { IfOk result (λ turn. IfFirstPaused turn (IsFirstTurns run.now self.new)) }
        ensures less { IfOk result (λ turn. IfFirstPaused turn (first_left self.new < first_left self.old)) }
        ensures whole { work ≡ None → IfOk result (λ turn. IfFirstPaused turn ⊥) }
    {
        law_inside_order();
        law_branches();
        law_every_list();
        law_one_list();
        law_can_search(run, &self.sub);
        let end = self.meter.end_of(work);
        'nodes: while self.searcher.has_next() {
            if let Some(answer) = self.step(rt, alloc, run)? {
                return Ok(FirstTurn::Done(Some(answer)));
            }
            if self.meter.is_over(end) {
                return Ok(FirstTurn::Paused);
            }
        }
        Ok(FirstTurn::Done(None))
    }
}
