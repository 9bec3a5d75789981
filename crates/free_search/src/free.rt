//! A free search that is asked of one box after another.

ghost use Rattle.std.specs.Prelude.{ℤ, List, IfOk, IfSome, IfNone};
ghost use Rattle.interval.specs.Boxes.{IsInside};
ghost use Rattle.fixpoint_laws.specs.Fixpoints.{IsGreatest, Fails};
ghost use Rattle.solution_lists.specs.Solutions.{SolvesInside};
ghost use Rattle.search.specs.Premises.{IsRun};
ghost use Rattle.free_search.specs.Ends.{IfFound, IfRefuted};
ghost use Rattle.free_search.specs.Free.{HoldsAll, IsFreeSearch};

use crate::boxes::meet;
use crate::ends::FreeEnd;
use crate::guide::Guide;
use crate::root::{root_of, settled_in};
use crate::run::run_free;
use free_laws::law_none_solves;
use gate::Gate;
use interval::{BoxOf, law_inside_order};
use memory::NoMemory;
use nogoods::Learner;
use search::Run;
use solution_lists::law_point_solves;
use std::alloc::Global;
use std::thread::Threads;

/// A free search that goes on: what it learned in one box serves it in each other.
#[derive(Drop)]
pub struct FreeSearch {
    // its nogoods are those of the space
    pub(crate) learner: Learner,
    pub(crate) guide: Guide,
    // a box that holds all of the model's solutions
    pub(crate) space: BoxOf,
}

impl FreeSearch {
    /// One that has learned nothing, for all boxes in the start of the run's program; none where no solution is there.
    /// Errors: memory.
    pub fn new<R: Threads + Sync, L: Gate + Sync>(
        rt: &R,
        alloc: Global,
        run: &Run<'_, L>,
    ) -> Result<Option<FreeSearch>, NoMemory>
        requires { IsRun run.now }
        ensures some { IfOk result (λ free. IfSome free (IsFreeSearch run.now)) }
        ensures none { IfOk result (λ free. IfNone free ((a : List ℤ) → SolvesInside run.now.model.now run.now.program.now.start a → ⊥)) }
    {
        law_inside_order();
        law_point_solves();
        match root_of(rt, alloc, run)? {
            Some(space) => {
                let learner = Learner::new(alloc, &space)?;
                let guide = Guide::new(alloc, run)?;
                Ok(Some(FreeSearch {
                    learner,
                    guide,
                    space,
                }))
            }
            None => Ok(None),
        }
    }

    /// Looks for a solution in a box inside the start, in any order, until so many units of work are spent. Errors: memory; what
    /// is left of the search then is of no use.
    pub fn look_for<R: Threads + Sync, L: Gate + Sync>(
        &mut self,
        rt: &R,
        alloc: Global,
        run: &Run<'_, L>,
        sub: &BoxOf,
        budget: u64,
    ) -> Result<FreeEnd, NoMemory>
        requires run { IsRun run.now }
        requires free { IsFreeSearch run.now self.old }
        requires inside { IsInside sub.now run.now.program.now.start }
        ensures free { IfOk result (λ end. IsFreeSearch run.now self.new) }
        ensures found { IfOk result (λ end. IfFound end (SolvesInside run.now.model.now sub.now)) }
        ensures refuted { IfOk result (λ end. IfRefuted end ((a : List ℤ) → SolvesInside run.now.model.now sub.now a → ⊥)) }
    {
        law_inside_order();
        law_none_solves();
        let met = meet(alloc, &self.space, sub)?;
        let end = run_free(
            rt,
            alloc,
            run,
            &mut self.learner,
            &mut self.guide,
            &self.space,
            &met,
            budget,
        )?;
        Ok(end)
    }

    /// The greatest closed box in a box inside the start, by propagation alone: all solutions stay. None where no closed box is there, so
    /// that it has no solution. Errors: memory.
    pub fn narrow<R: Threads + Sync, L: Gate + Sync>(
        &mut self,
        rt: &R,
        alloc: Global,
        run: &Run<'_, L>,
        b: &BoxOf,
    ) -> Result<Option<BoxOf>, NoMemory>
        requires run { IsRun run.now }
        requires free { IsFreeSearch run.now self.old }
        requires inside { IsInside b.now run.now.program.now.start }
        ensures free { IsFreeSearch run.now self.new }
        ensures greatest { IfOk result (λ narrowed. IfSome narrowed (λ n. IsGreatest n b.now run.now.program.now.kernels)) }
        ensures fails { IfOk result (λ narrowed. IfNone narrowed (Fails b.now run.now.program.now.kernels)) }
        ensures some { IfOk result (λ narrowed. IfSome narrowed (HoldsAll run.now.model.now b.now)) }
        ensures none { IfOk result (λ narrowed. IfNone narrowed ((a : List ℤ) → SolvesInside run.now.model.now b.now a → ⊥)) }
    {
        law_inside_order();
        law_point_solves();
        self.guide.begin_search(0);
        match settled_in(rt, alloc, run, b)? {
            Some(settled) => {
                self.guide.spend_visits(settled.narrower.visits());
                let narrowed = settled.boxes.current().copy(alloc)?;
                Ok(Some(narrowed))
            }
            None => Ok(None),
        }
    }

    /// How many units of work were spent so far, as `Guide::spent` counts them.
    pub fn spent(&self) -> u64 {
        self.guide.spent()
    }
}
