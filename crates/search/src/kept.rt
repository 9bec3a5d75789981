//! What a worker keeps over its runs.

ghost use Rattle.std.specs.Prelude.{◌≡◌, ◌≤◌, ℕ, List, None, [], ◌∷◌, length, IfOk, IfSome, OnErr, Ok};
ghost use Rattle.interval.specs.Limits.{box_limit};
ghost use Rattle.guarded_tell.specs.declared.kernel.Kernel.{Kernel};
ghost use Rattle.rounds.specs.Shares.{share_limit};
ghost use Rattle.moved_fixpoint.specs.Made.{IsMadeBy};
ghost use Rattle.search.specs.Premises.{CanSearch};
ghost use Rattle.search.specs.Stacks.{boxes_of, below_of, IsReady};
ghost use Rattle.search.specs.Keeping.{CanServe, HasKept, IsKeptFor};

use crate::run::{Run, Start};
use crate::searcher::Searcher;
use branching::Front;
use memory::NoMemory;
use narrowing::Narrower;
use std::alloc::Global;

/// What a searcher needs besides boxes.
#[derive(Drop)]
pub(crate) struct Spare {
    pub(crate) fronts: Vec<Front>,
    pub(crate) narrower: Narrower,
}

impl Spare {
    /// For boxes of so many variables.
    #[tactic(auto, unfolding(rounds::specs::Shares::share_limit))]
    fn new<L>(alloc: Global, run: &Run<'_, L>, count: u32) -> Result<Spare, NoMemory>
        requires run { CanSearch run.now count }
        requires short { count ≤ box_limit }
        ensures { IfOk result (CanServe run.now.program.now.kernels run.now.lanes count) }
    {
        let kernels = run.program.kernels.as_slice();
        Ok(Spare {
            fronts: Vec::new(alloc),
            narrower: Narrower::new(alloc, kernels, count, run.lanes)?,
        })
    }
}

/// What the last run kept, if memory sufficed for that. The next run needs no sets of its own then; what it finds is the same.
#[derive(Drop)]
pub struct Kept {
    pub(crate) spare: Option<Spare>,
}

impl Kept {
    /// Nothing.
    pub fn new() -> Kept
        ensures { (kernels : List Kernel) (lanes count : ℕ) → IsKeptFor kernels lanes count result }
    {
        Kept { spare: None }
    }

    /// Takes what is kept, or makes it.
    fn take<L>(&mut self, alloc: Global, run: &Run<'_, L>, count: u32) -> Result<Spare, NoMemory>
        requires run { CanSearch run.now count }
        requires short { count ≤ box_limit }
        requires kept { IsKeptFor run.now.program.now.kernels run.now.lanes count self.old }
        ensures taken { self.new.spare ≡ None }
        ensures same { IfSome self.old.spare (λ spare. result ≡ Ok spare) }
        ensures spare { IfOk result (CanServe run.now.program.now.kernels run.now.lanes count) }
        ensures err { OnErr result (self.old.spare ≡ None) }
    {
        match self.spare.take() {
            Some(spare) => Ok(spare),
            None => {
                let spare = Spare::new(alloc, run, count)?;
                Ok(spare)
            }
        }
    }

    /// Gives a searcher of the box where a run begins. Memory is wanted only where nothing is kept.
    pub(crate) fn begin<L>(
        &mut self,
        alloc: Global,
        run: &Run<'_, L>,
        start: Start,
    ) -> Result<Searcher, NoMemory>
        requires run { CanSearch run.now (length start.boxes.current) }
        requires kept { IsKeptFor run.now.program.now.kernels run.now.lanes (length start.boxes.current) self.old }
        requires made { IsMadeBy start.changed run.now.program.now.kernels start.boxes.current }
        ensures taken { self.new.spare ≡ None }
        ensures current { IfOk result (λ s. s.boxes.current ≡ start.boxes.current) }
        ensures boxes { IfOk result (λ s. boxes_of s ≡ s.boxes.current ∷ []) }
        ensures below { IfOk result (λ s. below_of s ≡ start.boxes.stack) }
        ensures ready { IfOk result (IsReady run.now) }
        ensures err { OnErr result (self.old.spare ≡ None) }
    {
        let spare = self.take(alloc, run, start.boxes.len())?;
        Ok(Searcher::new(run, start, spare))
    }

    /// Keeps what the next run may use.
    pub(crate) fn keep(&mut self, spare: Spare)
        ensures serves { (kernels : List Kernel) (lanes count : ℕ) → CanServe kernels lanes count spare → IsKeptFor kernels lanes count self.new }
        ensures kept { HasKept self.new }
    {
        self.spare = Some(spare);
    }
}
