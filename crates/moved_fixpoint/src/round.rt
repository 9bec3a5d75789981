//! One round of the kernels that are asked.

ghost use Rattle.std.specs.Prelude.{◌≡◌, length};
ghost use Rattle.std.specs.List.{All};
ghost use Rattle.interval.specs.Boxes.{IsProper};
ghost use Rattle.guarded_tell.specs.Kernels.{IsKernel};
ghost use Rattle.moved_fixpoint.specs.Moved.{AreMasksOf, count_of};
ghost use Rattle.moved_fixpoint.specs.Resting.{FitRests, KeepStacks};
ghost use Rattle.moved_fixpoint.specs.Asked.{AreAtRest};
ghost use Rattle.moved_fixpoint.specs.Round.{IsRound};
ghost use Rattle.moved_fixpoint.specs.Heard.{Becomes};
ghost use Rattle.moved_fixpoint.specs.Sweeps.{sweep_back, sweep_forth};

use crate::joiner::Progress;
use crate::running::run_kernel;
use crate::sets::AskedSets;
use guarded_tell::{Kernel, law_local, law_tell_place};
use interval::law_inside_order;
use moved_set::Masks;
use trailed_box::TrailedBox;

/// What a visit costs of a kernel of at most three variables, and of each other one besides its variables, in units of work.
const SHORT_VISIT: u64 = 4;

/// Counts the visits of a round, all at once, so that a visit costs no more for it.
#[inline(always)]
fn count(visited: usize, visits: &mut u64) {
    *visits = visits.saturating_add(SHORT_VISIT.saturating_mul(visited as u64));
}

/// Runs the kernels that are asked, in their order, says how far the round came, and counts the visits, which no contract speaks of.
pub(crate) fn run_up(
    kernels: &[Kernel],
    masks: &Masks,
    b: &mut TrailedBox,
    sets: &mut AskedSets,
    visits: &mut u64,
) -> Progress
    requires kernels { All (IsKernel (length b.old.current)) kernels.now }
    requires masks { AreMasksOf kernels.now (length b.old.current) masks.now }
    requires set { count_of sets.old.asked ≡ length kernels.now }
    requires rests { FitRests (length kernels.now) sets.old.rests }
    requires proper { IsProper b.old.current }
    requires at_rest { AreAtRest sets.old.asked sets.old.rests b.old.current kernels.now }
    ensures stack { b.new.stack ≡ b.old.stack }
    ensures rests { FitRests (length kernels.now) sets.new.rests }
    ensures stacks { KeepStacks sets.old.rests sets.new.rests }
    ensures round { IsRound kernels.now b.old.current b.new.current sets.new.asked sets.new.rests result }
    ensures swept { Becomes (sweep_forth kernels.now b.old.current) result b.new.current }
{
    law_inside_order();
    law_local();
    law_tell_place();
    let mut progress = Progress::Still;
    let mut visited: usize = 0;
    let mut place = sets.asked.next(0);
    'kernels: while place < kernels.len() {
        progress = run_kernel(kernels, masks, place, b, sets, progress);
        visited += 1;
        if !progress.goes_on() {
            count(visited, visits);
            return progress;
        }
        place = sets.asked.next(place + 1);
    }
    count(visited, visits);
    progress
}

/// Runs the kernels that are asked, the last one first, says how far the round came, and counts the visits.
pub(crate) fn run_down(
    kernels: &[Kernel],
    masks: &Masks,
    b: &mut TrailedBox,
    sets: &mut AskedSets,
    visits: &mut u64,
) -> Progress
    requires kernels { All (IsKernel (length b.old.current)) kernels.now }
    requires masks { AreMasksOf kernels.now (length b.old.current) masks.now }
    requires set { count_of sets.old.asked ≡ length kernels.now }
    requires rests { FitRests (length kernels.now) sets.old.rests }
    requires proper { IsProper b.old.current }
    requires at_rest { AreAtRest sets.old.asked sets.old.rests b.old.current kernels.now }
    ensures stack { b.new.stack ≡ b.old.stack }
    ensures rests { FitRests (length kernels.now) sets.new.rests }
    ensures stacks { KeepStacks sets.old.rests sets.new.rests }
    ensures round { IsRound kernels.now b.old.current b.new.current sets.new.asked sets.new.rests result }
    ensures swept { Becomes (sweep_back kernels.now b.old.current) result b.new.current }
{
    law_inside_order();
    law_local();
    law_tell_place();
    let mut progress = Progress::Still;
    let mut visited: usize = 0;
    let mut left = sets.asked.next_back(kernels.len());
    'kernels: while left > 0 {
        let place = left - 1;
        progress = run_kernel(kernels, masks, place, b, sets, progress);
        visited += 1;
        if !progress.goes_on() {
            count(visited, visits);
            return progress;
        }
        left = sets.asked.next_back(place);
    }
    count(visited, visits);
    progress
}
