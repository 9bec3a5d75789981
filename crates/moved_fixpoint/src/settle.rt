//! Rounds until one moves nothing, the box is crossed or a limit is spent.

ghost use Rattle.std.specs.Prelude.{◌≡◌, ◌≢◌, ◌↔◌, length, IsTrue, IfOk, OnErr};
ghost use Rattle.std.specs.List.{All};
ghost use Rattle.interval.specs.Boxes.{IsProper};
ghost use Rattle.guarded_tell.specs.Kernels.{IsKernel};
ghost use Rattle.fixpoint_laws.specs.Rounds.{HaveRun};
ghost use Rattle.fixpoint_laws.specs.LimitedEnds.{IfFixedIn};
ghost use Rattle.moved_fixpoint.specs.Moved.{AreMasksOf, AreMovedOrQuiet, Fit, IsEmpty, count_of};
ghost use Rattle.moved_fixpoint.specs.Resting.{AreResting, FitRests, KeepStacks, Knows};
ghost use Rattle.moved_fixpoint.specs.Asked.{AreAtRest};
ghost use Rattle.moved_fixpoint.specs.Round.{IsRound};
ghost use Rattle.moved_fixpoint.specs.Heard.{Becomes};
ghost use Rattle.moved_fixpoint.specs.Sweeps.{sweep_by};
ghost use Rattle.moved_fixpoint.specs.Ends.{HasEnded};

use crate::drawing::draw;
use crate::joiner::Progress;
use crate::round::{run_down, run_up};
use crate::sets::{AskedSets, MovedSets};
use fixpoint_laws::{Limited, law_rounds_lead};
use guarded_tell::Kernel;
use interval::{is_crossed, law_inside_order};
use memory::NoMemory;
use moved_set::Masks;
use trailed_box::TrailedBox;

/// Runs one round, in the order of the kernels or against it.
fn run_round(
    up: bool,
    kernels: &[Kernel],
    masks: &Masks,
    b: &mut TrailedBox,
    sets: &mut AskedSets,
    visits: &mut u64,
) -> Progress
    requires kernels { All (IsKernel (length b.old.current)) kernels.now }
    requires masks { AreMasksOf kernels.now (length b.old.current) masks.now }
    requires set { count_of sets.old.asked ≡ length kernels.now }
    requires rests { FitRests (length kernels.now) sets.old.rests }
    requires proper { IsProper b.old.current }
    requires at_rest { AreAtRest sets.old.asked sets.old.rests b.old.current kernels.now }
    ensures stack { b.new.stack ≡ b.old.stack }
    ensures rests { FitRests (length kernels.now) sets.new.rests }
    ensures stacks { KeepStacks sets.old.rests sets.new.rests }
    ensures round { IsRound kernels.now b.old.current b.new.current sets.new.asked sets.new.rests result }
    ensures swept { Becomes (sweep_by up kernels.now b.old.current) result b.new.current }
{
    if up {
        run_up(kernels, masks, b, sets, visits)
    } else {
        run_down(kernels, masks, b, sets, visits)
    }
}

/// Whether so many rounds are as many as the limit.
fn are_spent(round_limit: u64, rounds: u128) -> bool
    ensures { IsTrue result ↔ ((round_limit ≢ 0) × (rounds ≡ round_limit)) }
{
    round_limit != 0 && rounds == round_limit as u128
}

/// Runs rounds up and down the kernels in turn.
fn run_rounds(
    b: &mut TrailedBox,
    kernels: &[Kernel],
    masks: &Masks,
    sets: &mut AskedSets,
    visits: &mut u64,
    round_limit: u64,
) -> Result<Limited, NoMemory>
    requires kernels { All (IsKernel (length b.old.current)) kernels.now }
    requires masks { AreMasksOf kernels.now (length b.old.current) masks.now }
    requires set { count_of sets.old.asked ≡ length kernels.now }
    requires rests { FitRests (length kernels.now) sets.old.rests }
    requires proper { IsProper b.old.current }
    requires at_rest { AreAtRest sets.old.asked sets.old.rests b.old.current kernels.now }
    ensures stack { b.new.stack ≡ b.old.stack }
    ensures empty { IsEmpty sets.new.asked }
    ensures set { count_of sets.new.asked ≡ length kernels.now }
    ensures rests { FitRests (length kernels.now) sets.new.rests }
    ensures stacks { KeepStacks sets.old.rests sets.new.rests }
    ensures resting { IfOk result (λ ending. IfFixedIn ending (λ rounds. AreResting sets.new.rests.open.current sets.new.rests.alert.current b.new.current kernels.now)) }
    ensures ends { IfOk result (HasEnded kernels.now round_limit b.old.current b.new.current) }
    ensures err { OnErr result (HaveRun kernels.now b.old.current b.new.current) }
{
    law_inside_order();
    law_rounds_lead();
    // its contract says that the bounds are in range, so that the rounds fit
    let _length = b.len();
    let mut rounds: u128 = 0;
    let mut up = true;
    'rounds: loop {
        rounds += 1;
        match run_round(up, kernels, masks, b, sets, visits) {
            Progress::Still => {
                // it is empty already, and now its sweeps pass over all of it at once
                sets.asked.clear();
                return Ok(Limited::Fixed { rounds });
            }
            Progress::Moved => {}
            Progress::Crossed => {
                sets.asked.clear();
                return Ok(Limited::Failed { rounds });
            }
            Progress::Refused => {
                sets.asked.clear();
                return Err(NoMemory);
            }
        }
        if are_spent(round_limit, rounds) {
            sets.asked.clear();
            return Ok(Limited::RoundsSpent { rounds });
        }
        up = !up;
    }
}

/// Narrows the proper box of `b` to the greatest closed box inside it, in rounds that visit only those kernels of which some
/// variable moved since their last visit and that don't rest, until a round moves nothing. Where no closed box is inside, the
/// box ends crossed. After `round_limit` rounds (0: no limit) it stops. Each kernel that names none of the variables of
/// `sets.moved` has to be quiet on the box, and those that aren't open or alert to rest; that set is empty then, and no kernel
/// is asked. The stacks stay as they are. Errors: memory.
pub fn settle_proper(
    b: &mut TrailedBox,
    kernels: &[Kernel],
    masks: &Masks,
    sets: &mut MovedSets,
    round_limit: u64,
) -> Result<Limited, NoMemory>
    requires kernels { All (IsKernel (length b.old.current)) kernels.now }
    requires masks { AreMasksOf kernels.now (length b.old.current) masks.now }
    requires sets { Fit (length b.old.current) (length kernels.now) sets.old.moved sets.old.asking.asked }
    requires rests { FitRests (length kernels.now) sets.old.asking.rests }
    requires quiet { AreMovedOrQuiet sets.old.moved b.old.current kernels.now }
    requires knows { Knows sets.old.asking.asked sets.old.asking.rests.open.current sets.old.asking.rests.alert.current sets.old.moved b.old.current kernels.now }
    requires proper { IsProper b.old.current }
    ensures stack { b.new.stack ≡ b.old.stack }
    ensures sets { Fit (length b.old.current) (length kernels.now) sets.new.moved sets.new.asking.asked }
    ensures empty { IsEmpty sets.new.moved }
    ensures none_asked { IsEmpty sets.new.asking.asked }
    ensures rests { FitRests (length kernels.now) sets.new.asking.rests }
    ensures stacks { KeepStacks sets.old.asking.rests sets.new.asking.rests }
    ensures resting { IfOk result (λ ending. IfFixedIn ending (λ rounds. AreResting sets.new.asking.rests.open.current sets.new.asking.rests.alert.current b.new.current kernels.now)) }
    ensures ends { IfOk result (HasEnded kernels.now round_limit b.old.current b.new.current) }
    ensures err { OnErr result (HaveRun kernels.now b.old.current b.new.current) }
{
    law_inside_order();
    draw(masks, &sets.moved, b.current(), &mut sets.asking);
    sets.moved.clear();
    run_rounds(
        b,
        kernels,
        masks,
        &mut sets.asking,
        &mut sets.visits,
        round_limit,
    )
}

/// Narrows the box of `b` in the same way, which may be crossed. Errors: memory.
pub fn settle_moved(
    b: &mut TrailedBox,
    kernels: &[Kernel],
    masks: &Masks,
    sets: &mut MovedSets,
    round_limit: u64,
) -> Result<Limited, NoMemory>
    requires kernels { All (IsKernel (length b.old.current)) kernels.now }
    requires masks { AreMasksOf kernels.now (length b.old.current) masks.now }
    requires sets { Fit (length b.old.current) (length kernels.now) sets.old.moved sets.old.asking.asked }
    requires rests { FitRests (length kernels.now) sets.old.asking.rests }
    requires quiet { AreMovedOrQuiet sets.old.moved b.old.current kernels.now }
    requires knows { Knows sets.old.asking.asked sets.old.asking.rests.open.current sets.old.asking.rests.alert.current sets.old.moved b.old.current kernels.now }
    ensures stack { b.new.stack ≡ b.old.stack }
    ensures sets { Fit (length b.old.current) (length kernels.now) sets.new.moved sets.new.asking.asked }
    ensures empty { IsEmpty sets.new.moved }
    ensures none_asked { IsEmpty sets.new.asking.asked }
    ensures rests { FitRests (length kernels.now) sets.new.asking.rests }
    ensures stacks { KeepStacks sets.old.asking.rests sets.new.asking.rests }
    ensures resting { IfOk result (λ ending. IfFixedIn ending (λ rounds. AreResting sets.new.asking.rests.open.current sets.new.asking.rests.alert.current b.new.current kernels.now)) }
    ensures ends { IfOk result (HasEnded kernels.now round_limit b.old.current b.new.current) }
    ensures err { OnErr result (HaveRun kernels.now b.old.current b.new.current) }
{
    law_inside_order();
    if is_crossed(b.current()) {
        sets.moved.clear();
        sets.asking.asked.clear();
        return Ok(Limited::Failed { rounds: 0 });
    }
    settle_proper(b, kernels, masks, sets, round_limit)
}
