//! Kernels are asked because a variable moved: those that name it and heed that.

ghost use Rattle.std.specs.Prelude.{◌≡◌, ◌<◌, ◌↔◌, ℕ, length, IsTrue};
ghost use Rattle.std.specs.List.{All};
ghost use Rattle.kernel_visits.specs.Rests.{IsFixedAt};
ghost use Rattle.moved_set.specs.Sets.{IsIn, set_at, side_set_at};
ghost use Rattle.moved_fixpoint.specs.Moved.{count_of};
ghost use Rattle.moved_fixpoint.specs.Resting.{FitRests};
ghost use Rattle.moved_fixpoint.specs.Asked.{AreAskedFor, AreDrawn, has_one, heard_at, IsAskedBy};

use crate::rests::Rests;
use crate::sets::AskedSets;
use guarded_tell::Tell;
use interval::BoxOf;
use moved_set::{AskedSet, Masks, MovedSet};

/// Whether the variable has one number left.
fn is_fixed(b: &BoxOf, v: u32) -> bool
    requires { v < length b.now }
    ensures { IsTrue result ↔ IsFixedAt b.now v }
{
    b.low(v) == b.high(v)
}

/// Whether the first variable is at least 1: then kernels are asked by side.
pub(crate) fn has_one(b: &BoxOf) -> bool
    ensures { result ≡ has_one b.now }
{
    b.len() > 0 && b.low(0) >= 1
}

/// Asks the kernels that name a variable that moved: where it is fixed all that are open, else those that are alert too.
fn ask_either(masks: &Masks, v: u32, b: &BoxOf, rests: &Rests, asked: &mut AskedSet)
    requires variable { v < masks.now.count }
    requires length { masks.now.count ≡ length b.now }
    requires set { count_of asked.old ≡ length masks.now.sets }
    requires rests { FitRests (length masks.now.sets) rests.now }
    ensures { IsAskedBy (λ j. set_at masks.now j) rests.now b.now v asked.old asked.new }
{
    if is_fixed(b, v) {
        masks.ask_in(v, &rests.open, asked);
    } else {
        masks.ask_in_both(v, &rests.open, &rests.alert, asked);
    }
}

/// The same of those that are asked by the bound of a tell.
#[inline(always)]
fn ask_side(masks: &Masks, t: Tell, b: &BoxOf, rests: &Rests, asked: &mut AskedSet)
    requires variable { t.var < masks.now.count }
    requires length { masks.now.count ≡ length b.now }
    requires set { count_of asked.old ≡ length masks.now.sets }
    requires rests { FitRests (length masks.now.sets) rests.now }
    ensures { IsAskedBy (λ j. side_set_at masks.now t.side j) rests.now b.now t.var asked.old asked.new }
{
    if is_fixed(b, t.var) {
        masks.ask_side_in(t.var, t.side, &rests.open, asked);
    } else {
        masks.ask_side_in_both(t.var, t.side, &rests.open, &rests.alert, asked);
    }
}

/// Asks for a tell, by its side or by its variable alone.
#[inline(always)]
pub(crate) fn ask(
    masks: &Masks,
    t: Tell,
    by_side: bool,
    b: &BoxOf,
    rests: &Rests,
    asked: &mut AskedSet,
)
    requires variable { t.var < masks.now.count }
    requires length { masks.now.count ≡ length b.now }
    requires set { count_of asked.old ≡ length masks.now.sets }
    requires rests { FitRests (length masks.now.sets) rests.now }
    ensures { IsAskedBy (λ j. heard_at masks.now by_side t.side j) rests.now b.now t.var asked.old asked.new }
{
    if by_side {
        ask_side(masks, t, b, rests, asked);
    } else {
        ask_either(masks, t.var, b, rests, asked);
    }
}

/// Asks for each of these variables.
fn ask_each(masks: &Masks, variables: &[u32], b: &BoxOf, rests: &Rests, asked: &mut AskedSet)
    requires variables { All (λ v. v < masks.now.count) variables.now }
    requires length { masks.now.count ≡ length b.now }
    requires set { count_of asked.old ≡ length masks.now.sets }
    requires rests { FitRests (length masks.now.sets) rests.now }
    ensures count { count_of asked.new ≡ count_of asked.old }
    ensures kept { (j : ℕ) → IsIn asked.old j → IsIn asked.new j }
    ensures asked { AreAskedFor masks.now rests.now b.now variables.now asked.new }
{
    for v in variables {
        ask_either(masks, *v, b, rests, asked);
    }
}

/// What was noted is drawn: the kernels are asked that name a variable that moved and heed that; where too many moved to be
/// listed, all kernels.
pub(crate) fn draw(masks: &Masks, moved: &MovedSet, b: &BoxOf, sets: &mut AskedSets)
    requires moved { count_of moved.now ≡ masks.now.count }
    requires length { masks.now.count ≡ length b.now }
    requires set { count_of sets.old.asked ≡ length masks.now.sets }
    requires rests { FitRests (length masks.now.sets) sets.old.rests }
    ensures count { count_of sets.new.asked ≡ count_of sets.old.asked }
    ensures rests { sets.new.rests ≡ sets.old.rests }
    ensures drawn { AreDrawn masks.now moved.now sets.old.rests b.now sets.old.asked sets.new.asked }
{
    match moved.few() {
        Some(variables) => ask_each(masks, variables, b, &sets.rests, &mut sets.asked),
        None => sets.asked.ask_all(),
    }
}
