//! Single steps on a deque.

ghost use Rattle.std.specs.Prelude.{◌≡◌, ◌<◌, ◌≤◌, ◌+◌, ◌∷◌, ◌++◌, [], IfOk, OnOk, MatchOption};
ghost use Rattle.std.specs.Bool.{OnTrue, OnFalse};
ghost use Rattle.crossbeam_deque.specs.Handles.{view, IsPassOf, SamePass, SameWorker, worker_deque, worker_flavor, worker_view, stealer_deque, stealer_flavor};
ghost use Rattle.steal_crew.specs.Numbers.{IsPart};
ghost use Rattle.steal_crew.specs.Rule.{first_view, pushed, took, IsAllTaken, IsSomeLeft, one_less, one_part, joined};

use crate::deque::{Looks, Merges, Parts, Pops, Pushes, Rule, Steals, View};
use crossbeam_deque::{Pass, Steal, Stealer, Worker};
use memory::NoMemory;
use std::alloc::{AllocError, Global};

pub type Own = Worker<u32, Global, View, Rule>;

pub type Thief = Stealer<u32, Global, View, Rule>;

/// An empty deque, whose one pass has all parts, with room for so many numbers.
pub(crate) fn make(alloc: Global, room: usize) -> Result<Own, AllocError>
    ensures flavor { IfOk result (λ own. worker_flavor own ≡ 0) }
    ensures view { IfOk result (λ own. worker_view own ≡ first_view) }
{
    Own::fifo_as(alloc, room)
}

/// Puts a number behind the others.
pub(crate) fn push(own: &mut Own, number: u32) -> Result<(), NoMemory>
    requires { (worker_view own.old).parts ≡ 1024 }
    ensures same { SameWorker own.old own.new }
    ensures pushed { OnOk result (pushed (worker_view own.old) (number ∷ []) (worker_view own.new)) }
{
    match own.push_as::<Pushes>(number) {
        Ok(()) => Ok(()),
        Err(_number) => Err(NoMemory),
    }
}

/// Takes the first number.
pub(crate) fn pop(own: &mut Own) -> Option<u32>
    requires flavor { worker_flavor own.old ≡ 0 }
    requires live { 1 ≤ (worker_view own.old).parts }
    ensures same { SameWorker own.old own.new }
    ensures taken { MatchOption result
        ((worker_view own.new ≡ worker_view own.old) × IsAllTaken (worker_view own.old))
        (λ x. took (worker_view own.old) (x ∷ []) (worker_view own.new)) }
{
    own.pop_as::<Pops>()
}

/// Tries once to take the first number of another's deque.
pub(crate) fn steal(thief: &Thief, pass: &mut Pass<u32, View>) -> Option<u32>
    requires flavor { stealer_flavor thief.now ≡ 0 }
    requires pass { IsPassOf (stealer_deque thief.now) pass.old }
    requires live { 1 ≤ (view pass.old).parts }
    ensures same { SamePass pass.old pass.new }
    ensures taken { MatchOption result
        (view pass.new ≡ view pass.old)
        (λ x. took (view pass.old) (x ∷ []) (view pass.new)) }
{
    match thief.steal_as::<Steals>(pass) {
        Steal::Success(number) => Some(number),
        Steal::Empty | Steal::Retry => None,
    }
}

/// Moves one part to a new pass.
pub(crate) fn part(own: &mut Own) -> Pass<u32, View>
    requires parts { 1 < (worker_view own.old).parts }
    ensures same { SameWorker own.old own.new }
    ensures pass { IsPassOf (worker_deque own.old) result }
    ensures left { worker_view own.new ≡ one_less (worker_view own.old) }
    ensures right { view result ≡ one_part (worker_view own.old) }
{
    own.another::<Parts>()
}

/// Takes in what another pass has taken, and its parts.
pub(crate) fn merge(own: &mut Own, other: Pass<u32, View>)
    requires pass { IsPassOf (worker_deque own.old) other }
    requires live { 1 ≤ (worker_view own.old).parts }
    requires other_live { 1 ≤ (view other).parts }
    ensures same { SameWorker own.old own.new }
    ensures both { worker_view own.new ≡ joined (worker_view own.old) (view other) }
    ensures within { IsPart (worker_view own.new).taken (worker_view own.new).dealt }
{
    own.absorb::<Merges>(other);
    let _is_empty = look(own);
}

/// Whether the deque was empty at one moment of the call.
pub(crate) fn look(own: &mut Own) -> bool
    requires live { 1 ≤ (worker_view own.old).parts }
    ensures same { SameWorker own.old own.new }
    ensures view { worker_view own.new ≡ worker_view own.old }
    ensures within { IsPart (worker_view own.old).taken (worker_view own.old).dealt }
    ensures all { OnTrue result (IsAllTaken (worker_view own.old)) }
    ensures some { OnFalse result (IsSomeLeft (worker_view own.old)) }
{
    own.len_as::<Looks>() == 0
}
