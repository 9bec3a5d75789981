//! Drawing numbers.

ghost use Rattle.std.specs.Prelude.{◌≡◌, ◌<◌, ◌≤◌, ◌+◌, ◌++◌, ℕ, map, flat_map, length, vec_capacity, is_none, option_to_list, IfSome, IfNone};
ghost use Rattle.crossbeam_deque.specs.Handles.{SameWorker, worker_flavor, worker_view};
ghost use Rattle.tickets.specs.Seats.{with_drawn};
ghost use Rattle.steal_crew.specs.Numbers.{AreSameNumbers, IsPart};
ghost use Rattle.steal_crew.specs.Rule.{IsAllTaken};
ghost use Rattle.steal_crew.specs.Rights.{right_of, taken_by};
ghost use Rattle.steal_crew.specs.Hands.{IsSameHand, count_of, drawn_of, is_done, own_view};

use crate::hand::Hand;
use crate::steps::{Own, pop, steal};
use crate::victim::Victim;

/// Tries once to take a number of the other hand's deque.
fn rob(victim: &mut Victim) -> Option<u32>
    ensures right { right_of victim.new ≡ right_of victim.old }
    ensures taken { taken_by victim.new ≡ with_drawn result (taken_by victim.old) }
{
    steal(&victim.stealer, &mut victim.pass)
}

/// Tries each of the others once, in order, until one gives a number.
fn rob_any(others: &mut Vec<Victim>) -> Option<u32>
    ensures rights { map right_of others.new.items ≡ map right_of others.old.items }
    ensures taken { AreSameNumbers (flat_map taken_by others.new.items) (with_drawn result (flat_map taken_by others.old.items)) }
{
    for place in 0..others.len() {
        if let Some(number) = rob(&mut others[place]) {
            return Some(number);
        }
    }
    None
}

/// Takes the first own number, and where there is none tries the others.
fn find(own: &mut Own, others: &mut Vec<Victim>) -> Option<u32>
    requires flavor { worker_flavor own.old ≡ 0 }
    requires live { 1 ≤ (worker_view own.old).parts }
    requires within { IsPart (worker_view own.old).taken (worker_view own.old).dealt }
    ensures same { SameWorker own.old own.new }
    ensures parts { (worker_view own.new).parts ≡ (worker_view own.old).parts }
    ensures dealt { (worker_view own.new).dealt ≡ (worker_view own.old).dealt }
    ensures within { IsPart (worker_view own.new).taken (worker_view own.new).dealt }
    ensures rights { map right_of others.new.items ≡ map right_of others.old.items }
    ensures taken { AreSameNumbers ((worker_view own.new).taken ++ flat_map taken_by others.new.items) (with_drawn result ((worker_view own.old).taken ++ flat_map taken_by others.old.items)) }
    ensures all { IfNone result (IsAllTaken (worker_view own.old)) }
{
    if let Some(number) = pop(own) {
        return Some(number);
    }
    rob_any(others)
}

/// Puts a number that was found behind the others.
fn note(drawn: &mut Vec<u32>, found: Option<u32>)
    requires { length drawn.old.items + length (option_to_list found) ≤ vec_capacity drawn.old }
    ensures drawn { drawn.new.items ≡ with_drawn found drawn.old.items }
    ensures capacity { vec_capacity drawn.new ≡ vec_capacity drawn.old }
{
    if let Some(number) = found {
        drawn.push_reserved(number);
    }
}

impl Hand {
    /// Draws the first of its own numbers, or where its own deque is empty one of the others', each of which it tries once, in
    /// order from the next hand on. None only where its own deque was empty at one moment of this call. It takes no memory.
    pub fn take(&mut self) -> Option<u32>
        ensures same { IsSameHand self.old self.new }
        ensures drawn { drawn_of self.new ≡ with_drawn result (drawn_of self.old) }
        ensures below { IfSome result (λ k. k < count_of self.old) }
        ensures few { length (drawn_of self.new) ≤ count_of self.old }
        ensures done { is_done self.new ≡ is_none result }
        ensures own_empty { IfNone result (IsAllTaken (own_view self.old)) }
    {
        let found = find(&mut self.own, &mut self.others);
        note(&mut self.drawn, found);
        self.is_done = found.is_none();
        found
    }

    /// The numbers that it gave, in order.
    pub fn drawn(&self) -> &[u32]
        ensures { result.now ≡ drawn_of self.now }
    {
        self.drawn.as_slice()
    }
}
