//! Passes that are given back, and a last look at each deque.

ghost use Rattle.std.specs.Prelude.{◌≡◌, ◌≢◌, ◌<◌, ◌≤◌, ◌+◌, ◌++◌, ℕ, [], true, false, map, length, slice_index_or, option_to_list, IfNone};
ghost use Rattle.std.specs.Bool.{OnTrue, OnFalse};
ghost use Rattle.std.specs.List.{All, list_all};
ghost use Rattle.tickets.specs.Counting.{IsEachOnce};
ghost use Rattle.steal_crew.specs.Numbers.{IsOnceAtMost};
ghost use Rattle.steal_crew.specs.Rule.{IsAllTaken, IsSomeLeft};
ghost use Rattle.steal_crew.specs.Rights.{right_of, taken_by};
ghost use Rattle.steal_crew.specs.Hands.{AreHandsOfOneDeal, AreWhole, standing_of, rights_at, all_drawn, dealt_of, taken_of, drawn_of, is_done, own_view};
ghost use Rattle.steal_crew.specs.Settling.{AreKept, AreLookedAt};

use crate::hand::Hand;
use crate::steps::{look, merge};
use crate::victim::Victim;
use tickets::law_counting;

/// Whether each hand has answered that it found no number, and none since.
pub(crate) fn are_done(hands: &[Hand]) -> bool
    ensures { result ≡ list_all is_done hands.now }
{
    hands.iter().all(|hand| hand.is_done)
}

impl Hand {
    /// Gives up the last of its rights.
    fn release(&mut self) -> Option<Victim>
        ensures none { IfNone result (self.old.others.items ≡ []) }
        ensures others { self.old.others.items ≡ self.new.others.items ++ option_to_list result }
        ensures standing { standing_of self.new ≡ record (standing_of self.old) { rights = map right_of self.new.others.items } }
        ensures own { own_view self.new ≡ own_view self.old }
        ensures drawn { drawn_of self.new ≡ drawn_of self.old }
        ensures done { is_done self.new ≡ is_done self.old }
    {
        self.others.pop()
    }

    /// Takes in a pass of its own deque.
    fn take_in(&mut self, victim: Victim)
        requires { (right_of victim).deque ≡ (standing_of self.old).deque }
        ensures standing { standing_of self.new ≡ record (standing_of self.old) { parts = (standing_of self.old).parts + (right_of victim).parts } }
        ensures taken { (own_view self.new).taken ≡ (own_view self.old).taken ++ taken_by victim }
        ensures others { self.new.others ≡ self.old.others }
        ensures drawn { drawn_of self.new ≡ drawn_of self.old }
        ensures done { is_done self.new ≡ is_done self.old }
    {
        let Victim { pass, .. } = victim;
        merge(&mut self.own, pass);
    }

    /// Looks whether its own deque is empty. Where it isn't, the hand isn't done.
    fn check(&mut self)
        ensures standing { standing_of self.new ≡ standing_of self.old }
        ensures own { own_view self.new ≡ own_view self.old }
        ensures others { self.new.others ≡ self.old.others }
        ensures drawn { drawn_of self.new ≡ drawn_of self.old }
        ensures done { is_done self.new ≡ true → is_done self.old ≡ true }
        ensures empty { is_done self.new ≡ true → IsAllTaken (own_view self.old) }
        ensures some { is_done self.old ≡ true → is_done self.new ≡ false → IsSomeLeft (own_view self.old) }
    {
        let is_empty = look(&mut self.own);
        self.is_done = self.is_done && is_empty;
    }
}

/// Gives the last pass that one hand has of another deque back to the hand whose deque it is, and says whether there was one.
fn give_back_one(hands: &mut Vec<Hand>, place: usize) -> bool
    requires place { place < length hands.old.items }
    requires whole { AreWhole (map standing_of hands.old.items) }
    ensures whole { AreWhole (map standing_of hands.new.items) }
    ensures kept { AreKept hands.old.items hands.new.items }
    ensures fewer { OnTrue result (length (rights_at place hands.new.items) < length (rights_at place hands.old.items)) }
    ensures given { OnFalse result (rights_at place hands.new.items ≡ []) }
    ensures others { (i : ℕ) → i ≢ place → rights_at i hands.new.items ≡ rights_at i hands.old.items }
{
    match hands[place].release() {
        None => false,
        Some(victim) => {
            let of = victim.of as usize;
            hands[of].take_in(victim);
            true
        }
    }
}

/// Gives the passes that one hand has of other deques back to the hands whose deques they are.
fn give_back(hands: &mut Vec<Hand>, place: usize)
    requires place { place < length hands.old.items }
    requires whole { AreWhole (map standing_of hands.old.items) }
    ensures whole { AreWhole (map standing_of hands.new.items) }
    ensures kept { AreKept hands.old.items hands.new.items }
    ensures given { rights_at place hands.new.items ≡ [] }
    ensures others { (i : ℕ) → i ≢ place → rights_at i hands.new.items ≡ rights_at i hands.old.items }
{
    'passes: while give_back_one(hands, place) {}
}

/// Gives all passes back to the hands whose deques they are.
fn give_all_back(hands: &mut Vec<Hand>)
    requires { AreWhole (map standing_of hands.old.items) }
    ensures whole { AreWhole (map standing_of hands.new.items) }
    ensures kept { AreKept hands.old.items hands.new.items }
    ensures given { (i : ℕ) → i < length hands.new.items → rights_at i hands.new.items ≡ [] }
{
    for place in 0..hands.len() {
        give_back(hands, place);
    }
}

/// Looks at the own deque of each hand.
fn check_all(hands: &mut Vec<Hand>)
    ensures standings { map standing_of hands.new.items ≡ map standing_of hands.old.items }
    ensures views { map own_view hands.new.items ≡ map own_view hands.old.items }
    ensures taken { map taken_of hands.new.items ≡ map taken_of hands.old.items }
    ensures drawn { map drawn_of hands.new.items ≡ map drawn_of hands.old.items }
    ensures done { (i : ℕ) (d : Hand) → i < length hands.old.items → is_done (slice_index_or hands.new.items i d) ≡ true → is_done (slice_index_or hands.old.items i d) ≡ true }
    ensures empty { All (λ hand. is_done hand ≡ true → IsAllTaken (own_view hand)) hands.new.items }
    ensures some { (i : ℕ) (d : Hand) → i < length hands.old.items → is_done (slice_index_or hands.old.items i d) ≡ true → is_done (slice_index_or hands.new.items i d) ≡ false → IsSomeLeft (own_view (slice_index_or hands.new.items i d)) }
{
    for place in 0..hands.len() {
        hands[place].check();
    }
}

/// Gives all passes back to the hands whose deques they are, and looks at each deque once: a hand whose deque still holds a
/// number isn't done any more. Answers whether all hands are done, and so all numbers drawn: so it is where each hand had answered
/// that it found no number, and each number was drawn. What was drawn stays as it is,
/// and the hands are those of the deal, but each has only its own numbers left to take.
pub fn settle(hands: &mut Vec<Hand>) -> bool
    requires { (n : ℕ) × AreHandsOfOneDeal n hands.old.items }
    ensures deal { (n : ℕ) → AreHandsOfOneDeal n hands.old.items → AreHandsOfOneDeal n hands.new.items }
    ensures drawn { map drawn_of hands.new.items ≡ map drawn_of hands.old.items }
    ensures once { (n : ℕ) → AreHandsOfOneDeal n hands.old.items → IsOnceAtMost n (all_drawn hands.old.items) }
    ensures all { (n : ℕ) → AreHandsOfOneDeal n hands.old.items → OnTrue result (IsEachOnce n (all_drawn hands.old.items)) }
    ensures complete { (n : ℕ) → AreHandsOfOneDeal n hands.old.items → list_all is_done hands.old.items ≡ true → IsEachOnce n (all_drawn hands.old.items) → result ≡ true }
    ensures answer { result ≡ list_all is_done hands.new.items }
    ensures done { OnTrue result (list_all is_done hands.old.items ≡ true) }
    ensures looked { AreLookedAt hands.old.items hands.new.items }
{
    law_counting();
    give_all_back(hands);
    check_all(hands);
    are_done(hands)
}
