//! A deal of numbers to hands.

ghost use Rattle.std.specs.Prelude.{◌≡◌, ◌≢◌, ◌<◌, ◌≤◌, ◌+◌, ◌^◌, ◌++◌, ℕ, [], map, flat_map, length, false, slice_index_or, IfOk, OnOk};
ghost use Rattle.std.specs.List.{All};
ghost use Rattle.crossbeam_deque.specs.Handles.{SameWorker, worker_view};
ghost use Rattle.steal_crew.specs.Numbers.{IsPart, numbers_below, share};
ghost use Rattle.steal_crew.specs.Rule.{first_view, view_of};
ghost use Rattle.steal_crew.specs.Rights.{right_of, taken_by, dealt_to};
ghost use Rattle.steal_crew.specs.Hands.{AreHandsOfOneDeal, Standing, standing_of, rights_at, count_of, dealt_of, drawn_of, is_done, own_view};
ghost use Rattle.steal_crew.specs.Dealing.{IsUndrawn, IsFresh, AreFresh, AreBeingDealt, less_one, lent, right_at, with_right, others_from};

use crate::hand::Hand;
use crate::steps::{Own, make, part, push};
use crate::victim::Victim;
use memory::NoMemory;
use std::alloc::Global;

/// Puts the numbers below n that leave this rest by the number of workers into a deque, rising.
fn push_share(own: &mut Own, n: u32, workers: u32, rest: u32) -> Result<(), NoMemory>
    requires rest { rest < workers }
    requires empty { worker_view own.old ≡ first_view }
    ensures same { SameWorker own.old own.new }
    ensures share { OnOk result (worker_view own.new ≡ view_of 1024 (share n workers rest) []) }
{
    let mut next = u64::from(rest);
    while next < u64::from(n) {
        push(own, next as u32)?;
        next += u64::from(workers);
    }
    Ok(())
}

/// A hand with its share of the numbers, which has no right at another deque yet.
fn deal_one(alloc: Global, n: u32, workers: u32, rest: u32) -> Result<Hand, NoMemory>
    requires { rest < workers }
    ensures fresh { IfOk result (IsFresh n) }
    ensures dealt { IfOk result (λ hand. dealt_of hand ≡ share n workers rest) }
{
    let mut own = make(alloc, (n / workers) as usize + 1)?;
    push_share(&mut own, n, workers, rest)?;
    let drawn = Vec::with_capacity(alloc, n as usize)?;
    Ok(Hand {
        own,
        others: Vec::new(alloc),
        drawn,
        count: n,
        is_done: false,
    })
}

/// A hand for each worker, none of which has a right at another deque yet.
fn deal_each(alloc: Global, n: u32, workers: u32) -> Result<Vec<Hand>, NoMemory>
    ensures { IfOk result (λ hands. AreFresh n workers workers hands.items) }
{
    let mut hands = Vec::with_capacity(alloc, workers as usize)?;
    for rest in 0..workers {
        let hand = deal_one(alloc, n, workers, rest)?;
        hands.push_reserved(hand);
    }
    Ok(hands)
}

impl Hand {
    /// A right at its own deque, for another hand. It is number `of`.
    fn lend(&mut self, of: u32) -> Result<Victim, NoMemory>
        requires parts { 1 < (own_view self.old).parts }
        requires undrawn { IsUndrawn self.old }
        ensures standing { OnOk result (standing_of self.new ≡ less_one (standing_of self.old)) }
        ensures undrawn { IsUndrawn self.new }
        ensures right { IfOk result (λ victim. right_of victim ≡ right_at of (standing_of self.old)) }
        ensures taken { IfOk result (λ victim. taken_by victim ≡ []) }
    {
        let stealer = self.own.stealer()?;
        Ok(Victim {
            of,
            stealer,
            pass: part(&mut self.own),
        })
    }

    /// Gets a right at the deque of another, which it tries after those that it has.
    fn accept(&mut self, victim: Victim) -> Result<(), NoMemory>
        requires undrawn { IsUndrawn self.old }
        requires taken { taken_by victim ≡ [] }
        requires part { IsPart (dealt_of self.old ++ (flat_map dealt_to self.old.others.items ++ dealt_to victim)) (numbers_below (count_of self.old)) }
        ensures standing { OnOk result (standing_of self.new ≡ with_right (standing_of self.old) (right_of victim)) }
        ensures undrawn { IsUndrawn self.new }
    {
        match self.others.push(victim) {
            Ok(()) => Ok(()),
            Err(_refused) => Err(NoMemory),
        }
    }
}

/// A hand gets a right at the deque of another, with one of its parts.
fn lend(hands: &mut Vec<Hand>, robber: usize, of: usize) -> Result<(), NoMemory>
    requires robber { robber < length hands.old.items }
    requires of { of < length hands.old.items }
    requires numbered { of < 2 ^ 32 }
    requires apart { of ≢ robber }
    requires parts { (d : Hand) → 1 < (own_view (slice_index_or hands.old.items of d)).parts }
    requires undrawn { All IsUndrawn hands.old.items }
    requires part { (d : Hand) → let hand = slice_index_or hands.old.items robber d in IsPart (dealt_of hand ++ (flat_map dealt_to hand.others.items ++ dealt_of (slice_index_or hands.old.items of d))) (numbers_below (count_of hand)) }
    ensures standings { (d : Standing) → OnOk result (map standing_of hands.new.items ≡ lent d (map standing_of hands.old.items) robber of) }
    ensures undrawn { All IsUndrawn hands.new.items }
{
    let victim = hands[of].lend(of as u32)?;
    hands[robber].accept(victim)
}

/// The place that comes so many places behind another, the first after the last.
fn place_after(place: usize, steps: usize, count: usize) -> usize
    requires place { place < count }
    requires steps { steps < count }
    ensures ahead { place + steps < count → result ≡ place + steps }
    ensures around { count ≤ place + steps → result + count ≡ place + steps }
{
    if steps < count - place {
        place + steps
    } else {
        steps - (count - place)
    }
}

/// A hand gets a right at the deque of each other, from the next one on.
fn lend_each(hands: &mut Vec<Hand>, robber: usize) -> Result<(), NoMemory>
    requires few { length hands.old.items ≤ 64 }
    requires robber { robber < length hands.old.items }
    requires none { rights_at robber hands.old.items ≡ [] }
    requires undrawn { All IsUndrawn hands.old.items }
    requires dealing { AreBeingDealt (map standing_of hands.old.items) }
    ensures undrawn { All IsUndrawn hands.new.items }
    ensures dealing { OnOk result (AreBeingDealt (map standing_of hands.new.items)) }
    ensures count { OnOk result (map count_of hands.new.items ≡ map count_of hands.old.items) }
    ensures dealt { OnOk result (map dealt_of hands.new.items ≡ map dealt_of hands.old.items) }
    ensures rights { OnOk result (map (λ r. r.of) (rights_at robber hands.new.items) ≡ others_from robber (numbers_below (length hands.old.items))) }
    ensures others { (i : ℕ) → i ≢ robber → OnOk result (rights_at i hands.new.items ≡ rights_at i hands.old.items) }
{
    let count = hands.len();
    for passed in 0..count - 1 {
        lend(hands, robber, place_after(robber, passed + 1, count))?;
    }
    Ok(())
}

/// Each hand gets a right at the deque of each other.
fn lend_all(hands: &mut Vec<Hand>) -> Result<(), NoMemory>
    requires few { length hands.old.items ≤ 64 }
    requires none { (i : ℕ) → rights_at i hands.old.items ≡ [] }
    requires undrawn { All IsUndrawn hands.old.items }
    requires dealing { AreBeingDealt (map standing_of hands.old.items) }
    ensures undrawn { All IsUndrawn hands.new.items }
    ensures dealing { OnOk result (AreBeingDealt (map standing_of hands.new.items)) }
    ensures count { OnOk result (map count_of hands.new.items ≡ map count_of hands.old.items) }
    ensures dealt { OnOk result (map dealt_of hands.new.items ≡ map dealt_of hands.old.items) }
    ensures rights { (i : ℕ) → i < length hands.old.items → OnOk result (map (λ r. r.of) (rights_at i hands.new.items) ≡ others_from i (numbers_below (length hands.old.items))) }
{
    for robber in 0..hands.len() {
        lend_each(hands, robber)?;
    }
    Ok(())
}

/// Deals the numbers below n to so many hands: hand w gets those that leave the rest w by the number of workers, rising, and a
/// right at the deque of each other hand, from the next one on. Each hand has room for all numbers. NoMemory where memory is
/// refused.
pub fn deal(alloc: Global, n: u32, workers: u32) -> Result<Vec<Hand>, NoMemory>
    requires some { 1 ≤ workers }
    requires few { workers ≤ 64 }
    ensures hands { IfOk result (λ hands. AreHandsOfOneDeal n hands.items) }
    ensures length { IfOk result (λ hands. length hands.items ≡ workers) }
    ensures shares { IfOk result (λ hands. map dealt_of hands.items ≡ map (share n workers) (numbers_below workers)) }
    ensures rights { IfOk result (λ hands. (i : ℕ) → i < workers → map (λ r. r.of) (rights_at i hands.items) ≡ others_from i (numbers_below workers)) }
    ensures drawn { IfOk result (λ hands. All (λ hand. drawn_of hand ≡ []) hands.items) }
    ensures idle { IfOk result (λ hands. All (λ hand. is_done hand ≡ false) hands.items) }
{
    let mut hands = deal_each(alloc, n, workers)?;
    lend_all(&mut hands)?;
    Ok(hands)
}
