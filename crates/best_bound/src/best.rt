//! The least cost of a solution that any seat has posted.

ghost use Rattle.std.specs.Prelude.{◌≡◌, ◌<◌, ◌+◌, ◌++◌, ◌∷◌, ℤ, [], IfOk};
ghost use Rattle.best_bound.specs.Codes.{none_word, word_of, cost_of};
ghost use Rattle.best_bound.specs.Lists.{Among, with_seen, IsLeastCost, IsCostBelow};
ghost use Rattle.best_bound.specs.Seats.{IsBestSeatOf, best_parts, costs_seen, costs_posted, IsSeenAfterPost, IsCostInRange};

use crate::object::{Best, CostLaw, Costs};
use crate::seat::BestSeat;
use crate::word::{NONE, look, make, part, take_in, tell};
use memory::NoMemory;
use std::alloc::Global;

const MIDDLE: u64 = 9_223_372_036_854_775_808;

/// The word of a cost.
fn cost_word(cost: i64) -> u64
    requires in_range { IsCostInRange cost }
    ensures word { result ≡ word_of cost }
    ensures cost { cost_of result ≡ cost }
    ensures below { result < none_word }
{
    if cost >= 0 {
        cost as u64 + MIDDLE
    } else {
        (cost + i64::MAX + 1) as u64
    }
}

/// The cost of a word.
fn word_cost(word: u64) -> i64
    ensures { result ≡ cost_of word }
{
    if word >= MIDDLE {
        (word - MIDDLE) as i64
    } else {
        word as i64 - i64::MAX - 1
    }
}

impl<C: Costs> Best<C> {
    /// A new object without posts, and its first seat, which has all parts.
    pub fn new(alloc: Global) -> Result<(Best<C>, BestSeat), NoMemory>
        ensures seat { IfOk result (λ r. IsBestSeatOf r.0 r.1) }
        ensures parts { IfOk result (λ r. best_parts r.1 ≡ 1024) }
        ensures seen { IfOk result (λ r. costs_seen r.1 ≡ []) }
        ensures posted { IfOk result (λ r. costs_posted r.1 ≡ []) }
    {
        let (table, place) = make::<CostLaw<C>>(alloc)?;
        Ok((Best { table }, BestSeat { place }))
    }

    /// Posts a cost.
    pub fn post(&self, seat: &mut BestSeat, cost: i64)
        requires seat { IsBestSeatOf self.now seat.old }
        requires passes { C.is_cost cost }
        requires in_range { IsCostInRange cost }
        ensures seat { IsBestSeatOf self.now seat.new }
        ensures parts { best_parts seat.new ≡ best_parts seat.old }
        ensures posted { costs_posted seat.new ≡ cost ∷ costs_posted seat.old }
        ensures seen { IsSeenAfterPost (costs_seen seat.old) (costs_seen seat.new) cost }
        ensures passes { (c : ℤ) → Among (costs_seen seat.new) c → C.is_cost c }
        ensures posts_pass { (c : ℤ) → Among (costs_posted seat.new) c → C.is_cost c }
        ensures all { best_parts seat.new ≡ 1024 → (c : ℤ) → Among (costs_seen seat.new) c → Among (costs_posted seat.new) c }
    {
        let word = cost_word(cost);
        tell::<CostLaw<C>>(&self.table, &mut seat.place, word);
    }

    /// Looks at the word, and answers the least cost that the seat has then seen.
    pub fn seen(&self, seat: &mut BestSeat) -> Option<i64>
        requires seat { IsBestSeatOf self.now seat.old }
        ensures seat { IsBestSeatOf self.now seat.new }
        ensures parts { best_parts seat.new ≡ best_parts seat.old }
        ensures posted { costs_posted seat.new ≡ costs_posted seat.old }
        ensures seen { costs_seen seat.new ≡ with_seen result (costs_seen seat.old) }
        ensures least { IsLeastCost (costs_seen seat.new) result }
        ensures not_above { IsCostBelow (costs_posted seat.new) result }
        ensures passes { (c : ℤ) → Among (costs_seen seat.new) c → C.is_cost c }
        ensures posts_pass { (c : ℤ) → Among (costs_posted seat.new) c → C.is_cost c }
        ensures all { best_parts seat.new ≡ 1024 → (c : ℤ) → Among (costs_seen seat.new) c → Among (costs_posted seat.new) c }
    {
        let word = look::<CostLaw<C>>(&self.table, &mut seat.place);
        if word == NONE {
            None
        } else {
            Some(word_cost(word))
        }
    }

    /// Another seat, with one of the seat's parts, which has seen the same and posted nothing.
    pub fn split(&self, seat: &mut BestSeat) -> BestSeat
        requires seat { IsBestSeatOf self.now seat.old }
        requires parts { 1 < best_parts seat.old }
        ensures seat { IsBestSeatOf self.now seat.new }
        ensures parts { best_parts seat.new + 1 ≡ best_parts seat.old }
        ensures posted { costs_posted seat.new ≡ costs_posted seat.old }
        ensures seen { costs_seen seat.new ≡ costs_seen seat.old }
        ensures new_seat { IsBestSeatOf self.now result }
        ensures new_parts { best_parts result ≡ 1 }
        ensures new_posted { costs_posted result ≡ [] }
        ensures new_seen { costs_seen result ≡ costs_seen seat.old }
    {
        BestSeat {
            place: part::<CostLaw<C>>(&self.table, &mut seat.place),
        }
    }

    /// Takes in what another seat has seen and posted, and its parts.
    pub fn join_back(&self, seat: &mut BestSeat, other: BestSeat)
        requires seat { IsBestSeatOf self.now seat.old }
        requires other { IsBestSeatOf self.now other }
        ensures seat { IsBestSeatOf self.now seat.new }
        ensures parts { best_parts seat.new ≡ best_parts seat.old + best_parts other }
        ensures posted { costs_posted seat.new ≡ costs_posted seat.old ++ costs_posted other }
        ensures seen { costs_seen seat.new ≡ costs_seen seat.old ++ costs_seen other }
    {
        let BestSeat { place } = other;
        take_in::<CostLaw<C>>(&self.table, &mut seat.place, place);
    }
}
