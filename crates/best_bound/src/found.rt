//! The least number of a subproblem with a solution that any seat has posted.

ghost use Rattle.std.specs.Prelude.{◌≡◌, ◌<◌, ◌+◌, ◌++◌, ◌∷◌, ℕ, [], IfOk};
ghost use Rattle.best_bound.specs.Lists.{Among, with_seen, IsLeastNumber, IsNumberBelow};
ghost use Rattle.best_bound.specs.Seats.{IsFoundSeatOf, found_parts, numbers_seen, numbers_posted, IsNumberSeenAfterPost};

use crate::object::{Found, NumberLaw, Numbers};
use crate::seat::FoundSeat;
use crate::word::{NONE, look, make, part, take_in, tell};
use memory::NoMemory;
use std::alloc::Global;

impl<N: Numbers> Found<N> {
    /// A new object without posts, and its first seat, which has all parts.
    pub fn new(alloc: Global) -> Result<(Found<N>, FoundSeat), NoMemory>
        ensures seat { IfOk result (λ r. IsFoundSeatOf r.0 r.1) }
        ensures parts { IfOk result (λ r. found_parts r.1 ≡ 1024) }
        ensures seen { IfOk result (λ r. numbers_seen r.1 ≡ []) }
        ensures posted { IfOk result (λ r. numbers_posted r.1 ≡ []) }
    {
        let (table, place) = make::<NumberLaw<N>>(alloc)?;
        Ok((Found { table }, FoundSeat { place }))
    }

    /// Posts a number.
    pub fn post(&self, seat: &mut FoundSeat, number: u32)
        requires seat { IsFoundSeatOf self.now seat.old }
        requires passes { N.has_solution number }
        ensures seat { IsFoundSeatOf self.now seat.new }
        ensures parts { found_parts seat.new ≡ found_parts seat.old }
        ensures posted { numbers_posted seat.new ≡ number ∷ numbers_posted seat.old }
        ensures seen { IsNumberSeenAfterPost (numbers_seen seat.old) (numbers_seen seat.new) number }
        ensures passes { (n : ℕ) → Among (numbers_seen seat.new) n → N.has_solution n }
        ensures posts_pass { (n : ℕ) → Among (numbers_posted seat.new) n → N.has_solution n }
        ensures all { found_parts seat.new ≡ 1024 → (n : ℕ) → Among (numbers_seen seat.new) n → Among (numbers_posted seat.new) n }
    {
        tell::<NumberLaw<N>>(&self.table, &mut seat.place, u64::from(number));
    }

    /// Looks at the word, and answers the least number that the seat has then seen.
    pub fn seen(&self, seat: &mut FoundSeat) -> Option<u32>
        requires seat { IsFoundSeatOf self.now seat.old }
        ensures seat { IsFoundSeatOf self.now seat.new }
        ensures parts { found_parts seat.new ≡ found_parts seat.old }
        ensures posted { numbers_posted seat.new ≡ numbers_posted seat.old }
        ensures seen { numbers_seen seat.new ≡ with_seen result (numbers_seen seat.old) }
        ensures least { IsLeastNumber (numbers_seen seat.new) result }
        ensures not_above { IsNumberBelow (numbers_posted seat.new) result }
        ensures passes { (n : ℕ) → Among (numbers_seen seat.new) n → N.has_solution n }
        ensures posts_pass { (n : ℕ) → Among (numbers_posted seat.new) n → N.has_solution n }
        ensures all { found_parts seat.new ≡ 1024 → (n : ℕ) → Among (numbers_seen seat.new) n → Among (numbers_posted seat.new) n }
    {
        let word = look::<NumberLaw<N>>(&self.table, &mut seat.place);
        if word == NONE {
            None
        } else {
            Some(word as u32)
        }
    }

    /// Another seat, with one of the seat's parts, which has seen the same and posted nothing.
    pub fn split(&self, seat: &mut FoundSeat) -> FoundSeat
        requires seat { IsFoundSeatOf self.now seat.old }
        requires parts { 1 < found_parts seat.old }
        ensures seat { IsFoundSeatOf self.now seat.new }
        ensures parts { found_parts seat.new + 1 ≡ found_parts seat.old }
        ensures posted { numbers_posted seat.new ≡ numbers_posted seat.old }
        ensures seen { numbers_seen seat.new ≡ numbers_seen seat.old }
        ensures new_seat { IsFoundSeatOf self.now result }
        ensures new_parts { found_parts result ≡ 1 }
        ensures new_posted { numbers_posted result ≡ [] }
        ensures new_seen { numbers_seen result ≡ numbers_seen seat.old }
    {
        FoundSeat {
            place: part::<NumberLaw<N>>(&self.table, &mut seat.place),
        }
    }

    /// Takes in what another seat has seen and posted, and its parts.
    pub fn join_back(&self, seat: &mut FoundSeat, other: FoundSeat)
        requires seat { IsFoundSeatOf self.now seat.old }
        requires other { IsFoundSeatOf self.now other }
        ensures seat { IsFoundSeatOf self.now seat.new }
        ensures parts { found_parts seat.new ≡ found_parts seat.old + found_parts other }
        ensures posted { numbers_posted seat.new ≡ numbers_posted seat.old ++ numbers_posted other }
        ensures seen { numbers_seen seat.new ≡ numbers_seen seat.old ++ numbers_seen other }
    {
        let FoundSeat { place } = other;
        take_in::<NumberLaw<N>>(&self.table, &mut seat.place, place);
    }
}
