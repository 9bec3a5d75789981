//! The object that seats draw from.

ghost use Rattle.std.specs.Prelude.{suc, ◌≡◌, ◌<◌, ◌≤◌, ◌+◌, ◌++◌, max, [], IfOk, IfNone};
ghost use Rattle.tickets.specs.Counting.{IsEachOnce};

use crate::seat::TicketSeat;
use crate::steps::{hear, make, part, step_on_next, take_in};
use crate::table::Table;
use memory::NoMemory;
use std::alloc::Global;

/// Numbers from 0 on that its seats draw, each of them once.
#[derive(Drop)]
pub struct Tickets {
    pub(crate) table: Table,
    pub(crate) count: u32,
    ghost words: { table.shared.table_id.words ≡ suc count },
}

impl Tickets {
    ghost use Rattle.std.specs.Prelude.{◌==◌};
    ghost use Rattle.tickets.specs.Rule.{with_number};
    ghost use Rattle.tickets.specs.Seats.{IsTicketSeatOf, HasTally, IsDraw, count_of, ticket_parts, next_of, numbers_drawn, with_drawn};

    /// An object of the numbers below `count`, and its first seat, which has all parts.
    pub fn new(alloc: Global, count: u32) -> Result<(Tickets, TicketSeat), NoMemory>
        ensures count { IfOk result (λ r. count_of r.0 ≡ count) }
        ensures seat { IfOk result (λ r. IsTicketSeatOf r.0 r.1) }
        ensures parts { IfOk result (λ r. ticket_parts r.1 ≡ 1024) }
        ensures next { IfOk result (λ r. next_of r.1 ≡ 0) }
        ensures drawn { IfOk result (λ r. numbers_drawn r.1 ≡ []) }
    {
        let (table, place) = make(alloc, count)?;
        Ok((Tickets { table, count }, TicketSeat { place, next: 0 }))
    }

    /// Draws a number that no seat has drawn, or none where all are drawn.
    pub fn draw(&self, seat: &mut TicketSeat) -> Option<u32>
        requires { IsTicketSeatOf self.now seat.old }
        ensures seat { IsTicketSeatOf self.now seat.new }
        ensures parts { ticket_parts seat.new ≡ ticket_parts seat.old }
        ensures drawn { numbers_drawn seat.new ≡ with_drawn result (numbers_drawn seat.old) }
        ensures next { IsDraw (count_of self.now) (next_of seat.old) (next_of seat.new) result }
        ensures no_step { next_of seat.old ≡ count_of self.now → seat.new ≡ seat.old }
        ensures tally { HasTally self.now seat.new }
        ensures each_once { ticket_parts seat.new ≡ 1024 → IfNone result (IsEachOnce (count_of self.now) (numbers_drawn seat.new)) }
    {
        while seat.next < self.count {
            let number = seat.next;
            if self.step(seat) == 0 {
                return Some(number);
            }
        }
        None
    }

    /// Steps on the word of the next number, and answers what it was.
    fn step(&self, seat: &mut TicketSeat) -> u64
        requires seat { IsTicketSeatOf self.now seat.old }
        requires below { next_of seat.old < count_of self.now }
        ensures seat { IsTicketSeatOf self.now seat.new }
        ensures parts { ticket_parts seat.new ≡ ticket_parts seat.old }
        ensures next { next_of seat.new ≡ next_of seat.old + 1 }
        ensures drew { numbers_drawn seat.new ≡ with_number (result == 0) (numbers_drawn seat.old) (next_of seat.old) }
    {
        let word = step_on_next(&self.table, &mut seat.place, seat.next);
        seat.next += 1;
        word
    }

    /// Another seat, with one of the seat's parts and the same next number, which has drawn nothing.
    pub fn split(&self, seat: &mut TicketSeat) -> TicketSeat
        requires seat { IsTicketSeatOf self.now seat.old }
        requires parts { 1 < ticket_parts seat.old }
        ensures seat { IsTicketSeatOf self.now seat.new }
        ensures parts { ticket_parts seat.new + 1 ≡ ticket_parts seat.old }
        ensures next { next_of seat.new ≡ next_of seat.old }
        ensures drawn { numbers_drawn seat.new ≡ numbers_drawn seat.old }
        ensures new_seat { IsTicketSeatOf self.now result }
        ensures new_parts { ticket_parts result ≡ 1 }
        ensures new_next { next_of result ≡ next_of seat.old }
        ensures new_drawn { numbers_drawn result ≡ [] }
    {
        let place = part(&self.table, &mut seat.place);
        TicketSeat {
            place,
            next: seat.next,
        }
    }

    /// Takes in what another seat has drawn, and its parts.
    pub fn join_back(&self, seat: &mut TicketSeat, other: TicketSeat)
        requires seat { IsTicketSeatOf self.now seat.old }
        requires other { IsTicketSeatOf self.now other }
        ensures seat { IsTicketSeatOf self.now seat.new }
        ensures parts { ticket_parts seat.new ≡ ticket_parts seat.old + ticket_parts other }
        ensures next { next_of seat.new ≡ max (next_of seat.old) (next_of other) }
        ensures drawn { numbers_drawn seat.new ≡ numbers_drawn seat.old ++ numbers_drawn other }
        ensures tally { HasTally self.now seat.new }
    {
        let TicketSeat { place, next } = other;
        take_in(&self.table, &mut seat.place, place);
        hear(&self.table, &mut seat.place);
        if next > seat.next {
            seat.next = next;
        }
    }
}
