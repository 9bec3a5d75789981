//! Numbers drawn by tickets.

ghost use Rattle.std.specs.Prelude.{◌≡◌, ◌+◌, ◌++◌, ◌≤◌, ℕ, [], true, length, sum_by, flat_map, IfOk};
ghost use Rattle.std.specs.Bool.{OnTrue};
ghost use Rattle.std.specs.List.{All};
ghost use Rattle.tickets.specs.Counting.{times, IsEachOnce};
ghost use Rattle.tickets.specs.Seats.{IsTicketSeatOf, count_of, next_of, ticket_parts, numbers_drawn};
ghost use Rattle.crew.specs.Rights.{AreDrawn};
ghost use Rattle.crew.specs.TicketRights.{HasPassedTickets, tickets_left, HasAsManyParts, HaveAllParts};

use crate::source::{Dealt, Source};
use memory::NoMemory;
use std::alloc::Global;
use tickets::{TicketSeat, Tickets};

impl Source<TicketSeat> for Tickets {
    ghost count = { count_of };

    ghost is_right = { IsTicketSeatOf };

    ghost drawn = { numbers_drawn };

    ghost has_passed = { HasPassedTickets };

    ghost most_left = { tickets_left };

    ghost same = { HasAsManyParts };

    ghost are_dealt = { λ _. HaveAllParts };

    fn next(&self, right: &mut TicketSeat) -> Option<u32> {
        self.draw(right)
    }

    fn gather(self, rights: Vec<TicketSeat>) -> bool
        requires rights { All (IsTicketSeatOf self) rights.items }
        requires all { AreDrawn HaveAllParts HasAsManyParts rights.items }
        ensures once { (k : ℕ) → times k (flat_map numbers_drawn rights.items) ≤ 1 }
        ensures below { (k : ℕ) → count_of self ≤ k → times k (flat_map numbers_drawn rights.items) ≡ 0 }
        ensures each_once { OnTrue result (All (HasPassedTickets self) rights.items → IsEachOnce (count_of self) (flat_map numbers_drawn rights.items)) }
        ensures full { All (HasPassedTickets self) rights.items → IsEachOnce (count_of self) (flat_map numbers_drawn rights.items) → result ≡ true }
    {
        let mut others = rights;
        match others.pop() {
            None => false,
            Some(mut last) => {
                join_all(&self, &mut last, others);
                true
            }
        }
    }
}

/// Joins other seats into one.
fn join_all(tickets: &Tickets, seat: &mut TicketSeat, others: Vec<TicketSeat>)
    requires seat { IsTicketSeatOf tickets.now seat.old }
    requires others { All (IsTicketSeatOf tickets.now) others.items }
    ensures seat { IsTicketSeatOf tickets.now seat.new }
    ensures parts { ticket_parts seat.new ≡ ticket_parts seat.old + sum_by ticket_parts others.items }
    ensures drawn { numbers_drawn seat.new ≡ numbers_drawn seat.old ++ flat_map numbers_drawn others.items }
    ensures next { next_of seat.old ≡ count_of tickets.now → next_of seat.new ≡ count_of tickets.now }
{
    for other in others {
        tickets.join_back(seat, other);
    }
}

/// As many seats as there are workers, the first seat the last of them.
fn split_all(
    alloc: Global,
    tickets: &Tickets,
    first: TicketSeat,
    workers: u32,
) -> Result<Vec<TicketSeat>, NoMemory>
    requires first { IsTicketSeatOf tickets.now first }
    requires parts { ticket_parts first ≡ 1024 }
    requires none { numbers_drawn first ≡ [] }
    requires some { 1 ≤ workers }
    requires few { workers ≤ 64 }
    ensures count { IfOk result (λ rights. length rights.items ≡ workers) }
    ensures all { IfOk result (λ rights. HaveAllParts rights.items) }
    ensures rights { IfOk result (λ rights. All (IsTicketSeatOf tickets.now) rights.items) }
    ensures idle { IfOk result (λ rights. All (λ right. numbers_drawn right ≡ []) rights.items) }
{
    let mut first = first;
    let mut rights = Vec::with_capacity(alloc, workers as usize)?;
    let others = workers - 1;
    for _ in 0..others {
        rights.push_reserved(tickets.split(&mut first));
    }
    rights.push_reserved(first);
    Ok(rights)
}

/// The numbers below `count`, and the rights of so many workers.
pub(crate) fn deal_tickets(
    alloc: Global,
    count: u32,
    workers: u32,
) -> Result<Dealt<Tickets, TicketSeat>, NoMemory>
    requires some { 1 ≤ workers }
    requires few { workers ≤ 64 }
    ensures numbers { IfOk result (λ dealt. count_of dealt.source ≡ count) }
    ensures workers { IfOk result (λ dealt. length dealt.rights.items ≡ workers) }
    ensures all { IfOk result (λ dealt. HaveAllParts dealt.rights.items) }
    ensures rights { IfOk result (λ dealt. All (IsTicketSeatOf dealt.source) dealt.rights.items) }
    ensures idle { IfOk result (λ dealt. All (λ right. numbers_drawn right ≡ []) dealt.rights.items) }
{
    let (source, first) = Tickets::new(alloc, count)?;
    let rights = split_all(alloc, &source, first, workers)?;
    Ok(Dealt { source, rights })
}
