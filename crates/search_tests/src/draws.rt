//! Numbers drawn by one thread, and by two.

ghost use Rattle.std.specs.Prelude.{IfOk};
ghost use Rattle.tickets.specs.Seats.{IsTicketSeatOf};

use std::alloc::AllocError;
use std::sync::{Barrier, Wait};
use std::test::Fail;
use std::thread;
use std::thread::{Promise, Threads};
use tickets::{TicketSeat, Tickets};

#[test]
fn two_numbers_are_drawn_in_order(rt: HostRuntime) -> Result<(), Fail> {
    let (tickets, mut seat) = Tickets::new(rt.alloc(), 2)?;
    assert_eq!(rt; tickets.draw(&mut seat), Some(0));
    assert_eq!(rt; tickets.draw(&mut seat), Some(1));
    assert_eq!(rt; tickets.draw(&mut seat), None);
    assert_eq!(rt; tickets.draw(&mut seat), None);
    Ok(())
}

#[test]
fn of_no_numbers_none_is_drawn(rt: HostRuntime) -> Result<(), Fail> {
    let (tickets, mut seat) = Tickets::new(rt.alloc(), 0)?;
    assert_eq!(rt; tickets.draw(&mut seat), None);
    Ok(())
}

#[test]
fn a_seat_skips_what_another_drew(rt: HostRuntime) -> Result<(), Fail> {
    let (tickets, mut seat) = Tickets::new(rt.alloc(), 5)?;
    let mut other = tickets.split(&mut seat);
    assert_eq!(rt; tickets.draw(&mut seat), Some(0));
    assert_eq!(rt; tickets.draw(&mut other), Some(1));
    assert_eq!(rt; tickets.draw(&mut other), Some(2));
    assert_eq!(rt; tickets.draw(&mut seat), Some(3));
    tickets.join_back(&mut seat, other);
    assert_eq!(rt; tickets.draw(&mut seat), Some(4));
    assert_eq!(rt; tickets.draw(&mut seat), None);
    Ok(())
}

/// What a thread has drawn.
#[derive(Drop)]
struct Drawer {
    seat: TicketSeat,
    numbers: Vec<u32>,
}

/// The object whose seat a thread gives back.
#[derive(Clone, Copy)]
struct Drawn<'a>(&'a Tickets);

impl<'a> Promise<Result<Drawer, AllocError>> for Drawn<'a> {
    ghost use Rattle.std.specs.Prelude.{IfOk};
    ghost use Rattle.tickets.specs.Seats.{IsTicketSeatOf};

    ghost kept_by = { λ p r. IfOk r (λ drawer. IsTicketSeatOf p.0.now drawer.seat) };
}

/// Waits for the other thread, and then draws until nothing is left.
fn draw_all<R: Wait>(
    rt: &R,
    tickets: &Tickets,
    start: &Barrier,
    mut drawer: Drawer,
) -> Result<Drawer, AllocError>
    requires { IsTicketSeatOf tickets.now drawer.seat }
    ensures { IfOk result (λ r. IsTicketSeatOf tickets.now r.seat) }
{
    start.wait(rt);
    while let Some(number) = tickets.draw(&mut drawer.seat) {
        drawer.numbers.push(number)?;
    }
    Ok(drawer)
}

/// Two threads draw from one object at once, each until nothing is left.
fn draw_at_once<R: Threads + Wait + Sync>(
    rt: &R,
    tickets: &Tickets,
    start: &Barrier,
    left: Drawer,
    right: Drawer,
) -> Result<(Drawer, Drawer), AllocError>
    requires left { IsTicketSeatOf tickets.now left.seat }
    requires right { IsTicketSeatOf tickets.now right.seat }
    ensures left { IfOk result (λ r. IsTicketSeatOf tickets.now r.0.seat) }
    ensures right { IfOk result (λ r. IsTicketSeatOf tickets.now r.1.seat) }
{
    thread::scope(
        thread::scope_env(),
        rt,
        move |scope| -> Result<(Drawer, Drawer), AllocError>
            requires left { IsTicketSeatOf tickets.now left.seat }
            requires right { IsTicketSeatOf tickets.now right.seat }
            ensures left { IfOk result (λ r. IsTicketSeatOf tickets.entry.now r.0.seat) }
            ensures right { IfOk result (λ r. IsTicketSeatOf tickets.entry.now r.1.seat) }
        {
            let left = scope.spawn_with(
                Drawn(tickets),
                move || -> Result<Drawer, AllocError>
                    requires { IsTicketSeatOf tickets.now left.seat }
                    ensures { IfOk result (λ drawer. IsTicketSeatOf tickets.entry.now drawer.seat) }
                { draw_all(rt, tickets, start, left) },
            )?;
            let right = scope.spawn_with(
                Drawn(tickets),
                move || -> Result<Drawer, AllocError>
                    requires { IsTicketSeatOf tickets.now right.seat }
                    ensures { IfOk result (λ drawer. IsTicketSeatOf tickets.entry.now drawer.seat) }
                { draw_all(rt, tickets, start, right) },
            )?;
            let left = left.join(rt)?;
            let right = right.join(rt)?;
            Ok((left, right))
        },
    )
}

/// The numbers of both lists, in rising order.
fn in_order(left: Vec<u32>, right: Vec<u32>) -> Result<Vec<u32>, AllocError> {
    let mut numbers = left;
    for number in right {
        numbers.push(number)?;
    }
    numbers.sort()?;
    Ok(numbers)
}

/// Whether these are the numbers from 0 on, each once.
fn are_all(numbers: &[u32], count: usize) -> bool {
    numbers.len() == count
        && numbers
            .iter()
            .enumerate()
            .all(|(place, number)| *number as usize == place)
}

#[test]
fn two_threads_draw_each_number_once(rt: HostRuntime) -> Result<(), Fail> {
    let (tickets, mut seat) = Tickets::new(rt.alloc(), 1000)?;
    let start = Barrier::new(2);
    let left = Drawer {
        seat: tickets.split(&mut seat),
        numbers: Vec::new(rt.alloc()),
    };
    let right = Drawer {
        seat: tickets.split(&mut seat),
        numbers: Vec::new(rt.alloc()),
    };
    let (left, right) = draw_at_once(&rt, &tickets, &start, left, right)?;
    tickets.join_back(&mut seat, left.seat);
    tickets.join_back(&mut seat, right.seat);
    let numbers = in_order(left.numbers, right.numbers)?;
    assert!(rt; are_all(&numbers, 1000));
    assert_eq!(rt; tickets.draw(&mut seat), None);
    Ok(())
}
