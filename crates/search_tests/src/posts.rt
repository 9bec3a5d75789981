//! The least cost and the least number that seats have posted, by one thread and by two.

ghost use Rattle.std.specs.Prelude.{IfOk};
ghost use Rattle.best_bound.specs.Seats.{IsBestSeatOf, IsFoundSeatOf, IsCostInRange};

use best_bound::{Best, BestSeat, Costs, Found, FoundSeat, Numbers};
use std::alloc::AllocError;
use std::process::Abort;
use std::sync::Wait;
use std::test::Fail;
use std::thread;
use std::thread::{Promise, Threads};

/// Any cost passes.
struct AnyCost;

impl Costs for AnyCost {
    ghost use Rattle.std.specs.Prelude.{⊤};

    ghost is_cost = { λ _. ⊤ };
}

/// Any number passes.
struct AnyNumber;

impl Numbers for AnyNumber {
    ghost use Rattle.std.specs.Prelude.{⊤};

    ghost has_solution = { λ _. ⊤ };
}

/// Each post by one seat shows both seats the least cost so far.
fn assert_costs(
    rt: &impl Abort,
    best: &Best<AnyCost>,
    seat: &mut BestSeat,
    other: &mut BestSeat,
    table: &[(i64, i64)],
)
    requires seat { IsBestSeatOf best.now seat.old }
    requires other { IsBestSeatOf best.now other.old }
    ensures seat { IsBestSeatOf best.now seat.new }
    ensures other { IsBestSeatOf best.now other.new }
{
    for (cost, least) in table {
        assert!(rt; *cost < 9_223_372_036_854_775_807);
        best.post(seat, *cost);
        assert_eq!(rt; best.seen(seat), Some(*least));
        assert_eq!(rt; best.seen(other), Some(*least));
    }
}

#[test]
fn seats_see_the_least_cost(rt: HostRuntime) -> Result<(), Fail> {
    let (best, mut seat) = Best::<AnyCost>::new(rt.alloc())?;
    let mut other = best.split(&mut seat);
    assert_eq!(rt; best.seen(&mut seat), None);
    assert_costs(&rt, &best, &mut seat, &mut other, &[(7, 7), (9, 7)]);
    best.post(&mut other, -3);
    best.join_back(&mut seat, other);
    assert_eq!(rt; best.seen(&mut seat), Some(-3));
    Ok(())
}

#[test]
fn the_outermost_costs(rt: HostRuntime) -> Result<(), Fail> {
    let (best, mut seat) = Best::<AnyCost>::new(rt.alloc())?;
    let mut other = best.split(&mut seat);
    let table = [
        (9_223_372_036_854_775_806, 9_223_372_036_854_775_806),
        (0, 0),
        (-1, -1),
        (-9_223_372_036_854_775_808, -9_223_372_036_854_775_808),
    ];
    assert_costs(&rt, &best, &mut seat, &mut other, &table);
    Ok(())
}

/// Each post by one seat shows both seats the least number so far.
fn assert_numbers(
    rt: &impl Abort,
    found: &Found<AnyNumber>,
    seat: &mut FoundSeat,
    other: &mut FoundSeat,
    table: &[(u32, u32)],
)
    requires seat { IsFoundSeatOf found.now seat.old }
    requires other { IsFoundSeatOf found.now other.old }
    ensures seat { IsFoundSeatOf found.now seat.new }
    ensures other { IsFoundSeatOf found.now other.new }
{
    for (number, least) in table {
        found.post(seat, *number);
        assert_eq!(rt; found.seen(seat), Some(*least));
        assert_eq!(rt; found.seen(other), Some(*least));
    }
}

#[test]
fn seats_see_the_least_number(rt: HostRuntime) -> Result<(), Fail> {
    let (found, mut seat) = Found::<AnyNumber>::new(rt.alloc())?;
    let mut other = found.split(&mut seat);
    assert_eq!(rt; found.seen(&mut seat), None);
    let table = [(7, 7), (4_294_967_295, 7)];
    assert_numbers(&rt, &found, &mut seat, &mut other, &table);
    found.post(&mut other, 0);
    found.join_back(&mut seat, other);
    assert_eq!(rt; found.seen(&mut seat), Some(0));
    Ok(())
}

/// A seat of each kind.
#[derive(Drop)]
struct Seats {
    cost: BestSeat,
    number: FoundSeat,
}

/// The objects whose seats a thread gives back.
#[derive(Clone, Copy)]
struct Shared<'a> {
    best: &'a Best<AnyCost>,
    found: &'a Found<AnyNumber>,
}

impl<'a> Promise<Seats> for Shared<'a> {
    ghost use Rattle.best_bound.specs.Seats.{IsBestSeatOf, IsFoundSeatOf};

    ghost kept_by = { λ p r. IsBestSeatOf p.best.now r.cost × IsFoundSeatOf p.found.now r.number };
}

/// Posts through both seats, and gives them back.
fn posts(
    best: &Best<AnyCost>,
    found: &Found<AnyNumber>,
    seats: Seats,
    cost: i64,
    number: u32,
) -> Seats
    requires cost_seat { IsBestSeatOf best.now seats.cost }
    requires number_seat { IsFoundSeatOf found.now seats.number }
    requires in_range { IsCostInRange cost }
    ensures { IsBestSeatOf best.now result.cost × IsFoundSeatOf found.now result.number }
{
    let Seats {
        cost: mut cost_seat,
        number: mut number_seat,
    } = seats;
    best.post(&mut cost_seat, cost);
    found.post(&mut number_seat, number);
    Seats {
        cost: cost_seat,
        number: number_seat,
    }
}

/// Two threads post at once.
fn post_at_once<R: Threads + Wait>(
    rt: &R,
    best: &Best<AnyCost>,
    found: &Found<AnyNumber>,
    left: Seats,
    right: Seats,
) -> Result<(Seats, Seats), AllocError>
    requires left { IsBestSeatOf best.now left.cost × IsFoundSeatOf found.now left.number }
    requires right { IsBestSeatOf best.now right.cost × IsFoundSeatOf found.now right.number }
    ensures left { IfOk result (λ r. IsBestSeatOf best.now r.0.cost × IsFoundSeatOf found.now r.0.number) }
    ensures right { IfOk result (λ r. IsBestSeatOf best.now r.1.cost × IsFoundSeatOf found.now r.1.number) }
{
    thread::scope(
        thread::scope_env(),
        rt,
        move |scope| -> Result<(Seats, Seats), AllocError>
            requires left { IsBestSeatOf best.now left.cost × IsFoundSeatOf found.now left.number }
            requires right { IsBestSeatOf best.now right.cost × IsFoundSeatOf found.now right.number }
            ensures left { IfOk result (λ r. IsBestSeatOf best.entry.now r.0.cost × IsFoundSeatOf found.entry.now r.0.number) }
            ensures right { IfOk result (λ r. IsBestSeatOf best.entry.now r.1.cost × IsFoundSeatOf found.entry.now r.1.number) }
        {
            let left = scope.spawn_with(
                Shared { best, found },
                move || -> Seats
                    requires { IsBestSeatOf best.now left.cost × IsFoundSeatOf found.now left.number }
                    ensures { IsBestSeatOf best.entry.now result.cost × IsFoundSeatOf found.entry.now result.number }
                { posts(best, found, left, 5, 2) },
            )?;
            let right = scope.spawn_with(
                Shared { best, found },
                move || -> Seats
                    requires { IsBestSeatOf best.now right.cost × IsFoundSeatOf found.now right.number }
                    ensures { IsBestSeatOf best.entry.now result.cost × IsFoundSeatOf found.entry.now result.number }
                { posts(best, found, right, -4, 3) },
            )?;
            Ok((left.join(rt), right.join(rt)))
        },
    )
}

#[test]
fn two_threads_post(rt: HostRuntime) -> Result<(), Fail> {
    let (best, mut cost) = Best::<AnyCost>::new(rt.alloc())?;
    let (found, mut number) = Found::<AnyNumber>::new(rt.alloc())?;
    let left = Seats {
        cost: best.split(&mut cost),
        number: found.split(&mut number),
    };
    let right = Seats {
        cost: best.split(&mut cost),
        number: found.split(&mut number),
    };
    let (left, right) = post_at_once(&rt, &best, &found, left, right)?;
    assert_eq!(rt; best.seen(&mut cost), Some(-4));
    assert_eq!(rt; found.seen(&mut number), Some(2));
    best.join_back(&mut cost, left.cost);
    best.join_back(&mut cost, right.cost);
    found.join_back(&mut number, left.number);
    found.join_back(&mut number, right.number);
    assert_eq!(rt; best.seen(&mut cost), Some(-4));
    assert_eq!(rt; found.seen(&mut number), Some(2));
    Ok(())
}
