//! Stores of one variable, told by one seat, by two and by two threads.

ghost use Rattle.std.specs.Prelude.{◌≡◌, ◌<◌, [], ◌∷◌, length, None, IfOk};
ghost use Rattle.interval.specs.Limits.{IsBound};
ghost use Rattle.lattice_store.specs.Seats.{seen_of, floor_of, IsFirst, IsSeatOf, IsSameSeat};

use interval::BoxOf;
use lattice_store::{Full, Seat, Store};
use memory::NoMemory;
use std::alloc::{AllocError, Global};
use std::process::Abort;
use std::snapshot::Snapshot;
use std::sync::Wait;
use std::test::Fail;
use std::thread;
use std::thread::{Promise, Threads};

/// The box of one variable.
fn one(alloc: Global, low: i64, high: i64) -> Result<BoxOf, NoMemory>
    requires low { IsBound low }
    requires high { IsBound high }
    ensures { IfOk result (λ b. b ≡ (low, high) ∷ []) }
{
    BoxOf::from_pairs(alloc, &[(low, high)])
}

/// A store of one variable, and its first seat.
fn store_of(alloc: Global, low: i64, high: i64) -> Result<(Store, Seat), NoMemory>
    requires low { IsBound low }
    requires high { IsBound high }
    ensures store { IfOk result (λ r. IsSeatOf r.0 r.1) }
    ensures first { IfOk result (λ r. IsFirst r.1) }
    ensures length { IfOk result (λ r. length (seen_of r.1) ≡ 1) }
    ensures floor { IfOk result (λ r. floor_of r.1 ≡ None) }
{
    let start = one(alloc, low, high)?;
    Store::new(alloc, &start)
}

/// The bounds that a seat has seen after a load of each.
fn asked(store: &Store, seat: &mut Seat) -> (i64, i64)
    requires store { IsSeatOf store.now seat.old }
    requires length { length (seen_of seat.old) ≡ 1 }
    ensures length { length (seen_of seat.new) ≡ 1 }
    ensures same { IsSameSeat seat.old seat.new }
{
    let low = store.ask_low(seat, 0);
    (low, store.ask_high(seat, 0))
}

/// The bounds that a store ends with.
fn closed(alloc: Global, store: Store, first: Seat) -> Result<(i64, i64), NoMemory>
    requires store { IsSeatOf store first }
    requires first { IsFirst first }
    requires length { length (seen_of first) ≡ 1 }
{
    let mut into = BoxOf::from_pairs(alloc, &[(0, 0)])?;
    store.close(first, &mut into);
    Ok((into.low(0), into.high(0)))
}

/// A store of one variable 0..10, of which a first and a second seat tell 4 and 6, and the first seat.
#[tactic(auto, unfolding(interval::specs::Limits::bound_limit, interval::specs::Limits::largest_number))]
fn told_by_two_seats<R: Abort>(rt: &R, alloc: Global) -> Result<(Store, Seat), NoMemory>
    ensures store { IfOk result (λ r. IsSeatOf r.0 r.1) }
    ensures first { IfOk result (λ r. IsFirst r.1) }
    ensures length { IfOk result (λ r. length (seen_of r.1) ≡ 1) }
    ensures floor { IfOk result (λ r. floor_of r.1 ≡ None) }
{
    let (store, mut first) = store_of(alloc, 0, 10)?;
    assert!(rt; store.tell_low(&mut first, 0, 4));
    assert!(rt; !store.tell_low(&mut first, 0, 2));
    assert_eq!(rt; store.ask_low(&mut first, 0), 4);
    let mut second = store.split(alloc, &mut first)?;
    assert!(rt; store.tell_high(&mut second, 0, 6));
    assert_eq!(rt; store.ask_high(&mut first, 0), 6);
    store.join_back(&mut first, second);
    Ok((store, first))
}

#[test]
fn a_store_closes_at_the_tightest_bounds(rt: HostRuntime) -> Result<(), Fail> {
    let (store, first) = told_by_two_seats(&rt, rt.alloc())?;
    first.law_floor();
    assert_eq!(rt; closed(rt.alloc(), store, first)?, (4, 6));
    Ok(())
}

#[test]
#[tactic(auto, unfolding(interval::specs::Limits::bound_limit, interval::specs::Limits::largest_number))]
fn an_epoch_starts_anew(rt: HostRuntime) -> Result<(), Fail> {
    let (mut store, mut first) = told_by_two_seats(&rt, rt.alloc())?;
    let mut behind = store.split(rt.alloc(), &mut first)?;
    let next = one(rt.alloc(), 0, 3)?;
    assert!(rt; store.open(&mut first, &next).is_ok());
    assert_eq!(rt; store.ask_low(&mut behind, 0), 4);
    assert!(rt; !store.tell_low(&mut behind, 0, 5));
    assert_eq!(rt; asked(&store, &mut behind), (4, 6));
    assert_eq!(rt; asked(&store, &mut first), (0, 3));
    Ok(())
}

#[test]
#[tactic(auto, unfolding(interval::specs::Limits::bound_limit, interval::specs::Limits::largest_number, lattice_store::specs::Words::last_epoch, lattice_store::specs::Words::span, lattice_store::specs::Words::middle, lattice_store::specs::Words::doubled_to))]
fn the_last_epoch_is_opened_once(rt: HostRuntime) -> Result<(), Fail> {
    let start = one(rt.alloc(), 0, 10)?;
    let (mut store, mut first) = Store::new_from(rt.alloc(), &start, 32_766)?;
    let last = one(rt.alloc(), 2, 7)?;
    assert!(rt; store.open(&mut first, &last).is_ok());
    assert_eq!(rt; store.open(&mut first, &start), Err(Full));
    assert_eq!(rt; asked(&store, &mut first), (2, 7));
    Ok(())
}

#[test]
#[tactic(auto, unfolding(interval::specs::Limits::bound_limit, interval::specs::Limits::largest_number))]
fn bounds_at_both_ends_of_the_range_are_kept(rt: HostRuntime) -> Result<(), Fail> {
    let (least, greatest) = (-140_737_488_355_328, 140_737_488_355_328);
    let (store, mut first) = store_of(rt.alloc(), least, greatest)?;
    assert_eq!(rt; asked(&store, &mut first), (least, greatest));
    assert!(rt; store.tell_low(&mut first, 0, greatest));
    assert!(rt; store.tell_high(&mut first, 0, least));
    assert_eq!(rt; closed(rt.alloc(), store, first)?, (greatest, least));
    Ok(())
}

/// What a thread gives back: whether its tells changed what its seat has seen, and the seat.
#[derive(Drop)]
struct Told {
    changed: bool,
    seat: Seat,
}

/// A thread gives back the seat that it was given.
#[derive(Drop)]
struct SameSeat(Snapshot<Seat>);

impl Promise<Told> for SameSeat {
    ghost use Rattle.lattice_store.specs.Seats.{IsSameSeat};

    ghost kept_by = { λ p r. IsSameSeat p.0.value r.seat };
}

/// Tells both bounds of the one variable.
fn tells(store: &Store, seat: Seat, low: i64, high: i64) -> Told
    requires store { IsSeatOf store.now seat }
    requires variable { 0 < length (seen_of seat) }
    requires floor { floor_of seat ≡ None }
    requires low { IsBound low }
    requires high { IsBound high }
    ensures { IsSameSeat seat result.seat }
{
    let mut seat = seat;
    let below = store.tell_low(&mut seat, 0, low);
    let above = store.tell_high(&mut seat, 0, high);
    Told {
        changed: below || above,
        seat,
    }
}

/// Two threads tell at once, each one bound that its seat hasn't seen.
#[tactic(auto, unfolding(interval::specs::Limits::bound_limit, interval::specs::Limits::largest_number))]
fn tell_at_once<R: Threads + Wait>(
    rt: &R,
    store: &Store,
    left: Seat,
    right: Seat,
) -> Result<(Told, Told), AllocError>
    requires left { IsSeatOf store.now left × (0 < length (seen_of left)) × (floor_of left ≡ None) }
    requires right { IsSeatOf store.now right × (0 < length (seen_of right)) × (floor_of right ≡ None) }
    ensures left { IfOk result (λ r. IsSameSeat left r.0.seat) }
    ensures right { IfOk result (λ r. IsSameSeat right r.1.seat) }
{
    thread::scope(
        thread::scope_env(),
        rt,
        move |scope| -> Result<(Told, Told), AllocError>
            requires left { IsSeatOf store.now left × (0 < length (seen_of left)) × (floor_of left ≡ None) }
            requires right { IsSeatOf store.now right × (0 < length (seen_of right)) × (floor_of right ≡ None) }
            ensures left { IfOk result (λ r. IsSameSeat left r.0.seat) }
            ensures right { IfOk result (λ r. IsSameSeat right r.1.seat) }
        {
            let left_kept = SameSeat(Snapshot::of(&left));
            let right_kept = SameSeat(Snapshot::of(&right));
            let left = scope.spawn_with(
                left_kept,
                move || -> Told
                    requires { IsSeatOf store.now left × (0 < length (seen_of left)) × (floor_of left ≡ None) }
                    ensures { IsSameSeat left result.seat }
                { tells(store, left, 4, 10) },
            )?;
            let right = scope.spawn_with(
                right_kept,
                move || -> Told
                    requires { IsSeatOf store.now right × (0 < length (seen_of right)) × (floor_of right ≡ None) }
                    ensures { IsSameSeat right result.seat }
                { tells(store, right, 0, 6) },
            )?;
            Ok((left.join(rt), right.join(rt)))
        },
    )
}

#[test]
#[tactic(auto, unfolding(interval::specs::Limits::bound_limit, interval::specs::Limits::largest_number))]
fn two_threads_tell_one_store(rt: HostRuntime) -> Result<(), Fail> {
    let (store, mut first) = store_of(rt.alloc(), 0, 10)?;
    let left = store.split(rt.alloc(), &mut first)?;
    let right = store.split(rt.alloc(), &mut first)?;
    let (left, right) = tell_at_once(&rt, &store, left, right)?;
    assert!(rt; left.changed && right.changed);
    store.join_back(&mut first, left.seat);
    store.join_back(&mut first, right.seat);
    assert!(rt; !store.tell_low(&mut first, 0, 4));
    assert!(rt; !store.tell_high(&mut first, 0, 6));
    assert_eq!(rt; closed(rt.alloc(), store, first)?, (4, 6));
    Ok(())
}
