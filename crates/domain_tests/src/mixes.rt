//! Stores of a variable that is kept as bits and of one that is kept as a pair, told by one seat, by two and by two
//! threads.

ghost use Rattle.std.specs.Prelude.{◌≡◌, IfOk};
ghost use Rattle.interval.specs.Limits.{IsBound};
ghost use Rattle.mix_store.specs.Seats.{IsSameSeat};
ghost use Rattle.domain_tests.specs.Two.{IsTwo};

use bit_domain::{Dom, MixOf};
use interval::BoxOf;
use memory::NoMemory;
use mix_store::{MixSeat, MixStore};
use std::alloc::{AllocError, Global};
use std::snapshot::Snapshot;
use std::sync::Wait;
use std::test::Fail;
use std::thread;
use std::thread::{Promise, Threads};

/// A store of the numbers from 1 to 9, kept as bits, and of those from 0 to 100, kept as a pair; and its first seat.
fn two(alloc: Global) -> Result<(MixStore, MixSeat), NoMemory>
    ensures { IfOk result (λ r. IsTwo r.0 r.1) }
{
    let bounds = BoxOf::from_pairs(alloc, &[(1, 9), (0, 100)])?;
    let start = MixOf::from_box(alloc, &bounds)?;
    MixStore::new(alloc, &start)
}

/// A store of the last 64 numbers of the range, kept as bits, and of all of them, kept as a pair; and its first seat.
fn at_the_ends(alloc: Global) -> Result<(MixStore, MixSeat), NoMemory>
    ensures { IfOk result (λ r. IsTwo r.0 r.1) }
{
    let numbers = [
        (140_737_488_355_265, 140_737_488_355_328),
        (-140_737_488_355_328, 140_737_488_355_328),
    ];
    let bounds = BoxOf::from_pairs(alloc, &numbers)?;
    let start = MixOf::from_box(alloc, &bounds)?;
    MixStore::new(alloc, &start)
}

/// Keeps bits of the first variable.
fn keep(store: &MixStore, seat: &mut MixSeat, set: u64) -> bool
    requires { IsTwo store.now seat.old }
    ensures { IsTwo store.now seat.new }
{
    store.keep_set(seat, 0, set)
}

/// Tells that the second variable is at least a value.
fn at_least(store: &MixStore, seat: &mut MixSeat, value: i64) -> bool
    requires store { IsTwo store.now seat.old }
    requires value { IsBound value }
    ensures { IsTwo store.now seat.new }
{
    store.tell_low(seat, 1, value)
}

/// Tells that the second variable is at most a value.
fn at_most(store: &MixStore, seat: &mut MixSeat, value: i64) -> bool
    requires store { IsTwo store.now seat.old }
    requires value { IsBound value }
    ensures { IsTwo store.now seat.new }
{
    store.tell_high(seat, 1, value)
}

/// The bits of the first variable, after one load.
fn bits(store: &MixStore, seat: &mut MixSeat) -> u64
    requires { IsTwo store.now seat.old }
    ensures { IsTwo store.now seat.new }
{
    store.ask_set(seat, 0)
}

/// The lower bound of the second variable, after one load.
fn least(store: &MixStore, seat: &mut MixSeat) -> i64
    requires { IsTwo store.now seat.old }
    ensures { IsTwo store.now seat.new }
{
    store.ask_low(seat, 1)
}

/// The upper bound of the second variable, after one load.
fn greatest(store: &MixStore, seat: &mut MixSeat) -> i64
    requires { IsTwo store.now seat.old }
    ensures { IsTwo store.now seat.new }
{
    store.ask_high(seat, 1)
}

/// What a seat has seen of the two variables.
fn seen(_store: &MixStore, seat: &MixSeat) -> (Dom, Dom)
    requires { IsTwo _store.now seat.now }
{
    (seat.seen_dom(0), seat.seen_dom(1))
}

/// Another seat.
fn split(alloc: Global, store: &MixStore, seat: &mut MixSeat) -> Result<MixSeat, NoMemory>
    requires { IsTwo store.now seat.old }
    ensures old { IfOk result (λ _. IsTwo store.now seat.new) }
    ensures new { IfOk result (λ r. IsTwo store.now r) }
{
    store.split(alloc, seat)
}

/// Joins two seats.
fn join(store: &MixStore, seat: &mut MixSeat, other: MixSeat)
    requires seat { IsTwo store.now seat.old }
    requires other { IsTwo store.now other }
    ensures { IsTwo store.now seat.new }
{
    store.join_back(seat, other);
}

/// The domains that a store of two variables ends with.
fn closed(alloc: Global, store: MixStore, seat: MixSeat) -> Result<(Dom, Dom), NoMemory>
    requires { IsTwo store seat }
{
    let bounds = BoxOf::from_pairs(alloc, &[(0, 0), (0, 0)])?;
    let mut into = MixOf::from_box(alloc, &bounds)?;
    store.close(seat, &mut into);
    Ok((into.dom(0), into.dom(1)))
}

/// A domain of bits over the base 1.
fn over_one(set: u64) -> Dom {
    Dom::Bits { base: 1, set }
}

#[test]
#[tactic(auto, unfolding(interval::specs::Limits::bound_limit, interval::specs::Limits::largest_number))]
fn a_store_closes_at_what_was_told(rt: HostRuntime) -> Result<(), Fail> {
    let (store, mut seat) = two(rt.alloc())?;
    assert_eq!(rt; bits(&store, &mut seat), 0b1_1111_1111);
    assert!(rt; keep(&store, &mut seat, 0b101));
    assert!(rt; !keep(&store, &mut seat, 0b1111));
    assert_eq!(rt; bits(&store, &mut seat), 0b101);
    assert!(rt; at_least(&store, &mut seat, 4));
    assert!(rt; !at_least(&store, &mut seat, 2));
    assert!(rt; at_most(&store, &mut seat, 6));
    assert_eq!(rt;
        (least(&store, &mut seat), greatest(&store, &mut seat)),
        (4, 6)
    );
    seat.law_floor();
    let last = closed(rt.alloc(), store, seat)?;
    assert_eq!(rt; last, (over_one(0b101), Dom::Pair { low: 4, high: 6 }));
    Ok(())
}

#[test]
fn keep_answers_for_the_seat_and_not_for_the_word(rt: HostRuntime) -> Result<(), Fail> {
    let (store, mut first) = two(rt.alloc())?;
    let mut second = split(rt.alloc(), &store, &mut first)?;
    assert!(rt; keep(&store, &mut first, 0b11));
    assert!(rt; keep(&store, &mut second, 0b111));
    assert!(rt; !keep(&store, &mut second, 0b111));
    assert_eq!(rt; bits(&store, &mut second), 0b11);
    Ok(())
}

#[test]
#[tactic(auto, unfolding(interval::specs::Limits::bound_limit, interval::specs::Limits::largest_number))]
fn a_load_tells_what_another_seat_told(rt: HostRuntime) -> Result<(), Fail> {
    let (store, mut first) = two(rt.alloc())?;
    let mut second = split(rt.alloc(), &store, &mut first)?;
    assert!(rt; keep(&store, &mut first, 0b11));
    assert!(rt; at_least(&store, &mut first, 4));
    assert!(rt; at_most(&store, &mut first, 6));
    assert_eq!(rt; bits(&store, &mut second), 0b11);
    assert_eq!(rt;
        (least(&store, &mut second), greatest(&store, &mut second)),
        (4, 6)
    );
    Ok(())
}

#[test]
#[tactic(auto, unfolding(interval::specs::Limits::bound_limit, interval::specs::Limits::largest_number))]
fn a_seat_takes_in_what_another_has_seen(rt: HostRuntime) -> Result<(), Fail> {
    let (store, mut first) = two(rt.alloc())?;
    let mut second = split(rt.alloc(), &store, &mut first)?;
    assert!(rt; keep(&store, &mut second, 0b110));
    assert!(rt; at_most(&store, &mut second, 50));
    assert!(rt; keep(&store, &mut first, 0b1_0000_0111));
    assert!(rt; at_least(&store, &mut first, 7));
    let alone = seen(&store, &first);
    assert_eq!(rt; alone, (over_one(0b110), Dom::Pair { low: 7, high: 100 }));
    join(&store, &mut first, second);
    let both = seen(&store, &first);
    assert_eq!(rt; both, (over_one(0b110), Dom::Pair { low: 7, high: 50 }));
    Ok(())
}

#[test]
fn a_set_may_become_empty(rt: HostRuntime) -> Result<(), Fail> {
    let (store, mut seat) = two(rt.alloc())?;
    assert!(rt; keep(&store, &mut seat, 0b11));
    assert!(rt; keep(&store, &mut seat, 0b1100));
    assert!(rt; !keep(&store, &mut seat, 0b1111));
    let last = closed(rt.alloc(), store, seat)?;
    assert_eq!(rt; last, (over_one(0), Dom::Pair { low: 0, high: 100 }));
    Ok(())
}

#[test]
#[tactic(auto, unfolding(interval::specs::Limits::bound_limit, interval::specs::Limits::largest_number))]
fn the_last_of_64_numbers_and_the_ends_of_the_range_are_kept(rt: HostRuntime) -> Result<(), Fail> {
    let (store, mut seat) = at_the_ends(rt.alloc())?;
    assert!(rt; keep(&store, &mut seat, 1 << 63));
    assert!(rt; at_least(&store, &mut seat, 140_737_488_355_328));
    assert!(rt; at_most(&store, &mut seat, -140_737_488_355_328));
    let last = closed(rt.alloc(), store, seat)?;
    let kept = Dom::Bits {
        base: 140_737_488_355_265,
        set: 1 << 63,
    };
    let crossed = Dom::Pair {
        low: 140_737_488_355_328,
        high: -140_737_488_355_328,
    };
    assert_eq!(rt; last, (kept, crossed));
    Ok(())
}

#[test]
fn a_store_of_no_variables_has_seats(rt: HostRuntime) -> Result<(), Fail> {
    let bounds = BoxOf::from_pairs(rt.alloc(), &[])?;
    let mut mix = MixOf::from_box(rt.alloc(), &bounds)?;
    let (store, mut first) = MixStore::new(rt.alloc(), &mix)?;
    let second = store.split(rt.alloc(), &mut first)?;
    store.join_back(&mut first, second);
    store.close(first, &mut mix);
    assert_eq!(rt; mix.len(), 0);
    Ok(())
}

/// What a thread gives back: whether its tells changed what its seat has seen, and the seat.
#[derive(Drop)]
struct Told {
    changed: bool,
    seat: MixSeat,
}

/// A thread gives back the seat that it was given.
#[derive(Drop)]
struct SameSeat(Snapshot<MixSeat>);

impl Promise<Told> for SameSeat {
    ghost use Rattle.mix_store.specs.Seats.{IsSameSeat};

    ghost kept_by = { λ p r. IsSameSeat p.0.value r.seat };
}

/// Tells bits of the first variable and both bounds of the second.
fn tells(store: &MixStore, seat: MixSeat, set: u64, low: i64, high: i64) -> Told
    requires store { IsTwo store.now seat }
    requires low { IsBound low }
    requires high { IsBound high }
    ensures { IsSameSeat seat result.seat }
{
    let mut seat = seat;
    let kept = store.keep_set(&mut seat, 0, set);
    let below = store.tell_low(&mut seat, 1, low);
    let above = store.tell_high(&mut seat, 1, high);
    Told {
        changed: kept && (below || above),
        seat,
    }
}

/// Two threads tell at once, each what its seat hasn't seen.
#[tactic(auto, unfolding(interval::specs::Limits::bound_limit, interval::specs::Limits::largest_number))]
fn tell_at_once<R: Threads + Wait>(
    rt: &R,
    store: &MixStore,
    left: MixSeat,
    right: MixSeat,
) -> Result<(Told, Told), AllocError>
    requires left { IsTwo store.now left }
    requires right { IsTwo store.now right }
    ensures left { IfOk result (λ r. IsSameSeat left r.0.seat) }
    ensures right { IfOk result (λ r. IsSameSeat right r.1.seat) }
{
    thread::scope(
        thread::scope_env(),
        rt,
        move |scope| -> Result<(Told, Told), AllocError>
            requires left { IsTwo store.now left }
            requires right { IsTwo store.now right }
            ensures left { IfOk result (λ r. IsSameSeat left r.0.seat) }
            ensures right { IfOk result (λ r. IsSameSeat right r.1.seat) }
        {
            let left_kept = SameSeat(Snapshot::of(&left));
            let right_kept = SameSeat(Snapshot::of(&right));
            let left = scope.spawn_with(
                left_kept,
                move || -> Told
                    requires { IsTwo store.now left }
                    ensures { IsSameSeat left result.seat }
                { tells(store, left, 0b110, 4, 100) },
            )?;
            let right = scope.spawn_with(
                right_kept,
                move || -> Told
                    requires { IsTwo store.now right }
                    ensures { IsSameSeat right result.seat }
                { tells(store, right, 0b011, 0, 6) },
            )?;
            Ok((left.join(rt), right.join(rt)))
        },
    )
}

#[test]
fn two_threads_tell_one_store(rt: HostRuntime) -> Result<(), Fail> {
    let (store, mut first) = two(rt.alloc())?;
    let left = split(rt.alloc(), &store, &mut first)?;
    let right = split(rt.alloc(), &store, &mut first)?;
    let (left, right) = tell_at_once(&rt, &store, left, right)?;
    assert!(rt; left.changed && right.changed);
    join(&store, &mut first, left.seat);
    join(&store, &mut first, right.seat);
    assert!(rt; !keep(&store, &mut first, 0b010));
    let last = closed(rt.alloc(), store, first)?;
    assert_eq!(rt; last, (over_one(0b010), Dom::Pair { low: 4, high: 6 }));
    Ok(())
}
