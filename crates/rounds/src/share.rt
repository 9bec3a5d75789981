//! One pass over a share of the kernels: a snapshot of each kernel's variables, by single loads, and tells that go
//! straight into the store.

ghost use Rattle.std.specs.Prelude.{◌≡◌, ◌≢◌, ◌+◌, ◌-◌, ◌^◌, ◌<◌, ◌≤ℤ◌, ◌<ℤ◌, length, min, false, IfSome};
ghost use Rattle.std.specs.Bool.{OnTrue, OnFalse};
ghost use Rattle.std.specs.List.{All};
ghost use Rattle.interval.specs.Limits.{IsBound};
ghost use Rattle.interval.specs.Boxes.{IsInside, low_of, high_of, put_of};
ghost use Rattle.guarded_tell.specs.Words.{Keeps, IsProperIn};
ghost use Rattle.guarded_tell.specs.Kernels.{vars_of, tells, IsKernel, IsClosedUnder};
ghost use Rattle.lattice_store.specs.Seats.{seen_of, floor_of, IsPast, IsSeatOf, IsSameSeat};
ghost use Rattle.rounds.specs.Shares.{IsShare, AllNamed, IsQuiet, WasHeard};
ghost use Rattle.rounds.specs.Steps.{Stepped, IsSnapshot, MayTell, HasTold};

use crate::cache::Cache;
use gate::Gate;
use guarded_tell::{
    Hear, Kernel, Side, Tell, law_local, law_monotone, law_tell_place, visit_tells,
};
use interval::BoxOf;
use lattice_store::{Seat, Store};

/// The lower bound of a variable after one load. The mark is set where that was news.
fn ask_low(store: &Store, seat: &mut Seat, moved: &mut bool, v: u32) -> i64
    requires store { IsSeatOf store.now seat.old }
    requires variable { v < length (seen_of seat.old) }
    ensures stepped { Stepped seat.old moved.old seat.new moved.new }
    ensures value { result ≡ low_of (seen_of seat.new) v }
    ensures seen { seen_of seat.new ≡ put_of (seen_of seat.old) v result (high_of (seen_of seat.old) v) }
    ensures in_range { IsBound result }
{
    let before = seat.seen_low(v);
    let low = store.ask_low(seat, v);
    if before < low {
        *moved = true;
    }
    low
}

/// The upper bound of a variable after one load. The mark is set where that was news.
fn ask_high(store: &Store, seat: &mut Seat, moved: &mut bool, v: u32) -> i64
    requires store { IsSeatOf store.now seat.old }
    requires variable { v < length (seen_of seat.old) }
    ensures stepped { Stepped seat.old moved.old seat.new moved.new }
    ensures value { result ≡ high_of (seen_of seat.new) v }
    ensures seen { seen_of seat.new ≡ put_of (seen_of seat.old) v (low_of (seen_of seat.old) v) result }
    ensures low { low_of (seen_of seat.new) v ≡ low_of (seen_of seat.old) v }
    ensures in_range { IsBound result }
{
    let before = seat.seen_high(v);
    let high = store.ask_high(seat, v);
    if high < before {
        *moved = true;
    }
    high
}

/// Copies the bounds of a variable, and says whether a number is left for it.
fn look(store: &Store, seat: &mut Seat, moved: &mut bool, snapshot: &mut BoxOf, v: u32) -> bool
    requires store { IsSeatOf store.now seat.old }
    requires variable { v < length (seen_of seat.old) }
    requires length { length snapshot.old ≡ length (seen_of seat.old) }
    ensures stepped { Stepped seat.old moved.old seat.new moved.new }
    ensures seen { seen_of seat.new ≡ put_of (seen_of seat.old) v (low_of (seen_of seat.new) v) (high_of (seen_of seat.new) v) }
    ensures snapshot { snapshot.new ≡ put_of snapshot.old v (low_of (seen_of seat.new) v) (high_of (seen_of seat.new) v) }
    ensures proper { OnTrue result (low_of (seen_of seat.new) v ≤ℤ high_of (seen_of seat.new) v) }
    ensures crossed { OnFalse result (high_of (seen_of seat.new) v <ℤ low_of (seen_of seat.new) v) }
{
    let low = ask_low(store, seat, moved, v);
    let high = ask_high(store, seat, moved, v);
    snapshot.put(v, low, high);
    low <= high
}

/// Copies the bounds of the kernel's variables, unless one of them has no number left.
fn take_snapshot(
    kernel: &Kernel,
    store: &Store,
    seat: &mut Seat,
    moved: &mut bool,
    snapshot: &mut BoxOf,
) -> bool
    requires store { IsSeatOf store.now seat.old }
    requires kernel { IsKernel (length (seen_of seat.old)) kernel.now }
    requires length { length snapshot.old ≡ length (seen_of seat.old) }
    ensures length { length snapshot.new ≡ length (seen_of seat.old) }
    ensures stepped { Stepped seat.old moved.old seat.new moved.new }
    ensures taken { OnTrue result (IsSnapshot (vars_of kernel.now) (seen_of seat.new) snapshot.new) }
    ensures crossed { OnFalse result (¬ IsProperIn (vars_of kernel.now) (seen_of seat.new)) }
{
    for place in 0..kernel.var_count() {
        let v = kernel.var_at(place);
        if !look(store, seat, moved, snapshot, v) {
            return false;
        }
    }
    true
}

/// Tells a lower bound. The mark is set where the seat saw one move.
fn tell_low(store: &Store, seat: &mut Seat, moved: &mut bool, v: u32, bound: i64)
    requires store { IsSeatOf store.now seat.old }
    requires variable { v < length (seen_of seat.old) }
    requires in_range { IsBound bound }
    requires held { IfSome (floor_of seat.old) (λ f. bound ≤ℤ low_of f v) }
    ensures stepped { Stepped seat.old moved.old seat.new moved.new }
    ensures kept { (¬ IsPast seat.new) → bound ≤ℤ low_of (seen_of seat.new) v }
{
    if store.tell_low(seat, v, bound) {
        *moved = true;
    }
}

/// Tells an upper bound. The mark is set where the seat saw one move.
fn tell_high(store: &Store, seat: &mut Seat, moved: &mut bool, v: u32, bound: i64)
    requires store { IsSeatOf store.now seat.old }
    requires variable { v < length (seen_of seat.old) }
    requires in_range { IsBound bound }
    requires held { IfSome (floor_of seat.old) (λ f. high_of f v ≤ℤ bound) }
    ensures stepped { Stepped seat.old moved.old seat.new moved.new }
    ensures kept { (¬ IsPast seat.new) → high_of (seen_of seat.new) v ≤ℤ bound }
{
    if store.tell_high(seat, v, bound) {
        *moved = true;
    }
}

/// Makes a tell.
fn tell(store: &Store, seat: &mut Seat, moved: &mut bool, t: Tell)
    requires store { IsSeatOf store.now seat.old }
    requires tell { MayTell (length (seen_of seat.old)) (floor_of seat.old) t }
    ensures { HasTold seat.old moved.old t seat.new moved.new }
{
    match t.side {
        Side::Low => tell_low(store, seat, moved, t.var, t.bound),
        Side::High => tell_high(store, seat, moved, t.var, t.bound),
    }
}

/// Tells the store each bound that it hears, and notes whether the seat saw one move.
#[derive(Drop)]
struct Teller<'a> {
    store: &'a Store,
    seat: &'a mut Seat,
    moved: bool,
}

impl Hear for Teller<'_> {
    ghost can_hear = { λ h t. IsSeatOf h.store.now h.seat.now × MayTell (length (seen_of h.seat.now)) (floor_of h.seat.now) t };

    ghost hears = { λ h t after. HasTold h.seat.now h.moved t after.seat.now after.moved × (after.store.now ≡ h.store.now) × (after.seat.ghost_name ≡ h.seat.ghost_name) };

    fn hear(&mut self, t: Tell) {
        tell(self.store, self.seat, &mut self.moved, t);
    }
}

/// Has the teller hear all that the kernel has to tell on the snapshot.
fn hear_all(kernel: &Kernel, snapshot: &BoxOf, teller: &mut Teller)
    requires store { IsSeatOf teller.old.store.now teller.old.seat.now }
    requires kernel { IsKernel (length snapshot.now) kernel.now }
    requires proper { IsProperIn (vars_of kernel.now) snapshot.now }
    requires tells { All (MayTell (length (seen_of teller.old.seat.now)) (floor_of teller.old.seat.now)) (tells kernel.now snapshot.now) }
    ensures same_seat { teller.new.seat.ghost_name ≡ teller.old.seat.ghost_name }
    ensures stepped { Stepped teller.old.seat.now teller.old.moved teller.new.seat.now teller.new.moved }
    ensures told { (¬ IsPast teller.new.seat.now) → All (Keeps (seen_of teller.new.seat.now)) (tells kernel.now snapshot.now) }
{
    visit_tells(kernel, snapshot, teller);
}

/// Tells all that the kernel has to tell on the snapshot.
fn tell_all(kernel: &Kernel, snapshot: &BoxOf, store: &Store, seat: &mut Seat, moved: &mut bool)
    requires store { IsSeatOf store.now seat.old }
    requires kernel { IsKernel (length snapshot.now) kernel.now }
    requires proper { IsProperIn (vars_of kernel.now) snapshot.now }
    requires tells { All (MayTell (length (seen_of seat.old)) (floor_of seat.old)) (tells kernel.now snapshot.now) }
    ensures stepped { Stepped seat.old moved.old seat.new moved.new }
    ensures told { (¬ IsPast seat.new) → All (Keeps (seen_of seat.new)) (tells kernel.now snapshot.now) }
{
    let mut teller = Teller {
        store,
        seat,
        moved: *moved,
    };
    hear_all(kernel, snapshot, &mut teller);
    *moved = teller.moved;
}

/// Runs the kernel on a snapshot of its variables, unless that is crossed in them.
fn run_kernel(
    kernel: &Kernel,
    store: &Store,
    seat: &mut Seat,
    moved: &mut bool,
    snapshot: &mut BoxOf,
)
    requires store { IsSeatOf store.now seat.old }
    requires kernel { IsKernel (length (seen_of seat.old)) kernel.now }
    requires length { length snapshot.old ≡ length (seen_of seat.old) }
    requires floor { IfSome (floor_of seat.old) (IsClosedUnder kernel.now) }
    ensures length { length snapshot.new ≡ length (seen_of seat.old) }
    ensures stepped { Stepped seat.old moved.old seat.new moved.new }
    ensures heard { (¬ IsPast seat.new) → WasHeard (seen_of seat.old) (seen_of seat.new) kernel.now }
{
    if take_snapshot(kernel, store, seat, moved, snapshot) {
        law_monotone();
        law_tell_place();
        law_local();
        seat.law_floor();
        // its contract says that the bounds are in range
        let _length = snapshot.len();
        tell_all(kernel, snapshot, store, seat, moved);
    }
}

/// Runs each kernel of the share once, in order, on a snapshot of single loads, and says whether the bounds that the
/// seat has seen moved. The gate is passed before each kernel.
pub fn run_share<G: Gate>(
    store: &Store,
    seat: &mut Seat,
    cache: &mut Cache,
    kernels: &[Kernel],
    share: &[u32],
    gate: &G,
) -> bool
    requires store { IsSeatOf store.now seat.old }
    requires kernels { All (IsKernel (length (seen_of seat.old))) kernels.now }
    requires share { IsShare (length kernels.now) share.now }
    requires snapshot { length cache.old.snapshot ≡ length (seen_of seat.old) }
    requires floor { IfSome (floor_of seat.old) (λ f. AllNamed (λ k. IsClosedUnder k f) share.now kernels.now) }
    ensures same { IsSameSeat seat.old seat.new }
    ensures inside { IsInside (seen_of seat.new) (seen_of seat.old) }
    ensures still { OnFalse result (seen_of seat.new ≡ seen_of seat.old) }
    ensures moved { OnTrue result (seen_of seat.new ≢ seen_of seat.old) }
    ensures heard { (¬ IsPast seat.new) → AllNamed (WasHeard (seen_of seat.old) (seen_of seat.new)) share.now kernels.now }
    ensures quiet { OnFalse result ((¬ IsPast seat.new) → AllNamed (IsQuiet (seen_of seat.new)) share.now kernels.now) }
    ensures lane { cache.new.lane ≡ cache.old.lane }
    ensures turn { cache.new.turn ≡ min (cache.old.turn + length share.now) (2 ^ 64 - 1) }
    ensures snapshot { length cache.new.snapshot ≡ length (seen_of seat.old) }
{
    law_tell_place();
    let mut moved = false;
    for j in share {
        gate.pass(cache.lane, cache.turn);
        cache.turn = cache.turn.saturating_add(1);
        run_kernel(
            &kernels[*j as usize],
            store,
            seat,
            &mut moved,
            &mut cache.snapshot,
        );
    }
    moved
}
