//! Tells and drops that go straight into the store.

ghost use Rattle.std.specs.Prelude.{◌≡◌, ◌<◌, length};
ghost use Rattle.std.specs.List.{All};
ghost use Rattle.guarded_tell.specs.Words.{IsProperIn};
ghost use Rattle.guarded_tell.specs.Kernels.{vars_of, tells, IsKernel};
ghost use Rattle.bit_domain.specs.Mixes.{dom_of, hull};
ghost use Rattle.mix_store.specs.Domains.{IsBitsAt, IsPairAt};
ghost use Rattle.mix_store.specs.Seats.{seen_of, floor_of, IsSeatOf};
ghost use Rattle.domain_drops.specs.Drops.{drops};
ghost use Rattle.mix_rounds.specs.Steps.{base_in, Stepped, MayTell, MayDrop, HasTold, HasDropped, KeepsNumbers, IsGone};

use crate::masks::{bits_told, bits_without};
use bit_domain::{Dom, MixOf};
use domain_drops::{HearDrop, visit_drops};
use guarded_tell::{Hear, Kernel, Side, Tell, visit_tells};
use interval::BoxOf;
use mix_store::{MixSeat, MixStore};

/// Makes a tell on a variable that is kept as bits over a base. The mark is set where the seat saw a bit go.
fn tell_bits(store: &MixStore, seat: &mut MixSeat, moved: &mut bool, t: Tell, base: i64)
    requires store { IsSeatOf store.now seat.old }
    requires variable { IsBitsAt (seen_of seat.old) t.var }
    requires base { base ≡ base_in (dom_of (seen_of seat.old) t.var) }
    requires tell { MayTell (length (seen_of seat.old)) (floor_of seat.old) t }
    ensures { HasTold seat.old moved.old t seat.new moved.new }
{
    seat.law_floor();
    // its contract says that the base and the bits are in range
    let _seen = seat.seen_dom(t.var);
    let mask = bits_told(base, t);
    if store.keep_set(seat, t.var, mask) {
        *moved = true;
    }
}

/// Makes a tell on a variable that is kept as a pair. The mark is set where the seat saw a bound move.
fn tell_pair(store: &MixStore, seat: &mut MixSeat, moved: &mut bool, t: Tell)
    requires store { IsSeatOf store.now seat.old }
    requires variable { IsPairAt (seen_of seat.old) t.var }
    requires tell { MayTell (length (seen_of seat.old)) (floor_of seat.old) t }
    ensures { HasTold seat.old moved.old t seat.new moved.new }
{
    seat.law_floor();
    let news = match t.side {
        Side::Low => store.tell_low(seat, t.var, t.bound),
        Side::High => store.tell_high(seat, t.var, t.bound),
    };
    if news {
        *moved = true;
    }
}

/// Makes a tell.
fn tell(store: &MixStore, seat: &mut MixSeat, moved: &mut bool, t: Tell)
    requires store { IsSeatOf store.now seat.old }
    requires tell { MayTell (length (seen_of seat.old)) (floor_of seat.old) t }
    ensures { HasTold seat.old moved.old t seat.new moved.new }
{
    match seat.seen_dom(t.var) {
        Dom::Bits { base, .. } => tell_bits(store, seat, moved, t, base),
        Dom::Pair { .. } => tell_pair(store, seat, moved, t),
    }
}

/// Takes a number from a variable that is kept as bits over a base. The mark is set where the seat saw a bit go.
fn drop_bit(store: &MixStore, seat: &mut MixSeat, moved: &mut bool, base: i64, var: u32, value: i64)
    requires store { IsSeatOf store.now seat.old }
    requires base { base ≡ base_in (dom_of (seen_of seat.old) var) }
    requires drop { MayDrop (seen_of seat.old) (floor_of seat.old) (var, value) }
    ensures { HasDropped seat.old moved.old (var, value) seat.new moved.new }
{
    seat.law_floor();
    // its contract says that the base and the bits are in range
    let _seen = seat.seen_dom(var);
    let mask = bits_without(base, value);
    if store.keep_set(seat, var, mask) {
        *moved = true;
    }
}

/// Makes a drop.
fn drop_one(store: &MixStore, seat: &mut MixSeat, moved: &mut bool, var: u32, value: i64)
    requires store { IsSeatOf store.now seat.old }
    requires drop { MayDrop (seen_of seat.old) (floor_of seat.old) (var, value) }
    ensures { HasDropped seat.old moved.old (var, value) seat.new moved.new }
{
    match seat.seen_dom(var) {
        Dom::Bits { base, .. } => drop_bit(store, seat, moved, base, var, value),
        Dom::Pair { .. } => unreachable!(),
    }
}

/// Tells the store each bound and each drop that it hears, and notes whether the seat saw a number go.
#[derive(Drop)]
struct Teller<'a> {
    store: &'a MixStore,
    seat: &'a mut MixSeat,
    moved: bool,
}

impl Hear for Teller<'_> {
    ghost can_hear = { λ h t. IsSeatOf h.store.now h.seat.now × MayTell (length (seen_of h.seat.now)) (floor_of h.seat.now) t };

    ghost hears = { λ h t after. HasTold h.seat.now h.moved t after.seat.now after.moved × (after.store.now ≡ h.store.now) × (after.seat.ghost_name ≡ h.seat.ghost_name) };

    fn hear(&mut self, t: Tell) {
        tell(self.store, self.seat, &mut self.moved, t);
    }
}

impl HearDrop for Teller<'_> {
    ghost can_hear = { λ h d. IsSeatOf h.store.now h.seat.now × MayDrop (seen_of h.seat.now) (floor_of h.seat.now) d };

    ghost hears = { λ h d after. HasDropped h.seat.now h.moved d after.seat.now after.moved × (after.store.now ≡ h.store.now) × (after.seat.ghost_name ≡ h.seat.ghost_name) };

    fn drop_value(&mut self, var: u32, value: i64) {
        drop_one(self.store, self.seat, &mut self.moved, var, value);
    }
}

/// Has the teller hear all tells of the kernel on the snapshot's bounds.
fn hear_tells(kernel: &Kernel, bounds: &BoxOf, teller: &mut Teller)
    requires store { IsSeatOf teller.old.store.now teller.old.seat.now }
    requires kernel { IsKernel (length bounds.now) kernel.now }
    requires proper { IsProperIn (vars_of kernel.now) bounds.now }
    requires tells { All (MayTell (length (seen_of teller.old.seat.now)) (floor_of teller.old.seat.now)) (tells kernel.now bounds.now) }
    ensures same_seat { teller.new.seat.ghost_name ≡ teller.old.seat.ghost_name }
    ensures store { teller.new.store.now ≡ teller.old.store.now }
    ensures stepped { Stepped teller.old.seat.now teller.old.moved teller.new.seat.now teller.new.moved }
    ensures kept { All (KeepsNumbers (seen_of teller.new.seat.now)) (tells kernel.now bounds.now) }
{
    visit_tells(kernel, bounds, teller);
}

/// Has the teller hear all drops of the kernel on the snapshot.
fn hear_drops(kernel: &Kernel, mix: &MixOf, teller: &mut Teller)
    requires store { IsSeatOf teller.old.store.now teller.old.seat.now }
    requires kernel { IsKernel (length mix.now) kernel.now }
    requires proper { IsProperIn (vars_of kernel.now) (hull mix.now) }
    requires drops { All (MayDrop (seen_of teller.old.seat.now) (floor_of teller.old.seat.now)) (drops kernel.now mix.now) }
    ensures same_seat { teller.new.seat.ghost_name ≡ teller.old.seat.ghost_name }
    ensures stepped { Stepped teller.old.seat.now teller.old.moved teller.new.seat.now teller.new.moved }
    ensures gone { All (IsGone (seen_of teller.new.seat.now)) (drops kernel.now mix.now) }
{
    visit_drops(kernel, mix, teller);
}

/// Makes all tells of the kernel on the snapshot's bounds.
fn tell_all(kernel: &Kernel, bounds: &BoxOf, store: &MixStore, seat: &mut MixSeat, moved: &mut bool)
    requires store { IsSeatOf store.now seat.old }
    requires kernel { IsKernel (length bounds.now) kernel.now }
    requires proper { IsProperIn (vars_of kernel.now) bounds.now }
    requires tells { All (MayTell (length (seen_of seat.old)) (floor_of seat.old)) (tells kernel.now bounds.now) }
    ensures stepped { Stepped seat.old moved.old seat.new moved.new }
    ensures kept { All (KeepsNumbers (seen_of seat.new)) (tells kernel.now bounds.now) }
{
    let mut teller = Teller {
        store,
        seat,
        moved: *moved,
    };
    hear_tells(kernel, bounds, &mut teller);
    *moved = teller.moved;
}

/// Makes all drops of the kernel on the snapshot.
fn drop_all(kernel: &Kernel, mix: &MixOf, store: &MixStore, seat: &mut MixSeat, moved: &mut bool)
    requires store { IsSeatOf store.now seat.old }
    requires kernel { IsKernel (length mix.now) kernel.now }
    requires proper { IsProperIn (vars_of kernel.now) (hull mix.now) }
    requires drops { All (MayDrop (seen_of seat.old) (floor_of seat.old)) (drops kernel.now mix.now) }
    ensures stepped { Stepped seat.old moved.old seat.new moved.new }
    ensures gone { All (IsGone (seen_of seat.new)) (drops kernel.now mix.now) }
{
    let mut teller = Teller {
        store,
        seat,
        moved: *moved,
    };
    hear_drops(kernel, mix, &mut teller);
    *moved = teller.moved;
}

/// Makes all tells of the kernel on the snapshot's bounds, and then all its drops on the snapshot.
pub(crate) fn tell_and_drop(
    kernel: &Kernel,
    bounds: &BoxOf,
    mix: &MixOf,
    store: &MixStore,
    seat: &mut MixSeat,
    moved: &mut bool,
)
    requires store { IsSeatOf store.now seat.old }
    requires kernel { IsKernel (length bounds.now) kernel.now }
    requires mix_kernel { IsKernel (length mix.now) kernel.now }
    requires proper { IsProperIn (vars_of kernel.now) bounds.now }
    requires mix_proper { IsProperIn (vars_of kernel.now) (hull mix.now) }
    requires tells { All (MayTell (length (seen_of seat.old)) (floor_of seat.old)) (tells kernel.now bounds.now) }
    requires drops { All (MayDrop (seen_of seat.old) (floor_of seat.old)) (drops kernel.now mix.now) }
    ensures stepped { Stepped seat.old moved.old seat.new moved.new }
    ensures kept { All (KeepsNumbers (seen_of seat.new)) (tells kernel.now bounds.now) }
    ensures gone { All (IsGone (seen_of seat.new)) (drops kernel.now mix.now) }
{
    tell_all(kernel, bounds, store, seat, moved);
    drop_all(kernel, mix, store, seat, moved);
}
