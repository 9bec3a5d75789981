//! A copy of the domains of a kernel's variables, by single loads.

ghost use Rattle.std.specs.Prelude.{◌≡◌, ◌<◌, ◌^◌, ◌≤ℤ◌, ◌<ℤ◌, ℤ, length, slice_set};
ghost use Rattle.std.specs.Bool.{OnTrue, OnFalse};
ghost use Rattle.interval.specs.Boxes.{low_of, high_of, put_of};
ghost use Rattle.guarded_tell.specs.Kernels.{vars_of, IsKernel};
ghost use Rattle.bit_domain.specs.declared.dom.Dom.TheVariants.{Pair};
ghost use Rattle.bit_domain.specs.Mixes.{dom_of, hull, Has, IsDomInRange};
ghost use Rattle.mix_store.specs.Domains.{IsBitsAt, IsPairAt, set_of};
ghost use Rattle.mix_rounds.specs.Steps.{low_bound_of, high_bound_of};
ghost use Rattle.mix_store.specs.Seats.{seen_of, IsSeatOf};
ghost use Rattle.mix_rounds.specs.Steps.{Stepped, IsSnapshot};
ghost use Rattle.mix_rounds.specs.Heard.{HaveNumbers};
ghost use Rattle.mix_rounds.specs.Lanes.{FitsLength};

use crate::cache::Cache;
use bit_domain::{Dom, MixOf, law_hull};
use guarded_tell::Kernel;
use mix_store::{MixSeat, MixStore};

/// Loads the bits of a variable. The mark is set where they aren't those that the seat had seen.
fn ask_bits(store: &MixStore, seat: &mut MixSeat, moved: &mut bool, v: u32, before: u64)
    requires store { IsSeatOf store.now seat.old }
    requires variable { IsBitsAt (seen_of seat.old) v }
    requires before { before ≡ set_of (seen_of seat.old) v }
    ensures stepped { Stepped seat.old moved.old seat.new moved.new }
    ensures seen { seen_of seat.new ≡ slice_set (seen_of seat.old) v (dom_of (seen_of seat.new) v) }
{
    let set = store.ask_set(seat, v);
    if set != before {
        *moved = true;
    }
}

/// Loads the lower bound of a variable. The mark is set where it isn't the one that the seat had seen.
fn ask_low(store: &MixStore, seat: &mut MixSeat, moved: &mut bool, v: u32, before: i64)
    requires store { IsSeatOf store.now seat.old }
    requires variable { IsPairAt (seen_of seat.old) v }
    requires before { before ≡ low_bound_of (seen_of seat.old) v }
    ensures stepped { Stepped seat.old moved.old seat.new moved.new }
    ensures seen { seen_of seat.new ≡ slice_set (seen_of seat.old) v (dom_of (seen_of seat.new) v) }
    ensures high { high_bound_of (seen_of seat.new) v ≡ high_bound_of (seen_of seat.old) v }
{
    let low = store.ask_low(seat, v);
    if before < low {
        *moved = true;
    }
}

/// Loads the upper bound of a variable. The mark is set where it isn't the one that the seat had seen.
fn ask_high(store: &MixStore, seat: &mut MixSeat, moved: &mut bool, v: u32, before: i64)
    requires store { IsSeatOf store.now seat.old }
    requires variable { IsPairAt (seen_of seat.old) v }
    requires before { before ≡ high_bound_of (seen_of seat.old) v }
    ensures stepped { Stepped seat.old moved.old seat.new moved.new }
    ensures seen { seen_of seat.new ≡ slice_set (seen_of seat.old) v (dom_of (seen_of seat.new) v) }
{
    let high = store.ask_high(seat, v);
    if high < before {
        *moved = true;
    }
}

/// Loads both bounds of a variable, where the seat had seen these.
fn ask_pair(store: &MixStore, seat: &mut MixSeat, moved: &mut bool, v: u32, low: i64, high: i64)
    requires store { IsSeatOf store.now seat.old }
    requires variable { v < length (seen_of seat.old) }
    requires before { dom_of (seen_of seat.old) v ≡ Pair low high }
    ensures stepped { Stepped seat.old moved.old seat.new moved.new }
    ensures seen { seen_of seat.new ≡ slice_set (seen_of seat.old) v (dom_of (seen_of seat.new) v) }
{
    ask_low(store, seat, moved, v, low);
    ask_high(store, seat, moved, v, high);
}

/// Loads each word of a variable.
fn load(store: &MixStore, seat: &mut MixSeat, moved: &mut bool, v: u32)
    requires store { IsSeatOf store.now seat.old }
    requires variable { v < length (seen_of seat.old) }
    ensures stepped { Stepped seat.old moved.old seat.new moved.new }
    ensures seen { seen_of seat.new ≡ slice_set (seen_of seat.old) v (dom_of (seen_of seat.new) v) }
{
    match seat.seen_dom(v) {
        Dom::Bits { set, .. } => ask_bits(store, seat, moved, v, set),
        Dom::Pair { low, high } => ask_pair(store, seat, moved, v, low, high),
    }
}

/// The domain of a variable after one load of each of its words. The mark is set where that was news.
fn ask(store: &MixStore, seat: &mut MixSeat, moved: &mut bool, v: u32) -> Dom
    requires store { IsSeatOf store.now seat.old }
    requires variable { v < length (seen_of seat.old) }
    ensures stepped { Stepped seat.old moved.old seat.new moved.new }
    ensures seen { seen_of seat.new ≡ slice_set (seen_of seat.old) v (dom_of (seen_of seat.new) v) }
    ensures value { result ≡ dom_of (seen_of seat.new) v }
    ensures in_range { IsDomInRange result }
{
    load(store, seat, moved, v);
    seat.seen_dom(v)
}

/// Whether a number is left for a variable.
fn has_number(mix: &MixOf, v: u32) -> bool
    requires { v < length mix.now }
    ensures proper { OnTrue result (low_of (hull mix.now) v ≤ℤ high_of (hull mix.now) v) }
    ensures crossed { OnFalse result (high_of (hull mix.now) v <ℤ low_of (hull mix.now) v) }
{
    mix.low(v) <= mix.high(v)
}

/// Copies the domain of a variable, and says whether a number is left for it.
fn look(store: &MixStore, seat: &mut MixSeat, moved: &mut bool, cache: &mut Cache, v: u32) -> bool
    requires store { IsSeatOf store.now seat.old }
    requires variable { v < length (seen_of seat.old) }
    requires length { FitsLength (length (seen_of seat.old)) cache.old }
    ensures stepped { Stepped seat.old moved.old seat.new moved.new }
    ensures seen { seen_of seat.new ≡ slice_set (seen_of seat.old) v (dom_of (seen_of seat.new) v) }
    ensures mix { cache.new.mix ≡ slice_set cache.old.mix v (dom_of (seen_of seat.new) v) }
    ensures bounds { cache.new.bounds ≡ put_of cache.old.bounds v (low_of (hull (seen_of seat.new)) v) (high_of (hull (seen_of seat.new)) v) }
    ensures lane { cache.new.lane ≡ cache.old.lane }
    ensures turn { cache.new.turn ≡ cache.old.turn }
    ensures proper { OnTrue result (low_of (hull (seen_of seat.new)) v ≤ℤ high_of (hull (seen_of seat.new)) v) }
    ensures crossed { OnFalse result ((z : ℤ) → ¬ Has (dom_of (seen_of seat.new) v) z) }
{
    law_hull();
    let dom = ask(store, seat, moved, v);
    cache.mix.put(v, dom);
    let low = cache.mix.low(v);
    let high = cache.mix.high(v);
    cache.bounds.put(v, low, high);
    has_number(&cache.mix, v)
}

/// Copies the domains of the kernel's variables, unless one of them has no number left.
pub(crate) fn take_snapshot(
    kernel: &Kernel,
    store: &MixStore,
    seat: &mut MixSeat,
    moved: &mut bool,
    cache: &mut Cache,
) -> bool
    requires store { IsSeatOf store.now seat.old }
    requires kernel { IsKernel (length (seen_of seat.old)) kernel.now }
    requires length { FitsLength (length (seen_of seat.old)) cache.old }
    ensures length { FitsLength (length (seen_of seat.old)) cache.new }
    ensures stepped { Stepped seat.old moved.old seat.new moved.new }
    ensures taken { OnTrue result (IsSnapshot (vars_of kernel.now) (seen_of seat.new) cache.new.mix cache.new.bounds) }
    ensures crossed { OnFalse result (¬ HaveNumbers (vars_of kernel.now) (seen_of seat.new)) }
{
    for place in 0..kernel.var_count() {
        let v = kernel.var_at(place);
        if !look(store, seat, moved, cache, v) {
            return false;
        }
    }
    true
}
