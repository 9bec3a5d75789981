//! What a seat has seen, read without a step, and written.

ghost use Rattle.std.specs.Prelude.{◌≡◌, ◌<◌, length};
ghost use Rattle.interval.specs.Limits.{IsBound};
ghost use Rattle.bit_domain.specs.Bits.{IsSubset};
ghost use Rattle.bit_domain.specs.Mixes.{dom_of, IsDomInRange};
ghost use Rattle.mix_store.specs.Domains.{IsBitsAt, IsPairAt, set_of, low_of, high_of, set_put, low_put, high_put, tighter_of, AreAlike};
ghost use Rattle.mix_store.specs.Seats.{seen_of};

use crate::seat::MixSeat;
use bit_domain::{Dom, MixOf};

impl MixSeat {
    /// The domain of variable `v` as the seat has seen it. It looks at no shared word.
    pub fn seen_dom(&self, v: u32) -> Dom
        requires { v < length (seen_of self.now) }
        ensures value { result ≡ dom_of (seen_of self.now) v }
        ensures in_range { IsDomInRange result }
    {
        self.seen.dom(v)
    }
}

/// The bits of a variable.
pub(crate) fn set_at(seen: &MixOf, v: u32) -> u64
    requires { v < length seen.now }
    ensures { result ≡ set_of seen.now v }
{
    match seen.dom(v) {
        Dom::Bits { set, .. } => set,
        Dom::Pair { .. } => 0,
    }
}

/// The lower bound of a variable.
pub(crate) fn low_at(seen: &MixOf, v: u32) -> i64
    requires { v < length seen.now }
    ensures { result ≡ low_of seen.now v }
{
    match seen.dom(v) {
        Dom::Bits { .. } => 0,
        Dom::Pair { low, .. } => low,
    }
}

/// The upper bound of a variable.
pub(crate) fn high_at(seen: &MixOf, v: u32) -> i64
    requires { v < length seen.now }
    ensures { result ≡ high_of seen.now v }
{
    match seen.dom(v) {
        Dom::Bits { .. } => 0,
        Dom::Pair { high, .. } => high,
    }
}

/// Keeps fewer bits of a variable.
pub(crate) fn put_set(seen: &mut MixOf, v: u32, set: u64)
    requires variable { IsBitsAt seen.old v }
    requires subset { IsSubset set (set_of seen.old v) }
    ensures { seen.new ≡ set_put seen.old v set }
{
    if let Dom::Bits { base, .. } = seen.dom(v) {
        seen.put(v, Dom::Bits { base, set });
    }
}

/// Sets the lower bound of a variable.
pub(crate) fn put_low(seen: &mut MixOf, v: u32, low: i64)
    requires variable { IsPairAt seen.old v }
    requires in_range { IsBound low }
    ensures { seen.new ≡ low_put seen.old v low }
{
    if let Dom::Pair { high, .. } = seen.dom(v) {
        seen.put(v, Dom::Pair { low, high });
    }
}

/// Sets the upper bound of a variable.
pub(crate) fn put_high(seen: &mut MixOf, v: u32, high: i64)
    requires variable { IsPairAt seen.old v }
    requires in_range { IsBound high }
    ensures { seen.new ≡ high_put seen.old v high }
{
    if let Dom::Pair { low, .. } = seen.dom(v) {
        seen.put(v, Dom::Pair { low, high });
    }
}
