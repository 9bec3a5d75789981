//! Mixes of domains.

ghost use Rattle.std.specs.Prelude.{◌≡◌, ◌<◌, ◌^◌, ◌+◌, ◌-◌, ◌+ℤ◌, ◌≤ℤ◌, ◌&&◌, pos, int_le, length, slice_set, IfOk};
ghost use Rattle.interval.specs.Limits.{IsBound};
ghost use Rattle.interval.specs.Boxes.{low_of, high_of};
ghost use Rattle.bit_domain.specs.Mixes.{dom_between, dom_of, hull, mix_of, IsDomInRange, IsMixInRange};

use crate::Dom;
use crate::ends::{greatest_of, least_of};
use interval::BoxOf;
use memory::NoMemory;
use std::alloc::{AllocError, Global};
use std::marker::Model;

/// A domain for each variable. Contracts see it as the list of the domains.
#[derive(Drop)]
pub struct MixOf {
    doms: Vec<Dom>,
}

impl Model for MixOf {
    ghost use Rattle.std.specs.Prelude.{List};
    ghost use Rattle.bit_domain.specs.declared.dom.Dom.{Dom};
    ghost use Rattle.bit_domain.specs.Mixes.{IsMixInRange};

    ghost Value = { List Dom };

    ghost view = { λ m. m.doms.items };

    ghost invariant = { λ m. IsMixInRange m.doms.items };
}

#[tactic(auto, unfolding(interval::specs::Limits::box_limit))]
impl MixOf {
    /// The mix of a box: bits over the low of each pair with at least one number and at most 64, else the pair.
    pub fn from_box(alloc: Global, b: &BoxOf) -> Result<MixOf, NoMemory>
        ensures { IfOk result (λ m. m ≡ mix_of b.now) }
    {
        Ok(MixOf {
            doms: doms_of(alloc, b)?,
        })
    }

    /// Another mix of the same domains.
    pub fn copy(&self, alloc: Global) -> Result<MixOf, NoMemory>
        ensures { IfOk result (λ m. m ≡ self.now) }
    {
        Ok(MixOf {
            doms: Vec::from_slice(alloc, &self.doms)?,
        })
    }

    /// How many variables there are.
    pub fn len(&self) -> u32
        ensures value { result ≡ length self.now }
        ensures in_range { IsMixInRange self.now }
    {
        self.doms.as_slice().len() as u32
    }

    /// The domain of variable `v`.
    pub fn dom(&self, v: u32) -> Dom
        requires { v < length self.now }
        ensures value { result ≡ dom_of self.now v }
        ensures in_range { IsDomInRange result }
    {
        self.doms[v as usize]
    }

    /// Sets the domain of variable `v`, and leaves the others as they are.
    pub fn put(&mut self, v: u32, dom: Dom)
        requires variable { v < length self.old }
        requires in_range { IsDomInRange dom }
        ensures { self.new ≡ slice_set self.old v dom }
    {
        self.doms[v as usize] = dom;
    }

    /// The least number of variable `v`; 1 where it has bits and none is set.
    pub fn low(&self, v: u32) -> i64
        requires { v < length self.now }
        ensures value { result ≡ low_of (hull self.now) v }
        ensures in_range { IsBound result }
    {
        least_of(self.dom(v))
    }

    /// The greatest number of variable `v`; 0 where it has bits and none is set.
    pub fn high(&self, v: u32) -> i64
        requires { v < length self.now }
        ensures value { result ≡ high_of (hull self.now) v }
        ensures in_range { IsBound result }
    {
        greatest_of(self.dom(v))
    }
}

/// The domains of a box's pairs.
fn doms_of(alloc: Global, b: &BoxOf) -> Result<Vec<Dom>, AllocError>
    ensures value { IfOk result (λ doms. doms.items ≡ mix_of b.now) }
    ensures in_range { IfOk result (λ doms. IsMixInRange doms.items) }
{
    let mut doms = Vec::with_capacity(alloc, b.len() as usize)?;
    for v in 0..b.len() {
        doms.push(between(b.low(v), b.high(v)))?;
    }
    Ok(doms)
}

/// The domain of the numbers from `low` to `high`.
fn between(low: i64, high: i64) -> Dom
    requires low_in_range { IsBound low }
    requires high_in_range { IsBound high }
    ensures { result ≡ dom_between low high }
{
    if is_short(low, high) {
        short_between(low, high)
    } else {
        Dom::Pair { low, high }
    }
}

/// Whether there is at least one number from `low` to `high`, and at most 64.
#[tactic(auto, unfolding(interval::specs::Limits::bound_limit, interval::specs::Limits::largest_number))]
fn is_short(low: i64, high: i64) -> bool
    requires low_in_range { IsBound low }
    requires high_in_range { IsBound high }
    ensures { result ≡ (int_le low high && int_le high (low +ℤ pos 63)) }
{
    low <= high && high <= low + 63
}

/// The domain of the numbers from `low` to `high`, as bits.
fn short_between(low: i64, high: i64) -> Dom
    requires low_in_range { IsBound low }
    requires high_in_range { IsBound high }
    requires some { low ≤ℤ high }
    requires short { high ≤ℤ (low +ℤ pos 63) }
    ensures { result ≡ dom_between low high }
{
    let last = distance(low, high);
    Dom::Bits {
        base: low,
        set: first_numbers(last),
    }
}

/// How far `high` is from `low`.
#[tactic(auto, unfolding(interval::specs::Limits::bound_limit, interval::specs::Limits::largest_number))]
fn distance(low: i64, high: i64) -> u32
    requires low_in_range { IsBound low }
    requires high_in_range { IsBound high }
    requires some { low ≤ℤ high }
    requires short { high ≤ℤ (low +ℤ pos 63) }
    ensures value { low +ℤ pos result ≡ high }
    ensures small { result < 64 }
{
    (high - low) as u32
}

/// The set of the numbers from 0 to `last`.
fn first_numbers(last: u32) -> u64
    requires { last < 64 }
    ensures { result ≡ 2 ^ (last + 1) - 1 }
{
    u64::MAX >> (63 - last)
}
