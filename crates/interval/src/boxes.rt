//! Boxes of bounds.

ghost use Rattle.std.specs.Prelude.{◌≡◌, ◌<◌, ◌≤◌, ◌≤ℤ◌, ◌-ℤ◌, unsigned_abs, length, IfOk, IsTrue, IsFalse, ◌↔◌};
ghost use Rattle.interval.specs.Limits.{IsBound, bound_limit, box_limit};
ghost use Rattle.interval.specs.Boxes.{low_of, high_of, put_of, IsInRange, IsProper, IsCrossed, IsPoint, InsideOrder, width_sum_of};

use memory::NoMemory;
use std::alloc::Global;
use std::marker::Model;

/// A pair of bounds for each variable, the lower first. Contracts see it as the list of the pairs.
#[derive(Drop)]
pub struct BoxOf {
    pairs: Vec<(i64, i64)>,
}

impl Model for BoxOf {
    ghost use Rattle.std.specs.Prelude.{List, ℤ};
    ghost use Rattle.interval.specs.Boxes.{IsInRange};

    ghost Value = { List (ℤ × ℤ) };

    ghost view = { λ b. b.pairs.items };

    ghost invariant = { λ b. IsInRange b.pairs.items };
}

#[tactic(auto, unfolding(crate::specs::Limits::box_limit))]
impl BoxOf {
    /// The box of these pairs.
    pub fn from_pairs(alloc: Global, pairs: &[(i64, i64)]) -> Result<BoxOf, NoMemory>
        requires { IsInRange pairs.now }
        ensures { IfOk result (λ b. b ≡ pairs.now) }
    {
        Ok(BoxOf {
            pairs: Vec::from_slice(alloc, pairs)?,
        })
    }

    /// Another box of the same pairs.
    pub fn copy(&self, alloc: Global) -> Result<BoxOf, NoMemory>
        ensures { IfOk result (λ b. b ≡ self.now) }
    {
        Ok(BoxOf {
            pairs: Vec::from_slice(alloc, &self.pairs)?,
        })
    }

    /// Takes the pairs of `other`, which has as many.
    pub fn copy_from(&mut self, other: &BoxOf)
        requires { length self.old ≡ length other.now }
        ensures { self.new ≡ other.now }
    {
        self.pairs.as_mut_slice().copy_from_slice(&other.pairs);
    }

    /// How many variables there are.
    pub fn len(&self) -> u32
        ensures value { result ≡ length self.now }
        ensures in_range { IsInRange self.now }
    {
        self.pairs.as_slice().len() as u32
    }

    /// The lower bound of variable `v`.
    pub fn low(&self, v: u32) -> i64
        requires { v < length self.now }
        ensures value { result ≡ low_of self.now v }
        ensures in_range { IsBound result }
    {
        self.pairs[v as usize].0
    }

    /// The upper bound of variable `v`.
    pub fn high(&self, v: u32) -> i64
        requires { v < length self.now }
        ensures value { result ≡ high_of self.now v }
        ensures in_range { IsBound result }
    {
        self.pairs[v as usize].1
    }

    /// Sets the bounds of variable `v`. They may be crossed.
    pub fn put(&mut self, v: u32, low: i64, high: i64)
        requires variable { v < length self.old }
        requires low_in_range { IsBound low }
        requires high_in_range { IsBound high }
        ensures { self.new ≡ put_of self.old v low high }
    {
        self.pairs[v as usize] = (low, high);
    }
}

/// Whether each variable is fixed to one number.
pub fn is_point(b: &BoxOf) -> bool
    ensures { IsTrue result ↔ IsPoint b.now }
{
    b.pairs.iter().all(|pair| pair.0 == pair.1)
}

/// Whether for some variable no number is left. If not, the box is proper.
pub fn is_crossed(b: &BoxOf) -> bool
    ensures crossed { IsTrue result ↔ IsCrossed b.now }
    ensures proper { IsFalse result ↔ IsProper b.now }
{
    b.pairs.iter().any(|pair| pair.0 > pair.1)
}

/// The sum of high - low over the variables of a proper box.
pub fn width_sum(b: &BoxOf) -> u128
    requires { IsProper b.now }
    ensures { result ≡ width_sum_of b.now }
{
    sum_of_widths(b.pairs.as_slice())
}

/// The order of boxes that lie inside each other, as a law: it does nothing.
pub fn law_inside_order()
    ensures { InsideOrder }
{}

fn sum_of_widths(pairs: &[(i64, i64)]) -> u128
    requires in_range { IsInRange pairs.now }
    requires proper { IsProper pairs.now }
    ensures { result ≡ width_sum_of pairs.now }
{
    let mut sum = 0;
    for pair in pairs {
        sum += width(pair.0, pair.1) as u128;
    }
    sum
}

#[tactic(auto, unfolding(crate::specs::Limits::bound_limit, crate::specs::Limits::largest_number))]
fn width(low: i64, high: i64) -> u64
    requires low_in_range { IsBound low }
    requires high_in_range { IsBound high }
    requires proper { low ≤ℤ high }
    ensures { result ≡ unsigned_abs (high -ℤ low) }
{
    (high - low) as u64
}
