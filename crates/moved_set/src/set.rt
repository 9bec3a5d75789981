//! Sets of variables.

ghost use Rattle.std.specs.Prelude.{◌≡◌, ◌<◌, ◌+◌, ◌/◌, ℕ, true, false, length, replicate, slice_set, slice_index_or, All, Contains, IfOk, IfSome, IfNone};
ghost use Rattle.moved_set.specs.Listed.{AreAllOf, AreMany};
ghost use Rattle.moved_set.specs.Words.{has};

use crate::few::Few;
use memory::NoMemory;
use std::alloc::Global;
use std::marker::Model;

/// A set of variables, as bits, and as a list while they are few. Contracts see for each variable whether it is in the set.
#[derive(Drop)]
pub struct MovedSet {
    words: Vec<u32>,
    count: u32,
    few: Few,
}

impl Model for MovedSet {
    ghost use Rattle.std.specs.Prelude.{List, Bool};

    ghost Value = { List Bool };

    ghost use Rattle.moved_set.specs.Words.{set_of};

    ghost view = { λ s. set_of s.words.items s.count };

    ghost use Rattle.moved_set.specs.ConsistentSet.{IsConsistent};

    ghost invariant = { IsConsistent };
}

impl MovedSet {
    /// The empty set of so many variables. Errors: memory.
    pub fn new(alloc: Global, count: u32) -> Result<MovedSet, NoMemory>
        ensures { IfOk result (λ s. s ≡ replicate count false) }
    {
        let words = vec![in alloc; 0; word_count(count)]?;
        let few = Few::new(alloc)?;
        Ok(MovedSet { words, count, few })
    }

    /// How many variables there are, in the set or not.
    pub fn len(&self) -> u32
        ensures { result ≡ length self.now }
    {
        self.count
    }

    /// Whether the variable is in the set.
    pub fn contains(&self, v: u32) -> bool
        requires { v < length self.now }
        ensures { result ≡ slice_index_or self.now v false }
    {
        is_set(self.words.as_slice(), v)
    }

    /// Puts the variable into the set.
    pub fn mark(&mut self, v: u32)
        requires { v < length self.old }
        ensures { self.new ≡ slice_set self.old v true }
    {
        let is_known = is_set(self.words.as_slice(), v);
        self.few.put(v, is_known);
        self.words[v as usize / 32] |= 1 << (v % 32);
    }

    /// Takes all variables out of the set.
    pub fn clear(&mut self)
        ensures { self.new ≡ replicate (length self.old) false }
    {
        empty(self.words.as_mut_slice(), &self.few);
        self.few.clear();
    }

    /// Puts all variables into the set.
    pub fn mark_all(&mut self)
        ensures { self.new ≡ replicate (length self.old) true }
    {
        self.words.as_mut_slice().fill(u32::MAX);
        self.few.give_up();
    }

    /// The variables of the set, if they are few: none only where they are more than 64, or all that there are.
    pub fn few(&self) -> Option<&[u32]>
        ensures variables { IfSome result (λ variables. AreAllOf self.now variables.now) }
        ensures many { IfNone result (AreMany self.now) }
    {
        if self.few.is_whole() {
            Some(self.few.variables())
        } else {
            None
        }
    }
}

/// Takes all numbers out of the words. While they are few, and all are listed, no other words are looked at.
fn empty(words: &mut [u32], few: &Few)
    requires listed { few.now.whole ≡ true → All (λ v. v / 32 < length words.old) few.now.variables }
    ensures len { length words.new ≡ length words.old }
    ensures none { (v : ℕ) → (few.now.whole ≡ true → has words.old v ≡ true → Contains few.now.variables v) → has words.new v ≡ false }
{
    if few.is_whole() {
        clear_words(words, few.variables());
    } else {
        words.fill(0);
    }
}

/// Clears the words that hold the bits of these variables.
fn clear_words(words: &mut [u32], variables: &[u32])
    requires { All (λ v. v / 32 < length words.old) variables.now }
    ensures len { length words.new ≡ length words.old }
    ensures none { All (λ v. has words.new v ≡ false) variables.now }
    ensures others { (v : ℕ) → has words.old v ≡ false → has words.new v ≡ false }
{
    for i in 0..variables.len() {
        words[variables[i] as usize / 32] = 0;
    }
}

/// Whether the bit of a variable is 1.
fn is_set(words: &[u32], v: u32) -> bool
    requires { v / 32 < length words.now }
    ensures { result ≡ has words.now v }
{
    (words[v as usize / 32] >> (v % 32)) & 1 == 1
}

/// How many words hold the bits of so many variables.
fn word_count(count: u32) -> usize
    ensures { result ≡ (count + 31) / 32 }
{
    (count as usize + 31) / 32
}
