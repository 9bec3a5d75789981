//! Sets of kernels.

ghost use Rattle.std.specs.Prelude.{◌≡◌, ◌<◌, ◌≤◌, ◌*◌, ◌&&◌, ℕ, true, false, length, replicate, slice_set, slice_index_or, All, IfOk};
ghost use Rattle.moved_set.specs.Asked.{IsFirst, IsLast, IsUnited, IsUnitedIn};

use crate::bits::{
    clear_pages, last_bit, mark_pages, next_bit, unite_masks, unite_masks_in, unite_masks_in_both,
};
use crate::mask::Mask;
use crate::trailed_set::TrailedSet;
use memory::NoMemory;
use std::alloc::Global;
use std::marker::Model;

/// Sets are of fewer kernels than this.
const MOST: usize = 281474976710656;

/// A set of kernels, as bits. Contracts see for each kernel whether it is in the set.
#[derive(Drop)]
pub struct AskedSet {
    // one word more than whole words of bits
    words: Vec<u32>,
    // for each 64 words whether there may be something in them; the last words, which are fewer, have no mark
    pages: Vec<bool>,
    count: usize,
}

impl Model for AskedSet {
    ghost use Rattle.std.specs.Prelude.{List, Bool};
    ghost use Rattle.moved_set.specs.Words.{set_of};
    ghost use Rattle.moved_set.specs.ConsistentAsked.{IsConsistent};

    ghost Value = { List Bool };

    ghost view = { λ s. set_of s.words.items s.count };

    ghost invariant = { IsConsistent };
}

impl AskedSet {
    /// The empty set of so many kernels. More than there can be in memory count as refused memory.
    pub fn new(alloc: Global, count: usize) -> Result<AskedSet, NoMemory>
        ensures { IfOk result (λ s. s ≡ replicate count false) }
    {
        if count >= MOST {
            return Err(NoMemory);
        }
        let words = vec![in alloc; 0; count / 32 + 1]?;
        let pages = vec![in alloc; false; count / 2048]?;
        Ok(AskedSet {
            words,
            pages,
            count,
        })
    }

    /// How many kernels there are, in the set or not.
    pub fn len(&self) -> usize
        ensures { result ≡ length self.now }
    {
        self.count
    }

    /// Takes all kernels out of the set, in time that grows with the pages in which there was something.
    pub fn clear(&mut self)
        ensures { self.new ≡ replicate (length self.old) false }
    {
        clear_pages(self.words.as_mut_slice(), self.pages.as_slice());
        self.pages.as_mut_slice().fill(false);
    }

    /// Puts all kernels into the set.
    pub fn ask_all(&mut self)
        ensures { self.new ≡ replicate (length self.old) true }
    {
        self.words.as_mut_slice().fill(u32::MAX);
        self.pages.as_mut_slice().fill(true);
    }

    /// Takes a kernel out of the set.
    pub fn forget(&mut self, j: usize)
        requires { j < length self.old }
        ensures { self.new ≡ slice_set self.old j false }
    {
        self.words[j / 32] &= !(1 << (j % 32));
    }

    /// Puts the kernels of the masks into the set too.
    pub(crate) fn unite(&mut self, row: &[Mask])
        requires { All (λ m. m.place * 32 ≤ length self.old) row.now }
        ensures { IsUnited self.old row.now self.new }
    {
        unite_masks(self.words.as_mut_slice(), row);
        mark_pages(self.pages.as_mut_slice(), row);
    }

    /// Puts those kernels of the masks into the set too that are in the other set.
    pub(crate) fn unite_in(&mut self, row: &[Mask], wanted: &TrailedSet)
        requires row { All (λ m. m.place * 32 ≤ length self.old) row.now }
        requires wanted { length wanted.now.current ≡ length self.old }
        ensures { IsUnitedIn self.old row.now (λ j. slice_index_or wanted.now.current j false) self.new }
    {
        unite_masks_in(self.words.as_mut_slice(), row, wanted.words());
        mark_pages(self.pages.as_mut_slice(), row);
    }

    /// Puts those kernels of the masks into the set too that are in both other sets.
    #[inline(always)]
    pub(crate) fn unite_in_both(&mut self, row: &[Mask], one: &TrailedSet, other: &TrailedSet)
        requires row { All (λ m. m.place * 32 ≤ length self.old) row.now }
        requires one { length one.now.current ≡ length self.old }
        requires other { length other.now.current ≡ length self.old }
        ensures { IsUnitedIn self.old row.now (λ j. slice_index_or one.now.current j false && slice_index_or other.now.current j false) self.new }
    {
        unite_masks_in_both(self.words.as_mut_slice(), row, one.words(), other.words());
        mark_pages(self.pages.as_mut_slice(), row);
    }

    /// The first kernel of the set from `from` on, or how many kernels there are.
    #[inline(always)]
    pub fn next(&self, from: usize) -> usize
        requires { from ≤ length self.now }
        ensures { IsFirst (λ j. slice_index_or self.now j false) from (length self.now) result }
    {
        next_bit(
            self.words.as_slice(),
            self.pages.as_slice(),
            from,
            self.count,
        )
    }

    /// The place behind the last kernel of the set before `to`, or 0.
    #[inline(always)]
    pub fn next_back(&self, to: usize) -> usize
        requires { to ≤ length self.now }
        ensures { IsLast (λ j. slice_index_or self.now j false) to result }
    {
        last_bit(self.words.as_slice(), self.pages.as_slice(), to)
    }
}
