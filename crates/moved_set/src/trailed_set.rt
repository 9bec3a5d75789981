//! Sets of kernels that go back to what they were.

ghost use Rattle.std.specs.Prelude.{◌≡◌, ◌<◌, ◌≤◌, ◌^◌, ◌+◌, ◌/◌, ◌⊎◌, ◌++◌, ℕ, true, false, [], ◌∷◌, drop, take, length, replicate, slice_set, slice_index_or, All, IfOk, OnOk, OnErr};
ghost use Rattle.moved_set.specs.Layers.{undone, Spares};
ghost use Rattle.moved_set.specs.Words.{has};

use crate::bits::has_bit_at;
use crate::mask::Mask;
use memory::NoMemory;
use std::alloc::Global;
use std::marker::Model;

/// A set of kernels that changes, and the sets that it was when it was left, the last one last. Contracts see these. The
/// changes since then are kept on a trail. So no set is copied, and each step costs what it changes.
#[derive(Drop)]
pub struct TrailedSet {
    // one word more than whole words of bits
    words: Vec<u32>,
    count: usize,
    // for each change the word, and what it was
    trail: Vec<Mask>,
    // for each set that was left how long the trail was
    marks: Vec<usize>,
}

impl Model for TrailedSet {
    ghost use Rattle.moved_set.specs.Layers.{Layers, layers_of};
    ghost use Rattle.moved_set.specs.ConsistentLayers.{IsConsistent};

    ghost Value = { Layers };

    ghost view = { λ s. layers_of s.words.items s.count s.trail.items s.marks.items };

    ghost invariant = { IsConsistent };
}

impl TrailedSet {
    /// The empty set of so many kernels, with none left. 2^32 kernels or more count as refused memory.
    pub fn new(alloc: Global, count: usize) -> Result<TrailedSet, NoMemory>
        ensures current { IfOk result (λ s. s.current ≡ replicate count false) }
        ensures stack { IfOk result (λ s. s.stack ≡ []) }
    {
        if u32::try_from(count).is_err() {
            return Err(NoMemory);
        }
        let words = vec![in alloc; 0; count / 32 + 1]?;
        Ok(TrailedSet {
            words,
            count,
            trail: Vec::new(alloc),
            marks: Vec::new(alloc),
        })
    }

    /// How many kernels there are, in the set or not.
    pub fn len(&self) -> usize
        ensures { result ≡ length self.now.current }
    {
        self.count
    }

    /// Whether a kernel is in the set.
    pub fn has(&self, j: usize) -> bool
        requires { j < length self.now.current }
        ensures { result ≡ slice_index_or self.now.current j false }
    {
        has_bit_at(self.words.as_slice(), j)
    }

    /// The words.
    pub(crate) fn words(&self) -> &[u32]
        ensures len { length result.now ≡ length self.now.current / 32 + 1 }
        ensures bits { (j : ℕ) → j < length self.now.current → has result.now j ≡ slice_index_or self.now.current j false }
    {
        self.words.as_slice()
    }

    /// Puts a kernel into the set. Errors: memory.
    #[inline(always)]
    pub fn put(&mut self, j: usize) -> Result<(), NoMemory>
        requires { j < length self.old.current }
        ensures current { OnOk result (self.new.current ≡ slice_set self.old.current j true) }
        ensures stack { OnOk result (self.new.stack ≡ self.old.stack) }
        ensures err { OnErr result (self.new ≡ self.old) }
    {
        if self.has(j) {
            return Ok(());
        }
        self.put_written(j)
    }

    /// The same, whether it changes the set or not.
    #[inline(never)]
    fn put_written(&mut self, j: usize) -> Result<(), NoMemory>
        requires { j < length self.old.current }
        ensures current { OnOk result (self.new.current ≡ slice_set self.old.current j true) }
        ensures stack { OnOk result (self.new.stack ≡ self.old.stack) }
        ensures err { OnErr result (self.new ≡ self.old) }
    {
        let word = self.words[j / 32] | (1 << (j % 32));
        write(self.words.as_mut_slice(), &mut self.trail, j / 32, word)
    }

    /// Takes a kernel out of the set. Errors: memory.
    #[inline(always)]
    pub fn remove(&mut self, j: usize) -> Result<(), NoMemory>
        requires { j < length self.old.current }
        ensures current { OnOk result (self.new.current ≡ slice_set self.old.current j false) }
        ensures stack { OnOk result (self.new.stack ≡ self.old.stack) }
        ensures err { OnErr result (self.new ≡ self.old) }
    {
        if !self.has(j) {
            return Ok(());
        }
        self.remove_written(j)
    }

    /// The same, whether it changes the set or not.
    #[inline(never)]
    fn remove_written(&mut self, j: usize) -> Result<(), NoMemory>
        requires { j < length self.old.current }
        ensures current { OnOk result (self.new.current ≡ slice_set self.old.current j false) }
        ensures stack { OnOk result (self.new.stack ≡ self.old.stack) }
        ensures err { OnErr result (self.new ≡ self.old) }
    {
        let word = self.words[j / 32] & !(1 << (j % 32));
        write(self.words.as_mut_slice(), &mut self.trail, j / 32, word)
    }

    /// Leaves the set as it is, to go back to it. Errors: memory.
    pub fn push(&mut self) -> Result<(), NoMemory>
        ensures current { OnOk result (self.new.current ≡ self.old.current) }
        ensures stack { OnOk result (self.new.stack ≡ self.old.stack ++ self.old.current ∷ []) }
        ensures err { OnErr result (self.new ≡ self.old) }
    {
        let mark = self.trail.as_slice().len();
        if self.marks.push(mark).is_err() {
            return Err(NoMemory);
        }
        Ok(())
    }

    /// Goes back to the set that was left last; where none was left it stays. It takes no memory.
    pub fn pop(&mut self)
        ensures back { (self.old.stack ≡ []) ⊎ (self.old.stack ≡ self.new.stack ++ self.new.current ∷ []) }
        ensures none { self.old.stack ≡ [] → self.new ≡ self.old }
        ensures length { length self.new.current ≡ length self.old.current }
    {
        if let Some(mark) = self.marks.pop() {
            undo(self.words.as_mut_slice(), &mut self.trail, mark);
        }
    }

    /// Takes all kernels out of the set, and forgets what was left.
    pub fn clear(&mut self)
        ensures current { self.new.current ≡ replicate (length self.old.current) false }
        ensures stack { self.new.stack ≡ [] }
    {
        self.words.as_mut_slice().fill(0);
        self.trail.clear();
        self.marks.clear();
    }

    /// Puts all kernels into the set, and forgets what was left.
    pub fn fill(&mut self)
        ensures current { self.new.current ≡ replicate (length self.old.current) true }
        ensures stack { self.new.stack ≡ [] }
    {
        self.words.as_mut_slice().fill(u32::MAX);
        self.trail.clear();
        self.marks.clear();
    }
}

/// Changes a word, and notes what it was. Mostly the trail has room for that.
#[inline(always)]
fn write(words: &mut [u32], trail: &mut Vec<Mask>, place: usize, word: u32) -> Result<(), NoMemory>
    requires inside { place < length words.old }
    requires small { place < 2 ^ 32 }
    ensures words { OnOk result (words.new ≡ slice_set words.old place word) }
    ensures spared { Spares words.old trail.old.items words.new trail.new.items }
    ensures err { OnErr result ((words.new ≡ words.old) × (trail.new.items ≡ trail.old.items)) }
{
    if trail.as_slice().len() < trail.capacity() {
        let change = Mask {
            place: place as u32,
            bits: words[place],
        };
        trail.push_reserved(change);
        words[place] = word;
        return Ok(());
    }
    write_growing(words, trail, place, word)
}

/// The same where the trail has to grow. It is a function of its own, so that no room is kept for it where the trail needn't.
#[inline(never)]
fn write_growing(
    words: &mut [u32],
    trail: &mut Vec<Mask>,
    place: usize,
    word: u32,
) -> Result<(), NoMemory>
    requires inside { place < length words.old }
    requires small { place < 2 ^ 32 }
    ensures words { OnOk result (words.new ≡ slice_set words.old place word) }
    ensures spared { Spares words.old trail.old.items words.new trail.new.items }
    ensures err { OnErr result ((words.new ≡ words.old) × (trail.new.items ≡ trail.old.items)) }
{
    let change = Mask {
        place: place as u32,
        bits: words[place],
    };
    if trail.push(change).is_err() {
        return Err(NoMemory);
    }
    words[place] = word;
    Ok(())
}

/// Undoes the changes from a place on, the last first.
fn undo(words: &mut [u32], trail: &mut Vec<Mask>, from: usize)
    requires place { from ≤ length trail.old.items }
    requires places { All (λ m. m.place < length words.old) trail.old.items }
    ensures words { words.new ≡ undone (drop from trail.old.items) words.old }
    ensures trail { trail.new.items ≡ take from trail.old.items }
{
    let mut place = trail.as_slice().len();
    while place > from {
        place -= 1;
        let change = trail[place];
        words[change.place as usize] = change.bits;
    }
    trail.truncate(from);
}
