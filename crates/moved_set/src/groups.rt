//! Lists of masks, one after the other in one list.

ghost use Rattle.std.specs.Prelude.{◌≡◌, ◌<◌, ◌≤◌, ◌+◌, ◌++◌, [], ◌∷◌, length, slice_index, slice_index_or, slice_range, IfOk, OnOk};
ghost use Rattle.moved_set.specs.Flat.{IsFlat};

use crate::mask::Mask;
use memory::NoMemory;
use std::alloc::Global;
use std::marker::Model;

/// Lists of masks. Contracts see the list of these lists; they lie one after the other in one.
#[derive(Drop)]
pub(crate) struct Groups {
    // where each list begins and the last ends
    starts: Vec<usize>,
    masks: Vec<Mask>,
}

impl Model for Groups {
    ghost use Rattle.std.specs.Prelude.{List};
    ghost use Rattle.moved_set.specs.declared.mask.Mask.{Mask};
    ghost use Rattle.moved_set.specs.Flat.{groups_of, IsFlat};

    ghost Value = { List (List Mask) };

    ghost view = { λ g. groups_of g.starts.items g.masks.items };

    ghost invariant = { λ g. IsFlat g.starts.items g.masks.items };
}

impl Groups {
    /// No lists.
    pub(crate) fn new(alloc: Global) -> Result<Groups, NoMemory>
        ensures { IfOk result (λ g. g ≡ []) }
    {
        Ok(Groups {
            starts: Vec::from_slice(alloc, &[0])?,
            masks: Vec::new(alloc),
        })
    }

    /// How many lists there are.
    pub(crate) fn len(&self) -> usize
        ensures { result ≡ length self.now }
    {
        self.starts.as_slice().len() - 1
    }

    /// The list at a place.
    pub(crate) fn group(&self, i: usize) -> &[Mask]
        requires { i < length self.now }
        ensures { result.now ≡ slice_index_or self.now i [] }
    {
        between(self.starts.as_slice(), self.masks.as_slice(), i, 1)
    }

    /// The list at a place and the one behind it.
    pub(crate) fn two(&self, i: usize) -> &[Mask]
        requires { i + 1 < length self.now }
        ensures { result.now ≡ slice_index_or self.now i [] ++ slice_index_or self.now (i + 1) [] }
    {
        between(self.starts.as_slice(), self.masks.as_slice(), i, 2)
    }

    /// The list at a place and the two behind it.
    pub(crate) fn three(&self, i: usize) -> &[Mask]
        requires { i + 2 < length self.now }
        ensures { result.now ≡ slice_index_or self.now i [] ++ slice_index_or self.now (i + 1) [] ++ slice_index_or self.now (i + 2) [] }
    {
        between(self.starts.as_slice(), self.masks.as_slice(), i, 3)
    }

    /// Appends a list to the others.
    pub(crate) fn push(&mut self, group: &[Mask]) -> Result<(), NoMemory>
        ensures { OnOk result (self.new ≡ self.old ++ group.now ∷ []) }
    {
        let start = self.masks.as_slice().len();
        self.masks.extend_from_slice(group)?;
        let end = self.masks.as_slice().len();
        if self.starts.push(end).is_err() {
            self.masks.truncate(start);
            return Err(NoMemory);
        }
        Ok(())
    }
}

/// The part of so many lists from one on.
fn between<'a>(starts: &[usize], masks: &'a [Mask], i: usize, count: usize) -> &'a [Mask]
    requires flat { IsFlat starts.now masks.now }
    requires rising { slice_index starts.now i ≤ slice_index starts.now (i + count) }
    requires place { i + count < length starts.now }
    ensures { result.now ≡ slice_range masks.now (slice_index starts.now i) (slice_index starts.now (i + count)) }
{
    &masks[starts[i]..starts[i + count]]
}
