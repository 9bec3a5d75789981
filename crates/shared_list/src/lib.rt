//! An immutable list that contracts see as the plain list of its elements, and that is shared in place of being copied.
//!
//! A short list owns its elements, so that reading it takes no further step; where they are two it has them in itself. A longer
//! one stands once in memory, however many owners it has. It stands on nothing. Begin with `SharedList::from_vec` and
//! `SharedList::share`. That a long list is not copied is neither proved nor tested; threads may read it, which is tested.
#![tactic(auto)]

mod items;

ghost use Rattle.std.specs.Prelude.{◌≡◌, [], length, IfOk, IsTrue, ◌↔◌};

use crate::items::Items;
use std::alloc::{AllocError, Global};
use std::marker::Model;

/// A list of elements in order, seen by contracts as exactly that list.
#[derive(Drop)]
pub struct SharedList<T> {
    items: Items<T>,
}

impl<T> Model for SharedList<T> {
    ghost use Rattle.std.specs.Prelude.{List};
    ghost use Rattle.shared_list.specs.Items.{elements};

    ghost Value = { List T };

    ghost view = { λ l. elements l.items };
}

impl<T> SharedList<T> {
    /// The empty list. It takes no memory.
    pub fn empty(alloc: Global) -> SharedList<T>
        ensures { result ≡ [] }
    {
        SharedList {
            items: Items::Own(Vec::new(alloc)),
        }
    }

    /// The elements as a slice.
    pub fn as_slice(&self) -> &[T]
        ensures { result.now ≡ self.now }
    {
        self.items.as_slice()
    }

    /// How many elements there are.
    pub fn len(&self) -> usize
        ensures { result ≡ length self.now }
    {
        self.as_slice().len()
    }

    /// Whether there are none.
    pub fn is_empty(&self) -> bool
        ensures { IsTrue result ↔ (self.now ≡ []) }
    {
        self.as_slice().is_empty()
    }

    /// The mark that a long list was made with, where it has another owner. Contracts see neither; who keeps something
    /// by the mark compares the elements before it is used.
    pub fn mark_if_shared(&self) -> Option<usize> {
        self.items.mark_if_shared()
    }
}

impl<T: Copy> SharedList<T> {
    /// The list of these elements. A long one takes memory for what its owners share beside the elements.
    pub fn from_vec(items: Vec<T>) -> Result<SharedList<T>, AllocError>
        ensures { IfOk result (λ list. list ≡ items.items) }
    {
        SharedList::with_mark(items, 0)
    }

    /// The list of these elements, with a mark by which a long one is told from others.
    pub fn with_mark(items: Vec<T>, mark: usize) -> Result<SharedList<T>, AllocError>
        ensures { IfOk result (λ list. list ≡ items.items) }
    {
        Ok(SharedList {
            items: Items::of(items, mark)?,
        })
    }

    /// The same list for another owner. A short one is copied, and of a long one no element.
    pub fn share(&self, alloc: Global) -> Result<SharedList<T>, AllocError>
        ensures { IfOk result (λ list. list ≡ self.now) }
    {
        Ok(SharedList {
            items: self.items.share(alloc)?,
        })
    }
}
