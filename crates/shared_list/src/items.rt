//! Where the elements of a list stand.

ghost use Rattle.std.specs.Prelude.{◌≡◌, IfOk};
ghost use Rattle.shared_list.specs.Items.{elements};

use std::alloc::{AllocError, Global};
use std::sync::ArcSlice;

/// So many elements are owned by each list alone.
const MOST_OWN: usize = 64;

/// Where the elements of a list stand.
#[derive(Drop)]
pub(crate) enum Items<T> {
    /// Two of them, in the list itself: most constraints are of two variables, and such a list takes no memory of its own.
    Two([T; 2]),
    /// With this list alone.
    Own(Vec<T>),
    /// With all owners together, and a mark by which they are told from other elements.
    Shared(ArcSlice<T, Global>, usize),
}

impl<T> Items<T> {
    /// The elements as a slice.
    pub(crate) fn as_slice(&self) -> &[T]
        ensures { result.now ≡ elements self.now }
    {
        match self {
            Items::Two(items) => items.as_slice(),
            Items::Own(items) => items.as_slice(),
            Items::Shared(items, _) => items.as_slice(),
        }
    }

    /// The mark, where there is another owner.
    pub(crate) fn mark_if_shared(&self) -> Option<usize> {
        match self {
            Items::Shared(items, mark) if ArcSlice::strong_count(items) > 1 => Some(*mark),
            _ => None,
        }
    }
}

impl<T: Copy> Items<T> {
    /// These elements, with a mark.
    pub(crate) fn of(items: Vec<T>, mark: usize) -> Result<Items<T>, AllocError>
        ensures { IfOk result (λ made. elements made ≡ items.items) }
    {
        match items.as_slice() {
            [first, second] => Ok(Items::Two([*first, *second])),
            some if some.len() <= MOST_OWN => Ok(Items::Own(items)),
            _ => Ok(Items::Shared(ArcSlice::from_vec(items)?, mark)),
        }
    }
    /// The same elements for another owner.
    pub(crate) fn share(&self, alloc: Global) -> Result<Items<T>, AllocError>
        ensures { IfOk result (λ shared. elements shared ≡ elements self.now) }
    {
        match self {
            Items::Two(items) => Ok(Items::Two(*items)),
            Items::Own(items) => Ok(Items::Own(Vec::from_slice(alloc, items.as_slice())?)),
            Items::Shared(items, mark) => Ok(Items::Shared(items.clone()?, *mark)),
        }
    }
}
