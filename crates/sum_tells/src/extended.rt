//! Lists that share all their items but the last.

ghost use Rattle.std.specs.Prelude.{◌≡◌, ◌<◌, ◌++◌, [], ◌∷◌, length, slice_index_or, MatchOption};
ghost use Rattle.sum_tells.specs.Extended.{extended};

use shared_list::SharedList;
use std::marker::Model;

/// A list that may have other owners, and maybe one item more behind it. Contracts see the whole list.
#[derive(Drop)]
pub struct Extended<T> {
    list: SharedList<T>,
    last: Option<T>,
}

impl<T> Model for Extended<T> {
    ghost use Rattle.std.specs.Prelude.{List};
    ghost use Rattle.sum_tells.specs.Extended.{extended};

    ghost Value = { List T };

    ghost view = { λ e. extended e.list e.last };
}

impl<T: Copy> Extended<T> {
    /// This list, with nothing behind it.
    pub fn from_list(list: SharedList<T>) -> Extended<T>
        ensures { result ≡ list }
    {
        Extended { list, last: None }
    }

    /// This list with one item more behind it.
    pub fn with_last(list: SharedList<T>, last: T) -> Extended<T>
        ensures { result ≡ list ++ last ∷ [] }
    {
        Extended {
            list,
            last: Some(last),
        }
    }

    /// The list that may have other owners, and the item behind it.
    pub fn parts(&self) -> (&SharedList<T>, Option<T>)
        ensures { self.now ≡ extended result.0.now result.1 }
    {
        (&self.list, self.last)
    }

    /// The items, where none stands behind the list.
    pub fn as_slice(&self) -> Option<&[T]>
        ensures { MatchOption result (0 < length self.now) (λ items. items.now ≡ self.now) }
    {
        match self.last {
            Some(_) => None,
            None => Some(self.list.as_slice()),
        }
    }

    /// The items before the last one, and the last one.
    pub fn split_last(&self) -> Option<(&[T], T)>
        ensures { MatchOption result (self.now ≡ []) (λ parts. self.now ≡ parts.0.now ++ parts.1 ∷ []) }
    {
        match self.last {
            Some(last) => Some((self.list.as_slice(), last)),
            None => {
                let (last, front) = self.list.as_slice().split_last()?;
                Some((front, *last))
            }
        }
    }
}

impl Extended<u32> {
    /// How many items there are.
    pub fn len(&self) -> usize
        ensures { result ≡ length self.now }
    {
        match self.last {
            Some(_) => self.list.as_slice().len() + 1,
            None => self.list.len(),
        }
    }

    /// The item at this place.
    pub fn at(&self, place: usize) -> u32
        requires { place < length self.now }
        ensures { result ≡ slice_index_or self.now place result }
    {
        match self.last {
            Some(last) if place == self.list.len() => last,
            _ => self.list.as_slice()[place],
        }
    }
}
