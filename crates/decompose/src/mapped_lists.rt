//! The lists of a program that represent the long declared arrays which are named twice or more.

ghost use Rattle.std.specs.Prelude.{◌≡◌, ◌++◌, [], ◌∷◌, IfSome, OnOk, OnErr, Some, Contains};

use constraint_model::ArrayTerms;
use shared_list::SharedList;
use std::alloc::{AllocError, Global};
use std::collections::{BTreeMap, BTreeSet};

/// The mark of a list that one propagator alone has.
pub(crate) const NO_MARK: usize = 0;

/// The lists of an array: its variables where it is named as terms, its numbers where it is named as coefficients.
#[derive(Drop)]
pub(crate) struct MappedList {
    /// The place of the array among the declared ones.
    pub number: usize,
    /// The variables of its terms.
    pub variables: SharedList<u32>,
    /// The numbers of its terms.
    pub numbers: SharedList<i64>,
}

/// The lists of several arrays, found by the number of an array.
#[derive(Drop)]
pub(crate) struct MappedLists {
    /// The lists of each array.
    pub entries: Vec<MappedList>,
    /// The place of each array's number among them.
    places: BTreeMap<usize, usize>,
    /// The numbers of the arrays that were named, once or more.
    named: BTreeSet<usize>,
}

impl MappedLists {
    /// No lists. It takes no memory.
    pub(crate) fn new(alloc: Global) -> MappedLists
        ensures { result.entries.items ≡ [] }
    {
        MappedLists {
            entries: Vec::new(alloc),
            places: BTreeMap::new(alloc),
            named: BTreeSet::new(alloc),
        }
    }

    /// Whether something was added for the array of this number.
    pub(crate) fn has_number(&self, number: usize) -> bool {
        self.places.contains_key(&number)
    }

    /// Notes that an array of this number is named, and says whether one was before. The entries are the same.
    pub(crate) fn is_named_again(&mut self, number: usize) -> Result<bool, AllocError>
        ensures { self.new.entries.items ≡ self.old.entries.items }
    {
        let is_new = self.named.insert(number)?;
        Ok(!is_new)
    }

    /// The mark of the lists that are added next, by which they are told from those of the other entries.
    pub(crate) fn next_mark(&self) -> usize {
        self.entries.len() + 1
    }

    /// The lists of an array, where it is a declared one and they were added.
    pub(crate) fn find(&self, row: &ArrayTerms) -> Option<&MappedList>
        ensures { IfSome result (λ list. Contains self.now.entries.items list.now × (row.now.number ≡ Some list.now.number)) }
    {
        let number = row.number?;
        let place = *self.places.get(&number)?;
        let list = self.entries.get(place)?;
        if list.number == number {
            Some(list)
        } else {
            None
        }
    }

    /// Adds the lists of an array. Where memory is refused, the entries are as before.
    pub(crate) fn add(&mut self, list: MappedList) -> Result<(), AllocError>
        ensures added { OnOk result (self.new.entries.items ≡ self.old.entries.items ++ list ∷ []) }
        ensures unchanged { OnErr result (self.new.entries.items ≡ self.old.entries.items) }
    {
        let place = self.entries.len();
        self.places.insert(list.number, place)?;
        self.entries.push(list)?;
        Ok(())
    }
}
