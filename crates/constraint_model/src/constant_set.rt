//! Numbers that are found by their value, whatever they are.

ghost use Rattle.std.specs.Prelude.{◌≡◌, ◌≤◌, ◌++◌, ◌∷◌, [], take, length, IsTrue, ◌↔◌, OnOk, OnErr, Some, slice_get};
ghost use Rattle.std.specs.List.{position_or_len};
ghost use Rattle.std.specs.Ordering.{int_eq};
ghost use Rattle.constraint_model.specs.Fits.{add_once};
ghost use Rattle.constraint_model.specs.Arrays.{IsNumbered};
ghost use Rattle.constraint_model.specs.Found.{HasConstants};

use crate::model::{ArrayTerms, Term};
use crate::places::Places;
use list_of::ListOf;
use shared_list::SharedList;
use std::alloc::{AllocError, Global};
use std::collections::BTreeSet;
use std::marker::Model;

/// Numbers, each once, in the order in which they were added, and beside them the declared arrays whose constants they may be.
/// No choice of numbers makes one slow to find, as it would in a table by hashes that whoever writes a text can foresee.
#[derive(Drop)]
pub struct Constants {
    /// The numbers in their order.
    numbers: Vec<i64>,
    /// The place of each. A number that was taken out again may still be here.
    places: Places,
    /// The terms of the declared arrays.
    arrays: ListOf<SharedList<Term>>,
    /// The places of those whose constants are all among the numbers, so that they needn't be looked up again.
    counted: BTreeSet<usize>,
}

impl Model for Constants {
    ghost use Rattle.constraint_model.specs.Found.{AreConstants, KnownConstants};

    ghost Value = { KnownConstants };

    ghost view = { λ c. record { numbers = c.numbers.items; arrays = c.arrays } };

    ghost invariant = { λ c. AreConstants c.places c.numbers.items c.arrays c.counted };
}

/// Whether this number is at this place.
fn stands_at(numbers: &[i64], place: usize, number: i64) -> bool
    ensures { IsTrue result ↔ (slice_get numbers.now place ≡ Some number) }
{
    place < numbers.len() && numbers[place] == number
}

impl Constants {
    /// No numbers and no arrays. It takes no memory.
    pub fn new(alloc: Global) -> Constants
        ensures { result ≡ record { numbers = []; arrays = [] } }
    {
        Constants {
            numbers: Vec::new(alloc),
            places: Places::new(alloc),
            arrays: ListOf::new(alloc),
            counted: BTreeSet::new(alloc),
        }
    }

    /// How many numbers there are.
    pub fn len(&self) -> usize
        ensures { result ≡ length self.now.numbers }
    {
        self.numbers.len()
    }

    /// The numbers in the order in which they were added.
    pub fn as_slice(&self) -> &[i64]
        ensures { result.now ≡ self.now.numbers }
    {
        self.numbers.as_slice()
    }

    /// How many arrays there are.
    pub fn array_count(&self) -> usize
        ensures { result ≡ length self.now.arrays }
    {
        self.arrays.len()
    }

    /// Adds a declared array behind the others. Where memory is refused, all is as before.
    pub fn add_array(&mut self, terms: SharedList<Term>) -> Result<(), AllocError>
        ensures added { OnOk result (self.new ≡ record { numbers = self.old.numbers; arrays = self.old.arrays ++ terms ∷ [] }) }
        ensures unchanged { OnErr result (self.new ≡ self.old) }
    {
        self.arrays.push(terms)?;
        Ok(())
    }

    /// The arrays.
    pub fn into_arrays(self) -> ListOf<SharedList<Term>>
        ensures { result ≡ self.arrays }
    {
        let Constants {
            numbers: _,
            places: _,
            arrays,
            counted: _,
        } = self;
        arrays
    }

    /// The place of a number, or how many there are where it isn't among them.
    pub fn place_of(&self, number: i64) -> usize
        ensures place { result ≡ position_or_len (int_eq number) self.now.numbers }
        ensures within { result ≤ length self.now.numbers }
    {
        let Some(place) = self.places.get(number) else {
            return self.len();
        };
        if stands_at(self.numbers.as_slice(), place, number) {
            place
        } else {
            self.len()
        }
    }

    /// Adds a number, where it isn't there yet. Where memory is refused, all is as before.
    pub fn add(&mut self, number: i64) -> Result<(), AllocError>
        ensures added { OnOk result (self.new.numbers ≡ add_once self.old.numbers number) }
        ensures unchanged { OnErr result (self.new.numbers ≡ self.old.numbers) }
        ensures arrays { self.new.arrays ≡ self.old.arrays }
    {
        let count = self.len();
        if self.place_of(number) < count {
            return Ok(());
        }
        self.places.put(number, count)?;
        self.numbers.push(number)?;
        Ok(())
    }

    /// Whether this is a declared array that was counted.
    pub(crate) fn has_counted(&self, row: &ArrayTerms) -> bool
        requires { IsNumbered self.now.arrays row.now }
        ensures { IsTrue result → HasConstants self.now.numbers row.now.terms }
    {
        match row.number {
            Some(number) => self.counted.contains(&number),
            None => false,
        }
    }

    /// Notes that an array's constants are all there, where it is a declared one. Contracts see the same.
    pub(crate) fn keep_row(&mut self, row: &ArrayTerms) -> Result<(), AllocError>
        requires numbered { IsNumbered self.old.arrays row.now }
        requires there { HasConstants self.old.numbers row.now.terms }
        ensures { self.new ≡ self.old }
    {
        if let Some(number) = row.number {
            self.counted.insert(number)?;
        }
        Ok(())
    }

    /// Keeps the first `count` numbers, and counts no array, since the constants of those that were counted may be among the
    /// others.
    #[tactic(auto, using(crate::proofs::FoundLaws::finds_front, crate::proofs::CountedLaws::none_counted))]
    pub fn truncate(&mut self, count: usize)
        ensures { self.new ≡ record { numbers = take count self.old.numbers; arrays = self.old.arrays } }
    {
        self.counted.clear();
        self.numbers.truncate(count);
    }
}
