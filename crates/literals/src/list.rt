//! A list of literals that is changed.

ghost use Rattle.std.specs.Prelude.{◌≡◌, ◌<◌, ◌++◌, ◌∷◌, [], ℕ, length, slice_index_or, OnOk, IfSome};
ghost use Rattle.std.specs.List.{All};
ghost use Rattle.tells.specs.declared.tell.Tell.{Tell};
ghost use Rattle.literals.specs.Literals.{IsPlaced, IsMore, IsLess};

use crate::literal::is_as_tight;
use memory::NoMemory;
use std::alloc::Global;
use std::marker::Model;
use tells::{Side, Tell};

/// Literals of a box, mostly one for each side of each variable. Contracts see the list.
#[derive(Drop)]
pub struct Literals {
    items: Vec<Tell>,
    // for each side of each variable a place where its literal may stand: it is looked at, and not relied on
    places: Vec<u32>,
}

impl Model for Literals {
    ghost use Rattle.std.specs.Prelude.{List};
    ghost use Rattle.tells.specs.declared.tell.Tell.{Tell};

    ghost Value = { List Tell };

    ghost view = { λ l. l.items.items };
}

/// Keeps where the literal of a side of a variable stands.
fn remember(places: &mut [u32], t: Tell, place: usize) {
    let slot = slot_of(t);
    if let Ok(place) = u32::try_from(place)
        && slot < places.len()
    {
        places[slot] = place;
    }
}

/// The place of a side of a variable.
fn slot_of(t: Tell) -> usize {
    match t.side {
        Side::Low => t.var as usize * 2,
        Side::High => t.var as usize * 2 + 1,
    }
}

impl Literals {
    /// None, of a box of so many variables.
    pub fn new(alloc: Global, count: u32) -> Result<Literals, NoMemory> {
        Ok(Literals {
            items: Vec::new(alloc),
            places: vec![in alloc; 0; count as usize * 2]?,
        })
    }

    /// The literals.
    pub fn as_slice(&self) -> &[Tell]
        ensures { result.now ≡ self.now }
    {
        self.items.as_slice()
    }

    /// The literal at a place.
    pub fn at(&self, place: usize) -> Tell
        requires { place < length self.now }
        ensures { (d : Tell) → result ≡ slice_index_or self.now place d }
    {
        self.items[place]
    }

    /// Where the literal of a side of a variable stands, if it is found.
    pub fn place_of(&self, t: Tell) -> Option<usize>
        ensures { IfSome result (λ place. place < length self.now) }
    {
        let slot = slot_of(t);
        if slot >= self.places.as_slice().len() {
            return None;
        }
        let place = self.places[slot] as usize;
        if place >= self.items.as_slice().len() {
            return None;
        }
        let found = self.items[place];
        if found.var == t.var && found.side == t.side {
            Some(place)
        } else {
            None
        }
    }

    /// Adds a literal, in the place of a wider one of the same side of the same variable where that is found.
    pub fn meet(&mut self, t: Tell) -> Result<(), NoMemory>
        ensures more { OnOk result (IsMore self.old t self.new) }
        ensures placed { OnOk result ((count : ℕ) → All (IsPlaced count) self.old → IsPlaced count t → All (IsPlaced count) self.new) }
    {
        match self.place_of(t) {
            Some(place) => {
                let found = self.items[place];
                if is_as_tight(found, t) {
                    return Ok(());
                }
                if is_as_tight(t, found) {
                    self.items[place] = t;
                    return Ok(());
                }
            }
            None => {}
        }
        self.append(t)
    }

    /// Adds a literal behind the others.
    fn append(&mut self, t: Tell) -> Result<(), NoMemory>
        ensures { OnOk result (self.new ≡ self.old ++ t ∷ []) }
    {
        let place = self.items.as_slice().len();
        if self.items.push(t).is_err() {
            return Err(NoMemory);
        }
        remember(self.places.as_mut_slice(), t, place);
        Ok(())
    }

    /// Takes the literal at a place out. The last one comes to its place.
    pub fn take(&mut self, place: usize)
        requires { place < length self.old }
        ensures less { (d : Tell) → IsLess self.old (slice_index_or self.old place d) self.new }
        ensures placed { (count : ℕ) → All (IsPlaced count) self.old → All (IsPlaced count) self.new }
    {
        self.items.swap_remove(place);
        if place < self.items.as_slice().len() {
            remember(self.places.as_mut_slice(), self.items[place], place);
        }
    }

    /// Leaves no literal.
    pub fn clear(&mut self)
        ensures { self.new ≡ [] }
    {
        self.items.clear();
    }
}
