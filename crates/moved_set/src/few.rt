//! A short list of variables, as long as they are few.

ghost use Rattle.std.specs.Prelude.{◌≡◌, [], true, false, IfOk};
ghost use Rattle.moved_set.specs.Listed.{HasPut};

use memory::NoMemory;
use std::alloc::Global;
use std::marker::Model;

/// How many variables are listed at most.
const MOST: usize = 64;

/// A list of variables that gives up when they are too many. Contracts see the variables that it has, and whether it
/// has all that were put in.
#[derive(Drop)]
pub(crate) struct Few {
    places: Vec<u32>,
    used: usize,
    whole: bool,
}

impl Model for Few {
    ghost use Rattle.std.specs.Prelude.{◌≡◌, ◌≤◌, take, length};
    ghost use Rattle.moved_set.specs.Listed.{Listed};

    ghost Value = { Listed };

    ghost view = { λ f. record { variables = take f.used f.places.items; whole = f.whole } };

    ghost invariant = { λ f. (f.used ≤ length f.places.items) × (length f.places.items ≡ 64) };
}

impl Few {
    /// No variables.
    pub(crate) fn new(alloc: Global) -> Result<Few, NoMemory>
        ensures variables { IfOk result (λ f. f.variables ≡ []) }
        ensures whole { IfOk result (λ f. f.whole ≡ true) }
    {
        let places = vec![in alloc; 0; MOST]?;
        Ok(Few {
            places,
            used: 0,
            whole: true,
        })
    }

    /// Whether all variables that were put in are listed.
    pub(crate) fn is_whole(&self) -> bool
        ensures { result ≡ self.now.whole }
    {
        self.whole
    }

    /// The variables.
    pub(crate) fn variables(&self) -> &[u32]
        ensures { result.now ≡ self.now.variables }
    {
        let (listed, _) = self.places.as_slice().split_at(self.used);
        listed
    }

    /// Lists one more variable if it is not known to be listed, or gives up.
    pub(crate) fn put(&mut self, v: u32, is_known: bool)
        ensures { HasPut v is_known self.old self.new }
    {
        if is_known {
            return;
        }
        if self.used < MOST {
            self.places[self.used] = v;
            self.used += 1;
        } else {
            self.whole = false;
        }
    }

    /// Lists nothing, as nothing is put in yet.
    pub(crate) fn clear(&mut self)
        ensures variables { self.new.variables ≡ [] }
        ensures whole { self.new.whole ≡ true }
    {
        self.used = 0;
        self.whole = true;
    }

    /// Lists nothing, as too much was put in.
    pub(crate) fn give_up(&mut self)
        ensures variables { self.new.variables ≡ [] }
        ensures whole { self.new.whole ≡ false }
    {
        self.used = 0;
        self.whole = false;
    }
}
