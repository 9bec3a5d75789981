//! What the declared names denote.

ghost use Rattle.std.specs.Prelude.{◌≡◌, [], ◌∷◌, ◌++◌, false, true, is_none, is_some, option_and_then, IfOk, OnErr};
ghost use Rattle.std.specs.Option.{option_copied};
ghost use Rattle.fzn_model.specs.Scopes.{meaning_of, scalar_of};

use crate::name_hash::NameHash;
use constraint_model::{Meaning, Scalar};
use indexmap::IndexMap;
use names::Name;
use std::alloc::{AllocError, Global};
use std::marker::Model;

/// The declared names, each with what it denotes. Contracts see them in the order of their declarations.
#[derive(Drop)]
pub(crate) struct Scope {
    entries: IndexMap<Vec<u8>, Meaning, NameHash>,
}

impl Model for Scope {
    ghost use Rattle.std.specs.Prelude.{map};
    ghost use Rattle.fzn_model.specs.Scopes.{Scope as Declared};

    ghost Value = { Declared };

    ghost view = { λ s. map (λ entry. (entry.0.items, entry.1)) s.entries.entries };
}

/// The boolean or the integer that a meaning is.
pub(crate) fn scalar_of(meaning: &Meaning) -> Option<Scalar>
    ensures { result ≡ scalar_of meaning.now }
{
    match meaning {
        Meaning::One(scalar) => Some(*scalar),
        Meaning::Row(_) | Meaning::Set(_) => None,
    }
}

impl Scope {
    /// No names of this text. It takes no memory.
    pub(crate) fn new(alloc: Global, text: &[u8]) -> Scope
        ensures { result ≡ [] }
    {
        Scope {
            entries: IndexMap::with_hasher(alloc, NameHash::new(text)),
        }
    }

    /// What `name` denotes, where it was declared.
    #[inline(always)]
    pub(crate) fn meaning(&self, name: &[u8]) -> Option<&Meaning>
        ensures { option_copied result ≡ meaning_of self.now name.now }
    {
        self.entries.get(name)
    }

    /// The boolean or the integer that `name` denotes, where it was declared and denotes one.
    #[inline(always)]
    pub(crate) fn scalar(&self, name: &[u8]) -> Option<Scalar>
        ensures { result ≡ option_and_then scalar_of (meaning_of self.now name.now) }
    {
        scalar_of(self.meaning(name)?)
    }

    /// Whether `name` was declared.
    pub(crate) fn contains(&self, name: &[u8]) -> bool
        ensures { result ≡ is_some (meaning_of self.now name.now) }
    {
        self.entries.contains_key(name)
    }

    /// Adds a name and answers yes, where it wasn't declared before. Where it was, it answers no, and the names are as before.
    /// Errors: memory, and the names are as before.
    pub(crate) fn declare(
        &mut self,
        alloc: Global,
        name: Name,
        meaning: Meaning,
    ) -> Result<bool, AllocError>
        ensures new { IfOk result (λ b. b ≡ is_none (meaning_of self.old name)) }
        ensures added { IfOk result (λ b. b ≡ true → self.new ≡ self.old ++ (name, meaning) ∷ []) }
        ensures again { IfOk result (λ b. b ≡ false → self.new ≡ self.old) }
        ensures unchanged { OnErr result (self.new ≡ self.old) }
    {
        if self.contains(name.as_slice()) {
            return Ok(false);
        }
        let key = Vec::from_slice(alloc, name.as_slice())?;
        self.entries.insert(key, meaning)?;
        Ok(true)
    }
}
