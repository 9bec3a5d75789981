//! The name of what a text declares, seen by contracts as the list of its bytes.
//!
//! Most names are short: such a one takes no memory of its own. It builds on `smallvec` alone. Begin with `Name::new`.
#![tactic(auto)]

ghost use Rattle.std.specs.Prelude.{◌≡◌, ◌≤◌, IfOk, IsOk, length};

use smallvec::SmallVec;
use std::alloc::{AllocError, Global};
use std::marker::Model;

/// A name, seen by contracts as the list of its bytes.
#[derive(Drop)]
pub struct Name {
    bytes: SmallVec<u8, 22>,
}

impl Model for Name {
    ghost use Rattle.std.specs.Prelude.{ℕ, List};

    ghost Value = { List ℕ };

    ghost view = { λ n. n.bytes.items };
}

impl Name {
    /// The name of these bytes. Errors: memory is refused for one of more than 22.
    #[inline(always)]
    pub fn new(alloc: Global, bytes: &[u8]) -> Result<Name, AllocError>
        ensures name { IfOk result (λ n. n ≡ bytes.now) }
        ensures short { length bytes.now ≤ 22 → IsOk result }
    {
        Ok(Name {
            bytes: SmallVec::from_slice(alloc, bytes)?,
        })
    }

    /// The bytes of the name.
    #[inline(always)]
    pub fn as_slice(&self) -> &[u8]
        ensures { result.now ≡ self.now }
    {
        self.bytes.as_slice()
    }
}
