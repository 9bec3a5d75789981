//! Nogoods that are kept.

ghost use Rattle.std.specs.Prelude.{◌≡◌, IfOk};

use guarded_tell::Tell;
use literals::Literals;
use memory::NoMemory;
use std::alloc::Global;

/// A nogood that is kept.
#[derive(Drop)]
pub struct Nogood {
    /// Its literals.
    pub literals: Vec<Tell>,
}

impl Nogood {
    /// Keeps these literals.
    pub fn new(alloc: Global, literals: &Literals) -> Result<Nogood, NoMemory>
        ensures { IfOk result (λ nogood. nogood.literals.items ≡ literals.now) }
    {
        Ok(Nogood {
            literals: Vec::from_slice(alloc, literals.as_slice())?,
        })
    }
}
