//! How the names of a text are hashed.

ghost use Rattle.std.specs.Prelude.{◌≡◌};
ghost use Rattle.std.specs.Hash.DefaultHasher.{initial, write};
ghost use Rattle.sha2.specs.Sha512.{sha512};

use sha2::{Digest, Sha512};
use std::hash::{BuildHasher, DefaultHasher, Hasher};

/// Makes the hashers for the names of one text. Each begins with the digest of that text, so it can't be foreseen which names collide:
/// another name makes another text, and that another digest.
#[derive(Clone, Copy)]
pub(crate) struct NameHash {
    start: DefaultHasher,
}

impl NameHash {
    /// Of the names of this text.
    pub(crate) fn new(text: &[u8]) -> NameHash
        ensures { result.start ≡ write initial (sha512 text.now) }
    {
        let digest = Sha512::digest(text);
        let mut start = DefaultHasher::new();
        start.write(digest.as_slice());
        NameHash { start }
    }
}

impl BuildHasher for NameHash {
    type Hasher = DefaultHasher;

    ghost build_hasher = { λ hash. hash.start };

    #[inline(always)]
    fn build_hasher(&self) -> DefaultHasher {
        self.start
    }
}
