//! Masks: some numbers of one word.

ghost use Rattle.std.specs.Prelude.{◌≡◌, ◌<◌, ◌/◌, ◌==◌, ℕ, length};
ghost use Rattle.moved_set.specs.Words.{hits};

/// The numbers of a word whose bits are 1.
#[derive(Clone, Copy)]
pub(crate) struct Mask {
    /// The word.
    pub(crate) place: u32,
    /// The bits.
    pub(crate) bits: u32,
}

/// The mask of one number.
pub(crate) fn mask_of(j: u32) -> Mask
    ensures place { result.place ≡ j / 32 }
    ensures hits { (i : ℕ) → hits i result ≡ (i == j) }
{
    Mask {
        place: j / 32,
        bits: 1 << (j % 32),
    }
}
