//! How a bound is kept in a word.

ghost use Rattle.std.specs.Prelude.{◌≡◌, ◌≤◌};
ghost use Rattle.interval.specs.Limits.{IsBound};
ghost use Rattle.lattice_store.specs.Words.{last_epoch, word_of, epoch_of, code_of, low_code, high_code, low_value, high_value, IsOriginOf};

use interval::BOUND_LIMIT;

// One more than the greatest bound, so that both codes of a bound are above 0.
const MIDDLE: i64 = BOUND_LIMIT + 1;

// The greatest code, and then the same with every bit below its highest one set.
const GREATEST_CODE: u64 = 2 * MIDDLE as u64 - 1;

const FILLED_BY_2: u64 = GREATEST_CODE | GREATEST_CODE >> 1;

const FILLED_BY_4: u64 = FILLED_BY_2 | FILLED_BY_2 >> 2;

const FILLED_BY_8: u64 = FILLED_BY_4 | FILLED_BY_4 >> 4;

const FILLED_BY_16: u64 = FILLED_BY_8 | FILLED_BY_8 >> 8;

const FILLED_BY_32: u64 = FILLED_BY_16 | FILLED_BY_16 >> 16;

const FILLED: u64 = FILLED_BY_32 | FILLED_BY_32 >> 32;

// How many codes an epoch has room for: the least power of two that is enough.
const SPAN: u64 = FILLED + 1;

/// The last epoch that a word has room for.
pub(crate) const LAST_EPOCH: u32 = (u64::MAX / SPAN) as u32;

/// The epoch of a word.
pub(crate) fn epoch_in(word: u64) -> u64
    ensures { result ≡ epoch_of word }
{
    word / SPAN
}

// From the word of the bound 0 at an epoch the words of the other bounds lie as far as these do from 0. So a bound is
// read and written by one addition, where the epoch and the middle would be numbers too long for most instructions.

/// The word of the bound 0 at an epoch. It is the same for a lower and for an upper bound.
pub(crate) fn origin_word(epoch: u32) -> u64
    requires { epoch ≤ last_epoch }
    ensures { IsOriginOf epoch result }
{
    u64::from(epoch) * SPAN + MIDDLE as u64
}

/// The word of a lower bound at the epoch of a word of the bound 0.
pub(crate) fn low_word(origin: u64, bound: i64) -> u64
    requires origin { IsOriginOf (epoch_of origin) origin }
    requires bound { IsBound bound }
    ensures { result ≡ word_of (epoch_of origin) (low_code bound) }
{
    origin.wrapping_add_signed(bound)
}

/// The word of an upper bound at the epoch of a word of the bound 0.
pub(crate) fn high_word(origin: u64, bound: i64) -> u64
    requires origin { IsOriginOf (epoch_of origin) origin }
    requires bound { IsBound bound }
    ensures { result ≡ word_of (epoch_of origin) (high_code bound) }
{
    origin.wrapping_sub_signed(bound)
}

/// The lower bound that a word encodes, by the word of the bound 0 at its epoch.
pub(crate) fn low_bound(origin: u64, word: u64) -> i64
    requires { IsOriginOf (epoch_of word) origin }
    ensures { result ≡ low_value (code_of word) }
{
    word.wrapping_sub(origin).cast_signed()
}

/// The upper bound that a word encodes, by the word of the bound 0 at its epoch.
pub(crate) fn high_bound(origin: u64, word: u64) -> i64
    requires { IsOriginOf (epoch_of word) origin }
    ensures { result ≡ high_value (code_of word) }
{
    origin.wrapping_sub(word).cast_signed()
}
