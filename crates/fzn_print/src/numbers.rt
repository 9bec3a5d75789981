//! Numbers at the front of a text.

ghost use Rattle.std.specs.Prelude.{◌≡◌, ◌<◌, ◌≤◌, ◌++◌, ◌^◌, ℕ, ℤ, List, length, not, drop, true, unsigned_abs, MatchOption};
ghost use Rattle.std.specs.List.{position_or_len};
ghost use Rattle.std.specs.Fmt.{signed_decimal};
ghost use Rattle.fzn_print.specs.Lines.{ReadsNumber, ReadsValue, is_number_byte};

use std::str;

/// The bytes behind the first `count`; none where there are fewer.
fn skip(rest: &[u8], count: usize) -> &[u8]
    ensures { result.now ≡ drop count rest.now }
{
    if count <= rest.len() {
        &rest[count..]
    } else {
        &[]
    }
}

/// The bytes behind a text, where they begin with it.
pub(crate) fn behind<'a>(rest: &'a [u8], text: &[u8]) -> &'a [u8]
    ensures { (tail : List ℕ) → rest.now ≡ text.now ++ tail → result.now ≡ tail }
{
    skip(rest, text.len())
}

/// The bytes behind a text, or that they don't begin with it.
pub(crate) fn strip<'a>(rest: &'a [u8], text: &[u8]) -> Option<&'a [u8]>
    ensures { MatchOption result ((tail : List ℕ) → rest.now ≡ text.now ++ tail → ⊥) (λ after. rest.now ≡ text.now ++ after.now) }
{
    if rest.len() < text.len() {
        return None;
    }
    let (front, after) = rest.split_at(text.len());
    if front == text { Some(after) } else { None }
}

/// Whether a byte may be part of a number.
fn is_number_byte(byte: u8) -> bool
    ensures { result ≡ is_number_byte byte }
{
    byte == b'-' || byte.is_ascii_digit()
}

/// How many bytes at the front may be part of a number.
#[tactic(auto, using(std::proofs::lemmas::List::Sums::position_or_len_is))]
fn number_len(rest: &[u8]) -> usize
    ensures value { result ≡ position_or_len (λ b. not (is_number_byte b)) rest.now }
    ensures within { result ≤ length rest.now }
{
    for (len, byte) in rest.iter().enumerate() {
        if !is_number_byte(*byte) {
            return len;
        }
    }
    rest.len()
}

/// The number that is written as exactly these bytes; any other where none is.
fn number_in(piece: &[u8]) -> i64
    ensures { (z : ℤ) → unsigned_abs z < 2 ^ 63 → piece.now ≡ signed_decimal z → result ≡ z }
{
    let Ok(text) = str::from_utf8(piece) else {
        return 0;
    };
    let Ok(number) = i64::from_str_radix(text, 10) else {
        return 0;
    };
    number
}

/// The number at the front, and the bytes behind it.
fn read_number(rest: &[u8]) -> (i64, &[u8])
    ensures { ReadsNumber rest.now result.0 result.1.now }
{
    let (piece, after) = rest.split_at(number_len(rest));
    (number_in(piece), after)
}

/// The boolean at the front, and the bytes behind it.
fn read_truth(rest: &[u8]) -> (i64, &[u8])
    ensures { ReadsValue true rest.now result.0 result.1.now }
{
    match rest.first() {
        Some(b't') => (1, skip(rest, b"true".len())),
        _ => (0, skip(rest, b"false".len())),
    }
}

/// The value at the front, and the bytes behind it.
pub(crate) fn read_value(rest: &[u8], is_bool: bool) -> (i64, &[u8])
    ensures { ReadsValue is_bool rest.now result.0 result.1.now }
{
    if is_bool {
        read_truth(rest)
    } else {
        read_number(rest)
    }
}
