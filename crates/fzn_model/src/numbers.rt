//! The numbers that integer literals write.

ghost use Rattle.std.specs.Prelude.{◌≡◌, ◌≤◌, true, Some, None, MatchOption, IfSome};
ghost use Rattle.std.specs.Str.Parse.{digits_value};
ghost use Rattle.constraint_model.specs.Numbers.{largest};
ghost use Rattle.fzn_model.specs.Literals.{is_numeral, number_in, natural_of, number_of};

use constraint_model::LARGEST;
use std::str;

/// The number that digits of this base write, where they are nothing else and the profile has it.
#[tactic(auto, using(crate::proofs::NumberLaws::number_laws), unfolding(crate::specs::Literals::number_in, constraint_model::specs::Numbers::largest))]
#[inline(never)]
fn number_in(base: u32, digits: &[u8]) -> Option<u64>
    requires low { 2 ≤ base }
    requires high { base ≤ 16 }
    ensures value { result ≡ number_in base digits.now }
    ensures small { IfSome result (λ n. n ≤ largest) }
{
    // `from_str_radix` takes a plus in front; a literal of a text has none.
    if digits.first().copied() == Some(b'+') {
        return None;
    }
    let text = str::from_utf8(digits).ok()?;
    let number = u64::from_str_radix(text, base).ok()?;
    if number <= LARGEST as u64 {
        Some(number)
    } else {
        None
    }
}

/// The number that decimal digits write; none where it may be above 999999999, there are no digits, or a byte is none.
#[inline(always)]
fn short_number(digits: &[u8]) -> Option<u64>
    ensures { IfSome result (λ n. (is_numeral 10 digits.now ≡ true) × (n ≡ digits_value 10 digits.now) × (n ≤ 999999999)) }
{
    let mut number: u64 = 0;
    for digit in digits {
        if !digit.is_ascii_digit() || number > 99_999_999 {
            return None;
        }
        number = number * 10 + (*digit - b'0') as u64;
    }
    if digits.is_empty() {
        None
    } else {
        Some(number)
    }
}

/// The number of a literal without its minus, where the profile has it. Most are short and decimal, and read first.
#[tactic(auto, using(crate::proofs::NumberLaws::natural_short), unfolding(crate::specs::Literals::natural_of, constraint_model::specs::Numbers::largest))]
#[inline(always)]
fn natural_of(literal: &[u8]) -> Option<u64>
    ensures value { result ≡ natural_of literal.now }
    ensures small { IfSome result (λ n. n ≤ largest) }
{
    if let Some(number) = short_number(literal) {
        return Some(number);
    }
    if let Some(digits) = literal.strip_prefix(b"0x") {
        number_in(16, digits)
    } else if let Some(digits) = literal.strip_prefix(b"0o") {
        number_in(8, digits)
    } else {
        number_in(10, literal)
    }
}

/// The number of an integer literal, where the profile has it.
#[tactic(auto, unfolding(crate::specs::Literals::number_of, constraint_model::specs::Numbers::largest))]
#[inline(always)]
pub(crate) fn number_of(literal: &[u8]) -> Option<i64>
    ensures { MatchOption result (number_of literal.now ≡ None) (λ n. number_of literal.now ≡ Some n) }
{
    match literal {
        [b'-', digits @ ..] => Some(-(natural_of(digits)? as i64)),
        digits => Some(natural_of(digits)? as i64),
    }
}
