//! The text of a value.

ghost use Rattle.std.specs.Prelude.{◌≡◌, ◌++◌, OnOk};
ghost use Rattle.std.specs.Fmt.{signed_decimal};
ghost use Rattle.constraint_model.specs.Relations.{value};
ghost use Rattle.fzn_print.specs.AnswerText.{value_text, term_text};

use constraint_model::Term;
use itoa::Buffer;
use std::alloc::AllocError;

/// Adds a number in decimal.
pub(crate) fn push_number(text: &mut Vec<u8>, number: i64) -> Result<(), AllocError>
    ensures { OnOk result (text.new.items ≡ text.old.items ++ signed_decimal number) }
{
    let mut buffer = Buffer::new();
    text.extend_from_slice(buffer.format(number).as_bytes())
}

/// Adds the value of a term: a boolean as a word, an integer in decimal.
pub(crate) fn push_term(
    text: &mut Vec<u8>,
    is_bool: bool,
    term: Term,
    solution: &[i64],
) -> Result<(), AllocError>
    ensures { OnOk result (text.new.items ≡ text.old.items ++ term_text solution.now is_bool term) }
{
    let number = value_of(term, solution);
    match (is_bool, number >= 1) {
        (true, true) => text.extend_from_slice(b"true"),
        (true, false) => text.extend_from_slice(b"false"),
        (false, _) => push_number(text, number),
    }
}

/// The number of a term in a solution.
fn value_of(term: Term, solution: &[i64]) -> i64
    ensures { result ≡ value solution.now term }
{
    match term {
        Term::Number(number) => number,
        Term::Var(place) => solution.get(place as usize).copied().unwrap_or(0),
    }
}
