//! The text of an array.

ghost use Rattle.std.specs.Prelude.{◌≡◌, ◌++◌, OnOk, flat_map, map, length};
ghost use Rattle.std.specs.Fmt.{decimal};
ghost use Rattle.fzn_print.specs.AnswerText.{arguments_text, array_text, comma, joined, list_text, range_text, term_text};

use crate::values::{push_number, push_term};
use constraint_model::Term;
use itoa::Buffer;
use std::alloc::AllocError;

/// The separator between ranges and between entries.
pub(crate) const COMMA: &[u8] = b", ";

/// Adds an array.
pub(crate) fn push_array(
    text: &mut Vec<u8>,
    is_bool: bool,
    ranges: &[(i64, i64)],
    entries: &[Term],
    solution: &[i64],
) -> Result<(), AllocError>
    ensures { OnOk result (text.new.items ≡ text.old.items ++ array_text ranges.now (map (term_text solution.now is_bool) entries.now)) }
{
    text.extend_from_slice(b"array")?;
    push_count(text, ranges.len())?;
    text.extend_from_slice(b"d(")?;
    push_arguments(text, is_bool, ranges, entries, solution)?;
    text.extend_from_slice(b")")
}

/// Adds the ranges and the list of the entries, with a comma between each two.
fn push_arguments(
    text: &mut Vec<u8>,
    is_bool: bool,
    ranges: &[(i64, i64)],
    entries: &[Term],
    solution: &[i64],
) -> Result<(), AllocError>
    ensures { OnOk result (text.new.items ≡ text.old.items ++ arguments_text ranges.now (map (term_text solution.now is_bool) entries.now)) }
{
    push_ranges(text, ranges)?;
    push_list(text, is_bool, entries, solution)
}

/// Adds the list of the entries, in brackets.
fn push_list(
    text: &mut Vec<u8>,
    is_bool: bool,
    entries: &[Term],
    solution: &[i64],
) -> Result<(), AllocError>
    ensures { OnOk result (text.new.items ≡ text.old.items ++ list_text (map (term_text solution.now is_bool) entries.now)) }
{
    text.extend_from_slice(b"[")?;
    push_entries(text, is_bool, entries, solution)?;
    text.extend_from_slice(b"]")
}

/// Adds a count in decimal.
pub(crate) fn push_count(text: &mut Vec<u8>, count: usize) -> Result<(), AllocError>
    ensures { OnOk result (text.new.items ≡ text.old.items ++ decimal count) }
{
    let mut buffer = Buffer::new();
    text.extend_from_slice(buffer.format(count).as_bytes())
}

/// Adds ranges, each with a comma behind it.
pub(crate) fn push_ranges(text: &mut Vec<u8>, ranges: &[(i64, i64)]) -> Result<(), AllocError>
    ensures { OnOk result (text.new.items ≡ text.old.items ++ flat_map (λ range. range_text range ++ comma) ranges.now) }
{
    for range in ranges {
        push_range(text, *range)?;
        text.extend_from_slice(COMMA)?;
    }
    Ok(())
}

/// Adds a range.
fn push_range(text: &mut Vec<u8>, range: (i64, i64)) -> Result<(), AllocError>
    ensures { OnOk result (text.new.items ≡ text.old.items ++ range_text range) }
{
    push_number(text, range.0)?;
    text.extend_from_slice(b"..")?;
    push_number(text, range.1)
}

/// Adds entries, with a comma between each two.
fn push_entries(
    text: &mut Vec<u8>,
    is_bool: bool,
    entries: &[Term],
    solution: &[i64],
) -> Result<(), AllocError>
    ensures { OnOk result (text.new.items ≡ text.old.items ++ joined comma (map (term_text solution.now is_bool) entries.now)) }
{
    match entries.split_first() {
        Some((first, rest)) => {
            push_term(text, is_bool, *first, solution)?;
            push_rest(text, is_bool, rest, solution)
        }
        None => Ok(()),
    }
}

/// Adds entries, each with a comma before it.
fn push_rest(
    text: &mut Vec<u8>,
    is_bool: bool,
    entries: &[Term],
    solution: &[i64],
) -> Result<(), AllocError>
    ensures { OnOk result (text.new.items ≡ text.old.items ++ flat_map (λ entry. comma ++ term_text solution.now is_bool entry) entries.now) }
{
    for entry in entries {
        text.extend_from_slice(COMMA)?;
        push_term(text, is_bool, *entry, solution)?;
    }
    Ok(())
}
