//! Which declarations are written with a solution.

ghost use Rattle.std.specs.Prelude.{◌≡◌, IfOk, map};
ghost use Rattle.fzn_parser.specs.Notes.{arg_tree, ann_tree, args_of};
ghost use Rattle.fzn_model.specs.Outputs.{is_spelled, is_word, has_output_var, index_set, index_sets, lawful, array_argument, array_arguments, array_output, output_ranges};

use crate::exprs::spelling;
use crate::numbers::number_of;
use fzn_lexer::Token;
use fzn_parser::tree::{Ann, Arg, SetLit};
use list_of::ListOf;
use std::alloc::{AllocError, Global};

/// So many index sets an array may have.
const MOST_INDEX_SETS: usize = 6;

/// Whether the token is spelled so.
pub(crate) fn is_spelled(text: &[u8], word: &[u8], token: &Token) -> bool
    ensures { result ≡ is_spelled text.now word.now token.now }
{
    spelling(text, token) == word
}

/// Whether the annotation is this name alone.
fn is_word(text: &[u8], word: &[u8], note: &Ann) -> bool
    ensures { result ≡ is_word text.now word.now (ann_tree note.now) }
{
    match &note.args {
        None => is_spelled(text, word, &note.name),
        Some(_) => false,
    }
}

/// The range of two numbers of the profile that the argument is.
fn index_set(text: &[u8], arg: &Arg) -> Option<(i64, i64)>
    ensures { result ≡ index_set text.now (arg_tree arg.now) }
{
    match arg {
        Arg::Set(SetLit::Range(low, high)) => Some((
            number_of(spelling(text, low))?,
            number_of(spelling(text, high))?,
        )),
        _ => None,
    }
}

/// The index sets that the arguments are, where each is one.
fn index_sets(
    alloc: Global,
    text: &[u8],
    args: &[Arg],
) -> Result<Option<ListOf<(i64, i64)>>, AllocError>
    ensures { IfOk result (λ o. o ≡ index_sets text.now (args_of (map arg_tree args.now))) }
{
    let mut ranges = ListOf::new(alloc);
    for arg in args {
        match index_set(text, arg) {
            Some(range) => ranges.push(range)?,
            None => return Ok(None),
        }
    }
    Ok(Some(ranges))
}

/// These index sets, where an array may have so many.
fn lawful(ranges: ListOf<(i64, i64)>) -> Option<ListOf<(i64, i64)>>
    ensures { result ≡ lawful ranges }
{
    if 1 <= ranges.len() && ranges.len() <= MOST_INDEX_SETS {
        Some(ranges)
    } else {
        None
    }
}

/// The index sets of the one argument of a lawful `output_array`.
fn array_argument(
    alloc: Global,
    text: &[u8],
    arg: &Arg,
) -> Result<Option<ListOf<(i64, i64)>>, AllocError>
    ensures { IfOk result (λ o. o ≡ array_argument text.now (arg_tree arg.now)) }
{
    match arg {
        Arg::Row(ranges) => match index_sets(alloc, text, ranges.as_slice())? {
            Some(ranges) => Ok(lawful(ranges)),
            None => Ok(None),
        },
        _ => Ok(None),
    }
}

fn array_arguments(
    alloc: Global,
    text: &[u8],
    args: &[Arg],
) -> Result<Option<ListOf<(i64, i64)>>, AllocError>
    ensures { IfOk result (λ o. o ≡ array_arguments text.now (args_of (map arg_tree args.now))) }
{
    match args {
        [] => Ok(None),
        [arg] => array_argument(alloc, text, arg),
        [_, _, ..] => Ok(None),
    }
}

/// The index sets of a lawful `output_array`.
fn array_output(
    alloc: Global,
    text: &[u8],
    note: &Ann,
) -> Result<Option<ListOf<(i64, i64)>>, AllocError>
    ensures { IfOk result (λ o. o ≡ array_output text.now (ann_tree note.now)) }
{
    match &note.args {
        Some(args) => {
            if is_spelled(text, b"output_array".as_slice(), &note.name) {
                array_arguments(alloc, text, args.as_slice())
            } else {
                Ok(None)
            }
        }
        None => Ok(None),
    }
}

/// Whether one of the annotations of a declaration is `output_var`.
#[tactic(auto, unfolding(crate::specs::Outputs::has_output_var))]
pub(crate) fn has_output_var(text: &[u8], notes: &[Ann]) -> bool
    ensures { result ≡ has_output_var text.now (map ann_tree notes.now) }
{
    for note in notes {
        if is_word(text, b"output_var".as_slice(), note) {
            return true;
        }
    }
    false
}

/// The index sets of the first lawful `output_array` among the annotations of a declaration.
#[tactic(auto, unfolding(crate::specs::Outputs::output_ranges))]
pub(crate) fn output_ranges(
    alloc: Global,
    text: &[u8],
    notes: &[Ann],
) -> Result<Option<ListOf<(i64, i64)>>, AllocError>
    ensures { IfOk result (λ o. o ≡ output_ranges text.now (map ann_tree notes.now)) }
{
    for note in notes {
        if let Some(ranges) = array_output(alloc, text, note)? {
            return Ok(Some(ranges));
        }
    }
    Ok(None)
}
