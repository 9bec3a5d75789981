//! Reads the tokens of a FlatZinc text as its items.
//!
//! `next_item` gives the next item behind a byte, or why there is none; `parse` takes a text whole and is used by laws and
//! tests. An item is the one whose tokens, as the grammar writes them (`specs/Grammar.antt`, `specs/Printer.antt`), are the
//! text's; every list of tokens has one list of items or one fault (`law_one_reading`). It builds on `fzn_lexer`. Names mean
//! nothing yet: `fzn_model` resolves them.
#![tactic(auto)]

mod cursor;
mod entries;
mod items;
pub mod laws;
mod notes;
mod plain;
mod stream;
mod texts;
pub mod tree;
mod values;

ghost use Rattle.std.specs.Prelude.{◌≡◌, ◌≤◌, ◌<◌, ◌++◌, ◌∷◌, [], length, map, take, drop, true, false, Some, None, option_map, IfOk, MatchResult};
ghost use Rattle.fzn_parser.specs.Texts.{is_at, lexeme_of};
ghost use Rattle.fzn_parser.specs.Items.{whole_at};
ghost use Rattle.fzn_parser.specs.Parsing.{item_tree, placed_at, max_depth, ReadsAs, IsCause};
ghost use Rattle.fzn_parser.specs.Stretches.{item_at};

use cursor::{Lexeme, Stop, Symbol, begins};
use fzn_lexer::Token;
use items::read_whole;
use std::alloc::{AllocError, AllocFailed, Global};
pub use stream::{ItemError, Room, next_item};
use texts::{before_last, lexemes_of, stretch_len};
use thiserror::Error;
use tree::{Item, What};

// So many `(` and `[` may be open at once in an item that is no predicate.
const MAX_DEPTH: usize = 64;

/// Why tokens have no list of items.
#[derive(Debug, Drop, Error)]
pub enum ParseError {
    /// The stretch of tokens that begins at the byte `at` reads as no item.
    #[error("no item begins at byte {at}")]
    Syntax { at: usize },
    /// Memory was refused.
    #[error("out of memory")]
    NoMemory,
}

impl From<AllocFailed<Item>> for ParseError {
    ghost use Rattle.std.specs.Prelude.{◌≡◌};
    ghost use Rattle.fzn_parser.specs.declared.ParseError.{ParseError as Error};

    ghost from_gives = { λ _ e. e ≡ Error.NoMemory };

    fn from(_error: AllocFailed<Item>) -> ParseError {
        ParseError::NoMemory
    }
}

/// The predicate item whose first token this is, with these tokens behind it.
fn read_predicate(alloc: Global, text: &[u8], first: Token, more: &[Token]) -> Result<Item, Stop>
    requires { is_at Symbol.Predicate text.now first ≡ true }
    ensures read { IfOk result (λ i. item_at text.now (first ∷ more.now) ≡ Some (item_tree i)) }
    ensures refused { result ≡ Err Stop.Refused → item_at text.now (first ∷ more.now) ≡ None }
{
    match before_last(alloc, text, more)? {
        Some(kept) => Ok(Item {
            from: first.from,
            what: What::Predicate(kept),
        }),
        None => Err(Stop::Refused),
    }
}

/// The item that these lexemes are, where it is no predicate; the first of their tokens begins at the byte `from`.
pub(crate) fn read_other(alloc: Global, from: usize, lexemes: &[Lexeme]) -> Result<Item, Stop>
    ensures read { IfOk result (λ i. option_map (λ what. placed_at from what) (whole_at max_depth lexemes.now) ≡ Some (item_tree i)) }
    ensures refused { result ≡ Err Stop.Refused → whole_at max_depth lexemes.now ≡ None }
{
    let what = read_whole(alloc, lexemes, MAX_DEPTH)?;
    Ok(Item { from, what })
}

/// The item that these tokens are, with these lexemes.
fn read_stretch(
    alloc: Global,
    text: &[u8],
    stretch: &[Token],
    lexemes: &[Lexeme],
) -> Result<Item, Stop>
    requires { lexemes.now ≡ map (lexeme_of text.now) stretch.now }
    ensures read { IfOk result (λ i. item_at text.now stretch.now ≡ Some (item_tree i)) }
    ensures refused { result ≡ Err Stop.Refused → item_at text.now stretch.now ≡ None }
{
    match stretch {
        [] => Err(Stop::Refused),
        [first, more @ ..] => {
            if begins(Symbol::Predicate, lexemes) {
                read_predicate(alloc, text, *first, more)
            } else {
                read_other(alloc, first.from, lexemes)
            }
        }
    }
}

/// The item that these tokens are.
pub(crate) fn read_item(alloc: Global, text: &[u8], stretch: &[Token]) -> Result<Item, Stop>
    ensures read { IfOk result (λ i. item_at text.now stretch.now ≡ Some (item_tree i)) }
    ensures refused { result ≡ Err Stop.Refused → item_at text.now stretch.now ≡ None }
{
    let lexemes = lexemes_of(alloc, text, stretch)?;
    read_stretch(alloc, text, stretch, lexemes.as_slice())
}

/// The items of `tokens`, which are tokens of `text`. Errors: `Syntax` at the first byte of the first stretch of
/// tokens, up to and with its `;`, that reads as no item; `NoMemory`.
pub fn parse(alloc: Global, text: &[u8], tokens: &[Token]) -> Result<Vec<Item>, ParseError>
    ensures { MatchResult result (λ v. ReadsAs text.now tokens.now (map item_tree v.items)) (λ e. IsCause text.now tokens.now e) }
{
    let mut items = Vec::new(alloc);
    let mut start = 0;
    while start < tokens.len() {
        let left = &tokens[start..];
        let len = stretch_len(text, left);
        match read_item(alloc, text, &left[..len]) {
            Ok(item) => items.push(item)?,
            Err(Stop::Refused) => return Err(ParseError::Syntax { at: left[0].from }),
            Err(Stop::NoMemory) => return Err(ParseError::NoMemory),
        }
        start += len;
    }
    Ok(items)
}
