//! Reads a text item by item into its model.

ghost use Rattle.std.specs.Prelude.{◌≡◌, ◌≤◌, ℕ, List, length, MatchResult, IfOk, IfErr, OnOk};
ghost use Rattle.fzn_lexer.specs.declared.Token.{Token as Piece};
ghost use Rattle.fzn_lexer.specs.Lexing.{LexesTo};
ghost use Rattle.fzn_parser.specs.Parsing.{item_tree};
ghost use Rattle.fzn_parser.specs.Stream.{LacksToken, IsItemTo, IsCause as IsItemCause};
ghost use Rattle.model_text.specs.Texts.{most_bytes, IsTextOf, IsCause};
ghost use Rattle.model_text.specs.Turns.{IsPassed, IsTakenTo, IsTakenOn, IsUnread, LacksItemAt, HasFaultBefore};

use crate::reader::TextError;
use fzn_lexer::{NoToken, law_tokens_in_turn, next_token};
use fzn_model::{FaultKind, FznModel, ModelError, Resolver};
use fzn_parser::tree::Item;
use fzn_parser::{ItemError, Room, next_item};
use std::alloc::Global;

/// Passes all tokens behind the byte `from`. Errors: the first byte where no token, blank or comment begins.
fn pass_tokens(text: &[u8], from: usize) -> Result<(), NoToken>
    requires { from ≤ length text.now }
    ensures whole { OnOk result ((ts : List Piece) × LexesTo text.now from (length text.now) ts) }
    ensures fault { IfErr result (λ e. LacksToken text.now from e.at) }
{
    law_tokens_in_turn();
    let mut at = from;
    while at < text.len() {
        match next_token(text, at) {
            Ok(Some(token)) => at = token.to,
            Ok(None) => return Ok(()),
            Err(none) => return Err(none),
        }
    }
    Ok(())
}

/// The fault of a text in which the tokens before the byte `to` begin no item, at the byte `at`. A byte behind them where
/// no token begins comes first.
fn lacks_item(text: &[u8], at: usize, to: usize) -> TextError
    requires { LacksItemAt text.now at to }
    ensures { IsCause text.now result }
{
    law_tokens_in_turn();
    match pass_tokens(text, to) {
        Ok(()) => TextError::Refused {
            kind: FaultKind::Syntax.number(),
            at,
        },
        Err(none) => TextError::Refused {
            kind: FaultKind::Lex.number(),
            at: none.at,
        },
    }
}

/// The fault of a text in which behind some items no item is read.
fn unread(text: &[u8], error: ItemError) -> TextError
    requires { IsUnread text.now error }
    ensures { IsCause text.now result }
{
    law_tokens_in_turn();
    match error {
        ItemError::NoToken { at } => TextError::Refused {
            kind: FaultKind::Lex.number(),
            at,
        },
        ItemError::NoItem { at, to } => lacks_item(text, at, to),
        ItemError::NoMemory => TextError::NoMemory,
    }
}

/// The place behind the first item behind the byte `at`, or that none is left.
fn pass_item(
    alloc: Global,
    text: &[u8],
    at: usize,
    room: &mut Room,
) -> Result<Option<usize>, ItemError>
    requires { at ≤ length text.now }
    ensures item { IfOk result (IsPassed text.now at) }
    ensures cause { IfErr result (IsItemCause text.now at) }
{
    match next_item(alloc, text, at, room) {
        Ok(Some(read)) => Ok(Some(read.1)),
        Ok(None) => Ok(None),
        Err(error) => Err(error),
    }
}

/// The fault of a text whose items before the byte `from` have this fault: a part behind them that is no item comes first.
fn fault_behind(
    alloc: Global,
    text: &[u8],
    from: usize,
    kind: u8,
    place: usize,
    room: &mut Room,
) -> TextError
    requires { HasFaultBefore text.now from kind place }
    ensures { IsCause text.now result }
{
    law_tokens_in_turn();
    let mut at = from;
    while at < text.len() {
        match pass_item(alloc, text, at, room) {
            Ok(Some(to)) => at = to,
            Ok(None) => return TextError::Refused { kind, at: place },
            Err(error) => return unread(text, error),
        }
    }
    TextError::Refused { kind, at: place }
}

/// Takes the item that ends before the byte `to`.
fn take_item(
    alloc: Global,
    text: &[u8],
    item: &Item,
    to: usize,
    resolver: &mut Resolver,
    room: &mut Room,
) -> Result<(), TextError>
    requires { (at : ℕ) × (IsTakenTo text.now at resolver.old × IsItemTo text.now at to (item_tree item.now)) }
    ensures taken { OnOk result (IsTakenTo text.now to resolver.new) }
    ensures cause { IfErr result (IsCause text.now) }
{
    law_tokens_in_turn();
    match resolver.take(alloc, text, item) {
        Ok(()) => {}
        Err(ModelError::Fault { kind, at }) => {
            return Err(fault_behind(alloc, text, to, kind, at, room));
        }
        Err(ModelError::NoMemory) => return Err(TextError::NoMemory),
    }
    Ok(())
}

/// Takes the first item behind the byte `at`; gives the place behind it, or that none is left.
fn take_next(
    alloc: Global,
    text: &[u8],
    at: usize,
    resolver: &mut Resolver,
    room: &mut Room,
) -> Result<Option<usize>, TextError>
    requires { IsTakenTo text.now at resolver.old }
    ensures taken { IfOk result (IsTakenOn text.now at resolver.new) }
    ensures cause { IfErr result (IsCause text.now) }
{
    law_tokens_in_turn();
    match next_item(alloc, text, at, room) {
        Ok(Some(read)) => {
            take_item(alloc, text, &read.0, read.1, resolver, room)?;
            Ok(Some(read.1))
        }
        Ok(None) => Ok(None),
        Err(error) => Err(unread(text, error)),
    }
}

/// The model of a text whose items were all taken.
fn finished(text: &[u8], resolver: Resolver) -> Result<FznModel, TextError>
    requires { IsTakenTo text.now (length text.now) resolver }
    ensures { MatchResult result (λ m. IsTextOf text.now m) (λ e. IsCause text.now e) }
{
    law_tokens_in_turn();
    match resolver.finish(text) {
        Ok(model) => Ok(model),
        Err(ModelError::Fault { kind, at }) => Err(TextError::Refused { kind, at }),
        Err(ModelError::NoMemory) => Err(TextError::NoMemory),
    }
}

/// The model of a text that isn't too long.
pub(crate) fn model_of(alloc: Global, text: &[u8]) -> Result<FznModel, TextError>
    requires { length text.now ≤ most_bytes }
    ensures { MatchResult result (λ m. IsTextOf text.now m) (λ e. IsCause text.now e) }
{
    law_tokens_in_turn();
    let mut resolver = Resolver::new(alloc, text);
    let mut room = Room::new(alloc);
    let mut at = 0;
    while at < text.len() {
        match take_next(alloc, text, at, &mut resolver, &mut room) {
            Ok(Some(to)) => at = to,
            Ok(None) => return finished(text, resolver),
            Err(error) => return Err(error),
        }
    }
    finished(text, resolver)
}
