//! Reads a text item by item.

ghost use Rattle.std.specs.Prelude.{◌≡◌, ◌≤◌, ◌++◌, ◌∷◌, [], Some, length, map, cond, MatchResult, IfOk, OnOk, IfErr};
ghost use Rattle.fzn_lexer.specs.Lexing.{IsNext, LacksToken as LacksPieceAt};
ghost use Rattle.fzn_parser.specs.declared.cursor.Symbol.{Symbol as Sign};
ghost use Rattle.fzn_parser.specs.declared.cursor.Lexeme.{Lexeme as Sort};
ghost use Rattle.fzn_parser.specs.Texts.{is_at, is_symbol, lexeme_of};
ghost use Rattle.fzn_parser.specs.Stream.{IsStretch, IsNextItem, IsCause, TellsOfNext};
ghost use Rattle.fzn_parser.specs.Gathering.{IsGathered};

use crate::cursor::{Class, Lexeme, Stop, Symbol, begins, same_token};
use crate::plain::{Form, form_behind, plain_constraint, plain_declaration};
use crate::texts::{is_at, is_plain_name, lexeme_of, plain_mark};
use crate::tree::Item;
use crate::{read_item, read_other};
use fzn_lexer::{Kind, NoToken, Token, law_tokens_in_turn, next_plain, next_token};
use std::alloc::{AllocError, AllocFailed, Global};
use thiserror::Error;

/// Why no item was read.
#[derive(Debug, Drop, Error)]
pub enum ItemError {
    /// At the byte `at` no token, blank or comment begins.
    #[error("no token, blank or comment begins at byte {at}")]
    NoToken { at: usize },
    /// The stretch of tokens that begins at the byte `at` and ends before the byte `to` reads as no item.
    #[error("no item begins at byte {at}")]
    NoItem { at: usize, to: usize },
    /// Memory was refused.
    #[error("out of memory")]
    NoMemory,
}

impl From<AllocError> for ItemError {
    ghost use Rattle.std.specs.Prelude.{◌≡◌};
    ghost use Rattle.fzn_parser.specs.declared.stream.ItemError.{ItemError as Error};

    ghost from_gives = { λ _ e. e ≡ Error.NoMemory };

    fn from(_error: AllocError) -> ItemError {
        ItemError::NoMemory
    }
}

/// Room for the lexemes of an item, which serves one item after the other.
#[derive(Drop)]
pub struct Room {
    lexemes: Vec<Lexeme>,
}

impl Room {
    /// Room that takes no memory yet.
    pub fn new(alloc: Global) -> Room {
        Room {
            lexemes: Vec::new(alloc),
        }
    }
}

/// A stretch of tokens: where the first of them begins, where there is one, and the place behind them.
#[derive(Clone, Copy)]
pub struct Stretch {
    pub(crate) start: usize,
    pub(crate) to: usize,
}

/// Puts a lexeme at the end. Mostly there is room for it.
#[inline(always)]
fn put(lexemes: &mut Vec<Lexeme>, lexeme: Lexeme) -> Result<(), AllocError>
    ensures { OnOk result (lexemes.new.items ≡ lexemes.old.items ++ lexeme ∷ []) }
{
    if lexemes.len() < lexemes.capacity() {
        lexemes.push_reserved(lexeme);
        return Ok(());
    }
    lexemes.push(lexeme)?;
    Ok(())
}

/// Puts a keyword or a mark at the end, and tells whether it is a semicolon.
#[inline(always)]
fn keep_symbol(symbol: Symbol, lexemes: &mut Vec<Lexeme>) -> Result<bool, AllocError>
    ensures ends { IfOk result (λ b. b ≡ is_symbol Sign.Semicolon (Sort.Fixed symbol)) }
    ensures lexemes { OnOk result (lexemes.new.items ≡ lexemes.old.items ++ Sort.Fixed symbol ∷ []) }
{
    put(lexemes, Lexeme::Fixed(symbol))?;
    Ok(symbol.is_same(Symbol::Semicolon))
}

/// Puts a name or a literal at the end, and tells that it is no semicolon.
#[inline(always)]
fn keep_literal(class: Class, token: Token, lexemes: &mut Vec<Lexeme>) -> Result<bool, AllocError>
    ensures ends { IfOk result (λ b. b ≡ is_symbol Sign.Semicolon (Sort.Kept class token)) }
    ensures lexemes { OnOk result (lexemes.new.items ≡ lexemes.old.items ++ Sort.Kept class token ∷ []) }
{
    put(lexemes, Lexeme::Kept(class, same_token(token)))?;
    Ok(false)
}

/// Puts the lexeme of any token, given by its parts, at the end, and tells whether it is a semicolon. The parts need no place in
/// memory, as a token does that is handed over.
#[inline(never)]
fn keep_any(
    text: &[u8],
    kind: Kind,
    from: usize,
    to: usize,
    lexemes: &mut Vec<Lexeme>,
) -> Result<bool, AllocError>
    ensures ends { IfOk result (λ b. b ≡ is_at Sign.Semicolon text.now (record { kind = kind; from = from; to = to })) }
    ensures lexemes { OnOk result (lexemes.new.items ≡ lexemes.old.items ++ lexeme_of text.now (record { kind = kind; from = from; to = to }) ∷ []) }
{
    match lexeme_of(text, Token { kind, from, to }) {
        Lexeme::Fixed(symbol) => keep_symbol(symbol, lexemes),
        Lexeme::Kept(class, kept) => keep_literal(class, kept, lexemes),
    }
}

/// Puts a token's lexeme at the end, and tells whether it is a semicolon. Most lexemes are told in few steps, and put where they are
/// told: so none is copied from place to place.
#[tactic(auto, unfolding(crate::specs::Texts::lexeme_of))]
#[inline(always)]
fn keep(text: &[u8], token: Token, lexemes: &mut Vec<Lexeme>) -> Result<bool, AllocError>
    ensures ends { IfOk result (λ b. b ≡ is_at Sign.Semicolon text.now token) }
    ensures lexemes { OnOk result (lexemes.new.items ≡ lexemes.old.items ++ lexeme_of text.now token ∷ []) }
{
    match token.kind {
        Kind::Int => keep_literal(Class::Int, token, lexemes),
        Kind::Mark => match plain_mark(text, token) {
            Some(symbol) => keep_symbol(symbol, lexemes),
            None => keep_any(text, token.kind, token.from, token.to, lexemes),
        },
        Kind::Word => {
            if is_plain_name(text, token) {
                keep_literal(Class::Name, token, lexemes)
            } else {
                keep_any(text, token.kind, token.from, token.to, lexemes)
            }
        }
        Kind::Float | Kind::Text => keep_any(text, token.kind, token.from, token.to, lexemes),
    }
}

/// The first token behind the byte `from`, as `next_token` gives it. Most are found in fewer steps.
#[inline(always)]
fn token_at(text: &[u8], from: usize) -> Result<Option<Token>, NoToken>
    requires { from ≤ length text.now }
    ensures { MatchResult result (λ o. IsNext text.now from o) (λ e. LacksPieceAt text.now from e.at) }
{
    match next_plain(text, from) {
        Some(token) => Ok(Some(token)),
        None => next_token(text, from),
    }
}

/// Where the first of the tokens begins, where `token` is one more and there was none, or the first begins at `start`.
#[inline(always)]
fn start_with(none: bool, start: usize, token: Token) -> usize
    ensures { result ≡ cond none token.from start }
{
    if none { token.from } else { start }
}

/// The lexemes of the first stretch of tokens behind the byte `from`.
pub(crate) fn gather(
    text: &[u8],
    from: usize,
    lexemes: &mut Vec<Lexeme>,
) -> Result<Stretch, ItemError>
    requires { from ≤ length text.now }
    ensures stretch { IfOk result (IsGathered text.now from lexemes.new.items) }
    ensures cause { IfErr result (IsCause text.now from) }
    ensures next { IfErr result (TellsOfNext text.now from) }
{
    law_tokens_in_turn();
    lexemes.clear();
    let mut start = from;
    let mut at = from;
    while at < text.len() {
        match token_at(text, at) {
            Ok(Some(token)) => {
                start = start_with(lexemes.is_empty(), start, token);
                at = token.to;
                if keep(text, token, lexemes)? {
                    return Ok(Stretch { start, to: at });
                }
            }
            Ok(None) => {
                let to = text.len();
                return Ok(Stretch { start, to });
            }
            Err(none) => return Err(ItemError::NoToken { at: none.at }),
        }
    }
    Ok(Stretch { start, to: at })
}

/// Puts a token at the end, and tells whether it is a semicolon.
fn keep_token(text: &[u8], token: Token, tokens: &mut Vec<Token>) -> Result<bool, AllocError>
    ensures ends { IfOk result (λ b. b ≡ is_at Sign.Semicolon text.now token) }
    ensures tokens { OnOk result (tokens.new.items ≡ tokens.old.items ++ token ∷ []) }
{
    tokens.push(token)?;
    Ok(is_at(Symbol::Semicolon, text, token))
}

/// The first stretch of tokens behind the byte `from`; it gives the place behind them.
fn gather_tokens(text: &[u8], from: usize, tokens: &mut Vec<Token>) -> Result<usize, ItemError>
    requires { from ≤ length text.now }
    ensures stretch { IfOk result (λ to. IsStretch text.now from to tokens.new.items) }
    ensures cause { IfErr result (IsCause text.now from) }
    ensures next { IfErr result (TellsOfNext text.now from) }
{
    law_tokens_in_turn();
    tokens.clear();
    let mut at = from;
    while at < text.len() {
        match next_token(text, at) {
            Ok(Some(token)) => {
                at = token.to;
                if keep_token(text, token, tokens)? {
                    return Ok(at);
                }
            }
            Ok(None) => return Ok(text.len()),
            Err(none) => return Err(ItemError::NoToken { at: none.at }),
        }
    }
    Ok(at)
}

/// The first item behind the byte `from`, as `next_item` gives it. The tokens of a predicate item are kept, so they are gathered.
#[inline(never)]
fn next_predicate(
    alloc: Global,
    text: &[u8],
    from: usize,
) -> Result<Option<(Item, usize)>, ItemError>
    requires { from ≤ length text.now }
    ensures item { IfOk result (IsNextItem text.now from) }
    ensures cause { IfErr result (IsCause text.now from) }
    ensures next { IfErr result (TellsOfNext text.now from) }
{
    law_tokens_in_turn();
    let mut tokens = Vec::new(alloc);
    let to = gather_tokens(text, from, &mut tokens)?;
    if tokens.is_empty() {
        return Ok(None);
    }
    match read_item(alloc, text, tokens.as_slice()) {
        Ok(item) => Ok(Some((item, to))),
        Err(Stop::Refused) => Err(ItemError::NoItem {
            at: tokens[0].from,
            to,
        }),
        Err(Stop::NoMemory) => Err(ItemError::NoMemory),
    }
}

/// The first item behind the byte `from`, as `next_item` gives it, read by the list of its lexemes.
#[inline(never)]
fn next_listed(
    alloc: Global,
    text: &[u8],
    from: usize,
    lexemes: &mut Vec<Lexeme>,
) -> Result<Option<(Item, usize)>, ItemError>
    requires { from ≤ length text.now }
    ensures item { IfOk result (IsNextItem text.now from) }
    ensures cause { IfErr result (IsCause text.now from) }
    ensures next { IfErr result (TellsOfNext text.now from) }
{
    law_tokens_in_turn();
    let stretch = gather(text, from, lexemes)?;
    if lexemes.is_empty() {
        return Ok(None);
    }
    if begins(Symbol::Predicate, lexemes.as_slice()) {
        return next_predicate(alloc, text, from);
    }
    match read_other(alloc, stretch.start, lexemes.as_slice()) {
        Ok(item) => Ok(Some((item, stretch.to))),
        Err(Stop::Refused) => Err(ItemError::NoItem {
            at: stretch.start,
            to: stretch.to,
        }),
        Err(Stop::NoMemory) => Err(ItemError::NoMemory),
    }
}

/// The first item behind the byte `from`, where it is read as its tokens are found.
#[inline(always)]
fn next_in_form(
    alloc: Global,
    text: &[u8],
    from: usize,
    lexemes: &mut Vec<Lexeme>,
) -> Result<(Item, usize), Stop>
    requires { from ≤ length text.now }
    ensures { IfOk result (λ p. IsNextItem text.now from (Some p)) }
{
    match form_behind(text, from) {
        Form::Variable => plain_declaration(alloc, text, from, lexemes),
        Form::Constraint => plain_constraint(alloc, text, from, lexemes),
        Form::Other => Err(Stop::Refused),
    }
}

/// The first item behind the byte `from` of `text`, with the place behind its tokens, or none where no token is left.
/// Errors: `NoItem` where the stretch of tokens, up to and with its `;`, reads as no item; `NoToken` where there is a
/// byte before its end at which no token begins; `NoMemory`.
pub fn next_item(
    alloc: Global,
    text: &[u8],
    from: usize,
    room: &mut Room,
) -> Result<Option<(Item, usize)>, ItemError>
    requires { from ≤ length text.now }
    ensures item { IfOk result (IsNextItem text.now from) }
    ensures cause { IfErr result (IsCause text.now from) }
    ensures next { IfErr result (TellsOfNext text.now from) }
{
    match next_in_form(alloc, text, from, &mut room.lexemes) {
        Ok(read) => Ok(Some(read)),
        Err(Stop::Refused) => next_listed(alloc, text, from, &mut room.lexemes),
        Err(Stop::NoMemory) => Err(ItemError::NoMemory),
    }
}
