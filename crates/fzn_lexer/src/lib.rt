//! The tokens of a FlatZinc text, by longest match.
//!
//! `next_token` gives the next token behind a byte, or the byte where none begins, and takes no memory; what is read token by
//! token is what is read whole (`law_tokens_in_turn`). `lex` takes a text whole and is used by laws and tests. Every text has
//! one list of tokens or one fault, never both (`law_one_reading`). It stands on nothing, and knows no items: `fzn_parser`
//! reads them. Begin with `specs/Lexing.antt`.
#![tactic(auto)]

mod machine;

ghost use Rattle.std.specs.Prelude.{◌≡◌, ◌≤◌, ℕ, List, [], All, length, MatchResult, OnOk, IfErr, IfSome, Some, option_to_list, ◌++◌, ◌⊎◌};
ghost use Rattle.fzn_lexer.specs.Lexing.{LexesAs, LexesTo, FaultsAt, LacksPiece, LacksToken, IsCause, IsNext, LiesIn, RiseFrom, token_of};
ghost use Rattle.fzn_lexer.specs.declared.Token.{Token};
ghost use Rattle.fzn_lexer.specs.declared.LexError.TheVariants.{NoMemory};

use machine::{Found, after_blanks, longest_piece, plain_piece};
use std::alloc::{AllocError, AllocFailed, Global};
use thiserror::Error;

/// What a token is.
#[derive(Clone, Copy, Debug, PartialEq, Eq)]
pub enum Kind {
    /// A name or a keyword.
    Word,
    /// An integer literal in base 10, 16 or 8.
    Int,
    /// A literal with a point or an exponent.
    Float,
    /// A string literal, with its quotes.
    Text,
    /// Punctuation.
    Mark,
}

/// A token: its kind, the place of its first byte, and the place one past its last byte.
#[derive(Clone, Copy, Debug, PartialEq, Eq)]
pub struct Token {
    pub kind: Kind,
    pub from: usize,
    pub to: usize,
}

/// What a piece of a text is.
#[derive(Clone, Copy, Debug, PartialEq, Eq)]
pub(crate) enum PieceKind {
    /// A token of this kind.
    Token(Kind),
    /// One blank byte.
    Blank,
    /// A comment, without the line end behind it.
    Comment,
}

/// Why a text has no list of tokens.
#[derive(Debug, Drop, Error)]
pub enum LexError {
    /// At the byte `at` no token, blank or comment begins.
    #[error("no token, blank or comment begins at byte {at}")]
    Lex { at: usize },
    /// Memory was refused.
    #[error("out of memory")]
    NoMemory,
}

/// At the byte `at` no token, blank or comment begins.
#[derive(Clone, Copy, Debug, PartialEq, Eq)]
pub struct NoToken {
    pub at: usize,
}

impl From<AllocError> for LexError {
    ghost from_gives = { λ _ e. e ≡ NoMemory };

    fn from(_error: AllocError) -> LexError {
        LexError::NoMemory
    }
}

impl<T: Drop> From<AllocFailed<T>> for LexError {
    ghost from_gives = { λ _ e. e ≡ NoMemory };

    fn from(_error: AllocFailed<T>) -> LexError {
        LexError::NoMemory
    }
}

/// The piece that begins at `from` as a token, where it is one.
#[inline(always)]
fn token_in(found: Found, from: usize) -> Option<Token>
    ensures token { token_of found.piece from found.to ≡ option_to_list result }
    ensures ends { IfSome result (λ t. t.to ≡ found.to) }
{
    match found.piece {
        PieceKind::Token(kind) => Some(Token {
            kind,
            from,
            to: found.to,
        }),
        PieceKind::Blank | PieceKind::Comment => None,
    }
}

/// Puts the piece that begins at `from` at the end of the tokens, where it is one.
fn keep(tokens: &mut Vec<Token>, from: usize, found: Found) -> Result<(), LexError>
    ensures kept { OnOk result (tokens.new.items ≡ tokens.old.items ++ token_of found.piece from found.to) }
    ensures refused { IfErr result (λ e. e ≡ NoMemory) }
{
    if let Some(token) = token_in(found, from) {
        tokens.push(token)?;
    }
    Ok(())
}

/// The tokens of `text`, each the longest that begins at its place. Errors: `Lex` at the first byte where no token,
/// blank or comment begins; `NoMemory`.
pub fn lex(alloc: Global, text: &[u8]) -> Result<Vec<Token>, LexError>
    ensures { MatchResult result (λ v. LexesAs text.now v.items) (λ e. IsCause text.now e) }
{
    let mut tokens = Vec::new(alloc);
    let mut at = 0;
    while at < text.len() {
        let Some(found) = longest_piece(text, at) else {
            return Err(LexError::Lex { at });
        };
        keep(&mut tokens, at, found)?;
        at = found.to;
    }
    Ok(tokens)
}

/// The first token behind the byte `from`, or none where the text ends first. Errors: the first byte where no token, blank
/// or comment begins, where no token stands before it. It takes no memory.
#[inline(always)]
pub fn next_token(text: &[u8], from: usize) -> Result<Option<Token>, NoToken>
    requires { from ≤ length text.now }
    ensures { MatchResult result (λ o. IsNext text.now from o) (λ e. LacksToken text.now from e.at) }
{
    let mut at = after_blanks(text, from);
    while at < text.len() {
        let Some(found) = longest_piece(text, at) else {
            return Err(NoToken { at });
        };
        let token = token_in(found, at);
        if token.is_some() {
            return Ok(token);
        }
        at = after_blanks(text, found.to);
    }
    Ok(None)
}

/// The first token behind the byte `from`, where it is a mark, a word, or an integer without a sign: most of them are found so in
/// fewer steps. Else none, and `next_token` finds what stands there.
#[inline(always)]
pub fn next_plain(text: &[u8], from: usize) -> Option<Token>
    requires { from ≤ length text.now }
    ensures { IfSome result (λ t. IsNext text.now from (Some t)) }
{
    let at = after_blanks(text, from);
    if at >= text.len() {
        return None;
    }
    match plain_piece(text, at) {
        Some(found) => token_in(found, at),
        None => None,
    }
}

/// What is read of a text token by token is what is read of it whole.
pub fn law_tokens_in_turn()
    ensures nothing { (text : List ℕ) (at : ℕ) → at ≤ length text → LexesTo text at at [] }
    ensures joined { (text : List ℕ) (from at to : ℕ) (ts us : List Token) → LexesTo text from at ts → LexesTo text at to us → LexesTo text from to (ts ++ us) }
    ensures whole { (text : List ℕ) (ts : List Token) → LexesTo text 0 (length text) ts → LexesAs text ts }
    ensures one_rest { (text : List ℕ) (from : ℕ) (ts us : List Token) → LexesTo text from (length text) ts → LexesTo text from (length text) us → ts ≡ us }
    ensures fault { (text : List ℕ) (at : ℕ) (ts : List Token) → LexesTo text 0 at ts → LacksPiece text at → FaultsAt text at }
{}

/// A text has one list of tokens or one fault, one of the two and never both.
pub fn law_one_reading()
    ensures lexes_or_faults { (text : List ℕ) → ((ts : List Token) × LexesAs text ts) ⊎ ((at : ℕ) × FaultsAt text at) }
    ensures one_list { (text : List ℕ) (ts us : List Token) → LexesAs text ts → LexesAs text us → ts ≡ us }
    ensures one_fault { (text : List ℕ) (at place : ℕ) → FaultsAt text at → FaultsAt text place → at ≡ place }
    ensures never_both { (text : List ℕ) (ts : List Token) (at : ℕ) → LexesAs text ts → FaultsAt text at → ⊥ }
{}

/// The tokens of a text lie in it in rising order without overlap, and the bytes of each spell a token of its kind.
pub fn law_tokens_lie_in_text()
    ensures lie { (text : List ℕ) (ts : List Token) → LexesAs text ts → All (LiesIn text) ts }
    ensures rise { (text : List ℕ) (ts : List Token) → LexesAs text ts → RiseFrom 0 ts }
{}
