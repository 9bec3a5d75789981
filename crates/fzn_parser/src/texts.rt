//! The tokens of a text as lexemes.

ghost use Rattle.std.specs.Prelude.{◌≡◌, ◌≤◌, ◌<◌, ℕ, List, [], ◌∷◌, None, Some, true, false, length, map, take, IfOk, IfSome, MatchOption};
ghost use Rattle.fzn_parser.specs.Texts.{type_word, other_word, keyword, bracket, other_mark, mark, spelling, lexeme_of, is_at, is_symbol, first_stretch, before_last};

use crate::cursor::{Class, Lexeme, Symbol, same_token};
use fzn_lexer::{Kind, Token};
use list_of::ListOf;
use std::alloc::{AllocError, Global};

fn type_word(s: &[u8]) -> Option<Symbol>
    ensures { result ≡ type_word s.now }
{
    if s == b"predicate".as_slice() {
        return Some(Symbol::Predicate);
    }
    if s == b"var".as_slice() {
        return Some(Symbol::Var);
    }
    if s == b"array".as_slice() {
        return Some(Symbol::Array);
    }
    if s == b"of".as_slice() {
        return Some(Symbol::Of);
    }
    if s == b"set".as_slice() {
        return Some(Symbol::Set);
    }
    if s == b"bool".as_slice() {
        return Some(Symbol::Bool);
    }
    if s == b"int".as_slice() {
        return Some(Symbol::Int);
    }
    if s == b"float".as_slice() {
        return Some(Symbol::Float);
    }
    None
}

fn other_word(s: &[u8]) -> Option<Symbol>
    ensures { result ≡ other_word s.now }
{
    if s == b"constraint".as_slice() {
        return Some(Symbol::Constraint);
    }
    if s == b"solve".as_slice() {
        return Some(Symbol::Solve);
    }
    if s == b"satisfy".as_slice() {
        return Some(Symbol::Satisfy);
    }
    if s == b"minimize".as_slice() {
        return Some(Symbol::Minimize);
    }
    if s == b"maximize".as_slice() {
        return Some(Symbol::Maximize);
    }
    if s == b"true".as_slice() {
        return Some(Symbol::True);
    }
    if s == b"false".as_slice() {
        return Some(Symbol::False);
    }
    None
}

fn bracket(s: &[u8]) -> Option<Symbol>
    ensures { result ≡ bracket s.now }
{
    if s == b"(".as_slice() {
        return Some(Symbol::ParenOpen);
    }
    if s == b")".as_slice() {
        return Some(Symbol::ParenClose);
    }
    if s == b"[".as_slice() {
        return Some(Symbol::BracketOpen);
    }
    if s == b"]".as_slice() {
        return Some(Symbol::BracketClose);
    }
    if s == b"{".as_slice() {
        return Some(Symbol::BraceOpen);
    }
    if s == b"}".as_slice() {
        return Some(Symbol::BraceClose);
    }
    None
}

fn other_mark(s: &[u8]) -> Option<Symbol>
    ensures { result ≡ other_mark s.now }
{
    if s == b",".as_slice() {
        return Some(Symbol::Comma);
    }
    if s == b";".as_slice() {
        return Some(Symbol::Semicolon);
    }
    if s == b":".as_slice() {
        return Some(Symbol::Colon);
    }
    if s == b"::".as_slice() {
        return Some(Symbol::DoubleColon);
    }
    if s == b"=".as_slice() {
        return Some(Symbol::Equals);
    }
    if s == b"..".as_slice() {
        return Some(Symbol::DotDot);
    }
    None
}

/// Whether a keyword begins with this byte. Most names are told from keywords by it.
#[tactic(auto, unfolding(crate::specs::Texts::keyword))]
#[inline(always)]
fn begins_keyword(byte: u8) -> bool
    ensures { (more : List ℕ) → result ≡ false → keyword (byte ∷ more) ≡ None }
{
    matches!(
        byte,
        b'a' | b'b' | b'c' | b'f' | b'i' | b'm' | b'o' | b'p' | b's' | b't' | b'v'
    )
}

#[tactic(auto, unfolding(crate::specs::Texts::keyword))]
#[inline(never)]
fn any_keyword(s: &[u8]) -> Option<Symbol>
    ensures { result ≡ keyword s.now }
{
    let symbol = type_word(s);
    if symbol.is_some() {
        symbol
    } else {
        other_word(s)
    }
}

/// The keyword that is spelled so.
#[inline(always)]
pub(crate) fn keyword(s: &[u8]) -> Option<Symbol>
    ensures { result ≡ keyword s.now }
{
    match s {
        [first, ..] if !begins_keyword(*first) => None,
        _ => any_keyword(s),
    }
}

/// The mark of one byte.
#[tactic(auto, unfolding(crate::specs::Texts::mark))]
#[inline(always)]
fn byte_mark(byte: u8) -> Option<Symbol>
    ensures { result ≡ mark (byte ∷ []) }
{
    match byte {
        b'(' => Some(Symbol::ParenOpen),
        b')' => Some(Symbol::ParenClose),
        b'[' => Some(Symbol::BracketOpen),
        b']' => Some(Symbol::BracketClose),
        b'{' => Some(Symbol::BraceOpen),
        b'}' => Some(Symbol::BraceClose),
        b',' => Some(Symbol::Comma),
        b';' => Some(Symbol::Semicolon),
        b':' => Some(Symbol::Colon),
        b'=' => Some(Symbol::Equals),
        _ => None,
    }
}

#[tactic(auto, unfolding(crate::specs::Texts::mark))]
#[inline(never)]
fn mark(s: &[u8]) -> Option<Symbol>
    ensures { result ≡ mark s.now }
{
    let symbol = bracket(s);
    if symbol.is_some() {
        symbol
    } else {
        other_mark(s)
    }
}

#[tactic(auto, unfolding(crate::specs::Texts::spelling))]
#[inline(always)]
pub(crate) fn spelling<'a>(text: &'a [u8], token: Token) -> &'a [u8]
    ensures { result.now ≡ spelling text.now token }
{
    if token.from <= token.to && token.to <= text.len() {
        &text[token.from..token.to]
    } else {
        &[]
    }
}

/// The mark that a token is, where it has one byte.
#[inline(always)]
pub(crate) fn plain_mark(text: &[u8], token: Token) -> Option<Symbol>
    ensures { IfSome result (λ s. mark (spelling text.now token) ≡ Some s) }
{
    match spelling(text, token) {
        [byte] => byte_mark(*byte),
        _ => None,
    }
}

/// Whether a word begins as no keyword does.
#[inline(always)]
pub(crate) fn is_plain_name(text: &[u8], token: Token) -> bool
    ensures { result ≡ true → keyword (spelling text.now token) ≡ None }
{
    match spelling(text, token) {
        [first, ..] => !begins_keyword(*first),
        _ => false,
    }
}

/// The token as the grammar sees it.
#[tactic(auto, unfolding(crate::specs::Texts::lexeme_of))]
#[inline(always)]
pub(crate) fn lexeme_of(text: &[u8], token: Token) -> Lexeme
    ensures { result ≡ lexeme_of text.now token }
{
    match token.kind {
        Kind::Word => match keyword(spelling(text, token)) {
            Some(symbol) => Lexeme::Fixed(symbol),
            None => Lexeme::Kept(Class::Name, same_token(token)),
        },
        Kind::Int => Lexeme::Kept(Class::Int, same_token(token)),
        Kind::Float => Lexeme::Kept(Class::Float, same_token(token)),
        Kind::Text => Lexeme::Kept(Class::Text, same_token(token)),
        Kind::Mark => match mark(spelling(text, token)) {
            Some(symbol) => Lexeme::Fixed(symbol),
            None => Lexeme::Fixed(Symbol::Stray),
        },
    }
}

/// Whether the token is this keyword or mark.
pub(crate) fn is_at(symbol: Symbol, text: &[u8], token: Token) -> bool
    ensures { result ≡ is_at symbol text.now token }
{
    match lexeme_of(text, token) {
        Lexeme::Fixed(found) => found.is_same(symbol),
        Lexeme::Kept(_, _) => false,
    }
}

/// All these tokens as lexemes.
pub(crate) fn lexemes_of(
    alloc: Global,
    text: &[u8],
    tokens: &[Token],
) -> Result<Vec<Lexeme>, AllocError>
    ensures { IfOk result (λ v. v.items ≡ map (lexeme_of text.now) tokens.now) }
{
    let mut lexemes = Vec::new(alloc);
    for token in tokens {
        lexemes.push(lexeme_of(text, *token))?;
    }
    Ok(lexemes)
}

/// How many tokens the first stretch has: all up to and with the first semicolon, or all.
pub(crate) fn stretch_len(text: &[u8], tokens: &[Token]) -> usize
    ensures stretch { take result tokens.now ≡ first_stretch text.now tokens.now }
    ensures within { result ≤ length tokens.now }
    ensures some { 0 < length tokens.now → 0 < result }
{
    let mut len = 0;
    for token in tokens {
        len += 1;
        if is_at(Symbol::Semicolon, text, *token) {
            return len;
        }
    }
    len
}

/// The tokens before the semicolon, where it is the last of them.
pub(crate) fn before_last(
    alloc: Global,
    text: &[u8],
    tokens: &[Token],
) -> Result<Option<ListOf<Token>>, AllocError>
    ensures { IfOk result (λ o. o ≡ before_last text.now tokens.now) }
{
    let mut list = ListOf::new(alloc);
    let mut left = tokens.len();
    for token in tokens {
        left -= 1;
        if is_at(Symbol::Semicolon, text, *token) {
            return if left == 0 { Ok(Some(list)) } else { Ok(None) };
        }
        list.push(*token)?;
    }
    Ok(None)
}
