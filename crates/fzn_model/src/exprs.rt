//! What expressions denote, by the declarations before them.

ghost use Rattle.std.specs.Prelude.{◌≡◌, IfOk, IfSome, Some, true, false, map, option_map};
ghost use Rattle.std.specs.List.{list_any};
ghost use Rattle.fzn_model.specs.declared.fault_kinds.FaultKind.{FaultKind as Kind};
ghost use Rattle.fzn_model.specs.Leaves.{elem_leaves};
ghost use Rattle.fzn_model.specs.Drafts.{AreSure, elems_of, has_kind};
ghost use Rattle.fzn_parser.specs.Texts.{spelling};
ghost use Rattle.fzn_model.specs.Scopes.{sign_number, number_at, set_at, boolean, integer, entry_at, all_some, array_literal, meaning_of, simple_at, expr_meaning};

use crate::numbers::number_of;
use crate::scope::Scope;
use constraint_model::{Array, Entries, Meaning, Scalar, Term, range_of, ranges_of};
use fzn_lexer::Token;
use fzn_parser::tree::{Elem, Expr, SetLit};
use list_of::ListOf;
use shared_list::SharedList;
use std::alloc::{AllocError, Global};

/// The bytes of a token; none where its place is not in the text.
#[tactic(auto, unfolding(fzn_parser::specs::Texts::spelling))]
#[inline(always)]
pub(crate) fn spelling<'a>(text: &'a [u8], token: &Token) -> &'a [u8]
    ensures { result.now ≡ spelling text.now token.now }
{
    if token.from <= token.to && token.to <= text.len() {
        &text[token.from..token.to]
    } else {
        &[]
    }
}

/// What a literal counts as whose number no model has: its sign.
#[inline(never)]
fn sign_number(literal: &[u8]) -> i64
    ensures { result ≡ sign_number literal.now }
{
    match literal {
        [b'-', ..] => -1,
        _ => 0,
    }
}

/// The number of an integer literal, or its sign alone.
#[inline(always)]
pub(crate) fn number_at(text: &[u8], token: &Token) -> i64
    ensures { result ≡ number_at text.now token.now }
{
    let literal = spelling(text, token);
    match number_of(literal) {
        Some(number) => number,
        None => sign_number(literal),
    }
}

fn numbers_at(alloc: Global, text: &[u8], tokens: &[Token]) -> Result<Vec<i64>, AllocError>
    ensures { IfOk result (λ v. v.items ≡ map (number_at text.now) tokens.now) }
{
    tokens
        .iter()
        .map(|token| number_at(text, token))
        .collect(alloc)
}

/// The set that a literal writes.
pub(crate) fn set_at(
    alloc: Global,
    text: &[u8],
    set: &SetLit,
) -> Result<SharedList<(i64, i64)>, AllocError>
    ensures { IfOk result (λ ranges. ranges ≡ set_at text.now set.now) }
{
    match set {
        SetLit::Range(low, high) => range_of(alloc, number_at(text, low), number_at(text, high)),
        SetLit::Braces(values) => ranges_of(alloc, numbers_at(alloc, text, values.as_slice())?),
    }
}

/// The same meaning once more. Of a long array or set no entry is copied.
pub(crate) fn share_meaning(alloc: Global, meaning: &Meaning) -> Result<Meaning, AllocError>
    ensures { IfOk result (λ shared. shared ≡ meaning.now) }
{
    match meaning {
        Meaning::One(scalar) => Ok(Meaning::One(*scalar)),
        Meaning::Row(array) => Ok(Meaning::Row(Array {
            entries: array.entries.share(alloc)?,
            number: array.number,
        })),
        Meaning::Set(ranges) => Ok(Meaning::Set(ranges.share(alloc)?)),
    }
}

#[inline(always)]
fn boolean(number: i64) -> Scalar
    ensures { result ≡ boolean number }
{
    Scalar {
        is_bool: true,
        term: Term::Number(number),
    }
}

#[inline(always)]
fn integer(number: i64) -> Scalar
    ensures { result ≡ integer number }
{
    Scalar {
        is_bool: false,
        term: Term::Number(number),
    }
}

/// What an array's entry denotes, where that is a boolean or an integer.
#[inline(always)]
fn entry_at(text: &[u8], scope: &Scope, entry: &Elem) -> Option<Scalar>
    ensures { result ≡ entry_at text.now scope.now entry.now }
{
    match entry {
        Elem::True => Some(boolean(1)),
        Elem::False => Some(boolean(0)),
        Elem::Int(token) => Some(integer(number_at(text, token))),
        Elem::Name(token) => scope.scalar(spelling(text, token)),
        Elem::Float(_) | Elem::Set(_) => None,
    }
}

/// What the entries of an array denote, where each denotes a boolean or an integer.
#[inline(always)]
fn entries_at(
    alloc: Global,
    text: &[u8],
    scope: &Scope,
    entries: &[Elem],
) -> Result<Option<ListOf<Scalar>>, AllocError>
    ensures { IfOk result (λ o. o ≡ all_some (map (entry_at text.now scope.now) entries.now)) }
{
    let mut scalars = ListOf::from_vec(Vec::with_capacity(alloc, entries.len())?);
    for entry in entries {
        match entry_at(text, scope, entry) {
            Some(scalar) => scalars.push(scalar)?,
            None => return Ok(None),
        }
    }
    Ok(Some(scalars))
}

/// The array of these entries as it is written out. It has no number.
#[inline(always)]
fn literal_of(alloc: Global, scalars: ListOf<Scalar>) -> Result<Meaning, AllocError>
    ensures { IfOk result (λ m. m ≡ array_literal scalars) }
{
    Ok(Meaning::Row(Array {
        entries: Entries::new(alloc, scalars.into_vec())?,
        number: None,
    }))
}

/// The array of these entries, where each is a boolean or an integer.
fn row_at(
    alloc: Global,
    text: &[u8],
    scope: &Scope,
    entries: &[Elem],
) -> Result<Option<Meaning>, AllocError>
    ensures { IfOk result (λ o. o ≡ option_map array_literal (all_some (map (entry_at text.now scope.now) entries.now))) }
{
    match entries_at(alloc, text, scope, entries)? {
        Some(scalars) => Ok(Some(literal_of(alloc, scalars)?)),
        None => Ok(None),
    }
}

/// What an array's entry denotes, where that is a boolean or an integer, and the profile has its literal.
#[inline(always)]
fn sure_entry(text: &[u8], scope: &Scope, entry: &Elem) -> Option<Scalar>
    ensures { IfSome result (λ s. (entry_at text.now scope.now entry.now ≡ Some s)
        × ((list_any (has_kind text.now scope.now Kind.OutOfRange) (elem_leaves entry.now) ≡ false)
        × (list_any (has_kind text.now scope.now Kind.TooMany) (elem_leaves entry.now) ≡ false))) }
{
    match entry {
        Elem::True => Some(boolean(1)),
        Elem::False => Some(boolean(0)),
        Elem::Int(token) => Some(integer(number_of(spelling(text, token))?)),
        Elem::Name(token) => scope.scalar(spelling(text, token)),
        Elem::Float(_) | Elem::Set(_) => None,
    }
}

/// What the entries of an array denote, where each denotes a boolean or an integer, and the profile has each literal.
#[inline(always)]
fn sure_entries(
    alloc: Global,
    text: &[u8],
    scope: &Scope,
    entries: &[Elem],
) -> Result<Option<ListOf<Scalar>>, AllocError>
    ensures { IfOk result (λ o. IfSome o (λ scalars. (all_some (map (entry_at text.now scope.now) entries.now) ≡ Some scalars) × AreSure text.now scope.now entries.now)) }
{
    let mut scalars = ListOf::from_vec(Vec::with_capacity(alloc, entries.len())?);
    for entry in entries {
        match sure_entry(text, scope, entry) {
            Some(scalar) => scalars.push(scalar)?,
            None => return Ok(None),
        }
    }
    Ok(Some(scalars))
}

/// What the value of an array denotes, and whether it is known that the profile has each literal of its entries: so they are read
/// once.
#[tactic(auto, unfolding(crate::specs::Scopes::expr_meaning))]
pub(crate) fn row_meaning(
    alloc: Global,
    text: &[u8],
    scope: &Scope,
    expr: &Expr,
) -> Result<(Option<Meaning>, bool), AllocError>
    ensures value { IfOk result (λ p. p.0 ≡ expr_meaning text.now scope.now expr.now) }
    ensures sure { IfOk result (λ p. p.1 ≡ true → AreSure text.now scope.now (elems_of expr.now)) }
{
    match expr {
        Expr::One(elem) => Ok((simple_at(alloc, text, scope, elem)?, false)),
        Expr::Row(entries) => match sure_entries(alloc, text, scope, entries.as_slice())? {
            Some(scalars) => Ok((Some(literal_of(alloc, scalars)?), true)),
            None => Ok((row_at(alloc, text, scope, entries.as_slice())?, false)),
        },
    }
}

/// What a name denotes, where it was declared.
#[inline(always)]
fn meaning_named(alloc: Global, scope: &Scope, name: &[u8]) -> Result<Option<Meaning>, AllocError>
    ensures { IfOk result (λ o. o ≡ meaning_of scope.now name.now) }
{
    match scope.meaning(name) {
        Some(meaning) => Ok(Some(share_meaning(alloc, meaning)?)),
        None => Ok(None),
    }
}

#[inline(always)]
fn simple_at(
    alloc: Global,
    text: &[u8],
    scope: &Scope,
    elem: &Elem,
) -> Result<Option<Meaning>, AllocError>
    ensures { IfOk result (λ o. o ≡ simple_at text.now scope.now elem.now) }
{
    match elem {
        Elem::True => Ok(Some(Meaning::One(boolean(1)))),
        Elem::False => Ok(Some(Meaning::One(boolean(0)))),
        Elem::Int(token) => Ok(Some(Meaning::One(integer(number_at(text, token))))),
        Elem::Float(_) => Ok(None),
        Elem::Name(token) => meaning_named(alloc, scope, spelling(text, token)),
        Elem::Set(set) => Ok(Some(Meaning::Set(set_at(alloc, text, set.literal())?))),
    }
}

/// What an expression denotes, where that is a boolean, an integer, an array of these or a set.
#[tactic(auto, unfolding(crate::specs::Scopes::expr_meaning))]
#[inline(always)]
pub(crate) fn expr_meaning(
    alloc: Global,
    text: &[u8],
    scope: &Scope,
    expr: &Expr,
) -> Result<Option<Meaning>, AllocError>
    ensures { IfOk result (λ m. m ≡ expr_meaning text.now scope.now expr.now) }
{
    match expr {
        Expr::One(elem) => simple_at(alloc, text, scope, elem),
        Expr::Row(entries) => row_at(alloc, text, scope, entries.as_slice()),
    }
}
