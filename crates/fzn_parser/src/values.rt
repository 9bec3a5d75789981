//! Reads sets and expressions.

ghost use Rattle.std.specs.Prelude.{◌≡◌, ◌≢◌, IfOk};
ghost use Rattle.fzn_parser.specs.declared.tree.Elem.{Elem as Written};
ghost use Rattle.fzn_parser.specs.Reading.{int_at, set_at, from_int, number_at, elem_at, expr_at};

use crate::cursor::{Class, Cursor, Stop, Symbol};
use crate::entries::{Entry, read_list};
use crate::tree::{Elem, Expr, SetApart, SetLit};
use fzn_lexer::Token;
use std::alloc::Global;

/// An integer in braces.
impl Entry for Token {
    ghost at = { λ ls. int_at ls };

    fn read(_alloc: Global, cursor: &mut Cursor) -> Result<Token, Stop> {
        cursor.kept(Class::Int)
    }
}

#[tactic(auto, unfolding(crate::specs::Reading::set_at))]
pub(crate) fn read_set(alloc: Global, cursor: &mut Cursor) -> Result<SetLit, Stop>
    ensures read { IfOk result (λ s. set_at cursor.old ≡ Some (s, cursor.new)) }
    ensures refused { result ≡ Err Stop.Refused → set_at cursor.old ≡ None }
{
    if cursor.take(Symbol::BraceOpen) {
        let values = read_list(alloc, cursor, Symbol::BraceClose)?;
        return Ok(SetLit::Braces(values));
    }
    let low = cursor.kept(Class::Int)?;
    cursor.expect(Symbol::DotDot)?;
    let high = cursor.kept(Class::Int)?;
    Ok(SetLit::Range(low, high))
}

/// A set as an entry. It isn't inlined, so that the code for the many other entries is written once where they are read.
#[inline(never)]
fn set_entry(alloc: Global, set: SetLit) -> Result<Elem, Stop>
    ensures set { IfOk result (λ e. e ≡ Written.Set set) }
    ensures taken { result ≢ Err Stop.Refused }
{
    Ok(Elem::Set(SetApart::new(alloc, set)?))
}

/// The integer `low`, or the set that begins with it.
#[tactic(auto, unfolding(crate::specs::Reading::from_int))]
#[inline(always)]
fn read_from_int(alloc: Global, low: Token, cursor: &mut Cursor) -> Result<Elem, Stop>
    ensures read { IfOk result (λ e. from_int low cursor.old ≡ Some (e, cursor.new)) }
    ensures refused { result ≡ Err Stop.Refused → from_int low cursor.old ≡ None }
{
    if cursor.take(Symbol::DotDot) {
        let high = cursor.kept(Class::Int)?;
        return set_entry(alloc, SetLit::Range(low, high));
    }
    Ok(Elem::Int(low))
}

#[tactic(auto, unfolding(crate::specs::Reading::number_at))]
#[inline(always)]
fn read_number(alloc: Global, cursor: &mut Cursor) -> Result<Elem, Stop>
    ensures read { IfOk result (λ e. number_at cursor.old ≡ Some (e, cursor.new)) }
    ensures refused { result ≡ Err Stop.Refused → number_at cursor.old ≡ None }
{
    if let Some(token) = cursor.take_kept(Class::Float) {
        return Ok(Elem::Float(token));
    }
    let low = cursor.kept(Class::Int)?;
    read_from_int(alloc, low, cursor)
}

#[tactic(auto, unfolding(crate::specs::Reading::elem_at))]
#[inline(always)]
pub(crate) fn read_elem(alloc: Global, cursor: &mut Cursor) -> Result<Elem, Stop>
    ensures read { IfOk result (λ e. elem_at cursor.old ≡ Some (e, cursor.new)) }
    ensures refused { result ≡ Err Stop.Refused → elem_at cursor.old ≡ None }
{
    if cursor.take(Symbol::True) {
        return Ok(Elem::True);
    }
    if cursor.take(Symbol::False) {
        return Ok(Elem::False);
    }
    if cursor.take(Symbol::BraceOpen) {
        let values = read_list(alloc, cursor, Symbol::BraceClose)?;
        return set_entry(alloc, SetLit::Braces(values));
    }
    if let Some(token) = cursor.take_kept(Class::Name) {
        return Ok(Elem::Name(token));
    }
    read_number(alloc, cursor)
}

/// An entry of an array literal.
impl Entry for Elem {
    ghost at = { λ ls. elem_at ls };

    fn read(alloc: Global, cursor: &mut Cursor) -> Result<Elem, Stop> {
        read_elem(alloc, cursor)
    }
}

#[tactic(auto, unfolding(crate::specs::Reading::expr_at))]
#[inline(always)]
pub(crate) fn read_expr(alloc: Global, cursor: &mut Cursor) -> Result<Expr, Stop>
    ensures read { IfOk result (λ e. expr_at cursor.old ≡ Some (e, cursor.new)) }
    ensures refused { result ≡ Err Stop.Refused → expr_at cursor.old ≡ None }
{
    if cursor.take(Symbol::BracketOpen) {
        let entries = read_list(alloc, cursor, Symbol::BracketClose)?;
        return Ok(Expr::Row(entries));
    }
    let elem = read_elem(alloc, cursor)?;
    Ok(Expr::One(elem))
}

/// An argument of a constraint.
impl Entry for Expr {
    ghost at = { λ ls. expr_at ls };

    fn read(alloc: Global, cursor: &mut Cursor) -> Result<Expr, Stop> {
        read_expr(alloc, cursor)
    }
}
