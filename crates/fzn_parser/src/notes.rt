//! Reads annotations.

ghost use Rattle.std.specs.Prelude.{◌≡◌, ◌≢◌, IfOk, map};
ghost use Rattle.fzn_parser.specs.Notes.{note_arg, arg_tree, ann_tree, arg_of_elem, args_at, arg_at, called_at, notes_at};

use crate::cursor::{Class, Cursor, Stop, Symbol};
use crate::tree::{Ann, Arg, Elem};
use crate::values::read_elem;
use fzn_lexer::Token;
use std::alloc::Global;

fn arg_from(elem: Elem) -> Arg
    ensures { arg_tree result ≡ arg_of_elem elem }
{
    match elem {
        Elem::True => Arg::True,
        Elem::False => Arg::False,
        Elem::Int(token) => Arg::Int(token),
        Elem::Float(token) => Arg::Float(token),
        Elem::Name(name) => Arg::Ann(Ann { name, args: None }),
        Elem::Set(set) => Arg::Set(set.into_literal()),
    }
}

#[tactic(auto, using(crate::proofs::Trees::tree_views))]
fn arg_of_note(note: Ann) -> Arg
    ensures { arg_tree result ≡ note_arg (ann_tree note) }
{
    Arg::Ann(note)
}

/// An argument, in which at most `depth` brackets are open at once.
#[cycle(notes)]
#[tactic(auto, using(crate::proofs::Trees::tree_views), unfolding(crate::specs::Notes::arg_with))]
fn read_arg(alloc: Global, cursor: &mut Cursor, depth: usize) -> Result<Arg, Stop>
    ensures read { IfOk result (λ a. arg_at depth cursor.old ≡ Some (arg_tree a, cursor.new)) }
    ensures refused { result ≡ Err Stop.Refused → arg_at depth cursor.old ≡ None }
{
    if cursor.take(Symbol::BracketOpen) {
        let args = read_args(alloc, cursor, depth, Symbol::BracketClose)?;
        return Ok(Arg::Row(args));
    }
    if let Some(token) = cursor.take_kept(Class::Text) {
        return Ok(Arg::Text(token));
    }
    if let Some(name) = cursor.take_kept(Class::Name) {
        let note = read_called(alloc, cursor, depth, name)?;
        return Ok(arg_of_note(note));
    }
    let elem = read_elem(alloc, cursor)?;
    Ok(arg_from(elem))
}

/// The annotation of this name, with the arguments that follow it.
#[cycle(notes)]
#[tactic(auto, using(crate::proofs::Trees::tree_views), unfolding(crate::specs::Notes::called_with))]
fn read_called(alloc: Global, cursor: &mut Cursor, depth: usize, name: Token) -> Result<Ann, Stop>
    ensures read { IfOk result (λ a. called_at depth name cursor.old ≡ Some (ann_tree a, cursor.new)) }
    ensures refused { result ≡ Err Stop.Refused → called_at depth name cursor.old ≡ None }
{
    if cursor.take(Symbol::ParenOpen) {
        let args = read_args(alloc, cursor, depth, Symbol::ParenClose)?;
        return Ok(Ann {
            name,
            args: Some(args),
        });
    }
    Ok(Ann { name, args: None })
}

/// Arguments behind their opening bracket, and the closing one.
#[cycle(notes)]
fn read_args(
    alloc: Global,
    cursor: &mut Cursor,
    depth: usize,
    close: Symbol,
) -> Result<Vec<Arg>, Stop>
    ensures read { IfOk result (λ v. args_at depth close cursor.old ≡ Some (map arg_tree v.items, cursor.new)) }
    ensures refused { result ≡ Err Stop.Refused → args_at depth close cursor.old ≡ None }
{
    if depth == 0 {
        return Err(Stop::Refused);
    }
    let mut list = Vec::new(alloc);
    if cursor.take(close) {
        return Ok(list);
    }
    let most = cursor.len();
    for _turn in 0..most {
        let entry = read_arg(alloc, cursor, depth - 1)?;
        list.push(entry)?;
        if !cursor.continues(close)? {
            return Ok(list);
        }
    }
    Err(Stop::Refused)
}

/// The annotations that come next, in which at most `depth` brackets are open at once.
pub(crate) fn read_notes(alloc: Global, cursor: &mut Cursor, depth: usize) -> Result<Vec<Ann>, Stop>
    ensures read { IfOk result (λ v. notes_at depth cursor.old ≡ Some (map ann_tree v.items, cursor.new)) }
    ensures refused { result ≡ Err Stop.Refused → notes_at depth cursor.old ≡ None }
{
    let mut list = Vec::new(alloc);
    let most = cursor.len();
    for _turn in 0..most {
        if !cursor.take(Symbol::DoubleColon) {
            return Ok(list);
        }
        let name = cursor.kept(Class::Name)?;
        let note = read_called(alloc, cursor, depth, name)?;
        list.push(note)?;
    }
    Ok(list)
}
