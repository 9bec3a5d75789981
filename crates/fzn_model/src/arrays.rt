//! What the declaration of an array adds.

ghost use Rattle.std.specs.Prelude.{◌≡◌, ℕ, true, false, length, map, pos, IfOk, IfErr, OnOk};
ghost use Rattle.fzn_parser.specs.Notes.{ann_tree};
ghost use Rattle.fzn_model.specs.declared.fault_kinds.FaultKind.{FaultKind as Kind};
ghost use Rattle.fzn_model.specs.Effects as effects;
ghost use Rattle.fzn_model.specs.Faults as faults;
ghost use Rattle.fzn_model.specs.Scopes as scopes;
ghost use Rattle.fzn_model.specs.Drafts.{AreSure, elems_of};

use crate::domains::element_constraints;
use crate::effect::Effect;
use crate::exprs::{row_meaning, spelling};
use crate::fault_kinds::FaultKind;
use crate::numbers::number_of;
use crate::outputs::output_ranges;
use crate::scalars::{copy_name, named};
use crate::scope::Scope;
use crate::stop::Stop;
use crate::types::{fits_array_type, is_bool_shape};
use constraint_model::{Meaning, Output, Term};
use fzn_lexer::Token;
use fzn_parser::tree::{Ann, Expr, Shape};
use shared_list::SharedList;
use std::alloc::Global;

/// The declaration of an array, without its value.
#[derive(Clone, Copy)]
pub(crate) struct ArrayDeclaration<'a> {
    /// The first index as it is written.
    pub(crate) low: Token,
    /// The last index as it is written.
    pub(crate) high: Token,
    /// The type of its entries as it is written.
    pub(crate) shape: &'a Shape,
    /// The name that it declares.
    pub(crate) name: &'a [u8],
    /// Its annotations.
    pub(crate) anns: &'a [Ann],
}

fn is_number(text: &[u8], literal: Token, number: usize) -> bool
    ensures { result ≡ faults.is_number text.now literal number }
{
    match number_of(spelling(text, &literal)) {
        Some(value) => value as i128 == number as i128,
        None => false,
    }
}

/// Whether the index set is 1..n.
fn is_index_set(text: &[u8], low: Token, high: Token, n: usize) -> bool
    ensures { result ≡ faults.is_index_set text.now low high n }
{
    is_number(text, low, 1) && is_number(text, high, n)
}

/// Whether a value is an array literal with an entry for each index.
fn has_index_set(text: &[u8], low: Token, high: Token, value: &Expr) -> bool
    ensures { result ≡ faults.has_index_set text.now low high value.now }
{
    match value {
        Expr::One(_) => false,
        Expr::Row(entries) => is_index_set(text, low, high, entries.len()),
    }
}

fn fits_type(shape: &Shape, meaning: &Option<Meaning>) -> bool
    ensures { result ≡ faults.if_some (faults.fits_array_type shape.now) meaning.now }
{
    match meaning {
        Some(meaning) => fits_array_type(shape, meaning),
        None => false,
    }
}

/// What the value of an array denotes, and whether it is known that no entry passes a limit. Errors: the value doesn't fit the
/// declaration; memory.
fn read_row(
    alloc: Global,
    text: &[u8],
    scope: &Scope,
    declaration: &ArrayDeclaration<'_>,
    value: &Expr,
) -> Result<(Option<Meaning>, bool), Stop>
    ensures value { IfOk result (λ p. p.0 ≡ scopes.expr_meaning text.now scope.now value.now) }
    ensures sure { IfOk result (λ p. p.1 ≡ true → AreSure text.now scope.now (elems_of value.now)) }
    ensures fits { OnOk result (faults.is_wrong_row text.now scope.now declaration.now.low declaration.now.high declaration.now.shape.now value.now ≡ false) }
    ensures wrong { IfErr result (faults.OnlyFault Kind.WrongArgument (faults.is_wrong_row text.now scope.now declaration.now.low declaration.now.high declaration.now.shape.now value.now ≡ true)) }
{
    let (meaning, sure) = row_meaning(alloc, text, scope, value)?;
    if has_index_set(text, declaration.low, declaration.high, value)
        && fits_type(declaration.shape, &meaning)
    {
        Ok((meaning, sure))
    } else {
        Err(Stop::Fault(FaultKind::WrongArgument))
    }
}

fn terms_in(alloc: Global, value: &Option<Meaning>) -> Result<SharedList<Term>, Stop>
    ensures { IfOk result (λ ts. ts ≡ effects.terms_in value.now) }
{
    match value {
        Some(Meaning::Row(array)) => Ok(array.entries.share_terms(alloc)?),
        Some(Meaning::One(_)) | Some(Meaning::Set(_)) | None => Ok(SharedList::empty(alloc)),
    }
}

fn array_output(
    alloc: Global,
    text: &[u8],
    declaration: &ArrayDeclaration<'_>,
    entries: SharedList<Term>,
) -> Result<Option<Output>, Stop>
    ensures { IfOk result (λ o. o ≡ effects.array_output text.now (map ann_tree declaration.now.anns.now) (effects.is_bool_shape declaration.now.shape.now) declaration.now.name.now entries) }
{
    let Some(ranges) = output_ranges(alloc, text, declaration.anns)? else {
        return Ok(None);
    };
    let name = copy_name(alloc, declaration.name)?;
    Ok(Some(Output::Array {
        name,
        is_bool: is_bool_shape(declaration.shape),
        ranges,
        entries,
    }))
}

fn array_effect(
    alloc: Global,
    text: &[u8],
    declaration: &ArrayDeclaration<'_>,
    value: Option<Meaning>,
    effect: &mut Effect,
) -> Result<(), Stop>
    requires { effect.old ≡ effects.no_effect }
    ensures { OnOk result (effect.new ≡ effects.array_effect text.now declaration.now.shape.now declaration.now.name.now (map ann_tree declaration.now.anns.now) value) }
{
    let entries = terms_in(alloc, &value)?;
    effect.constraints = element_constraints(alloc, text, declaration.shape, entries.as_slice())?;
    effect.output = array_output(alloc, text, declaration, entries)?;
    effect.declared = named(alloc, declaration.name, value)?;
    Ok(())
}

/// Records what the declaration of an array adds, where its value fits; tells whether it is known that no entry passes a limit.
pub(crate) fn read_array(
    alloc: Global,
    text: &[u8],
    scope: &Scope,
    declaration: &ArrayDeclaration<'_>,
    value: &Expr,
    effect: &mut Effect,
) -> Result<bool, Stop>
    requires { effect.old ≡ effects.no_effect }
    ensures sure { IfOk result (λ b. b ≡ true → AreSure text.now scope.now (elems_of value.now)) }
    ensures effect { OnOk result (effect.new ≡ effects.array_effect text.now declaration.now.shape.now declaration.now.name.now (map ann_tree declaration.now.anns.now) (scopes.expr_meaning text.now scope.now value.now)) }
    ensures fits { OnOk result (faults.is_wrong_row text.now scope.now declaration.now.low declaration.now.high declaration.now.shape.now value.now ≡ false) }
    ensures wrong { IfErr result (faults.OnlyFault Kind.WrongArgument (faults.is_wrong_row text.now scope.now declaration.now.low declaration.now.high declaration.now.shape.now value.now ≡ true)) }
{
    let (value, sure) = read_row(alloc, text, scope, declaration, value)?;
    match array_effect(alloc, text, declaration, value, effect) {
        Ok(()) => Ok(sure),
        Err(_) => Err(Stop::NoMemory),
    }
}
