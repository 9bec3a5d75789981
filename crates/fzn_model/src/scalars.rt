//! What the declaration of a scalar adds.

ghost use Rattle.std.specs.Prelude.{◌≡◌, ◌++◌, ◌∷◌, [], ◌<◌, ◌≤◌, ℕ, true, false, length, map, IfOk, IfErr, OnOk, option_map, option_and_then};
ghost use Rattle.fzn_parser.specs.Notes.{ann_tree};
ghost use Rattle.fzn_model.specs.declared.fault_kinds.FaultKind.{FaultKind as Kind};
ghost use Rattle.fzn_model.specs.Effects as effects;
ghost use Rattle.fzn_model.specs.Faults as faults;

use crate::domains::{bounds_of, equality, push_domain};
use crate::effect::Effect;
use crate::exprs::expr_meaning;
use crate::fault_kinds::FaultKind;
use crate::outputs::has_output_var;
use crate::scope::Scope;
use crate::stop::Stop;
use crate::types::{declares_variable, fits_scalar_type, is_bool_shape};
use constraint_model::{Constraint, Meaning, Output, Scalar, Term, VarDecl};
use fzn_parser::tree::{Ann, Expr, Shape};
use list_of::ListOf;
use names::Name;
use std::alloc::Global;

/// The declaration of a scalar, without its value.
#[derive(Clone, Copy)]
pub(crate) struct ScalarDeclaration<'a> {
    /// The place of its variable, where it declares one.
    pub(crate) place: u32,
    /// The type as it is written.
    pub(crate) shape: &'a Shape,
    /// The name that it declares.
    pub(crate) name: &'a [u8],
    /// Its annotations.
    pub(crate) anns: &'a [Ann],
}

/// The bytes of a name.
pub(crate) fn copy_name(alloc: Global, name: &[u8]) -> Result<ListOf<u8>, Stop>
    ensures { IfOk result (λ n. n ≡ name.now) }
{
    Ok(ListOf::from_vec(Vec::from_slice(alloc, name)?))
}

/// The term of a meaning that is a boolean or an integer.
pub(crate) fn term_in(meaning: &Option<Meaning>) -> Option<Term>
    ensures { result ≡ effects.term_in meaning.now }
{
    match meaning {
        Some(Meaning::One(scalar)) => Some(scalar.term),
        Some(Meaning::Row(_)) | Some(Meaning::Set(_)) | None => None,
    }
}

fn fits_type(shape: &Shape, meaning: &Option<Meaning>) -> bool
    ensures { result ≡ faults.if_some (faults.fits_scalar_type shape.now) meaning.now }
{
    match meaning {
        Some(meaning) => fits_scalar_type(shape, meaning),
        None => false,
    }
}

/// What the value of a declaration denotes, where there is one. Errors: it isn't of the declared type; memory.
fn read_value(
    alloc: Global,
    text: &[u8],
    scope: &Scope,
    shape: &Shape,
    value: &Option<Expr>,
) -> Result<Option<Meaning>, Stop>
    ensures value { IfOk result (λ m. m ≡ effects.value_of text.now scope.now value.now) }
    ensures fits { OnOk result (faults.is_wrong_value text.now scope.now shape.now value.now ≡ false) }
    ensures wrong { IfErr result (faults.OnlyFault Kind.WrongArgument (faults.is_wrong_value text.now scope.now shape.now value.now ≡ true)) }
{
    let Some(expr) = value else {
        return Ok(None);
    };
    let meaning = expr_meaning(alloc, text, scope, expr)?;
    if fits_type(shape, &meaning) {
        Ok(meaning)
    } else {
        Err(Stop::Fault(FaultKind::WrongArgument))
    }
}

fn scalar_output(
    alloc: Global,
    text: &[u8],
    declaration: &ScalarDeclaration<'_>,
    value: Term,
) -> Result<Option<Output>, Stop>
    ensures { IfOk result (λ o. o ≡ effects.scalar_output text.now (map ann_tree declaration.now.anns.now) (effects.is_bool_shape declaration.now.shape.now) declaration.now.name.now value) }
{
    if !has_output_var(text, declaration.anns) {
        return Ok(None);
    }
    let name = copy_name(alloc, declaration.name)?;
    Ok(Some(Output::Scalar {
        name,
        is_bool: is_bool_shape(declaration.shape),
        value,
    }))
}

fn push_value(
    alloc: Global,
    shape: &Shape,
    x: Term,
    value: &Option<Meaning>,
    constraints: &mut ListOf<Constraint>,
) -> Result<(), Stop>
    ensures { OnOk result (constraints.new ≡ constraints.old ++ effects.value_constraints shape.now x value.now) }
{
    if let Some(term) = term_in(value) {
        constraints.push(equality(alloc, is_bool_shape(shape), x, term)?)?;
    }
    Ok(())
}

fn variable(alloc: Global, text: &[u8], shape: &Shape, name: &[u8]) -> Result<VarDecl, Stop>
    ensures { IfOk result (λ d. d ≡ effects.variable text.now shape.now name.now) }
{
    let (low, high) = bounds_of(alloc, text, shape)?;
    let name = Name::new(alloc, name)?;
    Ok(VarDecl {
        name,
        is_bool: is_bool_shape(shape),
        low,
        high,
    })
}

/// Records what the declaration of a variable at this place adds.
fn variable_effect(
    alloc: Global,
    text: &[u8],
    declaration: &ScalarDeclaration<'_>,
    value: &Option<Meaning>,
    effect: &mut Effect,
) -> Result<(), Stop>
    requires { effect.old ≡ effects.no_effect }
    ensures { OnOk result (effect.new ≡ effects.variable_effect text.now declaration.now.place declaration.now.shape.now declaration.now.name.now (map ann_tree declaration.now.anns.now) value.now) }
{
    let x = Term::Var(declaration.place);
    effect.var = Some(variable(alloc, text, declaration.shape, declaration.name)?);
    push_domain(alloc, text, declaration.shape, x, &mut effect.constraints)?;
    push_value(alloc, declaration.shape, x, value, &mut effect.constraints)?;
    effect.output = scalar_output(alloc, text, declaration, x)?;
    let scalar = Scalar {
        is_bool: is_bool_shape(declaration.shape),
        term: x,
    };
    effect.declared = Some((Name::new(alloc, declaration.name)?, Meaning::One(scalar)));
    Ok(())
}

fn parameter_output(
    alloc: Global,
    text: &[u8],
    declaration: &ScalarDeclaration<'_>,
    value: &Option<Meaning>,
) -> Result<Option<Output>, Stop>
    ensures { IfOk result (λ o. o ≡ option_and_then (effects.scalar_output text.now (map ann_tree declaration.now.anns.now) (effects.is_bool_shape declaration.now.shape.now) declaration.now.name.now) (effects.term_in value.now)) }
{
    match term_in(value) {
        Some(term) => scalar_output(alloc, text, declaration, term),
        None => Ok(None),
    }
}

/// The name with its meaning, where there is one.
pub(crate) fn named(
    alloc: Global,
    name: &[u8],
    value: Option<Meaning>,
) -> Result<Option<(Name, Meaning)>, Stop>
    ensures { IfOk result (λ d. d ≡ option_map (λ m. (name.now, m)) value) }
{
    match value {
        Some(meaning) => Ok(Some((Name::new(alloc, name)?, meaning))),
        None => Ok(None),
    }
}

/// Records what the declaration of a parameter adds.
fn parameter_effect(
    alloc: Global,
    text: &[u8],
    declaration: &ScalarDeclaration<'_>,
    value: Option<Meaning>,
    effect: &mut Effect,
) -> Result<(), Stop>
    requires { effect.old ≡ effects.no_effect }
    ensures { OnOk result (effect.new ≡ effects.parameter_effect text.now declaration.now.shape.now declaration.now.name.now (map ann_tree declaration.now.anns.now) value) }
{
    effect.output = parameter_output(alloc, text, declaration, &value)?;
    effect.declared = named(alloc, declaration.name, value)?;
    Ok(())
}

fn scalar_effect(
    alloc: Global,
    text: &[u8],
    declaration: &ScalarDeclaration<'_>,
    value: Option<Meaning>,
    effect: &mut Effect,
) -> Result<(), Stop>
    requires { effect.old ≡ effects.no_effect }
    ensures { OnOk result (effect.new ≡ effects.scalar_effect text.now declaration.now.place declaration.now.shape.now declaration.now.name.now (map ann_tree declaration.now.anns.now) value) }
{
    if declares_variable(declaration.shape) {
        variable_effect(alloc, text, declaration, &value, effect)
    } else {
        parameter_effect(alloc, text, declaration, value, effect)
    }
}

/// Records what the declaration of a scalar adds, where its value fits.
pub(crate) fn read_scalar(
    alloc: Global,
    text: &[u8],
    scope: &Scope,
    declaration: &ScalarDeclaration<'_>,
    value: &Option<Expr>,
    effect: &mut Effect,
) -> Result<(), Stop>
    requires { effect.old ≡ effects.no_effect }
    ensures effect { OnOk result (effect.new ≡ effects.scalar_effect text.now declaration.now.place declaration.now.shape.now declaration.now.name.now (map ann_tree declaration.now.anns.now) (effects.value_of text.now scope.now value.now)) }
    ensures fits { OnOk result (faults.is_wrong_value text.now scope.now declaration.now.shape.now value.now ≡ false) }
    ensures wrong { IfErr result (faults.OnlyFault Kind.WrongArgument (faults.is_wrong_value text.now scope.now declaration.now.shape.now value.now ≡ true)) }
{
    let value = read_value(alloc, text, scope, declaration.shape, value)?;
    match scalar_effect(alloc, text, declaration, value, effect) {
        Ok(()) => Ok(()),
        Err(_) => Err(Stop::NoMemory),
    }
}
