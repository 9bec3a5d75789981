//! What a constraint item and the solve item add.

ghost use Rattle.std.specs.Prelude.{◌≡◌, ◌++◌, ◌∷◌, [], ℕ, pos, true, false, length, map, take, is_some, unwrap_or, Some, None, MatchOption, IfOk, IfErr, OnOk};
ghost use Rattle.std.specs.List.{list_all};
ghost use Rattle.fzn_parser.specs.Notes.{ann_tree};
ghost use Rattle.constraint_model.specs.declared.model.Term.{Term as Objective};
ghost use Rattle.constraint_model.specs.declared.table.Letter.{Letter};
ghost use Rattle.fzn_model.specs.declared.fault_kinds.FaultKind.{FaultKind as Kind};
ghost use Rattle.fzn_model.specs.Effects as effects;
ghost use Rattle.fzn_model.specs.Faults as faults;
ghost use Rattle.constraint_model.specs.Fits as fitting;
ghost use Rattle.fzn_model.specs.Scopes as scopes;

use crate::effect::Effect;
use crate::exprs::expr_meaning;
use crate::fault_kinds::FaultKind;
use crate::scope::Scope;
use crate::searches::all_phases;
use crate::stop::Stop;
use constraint_model::{
    ArrayTerms, Boxed, Constraint, ConstraintName, Goal, Meaning, Operand, Term, fits_some_row,
};
use fzn_parser::tree::{Aim, Ann, Expr};
use list_of::ListOf;
use std::alloc::{AllocError, Global};

#[inline(always)]
fn operand_of(alloc: Global, meaning: Meaning) -> Result<Operand, AllocError>
    ensures { IfOk result (λ operand. operand ≡ fitting.operand_of meaning) }
{
    match meaning {
        Meaning::One(scalar) => Ok(Operand::One(scalar.term)),
        Meaning::Row(array) => {
            let row = ArrayTerms {
                terms: array.entries.into_terms(),
                number: array.number,
            };
            Ok(Operand::Row(Boxed::new(alloc, row)?))
        }
        Meaning::Set(ranges) => Ok(Operand::Set(Boxed::new(alloc, ranges)?)),
    }
}

#[inline(always)]
fn constraint_on(
    alloc: Global,
    name: ConstraintName,
    meanings: ListOf<Meaning>,
) -> Result<Constraint, Stop>
    ensures { IfOk result (λ c. c ≡ fitting.constraint_on name meanings) }
{
    let mut operands = ListOf::from_vec(Vec::with_capacity(alloc, meanings.len())?);
    for meaning in meanings.into_vec() {
        operands.push(operand_of(alloc, meaning)?)?;
    }
    Ok(Constraint { name, operands })
}

/// What the arguments denote, where each denotes something.
#[inline(always)]
fn arguments(
    alloc: Global,
    text: &[u8],
    scope: &Scope,
    args: &[Expr],
) -> Result<Option<ListOf<Meaning>>, AllocError>
    ensures { IfOk result (λ r. MatchOption r (faults.all_mean text.now scope.now args.now ≡ false)
        (λ ms. (faults.all_mean text.now scope.now args.now ≡ true) × (ms ≡ effects.meanings_of text.now scope.now args.now))) }
{
    let mut meanings = ListOf::from_vec(Vec::with_capacity(alloc, args.len())?);
    for arg in args {
        match expr_meaning(alloc, text, scope, arg)? {
            Some(meaning) => meanings.push(meaning)?,
            None => return Ok(None),
        }
    }
    Ok(Some(meanings))
}

#[inline(always)]
fn one_constraint(alloc: Global, constraint: Constraint, effect: &mut Effect) -> Result<(), Stop>
    requires { effect.old ≡ effects.no_effect }
    ensures { OnOk result (effect.new ≡ effects.constraint_alone constraint) }
{
    effect.constraints = ListOf::from_vec(Vec::with_capacity(alloc, 1)?);
    effect.constraints.push(constraint)?;
    Ok(())
}

#[inline(always)]
fn known_effect(
    alloc: Global,
    name: ConstraintName,
    meanings: ListOf<Meaning>,
    effect: &mut Effect,
) -> Result<(), Stop>
    requires { effect.old ≡ effects.no_effect }
    ensures { OnOk result (effect.new ≡ effects.constraint_alone (fitting.constraint_on name meanings)) }
{
    let constraint = constraint_on(alloc, name, meanings)?;
    one_constraint(alloc, constraint, effect)
}

/// Records what a constraint item adds, where its arguments fit.
#[inline(always)]
pub(crate) fn read_constraint(
    alloc: Global,
    text: &[u8],
    scope: &Scope,
    name: &[u8],
    args: &[Expr],
    effect: &mut Effect,
) -> Result<(), Stop>
    requires { effect.old ≡ effects.no_effect }
    ensures effect { OnOk result (effect.new ≡ effects.constraint_effect text.now scope.now name.now args.now) }
    ensures fits { OnOk result (faults.arguments_fit text.now scope.now name.now args.now ≡ true) }
    ensures wrong { IfErr result (faults.OnlyFault Kind.WrongArgument (faults.arguments_fit text.now scope.now name.now args.now ≡ false)) }
{
    let Some(meanings) = arguments(alloc, text, scope, args)? else {
        return Err(Stop::Fault(FaultKind::WrongArgument));
    };
    let Some(known) = ConstraintName::named(name) else {
        return Err(Stop::Fault(FaultKind::WrongArgument));
    };
    if !fits_some_row(known, meanings.as_slice()) {
        return Err(Stop::Fault(FaultKind::WrongArgument));
    }
    match known_effect(alloc, known, meanings, effect) {
        Ok(()) => Ok(()),
        Err(_) => Err(Stop::NoMemory),
    }
}

/// The term of an objective, where that is an integer.
fn objective_term(meaning: &Option<Meaning>) -> Option<Term>
    ensures { MatchOption result (faults.if_some (fitting.fits Letter.Integer) meaning.now ≡ false)
        (λ t. (faults.if_some (fitting.fits Letter.Integer) meaning.now ≡ true) × (t ≡ unwrap_or (effects.term_in meaning.now) (Objective.Number (pos 0)))) }
{
    match meaning {
        Some(Meaning::One(scalar)) => {
            if scalar.is_bool {
                None
            } else {
                Some(scalar.term)
            }
        }
        Some(Meaning::Row(_)) | Some(Meaning::Set(_)) | None => None,
    }
}

/// The objective, where it is an integer, constant or variable.
fn read_objective(alloc: Global, text: &[u8], scope: &Scope, expr: &Expr) -> Result<Term, Stop>
    ensures value { IfOk result (λ t. t ≡ effects.objective text.now scope.now expr.now) }
    ensures fits { OnOk result (faults.value_fits text.now scope.now (fitting.fits Letter.Integer) expr.now ≡ true) }
    ensures wrong { IfErr result (faults.OnlyFault Kind.WrongArgument (faults.value_fits text.now scope.now (fitting.fits Letter.Integer) expr.now ≡ false)) }
{
    let meaning = expr_meaning(alloc, text, scope, expr)?;
    match objective_term(&meaning) {
        Some(term) => Ok(term),
        None => Err(Stop::Fault(FaultKind::WrongArgument)),
    }
}

/// What is asked for, where its objective fits.
fn read_goal(alloc: Global, text: &[u8], scope: &Scope, aim: &Aim) -> Result<Goal, Stop>
    ensures value { IfOk result (λ g. g ≡ effects.goal_of text.now scope.now aim.now) }
    ensures fits { OnOk result (faults.aim_fits text.now scope.now aim.now ≡ true) }
    ensures wrong { IfErr result (faults.OnlyFault Kind.WrongArgument (faults.aim_fits text.now scope.now aim.now ≡ false)) }
{
    match aim {
        Aim::Satisfy => Ok(Goal::Satisfy),
        Aim::Minimize(expr) => match read_objective(alloc, text, scope, expr) {
            Ok(term) => Ok(Goal::Minimize(term)),
            Err(stop) => Err(stop),
        },
        Aim::Maximize(expr) => match read_objective(alloc, text, scope, expr) {
            Ok(term) => Ok(Goal::Maximize(term)),
            Err(stop) => Err(stop),
        },
    }
}

/// Records what the solve item adds, where its objective fits.
pub(crate) fn read_solve(
    alloc: Global,
    text: &[u8],
    scope: &Scope,
    count: u32,
    anns: &[Ann],
    aim: &Aim,
    effect: &mut Effect,
) -> Result<(), Stop>
    requires { effect.old ≡ effects.no_effect }
    ensures effect { OnOk result (effect.new ≡ effects.solve_effect text.now scope.now count (map ann_tree anns.now) aim.now) }
    ensures fits { OnOk result (faults.aim_fits text.now scope.now aim.now ≡ true) }
    ensures wrong { IfErr result (faults.OnlyFault Kind.WrongArgument (faults.aim_fits text.now scope.now aim.now ≡ false)) }
{
    let goal = match read_goal(alloc, text, scope, aim) {
        Ok(goal) => goal,
        Err(stop) => return Err(stop),
    };
    let phases = match all_phases(alloc, text, scope, anns, count) {
        Ok(phases) => phases,
        Err(_) => return Err(Stop::NoMemory),
    };
    effect.solved = Some((phases, goal));
    Ok(())
}
