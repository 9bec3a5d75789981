//! What an item adds, where it has no fault by the declarations before it.

ghost use Rattle.std.specs.Prelude.{◌≡◌, ◌≤◌, ◌&&◌, not, cond, true, false, length, is_none, None, Some, IfOk, IfErr, OnOk};
ghost use Rattle.fzn_parser.specs.Items.{what_tree};
ghost use Rattle.fzn_model.specs.declared.fault_kinds.FaultKind.{FaultKind as Kind};
ghost use Rattle.fzn_model.specs.Effects as effects;
ghost use Rattle.fzn_model.specs.Faults as faults;
ghost use Rattle.fzn_model.specs.Drafts.{has_leaf, declares_again, first_kind, own_kinds, elems_in, is_new, AreSure};

use crate::arrays::{ArrayDeclaration, read_array};
use crate::constraints::{read_constraint, read_solve};
use crate::declaring::declares_again;
use crate::effect::Effect;
use crate::exprs::spelling;
use crate::fault_kinds::FaultKind;
use crate::leaves::Sought;
use crate::scalars::{ScalarDeclaration, read_scalar};
use crate::scope::Scope;
use crate::stop::Stop;
use crate::types::is_unsupported;
use fzn_parser::tree::What;
use list_of::ListOf;
use std::alloc::Global;

/// What adds nothing.
pub(crate) fn no_effect(alloc: Global) -> Effect
    ensures { result ≡ effects.no_effect }
{
    Effect {
        declared: None,
        var: None,
        constraints: ListOf::new(alloc),
        output: None,
        solved: None,
    }
}

/// Records what an item adds, where its arguments, its value or its objective fit; tells whether it is known that no entry of its
/// array passes a limit.
#[tactic(auto, unfolding(crate::specs::Effects::effect_of))]
#[inline(always)]
fn read_effect(
    alloc: Global,
    text: &[u8],
    scope: &Scope,
    count: u32,
    what: &What,
    effect: &mut Effect,
) -> Result<bool, Stop>
    requires { effect.old ≡ effects.no_effect }
    ensures sure { IfOk result (λ b. b ≡ true → AreSure text.now scope.now (elems_in (what_tree what.now))) }
    ensures effect { OnOk result (effect.new ≡ effects.effect_of text.now scope.now count (what_tree what.now)) }
    ensures fits { OnOk result (faults.has_wrong_argument text.now scope.now (what_tree what.now) ≡ false) }
    ensures wrong { IfErr result (faults.OnlyFault Kind.WrongArgument (faults.has_wrong_argument text.now scope.now (what_tree what.now) ≡ true)) }
{
    match what {
        What::Predicate(_) => Ok(false),
        What::Scalar {
            shape,
            name,
            anns,
            value,
        } => {
            let declaration = ScalarDeclaration {
                place: count,
                shape,
                name: spelling(text, name),
                anns: anns.as_slice(),
            };
            match read_scalar(alloc, text, scope, &declaration, value, effect) {
                Ok(()) => Ok(false),
                Err(stop) => Err(stop),
            }
        }
        What::Array {
            low,
            high,
            shape,
            name,
            anns,
            value,
        } => {
            let declaration = ArrayDeclaration {
                low: *low,
                high: *high,
                shape,
                name: spelling(text, name),
                anns: anns.as_slice(),
            };
            read_array(alloc, text, scope, &declaration, value, effect)
        }
        What::Constraint { name, args, .. } => {
            let name = spelling(text, name);
            match read_constraint(alloc, text, scope, name, args.as_slice(), effect) {
                Ok(()) => Ok(false),
                Err(stop) => Err(stop),
            }
        }
        What::Solve { anns, aim } => {
            match read_solve(alloc, text, scope, count, anns.as_slice(), aim, effect) {
                Ok(()) => Ok(false),
                Err(stop) => Err(stop),
            }
        }
    }
}

/// Whether a leaf of the item has a fault of this kind.
fn has_leaf(text: &[u8], scope: &Scope, kind: FaultKind, what: &What) -> bool
    ensures { result ≡ has_leaf text.now scope.now kind (what_tree what.now) }
{
    Sought { text, scope, kind }.is_in(what, false)
}

/// The kind of an item's fault: this one, or that of a name or a constraint that isn't known.
fn least_kind(text: &[u8], scope: &Scope, what: &What, kind: FaultKind) -> FaultKind
    ensures { result ≡ cond (has_leaf text.now scope.now Kind.NameUnknown (what_tree what.now)) Kind.NameUnknown (cond (has_leaf text.now scope.now Kind.UnknownConstraint (what_tree what.now)) Kind.UnknownConstraint kind) }
{
    if has_leaf(text, scope, FaultKind::NameUnknown, what) {
        FaultKind::NameUnknown
    } else if has_leaf(text, scope, FaultKind::UnknownConstraint, what) {
        FaultKind::UnknownConstraint
    } else {
        kind
    }
}

/// Why an item isn't taken whose value, arguments or objective don't fit.
#[inline(never)]
fn refused(text: &[u8], scope: &Scope, what: &What, stop: Stop) -> Stop
    requires supported { faults.is_unsupported (what_tree what.now) ≡ false }
    requires wrong { faults.OnlyFault Kind.WrongArgument (faults.has_wrong_argument text.now scope.now (what_tree what.now) ≡ true) stop }
    ensures { faults.Refuses (first_kind (own_kinds text.now scope.now (what_tree what.now))) result }
{
    if declares_again(text, scope, what) {
        return Stop::Fault(FaultKind::NameTwice);
    }
    match stop {
        Stop::Fault(kind) => Stop::Fault(least_kind(text, scope, what, kind)),
        Stop::NoMemory => Stop::NoMemory,
    }
}

/// Why an item isn't taken whose type isn't supported.
#[inline(never)]
fn unsupported(text: &[u8], scope: &Scope, what: &What) -> Stop
    requires { faults.is_unsupported (what_tree what.now) ≡ true }
    ensures { faults.Refuses (first_kind (own_kinds text.now scope.now (what_tree what.now))) result }
{
    if declares_again(text, scope, what) {
        return Stop::Fault(FaultKind::NameTwice);
    }
    Stop::Fault(least_kind(text, scope, what, FaultKind::Unsupported))
}

/// Why an item isn't taken that has a fault of this kind, and no lesser one but that it may declare a name again.
#[inline(never)]
fn past_limit(text: &[u8], scope: &Scope, what: &What, kind: FaultKind) -> Stop
    requires { declares_again text.now scope.now (what_tree what.now) ≡ false → first_kind (own_kinds text.now scope.now (what_tree what.now)) ≡ Some kind }
    ensures { faults.Refuses (first_kind (own_kinds text.now scope.now (what_tree what.now))) result }
{
    if declares_again(text, scope, what) {
        Stop::Fault(FaultKind::NameTwice)
    } else {
        Stop::Fault(kind)
    }
}

/// Whether an item that adds no name declares one again.
#[inline(always)]
fn declares_unseen(text: &[u8], scope: &Scope, what: &What, effect: &Effect) -> bool
    ensures { result ≡ (is_none effect.now.declared && declares_again text.now scope.now (what_tree what.now)) }
{
    effect.declared.is_none() && declares_again(text, scope, what)
}

/// Records what an item adds. Errors: its least fault by the declarations before it; memory. What fits uses nothing
/// that isn't known, so names are asked for once more only where something doesn't fit. Whether a name that it adds was declared is
/// seen where the name is put, so it is looked up once.
#[tactic(auto, using(crate::proofs::KnownLaws::fitting_names, crate::proofs::KnownLaws::fitting_constraint))]
pub(crate) fn read_item(
    alloc: Global,
    text: &[u8],
    scope: &Scope,
    count: u32,
    what: &What,
    effect: &mut Effect,
) -> Result<(), Stop>
    requires { effect.old ≡ effects.no_effect }
    ensures effect { OnOk result (effect.new ≡ effects.effect_of text.now scope.now count (what_tree what.now)) }
    ensures new { OnOk result (is_new scope.now effect.new.declared ≡ not (declares_again text.now scope.now (what_tree what.now))) }
    ensures lawful { OnOk result (declares_again text.now scope.now (what_tree what.now) ≡ false → first_kind (own_kinds text.now scope.now (what_tree what.now)) ≡ None) }
    ensures fault { IfErr result (λ s. faults.Refuses (first_kind (own_kinds text.now scope.now (what_tree what.now))) s) }
{
    if is_unsupported(what) {
        return Err(unsupported(text, scope, what));
    }
    let sure = match read_effect(alloc, text, scope, count, what, effect) {
        Ok(sure) => sure,
        Err(stop) => return Err(refused(text, scope, what, stop)),
    };
    // Each of these walks is built for its kind, and passes over the leaves that can't have it.
    let kind = FaultKind::OutOfRange;
    if (Sought { text, scope, kind }).is_in(what, sure) {
        return Err(past_limit(text, scope, what, FaultKind::OutOfRange));
    }
    let kind = FaultKind::TooMany;
    if (Sought { text, scope, kind }).is_in(what, sure) {
        return Err(past_limit(text, scope, what, FaultKind::TooMany));
    }
    if declares_unseen(text, scope, what, effect) {
        return Err(Stop::Fault(FaultKind::NameTwice));
    }
    Ok(())
}
