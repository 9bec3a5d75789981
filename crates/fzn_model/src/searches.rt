//! The phases of the search that annotations of the solve item ask for.

ghost use Rattle.std.specs.Prelude.{◌≡◌, ◌∷◌, [], ◌++◌, IfOk, OnOk, map, option_map, option_to_list, length};
ghost use Rattle.std.specs.List.{range_with_len};
ghost use Rattle.fzn_parser.specs.Notes.{arg_tree, ann_tree, args_of};
ghost use Rattle.fzn_parser.specs.Texts.{spelling};
ghost use Rattle.fzn_model.specs.Scopes.{meaning_of};
ghost use Rattle.fzn_model.specs.Searches.{variables_of_row, entry_variables, entries_variables, phase_variables, var_sel_named, val_sel_named, var_sel_of, val_sel_of, phase_of, is_search, phases_in, phases_in_list, phases_in_row, phases_in_entries, phases_in_entry, phases_of};
ghost use Rattle.constraint_model.specs.Searches.{last_phase};

use crate::exprs::spelling;
use crate::outputs::is_spelled;
use crate::scope::Scope;
use constraint_model::{Meaning, Phase, ValSel, VarSel};
use fzn_lexer::Token;
use fzn_parser::tree::{Ann, Arg};
use list_of::ListOf;
use shared_list::SharedList;
use std::alloc::{AllocError, Global};

/// What one entry of an array literal adds to the variables, where the entry is lawful there.
fn entry_variable(text: &[u8], scope: &Scope, entry: &Arg) -> Option<Option<u32>>
    ensures { option_map option_to_list result ≡ entry_variables text.now scope.now (arg_tree entry.now) }
{
    match entry {
        Arg::Ann(Ann { name, args: None }) => match scope.meaning(spelling(text, name)) {
            Some(Meaning::One(scalar)) => Some(scalar.term.variable()),
            Some(Meaning::Set(_)) => Some(None),
            Some(Meaning::Row(_)) | None => None,
        },
        Arg::Ann(_) | Arg::Row(_) => None,
        _ => Some(None),
    }
}

/// The variables of an array literal, where each entry is lawful there.
fn entries_variables(
    alloc: Global,
    text: &[u8],
    scope: &Scope,
    entries: &[Arg],
) -> Result<Option<SharedList<u32>>, AllocError>
    ensures { IfOk result (λ o. o ≡ entries_variables text.now scope.now (args_of (map arg_tree entries.now))) }
{
    let mut vars = Vec::new(alloc);
    for entry in entries {
        match entry_variable(text, scope, entry) {
            Some(Some(variable)) => vars.push(variable)?,
            Some(None) => {}
            None => return Ok(None),
        }
    }
    Ok(Some(SharedList::from_vec(vars)?))
}

/// The variables of the array of this name.
fn array_variables(
    alloc: Global,
    text: &[u8],
    scope: &Scope,
    name: &Token,
) -> Result<Option<SharedList<u32>>, AllocError>
    ensures { IfOk result (λ o. o ≡ variables_of_row (meaning_of scope.now (spelling text.now name.now))) }
{
    match scope.meaning(spelling(text, name)) {
        Some(Meaning::Row(array)) => Ok(Some(array.entries.share_variables(alloc)?)),
        _ => Ok(None),
    }
}

/// The variables that the first argument of a search names.
fn phase_variables(
    alloc: Global,
    text: &[u8],
    scope: &Scope,
    arg: &Arg,
) -> Result<Option<SharedList<u32>>, AllocError>
    ensures { IfOk result (λ o. o ≡ phase_variables text.now scope.now (arg_tree arg.now)) }
{
    match arg {
        Arg::Ann(Ann { name, args: None }) => array_variables(alloc, text, scope, name),
        Arg::Row(entries) => entries_variables(alloc, text, scope, entries.as_slice()),
        _ => Ok(None),
    }
}

fn var_sel_named(word: &[u8]) -> VarSel
    ensures { result ≡ var_sel_named word.now }
{
    if word == b"first_fail".as_slice() {
        VarSel::FirstFail
    } else if word == b"anti_first_fail".as_slice() {
        VarSel::AntiFirstFail
    } else if word == b"smallest".as_slice() {
        VarSel::Smallest
    } else if word == b"largest".as_slice() {
        VarSel::Largest
    } else {
        VarSel::InputOrder
    }
}

fn val_sel_named(word: &[u8]) -> ValSel
    ensures { result ≡ val_sel_named word.now }
{
    if word == b"indomain_max".as_slice() {
        ValSel::Max
    } else if word == b"indomain_split".as_slice() {
        ValSel::Split
    } else if word == b"indomain_reverse_split".as_slice() {
        ValSel::ReverseSplit
    } else {
        ValSel::Min
    }
}

fn var_sel_of(text: &[u8], arg: &Arg) -> VarSel
    ensures { result ≡ var_sel_of text.now (arg_tree arg.now) }
{
    match arg {
        Arg::Ann(Ann { name, args: None }) => var_sel_named(spelling(text, name)),
        _ => VarSel::InputOrder,
    }
}

fn val_sel_of(text: &[u8], arg: &Arg) -> ValSel
    ensures { result ≡ val_sel_of text.now (arg_tree arg.now) }
{
    match arg {
        Arg::Ann(Ann { name, args: None }) => val_sel_named(spelling(text, name)),
        _ => ValSel::Min,
    }
}

/// The phase that a search of these arguments asks for.
fn phase_of(
    alloc: Global,
    text: &[u8],
    scope: &Scope,
    args: &[Arg],
) -> Result<Option<Phase>, AllocError>
    ensures { IfOk result (λ o. option_to_list o ≡ phase_of text.now scope.now (args_of (map arg_tree args.now))) }
{
    match args {
        [vars, var_sel, val_sel, ..] => match phase_variables(alloc, text, scope, vars)? {
            Some(vars) => Ok(Some(Phase {
                vars,
                var_sel: var_sel_of(text, var_sel),
                val_sel: val_sel_of(text, val_sel),
            })),
            None => Ok(None),
        },
        _ => Ok(None),
    }
}

fn is_search(text: &[u8], name: &Token) -> bool
    ensures { result ≡ is_search text.now name.now }
{
    is_spelled(text, b"int_search".as_slice(), name)
        || is_spelled(text, b"bool_search".as_slice(), name)
}

/// Adds the phase that a search of these arguments asks for.
fn add_phase(
    alloc: Global,
    text: &[u8],
    scope: &Scope,
    args: &[Arg],
    phases: &mut ListOf<Phase>,
) -> Result<(), AllocError>
    ensures { OnOk result (phases.new ≡ phases.old ++ phase_of text.now scope.now (args_of (map arg_tree args.now))) }
{
    if let Some(phase) = phase_of(alloc, text, scope, args)? {
        phases.push(phase)?;
    }
    Ok(())
}

/// Adds the phases of an annotation.
#[cycle(phases)]
fn add_phases(
    alloc: Global,
    text: &[u8],
    scope: &Scope,
    note: &Ann,
    phases: &mut ListOf<Phase>,
) -> Result<(), AllocError>
    ensures { OnOk result (phases.new ≡ phases.old ++ phases_in text.now scope.now (ann_tree note.now)) }
{
    match &note.args {
        Some(args) => {
            if is_search(text, &note.name) {
                add_phase(alloc, text, scope, args.as_slice(), phases)
            } else if is_spelled(text, b"seq_search".as_slice(), &note.name) {
                add_list_phases(alloc, text, scope, args.as_slice(), phases)
            } else {
                Ok(())
            }
        }
        None => Ok(()),
    }
}

/// Adds the phases of the one argument of `seq_search`.
#[cycle(phases)]
fn add_list_phases(
    alloc: Global,
    text: &[u8],
    scope: &Scope,
    args: &[Arg],
    phases: &mut ListOf<Phase>,
) -> Result<(), AllocError>
    ensures { OnOk result (phases.new ≡ phases.old ++ phases_in_list text.now scope.now (args_of (map arg_tree args.now))) }
{
    match args {
        [] => Ok(()),
        [arg] => add_row_phases(alloc, text, scope, arg, phases),
        [_, _, ..] => Ok(()),
    }
}

/// Adds the phases of a list of annotations.
#[cycle(phases)]
fn add_row_phases(
    alloc: Global,
    text: &[u8],
    scope: &Scope,
    arg: &Arg,
    phases: &mut ListOf<Phase>,
) -> Result<(), AllocError>
    ensures { OnOk result (phases.new ≡ phases.old ++ phases_in_row text.now scope.now (arg_tree arg.now)) }
{
    match arg {
        Arg::Row(entries) => add_entries_phases(alloc, text, scope, entries.as_slice(), phases),
        _ => Ok(()),
    }
}

/// Adds the phases of the annotations among these.
#[cycle(phases)]
fn add_entries_phases(
    alloc: Global,
    text: &[u8],
    scope: &Scope,
    entries: &[Arg],
    phases: &mut ListOf<Phase>,
) -> Result<(), AllocError>
    ensures { OnOk result (phases.new ≡ phases.old ++ phases_in_entries text.now scope.now (args_of (map arg_tree entries.now))) }
{
    for entry in entries {
        add_entry_phases(alloc, text, scope, entry, phases)?;
    }
    Ok(())
}

/// Adds the phases of an entry, where it is an annotation.
#[cycle(phases)]
fn add_entry_phases(
    alloc: Global,
    text: &[u8],
    scope: &Scope,
    entry: &Arg,
    phases: &mut ListOf<Phase>,
) -> Result<(), AllocError>
    ensures { OnOk result (phases.new ≡ phases.old ++ phases_in_entry text.now scope.now (arg_tree entry.now)) }
{
    match entry {
        Arg::Ann(note) => add_phases(alloc, text, scope, note, phases),
        _ => Ok(()),
    }
}

/// The phases that the annotations of a solve item ask for, in the order of the text.
pub(crate) fn phases_of(
    alloc: Global,
    text: &[u8],
    scope: &Scope,
    notes: &[Ann],
) -> Result<ListOf<Phase>, AllocError>
    ensures { IfOk result (λ phases. phases ≡ phases_of text.now scope.now (map ann_tree notes.now)) }
{
    let mut phases = ListOf::new(alloc);
    for note in notes {
        add_phases(alloc, text, scope, note, &mut phases)?;
    }
    Ok(phases)
}

/// The numbers from 0 below `count`.
fn numbers_below(alloc: Global, count: u32) -> Result<Vec<u32>, AllocError>
    ensures { IfOk result (λ numbers. numbers.items ≡ range_with_len 0 count) }
{
    let mut numbers = Vec::new(alloc);
    for number in 0..count {
        numbers.push(number)?;
    }
    Ok(numbers)
}

/// The phase of all declared variables, which comes last.
pub(crate) fn last_phase(alloc: Global, count: u32) -> Result<Phase, AllocError>
    ensures { IfOk result (λ phase. phase ≡ last_phase count) }
{
    let vars = numbers_below(alloc, count)?;
    Ok(Phase {
        vars: SharedList::from_vec(vars)?,
        var_sel: VarSel::InputOrder,
        val_sel: ValSel::Min,
    })
}

/// The phases that the annotations ask for, and behind them one over all of so many declared variables.
pub(crate) fn all_phases(
    alloc: Global,
    text: &[u8],
    scope: &Scope,
    notes: &[Ann],
    count: u32,
) -> Result<ListOf<Phase>, AllocError>
    ensures { IfOk result (λ ps. ps ≡ phases_of text.now scope.now (map ann_tree notes.now) ++ last_phase count ∷ []) }
{
    let mut phases = phases_of(alloc, text, scope, notes)?;
    phases.push(last_phase(alloc, count)?)?;
    Ok(phases)
}
