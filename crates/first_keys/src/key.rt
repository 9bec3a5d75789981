//! The keys by which a static order compares solutions.

ghost use Rattle.std.specs.Prelude.{◌≡◌, ◌++◌, IfOk, OnOk};
ghost use Rattle.std.specs.Bool.{OnTrue, OnFalse};
ghost use Rattle.branching.specs.Parts.{is_upper_first};
ghost use Rattle.solution_lists.specs.Static.{IsStaticSearch};
ghost use Rattle.first_keys.specs.Order.{phase_keys, keys_of};

use constraint_model::{FznModel, Phase, ValSel, VarSel};
use list_of::ListOf;
use std::alloc::{AllocError, Global};

/// A key: whose number is compared, and how.
#[derive(Clone, Copy, Debug)]
pub(crate) struct Key {
    /// The variable, by its place among the declared ones.
    pub(crate) var: u32,
    /// Whether the greater number comes first.
    pub(crate) is_upper_first: bool,
}

/// Whether each phase takes its variables as they are listed, so that solutions are compared by their keys.
pub fn is_static(model: &FznModel) -> bool
    ensures as_they_stand { OnTrue result (IsStaticSearch model.now) }
    ensures by_bounds { OnFalse result (IsStaticSearch model.now → ⊥) }
{
    model
        .search
        .as_slice()
        .iter()
        .all(|phase| phase.var_sel == VarSel::InputOrder)
}

/// Whether the upper part comes first.
fn is_upper_first(selection: ValSel) -> bool
    ensures { result ≡ is_upper_first selection }
{
    match selection {
        ValSel::Min | ValSel::Split => false,
        ValSel::Max | ValSel::ReverseSplit => true,
    }
}

/// Appends the keys of a phase.
fn add_phase(phase: &Phase, keys: &mut ListOf<Key>) -> Result<(), AllocError>
    ensures { OnOk result (keys.new ≡ keys.old ++ phase_keys phase.now) }
{
    let is_upper_first = is_upper_first(phase.val_sel);
    for var in phase.vars.as_slice() {
        keys.push(Key {
            var: *var,
            is_upper_first,
        })?;
    }
    Ok(())
}

/// The keys of a model's search, in the order in which they are compared.
pub(crate) fn keys_of(alloc: Global, model: &FznModel) -> Result<ListOf<Key>, AllocError>
    ensures { IfOk result (λ keys. keys ≡ keys_of model.now) }
{
    let mut keys = ListOf::new(alloc);
    for phase in model.search.as_slice() {
        add_phase(phase, &mut keys)?;
    }
    Ok(keys)
}
