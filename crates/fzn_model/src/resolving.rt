//! The model of items, or their first fault.

ghost use Rattle.std.specs.Prelude.{◌≡◌, ℕ, List, map, MatchResult, IfOk, IfErr};
ghost use Rattle.fzn_parser.specs.Parsing.{ItemTree, item_tree};
ghost use Rattle.constraint_model.specs.declared.model.FznModel.{FznModel};
ghost use Rattle.fzn_model.specs.declared.resolving.ModelError.{ModelError as Error};
ghost use Rattle.fzn_model.specs.Drafts.{seen};
ghost use Rattle.fzn_model.specs.FaultKinds.{kind_number};
ghost use Rattle.fzn_model.specs.declared.fault_kinds.FaultKind.{FaultKind as Kind};
ghost use Rattle.fzn_model.specs.Resolving.{IsModelOf, IsModelWith, HasFault, IsCause, IsRead, stopped_at};
ghost use Rattle.constraint_model.specs.WellFormed.{IsWellFormed};

use crate::draft::Draft;
use crate::fault_kinds::FaultKind;
use crate::stop::Stop;
use constraint_model::{FznModel, law_ranges};
use fzn_parser::tree::Item;
use std::alloc::Global;
use thiserror::Error;

/// Why items have no model.
#[derive(Debug, Clone, Copy, PartialEq, Eq, Drop, Error)]
pub enum ModelError {
    /// An item has a fault of this kind; `at` is its first byte, or the text's length where a solve item is missing.
    #[error("fault of kind {kind} at byte {at}")]
    Fault { kind: u8, at: usize },
    /// Memory was refused.
    #[error("out of memory")]
    NoMemory,
}

/// Why the items have no model, where the item at this byte isn't taken.
pub(crate) fn stopped(stop: Stop, at: usize) -> ModelError
    ensures { result ≡ stopped_at stop at }
{
    match stop {
        Stop::Fault(kind) => ModelError::Fault {
            kind: kind.number(),
            at,
        },
        Stop::NoMemory => ModelError::NoMemory,
    }
}

/// The model of these items of a text. Errors: `Fault` at the first byte of the first item that has one, with the least
/// kind that it has, or at the end of a text without a solve item; `NoMemory`.
pub fn resolve(alloc: Global, text: &[u8], items: &[Item]) -> Result<FznModel, ModelError>
    ensures { MatchResult result (λ m. IsModelOf text.now (map item_tree items.now) m) (λ e. IsCause text.now (map item_tree items.now) e) }
{
    let mut draft = Draft::new(alloc, text);
    for item in items {
        match draft.add(alloc, text, item) {
            Ok(()) => {}
            Err(stop) => return Err(stopped(stop, item.from)),
        }
    }
    finished(draft, text.len())
}

/// The model of a draft, where a solve item was there.
pub(crate) fn finished(draft: Draft, end: usize) -> Result<FznModel, ModelError>
    ensures model { IfOk result (λ m. IsModelWith (seen draft) m) }
    ensures unsolved { IfErr result (λ e. (e ≡ Error.Fault (kind_number Kind.NoSolve) end) × ((seen draft).solved ≡ None)) }
{
    let Draft {
        scope: _,
        vars,
        constraints,
        output,
        solved,
        constants,
        kernels: _,
    } = draft;
    match solved {
        Some((search, goal)) => Ok(FznModel {
            vars,
            arrays: constants.into_arrays(),
            constraints,
            search,
            goal,
            output,
        }),
        None => Err(ModelError::Fault {
            kind: FaultKind::NoSolve.number(),
            at: end,
        }),
    }
}

/// Items have one model or one fault, and never both. It does nothing.
pub fn law_one_model()
    ensures some { (text : List ℕ) (items : List ItemTree) → IsRead text items }
    ensures one_model { (text : List ℕ) (items : List ItemTree) (m n : FznModel) → IsModelOf text items m → IsModelOf text items n → m ≡ n }
    ensures one_fault { (text : List ℕ) (items : List ItemTree) (k l at place : ℕ) → HasFault text items k at → HasFault text items l place → (k ≡ l) × (at ≡ place) }
    ensures never_both { (text : List ℕ) (items : List ItemTree) (m : FznModel) (k at : ℕ) → IsModelOf text items m → HasFault text items k at → ⊥ }
{}

/// The model of every text is well-formed. It does nothing.
pub fn law_well_formed()
    ensures { (text : List ℕ) (items : List ItemTree) (m : FznModel) → IsModelOf text items m → IsWellFormed m }
{
    law_ranges();
}
