//! Resolves the items of a FlatZinc text: names, types and limits. The model of the items, or their first fault.
//!
//! Begin with `Resolver` (`src/taking.rt`), which takes the items one by one; `resolve` takes them whole and is used by laws
//! and tests. Every list of items has one model or one fault, never both (`law_one_model`), and a model is well-formed
//! (`law_well_formed`). `specs/Effects.antt` says what an item adds, `specs/Faults.antt` which faults it has. It builds on
//! `fzn_parser` and `constraint_model`. No contract says how fast names are found.
#![tactic(auto)]

mod arrays;
mod constraints;
mod declaring;
mod domains;
mod draft;
mod effect;
mod exprs;
pub mod fault_kinds;
mod leaves;
mod limits;
mod name_hash;
mod numbers;
mod outputs;
mod reads;
mod resolving;
mod scalars;
mod scope;
mod searches;
mod stop;
mod taking;
mod types;

pub use constraint_model::{
    Constraint, ConstraintName, FznModel, Goal, Operand, Output, Phase, Term, ValSel, VarDecl,
    VarSel, kernel_count,
};
pub use fault_kinds::FaultKind;
pub use resolving::{ModelError, law_one_model, law_well_formed, resolve};
pub use taking::Resolver;
