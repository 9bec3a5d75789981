//! The program of a model.

ghost use Rattle.std.specs.Prelude.{◌≡◌, IfOk};
ghost use Rattle.constraint_model.specs.declared.model.FznModel.{FznModel};
ghost use Rattle.constraint_model.specs.WellFormed.{IsWellFormed};
ghost use Rattle.decompose.specs.declared.program.Program.{Program};
ghost use Rattle.decompose.specs.Kernels.{kernels_of};
ghost use Rattle.decompose.specs.Program.{IsProgramOf, start_of};

use crate::constants::constant_set;
use crate::kernels::kernels_of;
use crate::places::Places;
use crate::start::start_box;
use constraint_model::{FznModel, law_table};
use guarded_tell::Kernel;
use interval::BoxOf;
use list_of::ListOf;
use memory::NoMemory;
use std::alloc::Global;

/// What is solved in place of a model.
#[derive(Drop)]
pub struct Program {
    /// The box in which the solutions lie: variable 0 is the constant 1, then come the declared variables, then the
    /// other constants.
    pub start: BoxOf,
    /// The kernels of the constraints, in the model's order.
    pub kernels: ListOf<Kernel>,
}

/// The program of the model. Errors: memory.
pub fn compile(alloc: Global, model: &FznModel) -> Result<Program, NoMemory>
    requires { IsWellFormed model.now }
    ensures { IfOk result (λ program. IsProgramOf model.now program) }
{
    law_table();
    let constants = constant_set(alloc, model)?;
    let vars = model.vars.as_slice();
    let start = start_box(alloc, vars, constants.as_slice())?;
    let constraints = model.constraints.as_slice();
    let places = Places::new(alloc, vars.len() as u32, constants);
    let places = places.with_lists(alloc, constraints)?;
    let kernels = kernels_of(alloc, &places, constraints)?;
    Ok(Program { start, kernels })
}

/// A model has at most one program. It does nothing.
pub fn law_one_program()
    ensures { (model : FznModel) (p q : Program) → IsProgramOf model p → IsProgramOf model q → p ≡ q }
{}

/// A well-formed model has a program: its start and its kernels. It does nothing.
pub fn law_some_program()
    ensures { (model : FznModel) → IsWellFormed model → IsProgramOf model (record { start = start_of model; kernels = kernels_of model }) }
{
    law_table();
}
