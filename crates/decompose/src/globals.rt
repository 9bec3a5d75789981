//! The kernels of numbers that differ, and of resources.

ghost use Rattle.std.specs.Prelude.{◌≡◌, ◌++◌, All, OnOk};
ghost use Rattle.constraint_model.specs.Arrays.{HasNumber};
ghost use Rattle.constraint_model.specs.declared.table.ConstraintName.{ConstraintName};
ghost use Rattle.decompose.specs.Kernels.{row_of};
ghost use Rattle.decompose.specs.Places.{HasDeclared};

use crate::coefficients::number;
use crate::places::Places;
use constraint_model::Operand;
use guarded_tell::Kernel;
use list_of::ListOf;
use std::alloc::{AllocError, Global};

/// Adds the kernel of an array whose numbers differ.
#[tactic(auto, unfolding(crate::specs::Kernels::row_of))]
pub(crate) fn all_different(
    alloc: Global,
    places: &Places,
    operands: &[Operand],
    kernels: &mut ListOf<Kernel>,
) -> Result<(), AllocError>
    requires declared { All (HasDeclared places.now.numbering.count) operands.now }
    requires numbered { All (HasNumber places.now.arrays) operands.now }
    ensures { OnOk result (kernels.new ≡ kernels.old ++ row_of places.now.numbering ConstraintName.PccpAllDifferent operands.now) }
{
    match operands {
        [Operand::Row(row)] => {
            let xs = places.variables_of_row(alloc, row)?;
            kernels.push(Kernel::AllDiff { xs })?;
            Ok(())
        }
        _ => Ok(()),
    }
}

/// Adds the kernel of tasks that use a resource.
#[tactic(auto, unfolding(crate::specs::Kernels::row_of))]
pub(crate) fn cumulative(
    alloc: Global,
    places: &Places,
    operands: &[Operand],
    kernels: &mut ListOf<Kernel>,
) -> Result<(), AllocError>
    requires declared { All (HasDeclared places.now.numbering.count) operands.now }
    requires numbered { All (HasNumber places.now.arrays) operands.now }
    ensures { OnOk result (kernels.new ≡ kernels.old ++ row_of places.now.numbering ConstraintName.PccpCumulative operands.now) }
{
    match operands {
        [
            Operand::Row(starts),
            Operand::Row(durations),
            Operand::Row(usages),
            Operand::One(limit),
        ] => {
            let starts = places.variables_of_row(alloc, starts)?;
            let durations = places.numbers_of_row(alloc, durations)?;
            let usages = places.numbers_of_row(alloc, usages)?;
            kernels.push(Kernel::Cumulative {
                starts,
                durations,
                usages,
                limit: number(*limit),
            })?;
            Ok(())
        }
        _ => Ok(()),
    }
}
