//! The box of a program's start.

ghost use Rattle.std.specs.Prelude.{◌≡◌, IfOk};
ghost use Rattle.interval.specs.Boxes.{IsInRange};
ghost use Rattle.decompose.specs.Program.{start_pairs};

use constraint_model::VarDecl;
use interval::BoxOf;
use memory::NoMemory;
use std::alloc::{AllocError, Global};

/// The pairs of the constant 1, of the declared bounds and of the other constants, in this order.
fn pairs_of(
    alloc: Global,
    vars: &[VarDecl],
    constants: &[i64],
) -> Result<Vec<(i64, i64)>, AllocError>
    ensures { IfOk result (λ pairs. pairs.items ≡ start_pairs vars.now constants.now) }
{
    let mut pairs = Vec::new(alloc);
    pairs.push((1, 1))?;
    for var in vars {
        pairs.push((var.low, var.high))?;
    }
    for value in constants {
        pairs.push((*value, *value))?;
    }
    Ok(pairs)
}

/// The box of these pairs.
pub(crate) fn start_box(
    alloc: Global,
    vars: &[VarDecl],
    constants: &[i64],
) -> Result<BoxOf, NoMemory>
    requires { IsInRange (start_pairs vars.now constants.now) }
    ensures { IfOk result (λ b. b ≡ start_pairs vars.now constants.now) }
{
    let pairs = pairs_of(alloc, vars, constants)?;
    BoxOf::from_pairs(alloc, &pairs)
}
