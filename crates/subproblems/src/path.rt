//! The subproblem of a number.

ghost use Rattle.std.specs.Prelude.{◌≡◌, ◌<◌, ◌≤◌, ◌^◌, length, IfOk, IfSome};
ghost use Rattle.interval.specs.Boxes.{IsInside};
ghost use Rattle.constraint_model.specs.Searches.{IsSearchOf};
ghost use Rattle.decompose.specs.Program.{IsProgramOf};
ghost use Rattle.subproblems.specs.Cuts.{CanBeCut};
ghost use Rattle.subproblems.specs.Paths.{LeadsTo};

use crate::cutting::{Cut, cut_box};
use crate::laws::{law_cuts, law_paths};
use constraint_model::FznModel;
use decompose::Program;
use guarded_tell::Kernel;
use interval::BoxOf;
use memory::NoMemory;
use std::alloc::Global;

/// The box that the number leads to from a start, if there is one. Errors: memory.
pub fn path_box(
    alloc: Global,
    model: &FznModel,
    program: &Program,
    start: &BoxOf,
    depth: u32,
    number: u32,
) -> Result<Option<BoxOf>, NoMemory>
    requires program { IsProgramOf model.now program.now }
    requires phases { IsSearchOf model.now }
    requires length { length start.now ≡ length program.now.start }
    requires depth { depth ≤ 16 }
    requires number { number < 2 ^ depth }
    ensures path { IfOk result (LeadsTo model.now program.now.kernels depth start.now number) }
    ensures inside { IfOk result (λ found. IfSome found (λ b. IsInside b start.now)) }
{
    law_paths();
    // its contract says that the bounds are in range
    let _length = start.len();
    let b = start.copy(alloc)?;
    let found = below(alloc, model, program.kernels.as_slice(), b, depth, number)?;
    Ok(found)
}

/// How many numbers there are to a depth of at most 16.
pub fn numbers_to(depth: u32) -> u32
    requires { depth ≤ 16 }
    ensures { result ≡ 2 ^ depth }
{
    1 << depth
}

/// How many numbers there are to a depth of at most 62.
pub fn count_to(depth: u32) -> u64
    requires { depth ≤ 62 }
    ensures { result ≡ 2 ^ depth }
{
    1 << depth
}

/// What the number leads to from a box.
fn below(
    alloc: Global,
    model: &FznModel,
    kernels: &[Kernel],
    b: BoxOf,
    depth: u32,
    number: u32,
) -> Result<Option<BoxOf>, NoMemory>
    requires cut { CanBeCut model.now kernels.now b }
    requires depth { depth ≤ 16 }
    ensures { IfOk result (LeadsTo model.now kernels.now depth b number) }
{
    law_cuts();
    if depth == 0 {
        return Ok(Some(b));
    }
    match cut_box(alloc, model, kernels, b)? {
        Cut::Failed => Ok(None),
        Cut::Fixed(closed) => {
            if number == 0 {
                return Ok(Some(closed));
            }
            Ok(None)
        }
        Cut::Parted(left, right) => {
            let half = numbers_to(depth - 1);
            if number < half {
                let found = below(alloc, model, kernels, left, depth - 1, number)?;
                return Ok(found);
            }
            let found = below(alloc, model, kernels, right, depth - 1, number - half)?;
            Ok(found)
        }
    }
}
