//! The subproblems as a list of boxes.

ghost use Rattle.std.specs.Prelude.{◌≡◌, ◌≤◌, [], ◌∷◌, ◌++◌, length, IfOk, OnOk};
ghost use Rattle.constraint_model.specs.Searches.{IsSearchOf};
ghost use Rattle.decompose.specs.Program.{IsProgramOf};
ghost use Rattle.subproblems.specs.Cuts.{CanBeCut};
ghost use Rattle.subproblems.specs.Subproblems.{AreSubproblems};
ghost use Rattle.subproblems.specs.Growth.{IsMore};

use crate::cutting::{Cut, cut_box};
use crate::laws::law_cuts;
use constraint_model::FznModel;
use decompose::Program;
use guarded_tell::Kernel;
use interval::BoxOf;
use memory::NoMemory;
use std::alloc::{AllocError, Global};

/// The subproblems into which a box is cut to a depth, in the order of the search tree. Errors: memory.
pub fn expand(
    alloc: Global,
    model: &FznModel,
    program: &Program,
    start: &BoxOf,
    depth: u32,
) -> Result<Vec<BoxOf>, NoMemory>
    requires program { IsProgramOf model.now program.now }
    requires phases { IsSearchOf model.now }
    requires length { length start.now ≡ length program.now.start }
    requires depth { depth ≤ 16 }
    ensures { IfOk result (λ subs. AreSubproblems model.now program.now.kernels depth start.now subs.items) }
{
    // its contract says that the bounds are in range
    let _length = start.len();
    let b = start.copy(alloc)?;
    let mut subs = Vec::new(alloc);
    add_below(
        alloc,
        model,
        program.kernels.as_slice(),
        b,
        depth,
        &mut subs,
    )?;
    Ok(subs)
}

/// Appends a box to others.
fn put(subs: &mut Vec<BoxOf>, b: BoxOf) -> Result<(), AllocError>
    ensures { OnOk result (subs.new.items ≡ subs.old.items ++ b ∷ []) }
{
    subs.push(b)?;
    Ok(())
}

/// Appends the subproblems of a box to others.
fn add_below(
    alloc: Global,
    model: &FznModel,
    kernels: &[Kernel],
    b: BoxOf,
    depth: u32,
    subs: &mut Vec<BoxOf>,
) -> Result<(), NoMemory>
    requires { CanBeCut model.now kernels.now b }
    ensures { OnOk result (IsMore model.now kernels.now depth b subs.old.items subs.new.items) }
{
    law_cuts();
    if depth == 0 {
        put(subs, b)?;
        return Ok(());
    }
    match cut_box(alloc, model, kernels, b)? {
        Cut::Failed => {}
        Cut::Fixed(closed) => put(subs, closed)?,
        Cut::Parted(left, right) => {
            add_below(alloc, model, kernels, left, depth - 1, subs)?;
            add_below(alloc, model, kernels, right, depth - 1, subs)?;
        }
    }
    Ok(())
}
