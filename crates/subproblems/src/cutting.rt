//! One node of the search tree.

ghost use Rattle.std.specs.Prelude.{◌≡◌, ◌<◌, length, IfOk};
ghost use Rattle.interval.specs.Boxes.{IsProper};
ghost use Rattle.branching.specs.Selection.{HasUnfixed};
ghost use Rattle.constraint_model.specs.Searches.{IsSearchOf};
ghost use Rattle.subproblems.specs.Cuts.{IsCutInto, IsFixedOrParted, CanBeCut};

use branching::{are_fixed, choose};
use constraint_model::FznModel;
use fixpoint_laws::{Settled, settle_alone};
use guarded_tell::Kernel;
use interval::BoxOf;
use memory::NoMemory;
use std::alloc::Global;

/// What the search tree makes of a box.
#[derive(Drop)]
pub enum Cut {
    /// No closed box is inside.
    Failed,
    /// The greatest closed box inside; it fixes each declared variable.
    Fixed(BoxOf),
    /// The left and the right part of the greatest closed box inside.
    Parted(BoxOf, BoxOf),
}

/// Cuts a box.
pub(crate) fn cut_box(
    alloc: Global,
    model: &FznModel,
    kernels: &[Kernel],
    b: BoxOf,
) -> Result<Cut, NoMemory>
    requires { CanBeCut model.now kernels.now b }
    ensures { IfOk result (IsCutInto model.now kernels.now b) }
{
    let mut spare = b.copy(alloc)?;
    let mut settled = b;
    match settle_alone(&mut settled, &mut spare, kernels) {
        Settled::Failed { .. } => Ok(Cut::Failed),
        Settled::Fixed { .. } => fix_or_part(alloc, model, settled, spare),
    }
}

/// Keeps a closed box that fixes each declared variable; parts another. `spare` is overwritten.
fn fix_or_part(
    alloc: Global,
    model: &FznModel,
    closed: BoxOf,
    spare: BoxOf,
) -> Result<Cut, NoMemory>
    requires phases { IsSearchOf model.now }
    requires length { length model.now.vars < length closed }
    requires proper { IsProper closed }
    requires spare { length spare ≡ length closed }
    ensures { IfOk result (IsFixedOrParted model.now closed) }
{
    if are_fixed(model, &closed) {
        return Ok(Cut::Fixed(closed));
    }
    let mut left = spare;
    let mut right = closed.copy(alloc)?;
    choose(model, &closed, &mut left, &mut right);
    Ok(Cut::Parted(left, right))
}
