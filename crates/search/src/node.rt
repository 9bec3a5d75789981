//! What one node records, and how it ends.

ghost use Rattle.std.specs.Prelude.{◌≡◌, ◌<◌, List, [], ◌∷◌, ◌++◌, length, take, drop, IfOk, OnOk};
ghost use Rattle.branching.specs.Tree.{values_of};

use constraint_model::FznModel;
use interval::BoxOf;
use list_of::ListOf;
use std::alloc::{AllocError, Global};

/// The numbers of the declared variables in a box that fixes them.
#[tactic(auto, unfolding(interval::specs::Limits::box_limit))]
fn values(alloc: Global, model: &FznModel, b: &BoxOf) -> Result<ListOf<i64>, AllocError>
    requires { length model.now.vars < length b.now }
    ensures { IfOk result (λ values. values ≡ values_of model.now b.now) }
{
    // its contract says that there are few pairs
    let _length = b.len();
    let mut values = ListOf::new(alloc);
    for var in 0..model.vars.len() as u32 {
        values.push(b.low(var + 1))?;
    }
    Ok(values)
}

/// Records the numbers of a box that fixes each declared variable.
pub(crate) fn record(
    alloc: Global,
    model: &FznModel,
    b: &BoxOf,
    found: &mut ListOf<ListOf<i64>>,
) -> Result<(), AllocError>
    requires { length model.now.vars < length b.now }
    ensures { OnOk result (found.new ≡ found.old ++ values_of model.now b.now ∷ []) }
{
    found.push(values(alloc, model, b)?)?;
    Ok(())
}

/// Whether a box had its node.
#[derive(Clone, Copy)]
pub(crate) enum Visit {
    /// It was dropped, recorded or parted.
    Done,
    /// Its propagation was given up.
    GivenUp,
}
