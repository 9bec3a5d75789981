//! The solution in a box that fixes each declared variable.

ghost use Rattle.std.specs.Prelude.{◌≡◌, ◌<◌, length, IfOk, IfSome};
ghost use Rattle.std.specs.Bool.{OnTrue};
ghost use Rattle.interval.specs.Boxes.{IsInside};
ghost use Rattle.fixpoint_laws.specs.Fixpoints.{IsClosed};
ghost use Rattle.branching.specs.Tree.{AreFixed, values_of};
ghost use Rattle.solution_lists.specs.Solutions.{SolvesInside};
ghost use Rattle.search.specs.Premises.{IsRun};

use constraint_model::FznModel;
use interval::{BoxOf, law_inside_order};
use list_of::ListOf;
use memory::NoMemory;
use search::Run;
use solution_lists::{law_fixed_is_point, law_point_solves};
use std::alloc::{AllocError, Global};

/// Whether the box lies inside another.
pub(crate) fn is_within(b: &BoxOf, outer: &BoxOf) -> bool
    ensures { OnTrue result (IsInside b.now outer.now) }
{
    if b.len() != outer.len() {
        return false;
    }
    for v in 0..outer.len() {
        if b.low(v) < outer.low(v) {
            return false;
        }
        if outer.high(v) < b.high(v) {
            return false;
        }
    }
    true
}

/// The numbers of the declared variables in a box that fixes them.
#[tactic(auto, unfolding(interval::specs::Limits::box_limit))]
fn values(alloc: Global, model: &FznModel, b: &BoxOf) -> Result<ListOf<i64>, AllocError>
    requires { length model.now.vars < length b.now }
    ensures { IfOk result (λ values. values ≡ values_of model.now b.now) }
{
    // its contract says that there are few pairs
    let _length = b.len();
    let mut values = ListOf::new(alloc);
    for var in 0..model.vars.len() as u32 {
        values.push(b.low(var + 1))?;
    }
    Ok(values)
}

/// The numbers of a closed box that fixes each declared variable, if it lies in the box that is searched.
pub(crate) fn point_in<L>(
    alloc: Global,
    run: &Run<'_, L>,
    b: &BoxOf,
    sub: &BoxOf,
) -> Result<Option<ListOf<i64>>, NoMemory>
    requires run { IsRun run.now }
    requires long { length run.now.model.now.vars < length b.now }
    requires inside { IsInside sub.now run.now.program.now.start }
    requires closed { IsClosed b.now run.now.program.now.kernels }
    requires fixed { AreFixed run.now.model.now b.now }
    ensures { IfOk result (λ point. IfSome point (SolvesInside run.now.model.now sub.now)) }
{
    law_inside_order();
    law_fixed_is_point();
    law_point_solves();
    if !is_within(b, sub) {
        return Ok(None);
    }
    let point = values(alloc, run.model, b)?;
    Ok(Some(point))
}
