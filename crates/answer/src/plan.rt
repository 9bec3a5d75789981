//! What all runs of one job share.

ghost use Rattle.std.specs.Prelude.{◌≡◌, ◌<◌, ℕ, List, IfOk, IfSome};
ghost use Rattle.interval.specs.Boxes.{Bounds, IsInside};
ghost use Rattle.guarded_tell.specs.declared.kernel.Kernel.{Kernel};
ghost use Rattle.moved_fixpoint.specs.Made.{IsMadeBy};
ghost use Rattle.constraint_model.specs.declared.model.FznModel.{FznModel};
ghost use Rattle.subproblem_walk.specs.Walks.{IsWalkFrom, StandsUnder, box_of, IsMadeFrom};
ghost use Rattle.answer.specs.Places.{PartLeadsTo, PartLeadsBelow};
ghost use Rattle.answer.specs.Owned.{IsOwnFrom};
ghost use Rattle.answer.specs.Jobs.{numbers_of};
ghost use Rattle.answer.specs.Plans.{IsPlan, model_of, kernels_in};

use crate::options::Options;
use interval::{BoxOf, law_inside_order};
use memory::NoMemory;
use search::{Kept, Run};
use std::alloc::Global;
use subproblem_walk::{Subproblem, Tree, Walk};
use tree_cover::Part;

/// What is searched, and from where.
#[derive(Drop)]
pub(crate) struct Plan<'a, L> {
    /// The run of each subproblem.
    pub(crate) run: &'a Run<'a, L>,
    /// How the model is solved.
    pub(crate) options: Options,
    /// The parts of the tree below the box, each with its place as its number.
    pub(crate) parts: &'a [Part],
    /// The box whose subproblems are searched.
    pub(crate) start: &'a BoxOf,
}

impl<L> Plan<'_, L> {
    /// How many numbers there are, one for each part.
    pub(crate) fn count(&self) -> u32
        requires { IsPlan self.now }
        ensures { result ≡ numbers_of self.now }
    {
        self.parts.len() as u32
    }
}

/// What a worker keeps over its numbers, which only saves time.
#[derive(Drop)]
pub(crate) struct Own {
    /// The way to the last part.
    pub(crate) walk: Walk,
    /// What the last run searched with.
    pub(crate) kept: Kept,
}

impl Own {
    /// Nothing yet.
    pub(crate) fn new(alloc: Global) -> Own
        ensures { (model : FznModel) (kernels : List Kernel) (start : Bounds) (lanes count : ℕ) → IsOwnFrom model kernels start lanes count result }
    {
        let walk = Walk::new(alloc);
        let kept = Kept::new();
        Own { walk, kept }
    }
}

/// With more propagators than these a search begins with those alone that name the variable by which its box was cut.
const MOST_ASKED: usize = 1 << 14;

/// By which variable the box of a part is said to be made, for so many propagators. Where they are few nothing is said, so that all
/// are visited at first: then those come to rest that the part needs no more, which else would be visited at each of its nodes.
fn told(kernels: usize, changed: Option<u32>) -> Option<u32>
    ensures { (ks : List Kernel) (b : Bounds) → IsMadeBy changed ks b → IsMadeBy result ks b }
{
    if kernels <= MOST_ASKED { None } else { changed }
}

/// What the part with this number leads to.
pub(crate) fn subproblem<L>(
    alloc: Global,
    plan: &Plan<'_, L>,
    walk: &mut Walk,
    number: u32,
) -> Result<Option<Subproblem>, NoMemory>
    requires plan { IsPlan plan.now }
    requires number { number < numbers_of plan.now }
    requires walk { IsWalkFrom (model_of plan.now) (kernels_in plan.now) plan.now.start.now walk.old }
    ensures path { IfOk result (λ found. PartLeadsTo (model_of plan.now) (kernels_in plan.now) plan.now.parts.now plan.now.start.now number (box_of found)) }
    ensures inside { IfOk result (λ found. IfSome (box_of found) (λ b. IsInside b plan.now.run.now.program.now.start)) }
    ensures made { IfOk result (IsMadeFrom (kernels_in plan.now)) }
    ensures walk { IsWalkFrom (model_of plan.now) (kernels_in plan.now) plan.now.start.now walk.new }
    ensures under { IfOk result (StandsUnder (model_of plan.now) (kernels_in plan.now) plan.now.start.now walk.new) }
{
    let found = subproblem_below(alloc, plan, walk, number, None)?;
    Ok(found)
}

/// What the part with this number leads to, or nothing too where the best cost, if there is one, beats that.
pub(crate) fn subproblem_below<L>(
    alloc: Global,
    plan: &Plan<'_, L>,
    walk: &mut Walk,
    number: u32,
    best: Option<i64>,
) -> Result<Option<Subproblem>, NoMemory>
    requires plan { IsPlan plan.now }
    requires number { number < numbers_of plan.now }
    requires walk { IsWalkFrom (model_of plan.now) (kernels_in plan.now) plan.now.start.now walk.old }
    ensures path { IfOk result (λ found.
        PartLeadsBelow (model_of plan.now) (kernels_in plan.now) plan.now.parts.now plan.now.start.now number best (box_of found)) }
    ensures inside { IfOk result (λ found. IfSome (box_of found) (λ b. IsInside b plan.now.run.now.program.now.start)) }
    ensures made { IfOk result (IsMadeFrom (kernels_in plan.now)) }
    ensures walk { IsWalkFrom (model_of plan.now) (kernels_in plan.now) plan.now.start.now walk.new }
    ensures under { IfOk result (StandsUnder (model_of plan.now) (kernels_in plan.now) plan.now.start.now walk.new) }
{
    law_inside_order();
    let part = plan.parts[number as usize];
    let tree = Tree {
        model: plan.run.model,
        program: plan.run.program,
        masks: plan.run.masks,
        start: plan.start,
        depth: part.depth,
    };
    match walk.path_box_below(alloc, &tree, part.number, best)? {
        Some(Subproblem { boxes, changed }) => Ok(Some(Subproblem {
            boxes,
            changed: told(plan.run.program.kernels.len(), changed),
        })),
        None => Ok(None),
    }
}
