//! How the boxes on a way are cut, by propagation that asks what moved.

ghost use Rattle.std.specs.Prelude.{◌≡◌, ◌<◌, ℕ, List, length, All, IfOk, IfSome, OnOk};
ghost use Rattle.std.specs.Bool.{OnTrue, OnFalse};
ghost use Rattle.interval.specs.Boxes.{Bounds, IsProper, IsCrossed};
ghost use Rattle.guarded_tell.specs.declared.kernel.Kernel.{Kernel};
ghost use Rattle.guarded_tell.specs.Kernels.{IsKernel};
ghost use Rattle.constraint_model.specs.Searches.{IsSearchOf};
ghost use Rattle.moved_fixpoint.specs.Made.{IsMadeBy};
ghost use Rattle.moved_fixpoint.specs.Moved.{count_of, AreMasksOf, AreMovedOrQuiet};
ghost use Rattle.subproblems.specs.Cuts.{CanBeCut};
ghost use Rattle.subproblem_walk.specs.Nodes.{IsKeptOrParted, IsNodeOf, Serve};

use crate::tree::Tree;
use branching::{Branching, Front, branch_from};
use constraint_model::FznModel;
use fixpoint_laws::Limited;
use guarded_tell::Kernel;
use interval::{BoxOf, is_crossed, law_inside_order};
use memory::NoMemory;
use moved_fixpoint::{MovedSets, law_known_unless_moved, law_quiet_unless_moved, settle_proper};
use trailed_box::TrailedBox;

/// A box that a number leads to.
#[derive(Drop)]
pub struct Subproblem {
    /// The box is the current one. What is left on its stack is the walk's.
    pub boxes: TrailedBox,
    /// A pair: the box is a closed one but for the bounds of that pair. None: nothing is known of it, as of the start.
    pub changed: Option<u32>,
}

/// What a box on the way is cut into. The box itself becomes the greatest closed one inside.
#[derive(Clone, Copy)]
pub enum Node {
    /// No closed box is inside.
    Failed,
    /// The closed box fixes each declared variable.
    Fixed,
    /// It is parted so.
    Parted(Branching),
}

/// Notes the pair that was put in a closed box, or all where nothing is known.
fn note(sets: &mut MovedSets, changed: Option<u32>)
    requires { IfSome changed (λ pair. pair < count_of sets.old.moved) }
    ensures moved { count_of sets.new.moved ≡ count_of sets.old.moved }
    ensures asked { sets.new.asking.asked ≡ sets.old.asking.asked }
    ensures rests { sets.new.asking.rests ≡ sets.old.asking.rests }
    ensures quiet { (kernels : List Kernel) (b : Bounds) → length b ≡ count_of sets.old.moved → All (IsKernel (length b)) kernels →
        IsMadeBy changed kernels b → AreMovedOrQuiet sets.new.moved b kernels }
{
    law_quiet_unless_moved();
    match changed {
        Some(pair) => sets.moved.mark(pair),
        None => sets.moved.mark_all(),
    }
}

/// Whether a box is crossed. A part of a closed one isn't; only a box of which nothing is known is looked at.
fn is_crossed_start(sub: &Subproblem) -> bool
    ensures crossed { OnTrue result (IsCrossed sub.now.boxes.current) }
    ensures proper { OnFalse result ((kernels : List Kernel) → IsMadeBy sub.now.changed kernels sub.now.boxes.current → IsProper sub.now.boxes.current) }
{
    sub.changed.is_none() && is_crossed(sub.boxes.current())
}

/// Parts a closed box, unless it fixes each declared variable.
fn keep_or_part(model: &FznModel, closed: &BoxOf) -> Node
    requires phases { IsSearchOf model.now }
    requires length { length model.now.vars < length closed.now }
    requires proper { IsProper closed.now }
    ensures { IsKeptOrParted model.now closed.now result }
{
    match branch_from(model, closed, Front::first()) {
        Some((branching, _)) => Node::Parted(branching),
        None => Node::Fixed,
    }
}

/// Cuts the box, in place.
pub(crate) fn cut(
    tree: &Tree<'_>,
    sub: &mut Subproblem,
    sets: &mut MovedSets,
) -> Result<Node, NoMemory>
    requires cut { CanBeCut tree.now.model.now tree.now.program.now.kernels sub.old.boxes.current }
    requires masks { AreMasksOf tree.now.program.now.kernels (length sub.old.boxes.current) tree.now.masks.now }
    requires made { IsMadeBy sub.old.changed tree.now.program.now.kernels sub.old.boxes.current }
    requires sets { Serve sets.old tree.now.program.now.kernels (length sub.old.boxes.current) }
    ensures stack { sub.new.boxes.stack ≡ sub.old.boxes.stack }
    ensures length { length sub.new.boxes.current ≡ length sub.old.boxes.current }
    ensures node { IfOk result (IsNodeOf tree.now.model.now tree.now.program.now.kernels sub.old.boxes.current sub.new.boxes.current) }
    ensures sets { OnOk result (Serve sets.new tree.now.program.now.kernels (length sub.old.boxes.current)) }
{
    law_inside_order();
    law_known_unless_moved();
    if is_crossed_start(sub) {
        return Ok(Node::Failed);
    }
    note(sets, sub.changed);
    // the box is one of its own, and which kernels rest on others says nothing of it
    sets.wake_all();
    let kernels = tree.program.kernels.as_slice();
    match settle_proper(&mut sub.boxes, kernels, tree.masks, sets, 0)? {
        Limited::Fixed { .. } => Ok(keep_or_part(tree.model, sub.boxes.current())),
        Limited::Failed { .. } => Ok(Node::Failed),
        Limited::RoundsSpent { .. } => unreachable!(),
    }
}
