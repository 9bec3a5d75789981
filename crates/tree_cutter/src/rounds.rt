//! One round through a search tree: what is bigger than a threshold is cut.

ghost use Rattle.std.specs.Prelude.{◌≡◌, ◌<◌, ◌≤◌, ◌+◌, ◌^◌, length, IfOk, IfSome};
ghost use Rattle.std.specs.Bool.{OnTrue};
ghost use Rattle.constraint_model.specs.Searches.{IsSearchOf};
ghost use Rattle.decompose.specs.Program.{IsProgramOf};
ghost use Rattle.moved_fixpoint.specs.Moved.{AreMasksOf};
ghost use Rattle.subproblem_walk.specs.Walks.{IsWalkFrom};
ghost use Rattle.tree_cover.specs.Covers.{IsPart};

use crate::volume::{Volume, branching_pairs, volume_of};
use memory::NoMemory;
use std::alloc::{AllocError, Global};
use subproblem_walk::{Tree, Walk};
use subproblems::count_to;
use tree_cover::Part;

/// The whole tree.
pub(crate) const WHOLE: Part = Part {
    depth: 0,
    number: 0,
};

/// A part that a round went to.
#[derive(Clone, Copy)]
pub(crate) struct Node {
    pub(crate) part: Part,
    /// That of its box.
    pub(crate) volume: Volume,
    /// Whether its halves follow it.
    pub(crate) is_cut: bool,
}

/// What is gone through a search tree with.
#[derive(Drop)]
pub(crate) struct Cutter {
    walk: Walk,
    // those of the variables that are branched on
    pairs: Vec<u32>,
}

/// Whether this is a part, and no deeper than that.
pub(crate) fn is_part(part: Part, deepest: u32) -> bool
    requires { deepest ≤ 62 }
    ensures part { OnTrue result (IsPart part) }
    ensures deep { OnTrue result (part.depth ≤ deepest) }
{
    part.depth <= deepest && part.number < count_to(part.depth)
}

/// A half of a part, the left one by 0 and the right one by 1, unless it lies too deep.
fn half(part: Part, turn: u64, deepest: u32) -> Option<Part>
    requires { deepest ≤ 62 }
    ensures part { IfSome result IsPart }
    ensures deep { IfSome result (λ half. half.depth ≤ deepest) }
{
    let half = Part {
        depth: part.depth.saturating_add(1),
        number: part.number.wrapping_mul(2).wrapping_add(turn),
    };
    if is_part(half, deepest) {
        Some(half)
    } else {
        None
    }
}

/// A part that wasn't gone to yet.
fn open(part: Part, volume: Volume) -> Node {
    Node {
        part,
        volume,
        is_cut: false,
    }
}

/// One node.
pub(crate) fn alone(alloc: Global, node: Node) -> Result<Vec<Node>, AllocError> {
    let mut nodes = Vec::new(alloc);
    nodes.push(node)?;
    Ok(nodes)
}

/// Notes a part that is gone to and, where it is cut, leaves its halves open, the left one on top.
fn note(
    node: Node,
    halves: Option<(Node, Node)>,
    nodes: &mut Vec<Node>,
    left_open: &mut Vec<Node>,
) -> Result<(), AllocError> {
    nodes.push(Node {
        part: node.part,
        volume: node.volume,
        is_cut: halves.is_some(),
    })?;
    if let Some((left, right)) = halves {
        left_open.push(right)?;
        left_open.push(left)?;
    }
    Ok(())
}

impl Cutter {
    /// For the search trees of a model.
    pub(crate) fn new(alloc: Global, tree: &Tree<'_>) -> Result<Cutter, NoMemory>
        ensures { IfOk result (λ cutter. IsWalkFrom tree.now.model.now tree.now.program.now.kernels tree.now.start.now cutter.walk) }
    {
        let pairs = branching_pairs(alloc, tree.model)?;
        let walk = Walk::new(alloc);
        Ok(Cutter { walk, pairs })
    }

    /// The volume of what a part leads to; none where it leads to nothing.
    fn volume_at(
        &mut self,
        alloc: Global,
        tree: &Tree<'_>,
        part: Part,
    ) -> Result<Option<Volume>, NoMemory>
        requires program { IsProgramOf tree.now.model.now tree.now.program.now }
        requires masks { AreMasksOf tree.now.program.now.kernels (length tree.now.program.now.start) tree.now.masks.now }
        requires phases { IsSearchOf tree.now.model.now }
        requires length { length tree.now.start.now ≡ length tree.now.program.now.start }
        requires part { IsPart part }
        requires walk { IsWalkFrom tree.now.model.now tree.now.program.now.kernels tree.now.start.now self.old.walk }
        ensures { IsWalkFrom tree.now.model.now tree.now.program.now.kernels tree.now.start.now self.new.walk }
    {
        let to = Tree {
            model: tree.model,
            program: tree.program,
            masks: tree.masks,
            start: tree.start,
            depth: part.depth,
        };
        match self.walk.path_box(alloc, &to, part.number)? {
            None => Ok(None),
            Some(sub) => {
                let volume = volume_of(self.pairs.as_slice(), sub.boxes.current());
                self.walk.take_back(sub.boxes);
                Ok(Some(volume))
            }
        }
    }

    /// Both halves of a part. None where it isn't to be cut: it lies too deep, leads to nothing, or to a solution.
    fn halves(
        &mut self,
        alloc: Global,
        tree: &Tree<'_>,
        part: Part,
    ) -> Result<Option<(Node, Node)>, NoMemory>
        requires program { IsProgramOf tree.now.model.now tree.now.program.now }
        requires masks { AreMasksOf tree.now.program.now.kernels (length tree.now.program.now.start) tree.now.masks.now }
        requires phases { IsSearchOf tree.now.model.now }
        requires length { length tree.now.start.now ≡ length tree.now.program.now.start }
        requires depth { tree.now.depth ≤ 62 }
        requires walk { IsWalkFrom tree.now.model.now tree.now.program.now.kernels tree.now.start.now self.old.walk }
        ensures { IsWalkFrom tree.now.model.now tree.now.program.now.kernels tree.now.start.now self.new.walk }
    {
        let (Some(left), Some(right)) = (half(part, 0, tree.depth), half(part, 1, tree.depth))
        else {
            return Ok(None);
        };
        let Some(of_left) = self.volume_at(alloc, tree, left)? else {
            return Ok(None);
        };
        let Some(of_right) = self.volume_at(alloc, tree, right)? else {
            return Ok(None);
        };
        Ok(Some((open(left, of_left), open(right, of_right))))
    }

    /// The whole tree, uncut.
    pub(crate) fn root(&mut self, alloc: Global, tree: &Tree<'_>) -> Result<Node, NoMemory>
        requires program { IsProgramOf tree.now.model.now tree.now.program.now }
        requires masks { AreMasksOf tree.now.program.now.kernels (length tree.now.program.now.start) tree.now.masks.now }
        requires phases { IsSearchOf tree.now.model.now }
        requires length { length tree.now.start.now ≡ length tree.now.program.now.start }
        requires walk { IsWalkFrom tree.now.model.now tree.now.program.now.kernels tree.now.start.now self.old.walk }
        ensures { IsWalkFrom tree.now.model.now tree.now.program.now.kernels tree.now.start.now self.new.walk }
    {
        let volume = self.volume_at(alloc, tree, WHOLE)?;
        Ok(open(WHOLE, volume.unwrap_or(0)))
    }

    /// Cuts what is bigger than the threshold. Each part that was gone to comes before its halves, and the left half before
    /// the right one. None: there are more than so many.
    pub(crate) fn round(
        &mut self,
        alloc: Global,
        tree: &Tree<'_>,
        root: Node,
        threshold: Volume,
        limit: u32,
    ) -> Result<Option<Vec<Node>>, NoMemory>
        requires program { IsProgramOf tree.now.model.now tree.now.program.now }
        requires masks { AreMasksOf tree.now.program.now.kernels (length tree.now.program.now.start) tree.now.masks.now }
        requires phases { IsSearchOf tree.now.model.now }
        requires length { length tree.now.start.now ≡ length tree.now.program.now.start }
        requires depth { tree.now.depth ≤ 62 }
        requires walk { IsWalkFrom tree.now.model.now tree.now.program.now.kernels tree.now.start.now self.old.walk }
        ensures { IsWalkFrom tree.now.model.now tree.now.program.now.kernels tree.now.start.now self.new.walk }
    {
        let mut nodes = Vec::new(alloc);
        let mut left_open = alone(alloc, root)?;
        for _ in 0..limit {
            let Some(node) = left_open.pop() else {
                return Ok(Some(nodes));
            };
            let halves = if node.volume > threshold {
                self.halves(alloc, tree, node.part)?
            } else {
                None
            };
            note(node, halves, &mut nodes, &mut left_open)?;
        }
        Ok(None)
    }
}
