//! Parts that are cut where the boxes are biggest.

ghost use Rattle.std.specs.Prelude.{◌≡◌, ◌≤◌, length, All, IfOk};
ghost use Rattle.std.specs.Bool.{OnTrue};
ghost use Rattle.constraint_model.specs.Searches.{IsSearchOf};
ghost use Rattle.decompose.specs.Program.{IsProgramOf};
ghost use Rattle.moved_fixpoint.specs.Moved.{AreMasksOf};
ghost use Rattle.subproblem_walk.specs.Walks.{IsWalkFrom};
ghost use Rattle.tree_cover.specs.Covers.{IsPart, AreCover};

use crate::biggest::cut_biggest;
use crate::depth::parts_to_depth;
use crate::rounds::{Cutter, Node, alone, is_part};
use crate::volume::{BIT, Volume};
use memory::NoMemory;
use std::alloc::{AllocError, Global};
use subproblem_walk::Tree;
use tree_cover::{Part, are_cover, law_parts_to};

/// How many rounds are gone at most.
const ROUNDS: u32 = 64;

/// A round may go to four times as many parts as are asked for, cut or not, and to so many more.
const SPARE: u32 = 256;

/// The volumes of the parts that a round above a threshold would have gone on from below it, the least first.
fn open_volumes(
    alloc: Global,
    nodes: &[Node],
    threshold: Volume,
    deepest: u32,
) -> Result<Vec<Volume>, AllocError> {
    let mut volumes = Vec::new(alloc);
    for node in nodes {
        let is_open = node.volume > 0 && node.volume <= threshold && node.part.depth < deepest;
        if is_open && !node.is_cut {
            volumes.push(node.volume)?;
        }
    }
    volumes.as_mut_slice().sort_unstable();
    Ok(volumes)
}

/// The threshold of the next round, by the volumes of the parts that can be cut, the least first, and by the last threshold
/// that was too low. None: no other is left to be tried.
fn next_threshold(volumes: &[Volume], too_low: Option<Volume>) -> Option<Volume> {
    let biggest = *volumes.last()?;
    match too_low {
        None => {
            // the biggest is halved, and a quarter of them is cut
            let quarter = volumes.len() / 4 + 1;
            let place = volumes.len().saturating_sub(quarter);
            let at_quarter = volumes.get(place).copied().unwrap_or(biggest);
            Some(biggest.saturating_sub(BIT).min(at_quarter))
        }
        Some(low) => {
            let middle = low.saturating_add(biggest.saturating_sub(low) / 2);
            if low < middle && middle < biggest {
                Some(middle)
            } else {
                None
            }
        }
    }
}

/// Whether there are enough parts: as many as may be, or half of that where the next round had too many.
fn is_enough(nodes: &[Node], too_low: Option<Volume>, most: u32) -> bool {
    let parts = nodes.len() / 2 + 1;
    let most = most as usize;
    parts >= most || (too_low.is_some() && parts >= most / 2)
}

/// The parts of the lowest threshold with not many more than so many. A round has about twice as many as the one before.
fn finest(
    alloc: Global,
    cutter: &mut Cutter,
    tree: &Tree<'_>,
    most: u32,
) -> Result<Vec<Node>, NoMemory>
    requires program { IsProgramOf tree.now.model.now tree.now.program.now }
    requires masks { AreMasksOf tree.now.program.now.kernels (length tree.now.program.now.start) tree.now.masks.now }
    requires phases { IsSearchOf tree.now.model.now }
    requires length { length tree.now.start.now ≡ length tree.now.program.now.start }
    requires depth { tree.now.depth ≤ 62 }
    requires walk { IsWalkFrom tree.now.model.now tree.now.program.now.kernels tree.now.start.now cutter.old.walk }
{
    let root = cutter.root(alloc, tree)?;
    let mut nodes = alone(alloc, root)?;
    let mut threshold = root.volume;
    let mut too_low = None;
    let limit = most.saturating_mul(4).saturating_add(SPARE);
    for _ in 0..ROUNDS {
        let volumes = open_volumes(alloc, nodes.as_slice(), threshold, tree.depth)?;
        let Some(next) = next_threshold(volumes.as_slice(), too_low) else {
            return Ok(nodes);
        };
        match cutter.round(alloc, tree, root, next, limit)? {
            None => too_low = Some(next),
            Some(finer) => {
                threshold = next;
                nodes = finer;
            }
        }
        if is_enough(nodes.as_slice(), too_low, most) {
            return Ok(nodes);
        }
    }
    Ok(nodes)
}

/// Whether these are parts, and none lies deeper than that.
fn are_parts(parts: &[Part], deepest: u32) -> bool
    requires { deepest ≤ 62 }
    ensures parts { OnTrue result (All IsPart parts.now) }
    ensures deep { OnTrue result (All (λ part. part.depth ≤ deepest) parts.now) }
{
    for part in parts {
        if !is_part(*part, deepest) {
            return false;
        }
    }
    true
}

/// Whether these are at most so many parts that cover a tree.
fn are_fit(parts: &[Part], deepest: u32, most: u32) -> bool
    requires { deepest ≤ 62 }
    ensures parts { OnTrue result (All IsPart parts.now) }
    ensures deep { OnTrue result (All (λ part. part.depth ≤ deepest) parts.now) }
    ensures cover { OnTrue result (AreCover parts.now) }
    ensures few { OnTrue result (length parts.now ≤ most) }
{
    if !are_parts(parts, deepest) || parts.len() > most as usize {
        return false;
    }
    are_cover(parts)
}

/// At most `most` parts that cover the tree, cut where the boxes have the most combinations of values of the variables that
/// are branched on, and none deeper than the tree's depth. Errors: memory.
pub fn parts_by_volume(alloc: Global, tree: &Tree<'_>, most: u32) -> Result<Vec<Part>, NoMemory>
    requires program { IsProgramOf tree.now.model.now tree.now.program.now }
    requires masks { AreMasksOf tree.now.program.now.kernels (length tree.now.program.now.start) tree.now.masks.now }
    requires phases { IsSearchOf tree.now.model.now }
    requires length { length tree.now.start.now ≡ length tree.now.program.now.start }
    requires depth { tree.now.depth ≤ 62 }
    requires some { 1 ≤ most }
    ensures parts { IfOk result (λ parts. All IsPart parts.items) }
    ensures deep { IfOk result (λ parts. All (λ part. part.depth ≤ tree.now.depth) parts.items) }
    ensures cover { IfOk result (λ parts. AreCover parts.items) }
    ensures few { IfOk result (λ parts. length parts.items ≤ most) }
{
    law_parts_to();
    let mut cutter = Cutter::new(alloc, tree)?;
    let nodes = finest(alloc, &mut cutter, tree, most)?;
    let parts = cut_biggest(alloc, nodes.as_slice(), most)?;
    if are_fit(parts.as_slice(), tree.depth, most) {
        return Ok(parts);
    }
    parts_to_depth(alloc, 0)
}
