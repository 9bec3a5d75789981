//! Of what a round has cut, the biggest parts alone are cut.

use crate::rounds::Node;
use crate::volume::Volume;
use std::alloc::{AllocError, Global};
use tree_cover::Part;

/// Which parts are cut.
#[derive(Clone, Copy)]
struct Bound {
    /// All that are bigger.
    volume: Volume,
    /// So many of just that volume.
    ties: usize,
}

/// The volumes of the parts that a round has cut, the least first.
fn cut_volumes(alloc: Global, nodes: &[Node]) -> Result<Vec<Volume>, AllocError> {
    let mut volumes = Vec::new(alloc);
    for node in nodes {
        if node.is_cut {
            volumes.push(node.volume)?;
        }
    }
    volumes.as_mut_slice().sort_unstable();
    Ok(volumes)
}

/// The bound by which so many of these are cut.
fn bound_of(volumes: &[Volume], cuts: usize) -> Bound {
    let place = volumes.len().saturating_sub(cuts);
    match volumes.get(place) {
        None => Bound {
            volume: Volume::MAX,
            ties: 0,
        },
        Some(volume) => {
            let mut ties = cuts;
            for other in volumes {
                if *other > *volume {
                    ties = ties.saturating_sub(1);
                }
            }
            Bound {
                volume: *volume,
                ties,
            }
        }
    }
}

/// Whether a part that a round has cut is to be cut. Where it is one of the ties there is one less.
fn is_taken(node: &Node, bound: &mut Bound) -> bool {
    if !node.is_cut || node.volume < bound.volume {
        return false;
    }
    if node.volume > bound.volume {
        return true;
    }
    let is_left = bound.ties > 0;
    bound.ties = bound.ties.saturating_sub(1);
    is_left
}

/// At most `most` of the parts of a round: of those that it has cut the biggest are cut, and the others are parts.
pub(crate) fn cut_biggest(
    alloc: Global,
    nodes: &[Node],
    most: u32,
) -> Result<Vec<Part>, AllocError> {
    let cuts = (most as usize).saturating_sub(1);
    let volumes = cut_volumes(alloc, nodes)?;
    let mut bound = bound_of(volumes.as_slice(), cuts);
    let mut parts = Vec::new(alloc);
    // what follows and lies deeper is inside the last part
    let mut last = u32::MAX;
    for node in nodes {
        if node.part.depth <= last {
            if is_taken(node, &mut bound) {
                last = u32::MAX;
            } else {
                last = node.part.depth;
                parts.push(node.part)?;
            }
        }
    }
    Ok(parts)
}
