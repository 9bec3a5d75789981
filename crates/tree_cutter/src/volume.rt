//! How big the boxes of a search tree are.

use constraint_model::FznModel;
use interval::BoxOf;
use memory::NoMemory;
use std::alloc::{AllocError, Global};

/// A logarithm to base 2, or a sum of some, in sixteenths.
pub(crate) type Volume = u64;

/// One bit: a box that is halved has so much less.
pub(crate) const BIT: Volume = 16;

/// The logarithm of a count, rounded: the bits behind the highest one are the sixteenths. That of 0 is 0.
fn log_of(count: u64) -> Volume {
    let whole = 63_u32.saturating_sub(count.leading_zeros());
    let behind = count
        .wrapping_shl(63_u32.wrapping_sub(whole))
        .wrapping_shr(59)
        & 15;
    BIT * u64::from(whole) + behind
}

/// How many combinations of values of some variables, given by their pairs, a box has.
pub(crate) fn volume_of(pairs: &[u32], b: &BoxOf) -> Volume {
    let mut volume: Volume = 0;
    for pair in pairs {
        if *pair < b.len() {
            let width = b.high(*pair).abs_diff(b.low(*pair));
            volume = volume.saturating_add(log_of(width.wrapping_add(1)));
        }
    }
    volume
}

/// Adds the pairs of variables that aren't marked, and marks them.
fn add_pairs(vars: &[u32], marks: &mut Vec<bool>, pairs: &mut Vec<u32>) -> Result<(), AllocError> {
    for var in vars {
        if let Some(mark) = marks.get_mut(*var as usize) {
            if !*mark {
                *mark = true;
                pairs.push(var.wrapping_add(1))?;
            }
        }
    }
    Ok(())
}

/// The pairs of the variables that the search branches on: those of the text's own phases, or all where these name none.
pub(crate) fn branching_pairs(alloc: Global, model: &FznModel) -> Result<Vec<u32>, NoMemory> {
    let mut marks = Vec::new(alloc);
    marks.resize(model.vars.len(), false)?;
    let mut pairs = Vec::new(alloc);
    let phases = model.search.as_slice();
    // the last phase has all of them
    let own = phases.len().saturating_sub(1);
    for phase in phases.iter().take(own) {
        add_pairs(phase.vars.as_slice(), &mut marks, &mut pairs)?;
    }
    if pairs.is_empty() {
        for phase in phases {
            add_pairs(phase.vars.as_slice(), &mut marks, &mut pairs)?;
        }
    }
    Ok(pairs)
}
