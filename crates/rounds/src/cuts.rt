//! Cuts of the kernels into shares.

ghost use Rattle.std.specs.Prelude.{◌≡◌, ◌+◌, ◌<◌, ◌≤◌, ◌^◌, ℕ, length, IfOk};
ghost use Rattle.rounds.specs.Shares.{share_limit, IsCut};
ghost use Rattle.rounds.specs.Even.{AreDealt, AreEvenShares};

use guarded_tell::Kernel;
use memory::NoMemory;
use std::alloc::{AllocError, Global};

/// So many empty shares.
fn empty_shares(alloc: Global, lanes: u32) -> Result<Vec<Vec<u32>>, AllocError>
    ensures { IfOk result (λ v. AreDealt 0 lanes v.items) }
{
    let mut shares = Vec::new(alloc);
    for _ in 0..lanes {
        shares.push(Vec::new(alloc))?;
    }
    Ok(shares)
}

/// Deals kernel j to its share.
fn deal(shares: &mut Vec<Vec<u32>>, lanes: u32, j: u32) -> Result<(), AllocError>
    requires lanes { 1 ≤ lanes }
    requires dealt { AreDealt j lanes shares.old.items }
    ensures { IfOk result (λ _. AreDealt (j + 1) lanes shares.new.items) }
{
    shares[(j % lanes) as usize].push(j)?;
    Ok(())
}

/// Deals so many kernels in turn.
fn deal_all(alloc: Global, count: u32, lanes: u32) -> Result<Vec<Vec<u32>>, AllocError>
    requires lanes { 1 ≤ lanes }
    ensures { IfOk result (λ v. AreDealt count lanes v.items) }
{
    let mut shares = empty_shares(alloc, lanes)?;
    for j in 0..count {
        deal(&mut shares, lanes, j)?;
    }
    Ok(shares)
}

/// The kernels dealt to so many lanes in turn: share i lists, rising, the numbers that leave the rest i. Errors: memory.
pub fn even_cut(alloc: Global, kernels: &[Kernel], lanes: u32) -> Result<Vec<Vec<u32>>, NoMemory>
    requires kernels { length kernels.now < 2 ^ 32 }
    requires some { 1 ≤ lanes }
    requires short { lanes ≤ share_limit }
    ensures even { IfOk result (λ v. AreEvenShares (length kernels.now) lanes v.items) }
    ensures cut { IfOk result (λ v. IsCut (length kernels.now) v.items) }
{
    Ok(deal_all(alloc, kernels.len() as u32, lanes)?)
}
