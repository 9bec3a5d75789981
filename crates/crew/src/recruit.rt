//! Workers that aren't hired yet, since all that takes memory comes before the first seat is split.

ghost use Rattle.std.specs.Prelude.{◌≡◌, ◌≤◌, length, map, IfOk};
ghost use Rattle.std.specs.List.{All};
ghost use Rattle.steal_crew.specs.Numbers.{numbers_below};

use crate::job::Job;
use memory::NoMemory;
use std::alloc::Global;

/// A worker that has no seat yet.
#[derive(Drop)]
pub struct Recruit<N, W> {
    /// The number of the worker.
    pub number: u32,
    /// How many times it has asked for a number.
    pub turn: u64,
    /// Its right to draw numbers.
    pub right: N,
    /// What it keeps over its runs.
    pub own: W,
}

/// Recruits a worker for each of these rights and turns.
pub(crate) fn recruit_all<N: Drop, S, W: Drop, E, J: Job<S, W, E>>(
    alloc: Global,
    job: &J,
    turns: &[u64],
    rights: Vec<N>,
) -> Result<Vec<Recruit<N, W>>, NoMemory>
    requires few { length turns.now ≤ 64 }
    requires turns { length rights.items ≡ length turns.now }
    ensures count { IfOk result (λ recruits. length recruits.items ≡ length rights.items) }
    ensures rights { IfOk result (λ recruits. map (λ recruit. recruit.right) recruits.items ≡ rights.items) }
    ensures numbers { IfOk result (λ recruits. map (λ recruit. recruit.number) recruits.items ≡ numbers_below (length rights.items)) }
    ensures turns { IfOk result (λ recruits. map (λ recruit. recruit.turn) recruits.items ≡ turns.now) }
    ensures own { IfOk result (λ recruits. All (λ recruit. J.owns job.now recruit.own) recruits.items) }
{
    let mut recruits = Vec::with_capacity(alloc, rights.len())?;
    for right in rights {
        let number = recruits.len();
        recruits.push_reserved(Recruit {
            number: number as u32,
            turn: turns[number],
            right,
            own: job.own(alloc)?,
        });
    }
    Ok(recruits)
}
