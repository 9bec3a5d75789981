//! One propagation by lanes.

ghost use Rattle.std.specs.Prelude.{length, IfOk};
ghost use Rattle.std.specs.List.{All};
ghost use Rattle.guarded_tell.specs.Kernels.{IsKernel};
ghost use Rattle.rounds.specs.Shares.{IsCut};
ghost use Rattle.rounds.specs.Propagations.{HasPropagated};

use crate::engine::Engine;
use crate::work::Work;
use fixpoint_laws::Limited;
use gate::Gate;
use guarded_tell::Kernel;
use interval::BoxOf;
use memory::NoMemory;
use std::alloc::Global;
use std::thread::Threads;

/// How one propagation ended, and after how many rounds.
#[derive(Drop)]
pub enum Propagated {
    /// The box is the greatest closed box inside the start.
    Fixed {
        /// The box.
        box_of: BoxOf,
        /// The rounds.
        rounds: u128,
    },
    /// No closed box is inside the start.
    Failed {
        /// The rounds.
        rounds: u128,
    },
}

/// The greatest closed box inside a start, or that there is none, by an engine that is used once. Errors: memory.
pub fn propagate<R: Threads + Sync, G: Gate + Sync>(
    rt: &R,
    alloc: Global,
    start: &BoxOf,
    kernels: &[Kernel],
    cut: &[Vec<u32>],
    gate: &G,
) -> Result<Propagated, NoMemory>
    requires kernels { All (IsKernel (length start.now)) kernels.now }
    requires cut { IsCut (length kernels.now) cut.now }
    ensures { IfOk result (HasPropagated kernels.now start.now) }
{
    let mut engine = Engine::new(alloc, start.len(), cut.len() as u32)?;
    let mut into = start.copy(alloc)?;
    let work = Work {
        start,
        kernels,
        cut,
        round_limit: 0,
        gate,
    };
    match engine.propagate(rt, alloc, &work, &mut into)? {
        Limited::Fixed { rounds } => Ok(Propagated::Fixed {
            box_of: into,
            rounds,
        }),
        Limited::Failed { rounds } => Ok(Propagated::Failed { rounds }),
        Limited::RoundsSpent { .. } => unreachable!(),
    }
}
