//! What lanes work on.

use gate::Gate;
use guarded_tell::Kernel;
use interval::BoxOf;

/// What is propagated, how it is dealt to lanes, and how far.
#[derive(Clone, Copy)]
pub struct Work<'a, G: Gate> {
    /// The box that is narrowed.
    pub start: &'a BoxOf,
    /// The kernels.
    pub kernels: &'a [Kernel],
    /// The share of each lane: the numbers of the kernels that it runs.
    pub cut: &'a [Vec<u32>],
    /// The most rounds; 0 is no limit.
    pub round_limit: u64,
    /// Where the lanes may be held up.
    pub gate: &'a G,
}
