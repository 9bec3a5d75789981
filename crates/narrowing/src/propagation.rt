//! What is propagated.

use gate::Gate;
use guarded_tell::Kernel;
use moved_set::Masks;

/// What is propagated, and how far.
#[derive(Clone, Copy)]
pub struct Propagation<'a, L: Gate> {
    /// The kernels.
    pub kernels: &'a [Kernel],
    /// The masks of their variables.
    pub masks: &'a Masks,
    /// The most rounds of one propagation; 0 is no limit.
    pub round_limit: u64,
    /// Where the lanes may be held up.
    pub gate: &'a L,
}
