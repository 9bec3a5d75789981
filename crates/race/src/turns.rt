//! How long the turns of a race are.

use search::{Run, node_work};

/// How often the turns are doubled; then the plain search goes on alone.
pub(crate) const DOUBLINGS: u32 = 44;

/// The units of work of a turn of the plain search, at least: some milliseconds, in which most small texts end.
const LEAST_TURN: u64 = 800_000;

/// The units of work of its first turn for each propagator and each variable, at least.
const FIRST_EACH: u64 = 64;

/// The same of its later turns.
const LATER_EACH: u64 = 32;

/// How long the turns of the plain search are in a race, in units of its work: what its visits cost, and some for each node.
/// Before each of them but the first the free search has a turn, of three eighths of that.
#[derive(Debug, Clone, Copy, PartialEq, Eq)]
pub struct Turns {
    /// The first turn, with which the race begins.
    pub first: u64,
    /// The second turn, of which the next are each twice as long as the last.
    pub least: u64,
}

impl Turns {
    /// Those that answers are given by. They are longer in a large program, where the free search needs longer to begin.
    pub fn usual<L>(run: &Run<'_, L>) -> Turns {
        let kernels = run.program.kernels.as_slice().len() as u64;
        let variables = run.program.start.len();
        let size = kernels.saturating_add(variables as u64);
        // the nodes of one way down the tree
        let dive = (variables as u64).saturating_mul(node_work(variables));
        Turns {
            first: LEAST_TURN.max(size.saturating_mul(FIRST_EACH).saturating_add(dive)),
            least: LEAST_TURN.max(size.saturating_mul(LATER_EACH)),
        }
    }
}

/// The turn of the free search before one of so many units of the plain one.
pub(crate) fn free_turn_before(units: u64) -> u64 {
    (units / 8).saturating_mul(3)
}

/// The turns that come after those of so many units.
pub(crate) fn doubled(units: u64) -> u64 {
    units.saturating_mul(2)
}
