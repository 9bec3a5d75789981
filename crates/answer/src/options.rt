//! What is asked of the solver.

/// How a model is solved.
#[derive(Debug, Clone, Copy, PartialEq, Eq)]
pub struct Options {
    /// Whether all solutions are asked for; it makes no difference where there is an objective.
    pub all: bool,
    /// How many workers search parts, 1 to 64.
    pub workers: u32,
    /// How many lanes each worker propagates with, 1 to 64.
    pub lanes: u32,
    /// Under a limit the search tree is cut into all parts of this depth, 2 to this power. At most 16.
    pub depth: u32,
    /// Without limits: the most parts into which it is cut, 1 to 65,536. One worker doesn't cut it.
    pub most_parts: u32,
    /// The most nodes of a part's search; 0 is no limit.
    pub node_limit: u64,
    /// The most rounds of one propagation; 0 is no limit.
    pub round_limit: u64,
    /// Whether the parts are dealt to the workers, of which each that has none left steals one of another's; else they
    /// draw them from one row.
    pub steal: bool,
}
