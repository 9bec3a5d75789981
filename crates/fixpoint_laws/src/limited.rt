//! How propagation with a limit on its rounds ends.

/// How propagation ended, and after how many rounds.
#[derive(Clone, Copy, PartialEq, Eq, Debug)]
pub enum Limited {
    /// The box is the greatest closed box inside the start.
    Fixed {
        /// How many rounds were run.
        rounds: u128,
    },
    /// No closed box is inside the start. The box is crossed.
    Failed {
        /// How many rounds were run.
        rounds: u128,
    },
    /// As many rounds as the limit were run, each of which moved the box, and it may move on.
    RoundsSpent {
        /// How many rounds were run.
        rounds: u128,
    },
}
