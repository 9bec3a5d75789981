//! How the propagation of a box ends.

/// How the propagation of a box ended, and after how many rounds.
#[derive(Clone, Copy, PartialEq, Eq, Debug)]
pub enum Narrowed {
    /// The box is the greatest closed box inside what it was.
    Fixed {
        /// How many rounds were run.
        rounds: u128,
    },
    /// No closed box was inside.
    Failed {
        /// How many rounds were run; none where the box was crossed.
        rounds: u128,
    },
    /// As many rounds as the limit were run, and the box may move on.
    GivenUp {
        /// How many rounds were run.
        rounds: u128,
    },
}
