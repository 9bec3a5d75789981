//! How a run ends.

use list_of::ListOf;

/// Which limit stopped a search.
#[derive(Clone, Copy, PartialEq, Eq, Debug)]
pub enum Why {
    /// That on nodes.
    Nodes,
    /// That on the rounds of a propagation.
    Rounds,
}

/// How a run for the first solution ends.
#[derive(Drop)]
pub enum FirstEnd {
    /// With the first solution, one number for each declared variable, or with none where there is none.
    Done(Option<ListOf<i64>>),
    /// By a limit, before a solution was found.
    Spent {
        /// How many nodes there were.
        nodes: u64,
        /// Which limit it was.
        why: Why,
    },
    /// Since a subproblem of this lesser number has a solution.
    Cut(u32),
}

/// How a run for all solutions ends.
#[derive(Drop)]
pub enum AllEnd {
    /// With all solutions in their order, one number for each declared variable.
    Done(ListOf<ListOf<i64>>),
    /// By a limit, with the solutions that were found so far.
    Spent {
        /// How many nodes there were.
        nodes: u64,
        /// Which limit it was.
        why: Why,
        /// What was found.
        solutions: ListOf<ListOf<i64>>,
    },
}

/// How a run for the least cost ends.
#[derive(Drop)]
pub enum LeastEnd {
    /// With the last solution that it recorded, or with none.
    Done(Option<ListOf<i64>>),
    /// By a limit.
    Spent {
        /// How many nodes there were.
        nodes: u64,
        /// Which limit it was.
        why: Why,
        /// The last solution that was recorded, if one was.
        so_far: Option<ListOf<i64>>,
    },
}
