//! What a search looks for.

/// What a search looks for.
#[derive(Clone, Copy, PartialEq, Eq, Debug)]
pub enum Kind {
    /// The first solution in the order of the search tree.
    First,
    /// All solutions.
    All,
    /// A solution of least cost.
    Least,
}
