//! How a free search ends.

use list_of::ListOf;

/// How a search in a free order ended.
#[derive(Drop)]
pub enum FreeEnd {
    /// These are the numbers of a solution in the box.
    Found(ListOf<i64>),
    /// No solution is in the box.
    Refuted,
    /// What it could spend is spent, or it learned nothing more.
    GaveUp,
}
