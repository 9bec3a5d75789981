//! A part of a tree.

/// What lies below a node.
#[derive(Debug, Clone, Copy, PartialEq, Eq)]
pub struct Part {
    /// How many turns lead to the node, at most 62.
    pub depth: u32,
    /// Its number among those of its depth.
    pub number: u64,
}
