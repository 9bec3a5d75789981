//! Literals and tells.

/// A literal of a variable. A positive one is true where the variable is at least 1, a negative one where it is at
/// most 0.
#[derive(Clone, Copy, PartialEq, Eq, Debug)]
pub struct Lit {
    /// The variable.
    pub var: u32,
    /// Whether it is positive.
    pub positive: bool,
}

/// Which bound of a variable a tell is about.
#[derive(Clone, Copy, PartialEq, Eq, Debug)]
pub enum Side {
    /// The lower bound, which a tell can only raise.
    Low,
    /// The upper bound, which a tell can only lower.
    High,
}

/// A bound that is told of a variable.
#[derive(Clone, Copy, PartialEq, Eq, Debug)]
pub struct Tell {
    /// The variable.
    pub var: u32,
    /// Which of its bounds.
    pub side: Side,
    /// The bound.
    pub bound: i64,
}
