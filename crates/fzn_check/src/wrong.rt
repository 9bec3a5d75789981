//! What may be wrong with a solution.

/// What is wrong with numbers for the variables of a model.
#[derive(Debug, Clone, Copy, PartialEq, Eq)]
pub enum Wrong {
    /// The variable at this place, counted from 0, is outside the bounds that it starts with.
    Outside(u32),
    /// The constraint of this number, counted from 1, doesn't hold.
    Violates(usize),
}
