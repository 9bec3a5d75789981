//! The numbers of a model.

/// The largest number of a model; the least is its opposite.
pub const LARGEST: i64 = 140_737_488_355_327;
