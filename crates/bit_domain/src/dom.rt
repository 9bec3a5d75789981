//! Domains of single variables.

/// The numbers that are left for a variable.
#[derive(Clone, Copy, PartialEq, Eq, Debug)]
pub enum Dom {
    /// Some of the 64 numbers from a base on.
    Bits {
        /// The base.
        base: i64,
        /// Bit i says whether the number `base + i` is left.
        set: u64,
    },
    /// All numbers from a low to a high; none where they are crossed.
    Pair {
        /// The low.
        low: i64,
        /// The high.
        high: i64,
    },
}
