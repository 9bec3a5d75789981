//! What a race is about.

use interval::BoxOf;
use search::Run;

/// A box that is searched, and how.
#[derive(Drop)]
pub struct Task<'a, 'b, L> {
    /// The run.
    pub run: &'a Run<'b, L>,
    /// The box.
    pub sub: &'a BoxOf,
    /// Whether the order of the solutions is static.
    pub is_static: bool,
}
