//! What a free search searches.

use interval::BoxOf;
use search::Run;

/// What is searched, of which run and space.
#[derive(Drop)]
pub(crate) struct Task<'a, 'b, L> {
    /// The run.
    pub(crate) run: &'a Run<'b, L>,
    /// The space of the nogoods.
    pub(crate) space: &'a BoxOf,
    /// The box that is searched, the space under assumptions.
    pub(crate) sub: &'a BoxOf,
}
