//! The search tree whose parts have numbers.

use constraint_model::FznModel;
use decompose::Program;
use interval::BoxOf;
use moved_set::Masks;

/// The search tree from a box down to a depth. Its parts have numbers, whose bits are the turns on the way down.
#[derive(Clone, Copy)]
pub struct Tree<'a> {
    /// The model, by whose search closed boxes are parted.
    pub model: &'a FznModel,
    /// Its program, whose propagators close a box.
    pub program: &'a Program,
    /// The masks of the program's propagators.
    pub masks: &'a Masks,
    /// The box that is cut.
    pub start: &'a BoxOf,
    /// How many turns lead to a part, at most 62.
    pub depth: u32,
}
