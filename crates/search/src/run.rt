//! What is searched, and how.

ghost use Rattle.std.specs.Prelude.{◌≡◌, IfOk};

use constraint_model::FznModel;
use decompose::Program;
use interval::BoxOf;
use memory::NoMemory;
use moved_set::Masks;
use std::alloc::Global;
use trailed_box::TrailedBox;

/// What a run searches, how far, and with how many lanes. Several runs may share it.
#[derive(Drop)]
pub struct Run<'a, L> {
    /// The model.
    pub model: &'a FznModel,
    /// Its program.
    pub program: &'a Program,
    /// The masks of the program's propagators.
    pub masks: &'a Masks,
    /// How many lanes propagate a box, from 1 to 64.
    pub lanes: u32,
    /// The most nodes; 0 is no limit.
    pub node_limit: u64,
    /// The most rounds of one propagation; 0 is no limit.
    pub round_limit: u64,
    /// Where the lanes may be held up.
    pub gate: &'a L,
}

/// Where a run begins.
#[derive(Drop)]
pub struct Start {
    /// The current box is the one that is searched. What is left on the stack isn't the run's, and stays as it is.
    pub boxes: TrailedBox,
    /// The pair whose bounds were put in a closed box, which made it; none: nothing is known of it.
    pub changed: Option<u32>,
}

/// A run that is over.
#[derive(Drop)]
pub struct Over<E> {
    /// How it ended.
    pub end: E,
    /// The boxes that it was given. What was left on the stack is still left, and more may lie above it.
    pub boxes: TrailedBox,
}

/// A box alone, with nothing left for later.
pub(crate) fn alone(alloc: Global, sub: &BoxOf) -> Result<TrailedBox, NoMemory>
    ensures { IfOk result (λ boxes. boxes.current ≡ sub.now) }
{
    let boxes = TrailedBox::new(alloc, sub.copy(alloc)?)?;
    Ok(boxes)
}
