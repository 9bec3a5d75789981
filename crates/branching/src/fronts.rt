//! How far a search has come in the order of the model's phases and their variables.

ghost use Rattle.interval.specs.Boxes.{Bounds};
ghost use Rattle.constraint_model.specs.declared.model.FznModel.{FznModel};
ghost use Rattle.branching.specs.Fronts.{IsFrontOf, FrontsStay};

/// How far a search has come: in the order in which the model lists its phases, all variables before this place are fixed.
/// It stays a front of every box that comes of narrowing or parting, so a search need not look at those variables again.
#[derive(Clone, Copy)]
pub struct Front {
    /// How many phases are behind it.
    pub(crate) phases: usize,
    /// How many variables of the next phase are behind it.
    pub(crate) vars: usize,
}

impl Front {
    /// The front before all variables, which is one of every box.
    pub fn first() -> Front
        ensures { (model : FznModel) (b : Bounds) → IsFrontOf model b result }
    {
        Front { phases: 0, vars: 0 }
    }
}

/// A front of a box is one of each proper box inside it.
pub fn law_fronts()
    ensures { FrontsStay }
{}
