//! What an item adds to the model.

use constraint_model::{Constraint, Goal, Meaning, Output, Phase, VarDecl};
use list_of::ListOf;
use names::Name;

/// What an item adds to the model.
#[derive(Drop)]
pub struct Effect {
    /// The name that it declares, with what it denotes.
    pub declared: Option<(Name, Meaning)>,
    /// The variable that it declares.
    pub var: Option<VarDecl>,
    /// Its constraint, or those that its declaration adds.
    pub constraints: ListOf<Constraint>,
    /// What is written of it.
    pub output: Option<Output>,
    /// The phases of the search and the goal that it asks for.
    pub solved: Option<(ListOf<Phase>, Goal)>,
}
