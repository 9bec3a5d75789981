//! The made texts are models: each is read to the end, and what it means has a solution.
//!
//! Laws alone: `law_made_has_a_model`, for each number of variables from 2 to 2000. It builds on `made_model` and `fzn_model`.
#![tactic(auto)]

ghost use Rattle.made_laws.specs.Models.{MadeHasModel};

/// The made text of each number of variables, 2 to 2000, has a model, and the model has a solution. It does nothing.
pub fn law_made_has_a_model()
    ensures { MadeHasModel }
{}
