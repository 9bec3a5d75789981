//! The laws of assumptions and of keys.

ghost use Rattle.free_laws.specs.Assumptions.{AssumptionLaws};
ghost use Rattle.free_laws.specs.Keys.{FirstByKeys};
ghost use Rattle.free_laws.specs.Steps.{NoneSolves, KeysDone};

use interval::law_inside_order;
use literals::law_literals;
use nogoods::law_nogoods;
use solution_lists::{law_first_comes_first, law_point_solves};

/// What is known once no solution meets some assumptions. It does nothing.
pub fn law_assumptions()
    ensures { AssumptionLaws }
{
    law_literals();
    law_nogoods();
}

/// In a static order the solution whose keys are the least, one after another, comes first. It does nothing.
pub fn law_first_by_keys()
    ensures { FirstByKeys }
{
    law_first_comes_first();
}

/// A box without a solution has none of the model's solutions. It does nothing.
pub fn law_none_solves()
    ensures { NoneSolves }
{
    law_inside_order();
    law_point_solves();
}

/// Once no solution has a lesser key, for each of the keys, the solution comes first. It does nothing.
pub fn law_keys_done()
    ensures { KeysDone }
{
    law_none_solves();
    law_first_by_keys();
}
