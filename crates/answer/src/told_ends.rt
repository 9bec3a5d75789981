//! What all runs of a portfolio told together.

ghost use Rattle.std.specs.Prelude.{◌≡◌, ◌≢◌, IfOk};
ghost use Rattle.constraint_model.specs.declared.model.Goal.TheVariants.{Satisfy};
ghost use Rattle.portfolio.specs.Told.{TellsFirstIn, TellsLeast};
ghost use Rattle.answer.specs.Plans.{IsPlan, model_of};
ghost use Rattle.answer.specs.Jobs.{numbers_of};
ghost use Rattle.answer.specs.Parts.{AreParts};
ghost use Rattle.answer.specs.Portfolios.{TellsHead, TellsCost, AreTellingEnds};

use crate::plan::Plan;
use branching::{law_every_list, law_one_list};
use interval::law_inside_order;
use list_of::ListOf;
use portfolio::{CostTold, FirstTold, LeastTold, first_told, least_told};
use solution_lists::law_solutions_listed;
use subproblems::{law_cuts, law_paths};
use tree_parts::law_whole_of_parts;

/// What they told of the first solution.
pub(crate) fn first_of_runs<L>(plan: &Plan<'_, L>, ends: ListOf<FirstTold>) -> FirstTold
    requires plan { IsPlan plan.now }
    requires parts { AreParts plan.now.parts.now }
    requires ends { AreTellingEnds (TellsHead (model_of plan.now) plan.now.parts.now plan.now.start.now) (numbers_of plan.now) ends }
    ensures { TellsFirstIn plan.now.run.now plan.now.start.now result }
{
    law_inside_order();
    law_one_list();
    law_every_list();
    law_paths();
    law_cuts();
    law_whole_of_parts();
    // its contract says that the bounds are in range
    let _length = plan.start.len();
    let mut told = ends.into_vec();
    if told.is_empty() {
        return FirstTold::Unknown;
    }
    let whole = told.remove(0);
    first_told(whole, told)
}

/// What they told of the least cost.
pub(crate) fn least_of_runs<L>(plan: &Plan<'_, L>, ends: ListOf<CostTold>) -> LeastTold
    requires plan { IsPlan plan.now }
    requires whole { plan.now.start.now ≡ plan.now.run.now.program.now.start }
    requires objective { (model_of plan.now).goal ≢ Satisfy }
    requires parts { AreParts plan.now.parts.now }
    requires ends { AreTellingEnds (TellsCost (model_of plan.now) plan.now.parts.now plan.now.start.now) (numbers_of plan.now) ends }
    ensures { TellsLeast (model_of plan.now) plan.now.start.now result }
{
    law_inside_order();
    law_one_list();
    law_every_list();
    law_paths();
    law_cuts();
    law_whole_of_parts();
    law_solutions_listed();
    let mut told = ends.into_vec();
    if told.is_empty() {
        return LeastTold::Unknown;
    }
    let whole = told.remove(0);
    least_told(whole, told)
}
