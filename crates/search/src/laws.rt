//! Laws of searches, as functions that do nothing.

ghost use Rattle.std.specs.Prelude.{length};
ghost use Rattle.interval.specs.Boxes.{IsInside};
ghost use Rattle.search.specs.Premises.{IsRun, CanSearch};
ghost use Rattle.search.specs.Laws.{RecordsSolutions, PrefixLaws, FindsLeast, RecordsBelow, CostsFall, MorePosted, LaneLaws, EndLaws, LimitLaws};
ghost use Rattle.search.specs.Static.{FindsFirst};

use crate::run::Run;
use branching::{law_branches, law_every_list, law_points};
use fixpoint_laws::{law_one_fixpoint, law_rounds_lead};
use interval::{BoxOf, law_inside_order};
use solution_lists::{law_fixed_is_point, law_left_precedes, law_point_solves, law_strict_order};

/// What a search records are the model's solutions in its box.
pub fn law_records_solutions()
    ensures { RecordsSolutions }
{
    law_inside_order();
    law_branches();
    law_fixed_is_point();
    law_point_solves();
}

/// What a search for the first solution or for all has found is a prefix of the list of solutions in its box; what its
/// stack still holds is the rest.
pub fn law_found_first()
    ensures { PrefixLaws }
{
    law_inside_order();
    law_branches();
    law_every_list();
}

/// A search for the least cost loses no solution that costs less than the best.
pub fn law_finds_least()
    ensures { FindsLeast }
{
    law_inside_order();
    law_branches();
    law_fixed_is_point();
    law_point_solves();
}

/// A node of a search for the least cost records what costs less than the best.
pub(crate) fn law_records_below()
    ensures { RecordsBelow }
{
    law_inside_order();
    law_branches();
    law_fixed_is_point();
    law_point_solves();
}

/// A search for the least cost records solutions that cost less and less.
pub fn law_costs_fall()
    ensures { CostsFall }
{
    law_inside_order();
    law_branches();
    law_fixed_is_point();
    law_point_solves();
}

/// Where each phase takes its variables as they are listed, each solution in the box that precedes a recorded one costs more.
pub fn law_finds_first()
    ensures { FindsFirst }
{
    law_inside_order();
    law_branches();
    law_fixed_is_point();
    law_point_solves();
    law_left_precedes();
    law_strict_order();
}

/// Where more costs are posted a search reaches what it reached.
pub fn law_more_posted()
    ensures { MorePosted }
{}

/// Where there is no limit on rounds a search reaches and ends as it does by any other number of lanes.
pub fn law_lanes_are_free()
    ensures { LaneLaws }
{}

/// With no cost posted a search stops in one state, also by its limit on rounds where one lane propagates or there is none,
/// and never both at its end and by a limit.
pub fn law_one_end()
    ensures { EndLaws }
{
    law_one_fixpoint();
    law_branches();
}

/// A limit that is great enough stops no search, and one of a single round lets no box through that propagation narrows.
pub fn law_limits()
    ensures { LimitLaws }
{
    law_inside_order();
    law_branches();
    law_points();
    law_rounds_lead();
}

/// A run can search each box inside its program's start.
pub fn law_can_search<L>(run: &Run<'_, L>, sub: &BoxOf)
    requires run { IsRun run.now }
    requires inside { IsInside sub.now run.now.program.now.start }
    ensures { CanSearch run.now (length sub.now) }
{}
