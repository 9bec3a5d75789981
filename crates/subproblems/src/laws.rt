//! Laws of cuts, subproblems and paths, as functions that do nothing.

ghost use Rattle.subproblems.specs.Cuts.{CutLaws};
ghost use Rattle.subproblems.specs.Subproblems.{SubproblemLaws};
ghost use Rattle.subproblems.specs.Paths.{PathLaws};
ghost use Rattle.subproblems.specs.Deeper.{DeeperLaws};

use branching::{law_branches, law_one_list};
use fixpoint_laws::law_one_fixpoint;
use interval::law_inside_order;

/// A box is cut in one way.
pub fn law_cuts()
    ensures { CutLaws }
{
    law_branches();
    law_one_fixpoint();
    law_inside_order();
}

/// A box has one list of subproblems to each depth, and their solutions are its own.
pub fn law_subproblems()
    ensures { SubproblemLaws }
{
    law_inside_order();
    law_cuts();
}

/// Each number leads to one subproblem or nothing, and in rising order they are all subproblems.
pub fn law_paths()
    ensures { PathLaws }
{
    law_inside_order();
    law_cuts();
    law_subproblems();
}

/// What a number leads to has the solutions of what the two numbers one turn deeper lead to, one behind the other.
pub fn law_deeper()
    ensures { DeeperLaws }
{
    law_inside_order();
    law_cuts();
    law_paths();
    law_one_list();
}
