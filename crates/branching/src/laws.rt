//! Laws of branches and of the lists of solutions, as functions that do nothing.

ghost use Rattle.branching.specs.Points.{PointCounts};
ghost use Rattle.branching.specs.Tree.{BranchLaws, OneList, EveryList, EachOnce};

use fixpoint_laws::{law_one_fixpoint, law_tightens_one};
use interval::{law_inside_order, law_quotient_order};

/// A box is parted in one way, or its declared variables are fixed.
pub fn law_branches()
    ensures { BranchLaws }
{
    law_inside_order();
    law_quotient_order();
    law_tightens_one();
}

/// A box has one list of solutions in the order of the search tree at most.
pub fn law_one_list()
    ensures { OneList }
{
    law_one_fixpoint();
}

/// Every box in range has a list of solutions in the order of the search tree.
pub fn law_every_list()
    ensures { EveryList }
{
    law_inside_order();
    law_quotient_order();
    law_tightens_one();
    law_one_fixpoint();
}

/// Such a list has each solution in the box once, and nothing else.
pub fn law_each_once()
    ensures { EachOnce }
{
    law_inside_order();
    law_quotient_order();
    law_tightens_one();
}

/// The two parts of a box have its points between them.
pub fn law_points()
    ensures { PointCounts }
{
    law_quotient_order();
}
