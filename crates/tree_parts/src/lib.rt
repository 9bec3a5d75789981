//! The list of solutions of a whole search tree, from those of parts that cover it.
//!
//! A law alone: the crate has nothing to run. It builds on `subproblems` and `tree_cover`.
#![tactic(auto)]

ghost use Rattle.tree_parts.specs.Whole.{WholeOfParts, LeastOfParts};

use branching::{law_every_list, law_one_list};
use interval::law_inside_order;
use subproblems::{law_cuts, law_deeper, law_paths};

/// The lists of solutions of parts that cover the tree, one behind the other, are the list of all its solutions; and what each
/// solution of each part costs at least, each of all its solutions does.
pub fn law_whole_of_parts()
    ensures whole { WholeOfParts }
    ensures least { LeastOfParts }
{
    law_inside_order();
    law_cuts();
    law_paths();
    law_deeper();
    law_one_list();
    law_every_list();
}
