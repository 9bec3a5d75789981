//! How a box is parted: the variable that the search takes, and the two boxes that come of it.
//!
//! `branch_from` gives both parts as bounds of one pair, looked for from a front on, or none where each declared variable is
//! fixed; each point of the box is in one part alone. `specs/Tree.antt` says what the list of solutions in a box is, in the
//! order of the search tree: a box has exactly one (`law_one_list`, `law_every_list`). It builds on `constraint_model` and
//! `fixpoint_laws`, and searches nothing. Begin with `specs/Selection.antt` and `specs/Parts.antt`.
#![tactic(auto)]

mod branch;
mod fronts;
mod laws;
mod select;

pub use branch::{Branching, branch_from, choose};
pub use fronts::{Front, law_fronts};
pub use laws::{law_branches, law_each_once, law_every_list, law_one_list, law_points};
pub use select::{are_fixed, pair_of};
