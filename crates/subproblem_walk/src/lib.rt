//! Numbered subproblems, asked for one after another.
//!
//! `Walk::path_box`: each number leads to the same box, or none, as it does alone, whatever was asked before; to a depth above
//! 0 it is told by which pair that box differs from a closed one. `Walk::path_box_below` is given a best cost, and may answer
//! nothing too where no closed box inside what the number leads to has anything that costs less. Where memory was refused the
//! walk may be asked again. It keeps the way to the last number and what propagation works with, which only saves time. It builds
//! on `subproblems` and `moved_fixpoint`.
#![tactic(auto)]

mod cutter;
mod ends;
mod tree;
mod turns;
mod walk;

pub use cutter::Subproblem;
pub use tree::Tree;
pub use walk::Walk;
