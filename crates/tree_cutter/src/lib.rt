//! Where a search tree is cut into parts: all to one depth, or so that the parts are of like size.
//!
//! `parts_by_volume` cuts where the boxes are biggest. That the parts cover the tree is looked at when they are there
//! (`are_cover` of `tree_cover`); how alike they are isn't claimed. It builds on `subproblem_walk`.
#![tactic(auto)]

mod biggest;
mod depth;
mod plan;
mod rounds;
mod volume;

pub use depth::parts_to_depth;
pub use plan::parts_by_volume;
