//! Parts of a binary tree, and whether a list of parts covers it: each leaf lies in one of them.
//!
//! A part is named by its depth and its number: the bits of the number, the highest first, are the turns on the way down to
//! it, 0 to the left and 1 to the right.
#![tactic(auto)]

mod cover;
mod part;

pub use cover::{are_cover, law_joined, law_parts_to};
pub use part::Part;
