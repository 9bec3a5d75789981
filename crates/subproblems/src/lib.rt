//! A box is cut into the boxes that lie so deep in the search tree, or into numbered ones by the turns on the way to them.
//!
//! `path_box` finds the box of a number alone, `expand` all of them for laws and tests; a box is cut in one way (`law_cuts`),
//! and its list of solutions is those of its parts one behind the other (`law_subproblems`). It builds on `decompose` and
//! `branching`. How long the cutting takes isn't claimed.
#![tactic(auto)]

mod cutting;
mod expansion;
mod laws;
mod path;

pub use cutting::Cut;
pub use expansion::expand;
pub use laws::{law_cuts, law_deeper, law_paths, law_subproblems};
pub use path::{count_to, numbers_to, path_box};
