//! Sets of variables and of kernels, and for each variable the kernels that name it.
//!
//! `Masks::ask` puts exactly the kernels that name a variable into a set besides those that it had; `AskedSet::next` finds
//! exactly the next one. Contracts see sets as lists of booleans. It builds on `guarded_tell`. That a list which several
//! kernels have is kept once, and how many words are looked at, isn't claimed. Begin with `src/masks.rt`.
#![tactic(auto)]

mod asked;
mod bits;
mod build;
mod few;
mod groups;
mod mask;
mod masks;
mod parts;
mod rows;
mod set;
mod shapes;
mod trailed_set;

pub use asked::AskedSet;
pub use masks::Masks;
pub use set::MovedSet;
pub use trailed_set::TrailedSet;
