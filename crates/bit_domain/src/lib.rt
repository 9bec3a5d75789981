//! The numbers that are left for the variables of a model: sets of few as bits, the others between two bounds.
//!
//! A mix (`MixOf`) is the list of its domains; each number of a domain lies within its hull, and the ends of a hull that isn't
//! crossed are numbers of it (`law_hull`). It stands on `interval`. The search narrows boxes of bounds; sets are for `--domains`.
//! Begin with `specs/Mixes.antt`.
#![tactic(auto)]

mod bits;
mod dom;
mod ends;
mod laws;
mod mix;

pub use bits::part_least;
pub use dom::Dom;
pub use laws::{law_between, law_hull, law_inside, law_members, law_values};
pub use mix::MixOf;
