//! The numbers that kernels drop from the small domains of their variables, and what a mix is that none drops from.
//!
//! Exactly the drops of the definition, in order (`visit_drops`); none names a number of a closed mix inside (`law_drop`), and
//! a mix of points is closed exactly where the relation holds (`law_drop_point`). It builds on `guarded_tell` and `bit_domain`.
//! It isn't claimed that a propagator drops every number that it could. Begin with
//! `specs/Removals.antt`.
#![tactic(auto)]

mod equation;
mod hear;
mod laws;
mod literals;
mod membership;
mod place;
mod sums;
mod visit;
mod walk;

pub use hear::HearDrop;
pub use laws::{
    law_drop, law_drop_local, law_drop_place, law_drop_point, law_hull_inside,
    law_inside_mix_order, law_weight,
};
pub use visit::visit_drops;
