//! Exact quotients of whole numbers, bounds, and boxes of bounds.
//!
//! `floor_div` and `ceil_div` are exact; `corner_products` and `corner_quotients` bound what numbers of two ranges make;
//! `BoxOf` is seen as a list of pairs. All of propagation stands on it. Begin with `specs/Boxes.antt`.
#![tactic(auto)]

mod bounds;
mod boxes;
mod corners;
mod quotients;

pub use bounds::{BOUND_LIMIT, clamp_bound, law_clamp_order};
pub use boxes::{BoxOf, is_crossed, is_point, law_inside_order, width_sum};
pub use corners::{corner_products, corner_quotients, law_corner_order};
pub use quotients::{ceil_div, floor_div, law_quotient_order};
