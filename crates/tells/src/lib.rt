//! Tells, the bounds that propagators put on the variables of a box, who hears them, and the literals that guard them.
//!
//! A tell is of the side and the variable that its words say, with the nearest bound (`low_tell`, `high_tell`); `Hear` says
//! what a hearer of a list of tells goes through, and that one who is done stays as it is. It stands on `interval`, and knows
//! no propagator. Begin with `specs/Words.antt`.
#![tactic(auto)]

mod hear;
mod literals;
mod tell;

pub use hear::Hear;
pub use literals::{
    high_tell, is_out, is_sure, low_tell, no_number, stands_false, stands_true, tell_false,
    tell_true,
};
pub use tell::{Lit, Side, Tell};
