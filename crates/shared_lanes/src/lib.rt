//! Lanes, which run their shares of one round side by side over something that they share: each is given a seat, runs its share
//! with it, and hands it back.
//!
//! The first seat has taken back each lane in order after `run_lanes`, so that what the shared thing says of lanes that were
//! taken back holds of all of them. It stands on `interval`, and knows neither bounds nor kernels: `rounds` and `mix_rounds`
//! do. That a thread runs isn't claimed.
#![tactic(auto)]

mod lane;
mod round;
mod shared;

pub use lane::Lane;
pub use round::run_lanes;
pub use shared::Shared;
