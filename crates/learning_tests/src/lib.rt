//! What is learned from boxes that failed, compared with what was worked out by hand; and whether a known solution meets a nogood,
//! for other tests.

#![tactic(auto)]

#[cfg(test)]
mod analyses;
#[cfg(test)]
mod boxes;
mod known;

pub use known::is_met_by;
