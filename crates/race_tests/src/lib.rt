//! Tests of the race: by turns of any length it gives what the plain search gives.
#![tactic(auto)]

#[cfg(test)]
mod models;
#[cfg(test)]
mod races;
#[cfg(test)]
mod texts;
