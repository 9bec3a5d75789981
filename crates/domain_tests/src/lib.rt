//! Tests of domains of variables, kept as sets of bits or as pairs of bounds, of the words that threads share of them, and of
//! the numbers that propagators drop.
#![tactic(auto)]

#[cfg(test)]
mod drops;
#[cfg(test)]
mod mixes;
