//! Tests of the checker: whole calls of it on texts that are worked out by hand.
#![tactic(auto)]

#[cfg(test)]
mod calls;
#[cfg(test)]
mod long_models;
#[cfg(test)]
mod streams;
#[cfg(test)]
mod texts;
