//! Tests of the free search: that it learns, by how many nodes it takes.
#![tactic(auto)]

#[cfg(test)]
mod learns;
#[cfg(test)]
mod models;
#[cfg(test)]
mod texts;
