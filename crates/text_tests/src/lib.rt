//! Tests of the crates between the words of the command line and a model, and of those that write an answer's text. They
//! are a crate of their own, so that each of those crates is proved once.
#![tactic(auto)]

#[cfg(test)]
mod answer_lines;
#[cfg(test)]
mod constraint_table;
#[cfg(test)]
mod faults;
#[cfg(test)]
mod items;
#[cfg(test)]
mod limits;
#[cfg(test)]
mod lists;
#[cfg(test)]
mod literals;
#[cfg(test)]
mod made_texts;
#[cfg(test)]
mod models;
#[cfg(test)]
mod numbers;
#[cfg(test)]
mod resolved;
#[cfg(test)]
mod shared_lists;
#[cfg(test)]
mod streams;
#[cfg(test)]
mod tokens;
#[cfg(test)]
mod turns;
#[cfg(test)]
mod words;
