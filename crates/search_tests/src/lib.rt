//! Tests of the crates that search: how boxes are parted and numbered, what a search finds, what threads share, and the
//! answers of small models.
#![tactic(auto)]

#[cfg(test)]
mod again;
#[cfg(test)]
mod answers;
#[cfg(test)]
mod crews;
#[cfg(test)]
mod draws;
#[cfg(test)]
mod held_up;
#[cfg(test)]
mod least;
#[cfg(test)]
mod models;
#[cfg(test)]
mod parts;
#[cfg(test)]
mod paths;
#[cfg(test)]
mod portfolios;
#[cfg(test)]
mod posts;
#[cfg(test)]
mod searches;
