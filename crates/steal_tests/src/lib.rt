//! Tests of numbers that are dealt to hands, which steal from each other, on one thread and on two, and of crews whose workers
//! draw numbers or steal them.
#![tactic(auto)]

#[cfg(test)]
mod hands;
#[cfg(test)]
mod orders;
#[cfg(test)]
mod threads;
