//! The top call on texts that are worked out by hand, and the programs of such texts, tried from outside.

#![tactic(auto)]

#[cfg(test)]
mod booleans;
#[cfg(test)]
mod calls;
#[cfg(test)]
mod constraints;
#[cfg(test)]
mod corners;
#[cfg(test)]
mod domains;
#[cfg(test)]
mod faults;
#[cfg(test)]
mod goals;
#[cfg(test)]
mod held_up;
#[cfg(test)]
mod limits;
#[cfg(test)]
mod long_lists;
#[cfg(test)]
mod orders;
#[cfg(test)]
mod programs;
#[cfg(test)]
mod propagators;
#[cfg(test)]
mod refusals;
#[cfg(test)]
mod stopped;
#[cfg(test)]
mod texts;
