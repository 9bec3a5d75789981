//! Exact quotients, boxes of bounds, and the bounds that propagators tell, tried from outside.

#![tactic(auto)]

#[cfg(test)]
mod arithmetic;
#[cfg(test)]
mod boxes;
#[cfg(test)]
mod division;
#[cfg(test)]
mod four_variables;
#[cfg(test)]
mod global_constraints;
#[cfg(test)]
mod linear;
#[cfg(test)]
mod lists;
#[cfg(test)]
mod products;
#[cfg(test)]
mod quotients;
#[cfg(test)]
mod repeats;
#[cfg(test)]
mod said;
#[cfg(test)]
mod said_twice;
