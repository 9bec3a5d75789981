//! The first solution of a static order, found by a search in a free order.
//!
//! Where each phase takes its variables as they are listed, the solution comes first whose keys are the least, one after another:
//! the numbers of the variables, or their opposites where the upper part comes first. `Keys` goes from one key to the next and
//! halves the numbers that it may still have; of each better half it asks a `FreeSearch` for a solution there. It may pause after
//! any of these, and goes on where it paused.
//!
//! It builds on `free_search` and `free_laws`. Begin with `src/keys.rt`.
#![tactic(auto)]

mod halves;
mod key;
mod keys;

pub use key::is_static;
pub use keys::Keys;
