//! Better and better plans of a model, each as soon as it is found, by the plain search and a free one by turns on one thread.
//!
//! `BestSearch` gives one plan after another, each a solution that costs less than the one before, and says in the end that none costs
//! less. Each of the two searches cuts its boxes below the cost of the last plan, whichever found it. `any_solution` gives a solution of
//! a model without an objective, from whichever search finds one; `all_solutions` gives all of them, at once.
//!
//! Nothing is claimed of which of several plans comes, nor of when a turn ends. It builds on `race`, `free_search` and `search`. Begin
//! with `src/better.rt`.
#![tactic(auto)]

mod all;
mod any;
mod better;
mod clock;
mod plain;

pub use all::all_solutions;
pub use any::any_solution;
pub use better::BestSearch;
