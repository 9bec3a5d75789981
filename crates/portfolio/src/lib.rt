//! Searches of one box side by side: one in a free order, the others of the parts of its tree; and what they tell together.
//!
//! What a search tells is said of its value alone: the first solution of its list (`FirstTold`), or a solution and a bound of the
//! costs (`CostTold`). `first_told` and `least_told` put it together, whoever told it. The best cost is shared in one word. How
//! far they have come (`Progress`), and so which of them ends the others, is a hint of which no contract speaks.
//!
//! It builds on `race` and `best_bound`, and knows neither threads nor parts: `answer` does. Begin with `specs/Told.antt`.
#![tactic(auto)]

mod box_costs;
mod free_costs;
mod free_first;
mod progress;
mod sharing;
mod together;
mod told;

pub use box_costs::costs_of_box;
pub use free_costs::costs_by_free;
pub use free_first::first_by_free;
pub use progress::{FreeTurns, Progress};
pub use sharing::Sharing;
pub use together::{first_told, least_told};
pub use told::{Bound, CostTold, FirstTold, LeastTold};
