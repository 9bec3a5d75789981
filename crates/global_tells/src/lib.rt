//! The bounds that two global constraints tell: all-different, and a cumulative resource.
//!
//! Exactly the tells of the definitions, in order (`visit_all_different`, `visit_cumulative`), and two tests that see that
//! nothing is told (`is_all_different_quiet`, `is_cumulative_quiet`); monotone, exact at a point, on their own variables alone.
//! It stands on `tells`; `guarded_tell` has both as kernels. Both are on bounds: no filtering by matchings or energy is
//! claimed, nor what a visit costs.
#![tactic(auto)]

mod all_different;
mod cumulative;
mod free;
mod halves;
mod laws;
mod places;
mod quiet;
mod ranges;
mod tasks;

pub use all_different::visit_all_different;
pub use cumulative::visit_cumulative;
pub use free::is_cumulative_quiet;
pub use laws::{
    law_all_different_local, law_all_different_monotone, law_all_different_pairs,
    law_all_different_place, law_all_different_point, law_cumulative_local,
    law_cumulative_monotone, law_cumulative_place, law_cumulative_point, law_cumulative_starts,
};
pub use quiet::is_all_different_quiet;
pub use tasks::Task;
