//! Kernels of constraints and the bounds that they tell.
//!
//! Thirteen kernels (`src/kernel.rt`): `visit_tells` gives exactly the tells of the definition on a box, in order. The crates
//! above know kernels by four laws alone: `law_monotone` (a smaller box gets no weaker tells), `law_point` (a point is closed
//! exactly where the relation holds), `law_tell_place` and `law_local` (on the kernel's own variables).
//!
//! Begin with `specs/Kernels.antt`, which has a line of `tells` for each. It builds on the families (`sum_tells`,
//! `clause_tells`, `arithmetic_tells`, `extreme_tells`, `element_tells`, `set_tells`, `global_tells`), whose tells it gives on
//! and from whose laws its own follow. It runs nothing to a fixpoint, and gives tells whether they narrow the box or not: visits
//! that give no others are in `kernel_visits`.
#![tactic(auto)]

mod kernel;
mod laws;
mod visit;

pub use clause_tells::Literals;
pub use kernel::Kernel;
pub use laws::{law_local, law_monotone, law_point, law_tell_place};
pub use sum_tells::Extended;
pub use tells::{Hear, Lit, Side, Tell};
pub use visit::visit_tells;
