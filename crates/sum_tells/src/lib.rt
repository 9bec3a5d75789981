//! The bounds that linear inequalities and equations tell.
//!
//! Exactly the tells of the definitions, in order (`visit_le`, `visit_equation`); monotone, exact at a point, on their own
//! variables alone (`src/laws.rt`). Sums are formed in 128 bits, which none leaves (`src/terms.rt`). `Extended` is a list with
//! maybe one item more behind it. It stands on `tells` and `shared_list`; `guarded_tell` has both as kernels. Begin with
//! `specs/Linear.antt`, then `specs/Equality.antt`. What narrows, and sums that fit 64 bits, stand above (`small_sums`,
//! `short_tells`).
#![tactic(auto)]

mod equality;
mod extended;
mod laws;
mod linear;
mod parted;
mod terms;

pub use extended::Extended;
pub use laws::{
    law_equation_local, law_equation_monotone, law_equation_place, law_equation_point,
    law_inequality_local, law_inequality_monotone, law_inequality_place, law_inequality_point,
};
pub use linear::visit_le;
pub use parted::visit_equation;
pub use terms::floor_quotient;
