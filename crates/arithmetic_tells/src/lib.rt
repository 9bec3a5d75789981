//! The bounds that products, quotients, remainders and absolute values tell.
//!
//! Exactly the tells of the definitions, in order (`visit_times`, `visit_div`, `visit_mod`, `visit_abs`), and of a product
//! those that narrow, with a division only where a test hasn't seen that it tells nothing (`narrow_times`); monotone, exact at
//! a point, on their own variables alone (`src/laws.rt`). It stands on `tells` and `tell_laws`; `guarded_tell` has the four as
//! kernels. Begin with `specs/Times.antt`. All are on bounds: how seldom is divided isn't claimed.
#![tactic(auto)]

mod absolute;
mod division;
mod laws;
mod products;
mod remainder;
mod times;

pub use absolute::visit_abs;
pub use division::visit_div;
pub use laws::{
    law_absolute_local, law_absolute_monotone, law_absolute_place, law_absolute_point,
    law_product_local, law_product_monotone, law_product_place, law_product_point,
    law_quotient_local, law_quotient_monotone, law_quotient_place, law_quotient_point,
    law_remainder_local, law_remainder_monotone, law_remainder_place, law_remainder_point,
};
pub use products::narrow_times;
pub use remainder::visit_mod;
pub use times::visit_times;
