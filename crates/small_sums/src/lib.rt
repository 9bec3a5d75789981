//! Sums that fit 64 bits, and tests by them that an inequality or an equation narrows nothing.
//!
//! A sum is formed term by term, or not at all where some number is too large (`short_sums`); one with slight coefficients
//! always is (`slight_sums`), and one of two terms is a pair (`pair_of`). Where it leaves more room to the limit than a term
//! can grow by, nothing narrows (`leaves_room` and its kin). It stands on `sum_tells`. Begin with `specs/Short.antt`. It gives
//! no tells: `short_tells` does. That each sum which narrows nothing is seen isn't claimed.
#![tactic(auto)]

mod pairs;
mod parted_quiet;
mod quiet;
mod short;
mod slight;

pub use pairs::{
    Pair, is_apart, opposite, pair_leaves_room, pair_leaves_room_on_both_sides, plain, sum,
};
pub use parted_quiet::is_whole_equation_quiet;
pub use quiet::{
    is_equation_quiet, is_pair_at_most_quiet, is_pair_equation_quiet, leaves_room,
    leaves_room_on_both_sides,
};
pub use short::{SmallTerm, Sums, short_sums};
pub use slight::{are_slight, are_slight_extended, slight_sums};
