//! Visits that give a kernel's tells where they narrow the box, and how long the kernel rests then.
//!
//! `visit_narrowing` gives exactly those tells of the definition that narrow the box, whatever its hint is and by whichever
//! shape; `visit_unseen` is the same where `seen_rest` says nothing. A shape (`src/shape.rt`) is a small record of a kernel, at
//! which most visits end: differences of two variables, equations of three terms, clauses of two or three literals, products,
//! the greater of two, sums with slight coefficients. `rest_of` and `seen_rest` say how long a kernel needs no visit, `is_sided`
//! and `side_at` which bounds it reads (`law_sided`).
//!
//! Begin with `specs/Shapes.antt` and `specs/Rests.antt`. It builds on `guarded_tell`, and on `small_sums` and `short_tells` for
//! sums. Which one tell or two a shape says without a visit is in `seen_tells`. That a visit which narrows nothing forms no tell
//! isn't claimed.
#![tactic(auto)]

mod differences;
mod narrowing;
mod quiet;
mod resting;
mod settled;
mod shape;
mod sides;
mod slight_sum;
mod sole;

pub use narrowing::{visit_narrowing, visit_unseen};
pub use quiet::Hint;
pub use resting::{Rest, rest_of, seen_rest};
pub use shape::{Shape, Sign, Terms, difference, shape_of};
pub use sides::{is_sided, law_sided, side_at};
