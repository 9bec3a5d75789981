//! What is seen of a visit at a kernel's shape, without the visit: its one tell, its two, or a tell at which the box fails.
//!
//! `seen_visit` says that the kernel narrows nothing and how long it rests, or which one tell of it narrows the box, or which
//! two; `sole_tell` the one, and whether the kernel rests for good once it is joined; `failing_tell` the first one that narrows,
//! where it leaves its variable no number. Whatever they say is exactly what a visit would give (`specs/Seen.antt`, where to
//! begin); each may say nothing.
//!
//! It builds on `kernel_visits`, whose shapes it looks at. Differences are in `src/seen.rt` and `src/held.rt`, equations of
//! three terms in `src/three.rt`, products and the greater of two in files of their own.
#![tactic(auto)]

mod failing;
mod few;
mod greatest;
mod held;
mod product;
mod seen;
mod three;

pub use failing::failing_tell;
pub use seen::{Seen, Sole, seen_visit, sole_tell};
