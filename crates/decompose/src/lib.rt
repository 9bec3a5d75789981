//! Turns a model into a program: a box to begin with, and kernels that hold exactly where the constraints do.
//!
//! `compile` is the one call: the points of the start are exactly the assignments within the declared bounds with the constants
//! around them, and on each the kernels hold exactly where the constraints do. Which kernels each of the 48 constraints has is
//! a line of `row_of` (`specs/Kernels.antt`); that they mean it is a law a line (`proofs/`). A model has one program
//! (`law_one_program`, `law_some_program`).
//!
//! It builds on `constraint_model` and `guarded_tell`, and runs nothing. That a long array's lists are made once isn't claimed.
//! Begin with `src/program.rt` and `src/start.rt`, where numbers become a box.
#![tactic(auto)]

mod booleans;
mod coefficients;
mod comparisons;
mod constants;
mod globals;
mod kernels;
mod mapped_lists;
mod places;
mod program;
mod start;
mod sums;
mod terms;

pub use program::{Program, compile, law_one_program, law_some_program};
