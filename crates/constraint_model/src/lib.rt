//! A model: variables, constraints, what is asked for and what is written. Which constraints there are, what they take and
//! hold, and what makes a model well-formed.
//!
//! Begin with `FznModel` (`src/model.rt`) and `specs/Table.antt`, which has a line of `row` for each constraint: a
//! definition, so nothing can prove it right. `law_table` says that each name is found by its spelling; `kernel_count` how many
//! propagators a constraint is run as. `Constants` has the numbers that need a variable, each once, in the order in which they
//! were added. It builds on `list_of` and `shared_list`, and reads no text: `fzn_model` does.
#![tactic(auto)]

mod boxed;
mod constant_set;
mod entries;
mod kernels;
mod kinds;
pub mod meanings;
pub mod model;
mod numbers;
mod places;
mod ranges;
pub mod table;

pub use boxed::Boxed;
pub use constant_set::Constants;
pub use entries::Entries;
pub use kernels::{add_constant, add_constants, has_long_row, kernel_count};
pub use meanings::{Array, Meaning, Scalar};
pub use model::{
    ArrayTerms, Constraint, FznModel, Goal, Operand, Output, Phase, Term, ValSel, VarDecl, VarSel,
};
pub use numbers::LARGEST;
pub use ranges::{law_ranges, range_of, ranges_of};
pub use table::{ConstraintName, Letter, fits, fits_some_row, law_table};
