//! The limits of a model.

ghost use Rattle.std.specs.Prelude.{◌≡◌};
ghost use Rattle.std.specs.List.{list_any};
ghost use Rattle.constraint_model.specs.Fits.{has_long_row};

use constraint_model::{Constraint, has_long_row};

/// The most declared variables.
pub const MOST_VARS: usize = 65_536;

/// The most entries of an array literal or of a set in braces.
pub const MOST_ENTRIES: usize = 65_536;

/// The most propagators that the constraints of a model are run as.
pub const MOST_KERNELS: u64 = 1_048_576;

/// The most distinct numbers other than 1 that occur where a variable may be.
pub const MOST_CONSTANTS: usize = 131_072;

/// Whether a constraint has a longer list than it may.
pub(crate) fn has_long_rows(constraints: &[Constraint]) -> bool
    ensures { result ≡ list_any has_long_row constraints.now }
{
    constraints
        .iter()
        .any(|constraint| has_long_row(constraint))
}
