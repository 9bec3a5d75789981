//! Declared types, and what fits them.

ghost use Rattle.std.specs.Prelude.{◌≡◌};
ghost use Rattle.std.specs.List.{list_all};
ghost use Rattle.fzn_parser.specs.Items.{what_tree};
ghost use Rattle.fzn_model.specs.Effects as effects;
ghost use Rattle.fzn_model.specs.Faults as faults;
ghost use Rattle.constraint_model.specs.Fits as fitting;

use constraint_model::{ConstraintName, Entries, Meaning, Scalar, Term};
use fzn_parser::tree::{Shape, What};

/// Whether it is a boolean's type.
pub(crate) fn is_bool_shape(shape: &Shape) -> bool
    ensures { result ≡ effects.is_bool_shape shape.now }
{
    matches!(shape, Shape::Bool | Shape::VarBool)
}

/// Whether it is the type of a variable, and taken.
pub(crate) fn declares_variable(shape: &Shape) -> bool
    ensures { result ≡ effects.declares_variable shape.now }
{
    matches!(shape, Shape::VarBool | Shape::VarInt | Shape::VarIn(_))
}

fn is_unsupported_type(shape: &Shape) -> bool
    ensures { result ≡ faults.is_unsupported_type shape.now }
{
    match shape {
        Shape::Float | Shape::VarFloat | Shape::VarFloats(_, _) => true,
        Shape::VarSet | Shape::VarSetIn(_) => true,
        Shape::Bool | Shape::Int | Shape::SetOfInt => false,
        Shape::VarBool | Shape::VarInt | Shape::VarIn(_) => false,
    }
}

fn is_set_type(shape: &Shape) -> bool
    ensures { result ≡ faults.is_set_type shape.now }
{
    matches!(shape, Shape::SetOfInt)
}

/// Whether the declared type isn't taken.
pub(crate) fn is_unsupported(what: &What) -> bool
    ensures { result ≡ faults.is_unsupported (what_tree what.now) }
{
    match what {
        What::Scalar { shape, .. } => is_unsupported_type(shape),
        What::Array { shape, .. } => is_unsupported_type(shape) || is_set_type(shape),
        What::Predicate(_) | What::Constraint { .. } | What::Solve { .. } => false,
    }
}

pub(crate) fn equality_name(is_bool: bool) -> ConstraintName
    ensures { result ≡ effects.equality_name is_bool }
{
    if is_bool {
        ConstraintName::BoolEq
    } else {
        ConstraintName::IntEq
    }
}

/// Whether it is a constant.
pub(crate) fn is_constant(scalar: Scalar) -> bool
    ensures { result ≡ fitting.is_constant scalar }
{
    matches!(scalar.term, Term::Number(_))
}

/// Whether a scalar is of this type, or may be an entry of an array of this type.
fn scalar_fits(shape: &Shape, scalar: Scalar) -> bool
    ensures { result ≡ faults.scalar_fits shape.now scalar }
{
    match shape {
        Shape::Bool => scalar.is_bool && is_constant(scalar),
        Shape::Int => !scalar.is_bool && is_constant(scalar),
        Shape::VarBool => scalar.is_bool,
        Shape::VarInt | Shape::VarIn(_) => !scalar.is_bool,
        Shape::Float | Shape::SetOfInt | Shape::VarFloat | Shape::VarFloats(_, _) => false,
        Shape::VarSet | Shape::VarSetIn(_) => false,
    }
}

/// Whether a value is of a scalar's declared type.
pub(crate) fn fits_scalar_type(shape: &Shape, meaning: &Meaning) -> bool
    ensures { result ≡ faults.fits_scalar_type shape.now meaning.now }
{
    match meaning {
        Meaning::One(scalar) => scalar_fits(shape, *scalar),
        Meaning::Set(_) => is_set_type(shape),
        Meaning::Row(_) => false,
    }
}

/// Whether each entry of an array may be one of an array of this type.
fn all_scalars_fit(shape: &Shape, entries: &Entries) -> bool
    ensures { result ≡ list_all (faults.scalar_fits shape.now) entries.now }
{
    match shape {
        Shape::Bool => entries.are_booleans() && entries.are_constants(),
        Shape::Int => entries.are_integers() && entries.are_constants(),
        Shape::VarBool => entries.are_booleans(),
        Shape::VarInt | Shape::VarIn(_) => entries.are_integers(),
        Shape::Float | Shape::SetOfInt | Shape::VarFloat | Shape::VarFloats(_, _) => {
            entries.len() == 0
        }
        Shape::VarSet | Shape::VarSetIn(_) => entries.len() == 0,
    }
}

/// Whether a value is an array of such elements.
pub(crate) fn fits_array_type(shape: &Shape, meaning: &Meaning) -> bool
    ensures { result ≡ faults.fits_array_type shape.now meaning.now }
{
    match meaning {
        Meaning::Row(array) => all_scalars_fit(shape, &array.entries),
        Meaning::One(_) | Meaning::Set(_) => false,
    }
}
