//! What all entries of an array have in common.

ghost use Rattle.std.specs.Prelude.{◌≡◌, ◌||◌};
ghost use Rattle.std.specs.List.{list_all};
ghost use Rattle.constraint_model.specs.Kinds.{is_amount, is_constant, is_integer, is_boolean, kinds_of};

use crate::meanings::Scalar;
use crate::model::Term;

/// What all entries of an array have in common. Each constraint that names the array asks for it, so it is found once.
#[derive(Clone, Copy)]
pub(crate) struct Kinds {
    /// Whether each is an integer.
    pub(crate) all_integers: bool,
    /// Whether each is a boolean.
    pub(crate) all_booleans: bool,
    /// Whether each is a constant.
    pub(crate) all_constants: bool,
    /// Whether each is an integer constant that isn't negative.
    pub(crate) all_amounts: bool,
}

/// Whether it is a constant.
pub(crate) fn is_constant(scalar: Scalar) -> bool
    ensures { result ≡ is_constant scalar }
{
    matches!(scalar.term, Term::Number(_))
}

/// Whether it is an integer constant that isn't negative.
pub(crate) fn is_amount(scalar: Scalar) -> bool
    ensures { result ≡ is_amount scalar }
{
    match scalar.term {
        Term::Number(number) => !scalar.is_bool && number >= 0,
        Term::Var(_) => false,
    }
}

fn are_integers(entries: &[Scalar]) -> bool
    ensures { result ≡ list_all is_integer entries.now }
{
    entries.iter().all(|entry| !entry.is_bool)
}

fn are_booleans(entries: &[Scalar]) -> bool
    ensures { result ≡ list_all is_boolean entries.now }
{
    entries.iter().all(|entry| entry.is_bool)
}

fn are_constants(entries: &[Scalar]) -> bool
    ensures { result ≡ list_all is_constant entries.now }
{
    entries.iter().all(|entry| is_constant(*entry))
}

fn are_amounts(entries: &[Scalar]) -> bool
    ensures { result ≡ list_all is_amount entries.now }
{
    entries.iter().all(|entry| is_amount(*entry))
}

impl Kinds {
    /// Whether all are integers, or all booleans.
    pub(crate) fn are_alike(self) -> bool
        ensures { result ≡ (self.all_integers || self.all_booleans) }
    {
        self.all_integers || self.all_booleans
    }

    /// What all of these entries have in common.
    pub(crate) fn of(entries: &[Scalar]) -> Kinds
        ensures { result ≡ kinds_of entries.now }
    {
        Kinds {
            all_integers: are_integers(entries),
            all_booleans: are_booleans(entries),
            all_constants: are_constants(entries),
            all_amounts: are_amounts(entries),
        }
    }
}
