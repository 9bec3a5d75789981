//! The entries of an array.

ghost use Rattle.std.specs.Prelude.{◌≡◌, length, map, IfOk};
ghost use Rattle.std.specs.List.{list_all};
ghost use Rattle.constraint_model.specs.Entries.{variables_in};
ghost use Rattle.constraint_model.specs.Kinds.{is_amount, is_constant, is_integer, is_boolean, kinds_of, scalars_of};

use crate::kinds::Kinds;
use crate::meanings::Scalar;
use crate::model::Term;
use list_of::ListOf;
use shared_list::SharedList;
use std::alloc::{AllocError, Global};
use std::marker::Model;

/// What is kept of the entries of an array. Their terms are a list of their own, since the constraints that name the array share
/// them; so are their variables, which search annotations share. What all have in common is kept too, so that a constraint that
/// names the array needn't go through them. Of entries that are neither all integers nor all booleans, which no
/// declared array has, the meanings are kept beside.
#[derive(Drop)]
pub(crate) struct Parts {
    terms: SharedList<Term>,
    variables: SharedList<u32>,
    kinds: Kinds,
    mixed: ListOf<Scalar>,
}

/// The entries of an array, seen by contracts as the list of their meanings. What is kept of them is in a box, so that a name
/// that denotes one variable takes no room for an array.
#[derive(Drop)]
pub struct Entries {
    parts: Box<Parts>,
}

impl Model for Entries {
    ghost use Rattle.std.specs.Prelude.{◌≡◌, List, map};
    ghost use Rattle.constraint_model.specs.declared.meanings.Scalar.{Scalar};
    ghost use Rattle.constraint_model.specs.Entries.{variables_in};
    ghost use Rattle.constraint_model.specs.Kinds.{kinds_of, scalars_of};

    ghost Value = { List Scalar };

    ghost view = { λ e. scalars_of e.parts.value.kinds e.parts.value.terms e.parts.value.mixed };

    ghost invariant = { λ e. (e.parts.value.terms ≡ map (λ s. s.term) (scalars_of e.parts.value.kinds e.parts.value.terms e.parts.value.mixed)) × (e.parts.value.variables ≡ variables_in (scalars_of e.parts.value.kinds e.parts.value.terms e.parts.value.mixed)) × (e.parts.value.kinds ≡ kinds_of (scalars_of e.parts.value.kinds e.parts.value.terms e.parts.value.mixed)) };
}

/// The terms of scalars.
fn terms_of(alloc: Global, scalars: &[Scalar]) -> Result<Vec<Term>, AllocError>
    ensures { IfOk result (λ terms. terms.items ≡ map (λ s. s.term) scalars.now) }
{
    scalars.iter().map(|scalar| scalar.term).collect(alloc)
}

/// The variables among scalars.
fn variables_of(alloc: Global, scalars: &[Scalar]) -> Result<Vec<u32>, AllocError>
    ensures { IfOk result (λ variables. variables.items ≡ variables_in scalars.now) }
{
    scalars
        .iter()
        .filter_map(|scalar| scalar.term.variable())
        .collect(alloc)
}

/// The scalars, where they aren't told by their terms alone.
#[tactic(auto, using(crate::proofs::EntryLaws::told_alike, crate::proofs::EntryLaws::told_mixed))]
fn not_told(alloc: Global, kinds: Kinds, terms: &[Term], scalars: Vec<Scalar>) -> ListOf<Scalar>
    requires kinds { kinds ≡ kinds_of scalars.items }
    requires terms { terms.now ≡ map (λ s. s.term) scalars.items }
    ensures { scalars_of kinds terms.now result ≡ scalars.items }
{
    if kinds.are_alike() {
        ListOf::new(alloc)
    } else {
        ListOf::from_vec(scalars)
    }
}

impl Entries {
    /// These entries. Errors: memory.
    pub fn new(alloc: Global, scalars: Vec<Scalar>) -> Result<Entries, AllocError>
        ensures { IfOk result (λ entries. entries ≡ scalars.items) }
    {
        let terms = SharedList::from_vec(terms_of(alloc, scalars.as_slice())?)?;
        let variables = SharedList::from_vec(variables_of(alloc, scalars.as_slice())?)?;
        let kinds = Kinds::of(scalars.as_slice());
        let mixed = not_told(alloc, kinds, terms.as_slice(), scalars);
        let parts = Parts {
            terms,
            variables,
            kinds,
            mixed,
        };
        Ok(Entries {
            parts: Box::new(alloc, parts)?,
        })
    }

    /// How many there are.
    #[tactic(auto, using(crate::proofs::EntryLaws::as_many))]
    pub fn len(&self) -> usize
        ensures { result ≡ length self.now }
    {
        self.parts.terms.len()
    }

    /// The same entries for another owner. Of a long array none is copied. Errors: memory.
    pub fn share(&self, alloc: Global) -> Result<Entries, AllocError>
        ensures { IfOk result (λ entries. entries ≡ self.now) }
    {
        let parts = Parts {
            terms: self.parts.terms.share(alloc)?,
            variables: self.parts.variables.share(alloc)?,
            kinds: self.parts.kinds,
            mixed: ListOf::from_vec(Vec::from_slice(alloc, self.parts.mixed.as_slice())?),
        };
        Ok(Entries {
            parts: Box::new(alloc, parts)?,
        })
    }

    /// Whether each is an integer.
    pub fn are_integers(&self) -> bool
        ensures { result ≡ list_all is_integer self.now }
    {
        self.parts.kinds.all_integers
    }

    /// Whether each is a boolean.
    pub fn are_booleans(&self) -> bool
        ensures { result ≡ list_all is_boolean self.now }
    {
        self.parts.kinds.all_booleans
    }

    /// Whether each is a constant.
    pub fn are_constants(&self) -> bool
        ensures { result ≡ list_all is_constant self.now }
    {
        self.parts.kinds.all_constants
    }

    /// Whether each is an integer constant that isn't negative.
    pub(crate) fn are_amounts(&self) -> bool
        ensures { result ≡ list_all is_amount self.now }
    {
        self.parts.kinds.all_amounts
    }

    /// Their terms for another owner. Of a long array none is copied. Errors: memory.
    pub fn share_terms(&self, alloc: Global) -> Result<SharedList<Term>, AllocError>
        ensures { IfOk result (λ terms. terms ≡ map (λ s. s.term) self.now) }
    {
        self.parts.terms.share(alloc)
    }

    /// Their variables for another owner, in order. Of a long array none is copied. Errors: memory.
    pub fn share_variables(&self, alloc: Global) -> Result<SharedList<u32>, AllocError>
        ensures { IfOk result (λ variables. variables ≡ variables_in self.now) }
    {
        self.parts.variables.share(alloc)
    }

    /// Their terms.
    pub fn into_terms(self) -> SharedList<Term>
        ensures { result ≡ map (λ s. s.term) self }
    {
        let Entries { parts } = self;
        let Parts {
            terms,
            variables: _,
            kinds: _,
            mixed: _,
        } = Box::into_inner(parts);
        terms
    }
}
