//! The kernels of conjunctions, disjunctions and clauses.

ghost use Rattle.std.specs.Prelude.{◌≡◌, ◌++◌, [], ◌∷◌, map, not, All, IfOk, OnOk};
ghost use Rattle.constraint_model.specs.Arrays.{IsNumbered, HasNumber};
ghost use Rattle.constraint_model.specs.declared.table.ConstraintName.{ConstraintName};
ghost use Rattle.decompose.specs.Kernels.{negated, literal_of, some_of, row_of, on_three, on_row, clause_literals};
ghost use Rattle.decompose.specs.Places.{IsDeclared, HasDeclared};
ghost use Rattle.decompose.specs.Rows.{literal_at, joined};

use crate::places::Places;
use constraint_model::{ArrayTerms, Operand, Term};
use guarded_tell::{Kernel, Lit, Literals};
use list_of::ListOf;
use shared_list::SharedList;
use std::alloc::{AllocError, Global};

/// The literal that is true exactly where this one isn't.
fn negated(lit: Lit) -> Lit
    ensures { result ≡ negated lit }
{
    Lit {
        var: lit.var,
        positive: !lit.positive,
    }
}

/// The clause of two literals.
fn clause_of_two(alloc: Global, first: Lit, second: Lit) -> Result<Kernel, AllocError>
    ensures { IfOk result (λ k. k ≡ Kernel.Clause (first ∷ second ∷ [])) }
{
    let lits = SharedList::from_vec(Vec::from_slice(alloc, &[first, second])?)?;
    Ok(Kernel::Clause {
        lits: Literals::from_list(lits),
    })
}

/// For each of these booleans, adds that where it is true, or isn't, the literal is true.
fn add_implications(
    alloc: Global,
    places: &Places,
    lit: Lit,
    positive: bool,
    booleans: &[Term],
    kernels: &mut ListOf<Kernel>,
) -> Result<(), AllocError>
    requires { All (IsDeclared places.now.numbering.count) booleans.now }
    ensures { OnOk result (kernels.new ≡ kernels.old ++ map (λ t. Kernel.Clause (lit ∷ negated (literal_at places.now.numbering positive t) ∷ [])) booleans.now) }
{
    for boolean in booleans {
        let premise = places.literal(positive, *boolean);
        kernels.push(clause_of_two(alloc, lit, negated(premise))?)?;
    }
    Ok(())
}

/// Adds that the literal of r is true exactly where one of those of these booleans is: each of them implies it, and it
/// implies that one of them is true.
fn add_joined(
    alloc: Global,
    places: &Places,
    positive: bool,
    booleans: &[Term],
    r: Term,
    kernels: &mut ListOf<Kernel>,
) -> Result<(), AllocError>
    requires declared { All (IsDeclared places.now.numbering.count) booleans.now }
    requires declared_r { IsDeclared places.now.numbering.count r }
    ensures { OnOk result (kernels.new ≡ kernels.old ++ joined places.now.numbering positive booleans.now r) }
{
    let lit = places.literal(positive, r);
    add_implications(alloc, places, lit, positive, booleans, kernels)?;
    let mut literals = Vec::with_capacity(alloc, booleans.len() + 1)?;
    literals.push(negated(lit))?;
    places.add_literals(positive, booleans, &mut literals)?;
    let lits = SharedList::from_vec(literals)?;
    kernels.push(Kernel::Clause {
        lits: Literals::from_list(lits),
    })?;
    Ok(())
}

/// Adds the kernels of a boolean that is true exactly where one of two others is, or that isn't exactly where one of them
/// isn't.
pub(crate) fn joined_two(
    alloc: Global,
    places: &Places,
    positive: bool,
    operands: &[Operand],
    kernels: &mut ListOf<Kernel>,
) -> Result<(), AllocError>
    requires { All (HasDeclared places.now.numbering.count) operands.now }
    ensures { OnOk result (kernels.new ≡ kernels.old ++ on_three (λ x y r. joined places.now.numbering positive (x ∷ y ∷ []) r) operands.now) }
{
    match operands {
        [Operand::One(x), Operand::One(y), Operand::One(r)] => {
            add_joined(alloc, places, positive, &[*x, *y], *r, kernels)
        }
        _ => Ok(()),
    }
}

/// Adds such kernels, of the booleans of an array.
pub(crate) fn joined_row(
    alloc: Global,
    places: &Places,
    positive: bool,
    operands: &[Operand],
    kernels: &mut ListOf<Kernel>,
) -> Result<(), AllocError>
    requires { All (HasDeclared places.now.numbering.count) operands.now }
    ensures { OnOk result (kernels.new ≡ kernels.old ++ on_row (λ xs r. joined places.now.numbering positive xs r) operands.now) }
{
    match operands {
        [Operand::Row(row), Operand::One(r)] => {
            add_joined(alloc, places, positive, row.terms.as_slice(), *r, kernels)
        }
        _ => Ok(()),
    }
}

/// Adds the literals of a clause: one of the first is true or one of the second isn't.
fn add_clause_literals(
    places: &Places,
    positives: &[Term],
    negatives: &[Term],
    literals: &mut Vec<Lit>,
) -> Result<(), AllocError>
    requires declared_positives { All (IsDeclared places.now.numbering.count) positives.now }
    requires declared_negatives { All (IsDeclared places.now.numbering.count) negatives.now }
    ensures { OnOk result (literals.new.items ≡ literals.old.items ++ clause_literals places.now.numbering positives.now negatives.now) }
{
    places.add_literals(true, positives, literals)?;
    places.add_literals(false, negatives, literals)
}

/// The literals of a clause by the variables of its arrays, which those who name the same long array share.
#[tactic(auto, using(crate::proofs::ClauseLaws::literals_of_variables))]
fn shared_literals(
    alloc: Global,
    places: &Places,
    positives: &ArrayTerms,
    negatives: &ArrayTerms,
) -> Result<Literals, AllocError>
    requires declared_positives { All (IsDeclared places.now.numbering.count) positives.now.terms }
    requires declared_negatives { All (IsDeclared places.now.numbering.count) negatives.now.terms }
    requires numbered_positives { IsNumbered places.now.arrays positives.now }
    requires numbered_negatives { IsNumbered places.now.arrays negatives.now }
    ensures { IfOk result (λ literals. literals ≡ clause_literals places.now.numbering positives.now.terms negatives.now.terms) }
{
    Ok(Literals::by_sign(
        places.variables_of_row(alloc, positives)?,
        places.variables_of_row(alloc, negatives)?,
    ))
}

/// The literals of a clause, in a list of their own.
fn own_literals(
    alloc: Global,
    places: &Places,
    positives: &[Term],
    negatives: &[Term],
) -> Result<Literals, AllocError>
    requires declared_positives { All (IsDeclared places.now.numbering.count) positives.now }
    requires declared_negatives { All (IsDeclared places.now.numbering.count) negatives.now }
    ensures { IfOk result (λ literals. literals ≡ clause_literals places.now.numbering positives.now negatives.now) }
{
    let mut literals = Vec::with_capacity(alloc, positives.len() + negatives.len())?;
    add_clause_literals(places, positives, negatives, &mut literals)?;
    Ok(Literals::from_list(SharedList::from_vec(literals)?))
}

/// The literals of a clause. Those of arrays whose lists no other constraint shares are put into one list: so they are read
/// faster.
fn literals_of_clause(
    alloc: Global,
    places: &Places,
    positives: &ArrayTerms,
    negatives: &ArrayTerms,
) -> Result<Literals, AllocError>
    requires declared_positives { All (IsDeclared places.now.numbering.count) positives.now.terms }
    requires declared_negatives { All (IsDeclared places.now.numbering.count) negatives.now.terms }
    requires numbered_positives { IsNumbered places.now.arrays positives.now }
    requires numbered_negatives { IsNumbered places.now.arrays negatives.now }
    ensures { IfOk result (λ literals. literals ≡ clause_literals places.now.numbering positives.now.terms negatives.now.terms) }
{
    if places.has_lists(positives) || places.has_lists(negatives) {
        shared_literals(alloc, places, positives, negatives)
    } else {
        own_literals(
            alloc,
            places,
            positives.terms.as_slice(),
            negatives.terms.as_slice(),
        )
    }
}

/// Adds a clause.
fn add_clause(
    alloc: Global,
    places: &Places,
    positives: &ArrayTerms,
    negatives: &ArrayTerms,
    kernels: &mut ListOf<Kernel>,
) -> Result<(), AllocError>
    requires declared_positives { All (IsDeclared places.now.numbering.count) positives.now.terms }
    requires declared_negatives { All (IsDeclared places.now.numbering.count) negatives.now.terms }
    requires numbered_positives { IsNumbered places.now.arrays positives.now }
    requires numbered_negatives { IsNumbered places.now.arrays negatives.now }
    ensures { OnOk result (kernels.new ≡ kernels.old ++ Kernel.Clause (clause_literals places.now.numbering positives.now.terms negatives.now.terms) ∷ []) }
{
    let lits = literals_of_clause(alloc, places, positives, negatives)?;
    kernels.push(Kernel::Clause { lits })?;
    Ok(())
}

/// Adds the kernel of a clause.
#[tactic(auto, unfolding(crate::specs::Kernels::row_of))]
pub(crate) fn clause(
    alloc: Global,
    places: &Places,
    operands: &[Operand],
    kernels: &mut ListOf<Kernel>,
) -> Result<(), AllocError>
    requires declared { All (HasDeclared places.now.numbering.count) operands.now }
    requires numbered { All (HasNumber places.now.arrays) operands.now }
    ensures { OnOk result (kernels.new ≡ kernels.old ++ row_of places.now.numbering ConstraintName.BoolClause operands.now) }
{
    match operands {
        [Operand::Row(positives), Operand::Row(negatives)] => {
            add_clause(alloc, places, positives, negatives, kernels)
        }
        _ => Ok(()),
    }
}

/// Adds that r is true exactly where a clause holds.
fn add_clause_reified(
    alloc: Global,
    places: &Places,
    positives: &[Term],
    negatives: &[Term],
    r: Term,
    kernels: &mut ListOf<Kernel>,
) -> Result<(), AllocError>
    requires declared_positives { All (IsDeclared places.now.numbering.count) positives.now }
    requires declared_negatives { All (IsDeclared places.now.numbering.count) negatives.now }
    requires declared_r { IsDeclared places.now.numbering.count r }
    ensures { OnOk result (kernels.new ≡ kernels.old ++ some_of (literal_of places.now.numbering r) (clause_literals places.now.numbering positives.now negatives.now)) }
{
    let lit = places.literal(true, r);
    add_implications(alloc, places, lit, true, positives, kernels)?;
    add_implications(alloc, places, lit, false, negatives, kernels)?;
    let mut literals = Vec::with_capacity(alloc, positives.len() + negatives.len() + 1)?;
    literals.push(negated(lit))?;
    add_clause_literals(places, positives, negatives, &mut literals)?;
    let lits = SharedList::from_vec(literals)?;
    kernels.push(Kernel::Clause {
        lits: Literals::from_list(lits),
    })?;
    Ok(())
}

/// Adds the kernels of a boolean that is true exactly where a clause holds.
#[tactic(auto, unfolding(crate::specs::Kernels::row_of))]
pub(crate) fn clause_reified(
    alloc: Global,
    places: &Places,
    operands: &[Operand],
    kernels: &mut ListOf<Kernel>,
) -> Result<(), AllocError>
    requires { All (HasDeclared places.now.numbering.count) operands.now }
    ensures { OnOk result (kernels.new ≡ kernels.old ++ row_of places.now.numbering ConstraintName.BoolClauseReif operands.now) }
{
    match operands {
        [
            Operand::Row(positives),
            Operand::Row(negatives),
            Operand::One(r),
        ] => {
            add_clause_reified(
                alloc,
                places,
                positives.terms.as_slice(),
                negatives.terms.as_slice(),
                *r,
                kernels,
            )
        }
        _ => Ok(()),
    }
}
