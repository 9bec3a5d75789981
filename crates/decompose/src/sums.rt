//! The kernels of sums.

ghost use Rattle.std.specs.Prelude.{◌≡◌, ◌++◌, All, OnOk};
ghost use Rattle.constraint_model.specs.Arrays.{IsNumbered, HasNumber};
ghost use Rattle.constraint_model.specs.declared.table.ConstraintName.{ConstraintName};
ghost use Rattle.decompose.specs.Kernels.{on_sum, on_reified_sum, row_of};
ghost use Rattle.decompose.specs.Places.{IsDeclared, HasDeclared};
ghost use Rattle.decompose.specs.Rows.{literal_at, sum_kernel, linear_kernel};

use crate::coefficients::number;
use crate::places::{ALWAYS, Places};
use constraint_model::{ArrayTerms, Operand, Term};
use guarded_tell::{Extended, Kernel, Lit};
use list_of::ListOf;
use shared_list::SharedList;
use std::alloc::{AllocError, Global};

/// What is said of a sum and a limit.
#[derive(Clone, Copy)]
pub(crate) enum Relation {
    /// The sum is at most the limit.
    AtMost,
    /// The sum is the limit.
    Equal,
}

/// What is said of some terms: how their sum, each times its coefficient, compares with the limit.
#[derive(Drop)]
pub(crate) struct LinearComparison {
    /// The relation of the sum to the limit.
    pub relation: Relation,
    /// The coefficients of the terms.
    pub coeffs: SharedList<i64>,
    /// The limit.
    pub limit: i64,
}

impl LinearComparison {
    /// Its kernel, of these variables and of a literal that is true exactly where it holds.
    fn to_kernel(self, lit: Lit, vars: SharedList<u32>) -> Kernel
        ensures { result ≡ linear_kernel self.relation lit self.coeffs vars self.limit }
    {
        let LinearComparison {
            relation,
            coeffs,
            limit,
        } = self;
        match relation {
            Relation::AtMost => Kernel::Le {
                lit,
                coeffs,
                vars,
                limit,
            },
            Relation::Equal => Kernel::Eq {
                lit,
                coeffs: Extended::from_list(coeffs),
                vars: Extended::from_list(vars),
                limit,
            },
        }
    }
}

/// Adds the kernel of a comparison of terms that holds exactly where a literal is true.
#[tactic(auto, using(crate::proofs::KernelLaws::sum_kernel_is))]
pub(crate) fn add_sum(
    alloc: Global,
    places: &Places,
    lit: Lit,
    comparison: LinearComparison,
    terms: &[Term],
    kernels: &mut ListOf<Kernel>,
) -> Result<(), AllocError>
    requires { All (IsDeclared places.now.numbering.count) terms.now }
    ensures { OnOk result (kernels.new ≡ kernels.old ++ sum_kernel comparison.relation places.now.numbering lit comparison.coeffs terms.now comparison.limit) }
{
    let vars = places.variables(alloc, terms)?;
    kernels.push(comparison.to_kernel(lit, vars))?;
    Ok(())
}

/// Adds such a kernel, of the terms of an array.
#[tactic(auto, using(crate::proofs::KernelLaws::sum_kernel_is))]
fn add_sum_of_row(
    alloc: Global,
    places: &Places,
    lit: Lit,
    comparison: LinearComparison,
    row: &ArrayTerms,
    kernels: &mut ListOf<Kernel>,
) -> Result<(), AllocError>
    requires declared { All (IsDeclared places.now.numbering.count) row.now.terms }
    requires numbered { IsNumbered places.now.arrays row.now }
    ensures { OnOk result (kernels.new ≡ kernels.old ++ sum_kernel comparison.relation places.now.numbering lit comparison.coeffs row.now.terms comparison.limit) }
{
    let vars = places.variables_of_row(alloc, row)?;
    kernels.push(comparison.to_kernel(lit, vars))?;
    Ok(())
}

/// Adds the kernel of a sum that must compare so with a limit, or must not.
pub(crate) fn sum(
    alloc: Global,
    places: &Places,
    relation: Relation,
    lit: Lit,
    operands: &[Operand],
    kernels: &mut ListOf<Kernel>,
) -> Result<(), AllocError>
    requires declared { All (HasDeclared places.now.numbering.count) operands.now }
    requires numbered { All (HasNumber places.now.arrays) operands.now }
    ensures { OnOk result (kernels.new ≡ kernels.old ++ on_sum (λ cs xs c. sum_kernel relation places.now.numbering lit cs xs c) operands.now) }
{
    match operands {
        [
            Operand::Row(coefficients),
            Operand::Row(terms),
            Operand::One(limit),
        ] => {
            let comparison = LinearComparison {
                relation,
                coeffs: places.numbers_of_row(alloc, coefficients)?,
                limit: number(*limit),
            };
            add_sum_of_row(alloc, places, lit, comparison, terms, kernels)
        }
        _ => Ok(()),
    }
}

/// Adds the kernel of a sum that compares so with a limit exactly where a boolean is true, or isn't.
pub(crate) fn sum_reified(
    alloc: Global,
    places: &Places,
    relation: Relation,
    positive: bool,
    operands: &[Operand],
    kernels: &mut ListOf<Kernel>,
) -> Result<(), AllocError>
    requires declared { All (HasDeclared places.now.numbering.count) operands.now }
    requires numbered { All (HasNumber places.now.arrays) operands.now }
    ensures { OnOk result (kernels.new ≡ kernels.old ++ on_reified_sum (λ cs xs c r. sum_kernel relation places.now.numbering (literal_at places.now.numbering positive r) cs xs c) operands.now) }
{
    match operands {
        [
            Operand::Row(coefficients),
            Operand::Row(terms),
            Operand::One(limit),
            Operand::One(r),
        ] => {
            let lit = places.literal(positive, *r);
            let comparison = LinearComparison {
                relation,
                coeffs: places.numbers_of_row(alloc, coefficients)?,
                limit: number(*limit),
            };
            add_sum_of_row(alloc, places, lit, comparison, terms, kernels)
        }
        _ => Ok(()),
    }
}

/// Adds the kernel of x + y - z = 0.
#[tactic(auto, unfolding(crate::specs::Kernels::row_of))]
pub(crate) fn plus(
    alloc: Global,
    places: &Places,
    operands: &[Operand],
    kernels: &mut ListOf<Kernel>,
) -> Result<(), AllocError>
    requires { All (HasDeclared places.now.numbering.count) operands.now }
    ensures { OnOk result (kernels.new ≡ kernels.old ++ row_of places.now.numbering ConstraintName.IntPlus operands.now) }
{
    match operands {
        [Operand::One(x), Operand::One(y), Operand::One(z)] => {
            let comparison = LinearComparison {
                relation: Relation::Equal,
                coeffs: SharedList::from_vec(Vec::from_slice(alloc, &[1, 1, -1])?)?,
                limit: 0,
            };
            add_sum(alloc, places, ALWAYS, comparison, &[*x, *y, *z], kernels)
        }
        _ => Ok(()),
    }
}

/// Adds the kernel of a sum that equals a term: the sum less the term is 0.
#[tactic(auto, unfolding(crate::specs::Kernels::row_of))]
pub(crate) fn sum_equal(
    alloc: Global,
    places: &Places,
    operands: &[Operand],
    kernels: &mut ListOf<Kernel>,
) -> Result<(), AllocError>
    requires declared { All (HasDeclared places.now.numbering.count) operands.now }
    requires numbered { All (HasNumber places.now.arrays) operands.now }
    ensures { OnOk result (kernels.new ≡ kernels.old ++ row_of places.now.numbering ConstraintName.BoolLinEq operands.now) }
{
    match operands {
        [
            Operand::Row(coefficients),
            Operand::Row(terms),
            Operand::One(total),
        ] => {
            let coeffs = places.numbers_of_row(alloc, coefficients)?;
            let vars = places.variables_of_row(alloc, terms)?;
            kernels.push(Kernel::Eq {
                lit: ALWAYS,
                coeffs: Extended::with_last(coeffs, -1),
                vars: Extended::with_last(vars, places.variable(*total)),
                limit: 0,
            })?;
            Ok(())
        }
        _ => Ok(()),
    }
}
