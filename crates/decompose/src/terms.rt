//! The kernels of products, quotients, remainders, absolute values, extremes, entries and sets.

ghost use Rattle.std.specs.Prelude.{◌≡◌, ◌++◌, [], ◌∷◌, All, OnOk};
ghost use Rattle.constraint_model.specs.Arrays.{HasNumber};
ghost use Rattle.constraint_model.specs.declared.table.ConstraintName.{ConstraintName};
ghost use Rattle.decompose.specs.Kernels.{row_of, on_three, on_one_of_row, on_entry, variable_of, variables_of};
ghost use Rattle.decompose.specs.Places.{IsDeclared, HasDeclared};
ghost use Rattle.decompose.specs.Rows.{operation_on, operation_kernel, extreme_on, extreme_kernel};

use crate::places::{ALWAYS, Places};
use constraint_model::{Operand, Term};
use guarded_tell::Kernel;
use list_of::ListOf;
use shared_list::SharedList;
use std::alloc::{AllocError, Global};

/// Which of some numbers is meant.
#[derive(Clone, Copy)]
pub(crate) enum Extreme {
    /// The greatest.
    Greatest,
    /// The least.
    Least,
}

/// What is formed of two numbers.
#[derive(Clone, Copy)]
pub(crate) enum Operation {
    /// The product.
    Product,
    /// The quotient, rounded toward zero.
    Quotient,
    /// What the division by that quotient leaves.
    Remainder,
}

/// The kernel of a variable that is formed of two others.
fn operation_on(operation: Operation, x: u32, y: u32, z: u32) -> Kernel
    ensures { result ≡ operation_on operation x y z }
{
    match operation {
        Operation::Product => Kernel::Times { x, y, z },
        Operation::Quotient => Kernel::Div { x, y, z },
        Operation::Remainder => Kernel::Mod { x, y, z },
    }
}

/// Adds the kernel of a term that is formed of two others.
pub(crate) fn operation_of_two(
    places: &Places,
    operation: Operation,
    operands: &[Operand],
    kernels: &mut ListOf<Kernel>,
) -> Result<(), AllocError>
    requires { All (HasDeclared places.now.numbering.count) operands.now }
    ensures { OnOk result (kernels.new ≡ kernels.old ++ on_three (λ x y z. operation_kernel operation places.now.numbering x y z) operands.now) }
{
    match operands {
        [Operand::One(x), Operand::One(y), Operand::One(z)] => {
            kernels.push(operation_on(
                operation,
                places.variable(*x),
                places.variable(*y),
                places.variable(*z),
            ))?;
            Ok(())
        }
        _ => Ok(()),
    }
}

/// Adds the kernel of an absolute value.
#[tactic(auto, unfolding(crate::specs::Kernels::row_of))]
pub(crate) fn absolute(
    places: &Places,
    operands: &[Operand],
    kernels: &mut ListOf<Kernel>,
) -> Result<(), AllocError>
    requires { All (HasDeclared places.now.numbering.count) operands.now }
    ensures { OnOk result (kernels.new ≡ kernels.old ++ row_of places.now.numbering ConstraintName.IntAbs operands.now) }
{
    match operands {
        [Operand::One(x), Operand::One(y)] => {
            kernels.push(Kernel::Abs {
                x: places.variable(*x),
                y: places.variable(*y),
            })?;
            Ok(())
        }
        _ => Ok(()),
    }
}

/// The kernel of a variable that is the greatest or the least of some.
fn extreme_on(extreme: Extreme, m: u32, xs: SharedList<u32>) -> Kernel
    ensures { result ≡ extreme_on extreme m xs }
{
    match extreme {
        Extreme::Greatest => Kernel::Max { m, xs },
        Extreme::Least => Kernel::Min { m, xs },
    }
}

/// Adds that a term is the greatest or the least of some.
#[tactic(auto, using(crate::proofs::KernelLaws::extreme_kernel_is))]
fn add_extreme(
    alloc: Global,
    places: &Places,
    extreme: Extreme,
    extreme_term: Term,
    terms: &[Term],
    kernels: &mut ListOf<Kernel>,
) -> Result<(), AllocError>
    requires declared_extreme { IsDeclared places.now.numbering.count extreme_term }
    requires declared { All (IsDeclared places.now.numbering.count) terms.now }
    ensures { OnOk result (kernels.new ≡ kernels.old ++ extreme_kernel extreme places.now.numbering extreme_term terms.now) }
{
    let xs = places.variables(alloc, terms)?;
    kernels.push(extreme_on(extreme, places.variable(extreme_term), xs))?;
    Ok(())
}

/// Adds the kernel of the greatest or the least of two terms.
pub(crate) fn extreme_of_two(
    alloc: Global,
    places: &Places,
    extreme: Extreme,
    operands: &[Operand],
    kernels: &mut ListOf<Kernel>,
) -> Result<(), AllocError>
    requires { All (HasDeclared places.now.numbering.count) operands.now }
    ensures { OnOk result (kernels.new ≡ kernels.old ++ on_three (λ x y m. extreme_kernel extreme places.now.numbering m (x ∷ y ∷ [])) operands.now) }
{
    match operands {
        [Operand::One(x), Operand::One(y), Operand::One(m)] => {
            add_extreme(alloc, places, extreme, *m, &[*x, *y], kernels)
        }
        _ => Ok(()),
    }
}

/// Adds the kernel of the greatest or the least of an array.
#[tactic(auto, using(crate::proofs::KernelLaws::extreme_kernel_is))]
pub(crate) fn extreme_of_row(
    alloc: Global,
    places: &Places,
    extreme: Extreme,
    operands: &[Operand],
    kernels: &mut ListOf<Kernel>,
) -> Result<(), AllocError>
    requires declared { All (HasDeclared places.now.numbering.count) operands.now }
    requires numbered { All (HasNumber places.now.arrays) operands.now }
    ensures { OnOk result (kernels.new ≡ kernels.old ++ on_one_of_row (λ m xs. extreme_kernel extreme places.now.numbering m xs) operands.now) }
{
    match operands {
        [Operand::One(m), Operand::Row(terms)] => {
            let xs = places.variables_of_row(alloc, terms)?;
            kernels.push(extreme_on(extreme, places.variable(*m), xs))?;
            Ok(())
        }
        _ => Ok(()),
    }
}

/// Adds the kernel of the entry at a place of an array.
pub(crate) fn element(
    alloc: Global,
    places: &Places,
    operands: &[Operand],
    kernels: &mut ListOf<Kernel>,
) -> Result<(), AllocError>
    requires declared { All (HasDeclared places.now.numbering.count) operands.now }
    requires numbered { All (HasNumber places.now.arrays) operands.now }
    ensures { OnOk result (kernels.new ≡ kernels.old ++ on_entry (λ x xs c. Kernel.Element (variable_of places.now.numbering x) (variables_of places.now.numbering xs) (variable_of places.now.numbering c) ∷ []) operands.now) }
{
    match operands {
        [
            Operand::One(place),
            Operand::Row(entries),
            Operand::One(entry),
        ] => {
            let entries = places.variables_of_row(alloc, entries)?;
            kernels.push(Kernel::Element {
                x: places.variable(*place),
                entries,
                c: places.variable(*entry),
            })?;
            Ok(())
        }
        _ => Ok(()),
    }
}

/// Adds the kernel of a term that is in a set.
#[tactic(auto, unfolding(crate::specs::Kernels::row_of))]
pub(crate) fn member(
    alloc: Global,
    places: &Places,
    operands: &[Operand],
    kernels: &mut ListOf<Kernel>,
) -> Result<(), AllocError>
    requires { All (HasDeclared places.now.numbering.count) operands.now }
    ensures { OnOk result (kernels.new ≡ kernels.old ++ row_of places.now.numbering ConstraintName.SetIn operands.now) }
{
    match operands {
        [Operand::One(x), Operand::Set(ranges)] => {
            kernels.push(Kernel::InSet {
                lit: ALWAYS,
                x: places.variable(*x),
                ranges: ranges.share(alloc)?,
            })?;
            Ok(())
        }
        _ => Ok(()),
    }
}

/// Adds the kernel of a boolean that is true exactly where a term is in a set.
#[tactic(auto, unfolding(crate::specs::Kernels::row_of))]
pub(crate) fn member_reified(
    alloc: Global,
    places: &Places,
    operands: &[Operand],
    kernels: &mut ListOf<Kernel>,
) -> Result<(), AllocError>
    requires { All (HasDeclared places.now.numbering.count) operands.now }
    ensures { OnOk result (kernels.new ≡ kernels.old ++ row_of places.now.numbering ConstraintName.SetInReif operands.now) }
{
    match operands {
        [Operand::One(x), Operand::Set(ranges), Operand::One(r)] => {
            kernels.push(Kernel::InSet {
                lit: places.literal(true, *r),
                x: places.variable(*x),
                ranges: ranges.share(alloc)?,
            })?;
            Ok(())
        }
        _ => Ok(()),
    }
}
