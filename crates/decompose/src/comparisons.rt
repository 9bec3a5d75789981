//! The kernels of comparisons of two terms.

ghost use Rattle.std.specs.Prelude.{◌≡◌, ◌++◌, [], ◌∷◌, pos, All, IfOk, OnOk};
ghost use Rattle.constraint_model.specs.declared.table.ConstraintName.{ConstraintName};
ghost use Rattle.decompose.specs.Kernels.{on_two, on_three, row_of};
ghost use Rattle.decompose.specs.Places.{HasDeclared};
ghost use Rattle.decompose.specs.Rows.{literal_at, compared};

use crate::places::{ALWAYS, Places};
use crate::sums::{LinearComparison, Relation, add_sum};
use constraint_model::Operand;
use guarded_tell::{Kernel, Lit};
use list_of::ListOf;
use shared_list::SharedList;
use std::alloc::{AllocError, Global};

/// What is said of two terms x and y: how x + sign * y compares with the limit.
#[derive(Clone, Copy)]
pub(crate) struct Comparison {
    /// The relation of the sum to the limit.
    pub relation: Relation,
    /// The coefficient of y.
    pub sign: i64,
    /// The limit.
    pub limit: i64,
}

/// x = y.
pub(crate) const EQUAL: Comparison = Comparison {
    relation: Relation::Equal,
    sign: -1,
    limit: 0,
};

/// x <= y.
pub(crate) const AT_MOST: Comparison = Comparison {
    relation: Relation::AtMost,
    sign: -1,
    limit: 0,
};

/// x < y.
pub(crate) const LESS: Comparison = Comparison {
    relation: Relation::AtMost,
    sign: -1,
    limit: -1,
};

/// x + y = 1.
pub(crate) const OPPOSITE: Comparison = Comparison {
    relation: Relation::Equal,
    sign: 1,
    limit: 1,
};

impl Comparison {
    /// The same, said of a list of two terms.
    fn to_linear(self, alloc: Global) -> Result<LinearComparison, AllocError>
        ensures { IfOk result (λ made. made ≡ record { relation = self.relation; coeffs = pos 1 ∷ self.sign ∷ []; limit = self.limit }) }
    {
        Ok(LinearComparison {
            relation: self.relation,
            coeffs: SharedList::from_vec(Vec::from_slice(alloc, &[1, self.sign])?)?,
            limit: self.limit,
        })
    }
}

/// Adds the kernel of a comparison of two terms that must hold, or not.
pub(crate) fn compare(
    alloc: Global,
    places: &Places,
    comparison: Comparison,
    lit: Lit,
    operands: &[Operand],
    kernels: &mut ListOf<Kernel>,
) -> Result<(), AllocError>
    requires { All (HasDeclared places.now.numbering.count) operands.now }
    ensures { OnOk result (kernels.new ≡ kernels.old ++ on_two (λ x y. compared comparison places.now.numbering lit x y) operands.now) }
{
    match operands {
        [Operand::One(x), Operand::One(y)] => {
            let comparison = comparison.to_linear(alloc)?;
            add_sum(alloc, places, lit, comparison, &[*x, *y], kernels)
        }
        _ => Ok(()),
    }
}

/// Adds the kernel of a comparison of two terms that holds exactly where a boolean is true, or isn't.
pub(crate) fn compare_reified(
    alloc: Global,
    places: &Places,
    comparison: Comparison,
    positive: bool,
    operands: &[Operand],
    kernels: &mut ListOf<Kernel>,
) -> Result<(), AllocError>
    requires { All (HasDeclared places.now.numbering.count) operands.now }
    ensures { OnOk result (kernels.new ≡ kernels.old ++ on_three (λ x y r. compared comparison places.now.numbering (literal_at places.now.numbering positive r) x y) operands.now) }
{
    match operands {
        [Operand::One(x), Operand::One(y), Operand::One(r)] => {
            let lit = places.literal(positive, *r);
            let comparison = comparison.to_linear(alloc)?;
            add_sum(alloc, places, lit, comparison, &[*x, *y], kernels)
        }
        _ => Ok(()),
    }
}

/// Adds the kernel of two booleans that differ, or of a third that is true exactly where they do.
#[tactic(auto, unfolding(crate::specs::Kernels::row_of))]
pub(crate) fn exclusive_or(
    alloc: Global,
    places: &Places,
    operands: &[Operand],
    kernels: &mut ListOf<Kernel>,
) -> Result<(), AllocError>
    requires { All (HasDeclared places.now.numbering.count) operands.now }
    ensures { OnOk result (kernels.new ≡ kernels.old ++ row_of places.now.numbering ConstraintName.BoolXor operands.now) }
{
    match operands {
        [_, _] => compare(alloc, places, OPPOSITE, ALWAYS, operands, kernels),
        _ => compare_reified(alloc, places, EQUAL, false, operands, kernels),
    }
}
