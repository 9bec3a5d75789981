//! The objects that seats step on, each with the test of what is posted there.

ghost use Rattle.std.specs.Prelude.{◌<◌};

use crate::table::{Law, Table};
use std::marker::PhantomData;

/// The test of a cost, for contracts alone: that it is the cost of a solution of the one model.
pub trait Costs {
    ghost use Rattle.std.specs.Prelude.{ℤ};

    ghost is_cost: { ℤ → Type 0 };
}

/// The same test of a cost's word.
pub struct CostLaw<C> {
    costs: PhantomData<C>,
}

impl<C: Costs> Law for CostLaw<C> {
    ghost use Rattle.best_bound.specs.Codes.{cost_of};

    ghost passes = { λ word. C.is_cost (cost_of word) };
}

/// The least cost that any of its seats has posted.
#[derive(Drop)]
pub struct Best<C: Costs> {
    pub(crate) table: Table<CostLaw<C>>,
    ghost words: { 0 < table.shared.table_id.words },
}

/// The test of a number, for contracts alone: that the subproblem of this number in the one list has a solution.
pub trait Numbers {
    ghost use Rattle.std.specs.Prelude.{ℕ};

    ghost has_solution: { ℕ → Type 0 };
}

/// The same test of a number's word.
pub struct NumberLaw<N> {
    numbers: PhantomData<N>,
}

impl<N: Numbers> Law for NumberLaw<N> {
    ghost use Rattle.best_bound.specs.Codes.{IsNumberWord};

    ghost passes = { IsNumberWord N.has_solution };
}

/// The least number that any of its seats has posted.
#[derive(Drop)]
pub struct Found<N: Numbers> {
    pub(crate) table: Table<NumberLaw<N>>,
    ghost words: { 0 < table.shared.table_id.words },
}
