//! Kernels.

ghost use Rattle.std.specs.Prelude.{◌≡◌, ◌<◌, length, slice_index};

use crate::Lit;
use clause_tells::{Literals, clause_var, clause_var_count};
use shared_list::SharedList;
use sum_tells::Extended;

/// A relation over a box's variables that is run as a propagator.
#[derive(Drop)]
pub enum Kernel {
    /// The literal is true exactly where the sum of the coefficients times the variables is at most the limit.
    Le {
        /// The literal.
        lit: Lit,
        /// One coefficient for each variable of `vars`.
        coeffs: SharedList<i64>,
        /// The variables of the sum.
        vars: SharedList<u32>,
        /// The limit.
        limit: i64,
    },
    /// The literal is true exactly where the sum of the coefficients times the variables is the limit.
    Eq {
        /// The literal.
        lit: Lit,
        /// One coefficient for each variable of `vars`.
        coeffs: Extended<i64>,
        /// The variables of the sum.
        vars: Extended<u32>,
        /// The limit.
        limit: i64,
    },
    /// `z` is the product of `x` and `y`.
    Times {
        /// The first factor.
        x: u32,
        /// The second factor.
        y: u32,
        /// The product.
        z: u32,
    },
    /// `z` is `x` divided by `y`, which isn't 0, rounded toward zero.
    Div {
        /// The dividend.
        x: u32,
        /// The divisor.
        y: u32,
        /// The quotient.
        z: u32,
    },
    /// `z` is what the division of `x` by `y` leaves, where `y` isn't 0 and the quotient is rounded toward zero.
    Mod {
        /// The dividend.
        x: u32,
        /// The divisor.
        y: u32,
        /// The remainder.
        z: u32,
    },
    /// `y` is the absolute value of `x`.
    Abs {
        /// The variable whose absolute value it is.
        x: u32,
        /// The variable of the absolute value.
        y: u32,
    },
    /// A variable is the greatest of some others.
    Max {
        /// The greatest.
        m: u32,
        /// The others.
        xs: SharedList<u32>,
    },
    /// A variable is the least of some others.
    Min {
        /// The least.
        m: u32,
        /// The others.
        xs: SharedList<u32>,
    },
    /// Some literal is true.
    Clause {
        /// The literals.
        lits: Literals,
    },
    /// A variable is a place of a list, counted from 1, and the variable at that place equals another.
    Element {
        /// The variable that is the place.
        x: u32,
        /// The list.
        entries: SharedList<u32>,
        /// The variable that equals the one at the place.
        c: u32,
    },
    /// The literal is true exactly where the variable is in the set of these ranges.
    InSet {
        /// The literal.
        lit: Lit,
        /// The variable.
        x: u32,
        /// The ranges of the set, in order, none of which touch or overlap, each by its first and its last number.
        ranges: SharedList<(i64, i64)>,
    },
    /// No two places of a list have the same number.
    AllDiff {
        /// The list.
        xs: SharedList<u32>,
    },
    /// At every whole time the tasks that are under way then use at most the limit.
    Cumulative {
        /// The variables of the tasks' starts.
        starts: SharedList<u32>,
        /// One duration for each task.
        durations: SharedList<i64>,
        /// One usage for each task.
        usages: SharedList<i64>,
        /// The limit.
        limit: i64,
    },
}

impl Kernel {
    ghost use Rattle.guarded_tell.specs.Kernels.{vars_of, HasNumbers};

    /// How many variables it names, with repeats.
    #[tactic(auto, unfolding(crate::specs::Kernels::vars_of, crate::specs::Kernels::HasNumbers, sum_tells::specs::Linear::term_limit, extreme_tells::specs::Extremes::member_limit))]
    pub fn var_count(&self) -> usize
        requires { HasNumbers self.now }
        ensures { result ≡ length (vars_of self.now) }
    {
        match self {
            Kernel::Le { vars, .. } => vars.len() + 1,
            Kernel::Eq { vars, .. } => vars.len() + 1,
            Kernel::Times { .. } | Kernel::Div { .. } | Kernel::Mod { .. } => 3,
            Kernel::Abs { .. } => 2,
            Kernel::Max { xs, .. } | Kernel::Min { xs, .. } => xs.len() + 1,
            Kernel::Clause { lits } => clause_var_count(lits),
            Kernel::Element { entries, .. } => entries.len() + 2,
            Kernel::InSet { .. } => 2,
            Kernel::AllDiff { xs } => xs.len(),
            Kernel::Cumulative { starts, .. } => starts.len(),
        }
    }

    /// The variable that it names at this place.
    #[tactic(auto, unfolding(crate::specs::Kernels::vars_of))]
    pub fn var_at(&self, place: usize) -> u32
        requires { place < length (vars_of self.now) }
        ensures { result ≡ slice_index (vars_of self.now) place }
    {
        match self {
            Kernel::Le { lit, vars, .. } => {
                if place == 0 {
                    lit.var
                } else {
                    vars.as_slice()[place - 1]
                }
            }
            Kernel::Eq { lit, vars, .. } => {
                if place == 0 {
                    lit.var
                } else {
                    vars.at(place - 1)
                }
            }
            Kernel::Times { x, y, z } | Kernel::Div { x, y, z } | Kernel::Mod { x, y, z } =>
                match place {
                    0 => *x,
                    1 => *y,
                    _ => *z,
                },
            Kernel::Abs { x, y } => { if place == 0 { *x } else { *y } }
            Kernel::Max { m, xs } | Kernel::Min { m, xs } => {
                if place == 0 {
                    *m
                } else {
                    xs.as_slice()[place - 1]
                }
            }
            Kernel::Clause { lits } => clause_var(lits, place),
            Kernel::Element { x, entries, c } => {
                if place == 0 {
                    *x
                } else if place == 1 {
                    *c
                } else {
                    entries.as_slice()[place - 2]
                }
            }
            Kernel::InSet { lit, x, .. } => { if place == 0 { lit.var } else { *x } }
            Kernel::AllDiff { xs } => xs.as_slice()[place],
            Kernel::Cumulative { starts, .. } => starts.as_slice()[place],
        }
    }
}
