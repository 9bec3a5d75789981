//! What a visit of a kernel looks at first: a record of its own, side by side with those of the other kernels.

ghost use Rattle.std.specs.Prelude.{◌≡◌, ◌<◌, ◌≤ℤ◌, ℕ, pos, [], ◌∷◌, cond, length, MatchOption};
ghost use Rattle.interval.specs.Boxes.{low_of, high_of};
ghost use Rattle.sum_tells.specs.Linear.{IsLinear};
ghost use Rattle.guarded_tell.specs.Kernels.{HasNumbers};
ghost use Rattle.tells.specs.declared.tell.Lit.{Lit as Literal};
ghost use Rattle.small_sums.specs.Slight.{AreSlight};
ghost use Rattle.kernel_visits.specs.Shapes.{IsShapeOf, IsDifference, IsDifferenceIn, unit_of, units_of, places_of};

use clause_tells::Literals;
use guarded_tell::{Kernel, Lit};
use interval::BoxOf;
use small_sums::{Pair, are_slight, are_slight_extended, opposite, plain};
use sum_tells::Extended;

/// Whether a term is its variable or the opposite.
#[derive(Clone, Copy, PartialEq, Eq, Debug)]
pub enum Sign {
    /// The variable.
    Plus,
    /// Its opposite.
    Minus,
}

/// The three terms of a sum, in order, each a variable or its opposite.
#[derive(Clone, Copy, PartialEq, Eq, Debug)]
pub struct Terms {
    /// The variable of the first term.
    pub x: u32,
    /// The variable of the second term.
    pub y: u32,
    /// The variable of the third term.
    pub z: u32,
    /// The sign of the first term.
    pub x_sign: Sign,
    /// The sign of the second term.
    pub y_sign: Sign,
    /// The sign of the third term.
    pub z_sign: Sign,
}

/// What a visit needs to know of a kernel, without its lists: the variables or the literals of a difference, an equation of three
/// terms, a short clause, a product or the greater of two; that it is a sum with slight coefficients; or nothing.
#[derive(Clone, Copy, PartialEq, Eq, Debug)]
pub enum Shape {
    /// The literal is true exactly where `x - y` is at most the limit.
    AtMost {
        /// The literal.
        lit: Lit,
        /// The variable that is added.
        x: u32,
        /// The variable that is taken away.
        y: u32,
        /// The limit.
        limit: i64,
    },
    /// The literal is true exactly where `x - y` is the limit.
    Same {
        /// The literal.
        lit: Lit,
        /// The variable that is added.
        x: u32,
        /// The variable that is taken away.
        y: u32,
        /// The limit.
        limit: i64,
    },
    /// The kernel's literal is true exactly where the sum of the terms is the limit.
    Three {
        /// The terms.
        terms: Terms,
        /// The limit.
        limit: i64,
    },
    /// One of two literals is true.
    Either {
        /// The first literal.
        first: Lit,
        /// The second literal.
        second: Lit,
    },
    /// One of three literals is true.
    Triple {
        /// The first literal.
        first: Lit,
        /// The second literal.
        second: Lit,
        /// The third literal.
        third: Lit,
    },
    /// `z` is the product of `x` and `y`.
    Product {
        /// The first factor.
        x: u32,
        /// The second factor.
        y: u32,
        /// The product.
        z: u32,
    },
    /// `m` is the greater of `x` and `y`.
    Greatest {
        /// The greater one.
        m: u32,
        /// The first of the two.
        x: u32,
        /// The second of the two.
        y: u32,
    },
    /// The literal is true exactly where a sum of three terms or more with slight coefficients is at most, or is, the limit.
    Slight,
    /// Any kernel: nothing is said of it.
    Other,
}

/// The shape of the kernel. It is `Other` only where no other shape is the kernel's.
#[tactic(auto, unfolding(guarded_tell::specs::Kernels::HasNumbers))]
pub fn shape_of(k: &Kernel) -> Shape
    requires { HasNumbers k.now }
    ensures shape { IsShapeOf k.now result }
    ensures shortest { (s : Shape) → IsShapeOf k.now s → result ≡ Shape.Other → s ≡ Shape.Other }
{
    match k {
        Kernel::Le {
            lit,
            coeffs,
            vars,
            limit,
        } => match difference_of(coeffs.as_slice(), vars.as_slice()) {
            Some((x, y)) => Shape::AtMost {
                lit: *lit,
                x,
                y,
                limit: *limit,
            },
            None => sum_shape(are_slight(coeffs.as_slice())),
        },
        Kernel::Eq {
            lit,
            coeffs,
            vars,
            limit,
        } => match extended_difference_of(coeffs, vars) {
            Some((x, y)) => Shape::Same {
                lit: *lit,
                x,
                y,
                limit: *limit,
            },
            None => equation_shape(coeffs, vars, *limit),
        },
        Kernel::Clause { lits } => clause_shape(lits),
        Kernel::Times { x, y, z } => Shape::Product {
            x: *x,
            y: *y,
            z: *z,
        },
        Kernel::Max { m, xs } => greatest_shape(*m, xs.as_slice()),
        _ => Shape::Other,
    }
}

/// The shape of the greatest of a list.
fn greatest_shape(m: u32, xs: &[u32]) -> Shape
    ensures shape { IsShapeOf (Kernel.Max m xs.now) result }
    ensures shortest { (s : Shape) → IsShapeOf (Kernel.Max m xs.now) s → result ≡ Shape.Other → s ≡ Shape.Other }
{
    if xs.len() == 2 {
        Shape::Greatest {
            m,
            x: xs[0],
            y: xs[1],
        }
    } else {
        Shape::Other
    }
}

/// The shape of an equation that is no difference.
fn equation_shape(coeffs: &Extended<i64>, vars: &Extended<u32>, limit: i64) -> Shape
    requires { IsLinear coeffs.now vars.now limit }
    ensures shape { (l : Literal) → IsShapeOf (Kernel.Eq l coeffs.now vars.now limit) result }
    ensures rough { result ≡ Shape.Other → AreSlight coeffs.now → ⊥ }
{
    match terms_of(coeffs, vars) {
        Some(terms) => Shape::Three { terms, limit },
        None => sum_shape(are_slight_extended(coeffs)),
    }
}

/// The terms of a sum of three whose coefficients are 1 or -1.
fn terms_of(coeffs: &Extended<i64>, vars: &Extended<u32>) -> Option<Terms>
    requires { IsLinear coeffs.now vars.now (pos 0) }
    ensures { MatchOption result (Unit {0}) (λ t. (coeffs.now ≡ units_of t) × (vars.now ≡ places_of t)) }
{
    let (coeffs, last_coeff) = coeffs.split_last()?;
    let (vars, last_var) = vars.split_last()?;
    if coeffs.len() == 2 && vars.len() == 2 {
        terms_by_signs(coeffs[0], coeffs[1], last_coeff, vars[0], vars[1], last_var)
    } else {
        None
    }
}

/// The same of three coefficients and variables.
fn terms_by_signs(first: i64, second: i64, third: i64, x: u32, y: u32, z: u32) -> Option<Terms>
    ensures { MatchOption result (Unit {0}) (λ t. (first ∷ second ∷ third ∷ [] ≡ units_of t) × (x ∷ y ∷ z ∷ [] ≡ places_of t)) }
{
    Some(Terms {
        x,
        y,
        z,
        x_sign: sign_of(first)?,
        y_sign: sign_of(second)?,
        z_sign: sign_of(third)?,
    })
}

/// The sign of a term whose coefficient is 1 or -1.
fn sign_of(coeff: i64) -> Option<Sign>
    ensures { MatchOption result (Unit {0}) (λ s. coeff ≡ unit_of s) }
{
    match coeff {
        1 => Some(Sign::Plus),
        -1 => Some(Sign::Minus),
        _ => None,
    }
}

/// The shape of a sum that is no difference.
fn sum_shape(is_slight: bool) -> Shape
    ensures { result ≡ cond is_slight Shape.Slight Shape.Other }
{
    if is_slight {
        Shape::Slight
    } else {
        Shape::Other
    }
}

/// The shape of a clause.
fn clause_shape(lits: &Literals) -> Shape
    ensures shape { IsShapeOf (Kernel.Clause lits.now) result }
    ensures shortest { (s : Shape) → IsShapeOf (Kernel.Clause lits.now) s → result ≡ Shape.Other → s ≡ Shape.Other }
{
    if lits.len() == 2 {
        Shape::Either {
            first: lits.at(0),
            second: lits.at(1),
        }
    } else if lits.len() == 3 {
        Shape::Triple {
            first: lits.at(0),
            second: lits.at(1),
            third: lits.at(2),
        }
    } else {
        Shape::Other
    }
}

/// The variables `x` and `y` where the sum is `x - y`.
fn difference_of(coeffs: &[i64], vars: &[u32]) -> Option<(u32, u32)>
    requires { IsLinear coeffs.now vars.now (pos 0) }
    ensures { MatchOption result ((x y : ℕ) → IsDifference coeffs.now vars.now x y → ⊥) (λ d. IsDifference coeffs.now vars.now d.0 d.1) }
{
    if coeffs.len() == 2 {
        difference_by_signs(coeffs[0], coeffs[1], vars[0], vars[1])
    } else {
        None
    }
}

/// The same of lists whose last items may be kept apart.
fn extended_difference_of(coeffs: &Extended<i64>, vars: &Extended<u32>) -> Option<(u32, u32)>
    requires { IsLinear coeffs.now vars.now (pos 0) }
    ensures { MatchOption result ((x y : ℕ) → IsDifference coeffs.now vars.now x y → ⊥) (λ d. IsDifference coeffs.now vars.now d.0 d.1) }
{
    let (coeffs, last_coeff) = coeffs.split_last()?;
    let (vars, last_var) = vars.split_last()?;
    if coeffs.len() == 1 && vars.len() == 1 {
        difference_by_signs(coeffs[0], last_coeff, vars[0], last_var)
    } else {
        None
    }
}

/// The same of two terms.
fn difference_by_signs(first: i64, second: i64, x: u32, y: u32) -> Option<(u32, u32)>
    ensures { MatchOption result ((v w : ℕ) → IsDifference (first ∷ second ∷ []) (x ∷ y ∷ []) v w → ⊥) (λ d. IsDifference (first ∷ second ∷ []) (x ∷ y ∷ []) d.0 d.1) }
{
    match (first, second) {
        (1, -1) => Some((x, y)),
        (-1, 1) => Some((y, x)),
        _ => None,
    }
}

/// What `x`, and then the opposite of `y`, are at least and at most.
pub fn difference(x: u32, y: u32, b: &BoxOf) -> Pair
    requires first { x < length b.now }
    requires second { y < length b.now }
    requires proper_first { low_of b.now x ≤ℤ high_of b.now x }
    requires proper_second { low_of b.now y ≤ℤ high_of b.now y }
    ensures { IsDifferenceIn b.now x y result }
{
    Pair {
        first: plain(x, b),
        second: opposite(y, b),
    }
}
