//! What the searches of a portfolio tell.

ghost use Rattle.std.specs.Prelude.{◌≡◌, None};

use list_of::ListOf;
use race::Incumbent;

/// What is told of the first solution of a box.
#[derive(Drop)]
pub enum FirstTold {
    /// It is this one, one number for each declared variable, or there is none.
    Known(Option<ListOf<i64>>),
    /// Nothing.
    Unknown,
}

/// A bound of the costs of solutions.
#[derive(Clone, Copy, Debug, PartialEq, Eq)]
pub struct Bound {
    /// Each solution costs so much at least; without a number there is none.
    pub at_least: Option<i64>,
}

/// What is told of the costs of a box.
#[derive(Drop)]
pub struct CostTold {
    /// What all solutions there cost at least, if that is known.
    pub bound: Option<Bound>,
    /// The best solution that was found, if one was.
    pub best: Option<Incumbent>,
}

/// What is told of the least cost.
#[derive(Drop)]
pub enum LeastTold {
    /// This solution has it, or there is none.
    Known(Option<Incumbent>),
    /// Nothing.
    Unknown,
}

impl FirstTold {
    /// Whether anything is told.
    pub fn is_known(&self) -> bool {
        match self {
            FirstTold::Known(_) => true,
            FirstTold::Unknown => false,
        }
    }
}

impl CostTold {
    /// Nothing.
    pub fn nothing() -> CostTold
        ensures bound { result.bound ≡ None }
        ensures best { result.best ≡ None }
    {
        CostTold {
            bound: None,
            best: None,
        }
    }
}
