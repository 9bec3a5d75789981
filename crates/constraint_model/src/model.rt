//! What a text means: its variables, what must hold of them, and what is asked for.

ghost use Rattle.std.specs.Prelude.{◌≡◌};

use crate::boxed::Boxed;
use crate::table::ConstraintName;
use list_of::ListOf;
use names::Name;
use shared_list::SharedList;

/// A number or a variable, in a place where a variable may be.
#[derive(Debug, Clone, Copy)]
pub enum Term {
    /// A number from the opposite of `LARGEST` to `LARGEST`; a boolean constant is 0 or 1.
    Number(i64),
    /// A variable, by its place among the declared variables from 0.
    Var(u32),
}

impl Term {
    ghost use Rattle.constraint_model.specs.Entries.{variable_in};

    /// The variable that it is, if it is one.
    pub fn variable(self) -> Option<u32>
        ensures { result ≡ variable_in self }
    {
        match self {
            Term::Number(_) => None,
            Term::Var(variable) => Some(variable),
        }
    }
}

/// An array as an argument of a constraint.
#[derive(Drop)]
pub struct ArrayTerms {
    /// The terms of its entries, in order.
    pub terms: SharedList<Term>,
    /// Its place among the arrays of the model, where it is a declared one. So two uses of one array are told by their
    /// numbers, and no term is compared.
    pub number: Option<usize>,
}

/// An argument of a constraint: a term, an array or a set. The last two are in boxes, so that the first, of which there are
/// most, takes little room.
#[derive(Drop)]
pub enum Operand {
    /// A number or a variable.
    One(Term),
    /// An array.
    Row(Boxed<ArrayTerms>),
    /// A set, as its sorted greatest ranges.
    Set(Boxed<SharedList<(i64, i64)>>),
}

/// A declared variable.
#[derive(Drop)]
pub struct VarDecl {
    /// Its name.
    pub name: Name,
    /// Whether it is a boolean, 0 for false and 1 for true.
    pub is_bool: bool,
    /// The least value that it starts with.
    pub low: i64,
    /// The greatest value that it starts with; below `low` where its domain is empty.
    pub high: i64,
}

/// A constraint: its name and its arguments, in order.
#[derive(Drop)]
pub struct Constraint {
    /// Its name.
    pub name: ConstraintName,
    /// Its arguments.
    pub operands: ListOf<Operand>,
}

/// Which of the unfixed variables of a phase is branched on.
#[derive(Debug, Clone, Copy, PartialEq, Eq)]
pub enum VarSel {
    /// The first.
    InputOrder,
    /// The one with the least high - low.
    FirstFail,
    /// The one with the greatest high - low.
    AntiFirstFail,
    /// The one with the least lower bound.
    Smallest,
    /// The one with the greatest upper bound.
    Largest,
}

/// How the domain of the chosen variable is parted.
#[derive(Debug, Clone, Copy, PartialEq, Eq)]
pub enum ValSel {
    /// Its least value first.
    Min,
    /// Its greatest value first.
    Max,
    /// The lower half first.
    Split,
    /// The upper half first.
    ReverseSplit,
}

/// A part of the search: its variables, and how they are branched on.
#[derive(Drop)]
pub struct Phase {
    /// Its variables, in order.
    pub vars: SharedList<u32>,
    /// Which variable is taken.
    pub var_sel: VarSel,
    /// Which values come first.
    pub val_sel: ValSel,
}

/// What the solve item asks for.
#[derive(Debug, Clone, Copy)]
pub enum Goal {
    /// Any solution.
    Satisfy,
    /// A solution of least objective.
    Minimize(Term),
    /// A solution of greatest objective.
    Maximize(Term),
}

/// What is written of each solution for a declaration.
#[derive(Drop)]
pub enum Output {
    /// One value.
    Scalar {
        /// The bytes of its name.
        name: ListOf<u8>,
        /// Whether it is written as `true` or `false`.
        is_bool: bool,
        /// What is written.
        value: Term,
    },
    /// The entries of an array.
    Array {
        /// The bytes of its name.
        name: ListOf<u8>,
        /// Whether its entries are written as `true` or `false`.
        is_bool: bool,
        /// Its index sets.
        ranges: ListOf<(i64, i64)>,
        /// Its entries.
        entries: SharedList<Term>,
    },
}

/// The model of a text.
#[derive(Drop)]
pub struct FznModel {
    /// The declared variables, in the order of their declarations.
    pub vars: ListOf<VarDecl>,
    /// The terms of the declared arrays, in the order of their declarations.
    pub arrays: ListOf<SharedList<Term>>,
    /// The constraints in the order of the text, those that declarations add at the place of these.
    pub constraints: ListOf<Constraint>,
    /// The phases of the search, the text's own and then one of all variables.
    pub search: ListOf<Phase>,
    /// What is asked for.
    pub goal: Goal,
    /// What is written of a solution, in the order of the declarations.
    pub output: ListOf<Output>,
}
