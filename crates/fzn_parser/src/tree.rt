//! The items of a text, as the grammar of FlatZinc has them.

ghost use Rattle.std.specs.Prelude.{◌≡◌, IfOk};

use fzn_lexer::Token;
use list_of::ListOf;
use std::alloc::{AllocError, Global};
use std::marker::Model;

/// A set literal.
#[derive(Drop)]
pub enum SetLit {
    /// `low..high`
    Range(Token, Token),
    /// `{value, ..}`
    Braces(ListOf<Token>),
}

/// A set literal in memory of its own, seen by contracts as that literal. So an entry of an array, which is a number or a name
/// mostly, takes no room for a set.
#[derive(Drop)]
pub struct SetApart {
    set: Box<SetLit>,
}

impl Model for SetApart {
    ghost use Rattle.fzn_parser.specs.declared.tree.SetLit.{SetLit};

    ghost Value = { SetLit };

    ghost view = { λ s. s.set.value };
}

impl SetApart {
    /// This set.
    pub(crate) fn new(alloc: Global, set: SetLit) -> Result<SetApart, AllocError>
        ensures { IfOk result (λ apart. apart ≡ set) }
    {
        Ok(SetApart {
            set: Box::new(alloc, set)?,
        })
    }

    /// The set as it is written.
    pub fn literal(&self) -> &SetLit
        ensures { result.now ≡ self.now }
    {
        &self.set
    }

    /// The set as it is written, no longer in memory of its own.
    pub(crate) fn into_literal(self) -> SetLit
        ensures { result ≡ self }
    {
        let SetApart { set } = self;
        Box::into_inner(set)
    }
}

/// A simple expression.
#[derive(Drop)]
pub enum Elem {
    True,
    False,
    Int(Token),
    Float(Token),
    Name(Token),
    Set(SetApart),
}

/// An expression: a simple one, or an array literal.
#[derive(Drop)]
pub enum Expr {
    One(Elem),
    Row(ListOf<Elem>),
}

/// An annotation: a name, and its arguments where it has parentheses.
#[cycle(notes)]
#[derive(Drop)]
pub struct Ann {
    /// Its name.
    pub name: Token,
    /// Its arguments, where it has parentheses.
    pub args: Option<Vec<Arg>>,
}

/// An argument of an annotation.
#[cycle(notes)]
#[derive(Drop)]
pub enum Arg {
    Ann(Ann),
    True,
    False,
    Int(Token),
    Float(Token),
    Text(Token),
    Set(SetLit),
    Row(Vec<Arg>),
}

/// The declared type of a variable, a parameter or an array's elements.
#[derive(Drop)]
pub enum Shape {
    Bool,
    Int,
    Float,
    SetOfInt,
    VarBool,
    VarInt,
    VarFloat,
    /// `var` and a set
    VarIn(SetLit),
    /// `var low..high` with two float literals
    VarFloats(Token, Token),
    /// `var set of int`
    VarSet,
    /// `var set of` and a set
    VarSetIn(SetLit),
}

/// What the solve item asks for.
#[derive(Drop)]
pub enum Aim {
    Satisfy,
    Minimize(Expr),
    Maximize(Expr),
}

/// An item, without its place.
#[derive(Drop)]
pub enum What {
    /// The tokens between `predicate` and `;`.
    Predicate(ListOf<Token>),
    Scalar {
        shape: Shape,
        name: Token,
        anns: Vec<Ann>,
        value: Option<Expr>,
    },
    Array {
        low: Token,
        high: Token,
        shape: Shape,
        name: Token,
        anns: Vec<Ann>,
        value: Expr,
    },
    Constraint {
        name: Token,
        args: ListOf<Expr>,
        anns: Vec<Ann>,
    },
    Solve {
        anns: Vec<Ann>,
        aim: Aim,
    },
}

/// An item, with the place of its first byte.
#[derive(Drop)]
pub struct Item {
    /// The place of its first byte in the text.
    pub from: usize,
    /// What it says.
    pub what: What,
}
