//! The leaves of an item: one walk, which asks each whether it has a fault of a kind.

ghost use Rattle.std.specs.Prelude.{◌≡◌, true, map, flat_map, option_to_list};
ghost use Rattle.std.specs.List.{list_any};
ghost use Rattle.fzn_parser.specs.Items.{what_tree};
ghost use Rattle.fzn_model.specs.declared.leaves.Leaf.{Leaf as Part};
ghost use Rattle.fzn_model.specs.Leaves.{set_leaves, elem_leaves, expr_leaves, type_leaves, aim_leaves, leaves};
ghost use Rattle.fzn_model.specs.Drafts.{has_kind, elems_of, elems_in, HaveNone};

use crate::declaring::is_declared;
use crate::exprs::spelling;
use crate::fault_kinds::FaultKind;
use crate::limits::MOST_ENTRIES;
use crate::numbers::number_of;
use crate::scope::Scope;
use constraint_model::ConstraintName;
use fzn_lexer::Token;
use fzn_parser::tree::{Aim, Elem, Expr, SetLit, Shape, What};

/// A leaf of an item: what is judged by itself of the item outside its annotations.
#[derive(Clone, Copy)]
pub enum Leaf {
    /// The name that the item declares.
    Declared(Token),
    /// A name that it uses.
    Used(Token),
    /// The name of its constraint.
    Constrained(Token),
    /// An integer literal.
    Number(Token),
    /// An array literal or a set in braces, with how many entries it has.
    Entries(usize),
}

/// A kind of fault that is sought among the leaves of an item, by the declarations before it.
#[derive(Clone, Copy)]
pub(crate) struct Sought<'a> {
    pub(crate) text: &'a [u8],
    pub(crate) scope: &'a Scope,
    pub(crate) kind: FaultKind,
}

impl<'a> Sought<'a> {
    /// Whether this leaf has such a fault.
    #[inline(always)]
    fn is_at(&self, leaf: Leaf) -> bool
        ensures { result ≡ has_kind self.now.text.now self.now.scope.now self.now.kind leaf }
    {
        match leaf {
            Leaf::Declared(name) => {
                FaultKind::NameTwice.is_same(self.kind) && is_declared(self.text, self.scope, name)
            }
            Leaf::Used(name) => {
                FaultKind::NameUnknown.is_same(self.kind)
                    && !is_declared(self.text, self.scope, name)
            }
            Leaf::Constrained(name) => {
                FaultKind::UnknownConstraint.is_same(self.kind)
                    && ConstraintName::named(spelling(self.text, &name)).is_none()
            }
            Leaf::Number(literal) => {
                FaultKind::OutOfRange.is_same(self.kind)
                    && number_of(spelling(self.text, &literal)).is_none()
            }
            Leaf::Entries(count) => {
                FaultKind::TooMany.is_same(self.kind) && count > MOST_ENTRIES
            }
        }
    }

    fn is_number(&self, literal: &Token) -> bool
        ensures { result ≡ has_kind self.now.text.now self.now.scope.now self.now.kind (Part.Number literal.now) }
    {
        self.is_at(Leaf::Number(*literal))
    }

    fn in_numbers(&self, literals: &[Token]) -> bool
        ensures { result ≡ list_any (has_kind self.now.text.now self.now.scope.now self.now.kind) (map Part.Number literals.now) }
    {
        literals.iter().any(|literal| self.is_number(literal))
    }

    #[inline(always)]
    fn in_set(&self, set: &SetLit) -> bool
        ensures { result ≡ list_any (has_kind self.now.text.now self.now.scope.now self.now.kind) (set_leaves set.now) }
    {
        match set {
            SetLit::Range(low, high) => {
                self.is_at(Leaf::Number(*low)) || self.is_at(Leaf::Number(*high))
            }
            SetLit::Braces(values) => {
                self.is_at(Leaf::Entries(values.len())) || self.in_numbers(values.as_slice())
            }
        }
    }

    #[inline(always)]
    fn in_elem(&self, elem: &Elem) -> bool
        ensures { result ≡ list_any (has_kind self.now.text.now self.now.scope.now self.now.kind) (elem_leaves elem.now) }
    {
        match elem {
            Elem::Int(literal) => self.is_at(Leaf::Number(*literal)),
            Elem::Name(name) => self.is_at(Leaf::Used(*name)),
            Elem::Set(set) => self.in_set(set.literal()),
            Elem::True | Elem::False | Elem::Float(_) => false,
        }
    }

    fn in_elems(&self, elems: &[Elem]) -> bool
        ensures { result ≡ list_any (has_kind self.now.text.now self.now.scope.now self.now.kind) (flat_map elem_leaves elems.now) }
    {
        elems.iter().any(|elem| self.in_elem(elem))
    }

    #[inline(always)]
    fn in_expr(&self, expr: &Expr) -> bool
        ensures { result ≡ list_any (has_kind self.now.text.now self.now.scope.now self.now.kind) (expr_leaves expr.now) }
    {
        match expr {
            Expr::One(elem) => self.in_elem(elem),
            Expr::Row(elems) => {
                self.is_at(Leaf::Entries(elems.len())) || self.in_elems(elems.as_slice())
            }
        }
    }

    /// Whether a leaf of these entries has such a fault; they aren't gone through where it is known that none has.
    #[inline(always)]
    fn in_entries(&self, entries: &[Elem], sure: bool) -> bool
        requires { sure ≡ true → HaveNone self.now.text.now self.now.scope.now self.now.kind entries.now }
        ensures { result ≡ list_any (has_kind self.now.text.now self.now.scope.now self.now.kind) (flat_map elem_leaves entries.now) }
    {
        if sure {
            return false;
        }
        self.in_elems(entries)
    }

    /// Whether a leaf of the value of an array has such a fault.
    #[inline(always)]
    fn in_row(&self, value: &Expr, sure: bool) -> bool
        requires { sure ≡ true → HaveNone self.now.text.now self.now.scope.now self.now.kind (elems_of value.now) }
        ensures { result ≡ list_any (has_kind self.now.text.now self.now.scope.now self.now.kind) (expr_leaves value.now) }
    {
        match value {
            Expr::One(elem) => self.in_elem(elem),
            Expr::Row(entries) => {
                self.is_at(Leaf::Entries(entries.len()))
                    || self.in_entries(entries.as_slice(), sure)
            }
        }
    }

    #[inline(always)]
    fn in_exprs(&self, exprs: &[Expr]) -> bool
        ensures { result ≡ list_any (has_kind self.now.text.now self.now.scope.now self.now.kind) (flat_map expr_leaves exprs.now) }
    {
        exprs.iter().any(|expr| self.in_expr(expr))
    }

    #[inline(always)]
    fn in_value(&self, value: &Option<Expr>) -> bool
        ensures { result ≡ list_any (has_kind self.now.text.now self.now.scope.now self.now.kind) (flat_map expr_leaves (option_to_list value.now)) }
    {
        match value {
            Some(expr) => self.in_expr(expr),
            None => false,
        }
    }

    #[inline(always)]
    fn in_type(&self, shape: &Shape) -> bool
        ensures { result ≡ list_any (has_kind self.now.text.now self.now.scope.now self.now.kind) (type_leaves shape.now) }
    {
        match shape {
            Shape::VarIn(set) | Shape::VarSetIn(set) => self.in_set(set),
            Shape::Bool | Shape::Int | Shape::Float | Shape::SetOfInt => false,
            Shape::VarBool | Shape::VarInt | Shape::VarFloat => false,
            Shape::VarFloats(_, _) | Shape::VarSet => false,
        }
    }

    fn in_aim(&self, aim: &Aim) -> bool
        ensures { result ≡ list_any (has_kind self.now.text.now self.now.scope.now self.now.kind) (aim_leaves aim.now) }
    {
        match aim {
            Aim::Satisfy => false,
            Aim::Minimize(expr) | Aim::Maximize(expr) => self.in_expr(expr),
        }
    }

    /// Whether a leaf of this item has such a fault; the entries of an array aren't gone through where it is known that none has.
    #[inline(always)]
    pub(crate) fn is_in(&self, what: &What, sure: bool) -> bool
        requires { sure ≡ true → HaveNone self.now.text.now self.now.scope.now self.now.kind (elems_in (what_tree what.now)) }
        ensures { result ≡ list_any (has_kind self.now.text.now self.now.scope.now self.now.kind) (leaves (what_tree what.now)) }
    {
        match what {
            What::Predicate(_) => false,
            What::Scalar {
                shape,
                name,
                value,
                ..
            } => {
                self.in_type(shape) || self.is_at(Leaf::Declared(*name)) || self.in_value(value)
            }
            What::Array {
                low,
                high,
                shape,
                name,
                value,
                ..
            } => {
                self.is_at(Leaf::Number(*low))
                    || self.is_at(Leaf::Number(*high))
                    || self.in_type(shape)
                    || self.is_at(Leaf::Declared(*name))
                    || self.in_row(value, sure)
            }
            What::Constraint { name, args, .. } => {
                self.is_at(Leaf::Constrained(*name)) || self.in_exprs(args.as_slice())
            }
            What::Solve { aim, .. } => self.in_aim(aim),
        }
    }
}
