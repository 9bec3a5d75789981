//! Reads items that are no predicates.

ghost use Rattle.std.specs.Prelude.{◌≡◌, ◌≢◌, IfOk, map};
ghost use Rattle.fzn_parser.specs.Items.{what_tree, is_var, var_set_at, var_range_at, var_at, param_at, shape_at, value_at, name_at, scalar_at, bounds_at, array_rest, array_at, constraint_at, aim_at, solve_at, what_at, whole_at};

use crate::cursor::{Class, Cursor, Lexeme, Stop, Symbol};
use crate::entries::read_list;
use crate::notes::read_notes;
use crate::tree::{Aim, Expr, Shape, What};
use crate::values::{read_expr, read_set};
use fzn_lexer::Token;
use std::alloc::Global;

/// Whether this is the type of variables.
fn is_variable(shape: &Shape) -> bool
    ensures { result ≡ is_var shape.now }
{
    match shape {
        Shape::Bool | Shape::Int | Shape::Float | Shape::SetOfInt => false,
        Shape::VarBool | Shape::VarInt | Shape::VarFloat | Shape::VarIn(_) => true,
        Shape::VarFloats(_, _) | Shape::VarSet | Shape::VarSetIn(_) => true,
    }
}

#[tactic(auto, unfolding(crate::specs::Items::var_set_at))]
fn read_var_set(alloc: Global, cursor: &mut Cursor) -> Result<Shape, Stop>
    ensures read { IfOk result (λ s. var_set_at cursor.old ≡ Some (s, cursor.new)) }
    ensures refused { result ≡ Err Stop.Refused → var_set_at cursor.old ≡ None }
{
    cursor.expect(Symbol::Of)?;
    if cursor.take(Symbol::Int) {
        return Ok(Shape::VarSet);
    }
    let set = read_set(alloc, cursor)?;
    Ok(Shape::VarSetIn(set))
}

#[tactic(auto, unfolding(crate::specs::Items::var_range_at))]
fn read_var_range(alloc: Global, cursor: &mut Cursor) -> Result<Shape, Stop>
    ensures read { IfOk result (λ s. var_range_at cursor.old ≡ Some (s, cursor.new)) }
    ensures refused { result ≡ Err Stop.Refused → var_range_at cursor.old ≡ None }
{
    if let Some(low) = cursor.take_kept(Class::Float) {
        cursor.expect(Symbol::DotDot)?;
        let high = cursor.kept(Class::Float)?;
        return Ok(Shape::VarFloats(low, high));
    }
    let set = read_set(alloc, cursor)?;
    Ok(Shape::VarIn(set))
}

/// A variable's type, behind `var`.
#[tactic(auto, unfolding(crate::specs::Items::var_at))]
fn read_var(alloc: Global, cursor: &mut Cursor) -> Result<Shape, Stop>
    ensures read { IfOk result (λ s. var_at cursor.old ≡ Some (s, cursor.new)) }
    ensures refused { result ≡ Err Stop.Refused → var_at cursor.old ≡ None }
{
    if cursor.take(Symbol::Bool) {
        return Ok(Shape::VarBool);
    }
    if cursor.take(Symbol::Int) {
        return Ok(Shape::VarInt);
    }
    if cursor.take(Symbol::Float) {
        return Ok(Shape::VarFloat);
    }
    if cursor.take(Symbol::Set) {
        return read_var_set(alloc, cursor);
    }
    read_var_range(alloc, cursor)
}

#[tactic(auto, unfolding(crate::specs::Items::param_at))]
fn read_param(cursor: &mut Cursor) -> Result<Shape, Stop>
    ensures read { IfOk result (λ s. param_at cursor.old ≡ Some (s, cursor.new)) }
    ensures refused { result ≡ Err Stop.Refused → param_at cursor.old ≡ None }
{
    if cursor.take(Symbol::Bool) {
        return Ok(Shape::Bool);
    }
    if cursor.take(Symbol::Int) {
        return Ok(Shape::Int);
    }
    if cursor.take(Symbol::Float) {
        return Ok(Shape::Float);
    }
    cursor.expect(Symbol::Set)?;
    cursor.expect(Symbol::Of)?;
    cursor.expect(Symbol::Int)?;
    Ok(Shape::SetOfInt)
}

#[tactic(auto, unfolding(crate::specs::Items::shape_at))]
fn read_shape(alloc: Global, cursor: &mut Cursor) -> Result<Shape, Stop>
    ensures read { IfOk result (λ s. shape_at cursor.old ≡ Some (s, cursor.new)) }
    ensures refused { result ≡ Err Stop.Refused → shape_at cursor.old ≡ None }
{
    if cursor.take(Symbol::Var) {
        return read_var(alloc, cursor);
    }
    read_param(cursor)
}

#[tactic(auto, unfolding(crate::specs::Items::value_at))]
fn read_value(alloc: Global, cursor: &mut Cursor, may_lack: bool) -> Result<Option<Expr>, Stop>
    ensures read { IfOk result (λ v. value_at may_lack cursor.old ≡ Some (v, cursor.new)) }
    ensures refused { result ≡ Err Stop.Refused → value_at may_lack cursor.old ≡ None }
{
    if cursor.take(Symbol::Equals) {
        let value = read_expr(alloc, cursor)?;
        return Ok(Some(value));
    }
    if may_lack {
        Ok(None)
    } else {
        Err(Stop::Refused)
    }
}

#[tactic(auto, unfolding(crate::specs::Items::name_at))]
fn read_name(cursor: &mut Cursor) -> Result<Token, Stop>
    ensures read { IfOk result (λ t. name_at cursor.old ≡ Some (t, cursor.new)) }
    ensures refused { result ≡ Err Stop.Refused → name_at cursor.old ≡ None }
{
    cursor.expect(Symbol::Colon)?;
    cursor.kept(Class::Name)
}

#[tactic(auto, unfolding(crate::specs::Items::scalar_at))]
#[inline(always)]
fn read_scalar(alloc: Global, cursor: &mut Cursor, depth: usize) -> Result<What, Stop>
    ensures read { IfOk result (λ w. scalar_at depth cursor.old ≡ Some (what_tree w, cursor.new)) }
    ensures refused { result ≡ Err Stop.Refused → scalar_at depth cursor.old ≡ None }
{
    let shape = read_shape(alloc, cursor)?;
    let name = read_name(cursor)?;
    let anns = read_notes(alloc, cursor, depth)?;
    let may_lack = is_variable(&shape);
    let value = read_value(alloc, cursor, may_lack)?;
    Ok(What::Scalar {
        shape,
        name,
        anns,
        value,
    })
}

#[tactic(auto, unfolding(crate::specs::Items::bounds_at))]
fn read_bounds(cursor: &mut Cursor) -> Result<(Token, Token), Stop>
    ensures read { IfOk result (λ b. bounds_at cursor.old ≡ Some (b, cursor.new)) }
    ensures refused { result ≡ Err Stop.Refused → bounds_at cursor.old ≡ None }
{
    cursor.expect(Symbol::BracketOpen)?;
    let low = cursor.kept(Class::Int)?;
    cursor.expect(Symbol::DotDot)?;
    let high = cursor.kept(Class::Int)?;
    cursor.expect(Symbol::BracketClose)?;
    cursor.expect(Symbol::Of)?;
    Ok((low, high))
}

#[tactic(auto, unfolding(crate::specs::Items::array_rest))]
fn read_array_rest(
    alloc: Global,
    cursor: &mut Cursor,
    depth: usize,
    low: Token,
    high: Token,
) -> Result<What, Stop>
    ensures read { IfOk result (λ w. array_rest depth low high cursor.old ≡ Some (what_tree w, cursor.new)) }
    ensures refused { result ≡ Err Stop.Refused → array_rest depth low high cursor.old ≡ None }
{
    let shape = read_shape(alloc, cursor)?;
    let name = read_name(cursor)?;
    let anns = read_notes(alloc, cursor, depth)?;
    cursor.expect(Symbol::Equals)?;
    let value = read_expr(alloc, cursor)?;
    Ok(What::Array {
        low,
        high,
        shape,
        name,
        anns,
        value,
    })
}

#[tactic(auto, unfolding(crate::specs::Items::array_at))]
fn read_array(alloc: Global, cursor: &mut Cursor, depth: usize) -> Result<What, Stop>
    ensures read { IfOk result (λ w. array_at depth cursor.old ≡ Some (what_tree w, cursor.new)) }
    ensures refused { result ≡ Err Stop.Refused → array_at depth cursor.old ≡ None }
{
    let bounds = read_bounds(cursor)?;
    read_array_rest(alloc, cursor, depth, bounds.0, bounds.1)
}

#[tactic(auto, unfolding(crate::specs::Items::constraint_at))]
#[inline(always)]
fn read_constraint(alloc: Global, cursor: &mut Cursor, depth: usize) -> Result<What, Stop>
    ensures read { IfOk result (λ w. constraint_at depth cursor.old ≡ Some (what_tree w, cursor.new)) }
    ensures refused { result ≡ Err Stop.Refused → constraint_at depth cursor.old ≡ None }
{
    let name = cursor.kept(Class::Name)?;
    cursor.expect(Symbol::ParenOpen)?;
    let args = read_list(alloc, cursor, Symbol::ParenClose)?;
    let anns = read_notes(alloc, cursor, depth)?;
    Ok(What::Constraint { name, args, anns })
}

#[tactic(auto, unfolding(crate::specs::Items::aim_at))]
fn read_aim(alloc: Global, cursor: &mut Cursor) -> Result<Aim, Stop>
    ensures read { IfOk result (λ a. aim_at cursor.old ≡ Some (a, cursor.new)) }
    ensures refused { result ≡ Err Stop.Refused → aim_at cursor.old ≡ None }
{
    if cursor.take(Symbol::Satisfy) {
        return Ok(Aim::Satisfy);
    }
    if cursor.take(Symbol::Minimize) {
        let objective = read_expr(alloc, cursor)?;
        return Ok(Aim::Minimize(objective));
    }
    cursor.expect(Symbol::Maximize)?;
    let objective = read_expr(alloc, cursor)?;
    Ok(Aim::Maximize(objective))
}

#[tactic(auto, unfolding(crate::specs::Items::solve_at))]
fn read_solve(alloc: Global, cursor: &mut Cursor, depth: usize) -> Result<What, Stop>
    ensures read { IfOk result (λ w. solve_at depth cursor.old ≡ Some (what_tree w, cursor.new)) }
    ensures refused { result ≡ Err Stop.Refused → solve_at depth cursor.old ≡ None }
{
    let anns = read_notes(alloc, cursor, depth)?;
    let aim = read_aim(alloc, cursor)?;
    Ok(What::Solve { anns, aim })
}

#[tactic(auto, unfolding(crate::specs::Items::what_at))]
#[inline(always)]
fn read_what(alloc: Global, cursor: &mut Cursor, depth: usize) -> Result<What, Stop>
    ensures read { IfOk result (λ w. what_at depth cursor.old ≡ Some (what_tree w, cursor.new)) }
    ensures refused { result ≡ Err Stop.Refused → what_at depth cursor.old ≡ None }
{
    if cursor.take(Symbol::Constraint) {
        return read_constraint(alloc, cursor, depth);
    }
    if cursor.take(Symbol::Array) {
        return read_array(alloc, cursor, depth);
    }
    if cursor.take(Symbol::Solve) {
        return read_solve(alloc, cursor, depth);
    }
    read_scalar(alloc, cursor, depth)
}

/// The item that `lexemes` are, in whose annotations at most `depth` brackets are open at once.
#[tactic(auto, unfolding(crate::specs::Items::whole_at))]
#[inline(always)]
pub(crate) fn read_whole(alloc: Global, lexemes: &[Lexeme], depth: usize) -> Result<What, Stop>
    ensures read { IfOk result (λ w. whole_at depth lexemes.now ≡ Some (what_tree w)) }
    ensures refused { result ≡ Err Stop.Refused → whole_at depth lexemes.now ≡ None }
{
    let mut cursor = Cursor::new(lexemes);
    let what = read_what(alloc, &mut cursor, depth)?;
    cursor.expect(Symbol::Semicolon)?;
    if cursor.is_done() {
        return Ok(what);
    }
    Err(Stop::Refused)
}
