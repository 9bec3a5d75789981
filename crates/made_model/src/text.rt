//! The made text.

ghost use Rattle.std.specs.Prelude.{◌≡◌, ◌≤◌, ◌*◌, ◌++◌, IfOk, OnOk, flat_map};
ghost use Rattle.std.specs.List.{range_with_len};
ghost use Rattle.std.specs.Fmt.{decimal};
ghost use Rattle.made_model.specs.Made.{goal_line, made, order, order_line, pair_text, variable_line, variable_name};

use crate::draws::{Draws, Order};
use itoa::Buffer;
use std::alloc::{AllocError, Global};

/// The made text of `n` variables, 2 to 2000. Errors: memory was refused.
pub fn made_text(alloc: Global, n: u32) -> Result<Vec<u8>, AllocError>
    requires { (2 ≤ n) × (n ≤ 2000) }
    ensures { IfOk result (λ text. text.items ≡ made n) }
{
    let mut text = Vec::new(alloc);
    push_variables(&mut text, n)?;
    push_orders(&mut text, n)?;
    push_goal(&mut text, n)?;
    Ok(text)
}

/// Adds the declarations.
fn push_variables(text: &mut Vec<u8>, n: u32) -> Result<(), AllocError>
    requires { n ≤ 2000 }
    ensures { OnOk result (text.new.items ≡ text.old.items ++ flat_map (variable_line n) (range_with_len 1 n)) }
{
    for place in 0..n {
        push_variable(text, n, place + 1)?;
    }
    Ok(())
}

/// Adds the declaration of a variable.
fn push_variable(text: &mut Vec<u8>, n: u32, number: u32) -> Result<(), AllocError>
    requires { n ≤ 2000 }
    ensures { OnOk result (text.new.items ≡ text.old.items ++ variable_line n number) }
{
    text.extend_from_slice(b"var 0..")?;
    push_number(text, 9 * n)?;
    text.extend_from_slice(b": ")?;
    push_name(text, number)?;
    text.extend_from_slice(b";\n")
}

/// Adds the orders.
fn push_orders(text: &mut Vec<u8>, n: u32) -> Result<(), AllocError>
    requires { (2 ≤ n) × (n ≤ 2000) }
    ensures { OnOk result (text.new.items ≡ text.old.items ++ flat_map (λ j. order_line (order n j)) (range_with_len 0 (4 * n))) }
{
    let mut draws = Draws::new(n);
    for _ in 0..4 * n {
        push_order(text, draws.next_order(n))?;
    }
    Ok(())
}

/// Adds an order.
fn push_order(text: &mut Vec<u8>, order: Order) -> Result<(), AllocError>
    ensures { OnOk result (text.new.items ≡ text.old.items ++ order_line order) }
{
    text.extend_from_slice(b"constraint int_lin_le([1,-1],[")?;
    push_pair(text, order)?;
    text.extend_from_slice(b"],-")?;
    push_number(text, order.gap)?;
    text.extend_from_slice(b");\n")
}

/// Adds the variables of an order.
#[tactic(auto, unfolding(crate::specs::Made::pair_text))]
fn push_pair(text: &mut Vec<u8>, order: Order) -> Result<(), AllocError>
    ensures { OnOk result (text.new.items ≡ text.old.items ++ pair_text order) }
{
    push_name(text, order.first)?;
    text.extend_from_slice(b",")?;
    push_name(text, order.second)
}

/// Adds what is minimized.
fn push_goal(text: &mut Vec<u8>, n: u32) -> Result<(), AllocError>
    ensures { OnOk result (text.new.items ≡ text.old.items ++ goal_line n) }
{
    text.extend_from_slice(b"solve minimize ")?;
    push_name(text, n)?;
    text.extend_from_slice(b";\n")
}

/// Adds the name of a variable.
fn push_name(text: &mut Vec<u8>, number: u32) -> Result<(), AllocError>
    ensures { OnOk result (text.new.items ≡ text.old.items ++ variable_name number) }
{
    text.extend_from_slice(b"x")?;
    push_number(text, number)
}

/// Adds a number in decimal.
fn push_number(text: &mut Vec<u8>, number: u32) -> Result<(), AllocError>
    ensures { OnOk result (text.new.items ≡ text.old.items ++ decimal number) }
{
    let mut buffer = Buffer::new();
    text.extend_from_slice(buffer.format(number).as_bytes())
}
