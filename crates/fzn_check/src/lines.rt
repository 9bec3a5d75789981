//! The lines of what is found in the texts.

ghost use Rattle.std.specs.Prelude.{◌≡◌, ◌+◌, ◌^◌, ◌<◌, ◌++◌, IfOk, OnOk};
ghost use Rattle.fzn_check.specs.Lines.{bad_text_line, constraint_name, hidden_line, right_line, declared_name, wrong_line, wrong_text};

use crate::wrong::Wrong;
use constraint_model::FznModel;
use itoa::Buffer;
use std::alloc::{AllocError, Global};

/// What a declared variable is called.
fn declared_name(model: &FznModel, variable: usize) -> &[u8]
    ensures { result.now ≡ declared_name model.now variable }
{
    match model.vars.as_slice().get(variable) {
        Some(declaration) => declaration.name.as_slice(),
        None => b"",
    }
}

/// What the constraint of this number, counted from 1, is called.
fn constraint_name(model: &FznModel, number: usize) -> &'static str
    ensures { result.now ≡ constraint_name model.now number }
{
    match model.constraints.as_slice().get(number.saturating_sub(1)) {
        Some(constraint) => constraint.name.text(),
        None => "",
    }
}

/// Adds what is wrong.
fn push_wrong(text: &mut Vec<u8>, model: &FznModel, wrong: Wrong) -> Result<(), AllocError>
    ensures { OnOk result (text.new.items ≡ text.old.items ++ wrong_text model.now wrong) }
{
    match wrong {
        Wrong::Outside(variable) => {
            text.extend_from_slice(b"outside ")?;
            text.extend_from_slice(declared_name(model, variable as usize))
        }
        Wrong::Violates(number) => {
            text.extend_from_slice(b"violates ")?;
            text.extend_from_slice(Buffer::new().format(number).as_bytes())?;
            text.extend_from_slice(b" ")?;
            text.extend_from_slice(constraint_name(model, number).as_bytes())
        }
    }
}

/// The line that says what is wrong with the solution at this place, counted from 0.
pub(crate) fn print_wrong(
    alloc: Global,
    model: &FznModel,
    place: usize,
    wrong: Wrong,
) -> Result<Vec<u8>, AllocError>
    requires { place + 1 < 2 ^ 64 }
    ensures { IfOk result (λ line. line.items ≡ wrong_line model.now place wrong) }
{
    let mut line = Vec::from_slice(alloc, b"solution ")?;
    line.extend_from_slice(Buffer::new().format(place + 1).as_bytes())?;
    line.extend_from_slice(b" ")?;
    push_wrong(&mut line, model, wrong)?;
    line.extend_from_slice(b"\n")?;
    Ok(line)
}

/// The line that says that so many solutions are right.
pub(crate) fn print_right(alloc: Global, count: usize) -> Result<Vec<u8>, AllocError>
    ensures { IfOk result (λ line. line.items ≡ right_line count) }
{
    let mut line = Vec::from_slice(alloc, b"ok ")?;
    line.extend_from_slice(Buffer::new().format(count).as_bytes())?;
    line.extend_from_slice(b"\n")?;
    Ok(line)
}

/// The line that says which variable isn't printed.
pub(crate) fn print_hidden(
    alloc: Global,
    model: &FznModel,
    variable: usize,
) -> Result<Vec<u8>, AllocError>
    ensures { IfOk result (λ line. line.items ≡ hidden_line model.now variable) }
{
    let mut line = Vec::from_slice(alloc, b"hidden ")?;
    line.extend_from_slice(declared_name(model, variable))?;
    line.extend_from_slice(b"\n")?;
    Ok(line)
}

/// The line that says that the solutions' text is that of no answer.
pub(crate) fn print_bad_text(alloc: Global) -> Result<Vec<u8>, AllocError>
    ensures { IfOk result (λ line. line.items ≡ bad_text_line) }
{
    Vec::from_slice(alloc, b"bad solution text\n")
}
