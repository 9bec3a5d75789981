//! The text of a solution.

ghost use Rattle.std.specs.Prelude.{◌≡◌, ◌++◌, IfOk, OnOk, flat_map};
ghost use Rattle.fzn_print.specs.AnswerText.{output_line, output_text, solution_text};

use crate::arrays::push_array;
use crate::values::push_term;
use constraint_model::{FznModel, Output};
use memory::NoMemory;
use std::alloc::{AllocError, Global};

/// What ends a solution.
const SOLUTION_END: &[u8] = b"----------\n";

/// The text of a solution: a line for each output of the model, and dashes. Errors: memory.
pub fn print_solution(
    alloc: Global,
    model: &FznModel,
    solution: &[i64],
) -> Result<Vec<u8>, NoMemory>
    ensures { IfOk result (λ text. text.items ≡ solution_text model.now solution.now) }
{
    let mut text = Vec::new(alloc);
    push_lines(&mut text, model.output.as_slice(), solution)?;
    text.extend_from_slice(SOLUTION_END)?;
    Ok(text)
}

/// Adds the lines of outputs.
fn push_lines(text: &mut Vec<u8>, outputs: &[Output], solution: &[i64]) -> Result<(), AllocError>
    ensures { OnOk result (text.new.items ≡ text.old.items ++ flat_map (output_line solution.now) outputs.now) }
{
    for output in outputs {
        push_line(text, output, solution)?;
    }
    Ok(())
}

/// Adds the line of an output.
fn push_line(text: &mut Vec<u8>, output: &Output, solution: &[i64]) -> Result<(), AllocError>
    ensures { OnOk result (text.new.items ≡ text.old.items ++ output_line solution.now output.now) }
{
    match output {
        Output::Scalar { name, .. } => text.extend_from_slice(name.as_slice())?,
        Output::Array { name, .. } => text.extend_from_slice(name.as_slice())?,
    }
    text.extend_from_slice(b" = ")?;
    push_output(text, output, solution)?;
    text.extend_from_slice(b";\n")
}

/// Adds the value of an output, the text behind its name.
fn push_output(text: &mut Vec<u8>, output: &Output, solution: &[i64]) -> Result<(), AllocError>
    ensures { OnOk result (text.new.items ≡ text.old.items ++ output_text solution.now output.now) }
{
    match output {
        Output::Scalar { is_bool, value, .. } => push_term(text, *is_bool, *value, solution),
        Output::Array {
            is_bool,
            ranges,
            entries,
            ..
        } => push_array(
            text,
            *is_bool,
            ranges.as_slice(),
            entries.as_slice(),
            solution,
        ),
    }
}
