//! What is written of a made text.

ghost use Rattle.std.specs.Prelude.{◌≡◌, ◌≤◌, ◌++◌, IfOk, OnOk};
ghost use Rattle.made_model.specs.Made.{objective_text, summary};

use itoa::Buffer;
use std::alloc::{AllocError, Global};

/// The line that is written of the made text of `n` variables, 2 to 2000: its size and its least objective, where that is
/// known. Errors: memory was refused.
pub fn made_summary(alloc: Global, n: u32, objective: Option<i64>) -> Result<Vec<u8>, AllocError>
    requires { n ≤ 2000 }
    ensures { IfOk result (λ line. line.items ≡ summary n objective) }
{
    let mut number = Buffer::new();
    let mut line = Vec::from_slice(alloc, b"variables ")?;
    line.extend_from_slice(number.format(n).as_bytes())?;
    line.extend_from_slice(b" kernels ")?;
    line.extend_from_slice(number.format(4 * n).as_bytes())?;
    line.extend_from_slice(b" objective ")?;
    push_objective(&mut line, objective)?;
    line.extend_from_slice(b"\n")?;
    Ok(line)
}

/// Adds the objective, or that it isn't known.
fn push_objective(line: &mut Vec<u8>, objective: Option<i64>) -> Result<(), AllocError>
    ensures { OnOk result (line.new.items ≡ line.old.items ++ objective_text objective) }
{
    match objective {
        Some(least) => line.extend_from_slice(Buffer::new().format(least).as_bytes()),
        None => line.extend_from_slice(b"unknown"),
    }
}
