//! The line of a refused text.

ghost use Rattle.std.specs.Prelude.{◌≡◌, IfOk};
ghost use Rattle.model_text.specs.Files.{kind_name, refusal_line};

use fzn_model::FaultKind;
use itoa::Buffer;
use std::alloc::{AllocError, Global};

/// The name of a kind of fault.
fn name_of_kind(kind: u8) -> &'static str
    ensures { result.now ≡ kind_name kind }
{
    match FaultKind::numbered(kind) {
        Some(kind) => kind.name(),
        None => "",
    }
}

/// The line that says a fault of this kind, on this line of the text. Errors: memory.
pub fn print_refusal(alloc: Global, kind: u8, line: u64) -> Result<Vec<u8>, AllocError>
    ensures { IfOk result (λ bytes. bytes.items ≡ refusal_line kind line) }
{
    let mut number = Buffer::new();
    let mut bytes = Vec::from_slice(alloc, b"refused ")?;
    bytes.extend_from_slice(number.format(kind).as_bytes())?;
    bytes.extend_from_slice(b" ")?;
    bytes.extend_from_slice(name_of_kind(kind).as_bytes())?;
    bytes.extend_from_slice(b" line ")?;
    bytes.extend_from_slice(number.format(line).as_bytes())?;
    bytes.extend_from_slice(b"\n")?;
    Ok(bytes)
}
