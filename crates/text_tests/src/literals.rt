//! Which numbers literals write, as what is maximized.

use crate::resolved::resolved;
use constraint_model::{Goal, Term};
use std::alloc::{AllocError, Global};
use std::test::Fail;

/// The number that a literal writes, or the kind of its fault.
fn number_of(alloc: Global, literal: &str) -> Result<Result<i64, u8>, AllocError> {
    let text = format!(in alloc; "solve maximize {literal};")?;
    match resolved(alloc, text.as_bytes())? {
        Ok(model) => match model.goal {
            Goal::Maximize(Term::Number(number)) => Ok(Ok(number)),
            _ => Err(AllocError),
        },
        Err((kind, _)) => Ok(Err(kind)),
    }
}

#[test]
fn literals_are_read_in_three_bases(rt: HostRuntime) -> Result<(), Fail> {
    for (literal, number) in [
        ("0", Ok(0)),
        ("-0", Ok(0)),
        ("007", Ok(7)),
        ("-19", Ok(-19)),
        ("0x1f", Ok(31)),
        ("0x1F", Ok(31)),
        ("-0xaB", Ok(-171)),
        ("0o17", Ok(15)),
        ("-0o20", Ok(-16)),
        ("140737488355327", Ok(140_737_488_355_327)),
        ("-140737488355327", Ok(-140_737_488_355_327)),
        ("0x7fffffffffff", Ok(140_737_488_355_327)),
        ("-0o3777777777777777", Ok(-140_737_488_355_327)),
        // past the limit
        ("140737488355328", Err(8)),
        ("-140737488355328", Err(8)),
        ("0x800000000000", Err(8)),
        ("-0o4000000000000000", Err(8)),
        ("99999999999999999999999999", Err(8)),
        ("0x100000000000000000", Err(8)),
    ] {
        assert_eq!(rt; number_of(rt.alloc(), literal)?, number, "at {literal}");
    }
    Ok(())
}
