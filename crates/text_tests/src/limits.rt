//! Texts at each limit, and one past it.

use crate::resolved::fault_of;
use std::alloc::{AllocError, Global};
use std::test::Fail;

/// A text with an item in which a word is repeated many times between a beginning and an end. The item has a fault of this
/// kind, or none.
type Case = (
    Option<u8>,
    &'static str,
    &'static str,
    (&'static str, usize),
    &'static str,
);

/// A list may have so many further entries.
const MOST: (&str, usize) = (",1", 65_535);

/// One more than that.
const ONE_MORE: (&str, usize) = (",1", 65_536);

const CASES: &[Case] = &[
    (
        Some(8),
        "",
        "var 0..",
        ("9", 100_000),
        ": x; solve satisfy;",
    ),
    (None, "", "set of int: s = {1", MOST, "}; solve satisfy;"),
    (None, "", "var {1", MOST, "}: x; solve satisfy;"),
    (
        None,
        "",
        "array [1..65536] of int: a = [1",
        MOST,
        "]; solve satisfy;",
    ),
    (
        Some(9),
        "",
        "array [1..65537] of int: a = [1",
        ONE_MORE,
        "]; solve satisfy;",
    ),
    (
        Some(3),
        "int: s = 1; ",
        "set of int: s = {1",
        ONE_MORE,
        "}; solve satisfy;",
    ),
    (
        Some(4),
        "",
        "constraint int_le(q, {1",
        ONE_MORE,
        "}); solve satisfy;",
    ),
    (
        Some(5),
        "",
        "constraint int_pow(1, {1",
        ONE_MORE,
        "}); solve satisfy;",
    ),
    (
        Some(6),
        "",
        "constraint int_le(1, {1",
        ONE_MORE,
        "}); solve satisfy;",
    ),
    (
        Some(7),
        "",
        "var set of {1",
        ONE_MORE,
        "}: s; solve satisfy;",
    ),
    (
        Some(8),
        "",
        "set of int: s = {140737488355328",
        ONE_MORE,
        "}; solve satisfy;",
    ),
    (
        Some(9),
        "solve satisfy; ",
        "set of int: s = {1",
        ONE_MORE,
        "};",
    ),
    (Some(9), "", "var {1", ONE_MORE, "}: x; solve satisfy;"),
    (
        None,
        "",
        "constraint pccp_all_different([1",
        (",1", 255),
        "]); solve satisfy;",
    ),
    (
        Some(9),
        "",
        "constraint pccp_all_different([1",
        (",1", 256),
        "]); solve satisfy;",
    ),
    (
        Some(9),
        "solve satisfy; ",
        "constraint pccp_all_different([1",
        (",1", 256),
        "]);",
    ),
    (
        Some(6),
        "",
        "constraint pccp_all_different([1",
        (",1", 256),
        "], 1); solve satisfy;",
    ),
    (
        Some(8),
        "",
        "constraint pccp_all_different([140737488355328",
        (",1", 256),
        "]); solve satisfy;",
    ),
    (
        Some(9),
        "",
        "array [1..0] of var {1",
        ONE_MORE,
        "}: a = []; solve satisfy;",
    ),
];

/// The item in which a word occurs so many times.
fn item_of(
    alloc: Global,
    item: &str,
    word: (&str, usize),
    rest: &str,
) -> Result<String, AllocError> {
    let mut text = String::from_str(alloc, item)?;
    for _ in 0..word.1 {
        text.push_str(word.0)?;
    }
    text.push_str(rest)?;
    Ok(text)
}

/// The kind of the fault of an item behind a front, where the fault is at the item, or none.
fn kind_of(alloc: Global, front: &str, item: &str) -> Result<Option<u8>, AllocError> {
    match fault_of(alloc, front, item)? {
        Some((kind, at)) if at == front.len() => Ok(Some(kind)),
        Some(_) => Err(AllocError),
        None => Ok(None),
    }
}

#[test]
fn lists_have_65536_entries_and_no_more(rt: HostRuntime) -> Result<(), Fail> {
    for (kind, front, item, word, rest) in CASES {
        let text = item_of(rt.alloc(), item, *word, rest)?;
        let found = kind_of(rt.alloc(), front, text.as_str())?;
        assert_eq!(rt; found, *kind, "at {front}{item}");
    }
    Ok(())
}

/// 65536 declarations, a line each.
fn declarations(alloc: Global) -> Result<String, AllocError> {
    let mut text = String::new(alloc);
    for number in 0..65_536u32 {
        write!(text, "var 1..1: b{number};\n")?;
    }
    Ok(text)
}

/// Two lines with element constraints that name the numbers from 2 to 131073.
fn element_lines(alloc: Global) -> Result<String, AllocError> {
    let mut text = String::new(alloc);
    for (first, last) in [(2u32, 65_537u32), (65_538, 131_073)] {
        text.push_str("constraint array_int_element(1,[")?;
        for number in first..last {
            write!(text, "{number},")?;
        }
        write!(text, "{last}],{last});\n")?;
    }
    Ok(text)
}

/// An array of 65535 booleans, and 16 lines each of which is run as 65536 propagators.
fn conjunctions(alloc: Global) -> Result<String, AllocError> {
    let mut text = String::from_str(alloc, "var bool: b;\narray [1..65535] of var bool: a = [b")?;
    for _ in 1..65_535 {
        text.push_str(",b")?;
    }
    text.push_str("];\n")?;
    for _ in 0..16 {
        text.push_str("constraint array_bool_and(a,b);\n")?;
    }
    Ok(text)
}

/// Whether a text has no fault, and with one item more too many of something.
fn is_full(alloc: Global, front: &str, more: &str) -> Result<bool, AllocError> {
    let fault = fault_of(alloc, front, "solve satisfy;")?;
    let passed = fault_of(alloc, front, more)?;
    Ok(fault == None && passed == Some((9, front.len())))
}

#[test]
fn a_text_declares_65536_variables_and_no_more(rt: HostRuntime) -> Result<(), Fail> {
    let front = declarations(rt.alloc())?;
    let more = "var 1..1: b; solve satisfy;";
    assert!(rt; is_full(rt.alloc(), front.as_str(), more)?);
    Ok(())
}

#[test]
fn a_text_has_131072_constants_and_no_more(rt: HostRuntime) -> Result<(), Fail> {
    let front = element_lines(rt.alloc())?;
    let more = "constraint int_le(1,131074); solve satisfy;";
    assert!(rt; is_full(rt.alloc(), front.as_str(), more)?);
    Ok(())
}

#[test]
fn constraints_are_run_as_1048576_propagators_and_no_more(rt: HostRuntime) -> Result<(), Fail> {
    let front = conjunctions(rt.alloc())?;
    let more = "constraint array_bool_and(a,b); solve satisfy;";
    assert!(rt; is_full(rt.alloc(), front.as_str(), more)?);
    Ok(())
}
