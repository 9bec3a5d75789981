//! Texts at each limit, and one step past it.

use crate::calls::{Ended, assert_text};
use solver_top::Status;
use std::alloc::{AllocError, Global};
use std::process::Abort;
use std::test::Fail;
use std::thread::Threads;

/// The text has a model and a solution.
const SOLVED: Ended<'static> = (Status::Answered, "----------\n", "");

/// So many declarations, a line each, of names that are numbered from 1.
fn declarations(alloc: Global, count: usize) -> Result<String, AllocError> {
    let mut text = String::new(alloc);
    for number in 0..count {
        write!(&mut text, "var 1..1: b{};\n", number + 1)?;
    }
    text.push_str("solve satisfy;")?;
    Ok(text)
}

#[test]
fn variables_are_65536_at_most(rt: HostRuntime) -> Result<(), Fail> {
    let past = Status::Refused {
        kind: 9,
        line: 65_537,
    };
    for (count, ended) in [
        (65_536, SOLVED),
        (65_537, (past, "", "refused 9 TooMany line 65537\n")),
    ] {
        let text = declarations(rt.alloc(), count)?;
        assert_text(&rt, rt.alloc(), &text, &ended)?;
    }
    Ok(())
}

/// The tree is as deep as there are variables that nothing fixes.
#[test]
fn branchings_have_no_limit_of_depth(rt: HostRuntime) -> Result<(), Fail> {
    let mut text = String::new(rt.alloc());
    for number in 0..4096 {
        write!(&mut text, "var bool: b{};\n", number + 1)?;
    }
    text.push_str("solve satisfy;")?;
    assert_text(&rt, rt.alloc(), &text, &SOLVED)?;
    Ok(())
}

/// Adds a line with an element constraint that names all numbers from the first to the last.
fn add_element_line(text: &mut String, first: usize, last: usize) -> Result<(), AllocError> {
    text.push_str("constraint array_int_element(1,[")?;
    for number in first..last {
        write!(text, "{number},")?;
    }
    write!(text, "{last}],{first});\n")
}

/// A text with 131,072 constants, and then these lines.
fn constants(alloc: Global, lines: &str) -> Result<String, AllocError> {
    let mut text = String::new(alloc);
    add_element_line(&mut text, 2, 65_537)?;
    add_element_line(&mut text, 65_538, 131_073)?;
    text.push_str(lines)?;
    Ok(text)
}

#[test]
fn constants_are_131072_at_most(rt: HostRuntime) -> Result<(), Fail> {
    let past = Status::Refused { kind: 9, line: 3 };
    for (lines, ended) in [
        ("solve satisfy;", SOLVED),
        (
            "constraint int_le(1,131074);\nsolve satisfy;",
            (past, "", "refused 9 TooMany line 3\n"),
        ),
    ] {
        let text = constants(rt.alloc(), lines)?;
        assert_text(&rt, rt.alloc(), &text, &ended)?;
    }
    Ok(())
}

/// Adds a word so many times.
fn add_times(text: &mut String, word: &str, count: usize) -> Result<(), AllocError> {
    for _ in 0..count {
        text.push_str(word)?;
    }
    Ok(())
}

/// An array of 65,535 booleans, and so many lines each of which is run as 65,536 propagators.
fn conjunctions(alloc: Global, count: usize) -> Result<String, AllocError> {
    let mut text = String::from_str(alloc, "var bool: b;\narray [1..65535] of var bool: a = [b")?;
    add_times(&mut text, ",b", 65_534)?;
    text.push_str("];\n")?;
    add_times(&mut text, "constraint array_bool_and(a,b);\n", count)?;
    text.push_str("solve satisfy;")?;
    Ok(text)
}

#[test]
fn propagators_are_1048576_at_most(rt: HostRuntime) -> Result<(), Fail> {
    let past = Status::Refused { kind: 9, line: 19 };
    for (count, ended) in [
        (16, SOLVED),
        (17, (past, "", "refused 9 TooMany line 19\n")),
    ] {
        let text = conjunctions(rt.alloc(), count)?;
        assert_text(&rt, rt.alloc(), &text, &ended)?;
    }
    Ok(())
}

/// The text before and after a word that is repeated so many times, and how the call ends.
type Repeated = (
    &'static str,
    &'static str,
    usize,
    &'static str,
    Ended<'static>,
);

/// Such a text.
fn repeated(alloc: Global, case: &Repeated) -> Result<String, AllocError> {
    let (front, word, count, rest, _) = *case;
    let mut text = String::from_str(alloc, front)?;
    add_times(&mut text, word, count)?;
    text.push_str(rest)?;
    Ok(text)
}

/// A text of blanks alone has no solve item.
const NO_SOLVE: Ended<'static> = (
    Status::Refused { kind: 10, line: 1 },
    "",
    "refused 10 NoSolve line 1\n",
);

const TOO_LONG: Ended<'static> = (
    Status::Refused { kind: 12, line: 0 },
    "",
    "refused 12 TooLong line 0\n",
);

const OUT_OF_RANGE: Ended<'static> = (
    Status::Refused { kind: 8, line: 1 },
    "",
    "refused 8 OutOfRange line 1\n",
);

/// Each text ends so.
fn assert_repeated(
    rt: &(impl Abort + Threads + Sync),
    alloc: Global,
    table: &[Repeated],
) -> Result<(), Fail> {
    for case in table {
        let text = repeated(alloc, case)?;
        assert_text(rt, alloc, &text, &case.4)?;
    }
    Ok(())
}

const BYTES: &[Repeated] = &[
    ("", " ", 67_108_850, "solve satisfy;", SOLVED),
    ("", " ", 67_108_864, "", NO_SOLVE),
    (" ", " ", 67_108_864, "", TOO_LONG),
];

#[test]
fn bytes_are_67108864_at_most(rt: HostRuntime) -> Result<(), Fail> {
    assert_repeated(&rt, rt.alloc(), BYTES)
}

const WORDS: &[Repeated] = &[
    ("var 0..", "0", 100_000, "1: x; solve satisfy;", SOLVED),
    ("var 0..", "9", 100_000, ": x; solve satisfy;", OUT_OF_RANGE),
    ("var bool: ", "a", 1_000_000, "; solve satisfy;", SOLVED),
];

#[test]
fn names_and_numbers_have_no_limit_of_length(rt: HostRuntime) -> Result<(), Fail> {
    assert_repeated(&rt, rt.alloc(), WORDS)
}

const TOO_MANY: Ended<'static> = (
    Status::Refused { kind: 9, line: 2 },
    "",
    "refused 9 TooMany line 2\n",
);

const TASKS: &[Repeated] = &[
    (
        "array [1..256] of int: a = [1",
        ",1",
        255,
        "];\nconstraint pccp_cumulative(a, a, a, 256); solve satisfy;",
        SOLVED,
    ),
    (
        "array [1..257] of int: a = [1",
        ",1",
        256,
        "];\nconstraint pccp_cumulative(a, a, a, 257); solve satisfy;",
        TOO_MANY,
    ),
];

#[test]
fn tasks_are_256_at_most(rt: HostRuntime) -> Result<(), Fail> {
    assert_repeated(&rt, rt.alloc(), TASKS)
}
