//! Faults of the files and of the streams: the status, and what is written until then.

use crate::calls::{Ended, FACTORS, SOUND, Stream, assert_ended, run_files};
use fzn_check::Status;
use std::test::Fail;

/// One solution of the factors' model; it has 26 bytes.
const SOLUTION: &str = "x = -3;\ny = 2;\n----------\n";

const UNREAD: Ended<'static> = (Status::ReadFault, "", "read fault\n");

const RIGHT: Ended<'static> = (Status::Right, "ok 1\n", "");

const EMPTY: Ended<'static> = (
    Status::Refused { kind: 10, line: 1 },
    "",
    "refused 10 NoSolve line 1\n",
);

/// The two files, how they are read, and how the call ends. The model's text is opened, read by one call, and the next finds
/// its end; so are the solutions.
const READS: &[(Option<&str>, Option<&str>, Stream, Ended<'static>)] = &[
    (Some(FACTORS), Some(SOLUTION), (1024, 1), UNREAD),
    (Some(FACTORS), Some(SOLUTION), (1024, 2), UNREAD),
    (Some(FACTORS), Some(SOLUTION), (1024, 3), UNREAD),
    (Some(FACTORS), Some(SOLUTION), (1024, 4), UNREAD),
    (Some(FACTORS), Some(SOLUTION), (1024, 5), UNREAD),
    (Some(FACTORS), Some(SOLUTION), (1024, 6), UNREAD),
    (Some(FACTORS), Some(SOLUTION), (1024, 7), RIGHT),
    (Some(FACTORS), Some(SOLUTION), (7, 0), RIGHT),
    (None, Some(SOLUTION), SOUND, UNREAD),
    (Some(FACTORS), None, SOUND, UNREAD),
    // The solutions aren't asked for where the model is refused or hides a variable.
    (Some(""), None, SOUND, EMPTY),
    (
        Some("var 0..3: x; solve satisfy;"),
        None,
        SOUND,
        (Status::Hidden, "", "hidden x\n"),
    ),
];

#[test]
fn a_failing_read_is_told(rt: HostRuntime) -> Result<(), Fail> {
    for (model, solutions, files, ended) in READS {
        let streams = (*files, SOUND, SOUND);
        let outcome = run_files(&rt, rt.alloc(), *model, *solutions, streams)?;
        assert_ended(&rt, &outcome, ended, (FACTORS, SOLUTION));
    }
    Ok(())
}

/// A sink of which the first call fails.
const FAILING: Stream = (1024, 1);

/// The text of the solutions, standard output and standard error, and how the call ends. A standard error that fails changes no
/// status.
const WRITES: &[(&str, Stream, Stream, Ended<'static>)] = &[
    (
        SOLUTION,
        FAILING,
        SOUND,
        (Status::WriteFault, "", "write fault\n"),
    ),
    (
        SOLUTION,
        (3, 2),
        SOUND,
        (Status::WriteFault, "ok ", "write fault\n"),
    ),
    (SOLUTION, (3, 3), SOUND, RIGHT),
    (SOLUTION, SOUND, FAILING, RIGHT),
    (
        "x = 1;\ny = 1;\n----------\n",
        (9, 2),
        FAILING,
        (Status::WriteFault, "solution ", ""),
    ),
    ("x = 1;\n", SOUND, FAILING, (Status::BadText, "", "")),
];

#[test]
fn a_failing_write_is_told(rt: HostRuntime) -> Result<(), Fail> {
    for (solutions, out, err, ended) in WRITES {
        let streams = (SOUND, *out, *err);
        let outcome = run_files(&rt, rt.alloc(), Some(FACTORS), Some(solutions), streams)?;
        assert_ended(&rt, &outcome, ended, (FACTORS, solutions));
    }
    Ok(())
}
