//! Faults of the file and of the streams: the status, and what is written until then.

ghost use Rattle.std.specs.Prelude.{◌≡◌};

use crate::calls::{BOUNDS, Ended, Outcome, SOUND, Stream, assert_ended, assert_streams};
use fzn_io::{MemSink, MemSource, Named};
use gate::NoGate;
use solver_top::{Gates, Status, solve_main};
use std::alloc::{AllocError, Global};
use std::test::Fail;
use std::thread::Threads;

/// Runs the program on a file that holds the text, or that isn't there. Opening it is the first call on the file.
fn run_file(
    rt: &(impl Threads + Sync),
    alloc: Global,
    text: Option<&str>,
    file: Stream,
) -> Result<Outcome, AllocError> {
    let words = vec![in alloc;
        String::from_str(alloc, "turbofzn")?,
        String::from_str(alloc, "m.fzn")?,
    ]?;
    let bytes = match text {
        Some(text) => Some(Vec::from_slice(alloc, text.as_bytes())?),
        None => None,
    };
    let named = Named {
        name: String::from_str(alloc, "m.fzn")?,
        bytes,
    };
    let (chunk, failing) = file;
    let mut files = MemSource::new(vec![in alloc; named]?, chunk, vec![in alloc; failing]?);
    let mut out = MemSink::new(alloc, 1024, Vec::new(alloc));
    let mut err = MemSink::new(alloc, 1024, Vec::new(alloc));
    let gates = Gates {
        crew: &NoGate,
        lanes: &NoGate,
    };
    let status = solve_main(rt, alloc, &words, &mut files, &mut out, &mut err, &gates);
    Ok(Outcome { status, out, err })
}

const UNREAD: Ended<'static> = (Status::ReadFault, "", "read fault\n");

const READ: Ended<'static> = (Status::Answered, "x = 2;\n----------\n", "");

/// The status of a text without items, which has no solve item.
const NO_SOLVE: Status = Status::Refused { kind: 10, line: 1 };

const EMPTY: Ended<'static> = (NO_SOLVE, "", "refused 10 NoSolve line 1\n");

/// The text of a file, how the file is read, and how the call ends. The text has 65 bytes: it is opened, read by five calls,
/// and the sixth finds its end. A file that gives nothing reads as an empty text.
const READS: &[(Option<&str>, Stream, Ended<'static>)] = &[
    (Some(BOUNDS), (13, 1), UNREAD),
    (Some(BOUNDS), (13, 2), UNREAD),
    (Some(BOUNDS), (13, 3), UNREAD),
    (Some(BOUNDS), (13, 4), UNREAD),
    (Some(BOUNDS), (13, 5), UNREAD),
    (Some(BOUNDS), (13, 6), UNREAD),
    (Some(BOUNDS), (13, 7), UNREAD),
    (Some(BOUNDS), (13, 8), READ),
    (None, SOUND, UNREAD),
    (Some(BOUNDS), (0, 0), EMPTY),
];

#[test]
fn a_failing_read_is_told(rt: HostRuntime) -> Result<(), Fail> {
    for (text, file, ended) in READS {
        let outcome = run_file(&rt, rt.alloc(), *text, *file)?;
        assert_ended(&rt, &outcome, ended, "turbofzn m.fzn", BOUNDS);
    }
    Ok(())
}

/// Both factors of -6.
const FACTORS: &str = "var -3..3: x :: output_var; var -3..3: y :: output_var; \
     constraint int_times(x,y,-6); solve satisfy;";

/// The words for one solution, and for all.
const ONE: &str = "turbofzn m.fzn";

const ALL: &str = "turbofzn -a m.fzn";

/// A sink of which the first call fails.
const FAILING: Stream = (1024, 1);

/// What goes to standard error where standard output fails.
const TOLD: &str = "write fault\n";

/// Words, a text, standard output and standard error, and how the call ends. A standard error that fails changes no status.
const WRITES: &[(&str, &str, (Stream, Stream), Ended<'static>)] = &[
    (ONE, BOUNDS, ((5, 1), SOUND), (Status::WriteFault, "", TOLD)),
    (
        ONE,
        BOUNDS,
        ((5, 2), SOUND),
        (Status::WriteFault, "x = 2", TOLD),
    ),
    (
        ONE,
        BOUNDS,
        ((5, 3), SOUND),
        (Status::WriteFault, "x = 2;\n---", TOLD),
    ),
    (
        ONE,
        BOUNDS,
        ((5, 4), SOUND),
        (Status::WriteFault, "x = 2;\n--------", TOLD),
    ),
    (ONE, BOUNDS, ((5, 5), SOUND), READ),
    (ONE, BOUNDS, ((0, 0), SOUND), (Status::WriteFault, "", TOLD)),
    (
        ONE,
        BOUNDS,
        ((4, 2), SOUND),
        (Status::WriteFault, "x = ", TOLD),
    ),
    (
        ALL,
        FACTORS,
        ((16, 2), SOUND),
        (Status::WriteFault, "x = -3;\ny = 2;\n-", TOLD),
    ),
    (ONE, "", (SOUND, FAILING), (NO_SOLVE, "", "")),
];

#[test]
fn a_failing_write_is_told(rt: HostRuntime) -> Result<(), Fail> {
    for (words, text, streams, ended) in WRITES {
        assert_streams(&rt, rt.alloc(), words, text, *streams, ended)?;
    }
    Ok(())
}
