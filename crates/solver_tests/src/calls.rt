//! The top call on words, a file and streams in memory, and what it is to end with.

ghost use Rattle.command_line.specs.CommandLine.{config_of};
ghost use Rattle.solver_top.specs.Outcome.{CanOpen};

use fzn_io::{HonestSource, MemSink, Source};
use gate::{Gate, NoGate};
use solver_top::{Gates, Status, solve_main};
use std::alloc::{AllocError, Global};
use std::process::Abort;
use std::test::Fail;
use std::thread::Threads;

/// The text whose least solution is `x = 2`.
pub(crate) const BOUNDS: &str = "var 1..3: x :: output_var; constraint int_le(2,x); solve satisfy;";

/// A stream in memory: the most bytes that a call gives or takes, and the number of the call that fails; 0 is none.
pub(crate) type Stream = (usize, u64);

/// A stream of which no call fails.
pub(crate) const SOUND: Stream = (1024, 0);

/// What a call did.
#[derive(Drop)]
pub(crate) struct Outcome {
    pub(crate) status: Status,
    pub(crate) out: MemSink,
    pub(crate) err: MemSink,
}

/// What a call is to end with: its status, and what it writes to standard output and to standard error.
pub(crate) type Ended<'a> = (Status, &'a str, &'a str);

/// A sink in memory.
fn sink(alloc: Global, stream: Stream) -> Result<MemSink, AllocError> {
    let (chunk, failing) = stream;
    Ok(MemSink::new(alloc, chunk, vec![in alloc; failing]?))
}

/// Runs the program on these words and this source of files, over these streams, where tests hold up its workers and lanes
/// by these gates.
pub(crate) fn run_source<S: Source, C: Gate + Sync, L: Gate + Sync>(
    rt: &(impl Threads + Sync),
    alloc: Global,
    words: &[String],
    files: &mut S,
    streams: (Stream, Stream),
    gates: &Gates<C, L>,
) -> Result<Outcome, AllocError>
    requires { CanOpen (S.names files.old) (config_of words.now) }
{
    let mut out = sink(alloc, streams.0)?;
    let mut err = sink(alloc, streams.1)?;
    let status = solve_main(rt, alloc, words, files, &mut out, &mut err, gates);
    Ok(Outcome { status, out, err })
}

/// These words, which are written with a blank between each two.
fn words_of(alloc: Global, words: &str) -> Result<Vec<String>, AllocError> {
    let mut list = Vec::new(alloc);
    for word in words.split(' ') {
        list.push(String::from_str(alloc, word)?)?;
    }
    Ok(list)
}

/// Runs the program on these words and a file that holds the text.
pub(crate) fn run_gated<C: Gate + Sync, L: Gate + Sync>(
    rt: &(impl Threads + Sync),
    alloc: Global,
    words: &str,
    text: &str,
    streams: (Stream, Stream),
    gates: &Gates<C, L>,
) -> Result<Outcome, AllocError> {
    let words = words_of(alloc, words)?;
    let mut files = HonestSource::new(Vec::from_slice(alloc, text.as_bytes())?);
    run_source(rt, alloc, &words, &mut files, streams, gates)
}

/// The call on these words and this text ended so.
pub(crate) fn assert_ended(
    rt: &impl Abort,
    outcome: &Outcome,
    ended: &Ended<'_>,
    words: &str,
    text: &str,
) {
    let (status, out, err) = *ended;
    assert_eq!(rt; outcome.status, status, "at {words} on {text}");
    assert_eq!(rt; outcome.out.bytes(), out.as_bytes(), "at {words} on {text}");
    assert_eq!(rt; outcome.err.bytes(), err.as_bytes(), "at {words} on {text}");
}

/// The program ends so on these words, a file that holds the text, and these streams.
pub(crate) fn assert_streams(
    rt: &(impl Abort + Threads + Sync),
    alloc: Global,
    words: &str,
    text: &str,
    streams: (Stream, Stream),
    ended: &Ended<'_>,
) -> Result<(), AllocError> {
    let gates = Gates {
        crew: &NoGate,
        lanes: &NoGate,
    };
    let outcome = run_gated(rt, alloc, words, text, streams, &gates)?;
    assert_ended(rt, &outcome, ended, words, text);
    Ok(())
}

/// The program ends so on a file that holds the text, over streams of which no call fails.
pub(crate) fn assert_text(
    rt: &(impl Abort + Threads + Sync),
    alloc: Global,
    text: &str,
    ended: &Ended<'_>,
) -> Result<(), AllocError> {
    assert_streams(rt, alloc, "turbofzn m.fzn", text, (SOUND, SOUND), ended)
}

/// Each list of words has its answer on its text, and nothing goes to standard error.
pub(crate) fn assert_calls(
    rt: &(impl Abort + Threads + Sync),
    alloc: Global,
    table: &[(&str, &str, &str)],
) -> Result<(), Fail> {
    for (words, text, answer) in table {
        let ended = (Status::Answered, *answer, "");
        assert_streams(rt, alloc, words, text, (SOUND, SOUND), &ended)?;
    }
    Ok(())
}

/// Each text has its answer, and nothing goes to standard error.
pub(crate) fn assert_answers(
    rt: &(impl Abort + Threads + Sync),
    alloc: Global,
    table: &[(&str, &str)],
) -> Result<(), Fail> {
    for (text, answer) in table {
        assert_text(rt, alloc, text, &(Status::Answered, *answer, ""))?;
    }
    Ok(())
}

/// Each text is refused with its kind, its line and what goes to standard error, and nothing goes to standard output.
pub(crate) fn assert_refusals(
    rt: &(impl Abort + Threads + Sync),
    alloc: Global,
    table: &[(&str, u8, u64, &str)],
) -> Result<(), Fail> {
    for (text, kind, line, told) in table {
        let (kind, line) = (*kind, *line);
        assert_text(
            rt,
            alloc,
            text,
            &(Status::Refused { kind, line }, "", *told),
        )?;
    }
    Ok(())
}

/// Words that the command doesn't take.
const OTHER_WORDS: &[&str] = &[
    "turbofzn",
    "turbofzn -h",
    "turbofzn --version",
    "turbofzn -p 0 m.fzn",
    "turbofzn --make 1",
];

const USAGE: &str =
    "usage: turbofzn [-a] [-p N] [--lanes N] [--depth D] [--node-limit N] [--round-limit N] [--domains] [--steal] (FILE or --make N)\n";

#[test]
fn other_words_get_the_usage_line(rt: HostRuntime) -> Result<(), Fail> {
    for words in OTHER_WORDS {
        let ended = (Status::Usage, "", USAGE);
        assert_streams(&rt, rt.alloc(), words, BOUNDS, (SOUND, SOUND), &ended)?;
    }
    Ok(())
}
