//! The top call on words, two files and streams in memory, and what it is to end with.

ghost use Rattle.std.specs.Prelude.{◌≡◌, Some, [], ◌∷◌, codes};
ghost use Rattle.fzn_check.specs.Words.{texts_of};

use fzn_check::{Status, check_main};
use fzn_io::{HonestSource, MemSink, MemSource, Named, Source};
use std::alloc::{AllocError, Global};
use std::process::Abort;
use std::test::Fail;
use std::thread::Threads;

/// Both factors of -6.
pub(crate) const FACTORS: &str = "var -3..3: x :: output_var; var -3..3: y :: output_var; \
     constraint int_times(x,y,-6); solve satisfy;";

/// A stream in memory: the most bytes that a call gives or takes, and the number of the call that fails; 0 is none.
pub(crate) type Stream = (usize, u64);

/// A stream of which no call fails.
pub(crate) const SOUND: Stream = (1024, 0);

/// What a call did.
#[derive(Drop)]
pub(crate) struct Outcome {
    pub(crate) status: Status,
    pub(crate) out: MemSink,
    pub(crate) err: MemSink,
}

/// What a call is to end with: its status, and what it writes to standard output and to standard error.
pub(crate) type Ended<'a> = (Status, &'a str, &'a str);

/// A sink in memory.
pub(crate) fn sink(alloc: Global, stream: Stream) -> Result<MemSink, AllocError> {
    let (chunk, failing) = stream;
    Ok(MemSink::new(alloc, chunk, vec![in alloc; failing]?))
}

/// The call on the words that name the two files, over a source that has these alone.
fn check_named<S: Source>(
    rt: &(impl Threads + Sync),
    alloc: Global,
    words: &[String],
    files: &mut S,
    out: &mut MemSink,
    err: &mut MemSink,
) -> Status
    requires words { texts_of words.now ≡ codes "fzncheck" ∷ codes "m.fzn" ∷ codes "s.txt" ∷ [] }
    requires files { S.names files.old ≡ Some (codes "m.fzn" ∷ codes "s.txt" ∷ []) }
{
    check_main(rt, alloc, words, files, out, err)
}

/// Runs the checker on two files, each of which holds its text or isn't there, over these streams: the files', standard output
/// and standard error.
pub(crate) fn run_files(
    rt: &(impl Threads + Sync),
    alloc: Global,
    model: Option<&str>,
    solutions: Option<&str>,
    streams: (Stream, Stream, Stream),
) -> Result<Outcome, AllocError> {
    let words = vec![in alloc;
        String::from_str(alloc, "fzncheck")?,
        String::from_str(alloc, "m.fzn")?,
        String::from_str(alloc, "s.txt")?,
    ]?;
    let model = Named {
        name: String::from_str(alloc, "m.fzn")?,
        bytes: bytes_of(alloc, model)?,
    };
    let solutions = Named {
        name: String::from_str(alloc, "s.txt")?,
        bytes: bytes_of(alloc, solutions)?,
    };
    let (chunk, failing) = streams.0;
    let mut files = MemSource::new(
        vec![in alloc; model, solutions]?,
        chunk,
        vec![in alloc; failing]?,
    );
    let mut out = sink(alloc, streams.1)?;
    let mut err = sink(alloc, streams.2)?;
    let status = check_named(rt, alloc, &words, &mut files, &mut out, &mut err);
    Ok(Outcome { status, out, err })
}

/// The bytes of a text, where it is there.
fn bytes_of(alloc: Global, text: Option<&str>) -> Result<Option<Vec<u8>>, AllocError> {
    match text {
        Some(text) => Ok(Some(Vec::from_slice(alloc, text.as_bytes())?)),
        None => Ok(None),
    }
}

/// The call on these texts ended so.
pub(crate) fn assert_ended(
    rt: &impl Abort,
    outcome: &Outcome,
    ended: &Ended<'_>,
    texts: (&str, &str),
) {
    let (status, out, err) = *ended;
    let (model, solutions) = texts;
    assert_eq!(rt; outcome.status, status, "at {model} and {solutions}");
    assert_eq!(rt;
        outcome.out.bytes(),
        out.as_bytes(),
        "at {model} and {solutions}"
    );
    assert_eq!(rt;
        outcome.err.bytes(),
        err.as_bytes(),
        "at {model} and {solutions}"
    );
}

/// The checker ends so on these texts, over streams of which no call fails.
pub(crate) fn assert_texts(
    rt: &(impl Abort + Threads + Sync),
    alloc: Global,
    model: &str,
    solutions: &str,
    ended: &Ended<'_>,
) -> Result<(), AllocError> {
    let streams = (SOUND, SOUND, SOUND);
    let outcome = run_files(rt, alloc, Some(model), Some(solutions), streams)?;
    assert_ended(rt, &outcome, ended, (model, solutions));
    Ok(())
}

/// Lists of words, each with what the checker ends with where both files hold the text of the factors' model: it is no text of
/// solutions.
const WORDS: &[(&str, Ended<'static>)] = &[
    ("fzncheck", USAGE),
    ("fzncheck m.fzn", USAGE),
    ("fzncheck m.fzn s.txt other", USAGE),
    ("fzncheck -h", USAGE),
    ("fzncheck -h m.fzn s.txt", USAGE),
    ("fzncheck -a m.fzn s.txt", USAGE),
    (
        "fzncheck m.fzn s.txt",
        (Status::BadText, "", "bad solution text\n"),
    ),
];

const USAGE: Ended<'static> = (Status::Usage, "", "usage: fzncheck MODEL SOLUTION\n");

/// These words, which are written with a blank between each two.
fn words_of(alloc: Global, words: &str) -> Result<Vec<String>, AllocError> {
    let mut list = Vec::new(alloc);
    for word in words.split(' ') {
        list.push(String::from_str(alloc, word)?)?;
    }
    Ok(list)
}

/// Runs the checker on these words, where each file holds the text of the factors' model.
fn run_words(
    rt: &(impl Threads + Sync),
    alloc: Global,
    words: &str,
) -> Result<Outcome, AllocError> {
    let words = words_of(alloc, words)?;
    let mut files = HonestSource::new(Vec::from_slice(alloc, FACTORS.as_bytes())?);
    let mut out = sink(alloc, SOUND)?;
    let mut err = sink(alloc, SOUND)?;
    let status = check_main(rt, alloc, &words, &mut files, &mut out, &mut err);
    Ok(Outcome { status, out, err })
}

#[test]
fn other_words_get_the_usage_line(rt: HostRuntime) -> Result<(), Fail> {
    for (words, ended) in WORDS {
        let outcome = run_words(&rt, rt.alloc(), words)?;
        assert_ended(&rt, &outcome, ended, (words, FACTORS));
    }
    Ok(())
}
