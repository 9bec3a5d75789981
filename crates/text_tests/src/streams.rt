//! What a caller that is generic in its source and sinks can promise, and each source and sink at work.

ghost use Rattle.std.specs.Prelude.{◌≡◌, ◌≢◌, ℕ, List, codes, IfOk};
ghost use Rattle.fzn_io.specs.Faults.{CountRose};
ghost use Rattle.fzn_io.specs.Memory.{name_of};
ghost use Rattle.fzn_io.specs.Streams.{Adds, AddsFront, IsNextName, IsHeld, IsLonger};

use fzn_io::{
    FileSource, HonestSink, HonestSource, MemSink, MemSource, Named, ReadError, Sink, Source,
    StdSink, WriteFault, read_all, read_named, write_all,
};
use std::alloc::{AllocError, Global};
use std::fs;
use std::test::Fail;

const TEXT: &[u8] = b"abcdefg";

#[derive(Clone, Copy, Debug, PartialEq, Eq)]
enum Status {
    Passed,
    TooLong,
    ReadFault,
    WriteFault,
    NoMemory,
}

/// Passes a text on to `out`, or writes `line` to `err` where the text is too long.
fn pass_on<S: Source, K: Sink, E: Sink>(
    alloc: Global,
    files: &mut S,
    name: &str,
    limit: usize,
    out: &mut K,
    err: &mut E,
    line: &[u8],
) -> Status
    requires { IsNextName (S.names files.old) name.now }
    ensures passed { result ≡ Status.Passed → (text : List ℕ) × IsHeld (S.held files.old name.now) text × Adds (K.written out.old) (K.written out.new) text }
    ensures front { result ≡ Status.WriteFault → (text : List ℕ) × IsHeld (S.held files.old name.now) text × AddsFront (K.written out.old) (K.written out.new) text }
    ensures too_long { result ≡ Status.TooLong → IsLonger (S.held files.old name.now) limit }
    ensures read_fault { result ≡ Status.ReadFault → CountRose (S.faults files.old) (S.faults files.new) }
    ensures write_fault { result ≡ Status.WriteFault → CountRose (K.faults out.old) (K.faults out.new) }
    ensures line { result ≡ Status.TooLong → (CountRose (E.faults err.old) (E.faults err.new) → ⊥) → Adds (E.written err.old) (E.written err.new) line.now }
    ensures silent { result ≢ Status.TooLong → err.new ≡ err.old }
{
    let text = match read_named(alloc, files, name, limit) {
        Ok(text) => text,
        Err(ReadError::ReadFault) => return Status::ReadFault,
        Err(ReadError::NoMemory) => return Status::NoMemory,
        Err(ReadError::TooLong) => {
            let _ = write_all(err, line);
            return Status::TooLong;
        }
    };
    match write_all(out, &text) {
        Ok(()) => Status::Passed,
        Err(WriteFault) => Status::WriteFault,
    }
}

/// The name `m` with its bytes.
fn named(alloc: Global, bytes: Option<&[u8]>) -> Result<Named, AllocError>
    ensures { IfOk result (λ n. name_of n ≡ codes "m") }
{
    let bytes = match bytes {
        Some(bytes) => Some(Vec::from_slice(alloc, bytes)?),
        None => None,
    };
    let name = String::from_str(alloc, "m")?;
    Ok(Named { name, bytes })
}

/// A source of one name, `m`, whose call number `failing` fails.
fn source_of(
    alloc: Global,
    bytes: Option<&[u8]>,
    chunk: usize,
    failing: u64,
) -> Result<MemSource, AllocError>
    ensures { IfOk result (λ s. IsNextName (⟦<MemSource as Source>⟧.names s) (codes "m")) }
{
    let failing = Vec::from_slice(alloc, &[failing])?;
    let mut names = Vec::new(alloc);
    names.push(named(alloc, bytes)?)?;
    Ok(MemSource::new(names, chunk, failing))
}

/// The status of passing `m` on, and how many bytes came out.
fn passed(alloc: Global, mut files: MemSource, limit: usize, mut out: MemSink) -> (Status, usize)
    requires { IsNextName (⟦<MemSource as Source>⟧.names files) (codes "m") }
{
    let mut err = HonestSink::new(alloc);
    let status = pass_on(
        alloc,
        &mut files,
        "m",
        limit,
        &mut out,
        &mut err,
        b"too long",
    );
    (status, out.bytes().len())
}

#[test]
fn a_text_is_read_in_pieces_or_refused(rt: HostRuntime) -> Result<(), Fail> {
    let alloc = rt.alloc();
    let table = [
        (Some(TEXT), 1, 0, 7, (Status::Passed, 7)),
        (Some(TEXT), 3, 0, 7, (Status::Passed, 7)),
        (Some(TEXT), 1000, 0, 1000, (Status::Passed, 7)),
        (Some(TEXT), 0, 0, 6, (Status::Passed, 0)),
        (Some(TEXT), 3, 0, 6, (Status::TooLong, 0)),
        (Some(TEXT), 1000, 0, 6, (Status::TooLong, 0)),
        (Some(TEXT), 3, 1, 7, (Status::ReadFault, 0)),
        (Some(TEXT), 3, 3, 7, (Status::ReadFault, 0)),
        (Some(TEXT), 3, 6, 7, (Status::Passed, 7)),
        (None, 3, 0, 7, (Status::ReadFault, 0)),
    ];
    for (bytes, chunk, failing, limit, want) in table {
        let files = source_of(alloc, bytes, chunk, failing)?;
        let out = MemSink::new(alloc, 1000, Vec::new(alloc));
        let got = passed(alloc, files, limit, out);
        assert_eq!(rt; got, want, "chunk {chunk}, limit {limit}");
    }
    Ok(())
}

/// How many bytes are left of the name `m` once it is open, at most `limit`, or why they aren't read.
fn left_of(alloc: Global, mut files: MemSource, limit: usize) -> Result<usize, ReadError>
    requires { IsNextName (⟦<MemSource as Source>⟧.names files) (codes "m") }
{
    match files.open_named("m") {
        Ok(()) => {}
        Err(_) => return Err(ReadError::ReadFault),
    }
    match read_all(alloc, &mut files, limit) {
        Ok(text) => Ok(text.len()),
        Err(error) => Err(error),
    }
}

#[test]
fn the_rest_of_an_open_text_is_read(rt: HostRuntime) -> Result<(), Fail> {
    for (chunk, failing, limit, want) in [
        (3, 0, 7, Ok(7)),
        (3, 0, 6, Err(ReadError::TooLong)),
        (3, 2, 7, Err(ReadError::ReadFault)),
    ] {
        let files = source_of(rt.alloc(), Some(TEXT), chunk, failing)?;
        let got = left_of(rt.alloc(), files, limit);
        assert_eq!(rt; got, want, "call {failing} fails, limit {limit}");
    }
    Ok(())
}

/// What was written to a sink whose call number `failing` fails: whether it is this front of the text, the sink's
/// faults, and whether it was refused.
fn written(
    alloc: Global,
    chunk: usize,
    failing: u64,
    front: &[u8],
) -> Result<(bool, u64, bool), AllocError> {
    let mut out = MemSink::new(alloc, chunk, Vec::from_slice(alloc, &[failing])?);
    let refused = write_all(&mut out, TEXT).is_err();
    Ok((out.bytes() == front, out.faults(), refused))
}

#[test]
fn a_front_is_written_where_a_call_fails(rt: HostRuntime) -> Result<(), Fail> {
    for (chunk, failing, front, faults) in [
        (4, 2, "abcd", 1),
        (4, 0, "abcdefg", 0),
        (1, 1, "", 1),
        (3, 3, "abcdef", 1),
        (0, 0, "", 1),
    ] {
        let got = written(rt.alloc(), chunk, failing, front.as_bytes())?;
        assert_eq!(rt; got, (true, faults, faults == 1), "chunk {chunk}");
    }
    Ok(())
}

/// Whether honest ones write the text where it is passed on, and the line where it is too long.
fn pass_all_on(alloc: Global) -> Result<bool, AllocError> {
    let mut files = HonestSource::new(Vec::from_slice(alloc, TEXT)?);
    let mut out = HonestSink::new(alloc);
    let mut err = HonestSink::new(alloc);
    for limit in [7, 6] {
        let _ = pass_on(alloc, &mut files, "any", limit, &mut out, &mut err, b"long");
    }
    Ok(out.tells_all() && out.bytes() == Some(TEXT) && err.bytes() == Some(b"long".as_slice()))
}

#[test]
fn honest_ones_pass_all_on(rt: HostRuntime) -> Result<(), Fail> {
    assert!(rt; pass_all_on(rt.alloc())?);
    Ok(())
}

#[test]
fn real_files_are_read_and_written(rt: HostRuntime) -> Result<(), Fail> {
    let alloc = rt.alloc();
    fs::write(&rt, "text", TEXT)?;
    let mut files = FileSource::new(&rt);
    assert!(rt; files.open_named("absent").is_err());
    let mut out = StdSink::new(fs::create(&rt, "copy")?);
    let mut err = StdSink::new(rt.stderr());
    let got = pass_on(alloc, &mut files, "text", 7, &mut out, &mut err, b"");
    assert_eq!(rt; got, Status::Passed);
    assert_eq!(rt; fs::read(&rt, "copy")?.as_slice(), TEXT);
    Ok(())
}

#[test]
fn real_faults_are_counted(rt: HostRuntime) -> Result<(), Fail> {
    let alloc = rt.alloc();
    fs::write(&rt, "text", TEXT)?;
    let mut files = FileSource::new(&rt);
    // a folder is opened, and can't be read
    let mut out = HonestSink::new(alloc);
    let mut err = HonestSink::new(alloc);
    let got = pass_on(alloc, &mut files, ".", 7, &mut out, &mut err, b"");
    assert_eq!(rt; (got, files.faults()), (Status::ReadFault, 1));
    // a file that is open for reading can't be written
    let mut out = StdSink::new(fs::open(&rt, "text")?);
    let got = pass_on(alloc, &mut files, "text", 7, &mut out, &mut err, b"");
    assert_eq!(rt; (got, files.faults()), (Status::WriteFault, 1));
    assert_eq!(rt; out.faults(), 1);
    Ok(())
}
