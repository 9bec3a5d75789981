//! The top call: from the words of the command line to the line of the verdict.

ghost use Rattle.std.specs.Prelude.{◌≡◌, ◌⊎◌, ℕ, List, None};
ghost use Rattle.fzn_io.specs.Faults.{CountRose};
ghost use Rattle.fzn_io.specs.Streams.{Adds, AddsFront, IsHeld};
ghost use Rattle.fzn_check.specs.Words.{names_of};
ghost use Rattle.fzn_check.specs.Outcome.{CanOpenFiles, EndsFor, IsEnd, IsErrorLine, IsKnown, IsVerdict, IsVerdictLine, NamesFiles, WereAskedFor, Wrote, WroteFront, plain_line};

use crate::ending::Ending;
use crate::reading::check_words;
use crate::status::{Status, plain_line};
use fzn_io::{Sink, Source, write_all};
use std::alloc::Global;
use std::thread::Threads;

/// Reads the words, the model and its solutions in the two files that they name, and writes to `out` that all are right, or the
/// first that is wrong; with any other status a line goes to `err`. Nothing is written to `out` unless the status is `Right`,
/// `Wrong` or `WriteFault`. The solutions are asked for only where the model's text has a model that hides no variable.
pub fn check_main<R: Threads + Sync, S: Source, K: Sink, E: Sink>(
    rt: &R,
    alloc: Global,
    words: &[String],
    files: &mut S,
    out: &mut K,
    err: &mut E,
) -> Status
    requires { CanOpenFiles (S.names files.old) (names_of words.now) }
    ensures usage { result ≡ Status.Usage → names_of words.now ≡ None }
    ensures not_taken { names_of words.now ≡ None → (result ≡ Status.Usage) ⊎ (result ≡ Status.NoMemory) }
    ensures complete { (status : Status) (line : List ℕ) → EndsFor IsKnown (S.held files.old) (names_of words.now) status line
        → (CountRose (S.faults files.old) (S.faults files.new) → ⊥)
        → (IsVerdict status → CountRose (K.faults out.old) (K.faults out.new) → ⊥)
        → (result ≡ status) ⊎ (result ≡ Status.NoMemory) }
    ensures verdict { IsVerdict result
        → Wrote (IsEnd (S.held files.old) (names_of words.now) result) (K.written out.old) (K.written out.new) }
    ensures front { result ≡ Status.WriteFault
        → WroteFront (IsVerdictLine (S.held files.old) (names_of words.now)) (K.written out.old) (K.written out.new) }
    ensures silent { (IsVerdict result → ⊥) → (result ≡ Status.WriteFault → ⊥) → out.new ≡ out.old }
    ensures read_fault { result ≡ Status.ReadFault → NamesFiles (names_of words.now) × CountRose (S.faults files.old) (S.faults files.new) }
    ensures write_fault { result ≡ Status.WriteFault → CountRose (K.faults out.old) (K.faults out.new) }
    ensures unread { (NamesFiles (names_of words.now) → ⊥) → files.new ≡ files.old }
    ensures held_kept { S.held files.new ≡ S.held files.old }
    ensures asked { NamesFiles (names_of words.now)
        → ((files.new ≡ files.old) × (result ≡ Status.NoMemory)) ⊎ WereAskedFor (S.held files.old) (names_of words.now) (S.names files.old) (S.names files.new) (S.left files.new) (S.is_open files.new) result }
    ensures err_line { (CountRose (E.faults err.old) (E.faults err.new) → ⊥)
        → Wrote (IsErrorLine (S.held files.old) (names_of words.now) result) (E.written err.old) (E.written err.new) }
    ensures err_front { WroteFront (IsErrorLine (S.held files.old) (names_of words.now) result) (E.written err.old) (E.written err.new) }
{
    match check_words(rt, alloc, words, files) {
        Ending::Judged { status, line } => tell_verdict(out, err, status, &line),
        Ending::Stopped { status, line } => {
            tell_error(err, &line);
            status
        }
        Ending::Plain(status) => {
            tell_error(err, plain_line(status));
            status
        }
    }
}

/// Writes the line of a verdict.
fn tell_verdict<K: Sink, E: Sink>(out: &mut K, err: &mut E, status: Status, line: &[u8]) -> Status
    requires { IsVerdict status }
    ensures ends { (result ≡ status) ⊎ (result ≡ Status.WriteFault) }
    ensures verdict { result ≡ status → Adds (K.written out.old) (K.written out.new) line.now }
    ensures front { AddsFront (K.written out.old) (K.written out.new) line.now }
    ensures write_fault { result ≡ Status.WriteFault → CountRose (K.faults out.old) (K.faults out.new) }
    ensures err_line { (CountRose (E.faults err.old) (E.faults err.new) → ⊥)
        → Adds (E.written err.old) (E.written err.new) (plain_line result) }
    ensures err_front { AddsFront (E.written err.old) (E.written err.new) (plain_line result) }
{
    let ended = match write_all(out, line) {
        Ok(()) => status,
        Err(_) => Status::WriteFault,
    };
    tell_error(err, plain_line(ended));
    ended
}

/// Writes a line to standard error, whose faults change no status.
fn tell_error<E: Sink>(err: &mut E, line: &[u8])
    ensures line { (CountRose (E.faults err.old) (E.faults err.new) → ⊥)
        → Adds (E.written err.old) (E.written err.new) line.now }
    ensures front { AddsFront (E.written err.old) (E.written err.new) line.now }
{
    let _ = write_all(err, line);
}

/// What is said where there is no memory for the words.
pub fn report_memory<E: Sink>(err: &mut E) -> Status
    ensures is { result ≡ Status.NoMemory }
    ensures line { (CountRose (E.faults err.old) (E.faults err.new) → ⊥)
        → Adds (E.written err.old) (E.written err.new) (plain_line Status.NoMemory) }
    ensures front { AddsFront (E.written err.old) (E.written err.new) (plain_line Status.NoMemory) }
{
    tell_error(err, plain_line(Status::NoMemory));
    Status::NoMemory
}
