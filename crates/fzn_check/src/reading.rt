//! From the words to the end of the check.

ghost use Rattle.std.specs.Prelude.{◌≡◌, ◌⊎◌, ◌≤◌, Some, length, IfOk, IfErr, IsErrOf};
ghost use Rattle.fzn_io.specs.Streams.{IsHeld, IsNextName};
ghost use Rattle.constraint_model.specs.WellFormed.{IsWellFormed};
ghost use Rattle.fzn_print.specs.Reading.{AllPrinted};
ghost use Rattle.model_text.specs.Texts.{most_bytes, too_long};
ghost use Rattle.model_text.specs.Files.{WasAsked, refusal_line};
ghost use Rattle.fzn_check.specs.Words.{names_meant, names_of};
ghost use Rattle.fzn_check.specs.Outcome.{CanOpenFiles, MayEndEarly, MayEndLate, NamesFiles, WereAskedFor};
ghost use Rattle.fzn_check.specs.Steps.{IsEarlyEnding, IsEnding, IsHeldEnding, IsUnread, StopsWith, status_in};

use crate::ending::Ending;
use crate::judging::{judge_text, shown_model};
use crate::lines::print_bad_text;
use crate::status::Status;
use crate::words::{Names, WordsError, read_words};
use constraint_model::FznModel;
use fzn_io::{ReadError, Source, read_named};
use fzn_model::FaultKind;
use model_text::{MOST_BYTES, law_long_text, law_one_text, print_refusal};
use std::alloc::Global;
use std::thread::Threads;

/// The end of a check of the files that the words name.
pub(crate) fn check_words<R: Threads + Sync, S: Source>(
    rt: &R,
    alloc: Global,
    words: &[String],
    files: &mut S,
) -> Ending
    requires { CanOpenFiles (S.names files.old) (names_of words.now) }
    ensures ends { IsEnding (S.held files.old) (names_of words.now) (S.faults files.old) (S.faults files.new) result }
    ensures unread { (NamesFiles (names_of words.now) → ⊥) → files.new ≡ files.old }
    ensures held_kept { S.held files.new ≡ S.held files.old }
    ensures asked { NamesFiles (names_of words.now)
        → ((files.new ≡ files.old) × (result ≡ Ending.Plain Status.NoMemory)) ⊎ WereAskedFor (S.held files.old) (names_of words.now) (S.names files.old) (S.names files.new) (S.left files.new) (S.is_open files.new) (status_in result) }
{
    match read_words(alloc, words) {
        Ok(names) => check_files(rt, alloc, &names, files),
        Err(WordsError::NotTaken) => Ending::Plain(Status::Usage),
        Err(WordsError::NoMemory) => Ending::Plain(Status::NoMemory),
    }
}

/// The end of a check of two files.
fn check_files<R: Threads + Sync, S: Source>(
    rt: &R,
    alloc: Global,
    names: &Names<'_>,
    files: &mut S,
) -> Ending
    requires { CanOpenFiles (S.names files.old) (Some (names_meant names.now)) }
    ensures ends { IsEnding (S.held files.old) (Some (names_meant names.now)) (S.faults files.old) (S.faults files.new) result }
    ensures held_kept { S.held files.new ≡ S.held files.old }
    ensures asked { WereAskedFor (S.held files.old) (Some (names_meant names.now)) (S.names files.old) (S.names files.new) (S.left files.new) (S.is_open files.new) (status_in result) }
{
    law_one_text();
    let text = match read_model_file(alloc, names.model, files) {
        Ok(text) => text,
        Err(ending) => return ending,
    };
    match shown_model(alloc, &text) {
        Ok(model) => check_solutions(rt, alloc, &model, names.solutions, files),
        Err(ending) => ending,
    }
}

/// The text of the model's file.
fn read_model_file<S: Source>(alloc: Global, name: &str, files: &mut S) -> Result<Vec<u8>, Ending>
    requires { IsNextName (S.names files.old) name.now }
    ensures ok { IfOk result (λ text. IsHeld (S.held files.old name.now) text.items) }
    ensures ends { IfErr result (IsEarlyEnding (S.held files.old name.now) (S.faults files.old) (S.faults files.new)) }
    ensures early { IfErr result (λ e. MayEndEarly (status_in e)) }
    ensures never_falls { S.faults files.old ≤ S.faults files.new }
    ensures held_kept { S.held files.new ≡ S.held files.old }
    ensures asked { WasAsked (S.held files.old name.now) (S.names files.old) (S.names files.new) (S.left files.new) (S.is_open files.new) (IsErrOf result (Ending.Plain Status.ReadFault)) }
{
    law_long_text();
    match read_named(alloc, files, name, MOST_BYTES) {
        Ok(text) => Ok(text),
        Err(ReadError::ReadFault) => Err(Ending::Plain(Status::ReadFault)),
        Err(ReadError::TooLong) => Err(too_long(alloc)),
        Err(ReadError::NoMemory) => Err(Ending::Plain(Status::NoMemory)),
    }
}

/// The end where the model's text is too long.
fn too_long(alloc: Global) -> Ending
    ensures { StopsWith (Status.Refused too_long 0) (refusal_line too_long 0) result }
{
    let kind = FaultKind::TooLong.number();
    let status = Status::Refused { kind, line: 0 };
    Ending::stopped(status, print_refusal(alloc, kind, 0))
}

/// The end of a check of the solutions of a file, where the model's text doesn't end it.
fn check_solutions<R: Threads + Sync, S: Source>(
    rt: &R,
    alloc: Global,
    model: &FznModel,
    name: &str,
    files: &mut S,
) -> Ending
    requires model { IsWellFormed model.now }
    requires shown { AllPrinted model.now }
    requires open { IsNextName (S.names files.old) name.now }
    ensures ends { IsHeldEnding model.now (S.held files.old name.now) (S.faults files.old) (S.faults files.new) result }
    ensures late { MayEndLate (status_in result) }
    ensures never_falls { S.faults files.old ≤ S.faults files.new }
    ensures held_kept { S.held files.new ≡ S.held files.old }
    ensures asked { WasAsked (S.held files.old name.now) (S.names files.old) (S.names files.new) (S.left files.new) (S.is_open files.new) (status_in result ≡ Status.ReadFault) }
{
    match read_named(alloc, files, name, MOST_BYTES) {
        Ok(bytes) => judge_text(rt, alloc, model, &bytes),
        Err(error) => unread(alloc, error),
    }
}

/// The end where the solutions' text isn't read whole.
fn unread(alloc: Global, error: ReadError) -> Ending
    ensures { IsUnread error result }
{
    match error {
        ReadError::ReadFault => Ending::Plain(Status::ReadFault),
        ReadError::TooLong => Ending::stopped(Status::BadText, print_bad_text(alloc)),
        ReadError::NoMemory => Ending::Plain(Status::NoMemory),
    }
}
