//! The top call: from the words of the command line to the bytes of the answer.

ghost use Rattle.std.specs.Prelude.{◌≡◌, ◌⊎◌, ℕ, None};
ghost use Rattle.fzn_io.specs.Faults.{CountRose};
ghost use Rattle.fzn_io.specs.Streams.{Adds, AddsFront};
ghost use Rattle.command_line.specs.CommandLine.{config_of};
ghost use Rattle.model_text.specs.Files.{IsFaultOfTold, ToldHasFault, ToldHasModel, WasAsked};
ghost use Rattle.solver_top.specs.Outcome.{CanOpen, ReadsFile, WroteAnswer, WroteFront, asked_text, status_line};

use crate::solving::answer_of_words;
use crate::status::{Status, report};
use answer::Gates;
use fzn_io::{Sink, Source, write_all};
use gate::Gate;
use model_text::law_one_text;
use std::alloc::Global;
use std::thread::Threads;

/// Reads the words and the file that they name, or makes the text that they ask for, and writes the answer to `out`; with
/// any other status a line goes to `err`. Nothing is written to `out` unless the status is `Answered` or `WriteFault`. A file that
/// was asked for is open then, and read as far as that took, unless the source refused.
pub fn solve_main<R: Threads + Sync, S: Source, K: Sink, E: Sink, C: Gate + Sync, L: Gate + Sync>(
    rt: &R,
    alloc: Global,
    words: &[String],
    files: &mut S,
    out: &mut K,
    err: &mut E,
    gates: &Gates<C, L>,
) -> Status
    requires { CanOpen (S.names files.old) (config_of words.now) }
    ensures usage { result ≡ Status.Usage → config_of words.now ≡ None }
    ensures not_taken { config_of words.now ≡ None → (result ≡ Status.Usage) ⊎ (result ≡ Status.NoMemory) }
    ensures answered { result ≡ Status.Answered
        → WroteAnswer (S.held files.old) (config_of words.now) (K.written out.old) (K.written out.new) }
    ensures refused { (kind line : ℕ) → result ≡ Status.Refused kind line → IsFaultOfTold (asked_text (S.held files.old) words.now) kind line }
    ensures read_fault { result ≡ Status.ReadFault → ReadsFile (config_of words.now) × CountRose (S.faults files.old) (S.faults files.new) }
    ensures write_fault { result ≡ Status.WriteFault → CountRose (K.faults out.old) (K.faults out.new) }
    ensures front { result ≡ Status.WriteFault
        → WroteFront (S.held files.old) (config_of words.now) (K.written out.old) (K.written out.new) }
    ensures silent { (result ≡ Status.Answered → ⊥) → (result ≡ Status.WriteFault → ⊥) → out.new ≡ out.old }
    ensures unread { (ReadsFile (config_of words.now) → ⊥) → files.new ≡ files.old }
    ensures held_kept { S.held files.new ≡ S.held files.old }
    ensures asked { ReadsFile (config_of words.now)
        → ((files.new ≡ files.old) × (result ≡ Status.NoMemory)) ⊎ WasAsked (asked_text (S.held files.old) words.now) (S.names files.old) (S.names files.new) (S.left files.new) (S.is_open files.new) (result ≡ Status.ReadFault) }
    ensures complete { ToldHasModel (asked_text (S.held files.old) words.now)
        → (CountRose (S.faults files.old) (S.faults files.new) → ⊥)
        → (CountRose (K.faults out.old) (K.faults out.new) → ⊥)
        → (result ≡ Status.Answered) ⊎ (result ≡ Status.NoMemory) }
    ensures every_fault { (kind line : ℕ) → ToldHasFault (asked_text (S.held files.old) words.now) kind line
        → (CountRose (S.faults files.old) (S.faults files.new) → ⊥)
        → (result ≡ Status.Refused kind line) ⊎ (result ≡ Status.NoMemory) }
    ensures err_line { (CountRose (E.faults err.old) (E.faults err.new) → ⊥)
        → Adds (E.written err.old) (E.written err.new) (status_line result) }
    ensures err_front { AddsFront (E.written err.old) (E.written err.new) (status_line result) }
{
    let status = match answer_of_words(rt, alloc, words, files, gates) {
        Ok(answer) => write_answer(out, &answer),
        Err(status) => status,
    };
    law_one_text();
    report(alloc, err, status)
}

/// Writes the answer.
fn write_answer<K: Sink>(out: &mut K, answer: &[u8]) -> Status
    ensures ends { (result ≡ Status.Answered) ⊎ (result ≡ Status.WriteFault) }
    ensures answered { result ≡ Status.Answered → Adds (K.written out.old) (K.written out.new) answer.now }
    ensures write_fault { result ≡ Status.WriteFault → CountRose (K.faults out.old) (K.faults out.new) }
    ensures front { AddsFront (K.written out.old) (K.written out.new) answer.now }
{
    match write_all(out, answer) {
        Ok(()) => Status::Answered,
        Err(_) => Status::WriteFault,
    }
}
