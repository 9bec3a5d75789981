//! What is written of the words, before it is written.

ghost use Rattle.std.specs.Prelude.{◌≡◌, ◌⊎◌, ◌≤◌, Some, IfOk, IfErr, IsErrOf};
ghost use Rattle.fzn_io.specs.Streams.{IsHeld};
ghost use Rattle.constraint_model.specs.WellFormed.{IsWellFormed};
ghost use Rattle.command_line.specs.CommandLine.{AreOptions, IsConfig, config_meant, config_of, input_meant};
ghost use Rattle.made_model.specs.Made.{made};
ghost use Rattle.model_text.specs.Texts.{IsCause, IsTextOf};
ghost use Rattle.solver_top.specs.Answers.{AreDomainsOf, IsAnswerOf, IsAnswerWith, IsLineOf, depth_of, most_parts, search_options};
ghost use Rattle.solver_top.specs.Outcome.{CanOpen, IsAnswerOfInput, IsAnswerOfWords, IsFileAlone, IsFileCause, IsInputCause, IsTextCause, IsWordsCause, IsWritten, ReadsFile, asked_text, told_of_input, told_text};
ghost use Rattle.model_text.specs.Files.{WasAsked};

use crate::printing::known_objective;
use crate::status::Status;
use answer::{Answer, Gates, answer, law_unfinished_marks};
use command_line::{Config, Input, Options, WordsError, read_words};
use domain_text::domains_of;
use fzn_io::{ReadError as FileError, Source, read_named};
use fzn_model::{FaultKind, FznModel, law_well_formed};
use fzn_print::print_answer;
use gate::Gate;
use made_model::{made_summary, made_text};
use memory::NoMemory;
use model_text::{MOST_BYTES, TextError, law_long_text, read_model, told_line};
use std::alloc::Global;
use std::thread::Threads;

/// What is to be written of the words.
pub(crate) fn answer_of_words<R: Threads + Sync, S: Source, C: Gate + Sync, L: Gate + Sync>(
    rt: &R,
    alloc: Global,
    words: &[String],
    files: &mut S,
    gates: &Gates<C, L>,
) -> Result<Vec<u8>, Status>
    requires { CanOpen (S.names files.old) (config_of words.now) }
    ensures ok { IfOk result (λ bytes. IsAnswerOfWords (S.held files.old) (config_of words.now) bytes.items) }
    ensures cause { IfErr result (IsWordsCause (S.held files.old) (config_of words.now) (S.faults files.old) (S.faults files.new)) }
    ensures unread { (ReadsFile (config_of words.now) → ⊥) → files.new ≡ files.old }
    ensures held_kept { S.held files.new ≡ S.held files.old }
    ensures asked { ReadsFile (config_of words.now)
        → ((files.new ≡ files.old) × IsErrOf result Status.NoMemory) ⊎ WasAsked (asked_text (S.held files.old) words.now) (S.names files.old) (S.names files.new) (S.left files.new) (S.is_open files.new) (IsErrOf result Status.ReadFault) }
{
    match read_words(alloc, words) {
        Ok(config) => answer_of_input(rt, alloc, &config, files, gates),
        Err(WordsError::NotTaken) => Err(Status::Usage),
        Err(WordsError::NoMemory) => Err(Status::NoMemory),
    }
}

/// What is to be written of a file or of a made text.
fn answer_of_input<R: Threads + Sync, S: Source, C: Gate + Sync, L: Gate + Sync>(
    rt: &R,
    alloc: Global,
    config: &Config<'_>,
    files: &mut S,
    gates: &Gates<C, L>,
) -> Result<Vec<u8>, Status>
    requires config { IsConfig config.now }
    requires open { CanOpen (S.names files.old) (Some (config_meant config.now)) }
    ensures ok { IfOk result (λ bytes. IsAnswerOfInput (S.held files.old) config.now.options (input_meant config.now.input) bytes.items) }
    ensures cause { IfErr result (IsInputCause (S.held files.old) (input_meant config.now.input) (S.faults files.old) (S.faults files.new)) }
    ensures unread { (ReadsFile (Some (config_meant config.now)) → ⊥) → files.new ≡ files.old }
    ensures held_kept { S.held files.new ≡ S.held files.old }
    ensures asked { ReadsFile (Some (config_meant config.now))
        → WasAsked (told_text (S.held files.old) (Some (config_meant config.now))) (S.names files.old) (S.names files.new) (S.left files.new) (S.is_open files.new) (IsErrOf result Status.ReadFault) }
{
    let text = text_of_input(alloc, config, files)?;
    written_of_text(rt, alloc, text, config, gates)
}

/// The text of the file, or the made text.
fn text_of_input<S: Source>(
    alloc: Global,
    config: &Config<'_>,
    files: &mut S,
) -> Result<Vec<u8>, Status>
    requires config { IsConfig config.now }
    requires open { CanOpen (S.names files.old) (Some (config_meant config.now)) }
    ensures ok { IfOk result (λ text. IsHeld (told_of_input (S.held files.old) (input_meant config.now.input)) text.items) }
    ensures cause { IfErr result (IsInputCause (S.held files.old) (input_meant config.now.input) (S.faults files.old) (S.faults files.new)) }
    ensures unread { (ReadsFile (Some (config_meant config.now)) → ⊥) → files.new ≡ files.old }
    ensures held_kept { S.held files.new ≡ S.held files.old }
    ensures asked { ReadsFile (Some (config_meant config.now))
        → WasAsked (told_text (S.held files.old) (Some (config_meant config.now))) (S.names files.old) (S.names files.new) (S.left files.new) (S.is_open files.new) (IsErrOf result Status.ReadFault) }
{
    match config.input {
        Input::File(name) => text_of_file(alloc, name, files),
        Input::Made(n) => text_of_made(alloc, n),
    }
}

/// The made text of `n` variables, 2 to 2000.
fn text_of_made(alloc: Global, n: u32) -> Result<Vec<u8>, Status>
    requires { (2 ≤ n) × (n ≤ 2000) }
    ensures ok { IfOk result (λ text. text.items ≡ made n) }
    ensures cause { IfErr result (λ status. status ≡ Status.NoMemory) }
{
    let Ok(text) = made_text(alloc, n) else {
        return Err(Status::NoMemory);
    };
    Ok(text)
}

/// The text of a file.
fn text_of_file<S: Source>(alloc: Global, name: &str, files: &mut S) -> Result<Vec<u8>, Status>
    requires { IsFileAlone (S.names files.old) name.now }
    ensures ok { IfOk result (λ text. IsHeld (S.held files.old name.now) text.items) }
    ensures cause { IfErr result (IsFileCause (S.held files.old name.now) (S.faults files.old) (S.faults files.new)) }
    ensures held_kept { S.held files.new ≡ S.held files.old }
    ensures asked { WasAsked (S.held files.old name.now) (S.names files.old) (S.names files.new) (S.left files.new) (S.is_open files.new) (IsErrOf result Status.ReadFault) }
{
    law_long_text();
    match read_named(alloc, files, name, MOST_BYTES) {
        Ok(text) => Ok(text),
        Err(FileError::ReadFault) => Err(Status::ReadFault),
        Err(FileError::TooLong) => Err(Status::Refused {
            kind: FaultKind::TooLong.number(),
            line: 0,
        }),
        Err(FileError::NoMemory) => Err(Status::NoMemory),
    }
}

/// What is to be written of a text.
fn written_of_text<R: Threads + Sync, C: Gate + Sync, L: Gate + Sync>(
    rt: &R,
    alloc: Global,
    text: Vec<u8>,
    config: &Config<'_>,
    gates: &Gates<C, L>,
) -> Result<Vec<u8>, Status>
    requires { IsConfig config.now }
    ensures ok { IfOk result (λ bytes. IsWritten config.now.options (input_meant config.now.input) text.items bytes.items) }
    ensures cause { IfErr result (IsTextCause text.items) }
{
    if config.options.domains {
        return domains_of_text(rt, alloc, text, &config.options, gates);
    }
    match config.input {
        Input::File(_) => answer_of_text(rt, alloc, text, &config.options, gates),
        Input::Made(n) => line_of_text(rt, alloc, n, text, &config.options, gates),
    }
}

/// The domains that propagation leaves, of a text.
fn domains_of_text<R: Threads + Sync, C: Gate + Sync, L: Gate + Sync>(
    rt: &R,
    alloc: Global,
    text: Vec<u8>,
    options: &Options,
    gates: &Gates<C, L>,
) -> Result<Vec<u8>, Status>
    requires { AreOptions options.now }
    ensures ok { IfOk result (λ bytes. AreDomainsOf text.items bytes.items) }
    ensures cause { IfErr result (IsTextCause text.items) }
{
    let model = model_of(alloc, text)?;
    match domains_of(rt, alloc, &model, options.lanes, gates.lanes) {
        Ok(bytes) => Ok(bytes),
        Err(_) => Err(Status::NoMemory),
    }
}

/// The answer of a text.
fn answer_of_text<R: Threads + Sync, C: Gate + Sync, L: Gate + Sync>(
    rt: &R,
    alloc: Global,
    text: Vec<u8>,
    options: &Options,
    gates: &Gates<C, L>,
) -> Result<Vec<u8>, Status>
    requires options { AreOptions options.now }
    ensures ok { IfOk result (λ bytes. IsAnswerOf options.now text.items bytes.items) }
    ensures cause { IfErr result (IsTextCause text.items) }
{
    let model = model_of(alloc, text)?;
    let Ok(answer) = search(rt, alloc, &model, options, gates) else {
        return Err(Status::NoMemory);
    };
    match print_answer(alloc, &model, &answer) {
        Ok(bytes) => Ok(bytes),
        Err(_) => Err(Status::NoMemory),
    }
}

/// The line of a text of `n` variables.
fn line_of_text<R: Threads + Sync, C: Gate + Sync, L: Gate + Sync>(
    rt: &R,
    alloc: Global,
    n: u32,
    text: Vec<u8>,
    options: &Options,
    gates: &Gates<C, L>,
) -> Result<Vec<u8>, Status>
    requires count { n ≤ 2000 }
    requires options { AreOptions options.now }
    ensures ok { IfOk result (λ bytes. IsLineOf options.now n text.items bytes.items) }
    ensures cause { IfErr result (IsTextCause text.items) }
{
    let model = model_of(alloc, text)?;
    let Ok(answer) = search(rt, alloc, &model, options, gates) else {
        return Err(Status::NoMemory);
    };
    law_unfinished_marks();
    match made_summary(alloc, n, known_objective(&model, &answer)) {
        Ok(line) => Ok(line),
        Err(_) => Err(Status::NoMemory),
    }
}

/// The model of a text, which is let go once its model stands: a search keeps none of its memory.
fn model_of(alloc: Global, text: Vec<u8>) -> Result<FznModel, Status>
    ensures ok { IfOk result (IsTextOf text.items) }
    ensures well_formed { IfOk result IsWellFormed }
    ensures cause { IfErr result (IsTextCause text.items) }
{
    law_well_formed();
    match read_model(alloc, &text) {
        Ok(model) => Ok(model),
        Err(error) => Err(status_of(&text, error)),
    }
}

/// An answer of a model.
fn search<R: Threads + Sync, C: Gate + Sync, L: Gate + Sync>(
    rt: &R,
    alloc: Global,
    model: &FznModel,
    options: &Options,
    gates: &Gates<C, L>,
) -> Result<Answer, NoMemory>
    requires model { IsWellFormed model.now }
    requires options { AreOptions options.now }
    ensures { IfOk result (IsAnswerWith options.now model.now) }
{
    let options = search_options(options);
    answer(rt, alloc, model, &options, gates)
}

/// The depth to which the tree is cut under a limit.
fn depth_of(options: &Options) -> u32
    requires { AreOptions options.now }
    ensures is { result ≡ depth_of options.now }
    ensures most { result ≤ 16 }
{
    match options.depth {
        Some(depth) => depth,
        None => 6,
    }
}

/// The most parts into which it is cut where no limit is set: more than the workers, so that none waits long for the last.
fn most_parts(options: &Options) -> u32
    requires { AreOptions options.now }
    ensures is { result ≡ most_parts options.now }
    ensures some { 1 ≤ result }
    ensures few { result ≤ 65536 }
{
    match options.depth {
        Some(depth) => 1 << depth,
        None => 32 * options.workers,
    }
}

/// The options of the words as the search takes them.
fn search_options(options: &Options) -> answer::Options
    requires { AreOptions options.now }
    ensures is { result ≡ search_options options.now }
    ensures depth { result.depth ≤ 16 }
    ensures some_parts { 1 ≤ result.most_parts }
    ensures few_parts { result.most_parts ≤ 65536 }
{
    answer::Options {
        all: options.all,
        workers: options.workers,
        lanes: options.lanes,
        depth: depth_of(options),
        most_parts: most_parts(options),
        node_limit: options.node_limit,
        round_limit: options.round_limit,
        steal: options.steal,
    }
}

/// The status where a text has no model.
fn status_of(text: &[u8], error: TextError) -> Status
    requires { IsCause text.now error }
    ensures { IsTextCause text.now result }
{
    match error {
        TextError::Refused { kind, at } => Status::Refused {
            kind,
            line: told_line(text, kind, at),
        },
        TextError::NoMemory => Status::NoMemory,
    }
}
