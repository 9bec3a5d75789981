//! The words of the command line.

ghost use Rattle.std.specs.Prelude.{◌≡◌, Some, None, Err, IfOk, option_map};
ghost use Rattle.clap.specs.Matches.{found_of};
ghost use Rattle.clap.specs.Simple.{app_of};
ghost use Rattle.clap.specs.Walk.{rows_of};
ghost use Rattle.fzn_check.specs.Words.{command, names_in, names_meant, names_of};

use clap::error::ErrorKind;
use clap::{Arg, ArgMatches, Command};
use std::alloc::{AllocError, Global};

/// The names of the two files.
#[derive(Clone, Copy, Debug, PartialEq, Eq)]
pub struct Names<'a> {
    /// That of the model.
    pub model: &'a str,
    /// That of the solutions.
    pub solutions: &'a str,
}

/// Why words name no files.
#[derive(Clone, Copy, Debug, PartialEq, Eq)]
pub enum WordsError {
    /// The command doesn't take them.
    NotTaken,
    /// Memory was refused.
    NoMemory,
}

/// The command with its arguments.
fn command<'a>(alloc: Global) -> Result<Command<'a>, AllocError>
    ensures { IfOk result (λ made. app_of made ≡ command) }
{
    Command::new(alloc, "fzncheck")
        .arg(Arg::new(alloc, "MODEL"))?
        .arg(Arg::new(alloc, "SOLUTION"))
}

/// The names of the two files, the program's name first among the words. Errors: `NotTaken` where the command doesn't take
/// them, which is where help is asked for too; `NoMemory`.
pub fn read_words<'a>(alloc: Global, words: &'a [String]) -> Result<Names<'a>, WordsError>
    ensures ok { IfOk result (λ names. names_of words.entry.now ≡ Some (names_meant names)) }
    ensures not_taken { result ≡ Err WordsError.NotTaken → names_of words.entry.now ≡ None }
{
    let Ok(command) = command(alloc) else {
        return Err(WordsError::NoMemory);
    };
    match command.try_get_matches_from(words) {
        Ok(matches) => names_in(&matches).ok_or(WordsError::NotTaken),
        Err(error) if error.kind() == ErrorKind::OutOfMemory => Err(WordsError::NoMemory),
        Err(_) => Err(WordsError::NotTaken),
    }
}

/// The names that are found in the matches.
fn names_in<'a>(matches: &ArgMatches<'a>) -> Option<Names<'a>>
    ensures { option_map names_meant result ≡ names_in (rows_of (found_of matches.now)) }
{
    let model = matches.get_str("MODEL")?;
    let solutions = matches.get_str("SOLUTION")?;
    Some(Names { model, solutions })
}
