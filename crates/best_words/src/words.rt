//! What the words ask for.

ghost use Rattle.std.specs.Prelude.{◌≡◌, ◌≤◌, Some, None, IfOk, IfSome, Err, codes, option_map};
ghost use Rattle.clap.specs.Matches.{found_of};
ghost use Rattle.clap.specs.Walk.{first_of, rows_of};
ghost use Rattle.best_words.specs.Words.{AreOptions, config_in, config_meant, config_of, is_given, number_of, options_of};

use crate::command::command;
use clap::ArgMatches;
use clap::error::ErrorKind;
use std::alloc::Global;

/// How the search is to be made, and what is told of it.
#[derive(Clone, Copy, Debug, PartialEq, Eq)]
pub struct Options {
    /// Whether all solutions are asked for.
    pub all: bool,
    /// How many threads may search, from 1 to 64.
    pub workers: u32,
    /// Whether lines of statistics are asked for.
    pub statistics: bool,
    /// Whether a line is asked for at each plan, on standard error.
    pub verbose: bool,
}

/// What the words ask for.
#[derive(Clone, Copy, Debug, PartialEq, Eq)]
pub struct Config<'a> {
    pub options: Options,
    /// The name of the file with the text.
    pub file: &'a str,
}

/// Why words ask for nothing.
#[derive(Clone, Copy, Debug, PartialEq, Eq)]
pub enum WordsError {
    /// The command doesn't take them.
    NotTaken,
    /// Memory was refused.
    NoMemory,
}

/// What the words ask for, the program's name first. Errors: `NotTaken` where the command doesn't take them, which is where
/// help is asked for too; `NoMemory`.
pub fn read_words<'a>(alloc: Global, words: &'a [String]) -> Result<Config<'a>, WordsError>
    ensures ok { IfOk result (λ c. config_of words.entry.now ≡ Some (config_meant c)) }
    ensures within { IfOk result (λ c. AreOptions c.options) }
    ensures not_taken { result ≡ Err WordsError.NotTaken → config_of words.entry.now ≡ None }
{
    let Ok(command) = command(alloc) else {
        return Err(WordsError::NoMemory);
    };
    match command.try_get_matches_from(words) {
        Ok(matches) => config_in(&matches).ok_or(WordsError::NotTaken),
        Err(error) if error.kind() == ErrorKind::OutOfMemory => Err(WordsError::NoMemory),
        Err(_) => Err(WordsError::NotTaken),
    }
}

/// What is found in the matches; none where no file is named or the number is out of its bounds.
fn config_in<'a>(matches: &ArgMatches<'a>) -> Option<Config<'a>>
    ensures is { option_map config_meant result ≡ config_in (rows_of (found_of matches.now)) }
    ensures within { IfSome result (λ c. AreOptions c.options) }
{
    let options = options_in(matches)?;
    let file = file_in(matches)?;
    Some(Config { options, file })
}

/// The file that is named.
fn file_in<'a>(matches: &ArgMatches<'a>) -> Option<&'a str>
    ensures { option_map (λ file. file.now) result ≡ first_of (codes "FILE") (rows_of (found_of matches.now)) }
{
    matches.get_str("FILE")
}

/// How the search is to be made.
fn options_in(matches: &ArgMatches<'_>) -> Option<Options>
    ensures is { result ≡ options_of (rows_of (found_of matches.now)) }
    ensures within { IfSome result AreOptions }
{
    let workers = number_within(matches, "workers", 1, 64)?;
    Some(Options {
        all: is_given(matches, "all"),
        workers: workers as u32,
        statistics: is_given(matches, "statistics"),
        verbose: is_given(matches, "verbose"),
    })
}

/// Whether a flag is given.
fn is_given(matches: &ArgMatches<'_>, id: &str) -> bool
    ensures { result ≡ is_given id.now (rows_of (found_of matches.now)) }
{
    matches.get_one::<bool>(id).unwrap_or(false)
}

/// The number of an option, where it is within the bounds.
fn number_within(matches: &ArgMatches<'_>, id: &str, low: u64, high: u64) -> Option<u64>
    ensures is { result ≡ number_of id.now low high (rows_of (found_of matches.now)) }
    ensures within { IfSome result (λ number. (low ≤ number) × (number ≤ high)) }
{
    let number = matches.get_one::<u64>(id)?;
    if low <= number && number <= high {
        Some(number)
    } else {
        None
    }
}
