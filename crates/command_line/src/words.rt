//! What the words ask for.

ghost use Rattle.std.specs.Prelude.{◌≡◌, ◌≤◌, Some, None, IfOk, IfSome, Err, option_map};
ghost use Rattle.clap.specs.Matches.{found_of};
ghost use Rattle.clap.specs.Walk.{rows_of};
ghost use Rattle.command_line.specs.CommandLine.{AreOptions, IsConfig, IsInput, config_in, config_meant, config_of, depth_of, input_meant, input_of, is_given, most_limit, number_of, options_of};

use crate::command::command;
use clap::ArgMatches;
use clap::error::ErrorKind;
use std::alloc::Global;

/// The most nodes, or rounds, to which a limit may be set.
const MOST_LIMIT: u64 = 1_000_000_000_000;

/// How the search is to be made.
#[derive(Clone, Copy, Debug, PartialEq, Eq)]
pub struct Options {
    /// Whether all solutions are asked for.
    pub all: bool,
    /// How many subproblems are searched at a time, from 1 to 64.
    pub workers: u32,
    /// How many threads propagate a box, from 1 to 64.
    pub lanes: u32,
    /// To which depth the search tree is cut into parts, from 0 to 16, where one is given.
    pub depth: Option<u32>,
    /// The most nodes of a subproblem's search; 0 is no limit.
    pub node_limit: u64,
    /// The most rounds of a propagation; 0 is no limit.
    pub round_limit: u64,
    /// Whether the domains that propagation leaves are asked for, in the place of solutions.
    pub domains: bool,
    /// Whether the subproblems are dealt out, and who has none left steals one.
    pub steal: bool,
}

/// Where the text of the model comes from.
#[derive(Clone, Copy, Debug, PartialEq, Eq)]
pub enum Input<'a> {
    /// A file of this name.
    File(&'a str),
    /// The made text of this number of variables, from 2 to 2000.
    Made(u32),
}

/// What the words ask for.
#[derive(Clone, Copy, Debug, PartialEq, Eq)]
pub struct Config<'a> {
    pub options: Options,
    pub input: Input<'a>,
}

/// Why words ask for nothing.
#[derive(Clone, Copy, Debug, PartialEq, Eq)]
pub enum WordsError {
    /// The command doesn't take them.
    NotTaken,
    /// Memory was refused.
    NoMemory,
}

/// What the words ask for, the program's name first. Errors: `NotTaken` where the command doesn't take them, which is where
/// help is asked for too; `NoMemory`.
pub fn read_words<'a>(alloc: Global, words: &'a [String]) -> Result<Config<'a>, WordsError>
    ensures ok { IfOk result (λ c. config_of words.entry.now ≡ Some (config_meant c)) }
    ensures within { IfOk result IsConfig }
    ensures not_taken { result ≡ Err WordsError.NotTaken → config_of words.entry.now ≡ None }
{
    let Ok(command) = command(alloc) else {
        return Err(WordsError::NoMemory);
    };
    match command.try_get_matches_from(words) {
        Ok(matches) => config_in(&matches).ok_or(WordsError::NotTaken),
        Err(error) if error.kind() == ErrorKind::OutOfMemory => Err(WordsError::NoMemory),
        Err(_) => Err(WordsError::NotTaken),
    }
}

/// What is found in the matches; none where nothing is to be solved or a number is out of its bounds.
fn config_in<'a>(matches: &ArgMatches<'a>) -> Option<Config<'a>>
    ensures is { option_map config_meant result ≡ config_in (rows_of (found_of matches.now)) }
    ensures within { IfSome result IsConfig }
{
    let options = options_in(matches)?;
    let input = input_in(matches)?;
    Some(Config { options, input })
}

/// How the search is to be made.
fn options_in(matches: &ArgMatches<'_>) -> Option<Options>
    ensures is { result ≡ options_of (rows_of (found_of matches.now)) }
    ensures within { IfSome result AreOptions }
{
    let workers = number_within(matches, "workers", 1, 64)?;
    let lanes = number_within(matches, "lanes", 1, 64)?;
    let depth = depth_in(matches)?;
    let node_limit = number_within(matches, "node-limit", 0, MOST_LIMIT)?;
    let round_limit = number_within(matches, "round-limit", 0, MOST_LIMIT)?;
    Some(Options {
        all: is_given(matches, "all"),
        workers: workers as u32,
        lanes: lanes as u32,
        depth,
        node_limit,
        round_limit,
        domains: is_given(matches, "domains"),
        steal: is_given(matches, "steal"),
    })
}

/// To which depth the search tree is cut; none where that is out of its bounds, and no depth where none is given.
fn depth_in(matches: &ArgMatches<'_>) -> Option<Option<u32>>
    ensures is { result ≡ depth_of (rows_of (found_of matches.now)) }
    ensures within { IfSome result (λ depth. IfSome depth (λ d. d ≤ 16)) }
{
    if matches.get_str("depth").is_some() {
        let number = number_within(matches, "depth", 0, 16)?;
        Some(Some(number as u32))
    } else {
        Some(None)
    }
}

/// What is to be solved.
fn input_in<'a>(matches: &ArgMatches<'a>) -> Option<Input<'a>>
    ensures is { option_map input_meant result ≡ input_of (rows_of (found_of matches.now)) }
    ensures within { IfSome result IsInput }
{
    if matches.get_str("make").is_some() {
        let number = number_within(matches, "make", 2, 2000)?;
        Some(Input::Made(number as u32))
    } else {
        let name = matches.get_str("FILE")?;
        Some(Input::File(name))
    }
}

/// Whether a flag is given.
fn is_given(matches: &ArgMatches<'_>, id: &str) -> bool
    ensures { result ≡ is_given id.now (rows_of (found_of matches.now)) }
{
    matches.get_one::<bool>(id).unwrap_or(false)
}

/// The number of an option, where it is within the bounds.
fn number_within(matches: &ArgMatches<'_>, id: &str, low: u64, high: u64) -> Option<u64>
    ensures is { result ≡ number_of id.now low high (rows_of (found_of matches.now)) }
    ensures within { IfSome result (λ number. (low ≤ number) × (number ≤ high)) }
{
    let number = matches.get_one::<u64>(id)?;
    if low <= number && number <= high {
        Some(number)
    } else {
        None
    }
}
