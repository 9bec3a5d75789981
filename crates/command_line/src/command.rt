//! The command, as `clap` reads it.

ghost use Rattle.std.specs.Prelude.{◌≡◌, IfOk, false};
ghost use Rattle.clap.specs.Walk.{rule_of};
ghost use Rattle.clap.specs.Simple.{app_of};
ghost use Rattle.command_line.specs.CommandLine.{command, flag_rule, letter_rule, plain_rule, word_flag_rule, word_rule};

use clap::{Arg, ArgAction, Command, value_parser};
use std::alloc::{AllocError, Global};

/// The command with its arguments.
pub(crate) fn command<'a>(alloc: Global) -> Result<Command<'a>, AllocError>
    ensures { IfOk result (λ made. app_of made ≡ command) }
{
    Command::new(alloc, "turbofzn")
        .arg(flag(alloc, "all", 'a'))?
        .arg(letter_number(alloc, "workers", 'p', "1"))?
        .arg(number(alloc, "lanes", "1"))?
        .arg(plain_number(alloc, "depth"))?
        .arg(number(alloc, "node-limit", "0"))?
        .arg(number(alloc, "round-limit", "0"))?
        .arg(word_flag(alloc, "domains"))?
        .arg(word_flag(alloc, "steal"))?
        .arg(plain_number(alloc, "make"))?
        .arg(Arg::new(alloc, "FILE"))
}

/// A flag of one letter.
fn flag<'a>(alloc: Global, id: &'a str, letter: char) -> Arg<'a>
    ensures rule { rule_of result ≡ flag_rule id.entry.now letter }
    ensures own { result.global ≡ false }
{
    Arg::new(alloc, id).short(letter).action(ArgAction::SetTrue)
}

/// A flag, named by a word.
fn word_flag<'a>(alloc: Global, id: &'a str) -> Arg<'a>
    ensures rule { rule_of result ≡ word_flag_rule id.entry.now }
    ensures own { result.global ≡ false }
{
    Arg::new(alloc, id).long(id).action(ArgAction::SetTrue)
}

/// An option of one letter with a number, and the number that it has where it isn't used.
fn letter_number<'a>(alloc: Global, id: &'a str, letter: char, default: &'a str) -> Arg<'a>
    ensures rule { rule_of result ≡ letter_rule id.entry.now letter default.entry.now }
    ensures own { result.global ≡ false }
{
    Arg::new(alloc, id)
        .short(letter)
        .value_parser(value_parser!(u64))
        .default_value(default)
}

/// An option with a number, named by a word, and the number that it has where it isn't used.
fn number<'a>(alloc: Global, id: &'a str, default: &'a str) -> Arg<'a>
    ensures rule { rule_of result ≡ word_rule id.entry.now default.entry.now }
    ensures own { result.global ≡ false }
{
    Arg::new(alloc, id)
        .long(id)
        .value_parser(value_parser!(u64))
        .default_value(default)
}

/// An option with a number, named by a word, that has none where it isn't used.
fn plain_number<'a>(alloc: Global, id: &'a str) -> Arg<'a>
    ensures rule { rule_of result ≡ plain_rule id.entry.now }
    ensures own { result.global ≡ false }
{
    Arg::new(alloc, id)
        .long(id)
        .value_parser(value_parser!(u64))
}
