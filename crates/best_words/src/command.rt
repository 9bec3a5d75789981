//! The command, as `clap` reads it.

ghost use Rattle.std.specs.Prelude.{◌≡◌, IfOk, false};
ghost use Rattle.clap.specs.Walk.{rule_of};
ghost use Rattle.clap.specs.Simple.{app_of};
ghost use Rattle.best_words.specs.Words.{command, flag_rule, letter_rule};

use clap::{Arg, ArgAction, Command, value_parser};
use std::alloc::{AllocError, Global};

/// The command with its arguments.
pub(crate) fn command<'a>(alloc: Global) -> Result<Command<'a>, AllocError>
    ensures { IfOk result (λ made. app_of made ≡ command) }
{
    Command::new(alloc, "fznbest")
        .arg(flag(alloc, "all", 'a'))?
        .arg(letter_number(alloc, "workers", 'p', "1"))?
        .arg(flag(alloc, "statistics", 's'))?
        .arg(flag(alloc, "verbose", 'v'))?
        .arg(Arg::new(alloc, "FILE"))
}

/// A flag of one letter.
fn flag<'a>(alloc: Global, id: &'a str, letter: char) -> Arg<'a>
    ensures rule { rule_of result ≡ flag_rule id.entry.now letter }
    ensures own { result.global ≡ false }
{
    Arg::new(alloc, id).short(letter).action(ArgAction::SetTrue)
}

/// An option of one letter with a number, and the number that it has where it isn't used.
fn letter_number<'a>(alloc: Global, id: &'a str, letter: char, default: &'a str) -> Arg<'a>
    ensures rule { rule_of result ≡ letter_rule id.entry.now letter default.entry.now }
    ensures own { result.global ≡ false }
{
    Arg::new(alloc, id)
        .short(letter)
        .value_parser(value_parser!(u64))
        .default_value(default)
}
