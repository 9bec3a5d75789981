//! The words of the command line.
//!
//! `read_words` gives the options and the file, or the made text, exactly as the matches of `clap`'s rule say, where each
//! number is within its bounds; words are refused only where there is none of that. The rule itself is `clap`'s, whose
//! statement is the kit's.
#![tactic(auto)]

mod command;
mod words;

pub use words::{Config, Input, Options, WordsError, read_words};
