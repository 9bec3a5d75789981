//! The words of `fznbest`, the program that is to write each better plan as soon as it is found. It isn't there yet.
//!
//! `read_words` gives the options and the file exactly as the matches of `clap`'s rule say, where each number is within its bounds;
//! words are refused only where there is none of that. The rule itself is `clap`'s, whose statement is the kit's.
#![tactic(auto)]

mod command;
mod words;

pub use words::{Config, Options, WordsError, read_words};
