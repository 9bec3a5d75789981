//! The text of a file: its model, or its first fault and the line that says it.
//!
//! `read_model` is the one call: it takes the items one by one as their tokens are found, so neither are in memory all at once.
//! Every text has one model or one fault, never both (`law_one_text`). `line_of` and `print_refusal` say the fault's line. It
//! builds on `fzn_model` and `fzn_io`. Begin with `specs/Texts.antt`.
#![tactic(auto)]

mod laws;
pub mod reader;
mod refusal;
mod turns;

pub use laws::{law_long_text, law_one_text};
pub use reader::{MOST_BYTES, TextError, line_of, read_model, told_line};
pub use refusal::print_refusal;
