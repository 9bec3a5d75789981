//! Whether solutions of a model are solutions: the first that is wrong, tested by several threads; and from the words of the
//! command line and the bytes of two files to the line that says it.
//!
//! `check_main` is the program `fzncheck` but for its arguments, files and streams: each status is one that the texts give,
//! with its line, or has its cause, and nothing else is written. `first_wrong` finds what a plain search in order finds,
//! however many threads test. Whether a mark is true isn't judged. It builds on `model_text`, `fzn_print` and
//! `constraint_check`. Begin with `specs/Endings.antt`.
#![tactic(auto)]

mod checking;
mod ending;
mod judging;
mod lines;
mod reading;
mod status;
mod top;
mod words;
mod wrong;

pub use checking::first_wrong;
pub use status::Status;
pub use top::{check_main, report_memory};
pub use words::{Names, WordsError, read_words};
pub use wrong::Wrong;
