//! From the words of the command line and the bytes of a text to the bytes of its answer.
//!
//! `solve_main` is the program `turbofzn` but for its arguments, files and streams, for every way in which threads may run:
//! what is written at status 0 is the text of an answer of the text's model, each other status has its cause, and nothing else
//! is written. Where no limit is set a text has one answer, whichever workers, lanes and parts search for it
//! (`law_one_answer`). It builds on `answer`, `model_text`, `command_line` and `made_laws`.
//!
//! Begin with the contract in `src/top.rt`, then `specs/Answers.antt`; `docs/DEFINITIONS.md` lists all that it cites.
#![tactic(auto)]

mod laws;
mod printing;
mod solving;
mod status;
mod top;

pub use answer::{Answer, Gates, Options, answer};
pub use laws::{law_made_is_answered, law_one_answer};
pub use made_model::made_text;
pub use model_text::{TextError, law_one_text, line_of, read_model};
pub use status::{Status, report};
pub use top::solve_main;
