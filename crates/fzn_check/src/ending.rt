//! How a check ends, before anything of it is written.

ghost use Rattle.std.specs.Prelude.{◌≡◌, ℕ, List, IfOk};
ghost use Rattle.fzn_check.specs.Steps.{JudgesWith, StopsWith};

use crate::status::Status;
use std::alloc::AllocError;

/// How a check ends.
#[derive(Drop)]
pub(crate) enum Ending {
    /// The solutions were judged: the line goes to standard output.
    Judged { status: Status, line: Vec<u8> },
    /// A text keeps them from being judged: the line goes to standard error.
    Stopped { status: Status, line: Vec<u8> },
    /// With a status that no text gives.
    Plain(Status),
}

impl Ending {
    /// The solutions were judged, where there was memory for the line.
    pub(crate) fn judged(status: Status, line: Result<Vec<u8>, AllocError>) -> Ending
        ensures { (text : List ℕ) → IfOk line (λ bytes. bytes.items ≡ text) → JudgesWith status text result }
    {
        match line {
            Ok(line) => Ending::Judged { status, line },
            Err(_) => Ending::Plain(Status::NoMemory),
        }
    }

    /// A text keeps them from being judged, where there was memory for the line.
    pub(crate) fn stopped(status: Status, line: Result<Vec<u8>, AllocError>) -> Ending
        ensures { (text : List ℕ) → IfOk line (λ bytes. bytes.items ≡ text) → StopsWith status text result }
    {
        match line {
            Ok(line) => Ending::Stopped { status, line },
            Err(_) => Ending::Plain(Status::NoMemory),
        }
    }
}
