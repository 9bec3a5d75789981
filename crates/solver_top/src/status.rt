//! The statuses of the top call, and the line of each.

ghost use Rattle.std.specs.Prelude.{◌≡◌, ◌⊎◌};
ghost use Rattle.fzn_io.specs.Faults.{CountRose};
ghost use Rattle.fzn_io.specs.Streams.{Adds, AddsFront};
ghost use Rattle.solver_top.specs.Outcome.{IsRefused, status_code, status_line};

use fzn_io::{Sink, write_all};
use model_text::print_refusal;
use std::alloc::Global;

/// How a call of `solve_main` ended.
#[derive(Clone, Copy, Debug, PartialEq, Eq)]
pub enum Status {
    /// The answer is written whole.
    Answered,
    /// The command doesn't take the words.
    Usage,
    /// The text has a fault of this kind, from 1 to 12, on this line, counted from 1; line 0 where the text is too long.
    Refused { kind: u8, line: u64 },
    /// The file could not be opened or read.
    ReadFault,
    /// The answer could not be written whole; a front of it is.
    WriteFault,
    /// Memory was refused. No clause gives this status a cause.
    NoMemory,
}

impl Status {
    /// The exit status of the program, from 0 to 5.
    pub fn code(self) -> u8
        ensures { result ≡ status_code self }
    {
        match self {
            Status::Answered => 0,
            Status::Usage => 1,
            Status::Refused { .. } => 2,
            Status::ReadFault => 3,
            Status::WriteFault => 4,
            Status::NoMemory => 5,
        }
    }
}

const USAGE: &[u8] =
    b"usage: turbofzn [-a] [-p N] [--lanes N] [--depth D] [--node-limit N] [--round-limit N] [--domains] [--steal] (FILE or --make N)\n";

/// What is written where memory is refused.
const OUT_OF_MEMORY: &[u8] = b"out of memory\n";

/// The line of a status other than `Refused`.
fn plain_line(status: Status) -> &'static [u8]
    requires { IsRefused status → ⊥ }
    ensures { result.now ≡ status_line status }
{
    match status {
        Status::Answered => b"",
        Status::Usage => USAGE,
        Status::ReadFault => b"read fault\n",
        Status::WriteFault => b"write fault\n",
        Status::NoMemory => OUT_OF_MEMORY,
        Status::Refused { .. } => unreachable!(),
    }
}

/// Writes the line of a status, nothing for `Answered`. The answer is that status, or `NoMemory` where memory for the line
/// of a refused text was refused; the line is that of the answer.
pub fn report<E: Sink>(alloc: Global, err: &mut E, status: Status) -> Status
    ensures ends { (result ≡ status) ⊎ (IsRefused status × (result ≡ Status.NoMemory)) }
    ensures line { (CountRose (E.faults err.old) (E.faults err.new) → ⊥)
        → Adds (E.written err.old) (E.written err.new) (status_line result) }
    ensures front { AddsFront (E.written err.old) (E.written err.new) (status_line result) }
{
    let Status::Refused { kind, line } = status else {
        let _ = write_all(err, plain_line(status));
        return status;
    };
    let Ok(bytes) = print_refusal(alloc, kind, line) else {
        let _ = write_all(err, OUT_OF_MEMORY);
        return Status::NoMemory;
    };
    let _ = write_all(err, &bytes);
    status
}
