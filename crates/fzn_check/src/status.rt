//! The statuses of the checker, and the lines of those that no text gives.

ghost use Rattle.std.specs.Prelude.{◌≡◌};
ghost use Rattle.fzn_check.specs.Outcome.{plain_line, status_code};

/// How a call of `check_main` ended.
#[derive(Clone, Copy, Debug, PartialEq, Eq)]
pub enum Status {
    /// Each solution is one.
    Right,
    /// The command doesn't take the words.
    Usage,
    /// The model's text has a fault of this kind, from 1 to 12, on this line, counted from 1; line 0 where it is too long.
    Refused { kind: u8, line: u64 },
    /// One of the files could not be opened or read.
    ReadFault,
    /// The verdict could not be written whole; a front of it is.
    WriteFault,
    /// Memory was refused. No clause gives this status a cause.
    NoMemory,
    /// Some solution is none.
    Wrong,
    /// The solutions' text is too long, or the text of no answer.
    BadText,
    /// Some declared variable isn't printed.
    Hidden,
}

impl Status {
    /// The exit status of the program, from 0 to 8.
    pub fn code(self) -> u8
        ensures { result ≡ status_code self }
    {
        match self {
            Status::Right => 0,
            Status::Usage => 1,
            Status::Refused { .. } => 2,
            Status::ReadFault => 3,
            Status::WriteFault => 4,
            Status::NoMemory => 5,
            Status::Wrong => 6,
            Status::BadText => 7,
            Status::Hidden => 8,
        }
    }
}

/// The line of a status that no text gives; nothing for any other.
pub(crate) fn plain_line(status: Status) -> &'static [u8]
    ensures { result.now ≡ plain_line status }
{
    match status {
        Status::Usage => b"usage: fzncheck MODEL SOLUTION\n",
        Status::ReadFault => b"read fault\n",
        Status::WriteFault => b"write fault\n",
        Status::NoMemory => b"out of memory\n",
        Status::Right | Status::Refused { .. } | Status::Wrong | Status::BadText | Status::Hidden =>
            b"",
    }
}
