//! `turbofzn`: solves the FlatZinc file that its words name, and ends with the status of the call.
//!
//! It hands the real words, files and streams to `solve_main` of `solver_top`; that these are what the system says is trusted.
//! `exit_code` gives each status its number, and besides it promises nothing but to be safe. The gate runs it on a stored text, and a
//! test that it ends with the status of the call.
#![tactic(auto)]

ghost use Rattle.std.specs.Prelude.{◌≡◌};
ghost use Rattle.std.specs.Process.{exit_status};
ghost use Rattle.solver_top.specs.Outcome.{status_code};

use fzn_io::{FileSource, StdSink};
use gate::NoGate;
use solver_top::{Gates, Status, report, solve_main};
use std::process::ExitCode;
use std::thread::Threads;
use std::{env, io};

fn main(rt: HostRuntime) -> ExitCode {
    run(&rt, &rt)
}

/// The whole program; the result is the exit status of the process.
fn run(rt: &HostRuntime, threads: &(impl Threads + Sync)) -> ExitCode {
    let status = match words(rt) {
        Ok(words) => solve(rt, threads, &words),
        Err(error) if error.kind() == io::ErrorKind::OutOfMemory => refuse_memory(rt),
        // Words that can't be had, as those that are no text, are taken as no words.
        Err(_) => solve(rt, threads, &[]),
    };
    exit_code(status)
}

/// The number of a status, as the process ends with it.
fn exit_code(status: Status) -> ExitCode
    ensures { exit_status result ≡ status_code status }
{
    ExitCode::from(status.code())
}

/// The words of the command line, the program's name first.
fn words(rt: &HostRuntime) -> io::Result<Vec<String>> {
    let mut words = Vec::new(rt.alloc());
    for word in env::args(rt)? {
        words.push(word)?;
    }
    Ok(words)
}

/// The top call over the real files, streams and threads.
fn solve(rt: &HostRuntime, threads: &(impl Threads + Sync), words: &[String]) -> Status {
    let mut files = FileSource::new(rt);
    let mut out = StdSink::new(rt.stdout());
    let mut err = StdSink::new(rt.stderr());
    let gates = Gates {
        crew: &NoGate,
        lanes: &NoGate,
    };
    solve_main(
        threads,
        rt.alloc(),
        words,
        &mut files,
        &mut out,
        &mut err,
        &gates,
    )
}

/// What is said where there is no memory for the words.
fn refuse_memory(rt: &HostRuntime) -> Status {
    report(rt.alloc(), &mut StdSink::new(rt.stderr()), Status::NoMemory)
}

#[cfg(test)]
mod tests {
    use super::run;
    use std::process::ExitCode;

    /// The words of a test are the name of its program and its own, and no file has that name.
    #[test]
    fn a_file_that_is_not_there_ends_with_3(rt: HostRuntime) {
        assert!(rt; run(&rt, &rt) == ExitCode::from(3));
    }
}
