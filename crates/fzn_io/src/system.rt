//! The real outside: files, and the standard streams. They tell contracts no bytes and no names.

ghost use Rattle.std.specs.Prelude.{◌≡◌, None, false};

use super::faults::Faults;
use super::sink::Sink;
use super::source::{Failed, Source};
use std::fs;
use std::io::{Read, Write};
use std::rt::Files;

/// Files, opened by their paths. Each error of the system is a fault, whatever its cause.
#[derive(Drop)]
pub struct FileSource<'a, R: Files> {
    files: &'a R,
    file: Option<R::File>,
    faults: Faults,
}

impl<'a, R: Files> FileSource<'a, R> {
    /// A source of the files that `files` opens. No file is open yet.
    pub fn new(files: &'a R) -> FileSource<'a, R>
        ensures faults { ⟦<FileSource<'a, R> as Source>⟧.faults result ≡ 0 }
        ensures closed { ⟦<FileSource<'a, R> as Source>⟧.is_open result ≡ false }
    {
        FileSource {
            files,
            file: None,
            faults: Faults::new(),
        }
    }

    /// How many of its calls failed.
    pub fn faults(&self) -> u64
        ensures { result ≡ ⟦<FileSource<'a, R> as Source>⟧.faults self.now }
    {
        self.faults.count
    }
}

impl<'a, R: Files> Source for FileSource<'a, R> {
    ghost use Rattle.std.specs.Prelude.{None, is_some};

    ghost held = { λ _ _. None };

    ghost left = { λ _. None };

    ghost names = { λ _. None };

    ghost is_open = { λ s. is_some s.file };

    ghost faults = { λ s. s.faults.count };

    fn open_named(&mut self, name: &str) -> Result<(), Failed> {
        match fs::open(self.files, name) {
            Ok(file) => {
                self.file = Some(file);
                Ok(())
            }
            Err(_) => {
                self.file = None;
                Err(self.faults.rise())
            }
        }
    }

    fn read(&mut self, buf: &mut [u8]) -> Result<usize, Failed> {
        if let Some(file) = &mut self.file {
            if let Ok(taken) = file.read(buf) {
                return Ok(taken);
            }
        }
        Err(self.faults.rise())
    }
}

/// A stream of the system, as standard output or standard error. Each error of the system is a fault, whatever its
/// cause, and so is a write that takes none of a piece that isn't empty.
#[derive(Drop)]
pub struct StdSink<W> {
    stream: W,
    faults: Faults,
}

impl<W: Write> StdSink<W> {
    /// A sink that writes to `stream`.
    pub fn new(stream: W) -> StdSink<W>
        ensures { ⟦<StdSink<W> as Sink>⟧.faults result ≡ 0 }
    {
        StdSink {
            stream,
            faults: Faults::new(),
        }
    }

    /// How many of its calls failed.
    pub fn faults(&self) -> u64
        ensures { result ≡ ⟦<StdSink<W> as Sink>⟧.faults self.now }
    {
        self.faults.count
    }
}

impl<W: Write> Sink for StdSink<W> {
    ghost use Rattle.std.specs.Prelude.{None};

    ghost written = { λ _. None };

    ghost faults = { λ s. s.faults.count };

    fn write(&mut self, bytes: &[u8]) -> Result<usize, Failed> {
        match self.stream.write(bytes) {
            Ok(taken) if taken > 0 || bytes.is_empty() => Ok(taken),
            _ => Err(self.faults.rise()),
        }
    }
}
