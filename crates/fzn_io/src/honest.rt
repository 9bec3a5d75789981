//! A source and a sink in memory that never fail.

ghost use Rattle.std.specs.Prelude.{◌≡◌, ℕ, ◌↔◌, List, [], None, Some, IsSome, IsTrue, false, option_copied};

use super::mem_source::copy_front;
use super::sink::Sink;
use super::source::{Failed, Source};
use std::alloc::Global;

/// One text under every name. It doesn't tell which names it may be asked for, and its count of faults is 0.
#[derive(Drop)]
pub struct HonestSource {
    text: Vec<u8>,
    from: usize,
    opened: bool,
}

impl HonestSource {
    /// A source of `text` under every name.
    pub fn new(text: Vec<u8>) -> HonestSource
        ensures held { (name : List ℕ) → ⟦<HonestSource as Source>⟧.held result name ≡ Some (Some text.items) }
        ensures names { ⟦<HonestSource as Source>⟧.names result ≡ None }
        ensures closed { ⟦<HonestSource as Source>⟧.is_open result ≡ false }
    {
        HonestSource {
            text,
            from: 0,
            opened: false,
        }
    }
}

impl Source for HonestSource {
    ghost use Rattle.std.specs.Prelude.{Some, None, drop};

    ghost held = { λ s _. Some (Some s.text.items) };

    ghost left = { λ s. Some (drop s.from s.text.items) };

    ghost names = { λ _. None };

    ghost is_open = { λ s. s.opened };

    ghost faults = { λ _. 0 };

    fn open_named(&mut self, _name: &str) -> Result<(), Failed> {
        self.from = 0;
        self.opened = true;
        Ok(())
    }

    fn read(&mut self, buf: &mut [u8]) -> Result<usize, Failed> {
        if self.from >= self.text.len() {
            return Ok(0);
        }
        let taken = copy_front(&self.text[self.from..], buf, usize::MAX);
        self.from += taken;
        Ok(taken)
    }
}

/// Bytes in memory that are written one piece after another. Its count of faults is 0: where memory is refused it
/// drops what it was given and ceases to tell its bytes.
#[derive(Drop)]
pub struct HonestSink {
    written: Vec<u8>,
    whole: bool,
}

impl HonestSink {
    /// An empty sink. It takes no memory.
    pub fn new(alloc: Global) -> HonestSink
        ensures { ⟦<HonestSink as Sink>⟧.written result ≡ Some [] }
    {
        HonestSink {
            written: Vec::new(alloc),
            whole: true,
        }
    }

    /// Whether it still tells all that was written.
    pub fn tells_all(&self) -> bool
        ensures { IsTrue result ↔ IsSome (⟦<HonestSink as Sink>⟧.written self.now) }
    {
        self.whole
    }

    /// The bytes written so far, where it still tells them.
    pub fn bytes(&self) -> Option<&[u8]>
        ensures { option_copied result ≡ ⟦<HonestSink as Sink>⟧.written self.now }
    {
        if self.whole {
            Some(self.written.as_slice())
        } else {
            None
        }
    }
}

impl Sink for HonestSink {
    ghost use Rattle.std.specs.Prelude.{Some, None, cond};

    ghost written = { λ s. cond s.whole (Some s.written.items) None };

    ghost faults = { λ _. 0 };

    fn write(&mut self, bytes: &[u8]) -> Result<usize, Failed> {
        if self.written.extend_from_slice(bytes).is_err() {
            self.whole = false;
        }
        Ok(bytes.len())
    }
}
