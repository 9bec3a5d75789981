//! A sink in memory, whose calls take few bytes at a time and fail where they are told to.

ghost use Rattle.std.specs.Prelude.{◌≡◌, ℕ, ◌+◌, ◌-◌, ◌^◌, ◌<◌, ◌≤◌, [], Some, length, take, min, IfOk, OnErr, IsErr, is_ok, if◌then◌else◌};
ghost use Rattle.fzn_io.specs.Faults.{CountRose};
ghost use Rattle.fzn_io.specs.Streams.{Adds};
ghost use Rattle.fzn_io.specs.Calls.{IsNextCall, FailsNow, StartsCalls};

use super::faults::Calls;
use super::sink::Sink;
use super::source::Failed;
use std::alloc::Global;

/// Bytes in memory that are written one piece after another.
#[derive(Drop)]
pub struct MemSink {
    written: Vec<u8>,
    chunk: usize,
    calls: Calls,
}

impl MemSink {
    /// An empty sink that takes at most `chunk` bytes a call, and whose calls with the numbers `failing`, counted
    /// from 1, fail. A call also fails where memory is refused.
    pub fn new(alloc: Global, chunk: usize, failing: Vec<u64>) -> MemSink
        ensures written { ⟦<MemSink as Sink>⟧.written result ≡ Some [] }
        ensures faults { ⟦<MemSink as Sink>⟧.faults result ≡ 0 }
        ensures chunk { result.chunk ≡ chunk }
        ensures calls { StartsCalls result.calls failing.items }
    {
        MemSink {
            written: Vec::new(alloc),
            chunk,
            calls: Calls::new(failing),
        }
    }

    /// The bytes written so far.
    pub fn bytes(&self) -> &[u8]
        ensures { ⟦<MemSink as Sink>⟧.written self.now ≡ Some result.now }
    {
        self.written.as_slice()
    }

    /// How many calls failed so far.
    pub fn faults(&self) -> u64
        ensures { result ≡ ⟦<MemSink as Sink>⟧.faults self.now }
    {
        self.calls.faults.count
    }
}

impl Sink for MemSink {
    ghost written = { λ s. Some s.written.items };

    ghost faults = { λ s. s.calls.faults.count };

    fn write(&mut self, bytes: &[u8]) -> Result<usize, Failed>
        ensures within { IfOk result (λ n. n ≤ length bytes.now) }
        ensures some { IfOk result (λ n. 0 < length bytes.now → 0 < n) }
        ensures added { IfOk result (λ n. Adds (Some self.old.written.items) (Some self.new.written.items) (take n bytes.now)) }
        ensures none_added { OnErr result (Adds (Some self.old.written.items) (Some self.new.written.items) []) }
        ensures never_falls { self.old.calls.faults.count ≤ self.new.calls.faults.count }
        ensures cause { OnErr result (CountRose self.old.calls.faults.count self.new.calls.faults.count) }
        // The chunk and the calls that fail.
        ensures chunk { IfOk result (λ n. n ≡ min (length bytes.now) self.old.chunk) }
        ensures chunk_kept { self.new.chunk ≡ self.old.chunk }
        ensures next_call { IsNextCall self.old.calls self.new.calls }
        ensures fails { FailsNow self.new.calls → IsErr result }
        ensures counts { self.new.calls.faults.count ≡ (if is_ok result then self.old.calls.faults.count else min (self.old.calls.faults.count + 1) (2 ^ 64 - 1)) }
    {
        self.calls.next()?;
        let taken = bytes.len().min(self.chunk);
        if taken == 0 && !bytes.is_empty() {
            return Err(self.calls.faults.rise());
        }
        match self.written.extend_from_slice(&bytes[..taken]) {
            Ok(()) => Ok(taken),
            Err(_) => Err(self.calls.faults.rise()),
        }
    }
}
