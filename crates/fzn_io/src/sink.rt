//! Sinks: where bytes are written, one piece after another.

ghost use Rattle.std.specs.Prelude.{◌≡◌, ℕ, ◌<◌, ◌≤◌, List, [], length, take, Option, IfOk, OnErr};
ghost use Rattle.fzn_io.specs.Faults.{CountRose};
ghost use Rattle.fzn_io.specs.Streams.{Adds};

use super::source::Failed;

/// Where bytes are written.
pub trait Sink {
    // The bytes written so far, where they are told.
    ghost written: { Self → Option (List ℕ) };

    // How many faults there were. It never falls, and stands still at the greatest `u64`.
    ghost faults: { Self → ℕ };

    /// Writes a front of `bytes` and answers how many. To take none of a piece that isn't empty is a fault.
    fn write(&mut self, bytes: &[u8]) -> Result<usize, Failed>
        ensures within { IfOk result (λ n. n ≤ length bytes.now) }
        ensures some { IfOk result (λ n. 0 < length bytes.now → 0 < n) }
        ensures added { IfOk result (λ n. Adds (written self.old) (written self.new) (take n bytes.now)) }
        ensures none_added { OnErr result (Adds (written self.old) (written self.new) []) }
        ensures never_falls { faults self.old ≤ faults self.new }
        ensures cause { OnErr result (CountRose (faults self.old) (faults self.new)) };
}
