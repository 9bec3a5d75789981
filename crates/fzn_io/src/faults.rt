//! Counts of faults, and calls that are to fail.

ghost use Rattle.std.specs.Prelude.{◌≡◌, ◌+◌, ◌-◌, ◌^◌, ◌↔◌, min, Contains, IsErr, OnOk, OnErr, is_ok, if◌then◌else◌};
ghost use Rattle.fzn_io.specs.Faults.{CountRose};

use super::source::Failed;

/// A count of faults, from 0 on. At the greatest `u64` it stands still.
#[derive(Drop)]
pub(crate) struct Faults {
    pub(crate) count: u64,
}

impl Faults {
    pub(crate) fn new() -> Faults
        ensures { result.count ≡ 0 }
    {
        Faults { count: 0 }
    }

    /// Counts one fault.
    pub(crate) fn rise(&mut self) -> Failed
        ensures count { self.new.count ≡ min (self.old.count + 1) (2 ^ 64 - 1) }
        ensures rose { CountRose self.old.count self.new.count }
    {
        self.count = self.count.saturating_add(1);
        Failed
    }
}

/// The calls on an object, counted from 1, of which some are to fail.
#[derive(Drop)]
pub(crate) struct Calls {
    failing: Vec<u64>,
    made: u64,
    pub(crate) faults: Faults,
}

impl Calls {
    ghost use Rattle.fzn_io.specs.Calls.{IsNextCall, FailsNow};

    pub(crate) fn new(failing: Vec<u64>) -> Calls
        ensures faults { result.faults.count ≡ 0 }
        ensures made { result.made ≡ 0 }
        ensures failing { result.failing.items ≡ failing.items }
    {
        Calls {
            failing,
            made: 0,
            faults: Faults::new(),
        }
    }

    /// Counts a call, and a fault where it is one of those that are to fail.
    pub(crate) fn next(&mut self) -> Result<(), Failed>
        ensures next { IsNextCall self.old self.new }
        ensures fails { IsErr result ↔ FailsNow self.new }
        ensures count { self.new.faults.count ≡ (if is_ok result then self.old.faults.count else min (self.old.faults.count + 1) (2 ^ 64 - 1)) }
        ensures rose { OnErr result (CountRose self.old.faults.count self.new.faults.count) }
    {
        self.made = self.made.saturating_add(1);
        if self.failing.contains(&self.made) {
            return Err(self.faults.rise());
        }
        Ok(())
    }
}
