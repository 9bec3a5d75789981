//! A source in memory, whose calls give few bytes at a time and fail where they are told to.

ghost use Rattle.std.specs.Prelude.{◌≡◌, ℕ, ◌+◌, ◌<◌, ◌≤◌, List, [], length, map, drop, take, min, false, Some, option_copied, slice_get};
ghost use Rattle.fzn_io.specs.Calls.{StartsCalls};
ghost use Rattle.fzn_io.specs.Memory.{name_of, bytes_of, place_of, held_in, all_of};

use super::faults::Calls;
use super::named::Named;
use super::source::{Failed, Source};

/// Texts in memory under names, which are asked for in their order. A name that stands twice holds what it
/// holds the first time.
#[derive(Drop)]
pub struct MemSource {
    entries: Vec<Named>,
    chunk: usize,
    calls: Calls,
    asked: usize,
    opened: bool,
    place: usize,
    from: usize,
}

impl MemSource {
    /// A source of `names` that gives at most `chunk` bytes a call, and whose calls with the numbers `failing`,
    /// counted from 1 over all its calls, fail. Where `chunk` is 0 there are no bytes to read under any name.
    pub fn new(names: Vec<Named>, chunk: usize, failing: Vec<u64>) -> MemSource
        ensures names { ⟦<MemSource as Source>⟧.names result ≡ Some (map name_of names.items) }
        ensures held { (name : List ℕ) → ⟦<MemSource as Source>⟧.held result name ≡ Some (held_in chunk names.items name) }
        ensures closed { ⟦<MemSource as Source>⟧.is_open result ≡ false }
        ensures faults { ⟦<MemSource as Source>⟧.faults result ≡ 0 }
        ensures chunk { result.chunk ≡ chunk }
        ensures calls { StartsCalls result.calls failing.items }
    {
        MemSource {
            entries: names,
            chunk,
            calls: Calls::new(failing),
            asked: 0,
            opened: false,
            place: 0,
            from: 0,
        }
    }
}

impl Source for MemSource {
    ghost use Rattle.std.specs.Prelude.{◌≡◌, ◌≢◌, ◌↔◌, ℕ, ◌+◌, ◌-◌, ◌^◌, ◌<◌, ◌≤◌, length, take, min, true, Some, None, IfOk, OnOk, OnErr, IsOk, IsErr, is_ok, if◌then◌else◌};
    ghost use Rattle.fzn_io.specs.Calls.{IsNextCall, FailsNow};
    ghost use Rattle.fzn_io.specs.Faults.{CountRose};
    ghost use Rattle.fzn_io.specs.Memory.{left_of};
    ghost use Rattle.fzn_io.specs.MemSources.{held_by, bytes_left, names_left};
    ghost use Rattle.fzn_io.specs.Streams.{Takes, IsAtEnd, IsNextName, later_names, OpensAs};

    ghost held = { held_by };

    ghost left = { bytes_left };

    ghost names = { names_left };

    ghost is_open = { λ s. s.opened };

    ghost faults = { λ s. s.calls.faults.count };

    fn open_named(&mut self, name: &str) -> Result<(), Failed>
        requires { IsNextName (names_left self.old) name.now }
        ensures opened { self.new.opened ≡ is_ok result }
        ensures bytes { OnOk result (OpensAs (held_by self.old name.now) (bytes_left self.new)) }
        ensures held_kept { held_by self.new ≡ held_by self.old }
        ensures name_leaves { names_left self.new ≡ later_names (names_left self.old) }
        ensures never_falls { self.old.calls.faults.count ≤ self.new.calls.faults.count }
        ensures cause { OnErr result (CountRose self.old.calls.faults.count self.new.calls.faults.count) }
        // The calls that fail.
        ensures next_call { IsNextCall self.old.calls self.new.calls }
        ensures fails { FailsNow self.new.calls → IsErr result }
        ensures opens { (FailsNow self.new.calls → ⊥) → held_by self.old name.now ≢ Some None → IsOk result }
        ensures counts { self.new.calls.faults.count ≡ (if is_ok result then self.old.calls.faults.count else min (self.old.calls.faults.count + 1) (2 ^ 64 - 1)) }
    {
        self.opened = false;
        self.from = 0;
        self.asked = after_one(self.asked, self.entries.len());
        self.calls.next()?;
        match place_of(&self.entries, name) {
            Some(place) if bytes_at(&self.entries, place).is_some() => {
                self.place = place;
                self.opened = true;
                Ok(())
            }
            _ => Err(self.calls.faults.rise()),
        }
    }

    fn read(&mut self, buf: &mut [u8]) -> Result<usize, Failed>
        requires { self.old.opened ≡ true }
        ensures within { IfOk result (λ n. n ≤ length buf.new) }
        ensures taken { IfOk result (λ n. Takes (bytes_left self.old) (bytes_left self.new) (take n buf.new)) }
        ensures end { IfOk result (λ n. n ≡ 0 → 0 < length buf.old → IsAtEnd (bytes_left self.new)) }
        ensures none_lost { OnErr result (bytes_left self.new ≡ bytes_left self.old) }
        ensures open_kept { self.new.opened ≡ self.old.opened }
        ensures held_kept { held_by self.new ≡ held_by self.old }
        ensures names_kept { names_left self.new ≡ names_left self.old }
        ensures never_falls { self.old.calls.faults.count ≤ self.new.calls.faults.count }
        ensures cause { OnErr result (CountRose self.old.calls.faults.count self.new.calls.faults.count) }
        // The chunk and the calls that fail.
        ensures chunk { IfOk result (λ n. n ≡ min (min (length (left_of 1 self.old.entries.items self.old.place self.old.from)) (length buf.old)) self.old.chunk) }
        ensures chunk_kept { self.new.chunk ≡ self.old.chunk }
        ensures next_call { IsNextCall self.old.calls self.new.calls }
        ensures fails { IsErr result ↔ FailsNow self.new.calls }
        ensures counts { self.new.calls.faults.count ≡ (if is_ok result then self.old.calls.faults.count else min (self.old.calls.faults.count + 1) (2 ^ 64 - 1)) }
    {
        self.calls.next()?;
        let left = left_at(&self.entries, self.place, self.from);
        let taken = copy_front(left, buf, self.chunk);
        self.from += taken;
        Ok(taken)
    }
}

/// How many entries were asked for once one more of `count` was.
fn after_one(asked: usize, count: usize) -> usize
    ensures more { asked < count → result ≡ asked + 1 }
    ensures end { count ≤ asked → result ≡ asked }
{
    if asked < count { asked + 1 } else { asked }
}

/// The bytes at a place.
fn bytes_at(entries: &[Named], place: usize) -> Option<&[u8]>
    ensures { option_copied result ≡ bytes_of (slice_get entries.now place) }
{
    match entries.get(place) {
        Some(entry) => match &entry.bytes {
            Some(bytes) => Some(bytes.as_slice()),
            None => None,
        },
        None => None,
    }
}

/// Where a name stands the first time.
fn place_of(entries: &[Named], name: &str) -> Option<usize>
    ensures { result ≡ place_of name.now entries.now }
{
    entries.iter().position(|entry| entry.name.as_str() == name)
}

/// What is left at a place once `from` bytes were read.
fn left_at(entries: &[Named], place: usize, from: usize) -> &[u8]
    ensures { result.now ≡ drop from (all_of (bytes_of (slice_get entries.now place))) }
{
    match bytes_at(entries, place) {
        Some(bytes) if from <= bytes.len() => &bytes[from..],
        _ => &[],
    }
}

/// Copies the front of `from` to the front of `to`, at most `most` bytes, and answers how many.
pub(crate) fn copy_front(from: &[u8], to: &mut [u8], most: usize) -> usize
    ensures count { result ≡ min (min (length from.now) (length to.old)) most }
    ensures copied { take result to.new ≡ take result from.now }
{
    let count = from.len().min(to.len()).min(most);
    to[..count].copy_from_slice(&from[..count]);
    count
}
