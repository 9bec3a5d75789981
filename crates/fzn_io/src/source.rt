//! Sources: named texts that are opened one after another and read from the front.

ghost use Rattle.std.specs.Prelude.{◌≡◌, ℕ, ◌<◌, ◌≤◌, List, length, take, Bool, true, Option, IfOk, OnOk, OnErr, is_ok};
ghost use Rattle.fzn_io.specs.Faults.{CountRose};
ghost use Rattle.fzn_io.specs.Streams.{Takes, IsAtEnd, IsNextName, later_names, OpensAs};

/// A refusal of a source or a sink. Its cause is a fault, by which the count of faults rose.
#[derive(Clone, Copy, Debug, PartialEq, Eq)]
pub struct Failed;

/// Named texts, of which one at a time is open for reading.
pub trait Source {
    // What a name holds: untold, or that it isn't there, or its bytes.
    ghost held: { Self → List ℕ → Option (Option (List ℕ)) };

    // The bytes of the open text that were not yet read, where they are told.
    ghost left: { Self → Option (List ℕ) };

    // The names that it may yet be asked for, in order, where they are told.
    ghost names: { Self → Option (List (List ℕ)) };

    // Whether a text is open.
    ghost is_open: { Self → Bool };

    // How many faults there were. It never falls, and stands still at the greatest `u64`.
    ghost faults: { Self → ℕ };

    /// Opens the text of a name in place of the one that was open. A name that isn't there is a fault. After a refusal
    /// no text is open.
    fn open_named(&mut self, name: &str) -> Result<(), Failed>
        requires { IsNextName (names self.old) name.now }
        ensures opened { is_open self.new ≡ is_ok result }
        ensures bytes { OnOk result (OpensAs (held self.old name.now) (left self.new)) }
        ensures held_kept { held self.new ≡ held self.old }
        ensures name_leaves { names self.new ≡ later_names (names self.old) }
        ensures never_falls { faults self.old ≤ faults self.new }
        ensures cause { OnErr result (CountRose (faults self.old) (faults self.new)) };

    /// Reads into the front of `buf` and answers how many bytes. None into a buffer that isn't empty is the end. What stands
    /// in the rest of `buf`, and after a refusal in all of it, is left open, as the system leaves it.
    fn read(&mut self, buf: &mut [u8]) -> Result<usize, Failed>
        requires { is_open self.old ≡ true }
        ensures within { IfOk result (λ n. n ≤ length buf.new) }
        ensures taken { IfOk result (λ n. Takes (left self.old) (left self.new) (take n buf.new)) }
        ensures end { IfOk result (λ n. n ≡ 0 → 0 < length buf.old → IsAtEnd (left self.new)) }
        ensures none_lost { OnErr result (left self.new ≡ left self.old) }
        ensures open_kept { is_open self.new ≡ is_open self.old }
        ensures held_kept { held self.new ≡ held self.old }
        ensures names_kept { names self.new ≡ names self.old }
        ensures never_falls { faults self.old ≤ faults self.new }
        ensures cause { OnErr result (CountRose (faults self.old) (faults self.new)) };
}
