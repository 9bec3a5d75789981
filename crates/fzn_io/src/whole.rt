//! Calls that read a whole text and write a whole text.

ghost use Rattle.std.specs.Prelude.{◌≡◌, ℕ, ◌+◌, ◌<◌, ◌≤◌, List, length, take, true, false, IfOk, OnOk, OnErr, IsErrOf, vec_len};
ghost use Rattle.fzn_io.specs.Faults.{CountRose};
ghost use Rattle.fzn_io.specs.Streams.{Takes, IsAtEnd, Adds, AddsFront, IsNextName, later_names, IsHeld, IsLonger, IsPartRead};
ghost use Rattle.fzn_io.specs.declared.whole.ReadError.TheVariants.{ReadFault, NoMemory};

use super::sink::Sink;
use super::source::{Failed, Source};
use std::alloc::{AllocError, Global};

/// Most bytes of one call of `read`.
const PIECE: usize = 65536;

/// Why a text wasn't read whole.
#[derive(Clone, Copy, Debug, PartialEq, Eq)]
pub enum ReadError {
    /// The source refused: its count of faults rose.
    ReadFault,
    /// More bytes were left than the limit.
    TooLong,
    /// Memory was refused.
    NoMemory,
}

impl From<Failed> for ReadError {
    ghost from_gives = { λ _ e. e ≡ ReadFault };

    fn from(_failed: Failed) -> ReadError {
        ReadError::ReadFault
    }
}

impl From<AllocError> for ReadError {
    ghost from_gives = { λ _ e. e ≡ NoMemory };

    fn from(_refused: AllocError) -> ReadError {
        ReadError::NoMemory
    }
}

/// A sink's refusal of a text or of a part of it: its count of faults rose.
#[derive(Clone, Copy, Debug, PartialEq, Eq)]
pub struct WriteFault;

/// Room for one call of `read`.
fn empty_piece(alloc: Global) -> Result<Vec<u8>, AllocError>
    ensures { IfOk result (λ piece. vec_len piece ≡ PIECE) }
{
    vec![in alloc; 0u8; PIECE]
}

/// One call of `read` into the first `most` bytes of `piece`.
fn read_piece<S: Source>(source: &mut S, piece: &mut [u8], most: usize) -> Result<usize, Failed>
    requires is_open { S.is_open source.old ≡ true }
    requires some { 0 < most }
    requires room { most ≤ length piece.old }
    ensures within { IfOk result (λ n. n ≤ most) }
    ensures taken { IfOk result (λ n. Takes (S.left source.old) (S.left source.new) (take n piece.new)) }
    ensures end { IfOk result (λ n. n ≡ 0 → IsAtEnd (S.left source.new)) }
    ensures none_lost { OnErr result (S.left source.new ≡ S.left source.old) }
    ensures open_kept { S.is_open source.new ≡ true }
    ensures held_kept { S.held source.new ≡ S.held source.old }
    ensures names_kept { S.names source.new ≡ S.names source.old }
    ensures never_falls { S.faults source.old ≤ S.faults source.new }
    ensures cause { OnErr result (CountRose (S.faults source.old) (S.faults source.new)) }
{
    source.read(&mut piece[..most])
}

/// Reads the rest of the open text, at most `limit` bytes. It reads at most one byte more than that.
pub fn read_all<S: Source>(
    alloc: Global,
    source: &mut S,
    limit: usize,
) -> Result<Vec<u8>, ReadError>
    requires { S.is_open source.old ≡ true }
    ensures whole { IfOk result (λ text. Takes (S.left source.old) (S.left source.new) text.items × IsAtEnd (S.left source.new)) }
    ensures within { IfOk result (λ text. length text.items ≤ limit) }
    ensures refused { OnErr result ((text : List ℕ) × Takes (S.left source.old) (S.left source.new) text × (length text ≤ limit + 1)) }
    ensures too_long { IsErrOf result ReadError.TooLong → (text : List ℕ) × Takes (S.left source.old) (S.left source.new) text × (length text ≡ limit + 1) }
    ensures read_fault { IsErrOf result ReadError.ReadFault → CountRose (S.faults source.old) (S.faults source.new) }
    ensures never_falls { S.faults source.old ≤ S.faults source.new }
    ensures open_kept { S.is_open source.new ≡ true }
    ensures held_kept { S.held source.new ≡ S.held source.old }
    ensures names_kept { S.names source.new ≡ S.names source.old }
{
    let mut piece = empty_piece(alloc)?;
    let mut text = Vec::new(alloc);
    loop {
        let room = limit - text.len();
        let wanted = room.saturating_add(1).min(PIECE);
        let taken = read_piece(source, &mut piece, wanted)?;
        if taken == 0 {
            return Ok(text);
        }
        if taken > room {
            return Err(ReadError::TooLong);
        }
        text.extend_from_slice(&piece[..taken])?;
    }
}

/// Opens a name and reads its text, at most `limit` bytes. The name stays open, also after a refusal; only where the source
/// refused may nothing be open: it may have been the opening.
pub fn read_named<S: Source>(
    alloc: Global,
    source: &mut S,
    name: &str,
    limit: usize,
) -> Result<Vec<u8>, ReadError>
    requires { IsNextName (S.names source.old) name.now }
    ensures whole { IfOk result (λ text. IsHeld (S.held source.old name.now) text.items) }
    ensures within { IfOk result (λ text. length text.items ≤ limit) }
    ensures too_long { IsErrOf result ReadError.TooLong → IsLonger (S.held source.old name.now) limit }
    ensures read_fault { IsErrOf result ReadError.ReadFault → CountRose (S.faults source.old) (S.faults source.new) }
    ensures never_falls { S.faults source.old ≤ S.faults source.new }
    ensures held_kept { S.held source.new ≡ S.held source.old }
    ensures name_leaves { S.names source.new ≡ later_names (S.names source.old) }
    // What is open, and what is left of it.
    ensures closed { S.is_open source.new ≡ false → IsErrOf result ReadError.ReadFault }
    ensures open { S.is_open source.new ≡ true → IsPartRead (S.held source.old name.now) (S.left source.new) (limit + 1) }
    ensures end { OnOk result (IsAtEnd (S.left source.new)) }
{
    source.open_named(name)?;
    read_all(alloc, source, limit)
}

/// Writes all of `bytes`. After a refusal a front of them is written. It takes no memory of its own.
pub fn write_all<K: Sink>(sink: &mut K, bytes: &[u8]) -> Result<(), WriteFault>
    ensures whole { OnOk result (Adds (K.written sink.old) (K.written sink.new) bytes.now) }
    ensures front { AddsFront (K.written sink.old) (K.written sink.new) bytes.now }
    ensures write_fault { OnErr result (CountRose (K.faults sink.old) (K.faults sink.new)) }
    ensures never_falls { K.faults sink.old ≤ K.faults sink.new }
{
    let mut done = 0;
    while done < bytes.len() {
        match sink.write(&bytes[done..]) {
            Ok(taken) => done += taken,
            Err(Failed) => return Err(WriteFault),
        }
    }
    Ok(())
}
