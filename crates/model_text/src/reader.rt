//! From the bytes of a text to its model.

ghost use Rattle.std.specs.Prelude.{◌≡◌, ◌≤◌, ◌==◌, count_by, ℕ, List, length, MatchResult};
ghost use Rattle.constraint_model.specs.declared.model.FznModel.{FznModel};
ghost use Rattle.model_text.specs.Texts.{IsTextOf, IsFaultOf, IsCause, fault_line, line_at};

use crate::turns::model_of;
use fzn_model::{FaultKind, FznModel};
use std::alloc::Global;
use thiserror::Error;

/// The most bytes of a text.
pub const MOST_BYTES: usize = 67_108_864;

/// Why a text has no model.
#[derive(Debug, Clone, Copy, PartialEq, Eq, Drop, Error)]
pub enum TextError {
    /// The text has a fault of this kind at this byte.
    #[error("fault of kind {kind} at byte {at}")]
    Refused { kind: u8, at: usize },
    /// Memory was refused.
    #[error("out of memory")]
    NoMemory,
}

/// The model of a text. Errors: `Refused` with the kind and the place of the text's first fault; `NoMemory`.
pub fn read_model(alloc: Global, text: &[u8]) -> Result<FznModel, TextError>
    ensures { MatchResult result (λ m. IsTextOf text.now m) (λ e. IsCause text.now e) }
{
    if text.len() > MOST_BYTES {
        return Err(TextError::Refused {
            kind: FaultKind::TooLong.number(),
            at: 0,
        });
    }
    model_of(alloc, text)
}

/// How many bytes end a line.
fn line_ends(bytes: &[u8]) -> u64
    ensures value { result ≡ count_by (λ b. b == 10) bytes.now }
    ensures bound { result ≤ length bytes.now }
{
    let mut ends = 0;
    for byte in bytes {
        if *byte == 10 {
            ends += 1;
        }
    }
    ends
}

/// The line of the byte `at` of a text, counted from 1.
#[tactic(auto, unfolding(crate::specs::Texts::line_at))]
pub fn line_of(text: &[u8], at: usize) -> u64
    ensures { result ≡ line_at text.now at }
{
    if at <= text.len() {
        line_ends(&text[..at]) + 1
    } else {
        line_ends(text) + 1
    }
}

/// The line that is told of a fault; 0 where the text is too long.
pub fn told_line(text: &[u8], kind: u8, at: usize) -> u64
    ensures { result ≡ fault_line text.now kind at }
{
    if kind == FaultKind::TooLong.number() {
        0
    } else {
        line_of(text, at)
    }
}
