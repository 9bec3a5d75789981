//! The tells of sums in 64 bits: exactly those of the definition that narrow the box.
//!
//! What the least and the greatest sum leave to the limit is the room by which each term may rise or fall
//! (`specs/ShortTells.antt`, where to begin); a term is told only where that narrows (`src/short_terms.rt`). `narrow_at_most`
//! and `narrow_equation` form the sums, or give nothing and say so; `narrow_short_at_most` and `narrow_short_equation` take
//! them. It stands on `small_sums`; `guarded_tell` uses it where a kernel is visited. It decides nothing for good: how long a
//! sum rests is said there.
#![tactic(auto)]

mod short_sum;
mod short_terms;

pub use short_sum::{
    is_same, narrow_at_most, narrow_equation, narrow_equation_literal, narrow_literal,
    narrow_short_at_most, narrow_short_equation, room_at_most, room_equal, tell_where,
};
pub use short_terms::{Room, narrow_term};
