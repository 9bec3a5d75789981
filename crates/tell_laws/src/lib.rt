//! What holds of lists of tells: of those that narrow a box, of hearing one after the other, and of literals on boxes.
//!
//! A propagator's crate takes its lemmas from here (`proofs/`): lists that are put together (`Lists`), hearers
//! (`HearingLaws`, and `NarrowingLaws` for one that passes on what narrows), literals (`LiteralLaws`, `CommonLaws`) and
//! where tells are (`PlaceLaws`). `tell_narrowing` gives a tell where it narrows. It stands on `tells` and knows no
//! propagator. Begin with `specs/Narrowing.antt`.
#![tactic(auto)]

mod narrowing;

pub use narrowing::{law_narrowing, tell_narrowing};
