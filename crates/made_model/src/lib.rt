//! The made text of a number of variables, and what is written of its answer.
//!
//! `made_text` is, byte for byte, that of the definition (`specs/Made.antt`); `made_summary` is its line. It stands on nothing
//! here. That the texts are models, `made_laws` says.
#![tactic(auto)]

mod draws;
mod summary;
mod text;

pub use summary::made_summary;
pub use text::made_text;
