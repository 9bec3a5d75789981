//! The want of memory: the one answer of its own that a call gives where a request was refused.
//!
//! It stands on nothing, and what takes memory on it: `?` turns the allocator's error into `NoMemory`. No clause gives a cause.
#![tactic(auto)]

use std::alloc::AllocError;

/// Memory was refused.
#[derive(Clone, Copy, PartialEq, Eq, Debug)]
pub struct NoMemory;

impl From<AllocError> for NoMemory {
    fn from(_: AllocError) -> NoMemory {
        NoMemory
    }
}
