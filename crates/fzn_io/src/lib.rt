//! Where bytes come from and go to: sources with names, sinks, and calls that read or write a whole text.
//!
//! Each refusal of a source or a sink stands on a count of faults, so that a caller's contract can say why it refused. In
//! memory they tell contracts their bytes; over files and standard streams they tell the count alone: what a real file holds,
//! and that its count rises at true faults alone, rests on the few lines over the system's calls. It stands on nothing.
//!
//! Begin with the traits `Source` and `Sink`, then `read_named` and `write_all`.
#![tactic(auto)]

mod faults;
mod honest;
mod mem_sink;
mod mem_source;
mod named;
mod sink;
mod source;
mod system;
mod whole;

pub use honest::{HonestSink, HonestSource};
pub use mem_sink::MemSink;
pub use mem_source::MemSource;
pub use named::Named;
pub use sink::Sink;
pub use source::{Failed, Source};
pub use system::{FileSource, StdSink};
pub use whole::{ReadError, WriteFault, read_all, read_named, write_all};
