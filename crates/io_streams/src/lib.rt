//! The outside: where bytes come from, where they go, and what stands for both in memory and at the process.
//!
//! A clause sees a source as the bytes that are left, a count of faults and how many bytes the last read gave, and a sink as
//! the bytes written and a count of faults. Every call that writes a text has the one clause `Writes`: the text was written,
//! or a front of it, and then the sink failed.
#![tactic(auto)]

mod file;
mod gathered;
mod memory;
mod sink;
mod source;
mod standard;
mod status;
mod write;

pub use file::FileSource;
pub use gathered::Gathered;
pub use memory::MemSink;
pub use sink::{Sink, WriteAnswer, WriteFault};
pub use source::{ReadAnswer, Source};
pub use standard::{StdSink, StdSource};
pub use status::Status;
pub use write::{write_all, write_pieces};
