//! Bytes in and bytes out: sources that are read piece by piece, sinks that are written piece by
//! piece, and whole reads and writes over them.
//!
//! A source or a sink counts its own failures, and a call answers a fault only where that count
//! rose in the call. What a source still has and what a sink was given are told by those that can
//! know it, as the ones in memory.
#![tactic(auto)]

mod memory;
mod sink;
mod source;
mod standard;
mod whole;

pub use memory::{MemSink, MemSource};
pub use sink::Sink;
pub use source::{Failed, Source};
pub use standard::{StdSink, StdSource};
pub use whole::{ReadError, WriteError, read_all, write_all};
