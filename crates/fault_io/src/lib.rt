//! Sources and sinks that count their faults, and the calls that read and write all of them.
//!
//! Promises: `read_all` gives all bytes to the end, or says exactly why not; `write_all` writes all or a prefix. An
//! answer that something failed comes only where the count of faults rose, and a read or write that failed took
//! nothing (`Source`, `Sink`, kept by `MemorySource` and `MemorySink`). Not said: what standard input gives and what
//! standard output takes (`standard` is trusted).
#![tactic(auto)]

pub mod ends;
pub mod gate;
pub mod memory;
pub mod standard;
