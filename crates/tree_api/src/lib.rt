//! The ends that bytes come from and go to: sources and sinks, with their counts of faults, and forms of them in memory.
#![tactic(auto)]

mod memory;
mod streams;

pub use memory::{MemSink, MemSource};
pub use streams::{Failed, Sink, Source, put_all};
