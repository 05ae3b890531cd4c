//! Where bytes come from and where they go: sources and sinks over memory and over std's readers and writers.
#![tactic(auto)]

mod device;
mod memory;
mod wrapped;
mod writing;

pub use device::{IoFailed, Sink, Source};
pub use memory::{MemorySink, MemorySource};
pub use wrapped::{FromRead, FromWrite};
pub use writing::{write_all, write_front};
