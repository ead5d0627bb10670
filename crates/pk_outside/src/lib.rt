//! Where a program's bytes come from and where they go: sources, sinks, and reading and writing
//! all. And the gate that a thread passes before each of its lines.
#![tactic(auto)]

pub use gate::{Gate, OpenGate};
pub use memory::{MemSink, MemSource};
pub use outside::{Failed, Sink, Source};
pub use standard::{StdinSource, StdoutSink};
pub use transfer::{MOST_INPUT, ReadNo, read_all, write_all};

mod gate;
mod memory;
mod outside;
mod standard;
mod transfer;
