//! Where bytes come from and where they go: traits that say what is left, what is held and what
//! failed, with sources and sinks in memory and over readers and writers of std.
#![tactic(auto)]

mod memory_sink;
mod memory_source;
mod standard;
mod stream;
mod sure;
mod whole;

pub use memory_sink::MemSink;
pub use memory_source::MemSource;
pub use standard::{StdSink, StdSource};
pub use stream::{Sink, Source};
pub use sure::{SureSink, SureSource};
pub use whole::{ReadFault, read_whole, write_whole};
