//! Where a session text comes from and where its replies go: sources and sinks, reading a source to its
//! end, and writing all of some bytes.
#![tactic(auto)]

mod reading;
mod sink;
mod source;
mod writing;

pub use reading::{ReadEnd, read_whole};
pub use sink::{MemSink, PlainSink, Sink, SinkFault, Writing};
pub use source::{Failed, MemSource, PlainSource, Reading, Source};
pub use writing::write_whole;
