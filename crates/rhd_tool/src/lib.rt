//! Runs a session text: the one call that reads a text, answers its commands and prints the replies; and
//! what it is called with, the kit's natives, sources and sinks.
#![tactic(auto)]

#[cfg(test)]
mod tests;
mod tool;
mod writing;

pub use rhd_kit::{
    KIT_LEN, KitFn, PlanBodies, TableHost, a_body_asks_its_calls_in_order,
    a_native_asks_as_often_as_it_is_told, kit,
};
pub use rhd_loader::PlanLoader;
pub use rhd_streams::{
    Failed, MemSink, MemSource, PlainSink, PlainSource, Reading, Sink, SinkFault, Source, Writing,
};
pub use tool::{ToolEnd, run_tool};
