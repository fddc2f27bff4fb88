//! A session: commands in, replies out, where the reply to a call shows what answered it.
#![tactic(auto)]

mod declaring;
mod importing;
mod joining;
mod session;
mod session_core;

pub use rhd_call::{
    CallNode, Carries, Command, Commands, Layer, ModuleId, Nodes, Pick, Replies, Reply, SharedText,
    Stopped, Whose,
};
pub use rhd_engine::{Builtins, Engine, GlobalRuntimeState, Limits, Operator, Printers};
pub use session::Session;
