//! Functions: what a declaration names, what a call asks for, natives with their table, and the bodies
//! of scripts.
#![tactic(auto)]

mod access;
mod bodies;
mod display;
mod func;
mod host;
mod native;
mod natives;
mod request;
mod shared_text;

pub use access::{EnvId, FnAccess, FnNamespace, IterId, ManifestId};
pub use bodies::Bodies;
pub use func::{BodyId, RhaiFunc, ScriptFuncDef, SharedDef};
pub use host::Host;
pub use native::PluginFunc;
pub use natives::Natives;
pub use request::{
    CallDone, CallRequest, CallShape, Carry, HostAnswer, NativeCallContext, NativeStep,
};
pub use shared_text::{SharedText, share};
