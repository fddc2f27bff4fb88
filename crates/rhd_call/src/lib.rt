//! The plain data of a run: commands and replies, picks, and the trees of calls.
#![tactic(auto)]

mod command;
mod node;
mod pick;
mod reply;

pub use command::{Command, Commands, ModuleId};
pub use node::{BoxedExtras, CallNode, Carries, Extras, Nodes, Whose};
pub use pick::{Layer, Pick};
pub use reply::{Replies, Reply, Stopped};
pub use rhd_func::SharedText;
