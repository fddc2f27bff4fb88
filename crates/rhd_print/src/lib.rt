//! Printing: values, keys of functions, calls and replies as text.
#![tactic(auto)]

mod keys;
mod nodes;
mod quotes;
mod replies;
mod tree_law;
mod values;

pub use replies::{print_replies, print_reply};
pub use tree_law::printed_trees_tell_every_call;
pub use values::print_value;
