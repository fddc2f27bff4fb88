//! Maps by name, into which entries are put so that they can be taken back.
#![tactic(auto)]

mod puts;

pub use puts::{put_all, take_back};
