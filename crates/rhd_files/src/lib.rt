//! Paths, and files that are read by path.
#![tactic(auto)]

mod files;
mod paths;

pub use files::{FileAnswer, FileTable, Files, MemFiles};
pub use paths::{file_path, is_absolute, join, parent, with_extension};
