//! Modules in layers: modules with several owners, lists of them, modules by name, and the names of paths.
#![tactic(auto)]

mod lists;
mod marked_module;
mod marks;
mod parts;
mod paths;
mod placing;
mod shared;
mod statics;

pub use lists::{ImportList, ModuleList};
pub use marked_module::MarkedModule;
pub use paths::path_of;
pub use shared::SharedModule;
pub use statics::ModuleMap;
