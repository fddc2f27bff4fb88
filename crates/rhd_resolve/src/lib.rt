//! Environments, scripts that are loaded into them, and resolvers, which give modules by path.
#![tactic(auto)]

mod environs;
mod fault;
mod file;
mod loaded;
mod loader;
mod loading;
mod resolver;

pub use environs::{EncapsulatedEnviron, Environs};
pub use fault::ResolveFault;
pub use file::{FileModuleResolver, RHAI_SCRIPT_EXTENSION};
pub use loaded::{LoadedScript, ScopeEntry};
pub use loader::Loader;
pub use loading::ModuleLoading;
pub use resolver::ModuleResolver;
pub use rhd_files::{FileAnswer, FileTable, Files, MemFiles};
