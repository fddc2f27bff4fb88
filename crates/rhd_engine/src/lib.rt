//! An engine, and the state of a run: what is registered for all calls, and in which modules besides a
//! call looks.
#![tactic(auto)]

mod builtins;
mod display;
mod engine;
mod law;
mod limits;
mod missing;
mod registering;
mod state;

pub use builtins::{Builtins, Operator};
pub use engine::Engine;
pub use law::a_builtin_leaves_the_others;
pub use limits::{Limits, Printers};
pub use missing::path_text;
pub use registering::{
    RegisterIntoEngine, fn_registration, for_all_calls, raw_func, raw_registration,
};
pub use rhd_layers::{ImportList, ModuleList, ModuleMap, path_of};
pub use state::GlobalRuntimeState;
