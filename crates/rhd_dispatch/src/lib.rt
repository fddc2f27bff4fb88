//! Which function a call by name means: scripts and natives by key, natives by the patterns of their
//! types, and built-in operators; and what a call below a path means. Which call has a locked argument.
#![tactic(auto)]

mod ask;
mod asks;
mod filters;
mod keys;
mod look;
mod operators;
mod patterns;
mod qualified;
mod races;
mod root;
mod search;

pub use ask::{Ask, resolve};
pub use asks::resolve_call;
pub use qualified::{QualifiedAsk, resolve_qualified, resolve_qualified_call};
pub use races::ensure_no_data_race;
pub use rhd_call::{Layer, Pick};
pub use root::has_root;
pub use search::Found;
