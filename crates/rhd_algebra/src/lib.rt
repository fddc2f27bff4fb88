//! Module algebra: modules joined with one another, filtered, made of manifests, and rid of them.
#![tactic(auto)]

mod algebra;
mod combining;
mod joining;
mod law;
mod lazy;
mod listed;
mod manifest_calls;
mod manifests;
mod shared;

pub use algebra::ModuleAlgebra;
pub use law::{
    combining_is_associative, joining_finds_what_either_has, merging_combines_what_is_declared,
    registering_keeps_what_is_found,
};
pub use manifest_calls::{EntryCalls, ManifestCalls};
pub use manifests::ModuleManifests;
pub use shared::SharedAlgebra;
