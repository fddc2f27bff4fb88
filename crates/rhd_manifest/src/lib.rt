//! Manifests: lists of functions that are found only when they are called.
#![tactic(auto)]

mod entry;
mod entry_list;
mod listing;
mod manifest;
mod manifests;
mod walk;

pub use entry::FnManifestEntry;
pub use entry_list::EntryList;
pub use listing::Listing;
pub use manifest::ModuleManifest;
pub use manifests::Manifests;
