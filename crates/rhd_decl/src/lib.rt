//! What modules hold: declarations with what is said of them, the keys of natives, custom types, flags;
//! and why a declaration is refused.
#![tactic(auto)]

mod custom_types;
mod declaration;
mod fault;
mod flags;
mod metadata;
mod native_keys;
mod refusals;
mod registration;

pub use custom_types::{CustomTypeInfo, CustomTypesCollection};
pub use declaration::Declaration;
pub use fault::DeclFault;
pub use flags::{ModuleFlags, Switches};
pub use metadata::{FuncMetadata, SharedMetadata};
pub use native_keys::{mapped_types, native_key};
pub use refusals::{raw_refusal, refuse_banned, refuse_indexer, refuse_pair, unheld, unknown};
pub use registration::{
    FuncRegistration, is_banned, is_pure_by_name, script_declaration, script_key,
};
