//! Modules: what they hold, how it is put, and what a key finds.
#![tactic(auto)]

mod contents;
mod declaring;
mod filters;
mod in_place;
mod index;
mod law;
mod manifests;
mod module;
mod parts;
mod qualified;
mod setters;

pub use declaring::{put_entry, register_declared, register_declared_that};
pub use in_place::Named;
pub use law::{a_declaration_leaves_the_others, a_key_finds_its_first_declaration};
pub use module::Module;
pub use parts::Lists;
pub use rhd_decl::{
    CustomTypeInfo, CustomTypesCollection, DeclFault, Declaration, FuncMetadata, FuncRegistration,
    is_banned, is_pure_by_name, native_key, script_declaration, script_key,
};
pub use setters::RegisterIntoModule;
