//! The loader of module texts: lines that say what a script leaves.
#![tactic(auto)]

mod forms;
mod imports;
mod keyword;
mod laws;
mod line;
mod loader;
mod making;
mod part;
mod reading;
mod said;
mod scripts;

pub use laws::module_texts_say_one_thing;
pub use loader::PlanLoader;
