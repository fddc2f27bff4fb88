//! Values with their marks, faults, and the small types that they are made of.
#![tactic(auto)]

mod dynamic;
mod fault;
mod lists;
mod memory;
mod short;
mod tag;
mod text;

pub use dynamic::{Dynamic, Entries, FnPtr, Value, Values};
pub use fault::{BoxedFault, EvalAltResult, ParseErrorType};
pub use lists::{Texts, Types};
pub use memory::OutOfMemory;
pub use tag::{FnId, FnPtrType, Marks, Position, Sizes, TypeTag, map_type};
pub use text::Text;
