//! Rust values of one type as values of the language, and back.
#![tactic(auto)]

mod variant;

pub use variant::{Variant, a_value_comes_back};
