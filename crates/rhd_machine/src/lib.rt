//! The call machine: makes one call, with all the calls that its function asks for, over an engine and a
//! state that are lent to it.
#![tactic(auto)]

mod boxed;
mod calls;
mod ends;
mod filling;
mod machine;
mod plan;
mod printed;
mod received;
mod refusal;
mod run;

pub use filling::begun;
pub use run::fill;
