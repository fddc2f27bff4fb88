//! Tests of the crates below the machine: their calls on the smallest arguments. They stand in one crate,
//! since a crate with tests is proved twice; what they are made of is proved without them as well.
#![tactic(auto)]

#[cfg(test)]
mod algebra;
#[cfg(test)]
mod decl;
#[cfg(test)]
mod dispatch;
#[cfg(test)]
mod engine;
#[cfg(test)]
mod file_resolver;
#[cfg(test)]
mod files;
#[cfg(test)]
mod filters;
#[cfg(test)]
mod func;
pub mod given;
#[cfg(test)]
mod hash;
#[cfg(test)]
mod manifest;
#[cfg(test)]
mod map;
#[cfg(test)]
mod module;
#[cfg(test)]
mod must;
#[cfg(test)]
mod names;
#[cfg(test)]
mod registering;
#[cfg(test)]
mod resolve;
#[cfg(test)]
mod setters;
#[cfg(test)]
mod table;
#[cfg(test)]
mod value;
