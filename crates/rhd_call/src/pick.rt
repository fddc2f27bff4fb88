//! What a search gives.

ghost use Rattle.std.specs.Prelude.{◌≡◌, IfOk};

use rhd_func::{RhaiFunc, SharedText, share};
use rhd_value::OutOfMemory;
use std::alloc::Global;

/// Where a function was found. A number is a place in its list, counted from 0.
#[derive(Clone, Copy, PartialEq, Eq, Debug)]
pub enum Layer {
    /// A library of the frame. The oldest is the first.
    Library(u64),
    /// A module whose functions all calls find.
    Global(u64),
    /// An import of the frame. The oldest is the first.
    Import(u64),
    /// A static module. They stand in ascending order of name.
    Static(u64),
    /// The table of built-in operators.
    Builtin,
}

/// A function, and where it was found.
#[derive(Drop)]
pub struct Pick {
    pub layer: Layer,
    pub func: RhaiFunc,
    /// The id of the module in which it was found, if that has one.
    pub source: Option<SharedText>,
}

impl Pick {
    /// An equal pick.
    pub fn dup(&self, alloc: Global) -> Result<Pick, OutOfMemory>
        ensures { IfOk result (λ pick. pick ≡ self.now) }
    {
        Ok(Pick {
            layer: self.layer,
            func: self.func.dup(alloc)?,
            source: share(alloc, &self.source)?,
        })
    }
}
