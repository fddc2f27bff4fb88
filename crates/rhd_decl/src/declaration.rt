//! A function of a module.

ghost use Rattle.std.specs.Prelude.{◌≡◌, IfOk};

use crate::metadata::{FuncMetadata, SharedMetadata};
use rhd_func::RhaiFunc;
use rhd_value::OutOfMemory;
use std::alloc::Global;

/// A function of a module, under its key, with what is said of it.
#[derive(Drop)]
pub struct Declaration {
    pub func: RhaiFunc,
    pub metadata: SharedMetadata,
}

impl Declaration {
    /// What is said of the function.
    pub fn metadata(&self) -> &FuncMetadata
        ensures { result.now ≡ self.now.metadata }
    {
        self.metadata.metadata()
    }

    /// An equal declaration.
    #[inline(always)]
    pub fn dup(&self, alloc: Global) -> Result<Declaration, OutOfMemory>
        ensures { IfOk result (λ declaration. declaration ≡ self.now) }
    {
        Ok(Declaration {
            func: self.func.dup(alloc)?,
            metadata: self.metadata.dup(alloc)?,
        })
    }
}
