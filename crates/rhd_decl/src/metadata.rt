//! What is said of a function.

ghost use Rattle.std.specs.Prelude.{◌≡◌, IfOk};

use rhd_func::{FnAccess, FnNamespace};
use rhd_value::{OutOfMemory, Text, Texts, Types};
use std::alloc::Global;
use std::marker::Model;
use std::rc::Rc;

/// What is said of a function that is declared.
#[derive(Drop)]
pub struct FuncMetadata {
    /// The hash of its key under the module's seeds.
    pub hash: u64,
    pub namespace: FnNamespace,
    pub access: FnAccess,
    pub name: Text,
    /// The number of parameters, without an object.
    pub num_params: u64,
    /// The types of a native's parameters, as its key has them; none of a script.
    pub param_types: Types,
    /// How each parameter is written: its name and, behind a colon, its type.
    pub params_info: Texts,
    /// The type of the answer, where it is told.
    pub return_type: Text,
    pub comments: Texts,
}

impl FuncMetadata {
    /// An equal one.
    pub fn dup(&self, alloc: Global) -> Result<FuncMetadata, OutOfMemory>
        ensures { IfOk result (λ metadata. metadata ≡ self.now) }
    {
        Ok(FuncMetadata {
            hash: self.hash,
            namespace: self.namespace,
            access: self.access,
            name: self.name.dup(alloc)?,
            num_params: self.num_params,
            param_types: self.param_types.dup(alloc)?,
            params_info: self.params_info.dup(alloc)?,
            return_type: self.return_type.dup(alloc)?,
            comments: self.comments.dup(alloc)?,
        })
    }
}

/// What is said of a function, with several owners. Contracts see what is said.
#[derive(Drop)]
pub struct SharedMetadata {
    metadata: Rc<FuncMetadata>,
}

impl Model for SharedMetadata {
    ghost use Rattle.rhd_decl.specs.declared.metadata.FuncMetadata.{FuncMetadata};

    ghost Value = { FuncMetadata };

    ghost view = { λ a. a.metadata.value };
}

impl SharedMetadata {
    #[inline(always)]
    pub fn new(alloc: Global, metadata: FuncMetadata) -> Result<SharedMetadata, OutOfMemory>
        ensures { IfOk result (λ shared. shared ≡ metadata) }
    {
        Ok(SharedMetadata {
            metadata: Rc::new(alloc, metadata)?,
        })
    }

    pub fn metadata(&self) -> &FuncMetadata
        ensures { result.now ≡ self.now }
    {
        &self.metadata
    }

    /// One more owner of the same.
    pub fn dup(&self, _alloc: Global) -> Result<SharedMetadata, OutOfMemory>
        ensures { IfOk result (λ shared. shared ≡ self.now) }
    {
        Ok(SharedMetadata {
            metadata: self.metadata.clone()?,
        })
    }
}
