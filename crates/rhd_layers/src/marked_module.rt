//! Modules with the marks of what they have.

ghost use Rattle.std.specs.Prelude.{◌≡◌, true, false, IfOk};
ghost use Rattle.rhd_layers.specs.Marks.{lacks_below};

use crate::shared::SharedModule;
use rhd_hash::{BloomFilterU64, HashedKey, Seeds};
use rhd_module::Module;
use rhd_value::OutOfMemory;
use std::alloc::Global;
use std::marker::Model;
use std::rc::Rc;

/// An indexed module, with the marks of its tree's keys beside it: a search that finds nothing there doesn't
/// look into the module. Contracts see the module.
#[derive(Drop)]
pub struct MarkedModule {
    module: SharedModule,
    /// Its seeds.
    seeds: Seeds,
    /// They have room for thousands of keys, and all owners of the module share them.
    marks: Rc<BloomFilterU64<8192>>,
}

impl Model for MarkedModule {
    ghost use Rattle.rhd_hash.specs.Covers.{Covers};
    ghost use Rattle.rhd_module.specs.Tree.{ModuleTree};
    ghost use Rattle.rhd_module.specs.Codes.{tree_code};
    ghost use Rattle.rhd_module.specs.Walk.{tree};

    ghost Value = { ModuleTree };

    ghost coded = { tree_code };

    ghost view = { λ m. m.module };

    ghost invariant = { λ m. Covers 8192 m.marks.value m.seeds (tree m.module) };
}

impl MarkedModule {
    pub fn new(alloc: Global, shared: SharedModule) -> Result<MarkedModule, OutOfMemory>
        requires { shared.own.indexed ≡ true }
        ensures { IfOk result (λ marked. marked ≡ shared) }
    {
        let mut marks = BloomFilterU64::new();
        shared.module().mark_tree(&mut marks);
        let seeds = shared.module().seeds();
        Ok(MarkedModule {
            module: shared,
            seeds,
            marks: Rc::new(alloc, marks)?,
        })
    }

    pub fn module(&self) -> &Module
        ensures { result.now ≡ self.now }
    {
        self.module.module()
    }

    /// Whether its tree may have a function under a key.
    pub fn may_have(&self, key: &HashedKey) -> bool
        ensures { result ≡ false → lacks_below key.now self.now ≡ true }
    {
        !self.marks.is_absent(key.hash_under(self.seeds))
    }

    /// One more owner of the same module.
    pub fn dup(&self, alloc: Global) -> Result<MarkedModule, OutOfMemory>
        ensures { IfOk result (λ marked. marked ≡ self.now) }
    {
        Ok(MarkedModule {
            module: self.module.dup(alloc)?,
            seeds: self.seeds,
            marks: Rc::clone(&self.marks)?,
        })
    }
}
