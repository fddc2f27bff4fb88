//! Modules with several owners, joined with others.

ghost use Rattle.std.specs.Prelude.{true};
ghost use Rattle.rhd_module.specs.Algebra.{Combines, Flattens, Fills, Merges};
ghost use Rattle.rhd_module.specs.Lazy.{RegistersTree};
ghost use Rattle.rhd_module.specs.Manifests.{AddsManifest, combined};

use crate::algebra::ModuleAlgebra;
use crate::manifests::ModuleManifests;
use rhd_decl::DeclFault;
use rhd_func::ManifestId;
use rhd_layers::SharedModule;
use rhd_manifest::Manifests;
use rhd_module::Module;
use std::alloc::Global;

/// A module with several owners, which can be joined with others: what one owner changes, the others don't
/// see.
pub trait SharedAlgebra {
    ghost use Rattle.rhd_module.specs.Tree.{ModuleTree};

    /// What this owner's module is.
    ghost tree: { Self → ModuleTree };

    /// Adds a manifest, flattened, to this owner's module, as `ModuleManifests::combine_manifest` does. The module is
    /// copied first where it has other owners.
    fn combine_manifest(
        &mut self,
        alloc: Global,
        manifests: &Manifests,
        id: ManifestId,
    ) -> Result<(), DeclFault>
        ensures { AddsManifest manifests.now id (tree self.old) (combined manifests.now id (tree self.old)) result (tree self.new) };

    /// Registers what is listed in this owner's module and below it, as `ModuleManifests::register_lazy_functions`
    /// does. The module is copied first where something is listed and it has other owners.
    fn register_lazy_functions(&mut self, alloc: Global) -> Result<(), DeclFault>
        ensures { RegistersTree (tree self.old) result (tree self.new) };

    /// Puts another module over this owner's module, as `ModuleAlgebra::combine` does. The module is
    /// copied first where it has other owners.
    fn combine(&mut self, alloc: Global, other: &Module) -> Result<(), DeclFault>
        ensures { Combines other.now (tree self.old) result (tree self.new) };

    /// Puts what stands in the tree of another module over this owner's module, as `ModuleAlgebra::combine_flatten` does. The module is
    /// copied first where it has other owners.
    fn combine_flatten(&mut self, alloc: Global, other: &Module) -> Result<(), DeclFault>
        ensures { Flattens other.now (tree self.old) result (tree self.new) };

    /// Puts what is new of another module into this owner's module, as `ModuleAlgebra::fill_with` does. The module is
    /// copied first where it has other owners.
    fn fill_with(&mut self, alloc: Global, other: &Module) -> Result<(), DeclFault>
        ensures { Fills other.now (tree self.old) result (tree self.new) };

    /// Merges another module into this owner's module, as `ModuleAlgebra::merge` does. The module is
    /// copied first where it has other owners.
    fn merge(&mut self, alloc: Global, other: &Module) -> Result<(), DeclFault>
        ensures { Merges (λ d. true) other.now (tree self.old) result (tree self.new) };
}

impl SharedAlgebra for SharedModule {
    ghost tree = { λ m. m };

    fn combine_manifest(
        &mut self,
        alloc: Global,
        manifests: &Manifests,
        id: ManifestId,
    ) -> Result<(), DeclFault> {
        let module = self.module_mut()?;
        module.combine_manifest(alloc, manifests, id)
    }

    fn register_lazy_functions(&mut self, alloc: Global) -> Result<(), DeclFault> {
        if !self.module().has_lazy_functions() {
            return Ok(());
        }
        let module = self.module_mut()?;
        module.register_lazy_functions(alloc)
    }

    fn combine(&mut self, alloc: Global, other: &Module) -> Result<(), DeclFault> {
        let module = self.module_mut()?;
        module.combine(alloc, other)
    }

    fn combine_flatten(&mut self, alloc: Global, other: &Module) -> Result<(), DeclFault> {
        let module = self.module_mut()?;
        module.combine_flatten(alloc, other)
    }

    fn fill_with(&mut self, alloc: Global, other: &Module) -> Result<(), DeclFault> {
        let module = self.module_mut()?;
        module.fill_with(alloc, other)
    }

    fn merge(&mut self, alloc: Global, other: &Module) -> Result<(), DeclFault> {
        let module = self.module_mut()?;
        module.merge(alloc, other)
    }
}
