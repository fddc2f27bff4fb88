//! Manifests, put into modules, and what they list, registered.

ghost use Rattle.std.specs.Prelude.{◌≡◌};
ghost use Rattle.rhd_module.specs.Lazy.{RegistersTree};
ghost use Rattle.rhd_module.specs.Made.{Makes};
ghost use Rattle.rhd_module.specs.Manifests.{with_manifest, combined, AddsManifest, RegistersListed};

use crate::combining::{module_of, put_contents};
use crate::lazy::registered_parts;
use crate::listed::{refuse_indexers, registered};
use rhd_decl::DeclFault;
use rhd_func::ManifestId;
use rhd_hash::Seeds;
use rhd_manifest::Manifests;
use rhd_module::Module;
use std::alloc::Global;

/// A module, to which manifests can be added.
pub trait ModuleManifests {
    ghost use Rattle.rhd_module.specs.Tree.{ModuleTree};

    /// What it is.
    ghost tree: { Self → ModuleTree };

    /// The module of a manifest: what it lists, not flattened, its variables and custom types, and the
    /// modules of its sub-manifests under their names. It is indexed.
    fn from_manifest(
        alloc: Global,
        manifests: &Manifests,
        seeds: Seeds,
        id: ManifestId,
    ) -> Result<Module, DeclFault>
        ensures { Makes seeds manifests.now id result };

    /// Adds a manifest above those that the module has, flattened or not; nothing of it but its functions,
    /// which are found only when they are called. The module isn't indexed any more.
    fn add_manifest(
        &mut self,
        alloc: Global,
        manifests: &Manifests,
        id: ManifestId,
        flatten: bool,
    ) -> Result<(), DeclFault>
        ensures { AddsManifest manifests.now id (tree self.old) (with_manifest manifests.now id flatten (tree self.old)) result (tree self.new) };

    /// Adds a manifest, flattened, above those that the module has, and puts the variables and custom types
    /// of it and then of its sub-manifests in. The module isn't indexed any more.
    fn combine_manifest(
        &mut self,
        alloc: Global,
        manifests: &Manifests,
        id: ManifestId,
    ) -> Result<(), DeclFault>
        ensures { AddsManifest manifests.now id (tree self.old) (combined manifests.now id (tree self.old)) result (tree self.new) };

    /// Registers what the module itself lists, from the lowest precedence to the highest, and puts its
    /// declarations over it; its manifests go. The module isn't indexed any more.
    fn register_listed(&mut self, alloc: Global) -> Result<(), DeclFault>
        ensures { RegistersListed (tree self.old) result (tree self.new) };

    /// Registers what is listed in the module and below it, from the lowest precedence to the highest, and
    /// puts the declarations of each module over it; their manifests go. Each sub-module in whose tree
    /// something is listed is indexed, and the module isn't any more. Where nothing is listed in the whole
    /// tree, all stays as it is.
    fn register_lazy_functions(&mut self, alloc: Global) -> Result<(), DeclFault>
        ensures { RegistersTree (tree self.old) result (tree self.new) };
}

impl ModuleManifests for Module {
    ghost tree = { λ m. m };

    fn from_manifest(
        alloc: Global,
        manifests: &Manifests,
        seeds: Seeds,
        id: ManifestId,
    ) -> Result<Module, DeclFault> {
        refuse_indexers(alloc, manifests, id)?;
        module_of(alloc, manifests, seeds, id)
    }

    fn add_manifest(
        &mut self,
        alloc: Global,
        manifests: &Manifests,
        id: ManifestId,
        flatten: bool,
    ) -> Result<(), DeclFault> {
        refuse_indexers(alloc, manifests, id)?;
        let listing = manifests.listing(alloc, id, flatten)?;
        self.put_listing((id, flatten), listing)?;
        Ok(())
    }

    fn combine_manifest(
        &mut self,
        alloc: Global,
        manifests: &Manifests,
        id: ManifestId,
    ) -> Result<(), DeclFault> {
        refuse_indexers(alloc, manifests, id)?;
        let listing = manifests.listing(alloc, id, true)?;
        let mut vars = self.vars().dup(alloc)?;
        let mut types = self.types().dup(alloc)?;
        put_contents(alloc, manifests, id, &mut vars, &mut types)?;
        self.put_listing((id, true), listing)?;
        self.set_contents(vars, types);
        Ok(())
    }

    fn register_listed(&mut self, alloc: Global) -> Result<(), DeclFault> {
        let target = registered(alloc, self)?;
        self.take_fns(target);
        Ok(())
    }

    fn register_lazy_functions(&mut self, alloc: Global) -> Result<(), DeclFault> {
        if !self.has_lazy_functions() {
            return Ok(());
        }
        let (fns, subs) = registered_parts(alloc, self)?;
        self.take_fns(fns);
        self.set_sub_modules(subs);
        Ok(())
    }
}
