//! What manifests and the functions that they list put into a module by themselves.

ghost use Rattle.std.specs.Prelude.{◌≡◌, OnOk, OnErr};
ghost use Rattle.rhd_manifest.specs.Entry.{entry_key, entry_decl};
ghost use Rattle.rhd_module.specs.Manifests.{with_contents};
ghost use Rattle.rhd_decl.specs.Registration.{banned};
ghost use Rattle.rhd_module.specs.Registered.{Puts};

use crate::combining::{put_types, put_vars};
use rhd_decl::DeclFault;
use rhd_hash::SharedKey;
use rhd_manifest::{FnManifestEntry, ModuleManifest};
use rhd_module::{Module, is_banned, put_entry};
use rhd_value::OutOfMemory;
use std::alloc::Global;

/// A manifest, whose variables and custom types can be put into a module.
pub trait ManifestCalls {
    ghost use Rattle.rhd_manifest.specs.Manifest.{ManifestLists};

    /// Its lists.
    ghost lists: { Self → ManifestLists };

    /// Puts its own variables and custom types into a module, and nothing of its sub-manifests.
    fn init_eager(&self, alloc: Global, target: &mut Module) -> Result<(), OutOfMemory>
        ensures ok { OnOk result (target.new ≡ with_contents (lists self.now).vars (lists self.now).types target.old) }
        ensures err { OnErr result (target.new ≡ target.old) };
}

impl ManifestCalls for ModuleManifest {
    ghost lists = { λ m. m };

    fn init_eager(&self, alloc: Global, target: &mut Module) -> Result<(), OutOfMemory> {
        let mut vars = target.vars().dup(alloc)?;
        let mut types = target.types().dup(alloc)?;
        put_vars(alloc, &mut vars, self.vars())?;
        put_types(alloc, &mut types, self.custom_types())?;
        target.set_contents(vars, types);
        Ok(())
    }
}

/// A function that a manifest lists, which can be registered in a module.
pub trait EntryCalls {
    ghost use Rattle.rhd_manifest.specs.Entry.{Entry};

    /// What it is.
    ghost entry: { Self → Entry };

    /// Declares it in a module as a listed native, in the place of one of an equal key, else last. A banned
    /// indexer is refused.
    fn register_into(&self, alloc: Global, target: &mut Module) -> Result<(), DeclFault>
        ensures { Puts (banned (entry self.now).is_method (entry self.now).name (entry self.now).param_types) (entry_key (entry self.now)) (entry_decl target.old.own.seeds (entry self.now)) target.old result target.new };
}

impl EntryCalls for FnManifestEntry {
    ghost entry = { λ e. e };

    fn register_into(&self, alloc: Global, target: &mut Module) -> Result<(), DeclFault> {
        if is_banned(self.name(), self.param_types()) {
            let key = SharedKey::new(alloc, self.key().dup(alloc)?, target.seeds())?;
            return Err(DeclFault::IndexerNotAllowed { key });
        }
        put_entry(target, alloc, self)
    }
}
