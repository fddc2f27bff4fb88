//! An engine: a table of natives, and what is registered for all calls.

ghost use Rattle.std.specs.Prelude.{◌≡◌, ◌≤◌, ◌<◌, true, IfOk, length};
ghost use Rattle.rhd_engine.specs.Held.{all_held, named_held, builtins_held, table_held};

use crate::builtins::Builtins;
use crate::limits::{Limits, Printers};
use rhd_func::Natives;
use rhd_hash::Seeds;
use rhd_layers::{ModuleList, ModuleMap, SharedModule};
use rhd_manifest::Manifests;
use rhd_module::Module;
use rhd_value::OutOfMemory;
use std::alloc::Global;

/// What is registered for all calls. Each number that it names is held by its natives.
#[derive(Drop)]
pub struct Engine {
    /// The natives that it was made with, whose numbers its declarations name.
    pub natives: Natives,
    /// The table of manifests, of which modules are made when they are asked for. It stays as it was handed in.
    pub manifests: Manifests,
    /// The modules whose functions all calls find. The first is the global namespace, into which natives
    /// are registered.
    pub globals: ModuleList,
    /// The modules that qualified calls find by their names.
    pub statics: ModuleMap,
    builtins: Builtins,
    seeds: Seeds,
    limits: Limits,
    printers: Printers,
    ghost manifests_held: { table_held (length natives.items.items) manifests ≡ true },
    ghost globals_held: { all_held (length natives.items.items) globals ≡ true },
    ghost statics_held: { named_held (length natives.items.items) statics ≡ true },
    ghost has_namespace: { 0 < length globals },
    ghost builtins_held: { builtins_held (length natives.items.items) builtins ≡ true },
    ghost limited: { limits.level ≤ 1000 },
}

impl Engine {
    ghost use Rattle.rhd_func.specs.Infos.{infos_of};
    ghost use Rattle.rhd_manifest.specs.Fits.{fits};
    ghost use Rattle.rhd_engine.specs.Of.{lists_of};
    ghost use Rattle.rhd_engine.specs.Start.{start_lists};

    /// An engine with an empty global namespace and no static module. Its built-ins are held by the
    /// natives, which its manifests fit, and its modules hash their keys under these seeds.
    pub fn new(
        alloc: Global,
        natives: Natives,
        manifests: Manifests,
        builtins: Builtins,
        seeds: Seeds,
        limits: Limits,
        printers: Printers,
    ) -> Result<Engine, OutOfMemory>
        requires level { limits.level ≤ 1000 }
        requires builtins { builtins_held (length natives.items.items) builtins ≡ true }
        requires fits { fits (infos_of info natives) manifests ≡ true }
        ensures natives { IfOk result (λ engine. engine.natives ≡ natives) }
        ensures lists { IfOk result (λ engine. lists_of info engine ≡ start_lists (infos_of info natives) manifests seeds limits builtins printers) }
    {
        let mut globals = ModuleList::new(alloc);
        let empty = Module::new(alloc, seeds)?;
        let namespace = SharedModule::new(alloc, empty)?;
        globals.push(namespace)?;
        Ok(Engine {
            natives,
            manifests,
            globals,
            statics: ModuleMap::new(alloc),
            builtins,
            seeds,
            limits,
            printers,
        })
    }

    /// The natives that it was made with.
    pub fn natives(&self) -> &Natives
        ensures { result.now ≡ self.now.natives }
    {
        &self.natives
    }

    /// The table of manifests.
    pub fn manifests(&self) -> &Manifests
        ensures { result.now ≡ self.now.manifests }
    {
        &self.manifests
    }

    /// The modules whose functions all calls find, in order.
    pub fn global_modules(&self) -> &ModuleList
        ensures { result.now ≡ self.now.globals }
    {
        &self.globals
    }

    /// The static modules by name.
    pub fn static_modules(&self) -> &ModuleMap
        ensures { result.now ≡ self.now.statics }
    {
        &self.statics
    }

    /// The functions of operators between two kinds.
    pub fn builtins(&self) -> &Builtins
        ensures { result.now ≡ self.now.builtins }
    {
        &self.builtins
    }

    /// The seeds under which its modules hash their keys.
    pub fn seeds(&self) -> Seeds
        ensures { result ≡ self.now.seeds }
    {
        self.seeds
    }

    pub fn limits(&self) -> Limits
        ensures { result ≡ self.now.limits }
    {
        self.limits
    }

    pub fn printers(&self) -> Printers
        ensures { result ≡ self.now.printers }
    {
        self.printers
    }
}
