//! The state of a run.

ghost use Rattle.std.specs.Prelude.{◌≡◌, ◌++◌, ◌∷◌, [], true, if◌then◌else◌, is_ok, IfOk};
ghost use Rattle.std.specs.Option.{option_copied};
ghost use Rattle.rhd_layers.specs.Lists.{Popped, latest_of};
ghost use Rattle.rhd_engine.specs.Start.{start_frame};

use rhd_func::{SharedText, share};
use rhd_layers::{ImportList, ModuleList, SharedModule};
use rhd_value::{Dynamic, OutOfMemory, Text, Value};
use std::alloc::Global;

/// In which modules, besides the engine's, a call looks, and what else it may know of where it is made.
/// Contracts call it a frame.
#[derive(Drop)]
pub struct GlobalRuntimeState {
    /// Libraries, oldest first.
    pub lib: ModuleList,
    /// Imports with their names, oldest first. Each is indexed.
    pub imports: ImportList,
    /// The source of the function that makes the calls.
    pub source: Option<SharedText>,
    /// How many calls are open.
    pub level: u32,
    /// The tag of the run.
    pub tag: Dynamic,
}

impl GlobalRuntimeState {
    /// An equal state, of the same modules.
    pub fn dup(&self, alloc: Global) -> Result<GlobalRuntimeState, OutOfMemory>
        ensures { IfOk result (λ state. state ≡ self.now) }
    {
        Ok(GlobalRuntimeState {
            lib: self.lib.dup(alloc)?,
            imports: self.imports.dup(alloc)?,
            source: share(alloc, &self.source)?,
            level: self.level,
            tag: self.tag.dup(alloc)?,
        })
    }

    /// Without libraries, imports, source and open calls; the tag is unit.
    pub fn new(alloc: Global) -> GlobalRuntimeState
        ensures { result ≡ start_frame }
    {
        GlobalRuntimeState {
            lib: ModuleList::new(alloc),
            imports: ImportList::new(alloc),
            source: None,
            level: 0,
            tag: Dynamic::from(Value::Unit),
        }
    }

    /// One library more, the latest.
    pub fn push_lib(&mut self, added: SharedModule) -> Result<(), OutOfMemory>
        ensures { self.new ≡ record self.old { lib = if is_ok result then self.old.lib ++ added ∷ [] else self.old.lib } }
    {
        self.lib.push(added)
    }

    /// Takes the latest library off, if there is one.
    pub fn pop_lib(&mut self) -> Option<SharedModule>
        ensures lib { Popped self.old.lib result self.new.lib }
        ensures kept { self.new ≡ record self.old { lib = self.new.lib } }
    {
        self.lib.pop()
    }

    /// One import more, the latest, under a name.
    pub fn push_import(&mut self, name: Text, added: SharedModule) -> Result<(), OutOfMemory>
        requires { added.own.indexed ≡ true }
        ensures { self.new ≡ record self.old { imports = if is_ok result then self.old.imports ++ (name, added) ∷ [] else self.old.imports } }
    {
        self.imports.push(name, added)
    }

    /// Takes the latest import off with its name, if there is one.
    pub fn pop_import(&mut self) -> Option<(Text, SharedModule)>
        ensures imports { Popped self.old.imports result self.new.imports }
        ensures kept { self.new ≡ record self.old { imports = self.new.imports } }
    {
        self.imports.pop()
    }

    /// The latest import of a name.
    pub fn find_import(&self, name: &Text) -> Option<&SharedModule>
        ensures { option_copied result ≡ latest_of name.now self.now.imports }
    {
        self.imports.find(name)
    }
}
