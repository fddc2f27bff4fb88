//! Lists of functions and of values.

ghost use Rattle.std.specs.Prelude.{◌≡◌, ◌++◌, ◌∷◌, [], if◌then◌else◌, is_ok};

use rhd_func::SharedDef;
use rhd_resolve::ScopeEntry;
use rhd_value::OutOfMemory;
use std::alloc::Global;
use std::marker::Model;

/// Functions in the order of their lines. Contracts see the list of them.
#[derive(Drop)]
pub struct Scripts {
    items: Vec<SharedDef>,
}

impl Model for Scripts {
    ghost use Rattle.std.specs.Prelude.{List};
    ghost use Rattle.std.specs.Coded.{coded_list};
    ghost use Rattle.rhd_func.specs.declared.func.ScriptFuncDef.{ScriptFuncDef};
    ghost use Rattle.rhd_func.specs.contracts.func.ScriptFuncDef as script;

    ghost Value = { List ScriptFuncDef };

    ghost coded = { coded_list script.the_row.coded };

    ghost view = { λ a. a.items.items };
}

impl Scripts {
    pub fn new(alloc: Global) -> Scripts
        ensures { result ≡ [] }
    {
        Scripts {
            items: Vec::new(alloc),
        }
    }

    /// Puts a function last.
    pub fn push(&mut self, def: SharedDef) -> Result<(), OutOfMemory>
        ensures { self.new ≡ (if is_ok result then self.old ++ def ∷ [] else self.old) }
    {
        self.items.push(def)?;
        Ok(())
    }

    pub fn as_slice(&self) -> &[SharedDef]
        ensures { result.now ≡ self.now }
    {
        self.items.as_slice()
    }

    pub fn into_vec(self) -> Vec<SharedDef>
        ensures { result.items ≡ self }
    {
        self.items
    }
}

/// Values with their names, in the order of their lines. Contracts see the list of them.
#[derive(Drop)]
pub struct Scope {
    items: Vec<ScopeEntry>,
}

impl Model for Scope {
    ghost use Rattle.std.specs.Prelude.{List};
    ghost use Rattle.std.specs.Coded.{coded_list};
    ghost use Rattle.rhd_resolve.specs.declared.loaded.ScopeEntry.{ScopeEntry};
    ghost use Rattle.rhd_resolve.specs.contracts.loaded.ScopeEntry as entry;

    ghost Value = { List ScopeEntry };

    ghost coded = { coded_list entry.the_row.coded };

    ghost view = { λ a. a.items.items };
}

impl Scope {
    pub fn new(alloc: Global) -> Scope
        ensures { result ≡ [] }
    {
        Scope {
            items: Vec::new(alloc),
        }
    }

    /// Puts a value with its names last.
    pub fn push(&mut self, entry: ScopeEntry) -> Result<(), OutOfMemory>
        ensures { self.new ≡ (if is_ok result then self.old ++ entry ∷ [] else self.old) }
    {
        self.items.push(entry)?;
        Ok(())
    }

    pub fn into_vec(self) -> Vec<ScopeEntry>
        ensures { result.items ≡ self }
    {
        self.items
    }
}
