//! The functions of imported modules, by the names of these.

ghost use Rattle.std.specs.Prelude.{◌≡◌, [], IfOk, OnOk, None, nat_eq};
ghost use Rattle.std.specs.Cmp.{partial_equiv_from_equiv};
ghost use Rattle.std.specs.Cmp.Lexicographic.{pointwise, nat_list_eq_equiv};
ghost use Rattle.std.specs.Map.{lookup};
ghost use Rattle.rhd_value.specs.Same.{text_eq};
ghost use Rattle.rhd_loader.specs.Names.{name_input, names_alike};
ghost use Rattle.rhd_loader.specs.Imports.{with_import};

use crate::scripts::Scripts;
use indexmap::IndexMap;
use indexmap::map::Iter;
use rhd_func::SharedDef;
use rhd_value::{OutOfMemory, Text};
use std::alloc::Global;
use std::hash::{Hash, Hasher};
use std::marker::Model;

/// The name of an imported module. Contracts see its bytes.
#[derive(Drop)]
pub struct ImportName {
    name: Text,
}

impl Model for ImportName {
    ghost use Rattle.std.specs.Prelude.{ℕ, List};

    ghost Value = { List ℕ };

    ghost view = { λ a. a.name };
}

impl ImportName {
    /// The name as a text of its own.
    pub fn dup(&self, alloc: Global) -> Result<Text, OutOfMemory>
        ensures { IfOk result (λ text. text ≡ self.now) }
    {
        self.name.dup(alloc)
    }
}

impl PartialEq for ImportName {
    ghost eq = { pointwise nat_eq };

    ghost laws = { partial_equiv_from_equiv nat_list_eq_equiv };

    fn eq(&self, other: &ImportName) -> bool {
        self.name == other.name
    }
}

impl Eq for ImportName {
    ghost laws = { nat_list_eq_equiv };
}

impl Hash for ImportName {
    ghost hash_input = { name_input };

    ghost respects_eq = { names_alike };

    fn hash<H: Hasher>(&self, state: &mut H) {
        self.name.as_str().hash(state);
    }
}

/// The functions of imported modules by name, in the order in which the names came first. A name is found
/// by its hash. Contracts see the list of names, each with its functions.
#[derive(Drop)]
pub struct ImportScripts {
    table: IndexMap<ImportName, Scripts>,
}

impl Model for ImportScripts {
    ghost use Rattle.rhd_loader.specs.Codes.{coded_imports};
    ghost use Rattle.rhd_loader.specs.Imports.{ImportedScripts};

    ghost Value = { ImportedScripts };

    ghost coded = { coded_imports };

    ghost view = { λ a. a.table.entries };
}

impl ImportScripts {
    pub fn new(alloc: Global) -> ImportScripts
        ensures { result ≡ [] }
    {
        ImportScripts {
            table: IndexMap::new(alloc),
        }
    }

    /// Puts a function last in the module of a name, which goes last where it is new.
    pub fn add(&mut self, alloc: Global, name: Text, def: SharedDef) -> Result<(), OutOfMemory>
        ensures { OnOk result (self.new ≡ with_import name def self.old) }
    {
        let name = ImportName { name };
        match self.table.get_mut(&name) {
            Some(scripts) => scripts.push(def),
            None => self.add_first(alloc, name, def),
        }
    }

    /// The names in the order in which they came first, each with its functions.
    pub fn iter(&self) -> Iter<'_, ImportName, Scripts>
        ensures { result ≡ self.now }
    {
        self.table.iter()
    }

    /// Puts a function into the module of a name that is new.
    fn add_first(
        &mut self,
        alloc: Global,
        name: ImportName,
        def: SharedDef,
    ) -> Result<(), OutOfMemory>
        requires { lookup (text_eq name) self.old ≡ None }
        ensures { OnOk result (self.new ≡ with_import name def self.old) }
    {
        let mut scripts = Scripts::new(alloc);
        scripts.push(def)?;
        self.table.insert(name, scripts)?;
        Ok(())
    }
}
