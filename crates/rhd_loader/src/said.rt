//! What the lines of a module text have said.

ghost use Rattle.std.specs.Prelude.{◌≡◌};
ghost use Rattle.rhd_loader.specs.declared.part.ModulePart.TheVariants as parts;
ghost use Rattle.rhd_loader.specs.Reading.{StepSays};
ghost use Rattle.rhd_loader.specs.Said.{nothing_said, with_part};

use crate::imports::ImportScripts;
use crate::part::ModulePart;
use crate::scripts::{Scope, Scripts};
use rhd_func::SharedDef;
use rhd_resolve::ScopeEntry;
use rhd_value::{Dynamic, OutOfMemory, Text, Texts};
use std::alloc::Global;

/// Why a module text isn't said to its end.
#[derive(Drop)]
pub enum Unsaid {
    /// A line is a fault of this text, or no line.
    Fault(Text),
    /// Memory ran out.
    Memory,
}

impl From<OutOfMemory> for Unsaid {
    ghost use Rattle.std.specs.Prelude.{◌≡◌};
    ghost use Rattle.rhd_loader.specs.declared.said.Unsaid.TheVariants.{Memory as no_memory};

    ghost from_gives = { λ _ e. e ≡ no_memory };

    fn from(_fault: OutOfMemory) -> Unsaid {
        Unsaid::Memory
    }
}

/// What the lines of a module text have said so far.
#[derive(Drop)]
pub struct Said {
    /// The values that the script leaves.
    pub scope: Scope,
    /// Its functions.
    pub functions: Scripts,
    /// The functions of the modules that it imports.
    pub imports: ImportScripts,
    /// Its documentation.
    pub doc: Text,
}

impl Said {
    /// What is said before the first line.
    pub fn new(alloc: Global) -> Said
        ensures { result ≡ nothing_said }
    {
        Said {
            scope: Scope::new(alloc),
            functions: Scripts::new(alloc),
            imports: ImportScripts::new(alloc),
            doc: Text::new(alloc),
        }
    }

    fn add_value(&mut self, aliases: Texts, value: Dynamic) -> Result<(), Unsaid>
        ensures { StepSays result self.new (with_part (parts.Var aliases value) self.old) }
    {
        Ok(self.scope.push(ScopeEntry { value, aliases })?)
    }

    fn add_function(&mut self, def: SharedDef) -> Result<(), Unsaid>
        ensures { StepSays result self.new (with_part (parts.Fn def) self.old) }
    {
        Ok(self.functions.push(def)?)
    }

    fn add_import(&mut self, alloc: Global, name: Text, def: SharedDef) -> Result<(), Unsaid>
        ensures { StepSays result self.new (with_part (parts.Import name def) self.old) }
    {
        Ok(self.imports.add(alloc, name, def)?)
    }

    /// Takes in what a line says; a fault stops the reading.
    pub fn add_part(&mut self, alloc: Global, part: ModulePart) -> Result<(), Unsaid>
        ensures { StepSays result self.new (with_part part self.old) }
    {
        match part {
            ModulePart::Var { aliases, value } => self.add_value(aliases, value),
            ModulePart::Fn(def) => self.add_function(def),
            ModulePart::Import { name, def } => self.add_import(alloc, name, def),
            ModulePart::Doc(text) => {
                self.doc = text;
                Ok(())
            }
            ModulePart::Fault(text) => Err(Unsaid::Fault(text)),
        }
    }
}
