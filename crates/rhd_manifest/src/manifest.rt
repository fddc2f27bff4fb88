//! A manifest: the functions that it lists, its sub-manifests, variables and custom types.

ghost use Rattle.std.specs.Prelude.{◌≡◌, IfOk, OnOk, OnErr};
ghost use Rattle.rhd_manifest.specs.Manifest.{no_lists, with_entry, with_sub, with_var, with_type};

use crate::entry::FnManifestEntry;
use crate::entry_list::EntryList;
use rhd_func::ManifestId;
use rhd_value::{Dynamic, OutOfMemory, Text};
use std::alloc::Global;
use std::marker::Model;
use std::rc::Rc;

/// Functions that are found only when they are called, with sub-manifests, variables and custom types
/// beside them. Contracts see its lists.
#[derive(Drop)]
pub struct ModuleManifest {
    entries: Rc<EntryList>,
    subs: Vec<(Text, ManifestId)>,
    vars: Vec<(Text, Dynamic)>,
    types: Vec<(Text, Text)>,
}

impl Model for ModuleManifest {
    ghost use Rattle.rhd_manifest.specs.Manifest.{ManifestLists, coded_manifest};

    ghost Value = { ManifestLists };

    ghost coded = { coded_manifest };

    ghost view = { λ m. record {
      entries = m.entries.value;
      subs = m.subs.items;
      vars = m.vars.items;
      types = m.types.items;
    } };
}

/// Equal sub-manifests.
fn dup_subs(
    alloc: Global,
    subs: &[(Text, ManifestId)],
) -> Result<Vec<(Text, ManifestId)>, OutOfMemory>
    ensures { IfOk result (λ copy. copy.items ≡ subs.now) }
{
    let mut copy = Vec::new(alloc);
    for sub in subs {
        copy.push((sub.0.dup(alloc)?, sub.1))?;
    }
    Ok(copy)
}

/// Equal variables.
fn dup_vars(alloc: Global, vars: &[(Text, Dynamic)]) -> Result<Vec<(Text, Dynamic)>, OutOfMemory>
    ensures { IfOk result (λ copy. copy.items ≡ vars.now) }
{
    let mut copy = Vec::new(alloc);
    for var in vars {
        copy.push((var.0.dup(alloc)?, var.1.dup(alloc)?))?;
    }
    Ok(copy)
}

/// Equal custom types.
fn dup_types(alloc: Global, types: &[(Text, Text)]) -> Result<Vec<(Text, Text)>, OutOfMemory>
    ensures { IfOk result (λ copy. copy.items ≡ types.now) }
{
    let mut copy = Vec::new(alloc);
    for named in types {
        copy.push((named.0.dup(alloc)?, named.1.dup(alloc)?))?;
    }
    Ok(copy)
}

impl ModuleManifest {
    /// A manifest in which nothing is.
    pub(crate) fn new(alloc: Global) -> Result<ModuleManifest, OutOfMemory>
        ensures { IfOk result (λ m. m ≡ no_lists) }
    {
        Ok(ModuleManifest {
            entries: Rc::new(alloc, EntryList::new(alloc))?,
            subs: Vec::new(alloc),
            vars: Vec::new(alloc),
            types: Vec::new(alloc),
        })
    }

    /// An equal manifest. The functions that it lists are shared.
    pub fn dup(&self, alloc: Global) -> Result<ModuleManifest, OutOfMemory>
        ensures { IfOk result (λ copy. copy ≡ self.now) }
    {
        Ok(ModuleManifest {
            entries: self.share_functions()?,
            subs: dup_subs(alloc, self.sub_modules())?,
            vars: dup_vars(alloc, self.vars())?,
            types: dup_types(alloc, self.custom_types())?,
        })
    }

    /// The functions that it lists itself, in the order in which they were put in.
    pub fn functions(&self) -> &[FnManifestEntry]
        ensures { result.now ≡ self.now.entries }
    {
        self.entries.as_slice()
    }

    /// Its sub-manifests with their names, in the order in which they were put in.
    pub fn sub_modules(&self) -> &[(Text, ManifestId)]
        ensures { result.now ≡ self.now.subs }
    {
        self.subs.as_slice()
    }

    /// Its variables with their names, in the order in which they were put in.
    pub fn vars(&self) -> &[(Text, Dynamic)]
        ensures { result.now ≡ self.now.vars }
    {
        self.vars.as_slice()
    }

    /// Its custom types, in the order in which they were put in: the name of a type, and the name by
    /// which it is shown.
    pub fn custom_types(&self) -> &[(Text, Text)]
        ensures { result.now ≡ self.now.types }
    {
        self.types.as_slice()
    }

    /// One more owner of the functions that it lists itself.
    pub(crate) fn share_functions(&self) -> Result<Rc<EntryList>, OutOfMemory>
        ensures { IfOk result (λ shared. shared.value ≡ self.now.entries) }
    {
        Ok(self.entries.clone()?)
    }

    /// Lists one function more. The list is copied first where it has other owners.
    pub(crate) fn push_entry(&mut self, entry: FnManifestEntry) -> Result<(), OutOfMemory>
        ensures ok { OnOk result (self.new ≡ with_entry entry self.old) }
        ensures err { OnErr result (self.new ≡ self.old) }
    {
        let entries = Rc::make_mut(&mut self.entries)?;
        entries.push(entry)
    }

    /// Puts a sub-manifest last.
    pub(crate) fn push_sub(&mut self, name: Text, sub: ManifestId) -> Result<(), OutOfMemory>
        ensures ok { OnOk result (self.new ≡ with_sub name sub self.old) }
        ensures err { OnErr result (self.new ≡ self.old) }
    {
        self.subs.push((name, sub))?;
        Ok(())
    }

    /// Puts a variable last.
    pub(crate) fn push_var(&mut self, name: Text, value: Dynamic) -> Result<(), OutOfMemory>
        ensures ok { OnOk result (self.new ≡ with_var name value self.old) }
        ensures err { OnErr result (self.new ≡ self.old) }
    {
        self.vars.push((name, value))?;
        Ok(())
    }

    /// Puts a custom type last.
    pub(crate) fn push_type(&mut self, type_name: Text, display: Text) -> Result<(), OutOfMemory>
        ensures ok { OnOk result (self.new ≡ with_type type_name display self.old) }
        ensures err { OnErr result (self.new ≡ self.old) }
    {
        self.types.push((type_name, display))?;
        Ok(())
    }
}
