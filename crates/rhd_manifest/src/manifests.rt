//! The table of manifests.

ghost use Rattle.std.specs.Prelude.{◌≡◌, ◌<◌, ◌+◌, ◌^◌, ◌++◌, ◌∷◌, [], length, slice_get, true, IfOk, OnOk, OnErr};
ghost use Rattle.std.specs.Option.{option_copied};
ghost use Rattle.rhd_func.specs.Infos.{infos_of};
ghost use Rattle.rhd_manifest.specs.Entry.{entry_of};
ghost use Rattle.rhd_manifest.specs.Fits.{fits, entry_fits, manifest_fits, native_fits, FitsAlike};
ghost use Rattle.rhd_manifest.specs.Manifest.{no_lists, manifest_at, with_manifest, with_entry, with_sub, with_var, with_type, AreLower};

use crate::entry::FnManifestEntry;
use crate::manifest::ModuleManifest;
use rhd_func::{FnNamespace, ManifestId, Natives, PluginFunc};
use rhd_value::{Dynamic, FnId, OutOfMemory, Text, Types};
use std::alloc::Global;
use std::marker::Model;

/// Manifests by number, counted from 0. Contracts see the list of them.
#[derive(Drop)]
pub struct Manifests {
    items: Vec<ModuleManifest>,
}

impl Model for Manifests {
    ghost use Rattle.std.specs.Prelude.{List};
    ghost use Rattle.std.specs.Coded.{coded_list};
    ghost use Rattle.rhd_manifest.specs.Manifest.{ManifestLists, coded_manifest, AreLower};

    ghost Value = { List ManifestLists };

    ghost coded = { coded_list coded_manifest };

    ghost view = { λ a. a.items.items };

    ghost invariant = { λ a. AreLower a.items.items };
}

/// Whether an entry is for a native of these types, which takes its first argument by reference or
/// doesn't.
fn is_for(native: &Box<dyn PluginFunc>, entry: &FnManifestEntry) -> bool
    ensures { result ≡ native_fits (info native.now) entry.now }
{
    entry.has_param_types(native.param_types()) && entry.is_method() == native.is_method_call()
}

/// Whether an entry fits the native of its number, which is held.
fn entry_fits(natives: &Natives, entry: &FnManifestEntry) -> bool
    ensures { result ≡ entry_fits (infos_of info natives.now) entry.now }
{
    match natives.get(entry.func()) {
        Some(native) => is_for(native, entry),
        None => false,
    }
}

/// Whether each entry of a manifest fits its native.
fn manifest_fits(natives: &Natives, manifest: &ModuleManifest) -> bool
    ensures { result ≡ manifest_fits (infos_of info natives.now) manifest.now }
{
    for entry in manifest.functions() {
        if !entry_fits(natives, entry) {
            return false;
        }
    }
    true
}

/// An entry for a native, whose number this is.
fn entry_for(
    alloc: Global,
    native: &Box<dyn PluginFunc>,
    name: Text,
    namespace: FnNamespace,
    func: FnId,
) -> Result<FnManifestEntry, OutOfMemory>
    ensures { IfOk result (λ e. e ≡ record { name = name; namespace = namespace; func = func; param_types = (info native.now).types; is_method = (info native.now).is_method }) }
{
    let types = Types::from_slice(alloc, native.param_types())?;
    FnManifestEntry::new(alloc, name, namespace, func, types, native.is_method_call())
}

/// An entry for the native of a number.
fn entry_of(
    alloc: Global,
    natives: &Natives,
    name: Text,
    namespace: FnNamespace,
    func: FnId,
) -> Result<FnManifestEntry, OutOfMemory>
    ensures { IfOk result (λ e. e ≡ entry_of (infos_of info natives.now) name namespace func) }
{
    match natives.get(func) {
        Some(native) => entry_for(alloc, native, name, namespace, func),
        None => FnManifestEntry::new(alloc, name, namespace, func, Types::new(alloc), false),
    }
}

/// Equal manifests.
fn dup_all(alloc: Global, manifests: &[ModuleManifest]) -> Result<Vec<ModuleManifest>, OutOfMemory>
    ensures { IfOk result (λ copy. copy.items ≡ manifests.now) }
{
    let mut copy = Vec::new(alloc);
    for manifest in manifests {
        copy.push(manifest.dup(alloc)?)?;
    }
    Ok(copy)
}

impl Manifests {
    /// A table without manifests.
    pub fn new(alloc: Global) -> Manifests
        ensures { result ≡ [] }
    {
        Manifests {
            items: Vec::new(alloc),
        }
    }

    /// An equal table.
    pub fn dup(&self, alloc: Global) -> Result<Manifests, OutOfMemory>
        ensures { IfOk result (λ copy. copy ≡ self.now) }
    {
        Ok(Manifests {
            items: dup_all(alloc, self.items.as_slice())?,
        })
    }

    /// Puts a manifest last in which nothing is, and answers its number.
    pub fn push(&mut self, alloc: Global) -> Result<ManifestId, OutOfMemory>
        requires { length self.old + 1 < 2 ^ 32 }
        ensures number { IfOk result (λ id. id.0 ≡ length self.old) }
        ensures ok { OnOk result (self.new ≡ self.old ++ no_lists ∷ []) }
        ensures err { OnErr result (self.new ≡ self.old) }
        ensures fits { FitsAlike self.old self.new }
    {
        let id = ManifestId(self.items.len() as u32);
        self.items.push(ModuleManifest::new(alloc)?)?;
        Ok(id)
    }

    /// How many manifests are held.
    pub fn len(&self) -> usize
        ensures { result ≡ length self.now }
    {
        self.items.len()
    }

    /// The manifest of a number; none where it isn't held.
    pub fn get(&self, id: ManifestId) -> Option<&ModuleManifest>
        ensures manifest { option_copied result ≡ slice_get self.now id.0 }
        ensures lower { AreLower self.now }
    {
        self.items.get(id.0 as usize)
    }

    /// The manifest of a number lists one function more: the native of a number under a name, with the
    /// types that it has in this table.
    pub fn push_entry(
        &mut self,
        alloc: Global,
        natives: &Natives,
        id: ManifestId,
        name: Text,
        namespace: FnNamespace,
        func: FnId,
    ) -> Result<(), OutOfMemory>
        requires manifest { id.0 < length self.old }
        requires native { func.0 < length natives.now.items.items }
        ensures ok { OnOk result (self.new ≡ with_manifest id (with_entry (entry_of (infos_of info natives.now) name namespace func) (manifest_at self.old id)) self.old) }
        ensures err { OnErr result (self.new ≡ self.old) }
        ensures fits { fits (infos_of info natives.now) self.old ≡ true → fits (infos_of info natives.now) self.new ≡ true }
    {
        let entry = entry_of(alloc, natives, name, namespace, func)?;
        let manifest = &mut self.items[id.0 as usize];
        manifest.push_entry(entry)
    }

    /// A manifest gets a sub-manifest of a name, whose number is lower.
    pub fn push_sub(
        &mut self,
        _alloc: Global,
        id: ManifestId,
        name: Text,
        sub: ManifestId,
    ) -> Result<(), OutOfMemory>
        requires manifest { id.0 < length self.old }
        requires lower { sub.0 < id.0 }
        ensures ok { OnOk result (self.new ≡ with_manifest id (with_sub name sub (manifest_at self.old id)) self.old) }
        ensures err { OnErr result (self.new ≡ self.old) }
        ensures fits { FitsAlike self.old self.new }
    {
        let manifest = &mut self.items[id.0 as usize];
        manifest.push_sub(name, sub)
    }

    /// A manifest gets a variable.
    pub fn push_var(
        &mut self,
        _alloc: Global,
        id: ManifestId,
        name: Text,
        value: Dynamic,
    ) -> Result<(), OutOfMemory>
        requires { id.0 < length self.old }
        ensures ok { OnOk result (self.new ≡ with_manifest id (with_var name value (manifest_at self.old id)) self.old) }
        ensures err { OnErr result (self.new ≡ self.old) }
        ensures fits { FitsAlike self.old self.new }
    {
        let manifest = &mut self.items[id.0 as usize];
        manifest.push_var(name, value)
    }

    /// A manifest gets a custom type: the type of a type name is shown by a name.
    pub fn push_type(
        &mut self,
        _alloc: Global,
        id: ManifestId,
        type_name: Text,
        display: Text,
    ) -> Result<(), OutOfMemory>
        requires { id.0 < length self.old }
        ensures ok { OnOk result (self.new ≡ with_manifest id (with_type type_name display (manifest_at self.old id)) self.old) }
        ensures err { OnErr result (self.new ≡ self.old) }
        ensures fits { FitsAlike self.old self.new }
    {
        let manifest = &mut self.items[id.0 as usize];
        manifest.push_type(type_name, display)
    }

    /// Whether each entry fits a table of natives: its native is held there, has the entry's types, and
    /// takes its first argument by reference exactly where the entry says so.
    pub fn fits(&self, natives: &Natives) -> bool
        ensures { result ≡ fits (infos_of info natives.now) self.now }
    {
        for manifest in &self.items {
            if !manifest_fits(natives, manifest) {
                return false;
            }
        }
        true
    }
}
