//! Static modules.

ghost use Rattle.std.specs.Prelude.{◌≡◌, [], false, true, length, if◌then◌else◌, is_ok, IfOk, OnOk, IfErr, OnErr};
ghost use Rattle.std.specs.Option.{option_copied};
ghost use Rattle.std.specs.List.Sorted.{IsStrictlySortedBy};
ghost use Rattle.std.specs.Map.{keys_of};
ghost use Rattle.std.specs.Ordering.{nat_cmp};
ghost use Rattle.std.specs.Cmp.Lexicographic.{slice_cmp};
ghost use Rattle.std.specs.List.{AllByRecursion, list_all};
ghost use Rattle.rhd_hash.specs.declared.key.Key.{Key};
ghost use Rattle.rhd_hash.specs.Keys.{key_name, key_params, is_script_key};
ghost use Rattle.rhd_hash.specs.Untyped.{IsUntyped};
ghost use Rattle.rhd_layers.specs.Lists.{all_indexed, module_of, put_module};
ghost use Rattle.rhd_layers.specs.Marks.{lacks_below, lacks_dynamic};
ghost use Rattle.rhd_layers.specs.Statics.{placed, made, put_static, made_by, TreeClear, IsTreeRefusal, Places};

use crate::marked_module::MarkedModule;
use crate::marks::Marks;
use crate::parts::parts_of;
use crate::placing::placed;
use crate::shared::SharedModule;
use rhd_hash::{BloomFilterU64, HashedKey, Key, Seeds, UntypedHash};
use rhd_module::{DeclFault, Module};
use rhd_value::{OutOfMemory, Text};
use std::alloc::Global;
use std::collections::BTreeMap;
use std::collections::btree_map::Iter;
use std::marker::Model;

/// Indexed modules by name. Contracts see the list of them with their names, in ascending order of name.
#[derive(Drop)]
pub struct ModuleMap {
    modules: BTreeMap<Text, MarkedModule>,
    /// What these may have, and some that were replaced.
    marks: Marks,
    /// Marks the hashes of their keys. It has room for many, since each of these modules is asked last.
    keys: BloomFilterU64<8192>,
}

impl Model for ModuleMap {
    ghost use Rattle.std.specs.Prelude.{◌≡◌, true};
    ghost use Rattle.std.specs.Coded.{coded×, coded_ℕ, coded_list};
    ghost use Rattle.rhd_module.specs.Codes.{tree_code};
    ghost use Rattle.rhd_layers.specs.Lists.{Imports, all_indexed};
    ghost use Rattle.rhd_layers.specs.Marks.{Tells, named_one, lacks_below};

    ghost Value = { Imports };

    ghost coded = { coded_list (coded× (coded_list coded_ℕ) tree_code) };

    ghost view = { λ m. m.modules.entries };

    ghost invariant = { λ m. (all_indexed m.modules.entries ≡ true) × Tells named_one lacks_below 8192 m.marks m.keys m.modules.entries };
}

impl ModuleMap {
    pub fn new(alloc: Global) -> ModuleMap
        ensures { result ≡ [] }
    {
        ModuleMap {
            modules: BTreeMap::new(alloc),
            marks: Marks::new(),
            keys: BloomFilterU64::new(),
        }
    }

    pub fn len(&self) -> usize
        ensures { result ≡ length self.now }
    {
        self.modules.len()
    }

    /// The module of a name.
    #[tactic(auto, using(crate::proofs::Indexed::found_by_text))]
    pub fn get(&self, name: &Text) -> Option<&MarkedModule>
        ensures { option_copied result ≡ module_of name.now self.now }
    {
        self.modules.get(name)
    }

    /// The modules with their names, in ascending order of name. Each is indexed.
    pub fn iter(&self) -> Iter<'_, Text, MarkedModule>
        ensures entries { result ≡ self.now }
        ensures sorted { IsStrictlySortedBy (slice_cmp nat_cmp) (keys_of self.now) }
        ensures indexed { all_indexed self.now ≡ true }
    {
        self.modules.iter()
    }

    /// Whether the tree of one of them may have a script.
    pub fn may_have_script(&self) -> bool
        ensures { result ≡ false → (key : Key) → is_script_key key ≡ true → list_all (λ e. lacks_below key e.1) self.now ≡ true }
    {
        self.marks.may_have_script()
    }

    /// Whether the tree of one of them may have a function under a key. Where it can't, each of them needn't
    /// be asked.
    pub fn may_have(&self, key: &HashedKey) -> bool
        ensures { result ≡ false → list_all (λ e. lacks_below key.now e.1) self.now ≡ true }
    {
        self.marks.may_have(&self.keys, key)
    }

    /// Whether the tree of one of them may have a native of a key's name with as many parameters, one of
    /// which is of any type.
    pub fn may_have_dynamic(&self, hash: UntypedHash, key: &Key) -> bool
        requires { IsUntyped hash key.now }
        ensures indexed { all_indexed self.now ≡ true }
        ensures lack { result ≡ false → list_all (λ e. lacks_dynamic (key_name key.now) (key_params key.now) e.1) self.now ≡ true }
    {
        self.marks.may_have_dynamic(hash, key)
    }

    /// Puts an indexed module under a name, in the place of one of an equal name.
    pub fn insert(
        &mut self,
        alloc: Global,
        name: Text,
        added: SharedModule,
    ) -> Result<(), OutOfMemory>
        requires { added.own.indexed ≡ true }
        ensures { self.new ≡ (if is_ok result then put_module name added self.old else self.old) }
    {
        let added = MarkedModule::new(alloc, added)?;
        self.marks.add_wide(&mut self.keys, added.module());
        self.modules.insert(name, added)?;
        Ok(())
    }

    /// An equal map, of the same modules.
    pub fn dup(&self, alloc: Global) -> Result<ModuleMap, OutOfMemory>
        ensures { IfOk result (λ map. map ≡ self.now) }
    {
        let mut copy = BTreeMap::new(alloc);
        for (name, module) in self.modules.iter() {
            copy.insert(name.dup(alloc)?, module.dup(alloc)?)?;
        }
        Ok(ModuleMap {
            modules: copy,
            marks: self.marks.dup()?,
            keys: self.keys.clone()?,
        })
    }

    /// The module itself that stands under a name.
    fn module_of(&self, name: &Text) -> Option<&Module>
        ensures { option_copied result ≡ module_of name.now self.now }
    {
        match self.get(name) {
            Some(marked) => Some(marked.module()),
            None => None,
        }
    }

    /// Puts a module under the first part of a name and the further ones.
    fn place(
        &mut self,
        alloc: Global,
        seeds: Seeds,
        part: &Text,
        more: &[Text],
        added: SharedModule,
    ) -> Result<(), DeclFault>
        ensures ok { OnOk result (self.new ≡ put_module part.now (placed seeds added part.now more.now (module_of part.now self.old)) self.old) }
        ensures clear { OnOk result (AllByRecursion TreeClear (made seeds added part.now more.now (module_of part.now self.old))) }
        ensures err { OnErr result (self.new ≡ self.old) }
        ensures refused { IfErr result (IsTreeRefusal (made seeds added part.now more.now (module_of part.now self.old))) }
    {
        let made = placed(alloc, seeds, part, more, self.module_of(part), added)?;
        let name = part.dup(alloc)?;
        self.insert(alloc, name, made)?;
        Ok(())
    }

    /// The same of all parts of a name; where there are none, nothing is put.
    fn place_parts(
        &mut self,
        alloc: Global,
        seeds: Seeds,
        parts: &[Text],
        added: SharedModule,
    ) -> Result<(), DeclFault>
        ensures ok { OnOk result (self.new ≡ put_static seeds added parts.now self.old) }
        ensures clear { OnOk result (AllByRecursion TreeClear (made_by seeds added parts.now self.old)) }
        ensures err { OnErr result (self.new ≡ self.old) }
        ensures refused { IfErr result (IsTreeRefusal (made_by seeds added parts.now self.old)) }
    {
        match parts {
            [] => Ok(()),
            [part, more @ ..] => self.place(alloc, seeds, part, more, added),
        }
    }

    /// Puts a module under a name. Where there is `::` in it, each part is the name of a module in which
    /// that of the next part stands: one that is there, else a new one whose keys are hashed under these
    /// seeds. Each is indexed, and gets its part as id where it has none. The last is the added one, in the
    /// place of one of its name.
    pub fn register_static(
        &mut self,
        alloc: Global,
        seeds: Seeds,
        name: Text,
        added: SharedModule,
    ) -> Result<(), DeclFault>
        ensures { Places seeds name added self.old result self.new }
    {
        let parts = parts_of(alloc, &name)?;
        self.place_parts(alloc, seeds, parts.as_slice(), added)
    }
}
