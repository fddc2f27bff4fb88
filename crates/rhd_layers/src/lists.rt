//! Lists of modules.

ghost use Rattle.std.specs.Prelude.{◌≡◌, ◌++◌, ◌∷◌, [], false, true, if◌then◌else◌, is_ok, IfOk, OnOk, OnErr, None, length, take, ◌<◌, ◌≤◌};
ghost use Rattle.std.specs.List.{insert, list_all};
ghost use Rattle.std.specs.Option.{option_copied};
ghost use Rattle.rhd_hash.specs.declared.key.Key.{Key};
ghost use Rattle.rhd_hash.specs.Keys.{key_name, key_params, is_script_key};
ghost use Rattle.rhd_hash.specs.Untyped.{IsUntyped};
ghost use Rattle.rhd_func.specs.Infos.{infos_of};
ghost use Rattle.rhd_module.specs.Contents.{with_type};
ghost use Rattle.rhd_layers.specs.FirstModule.{in_first, RegistersFirst, RegistersBothFirst, RegistersRawFirst, FirstTells};
ghost use Rattle.rhd_layers.specs.Lists.{Popped, all_indexed, latest_of, second, with_last};
ghost use Rattle.rhd_layers.specs.Marks.{lacks, lacks_below, lacks_dynamic};

use crate::marks::Marks;
use crate::shared::SharedModule;
use rhd_func::{Natives, RhaiFunc};
use rhd_hash::{BloomFilterU64, HashedKey, Key, UntypedHash};
use rhd_module::{DeclFault, FuncMetadata, FuncRegistration};
use rhd_value::{FnId, OutOfMemory, Text, TypeTag};
use std::alloc::Global;
use std::marker::Model;

/// Modules in order. Contracts see the list of them.
#[derive(Drop)]
pub struct ModuleList {
    items: Vec<SharedModule>,
    /// What these may have, and some that were taken off.
    marks: Marks,
    /// Marks the hashes of their keys.
    keys: BloomFilterU64<128>,
}

impl Model for ModuleList {
    ghost use Rattle.std.specs.Prelude.{List};
    ghost use Rattle.std.specs.Coded.{coded_list};
    ghost use Rattle.rhd_module.specs.Tree.{ModuleTree};
    ghost use Rattle.rhd_module.specs.Codes.{tree_code};
    ghost use Rattle.rhd_layers.specs.Marks.{Tells, itself, lacks};

    ghost Value = { List ModuleTree };

    ghost coded = { coded_list tree_code };

    ghost view = { λ a. a.items.items };

    ghost invariant = { λ a. Tells itself lacks 128 a.marks a.keys a.items.items };
}

impl ModuleList {
    pub fn new(alloc: Global) -> ModuleList
        ensures { result ≡ [] }
    {
        ModuleList {
            items: Vec::new(alloc),
            marks: Marks::new(),
            keys: BloomFilterU64::new(),
        }
    }

    /// An equal list, of the same modules.
    pub fn dup(&self, alloc: Global) -> Result<ModuleList, OutOfMemory>
        ensures { IfOk result (λ modules. modules ≡ self.now) }
    {
        let mut modules = ModuleList::new(alloc);
        for module in &self.items {
            modules.push(module.dup(alloc)?)?;
        }
        Ok(modules)
    }

    /// Puts a module last.
    pub fn push(&mut self, added: SharedModule) -> Result<(), OutOfMemory>
        ensures { self.new ≡ (if is_ok result then self.old ++ added ∷ [] else self.old) }
    {
        self.marks.add(&mut self.keys, added.module());
        self.items.push(added)?;
        Ok(())
    }

    /// Puts a module at a place, before the one that stood there.
    pub fn insert(&mut self, place: usize, added: SharedModule) -> Result<(), OutOfMemory>
        requires { place ≤ length self.old }
        ensures { self.new ≡ (if is_ok result then insert self.old place added else self.old) }
    {
        self.marks.add(&mut self.keys, added.module());
        self.items.insert(place, added)?;
        Ok(())
    }

    /// Puts a module behind the first one.
    #[tactic(auto, using(crate::proofs::Indexed::second_is))]
    pub fn insert_second(&mut self, added: SharedModule) -> Result<(), OutOfMemory>
        ensures ok { OnOk result (self.new ≡ second added self.old) }
        ensures err { OnErr result (self.new ≡ self.old) }
    {
        if self.items.len() == 0 {
            return self.push(added);
        }
        self.insert(1, added)
    }

    /// Takes the last module off, if there is one.
    pub fn pop(&mut self) -> Option<SharedModule>
        ensures { Popped self.old result self.new }
    {
        self.items.pop()
    }

    /// Takes all modules off but so many, the oldest.
    pub fn truncate(&mut self, len: usize)
        ensures { self.new ≡ take len self.old }
    {
        self.items.truncate(len);
    }

    /// Registers the native of a number in the first module, as `FuncRegistration::set_into_module` does.
    /// The module is copied first where it has other owners.
    pub fn register_in_first(
        &mut self,
        alloc: Global,
        reg: FuncRegistration,
        natives: &Natives,
        id: FnId,
    ) -> Result<(), DeclFault>
        requires { 0 < length self.old }
        ensures { RegistersFirst (infos_of info natives.now) reg id self.old result self.new }
    {
        let answer = self.items[0].register(alloc, reg, natives, id);
        self.marks.add(&mut self.keys, self.items[0].module());
        answer
    }

    /// The same, and answers what is said of the native.
    pub fn register_in_first_told(
        &mut self,
        alloc: Global,
        reg: FuncRegistration,
        natives: &Natives,
        id: FnId,
    ) -> Result<FuncMetadata, DeclFault>
        requires { 0 < length self.old }
        ensures registers { RegistersFirst (infos_of info natives.now) reg id self.old result self.new }
        ensures metadata { IfOk result (FirstTells (infos_of info natives.now) reg id self.old) }
    {
        let answer = self.items[0].register_told(alloc, reg, natives, id);
        self.marks.add(&mut self.keys, self.items[0].module());
        answer
    }

    /// Registers the natives of two numbers in the first module, both or none. The module is copied first
    /// where it has other owners.
    pub fn register_both_in_first(
        &mut self,
        alloc: Global,
        natives: &Natives,
        get_reg: FuncRegistration,
        get: FnId,
        set_reg: FuncRegistration,
        set: FnId,
    ) -> Result<(), DeclFault>
        requires { 0 < length self.old }
        ensures { RegistersBothFirst (infos_of info natives.now) get_reg get set_reg set self.old result self.new }
    {
        let answer = self.items[0].register_both(alloc, natives, get_reg, get, set_reg, set);
        self.marks.add(&mut self.keys, self.items[0].module());
        answer
    }

    /// Registers a function in the first module, as `FuncRegistration::set_into_module_raw` does. The
    /// module is copied first where it has other owners.
    pub fn register_raw_in_first(
        &mut self,
        alloc: Global,
        reg: FuncRegistration,
        natives: &Natives,
        types: &[TypeTag],
        func: RhaiFunc,
    ) -> Result<(), DeclFault>
        requires first { 0 < length self.old }
        requires purity { reg.purity ≡ None }
        requires volatility { reg.volatility ≡ None }
        ensures { RegistersRawFirst (infos_of info natives.now) reg types.now func self.old result self.new }
    {
        let answer = self.items[0].register_raw(alloc, reg, natives, types, func);
        self.marks.add(&mut self.keys, self.items[0].module());
        answer
    }

    /// The type of this type name is shown by this name in the first module, which is copied first where
    /// it has other owners.
    pub fn set_type_in_first(
        &mut self,
        alloc: Global,
        type_name: Text,
        display: Text,
    ) -> Result<(), OutOfMemory>
        requires { 0 < length self.old }
        ensures ok { OnOk result (self.new ≡ in_first (with_type type_name display []) self.old) }
        ensures err { OnErr result (self.new ≡ self.old) }
    {
        let answer = self.items[0].set_custom_type_raw(alloc, type_name, display);
        self.marks.add(&mut self.keys, self.items[0].module());
        answer
    }

    /// Whether one of them may have a script.
    pub fn may_have_script(&self) -> bool
        ensures { result ≡ false → (key : Key) → is_script_key key ≡ true → list_all (lacks key) self.now ≡ true }
    {
        self.marks.may_have_script()
    }

    /// Whether one of them may have a function under a key. Where it can't, each of them needn't be asked.
    pub fn may_have(&self, key: &HashedKey) -> bool
        ensures { result ≡ false → list_all (lacks key.now) self.now ≡ true }
    {
        self.marks.may_have(&self.keys, key)
    }

    /// Whether one of them may have a native of a key's name with as many parameters, one of which is of any
    /// type.
    pub fn may_have_dynamic(&self, hash: UntypedHash, key: &Key) -> bool
        requires { IsUntyped hash key.now }
        ensures { result ≡ false → list_all (lacks_dynamic (key_name key.now) (key_params key.now)) self.now ≡ true }
    {
        self.marks.may_have_dynamic(hash, key)
    }

    pub fn len(&self) -> usize
        ensures { result ≡ length self.now }
    {
        self.items.len()
    }

    pub fn as_slice(&self) -> &[SharedModule]
        ensures { result.now ≡ self.now }
    {
        self.items.as_slice()
    }
}

/// Indexed modules with their names, in order. Contracts see the list of them.
#[derive(Drop)]
pub struct ImportList {
    items: Vec<(Text, SharedModule)>,
    /// What these may have, and some that were taken off.
    marks: Marks,
    /// Marks the hashes of their keys.
    keys: BloomFilterU64<128>,
}

impl Model for ImportList {
    ghost use Rattle.std.specs.Prelude.{◌≡◌, true};
    ghost use Rattle.std.specs.Coded.{coded×, coded_ℕ, coded_list};
    ghost use Rattle.rhd_module.specs.Codes.{tree_code};
    ghost use Rattle.rhd_layers.specs.Lists.{Imports, all_indexed};
    ghost use Rattle.rhd_layers.specs.Marks.{Tells, named_one, lacks_below};

    ghost Value = { Imports };

    ghost coded = { coded_list (coded× (coded_list coded_ℕ) tree_code) };

    ghost view = { λ a. a.items.items };

    ghost invariant = { λ a. (all_indexed a.items.items ≡ true) × Tells named_one lacks_below 128 a.marks a.keys a.items.items };
}

impl ImportList {
    pub fn new(alloc: Global) -> ImportList
        ensures { result ≡ [] }
    {
        ImportList {
            items: Vec::new(alloc),
            marks: Marks::new(),
            keys: BloomFilterU64::new(),
        }
    }

    /// An equal list, of the same modules.
    pub fn dup(&self, alloc: Global) -> Result<ImportList, OutOfMemory>
        ensures { IfOk result (λ imports. imports ≡ self.now) }
    {
        let mut imports = ImportList::new(alloc);
        push_all(&mut imports, alloc, self.as_slice())?;
        Ok(imports)
    }

    /// Puts an indexed module with a name last.
    pub fn push(&mut self, name: Text, added: SharedModule) -> Result<(), OutOfMemory>
        requires { added.own.indexed ≡ true }
        ensures { self.new ≡ (if is_ok result then self.old ++ (name, added) ∷ [] else self.old) }
    {
        self.marks.add_tree(&mut self.keys, added.module());
        self.items.push((name, added))?;
        Ok(())
    }

    /// Takes the last module off with its name, if there is one.
    pub fn pop(&mut self) -> Option<(Text, SharedModule)>
        ensures { Popped self.old result self.new }
    {
        self.items.pop()
    }

    /// Puts an indexed module in the place of the last one, if there is one, under its name.
    #[tactic(auto, using(crate::proofs::Indexed::last_set))]
    pub fn set_last(&mut self, added: SharedModule)
        requires { added.own.indexed ≡ true }
        ensures { self.new ≡ with_last added self.old }
    {
        let len = self.items.len();
        if len == 0 {
            return;
        }
        self.marks.add_tree(&mut self.keys, added.module());
        self.items[len - 1].1 = added;
    }

    /// Puts all modules of another list last, with their names. Where memory runs out, some of them may
    /// stand there.
    pub fn extend(&mut self, alloc: Global, added: &ImportList) -> Result<(), OutOfMemory>
        ensures ok { OnOk result (self.new ≡ self.old ++ added.now) }
        ensures kept { take (length self.old) self.new ≡ self.old }
    {
        push_all(self, alloc, added.as_slice())
    }

    /// Takes all modules off but so many, the oldest.
    pub fn truncate(&mut self, len: usize)
        ensures { self.new ≡ take len self.old }
    {
        self.items.truncate(len);
    }

    /// The latest module of a name.
    pub fn find(&self, name: &Text) -> Option<&SharedModule>
        ensures { option_copied result ≡ latest_of name.now self.now }
    {
        for (known, module) in self.items.iter().rev() {
            if name == known {
                return Some(module);
            }
        }
        None
    }

    /// Whether the tree of one of them may have a script.
    pub fn may_have_script(&self) -> bool
        ensures { result ≡ false → (key : Key) → is_script_key key ≡ true → list_all (λ e. lacks_below key e.1) self.now ≡ true }
    {
        self.marks.may_have_script()
    }

    /// Whether the tree of one of them may have a function under a key. Where it can't, each of them needn't
    /// be asked.
    pub fn may_have(&self, key: &HashedKey) -> bool
        ensures { result ≡ false → list_all (λ e. lacks_below key.now e.1) self.now ≡ true }
    {
        self.marks.may_have(&self.keys, key)
    }

    /// Whether the tree of one of them may have a native of a key's name with as many parameters, one of
    /// which is of any type.
    pub fn may_have_dynamic(&self, hash: UntypedHash, key: &Key) -> bool
        requires { IsUntyped hash key.now }
        ensures indexed { all_indexed self.now ≡ true }
        ensures lack { result ≡ false → list_all (λ e. lacks_dynamic (key_name key.now) (key_params key.now) e.1) self.now ≡ true }
    {
        self.marks.may_have_dynamic(hash, key)
    }

    pub fn len(&self) -> usize
        ensures { result ≡ length self.now }
    {
        self.items.len()
    }

    /// The modules with their names, in order. Each is indexed.
    pub fn as_slice(&self) -> &[(Text, SharedModule)]
        ensures items { result.now ≡ self.now }
        ensures indexed { all_indexed self.now ≡ true }
    {
        self.items.as_slice()
    }
}

/// Puts indexed modules last, with their names.
fn push_all(
    imports: &mut ImportList,
    alloc: Global,
    added: &[(Text, SharedModule)],
) -> Result<(), OutOfMemory>
    requires { all_indexed added.now ≡ true }
    ensures ok { OnOk result (imports.new ≡ imports.old ++ added.now) }
    ensures kept { take (length imports.old) imports.new ≡ imports.old }
{
    for (name, module) in added {
        imports.push(name.dup(alloc)?, module.dup(alloc)?)?;
    }
    Ok(())
}
