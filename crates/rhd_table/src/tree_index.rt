//! An index of functions by key, and what is asked of a tree of modules.

ghost use Rattle.std.specs.Prelude.{ℕ, ◌≡◌, ◌||◌, ◌++◌, ◌∷◌, [], map, false, is_some, OnOk, IfOk, IfErr};
ghost use Rattle.std.specs.Option.{option_copied};
ghost use Rattle.std.specs.List.{list_any};
ghost use Rattle.std.specs.Map.{lookup, keys_of};
ghost use Rattle.rhd_hash.specs.Covers.{Covers, HasNoScript};
ghost use Rattle.rhd_hash.specs.Filter.{is_marked};
ghost use Rattle.rhd_hash.specs.Keys.{key_eq};
ghost use Rattle.rhd_hash.specs.PutIn.{put_in};
ghost use Rattle.rhd_hash.specs.Refusal.{IsRefusal};
ghost use Rattle.rhd_hash.specs.Table.{HasOwnHashes};
ghost use Rattle.rhd_hash.specs.declared.fault.TableFault.{TableFault};
ghost use Rattle.rhd_hash.specs.declared.mixer.Seeds.{Seeds as TheSeeds};
ghost use Rattle.rhd_decl.specs.Collisions.{collision};
ghost use Rattle.rhd_func.specs.Access.{is_global_namespace};
ghost use Rattle.rhd_manifest.specs.Entry.{entry_key, entry_pair};
ghost use Rattle.rhd_table.specs.Indexed.{Fills, IsClash};
ghost use Rattle.rhd_table.specs.Marks.{may_be_dynamic};
ghost use Rattle.rhd_table.specs.Pairs.{without};
ghost use Rattle.rhd_table.specs.Paths.{unpathed, pathed, pairs_at};

use crate::declarations::Declarations;
use rhd_decl::{DeclFault, Declaration};
use rhd_func::RhaiFunc;
use rhd_hash::{BloomFilterU64, HashedKey, Key, KeyTable, Seeds, SharedKey};
use rhd_manifest::FnManifestEntry;
use rhd_value::Texts;
use std::alloc::Global;
use std::marker::Model;

/// The functions of a module's tree by key, and what is asked of the tree. Contracts see its parts.
#[derive(Drop)]
pub struct TreeIndex {
    table: KeyTable<RhaiFunc>,
    /// Marks the hashes of the keys that have a parameter of any type.
    filter: BloomFilterU64<8>,
    /// Whether a function is found without the module's name.
    has_global: bool,
}

impl Model for TreeIndex {
    ghost use Rattle.rhd_table.specs.Indexed.{Indexed};

    ghost Value = { Indexed };

    ghost view = { λ i. record { seeds = i.table.seeds; pairs = i.table.pairs; marks = i.filter; has_global = i.has_global } };
}

/// Puts a function under a key of a table.
fn put_func(
    table: &mut KeyTable<RhaiFunc>,
    key: SharedKey,
    func: RhaiFunc,
) -> Result<bool, DeclFault>
    ensures replaced { IfOk result (λ replaced. replaced ≡ is_some (lookup (key_eq key) table.old.pairs)) }
    ensures pairs { OnOk result (table.new ≡ record table.old { pairs = put_in key_eq key func table.old.pairs }) }
    ensures apart { OnOk result (HasOwnHashes table.old.seeds (keys_of (put_in key_eq key func table.old.pairs))) }
    ensures refused { IfErr result (λ fault. (clash : TableFault) × (fault ≡ collision clash) × IsRefusal table.old key clash) }
{
    match table.insert_shared(key, func) {
        Ok(old) => Ok(old.is_some()),
        Err(fault) => Err(DeclFault::from(fault)),
    }
}

impl TreeIndex {
    /// The index of an empty tree.
    pub fn new(alloc: Global, seeds: Seeds) -> TreeIndex
        ensures seeds { result.seeds ≡ seeds }
        ensures pairs { result.pairs ≡ [] }
        ensures marks { (hash : _) → is_marked 8 result.marks hash ≡ false }
        ensures tells { result.has_global ≡ false }
    {
        TreeIndex {
            table: KeyTable::new(alloc, seeds),
            filter: BloomFilterU64::new(),
            has_global: false,
        }
    }

    /// The seeds under which keys are hashed.
    pub fn seeds(&self) -> Seeds
        ensures { result ≡ self.now.seeds }
    {
        self.table.seeds()
    }

    /// A filter that has a mark for the hash of each key.
    pub fn key_marks(&self) -> &BloomFilterU64<128>
        ensures { Covers 128 result.now self.now.seeds self.now.pairs }
    {
        self.table.marks()
    }

    /// Marks the hash of each key in another filter.
    pub fn mark_keys(&self, filter: &mut BloomFilterU64<8192>)
        ensures kept { (v : ℕ) → is_marked 8192 filter.new v ≡ false → is_marked 8192 filter.old v ≡ false }
        ensures covers { Covers 8192 filter.new self.now.seeds self.now.pairs }
    {
        self.table.mark_keys(filter);
    }

    /// Whether a script's key may be there.
    pub fn may_have_script(&self) -> bool
        ensures { result ≡ false → HasNoScript self.now.pairs }
    {
        self.table.may_have_script()
    }

    /// A filter that has a mark for each hash of a key with a parameter of any type.
    pub fn dynamic_marks(&self) -> &BloomFilterU64<8>
        ensures { result.now ≡ self.now.marks }
    {
        &self.filter
    }

    /// The function under a key.
    pub fn get_hashed(&self, key: &HashedKey) -> Option<&RhaiFunc>
        ensures { option_copied result ≡ lookup (key_eq key.now) self.now.pairs }
    {
        self.table.get_hashed(key)
    }

    /// Whether a hash is marked.
    pub fn may_contain(&self, hash: u64) -> bool
        ensures { result ≡ is_marked 8 self.now.marks hash }
    {
        !self.filter.is_absent(hash)
    }

    /// Whether a function is found without the module's name.
    pub fn has_global(&self) -> bool
        ensures { result ≡ self.now.has_global }
    {
        self.has_global
    }

    /// Marks the hash of a key that has a parameter of any type.
    fn mark(&mut self, key: &Key)
        ensures { Fills self.old self.new [] (λ hash. may_be_dynamic self.old.seeds hash key.now) false }
    {
        if key.has_dynamic() {
            let hash = key.untyped(self.table.seeds());
            self.filter.mark(hash);
        }
    }

    /// Marks the hashes of the keys of declarations that have a parameter of any type.
    pub fn mark_all(&mut self, declarations: &Declarations)
        ensures { Fills self.old self.new [] (λ hash. list_any (λ p. may_be_dynamic self.old.seeds hash p.0) declarations.now.pairs) false }
    {
        for (key, _declaration) in declarations.iter() {
            self.mark(key.key());
        }
    }

    /// Marks the hashes of the keys of listed functions that have a parameter of any type.
    pub fn mark_listed(&mut self, listed: &[&FnManifestEntry])
        ensures { Fills self.old self.new [] (λ hash. list_any (λ e. may_be_dynamic self.old.seeds hash (entry_key e.now)) listed.now) false }
    {
        for entry in listed {
            self.mark(entry.key());
        }
    }

    /// Puts the marks of another filter to its own.
    pub fn join(&mut self, filter: &BloomFilterU64<8>)
        ensures { Fills self.old self.new [] (λ hash. is_marked 8 filter.now hash) false }
    {
        self.filter += filter;
    }

    /// Puts a function under a key, in the place of one of an equal key.
    fn put(&mut self, key: SharedKey, func: RhaiFunc) -> Result<(), DeclFault>
        ensures puts { OnOk result (self.new ≡ record self.old { pairs = put_in key_eq key func self.old.pairs }) }
        ensures apart { OnOk result (HasOwnHashes self.new.seeds (keys_of self.new.pairs)) }
        ensures clash { IfErr result (IsClash self.old.seeds (key ∷ keys_of self.old.pairs)) }
    {
        put_func(&mut self.table, key, func)?;
        Ok(())
    }

    /// Puts a declaration under its key with a path, if it is found there.
    fn put_pathed(
        &mut self,
        alloc: Global,
        path: &Texts,
        key: &SharedKey,
        declaration: &Declaration,
    ) -> Result<(), DeclFault>
        ensures fills { OnOk result (Fills self.old self.new (pathed path.now (key.now, declaration.now)) (λ _. false) false) }
        ensures clash { IfErr result (IsClash self.old.seeds (keys_of (pathed path.now (key.now, declaration.now)) ++ keys_of self.old.pairs)) }
    {
        if declaration.metadata().access.is_private() {
            return Ok(());
        }
        let func = declaration.func.dup(alloc)?;
        let key = SharedKey::new(alloc, key.key().dup_at(alloc, path)?, self.table.seeds())?;
        self.put(key, func)
    }

    /// Puts a declaration under its key without a path, if it is found there.
    fn put_unpathed(
        &mut self,
        alloc: Global,
        key: &SharedKey,
        declaration: &Declaration,
    ) -> Result<(), DeclFault>
        ensures fills { OnOk result (Fills self.old self.new (unpathed (key.now, declaration.now)) (λ _. false) (is_global_namespace declaration.now.metadata.namespace)) }
        ensures clash { IfErr result (IsClash self.old.seeds (keys_of (unpathed (key.now, declaration.now)) ++ keys_of self.old.pairs)) }
    {
        if !declaration.metadata().namespace.is_global_namespace() {
            return Ok(());
        }
        self.has_global = true;
        if declaration.metadata().access.is_private() && !key.key().is_typed() {
            return Ok(());
        }
        let func = declaration.func.dup(alloc)?;
        self.put(key.dup(alloc)?, func)
    }

    /// Puts a declaration under the keys by which it is found.
    fn put_pairs(
        &mut self,
        alloc: Global,
        path: &Texts,
        key: &SharedKey,
        declaration: &Declaration,
    ) -> Result<(), DeclFault>
        ensures fills { OnOk result (Fills self.old self.new (unpathed (key.now, declaration.now) ++ pathed path.now (key.now, declaration.now)) (λ _. false) (is_global_namespace declaration.now.metadata.namespace)) }
        ensures clash { IfErr result (IsClash self.old.seeds (keys_of (unpathed (key.now, declaration.now) ++ pathed path.now (key.now, declaration.now)) ++ keys_of self.old.pairs)) }
    {
        self.put_pathed(alloc, path, key, declaration)?;
        self.put_unpathed(alloc, key, declaration)
    }

    /// Puts declarations under the keys by which they are found at a path, the last first, one by one.
    fn put_each(
        &mut self,
        alloc: Global,
        path: &Texts,
        declarations: &Declarations,
    ) -> Result<(), DeclFault>
        ensures fills { OnOk result (Fills self.old self.new (pairs_at path.now declarations.now.pairs) (λ _. false) (list_any (λ p. is_global_namespace p.1.metadata.namespace) declarations.now.pairs)) }
        ensures clash { IfErr result (IsClash self.old.seeds (keys_of (pairs_at path.now declarations.now.pairs) ++ keys_of self.old.pairs)) }
    {
        for (key, declaration) in declarations.iter().rev() {
            self.put_pairs(alloc, path, key, declaration)?;
        }
        Ok(())
    }

    /// Puts declarations under the keys by which they are found at a path, the last first.
    pub fn put_all(
        &mut self,
        alloc: Global,
        path: &Texts,
        declarations: &Declarations,
    ) -> Result<(), DeclFault>
        ensures fills { OnOk result (Fills self.old self.new (pairs_at path.now declarations.now.pairs) (λ _. false) (list_any (λ p. is_global_namespace p.1.metadata.namespace) declarations.now.pairs)) }
        ensures clash { IfErr result (IsClash self.old.seeds (keys_of (pairs_at path.now declarations.now.pairs) ++ keys_of self.old.pairs)) }
    {
        self.table.reserve(declarations.len())?;
        self.put_each(alloc, path, declarations)
    }

    /// Puts a listed function under its key with a path.
    fn put_entry_pathed(
        &mut self,
        alloc: Global,
        path: &Texts,
        entry: &FnManifestEntry,
    ) -> Result<(), DeclFault>
        ensures fills { (seeds : TheSeeds) → OnOk result (Fills self.old self.new (pathed path.now (entry_pair seeds entry.now)) (λ _. false) false) }
        ensures clash { (seeds : TheSeeds) → IfErr result (IsClash self.old.seeds (keys_of (pathed path.now (entry_pair seeds entry.now)) ++ keys_of self.old.pairs)) }
    {
        let func = entry.plugin().dup(alloc)?;
        let key = SharedKey::new(alloc, entry.key().dup_at(alloc, path)?, self.table.seeds())?;
        self.put(key, func)
    }

    /// Puts a listed function under its key without a path, if it is found there.
    fn put_entry_unpathed(
        &mut self,
        alloc: Global,
        entry: &FnManifestEntry,
    ) -> Result<(), DeclFault>
        ensures fills { (seeds : TheSeeds) → OnOk result (Fills self.old self.new (unpathed (entry_pair seeds entry.now)) (λ _. false) (is_global_namespace entry.now.namespace)) }
        ensures clash { (seeds : TheSeeds) → IfErr result (IsClash self.old.seeds (keys_of (unpathed (entry_pair seeds entry.now)) ++ keys_of self.old.pairs)) }
    {
        if !entry.namespace().is_global_namespace() {
            return Ok(());
        }
        self.has_global = true;
        let func = entry.plugin().dup(alloc)?;
        let key = SharedKey::new(alloc, entry.key().dup(alloc)?, self.table.seeds())?;
        self.put(key, func)
    }

    /// Puts a listed function under the keys by which it is found.
    fn put_entry_pairs(
        &mut self,
        alloc: Global,
        path: &Texts,
        entry: &FnManifestEntry,
    ) -> Result<(), DeclFault>
        ensures fills { (seeds : TheSeeds) → OnOk result (Fills self.old self.new (unpathed (entry_pair seeds entry.now) ++ pathed path.now (entry_pair seeds entry.now)) (λ _. false) (is_global_namespace entry.now.namespace)) }
        ensures clash { (seeds : TheSeeds) → IfErr result (IsClash self.old.seeds (keys_of (unpathed (entry_pair seeds entry.now) ++ pathed path.now (entry_pair seeds entry.now)) ++ keys_of self.old.pairs)) }
    {
        self.put_entry_pathed(alloc, path, entry)?;
        self.put_entry_unpathed(alloc, entry)
    }

    /// Puts a listed function under the keys by which it is found at a path, if no declaration hides it.
    fn put_entry(
        &mut self,
        alloc: Global,
        path: &Texts,
        declarations: &Declarations,
        entry: &FnManifestEntry,
    ) -> Result<(), DeclFault>
        ensures fills { OnOk result (Fills self.old self.new (pairs_at path.now (without declarations.now.pairs (entry_pair declarations.now.seeds entry.now ∷ []))) (λ _. false)
            (list_any (λ p. is_global_namespace p.1.metadata.namespace) (without declarations.now.pairs (entry_pair declarations.now.seeds entry.now ∷ [])))) }
        ensures clash { IfErr result (IsClash self.old.seeds (keys_of (pairs_at path.now (without declarations.now.pairs (entry_pair declarations.now.seeds entry.now ∷ []))) ++ keys_of self.old.pairs)) }
    {
        if declarations.get(entry.key()).is_some() {
            return Ok(());
        }
        self.put_entry_pairs(alloc, path, entry)
    }

    /// The same of some listed functions, the last first, one by one.
    fn put_each_listed(
        &mut self,
        alloc: Global,
        path: &Texts,
        declarations: &Declarations,
        listed: &[&FnManifestEntry],
    ) -> Result<(), DeclFault>
        ensures fills { OnOk result (Fills self.old self.new (pairs_at path.now (without declarations.now.pairs (map (λ e. entry_pair declarations.now.seeds e.now) listed.now))) (λ _. false)
            (list_any (λ p. is_global_namespace p.1.metadata.namespace) (without declarations.now.pairs (map (λ e. entry_pair declarations.now.seeds e.now) listed.now)))) }
        ensures clash { IfErr result (IsClash self.old.seeds (keys_of (pairs_at path.now (without declarations.now.pairs (map (λ e. entry_pair declarations.now.seeds e.now) listed.now))) ++ keys_of self.old.pairs)) }
    {
        for entry in listed.iter().rev() {
            self.put_entry(alloc, path, declarations, entry)?;
        }
        Ok(())
    }

    /// The same of some listed functions, the last first.
    pub fn put_listed(
        &mut self,
        alloc: Global,
        path: &Texts,
        declarations: &Declarations,
        listed: &[&FnManifestEntry],
    ) -> Result<(), DeclFault>
        ensures fills { OnOk result (Fills self.old self.new (pairs_at path.now (without declarations.now.pairs (map (λ e. entry_pair declarations.now.seeds e.now) listed.now))) (λ _. false)
            (list_any (λ p. is_global_namespace p.1.metadata.namespace) (without declarations.now.pairs (map (λ e. entry_pair declarations.now.seeds e.now) listed.now)))) }
        ensures clash { IfErr result (IsClash self.old.seeds (keys_of (pairs_at path.now (without declarations.now.pairs (map (λ e. entry_pair declarations.now.seeds e.now) listed.now))) ++ keys_of self.old.pairs)) }
    {
        self.table.reserve(listed.len())?;
        self.put_each_listed(alloc, path, declarations, listed)
    }
}
