//! A module.

ghost use Rattle.std.specs.Prelude.{◌≡◌, [], false, None, is_some, OnOk, OnErr, IfOk};
ghost use Rattle.std.specs.Map.{lookup, keys_of};
ghost use Rattle.std.specs.Option.{option_copied, option_map};
ghost use Rattle.rhd_hash.specs.Keys.{key_eq};
ghost use Rattle.rhd_hash.specs.Steps.{raised};
ghost use Rattle.rhd_hash.specs.Table.{HasOwnHashes};
ghost use Rattle.rhd_manifest.specs.Entry.{entry_decl};
ghost use Rattle.rhd_manifest.specs.Rank.{find_entry};
ghost use Rattle.rhd_module.specs.Below.{may_list_dynamic};
ghost use Rattle.rhd_module.specs.Contents.{with_comments};
ghost use Rattle.rhd_module.specs.Matching.{may_match};
ghost use Rattle.rhd_module.specs.Registered.{Puts};
ghost use Rattle.rhd_module.specs.Shown.{own_decl};
ghost use Rattle.rhd_module.specs.Tree.{empty_module, subs_of};

use indexmap::map::Values;
use rhd_decl::{CustomTypesCollection, DeclFault, Declaration, Switches};
use rhd_func::{ManifestId, RhaiFunc, SharedText};
use rhd_hash::{BloomFilterU64, HashedKey, Key, Seeds, SharedKey, Steps};
use rhd_manifest::Listing;
use rhd_table::{Declarations, TreeIndex, mark_dynamic};
use rhd_value::{Entries, OutOfMemory, Text, Texts, TypeTag};
use std::alloc::{AllocError, Global};
use std::collections::BTreeMap;
use std::marker::Model;
use std::rc::Rc;

/// Functions by key, with variables, custom types and sub-modules. Contracts see its lists.
#[derive(Drop)]
pub struct Module {
    pub(crate) id: Option<SharedText>,
    pub(crate) doc: Text,
    pub(crate) types: CustomTypesCollection,
    pub(crate) vars: Entries,
    /// Declarations, in the order in which their keys came first.
    pub(crate) eager: Declarations,
    /// Manifests, each with whether it is flattened.
    pub(crate) manifests: Vec<(ManifestId, bool)>,
    /// What these list.
    pub(crate) listed: Listing,
    pub(crate) subs: BTreeMap<Text, Rc<Module>>,
    pub(crate) flags: Switches,
    /// Marks the hashes of its own keys, listed ones too, that have a parameter of any type.
    pub(crate) filter: BloomFilterU64<8>,
    /// What it has of its tree, while it is indexed. Copies share it.
    pub(crate) index: Rc<TreeIndex>,
}

impl Model for Module {
    ghost use Rattle.std.specs.Prelude.{[]};
    ghost use Rattle.std.proofs.Common.{arith};
    ghost use Rattle.rhd_module.specs.Tree.{ModuleTree, subs_of, depth};
    ghost use Rattle.rhd_module.specs.Codes.{tree_code, most_le-depth};
    ghost use Rattle.rhd_module.specs.Index.{IsFilter, IsKept};

    ghost Value = { ModuleTree };

    ghost coded = { tree_code };

    ghost view = { λ m. record {
      own = record {
        id = m.id;
        doc = m.doc;
        types = m.types;
        vars = m.vars;
        eager = m.eager.pairs;
        manifests = m.manifests.items;
        listed = m.listed;
        iterators = [];
        internal = m.flags.internal;
        standard = m.flags.standard;
        indexed = m.flags.indexed;
        seeds = m.eager.seeds;
      };
      subs = subs_of m.subs.entries;
    } };

    ghost invariant = { λ m.
        IsFilter m.filter record {
          id = m.id;
          doc = m.doc;
          types = m.types;
          vars = m.vars;
          eager = m.eager.pairs;
          manifests = m.manifests.items;
          listed = m.listed;
          iterators = [];
          internal = m.flags.internal;
          standard = m.flags.standard;
          indexed = m.flags.indexed;
          seeds = m.eager.seeds;
        }
        × IsKept m.index.value record {
          own = record {
            id = m.id;
            doc = m.doc;
            types = m.types;
            vars = m.vars;
            eager = m.eager.pairs;
            manifests = m.manifests.items;
            listed = m.listed;
            iterators = [];
            internal = m.flags.internal;
            standard = m.flags.standard;
            indexed = m.flags.indexed;
            seeds = m.eager.seeds;
          };
          subs = subs_of m.subs.entries;
        } };

    ghost size = { λ t. depth t.subs };

    ghost size_decreases = { λ a h. omega (arith, most_le-depth a.subs.entries) };
}

impl Module {
    /// A module in which nothing is. It is indexed.
    pub fn new(alloc: Global, seeds: Seeds) -> Result<Module, OutOfMemory>
        ensures { IfOk result (λ made. made ≡ empty_module seeds) }
    {
        let mut flags = Switches::new();
        flags.set_indexed(true);
        Ok(Module {
            id: None,
            doc: Text::new(alloc),
            types: CustomTypesCollection::new(alloc),
            vars: Entries::new(alloc),
            eager: Declarations::new(alloc, seeds),
            manifests: Vec::new(alloc),
            listed: Listing::new(alloc),
            subs: BTreeMap::new(alloc),
            flags,
            filter: BloomFilterU64::new(),
            index: Rc::new(alloc, TreeIndex::new(alloc, seeds))?,
        })
    }

    /// Where its memory comes from.
    pub(crate) fn allocator(&self) -> Global {
        self.eager.allocator()
    }

    /// The seeds under which its keys are hashed.
    pub fn seeds(&self) -> Seeds
        ensures { result ≡ self.now.own.seeds }
    {
        self.eager.seeds()
    }

    /// Puts a declaration under a key: an equal key keeps its place, else it goes last.
    pub(crate) fn put_fn(
        &mut self,
        alloc: Global,
        key: SharedKey,
        declaration: Declaration,
    ) -> Result<(), DeclFault>
        ensures { Puts None key declaration self.old result self.new }
    {
        let dynamic = key.key().dynamic_hash(self.eager.seeds());
        match self.eager.put(alloc, key, declaration) {
            Err(fault) => Err(fault),
            Ok(true) => {
                self.flags.set_indexed(false);
                Ok(())
            }
            Ok(false) => {
                mark_dynamic(&mut self.filter, dynamic);
                self.flags.set_indexed(false);
                Ok(())
            }
        }
    }

    /// Takes all declarations and manifests out. The module isn't indexed any more.
    pub(crate) fn clear_fns(&mut self, alloc: Global)
        ensures { self.new ≡ record self.old { own = record self.old.own { eager = []; manifests = []; listed = []; indexed = false } } }
    {
        self.flags.set_indexed(false);
        self.eager = Declarations::new(alloc, self.eager.seeds());
        self.manifests = Vec::new(alloc);
        self.listed = Listing::new(alloc);
        self.filter = BloomFilterU64::new();
    }

    /// Takes the functions of another module, declared and listed, in the place of its own, with the seeds of
    /// their keys. The module isn't indexed any more.
    pub fn take_fns(&mut self, other: Module)
        ensures { self.new ≡ record self.old { own = record self.old.own { eager = other.own.eager; manifests = other.own.manifests; listed = other.own.listed; indexed = false; seeds = other.own.seeds } } }
    {
        let Module {
            eager,
            manifests,
            listed,
            filter,
            ..
        } = other;
        self.flags.set_indexed(false);
        self.eager = eager;
        self.manifests = manifests;
        self.listed = listed;
        self.filter = filter;
    }

    /// A copy with the functions of another module, declared and listed, in the place of its own, with the
    /// seeds of their keys, and with other sub-modules. It isn't indexed.
    pub fn dup_with(
        &self,
        alloc: Global,
        other: Module,
        subs: BTreeMap<Text, Rc<Module>>,
    ) -> Result<Module, OutOfMemory>
        ensures { IfOk result (λ copy. copy ≡ record {
          own = record self.now.own { eager = other.own.eager; manifests = other.own.manifests; listed = other.own.listed; indexed = false; seeds = other.own.seeds };
          subs = subs_of subs.entries;
        }) }
    {
        let id = self.share_id(alloc)?;
        let doc = self.doc.dup(alloc)?;
        let types = self.types.dup(alloc)?;
        let vars = self.vars.dup(alloc)?;
        let index = self.index.clone()?;
        let mut flags = self.flags.dup();
        flags.set_indexed(false);
        let Module {
            eager,
            manifests,
            listed,
            filter,
            ..
        } = other;
        Ok(Module {
            id,
            doc,
            types,
            vars,
            eager,
            manifests,
            listed,
            subs,
            flags,
            filter,
            index,
        })
    }

    /// Sets the comments of the declaration under a key. Answers whether there is one; a listed function is
    /// none.
    pub fn set_fn_comments(
        &mut self,
        alloc: Global,
        key: &Key,
        comments: Texts,
    ) -> Result<bool, OutOfMemory>
        ensures answer { IfOk result (λ found. found ≡ is_some (lookup (key_eq key.now) self.old.own.eager)) }
        ensures ok { OnOk result (self.new ≡ with_comments key.now comments self.old) }
        ensures err { OnErr result (self.new ≡ self.old) }
    {
        let found = self.eager.set_comments(alloc, key, comments)?;
        Ok(found)
    }

    /// The function that is declared under a key, or else listed under it. It is one look-up more.
    pub fn get_fn(&self, key: &Key, steps: &mut Steps) -> Option<&RhaiFunc>
        ensures found { option_copied result ≡ option_map (λ d. d.func) (own_decl self.now key.now) }
        ensures steps { steps.new ≡ raised steps.old 1 }
    {
        self.get_hashed_fn(&HashedKey::new(key, self.seeds()), steps)
    }

    /// The function that is declared under a key whose hash is at hand, or else listed under it. It is one
    /// look-up more.
    #[tactic(auto, unfolding(crate::specs::Shown::own_decl))]
    pub fn get_hashed_fn(&self, key: &HashedKey, steps: &mut Steps) -> Option<&RhaiFunc>
        ensures found { option_copied result ≡ option_map (λ d. d.func) (own_decl self.now key.now) }
        ensures steps { steps.new ≡ raised steps.old 1 }
    {
        steps.raise();
        match self.eager.get_hashed(key) {
            Some(declaration) => Some(&declaration.func),
            None => self.get_listed(key.key()),
        }
    }

    /// The function that is listed under a key.
    fn get_listed(&self, key: &Key) -> Option<&RhaiFunc>
        ensures { option_copied result ≡ option_map (λ e. (entry_decl self.now.own.seeds e).func) (find_entry key.now self.now.own.listed) }
    {
        if self.listed.is_empty() {
            return None;
        }
        if key.is_script() {
            return None;
        }
        match self.listed.find(key) {
            Some(entry) => Some(entry.plugin()),
            None => None,
        }
    }

    /// Whether a function is declared or listed under a key. It is no look-up of a call.
    #[tactic(auto, unfolding(crate::specs::Shown::own_decl))]
    pub fn contains_fn(&self, key: &Key) -> bool
        ensures { result ≡ is_some (own_decl self.now key.now) }
    {
        self.eager.get(key).is_some() || self.listed.find(key).is_some()
    }

    /// The same under a key that tables share.
    #[tactic(auto, unfolding(crate::specs::Shown::own_decl))]
    pub(crate) fn contains_shared(&self, key: &SharedKey) -> bool
        ensures { result ≡ is_some (own_decl self.now key.now) }
    {
        self.eager.get_hashed(&key.hashed()).is_some() || self.listed.find(key.key()).is_some()
    }

    /// The manifests that it lists, each with whether it is flattened, in the order in which they were
    /// added.
    pub fn iter_manifests(&self) -> &[(ManifestId, bool)]
        ensures { result.now ≡ self.now.own.manifests }
    {
        self.manifests.as_slice()
    }

    /// Whether it lists functions, and has one, listed or declared, with a parameter of any type whose name
    /// and number of parameters have a hash equal to this one modulo 64.
    pub fn may_list_dynamic_fn(&self, hash: u64) -> bool
        ensures { result ≡ may_list_dynamic self.now.own.seeds hash self.now.own }
    {
        !self.listed.is_empty() && !self.filter.is_absent(hash)
    }

    /// The declarations with their keys, in order.
    pub fn iter_fn(&self) -> Values<'_, u64, (SharedKey, Declaration)>
        ensures pairs { result ≡ self.now.own.eager }
        ensures apart { HasOwnHashes self.now.own.seeds (keys_of self.now.own.eager) }
    {
        self.eager.iter()
    }

    /// Whether a native that isn't listed and has a parameter of any type is declared under this name, each
    /// of whose types is the argument's kind, or, behind the first `exact` ones, `Dynamic`.
    pub fn may_match(&self, exact: usize, name: &Text, kinds: &[TypeTag]) -> bool
        ensures { result ≡ may_match self.now exact name.now kinds.now }
    {
        self.eager.may_match(exact, name, kinds)
    }

    /// An equal module. Its sub-modules are shared.
    pub fn dup(&self, alloc: Global) -> Result<Module, OutOfMemory>
        ensures { IfOk result (λ copy. copy ≡ self.now) }
    {
        Ok(Module {
            id: self.share_id(alloc)?,
            doc: self.doc.dup(alloc)?,
            types: self.types.dup(alloc)?,
            vars: self.vars.dup(alloc)?,
            eager: self.eager.dup(alloc)?,
            manifests: Vec::from_slice(alloc, self.manifests.as_slice())?,
            listed: self.listed.dup(alloc)?,
            subs: self.subs.clone()?,
            flags: self.flags.dup(),
            filter: self.filter.clone()?,
            index: self.index.clone()?,
        })
    }
}

/// A clone is the module itself.
impl Clone for Module {
    ghost use Rattle.std.specs.Prelude.{◌≡◌};

    ghost is_clone = { λ old copy. copy ≡ old };

    fn clone(&self) -> Result<Module, AllocError> {
        match self.dup(self.allocator()) {
            Ok(module) => Ok(module),
            Err(OutOfMemory) => Err(AllocError),
        }
    }
}
