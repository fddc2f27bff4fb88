//! What is kept of a list of modules, so that a search that finds nothing there doesn't ask each of them.

ghost use Rattle.std.specs.Prelude.{◌≡◌, ◌<◌, ℕ, List, Some, false, true, IfOk};
ghost use Rattle.rhd_hash.specs.declared.key.Key.{Key};
ghost use Rattle.rhd_hash.specs.Covers.{Covers};
ghost use Rattle.rhd_hash.specs.Filter.{is_marked};
ghost use Rattle.rhd_hash.specs.Keys.{key_name, key_params};
ghost use Rattle.rhd_hash.specs.Untyped.{IsUntyped};
ghost use Rattle.rhd_module.specs.Shown.{shown};
ghost use Rattle.rhd_layers.specs.Marks.{may_have, may_have_dynamic, lacks, lacks_below, lacks_dynamic, Grows, Meets};

use rhd_hash::{BloomFilterU64, HashedKey, Key, Seeds, UntypedHash};
use rhd_module::Module;
use rhd_value::OutOfMemory;

/// What some modules may have, beside a filter of their keys.
#[derive(Drop)]
pub(crate) struct Marks {
    /// The seeds of the first module, if there was one: filters have marks for hashes under these.
    seeds: Option<Seeds>,
    /// Whether a module had other seeds, so that filters tell nothing.
    other_seeds: bool,
    /// Whether a module lists functions, so that the filter of keys tells nothing.
    lists: bool,
    /// Whether a module may have a script.
    scripts: bool,
    /// Marks the hashes, by name and number of parameters, of keys with a parameter of any type.
    dynamic: BloomFilterU64<8>,
}

/// Takes the keys of a module into their filter. Answers whether it lists functions, so that they aren't
/// known.
fn join_own(keys: &mut BloomFilterU64<128>, module: &Module) -> bool
    ensures kept { (v : ℕ) → is_marked 128 keys.new v ≡ false → is_marked 128 keys.old v ≡ false }
    ensures covers { result ≡ false → Covers 128 keys.new module.now.own.seeds (shown module.now.own) }
{
    match module.own_marks() {
        Some(marks) => {
            *keys += marks;
            false
        }
        None => true,
    }
}

impl Marks {
    /// That of no modules.
    pub fn new() -> Marks
        ensures keys { (size : ℕ) (keys : List ℕ) (key : Key) → may_have size result keys key ≡ false }
        ensures dynamic { (name : List ℕ) (params : ℕ) → may_have_dynamic result name params ≡ false }
    {
        Marks {
            seeds: None,
            other_seeds: false,
            lists: false,
            scripts: false,
            dynamic: BloomFilterU64::new(),
        }
    }

    /// The same of the same modules.
    pub fn dup(&self) -> Result<Marks, OutOfMemory>
        ensures { IfOk result (λ copy. copy ≡ self.now) }
    {
        Ok(Marks {
            seeds: self.seeds,
            other_seeds: self.other_seeds,
            lists: self.lists,
            scripts: self.scripts,
            dynamic: self.dynamic.clone()?,
        })
    }

    /// Whether some module may have a script.
    pub fn may_have_script(&self) -> bool
        ensures { result ≡ self.now.scripts }
    {
        self.scripts
    }

    /// Whether some module may have a key, by the filter of their keys.
    pub fn may_have<const SIZE: usize>(&self, keys: &BloomFilterU64<SIZE>, key: &HashedKey) -> bool
        requires { 0 < SIZE }
        ensures { result ≡ may_have SIZE self.now keys.now key.now }
    {
        if !self.scripts && key.key().is_script() {
            return false;
        }
        if self.other_seeds | self.lists {
            return true;
        }
        match self.seeds {
            None => false,
            Some(seeds) => !keys.is_absent(key.hash_under(seeds)),
        }
    }

    /// Whether some module may have a native of a key's name with as many parameters, one of which is of any
    /// type.
    pub fn may_have_dynamic(&self, hash: UntypedHash, key: &Key) -> bool
        requires { IsUntyped hash key.now }
        ensures { result ≡ may_have_dynamic self.now (key_name key.now) (key_params key.now) }
    {
        if self.other_seeds {
            return true;
        }
        match self.seeds {
            None => false,
            Some(seeds) => !self.dynamic.is_absent(hash.under(key, seeds)),
        }
    }

    /// Takes the seeds of a module.
    fn meet(&mut self, seeds: Seeds)
        ensures { Meets seeds self.old self.new }
    {
        match self.seeds {
            None => self.seeds = Some(seeds),
            Some(own) => self.other_seeds |= own != seeds,
        }
    }

    /// Takes what a module has itself, and its keys into their filter.
    pub fn add(&mut self, keys: &mut BloomFilterU64<128>, module: &Module)
        ensures grows { Grows 128 self.old keys.old self.new keys.new }
        ensures keys { (key : Key) → may_have 128 self.new keys.new key ≡ false → lacks key module.now ≡ true }
        ensures dynamic { (name : List ℕ) (params : ℕ) → may_have_dynamic self.new name params ≡ false → lacks_dynamic name params module.now ≡ true }
    {
        self.meet(module.seeds());
        self.lists |= join_own(keys, module);
        self.dynamic += module.dynamic_marks();
        self.scripts |= module.may_have_script();
    }

    /// Takes what the tree of a module has, and its keys into their filter.
    pub fn add_tree(&mut self, keys: &mut BloomFilterU64<128>, module: &Module)
        requires { module.now.own.indexed ≡ true }
        ensures grows { Grows 128 self.old keys.old self.new keys.new }
        ensures keys { (key : Key) → may_have 128 self.new keys.new key ≡ false → lacks_below key module.now ≡ true }
        ensures dynamic { (name : List ℕ) (params : ℕ) → may_have_dynamic self.new name params ≡ false → lacks_dynamic name params module.now ≡ true }
    {
        self.meet(module.seeds());
        *keys += module.tree_marks();
        self.dynamic += module.dynamic_marks();
        self.scripts |= module.tree_may_have_script();
    }

    /// The same with a filter that has room for the keys of many modules.
    pub fn add_wide(&mut self, keys: &mut BloomFilterU64<8192>, module: &Module)
        requires { module.now.own.indexed ≡ true }
        ensures grows { Grows 8192 self.old keys.old self.new keys.new }
        ensures keys { (key : Key) → may_have 8192 self.new keys.new key ≡ false → lacks_below key module.now ≡ true }
        ensures dynamic { (name : List ℕ) (params : ℕ) → may_have_dynamic self.new name params ≡ false → lacks_dynamic name params module.now ≡ true }
    {
        self.meet(module.seeds());
        module.mark_tree(keys);
        self.dynamic += module.dynamic_marks();
        self.scripts |= module.tree_may_have_script();
    }
}
