//! What filters tell of a module, for those who join them.

ghost use Rattle.std.specs.Prelude.{ℕ, ◌≡◌, true, false, is_some, IfSome};
ghost use Rattle.rhd_hash.specs.Covers.{Covers, HasNoScript};
ghost use Rattle.rhd_hash.specs.Filter.{is_marked};
ghost use Rattle.rhd_manifest.specs.Listing.{is_none_of};
ghost use Rattle.rhd_module.specs.Below.{may_contain};
ghost use Rattle.rhd_module.specs.Shown.{shown};
ghost use Rattle.rhd_module.specs.Walk.{tree};

use crate::module::Module;
use rhd_hash::BloomFilterU64;

impl Module {
    /// A filter that has a mark for the hash of each key that it declares, where it lists no functions.
    pub fn own_marks(&self) -> Option<&BloomFilterU64<128>>
        ensures some { is_some result ≡ is_none_of self.now.own.listed }
        ensures covers { IfSome result (λ marks. Covers 128 marks.now self.now.own.seeds (shown self.now.own)) }
    {
        if self.listed.is_empty() {
            Some(self.eager.key_marks())
        } else {
            None
        }
    }

    /// A filter that has a mark for the hash of each key of the module and of those below it.
    pub fn tree_marks(&self) -> &BloomFilterU64<128>
        requires { self.now.own.indexed ≡ true }
        ensures { Covers 128 result.now self.now.own.seeds (tree self.now) }
    {
        self.index.key_marks()
    }

    /// Marks the hash of each key of the module and of those below it in another filter.
    pub fn mark_tree(&self, filter: &mut BloomFilterU64<8192>)
        requires { self.now.own.indexed ≡ true }
        ensures kept { (v : ℕ) → is_marked 8192 filter.new v ≡ false → is_marked 8192 filter.old v ≡ false }
        ensures covers { Covers 8192 filter.new self.now.own.seeds (tree self.now) }
    {
        self.index.mark_keys(filter);
    }

    /// The filter by which it is told whether a native with a parameter of any type may have a hash.
    pub fn dynamic_marks(&self) -> &BloomFilterU64<8>
        ensures { (hash : ℕ) → is_marked 8 result.now hash ≡ may_contain self.now hash }
    {
        if self.flags.is_indexed() {
            return self.index.dynamic_marks();
        }
        &self.filter
    }

    /// Whether it may declare a script.
    pub fn may_have_script(&self) -> bool
        ensures { result ≡ false → HasNoScript (shown self.now.own) }
    {
        self.eager.may_have_script()
    }

    /// Whether it or a module below it may declare a script.
    pub fn tree_may_have_script(&self) -> bool
        requires { self.now.own.indexed ≡ true }
        ensures { result ≡ false → HasNoScript (tree self.now) }
    {
        self.index.may_have_script()
    }
}
