//! What is found in a module and below it.

ghost use Rattle.std.specs.Prelude.{◌≡◌, true, IfOk, is_some};
ghost use Rattle.std.specs.Option.{option_copied, option_map};
ghost use Rattle.std.specs.Map.{keys_of};
ghost use Rattle.rhd_hash.specs.Steps.{raised};
ghost use Rattle.rhd_module.specs.Below.{some_in, declares_global, may_contain, qualified_var};
ghost use Rattle.rhd_module.specs.Index.{Indexes};
ghost use Rattle.rhd_table.specs.Indexed.{NoneClash};
ghost use Rattle.rhd_module.specs.Walk.{tree, qualified};

use crate::module::Module;
use rhd_decl::DeclFault;
use rhd_func::RhaiFunc;
use rhd_hash::{HashedKey, Key, Steps};
use rhd_value::{Dynamic, OutOfMemory, Text};
use std::alloc::Global;

impl Module {
    /// Whether it is indexed. No two keys of its tree clash then.
    pub fn has_index(&self) -> bool
        ensures indexed { result ≡ self.now.own.indexed }
        ensures apart { self.now.own.indexed ≡ true → NoneClash self.now.own.seeds (keys_of (tree self.now)) }
    {
        self.flags.is_indexed()
    }

    /// Indexes its declarations and those below, so that they are found by their qualified names. An
    /// indexed module stays as it is.
    pub fn build_index(&mut self, alloc: Global) -> Result<(), DeclFault>
        ensures { Indexes self.old result self.new }
    {
        if self.has_index() {
            return Ok(());
        }
        let index = self.tree_index(alloc)?;
        self.index = index;
        self.flags.set_indexed(true);
        Ok(())
    }

    /// The function that is found first under a key in the module and below it. It is one look-up more.
    pub fn get_qualified_fn(&self, key: &Key, steps: &mut Steps) -> Option<&RhaiFunc>
        requires { self.now.own.indexed ≡ true }
        ensures found { option_copied result ≡ option_map (λ d. d.func) (qualified self.now key.now) }
        ensures steps { steps.new ≡ raised steps.old 1 }
    {
        self.get_qualified_hashed_fn(&HashedKey::new(key, self.seeds()), steps)
    }

    /// The function that is found first under a key whose hash is at hand, in the module and below it. It
    /// is one look-up more.
    #[tactic(auto, unfolding(crate::specs::Walk::qualified))]
    #[inline(always)]
    pub fn get_qualified_hashed_fn(&self, key: &HashedKey, steps: &mut Steps) -> Option<&RhaiFunc>
        requires { self.now.own.indexed ≡ true }
        ensures found { option_copied result ≡ option_map (λ d. d.func) (qualified self.now key.now) }
        ensures steps { steps.new ≡ raised steps.old 1 }
    {
        steps.raise();
        self.index.get_hashed(key)
    }

    /// Whether a function is found under a key in the module or below it. It is no look-up of a call.
    #[tactic(auto, unfolding(crate::specs::Walk::qualified))]
    pub fn contains_qualified_fn(&self, key: &Key) -> bool
        requires { self.now.own.indexed ≡ true }
        ensures { result ≡ is_some (qualified self.now key.now) }
    {
        self.index
            .get_hashed(&HashedKey::new(key, self.seeds()))
            .is_some()
    }

    /// Whether a function of the module or of one below it is found without the module's name.
    pub fn contains_indexed_global_functions(&self) -> bool
        requires { self.now.own.indexed ≡ true }
        ensures { result ≡ some_in declares_global self.now }
    {
        self.index.has_global()
    }

    /// Whether some native with a parameter of any type may have a name and a number of parameters of
    /// this hash: one of the module or, where it is indexed, of those below it too.
    pub fn may_contain_dynamic_fn(&self, hash: u64) -> bool
        ensures { result ≡ may_contain self.now hash }
    {
        if self.flags.is_indexed() {
            return self.index.may_contain(hash);
        }
        !self.filter.is_absent(hash)
    }

    /// A copy of a variable's value, of the module under these names.
    pub fn get_qualified_var(
        &self,
        alloc: Global,
        path: &[Text],
        name: &Text,
    ) -> Result<Option<Dynamic>, OutOfMemory>
        ensures { IfOk result (λ value. value ≡ qualified_var path.now name.now self.now) }
    {
        match path {
            [] => self.get_var(alloc, name),
            [first, more @ ..] => match self.get_sub_module(first) {
                Some(child) => child.get_qualified_var(alloc, more, name),
                None => Ok(None),
            },
        }
    }
}
