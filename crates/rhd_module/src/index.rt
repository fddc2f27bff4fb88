//! What a module keeps of its tree while it is indexed.

ghost use Rattle.std.specs.Prelude.{ℕ, ◌≡◌, ◌||◌, ◌++◌, [], false, OnOk, IfOk, IfErr};
ghost use Rattle.std.specs.List.{list_any};
ghost use Rattle.std.specs.Map.{keys_of};
ghost use Rattle.rhd_hash.specs.Filter.{is_marked};
ghost use Rattle.rhd_manifest.specs.Entry.{entry_key};
ghost use Rattle.rhd_table.specs.Indexed.{Fills, IsClash};
ghost use Rattle.rhd_table.specs.Marks.{may_be_dynamic};
ghost use Rattle.rhd_table.specs.Paths.{pairs_at};
ghost use Rattle.rhd_module.specs.Below.{some_in, declares_global, declares_dynamic};
ghost use Rattle.rhd_module.specs.Index.{IsIndexOf};
ghost use Rattle.rhd_module.specs.Shown.{shown};
ghost use Rattle.rhd_module.specs.Walk.{walk, tree};

use crate::module::Module;
use rhd_decl::DeclFault;
use rhd_hash::BloomFilterU64;
use rhd_manifest::FnManifestEntry;
use rhd_table::{Declarations, TreeIndex};
use rhd_value::Texts;
use std::alloc::Global;
use std::rc::Rc;

/// Marks in an index what declarations and listed functions have of keys with a parameter of any type, by a
/// filter of these, which is of use where it is of the same seeds.
fn mark_by(
    index: &mut TreeIndex,
    declarations: &Declarations,
    listed: &[&FnManifestEntry],
    filter: &BloomFilterU64<8>,
)
    requires { (hash : ℕ) → is_marked 8 filter.now hash
        ≡ (list_any (λ p. may_be_dynamic declarations.now.seeds hash p.0) declarations.now.pairs || list_any (λ e. may_be_dynamic declarations.now.seeds hash (entry_key e.now)) listed.now) }
    ensures { Fills index.old index.new []
        (λ hash. list_any (λ p. may_be_dynamic index.old.seeds hash p.0) declarations.now.pairs || list_any (λ e. may_be_dynamic index.old.seeds hash (entry_key e.now)) listed.now) false }
{
    if declarations.seeds() == index.seeds() {
        index.join(filter);
    } else {
        index.mark_all(declarations);
        index.mark_listed(listed);
    }
}

impl Module {
    /// Puts what is found in the module itself into an index, the last first.
    fn put_own(&self, alloc: Global, path: &Texts, index: &mut TreeIndex) -> Result<(), DeclFault>
        ensures fills { OnOk result (Fills index.old index.new (pairs_at path.now (shown self.now.own)) (λ hash. declares_dynamic index.old.seeds hash self.now.own) (declares_global self.now.own)) }
        ensures clash { IfErr result (IsClash index.old.seeds (keys_of (pairs_at path.now (shown self.now.own)) ++ keys_of index.old.pairs)) }
    {
        let listed = self.listed.firsts(alloc)?;
        mark_by(index, &self.eager, listed.as_slice(), &self.filter);
        index.put_listed(alloc, path, &self.eager, listed.as_slice())?;
        index.put_all(alloc, path, &self.eager)
    }

    /// Puts what is found in the module and below it into an index, the last first.
    fn index_into(
        &self,
        alloc: Global,
        path: &Texts,
        index: &mut TreeIndex,
    ) -> Result<(), DeclFault>
        ensures fills { OnOk result (Fills index.old index.new (walk path.now self.now) (λ hash. some_in (declares_dynamic index.old.seeds hash) self.now) (some_in declares_global self.now)) }
        ensures clash { IfErr result (IsClash index.old.seeds (keys_of (walk path.now self.now) ++ keys_of index.old.pairs)) }
    {
        for (name, child) in self.subs.iter() {
            let mut below = path.dup(alloc)?;
            below.push(name.dup(alloc)?)?;
            child.index_into(alloc, &below, index)?;
        }
        self.put_own(alloc, path, index)
    }

    /// The index of its tree.
    pub(crate) fn tree_index(&self, alloc: Global) -> Result<Rc<TreeIndex>, DeclFault>
        ensures index { IfOk result (λ index. IsIndexOf index.value self.now) }
        ensures clash { IfErr result (IsClash self.now.own.seeds (keys_of (tree self.now))) }
    {
        let mut index = TreeIndex::new(alloc, self.eager.seeds());
        let path = Texts::new(alloc);
        self.index_into(alloc, &path, &mut index)?;
        Ok(Rc::new(alloc, index)?)
    }
}
