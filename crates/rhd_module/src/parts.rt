//! Parts of a module, for whoever joins modules: what it has, taken and put in whole.

ghost use Rattle.std.specs.Prelude.{◌≡◌, ◌||◌, ℕ, false};
ghost use Rattle.rhd_table.specs.Marks.{lists_dynamic};
ghost use Rattle.rhd_module.specs.Tree.{subs_of};

use crate::module::Module;
use rhd_decl::CustomTypesCollection;
use rhd_func::ManifestId;
use rhd_manifest::Listing;
use rhd_table::mark_parts;
use rhd_value::{Entries, Text};
use std::collections::BTreeMap;
use std::rc::Rc;

/// Manifests, each with whether it is flattened, and what they list.
#[derive(Drop)]
pub struct Lists {
    pub manifests: Vec<(ManifestId, bool)>,
    pub listed: Listing,
}

impl Module {
    /// Its variables.
    pub fn vars(&self) -> &Entries
        ensures { result.now ≡ self.now.own.vars }
    {
        &self.vars
    }

    /// Its custom types.
    pub fn types(&self) -> &CustomTypesCollection
        ensures { result.now ≡ self.now.own.types }
    {
        &self.types
    }

    /// What its manifests list.
    pub fn listed(&self) -> &Listing
        ensures { result.now ≡ self.now.own.listed }
    {
        &self.listed
    }

    /// Takes other variables and custom types in the place of its own.
    pub fn set_contents(&mut self, vars: Entries, types: CustomTypesCollection)
        ensures { self.new ≡ record self.old { own = record self.old.own { vars = vars; types = types } } }
    {
        self.vars = vars;
        self.types = types;
    }

    /// Takes other sub-modules in the place of its own. The module isn't indexed any more.
    pub fn set_sub_modules(&mut self, subs: BTreeMap<Text, Rc<Module>>)
        ensures { self.new ≡ record { own = record self.old.own { indexed = false }; subs = subs_of subs.entries } }
    {
        self.flags.set_indexed(false);
        self.subs = subs;
    }

    /// The module isn't indexed any more.
    pub fn forget_index(&mut self)
        ensures { self.new ≡ record self.old { own = record self.old.own { indexed = false } } }
    {
        self.flags.set_indexed(false);
    }

    /// Lists what it lists itself and what another module lists, in whatever order, and has this
    /// documentation. The module isn't indexed any more.
    pub fn take_lists(&mut self, other: &Module, lists: Lists, doc: Text)
        requires listed { (v : ℕ) → lists_dynamic self.old.own.seeds v lists.listed ≡ (lists_dynamic self.old.own.seeds v self.old.own.listed || lists_dynamic self.old.own.seeds v other.now.own.listed) }
        ensures { self.new ≡ record self.old { own = record self.old.own { doc = doc; manifests = lists.manifests.items; listed = lists.listed; indexed = false } } }
    {
        mark_parts(&mut self.filter, self.eager.seeds(), other.listed.parts());
        self.doc = doc;
        self.manifests = lists.manifests;
        self.listed = lists.listed;
        self.flags.set_indexed(false);
    }
}
