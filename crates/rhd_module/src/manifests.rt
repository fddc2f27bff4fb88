//! What manifests list, in modules.

ghost use Rattle.std.specs.Prelude.{◌≡◌, OnOk, OnErr};
ghost use Rattle.rhd_module.specs.Below.{lists_any, some_in};
ghost use Rattle.rhd_module.specs.Manifests.{with_listed};

use crate::module::Module;
use rhd_func::ManifestId;
use rhd_manifest::Listing;
use rhd_table::mark_parts;
use rhd_value::OutOfMemory;

impl Module {
    /// Puts what a manifest lists above what the module lists.
    pub fn put_listing(
        &mut self,
        manifest: (ManifestId, bool),
        listing: Listing,
    ) -> Result<(), OutOfMemory>
        ensures ok { OnOk result (self.new ≡ with_listed manifest listing self.old) }
        ensures err { OnErr result (self.new ≡ self.old) }
    {
        let mut filter = self.filter.clone()?;
        mark_parts(&mut filter, self.seeds(), listing.parts());
        self.manifests.push(manifest)?;
        match self.listed.raise(listing) {
            Ok(()) => {
                self.filter = filter;
                self.flags.set_indexed(false);
                Ok(())
            }
            Err(OutOfMemory) => {
                self.manifests.pop();
                Err(OutOfMemory)
            }
        }
    }

    /// Whether something is listed in the module or below it.
    pub fn has_lazy_functions(&self) -> bool
        ensures { result ≡ some_in lists_any self.now }
    {
        if !self.listed.is_empty() {
            return true;
        }
        for (_, child) in self.subs.iter() {
            if child.has_lazy_functions() {
                return true;
            }
        }
        false
    }
}
