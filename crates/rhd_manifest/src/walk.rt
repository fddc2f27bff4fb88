//! The entries of a manifest in their order.

ghost use Rattle.std.specs.Prelude.{◌≡◌, reverse};
ghost use Rattle.std.specs.Fn.{CalledAt, FnReturnsAt};
ghost use Rattle.std.specs.List.{FoldsTo};
ghost use Rattle.std.specs.Option.{option_copied};
ghost use Rattle.rhd_manifest.specs.Meets.{IsFirstThatMeets};
ghost use Rattle.rhd_manifest.specs.Rank.{flattened, rank_of};

use crate::entry::FnManifestEntry;
use crate::entry_list::{find_last_that, for_each};
use crate::manifest::ModuleManifest;
use crate::manifests::Manifests;
use rhd_func::ManifestId;

/// Calls a function on each entry of a manifest and of those below it, from the lowest precedence to
/// the highest.
fn for_each_flattened<F: FnMut(&FnManifestEntry)>(manifests: &Manifests, id: ManifestId, f: &mut F)
    requires { F.IsAlwaysCallable f.old }
    ensures called { FoldsTo (λ p e q. CalledAt F.FnMut p e tt q) f.old (reverse (flattened manifests.now id)) f.new }
    ensures callable { F.IsAlwaysCallable f.new }
{
    let Some(manifest) = manifests.get(id) else {
        return;
    };
    for_each(manifest.functions(), f);
    for sub in manifest.sub_modules() {
        for_each_flattened(manifests, sub.1, f);
    }
}

/// The entry of highest precedence that a test passes, of a manifest and of those below it.
fn find_flattened<'m, F: Fn(&FnManifestEntry) -> bool>(
    manifests: &'m Manifests,
    id: ManifestId,
    f: &F,
) -> Option<&'m FnManifestEntry>
    requires { F.IsAlwaysCallable f.now }
    ensures { IsFirstThatMeets (λ e r. FnReturnsAt F.Fn f.now e r) (flattened manifests.now id) (option_copied result) }
{
    let Some(manifest) = manifests.get(id) else {
        return None;
    };
    for sub in manifest.sub_modules().iter().rev() {
        let found = find_flattened(manifests, sub.1, f);
        if found.is_some() {
            return found;
        }
    }
    find_last_that(manifest.functions(), f)
}

impl ModuleManifest {
    /// Calls a function on each entry, from the lowest precedence to the highest: its own in order and
    /// then, where it is to be flattened, those of its sub-manifests in order, each flattened.
    pub fn for_each_fn<F: FnMut(&FnManifestEntry)>(
        &self,
        manifests: &Manifests,
        flatten: bool,
        f: &mut F,
    )
        requires { F.IsAlwaysCallable f.old }
        ensures called { FoldsTo (λ p e q. CalledAt F.FnMut p e tt q) f.old (reverse (rank_of manifests.now self.now flatten)) f.new }
        ensures callable { F.IsAlwaysCallable f.new }
    {
        for_each(self.functions(), f);
        if !flatten {
            return;
        }
        for sub in self.sub_modules() {
            for_each_flattened(manifests, sub.1, f);
        }
    }

    /// The entry of highest precedence that a test passes: where it is to be flattened, an entry of a
    /// sub-manifest goes before one of its own, and one of a later sub-manifest before one of an earlier;
    /// a later entry goes before an earlier.
    pub fn find_fn<'m, F: Fn(&FnManifestEntry) -> bool>(
        &'m self,
        manifests: &'m Manifests,
        flatten: bool,
        f: F,
    ) -> Option<&'m FnManifestEntry>
        requires { F.IsAlwaysCallable f }
        ensures { IsFirstThatMeets (λ e r. FnReturnsAt F.Fn f e r) (rank_of manifests.now self.now flatten) (option_copied result) }
    {
        if !flatten {
            return find_last_that(self.functions(), &f);
        }
        for sub in self.sub_modules().iter().rev() {
            let found = find_flattened(manifests, sub.1, &f);
            if found.is_some() {
                return found;
            }
        }
        find_last_that(self.functions(), &f)
    }
}
