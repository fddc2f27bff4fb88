//! Look-ups of natives by their types.

ghost use Rattle.std.specs.Prelude.{◌≡◌, ◌≤◌, ◌+◌, ℕ, false, true, List, Option, None, length};
ghost use Rattle.std.specs.Option.{option_map};
ghost use Rattle.rhd_value.specs.declared.tag.TypeTag.{TypeTag};
ghost use Rattle.rhd_hash.specs.declared.key.Key.{Key};
ghost use Rattle.rhd_hash.specs.Keys.{key_name, key_params, key_types};
ghost use Rattle.rhd_hash.specs.Matching.{types_match};
ghost use Rattle.rhd_call.specs.declared.pick.Pick.{Pick};
ghost use Rattle.rhd_hash.specs.Untyped.{IsUntyped};
ghost use Rattle.rhd_dispatch.specs.Walks.{found_in, with_types, picked, any_dynamic, any_may_show, ShowsNone};

use crate::filters::{any_import_may_have, any_static_may_have};
use crate::search::{AllModules, Found, find};
use rhd_hash::{Key, Steps, UntypedHash};
use rhd_layers::{ModuleList, SharedModule};

/// A look-up of keys, and a test that saves look-ups. It takes no memory.
pub(crate) trait Look: Copy {
    /// A function that was found.
    type Found: Copy;

    /// The pick that it is.
    ghost pick: { Self.Found → Pick };

    /// What there is under a key.
    ghost look: { Self → Key → Option Pick };

    /// In how many modules it looks.
    ghost modules: { Self → ℕ };

    /// What there is under this key. Each module is asked once at most.
    fn find(self, key: &Key, steps: &mut Steps) -> Option<Self::Found>
        ensures found { option_map pick result ≡ look self key.now }
        ensures steps { steps.new ≤ steps.old + modules self };

    /// False only where there is nothing under this key with any other types of which one is `Dynamic`, and
    /// each of which is that of the key, or, behind the first `place` ones, `Dynamic`.
    fn may_match(self, hash: UntypedHash, place: usize, key: &Key) -> bool
        requires { IsUntyped hash key.now }
        ensures { result ≡ false → (types : List TypeTag) → types_match place types (key_types key.now) ≡ true → any_dynamic types ≡ true → look self (with_types types key.now) ≡ None };
}

/// Whether some module declares a native of a key's name for its types that has a type `Dynamic`, where those
/// before a place are exact, or may list one that has.
fn any_may_show(modules: &[SharedModule], hash: UntypedHash, place: usize, key: &Key) -> bool
    requires { IsUntyped hash key.now }
    ensures { result ≡ any_may_show place (key_name key.now) (key_params key.now) (key_types key.now) modules.now }
{
    for shared in modules {
        let module = shared.module();
        if module.may_match(place, key.name(), key.types()) {
            return true;
        }
        if module.may_list_dynamic_fn(hash.under(key, module.seeds())) {
            return true;
        }
    }
    false
}

/// The same, where one of them may have a native that has a type `Dynamic`, by their filter.
#[inline(always)]
fn any_may_match(modules: &ModuleList, hash: UntypedHash, place: usize, key: &Key) -> bool
    requires hash { IsUntyped hash key.now }
    requires count { length (key_types key.now) ≡ key_params key.now }
    ensures { result ≡ false → ShowsNone place key.now modules.now }
{
    if !modules.may_have_dynamic(hash, key) {
        return false;
    }
    any_may_show(modules.as_slice(), hash, place, key)
}

impl<'a> Look for AllModules<'a> {
    type Found = Found<'a>;

    ghost pick = { λ f. picked f.layer f.func.now f.place.now };

    ghost look = { λ s key. found_in s.state.now.lib s.globals.now s.state.now.imports s.statics.now key };

    ghost modules = { λ s. length s.state.now.lib + length s.globals.now + length s.state.now.imports + length s.statics.now };

    #[inline(always)]
    fn find(self, key: &Key, steps: &mut Steps) -> Option<Found<'a>> {
        find(self, key, steps)
    }

    #[inline(always)]
    fn may_match(self, hash: UntypedHash, place: usize, key: &Key) -> bool {
        let Some(_name) = key.native_name() else {
            return true;
        };
        if any_may_match(self.globals, hash, place, key) {
            return true;
        }
        if any_may_match(&self.state.lib, hash, place, key) {
            return true;
        }
        if any_import_may_have(&self.state.imports, hash, key) {
            return true;
        }
        any_static_may_have(self.statics, hash, key)
    }
}
