//! The filters of imports and static modules.

ghost use Rattle.std.specs.Prelude.{◌≡◌, false, true};
ghost use Rattle.rhd_hash.specs.Keys.{key_name, key_params};
ghost use Rattle.rhd_hash.specs.Untyped.{IsUntyped};
ghost use Rattle.rhd_layers.specs.Lists.{all_indexed};
ghost use Rattle.rhd_dispatch.specs.Walks.{may_have, any_may_have};

use rhd_engine::ModuleMap;
use rhd_hash::{Key, UntypedHash};
use rhd_layers::{ImportList, SharedModule};
use rhd_module::Module;
use rhd_value::Text;

/// Whether the tree of a module may have a native of a key's name with as many parameters, one of which is
/// `Dynamic`, by its filter.
pub(crate) fn tree_may_have(place: &Module, hash: UntypedHash, key: &Key) -> bool
    requires { IsUntyped hash key.now }
    ensures { result ≡ may_have (key_name key.now) (key_params key.now) place.now }
{
    place.may_contain_dynamic_fn(hash.under(key, place.seeds()))
}

/// The same of some of these modules.
fn any_tree_may_have(modules: &[(Text, SharedModule)], hash: UntypedHash, key: &Key) -> bool
    requires { IsUntyped hash key.now }
    ensures { result ≡ any_may_have (key_name key.now) (key_params key.now) modules.now }
{
    for (_name, shared) in modules {
        if tree_may_have(shared.module(), hash, key) {
            return true;
        }
    }
    false
}

/// The same of some import, by the filter of all and then by that of each.
#[inline(always)]
pub(crate) fn any_import_may_have(imports: &ImportList, hash: UntypedHash, key: &Key) -> bool
    requires { IsUntyped hash key.now }
    ensures none { result ≡ false → any_may_have (key_name key.now) (key_params key.now) imports.now ≡ false }
    ensures indexed { all_indexed imports.now ≡ true }
{
    if !imports.may_have_dynamic(hash, key) {
        return false;
    }
    any_tree_may_have(imports.as_slice(), hash, key)
}

/// The same of some static module.
pub(crate) fn any_static_may_have(statics: &ModuleMap, hash: UntypedHash, key: &Key) -> bool
    requires { IsUntyped hash key.now }
    ensures none { result ≡ false → any_may_have (key_name key.now) (key_params key.now) statics.now ≡ false }
    ensures indexed { all_indexed statics.now ≡ true }
{
    if !statics.may_have_dynamic(hash, key) {
        return false;
    }
    for (_name, shared) in statics.iter() {
        if tree_may_have(shared.module(), hash, key) {
            return true;
        }
    }
    false
}
