//! A search for a script by its name and number of parameters.

ghost use Rattle.std.specs.Prelude.{◌≡◌, None, if◌then◌else◌};
ghost use Rattle.std.specs.Option.{option_copied};
ghost use Rattle.rhd_hash.specs.declared.key.Key.TheVariants.{Script};
ghost use Rattle.rhd_hash.specs.Keys.{key_eq};
ghost use Rattle.rhd_value.specs.Firsts.{first_of};
ghost use Rattle.rhd_func.specs.Funcs.{script_def_of};
ghost use Rattle.rhd_table.specs.Found.{is_typed_of};

use rhd_decl::Declaration;
use rhd_func::SharedDef;
use rhd_hash::{Key, KeyTable};
use rhd_value::Text;

/// Whether it is the key of an untyped script of this name and number of parameters, without a path.
fn is_untyped(key: &Key, name: &Text, params: u64) -> bool
    ensures { result ≡ key_eq (Script None name.now params) key.now }
{
    match key {
        Key::Script {
            path: None,
            name: own,
            params: count,
        } => *name == *own && params == *count,
        _ => false,
    }
}

/// Whether it is the key of a typed script of this name and number of parameters.
fn is_typed(key: &Key, name: &Text, params: u64) -> bool
    ensures { result ≡ is_typed_of name.now params key.now }
{
    match key {
        Key::Typed {
            name: own,
            params: count,
            ..
        } => *own == *name && *count == params,
        _ => false,
    }
}

/// The first untyped script of this name and number of parameters.
pub(crate) fn untyped_script<'a>(
    table: &'a KeyTable<Declaration>,
    name: &Text,
    params: u64,
) -> Option<&'a SharedDef>
    ensures { option_copied result ≡ first_of (λ p. if key_eq (Script None name.now params) p.0 then script_def_of p.1.func else None) table.now.pairs }
{
    for (key, declaration) in table.iter() {
        if is_untyped(key.key(), name, params) {
            if let Some(def) = declaration.func.get_script_fn_def() {
                return Some(def);
            }
        }
    }
    None
}

/// The first typed script of this name and number of parameters.
pub(crate) fn typed_script<'a>(
    table: &'a KeyTable<Declaration>,
    name: &Text,
    params: u64,
) -> Option<&'a SharedDef>
    ensures { option_copied result ≡ first_of (λ p. if is_typed_of name.now params p.0 then script_def_of p.1.func else None) table.now.pairs }
{
    for (key, declaration) in table.iter() {
        if is_typed(key.key(), name, params) {
            if let Some(def) = declaration.func.get_script_fn_def() {
                return Some(def);
            }
        }
    }
    None
}
