//! The keys of natives.

ghost use Rattle.std.specs.Prelude.{◌≡◌, IfOk};
ghost use Rattle.rhd_value.specs.Kinds.{map_type};
ghost use Rattle.rhd_decl.specs.NativeKeys.{mapped_types, native_key};

use rhd_hash::Key;
use rhd_value::{OutOfMemory, Text, TypeTag, Types, map_type};
use std::alloc::Global;

/// The types of a native as keys have them. The first type of a method stays.
#[inline(always)]
pub fn mapped_types(alloc: Global, types: &[TypeTag], is_method: bool) -> Result<Types, OutOfMemory>
    ensures { IfOk result (λ mapped. mapped ≡ mapped_types is_method types.now) }
{
    let mut mapped = Types::new(alloc);
    let [first, others @ ..] = types else {
        return Ok(mapped);
    };
    mapped.push(map_type(!is_method, *first))?;
    for tag in others {
        mapped.push(map_type(true, *tag))?;
    }
    Ok(mapped)
}

/// The key of a native of these types under a name. The first type of a method stays.
pub fn native_key(
    alloc: Global,
    name: &Text,
    is_method: bool,
    types: &[TypeTag],
) -> Result<Key, OutOfMemory>
    ensures { IfOk result (λ key. key ≡ native_key is_method name.now types.now) }
{
    Ok(Key::Native {
        path: None,
        name: name.dup(alloc)?,
        types: mapped_types(alloc, types, is_method)?,
    })
}
