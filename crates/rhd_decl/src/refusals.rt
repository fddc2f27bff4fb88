//! Why natives and other functions aren't registered, whatever a module has.

ghost use Rattle.std.specs.Prelude.{◌≡◌, ◌||◌, ◌∷◌, [], Some, length};
ghost use Rattle.rhd_func.specs.Infos.{infos_of};
ghost use Rattle.rhd_value.specs.Firsts.{first_some, where_holds};
ghost use Rattle.rhd_func.specs.Funcs.{is_iter, is_script, native_of};
ghost use Rattle.rhd_decl.specs.declared.fault.DeclFault.TheVariants.{NotCallable, UnknownNumber};
ghost use Rattle.rhd_decl.specs.Registration.{Refuses, unheld, banned, pair_cause, native_at};

use crate::fault::DeclFault;
use crate::native_keys::native_key;
use crate::registration::is_banned;
use rhd_func::{Natives, PluginFunc, RhaiFunc};
use rhd_hash::{Seeds, SharedKey};
use rhd_value::{FnId, Text};
use std::alloc::Global;

/// The refusal of a native's number that isn't held.
pub fn unknown(natives: &Natives, id: FnId) -> DeclFault
    ensures { result ≡ UnknownNumber id.0 (length natives.now.items.items) }
{
    DeclFault::UnknownNumber {
        number: u64::from(id.0),
        length: natives.len() as u64,
    }
}

/// Why the native of a number isn't found; none where it is held.
pub fn unheld(natives: &Natives, id: FnId) -> Option<DeclFault>
    ensures { result ≡ unheld (infos_of info natives.now) (Some id) }
{
    if (id.0 as usize) < natives.len() {
        None
    } else {
        Some(unknown(natives, id))
    }
}

/// Why a function isn't registered raw, whatever its types and its name.
pub fn raw_refusal(natives: &Natives, func: &RhaiFunc) -> Option<DeclFault>
    ensures { result ≡ first_some (unheld (infos_of info natives.now) (native_of func.now) ∷ where_holds (is_iter func.now || is_script func.now) NotCallable ∷ []) }
{
    if let Some(id) = func.native_id() {
        return unheld(natives, id);
    }
    Some(DeclFault::NotCallable)
}

/// Refuses a native that would be an indexer of a type whose indexing has its meaning already.
pub fn refuse_banned(
    alloc: Global,
    native: &Box<dyn PluginFunc>,
    name: &Text,
) -> Result<(), DeclFault>
    ensures { Refuses (banned (info native.now).is_method name.now (info native.now).types) result }
{
    let types = native.param_types();
    if is_banned(name, types) {
        let key = native_key(alloc, name, native.is_method_call(), types)?;
        let key = SharedKey::new(alloc, key, Seeds::default())?;
        return Err(DeclFault::IndexerNotAllowed { key });
    }
    Ok(())
}

/// The same of the native of a number; none is refused where it isn't held.
pub fn refuse_indexer(
    alloc: Global,
    natives: &Natives,
    name: &Text,
    id: FnId,
) -> Result<(), DeclFault>
    ensures { Refuses (banned (native_at (infos_of info natives.now) id).is_method name.now (native_at (infos_of info natives.now) id).types) result }
{
    match natives.get(id) {
        Some(native) => refuse_banned(alloc, native, name),
        None => Ok(()),
    }
}

/// Refuses two natives as the halves of a pair, whatever the module has.
pub fn refuse_pair(
    alloc: Global,
    natives: &Natives,
    get_name: &Text,
    get: FnId,
    set_name: &Text,
    set: FnId,
) -> Result<(), DeclFault>
    ensures { Refuses (pair_cause (infos_of info natives.now) get_name.now get set_name.now set) result }
{
    if let Some(fault) = unheld(natives, get) {
        return Err(fault);
    }
    if let Some(fault) = unheld(natives, set) {
        return Err(fault);
    }
    refuse_indexer(alloc, natives, get_name, get)?;
    refuse_indexer(alloc, natives, set_name, set)
}
