//! Manifests put into modules with their variables and custom types.

ghost use Rattle.std.specs.Prelude.{◌≡◌, OnOk, IfOk, IfErr};
ghost use Rattle.std.specs.List.{Contains};
ghost use Rattle.std.specs.Map.{keys_of};
ghost use Rattle.rhd_func.specs.declared.access.ManifestId.{ManifestId as Number};
ghost use Rattle.rhd_manifest.specs.Rank.{all_vars, all_types, walk};
ghost use Rattle.rhd_module.specs.Index.{indexed};
ghost use Rattle.rhd_table.specs.Indexed.{NoneClash, IsClash};
ghost use Rattle.rhd_manifest.specs.Manifest.{manifest_at, AreLower};
ghost use Rattle.rhd_module.specs.Made.{own_made, made, IsMadeApart, MadeClash, Makes};
ghost use Rattle.rhd_module.specs.Manifests.{put_vars, put_types, combined, AddsManifest};
ghost use Rattle.rhd_module.specs.Walk.{tree};

use rhd_decl::{CustomTypesCollection, DeclFault};
use rhd_func::ManifestId;
use rhd_hash::Seeds;
use rhd_manifest::Manifests;
use rhd_module::Module;
use rhd_value::{Dynamic, Entries, OutOfMemory, Text};
use std::alloc::Global;
use std::rc::Rc;

/// Puts variables in, one after the other.
pub(crate) fn put_vars(
    alloc: Global,
    vars: &mut Entries,
    more: &[(Text, Dynamic)],
) -> Result<(), OutOfMemory>
    ensures { OnOk result (vars.new ≡ put_vars more.now vars.old) }
{
    for (name, value) in more {
        vars.insert(name.dup(alloc)?, value.dup(alloc)?)?;
    }
    Ok(())
}

/// Puts custom types in, one after the other.
pub(crate) fn put_types(
    alloc: Global,
    types: &mut CustomTypesCollection,
    more: &[(Text, Text)],
) -> Result<(), OutOfMemory>
    ensures { OnOk result (types.new ≡ put_types more.now types.old) }
{
    for (type_name, display) in more {
        types.add(alloc, type_name.dup(alloc)?, display.dup(alloc)?)?;
    }
    Ok(())
}

/// Puts the variables and custom types of a manifest in, and then those of each sub-manifest in order,
/// with all below it.
pub(crate) fn put_contents(
    alloc: Global,
    manifests: &Manifests,
    id: ManifestId,
    vars: &mut Entries,
    types: &mut CustomTypesCollection,
) -> Result<(), OutOfMemory>
    ensures vars { OnOk result (vars.new ≡ put_vars (all_vars manifests.now id) vars.old) }
    ensures types { OnOk result (types.new ≡ put_types (all_types manifests.now id) types.old) }
{
    let Some(manifest) = manifests.get(id) else {
        return Ok(());
    };
    put_vars(alloc, vars, manifest.vars())?;
    put_types(alloc, types, manifest.custom_types())?;
    for sub in manifest.sub_modules() {
        put_contents(alloc, manifests, sub.1, vars, types)?;
    }
    Ok(())
}

/// A module that lists a manifest, unflattened, and has its variables and custom types.
fn own_module(
    alloc: Global,
    manifests: &Manifests,
    seeds: Seeds,
    id: ManifestId,
) -> Result<Module, OutOfMemory>
    ensures { IfOk result (λ m. m ≡ own_made seeds manifests.now id) }
{
    let mut vars = Entries::new(alloc);
    let mut types = CustomTypesCollection::new(alloc);
    if let Some(manifest) = manifests.get(id) {
        put_vars(alloc, &mut vars, manifest.vars())?;
        put_types(alloc, &mut types, manifest.custom_types())?;
    }
    let mut made = Module::new(alloc, seeds)?;
    made.put_listing((id, false), manifests.listing(alloc, id, false)?)?;
    made.set_contents(vars, types);
    Ok(made)
}

/// The sub-manifests of a manifest with their names; of a number that isn't held, none.
fn subs_of(manifests: &Manifests, id: ManifestId) -> &[(Text, ManifestId)]
    ensures subs { result.now ≡ (manifest_at manifests.now id).subs }
    ensures lower { AreLower manifests.now }
{
    match manifests.get(id) {
        Some(manifest) => manifest.sub_modules(),
        None => &[],
    }
}

/// Indexes a module, and hands it on.
fn indexed(alloc: Global, made: Module) -> Result<Module, DeclFault>
    ensures ok { IfOk result (λ m. m ≡ indexed made) }
    ensures apart { IfOk result (λ m. NoneClash made.own.seeds (keys_of (tree made))) }
    ensures clash { IfErr result (IsClash made.own.seeds (keys_of (tree made))) }
{
    let mut made = made;
    match made.build_index(alloc) {
        Ok(()) => Ok(made),
        Err(fault) => Err(fault),
    }
}

/// The module of a manifest, in which no indexer is banned.
pub(crate) fn module_of(
    alloc: Global,
    manifests: &Manifests,
    seeds: Seeds,
    id: ManifestId,
) -> Result<Module, DeclFault>
    ensures ok { IfOk result (λ m. m ≡ made seeds manifests.now id) }
    ensures apart { IfOk result (λ m. (i : Number) → Contains (walk manifests.now id) i → IsMadeApart seeds manifests.now i) }
    ensures clash { IfErr result (MadeClash seeds manifests.now (walk manifests.now id)) }
{
    let mut made = own_module(alloc, manifests, seeds, id)?;
    for (name, sub) in subs_of(manifests, id) {
        let child = module_of(alloc, manifests, seeds, *sub)?;
        made.set_sub_module(alloc, name.dup(alloc)?, Rc::new(alloc, child)?)?;
    }
    indexed(alloc, made)
}
