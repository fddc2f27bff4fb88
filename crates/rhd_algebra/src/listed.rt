//! What manifests list, refused and registered.

ghost use Rattle.std.specs.Prelude.{◌≡◌, ◌∷◌, [], Bool, true, map, reverse, OnOk, IfOk, IfErr};
ghost use Rattle.std.specs.Fn.{FnReturnsAt};
ghost use Rattle.std.specs.List.{find};
ghost use Rattle.std.specs.Map.{keys_of};
ghost use Rattle.std.specs.Option.{option_copied};
ghost use Rattle.rhd_decl.specs.declared.declaration.Declaration.{Declaration as Decl};
ghost use Rattle.rhd_hash.specs.Table.{HasOwnHashes};
ghost use Rattle.rhd_manifest.specs.Entry.{entry_pair};
ghost use Rattle.rhd_manifest.specs.Listing.{listed_in};
ghost use Rattle.rhd_manifest.specs.Rank.{rank};
ghost use Rattle.rhd_module.specs.Algebra.{entries_over};
ghost use Rattle.rhd_table.specs.Tells.{Tells};
ghost use Rattle.rhd_table.specs.Indexed.{IsClash};
ghost use Rattle.rhd_module.specs.Manifests.{is_banned_entry, first_banned, RefusesIndexers, with_pairs, registered_pairs};
ghost use Rattle.rhd_table.specs.Pairs.{put_back};
ghost use Rattle.rhd_module.specs.Tree.{empty_module};

use rhd_decl::{DeclFault, Declaration};
use rhd_func::ManifestId;
use rhd_hash::{Seeds, SharedKey};
use rhd_manifest::{EntryList, FnManifestEntry, Manifests};
use rhd_module::{Module, is_banned, put_entry, register_declared};
use std::alloc::Global;
use std::rc::Rc;

/// Whether a listed function is an indexer of a type whose indexing has its meaning already.
fn is_banned_entry(entry: &FnManifestEntry) -> bool
    ensures { result ≡ is_banned_entry entry.now }
{
    is_banned(entry.name(), entry.param_types())
}

/// The first of some listed functions that is one.
fn find_banned(entries: &[FnManifestEntry]) -> Option<&FnManifestEntry>
    ensures { option_copied result ≡ find is_banned_entry entries.now }
{
    for entry in entries {
        if is_banned_entry(entry) {
            return Some(entry);
        }
    }
    None
}

/// The first of all that some manifests list, from the lowest precedence to the highest.
fn find_banned_in(parts: &[Rc<EntryList>]) -> Option<&FnManifestEntry>
    ensures { option_copied result ≡ first_banned (listed_in parts.now) }
{
    for part in parts {
        let found = find_banned(part.as_slice());
        if found.is_some() {
            return found;
        }
    }
    None
}

/// Refuses a manifest of which an indexer is banned, or one of a manifest below it.
pub(crate) fn refuse_indexers(
    alloc: Global,
    manifests: &Manifests,
    id: ManifestId,
) -> Result<(), DeclFault>
    ensures { RefusesIndexers (rank manifests.now id true) result }
{
    let listing = manifests.listing(alloc, id, true)?;
    match find_banned_in(listing.parts()) {
        None => Ok(()),
        Some(entry) => {
            let key = SharedKey::new(alloc, entry.key().dup(alloc)?, Seeds::default())?;
            Err(DeclFault::IndexerNotAllowed { key })
        }
    }
}

/// The same as a declaration of its own.
fn register_entry(
    target: &mut Module,
    alloc: Global,
    entry: &FnManifestEntry,
) -> Result<(), DeclFault>
    ensures ok { OnOk result (target.new ≡ with_pairs (put_back (entry_pair target.old.own.seeds entry.now ∷ []) target.old.own.eager) target.new.own.indexed target.old) }
    ensures clash { IfErr result (IsClash target.old.own.seeds (keys_of (put_back (entry_pair target.old.own.seeds entry.now ∷ []) target.old.own.eager))) }
{
    put_entry(target, alloc, entry)
}

/// The same of several, from the first to the last.
fn register_entries(
    target: &mut Module,
    alloc: Global,
    entries: &[FnManifestEntry],
) -> Result<(), DeclFault>
    ensures ok { OnOk result (target.new ≡ with_pairs (put_back (map (entry_pair target.old.own.seeds) (reverse entries.now)) target.old.own.eager) target.new.own.indexed target.old) }
    ensures clash { IfErr result (IsClash target.old.own.seeds (keys_of (put_back (map (entry_pair target.old.own.seeds) (reverse entries.now)) target.old.own.eager))) }
{
    for entry in entries {
        register_entry(target, alloc, entry)?;
    }
    Ok(())
}

/// The same of all that some manifests list, from the lowest precedence to the highest.
fn register_parts(
    target: &mut Module,
    alloc: Global,
    parts: &[Rc<EntryList>],
) -> Result<(), DeclFault>
    ensures ok { OnOk result (target.new ≡ with_pairs (put_back (map (entry_pair target.old.own.seeds) (listed_in parts.now)) target.old.own.eager) target.new.own.indexed target.old) }
    ensures clash { IfErr result (IsClash target.old.own.seeds (keys_of (put_back (map (entry_pair target.old.own.seeds) (listed_in parts.now)) target.old.own.eager))) }
{
    for part in parts {
        register_entries(target, alloc, part.as_slice())?;
    }
    Ok(())
}

/// Declares a listed function, as a declaration that passes, in the place of one of an equal key, else last.
fn register_entry_that<F: Fn(&Declaration) -> bool>(
    made: &mut Module,
    alloc: Global,
    entry: &FnManifestEntry,
    passes: &F,
) -> Result<(), DeclFault>
    requires { F.IsAlwaysCallable passes.now }
    ensures ok { (tells : Decl → Bool) → Tells (FnReturnsAt F.Fn passes.now) tells → OnOk result (made.new ≡ with_pairs (entries_over tells (entry.now ∷ []) made.old.own) made.new.own.indexed made.old) }
    ensures clash { (tells : Decl → Bool) → Tells (FnReturnsAt F.Fn passes.now) tells → IfErr result (IsClash made.old.own.seeds (keys_of (entries_over tells (entry.now ∷ []) made.old.own))) }
{
    let declaration = entry.declaration(alloc, made.seeds())?;
    if !passes(&declaration) {
        return Ok(());
    }
    put_entry(made, alloc, entry)
}

/// The same of several, from the first to the last.
fn register_entries_that<F: Fn(&Declaration) -> bool>(
    made: &mut Module,
    alloc: Global,
    entries: &[FnManifestEntry],
    passes: &F,
) -> Result<(), DeclFault>
    requires { F.IsAlwaysCallable passes.now }
    ensures ok { (tells : Decl → Bool) → Tells (FnReturnsAt F.Fn passes.now) tells → OnOk result (made.new ≡ with_pairs (entries_over tells (reverse entries.now) made.old.own) made.new.own.indexed made.old) }
    ensures clash { (tells : Decl → Bool) → Tells (FnReturnsAt F.Fn passes.now) tells → IfErr result (IsClash made.old.own.seeds (keys_of (entries_over tells (reverse entries.now) made.old.own))) }
{
    for entry in entries {
        register_entry_that(made, alloc, entry, passes)?;
    }
    Ok(())
}

/// The same of all that some manifests list, from the lowest precedence to the highest.
pub(crate) fn register_parts_that<F: Fn(&Declaration) -> bool>(
    made: &mut Module,
    alloc: Global,
    parts: &[Rc<EntryList>],
    passes: &F,
) -> Result<(), DeclFault>
    requires { F.IsAlwaysCallable passes.now }
    ensures ok { (tells : Decl → Bool) → Tells (FnReturnsAt F.Fn passes.now) tells → OnOk result (made.new ≡ with_pairs (entries_over tells (listed_in parts.now) made.old.own) made.new.own.indexed made.old) }
    ensures clash { (tells : Decl → Bool) → Tells (FnReturnsAt F.Fn passes.now) tells → IfErr result (IsClash made.old.own.seeds (keys_of (entries_over tells (listed_in parts.now) made.old.own))) }
{
    for part in parts {
        register_entries_that(made, alloc, part.as_slice(), passes)?;
    }
    Ok(())
}

/// A module in which what another one lists is declared, from the lowest precedence to the highest, and
/// over it what that one declares.
pub(crate) fn registered(alloc: Global, lists: &Module) -> Result<Module, DeclFault>
    ensures ok { IfOk result (λ m. m ≡ with_pairs (registered_pairs lists.now.own) m.own.indexed (empty_module lists.now.own.seeds)) }
    ensures apart { IfOk result (λ m. HasOwnHashes lists.now.own.seeds (keys_of (registered_pairs lists.now.own))) }
    ensures clash { IfErr result (IsClash lists.now.own.seeds (keys_of (registered_pairs lists.now.own))) }
{
    let mut target = Module::new(alloc, lists.seeds())?;
    register_parts(&mut target, alloc, lists.listed().parts())?;
    register_declared(&mut target, alloc, lists)?;
    let _apart = target.iter_fn();
    Ok(target)
}
