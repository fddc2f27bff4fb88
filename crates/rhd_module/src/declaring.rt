//! Functions of other modules and of manifests, declared once more: none of them has a key with a path.

ghost use Rattle.std.specs.Prelude.{◌≡◌, ◌∷◌, ◌++◌, [], Bool, None, OnOk, OnErr, IfErr};
ghost use Rattle.std.specs.Fn.{FnReturnsAt};
ghost use Rattle.std.specs.Map.{keys_of};
ghost use Rattle.rhd_decl.specs.declared.declaration.Declaration.{Declaration as Decl};
ghost use Rattle.rhd_manifest.specs.Entry.{entry_decl, entry_key, entry_pair};
ghost use Rattle.rhd_module.specs.Algebra.{declared_over};
ghost use Rattle.rhd_table.specs.Tells.{Tells};
ghost use Rattle.rhd_table.specs.Indexed.{IsClash};
ghost use Rattle.rhd_table.specs.Pairs.{Pairs, put_all, put_back, put};
ghost use Rattle.rhd_module.specs.Manifests.{with_pairs};
ghost use Rattle.rhd_module.specs.Registered.{Puts};

use crate::module::Module;
use rhd_decl::{DeclFault, Declaration};
use rhd_hash::SharedKey;
use rhd_manifest::FnManifestEntry;
use std::alloc::Global;

/// Declares a listed function, as this declaration of it, in the place of one of an equal key, else last.
fn put_listed(
    target: &mut Module,
    alloc: Global,
    entry: &FnManifestEntry,
    declaration: Declaration,
) -> Result<(), DeclFault>
    requires { declaration ≡ entry_decl target.old.own.seeds entry.now }
    ensures puts { Puts None (entry_key entry.now) declaration target.old result target.new }
    ensures ok { OnOk result (target.new ≡ with_pairs (put_back (entry_pair target.old.own.seeds entry.now ∷ []) target.old.own.eager) target.new.own.indexed target.old) }
    ensures clash { IfErr result (IsClash target.old.own.seeds (keys_of (put_back (entry_pair target.old.own.seeds entry.now ∷ []) target.old.own.eager))) }
{
    let hash = declaration.metadata().hash;
    let key = SharedKey::known(alloc, entry.key().dup(alloc)?, target.seeds(), hash)?;
    target.put_fn(alloc, key, declaration)
}

/// Declares a listed function, in the place of one of an equal key, else last.
pub fn put_entry(
    target: &mut Module,
    alloc: Global,
    entry: &FnManifestEntry,
) -> Result<(), DeclFault>
    ensures puts { Puts None (entry_key entry.now) (entry_decl target.old.own.seeds entry.now) target.old result target.new }
    ensures ok { OnOk result (target.new ≡ with_pairs (put_back (entry_pair target.old.own.seeds entry.now ∷ []) target.old.own.eager) target.new.own.indexed target.old) }
    ensures clash { IfErr result (IsClash target.old.own.seeds (keys_of (put_back (entry_pair target.old.own.seeds entry.now ∷ []) target.old.own.eager))) }
{
    let declaration = entry.declaration(alloc, target.seeds())?;
    put_listed(target, alloc, entry, declaration)
}

/// Declares a function once more, in the place of one of an equal key, else last.
fn register_pair(
    target: &mut Module,
    alloc: Global,
    key: &SharedKey,
    declaration: &Declaration,
) -> Result<(), DeclFault>
    ensures ok { OnOk result (target.new ≡ with_pairs (put key.now declaration.now target.old.own.eager) target.new.own.indexed target.old) }
    ensures clash { IfErr result (IsClash target.old.own.seeds (keys_of (put key.now declaration.now target.old.own.eager))) }
    ensures err { OnErr result (target.new ≡ target.old) }
{
    let declaration = declaration.dup(alloc)?;
    target.put_fn(alloc, key.dup(alloc)?, declaration)
}

/// Declares what another module declares once more, each in the place of one of an equal key, else last.
/// Where one is refused, those before it stay declared.
pub fn register_declared(
    target: &mut Module,
    alloc: Global,
    declared: &Module,
) -> Result<(), DeclFault>
    ensures ok { OnOk result (target.new ≡ with_pairs (put_all declared.now.own.eager target.old.own.eager) target.new.own.indexed target.old) }
    ensures clash { IfErr result (IsClash target.old.own.seeds (keys_of (put_all declared.now.own.eager target.old.own.eager))) }
    ensures front { OnErr result ((front : Pairs) × (later : Pairs) × (declared.now.own.eager ≡ front ++ later) × (target.new ≡ with_pairs (put_all front target.old.own.eager) target.new.own.indexed target.old)) }
{
    for (key, declaration) in declared.iter_fn() {
        register_pair(target, alloc, key, declaration)?;
    }
    Ok(())
}

/// Declares a function once more, if it passes, in the place of one of an equal key, else last.
fn register_pair_that<F: Fn(&Declaration) -> bool>(
    made: &mut Module,
    alloc: Global,
    key: &SharedKey,
    declaration: &Declaration,
    passes: &F,
) -> Result<(), DeclFault>
    requires { F.IsAlwaysCallable passes.now }
    ensures ok { (tells : Decl → Bool) → Tells (FnReturnsAt F.Fn passes.now) tells → OnOk result (made.new ≡ with_pairs (declared_over tells ((key.now, declaration.now) ∷ []) made.old.own) made.new.own.indexed made.old) }
    ensures clash { (tells : Decl → Bool) → Tells (FnReturnsAt F.Fn passes.now) tells → IfErr result (IsClash made.old.own.seeds (keys_of (declared_over tells ((key.now, declaration.now) ∷ []) made.old.own))) }
    ensures others { OnOk result ((made.new.own.seeds ≡ made.old.own.seeds) × (made.new.own.listed ≡ made.old.own.listed)) }
    ensures err { OnErr result (made.new ≡ made.old) }
{
    if !passes(declaration) {
        return Ok(());
    }
    register_pair(made, alloc, key, declaration)
}

/// Declares what passes of what another module declares once more, each in the place of one of an equal
/// key, else last. Where one is refused, those before it stay declared.
pub fn register_declared_that<F: Fn(&Declaration) -> bool>(
    made: &mut Module,
    alloc: Global,
    other: &Module,
    passes: &F,
) -> Result<(), DeclFault>
    requires { F.IsAlwaysCallable passes.now }
    ensures ok { (tells : Decl → Bool) → Tells (FnReturnsAt F.Fn passes.now) tells → OnOk result (made.new ≡ with_pairs (declared_over tells other.now.own.eager made.old.own) made.new.own.indexed made.old) }
    ensures clash { (tells : Decl → Bool) → Tells (FnReturnsAt F.Fn passes.now) tells → IfErr result (IsClash made.old.own.seeds (keys_of (declared_over tells other.now.own.eager made.old.own))) }
    ensures others { OnOk result ((made.new.own.seeds ≡ made.old.own.seeds) × (made.new.own.listed ≡ made.old.own.listed)) }
    ensures front { OnErr result ((front : Pairs) × (later : Pairs) × (other.now.own.eager ≡ front ++ later)
        × ((tells : Decl → Bool) → Tells (FnReturnsAt F.Fn passes.now) tells → made.new ≡ with_pairs (declared_over tells front made.old.own) made.new.own.indexed made.old)) }
{
    for (key, declaration) in other.iter_fn() {
        register_pair_that(made, alloc, key, declaration, passes)?;
    }
    Ok(())
}
