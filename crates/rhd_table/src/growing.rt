//! Many declarations put in at once: a refusal leaves all as it was, and what was there isn't copied.

ghost use Rattle.std.specs.Prelude.{◌≡◌, ◌≤◌, ◌++◌, Bool, true, take, length, is_some, is_none, None, OnOk, OnErr, IfOk, IfErr};
ghost use Rattle.std.specs.List.{AllByRecursion, filter};
ghost use Rattle.std.specs.Map.{keys_of, lookup};
ghost use Rattle.std.specs.Fn.{FnReturnsAt};
ghost use Rattle.rhd_hash.specs.declared.key.Key.{Key as TheKey};
ghost use Rattle.rhd_hash.specs.Keys.{key_eq};
ghost use Rattle.rhd_table.specs.Indexed.{IsClash};
ghost use Rattle.rhd_table.specs.NativeIndex.{IsIndex};
ghost use Rattle.rhd_table.specs.Pairs.{Pairs, put, put_all};
ghost use Rattle.rhd_table.specs.Tells.{Tells};

use crate::declarations::{Declarations, note_place, put_pair};
use crate::native_index::NativeIndex;
use rhd_decl::{DeclFault, Declaration};
use rhd_hash::{KeyTable, SharedKey};
use rhd_value::OutOfMemory;
use std::alloc::Global;

/// Takes the places of natives between two places out of their index again.
fn forget_places(natives: &mut NativeIndex, table: &KeyTable<Declaration>, from: usize, to: usize)
    requires order { from ≤ to }
    requires within { to ≤ length table.now.pairs }
    requires index { IsIndex natives.old table.now.seeds (take to table.now.pairs) }
    ensures { IsIndex natives.new table.now.seeds (take from table.now.pairs) }
{
    let mut place = to;
    while place > from {
        place -= 1;
        if let Some((key, _declaration)) = table.get_index(place) {
            if let Some(hash) = key.dynamic_hash(table.seeds()) {
                natives.unnote(hash);
            }
        }
    }
}

/// Notes the places of natives from a place on. Where memory runs out, none of these is noted.
fn note_places(
    natives: &mut NativeIndex,
    alloc: Global,
    table: &KeyTable<Declaration>,
    from: usize,
) -> Result<(), OutOfMemory>
    requires within { from ≤ length table.now.pairs }
    requires index { IsIndex natives.old table.now.seeds (take from table.now.pairs) }
    ensures ok { OnOk result (IsIndex natives.new table.now.seeds table.now.pairs) }
    ensures err { OnErr result (IsIndex natives.new table.now.seeds (take from table.now.pairs)) }
{
    for place in from..table.len() {
        if let Err(OutOfMemory) = note_place(natives, alloc, table, place) {
            forget_places(natives, table, from, place);
            return Err(OutOfMemory);
        }
    }
    Ok(())
}

/// A copy of a declaration, under the same key.
fn copy_of(
    alloc: Global,
    key: &SharedKey,
    declaration: &Declaration,
) -> Result<(SharedKey, Declaration), OutOfMemory>
    ensures { IfOk result (λ copy. copy ≡ (key.now, declaration.now)) }
{
    Ok((key.dup(alloc)?, declaration.dup(alloc)?))
}

/// Copies of the declarations whose keys pass a test.
pub fn copies_that<F: Fn(&SharedKey) -> bool>(
    alloc: Global,
    of: &Declarations,
    passes: &F,
) -> Result<Vec<(SharedKey, Declaration)>, OutOfMemory>
    requires { F.IsAlwaysCallable passes.now }
    ensures { (tells : TheKey → Bool) → Tells (FnReturnsAt F.Fn passes.now) tells → IfOk result (λ copies. copies.items ≡ filter (λ p. tells p.0) of.now.pairs) }
{
    let mut copies = Vec::new(alloc);
    for (key, declaration) in of.iter() {
        if passes(key) {
            copies.push(copy_of(alloc, key, declaration)?)?;
        }
    }
    Ok(copies)
}

/// Copies of declarations.
#[derive(Drop)]
pub struct Copies {
    /// Those under whose keys others have one too.
    pub there: Vec<(SharedKey, Declaration)>,
    pub new: Vec<(SharedKey, Declaration)>,
}

/// Copies of declarations, apart by whether others have one under an equal key.
pub fn split_copies(
    alloc: Global,
    of: &Declarations,
    others: &Declarations,
) -> Result<Copies, OutOfMemory>
    ensures there { IfOk result (λ copies. copies.there.items ≡ filter (λ p. is_some (lookup (key_eq p.0) others.now.pairs)) of.now.pairs) }
    ensures new { IfOk result (λ copies. copies.new.items ≡ filter (λ p. is_none (lookup (key_eq p.0) others.now.pairs)) of.now.pairs) }
{
    let mut there = Vec::new(alloc);
    let mut new = Vec::new(alloc);
    for (key, declaration) in of.iter() {
        let is_there = others.get_hashed(&key.hashed()).is_some();
        let copy = copy_of(alloc, key, declaration)?;
        if is_there {
            there.push(copy)?;
        } else {
            new.push(copy)?;
        }
    }
    Ok(Copies { there, new })
}

/// Puts declarations under keys that aren't there. Where one is refused, what was there stands in front.
fn insert_all(
    table: &mut KeyTable<Declaration>,
    pairs: Vec<(SharedKey, Declaration)>,
) -> Result<(), DeclFault>
    requires new { AllByRecursion (λ p. lookup (key_eq p.0) table.old.pairs ≡ None) pairs.items }
    ensures ok { OnOk result (table.new ≡ record table.old { pairs = put_all pairs.items table.old.pairs }) }
    ensures front { (more : Pairs) × (table.new ≡ record table.old { pairs = table.old.pairs ++ more }) }
    ensures clash { IfErr result (IsClash table.old.seeds (keys_of (put_all pairs.items table.old.pairs))) }
{
    for (key, declaration) in pairs {
        put_pair(table, key, declaration)?;
    }
    Ok(())
}

/// Puts a declaration in the place of that of an equal key, which is there.
fn replace(table: &mut KeyTable<Declaration>, key: SharedKey, declaration: Declaration)
    requires there { is_some (lookup (key_eq key) table.old.pairs) ≡ true }
    ensures { table.new ≡ record table.old { pairs = put key declaration table.old.pairs } }
{
    let _done = put_pair(table, key, declaration);
}

/// Puts declarations in the place of those of equal keys.
fn replace_all(table: &mut KeyTable<Declaration>, pairs: Vec<(SharedKey, Declaration)>)
    requires there { AllByRecursion (λ p. is_some (lookup (key_eq p.0) table.old.pairs) ≡ true) pairs.items }
    ensures { table.new ≡ record table.old { pairs = put_all pairs.items table.old.pairs } }
{
    for (key, declaration) in pairs {
        replace(table, key, declaration);
    }
}

/// Puts declarations into a table, in which there is room for them, and its index. A refusal changes
/// nothing.
fn grow_in(
    table: &mut KeyTable<Declaration>,
    natives: &mut NativeIndex,
    alloc: Global,
    there: Vec<(SharedKey, Declaration)>,
    new: Vec<(SharedKey, Declaration)>,
) -> Result<(), DeclFault>
    requires there { AllByRecursion (λ p. is_some (lookup (key_eq p.0) table.old.pairs) ≡ true) there.items }
    requires new { AllByRecursion (λ p. lookup (key_eq p.0) table.old.pairs ≡ None) new.items }
    requires index { IsIndex natives.old table.old.seeds table.old.pairs }
    ensures ok { OnOk result (table.new ≡ record table.old { pairs = put_all there.items (put_all new.items table.old.pairs) }) }
    ensures noted { OnOk result (IsIndex natives.new table.new.seeds table.new.pairs) }
    ensures clash { IfErr result (IsClash table.old.seeds (keys_of (put_all new.items table.old.pairs))) }
    ensures err { OnErr result (table.new ≡ table.old) }
    ensures still { OnErr result (IsIndex natives.new table.old.seeds table.old.pairs) }
{
    let len = table.len();
    match insert_all(table, new) {
        Ok(()) => {}
        Err(fault) => {
            table.truncate(len);
            return Err(fault);
        }
    }
    match note_places(natives, alloc, table, len) {
        Ok(()) => {
            replace_all(table, there);
            Ok(())
        }
        Err(OutOfMemory) => {
            table.truncate(len);
            Err(DeclFault::OutOfMemory)
        }
    }
}

/// Puts declarations into a table and its index: some in the place of those of equal keys, and others
/// under keys that aren't there. A refusal changes nothing.
pub(crate) fn grow(
    table: &mut KeyTable<Declaration>,
    natives: &mut NativeIndex,
    alloc: Global,
    there: Vec<(SharedKey, Declaration)>,
    new: Vec<(SharedKey, Declaration)>,
) -> Result<(), DeclFault>
    requires there { AllByRecursion (λ p. is_some (lookup (key_eq p.0) table.old.pairs) ≡ true) there.items }
    requires new { AllByRecursion (λ p. lookup (key_eq p.0) table.old.pairs ≡ None) new.items }
    requires index { IsIndex natives.old table.old.seeds table.old.pairs }
    ensures ok { OnOk result (table.new ≡ record table.old { pairs = put_all there.items (put_all new.items table.old.pairs) }) }
    ensures noted { OnOk result (IsIndex natives.new table.new.seeds table.new.pairs) }
    ensures clash { IfErr result (IsClash table.old.seeds (keys_of (put_all new.items table.old.pairs))) }
    ensures err { OnErr result (table.new ≡ table.old) }
    ensures still { OnErr result (IsIndex natives.new table.old.seeds table.old.pairs) }
{
    table.reserve(new.len())?;
    grow_in(table, natives, alloc, there, new)
}
