//! What of one module is put into another where they are joined.

ghost use Rattle.std.specs.Prelude.{◌≡◌, ◌∷◌, ◌++◌, ◌&&◌, [], Bool, IfOk, IfErr, OnOk, OnErr};
ghost use Rattle.std.specs.Fn.{FnReturnsAt};
ghost use Rattle.std.specs.List.{AllByRecursion};
ghost use Rattle.std.specs.Map.{keys_of};
ghost use Rattle.rhd_decl.specs.declared.declaration.Declaration.{Declaration as Decl};
ghost use Rattle.rhd_module.specs.Algebra.{joined_doc, over, combined_with, new_vars, new_subs, that_pass, registered_over, flattened_with, merged_own};
ghost use Rattle.rhd_module.specs.Algebra.{merged_with, merged_all, HasOwnTable, SomeClash, IsJoined, Joins, Combines, Fills, Merges};
ghost use Rattle.rhd_table.specs.Tells.{Tells};
ghost use Rattle.rhd_manifest.specs.Listing.{is_none_of};
ghost use Rattle.rhd_module.specs.Contents.{with_doc, has_no_subs};
ghost use Rattle.rhd_table.specs.Indexed.{IsClash};
ghost use Rattle.rhd_table.specs.Pairs.{put_all};
ghost use Rattle.rhd_module.specs.Manifests.{with_contents, with_pairs};
ghost use Rattle.rhd_module.specs.Tree.{empty_module, subs_of};

use crate::listed::register_parts_that;
use rhd_decl::{DeclFault, Declaration};
use rhd_hash::Seeds;
use rhd_module::{Lists, Module, Named, register_declared, register_declared_that};
use rhd_value::{Dynamic, OutOfMemory, Text};
use std::alloc::Global;
use std::rc::Rc;

/// Documentation with more, after a line break where there is some already.
pub(crate) fn joined_doc(alloc: Global, own: &Text, more: &Text) -> Result<Text, OutOfMemory>
    ensures { IfOk result (λ doc. doc ≡ joined_doc own.now more.now) }
{
    if own.len() == 0 {
        return more.dup(alloc);
    }
    let mut doc = own.dup(alloc)?;
    doc.push("\n")?;
    doc.push(more.as_str())?;
    Ok(doc)
}

/// Puts the variables of another module in.
fn put_vars(made: &mut Module, alloc: Global, other: &Module) -> Result<(), OutOfMemory>
    ensures { OnOk result (made.new ≡ with_contents other.now.own.vars [] made.old) }
{
    for (name, value) in other.iter_var() {
        made.set_var(alloc, name.dup(alloc)?, value.dup(alloc)?)?;
    }
    Ok(())
}

/// Copies of the variables of a module.
fn vars_of(alloc: Global, of: &Module) -> Result<Vec<(Text, Dynamic)>, OutOfMemory>
    ensures { IfOk result (λ vars. vars.items ≡ of.now.own.vars) }
{
    let mut vars = Vec::new(alloc);
    for (name, value) in of.iter_var() {
        vars.push((name.dup(alloc)?, value.dup(alloc)?))?;
    }
    Ok(vars)
}

/// The sub-modules of a module, which are shared.
fn sub_modules_of(alloc: Global, of: &Module) -> Result<Vec<(Text, Rc<Module>)>, OutOfMemory>
    ensures { IfOk result (λ subs. subs_of subs.items ≡ of.now.subs) }
{
    let mut subs = Vec::new(alloc);
    for (name, child) in of.iter_sub_modules() {
        subs.push((name.dup(alloc)?, Rc::clone(child)?))?;
    }
    Ok(subs)
}

/// Copies of the variables of another module in whose names a module has none of its own.
fn new_vars(
    alloc: Global,
    own: &Module,
    other: &Module,
) -> Result<Vec<(Text, Dynamic)>, OutOfMemory>
    ensures { IfOk result (λ vars. vars.items ≡ new_vars own.now.own.vars other.now.own.vars) }
{
    let mut vars = Vec::new(alloc);
    for (name, value) in other.iter_var() {
        if !own.contains_var(name) {
            vars.push((name.dup(alloc)?, value.dup(alloc)?))?;
        }
    }
    Ok(vars)
}

/// The sub-modules of another module in whose names a module has none of its own, which are shared.
fn new_sub_modules(
    alloc: Global,
    own: &Module,
    other: &Module,
) -> Result<Vec<(Text, Rc<Module>)>, OutOfMemory>
    ensures { IfOk result (λ subs. subs_of subs.items ≡ new_subs own.now.subs other.now.subs) }
{
    let mut subs = Vec::new(alloc);
    for (name, child) in other.iter_sub_modules() {
        if !own.contains_sub_module(name) {
            subs.push((name.dup(alloc)?, Rc::clone(child)?))?;
        }
    }
    Ok(subs)
}

/// The variables and sub-modules of a module.
fn named_of(alloc: Global, of: &Module) -> Result<Named, OutOfMemory>
    ensures { IfOk result (λ named. (named.vars.items ≡ of.now.own.vars) × (subs_of named.subs.items ≡ of.now.subs)) }
{
    Ok(Named {
        vars: vars_of(alloc, of)?,
        subs: sub_modules_of(alloc, of)?,
    })
}

/// Those of another module in whose names a module has none of its own.
fn new_named(alloc: Global, own: &Module, other: &Module) -> Result<Named, OutOfMemory>
    ensures { IfOk result (λ named. (named.vars.items ≡ new_vars own.now.own.vars other.now.own.vars) × (subs_of named.subs.items ≡ new_subs own.now.subs other.now.subs)) }
{
    Ok(Named {
        vars: new_vars(alloc, own, other)?,
        subs: new_sub_modules(alloc, own, other)?,
    })
}

/// Those of one module above those of another.
fn lists_over(alloc: Global, upper: &Module, lower: &Module) -> Result<Lists, OutOfMemory>
    ensures { IfOk result (λ lists. (lists.manifests.items ≡ lower.now.own.manifests ++ upper.now.own.manifests) × (lists.listed ≡ upper.now.own.listed ++ lower.now.own.listed)) }
{
    let mut listed = lower.listed().dup(alloc)?;
    listed.raise(upper.listed().dup(alloc)?)?;
    let mut manifests = Vec::from_slice(alloc, lower.iter_manifests())?;
    manifests.extend_from_slice(upper.iter_manifests())?;
    Ok(Lists { manifests, listed })
}

/// Registers what another module lists and declares, as far as it passes.
fn register_over<F: Fn(&Declaration) -> bool>(
    made: &mut Module,
    alloc: Global,
    other: &Module,
    passes: &F,
) -> Result<(), DeclFault>
    requires { F.IsAlwaysCallable passes.now }
    ensures ok { (tells : Decl → Bool) → Tells (FnReturnsAt F.Fn passes.now) tells → OnOk result (made.new ≡ with_pairs (registered_over tells other.now.own made.old.own) made.new.own.indexed made.old) }
    ensures clash { (tells : Decl → Bool) → Tells (FnReturnsAt F.Fn passes.now) tells → IfErr result (IsClash made.old.own.seeds (keys_of (registered_over tells other.now.own made.old.own))) }
{
    register_parts_that(made, alloc, other.listed().parts(), passes)?;
    register_declared_that(made, alloc, other, passes)
}

/// Puts more behind the documentation.
fn join_doc(made: &mut Module, alloc: Global, other: &Module) -> Result<(), OutOfMemory>
    ensures { OnOk result (made.new ≡ record made.old { own = record made.old.own { doc = joined_doc made.old.own.doc other.now.own.doc } }) }
{
    let doc = joined_doc(alloc, made.doc(), other.doc())?;
    made.set_doc(doc);
    Ok(())
}

/// Puts another module over a module in its place, which has this documentation then.
pub(crate) fn join_over(
    target: &mut Module,
    alloc: Global,
    other: &Module,
    doc: Text,
) -> Result<(), DeclFault>
    ensures { Joins (with_doc doc (combined_with other.now target.old) ∷ []) (with_doc doc (combined_with other.now target.old)) target.old result target.new }
{
    let named = named_of(alloc, other)?;
    let lists = lists_over(alloc, other, target)?;
    target.put_declared(alloc, other, named)?;
    target.take_lists(other, lists, doc);
    Ok(())
}

/// Fills a module in its place with what is new of another one.
pub(crate) fn join_below(
    target: &mut Module,
    alloc: Global,
    other: &Module,
) -> Result<(), DeclFault>
    ensures { Fills other.now target.old result target.new }
{
    let doc = joined_doc(alloc, target.doc(), other.doc())?;
    let named = new_named(alloc, target, other)?;
    let lists = lists_over(alloc, target, other)?;
    target.put_unshown(alloc, other, named)?;
    target.take_lists(other, lists, doc);
    Ok(())
}

/// Puts another module over a module in its place; its documentation goes behind.
pub(crate) fn combined(target: &mut Module, alloc: Global, other: &Module) -> Result<(), DeclFault>
    ensures { Combines other.now target.old result target.new }
{
    let doc = joined_doc(alloc, target.doc(), other.doc())?;
    join_over(target, alloc, other, doc)
}

/// Whether a module has no sub-modules, so that flattening it has nothing to gather.
pub(crate) fn has_no_sub_modules(of: &Module) -> bool
    ensures { result ≡ has_no_subs of.now.subs }
{
    of.iter_sub_modules().len() == 0
}

/// Whether a module has no sub-modules, no manifests and no listed functions, so that merging all of it
/// has nothing to gather.
pub(crate) fn only_declares(of: &Module) -> bool
    ensures { result ≡ (has_no_subs of.now.subs && (is_none_of of.now.own.manifests && is_none_of of.now.own.listed)) }
{
    let no_subs = has_no_sub_modules(of);
    let no_manifests = of.iter_manifests().len() == 0;
    let none_listed = of.listed().is_empty();
    no_subs & (no_manifests & none_listed)
}

/// Puts what another module has over what a module has, but for its declarations and sub-modules.
fn put_contents(made: &mut Module, alloc: Global, other: &Module) -> Result<(), OutOfMemory>
    ensures { OnOk result (made.new ≡ record made.old { own = record (over other.now.own made.old.own) { eager = made.old.own.eager } }) }
{
    put_vars(made, alloc, other)?;
    let doc = joined_doc(alloc, made.doc(), other.doc())?;
    let lists = lists_over(alloc, other, made)?;
    made.take_lists(other, lists, doc);
    Ok(())
}

/// Puts what another module has over what a module has, but for its sub-modules.
fn put_over(made: &mut Module, alloc: Global, other: &Module) -> Result<(), DeclFault>
    ensures ok { OnOk result (made.new ≡ record made.old { own = over other.now.own made.old.own }) }
    ensures clash { IfErr result (IsClash made.old.own.seeds (keys_of (put_all other.now.own.eager made.old.own.eager))) }
{
    register_declared(made, alloc, other)?;
    put_contents(made, alloc, other)?;
    Ok(())
}

/// Puts what stands in the tree of another module over what a module has, from the deepest up.
fn flatten(made: &mut Module, alloc: Global, other: &Module) -> Result<(), DeclFault>
    ensures ok { OnOk result (made.new ≡ flattened_with other.now made.old) }
    ensures table { OnOk result (HasOwnTable (flattened_with other.now made.old)) }
    ensures clash { IfErr result (IsClash made.old.own.seeds (keys_of (flattened_with other.now made.old).own.eager)) }
{
    for (_, child) in other.iter_sub_modules() {
        flatten(made, alloc, child)?;
    }
    put_over(made, alloc, other)?;
    let _apart = made.iter_fn();
    Ok(())
}

/// A module of this documentation, over which what stands in the tree of another module is put.
pub(crate) fn flattened(
    alloc: Global,
    seeds: Seeds,
    doc: &Text,
    other: &Module,
) -> Result<Module, DeclFault>
    ensures ok { IfOk result (λ made. made ≡ flattened_with other.now (with_doc doc.now (empty_module seeds))) }
    ensures clash { IfErr result (IsClash seeds (keys_of (flattened_with other.now (with_doc doc.now (empty_module seeds))).own.eager)) }
{
    let mut made = Module::new(alloc, seeds)?;
    made.set_doc(doc.dup(alloc)?);
    flatten(&mut made, alloc, other)?;
    Ok(made)
}

/// Merges what passes of another module's own lists.
fn merge_own<F: Fn(&Declaration) -> bool>(
    made: &mut Module,
    alloc: Global,
    other: &Module,
    passes: &F,
) -> Result<(), DeclFault>
    requires { F.IsAlwaysCallable passes.now }
    ensures ok { (tells : Decl → Bool) → Tells (FnReturnsAt F.Fn passes.now) tells → OnOk result (made.new ≡ record made.old { own = record (merged_own tells other.now.own made.old.own) { indexed = made.new.own.indexed } }) }
    ensures table { OnOk result (HasOwnTable made.new) }
    ensures clash { (tells : Decl → Bool) → Tells (FnReturnsAt F.Fn passes.now) tells → IfErr result (IsClash made.old.own.seeds (keys_of (registered_over tells other.now.own made.old.own))) }
{
    register_over(made, alloc, other, passes)?;
    put_vars(made, alloc, other)?;
    join_doc(made, alloc, other)?;
    let _apart = made.iter_fn();
    Ok(())
}

/// Merges what passes of another module, and of its sub-modules into new ones.
fn merge<F: Fn(&Declaration) -> bool>(
    made: &mut Module,
    alloc: Global,
    other: &Module,
    passes: &F,
) -> Result<(), DeclFault>
    requires { F.IsAlwaysCallable passes.now }
    ensures ok { (tells : Decl → Bool) → Tells (FnReturnsAt F.Fn passes.now) tells → OnOk result (made.new ≡ merged_with tells other.now made.old) }
    ensures tables { (tells : Decl → Bool) → Tells (FnReturnsAt F.Fn passes.now) tells → OnOk result (AllByRecursion HasOwnTable (merged_all tells other.now made.old)) }
    ensures clash { (tells : Decl → Bool) → Tells (FnReturnsAt F.Fn passes.now) tells → IfErr result (SomeClash (merged_all tells other.now made.old)) }
{
    merge_own(made, alloc, other, passes)?;
    for (name, child) in other.iter_sub_modules() {
        let mut rebuilt = Module::new(alloc, made.seeds())?;
        merge(&mut rebuilt, alloc, child, passes)?;
        made.set_sub_module(alloc, name.dup(alloc)?, Rc::new(alloc, rebuilt)?)?;
    }
    made.forget_index();
    Ok(())
}

/// A copy into which what passes of another module is merged.
pub(crate) fn merged<F: Fn(&Declaration) -> bool>(
    alloc: Global,
    of: &Module,
    other: &Module,
    passes: &F,
) -> Result<Module, DeclFault>
    requires { F.IsAlwaysCallable passes.now }
    ensures { (tells : Decl → Bool) → Tells (FnReturnsAt F.Fn passes.now) tells → IsJoined (merged_all tells other.now of.now) (merged_with tells other.now of.now) result }
{
    let mut made = of.dup(alloc)?;
    merge(&mut made, alloc, other, passes)?;
    Ok(made)
}

/// Merges what passes of another module into one in its place; a refusal changes nothing.
pub(crate) fn merge_that<F: Fn(&Declaration) -> bool>(
    target: &mut Module,
    alloc: Global,
    other: &Module,
    passes: &F,
) -> Result<(), DeclFault>
    requires { F.IsAlwaysCallable passes.now }
    ensures joins { (tells : Decl → Bool) → Tells (FnReturnsAt F.Fn passes.now) tells → Merges tells other.now target.old result target.new }
    ensures err { OnErr result (target.new ≡ target.old) }
{
    let mut made = Module::new(alloc, target.seeds())?;
    merge(&mut made, alloc, other, passes)?;
    combined(target, alloc, &made)
}

/// A module in which what passes of the declarations of another one is declared.
pub(crate) fn retained<F: Fn(&Declaration) -> bool>(
    alloc: Global,
    of: &Module,
    passes: &F,
) -> Result<Module, DeclFault>
    requires { F.IsAlwaysCallable passes.now }
    ensures kept { (tells : Decl → Bool) → Tells (FnReturnsAt F.Fn passes.now) tells → IfOk result (λ m. m ≡ with_pairs (that_pass tells of.now.own.eager) m.own.indexed (empty_module of.now.own.seeds)) }
    ensures others { IfOk result (λ m. (m.own.seeds ≡ of.now.own.seeds) × (m.own.listed ≡ [])) }
{
    let mut target = Module::new(alloc, of.seeds())?;
    register_declared_that(&mut target, alloc, of, passes)?;
    let _apart = of.iter_fn();
    Ok(target)
}
