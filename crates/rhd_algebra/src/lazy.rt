//! What is listed in a module and below it.

ghost use Rattle.std.specs.Prelude.{◌≡◌, ◌⊎◌, true, IfOk, IfErr, OnOk};
ghost use Rattle.std.specs.List.{AllByRecursion};
ghost use Rattle.std.specs.Map.{keys_of};
ghost use Rattle.std.specs.BTreeMap.{insert_entry};
ghost use Rattle.std.specs.Cmp.Lexicographic.{slice_cmp};
ghost use Rattle.std.specs.Ordering.{nat_cmp};
ghost use Rattle.rhd_module.specs.Below.{lists_any, some_in};
ghost use Rattle.rhd_module.specs.Index.{indexed};
ghost use Rattle.rhd_table.specs.Indexed.{NoneClash, IsClash};
ghost use Rattle.rhd_module.specs.Lazy.{with_registered, registered_subs, touched, touched_below, HasApartTable, HasApartTree, RegisterClash, RegistersTree};
ghost use Rattle.rhd_module.specs.Manifests.{registered_pairs, with_pairs};
ghost use Rattle.rhd_module.specs.Tree.{empty_module, subs_of};
ghost use Rattle.rhd_module.specs.Walk.{tree};

use crate::listed::registered;
use rhd_decl::DeclFault;
use rhd_module::Module;
use rhd_value::{OutOfMemory, Text};
use std::alloc::Global;
use std::collections::BTreeMap;
use std::rc::Rc;

/// Puts a sub-module into a map.
fn put_child(
    alloc: Global,
    after: &mut BTreeMap<Text, Rc<Module>>,
    name: &Text,
    child: Rc<Module>,
) -> Result<(), OutOfMemory>
    ensures { OnOk result (after.new.entries ≡ insert_entry (slice_cmp nat_cmp) after.old.entries name.now child) }
{
    after.insert(name.dup(alloc)?, child)?;
    Ok(())
}

/// A module in which what it lists is registered, with other sub-modules; it is indexed.
fn renewed(
    alloc: Global,
    child: &Module,
    below: BTreeMap<Text, Rc<Module>>,
) -> Result<Rc<Module>, DeclFault>
    ensures ok { IfOk result (λ r. r.value ≡ indexed (with_registered child.now (subs_of below.entries))) }
    ensures table { IfOk result (λ _. HasApartTable child.now) }
    ensures tree { IfOk result (λ _. NoneClash child.now.own.seeds (keys_of (tree (with_registered child.now (subs_of below.entries))))) }
    ensures clash { IfErr result (λ fault. IsClash child.now.own.seeds (keys_of (registered_pairs child.now.own)) fault
        ⊎ IsClash child.now.own.seeds (keys_of (tree (with_registered child.now (subs_of below.entries)))) fault) }
{
    let fns = registered(alloc, child)?;
    let mut made = child.dup_with(alloc, fns, below)?;
    made.build_index(alloc)?;
    Ok(Rc::new(alloc, made)?)
}

/// The sub-modules of a module after what is listed in their trees is registered. Those in whose tree
/// nothing is listed are shared.
fn registered_subs(alloc: Global, of: &Module) -> Result<BTreeMap<Text, Rc<Module>>, DeclFault>
    ensures ok { IfOk result (λ m. subs_of m.entries ≡ registered_subs of.now.subs) }
    ensures tables { IfOk result (λ _. AllByRecursion HasApartTable (touched_below of.now.subs)) }
    ensures trees { IfOk result (λ _. AllByRecursion HasApartTree (touched_below of.now.subs)) }
    ensures clash { IfErr result (RegisterClash (touched_below of.now.subs) (touched_below of.now.subs)) }
{
    let mut after = BTreeMap::new(alloc);
    for (name, child) in of.iter_sub_modules().rev() {
        if !child.has_lazy_functions() {
            put_child(alloc, &mut after, name, Rc::clone(child)?)?;
            continue;
        }
        let below = registered_subs(alloc, child)?;
        let made = renewed(alloc, child, below)?;
        put_child(alloc, &mut after, name, made)?;
    }
    Ok(after)
}

/// What registering leaves of a module in whose tree something is listed: its declarations, in a module of
/// their own, and its sub-modules.
pub(crate) fn registered_parts(
    alloc: Global,
    of: &Module,
) -> Result<(Module, BTreeMap<Text, Rc<Module>>), DeclFault>
    requires { some_in lists_any of.now ≡ true }
    ensures fns { IfOk result (λ parts. parts.0 ≡ with_pairs (registered_pairs of.now.own) parts.0.own.indexed (empty_module of.now.own.seeds)) }
    ensures subs { IfOk result (λ parts. subs_of parts.1.entries ≡ registered_subs of.now.subs) }
    ensures tables { IfOk result (λ _. AllByRecursion HasApartTable (touched of.now)) }
    ensures trees { IfOk result (λ _. AllByRecursion HasApartTree (touched_below of.now.subs)) }
    ensures clash { IfErr result (RegisterClash (touched of.now) (touched_below of.now.subs)) }
{
    let fns = registered(alloc, of)?;
    let subs = registered_subs(alloc, of)?;
    Ok((fns, subs))
}
