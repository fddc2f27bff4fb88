//! What is put into a module in its place: a refusal leaves all as it was, and what was there isn't copied.

ghost use Rattle.std.specs.Prelude.{◌≡◌, false, true, reverse, is_some, None, List, OnOk, OnErr, IfOk, IfErr};
ghost use Rattle.std.specs.List.{AllByRecursion};
ghost use Rattle.std.specs.Map.{keys_of, lookup};
ghost use Rattle.rhd_hash.specs.Keys.{key_eq};
ghost use Rattle.rhd_hash.specs.Table.{HasOwnHashes};
ghost use Rattle.rhd_map.specs.Puts.{IsPut};
ghost use Rattle.rhd_value.specs.Tree.{Bytes, Tree};
ghost use Rattle.rhd_table.specs.Indexed.{IsClash};
ghost use Rattle.rhd_table.specs.Pairs.{put_all, without};
ghost use Rattle.rhd_module.specs.Algebra.{with_named, put_subs};
ghost use Rattle.rhd_module.specs.Manifests.{put_vars, with_pairs};
ghost use Rattle.rhd_module.specs.Shown.{shown};
ghost use Rattle.rhd_module.specs.Tree.{subs_of};

use crate::module::Module;
use rhd_decl::{DeclFault, Declaration};
use rhd_hash::SharedKey;
use rhd_map::{put_all, take_back};
use rhd_table::{Copies, copies_that, mark_pairs, split_copies};
use rhd_value::{Dynamic, Entries, OutOfMemory, Text};
use std::alloc::Global;
use std::collections::BTreeMap;
use std::mem;
use std::rc::Rc;

/// Variables and sub-modules to be put into a module.
#[derive(Drop)]
pub struct Named {
    pub vars: Vec<(Text, Dynamic)>,
    pub subs: Vec<(Text, Rc<Module>)>,
}

/// What stood under their names before.
#[derive(Drop)]
struct Replaced {
    vars: Vec<(Text, Option<Dynamic>)>,
    subs: Vec<(Text, Option<Rc<Module>>)>,
}

/// Puts variables in. Answers what stood under their names.
fn put_vars(
    alloc: Global,
    vars: &mut Entries,
    more: Vec<(Text, Dynamic)>,
) -> Result<Vec<(Text, Option<Dynamic>)>, OutOfMemory>
    ensures put { OnOk result (vars.new ≡ put_vars more.items vars.old) }
    ensures replaced { IfOk result (λ replaced. IsPut (reverse replaced.items) vars.old vars.new) }
    ensures err { OnErr result (vars.new ≡ vars.old) }
{
    let mut map = mem::replace(vars, Entries::new(alloc)).into_map();
    let put = put_all(alloc, &mut map, more);
    *vars = Entries::from_map(map);
    put
}

/// Takes variables back.
fn take_vars_back(alloc: Global, vars: &mut Entries, replaced: Vec<(Text, Option<Dynamic>)>)
    ensures { (before : List (Bytes × Tree)) → IsPut (reverse replaced.items) before vars.old → vars.new ≡ before }
{
    let mut map = mem::replace(vars, Entries::new(alloc)).into_map();
    take_back(&mut map, replaced);
    *vars = Entries::from_map(map);
}

/// Puts variables and sub-modules in. Where memory runs out, none of them is there.
fn put_named(
    alloc: Global,
    vars: &mut Entries,
    subs: &mut BTreeMap<Text, Rc<Module>>,
    named: Named,
) -> Result<Replaced, OutOfMemory>
    ensures vars { OnOk result (vars.new ≡ put_vars named.vars.items vars.old) }
    ensures subs { OnOk result (subs_of subs.new.entries ≡ put_subs (subs_of named.subs.items) (subs_of subs.old.entries)) }
    ensures vars_replaced { IfOk result (λ replaced. IsPut (reverse replaced.vars.items) vars.old vars.new) }
    ensures subs_replaced { IfOk result (λ replaced. IsPut (reverse replaced.subs.items) subs.old.entries subs.new.entries) }
    ensures vars_err { OnErr result (vars.new ≡ vars.old) }
    ensures subs_err { OnErr result (subs.new.entries ≡ subs.old.entries) }
{
    let replaced = put_vars(alloc, vars, named.vars)?;
    match put_all(alloc, subs, named.subs) {
        Ok(subs) => Ok(Replaced {
            vars: replaced,
            subs,
        }),
        Err(OutOfMemory) => {
            take_vars_back(alloc, vars, replaced);
            Err(OutOfMemory)
        }
    }
}

impl Module {
    /// Puts declarations in, some in the place of those of equal keys, and others under keys that aren't
    /// there, with variables and sub-modules. The module isn't indexed any more. A refusal changes nothing.
    fn put_copies(
        &mut self,
        alloc: Global,
        there: Vec<(SharedKey, Declaration)>,
        new: Vec<(SharedKey, Declaration)>,
        named: Named,
    ) -> Result<(), DeclFault>
        requires there { AllByRecursion (λ p. is_some (lookup (key_eq p.0) self.old.own.eager) ≡ true) there.items }
        requires new { AllByRecursion (λ p. lookup (key_eq p.0) self.old.own.eager ≡ None) new.items }
        ensures ok { OnOk result (self.new ≡ with_named named.vars.items (subs_of named.subs.items) (with_pairs (put_all there.items (put_all new.items self.old.own.eager)) false self.old)) }
        ensures table { OnOk result (HasOwnHashes self.old.own.seeds (keys_of (put_all there.items (put_all new.items self.old.own.eager)))) }
        ensures clash { IfErr result (IsClash self.old.own.seeds (keys_of (put_all new.items self.old.own.eager))) }
        ensures err { OnErr result (self.new ≡ self.old) }
    {
        let mut filter = self.filter.clone()?;
        mark_pairs(&mut filter, self.eager.seeds(), new.as_slice());
        let Replaced { vars, subs } = put_named(alloc, &mut self.vars, &mut self.subs, named)?;
        match self.eager.grow(alloc, there, new) {
            Ok(()) => {
                self.filter = filter;
                self.flags.set_indexed(false);
                let _apart = self.eager.iter();
                Ok(())
            }
            Err(fault) => {
                take_vars_back(alloc, &mut self.vars, vars);
                take_back(&mut self.subs, subs);
                Err(fault)
            }
        }
    }

    /// Puts what another module declares in the place of what has an equal key, else last, and variables and
    /// sub-modules. The module isn't indexed any more. A refusal changes nothing.
    pub fn put_declared(
        &mut self,
        alloc: Global,
        other: &Module,
        named: Named,
    ) -> Result<(), DeclFault>
        ensures ok { OnOk result (self.new ≡ with_named named.vars.items (subs_of named.subs.items) (with_pairs (put_all other.now.own.eager self.old.own.eager) false self.old)) }
        ensures table { OnOk result (HasOwnHashes self.old.own.seeds (keys_of (put_all other.now.own.eager self.old.own.eager))) }
        ensures clash { IfErr result (IsClash self.old.own.seeds (keys_of (put_all other.now.own.eager self.old.own.eager))) }
        ensures err { OnErr result (self.new ≡ self.old) }
    {
        let Copies { there, new } = split_copies(alloc, &other.eager, &self.eager)?;
        let _apart = other.iter_fn();
        self.put_copies(alloc, there, new, named)
    }

    /// Declares what another module declares under keys for which nothing is declared or listed, last, and
    /// puts variables and sub-modules in. The module isn't indexed any more. A refusal changes nothing.
    pub fn put_unshown(
        &mut self,
        alloc: Global,
        other: &Module,
        named: Named,
    ) -> Result<(), DeclFault>
        ensures ok { OnOk result (self.new ≡ with_named named.vars.items (subs_of named.subs.items) (with_pairs (put_all (without (shown self.old.own) other.now.own.eager) self.old.own.eager) false self.old)) }
        ensures table { OnOk result (HasOwnHashes self.old.own.seeds (keys_of (put_all (without (shown self.old.own) other.now.own.eager) self.old.own.eager))) }
        ensures clash { IfErr result (IsClash self.old.own.seeds (keys_of (put_all (without (shown self.old.own) other.now.own.eager) self.old.own.eager))) }
        ensures err { OnErr result (self.new ≡ self.old) }
    {
        let new = copies_that(
            alloc,
            &other.eager,
            &|key: &SharedKey| !self.contains_shared(key),
        )?;
        self.put_copies(alloc, Vec::new(alloc), new, named)
    }
}
