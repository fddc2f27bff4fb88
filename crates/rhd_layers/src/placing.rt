//! How a module goes to its place below a static module.

ghost use Rattle.std.specs.Prelude.{◌≡◌, [], ◌∷◌, true, IfOk, IfErr, OnOk, unwrap_or};
ghost use Rattle.std.specs.List.{AllByRecursion};
ghost use Rattle.std.specs.Option.{option_copied, option_and_then};
ghost use Rattle.rhd_module.specs.Contents.{named, with_sub, find_sub};
ghost use Rattle.rhd_module.specs.Index.{indexed};
ghost use Rattle.rhd_module.specs.Tree.{empty_module};
ghost use Rattle.rhd_layers.specs.Statics.{placed, made, TreeClear, IsTreeRefusal};

use crate::shared::SharedModule;
use rhd_hash::Seeds;
use rhd_module::{DeclFault, Module};
use rhd_value::{OutOfMemory, Text};
use std::alloc::Global;
use std::rc::Rc;

/// The module that an owner holds.
fn inside(shared: &Rc<Module>) -> &Module
    ensures { result.now ≡ shared.now.value }
{
    shared
}

/// The sub-module of a name, where there is a module and it has one.
fn sub_of<'a>(held: Option<&'a Module>, name: &Text) -> Option<&'a Module>
    ensures { option_copied result ≡ option_and_then (λ m. find_sub name.now m.subs) (option_copied held.entry) }
{
    match held?.get_sub_module(name) {
        Some(child) => Some(inside(child)),
        None => None,
    }
}

/// A copy of a module, or a new one where there is none.
fn copy_or_new(alloc: Global, seeds: Seeds, held: Option<&Module>) -> Result<Module, OutOfMemory>
    ensures { IfOk result (λ m. m ≡ unwrap_or (option_copied held.entry) (empty_module seeds)) }
{
    match held {
        Some(module) => module.dup(alloc),
        None => Module::new(alloc, seeds),
    }
}

/// A copy of a module, or a new one, with a sub-module put in.
fn with_inner(
    alloc: Global,
    seeds: Seeds,
    held: Option<&Module>,
    name: &Text,
    inner: SharedModule,
) -> Result<SharedModule, OutOfMemory>
    ensures { IfOk result (λ m. m ≡ with_sub name.now inner (unwrap_or (option_copied held.entry) (empty_module seeds))) }
{
    let mut outer = copy_or_new(alloc, seeds, held)?;
    let name = name.dup(alloc)?;
    outer.set_sub_module(alloc, name, inner.into_rc())?;
    SharedModule::new(alloc, outer)
}

/// Indexes a module, and gives it a part of a name as id where it has none.
fn finished(alloc: Global, part: &Text, added: SharedModule) -> Result<SharedModule, DeclFault>
    ensures made { IfOk result (λ m. m ≡ named part.now (indexed added)) }
    ensures clear { OnOk result (TreeClear (named part.now (indexed added))) }
    ensures refused { IfErr result (IsTreeRefusal (named part.now (indexed added) ∷ [])) }
{
    let mut made = added;
    made.build_index(alloc)?;
    let id = part.dup(alloc)?;
    made.set_id_if_none(alloc, id)?;
    Ok(made)
}

/// The module of a part of a name, with the modules of the further parts below it, the added one last.
pub(crate) fn placed(
    alloc: Global,
    seeds: Seeds,
    part: &Text,
    more: &[Text],
    held: Option<&Module>,
    added: SharedModule,
) -> Result<SharedModule, DeclFault>
    ensures made { IfOk result (λ m. m ≡ placed seeds added part.now more.now (option_copied held.entry)) }
    ensures clear { OnOk result (AllByRecursion TreeClear (made seeds added part.now more.now (option_copied held.entry))) }
    ensures refused { IfErr result (IsTreeRefusal (made seeds added part.now more.now (option_copied held.entry))) }
{
    match more {
        [] => finished(alloc, part, added),
        [next, rest @ ..] => {
            let inner = placed(alloc, seeds, next, rest, sub_of(held, next), added)?;
            let outer = with_inner(alloc, seeds, held, next, inner)?;
            finished(alloc, part, outer)
        }
    }
}
