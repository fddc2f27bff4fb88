//! The modules that a script imports, made of their functions.

ghost use Rattle.std.specs.Prelude.{◌≡◌, ◌++◌, ◌∷◌, [], None, IfOk, OnOk, IfErr};
ghost use Rattle.std.specs.Map.{keys_of};
ghost use Rattle.rhd_table.specs.Indexed.{IsClash};
ghost use Rattle.rhd_resolve.specs.Loading.{with_scripts};
ghost use Rattle.rhd_loader.specs.Loads.{import_of, imports_of, IsApart, AreApart};
ghost use Rattle.rhd_loader.specs.Making.{ToldClash, SomeClash};

use crate::imports::ImportScripts;
use crate::scripts::Scripts;
use rhd_decl::DeclFault;
use rhd_engine::ImportList;
use rhd_func::SharedDef;
use rhd_hash::Seeds;
use rhd_layers::SharedModule;
use rhd_module::Module;
use rhd_resolve::ResolveFault;
use rhd_value::Text;
use std::alloc::Global;

/// Declares a function, which runs in no environment.
fn declare(target: &mut Module, alloc: Global, def: &SharedDef) -> Result<(), DeclFault>
    ensures ok { OnOk result (target.new ≡ with_scripts None (def.now ∷ []) target.old) }
    ensures clash { IfErr result (IsClash target.old.own.seeds (keys_of (with_scripts None (def.now ∷ []) target.old).own.eager)) }
{
    target.set_script_fn(alloc, def.dup(alloc)?)?;
    Ok(())
}

/// Declares functions, each of which runs in no environment.
fn declare_all(target: &mut Module, alloc: Global, defs: &[SharedDef]) -> Result<(), DeclFault>
    ensures ok { OnOk result (target.new ≡ with_scripts None defs.now target.old) }
    ensures clash { IfErr result (IsClash target.old.own.seeds (keys_of (with_scripts None defs.now target.old).own.eager)) }
{
    for def in defs {
        declare(target, alloc, def)?;
    }
    Ok(())
}

/// The imported module of these functions. It is indexed.
fn import_of(alloc: Global, seeds: Seeds, defs: &[SharedDef]) -> Result<Module, DeclFault>
    ensures ok { IfOk result (λ m. m ≡ import_of seeds defs.now) }
    ensures apart { OnOk result (IsApart seeds defs.now) }
    ensures clash { IfErr result (ToldClash seeds defs.now) }
{
    let mut made = Module::new(alloc, seeds)?;
    declare_all(&mut made, alloc, defs)?;
    made.build_index(alloc)?;
    let _apart = made.iter_fn();
    Ok(made)
}

/// Puts the imported module of these functions last, under its name.
fn put_import(
    made: &mut ImportList,
    alloc: Global,
    seeds: Seeds,
    name: Text,
    defs: &Scripts,
) -> Result<(), DeclFault>
    ensures ok { OnOk result (made.new ≡ made.old ++ (name, import_of seeds defs.now) ∷ []) }
    ensures apart { OnOk result (IsApart seeds defs.now) }
    ensures clash { IfErr result (ToldClash seeds defs.now) }
{
    let module = import_of(alloc, seeds, defs.as_slice())?;
    Ok(made.push(name, SharedModule::new(alloc, module)?)?)
}

/// All imported modules under their names.
pub fn make_imports(
    alloc: Global,
    seeds: Seeds,
    imports: &ImportScripts,
) -> Result<ImportList, DeclFault>
    ensures ok { IfOk result (λ made. made ≡ imports_of seeds imports.now) }
    ensures apart { OnOk result (AreApart seeds imports.now) }
    ensures clash { IfErr result (SomeClash seeds imports.now) }
{
    let mut made = ImportList::new(alloc);
    for (name, defs) in imports.iter() {
        put_import(&mut made, alloc, seeds, name.dup(alloc)?, defs)?;
    }
    Ok(made)
}
