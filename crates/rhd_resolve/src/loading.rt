//! A loaded script becomes a module whose functions carry their environment.

ghost use Rattle.std.specs.Prelude.{◌≡◌, ◌⊎◌, ◌∷◌, [], List, Option, None, Some, OnOk, IfOk, IfErr};
ghost use Rattle.std.specs.Option.{option_copied};
ghost use Rattle.std.specs.Map.{keys_of};
ghost use Rattle.rhd_manifest.specs.Manifest.{ManifestLists};
ghost use Rattle.rhd_module.specs.Algebra.{HasOwnTable};
ghost use Rattle.rhd_table.specs.Indexed.{IsClash, NoneClash};
ghost use Rattle.rhd_module.specs.Manifests.{with_contents};
ghost use Rattle.rhd_module.specs.Walk.{tree};
ghost use Rattle.rhd_resolve.specs.Loading.{value_named, named_values, imported, with_scripts, public_functions, of_source, library_of, contents_of, module_of, Loads};
ghost use Rattle.rhd_resolve.specs.Sessions.{seen, IsLoaded, IsGiven, Adds};

use crate::environs::{EncapsulatedEnviron, Environs};
use crate::loaded::{LoadedScript, ScopeEntry};
use rhd_decl::DeclFault;
use rhd_engine::ImportList;
use rhd_func::{EnvId, FnAccess, SharedDef};
use rhd_hash::Seeds;
use rhd_layers::SharedModule;
use rhd_module::Module;
use rhd_value::{OutOfMemory, Text};
use std::alloc::Global;

/// A new module whose id is the source.
fn of_source(alloc: Global, seeds: Seeds, source: Option<&Text>) -> Result<Module, OutOfMemory>
    ensures { IfOk result (λ m. m ≡ of_source seeds (option_copied source.entry)) }
{
    let mut made = Module::new(alloc, seeds)?;
    if let Some(source) = source {
        made.set_id(alloc, source.dup(alloc)?)?;
    }
    Ok(made)
}

/// Declares a script, in an environment if there is one.
fn declare(
    target: &mut Module,
    alloc: Global,
    env: Option<EnvId>,
    def: &SharedDef,
) -> Result<(), DeclFault>
    ensures ok { OnOk result (target.new ≡ with_scripts env (def.now ∷ []) target.old) }
    ensures clash { IfErr result (IsClash target.old.own.seeds (keys_of (with_scripts env (def.now ∷ []) target.old).own.eager)) }
{
    let def = def.dup(alloc)?;
    match env {
        Some(env) => target.set_script_fn_in(alloc, def, env)?,
        None => target.set_script_fn(alloc, def)?,
    };
    Ok(())
}

/// Declares all functions of a script.
fn declare_all(target: &mut Module, alloc: Global, functions: &[SharedDef]) -> Result<(), DeclFault>
    ensures ok { OnOk result (target.new ≡ with_scripts None functions.now target.old) }
    ensures clash { IfErr result (IsClash target.old.own.seeds (keys_of (with_scripts None functions.now target.old).own.eager)) }
{
    for def in functions {
        declare(target, alloc, None, def)?;
    }
    Ok(())
}

/// Declares the public functions of a script, each in this environment.
fn declare_public(
    target: &mut Module,
    alloc: Global,
    env: EnvId,
    functions: &[SharedDef],
) -> Result<(), DeclFault>
    ensures ok { OnOk result (target.new ≡ with_scripts (Some env) (public_functions functions.now) target.old) }
    ensures clash { IfErr result (IsClash target.old.own.seeds (keys_of (with_scripts (Some env) (public_functions functions.now) target.old).own.eager)) }
{
    for def in functions {
        match def.def().access {
            FnAccess::Public => declare(target, alloc, Some(env), def)?,
            FnAccess::Private => {}
        }
    }
    Ok(())
}

/// Puts a value of a script in under each of its names.
fn put_value(target: &mut Module, alloc: Global, entry: &ScopeEntry) -> Result<(), OutOfMemory>
    ensures { OnOk result (target.new ≡ with_contents (value_named entry.now) [] target.old) }
{
    for name in entry.aliases.as_slice() {
        target.set_var(alloc, name.dup(alloc)?, entry.value.dup(alloc)?)?;
    }
    Ok(())
}

/// Puts the values of a script in.
fn put_scope(target: &mut Module, alloc: Global, scope: &[ScopeEntry]) -> Result<(), OutOfMemory>
    ensures { OnOk result (target.new ≡ with_contents (named_values scope.now) [] target.old) }
{
    for entry in scope {
        put_value(target, alloc, entry)?;
    }
    Ok(())
}

/// Puts imports in as sub-modules.
fn put_imports(target: &mut Module, alloc: Global, imports: &ImportList) -> Result<(), OutOfMemory>
    ensures { OnOk result (target.new ≡ record { own = record target.old.own { indexed = target.new.own.indexed }; subs = imported imports.now target.old.subs }) }
{
    for (name, module) in imports.as_slice() {
        target.set_sub_module(alloc, name.dup(alloc)?, module.dup(alloc)?.into_rc())?;
    }
    Ok(())
}

/// All functions of a script, private ones too.
fn library(alloc: Global, seeds: Seeds, loaded: &LoadedScript) -> Result<Module, DeclFault>
    ensures ok { IfOk result (λ m. m ≡ library_of seeds loaded.now) }
    ensures table { OnOk result (HasOwnTable (library_of seeds loaded.now)) }
    ensures clash { IfErr result (IsClash seeds (keys_of (library_of seeds loaded.now).own.eager)) }
{
    let mut made = of_source(alloc, seeds, loaded.source.as_ref())?;
    declare_all(&mut made, alloc, loaded.functions.as_slice())?;
    let _apart = made.iter_fn();
    Ok(made)
}

/// What a script's module has but for its functions.
fn contents(alloc: Global, seeds: Seeds, loaded: &LoadedScript) -> Result<Module, OutOfMemory>
    ensures { IfOk result (λ m. m ≡ record (contents_of seeds loaded.now) { own = record (contents_of seeds loaded.now).own { indexed = m.own.indexed } }) }
{
    let mut made = of_source(alloc, seeds, loaded.source.as_ref())?;
    made.set_doc(loaded.doc.dup(alloc)?);
    put_scope(&mut made, alloc, loaded.scope.as_slice())?;
    put_imports(&mut made, alloc, &loaded.imports)?;
    Ok(made)
}

/// The module of a script, whose public functions run in the environment of this number. It is indexed.
fn module_of(
    alloc: Global,
    seeds: Seeds,
    env: EnvId,
    loaded: &LoadedScript,
) -> Result<Module, DeclFault>
    ensures ok { IfOk result (λ m. m ≡ module_of seeds env loaded.now) }
    ensures table { OnOk result (HasOwnTable (module_of seeds env loaded.now)) }
    ensures index { OnOk result (NoneClash seeds (keys_of (tree (module_of seeds env loaded.now)))) }
    ensures clash { IfErr result (λ fault. IsClash seeds (keys_of (module_of seeds env loaded.now).own.eager) fault ⊎ IsClash seeds (keys_of (tree (module_of seeds env loaded.now))) fault) }
{
    let mut made = contents(alloc, seeds, loaded)?;
    declare_public(&mut made, alloc, env, loaded.functions.as_slice())?;
    made.build_index(alloc)?;
    let _apart = made.iter_fn();
    Ok(made)
}

/// Modules that are made of loaded scripts.
pub trait ModuleLoading {
    /// The module of a loaded script, of which an environment is added: a library of all its functions,
    /// private ones too, and its imports. The module has the values that the script leaves as variables,
    /// for each name the latest that has it, its imports as sub-modules, later ones in the place of earlier
    /// ones of the same name, its documentation, and its public functions, each with that environment. Its
    /// id and that of the library is the source. It is indexed. A refusal leaves the environments.
    ///
    /// Where each imported module may be given in a session with these manifests, so may the module, and
    /// the environment was made there.
    fn eval_ast_as_new(
        alloc: Global,
        loaded: &LoadedScript,
        envs: &mut Environs,
    ) -> Result<Module, DeclFault>
        ensures loads { Loads loaded.now envs.old result envs.new }
        ensures given { (manifests : List ManifestLists) → IsLoaded (seen manifests envs.old) loaded.now → IfOk result (IsGiven (seen manifests envs.new)) }
        ensures adds { (manifests : List ManifestLists) → IsLoaded (seen manifests envs.old) loaded.now → OnOk result (Adds manifests envs.old envs.new) };
}

impl ModuleLoading for Module {
    fn eval_ast_as_new(
        alloc: Global,
        loaded: &LoadedScript,
        envs: &mut Environs,
    ) -> Result<Module, DeclFault> {
        let Some(env) = envs.next_id() else {
            return Err(DeclFault::OutOfMemory);
        };
        let seeds = envs.seeds();
        let lib = SharedModule::new(alloc, library(alloc, seeds, loaded)?)?;
        let made = module_of(alloc, seeds, env, loaded)?;
        let imports = loaded.imports.dup(alloc)?;
        envs.push(EncapsulatedEnviron { lib, imports })?;
        Ok(made)
    }
}
