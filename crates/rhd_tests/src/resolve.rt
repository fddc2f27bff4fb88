//! Scripts that are loaded: the modules that come of them, and their environments.

use crate::given::{CLASHING, SEEDS, int, is_text, script, script_key, text, texts};
use crate::must::{clashes, holds, must, shared};
use rhd_engine::ImportList;
use rhd_func::{EnvId, FnAccess, RhaiFunc, SharedDef};
use rhd_hash::{Seeds, Steps};
use rhd_module::Module;
use rhd_resolve::{EncapsulatedEnviron, Environs, LoadedScript, ModuleLoading, ScopeEntry};
use std::alloc::Global;
use std::process::Abort;

/// A value with a name, or with two.
fn entry(alloc: Global, number: i64, name: &str, other: Option<&str>) -> ScopeEntry {
    let mut aliases = texts(alloc, name);
    if let Some(other) = other {
        let _ = aliases.push(text(alloc, other));
    }
    ScopeEntry {
        value: int(number),
        aliases,
    }
}

/// A public function `f` and a private one `g`.
fn functions(rt: &impl Abort, alloc: Global) -> Vec<SharedDef> {
    let mut functions = Vec::new(alloc);
    for (name, access) in [("f", FnAccess::Public), ("g", FnAccess::Private)] {
        let mut def = script(alloc, name);
        def.access = access;
        let def = must(rt, SharedDef::new(alloc, def), "a function");
        must(rt, functions.push(def), "one more");
    }
    functions
}

/// Two values, the later of which takes a name of the first.
fn scope(rt: &impl Abort, alloc: Global) -> Vec<ScopeEntry> {
    let mut scope = Vec::new(alloc);
    must(rt, scope.push(entry(alloc, 1, "a", Some("b"))), "a value");
    must(rt, scope.push(entry(alloc, 2, "a", None)), "another one");
    scope
}

/// An import.
fn imports(rt: &impl Abort, alloc: Global) -> ImportList {
    let mut imports = ImportList::new(alloc);
    let imported = imports.push(text(alloc, "m"), shared(rt, alloc, SEEDS));
    must(rt, imported, "an import");
    imports
}

/// A script `src` with two functions, these values, and this import.
fn loaded(rt: &impl Abort, alloc: Global) -> LoadedScript {
    LoadedScript {
        scope: scope(rt, alloc),
        imports: imports(rt, alloc),
        functions: functions(rt, alloc),
        source: Some(text(alloc, "src")),
        doc: text(alloc, "doc"),
    }
}

/// No environments.
pub fn environs(rt: &impl Abort, alloc: Global, seeds: Seeds) -> Environs {
    must(rt, Environs::new(alloc, seeds, 3, 0), "environments")
}

/// Whether a function runs in the environment of number 0.
fn is_in_env(func: Option<&RhaiFunc>) -> bool {
    match func {
        Some(RhaiFunc::Script { env, .. }) => *env == Some(EnvId(0)),
        _ => false,
    }
}

/// Whether a module has a script of this name.
pub fn has(alloc: Global, module: &Module, name: &str) -> bool {
    let key = script_key(alloc, name);
    let has = module.contains_fn(&key);
    drop(key);
    has
}

/// Whether a module has `f` in the environment of number 0, and no `g`.
fn has_public(alloc: Global, made: &Module) -> bool {
    let (key, mut steps) = (script_key(alloc, "f"), Steps::new());
    let in_env = is_in_env(made.get_fn(&key, &mut steps));
    drop(key);
    in_env && !has(alloc, made, "g")
}

/// Whether an environment has both functions of the script `src`, and its import.
fn has_all(alloc: Global, env: Option<&EncapsulatedEnviron>) -> bool {
    let Some(env) = env else {
        return false;
    };
    let lib = env.lib.module();
    let both = has(alloc, lib, "f") && has(alloc, lib, "g");
    let imported = env.imports.find(&text(alloc, "m")).is_some();
    both && imported && is_text(lib.id(), "src")
}

/// Whether the number under a name among the variables of a module is this one.
fn is_number(alloc: Global, made: &Module, name: &str, number: i64) -> bool {
    match made.get_var_value::<i64>(alloc, &text(alloc, name)) {
        Ok(value) => value == Some(number),
        Err(_) => false,
    }
}

/// What comes of that script.
fn made(rt: &impl Abort, alloc: Global, envs: &mut Environs) -> Module {
    let script = loaded(rt, alloc);
    let made = Module::eval_ast_as_new(alloc, &script, envs);
    drop(script);
    must(rt, made, "a module")
}

#[test]
fn a_script_becomes_a_module(rt: HostRuntime) {
    let alloc = rt.alloc();
    let mut envs = environs(&rt, alloc, SEEDS);
    let made = made(&rt, alloc, &mut envs);
    holds(&rt, has_public(alloc, &made), "what is public");
    holds(&rt, is_number(alloc, &made, "a", 2), "the latest a");
    holds(&rt, is_number(alloc, &made, "b", 1), "the only b");
    let imported = made.contains_sub_module(&text(alloc, "m"));
    holds(&rt, imported, "the import");
    drop(made);
    drop(envs);
}

#[test]
fn a_module_tells_its_script(rt: HostRuntime) {
    let alloc = rt.alloc();
    let mut envs = environs(&rt, alloc, SEEDS);
    let made = made(&rt, alloc, &mut envs);
    holds(&rt, is_text(made.id(), "src"), "its source");
    holds(&rt, made.doc().as_str() == "doc", "its documentation");
    holds(&rt, made.is_indexed(), "its index");
    drop(made);
    drop(envs);
}

#[test]
fn a_script_has_an_environment(rt: HostRuntime) {
    let alloc = rt.alloc();
    let mut envs = environs(&rt, alloc, SEEDS);
    drop(made(&rt, alloc, &mut envs));
    holds(&rt, has_all(alloc, envs.get(EnvId(0))), "the environment");
    holds(&rt, envs.get(EnvId(1)).is_none(), "no other");
    holds(&rt, envs.len() == 1, "one");
    drop(envs);
}

#[test]
fn environments_are_made(rt: HostRuntime) {
    let envs = environs(&rt, rt.alloc(), SEEDS);
    holds(&rt, envs.natives() == 3, "natives");
    holds(&rt, envs.iterators() == 0, "iterators");
    holds(&rt, envs.seeds() == SEEDS, "seeds");
    drop(envs);
}

#[test]
fn a_clash_adds_no_environment(rt: HostRuntime) {
    let alloc = rt.alloc();
    let mut envs = environs(&rt, alloc, CLASHING);
    let script = loaded(&rt, alloc);
    let made = Module::eval_ast_as_new(alloc, &script, &mut envs);
    holds(&rt, clashes(made), "f and g clash");
    holds(&rt, envs.len() == 0, "none");
    drop(script);
    drop(envs);
}
