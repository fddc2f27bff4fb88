//! Modules of files: the paths that are read, the faults, and what comes of a script.

use crate::given::{SEEDS, is_text, script, text};
use crate::must::{holds, must};
use crate::resolve::{environs, has};
use rhd_engine::ImportList;
use rhd_func::SharedDef;
use rhd_layers::SharedModule;
use rhd_manifest::Manifests;
use rhd_resolve::{
    Environs, FileModuleResolver, FileTable, LoadedScript, Loader, MemFiles, ModuleResolver,
    ResolveFault,
};
use rhd_value::{EvalAltResult, OutOfMemory, Position, Text};
use std::alloc::Global;
use std::process::Abort;

/// Makes a script of a name: its one function is called so. The text `!` is refused.
#[derive(Drop)]
struct Named;

/// The resolver that is tested.
type Resolver = FileModuleResolver<MemFiles, Named>;

/// Fault 15, which tells the text.
fn refusal(alloc: Global, text: &Text) -> Result<EvalAltResult, OutOfMemory> {
    let text = text.dup(alloc)?;
    Ok(EvalAltResult::ErrorRuntime(text, Position::NONE))
}

/// One function of this name.
fn functions(alloc: Global, name: &str) -> Result<Vec<SharedDef>, OutOfMemory> {
    let mut functions = Vec::new(alloc);
    functions.push(SharedDef::new(alloc, script(alloc, name))?)?;
    Ok(functions)
}

impl Loader for Named {
    ghost use Rattle.std.specs.Prelude.{⊤};

    ghost allows_load = { λ _ _ _ _ _. ⊤ };

    fn load(
        &self,
        alloc: Global,
        _manifests: &Manifests,
        text: &Text,
        _envs: &Environs,
    ) -> Result<LoadedScript, ResolveFault> {
        if text.as_str() == "!" {
            return Err(ResolveFault::Fault(refusal(alloc, text)?));
        }
        let functions = functions(alloc, text.as_str())?;
        Ok(LoadedScript {
            scope: Vec::new(alloc),
            imports: ImportList::new(alloc),
            functions,
            source: None,
            doc: Text::new(alloc),
        })
    }
}

/// Two files: a script with the function `f`, and one that the loader refuses.
fn table(rt: &impl Abort, alloc: Global) -> FileTable {
    let mut table = FileTable::new(alloc);
    for (path, word) in [("/scripts/a.rhai", "f"), ("/scripts/b.rhai", "!")] {
        let put = table.insert(text(alloc, path), text(alloc, word));
        must(rt, put, "a file");
    }
    table
}

/// A resolver of these files, of whose reads these are to fail.
fn failing(rt: &impl Abort, alloc: Global, fails: Vec<u64>) -> Resolver {
    let files = MemFiles::new(table(rt, alloc), fails);
    let base = text(alloc, "/scripts");
    let made = FileModuleResolver::new_with_path(alloc, files, Named, base);
    must(rt, made, "a resolver")
}

/// The same where no read is to fail.
fn resolver(rt: &impl Abort, alloc: Global) -> Resolver {
    failing(rt, alloc, Vec::new(alloc))
}

/// What comes of a path.
fn given(
    alloc: Global,
    resolver: &mut Resolver,
    envs: &mut Environs,
    word: &str,
) -> Result<SharedModule, ResolveFault> {
    let (manifests, path) = (Manifests::new(alloc), text(alloc, word));
    resolver.resolve(alloc, &manifests, envs, None, &path, Position::NONE)
}

/// The script of a path.
fn loaded(
    alloc: Global,
    resolver: &mut Resolver,
    envs: &Environs,
    word: &str,
) -> Option<Result<LoadedScript, ResolveFault>> {
    let (manifests, path) = (Manifests::new(alloc), text(alloc, word));
    resolver.resolve_ast(alloc, &manifests, envs, None, &path, Position::NONE)
}

/// Whether nothing is given since there is no module of this path.
fn is_not_found<T: Drop>(given: Result<T, ResolveFault>, word: &str) -> bool {
    let found = match &given {
        Err(ResolveFault::Fault(EvalAltResult::ErrorModuleNotFound(path, _))) => {
            path.as_str() == word
        }
        _ => false,
    };
    drop(given);
    found
}

/// Whether a fault is 15, with this text.
fn is_failure(fault: &EvalAltResult, word: &str) -> bool {
    match fault {
        EvalAltResult::ErrorRuntime(text, _) => text.as_str() == word,
        _ => false,
    }
}

/// Whether nothing is given since the module of this path has fault 15, with this text.
fn is_in_module<T: Drop>(given: Result<T, ResolveFault>, word: &str, inner: &str) -> bool {
    let found = match &given {
        Err(ResolveFault::Fault(EvalAltResult::ErrorInModule(path, fault, _))) => {
            path.as_str() == word && is_failure(fault.fault(), inner)
        }
        _ => false,
    };
    drop(given);
    found
}

#[test]
fn a_path_names_a_file(rt: HostRuntime) {
    let alloc = rt.alloc();
    let resolver = resolver(&rt, alloc);
    for (path, word) in [
        ("foo", "/scripts/foo.rhai"),
        ("foo.bar", "/scripts/foo.rhai"),
        ("/x/y.txt", "/x/y.rhai"),
    ] {
        let made = resolver.get_file_path(alloc, &text(alloc, path), None);
        let made = must(&rt, made, "a path");
        holds(&rt, made.as_str() == word, "in the base");
    }
    drop(resolver);
}

#[test]
fn a_resolver_is_set(rt: HostRuntime) {
    let alloc = rt.alloc();
    let mut resolver = resolver(&rt, alloc);
    holds(&rt, is_text(resolver.base_path(), "/scripts"), "a base");
    holds(&rt, resolver.extension().as_str() == "rhai", "rhai");
    resolver.set_base_path(text(alloc, "lib"));
    resolver.set_extension(text(alloc, "txt"));
    holds(&rt, is_text(resolver.base_path(), "lib"), "another base");
    holds(&rt, resolver.extension().as_str() == "txt", "txt");
    drop(resolver);
}

/// The files of a resolver, none of whose reads is to fail.
fn files(rt: &impl Abort, alloc: Global) -> MemFiles {
    MemFiles::new(table(rt, alloc), Vec::new(alloc))
}

#[test]
fn resolvers_have_extensions(rt: HostRuntime) {
    let alloc = rt.alloc();
    let (files, txt) = (files(&rt, alloc), text(alloc, "txt"));
    let made = FileModuleResolver::new_with_extension(alloc, files, Named, txt);
    holds(&rt, made.base_path().is_none(), "no base");
    holds(&rt, made.extension().as_str() == "txt", "txt");
    drop(made);
}

#[test]
fn resolvers_have_paths(rt: HostRuntime) {
    let alloc = rt.alloc();
    let files = files(&rt, alloc);
    let (lib, txt) = (text(alloc, "lib"), text(alloc, "txt"));
    let made = FileModuleResolver::new_with_path_and_extension(alloc, files, Named, lib, txt);
    holds(&rt, is_text(made.base_path(), "lib"), "a base");
    holds(&rt, made.extension().as_str() == "txt", "txt");
    drop(made);
}

#[test]
fn no_file_is_no_module(rt: HostRuntime) {
    let alloc = rt.alloc();
    let mut envs = environs(&rt, alloc, SEEDS);
    let mut resolver = resolver(&rt, alloc);
    let given = given(alloc, &mut resolver, &mut envs, "c");
    holds(&rt, is_not_found(given, "c"), "fault 12");
    drop(resolver);
    drop(envs);
}

#[test]
fn a_loaders_fault_is_in_the_module(rt: HostRuntime) {
    let alloc = rt.alloc();
    let mut envs = environs(&rt, alloc, SEEDS);
    let mut resolver = resolver(&rt, alloc);
    let given = given(alloc, &mut resolver, &mut envs, "b");
    holds(&rt, is_in_module(given, "b", "!"), "fault 13");
    holds(&rt, envs.len() == 0, "no environment");
    drop(resolver);
    drop(envs);
}

#[test]
fn a_failed_read_is_not_repeated(rt: HostRuntime) {
    let alloc = rt.alloc();
    let mut fails = Vec::new(alloc);
    must(&rt, fails.push(1), "the first read is to fail");
    let mut envs = environs(&rt, alloc, SEEDS);
    let mut resolver = failing(&rt, alloc, fails);
    let first = given(alloc, &mut resolver, &mut envs, "a");
    holds(&rt, is_not_found(first, "a"), "fault 12");
    let second = given(alloc, &mut resolver, &mut envs, "a");
    drop(must(&rt, second, "the second read finds it"));
    drop(resolver);
    drop(envs);
}

/// The module of the first file.
fn made(rt: &impl Abort, alloc: Global, envs: &mut Environs) -> SharedModule {
    let mut resolver = resolver(rt, alloc);
    let given = given(alloc, &mut resolver, envs, "a");
    drop(resolver);
    must(rt, given, "a module")
}

#[test]
fn a_file_becomes_a_module(rt: HostRuntime) {
    let alloc = rt.alloc();
    let mut envs = environs(&rt, alloc, SEEDS);
    let made = made(&rt, alloc, &mut envs);
    holds(&rt, has(alloc, made.module(), "f"), "its function");
    holds(&rt, made.module().is_indexed(), "indexed");
    holds(&rt, envs.len() == 1, "an environment");
    drop(made);
    drop(envs);
}

/// Whether there is a script with one function, which comes from this source.
fn is_script(loaded: Option<Result<LoadedScript, ResolveFault>>, source: &str) -> bool {
    match loaded {
        Some(Ok(loaded)) => loaded.functions.len() == 1 && is_text(loaded.source.as_ref(), source),
        _ => false,
    }
}

#[test]
fn a_file_is_a_script(rt: HostRuntime) {
    let alloc = rt.alloc();
    let envs = environs(&rt, alloc, SEEDS);
    let mut resolver = resolver(&rt, alloc);
    let loaded = loaded(alloc, &mut resolver, &envs, "a");
    holds(&rt, is_script(loaded, "a"), "its source is the path");
    holds(&rt, envs.len() == 0, "no environment");
    drop(resolver);
    drop(envs);
}
