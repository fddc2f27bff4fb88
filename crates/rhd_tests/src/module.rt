//! Modules: what they hold, scripts and natives in them, and their index.

ghost use Rattle.std.specs.Prelude.{◌≡◌, true};

use crate::given::{
    SEEDS, are_equal, int, is_int, is_text, native_key, script, script_hash, script_key, text,
    texts,
};
use crate::must::{empty, for_all, holds, must, shared, shared_script, with_x};
use rhd_decl::CustomTypeInfo;
use rhd_func::{EnvId, FnAccess, FnNamespace, RhaiFunc, SharedText};
use rhd_hash::{HashedKey, Key, Steps};
use rhd_module::{FuncRegistration, Module, is_pure_by_name, script_declaration};
use rhd_value::TypeTag;
use std::alloc::Global;
use std::process::Abort;
use std::rc::Rc;

/// Whether an id is there, and is `m`.
fn is_m(id: Option<&SharedText>) -> bool {
    match id {
        Some(id) => id.text().as_str() == "m",
        None => false,
    }
}

#[test]
fn modules_have_ids(rt: HostRuntime) {
    let alloc = rt.alloc();
    let mut module = empty(&rt, alloc, SEEDS);
    holds(&rt, module.seeds() == SEEDS, "its seeds");
    holds(&rt, module.id().is_none(), "no id");
    must(&rt, module.set_id(alloc, text(alloc, "m")), "set_id");
    holds(&rt, is_text(module.id(), "m"), "an id");
    let shared = must(&rt, module.share_id(alloc), "the id is shared");
    holds(&rt, is_m(shared.as_ref()), "the same id");
    drop(shared);
    module.clear_id();
    holds(&rt, module.id().is_none(), "cleared");
    drop(module);
}

#[test]
fn modules_have_documentation(rt: HostRuntime) {
    let alloc = rt.alloc();
    let mut module = empty(&rt, alloc, SEEDS);
    module.set_doc(text(alloc, "d"));
    holds(&rt, module.doc().as_str() == "d", "documentation");
    module.clear_doc();
    holds(&rt, module.doc().as_str() == "", "cleared");
    drop(module);
}

#[test]
fn modules_have_flags(rt: HostRuntime) {
    let mut module = empty(&rt, rt.alloc(), SEEDS);
    holds(&rt, module.is_indexed() && !module.is_internal(), "new");
    module.set_internal(true);
    holds(&rt, module.is_internal(), "not for scripts");
    holds(&rt, !module.is_standard_lib(), "none of the standard");
    module.set_standard_lib(true);
    holds(&rt, module.is_standard_lib(), "standard");
    drop(module);
}

#[test]
fn modules_have_variables(rt: HostRuntime) {
    let alloc = rt.alloc();
    let module = with_x(&rt, alloc, 1);
    let x = text(alloc, "x");
    holds(&rt, module.contains_var(&x), "contains_var");
    let value = must(&rt, module.get_var(alloc, &x), "get_var");
    holds(&rt, is_int(value.as_ref(), 1), "its value");
    drop(value);
    for (name, value) in module.iter_var() {
        holds(&rt, *name == x && value.as_int() == Some(1), "iter_var");
    }
    drop(module);
}

#[test]
fn variables_have_kinds(rt: HostRuntime) {
    let alloc = rt.alloc();
    let module = with_x(&rt, alloc, 1);
    let x = text(alloc, "x");
    let value = must(&rt, module.get_var_value::<i64>(alloc, &x), "a number");
    holds(&rt, value == Some(1), "get_var_value");
    let value = must(&rt, module.get_var_value::<bool>(alloc, &x), "a truth");
    holds(&rt, value.is_none(), "of another kind");
    drop(module);
}

#[test]
fn modules_are_cleared(rt: HostRuntime) {
    let mut module = with_x(&rt, rt.alloc(), 1);
    holds(&rt, module.count() == (1, 0, 0), "one variable");
    holds(&rt, !module.is_empty(), "something");
    module.clear();
    holds(&rt, module.is_empty(), "nothing");
    drop(module);
}

/// A module that shows some custom types as `N`.
fn with_types(rt: &impl Abort, alloc: Global) -> Module {
    let mut module = empty(rt, alloc, SEEDS);
    let set = module.set_custom_type(alloc, 1, text(alloc, "N"));
    must(rt, set, "set_custom_type");
    let comments = texts(alloc, "c");
    let set = module.set_custom_type_with_comments(alloc, 2, text(alloc, "N"), comments);
    must(rt, set, "set_custom_type_with_comments");
    let set = module.set_custom_type_raw(alloc, text(alloc, "t"), text(alloc, "N"));
    must(rt, set, "set_custom_type_raw");
    module
}

#[test]
fn modules_have_types(rt: HostRuntime) {
    let alloc = rt.alloc();
    let mut module = with_types(&rt, alloc);
    let comments = texts(alloc, "c");
    let shown = text(alloc, "N");
    let set = module.set_custom_type_with_comments_raw(alloc, text(alloc, "u"), shown, comments);
    must(&rt, set, "set_custom_type_with_comments_raw");
    for name in ["custom1", "custom2", "t", "u"] {
        let display = module.get_custom_type_display_by_name(&text(alloc, name));
        holds(&rt, is_text(display, "N"), name);
    }
    drop(module);
}

#[test]
fn types_are_shown(rt: HostRuntime) {
    let alloc = rt.alloc();
    let module = with_types(&rt, alloc);
    let display = must(&rt, module.get_custom_type_display(alloc, 1), "display");
    holds(&rt, is_text(display, "N"), "by number");
    for (_name, info) in module.iter_custom_types() {
        holds(&rt, info.display_name.as_str() == "N", "iter_custom_types");
    }
    drop(module);
}

/// Whether a type is shown with so many comments.
fn has_comments(info: Option<&CustomTypeInfo>, count: usize) -> bool {
    match info {
        Some(info) => info.comments.len() == count,
        None => false,
    }
}

#[test]
fn types_are_read_raw(rt: HostRuntime) {
    let alloc = rt.alloc();
    let module = with_types(&rt, alloc);
    let info = must(&rt, module.get_custom_type_raw(alloc, 2), "info");
    holds(&rt, has_comments(info, 1), "by number");
    let info = module.get_custom_type_by_name_raw(&text(alloc, "t"));
    holds(&rt, has_comments(info, 0), "by name");
    drop(module);
}

/// A module below which another one stands as `a`, whose variable `x` is 1.
fn with_a(rt: &impl Abort, alloc: Global) -> Module {
    let mut root = empty(rt, alloc, SEEDS);
    let child = must(rt, Rc::new(alloc, with_x(rt, alloc, 1)), "shared");
    let set = root.set_sub_module(alloc, text(alloc, "a"), child);
    must(rt, set, "a sub-module");
    root
}

/// Whether there is a module with a variable `x`.
fn has_x(alloc: Global, module: Option<&Rc<Module>>) -> bool {
    match module {
        Some(module) => module.contains_var(&text(alloc, "x")),
        None => false,
    }
}

#[test]
fn modules_have_modules(rt: HostRuntime) {
    let alloc = rt.alloc();
    let root = with_a(&rt, alloc);
    let a = text(alloc, "a");
    holds(&rt, root.contains_sub_module(&a), "a sub-module");
    holds(&rt, has_x(alloc, root.get_sub_module(&a)), "get_sub_module");
    for (name, inner) in root.iter_sub_modules() {
        let same = *name == a && has_x(alloc, Some(inner));
        holds(&rt, same, "iter_sub_modules");
    }
    drop(root);
}

#[test]
fn variables_have_paths(rt: HostRuntime) {
    let alloc = rt.alloc();
    let root = with_a(&rt, alloc);
    let (path, x) = (texts(alloc, "a"), text(alloc, "x"));
    let value = root.get_qualified_var(alloc, path.as_slice(), &x);
    let value = must(&rt, value, "a variable below");
    holds(&rt, is_int(value.as_ref(), 1), "its value");
    drop(value);
    drop(root);
}

/// A module with a script `s` without parameters.
fn with_script(rt: &impl Abort, alloc: Global) -> Module {
    let mut module = empty(rt, alloc, SEEDS);
    let def = shared_script(rt, alloc, "s");
    let hash = must(rt, module.set_script_fn(alloc, def), "a script");
    holds(rt, hash == script_hash(alloc, "s"), "its hash");
    module
}

/// Whether there is a function that a script defines.
fn is_script(func: Option<&RhaiFunc>) -> bool {
    match func {
        Some(func) => func.is_script(),
        None => false,
    }
}

/// The environment in which a script runs.
fn env_of(func: Option<&RhaiFunc>) -> Option<EnvId> {
    match func {
        Some(RhaiFunc::Script { env, .. }) => *env,
        _ => None,
    }
}

/// The environment in which the script `s` of a module runs.
fn env_of_s(alloc: Global, module: &Module) -> Option<EnvId> {
    let (key, mut steps) = (script_key(alloc, "s"), Steps::new());
    let env = env_of(module.get_fn(&key, &mut steps));
    drop(key);
    env
}

#[test]
fn a_script_runs_in_an_environment(rt: HostRuntime) {
    let alloc = rt.alloc();
    let mut module = with_script(&rt, alloc);
    holds(&rt, env_of_s(alloc, &module).is_none(), "in none");
    let def = shared_script(&rt, alloc, "s");
    let hash = must(&rt, module.set_script_fn_in(alloc, def, EnvId(3)), "again");
    holds(&rt, hash == script_hash(alloc, "s"), "its hash");
    holds(
        &rt,
        env_of_s(alloc, &module) == Some(EnvId(3)),
        "in this one",
    );
    drop(module);
}

#[test]
fn scripts_are_found(rt: HostRuntime) {
    let alloc = rt.alloc();
    let module = with_script(&rt, alloc);
    let key = script_key(alloc, "s");
    let mut steps = Steps::new();
    holds(&rt, is_script(module.get_fn(&key, &mut steps)), "get_fn");
    holds(&rt, steps.count() == 1, "one look-up");
    holds(&rt, module.contains_fn(&key), "contains_fn");
    let hashed = HashedKey::new(&key, SEEDS);
    let func = module.get_hashed_fn(&hashed, &mut steps);
    holds(&rt, is_script(func), "get_hashed_fn");
    drop(key);
    drop(module);
}

#[test]
fn scripts_are_declared(rt: HostRuntime) {
    let alloc = rt.alloc();
    let module = with_script(&rt, alloc);
    let found = module.get_script_fn(&text(alloc, "s"), 0);
    holds(&rt, found.is_some(), "get_script_fn");
    let key = script_key(alloc, "s");
    for (held, declaration) in module.iter_fn() {
        holds(
            &rt,
            *held.key() == key && declaration.func.is_script(),
            "iter_fn",
        );
    }
    drop(key);
    drop(module);
}

/// What an indexed module answers of a script below it.
fn check_index(rt: &impl Abort, root: &Module, pathed: &Key)
    requires { root.now.own.indexed ≡ true }
{
    let mut steps = Steps::new();
    let func = root.get_qualified_fn(pathed, &mut steps);
    holds(rt, func.is_some() && steps.count() == 1, "by its path");
    let hashed = HashedKey::new(pathed, SEEDS);
    let func = root.get_qualified_hashed_fn(&hashed, &mut steps);
    holds(rt, func.is_some() && steps.count() == 2, "by its hash");
    holds(rt, root.contains_qualified_fn(pathed), "it is there");
    let global = root.contains_indexed_global_functions();
    holds(rt, !global, "not found by all");
    let hash = pathed.untyped(SEEDS);
    holds(rt, !root.may_contain_dynamic_fn(hash), "of no type");
}

/// An indexed module in whose sub-module `a` a script stands.
fn tree(rt: &impl Abort, alloc: Global) -> Module {
    let child = must(rt, Rc::new(alloc, with_script(rt, alloc)), "shared");
    let mut root = empty(rt, alloc, SEEDS);
    let set = root.set_sub_module(alloc, text(alloc, "a"), child);
    must(rt, set, "a sub-module");
    must(rt, root.build_index(alloc), "indexed");
    root
}

/// The key of that script.
fn pathed(rt: &impl Abort, alloc: Global) -> Key {
    let key = script_key(alloc, "s");
    let pathed = key.dup_at(alloc, &texts(alloc, "a"));
    drop(key);
    must(rt, pathed, "a key with a path")
}

#[test]
fn trees_are_indexed(rt: HostRuntime) {
    let alloc = rt.alloc();
    let root = tree(&rt, alloc);
    assert!(&rt; root.is_indexed(), "indexed");
    let key = pathed(&rt, alloc);
    check_index(&rt, &root, &key);
    drop(key);
    drop(root);
}

#[test]
fn comments_are_set(rt: HostRuntime) {
    let alloc = rt.alloc();
    let mut module = with_script(&rt, alloc);
    let key = script_key(alloc, "s");
    let found = module.set_fn_comments(alloc, &key, texts(alloc, "c"));
    drop(key);
    holds(&rt, must(&rt, found, "memory"), "comments");
    for (_key, declaration) in module.iter_fn() {
        let comments = &declaration.metadata().comments;
        holds(&rt, comments.len() == 1, "one comment");
    }
    drop(module);
}

#[test]
fn modules_are_copied(rt: HostRuntime) {
    let alloc = rt.alloc();
    let module = with_script(&rt, alloc);
    let s = text(alloc, "s");
    let dup = must(&rt, module.dup(alloc), "dup");
    holds(&rt, dup.get_script_fn(&s, 0).is_some(), "with its script");
    let clone = must(&rt, module.clone(), "memory");
    holds(&rt, clone.get_script_fn(&s, 0).is_some(), "clone");
    drop(clone);
    drop(dup);
    drop(module);
}

#[test]
fn scripts_are_described(rt: HostRuntime) {
    let alloc = rt.alloc();
    let shared = shared_script(&rt, alloc, "s");
    let made = script_declaration(alloc, SEEDS, shared, None);
    let declaration = must(&rt, made, "a declaration");
    let metadata = declaration.metadata();
    holds(&rt, metadata.hash == script_hash(alloc, "s"), "its hash");
    holds(&rt, metadata.namespace == FnNamespace::Internal, "internal");
    holds(&rt, metadata.access == FnAccess::Public, "public");
    drop(declaration);
}

#[test]
fn scripts_have_keys(rt: HostRuntime) {
    let alloc = rt.alloc();
    let key = rhd_module::script_key(alloc, &script(alloc, "s"));
    let key = must(&rt, key, "a key");
    holds(&rt, are_equal(key, script_key(alloc, "s")), "script_key");
}

#[test]
fn getters_and_setters_are_named(rt: HostRuntime) {
    let alloc = rt.alloc();
    let x = text(alloc, "x");
    let reg = must(&rt, FuncRegistration::new_getter(alloc, &x), "a getter");
    holds(&rt, reg.name.as_str() == "get$x", "get$");
    holds(&rt, reg.purity.is_none(), "pure or not");
    drop(reg);
    let reg = must(&rt, FuncRegistration::new_setter(alloc, &x), "a setter");
    holds(&rt, reg.name.as_str() == "set$x", "set$");
    holds(&rt, reg.purity == Some(false), "not pure");
    drop(reg);
}

#[test]
fn indexers_are_named(rt: HostRuntime) {
    let alloc = rt.alloc();
    let reg = must(&rt, FuncRegistration::new_index_getter(alloc), "made");
    holds(&rt, reg.name.as_str() == "index$get$", "reads");
    drop(reg);
    let reg = must(&rt, FuncRegistration::new_index_setter(alloc), "made");
    holds(&rt, reg.name.as_str() == "index$set$", "writes");
    holds(&rt, !is_pure_by_name(&reg.name, 3), "not pure by its name");
    drop(reg);
}

#[test]
fn registrations_are_told_more(rt: HostRuntime) {
    let alloc = rt.alloc();
    let reg = for_all(&rt, alloc, "f");
    holds(&rt, reg.namespace == FnNamespace::Global, "found by all");
    let reg = reg.in_internal_namespace();
    holds(&rt, reg.namespace == FnNamespace::Internal, "or not");
    let reg = reg.with_namespace(FnNamespace::Global).with_purity(true);
    holds(&rt, reg.purity == Some(true), "pure");
    let reg = reg.with_volatility(true);
    holds(&rt, reg.volatility == Some(true), "volatile");
    drop(reg);
}

#[test]
fn registrations_are_copied(rt: HostRuntime) {
    let alloc = rt.alloc();
    let reg = for_all(&rt, alloc, "f").with_comments(texts(alloc, "c"));
    let reg = reg.with_params_info(texts(alloc, "p"));
    let dup = must(&rt, reg.dup(alloc), "a registration is copied");
    holds(&rt, dup.name.as_str() == "f", "its name");
    holds(&rt, dup.comments.len() == 1, "a comment");
    holds(&rt, dup.params_info == texts(alloc, "p"), "parameters");
    drop(dup);
    drop(reg);
}

#[test]
fn natives_have_keys(rt: HostRuntime) {
    let alloc = rt.alloc();
    let f = text(alloc, "f");
    let made = rhd_module::native_key(alloc, &f, false, &[TypeTag::Str]);
    let key = must(&rt, made, "a key");
    let same = are_equal(key, native_key(alloc, "f", TypeTag::Text));
    holds(&rt, same, "by value");
    let made = rhd_module::native_key(alloc, &f, true, &[TypeTag::Str]);
    let key = must(&rt, made, "a key");
    let same = are_equal(key, native_key(alloc, "f", TypeTag::Str));
    holds(&rt, same, "of a method");
}

#[test]
fn owners_have_ids(rt: HostRuntime) {
    let alloc = rt.alloc();
    let mut owner = shared(&rt, alloc, SEEDS);
    let set = owner.set_id_if_none(alloc, text(alloc, "m"));
    must(&rt, set, "set_id_if_none");
    let set = owner.set_id_if_none(alloc, text(alloc, "n"));
    must(&rt, set, "set_id_if_none again");
    holds(&rt, is_text(owner.module().id(), "m"), "the first stays");
    drop(owner);
}

#[test]
fn owners_are_apart(rt: HostRuntime) {
    let alloc = rt.alloc();
    let mut owner = shared(&rt, alloc, SEEDS);
    let other = must(&rt, owner.dup(alloc), "another owner");
    must(&rt, owner.set_id(alloc, text(alloc, "n")), "set_id");
    holds(&rt, is_text(owner.module().id(), "n"), "an id");
    holds(&rt, other.module().id().is_none(), "unseen by the other");
    drop(other);
    drop(owner);
}

#[test]
fn owners_change_modules(rt: HostRuntime) {
    let alloc = rt.alloc();
    let mut owner = shared(&rt, alloc, SEEDS);
    must(&rt, owner.set_doc(alloc, text(alloc, "d")), "set_doc");
    holds(&rt, owner.module().doc().as_str() == "d", "documentation");
    let set = owner.set_var(alloc, text(alloc, "x"), int(1));
    must(&rt, set, "set_var");
    holds(&rt, !owner.module().is_empty(), "a variable");
    must(&rt, owner.clear(alloc), "clear");
    holds(&rt, owner.module().is_empty(), "cleared");
    drop(owner);
}

#[test]
fn owners_show_types(rt: HostRuntime) {
    let alloc = rt.alloc();
    let mut owner = shared(&rt, alloc, SEEDS);
    let set = owner.set_custom_type_raw(alloc, text(alloc, "t"), text(alloc, "N"));
    must(&rt, set, "set_custom_type_raw");
    let t = text(alloc, "t");
    let shown = owner.module().get_custom_type_display_by_name(&t);
    holds(&rt, is_text(shown, "N"), "as N");
    drop(owner);
}

#[test]
fn owners_put_functions(rt: HostRuntime) {
    let alloc = rt.alloc();
    let mut owner = shared(&rt, alloc, SEEDS);
    let def = shared_script(&rt, alloc, "s");
    must(&rt, owner.set_script_fn(alloc, def), "a script");
    holds(&rt, !owner.module().is_indexed(), "not indexed");
    must(&rt, owner.build_index(alloc), "build_index");
    holds(&rt, owner.module().is_indexed(), "indexed");
    drop(owner);
}

#[test]
fn owners_put_modules(rt: HostRuntime) {
    let alloc = rt.alloc();
    let mut owner = shared(&rt, alloc, SEEDS);
    let child = shared(&rt, alloc, SEEDS);
    let set = owner.set_sub_module(alloc, text(alloc, "a"), child);
    must(&rt, set, "a sub-module");
    let module = owner.into_rc();
    let held = module.contains_sub_module(&text(alloc, "a"));
    holds(&rt, held, "into_rc");
    drop(module);
}
