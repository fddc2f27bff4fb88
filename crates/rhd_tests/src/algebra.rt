//! Modules that are joined with others, and what filters pass of their functions.

use crate::given::{CLASHING, SEEDS, script, text, texts};
use crate::manifest::natives;
use crate::must::{clashes, empty, holds, must, shared, shared_script, with_x};
use rhd_algebra::{ModuleAlgebra, SharedAlgebra};
use rhd_func::SharedDef;
use rhd_module::Module;
use rhd_value::FnId;
use std::alloc::Global;
use std::process::Abort;
use std::rc::Rc;

/// A module whose variable `x` is this number, with a script `s`, whose parameter has this name.
fn with_s(rt: &impl Abort, alloc: Global, number: i64, param: &str) -> Module {
    let mut module = with_x(rt, alloc, number);
    let mut def = script(alloc, "s");
    def.params = texts(alloc, param);
    let def = must(rt, SharedDef::new(alloc, def), "a script");
    must(rt, module.set_script_fn(alloc, def), "declared");
    module
}

/// A module below which another one stands under this name. Its documentation is the same.
fn above(rt: &impl Abort, alloc: Global, name: &str, child: Module) -> Module {
    let mut module = empty(rt, alloc, SEEDS);
    let child = must(rt, Rc::new(alloc, child), "shared");
    let set = module.set_sub_module(alloc, text(alloc, name), child);
    must(rt, set, "a sub-module");
    module.set_doc(text(alloc, name));
    module
}

/// Whether the variable `x` of a module is this number.
fn is_x(alloc: Global, module: &Module, number: i64) -> bool {
    match module.get_var_value::<i64>(alloc, &text(alloc, "x")) {
        Ok(value) => value == Some(number),
        Err(_) => false,
    }
}

/// Whether the parameter of the script `s` of a module has this name.
fn is_s(alloc: Global, module: &Module, param: &str) -> bool {
    match module.get_script_fn(&text(alloc, "s"), 1) {
        Some(shared) => shared.def().params == texts(alloc, param),
        None => false,
    }
}

/// Whether a module has a sub-module of this name.
fn has_sub(alloc: Global, module: &Module, name: &str) -> bool {
    module.contains_sub_module(&text(alloc, name))
}

#[test]
fn a_module_is_put_over(rt: HostRuntime) {
    let alloc = rt.alloc();
    let mut module = with_s(&rt, alloc, 1, "p");
    let other = with_s(&rt, alloc, 2, "q");
    must(&rt, module.combine(alloc, &other), "combine");
    holds(&rt, is_s(alloc, &module, "q"), "the other's script");
    holds(&rt, is_x(alloc, &module, 2), "the other's variable");
    drop(other);
    drop(module);
}

#[test]
fn sub_modules_are_put_in(rt: HostRuntime) {
    let alloc = rt.alloc();
    let mut module = above(&rt, alloc, "a", with_x(&rt, alloc, 1));
    let other = above(&rt, alloc, "b", with_x(&rt, alloc, 2));
    must(&rt, module.combine(alloc, &other), "combine");
    holds(&rt, has_sub(alloc, &module, "a"), "its own stays");
    holds(&rt, has_sub(alloc, &module, "b"), "the other's comes");
    holds(&rt, module.doc().as_str() == "a\nb", "a line more");
    drop(other);
    drop(module);
}

#[test]
fn what_is_below_comes_up(rt: HostRuntime) {
    let alloc = rt.alloc();
    let mut module = empty(&rt, alloc, SEEDS);
    let other = above(&rt, alloc, "a", with_x(&rt, alloc, 1));
    must(&rt, module.combine_flatten(alloc, &other), "flattened");
    holds(&rt, is_x(alloc, &module, 1), "from below");
    holds(&rt, !has_sub(alloc, &module, "a"), "without what it was in");
    drop(other);
    drop(module);
}

#[test]
fn what_is_new_is_filled_in(rt: HostRuntime) {
    let alloc = rt.alloc();
    let mut module = with_x(&rt, alloc, 1);
    let other = with_s(&rt, alloc, 2, "p");
    must(&rt, module.fill_with(alloc, &other), "fill_with");
    holds(&rt, is_x(alloc, &module, 1), "its own variable");
    holds(&rt, is_s(alloc, &module, "p"), "the other's script");
    drop(other);
    drop(module);
}

/// Whether a module without an id has `x` as this number, and stands below another one as `a`.
fn is_rebuilt(alloc: Global, module: &Module, number: i64) -> bool {
    match module.get_sub_module(&text(alloc, "a")) {
        Some(child) => child.id().is_none() && is_x(alloc, child, number),
        None => false,
    }
}

/// A module with an id, whose variable `x` is this number.
fn named(rt: &impl Abort, alloc: Global, number: i64) -> Module {
    let mut module = with_x(rt, alloc, number);
    must(rt, module.set_id(alloc, text(alloc, "m")), "an id");
    module
}

#[test]
fn sub_modules_are_made_anew(rt: HostRuntime) {
    let alloc = rt.alloc();
    let mut module = empty(&rt, alloc, SEEDS);
    let other = above(&rt, alloc, "a", named(&rt, alloc, 1));
    must(&rt, module.merge(alloc, &other), "merge");
    holds(&rt, is_rebuilt(alloc, &module, 1), "without an id");
    drop(other);
    drop(module);
}

/// A module with scripts `s` and `r`.
fn with_r(rt: &impl Abort, alloc: Global) -> Module {
    let mut module = with_s(rt, alloc, 1, "p");
    let def = shared_script(rt, alloc, "r");
    must(rt, module.set_script_fn(alloc, def), "declared");
    module
}

#[test]
fn a_filter_passes_functions(rt: HostRuntime) {
    let alloc = rt.alloc();
    let mut module = empty(&rt, alloc, SEEDS);
    let other = with_r(&rt, alloc);
    let done = module.merge_filtered(alloc, &other, |_, _, _, name, _| name.as_str() == "r");
    must(&rt, done, "merge_filtered");
    holds(&rt, module.count() == (1, 1, 0), "a script, the variable");
    drop(other);
    drop(module);
}

/// The same with a native `s`.
fn with_native(rt: &impl Abort, alloc: Global) -> Module {
    let mut module = with_r(rt, alloc);
    let natives = natives(rt, alloc);
    let set = module.set_native_fn(alloc, &natives, text(alloc, "s"), FnId(0));
    must(rt, set, "a native");
    drop(natives);
    module
}

#[test]
fn scripts_are_retained(rt: HostRuntime) {
    let alloc = rt.alloc();
    let mut module = with_native(&rt, alloc);
    let done = module.retain_script_functions(alloc, |_, _, name, _| name.as_str() == "s");
    must(&rt, done, "retain_script_functions");
    holds(&rt, module.count().1 == 1, "one function");
    holds(&rt, is_s(alloc, &module, "p"), "the script");
    drop(module);
}

#[test]
fn a_sum_is_a_module_more(rt: HostRuntime) {
    let alloc = rt.alloc();
    let module = with_x(&rt, alloc, 1);
    let other = with_x(&rt, alloc, 2);
    let sum = must(&rt, module.plus(alloc, &other), "plus");
    holds(&rt, is_x(alloc, &sum, 2), "the other's");
    holds(&rt, is_x(alloc, &module, 1), "and the first stays");
    drop(sum);
    drop(other);
    drop(module);
}

#[test]
fn a_module_is_added(rt: HostRuntime) {
    let alloc = rt.alloc();
    let mut module = with_x(&rt, alloc, 1);
    let other = with_x(&rt, alloc, 2);
    must(&rt, module.plus_assign(alloc, &other), "plus_assign");
    holds(&rt, is_x(alloc, &module, 2), "the other's");
    drop(other);
    drop(module);
}

/// A module all of whose keys have one hash, with a script `r`.
fn clashing(rt: &impl Abort, alloc: Global) -> Module {
    let mut module = empty(rt, alloc, CLASHING);
    let def = shared_script(rt, alloc, "r");
    must(rt, module.set_script_fn(alloc, def), "declared");
    module
}

#[test]
fn a_refused_join_changes_nothing(rt: HostRuntime) {
    let alloc = rt.alloc();
    let mut module = clashing(&rt, alloc);
    let other = with_s(&rt, alloc, 1, "p");
    holds(&rt, clashes(module.combine(alloc, &other)), "r and s clash");
    holds(&rt, module.count() == (0, 1, 0), "as it was");
    drop(other);
    drop(module);
}

#[test]
fn owners_join_modules(rt: HostRuntime) {
    let alloc = rt.alloc();
    let mut owner = shared(&rt, alloc, SEEDS);
    let other = with_x(&rt, alloc, 1);
    must(&rt, owner.combine(alloc, &other), "combine");
    holds(&rt, is_x(alloc, owner.module(), 1), "combined");
    drop(other);
    let other = with_x(&rt, alloc, 2);
    must(&rt, owner.combine_flatten(alloc, &other), "flattened");
    holds(&rt, is_x(alloc, owner.module(), 2), "put over");
    drop(other);
    drop(owner);
}

#[test]
fn owners_merge_modules(rt: HostRuntime) {
    let alloc = rt.alloc();
    let mut owner = shared(&rt, alloc, SEEDS);
    let other = with_x(&rt, alloc, 1);
    must(&rt, owner.fill_with(alloc, &other), "fill_with");
    holds(&rt, is_x(alloc, owner.module(), 1), "filled in");
    drop(other);
    let other = with_x(&rt, alloc, 2);
    must(&rt, owner.merge(alloc, &other), "merge");
    holds(&rt, is_x(alloc, owner.module(), 2), "merged");
    drop(other);
    drop(owner);
}
