//! Engines, what is registered in them, lists of modules, and the state of a run.

use crate::given::{SEEDS, one, plain, text};
use crate::must::{holds, must, shared};
use rhd_engine::{Builtins, GlobalRuntimeState, ImportList, ModuleList, ModuleMap, Operator};
use rhd_func::Natives;
use rhd_layers::SharedModule;
use rhd_module::Module;
use rhd_names::OpToken;
use rhd_value::{FnId, Text, TypeTag};
use std::alloc::Global;
use std::hash::{DefaultHasher, Hash, Hasher};
use std::process::Abort;

/// A table with the sum of integers.
fn sums(rt: &impl Abort, alloc: Global) -> Builtins {
    let mut builtins = Builtins::new(alloc);
    let set = builtins.set(alloc, OpToken::Plus, TypeTag::Int, TypeTag::Int, FnId(7));
    must(rt, set, "a built-in function");
    builtins
}

/// The operator `+` between an integer and this kind.
fn plus(right: TypeTag) -> Operator {
    Operator {
        token: OpToken::Plus,
        left: TypeTag::Int,
        right,
    }
}

/// What a hasher of std makes of an operator.
fn hash_of(operator: &Operator) -> u64 {
    let mut hasher = DefaultHasher::new();
    operator.hash(&mut hasher);
    hasher.finish()
}

#[test]
fn operators_are_told_apart(rt: HostRuntime) {
    let first = plus(TypeTag::Custom(1));
    let other = plus(TypeTag::Custom(2));
    holds(
        &rt,
        first == plus(TypeTag::Custom(1)) && first != other,
        "equal",
    );
    let same = hash_of(&first) == hash_of(&plus(TypeTag::Custom(1)));
    holds(
        &rt,
        same && hash_of(&first) != hash_of(&other),
        "of one hash",
    );
}

#[test]
fn builtins_are_set(rt: HostRuntime) {
    let alloc = rt.alloc();
    let builtins = sums(&rt, alloc);
    let dup = must(&rt, builtins.dup(alloc), "a table is copied");
    let held = dup.get(OpToken::Plus, TypeTag::Int, TypeTag::Int);
    holds(&rt, held == Some(FnId(7)), "get");
    let none = dup.get(OpToken::Minus, TypeTag::Int, TypeTag::Int);
    holds(&rt, none.is_none(), "no other");
    holds(&rt, !dup.fits(&Natives::new(alloc)), "without its native");
    drop(dup);
    drop(builtins);
}

/// How many functions the first module has.
fn count(modules: &[SharedModule]) -> u64 {
    match modules {
        [] => 0,
        [first, ..] => first.module().count().1,
    }
}

/// A module of this id.
fn with_id(rt: &impl Abort, alloc: Global, id: &str) -> SharedModule {
    let mut made = shared(rt, alloc, SEEDS);
    must(rt, made.set_id(alloc, text(alloc, id)), "an id");
    made
}

/// Whether the modules of a list have these ids.
fn has_ids(list: &ModuleList, ids: &[&str]) -> bool {
    let mut ids = ids.iter();
    for shared in list.as_slice() {
        let Some(id) = ids.next() else {
            return false;
        };
        if !has_id(shared.module(), id) {
            return false;
        }
    }
    ids.next().is_none()
}

/// A list of three modules.
fn three(rt: &impl Abort, alloc: Global) -> ModuleList {
    let mut list = ModuleList::new(alloc);
    must(rt, list.push(with_id(rt, alloc, "b")), "push");
    must(rt, list.insert_second(with_id(rt, alloc, "c")), "second");
    must(rt, list.insert(0, with_id(rt, alloc, "a")), "insert");
    list
}

/// Whether there is a module with this id.
fn is_named(shared: Option<SharedModule>, id: &str) -> bool {
    match shared {
        Some(shared) => has_id(shared.module(), id),
        None => false,
    }
}

#[test]
fn lists_are_filled(rt: HostRuntime) {
    let alloc = rt.alloc();
    let list = three(&rt, alloc);
    holds(&rt, has_ids(&list, &["a", "b", "c"]), "in order");
    drop(list);
}

#[test]
fn lists_are_copied(rt: HostRuntime) {
    let alloc = rt.alloc();
    let list = three(&rt, alloc);
    let mut dup = must(&rt, list.dup(alloc), "a list is copied");
    holds(&rt, is_named(dup.pop(), "c"), "pop");
    holds(&rt, has_ids(&dup, &["a", "b"]), "the others");
    holds(&rt, list.len() == 3, "the list itself stays");
    drop(dup);
    drop(list);
}

/// A list of an import `a`.
fn imports(rt: &impl Abort, alloc: Global) -> ImportList {
    let mut list = ImportList::new(alloc);
    let put = list.push(text(alloc, "a"), shared(rt, alloc, SEEDS));
    must(rt, put, "push");
    list
}

#[test]
fn imports_are_listed(rt: HostRuntime) {
    let alloc = rt.alloc();
    let list = imports(&rt, alloc);
    holds(&rt, list.len() == 1, "one");
    holds(&rt, list.find(&text(alloc, "a")).is_some(), "find");
    holds(&rt, list.find(&text(alloc, "b")).is_none(), "no other");
    for (name, _shared) in list.as_slice() {
        holds(&rt, name.as_str() == "a", "as_slice");
    }
    drop(list);
}

#[test]
fn imports_are_copied(rt: HostRuntime) {
    let alloc = rt.alloc();
    let list = imports(&rt, alloc);
    let mut dup = must(&rt, list.dup(alloc), "a list is copied");
    drop(dup.pop());
    holds(&rt, dup.len() == 0, "pop");
    holds(&rt, list.len() == 1, "the list itself stays");
    drop(dup);
    drop(list);
}

/// A state with a library and an import `a`.
fn state(rt: &impl Abort, alloc: Global) -> GlobalRuntimeState {
    let mut state = GlobalRuntimeState::new(alloc);
    must(rt, state.push_lib(shared(rt, alloc, SEEDS)), "push_lib");
    let put = state.push_import(text(alloc, "a"), shared(rt, alloc, SEEDS));
    must(rt, put, "push_import");
    state
}

#[test]
fn states_have_modules(rt: HostRuntime) {
    let alloc = rt.alloc();
    let state = state(&rt, alloc);
    holds(&rt, state.level == 0, "new");
    holds(&rt, state.source.is_none(), "of no source");
    let found = state.find_import(&text(alloc, "a")).is_some();
    holds(&rt, found, "find_import");
    drop(state);
}

#[test]
fn states_are_copied(rt: HostRuntime) {
    let alloc = rt.alloc();
    let state = state(&rt, alloc);
    let mut dup = must(&rt, state.dup(alloc), "a state is copied");
    drop(dup.pop_import());
    drop(dup.pop_lib());
    holds(&rt, dup.lib.len() == 0, "pop_lib");
    let found = dup.find_import(&text(alloc, "a")).is_some();
    holds(&rt, !found, "pop_import");
    holds(&rt, state.lib.len() == 1, "the other stays");
    drop(dup);
    drop(state);
}

/// Whether a module has this id; an empty one stands for none.
fn has_id(module: &Module, id: &str) -> bool {
    match module.id() {
        Some(known) => known.as_str() == id,
        None => id == "",
    }
}

/// Whether a static module of this name and id has a sub-module of this name, which is its id too.
fn has(statics: &ModuleMap, outer: &Text, inner: &Text) -> bool {
    match statics.get(outer) {
        Some(shared) => {
            let module = shared.module();
            match module.get_sub_module(inner) {
                Some(child) => {
                    has_id(module, outer.as_str())
                        && has_id(child, inner.as_str())
                        && module.is_indexed()
                }
                None => false,
            }
        }
        None => false,
    }
}

/// Registers a new module under a name.
fn place(rt: &impl Abort, alloc: Global, statics: &mut ModuleMap, name: &str) {
    let added = shared(rt, alloc, SEEDS);
    let put = statics.register_static(alloc, SEEDS, text(alloc, name), added);
    must(rt, put, "register_static");
}

#[test]
fn statics_are_placed(rt: HostRuntime) {
    let alloc = rt.alloc();
    let mut statics = ModuleMap::new(alloc);
    place(&rt, alloc, &mut statics, "a :: b");
    place(&rt, alloc, &mut statics, "a::");
    let outer = text(alloc, "a");
    holds(&rt, has(&statics, &outer, &text(alloc, "b")), "below");
    let empty = text(alloc, "");
    holds(&rt, has(&statics, &outer, &empty), "an empty part");
    holds(&rt, statics.len() == 1, "one module above both");
    drop(statics);
}

#[test]
fn statics_keep_their_names(rt: HostRuntime) {
    let alloc = rt.alloc();
    let mut statics = ModuleMap::new(alloc);
    place(&rt, alloc, &mut statics, " c ");
    let name = text(alloc, " c ");
    holds(&rt, statics.get(&name).is_some(), "a name as it is");
    drop(statics);
}

#[test]
fn statics_are_put(rt: HostRuntime) {
    let alloc = rt.alloc();
    let mut statics = ModuleMap::new(alloc);
    let put = statics.insert(alloc, text(alloc, "a"), shared(&rt, alloc, SEEDS));
    must(&rt, put, "insert");
    let dup = must(&rt, statics.dup(alloc), "a map is copied");
    holds(&rt, dup.len() == 1, "one module");
    for (name, _shared) in dup.iter() {
        holds(&rt, name.as_str() == "a", "iter");
    }
    drop(dup);
    drop(statics);
}
