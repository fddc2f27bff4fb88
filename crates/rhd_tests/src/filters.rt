//! Filters: what lists of modules, modules and tables tell of keys. A filter that knows nothing of a key says no.

ghost use Rattle.std.specs.Prelude.{◌≡◌, true};

use crate::given::{SEEDS, native_key, script_key, text};
use crate::must::{empty, holds, must, shared_script};
use rhd_hash::{BloomFilterU64, HashedKey, Key, UntypedHash};
use rhd_layers::{ImportList, MarkedModule, ModuleList, ModuleMap, SharedModule};
use rhd_module::Module;
use rhd_value::{Texts, TypeTag};
use std::alloc::Global;
use std::process::Abort;

/// A module with a script `s` without parameters, which isn't indexed.
fn with_s(rt: &impl Abort, alloc: Global) -> Module {
    let mut module = empty(rt, alloc, SEEDS);
    let def = shared_script(rt, alloc, "s");
    must(rt, module.set_script_fn(alloc, def), "a script");
    module
}

/// The key of that script in the tree of its module.
fn below(alloc: Global) -> Key {
    Key::Script {
        path: Some(Texts::new(alloc)),
        name: text(alloc, "s"),
        params: 0,
    }
}

/// Such a module, indexed.
fn indexed(rt: &impl Abort, alloc: Global) -> SharedModule
    ensures { result.own.indexed ≡ true }
{
    let mut shared = must(
        rt,
        SharedModule::new(alloc, with_s(rt, alloc)),
        "a shared module",
    );
    must(rt, shared.build_index(alloc), "an index");
    shared
}

#[test]
fn a_module_tells_what_it_has(rt: HostRuntime) {
    let alloc = rt.alloc();
    let module = with_s(&rt, alloc);
    holds(&rt, module.may_have_script(), "it has a script");
    holds(&rt, module.own_marks().is_some(), "it lists nothing");
    holds(
        &rt,
        module.dynamic_marks().is_empty(),
        "nothing of any type",
    );
    drop(module);
    let none = empty(&rt, alloc, SEEDS);
    holds(&rt, !none.may_have_script(), "nor a script");
    drop(none);
}

#[test]
fn a_tree_tells_what_it_has(rt: HostRuntime) {
    let alloc = rt.alloc();
    let shared = indexed(&rt, alloc);
    let module = shared.module();
    holds(&rt, module.tree_may_have_script(), "a script");
    let key = below(alloc);
    let absent = module.tree_marks().is_absent(key.mixed(SEEDS));
    holds(&rt, !absent, "its key is marked");
    let mut filter = BloomFilterU64::new();
    module.mark_tree(&mut filter);
    holds(
        &rt,
        !filter.is_absent(key.mixed(SEEDS)),
        "in another filter",
    );
    drop(key);
    drop(shared);
}

#[test]
fn a_module_has_its_marks_beside_it(rt: HostRuntime) {
    let alloc = rt.alloc();
    let shared = indexed(&rt, alloc);
    let marked = must(&rt, MarkedModule::new(alloc, shared), "a module");
    let copy = must(&rt, marked.dup(alloc), "a copy");
    let (s, f) = (below(alloc), native_key(alloc, "f", TypeTag::Int));
    holds(&rt, copy.may_have(&HashedKey::new(&s, SEEDS)), "the script");
    holds(&rt, !copy.may_have(&HashedKey::new(&f, SEEDS)), "no native");
    holds(&rt, copy.module().is_indexed(), "the module");
    drop(f);
    drop(s);
    drop(copy);
    drop(marked);
}

/// Whether a list has a key, by its two filters, and a script.
#[derive(Clone, Copy)]
struct Told {
    key: bool,
    dynamic: bool,
    script: bool,
}

/// What libraries tell of a key.
fn libraries_tell(list: &ModuleList, key: &Key) -> Told {
    Told {
        key: list.may_have(&HashedKey::new(key, SEEDS)),
        dynamic: list.may_have_dynamic(UntypedHash::new(key, SEEDS), key),
        script: list.may_have_script(),
    }
}

/// What imports tell of a key.
fn imports_tell(list: &ImportList, key: &Key) -> Told {
    Told {
        key: list.may_have(&HashedKey::new(key, SEEDS)),
        dynamic: list.may_have_dynamic(UntypedHash::new(key, SEEDS), key),
        script: list.may_have_script(),
    }
}

/// What static modules tell of a key.
fn statics_tell(map: &ModuleMap, key: &Key) -> Told {
    Told {
        key: map.may_have(&HashedKey::new(key, SEEDS)),
        dynamic: map.may_have_dynamic(UntypedHash::new(key, SEEDS), key),
        script: map.may_have_script(),
    }
}

fn tells_nothing(told: Told) -> bool {
    !told.key && !told.dynamic && !told.script
}

fn tells_of_a_script(told: Told) -> bool {
    told.key && !told.dynamic && told.script
}

#[test]
fn libraries_tell_what_they_have(rt: HostRuntime) {
    let alloc = rt.alloc();
    let mut list = ModuleList::new(alloc);
    let key = script_key(alloc, "s");
    holds(&rt, tells_nothing(libraries_tell(&list, &key)), "none");
    must(&rt, list.push(indexed(&rt, alloc)), "push");
    holds(&rt, tells_of_a_script(libraries_tell(&list, &key)), "one");
    drop(key);
    drop(list);
}

#[test]
fn imports_tell_what_they_have(rt: HostRuntime) {
    let alloc = rt.alloc();
    let mut list = ImportList::new(alloc);
    let key = below(alloc);
    holds(&rt, tells_nothing(imports_tell(&list, &key)), "none");
    must(
        &rt,
        list.push(text(alloc, "a"), indexed(&rt, alloc)),
        "push",
    );
    holds(&rt, tells_of_a_script(imports_tell(&list, &key)), "one");
    drop(key);
    drop(list);
}

#[test]
fn statics_tell_what_they_have(rt: HostRuntime) {
    let alloc = rt.alloc();
    let mut map = ModuleMap::new(alloc);
    let key = below(alloc);
    holds(&rt, tells_nothing(statics_tell(&map, &key)), "none");
    must(
        &rt,
        map.insert(alloc, text(alloc, "a"), indexed(&rt, alloc)),
        "insert",
    );
    holds(&rt, tells_of_a_script(statics_tell(&map, &key)), "one");
    drop(key);
    drop(map);
}
