//! Natives that are put into modules: properties, indexers and raw ones, and which calls they may match.

use crate::given::{SEEDS, text, types};
use crate::manifest::{is_native, natives, push_native};
use crate::must::{empty, for_all, holds, must};
use rhd_decl::{DeclFault, refuse_banned, refuse_indexer};
use rhd_func::{Natives, RhaiFunc};
use rhd_hash::{Key, Steps};
use rhd_module::Module;
use rhd_value::{FnId, TypeTag};
use std::alloc::Global;
use std::process::Abort;

/// The key of one of the three natives under a name: the last takes two integers, each other takes one.
fn key_of(alloc: Global, name: &str, number: u32) -> Key {
    let mut params = types(alloc, TypeTag::Int);
    if number == 2 {
        let _ = params.push(TypeTag::Int);
    }
    Key::Native {
        path: None,
        name: text(alloc, name),
        types: params,
    }
}

/// Whether a module has one of the three natives under a name.
pub fn has(alloc: Global, module: &Module, name: &str, number: u32) -> bool {
    let (key, mut steps) = (key_of(alloc, name, number), Steps::new());
    let has = is_native(module.get_fn(&key, &mut steps), number);
    drop(key);
    has
}

/// Whether a hash is that of the key of one of the three natives under a name.
fn is_hash(alloc: Global, hash: u64, name: &str, number: u32) -> bool {
    let key = key_of(alloc, name, number);
    let same = hash == key.mixed(SEEDS);
    drop(key);
    same
}

#[test]
fn getters_and_setters_are_put(rt: HostRuntime) {
    let alloc = rt.alloc();
    let natives = natives(&rt, alloc);
    let mut module = empty(&rt, alloc, SEEDS);
    let x = text(alloc, "x");
    let hash = module.set_getter_fn(alloc, &natives, &x, FnId(0));
    let hash = must(&rt, hash, "set_getter_fn");
    holds(&rt, is_hash(alloc, hash, "get$x", 0), "its hash");
    holds(&rt, has(alloc, &module, "get$x", 0), "a getter");
    let hash = module.set_setter_fn(alloc, &natives, &x, FnId(2));
    let hash = must(&rt, hash, "set_setter_fn");
    holds(&rt, is_hash(alloc, hash, "set$x", 2), "its hash");
    holds(&rt, has(alloc, &module, "set$x", 2), "a setter");
    drop(module);
    drop(natives);
}

#[test]
fn properties_are_put(rt: HostRuntime) {
    let alloc = rt.alloc();
    let natives = natives(&rt, alloc);
    let mut module = empty(&rt, alloc, SEEDS);
    let x = text(alloc, "x");
    let both = module.set_getter_setter_fn(alloc, &natives, &x, FnId(0), FnId(2));
    let (get, set) = must(&rt, both, "set_getter_setter_fn");
    holds(&rt, is_hash(alloc, get, "get$x", 0), "its first hash");
    holds(&rt, is_hash(alloc, set, "set$x", 2), "its second hash");
    holds(&rt, has(alloc, &module, "get$x", 0), "a getter");
    holds(&rt, has(alloc, &module, "set$x", 2), "a setter");
    drop(module);
    drop(natives);
}

#[test]
fn indexers_are_put(rt: HostRuntime) {
    let alloc = rt.alloc();
    let natives = natives(&rt, alloc);
    let mut module = empty(&rt, alloc, SEEDS);
    let hash = module.set_indexer_get_fn(alloc, &natives, FnId(0));
    let hash = must(&rt, hash, "set_indexer_get_fn");
    holds(&rt, is_hash(alloc, hash, "index$get$", 0), "its hash");
    holds(&rt, has(alloc, &module, "index$get$", 0), "it reads");
    let hash = module.set_indexer_set_fn(alloc, &natives, FnId(2));
    let hash = must(&rt, hash, "set_indexer_set_fn");
    holds(&rt, is_hash(alloc, hash, "index$set$", 2), "its hash");
    holds(&rt, has(alloc, &module, "index$set$", 2), "it writes");
    drop(module);
    drop(natives);
}

#[test]
fn indexers_are_put_in_pairs(rt: HostRuntime) {
    let alloc = rt.alloc();
    let natives = natives(&rt, alloc);
    let mut module = empty(&rt, alloc, SEEDS);
    let both = module.set_indexer_get_set_fn(alloc, &natives, FnId(0), FnId(2));
    let (get, set) = must(&rt, both, "set_indexer_get_set_fn");
    holds(&rt, is_hash(alloc, get, "index$get$", 0), "its first hash");
    holds(&rt, is_hash(alloc, set, "index$set$", 2), "its second hash");
    holds(&rt, has(alloc, &module, "index$get$", 0), "one reads");
    holds(&rt, has(alloc, &module, "index$set$", 2), "one writes");
    drop(module);
    drop(natives);
}

#[test]
fn raw_natives_are_put(rt: HostRuntime) {
    let alloc = rt.alloc();
    let natives = natives(&rt, alloc);
    let mut module = empty(&rt, alloc, SEEDS);
    let reg = for_all(&rt, alloc, "f");
    let (types, func) = ([TypeTag::Int], RhaiFunc::plugin(FnId(1)));
    let told = module.set_fn_raw_with_options(alloc, reg, &natives, &types, func);
    let told = must(&rt, told, "set_fn_raw_with_options");
    holds(&rt, told.num_params == 1, "one parameter");
    holds(&rt, has(alloc, &module, "f", 1), "a plugin");
    drop(told);
    drop(module);
    drop(natives);
}

#[test]
fn natives_may_match(rt: HostRuntime) {
    let alloc = rt.alloc();
    let natives = natives(&rt, alloc);
    let mut module = empty(&rt, alloc, SEEDS);
    let hash = module.set_native_fn(alloc, &natives, text(alloc, "f"), FnId(0));
    let hash = must(&rt, hash, "a native");
    let reg = for_all(&rt, alloc, "g");
    let (any, func) = ([TypeTag::Dynamic], RhaiFunc::plugin(FnId(1)));
    let told = module.set_fn_raw_with_options(alloc, reg, &natives, &any, func);
    drop(must(&rt, told, "of any type"));
    let (f, g) = (text(alloc, "f"), text(alloc, "g"));
    holds(&rt, module.may_match(0, &g, &[TypeTag::Int]), "any type");
    holds(&rt, !module.may_match(0, &f, &[TypeTag::Int]), "one alone");
    holds(&rt, !module.may_list_dynamic_fn(hash), "nothing is listed");
    drop(g);
    drop(f);
    drop(module);
    drop(natives);
}

/// Whether a native is refused as an indexer that reads.
fn is_refused(alloc: Global, natives: &Natives, id: FnId) -> bool {
    let name = text(alloc, "index$get$");
    match refuse_indexer(alloc, natives, &name, id) {
        Err(DeclFault::IndexerNotAllowed { key }) => {
            drop(key);
            true
        }
        other => {
            drop(other);
            false
        }
    }
}

#[test]
fn indexers_are_refused(rt: HostRuntime) {
    let alloc = rt.alloc();
    let mut natives = natives(&rt, alloc);
    let mut two = types(alloc, TypeTag::Array);
    let _ = two.push(TypeTag::Int);
    push_native(&rt, alloc, &mut natives, two);
    holds(&rt, !is_refused(alloc, &natives, FnId(0)), "of an integer");
    holds(&rt, is_refused(alloc, &natives, FnId(3)), "of an array");
    holds(&rt, !is_refused(alloc, &natives, FnId(4)), "not held");
    let name = text(alloc, "f");
    let native = natives.get(FnId(3));
    holds(&rt, native.is_some(), "the native itself");
    if let Some(native) = native {
        let done = refuse_banned(alloc, native, &name);
        holds(&rt, done.is_ok(), "as no indexer");
        drop(done);
    }
    drop(natives);
}
