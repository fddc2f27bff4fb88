//! Custom types, flags, declarations and their faults.

use crate::given::{SEEDS, script_key, text, texts};
use crate::must::{holds, must};
use bitflags::Flags;
use rhd_decl::{
    CustomTypeInfo, CustomTypesCollection, DeclFault, Declaration, FuncMetadata, ModuleFlags,
    SharedMetadata, Switches,
};
use rhd_func::{FnAccess, FnNamespace, RhaiFunc};
use rhd_hash::{SharedKey, TableFault};
use rhd_value::{FnId, OutOfMemory, Text, Texts, Types};
use std::alloc::{AllocError, AllocFailed, Global};
use std::process::Abort;

/// How a type is shown: as `N`, with a comment.
fn shown(alloc: Global) -> CustomTypeInfo {
    CustomTypeInfo {
        type_name: text(alloc, "t"),
        display_name: text(alloc, "N"),
        comments: texts(alloc, "c"),
    }
}

#[test]
fn types_are_copied(rt: HostRuntime) {
    let alloc = rt.alloc();
    let info = shown(alloc);
    let dup = must(&rt, info.dup(alloc), "memory");
    holds(&rt, dup.display_name == info.display_name, "dup");
    let clone = must(&rt, info.clone(), "memory");
    holds(&rt, clone.comments == info.comments, "clone");
    drop(clone);
    drop(dup);
    drop(info);
}

/// Whether a type of this type name is shown as `N`.
fn has(types: &CustomTypesCollection, name: &Text) -> bool {
    match types.get(name) {
        Some(info) => info.display_name.as_str() == "N",
        None => false,
    }
}

/// Calls that put a type in.
fn check_types(rt: &impl Abort, alloc: Global, types: &mut CustomTypesCollection) {
    let name = text(alloc, "N");
    holds(rt, types.add(alloc, text(alloc, "a"), name).is_ok(), "add");
    let name = text(alloc, "N");
    let comments = texts(alloc, "c");
    let added = types.add_with_comments(alloc, text(alloc, "b"), name, comments);
    holds(rt, added.is_ok(), "add_with_comments");
    let added = types.add_raw(alloc, text(alloc, "c"), shown(alloc));
    holds(rt, added.is_ok(), "add_raw");
}

/// Calls that put a custom type in.
fn check_kinds(rt: &impl Abort, alloc: Global, types: &mut CustomTypesCollection) {
    let name = text(alloc, "N");
    holds(rt, types.add_type(alloc, 1, name).is_ok(), "add_type");
    let name = text(alloc, "N");
    let comments = texts(alloc, "c");
    let added = types.add_type_with_comments(alloc, 2, name, comments);
    holds(rt, added.is_ok(), "add_type_with_comments");
}

#[test]
fn types_are_collected(rt: HostRuntime) {
    let alloc = rt.alloc();
    let mut types = CustomTypesCollection::new(alloc);
    check_types(&rt, alloc, &mut types);
    check_kinds(&rt, alloc, &mut types);
    let copy = must(&rt, types.dup(alloc), "types are copied");
    for name in ["a", "b", "c", "custom1", "custom2"] {
        holds(&rt, has(&copy, &text(alloc, name)), name);
    }
    let mut count = 0u8;
    for _ in copy.iter() {
        count = count.saturating_add(1);
    }
    holds(&rt, count == 5, "five types");
    types.clear();
    holds(&rt, types.get(&text(alloc, "a")).is_none(), "cleared");
    drop(copy);
    drop(types);
}

#[test]
fn flags_are_set(rt: HostRuntime) {
    let mut made = Switches::new();
    holds(
        &rt,
        !made.is_internal() && !made.is_standard(),
        "none is set",
    );
    made.set_internal(true);
    holds(&rt, made.is_internal(), "internal");
    made.set_standard(true);
    holds(&rt, made.is_standard() && !made.is_indexed(), "standard");
    made.set_indexed(true);
    let dup = made.dup();
    holds(&rt, dup.is_indexed(), "indexed");
    made.set_internal(false);
    holds(&rt, !made.is_internal() && dup.is_internal(), "taken back");
    drop(dup);
    drop(made);
}

#[test]
fn flags_are_bits(rt: HostRuntime) {
    let both = ModuleFlags::from_bits_retain(5);
    holds(&rt, both.bits() == 5, "two bits");
    holds(&rt, both.contains(ModuleFlags::INDEXED), "indexed");
    holds(&rt, !both.contains(ModuleFlags::STANDARD), "not standard");
    let flags = <ModuleFlags as Flags>::flags();
    let named = match flags {
        [first, _second, _third] => first.name() == "INTERNAL",
        _ => false,
    };
    holds(&rt, named, "names");
}

/// A native without parameters, and what is said of it.
pub fn declaration(rt: &impl Abort, alloc: Global) -> Declaration {
    let metadata = FuncMetadata {
        hash: 1,
        namespace: FnNamespace::Global,
        access: FnAccess::Public,
        name: text(alloc, "f"),
        num_params: 0,
        param_types: Types::new(alloc),
        params_info: Texts::new(alloc),
        return_type: Text::new(alloc),
        comments: texts(alloc, "c"),
    };
    let shared = SharedMetadata::new(alloc, metadata);
    Declaration {
        func: RhaiFunc::plugin(FnId(0)),
        metadata: must(rt, shared, "memory"),
    }
}

#[test]
fn declarations_are_copied(rt: HostRuntime) {
    let alloc = rt.alloc();
    let made = declaration(&rt, alloc);
    let metadata = must(&rt, made.metadata().dup(alloc), "metadata is copied");
    holds(
        &rt,
        metadata.name.as_str() == "f" && metadata.hash == 1,
        "of f",
    );
    let dup = must(&rt, made.dup(alloc), "a declaration is copied");
    holds(&rt, dup.func.is_plugin_fn(), "a plugin");
    drop(dup);
    drop(metadata);
    drop(made);
}

/// Whether a fault tells that keys of `f` and `g` clash.
fn is_collision(fault: &DeclFault) -> bool {
    match fault {
        DeclFault::HashCollision { held, new } => {
            held.key().name().as_str() == "f" && new.key().name().as_str() == "g"
        }
        _ => false,
    }
}

/// Whether a fault is want of memory.
fn is_memory(fault: &DeclFault) -> bool {
    matches!(fault, DeclFault::OutOfMemory)
}

#[test]
fn faults_are_made(rt: HostRuntime) {
    let alloc = rt.alloc();
    let held = SharedKey::new(alloc, script_key(alloc, "f"), SEEDS);
    let new = SharedKey::new(alloc, script_key(alloc, "g"), SEEDS);
    let clash = TableFault::Clash {
        held: must(&rt, held, "a key"),
        new: must(&rt, new, "another"),
    };
    let fault = DeclFault::from(clash);
    let dup = must(&rt, fault.dup(alloc), "a fault is copied");
    holds(&rt, is_collision(&fault), "a clash");
    drop(fault);
    holds(&rt, is_collision(&dup), "the same clash");
    drop(dup);
}

#[test]
fn memory_is_wanting(rt: HostRuntime) {
    let fault = DeclFault::from(OutOfMemory);
    holds(&rt, is_memory(&fault), "want of memory");
    drop(fault);
    let fault = DeclFault::from(AllocError);
    holds(&rt, is_memory(&fault), "of the allocator");
    drop(fault);
    let fault = DeclFault::from(AllocFailed { value: 1u8 });
    holds(&rt, is_memory(&fault), "with a value");
    drop(fault);
}
