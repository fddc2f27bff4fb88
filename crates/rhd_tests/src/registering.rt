//! Engines: what is registered for all calls, and how types and calls are shown.

use crate::given::{SEEDS, int, is_text, one, plain, text, texts};
use crate::manifest::natives;
use crate::must::{for_all, holds, must, shared};
use crate::setters::has;
use rhd_decl::FuncRegistration;
use rhd_engine::{Builtins, Engine, Limits, Printers, RegisterIntoEngine, for_all_calls};
use rhd_func::CallShape;
use rhd_manifest::Manifests;
use rhd_value::{Dynamic, EvalAltResult, FnId, OutOfMemory, Position, Text, TypeTag, Value};
use std::alloc::Global;
use std::process::Abort;

/// An engine of three natives, in which nothing is registered.
pub fn engine(rt: &impl Abort, alloc: Global) -> Engine {
    let natives = natives(rt, alloc);
    let manifests = Manifests::new(alloc);
    let builtins = Builtins::new(alloc);
    let (limits, printers) = (Limits::DEFAULT, Printers::NONE);
    let made = Engine::new(alloc, natives, manifests, builtins, SEEDS, limits, printers);
    must(rt, made, "an engine")
}

#[test]
fn engines_are_made(rt: HostRuntime) {
    let alloc = rt.alloc();
    let engine = engine(&rt, alloc);
    holds(&rt, engine.limits() == Limits::DEFAULT, "limits");
    holds(&rt, engine.printers() == Printers::NONE, "printers");
    holds(&rt, engine.seeds() == SEEDS, "seeds");
    holds(&rt, engine.natives().len() == 3, "natives");
    holds(&rt, engine.manifests().len() == 0, "manifests");
    holds(&rt, engine.global_modules().len() == 1, "global_modules");
    holds(&rt, engine.static_modules().len() == 0, "static_modules");
    drop(engine);
}

/// Whether the first of the modules whose functions all calls find has one of the three natives under a
/// name.
fn finds(alloc: Global, engine: &Engine, name: &str, number: u32) -> bool {
    match engine.global_modules().as_slice() {
        [] => false,
        [first, ..] => has(alloc, first.module(), name, number),
    }
}

#[test]
fn natives_are_registered(rt: HostRuntime) {
    let alloc = rt.alloc();
    let mut engine = engine(&rt, alloc);
    let done = engine.register_fn(alloc, text(alloc, "f"), FnId(0));
    must(&rt, done, "register_fn");
    holds(&rt, finds(alloc, &engine, "f", 0), "a native");
    let done = engine.register_raw_fn(alloc, text(alloc, "g"), &[TypeTag::Int], FnId(1));
    must(&rt, done, "register_raw_fn");
    holds(&rt, finds(alloc, &engine, "g", 1), "a raw one");
    drop(engine);
}

#[test]
fn getters_and_setters_are_registered(rt: HostRuntime) {
    let alloc = rt.alloc();
    let mut engine = engine(&rt, alloc);
    let x = text(alloc, "x");
    must(&rt, engine.register_get(alloc, &x, FnId(0)), "register_get");
    holds(&rt, finds(alloc, &engine, "get$x", 0), "a getter");
    must(&rt, engine.register_set(alloc, &x, FnId(2)), "register_set");
    holds(&rt, finds(alloc, &engine, "set$x", 2), "a setter");
    drop(engine);
}

#[test]
fn properties_are_registered(rt: HostRuntime) {
    let alloc = rt.alloc();
    let mut engine = engine(&rt, alloc);
    let done = engine.register_get_set(alloc, &text(alloc, "x"), FnId(0), FnId(2));
    must(&rt, done, "register_get_set");
    holds(&rt, finds(alloc, &engine, "get$x", 0), "a getter");
    holds(&rt, finds(alloc, &engine, "set$x", 2), "a setter");
    drop(engine);
}

#[test]
fn indexers_are_registered(rt: HostRuntime) {
    let alloc = rt.alloc();
    let mut engine = engine(&rt, alloc);
    let done = engine.register_indexer_get(alloc, FnId(0));
    must(&rt, done, "register_indexer_get");
    holds(&rt, finds(alloc, &engine, "index$get$", 0), "it reads");
    let done = engine.register_indexer_set(alloc, FnId(2));
    must(&rt, done, "register_indexer_set");
    holds(&rt, finds(alloc, &engine, "index$set$", 2), "it writes");
    drop(engine);
}

#[test]
fn indexers_are_registered_in_pairs(rt: HostRuntime) {
    let alloc = rt.alloc();
    let mut engine = engine(&rt, alloc);
    let done = engine.register_indexer_get_set(alloc, FnId(0), FnId(2));
    must(&rt, done, "register_indexer_get_set");
    holds(&rt, finds(alloc, &engine, "index$get$", 0), "one reads");
    holds(&rt, finds(alloc, &engine, "index$set$", 2), "one writes");
    drop(engine);
}

#[test]
fn registrations_are_made(rt: HostRuntime) {
    let alloc = rt.alloc();
    let mut engine = engine(&rt, alloc);
    let reg = for_all(&rt, alloc, "f");
    let told = reg.register_into_engine(alloc, &mut engine, FnId(0));
    let told = must(&rt, told, "register_into_engine");
    holds(&rt, told.name.as_str() == "f", "its name");
    let params = texts(alloc, "_: i64");
    holds(&rt, told.params_info == params, "told by its type");
    drop(told);
    drop(engine);
}

/// Whether a text was made, and which.
fn is_made(made: Result<Text, OutOfMemory>, word: &str) -> bool {
    match made {
        Ok(made) => made.as_str() == word,
        Err(OutOfMemory) => false,
    }
}

/// Whether the first of the modules whose functions all calls find shows a type by its own name.
fn shows_itself(engine: &Engine, name: &Text) -> bool {
    match engine.global_modules().as_slice() {
        [] => false,
        [first, ..] => {
            let shown = first.module().get_custom_type_display_by_name(name);
            is_text(shown, name.as_str())
        }
    }
}

#[test]
fn types_are_registered(rt: HostRuntime) {
    let alloc = rt.alloc();
    let mut engine = engine(&rt, alloc);
    let done = engine.register_type_with_name_raw(alloc, text(alloc, "t"), text(alloc, "N"));
    must(&rt, done, "register_type_with_name_raw");
    let shown = engine.map_type_name(alloc, &text(alloc, "t"));
    holds(&rt, is_made(shown, "N"), "map_type_name");
    let done = engine.register_type_with_name(alloc, 1, text(alloc, "M"));
    must(&rt, done, "register_type_with_name");
    let value = Dynamic::from(Value::Custom(1, 0));
    let shown = engine.display_type(alloc, &value);
    drop(value);
    holds(&rt, is_made(shown, "M"), "display_type");
    must(&rt, engine.register_type(alloc, 2), "register_type");
    let shows = shows_itself(&engine, &text(alloc, "custom2"));
    holds(&rt, shows, "by its own name");
    drop(engine);
}

#[test]
fn modules_are_registered(rt: HostRuntime) {
    let alloc = rt.alloc();
    let mut engine = engine(&rt, alloc);
    let done = engine.register_global_module(alloc, shared(&rt, alloc, SEEDS));
    must(&rt, done, "register_global_module");
    holds(&rt, engine.global_modules().len() == 2, "one more");
    let added = shared(&rt, alloc, SEEDS);
    let done = engine.register_static_module(alloc, text(alloc, "a"), added);
    must(&rt, done, "register_static_module");
    let found = engine.static_modules().get(&text(alloc, "a"));
    holds(&rt, found.is_some(), "a static module");
    drop(engine);
}

/// Whether a fault tells that no function has this signature.
fn is_not_found(fault: Result<EvalAltResult, OutOfMemory>, signature: &str) -> bool {
    let found = match &fault {
        Ok(EvalAltResult::ErrorFunctionNotFound(text, _)) => text.as_str() == signature,
        _ => false,
    };
    drop(fault);
    found
}

#[test]
fn signatures_are_shown(rt: HostRuntime) {
    let alloc = rt.alloc();
    let engine = engine(&rt, alloc);
    let f = text(alloc, "f");
    let args = one(alloc, int(1));
    let shown = engine.gen_fn_call_signature(alloc, &f, &args);
    holds(&rt, is_made(shown, "f (i64)"), "gen_fn_call_signature");
    let shape = CallShape::Plain(args);
    let shown = engine.call_signature(alloc, &f, &shape);
    holds(&rt, is_made(shown, "f (i64)"), "call_signature");
    drop(shape);
    drop(engine);
}

#[test]
fn functions_are_not_found(rt: HostRuntime) {
    let alloc = rt.alloc();
    let engine = engine(&rt, alloc);
    let (f, shape) = (text(alloc, "f"), plain(alloc, 1));
    let fault = engine.not_found(alloc, &f, &shape, Position::NONE);
    holds(&rt, is_not_found(fault, "f (i64)"), "not_found");
    let path = texts(alloc, "a");
    let fault = engine.not_found_in(alloc, path.as_slice(), &f, &shape, Position::NONE);
    holds(&rt, is_not_found(fault, "a::f (i64)"), "not_found_in");
    drop(shape);
    drop(engine);
}

#[test]
fn registrations_are_for_all_calls(rt: HostRuntime) {
    let alloc = rt.alloc();
    let natives = natives(&rt, alloc);
    let reg = must(
        &rt,
        FuncRegistration::new(alloc, text(alloc, "f")),
        "a registration",
    );
    let told = must(&rt, for_all_calls(alloc, &natives, reg, FnId(2)), "memory");
    holds(
        &rt,
        told.params_info.len() == 2,
        "a parameter for each type",
    );
    holds(
        &rt,
        is_text(told.params_info.get(0), "_: i64"),
        "by its type",
    );
    drop(told);
    drop(natives);
}
