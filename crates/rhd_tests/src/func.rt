//! Functions, natives, requests and what calls are answered: how they are made, read, copied and shown.

use crate::given::{script, text, texts};
use crate::must::{holds, must, shared_script};
use rhd_func::{
    BodyId, FnAccess, FnNamespace, IterId, RhaiFunc, ScriptFuncDef, SharedDef, SharedText, share,
};
use rhd_value::FnId;
use std::alloc::Global;

/// A native that takes its arguments by value.
fn by_value() -> RhaiFunc {
    RhaiFunc::Pure {
        func: FnId(0),
        has_context: false,
        is_pure: true,
        is_volatile: false,
    }
}

/// A native that takes its first argument by reference.
fn by_reference() -> RhaiFunc {
    RhaiFunc::Method {
        func: FnId(1),
        has_context: true,
        is_pure: true,
        is_volatile: true,
    }
}

/// A private method `f` of integers with one parameter.
fn private_method(alloc: Global) -> ScriptFuncDef {
    ScriptFuncDef {
        name: text(alloc, "f"),
        params: texts(alloc, "p"),
        this_type: Some(text(alloc, "i64")),
        access: FnAccess::Private,
        body: BodyId(0),
    }
}

#[test]
fn natives_are_shown(rt: HostRuntime) {
    let alloc = rt.alloc();
    let pure = by_value();
    let shown = must(&rt, format!(in alloc; "{pure} {pure:?}"), "memory");
    let wanted = "NativePureFunction NativePureFunction";
    holds(&rt, shown.as_str() == wanted, "by value");
    let method = by_reference();
    let iterator = RhaiFunc::Iterator { func: IterId(0) };
    let shown = must(&rt, format!(in alloc; "{method} {iterator}"), "memory");
    holds(
        &rt,
        shown.as_str() == "NativeMethod NativeIterator",
        "others",
    );
    let plugin = RhaiFunc::plugin(FnId(0));
    let listed = RhaiFunc::StaticPlugin { func: FnId(0) };
    let shown = must(&rt, format!(in alloc; "{plugin} {listed}"), "memory");
    holds(
        &rt,
        shown.as_str() == "PluginFunction PluginFunction",
        "plugins",
    );
}

#[test]
fn scripts_are_shown(rt: HostRuntime) {
    let alloc = rt.alloc();
    let mut def = script(alloc, "f");
    def.params = texts(alloc, "p");
    let _ = def.params.push(text(alloc, "q"));
    let public = RhaiFunc::from(must(&rt, SharedDef::new(alloc, def), "shared"));
    let shown = must(&rt, format!(in alloc; "{public:?}"), "memory");
    holds(&rt, shown.as_str() == "f(p, q)", "public");
    let def = private_method(alloc);
    let private = RhaiFunc::from(must(&rt, SharedDef::new(alloc, def), "shared"));
    let shown = must(&rt, format!(in alloc; "{private}"), "memory");
    holds(&rt, shown.as_str() == "private i64.f(p)", "private");
}

#[test]
fn access_is_told(rt: HostRuntime) {
    let private = FnAccess::Private;
    holds(&rt, private.is_private() && !private.is_public(), "private");
    let global = FnNamespace::Global;
    holds(&rt, global.is_global_namespace(), "found by all");
    holds(
        &rt,
        !global.is_module_namespace(),
        "not in its module alone",
    );
}

#[test]
fn numbers_are_told(rt: HostRuntime) {
    let pure = by_value();
    holds(&rt, pure.get_native_fn() == Some(FnId(0)), "get_native_fn");
    holds(&rt, !pure.is_iter(), "it doesn't iterate");
    let plugin = RhaiFunc::plugin(FnId(2));
    holds(
        &rt,
        plugin.get_plugin_fn() == Some(FnId(2)),
        "get_plugin_fn",
    );
    let iterator = RhaiFunc::Iterator { func: IterId(3) };
    holds(
        &rt,
        iterator.get_iter_fn() == Some(IterId(3)),
        "get_iter_fn",
    );
    holds(&rt, iterator.is_iter(), "it iterates");
    drop(iterator);
    drop(plugin);
    drop(pure);
}

/// Whether a definition is there, and has this name.
fn is_named(def: Option<&SharedDef>, name: &str) -> bool {
    match def {
        Some(shared) => shared.def().name.as_str() == name,
        None => false,
    }
}

#[test]
fn definitions_are_told(rt: HostRuntime) {
    let script = RhaiFunc::from(shared_script(&rt, rt.alloc(), "f"));
    let named = is_named(script.get_script_fn_def(), "f");
    holds(&rt, named, "get_script_fn_def");
    drop(script);
}

/// Whether a shared text is there, and which.
fn is_shared(shared: Option<&SharedText>, word: &str) -> bool {
    match shared {
        Some(shared) => shared.text().as_str() == word,
        None => false,
    }
}

#[test]
fn texts_are_shared(rt: HostRuntime) {
    let alloc = rt.alloc();
    let made = SharedText::new(alloc, text(alloc, "a"));
    let made = Some(must(&rt, made, "a shared text"));
    let shared = must(&rt, share(alloc, &made), "share");
    holds(&rt, is_shared(shared.as_ref(), "a"), "the same text");
    drop(shared);
    drop(made);
}
