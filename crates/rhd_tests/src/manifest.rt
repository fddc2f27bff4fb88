//! Manifests, and modules that list their functions.

use crate::given::{SEEDS, int, is_int, native_key, text, types};
use crate::must::{empty, holds, must};
use rhd_algebra::{EntryCalls, ManifestCalls, ModuleManifests};
use rhd_decl::DeclFault;
use rhd_func::{
    CallDone, Carry, FnNamespace, ManifestId, NativeCallContext, NativeStep, Natives, PluginFunc,
    RhaiFunc,
};
use rhd_hash::{HashedKey, Key, Steps};
use rhd_manifest::{FnManifestEntry, Manifests, ModuleManifest};
use rhd_module::Module;
use rhd_value::{Dynamic, FnId, OutOfMemory, Texts, TypeTag, Types, Values};
use std::alloc::Global;
use std::process::Abort;

/// A native that answers nought.
#[derive(Drop)]
struct Nought {
    types: Types,
}

impl PluginFunc for Nought {
    ghost use Rattle.std.specs.Prelude.{true, false};

    ghost info = { λ n. record { types = n.types; is_method = false; has_context = false; is_pure = true; is_volatile = false } };

    ghost allows_call = { λ _ _ _ _ _. Unit {0} };

    ghost allows_resume = { λ _ _ _ _ _. Unit {0} };

    fn call(
        &self,
        _alloc: Global,
        _ctx: Option<&NativeCallContext>,
        first: Option<Dynamic>,
        _args: Values,
    ) -> Result<NativeStep, OutOfMemory> {
        let answer = int(0);
        Ok(NativeStep::Done { answer, first })
    }

    fn resume(
        &self,
        _alloc: Global,
        _ctx: Option<&NativeCallContext>,
        carry: Carry,
        _done: CallDone,
    ) -> Result<NativeStep, OutOfMemory> {
        let Carry {
            first,
            kept: answer,
        } = carry;
        Ok(NativeStep::Done { answer, first })
    }

    fn param_types(&self) -> &[TypeTag] {
        self.types.as_slice()
    }

    fn is_method_call(&self) -> bool {
        false
    }

    fn has_context(&self) -> bool {
        false
    }

    fn is_pure(&self) -> bool {
        true
    }

    fn is_volatile(&self) -> bool {
        false
    }
}

/// A native with these parameters more.
pub fn push_native(rt: &impl Abort, alloc: Global, natives: &mut Natives, types: Types) {
    assert!(rt; natives.len() < 10, "a few natives");
    let made = must(rt, Box::new(alloc, Nought { types }), "a native");
    let native: Box<dyn PluginFunc> = made;
    must(rt, natives.push(alloc, native), "a native more");
}

/// Two natives of an integer, and one of two.
pub fn natives(rt: &impl Abort, alloc: Global) -> Natives {
    let mut natives = Natives::new(alloc);
    push_native(rt, alloc, &mut natives, types(alloc, TypeTag::Int));
    push_native(rt, alloc, &mut natives, types(alloc, TypeTag::Int));
    let mut two = types(alloc, TypeTag::Int);
    let _ = two.push(TypeTag::Int);
    push_native(rt, alloc, &mut natives, two);
    natives
}

/// A manifest more.
fn push(rt: &impl Abort, alloc: Global, manifests: &mut Manifests) -> ManifestId {
    assert!(rt; manifests.len() < 10, "a few manifests");
    must(rt, manifests.push(alloc), "a manifest")
}

/// A manifest lists natives under a name, in this order.
fn list(
    rt: &impl Abort,
    alloc: Global,
    manifests: &mut Manifests,
    id: ManifestId,
    word: &str,
    funcs: &[u32],
) {
    let natives = natives(rt, alloc);
    for func in funcs {
        let (held, known) = (id.0 as usize, *func as usize);
        assert!(rt;
            held < manifests.len() && known < natives.len(),
            "both are held"
        );
        let (name, namespace) = (text(alloc, word), FnNamespace::Internal);
        let put = manifests.push_entry(alloc, &natives, id, name, namespace, FnId(*func));
        must(rt, put, "listed");
    }
    holds(rt, manifests.fits(&natives), "each fits its native");
    drop(natives);
}

/// A manifest gets the sub-manifest `s`.
fn nest(rt: &impl Abort, alloc: Global, manifests: &mut Manifests, id: ManifestId, s: ManifestId) {
    assert!(rt;
        (id.0 as usize) < manifests.len() && s.0 < id.0,
        "of a lower number"
    );
    let put = manifests.push_sub(alloc, id, text(alloc, "s"), s);
    must(rt, put, "below it");
}

/// A manifest gets the variable `x`, and shows integers as `int`.
fn describe(rt: &impl Abort, alloc: Global, manifests: &mut Manifests, id: ManifestId) {
    assert!(rt; (id.0 as usize) < manifests.len(), "it is held");
    let var = manifests.push_var(alloc, id, text(alloc, "x"), int(1));
    must(rt, var, "a variable");
    assert!(rt; (id.0 as usize) < manifests.len(), "it is held still");
    let shown = manifests.push_type(alloc, id, text(alloc, "i64"), text(alloc, "int"));
    must(rt, shown, "a custom type");
}

/// Two manifests: the second lists `f` once, and has below it the first, which lists it twice.
fn two(rt: &impl Abort, alloc: Global) -> Manifests {
    let mut manifests = Manifests::new(alloc);
    let low = push(rt, alloc, &mut manifests);
    list(rt, alloc, &mut manifests, low, "f", &[1, 0]);
    let high = push(rt, alloc, &mut manifests);
    list(rt, alloc, &mut manifests, high, "f", &[1]);
    nest(rt, alloc, &mut manifests, high, low);
    describe(rt, alloc, &mut manifests, high);
    manifests
}

/// The second of them.
const HIGH: ManifestId = ManifestId(1);

/// A manifest that is held.
fn held<'m>(rt: &impl Abort, manifests: &'m Manifests, id: ManifestId) -> &'m ModuleManifest {
    match manifests.get(id) {
        Some(manifest) => manifest,
        None => panic!(rt; "it is held"),
    }
}

/// The first function that a manifest lists.
fn first<'m>(rt: &impl Abort, manifest: &'m ModuleManifest) -> &'m FnManifestEntry {
    match manifest.functions().first() {
        Some(entry) => entry,
        None => panic!(rt; "it lists something"),
    }
}

/// The key of `f`.
fn f(alloc: Global) -> Key {
    native_key(alloc, "f", TypeTag::Int)
}

/// Whether a function is this native.
pub fn is_native(func: Option<&RhaiFunc>, number: u32) -> bool {
    match func {
        Some(func) => func.native_id() == Some(FnId(number)),
        None => false,
    }
}

/// Whether `f` is this native in a module, which one look-up tells.
fn finds(alloc: Global, module: &Module, number: u32) -> bool {
    let key = f(alloc);
    let mut steps = Steps::new();
    let found = is_native(module.get_fn(&key, &mut steps), number);
    let contains = module.contains_fn(&key);
    drop(key);
    found && contains && steps.count() == 1
}

/// A module that lists the second manifest, flattened or not.
fn listing(rt: &impl Abort, alloc: Global, flatten: bool) -> Module {
    let mut module = empty(rt, alloc, SEEDS);
    let manifests = two(rt, alloc);
    let added = module.add_manifest(alloc, &manifests, HIGH, flatten);
    must(rt, added, "a manifest is added");
    drop(manifests);
    module
}

/// A manifest that lists a native of any type under `f`.
fn listing_any(rt: &impl Abort, alloc: Global) -> Manifests {
    let mut natives = Natives::new(alloc);
    push_native(rt, alloc, &mut natives, types(alloc, TypeTag::Dynamic));
    let mut manifests = Manifests::new(alloc);
    let id = push(rt, alloc, &mut manifests);
    assert!(rt;
        (id.0 as usize) < manifests.len() && natives.len() == 1,
        "both are held"
    );
    let (name, namespace) = (text(alloc, "f"), FnNamespace::Internal);
    let put = manifests.push_entry(alloc, &natives, id, name, namespace, FnId(0));
    must(rt, put, "listed");
    drop(natives);
    manifests
}

#[test]
fn a_listed_native_of_any_type_is_told(rt: HostRuntime) {
    let alloc = rt.alloc();
    let mut module = empty(&rt, alloc, SEEDS);
    let key = native_key(alloc, "f", TypeTag::Dynamic);
    let hash = key.untyped(SEEDS);
    holds(&rt, !module.may_list_dynamic_fn(hash), "nothing is listed");
    let manifests = listing_any(&rt, alloc);
    let added = module.add_manifest(alloc, &manifests, ManifestId(0), false);
    must(&rt, added, "a manifest is added");
    holds(&rt, module.may_list_dynamic_fn(hash), "it is listed");
    drop(manifests);
    drop(key);
    drop(module);
}

#[test]
fn manifests_are_read(rt: HostRuntime) {
    let alloc = rt.alloc();
    let two = two(&rt, alloc);
    let manifests = must(&rt, two.dup(alloc), "a copy");
    drop(two);
    let manifest = held(&rt, &manifests, HIGH);
    holds(&rt, manifest.sub_modules().len() == 1, "one below");
    holds(&rt, manifests.get(ManifestId(2)).is_none(), "no third");
    drop(manifests);
}

#[test]
fn contents_are_read(rt: HostRuntime) {
    let manifests = two(&rt, rt.alloc());
    let manifest = held(&rt, &manifests, HIGH);
    for (name, value) in manifest.vars() {
        let same = name.as_str() == "x" && is_int(Some(value), 1);
        holds(&rt, same, "its variable");
    }
    for (name, display) in manifest.custom_types() {
        let same = name.as_str() == "i64" && display.as_str() == "int";
        holds(&rt, same, "its type");
    }
    drop(manifests);
}

/// An entry is `f`, and takes a parameter by value.
fn check_entry(rt: &impl Abort, entry: &FnManifestEntry) {
    holds(rt, entry.name().as_str() == "f", "its name");
    holds(rt, entry.func() == FnId(1), "its native");
    holds(rt, entry.num_params() == 1, "its parameters");
    holds(rt, !entry.is_method(), "by value");
    let hash = entry.calc_dynamic_hash(SEEDS);
    holds(rt, hash.is_none(), "no parameter is any");
}

#[test]
fn entries_are_read(rt: HostRuntime) {
    let alloc = rt.alloc();
    let manifests = two(&rt, alloc);
    let entry = first(&rt, held(&rt, &manifests, HIGH));
    check_entry(&rt, entry);
    let key = f(alloc);
    holds(&rt, *entry.key() == key, "its key");
    let hash = HashedKey::new(&key, SEEDS).hash_under(SEEDS);
    drop(key);
    holds(&rt, entry.calc_hash(SEEDS, &[]) == hash, "its hash");
    drop(manifests);
}

#[test]
fn entries_have_types(rt: HostRuntime) {
    let manifests = two(&rt, rt.alloc());
    let entry = first(&rt, held(&rt, &manifests, HIGH));
    let count = entry.with_param_types(|types| types.len());
    holds(&rt, count == 1, "with_param_types");
    let same = entry.has_param_types(&[TypeTag::Int]);
    holds(&rt, same, "has_param_types");
    let internal = entry.namespace() == FnNamespace::Internal;
    holds(&rt, internal, "namespace");
    drop(manifests);
}

#[test]
fn entries_are_walked(rt: HostRuntime) {
    let manifests = two(&rt, rt.alloc());
    let manifest = held(&rt, &manifests, HIGH);
    let mut order = 0u64;
    manifest.for_each_fn(
        &manifests,
        true,
        &mut |entry| {
            order = order
                .wrapping_mul(10)
                .wrapping_add(u64::from(entry.func().0));
        },
    );
    holds(&rt, order == 110, "its own, then 1 and 0 of the one below");
    drop(manifests);
}

/// Whether an entry is for this native.
fn is_func(entry: Option<&FnManifestEntry>, number: u32) -> bool {
    match entry {
        Some(entry) => entry.func() == FnId(number),
        None => false,
    }
}

#[test]
fn entries_are_searched(rt: HostRuntime) {
    let manifests = two(&rt, rt.alloc());
    let manifest = held(&rt, &manifests, HIGH);
    let found = manifest.find_fn(&manifests, true, |entry| entry.num_params() == 1);
    holds(&rt, is_func(found, 0), "the last below");
    let found = manifest.find_fn(&manifests, false, |entry| entry.num_params() == 1);
    holds(&rt, is_func(found, 1), "its own");
    drop(manifests);
}

#[test]
fn a_flattened_manifest_goes_before(rt: HostRuntime) {
    let alloc = rt.alloc();
    let module = listing(&rt, alloc, true);
    holds(&rt, finds(alloc, &module, 0), "the last below");
    holds(&rt, module.count().1 == 0, "none is declared");
    let dup = must(&rt, module.dup(alloc), "a copy");
    holds(&rt, finds(alloc, &dup, 0), "as it does");
    drop(dup);
    drop(module);
}

/// An indexed module that lists the second manifest.
fn indexed(rt: &impl Abort, alloc: Global) -> Module {
    let mut module = listing(rt, alloc, false);
    must(rt, module.build_index(alloc), "indexed");
    module
}

#[test]
fn a_manifest_below_has_a_path(rt: HostRuntime) {
    let alloc = rt.alloc();
    let module = indexed(&rt, alloc);
    holds(&rt, finds(alloc, &module, 1), "its own");
    assert!(&rt; module.is_indexed(), "indexed");
    let key = f(alloc);
    let pathed = key.dup_at(alloc, &Texts::new(alloc));
    drop(key);
    let pathed = must(&rt, pathed, "a key");
    let mut steps = Steps::new();
    let func = module.get_qualified_fn(&pathed, &mut steps);
    holds(&rt, is_native(func, 1), "under its path");
    drop(pathed);
    drop(module);
}

/// A module that lists natives, and declares another one.
fn declaring(rt: &impl Abort, alloc: Global) -> Module {
    let mut module = listing(rt, alloc, false);
    let natives = natives(rt, alloc);
    let set = module.set_native_fn(alloc, &natives, text(alloc, "f"), FnId(0));
    must(rt, set, "declared");
    drop(natives);
    module
}

#[test]
fn a_declaration_goes_before_what_is_listed(rt: HostRuntime) {
    let alloc = rt.alloc();
    let mut module = declaring(&rt, alloc);
    holds(&rt, finds(alloc, &module, 0), "what is declared");
    holds(&rt, module.iter_manifests().len() == 1, "listed besides");
    must(&rt, module.register_listed(alloc), "registered");
    holds(&rt, finds(alloc, &module, 0), "as before");
    holds(&rt, module.iter_manifests().is_empty(), "none is listed");
    holds(&rt, module.count().1 == 1, "in one place");
    drop(module);
}

/// The module of the second manifest.
fn made(rt: &impl Abort, alloc: Global) -> Module {
    let manifests = two(rt, alloc);
    let made = Module::from_manifest(alloc, &manifests, SEEDS, HIGH);
    drop(manifests);
    must(rt, made, "a module")
}

#[test]
fn a_module_is_made_of_a_manifest(rt: HostRuntime) {
    let alloc = rt.alloc();
    let mut module = made(&rt, alloc);
    holds(&rt, finds(alloc, &module, 1), "its own");
    holds(&rt, module.count().0 == 1, "its variable");
    holds(&rt, module.has_lazy_functions(), "it lists something");
    must(&rt, module.register_lazy_functions(alloc), "registered");
    holds(&rt, !module.has_lazy_functions(), "no more");
    holds(&rt, finds(alloc, &module, 1), "as before");
    drop(module);
}

#[test]
fn a_manifest_is_combined(rt: HostRuntime) {
    let alloc = rt.alloc();
    let mut module = empty(&rt, alloc, SEEDS);
    let manifests = two(&rt, alloc);
    let combined = module.combine_manifest(alloc, &manifests, HIGH);
    must(&rt, combined, "combined");
    holds(&rt, finds(alloc, &module, 0), "flattened");
    drop(module);
    drop(manifests);
}

/// Two manifests: the first lists a banned indexer, and is below the second.
fn banned(rt: &impl Abort, alloc: Global) -> Manifests {
    let mut manifests = Manifests::new(alloc);
    let low = push(rt, alloc, &mut manifests);
    list(rt, alloc, &mut manifests, low, "index$get$", &[2]);
    let high = push(rt, alloc, &mut manifests);
    nest(rt, alloc, &mut manifests, high, low);
    manifests
}

/// Whether an indexer is banned, so that a call did nothing.
fn is_banned<T: Drop>(done: Result<T, DeclFault>) -> bool {
    let banned = matches!(&done, Err(DeclFault::IndexerNotAllowed { .. }));
    drop(done);
    banned
}

#[test]
fn a_banned_indexer_is_refused(rt: HostRuntime) {
    let alloc = rt.alloc();
    let manifests = banned(&rt, alloc);
    let mut module = empty(&rt, alloc, SEEDS);
    let added = module.add_manifest(alloc, &manifests, HIGH, false);
    holds(&rt, is_banned(added), "below");
    let entry = first(&rt, held(&rt, &manifests, ManifestId(0)));
    let put = entry.register_into(alloc, &mut module);
    holds(&rt, is_banned(put), "not by itself either");
    holds(&rt, module.is_empty(), "it stays as it was");
    drop(module);
    drop(manifests);
}

#[test]
fn a_manifest_is_put_in_by_itself(rt: HostRuntime) {
    let alloc = rt.alloc();
    let manifests = two(&rt, alloc);
    let manifest = held(&rt, &manifests, HIGH);
    let mut module = empty(&rt, alloc, SEEDS);
    must(&rt, manifest.init_eager(alloc, &mut module), "its contents");
    holds(&rt, module.count() == (1, 0, 0), "one variable");
    let put = first(&rt, manifest).register_into(alloc, &mut module);
    must(&rt, put, "a function");
    holds(&rt, finds(alloc, &module, 1), "and a function");
    drop(module);
    drop(manifests);
}
