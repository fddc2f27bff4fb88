//! The search for what a key finds, over the modules in which a call looks. It takes no memory.

ghost use Rattle.std.specs.Prelude.{◌≡◌, ◌≤◌, ◌+◌, true, false, None, IfOk, length};
ghost use Rattle.std.specs.Option.{option_map};
ghost use Rattle.rhd_value.specs.Firsts.{first_of};
ghost use Rattle.rhd_hash.specs.declared.key.Key.{Key};
ghost use Rattle.rhd_hash.specs.Keys.{is_script_key};
ghost use Rattle.rhd_call.specs.declared.pick.Layer.TheVariants as layers;
ghost use Rattle.rhd_layers.specs.Lists.{all_indexed};
ghost use Rattle.rhd_dispatch.specs.Searched.{pick_at};
ghost use Rattle.rhd_dispatch.specs.Walks.{numbered, latest, alone, rooted, in_own, in_tree, found_in, picked};

use rhd_call::{Layer, Pick};
use rhd_engine::{Engine, GlobalRuntimeState, ModuleMap};
use rhd_func::RhaiFunc;
use rhd_hash::{HashedKey, Key, Seeds, Steps};
use rhd_layers::{ImportList, MarkedModule, ModuleList, SharedModule};
use rhd_module::Module;
use rhd_value::{OutOfMemory, Text};
use std::alloc::Global;

/// A function that was found, with the module in which it was, or the root of that one's tree.
#[derive(Clone, Copy)]
pub struct Found<'a> {
    pub layer: Layer,
    pub func: &'a RhaiFunc,
    pub place: &'a Module,
}

impl<'a> Found<'a> {
    /// A pick of the function. It shares the function and the id of the module.
    #[inline(always)]
    pub fn to_pick(self, alloc: Global) -> Result<Pick, OutOfMemory>
        ensures { IfOk result (λ pick. pick ≡ picked self.entry.layer self.entry.func.now self.entry.place.now) }
    {
        Ok(Pick {
            layer: self.layer,
            func: self.func.dup(alloc)?,
            source: self.place.share_id(alloc)?,
        })
    }
}

/// A pick of what was found, if anything was.
pub(crate) fn pick_found(alloc: Global, found: Option<Found>) -> Result<Option<Pick>, OutOfMemory>
    ensures { IfOk result (λ pick. pick ≡ option_map (λ f. picked f.layer f.func.now f.place.now) found.entry) }
{
    match found {
        Some(found) => Ok(Some(found.to_pick(alloc)?)),
        None => Ok(None),
    }
}

/// What a module itself shows under a key.
#[tactic(auto, using(crate::proofs::Looks::raised_once))]
#[inline(always)]
fn look_own<'a>(
    place: &'a Module,
    layer: Layer,
    key: &HashedKey,
    steps: &mut Steps,
) -> Option<Found<'a>>
    ensures found { option_map (λ f. picked f.layer f.func.now f.place.now) result ≡ pick_at key.now (alone layer place.now) }
    ensures steps { steps.new ≤ steps.old + 1 }
{
    match place.get_hashed_fn(key, steps) {
        Some(func) => Some(Found { layer, func, place }),
        None => None,
    }
}

/// What the tree of a module has under a key.
#[tactic(auto, using(crate::proofs::Looks::raised_once))]
#[inline(always)]
pub(crate) fn look_tree<'a>(
    place: &'a Module,
    layer: Layer,
    key: &HashedKey,
    steps: &mut Steps,
) -> Option<Found<'a>>
    requires { place.now.own.indexed ≡ true }
    ensures found { option_map (λ f. picked f.layer f.func.now f.place.now) result ≡ pick_at key.now (rooted layer place.now) }
    ensures steps { steps.new ≤ steps.old + 1 }
{
    match place.get_qualified_hashed_fn(key, steps) {
        Some(func) => Some(Found { layer, func, place }),
        None => None,
    }
}

/// The same of a module with its marks.
#[tactic(auto, using(crate::proofs::Looks::raised_once))]
fn look_marked<'a>(
    place: &'a MarkedModule,
    layer: Layer,
    key: &HashedKey,
    steps: &mut Steps,
) -> Option<Found<'a>>
    requires { place.now.own.indexed ≡ true }
    ensures found { option_map (λ f. picked f.layer f.func.now f.place.now) result ≡ pick_at key.now (rooted layer place.now) }
    ensures steps { steps.new ≤ steps.old + 1 }
{
    if !place.may_have(key) {
        return None;
    }
    look_tree(place.module(), layer, key, steps)
}

/// What the latest library has that has the key.
fn find_library<'a>(
    libs: &'a [SharedModule],
    key: &HashedKey,
    steps: &mut Steps,
) -> Option<Found<'a>>
    ensures found { option_map (λ f. picked f.layer f.func.now f.place.now) result ≡ first_of (in_own layers.Library key.now) (latest libs.now) }
    ensures steps { steps.new ≤ steps.old + length libs.now }
{
    for number in (0..libs.len()).rev() {
        let library = libs[number].module();
        let found = look_own(library, Layer::Library(number as u64), key, steps);
        if found.is_some() {
            return found;
        }
    }
    None
}

/// The same, where some library may have the key.
fn search_libraries<'a>(
    libs: &'a ModuleList,
    key: &HashedKey,
    steps: &mut Steps,
) -> Option<Found<'a>>
    ensures found { option_map (λ f. picked f.layer f.func.now f.place.now) result ≡ first_of (in_own layers.Library key.now) (latest libs.now) }
    ensures steps { steps.new ≤ steps.old + length libs.now }
{
    if !libs.may_have(key) {
        return None;
    }
    find_library(libs.as_slice(), key, steps)
}

/// What the first global module has that has the key.
fn find_global<'a>(
    globals: &'a [SharedModule],
    key: &HashedKey,
    steps: &mut Steps,
) -> Option<Found<'a>>
    ensures found { option_map (λ f. picked f.layer f.func.now f.place.now) result ≡ first_of (in_own layers.Global key.now) (numbered globals.now) }
    ensures steps { steps.new ≤ steps.old + length globals.now }
{
    for number in 0..globals.len() {
        let global = globals[number].module();
        let found = look_own(global, Layer::Global(number as u64), key, steps);
        if found.is_some() {
            return found;
        }
    }
    None
}

/// The same, where some global module may have the key.
fn search_globals<'a>(
    globals: &'a ModuleList,
    key: &HashedKey,
    steps: &mut Steps,
) -> Option<Found<'a>>
    ensures found { option_map (λ f. picked f.layer f.func.now f.place.now) result ≡ first_of (in_own layers.Global key.now) (numbered globals.now) }
    ensures steps { steps.new ≤ steps.old + length globals.now }
{
    if !globals.may_have(key) {
        return None;
    }
    find_global(globals.as_slice(), key, steps)
}

/// What the tree of the latest import has that has the key.
fn find_import<'a>(
    imports: &'a [(Text, SharedModule)],
    key: &HashedKey,
    steps: &mut Steps,
) -> Option<Found<'a>>
    requires { all_indexed imports.now ≡ true }
    ensures found { option_map (λ f. picked f.layer f.func.now f.place.now) result ≡ first_of (in_tree layers.Import key.now) (latest imports.now) }
    ensures steps { steps.new ≤ steps.old + length imports.now }
{
    for number in (0..imports.len()).rev() {
        let import = imports[number].1.module();
        let found = look_tree(import, Layer::Import(number as u64), key, steps);
        if found.is_some() {
            return found;
        }
    }
    None
}

/// The same, where the tree of some import may have the key.
fn search_imports<'a>(
    imports: &'a ImportList,
    key: &HashedKey,
    steps: &mut Steps,
) -> Option<Found<'a>>
    ensures found { option_map (λ f. picked f.layer f.func.now f.place.now) result ≡ first_of (in_tree layers.Import key.now) (latest imports.now) }
    ensures steps { steps.new ≤ steps.old + length imports.now }
{
    if !imports.may_have(key) {
        return None;
    }
    find_import(imports.as_slice(), key, steps)
}

/// What the tree of the first static module has that has the key.
fn find_static<'a>(statics: &'a ModuleMap, key: &HashedKey, steps: &mut Steps) -> Option<Found<'a>>
    ensures found { option_map (λ f. picked f.layer f.func.now f.place.now) result ≡ first_of (in_tree layers.Static key.now) (numbered statics.now) }
    ensures steps { steps.new ≤ steps.old + length statics.now }
{
    // Numbers are below the length.
    let _count = statics.len();
    let mut number = 0;
    for (_name, marked) in statics.iter() {
        let found = look_marked(marked, Layer::Static(number), key, steps);
        if found.is_some() {
            return found;
        }
        number += 1;
    }
    None
}

/// The same, where the tree of some static module may have the key.
fn search_statics<'a>(
    statics: &'a ModuleMap,
    key: &HashedKey,
    steps: &mut Steps,
) -> Option<Found<'a>>
    ensures found { option_map (λ f. picked f.layer f.func.now f.place.now) result ≡ first_of (in_tree layers.Static key.now) (numbered statics.now) }
    ensures steps { steps.new ≤ steps.old + length statics.now }
{
    if !statics.may_have(key) {
        return None;
    }
    find_static(statics, key, steps)
}

/// All modules in which a call looks.
#[derive(Clone, Copy)]
pub(crate) struct AllModules<'a> {
    pub state: &'a GlobalRuntimeState,
    pub globals: &'a ModuleList,
    pub statics: &'a ModuleMap,
    /// Those of the engine.
    pub seeds: Seeds,
}

impl<'a> AllModules<'a> {
    /// Those of an engine and a state.
    pub(crate) fn new(engine: &'a Engine, state: &'a GlobalRuntimeState) -> AllModules<'a>
        ensures state { result.state.now ≡ state.now }
        ensures globals { result.globals.now ≡ engine.now.globals }
        ensures statics { result.statics.now ≡ engine.now.statics }
    {
        AllModules {
            state,
            globals: engine.global_modules(),
            statics: engine.static_modules(),
            seeds: engine.seeds(),
        }
    }
}

/// What is found under a key: of the libraries, latest first, of the global modules in order, of the
/// imports, latest first, and of the static modules in ascending order of name. Each is asked once at most.
fn find_hashed<'a>(modules: AllModules<'a>, key: &HashedKey, steps: &mut Steps) -> Option<Found<'a>>
    ensures found { option_map (λ f. picked f.layer f.func.now f.place.now) result ≡ found_in modules.entry.state.now.lib modules.entry.globals.now modules.entry.state.now.imports modules.entry.statics.now key.now }
    ensures steps { steps.new ≤ steps.old + (length modules.entry.state.now.lib + length modules.entry.globals.now + length modules.entry.state.now.imports + length modules.entry.statics.now) }
{
    let in_library = search_libraries(&modules.state.lib, key, steps);
    if in_library.is_some() {
        return in_library;
    }
    let in_global = search_globals(modules.globals, key, steps);
    if in_global.is_some() {
        return in_global;
    }
    let in_import = search_imports(&modules.state.imports, key, steps);
    if in_import.is_some() {
        return in_import;
    }
    search_statics(modules.statics, key, steps)
}

/// Whether some module in which a call looks may have a script.
fn may_have_script(modules: AllModules) -> bool
    ensures { result ≡ false → (key : Key) → is_script_key key ≡ true
        → found_in modules.entry.state.now.lib modules.entry.globals.now modules.entry.state.now.imports modules.entry.statics.now key ≡ None }
{
    modules.globals.may_have_script()
        | modules.state.lib.may_have_script()
        | modules.state.imports.may_have_script()
        | modules.statics.may_have_script()
}

/// The same for a key that isn't hashed yet. It is hashed once, under the seeds of the engine, and not at
/// all where it is a script's and no module has one.
pub(crate) fn find<'a>(modules: AllModules<'a>, key: &Key, steps: &mut Steps) -> Option<Found<'a>>
    ensures found { option_map (λ f. picked f.layer f.func.now f.place.now) result ≡ found_in modules.entry.state.now.lib modules.entry.globals.now modules.entry.state.now.imports modules.entry.statics.now key.now }
    ensures steps { steps.new ≤ steps.old + (length modules.entry.state.now.lib + length modules.entry.globals.now + length modules.entry.state.now.imports + length modules.entry.statics.now) }
{
    if key.is_script() & !may_have_script(modules) {
        return None;
    }
    find_hashed(modules, &HashedKey::new(key, modules.seeds), steps)
}
