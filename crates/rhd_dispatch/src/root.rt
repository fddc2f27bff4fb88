//! The module in which a path begins.

ghost use Rattle.std.specs.Prelude.{◌≡◌, true, is_some};
ghost use Rattle.std.specs.Option.{option_map};
ghost use Rattle.std.specs.Map.{lookup};
ghost use Rattle.rhd_value.specs.Firsts.{first_of};
ghost use Rattle.rhd_value.specs.Same.{text_eq};
ghost use Rattle.rhd_call.specs.declared.pick.Layer.TheVariants.{Import, Static};
ghost use Rattle.rhd_layers.specs.Lists.{all_indexed};
ghost use Rattle.rhd_engine.specs.Of.{lists_of};
ghost use Rattle.rhd_dispatch.specs.Picks.{named_places, root_of};
ghost use Rattle.rhd_dispatch.specs.Walks.{numbered, latest, rooted, named_at};

use rhd_call::Layer;
use rhd_engine::{Engine, GlobalRuntimeState, ModuleMap};
use rhd_layers::SharedModule;
use rhd_module::Module;
use rhd_value::Text;

/// The root of a tree, at its layer. It is indexed.
#[derive(Clone, Copy)]
pub(crate) struct Root<'a> {
    pub layer: Layer,
    pub place: &'a Module,
    ghost is_indexed: { place.now.own.indexed ≡ true },
}

/// A root.
fn root_at(layer: Layer, place: &Module) -> Root<'_>
    requires { place.now.own.indexed ≡ true }
    ensures { rooted result.layer result.place.now ≡ rooted layer place.now }
{
    Root { layer, place }
}

/// The latest import of a name.
fn import_root<'a>(imports: &'a [(Text, SharedModule)], name: &Text) -> Option<Root<'a>>
    requires { all_indexed imports.now ≡ true }
    ensures { option_map (λ r. rooted r.layer r.place.now) result ≡ first_of (named_at Import name.now) (latest imports.now) }
{
    for number in (0..imports.len()).rev() {
        let (own, shared) = &imports[number];
        if *name == *own {
            return Some(root_at(Layer::Import(number as u64), shared.module()));
        }
    }
    None
}

/// The static module of a name.
fn static_root<'a>(statics: &'a ModuleMap, name: &Text) -> Option<Root<'a>>
    ensures { option_map (λ r. rooted r.layer r.place.now) result ≡ first_of (named_at Static name.now) (numbered statics.now) }
{
    // Numbers are below the length.
    let _count = statics.len();
    let mut number = 0;
    for (own, shared) in statics.iter() {
        if *name == *own {
            return Some(root_at(Layer::Static(number), shared.module()));
        }
        number += 1;
    }
    None
}

/// The module of a name: the latest import, or else the static module of that name.
fn named_root<'a>(
    engine: &'a Engine,
    state: &'a GlobalRuntimeState,
    name: &Text,
) -> Option<Root<'a>>
    ensures { option_map (λ r. rooted r.layer r.place.now) result ≡ lookup (text_eq name.now) (named_places (lists_of info engine.now) state.now.imports) }
{
    let import = import_root(state.imports.as_slice(), name);
    if import.is_some() {
        return import;
    }
    static_root(engine.static_modules(), name)
}

/// Whether some import or static module has a name.
fn has_named(engine: &Engine, state: &GlobalRuntimeState, name: &Text) -> bool
    ensures { result ≡ is_some (lookup (text_eq name.now) (named_places (lists_of info engine.now) state.now.imports)) }
{
    import_root(state.imports.as_slice(), name).is_some()
        || engine.static_modules().get(name).is_some()
}

/// Whether some import or static module has the first name of a path.
#[tactic(auto, unfolding(crate::specs::Picks::root_of))]
pub fn has_root(engine: &Engine, state: &GlobalRuntimeState, path: &[Text]) -> bool
    ensures { result ≡ is_some (root_of (lists_of info engine.now) state.now.imports path.now) }
{
    match path {
        [] => false,
        [name, _rest @ ..] => has_named(engine, state, name),
    }
}

/// The module in which a path begins: that of its first name.
#[tactic(auto, unfolding(crate::specs::Picks::root_of))]
pub(crate) fn find_root<'a>(
    engine: &'a Engine,
    state: &'a GlobalRuntimeState,
    path: &[Text],
) -> Option<Root<'a>>
    ensures { option_map (λ r. rooted r.layer r.place.now) result ≡ root_of (lists_of info engine.now) state.now.imports path.now }
{
    match path {
        [] => None,
        [name, _rest @ ..] => named_root(engine, state, name),
    }
}
