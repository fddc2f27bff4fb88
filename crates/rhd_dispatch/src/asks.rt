//! The questions that a call asks in order: for scripts, for natives, for a built-in operator.

ghost use Rattle.std.specs.Prelude.{◌≡◌, ◌≤◌, ◌+◌, [], ◌∷◌, true, IfOk, IfSome, length};
ghost use Rattle.rhd_value.specs.Firsts.{first_of};
ghost use Rattle.rhd_engine.specs.Held.{func_held, all_held, named_held};
ghost use Rattle.rhd_engine.specs.Of.{lists_of};
ghost use Rattle.rhd_dispatch.specs.Asks.{looked, native_ask, typed_asks, allowed_asks, asks, pick_unqualified};
ghost use Rattle.rhd_dispatch.specs.Looks.{most_looks};

use crate::ask::{Ask, find_answer};
use crate::keys::{kinds_of, params_of};
use rhd_call::Pick;
use rhd_engine::{Engine, GlobalRuntimeState};
use rhd_func::CallShape;
use rhd_hash::Steps;
use rhd_names::OpToken;
use rhd_value::{OutOfMemory, Text};
use std::alloc::Global;

/// The script of its object's type that a method call means.
fn find_method(
    alloc: Global,
    engine: &Engine,
    state: &GlobalRuntimeState,
    name: &Text,
    shape: &CallShape,
    steps: &mut Steps,
) -> Result<Option<Pick>, OutOfMemory>
    ensures pick { IfOk result (λ pick. pick ≡ first_of (looked (lists_of info engine.now) state.now.lib state.now.imports) (typed_asks (lists_of info engine.now) name.now shape.now)) }
    ensures steps { steps.new ≤ steps.old + most_looks (lists_of info engine.now) state.now.lib state.now.imports (typed_asks (lists_of info engine.now) name.now shape.now) }
{
    match shape {
        CallShape::Plain(_) => Ok(None),
        CallShape::ByRef(_, _) => Ok(None),
        CallShape::Method(object, args) => {
            let this_type = engine.display_type(alloc, object)?;
            let mut ask = Ask::typed(alloc, name, args.len() as u64, &this_type)?;
            find_answer(alloc, engine, state, &mut ask, steps)
        }
    }
}

/// The script that a call means, where scripts are allowed.
fn find_script(
    alloc: Global,
    engine: &Engine,
    state: &GlobalRuntimeState,
    name: &Text,
    native_only: bool,
    shape: &CallShape,
    steps: &mut Steps,
) -> Result<Option<Pick>, OutOfMemory>
    ensures pick { IfOk result (λ pick. pick ≡ first_of (looked (lists_of info engine.now) state.now.lib state.now.imports) (allowed_asks (lists_of info engine.now) name.now native_only shape.now)) }
    ensures steps { steps.new ≤ steps.old + most_looks (lists_of info engine.now) state.now.lib state.now.imports (allowed_asks (lists_of info engine.now) name.now native_only shape.now) }
{
    if native_only {
        return Ok(None);
    }
    match find_method(alloc, engine, state, name, shape, steps)? {
        Some(pick) => Ok(Some(pick)),
        None => {
            let mut ask = Ask::script(alloc, name, params_of(shape))?;
            find_answer(alloc, engine, state, &mut ask, steps)
        }
    }
}

/// The native that a call means, or else the built-in.
fn find_native(
    alloc: Global,
    engine: &Engine,
    state: &GlobalRuntimeState,
    name: &Text,
    token: Option<OpToken>,
    shape: &CallShape,
    steps: &mut Steps,
) -> Result<Option<Pick>, OutOfMemory>
    ensures pick { IfOk result (λ pick. pick ≡ looked (lists_of info engine.now) state.now.lib state.now.imports (native_ask name.now token shape.now)) }
    ensures steps { steps.new ≤ steps.old + most_looks (lists_of info engine.now) state.now.lib state.now.imports (native_ask name.now token shape.now ∷ []) }
{
    let kinds = kinds_of(alloc, shape)?;
    let mut ask = Ask::of_kinds(alloc, name, kinds, token)?;
    find_answer(alloc, engine, state, &mut ask, steps)
}

/// The function that a call by name means: of the scripts, where they are allowed, and then of the
/// natives and built-ins. It makes at most one look-up for each key of each question in each module, also
/// where memory runs out.
pub fn resolve_call(
    alloc: Global,
    engine: &Engine,
    state: &GlobalRuntimeState,
    name: &Text,
    token: Option<OpToken>,
    native_only: bool,
    shape: &CallShape,
    steps: &mut Steps,
) -> Result<Option<Pick>, OutOfMemory>
    requires libs { all_held (length engine.now.natives.items.items) state.now.lib ≡ true }
    requires imports { named_held (length engine.now.natives.items.items) state.now.imports ≡ true }
    ensures pick { IfOk result (λ pick. pick ≡ pick_unqualified (lists_of info engine.now) state.now.lib state.now.imports name.now token native_only shape.now) }
    ensures held { IfOk result (λ pick. IfSome pick (λ p. func_held (length engine.now.natives.items.items) p.func ≡ true)) }
    ensures steps { steps.new ≤ steps.old + most_looks (lists_of info engine.now) state.now.lib state.now.imports (asks (lists_of info engine.now) name.now token native_only shape.now) }
{
    match find_script(alloc, engine, state, name, native_only, shape, steps)? {
        Some(pick) => Ok(Some(pick)),
        None => find_native(alloc, engine, state, name, token, shape, steps),
    }
}
