//! Which function a call means, and which call has a locked argument.

ghost use Rattle.std.specs.Prelude.{◌≡◌, ℕ, true};
ghost use Rattle.rhd_engine.specs.Held.{names_held, all_held, named_held};

use crate::given::{SEEDS, int, one, plain, text, texts};
use crate::must::{holds, must, shared, shared_script};
use crate::registering::engine;
use rhd_dispatch::{
    Ask, Found, Layer, Pick, QualifiedAsk, ensure_no_data_race, has_root, resolve,
    resolve_qualified, resolve_qualified_call,
};
use rhd_engine::{Engine, GlobalRuntimeState};
use rhd_func::CallShape;
use rhd_hash::Steps;
use rhd_layers::SharedModule;
use rhd_value::{EvalAltResult, Position, TypeTag, Values};
use std::alloc::Global;
use std::process::Abort;

/// Whether a fault tells that an argument of a call of `f` is locked.
fn is_race(fault: &Option<EvalAltResult>) -> bool {
    match fault {
        Some(EvalAltResult::ErrorDataRace(text, _pos)) => {
            text.as_str() == "argument #1 of function 'f'"
        }
        _ => false,
    }
}

#[test]
fn locked_arguments_are_found(rt: HostRuntime) {
    let alloc = rt.alloc();
    let f = text(alloc, "f");
    let shape = plain(alloc, 1);
    let found = ensure_no_data_race(alloc, &f, &shape, Position::NONE);
    let fault = must(&rt, found, "an answer");
    holds(&rt, fault.is_none(), "no lock");
    let mut value = int(1);
    value.marks.locked = true;
    let shape = CallShape::Plain(one(alloc, value));
    let found = ensure_no_data_race(alloc, &f, &shape, Position::NONE);
    let fault = must(&rt, found, "an answer");
    holds(&rt, is_race(&fault), "a lock");
}

/// An indexed module with a script `s` without parameters.
fn with_script(rt: &impl Abort, alloc: Global) -> SharedModule
    ensures held { (natives : ℕ) → names_held natives result ≡ true }
    ensures indexed { result.own.indexed ≡ true }
{
    let mut made = shared(rt, alloc, SEEDS);
    let def = shared_script(rt, alloc, "s");
    must(rt, made.set_script_fn(alloc, def), "a script");
    must(rt, made.build_index(alloc), "its index");
    made
}

/// A state whose import `a` has a script `s` without parameters.
fn importing(rt: &impl Abort, alloc: Global) -> GlobalRuntimeState
    ensures imports { (natives : ℕ) → named_held natives result.imports ≡ true }
    ensures libs { (natives : ℕ) → all_held natives result.lib ≡ true }
{
    let mut state = GlobalRuntimeState::new(alloc);
    let put = state.push_import(text(alloc, "a"), with_script(rt, alloc));
    must(rt, put, "an import");
    state
}

/// Whether a call means a script of the first import.
fn is_imported(pick: Option<&Pick>) -> bool {
    match pick {
        Some(pick) => pick.layer == Layer::Import(0) && pick.func.is_script(),
        None => false,
    }
}

#[test]
fn paths_begin_in_modules(rt: HostRuntime) {
    let alloc = rt.alloc();
    let (engine, state) = (engine(&rt, alloc), importing(&rt, alloc));
    let (path, other) = (texts(alloc, "a"), texts(alloc, "b"));
    holds(&rt, has_root(&engine, &state, path.as_slice()), "an import");
    let found = has_root(&engine, &state, other.as_slice());
    holds(&rt, !found, "no other");
    drop(state);
    drop(engine);
}

#[test]
fn a_path_leads_to_a_script(rt: HostRuntime) {
    let alloc = rt.alloc();
    let (engine, state) = (engine(&rt, alloc), importing(&rt, alloc));
    let (path, name) = (texts(alloc, "a"), text(alloc, "s"));
    let shape = CallShape::Plain(Values::new(alloc));
    let mut steps = Steps::new();
    let found = resolve_qualified_call(alloc, &engine, &state, &path, &name, &shape, &mut steps);
    let pick = must(&rt, found, "an answer");
    holds(&rt, is_imported(pick.as_ref()), "the script");
    holds(&rt, steps.count() == 1, "one look-up");
    drop(pick);
    drop(shape);
    drop(state);
    drop(engine);
}

/// Whether a question has no answer, and takes so many look-ups. It is dropped.
fn is_unknown(
    rt: &impl Abort,
    alloc: Global,
    engine: &Engine,
    state: &GlobalRuntimeState,
    ask: Ask,
    looks: u64,
) -> bool
    requires { (natives : ℕ) → (named_held natives state.now.imports ≡ true) × (all_held natives state.now.lib ≡ true) }
{
    let mut ask = ask;
    let mut steps = Steps::new();
    let found = resolve(alloc, engine, state, &mut ask, &mut steps);
    let pick = must(rt, found, "an answer");
    let unknown = pick.is_none();
    drop(pick);
    drop(ask);
    unknown && steps.count() == looks
}

#[test]
fn questions_are_asked_where_filters_tell(rt: HostRuntime) {
    let alloc = rt.alloc();
    let (engine, state) = (engine(&rt, alloc), importing(&rt, alloc));
    let (name, this_type) = (text(alloc, "s"), text(alloc, "t"));
    let ask = must(&rt, Ask::script(alloc, &name, 0), "a question");
    holds(
        &rt,
        is_unknown(&rt, alloc, &engine, &state, ask, 0),
        "script",
    );
    let ask = must(&rt, Ask::typed(alloc, &name, 0, &this_type), "a question");
    holds(
        &rt,
        is_unknown(&rt, alloc, &engine, &state, ask, 0),
        "typed",
    );
    let ask = Ask::native(alloc, &name, &[TypeTag::Int], None);
    let ask = must(&rt, ask, "a question");
    holds(
        &rt,
        is_unknown(&rt, alloc, &engine, &state, ask, 0),
        "native",
    );
    drop(state);
    drop(engine);
}

/// Whether a script of the first import was found.
fn is_script(found: Option<Found>) -> bool {
    match found {
        Some(found) => found.layer == Layer::Import(0) && found.func.is_script(),
        None => false,
    }
}

#[test]
fn questions_are_asked_below_a_path(rt: HostRuntime) {
    let alloc = rt.alloc();
    let (engine, state) = (engine(&rt, alloc), importing(&rt, alloc));
    let (path, name) = (texts(alloc, "a"), text(alloc, "s"));
    let made = QualifiedAsk::new(alloc, path.as_slice(), &name, &[]);
    let mut asks = must(&rt, made, "questions");
    let mut steps = Steps::new();
    let found = resolve_qualified(&engine, &state, path.as_slice(), &mut asks, &mut steps);
    holds(&rt, is_script(found), "the script");
    holds(&rt, steps.count() == 1, "one look-up");
    drop(asks);
    drop(state);
    drop(engine);
}
