//! Built-in operators.

ghost use Rattle.std.specs.Prelude.{◌≡◌};
ghost use Rattle.rhd_func.specs.Infos.{infos_of};
ghost use Rattle.rhd_func.specs.Natives.{says};
ghost use Rattle.rhd_engine.specs.Of.{lists_of};
ghost use Rattle.rhd_dispatch.specs.Asks.{builtin, builtin_pick};

use rhd_call::{Layer, Pick};
use rhd_engine::Engine;
use rhd_func::{Natives, PluginFunc, RhaiFunc};
use rhd_names::OpToken;
use rhd_value::{FnId, TypeTag};

/// Whether a native is handed the context of the call.
fn takes_context(native: &Box<dyn PluginFunc>) -> bool
    ensures { result ≡ (info native.now).has_context }
{
    native.has_context()
}

/// Whether a native may answer otherwise the next time.
fn may_change(native: &Box<dyn PluginFunc>) -> bool
    ensures { result ≡ (info native.now).is_volatile }
{
    native.is_volatile()
}

/// Whether the native of a number is handed the context of the call.
fn native_has_context(natives: &Natives, id: FnId) -> bool
    ensures { result ≡ says (λ n. n.has_context) (infos_of info natives.now) id }
{
    match natives.get(id) {
        Some(native) => takes_context(native),
        None => false,
    }
}

/// Whether the native of a number may answer otherwise the next time.
fn native_is_volatile(natives: &Natives, id: FnId) -> bool
    ensures { result ≡ says (λ n. n.is_volatile) (infos_of info natives.now) id }
{
    match natives.get(id) {
        Some(native) => may_change(native),
        None => false,
    }
}

/// A built-in function: a method, and pure where its token is no assignment.
fn builtin_of(engine: &Engine, token: OpToken, id: FnId) -> Pick
    ensures { result ≡ builtin_pick (lists_of info engine.now) token id }
{
    let has_context = native_has_context(engine.natives(), id);
    let is_volatile = native_is_volatile(engine.natives(), id);
    Pick {
        layer: Layer::Builtin,
        func: RhaiFunc::Method {
            func: id,
            has_context,
            is_pure: !token.is_op_assignment(),
            is_volatile,
        },
        source: None,
    }
}

/// The built-in of a token and two kinds.
#[inline(always)]
pub(crate) fn find_builtin(
    engine: &Engine,
    token: Option<OpToken>,
    kinds: &[TypeTag],
) -> Option<Pick>
    ensures { result ≡ builtin (lists_of info engine.now) token kinds.now }
{
    let Some(token) = token else {
        return None;
    };
    if kinds.len() != 2 {
        return None;
    }
    let left = kinds[0];
    let right = kinds[1];
    match engine.builtins().get(token, left, right) {
        Some(id) => Some(builtin_of(engine, token, id)),
        None => None,
    }
}
