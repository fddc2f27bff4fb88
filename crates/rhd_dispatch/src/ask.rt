//! The questions that a call asks, and what answers them.

ghost use Rattle.std.specs.Prelude.{◌≡◌, ◌≤◌, ◌+◌, ◌*◌, true, IfOk, IfSome, length};
ghost use Rattle.std.specs.Option.{option_map};
ghost use Rattle.rhd_engine.specs.Held.{func_held, all_held, named_held};
ghost use Rattle.rhd_engine.specs.Of.{lists_of};
ghost use Rattle.rhd_dispatch.specs.Asks.{typed, script, native, looked, declared};
ghost use Rattle.rhd_dispatch.specs.Looks.{keys_of};
ghost use Rattle.rhd_dispatch.specs.Searched.{searched};
ghost use Rattle.rhd_dispatch.specs.Walks.{picked};

use crate::look::Look;
use crate::operators::find_builtin;
use crate::patterns::find_typed;
use crate::search::{AllModules, Found};
use rhd_call::Pick;
use rhd_engine::{Engine, GlobalRuntimeState};
use rhd_hash::{Key, Steps};
use rhd_names::OpToken;
use rhd_value::{OutOfMemory, Text, TypeTag, Types};
use std::alloc::Global;
use std::marker::Model;

/// A whole question: for a script of a type, for a script, or for a native or built-in. Contracts see the
/// question.
pub struct Ask {
    /// The key of what is asked for. A native's has the types of the pattern in hand.
    key: Key,
    token: Option<OpToken>,
}

/// A function of its own, so that what drops a question doesn't ask which one it is.
impl Drop for Ask {
    #[inline(always)]
    fn drop(self) {
        let Ask {
            key: _key,
            token: _,
        } = self;
    }
}

impl Model for Ask {
    ghost use Rattle.rhd_dispatch.specs.Asks.{Asked, asked_of, IsAsk};

    ghost Value = { Asked };

    ghost view = { λ a. asked_of a.key a.token };

    ghost invariant = { λ a. IsAsk a.key a.token };
}

impl Ask {
    /// For a script method of a type, by its number of parameters.
    pub fn typed(
        alloc: Global,
        name: &Text,
        params: u64,
        this_type: &Text,
    ) -> Result<Ask, OutOfMemory>
        ensures { IfOk result (λ ask. ask ≡ typed name.now params this_type.now) }
    {
        Ok(Ask {
            key: Key::Typed {
                path: None,
                name: name.dup(alloc)?,
                params,
                this_type: this_type.dup(alloc)?,
            },
            token: None,
        })
    }

    /// For a script of no type, by its number of parameters.
    pub fn script(alloc: Global, name: &Text, params: u64) -> Result<Ask, OutOfMemory>
        ensures { IfOk result (λ ask. ask ≡ script name.now params) }
    {
        Ok(Ask {
            key: Key::Script {
                path: None,
                name: name.dup(alloc)?,
                params,
            },
            token: None,
        })
    }

    /// For a native, by the kinds of its arguments, or else for the built-in operator of a token and these
    /// kinds.
    pub fn native(
        alloc: Global,
        name: &Text,
        kinds: &[TypeTag],
        token: Option<OpToken>,
    ) -> Result<Ask, OutOfMemory>
        ensures { IfOk result (λ ask. ask ≡ native name.now kinds.now token) }
    {
        Ask::of_kinds(alloc, name, Types::from_slice(alloc, kinds)?, token)
    }

    /// The same, which takes the kinds.
    pub(crate) fn of_kinds(
        alloc: Global,
        name: &Text,
        kinds: Types,
        token: Option<OpToken>,
    ) -> Result<Ask, OutOfMemory>
        ensures { IfOk result (λ ask. ask ≡ native name.now kinds token) }
    {
        Ok(Ask {
            key: Key::Native {
                path: None,
                name: name.dup(alloc)?,
                types: kinds,
            },
            token,
        })
    }
}

/// The declaration that answers a question: a script's by its key, a native's by the patterns of its kinds.
#[inline(always)]
fn look_up<'a>(
    engine: &'a Engine,
    state: &'a GlobalRuntimeState,
    ask: &mut Ask,
    steps: &mut Steps,
) -> Option<Found<'a>>
    ensures found { option_map (λ f. picked f.layer f.func.now f.place.now) result ≡ declared (lists_of info engine.now) state.now.lib state.now.imports ask.old }
    ensures kept { ask.new ≡ ask.old }
    ensures steps { steps.new ≤ steps.old + keys_of ask.old * length (searched (lists_of info engine.now) state.now.lib state.now.imports) }
{
    let modules = AllModules::new(engine, state);
    if ask.key.is_script() {
        return modules.find(&ask.key, steps);
    }
    find_typed(modules, modules.seeds, &mut ask.key, steps)
}

/// What answers a question: a declaration, or else, for a native, the built-in operator.
#[inline(always)]
pub(crate) fn find_answer(
    alloc: Global,
    engine: &Engine,
    state: &GlobalRuntimeState,
    ask: &mut Ask,
    steps: &mut Steps,
) -> Result<Option<Pick>, OutOfMemory>
    ensures pick { IfOk result (λ pick. pick ≡ looked (lists_of info engine.now) state.now.lib state.now.imports ask.old) }
    ensures kept { ask.new ≡ ask.old }
    ensures steps { steps.new ≤ steps.old + keys_of ask.old * length (searched (lists_of info engine.now) state.now.lib state.now.imports) }
{
    match look_up(engine, state, ask, steps) {
        Some(found) => Ok(Some(found.to_pick(alloc)?)),
        None => Ok(find_builtin(engine, ask.token, ask.key.types())),
    }
}

/// What answers a question: a declaration, or else, for a native, the built-in operator. It makes at most
/// one look-up for each key of the question in each module, also where memory runs out.
pub fn resolve(
    alloc: Global,
    engine: &Engine,
    state: &GlobalRuntimeState,
    ask: &mut Ask,
    steps: &mut Steps,
) -> Result<Option<Pick>, OutOfMemory>
    requires libs { all_held (length engine.now.natives.items.items) state.now.lib ≡ true }
    requires imports { named_held (length engine.now.natives.items.items) state.now.imports ≡ true }
    ensures pick { IfOk result (λ pick. pick ≡ looked (lists_of info engine.now) state.now.lib state.now.imports ask.old) }
    ensures held { IfOk result (λ pick. IfSome pick (λ p. func_held (length engine.now.natives.items.items) p.func ≡ true)) }
    ensures kept { ask.new ≡ ask.old }
    ensures steps { steps.new ≤ steps.old + keys_of ask.old * length (searched (lists_of info engine.now) state.now.lib state.now.imports) }
{
    find_answer(alloc, engine, state, ask, steps)
}
