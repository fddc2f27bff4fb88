//! Why a call is refused before any function is looked for.

ghost use Rattle.std.specs.Prelude.{◌≡◌, IfOk, option_map, is_none};
ghost use Rattle.rhd_engine.specs.Of.{lists_of};
ghost use Rattle.rhd_engine.specs.NotFound.{path_text};
ghost use Rattle.rhd_value.specs.Firsts.{where_holds};
ghost use Rattle.rhd_value.specs.declared.fault.EvalAltResult.TheVariants.{ErrorModuleNotFound};
ghost use Rattle.rhd_func.specs.Shapes.{given};
ghost use Rattle.rhd_dispatch.specs.Picks.{root_of};
ghost use Rattle.rhd_call.specs.End.{failed};
ghost use Rattle.rhd_machine.specs.Decisions.{refusal};

use crate::plan::position_of;
use rhd_dispatch::{ensure_no_data_race, has_root};
use rhd_engine::{Engine, GlobalRuntimeState, path_text};
use rhd_func::CallRequest;
use rhd_value::{EvalAltResult, OutOfMemory, Position, Text};
use std::alloc::Global;

/// The fault of a path that is empty, or whose first name is that of no import and of no static module.
fn no_root(
    alloc: Global,
    engine: &Engine,
    state: &GlobalRuntimeState,
    path: &[Text],
    pos: Position,
) -> Result<Option<EvalAltResult>, OutOfMemory>
    ensures { IfOk result (λ fault. fault ≡ where_holds (is_none (root_of (lists_of info engine.now) state.now.imports path.now)) (ErrorModuleNotFound (path_text path.now) pos)) }
{
    if has_root(engine, state, path) {
        return Ok(None);
    }
    let text = path_text(alloc, path)?;
    Ok(Some(EvalAltResult::ErrorModuleNotFound(text, pos)))
}

/// The fault of a call that is refused.
#[tactic(auto, unfolding(rhd_engine::specs::Of::lists_of))]
pub fn refusal(
    alloc: Global,
    engine: &Engine,
    state: &GlobalRuntimeState,
    level: u32,
    call: &CallRequest,
) -> Result<Option<EvalAltResult>, OutOfMemory>
    ensures { IfOk result (λ fault. option_map (failed (given call.now)) fault ≡ refusal (lists_of info engine.now) state.now level call.now) }
{
    if level > engine.limits().level {
        return Ok(Some(EvalAltResult::ErrorStackOverflow(position_of(call))));
    }
    match call {
        CallRequest::Named {
            name,
            shape,
            pos,
            ..
        } => ensure_no_data_race(alloc, name, shape, *pos),
        CallRequest::Qualified { path, pos, .. } => {
            no_root(alloc, engine, state, path.as_slice(), *pos)
        }
    }
}
