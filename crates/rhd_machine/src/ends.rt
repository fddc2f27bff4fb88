//! How a call ends, and the checks of what its function answered.

ghost use Rattle.std.specs.Prelude.{◌≡◌, not, IfOk, OnOk, Option, Some, option_and_then};
ghost use Rattle.rhd_value.specs.Tree.{Tree};
ghost use Rattle.std.specs.Option.{option_copied};
ghost use Rattle.rhd_value.specs.declared.fault.EvalAltResult.TheVariants as faults;
ghost use Rattle.rhd_call.specs.End as ending;
ghost use Rattle.rhd_call.specs.Seen.{seen};
ghost use Rattle.rhd_engine.specs.Of.{lists_of};
ghost use Rattle.rhd_machine.specs.Ends as ends;
ghost use Rattle.rhd_machine.specs.Filling.{with_end, ended_by_host};
ghost use Rattle.rhd_machine.specs.Plans.{Plan, is_unqualified, plan_of};

use crate::filling::{answer_with, fail, print, refuse};
use crate::plan::{is_qualified, position_of, want_of};
use crate::printed::{answer_after_printing, no_text, printed_text, printer};
use crate::received::{first_after, given};
use rhd_call::{CallNode, Pick, Whose};
use rhd_engine::{Engine, Limits};
use rhd_func::{CallRequest, HostAnswer};
use rhd_value::{Dynamic, EvalAltResult, OutOfMemory, Position, Text, TypeTag};
use std::alloc::Global;

/// The fault of a value that isn't of the wanted kind.
#[inline(always)]
fn not_wanted(
    alloc: Global,
    engine: &Engine,
    want: Option<TypeTag>,
    pos: Position,
    value: &Dynamic,
) -> Result<Option<EvalAltResult>, OutOfMemory>
    ensures { IfOk result (λ fault. fault ≡ ends.not_wanted (lists_of info engine.now) want pos value.now) }
{
    let want = match want {
        None => return Ok(None),
        Some(TypeTag::Dynamic) => return Ok(None),
        Some(want) => want,
    };
    if want == value.kind() {
        return Ok(None);
    }
    Ok(Some(EvalAltResult::ErrorMismatchOutputType(
        engine.map_type_name(alloc, &want.type_name(alloc)?)?,
        engine.display_type(alloc, value)?,
        pos,
    )))
}

/// The fault of a value that holds too much of this.
fn too_much(alloc: Global, what: &str, pos: Position) -> Result<Option<EvalAltResult>, OutOfMemory>
    ensures { IfOk result (λ fault. fault ≡ Some (faults.ErrorDataTooLarge what.now pos)) }
{
    let mut text = Text::new(alloc);
    text.push(what)?;
    Ok(Some(EvalAltResult::ErrorDataTooLarge(text, pos)))
}

/// The fault of a value that holds more than the limits allow.
#[inline(always)]
fn too_large(
    alloc: Global,
    limits: Limits,
    pos: Position,
    value: &Dynamic,
) -> Result<Option<EvalAltResult>, OutOfMemory>
    ensures { IfOk result (λ fault. fault ≡ ends.too_large limits pos value.now) }
{
    let sizes = value.sizes();
    if sizes.array > u64::from(limits.array) {
        return too_much(alloc, "Size of array", pos);
    }
    if sizes.map > u64::from(limits.map) {
        return too_much(alloc, "Size of object map", pos);
    }
    if sizes.text > u64::from(limits.text) {
        return too_much(alloc, "Length of string", pos);
    }
    Ok(None)
}

/// The same of a first argument as it is in the end; none where there is none.
fn first_too_large(
    alloc: Global,
    limits: Limits,
    pos: Position,
    first: Option<&Dynamic>,
) -> Result<Option<EvalAltResult>, OutOfMemory>
    ensures { IfOk result (λ fault. fault ≡ option_and_then (ends.too_large limits pos) (option_copied first.entry)) }
{
    match first {
        None => Ok(None),
        Some(value) => too_large(alloc, limits, pos, value),
    }
}

/// The fault of a value, or of the first argument that the native of an unqualified call had, which
/// holds more than the limits allow.
#[tactic(auto, unfolding(rhd_engine::specs::Of::lists_of))]
fn unfit(
    alloc: Global,
    engine: &Engine,
    pos: Position,
    is_qualified: bool,
    pick: &Pick,
    first: &Option<Dynamic>,
    value: &Dynamic,
) -> Result<Option<EvalAltResult>, OutOfMemory>
    ensures { (plan : Plan) (back : Option Tree) → plan.pos ≡ pos → is_qualified ≡ not (is_unqualified plan.search) → ends.first_at_end (lists_of info engine.now) plan pick.now back ≡ first.now
        → IfOk result (λ fault. fault ≡ ends.unfit (lists_of info engine.now) plan pick.now back value.now) }
{
    let limits = engine.limits();
    match too_large(alloc, limits, pos, value)? {
        Some(fault) => Ok(Some(fault)),
        None => {
            if is_qualified || pick.func.is_script() {
                return Ok(None);
            }
            first_too_large(alloc, limits, pos, first.as_ref())
        }
    }
}

/// Ends a call with a value that is tested for the wanted kind alone.
#[inline(always)]
fn accept(
    alloc: Global,
    engine: &Engine,
    node: &mut CallNode,
    whose: Whose,
    first: Option<Dynamic>,
    value: Dynamic,
) -> Result<(), OutOfMemory>
    ensures { OnOk result (seen node.new ≡ with_end (seen node.old) (ends.accepted (lists_of info engine.now) (plan_of (seen node.old).call) whose first value)) }
{
    let pos = position_of(&node.call);
    match not_wanted(alloc, engine, want_of(&node.call), pos, &value)? {
        Some(fault) => refuse(alloc, node, first, value, fault),
        None => answer_with(alloc, node, whose, first, Ok(value)),
    }
}

/// Ends a call whose function answered a value of sizes that are allowed. The text that it prints
/// stays printed where the call then refuses what it answers.
fn print_and_accept(
    alloc: Global,
    engine: &Engine,
    node: &mut CallNode,
    printer: Option<bool>,
    first: Option<Dynamic>,
    value: Dynamic,
) -> Result<(), OutOfMemory>
    ensures { OnOk result (seen node.new ≡ with_end (seen node.old) (ends.end_with_printer (lists_of info engine.now) printer (plan_of (seen node.old).call) first value)) }
{
    if let Some(fault) = no_text(alloc, engine, printer, position_of(&node.call), &value)? {
        return refuse(alloc, node, first, value, fault);
    }
    let printed = printed_text(alloc, printer, &value)?;
    let value = answer_after_printing(printer, value);
    accept(alloc, engine, node, Whose::Called, first, value)?;
    print(alloc, node, printed)
}

/// The first argument by reference, or the object, as it is in the end.
#[inline(always)]
fn first_at_end(
    alloc: Global,
    engine: &Engine,
    call: &CallRequest,
    pick: &Pick,
    back: Option<Dynamic>,
) -> Result<Option<Dynamic>, OutOfMemory>
    ensures { IfOk result (λ first. first ≡ ends.first_at_end (lists_of info engine.now) (plan_of call.now) pick.now back) }
{
    first_after(alloc, engine.natives(), &pick.func, call, back)
}

/// Ends a call whose function answered a value, and gave this back of its first argument.
#[tactic(auto, unfolding(rhd_engine::specs::Of::lists_of))]
pub fn finish(
    alloc: Global,
    engine: &Engine,
    node: &mut CallNode,
    pick: &Pick,
    value: Dynamic,
    back: Option<Dynamic>,
) -> Result<(), OutOfMemory>
    ensures { OnOk result (seen node.new ≡ with_end (seen node.old) (ends.done (lists_of info engine.now) (plan_of (seen node.old).call) pick.now back value)) }
{
    let pos = position_of(&node.call);
    let first = first_at_end(alloc, engine, &node.call, pick, back)?;
    let is_qualified = is_qualified(&node.call);
    match unfit(alloc, engine, pos, is_qualified, pick, &first, &value)? {
        Some(fault) => refuse(alloc, node, first, value, fault),
        None => {
            let printer = printer(engine.printers(), &node.call, pick);
            print_and_accept(alloc, engine, node, printer, first, value)
        }
    }
}

/// Ends a call whose function failed, and gave this back of its first argument.
pub fn hand_on(
    alloc: Global,
    engine: &Engine,
    node: &mut CallNode,
    pick: &Pick,
    fault: EvalAltResult,
    back: Option<Dynamic>,
) -> Result<(), OutOfMemory>
    ensures { OnOk result (seen node.new ≡ with_end (seen node.old) (ends.handed_on (lists_of info engine.now) (plan_of (seen node.old).call) pick.now back fault)) }
{
    let first = first_at_end(alloc, engine, &node.call, pick, back)?;
    answer_with(alloc, node, Whose::Called, first, Err(fault))
}

/// The fault of a call whose function isn't found.
pub fn not_found(
    alloc: Global,
    engine: &Engine,
    call: &CallRequest,
) -> Result<EvalAltResult, OutOfMemory>
    ensures { IfOk result (λ fault. ending.failed (plan_of call.now).given fault ≡ ends.missing_end (lists_of info engine.now) (plan_of call.now)) }
{
    match call {
        CallRequest::Named {
            name,
            shape,
            pos,
            ..
        } => engine.not_found(alloc, name, shape, *pos),
        CallRequest::Qualified {
            path,
            name,
            shape,
            pos,
        } => engine.not_found_in(alloc, path.as_slice(), name, shape, *pos),
    }
}

/// Ends a call with what the host answered. Where that is nothing, its function isn't found.
pub fn end_by_host(
    alloc: Global,
    engine: &Engine,
    node: &mut CallNode,
    answer: HostAnswer,
) -> Result<(), OutOfMemory>
    ensures { OnOk result (seen node.new ≡ ended_by_host (lists_of info engine.now) (seen node.old) answer) }
{
    match answer {
        HostAnswer::Nothing => {
            let fault = not_found(alloc, engine, &node.call)?;
            fail(alloc, node, fault)
        }
        HostAnswer::Value(value) => {
            let first = given(alloc, &node.call)?;
            accept(alloc, engine, node, Whose::Host, first, value)
        }
        HostAnswer::Fault(fault) => {
            let first = given(alloc, &node.call)?;
            answer_with(alloc, node, Whose::Host, first, Err(fault))
        }
    }
}
