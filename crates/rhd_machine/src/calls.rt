//! How a call is made: why it isn't, and each step of its function.

ghost use Rattle.std.specs.Prelude.{◌≡◌, ◌<◌, ◌+◌, ℕ, List, true, false, IfOk, OnOk, IfSome, length, Some, None};
ghost use Rattle.rhd_func.specs.declared.request.CallRequest.{CallRequest};
ghost use Rattle.rhd_func.specs.declared.request.HostAnswer.{HostAnswer};
ghost use Rattle.rhd_func.specs.Funcs.{has_context, is_pure};
ghost use Rattle.rhd_func.specs.Infos.{infos_of};
ghost use Rattle.rhd_func.specs.Natives.{StartAllowed};
ghost use Rattle.rhd_func.specs.GivenBack.{GivesBack};
ghost use Rattle.rhd_func.specs.Shapes.{all_args, is_method_shape};
ghost use Rattle.rhd_module.specs.Tree.{ModuleTree};
ghost use Rattle.rhd_call.specs.Seen.{seen, done_of};
ghost use Rattle.rhd_engine.specs.Engine.{Frame};
ghost use Rattle.rhd_engine.specs.Held.{func_held};
ghost use Rattle.rhd_resolve.specs.declared.environs.EncapsulatedEnviron.{EncapsulatedEnviron};
ghost use Rattle.rhd_machine.specs.Held.{frame_held};
ghost use Rattle.rhd_engine.specs.Of.{lists_of};
ghost use Rattle.rhd_machine.specs.World.{Moment, moment};
ghost use Rattle.rhd_machine.specs.Objects.{objects_of};
ghost use Rattle.rhd_machine.specs.Plans.{without_host, plan_of};
ghost use Rattle.rhd_machine.specs.Received.{received, convention_of, first_received, is_read_only};
ghost use Rattle.rhd_machine.specs.Decisions.{refusal, decision, runs, pick_of, is_on_constant, constant_end};
ghost use Rattle.rhd_machine.specs.Filling.{is_begun, with_end, ended_unfound, ended_by_host, picking};
ghost use Rattle.rhd_machine.specs.Entered.{context, context_if};
ghost use Rattle.rhd_machine.specs.Setting.{setting_of, RunsIn};
ghost use Rattle.rhd_machine.specs.Steps.{Starts, Resumes};
ghost use Rattle.rhd_machine.specs.Runs.{Runs};
ghost use Rattle.rhd_machine.specs.Waits.{Open, outcome_of, ComesIn};

use crate::boxed::BoxedNode;
use crate::ends::{end_by_host, not_found};
use crate::filling::{done, fail, picks};
use crate::machine::{Asking, Outcome, Suspended, settle, settle_waiting};
use crate::plan::{name_of, position_of, without_host};
use crate::received::{
    Received, all_args, context_if, is_method_shape, receive, receives_constant,
};
use crate::refusal::refusal;
use rhd_call::{CallNode, Pick};
use rhd_dispatch::{resolve_call, resolve_qualified_call};
use rhd_engine::{Engine, GlobalRuntimeState};
use rhd_func::{
    Bodies, CallDone, CallRequest, Carry, Host, HostAnswer, NativeCallContext, NativeStep, Natives,
    RhaiFunc, ScriptFuncDef,
};
use rhd_hash::Steps;
use rhd_value::{EvalAltResult, FnId, OutOfMemory};
use std::alloc::Global;

/// Begins a call: it is refused, or no function is found for it, or its function takes its first step.
/// Where that asks for a call, the node stays as it is.
pub fn begin<H: Host, B: Bodies>(
    alloc: Global,
    engine: &Engine,
    state: &GlobalRuntimeState,
    node: &mut CallNode,
    host: &mut H,
    bodies: &mut B,
) -> Result<Option<Box<Asking>>, OutOfMemory>
    requires { frame_held (length engine.now.natives.items.items) state.now ≡ true }
    ensures { (modules : List ModuleTree) (environs : List EncapsulatedEnviron) (begun : ℕ) → is_begun (seen node.old) → begun < engine.now.limits.budget → IfOk result (λ asking. ComesIn
        (setting_of allows_call allows_resume B.allows_start B.allows_next H.allows_missing info engine.now modules environs state.now) (seen node.old).level (seen node.old).call (outcome_of node.new asking)
        (moment begun host.old bodies.old) (moment (begun + 1) host.new bodies.new)) }
{
    match refusal(alloc, engine, state, node.level, &node.call)? {
        Some(fault) => {
            fail(alloc, node, fault)?;
            Ok(None)
        }
        None => begin_unrefused(alloc, engine, state, node, host, bodies),
    }
}

/// Begins a call that nothing refuses: no function is found for it, or its function isn't for a
/// constant, or takes its first step.
fn begin_unrefused<H: Host, B: Bodies>(
    alloc: Global,
    engine: &Engine,
    state: &GlobalRuntimeState,
    node: &mut CallNode,
    host: &mut H,
    bodies: &mut B,
) -> Result<Option<Box<Asking>>, OutOfMemory>
    requires { frame_held (length engine.now.natives.items.items) state.now ≡ true }
    ensures { (modules : List ModuleTree) (environs : List EncapsulatedEnviron) (begun : ℕ) → is_begun (seen node.old) → begun < engine.now.limits.budget
        → refusal (lists_of info engine.now) state.now (seen node.old).level (seen node.old).call ≡ None → IfOk result (λ asking. ComesIn
        (setting_of allows_call allows_resume B.allows_start B.allows_next H.allows_missing info engine.now modules environs state.now) (seen node.old).level (seen node.old).call (outcome_of node.new asking)
        (moment begun host.old bodies.old) (moment (begun + 1) host.new bodies.new)) }
{
    match pick(alloc, engine, state, &node.call)? {
        Some(pick) => {
            if on_constant(engine, &node.call, &pick) {
                refuse_constant(alloc, node, pick)?;
                return Ok(None);
            }
            begin_picked::<H, B>(alloc, engine, state, node, pick, bodies)
        }
        None => {
            unpicked(alloc, engine, node, host)?;
            Ok(None)
        }
    }
}

/// The function that a call means.
fn pick(
    alloc: Global,
    engine: &Engine,
    state: &GlobalRuntimeState,
    call: &CallRequest,
) -> Result<Option<Pick>, OutOfMemory>
    requires { frame_held (length engine.now.natives.items.items) state.now ≡ true }
    ensures pick { IfOk result (λ pick. pick ≡ pick_of (lists_of info engine.now) state.now (plan_of call.now)) }
    ensures held { IfOk result (λ pick. IfSome pick (λ p. func_held (length engine.now.natives.items.items) p.func ≡ true)) }
{
    match call {
        CallRequest::Named {
            name,
            token,
            native_only,
            shape,
            ..
        } => {
            let mut steps = Steps::new();
            resolve_call(
                alloc,
                engine,
                state,
                name,
                *token,
                *native_only,
                shape,
                &mut steps,
            )
        }
        CallRequest::Qualified {
            path,
            name,
            shape,
            ..
        } => {
            let mut steps = Steps::new();
            resolve_qualified_call(alloc, engine, state, path, name, shape, &mut steps)
        }
    }
}

/// Ends a call for which no function is found. The host is asked where an unqualified call allows
/// scripts.
fn unpicked<H: Host>(
    alloc: Global,
    engine: &Engine,
    node: &mut CallNode,
    host: &mut H,
) -> Result<(), OutOfMemory>
    ensures alone { OnOk result (without_host (plan_of (seen node.old).call).search ≡ true → (host.new ≡ host.old) × (seen node.new ≡ ended_unfound (lists_of info engine.now) (seen node.old))) }
    ensures asked { OnOk result (without_host (plan_of (seen node.old).call).search ≡ false → (answer : HostAnswer)
        × H.allows_missing host.old (plan_of (seen node.old).call).name (all_args (plan_of (seen node.old).call).shape) (is_method_shape (plan_of (seen node.old).call).shape) answer host.new
        × (seen node.new ≡ ended_by_host (lists_of info engine.now) (seen node.old) answer)) }
{
    if without_host(&node.call) {
        let fault = not_found(alloc, engine, &node.call)?;
        return fail(alloc, node, fault);
    }
    let answer = ask_host(alloc, &node.call, host)?;
    end_by_host(alloc, engine, node, answer)
}

/// What the host answers for an unqualified call.
fn ask_host<H: Host>(
    alloc: Global,
    call: &CallRequest,
    host: &mut H,
) -> Result<HostAnswer, OutOfMemory>
    requires { without_host (plan_of call.now).search ≡ false }
    ensures { IfOk result (λ answer. H.allows_missing host.old (plan_of call.now).name (all_args (plan_of call.now).shape) (is_method_shape (plan_of call.now).shape) answer host.new) }
{
    match call {
        CallRequest::Named { name, shape, .. } => {
            let args = all_args(alloc, shape)?;
            host.missing(alloc, name, &args, is_method_shape(shape))
        }
        CallRequest::Qualified { .. } => unreachable!(),
    }
}

/// Whether a native or built-in that isn't pure receives a read-only first argument.
fn on_constant(engine: &Engine, call: &CallRequest, pick: &Pick) -> bool
    ensures { result ≡ is_on_constant (lists_of info engine.now) (plan_of call.now) pick.now }
{
    !pick.func.is_script()
        && (!is_pure(engine, &pick.func) && gets_constant(engine, &pick.func, call))
}

/// Whether a function of an engine may be called on a constant.
fn is_pure(engine: &Engine, func: &RhaiFunc) -> bool
    ensures { result ≡ is_pure (lists_of info engine.now).natives func.now }
{
    func.is_pure(engine.natives())
}

/// Whether the first that a function of an engine receives is read-only.
fn gets_constant(engine: &Engine, func: &RhaiFunc, call: &CallRequest) -> bool
    ensures { result ≡ is_read_only (first_received (received (convention_of (lists_of info engine.now).natives func.now) (plan_of call.now).shape)) }
{
    receives_constant(engine.natives(), func, call)
}

/// Ends a call whose function isn't for a constant.
fn refuse_constant(alloc: Global, node: &mut CallNode, pick: Pick) -> Result<(), OutOfMemory>
    ensures { OnOk result (seen node.new ≡ picking (with_end (seen node.old) (constant_end (plan_of (seen node.old).call))) pick) }
{
    let name = name_of(&node.call).dup(alloc)?;
    let fault = EvalAltResult::ErrorNonPureMethodCallOnConstant(name, position_of(&node.call));
    fail(alloc, node, fault)?;
    picks(node, pick);
    Ok(())
}

/// The first step of the function that is picked.
fn begin_picked<H: Host, B: Bodies>(
    alloc: Global,
    engine: &Engine,
    state: &GlobalRuntimeState,
    node: &mut CallNode,
    pick: Pick,
    bodies: &mut B,
) -> Result<Option<Box<Asking>>, OutOfMemory>
    requires { func_held (length engine.now.natives.items.items) pick.func ≡ true }
    ensures { (modules : List ModuleTree) (environs : List EncapsulatedEnviron) (begun : ℕ) (host : H) → is_begun (seen node.old) → begun < engine.now.limits.budget
        → decision (lists_of info engine.now) state.now (seen node.old).level (seen node.old).call ≡ runs (plan_of (seen node.old).call) pick → IfOk result (λ asking. ComesIn
        (setting_of allows_call allows_resume B.allows_start B.allows_next H.allows_missing info engine.now modules environs state.now) (seen node.old).level (seen node.old).call (outcome_of node.new asking)
        (moment begun host bodies.old) (moment (begun + 1) host bodies.new)) }
{
    let received = receive(alloc, engine.natives(), &pick.func, &node.call)?;
    match start::<H, B>(alloc, engine, state, node, &pick, received, bodies) {
        Ok(step) => settle(alloc, engine, node, pick, step),
        Err(error) => Err(error),
    }
}

/// The next step of a function that waits, after the answer to its request.
pub fn resume<H: Host, B: Bodies>(
    alloc: Global,
    engine: &Engine,
    state: &GlobalRuntimeState,
    suspended: Suspended,
    child: BoxedNode,
    bodies: &mut B,
) -> Result<Outcome, OutOfMemory>
    requires { func_held (length engine.now.natives.items.items) suspended.pick.func ≡ true }
    ensures { (modules : List ModuleTree) (environs : List EncapsulatedEnviron) (level begun : ℕ) (host : H) (inner : Frame) (call waited : CallRequest) (before mid : Moment H B) → Open
        (objects_of allows_call allows_resume B.allows_start B.allows_next H.allows_missing engine.now.natives)
        (record { engine = lists_of info engine.now; modules = modules; environs = environs }) state.now level call suspended inner waited before mid → Runs
        (objects_of allows_call allows_resume B.allows_start B.allows_next H.allows_missing engine.now.natives) (record { engine = lists_of info engine.now; modules = modules; environs = environs }) inner
        (level + 1) waited child mid (moment begun host bodies.old) false → IfOk result (λ outcome. ComesIn
        (setting_of allows_call allows_resume B.allows_start B.allows_next H.allows_missing info engine.now modules environs state.now) level call outcome before (moment begun host bodies.new)) }
{
    let step = answered_step::<H, B>(alloc, engine, state, &suspended, child.node(), bodies)?;
    settle_waiting(alloc, engine, suspended, child, step)
}

/// The next step of a function that waits, after the answer of a child.
fn answered_step<H: Host, B: Bodies>(
    alloc: Global,
    engine: &Engine,
    state: &GlobalRuntimeState,
    suspended: &Suspended,
    child: &CallNode,
    bodies: &mut B,
) -> Result<NativeStep, OutOfMemory>
    requires { func_held (length engine.now.natives.items.items) suspended.now.pick.func ≡ true }
    ensures { (begun : ℕ) (host : H) → IfOk result (λ step. Resumes (objects_of allows_call allows_resume B.allows_start B.allows_next H.allows_missing engine.now.natives)
        (lists_of info engine.now).natives (context state.now (seen suspended.now.node).level (plan_of (seen suspended.now.node).call) suspended.now.pick) suspended.now.pick.func suspended.now.carry
        (done_of child.now) (moment begun host bodies.old) step (moment begun host bodies.new)) }
{
    let done = done(alloc, child)?;
    let carry = suspended.carry.dup(alloc)?;
    let ctx = context(alloc, state, suspended.node.node(), &suspended.pick)?;
    go_on::<H, B>(
        alloc,
        engine,
        &suspended.pick.func,
        &ctx,
        carry,
        done,
        bodies,
    )
}

/// The first step of a function on what it received.
fn start<H: Host, B: Bodies>(
    alloc: Global,
    engine: &Engine,
    state: &GlobalRuntimeState,
    node: &CallNode,
    pick: &Pick,
    received: Received,
    bodies: &mut B,
) -> Result<NativeStep, OutOfMemory>
    requires { func_held (length engine.now.natives.items.items) pick.now.func ≡ true }
    ensures { (begun : ℕ) (host : H) → IfOk result (λ step. Starts (objects_of allows_call allows_resume B.allows_start B.allows_next H.allows_missing engine.now.natives)
        (lists_of info engine.now).natives (context state.now (seen node.now).level (plan_of (seen node.now).call) pick.now) pick.now.func (record { first = received.first; args = received.args })
        (moment begun host bodies.old) step (moment begun host bodies.new)) }
{
    match &pick.func {
        RhaiFunc::Script { fn_def, .. } => {
            start_script::<B>(alloc, fn_def.def(), state, node, pick, received, bodies)
        }
        RhaiFunc::Pure { func: id, .. } => {
            start_native(alloc, engine.natives(), *id, state, node, pick, received)
        }
        RhaiFunc::Method { func: id, .. } => {
            start_native(alloc, engine.natives(), *id, state, node, pick, received)
        }
        RhaiFunc::Plugin { func: id } => {
            start_native(alloc, engine.natives(), *id, state, node, pick, received)
        }
        RhaiFunc::StaticPlugin { func: id } => {
            start_native(alloc, engine.natives(), *id, state, node, pick, received)
        }
        RhaiFunc::Iterator { .. } => unreachable!(),
    }
}

/// The first step of a script's body.
fn start_script<B: Bodies>(
    alloc: Global,
    def: &ScriptFuncDef,
    state: &GlobalRuntimeState,
    node: &CallNode,
    pick: &Pick,
    received: Received,
    bodies: &mut B,
) -> Result<NativeStep, OutOfMemory>
    ensures step { IfOk result (λ step. B.allows_start bodies.old def.now (context state.now (seen node.now).level (plan_of (seen node.now).call) pick.now) received.first received.args step bodies.new) }
    ensures back { IfOk result (GivesBack received.first) }
{
    let ctx = context(alloc, state, node, pick)?;
    let Received { first, args } = received;
    bodies.start(alloc, def, &ctx, first, args)
}

/// The first step of a native, which may be handed the context of its call.
#[inline(always)]
fn start_native(
    alloc: Global,
    natives: &Natives,
    id: FnId,
    state: &GlobalRuntimeState,
    node: &CallNode,
    pick: &Pick,
    received: Received,
) -> Result<NativeStep, OutOfMemory>
    requires { id.0 < length natives.now.items.items }
    ensures step { IfOk result (StartAllowed (λ b. allows_call (b.vtable, b.value)) natives.now.items.items id
        (context_if (has_context (infos_of info natives.now) pick.now.func) (context state.now (seen node.now).level (plan_of (seen node.now).call) pick.now)) received.first received.args) }
    ensures back { IfOk result (GivesBack received.first) }
{
    if pick.func.has_context(natives) {
        return start_in_context(alloc, natives, id, state, node, pick, received);
    }
    let Received { first, args } = received;
    natives.start(alloc, id, None, first, args)
}

/// The first step of a native that is handed the context of its call.
fn start_in_context(
    alloc: Global,
    natives: &Natives,
    id: FnId,
    state: &GlobalRuntimeState,
    node: &CallNode,
    pick: &Pick,
    received: Received,
) -> Result<NativeStep, OutOfMemory>
    requires { id.0 < length natives.now.items.items }
    ensures step { IfOk result (StartAllowed (λ b. allows_call (b.vtable, b.value)) natives.now.items.items id (Some (context state.now (seen node.now).level (plan_of (seen node.now).call) pick.now)) received.first received.args) }
    ensures back { IfOk result (GivesBack received.first) }
{
    let ctx = context(alloc, state, node, pick)?;
    let Received { first, args } = received;
    natives.start(alloc, id, Some(&ctx), first, args)
}

/// The next step of a function in a context.
fn go_on<H: Host, B: Bodies>(
    alloc: Global,
    engine: &Engine,
    func: &RhaiFunc,
    ctx: &NativeCallContext,
    carry: Carry,
    done: CallDone,
    bodies: &mut B,
) -> Result<NativeStep, OutOfMemory>
    requires { func_held (length engine.now.natives.items.items) func.now ≡ true }
    ensures { (begun : ℕ) (host : H) → IfOk result (λ step. Resumes (objects_of allows_call allows_resume B.allows_start B.allows_next H.allows_missing engine.now.natives)
        (lists_of info engine.now).natives ctx.now func.now carry done (moment begun host bodies.old) step (moment begun host bodies.new)) }
{
    let natives = engine.natives();
    match func {
        RhaiFunc::Script { fn_def, .. } => bodies.resume(alloc, fn_def.def(), ctx, carry, done),
        RhaiFunc::Pure { func: id, .. } => {
            let ctx = context_if(func.has_context(natives), ctx);
            natives.resume(alloc, *id, ctx, carry, done)
        }
        RhaiFunc::Method { func: id, .. } => {
            let ctx = context_if(func.has_context(natives), ctx);
            natives.resume(alloc, *id, ctx, carry, done)
        }
        RhaiFunc::Plugin { func: id } => {
            let ctx = context_if(func.has_context(natives), ctx);
            natives.resume(alloc, *id, ctx, carry, done)
        }
        RhaiFunc::StaticPlugin { func: id } => {
            let ctx = context_if(func.has_context(natives), ctx);
            natives.resume(alloc, *id, ctx, carry, done)
        }
        RhaiFunc::Iterator { .. } => unreachable!(),
    }
}

/// What the function that is picked may know of its call.
#[inline(always)]
fn context(
    alloc: Global,
    state: &GlobalRuntimeState,
    node: &CallNode,
    pick: &Pick,
) -> Result<NativeCallContext, OutOfMemory>
    ensures { IfOk result (λ ctx. ctx ≡ context state.now (seen node.now).level (plan_of (seen node.now).call) pick.now) }
{
    let source = match &pick.source {
        Some(source) => Some(source.text().dup(alloc)?),
        None => None,
    };
    let call_source = match &state.source {
        Some(source) => Some(source.text().dup(alloc)?),
        None => None,
    };
    Ok(NativeCallContext {
        name: name_of(&node.call).dup(alloc)?,
        source,
        call_source,
        pos: position_of(&node.call),
        level: node.level,
        tag: state.tag.dup(alloc)?,
    })
}
