//! The machine: the stack of the calls that wait, and what is in hand.

ghost use Rattle.std.specs.Prelude.{◌≡◌, ◌≤◌, ◌<◌, ◌+◌, ◌++◌, ◌∷◌, [], ℕ, Bool, List, true, false, IfOk, OnOk, length, Some};
ghost use Rattle.rhd_func.specs.declared.request.CallRequest.{CallRequest};
ghost use Rattle.rhd_module.specs.Tree.{ModuleTree};
ghost use Rattle.rhd_call.specs.declared.reply.Reply.TheVariants.{Called};
ghost use Rattle.rhd_engine.specs.Engine.{Frame};
ghost use Rattle.rhd_engine.specs.Held.{func_held};
ghost use Rattle.rhd_machine.specs.Held.{frame_held, environs_held};
ghost use Rattle.rhd_machine.specs.declared.machine.Hand.TheVariants.{Asked, Answered};
ghost use Rattle.rhd_machine.specs.World.{Moment, moment};
ghost use Rattle.rhd_machine.specs.Filling.{IsBegunFor};
ghost use Rattle.rhd_machine.specs.Setting.{setting_of, RunsIn};
ghost use Rattle.rhd_machine.specs.CallReplied.{CallRepliedIn};
ghost use Rattle.rhd_machine.specs.Waits.{outcome_of, ComesIn, GoingIn, CuttingIn, IsAbove, weight};

use crate::boxed::BoxedNode;
use crate::calls::{begin, resume};
use crate::filling::spend;
use crate::machine::{
    Asking, Hand, Outcome, StackFrame, cut, give_back, outcome_of, outer_of, put, waiting,
};
use rhd_call::{CallNode, Reply};
use rhd_engine::{Engine, GlobalRuntimeState};
use rhd_func::{Bodies, CallRequest, Host};
use rhd_resolve::Environs;
use rhd_value::OutOfMemory;
use std::alloc::Global;
use std::mem;

/// Makes the call of a reply whose node was just made by `begun` at level 1, with all the calls that it
/// leads to. Each call that is begun counts, and no more are begun than the budget. In the end the state
/// is as before, also where memory runs out, which is the only error: the reply answers nothing then.
pub fn fill<H: Host, B: Bodies>(
    alloc: Global,
    engine: &Engine,
    envs: &Environs,
    state: &mut GlobalRuntimeState,
    reply: &mut Reply,
    begun: &mut u64,
    host: &mut H,
    bodies: &mut B,
) -> Result<(), OutOfMemory>
    requires held { frame_held (length engine.now.natives.items.items) state.old ≡ true }
    requires environs { environs_held (length engine.now.natives.items.items) envs.now.items ≡ true }
    requires within { begun.old ≤ engine.now.limits.budget }
    requires begun { (call : CallRequest) × IsBegunFor call reply.old }
    ensures replied { (modules : List ModuleTree) (call : CallRequest) → IsBegunFor call reply.old → OnOk result (CallRepliedIn
        (setting_of allows_call allows_resume B.allows_start B.allows_next H.allows_missing info engine.now modules envs.now.items state.old) (moment begun.old host.old bodies.old) call reply.new
        (moment begun.new host.new bodies.new)) }
    ensures state { state.new ≡ state.old }
    ensures within { begun.new ≤ engine.now.limits.budget }
    ensures rises { begun.old ≤ begun.new }
{
    let Reply::Called(node) = reply else {
        return Ok(());
    };
    if *begun >= engine.limits().budget {
        return spend(alloc, node);
    }
    *begun += 1;
    match begin(alloc, engine, state, node, host, bodies) {
        Ok(None) => Ok(()),
        Ok(Some(asking)) => {
            fill_on::<H, B>(
                alloc, engine, envs, state, reply, asking, begun, host, bodies,
            )
        }
        Err(error) => Err(error),
    }
}

/// Goes on with the call of a reply, whose function asks for another.
fn fill_on<H: Host, B: Bodies>(
    alloc: Global,
    engine: &Engine,
    envs: &Environs,
    state: &mut GlobalRuntimeState,
    reply: &mut Reply,
    asking: Box<Asking>,
    begun: &mut u64,
    host: &mut H,
    bodies: &mut B,
) -> Result<(), OutOfMemory>
    requires held { frame_held (length engine.now.natives.items.items) state.old ≡ true }
    requires environs { environs_held (length engine.now.natives.items.items) envs.now.items ≡ true }
    requires within { begun.old ≤ engine.now.limits.budget }
    requires comes { (modules : List ModuleTree) × (node : CallNode) × (call : CallRequest) × (before : Moment H B) × (reply.old ≡ Called node) × ComesIn
        (setting_of allows_call allows_resume B.allows_start B.allows_next H.allows_missing info engine.now modules envs.now.items state.old) 1 call (outcome_of node (Some asking)) before
        (moment begun.old host.old bodies.old) }
    ensures replied { (modules : List ModuleTree) (node : CallNode) (call : CallRequest) (before : Moment H B) → reply.old ≡ Called node → ComesIn
        (setting_of allows_call allows_resume B.allows_start B.allows_next H.allows_missing info engine.now modules envs.now.items state.old) 1 call (outcome_of node (Some asking)) before
        (moment begun.old host.old bodies.old) → OnOk result (CallRepliedIn
        (setting_of allows_call allows_resume B.allows_start B.allows_next H.allows_missing info engine.now modules envs.now.items state.old) before call reply.new (moment begun.new host.new bodies.new)) }
    ensures state { state.new ≡ state.old }
    ensures within { begun.new ≤ engine.now.limits.budget }
    ensures rises { begun.old ≤ begun.new }
{
    let Some(node) = take_node(reply) else {
        return Ok(());
    };
    let boxed = BoxedNode::new(alloc, node)?;
    let outcome = outcome_of(boxed, Some(asking));
    let node = run_on::<H, B>(alloc, engine, envs, state, outcome, begun, host, bodies)?;
    show_node(reply, node.into_node());
    Ok(())
}

/// Takes the node out of a reply that shows a call.
fn take_node(reply: &mut Reply) -> Option<CallNode>
    ensures { (node : CallNode) → reply.old ≡ Called node → result ≡ Some node }
{
    match mem::replace(reply, Reply::Done) {
        Reply::Called(node) => Some(node),
        other => {
            drop(other);
            None
        }
    }
}

/// The reply shows the call of this node.
fn show_node(reply: &mut Reply, node: CallNode)
    ensures { reply.new ≡ Called node }
{
    drop(mem::replace(reply, Reply::Called(node)));
}

/// Goes on with a call that is begun, with all the calls that it leads to, and gives the state back as it
/// was.
fn run_on<H: Host, B: Bodies>(
    alloc: Global,
    engine: &Engine,
    envs: &Environs,
    state: &mut GlobalRuntimeState,
    outcome: Outcome,
    begun: &mut u64,
    host: &mut H,
    bodies: &mut B,
) -> Result<BoxedNode, OutOfMemory>
    requires held { frame_held (length engine.now.natives.items.items) state.old ≡ true }
    requires environs { environs_held (length engine.now.natives.items.items) envs.now.items ≡ true }
    requires within { begun.old ≤ engine.now.limits.budget }
    requires comes { (modules : List ModuleTree) × (call : CallRequest) × (before : Moment H B)
        × ComesIn (setting_of allows_call allows_resume B.allows_start B.allows_next H.allows_missing info engine.now modules envs.now.items state.old) 1 call outcome before (moment begun.old host.old bodies.old) }
    ensures runs { (modules : List ModuleTree) (call : CallRequest) (before : Moment H B)
        → ComesIn (setting_of allows_call allows_resume B.allows_start B.allows_next H.allows_missing info engine.now modules envs.now.items state.old) 1 call outcome before (moment begun.old host.old bodies.old)
        → IfOk result (λ node. (cut : Bool)
        × RunsIn (setting_of allows_call allows_resume B.allows_start B.allows_next H.allows_missing info engine.now modules envs.now.items state.old) 1 call node before (moment begun.new host.new bodies.new) cut) }
    ensures state { state.new ≡ state.old }
    ensures within { begun.new ≤ engine.now.limits.budget }
    ensures rises { begun.old ≤ begun.new }
{
    let base = outer_of(alloc, state)?;
    let made = run_stack::<H, B>(alloc, engine, envs, state, outcome, begun, host, bodies);
    give_back(state, base);
    made
}

/// Goes on with a call that is begun, with all the calls that it leads to. What was entered of the state
/// may be left.
fn run_stack<H: Host, B: Bodies>(
    alloc: Global,
    engine: &Engine,
    envs: &Environs,
    state: &mut GlobalRuntimeState,
    outcome: Outcome,
    begun: &mut u64,
    host: &mut H,
    bodies: &mut B,
) -> Result<BoxedNode, OutOfMemory>
    requires held { frame_held (length engine.now.natives.items.items) state.old ≡ true }
    requires environs { environs_held (length engine.now.natives.items.items) envs.now.items ≡ true }
    requires within { begun.old ≤ engine.now.limits.budget }
    requires comes { (modules : List ModuleTree) × (call : CallRequest) × (before : Moment H B)
        × ComesIn (setting_of allows_call allows_resume B.allows_start B.allows_next H.allows_missing info engine.now modules envs.now.items state.old) 1 call outcome before (moment begun.old host.old bodies.old) }
    ensures runs { (modules : List ModuleTree) (call : CallRequest) (before : Moment H B)
        → ComesIn (setting_of allows_call allows_resume B.allows_start B.allows_next H.allows_missing info engine.now modules envs.now.items state.old) 1 call outcome before (moment begun.old host.old bodies.old)
        → IfOk result (λ node. (cut : Bool)
        × RunsIn (setting_of allows_call allows_resume B.allows_start B.allows_next H.allows_missing info engine.now modules envs.now.items state.old) 1 call node before (moment begun.new host.new bodies.new) cut) }
    ensures above { IsAbove state.old state.new }
    ensures within { begun.new ≤ engine.now.limits.budget }
    ensures rises { begun.old ≤ begun.new }
{
    let mut stack = Vec::new(alloc);
    let mut hand = put(alloc, envs, &mut stack, state, outcome)?;
    loop {
        match hand {
            Hand::Asked(request) => {
                if *begun >= engine.limits().budget {
                    let level = stack.len() as u32 + 1;
                    let node = BoxedNode::unbegun(alloc, request, level)?;
                    return cut_all::<H, B>(engine, envs, stack, node);
                }
                *begun += 1;
                hand = ask(
                    alloc, engine, envs, state, &mut stack, request, host, bodies,
                )?;
            }
            Hand::Answered(node) => {
                let Some(frame) = stack.pop() else {
                    return Ok(node);
                };
                hand = answer::<H, B>(alloc, engine, envs, state, &mut stack, frame, node, bodies)?;
            }
        }
    }
}

/// Begins the call that was asked for.
fn ask<H: Host, B: Bodies>(
    alloc: Global,
    engine: &Engine,
    envs: &Environs,
    state: &mut GlobalRuntimeState,
    stack: &mut Vec<StackFrame>,
    request: CallRequest,
    host: &mut H,
    bodies: &mut B,
) -> Result<Hand, OutOfMemory>
    requires held { frame_held (length engine.now.natives.items.items) state.old ≡ true }
    requires few { length stack.old.items ≤ 1000 }
    ensures going { (modules : List ModuleTree) (base : Frame) (call : CallRequest) (before : Moment H B) (begun : ℕ) → begun < engine.now.limits.budget → GoingIn
        (setting_of allows_call allows_resume B.allows_start B.allows_next H.allows_missing info engine.now modules envs.now.items base) stack.old.items call before (Asked request) state.old
        (moment begun host.old bodies.old) → IfOk result (λ hand. GoingIn
        (setting_of allows_call allows_resume B.allows_start B.allows_next H.allows_missing info engine.now modules envs.now.items base) stack.new.items call before hand state.new
        (moment (begun + 1) host.new bodies.new)) }
    ensures grows { IfOk result (λ hand. length stack.new.items + weight hand ≡ length stack.old.items + 1) }
    ensures above { IsAbove state.old state.new }
{
    let level = stack.len() as u32 + 1;
    let mut node = BoxedNode::begun(alloc, request, level)?;
    let asking = node.begin(alloc, engine, state, host, bodies)?;
    put(alloc, envs, stack, state, outcome_of(node, asking))
}

/// Hands a node to the call that waits for it, whose function is left first.
fn answer<H: Host, B: Bodies>(
    alloc: Global,
    engine: &Engine,
    envs: &Environs,
    state: &mut GlobalRuntimeState,
    stack: &mut Vec<StackFrame>,
    frame: StackFrame,
    node: BoxedNode,
    bodies: &mut B,
) -> Result<Hand, OutOfMemory>
    requires { func_held (length engine.now.natives.items.items) frame.suspended.pick.func ≡ true }
    ensures going { (modules : List ModuleTree) (base : Frame) (call : CallRequest) (before : Moment H B) (begun : ℕ) (host : H) → GoingIn
        (setting_of allows_call allows_resume B.allows_start B.allows_next H.allows_missing info engine.now modules envs.now.items base) (stack.old.items ++ frame ∷ []) call before (Answered node) state.old
        (moment begun host bodies.old) → IfOk result (λ hand. GoingIn
        (setting_of allows_call allows_resume B.allows_start B.allows_next H.allows_missing info engine.now modules envs.now.items base) stack.new.items call before hand state.new (moment begun host bodies.new)) }
    ensures grows { IfOk result (λ hand. length stack.new.items + weight hand ≡ length stack.old.items + 1) }
    ensures above { (modules : List ModuleTree) (base : Frame) (call : CallRequest) (before : Moment H B) (begun : ℕ) (host : H) → GoingIn
        (setting_of allows_call allows_resume B.allows_start B.allows_next H.allows_missing info engine.now modules envs.now.items base) (stack.old.items ++ frame ∷ []) call before (Answered node) state.old
        (moment begun host bodies.old) → IsAbove base state.new }
{
    let StackFrame { suspended, outer } = frame;
    give_back(state, outer);
    let outcome = resume::<H, B>(alloc, engine, state, suspended, node, bodies)?;
    put(alloc, envs, stack, state, outcome)
}

/// Closes each call that waits, where the budget is spent.
fn cut_all<H: Host, B: Bodies>(
    _engine: &Engine,
    _envs: &Environs,
    mut stack: Vec<StackFrame>,
    mut node: BoxedNode,
) -> Result<BoxedNode, OutOfMemory>
    ensures { (modules : List ModuleTree) (base : Frame) (call : CallRequest) (before after : Moment H B)
        → CuttingIn (setting_of allows_call allows_resume B.allows_start B.allows_next H.allows_missing info _engine.now modules _envs.now.items base) stack.items call before node after
        → IfOk result (λ root. RunsIn (setting_of allows_call allows_resume B.allows_start B.allows_next H.allows_missing info _engine.now modules _envs.now.items base) 1 call root before after true) }
{
    while let Some(frame) = stack.pop() {
        node = cut(waiting(frame), node)?;
    }
    Ok(node)
}
