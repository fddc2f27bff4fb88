//! Calls that are under way, and the stack of those that wait.

ghost use Rattle.std.specs.Prelude.{◌≡◌, ◌+◌, IfOk, OnOk, length, slice_get};
ghost use Rattle.rhd_call.specs.Seen.{seen};
ghost use Rattle.rhd_engine.specs.Of.{lists_of};
ghost use Rattle.rhd_machine.specs.Entered.{with_environ, in_environ, entered_by, entered};
ghost use Rattle.rhd_machine.specs.Filling.{joined, closed};
ghost use Rattle.rhd_machine.specs.Waits.{InProgress, under_way, outcome_of, outer_of, given_back, IsAbove, Settled, IsPut, Put, weight};

use crate::boxed::BoxedNode;
use crate::ends::{finish, hand_on};
use crate::filling::picks;
use rhd_call::{CallNode, Pick};
use rhd_engine::{Engine, GlobalRuntimeState};
use rhd_func::{CallRequest, Carry, EnvId, NativeStep, RhaiFunc, SharedText, share};
use rhd_resolve::Environs;
use rhd_value::OutOfMemory;
use std::alloc::Global;

/// A call that waits for the answer to a request.
#[derive(Drop)]
pub struct Suspended {
    pub node: BoxedNode,
    /// The function that was picked. Its node has it once it ends.
    pub pick: Pick,
    pub carry: Carry,
}

/// A function asks for a call. It stands in a box, since few steps do.
#[derive(Drop)]
pub struct Asking {
    pub pick: Pick,
    pub request: CallRequest,
    pub carry: Carry,
}

/// What entering a function changes of the state, as it was before: the level, the numbers of libraries
/// and of imports, and the source.
#[derive(Drop)]
pub struct Outer {
    pub level: u32,
    pub libs: usize,
    pub imports: usize,
    pub source: Option<SharedText>,
}

/// A call on the stack: its function is entered, and waits.
#[derive(Drop)]
pub struct StackFrame {
    pub suspended: Suspended,
    pub outer: Outer,
}

/// What a step makes of a call.
#[derive(Drop)]
pub enum Outcome {
    Waiting(Suspended, CallRequest),
    Finished(BoxedNode),
}

/// What the machine has in hand.
#[derive(Drop)]
pub enum Hand {
    /// A call to begin.
    Asked(CallRequest),
    /// A node, for the call at the top of the stack.
    Answered(BoxedNode),
}

/// What is kept of a function that asks for a call.
fn ask_for(
    alloc: Global,
    pick: Pick,
    request: CallRequest,
    carry: Carry,
) -> Result<Box<Asking>, OutOfMemory>
    ensures { IfOk result (λ asking. asking.value ≡ record { pick = pick; request = request; carry = carry }) }
{
    let asking = Asking {
        pick,
        request,
        carry,
    };
    Ok(Box::new(alloc, asking)?)
}

/// Takes the step of a call's function.
#[inline(always)]
pub fn settle(
    alloc: Global,
    engine: &Engine,
    node: &mut CallNode,
    pick: Pick,
    step: NativeStep,
) -> Result<Option<Box<Asking>>, OutOfMemory>
    ensures { (k : InProgress) → seen node.old ≡ under_way k → pick ≡ k.pick → IfOk result (λ asking. Settled (lists_of info engine.now) k step (outcome_of node.new asking)) }
{
    match step {
        NativeStep::Done { answer, first } => {
            finish(alloc, engine, node, &pick, answer, first)?;
            picks(node, pick);
            Ok(None)
        }
        NativeStep::Failed { fault, first } => {
            hand_on(alloc, engine, node, &pick, fault, first)?;
            picks(node, pick);
            Ok(None)
        }
        NativeStep::Ask { request, carry } => Ok(Some(ask_for(alloc, pick, request, carry)?)),
    }
}

/// What a step made of a call: it waits where its function asks for another, else it is finished.
pub fn outcome_of(node: BoxedNode, asking: Option<Box<Asking>>) -> Outcome
    ensures { result ≡ outcome_of node asking }
{
    match asking {
        Some(asking) => {
            let Asking {
                pick,
                request,
                carry,
            } = Box::into_inner(asking);
            Outcome::Waiting(Suspended { node, pick, carry }, request)
        }
        None => Outcome::Finished(node),
    }
}

/// Takes the next step of a call's function, after the answer to its request.
pub fn settle_waiting(
    alloc: Global,
    engine: &Engine,
    suspended: Suspended,
    child: BoxedNode,
    step: NativeStep,
) -> Result<Outcome, OutOfMemory>
    ensures { (k : InProgress) → joined (seen suspended.node) suspended.carry child ≡ under_way k → suspended.pick ≡ k.pick → IfOk result (λ outcome. Settled (lists_of info engine.now) k step outcome) }
{
    let Suspended {
        mut node,
        pick,
        carry,
    } = suspended;
    node.join(carry, child)?;
    let asking = node.settle(alloc, engine, pick, step)?;
    Ok(outcome_of(node, asking))
}

/// What entering a function changes of a state, as it is.
pub fn outer_of(alloc: Global, state: &GlobalRuntimeState) -> Result<Outer, OutOfMemory>
    ensures { IfOk result (λ outer. outer ≡ outer_of state.now) }
{
    Ok(Outer {
        level: state.level,
        libs: state.lib.len(),
        imports: state.imports.len(),
        source: share(alloc, &state.source)?,
    })
}

/// Gives back what entering a function changed of a state.
#[inline(always)]
pub fn give_back(state: &mut GlobalRuntimeState, outer: Outer)
    ensures { state.new ≡ given_back outer state.old }
{
    state.lib.truncate(outer.libs);
    state.imports.truncate(outer.imports);
    state.source = outer.source;
    state.level = outer.level;
}

/// Puts the library and the imports of the environment of a number at the ends of the state's lists, if
/// there is one. Where memory runs out, some of them may stand there.
fn push_environ(
    alloc: Global,
    envs: &Environs,
    state: &mut GlobalRuntimeState,
    id: EnvId,
) -> Result<(), OutOfMemory>
    ensures ok { OnOk result (state.new ≡ with_environ (slice_get envs.now.items id.0) state.old) }
    ensures above { IsAbove state.old state.new }
{
    let Some(env) = envs.get(id) else {
        return Ok(());
    };
    state.lib.push(env.lib.dup(alloc)?)?;
    state.imports.extend(alloc, &env.imports)
}

/// Enters a script: its environment, if it has one, and its source.
fn enter_script(
    alloc: Global,
    envs: &Environs,
    state: &mut GlobalRuntimeState,
    env: Option<EnvId>,
    source: &Option<SharedText>,
) -> Result<(), OutOfMemory>
    ensures ok { OnOk result (state.new ≡ record (in_environ envs.now.items env state.old) { source = source.now }) }
    ensures above { IsAbove state.old state.new }
{
    let source = share(alloc, source)?;
    if let Some(id) = env {
        push_environ(alloc, envs, state, id)?;
    }
    state.source = source;
    Ok(())
}

/// Enters a function but for its level: a script, or else nothing.
fn enter_function(
    alloc: Global,
    envs: &Environs,
    state: &mut GlobalRuntimeState,
    pick: &Pick,
) -> Result<(), OutOfMemory>
    ensures ok { OnOk result (state.new ≡ entered_by envs.now.items state.old pick.now.source pick.now.func) }
    ensures above { IsAbove state.old state.new }
{
    match &pick.func {
        RhaiFunc::Script { env, .. } => enter_script(alloc, envs, state, *env, &pick.source),
        RhaiFunc::Pure { .. } => Ok(()),
        RhaiFunc::Method { .. } => Ok(()),
        RhaiFunc::Iterator { .. } => Ok(()),
        RhaiFunc::Plugin { .. } => Ok(()),
        RhaiFunc::StaticPlugin { .. } => Ok(()),
    }
}

/// Enters a function that is called at this level, and answers what that changed of the state. Where memory
/// runs out, the lists of the state may be longer than before.
fn enter(
    alloc: Global,
    envs: &Environs,
    state: &mut GlobalRuntimeState,
    level: u32,
    pick: &Pick,
) -> Result<Outer, OutOfMemory>
    ensures outer { IfOk result (λ outer. outer ≡ outer_of state.old) }
    ensures ok { OnOk result (state.new ≡ entered envs.now.items state.old level pick.now) }
    ensures above { IsAbove state.old state.new }
{
    let outer = outer_of(alloc, state)?;
    enter_function(alloc, envs, state, pick)?;
    state.level = level;
    Ok(outer)
}

/// Puts a call that waits onto the stack, and enters its function.
fn wait(
    alloc: Global,
    envs: &Environs,
    stack: &mut Vec<StackFrame>,
    state: &mut GlobalRuntimeState,
    suspended: Suspended,
) -> Result<(), OutOfMemory>
    ensures ok { OnOk result (IsPut envs.now.items stack.old.items state.old suspended stack.new.items state.new) }
    ensures above { IsAbove state.old state.new }
{
    let outer = enter(alloc, envs, state, suspended.node.level(), &suspended.pick)?;
    stack.push(StackFrame { suspended, outer })?;
    Ok(())
}

/// Takes what a step made of a call: one that waits goes onto the stack.
#[inline(always)]
pub fn put(
    alloc: Global,
    envs: &Environs,
    stack: &mut Vec<StackFrame>,
    state: &mut GlobalRuntimeState,
    outcome: Outcome,
) -> Result<Hand, OutOfMemory>
    ensures put { IfOk result (λ hand. Put envs.now.items stack.old.items state.old outcome hand stack.new.items state.new) }
    ensures grows { IfOk result (λ hand. length stack.new.items + weight hand ≡ length stack.old.items + 1) }
    ensures above { IsAbove state.old state.new }
{
    match outcome {
        Outcome::Waiting(suspended, asked) => {
            wait(alloc, envs, stack, state, suspended)?;
            Ok(Hand::Asked(asked))
        }
        Outcome::Finished(node) => Ok(Hand::Answered(node)),
    }
}

/// The call that waits, without what entering its function changed.
pub fn waiting(frame: StackFrame) -> Suspended
    ensures { result ≡ frame.suspended }
{
    frame.suspended
}

/// Closes a call that waits, where the budget was spent within the child that it waits for.
pub fn cut(suspended: Suspended, child: BoxedNode) -> Result<BoxedNode, OutOfMemory>
    ensures { IfOk result (λ node. seen node ≡ closed (seen suspended.node) suspended.pick suspended.carry child) }
{
    let Suspended {
        mut node,
        pick,
        carry,
    } = suspended;
    node.join(carry, child)?;
    node.picks(pick);
    Ok(node)
}
