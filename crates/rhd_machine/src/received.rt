//! What the function that is picked receives, and what a call shows of its first argument.

ghost use Rattle.std.specs.Prelude.{◌≡◌, ◌∷◌, if◌then◌else◌, IfOk, None, Some};
ghost use Rattle.std.specs.Option.{option_copied};
ghost use Rattle.rhd_value.specs.Tree.{copied};
ghost use Rattle.rhd_value.specs.Firsts.{first_and_rest};
ghost use Rattle.rhd_func.specs.Shapes.{first_given, given, all_args, is_method_shape, by_reference};
ghost use Rattle.rhd_func.specs.Funcs.{is_method};
ghost use Rattle.rhd_func.specs.Infos.{infos_of};
ghost use Rattle.rhd_machine.specs.Plans.{plan_of};
ghost use Rattle.rhd_machine.specs.Received.{received, convention_of, has_the_given, first_after, first_received, is_read_only};
ghost use Rattle.rhd_machine.specs.Entered.{context_if};

use rhd_func::{CallRequest, CallShape, NativeCallContext, Natives, RhaiFunc};
use rhd_value::{Dynamic, OutOfMemory, Values};
use std::alloc::Global;

/// The arguments of a function: one by reference, and the others.
#[derive(Drop)]
pub struct Received {
    pub first: Option<Dynamic>,
    pub args: Values,
}

/// Whether a function is a native that takes its first argument by reference.
#[tactic(auto, unfolding(rhd_func::specs::Infos::infos_of))]
fn is_method(natives: &Natives, func: &RhaiFunc) -> bool
    ensures { result ≡ is_method (infos_of info natives.now) func.now }
{
    func.is_method(natives)
}

/// Whether a function has the first argument by reference, or the object, itself and no copy.
#[inline(always)]
fn has_the_first(natives: &Natives, func: &RhaiFunc, shape: &CallShape) -> bool
    ensures { result ≡ has_the_given (convention_of (infos_of info natives.now) func.now) shape.now }
{
    match shape {
        CallShape::Plain(_) => false,
        CallShape::ByRef(_, _) => is_method(natives, func),
        CallShape::Method(_, _) => is_method(natives, func) || func.is_script(),
    }
}

/// The same where an object counts as a first argument by reference.
#[inline(always)]
fn has_it_by_reference(natives: &Natives, func: &RhaiFunc, shape: &CallShape) -> bool
    ensures { result ≡ has_the_given (convention_of (infos_of info natives.now) func.now) (by_reference shape.now) }
{
    match shape {
        CallShape::Plain(_) => false,
        CallShape::ByRef(_, _) => is_method(natives, func),
        CallShape::Method(_, _) => is_method(natives, func),
    }
}

/// The same of a call.
pub fn has_the_given(natives: &Natives, func: &RhaiFunc, call: &CallRequest) -> bool
    ensures { result ≡ has_the_given (convention_of (infos_of info natives.now) func.now) (plan_of call.now).shape }
{
    match call {
        CallRequest::Named { shape, .. } => has_the_first(natives, func, shape),
        CallRequest::Qualified { shape, .. } => has_it_by_reference(natives, func, shape),
    }
}

/// Whether the first of these arguments that a function receives is read-only.
fn first_is_constant(natives: &Natives, func: &RhaiFunc, shape: &CallShape) -> bool
    ensures { result ≡ is_read_only (first_received (received (convention_of (infos_of info natives.now) func.now) shape.now)) }
{
    match shape {
        CallShape::Plain(args) => match args.as_slice() {
            [] => false,
            [first, ..] => first.is_read_only(),
        },
        CallShape::ByRef(first, _) => is_method(natives, func) && first.is_read_only(),
        CallShape::Method(object, _) => {
            (is_method(natives, func) || func.is_script()) && object.is_read_only()
        }
    }
}

/// The same where an object counts as a first argument by reference.
fn reference_is_constant(natives: &Natives, func: &RhaiFunc, shape: &CallShape) -> bool
    ensures { result ≡ is_read_only (first_received (received (convention_of (infos_of info natives.now) func.now) (by_reference shape.now))) }
{
    match shape {
        CallShape::Plain(_) => first_is_constant(natives, func, shape),
        CallShape::ByRef(_, _) => first_is_constant(natives, func, shape),
        CallShape::Method(object, _) => is_method(natives, func) && object.is_read_only(),
    }
}

/// Whether the first that a function receives of a call's arguments is read-only.
pub fn receives_constant(natives: &Natives, func: &RhaiFunc, call: &CallRequest) -> bool
    ensures { result ≡ is_read_only (first_received (received (convention_of (infos_of info natives.now) func.now) (plan_of call.now).shape)) }
{
    match call {
        CallRequest::Named { shape, .. } => first_is_constant(natives, func, shape),
        CallRequest::Qualified { shape, .. } => reference_is_constant(natives, func, shape),
    }
}

/// All arguments, by value.
fn receive_plain(alloc: Global, is_method: bool, args: &Values) -> Result<Received, OutOfMemory>
    ensures first { IfOk result (λ r. r.first ≡ (if is_method then (first_and_rest args.now).0 else None)) }
    ensures args { IfOk result (λ r. r.args ≡ (if is_method then (first_and_rest args.now).1 else args.now)) }
{
    let args = args.dup(alloc)?;
    if !is_method {
        return Ok(Received { first: None, args });
    }
    let (first, args) = args.split_first();
    Ok(Received { first, args })
}

/// The first argument itself, or a copy of it among the others.
fn receive_first(
    alloc: Global,
    itself: bool,
    first: &Dynamic,
    args: &Values,
) -> Result<Received, OutOfMemory>
    ensures first { IfOk result (λ r. r.first ≡ (if itself then Some first.now else None)) }
    ensures args { IfOk result (λ r. r.args ≡ (if itself then args.now else copied first.now ∷ args.now)) }
{
    let mut args = args.dup(alloc)?;
    if itself {
        return Ok(Received {
            first: Some(first.dup(alloc)?),
            args,
        });
    }
    args.push_first(first.copy(alloc)?)?;
    Ok(Received { first: None, args })
}

/// What a function receives of these arguments.
fn receive_all(
    alloc: Global,
    natives: &Natives,
    func: &RhaiFunc,
    shape: &CallShape,
) -> Result<Received, OutOfMemory>
    ensures first { IfOk result (λ r. r.first ≡ (received (convention_of (infos_of info natives.now) func.now) shape.now).first) }
    ensures args { IfOk result (λ r. r.args ≡ (received (convention_of (infos_of info natives.now) func.now) shape.now).args) }
{
    let itself = has_the_first(natives, func, shape);
    match shape {
        CallShape::Plain(args) => receive_plain(alloc, is_method(natives, func), args),
        CallShape::ByRef(first, args) => receive_first(alloc, itself, first, args),
        CallShape::Method(object, args) => receive_first(alloc, itself, object, args),
    }
}

/// The same where an object counts as a first argument by reference.
fn receive_by_reference(
    alloc: Global,
    natives: &Natives,
    func: &RhaiFunc,
    shape: &CallShape,
) -> Result<Received, OutOfMemory>
    ensures first { IfOk result (λ r. r.first ≡ (received (convention_of (infos_of info natives.now) func.now) (by_reference shape.now)).first) }
    ensures args { IfOk result (λ r. r.args ≡ (received (convention_of (infos_of info natives.now) func.now) (by_reference shape.now)).args) }
{
    let itself = has_it_by_reference(natives, func, shape);
    match shape {
        CallShape::Plain(args) => receive_plain(alloc, is_method(natives, func), args),
        CallShape::ByRef(first, args) => receive_first(alloc, itself, first, args),
        CallShape::Method(object, args) => receive_first(alloc, itself, object, args),
    }
}

/// What a function receives of a call's arguments.
pub fn receive(
    alloc: Global,
    natives: &Natives,
    func: &RhaiFunc,
    call: &CallRequest,
) -> Result<Received, OutOfMemory>
    ensures first { IfOk result (λ r. r.first ≡ (received (convention_of (infos_of info natives.now) func.now) (plan_of call.now).shape).first) }
    ensures args { IfOk result (λ r. r.args ≡ (received (convention_of (infos_of info natives.now) func.now) (plan_of call.now).shape).args) }
{
    match call {
        CallRequest::Named { shape, .. } => receive_all(alloc, natives, func, shape),
        CallRequest::Qualified { shape, .. } => receive_by_reference(alloc, natives, func, shape),
    }
}

/// All arguments in order, a first one by reference or an object included.
pub fn all_args(alloc: Global, shape: &CallShape) -> Result<Values, OutOfMemory>
    ensures { IfOk result (λ args. args ≡ all_args shape.now) }
{
    match shape {
        CallShape::Plain(args) => args.dup(alloc),
        CallShape::ByRef(first, args) => with_first(alloc, first, args),
        CallShape::Method(object, args) => with_first(alloc, object, args),
    }
}

/// Equal values, with an equal one before them.
fn with_first(alloc: Global, first: &Dynamic, args: &Values) -> Result<Values, OutOfMemory>
    ensures { IfOk result (λ values. values ≡ first.now ∷ args.now) }
{
    let mut values = args.dup(alloc)?;
    values.push_first(first.dup(alloc)?)?;
    Ok(values)
}

/// Whether it is the call of a method, with an object.
pub fn is_method_shape(shape: &CallShape) -> bool
    ensures { result ≡ is_method_shape shape.now }
{
    match shape {
        CallShape::Plain(_) => false,
        CallShape::ByRef(_, _) => false,
        CallShape::Method(_, _) => true,
    }
}

/// The first argument by reference, or the object, as it is given.
fn first_given(alloc: Global, shape: &CallShape) -> Result<Option<Dynamic>, OutOfMemory>
    ensures { IfOk result (λ first. first ≡ first_given shape.now) }
{
    match shape {
        CallShape::Plain(_) => Ok(None),
        CallShape::ByRef(first, _) => Ok(Some(first.dup(alloc)?)),
        CallShape::Method(object, _) => Ok(Some(object.dup(alloc)?)),
    }
}

/// The same of a request.
#[inline(always)]
pub fn given(alloc: Global, request: &CallRequest) -> Result<Option<Dynamic>, OutOfMemory>
    ensures { IfOk result (λ first. first ≡ given request.now) }
{
    match request {
        CallRequest::Named { shape, .. } => first_given(alloc, shape),
        CallRequest::Qualified { shape, .. } => first_given(alloc, shape),
    }
}

/// The same after the call: what the function gave back, if it had it itself, else what was given.
pub fn first_after(
    alloc: Global,
    natives: &Natives,
    func: &RhaiFunc,
    call: &CallRequest,
    back: Option<Dynamic>,
) -> Result<Option<Dynamic>, OutOfMemory>
    ensures { IfOk result (λ first. first ≡ first_after (convention_of (infos_of info natives.now) func.now) (plan_of call.now).shape (given call.now) back) }
{
    if has_the_given(natives, func, call) {
        return Ok(back);
    }
    given(alloc, call)
}

/// The context, for a function that is handed it.
pub fn context_if(has_context: bool, ctx: &NativeCallContext) -> Option<&NativeCallContext>
    ensures { option_copied result ≡ context_if has_context ctx.now }
{
    if has_context { Some(ctx) } else { None }
}
