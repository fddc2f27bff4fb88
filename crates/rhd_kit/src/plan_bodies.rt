//! The bodies of a session text, which run its scripts.

ghost use Rattle.std.specs.Prelude.{◌≡◌, ◌<◌, IfOk, OnOk, drop, length, slice_get};
ghost use Rattle.std.specs.Option.{option_copied};
ghost use Rattle.rhd_func.specs.Shapes.{all_args};
ghost use Rattle.rhd_kit.specs.PlanBodies.{value_given, with_given, with_args, call_with, ends, step_after, count_in, body_step, body_next};

use crate::values::{answer_unit, failed, first_apart, own_fault, values_in};
use rhd_func::{
    Bodies, CallDone, CallRequest, CallShape, Carry, NativeCallContext, NativeStep, ScriptFuncDef,
};
use rhd_text::{BodyEnd, BodyPlan, BodyPlans, CallPlan, Given, GivenAt};
use rhd_value::{Dynamic, EvalAltResult, OutOfMemory, Value, Values};
use std::alloc::Global;
use std::marker::Model;

/// The bodies of a session text, by their numbers. Contracts see the list of them.
#[derive(Drop)]
pub struct PlanBodies {
    plans: BodyPlans,
}

impl Model for PlanBodies {
    ghost use Rattle.std.specs.Prelude.{List};
    ghost use Rattle.std.specs.Coded.{coded_list};
    ghost use Rattle.rhd_plan.specs.declared.body.BodyPlan.{BodyPlan};
    ghost use Rattle.rhd_plan.specs.contracts.body.BodyPlan as body;

    ghost Value = { List BodyPlan };

    ghost coded = { coded_list body.the_row.coded };

    ghost view = { λ a. a.plans };
}

/// The value that a body is given; unit where there is none.
fn value_given(
    alloc: Global,
    given: Given,
    object: Option<&Dynamic>,
    latest: Option<&Dynamic>,
    args: &[Dynamic],
) -> Result<Dynamic, OutOfMemory>
    ensures { IfOk result (λ value. value ≡ value_given (record { object = option_copied object.entry; latest = option_copied latest.entry; args = args.now }) given) }
{
    let value = match given {
        Given::This => object,
        Given::Last => latest,
        Given::Arg(number) => args.get(number as usize),
    };
    match value {
        Some(value) => value.dup(alloc),
        None => Ok(Dynamic::from(Value::Unit)),
    }
}

/// Puts each given value in its place.
fn put_given(
    alloc: Global,
    places: &[GivenAt],
    values: &mut Values,
    object: Option<&Dynamic>,
    latest: Option<&Dynamic>,
    args: &[Dynamic],
) -> Result<(), OutOfMemory>
    ensures { OnOk result (values.new ≡ with_given (record { object = option_copied object.entry; latest = option_copied latest.entry; args = args.now }) places.now values.old) }
{
    for place in places {
        let value = value_given(alloc, place.given, object, latest, args)?;
        values.set(place.place, value);
    }
    Ok(())
}

/// A shape with each given value in its place, where places count all arguments.
fn shape_with(
    alloc: Global,
    shape: CallShape,
    places: &[GivenAt],
    object: Option<&Dynamic>,
    latest: Option<&Dynamic>,
    args: &[Dynamic],
) -> Result<CallShape, OutOfMemory>
    ensures { IfOk result (λ made. made ≡ with_args shape (with_given (record { object = option_copied object.entry; latest = option_copied latest.entry; args = args.now }) places.now (all_args shape))) }
{
    match shape {
        CallShape::Plain(values) => {
            let mut values = values;
            put_given(alloc, places, &mut values, object, latest, args)?;
            Ok(CallShape::Plain(values))
        }
        CallShape::ByRef(first, values) => {
            let mut values = values;
            values.push_first(first)?;
            put_given(alloc, places, &mut values, object, latest, args)?;
            let (first, values) = first_apart(values);
            Ok(CallShape::ByRef(first, values))
        }
        CallShape::Method(this, values) => {
            let mut values = values;
            values.push_first(this)?;
            put_given(alloc, places, &mut values, object, latest, args)?;
            let (this, values) = first_apart(values);
            Ok(CallShape::Method(this, values))
        }
    }
}

/// A call as it is asked.
fn call_with(
    alloc: Global,
    call: &CallPlan,
    object: Option<&Dynamic>,
    latest: Option<&Dynamic>,
    args: &[Dynamic],
) -> Result<CallRequest, OutOfMemory>
    ensures { IfOk result (λ request. request ≡ call_with (record { object = option_copied object.entry; latest = option_copied latest.entry; args = args.now }) call.now.places call.now.request) }
{
    let places = call.places.as_slice();
    match call.request.dup(alloc)? {
        CallRequest::Named {
            name,
            token,
            native_only,
            shape,
            want,
            pos,
        } => Ok(CallRequest::Named {
            name,
            token,
            native_only,
            shape: shape_with(alloc, shape, places, object, latest, args)?,
            want,
            pos,
        }),
        CallRequest::Qualified {
            path,
            name,
            shape,
            pos,
        } => Ok(CallRequest::Qualified {
            path,
            name,
            shape: shape_with(alloc, shape, places, object, latest, args)?,
            pos,
        }),
    }
}

/// The end of a body.
fn end_of(
    alloc: Global,
    end: &Option<BodyEnd>,
    object: Option<Dynamic>,
    latest: Option<&Dynamic>,
    args: &[Dynamic],
) -> Result<NativeStep, OutOfMemory>
    ensures { IfOk result (λ step. step ≡ ends (record { object = object; latest = option_copied latest.entry; args = args.now }) end.now) }
{
    match end {
        None => Ok(answer_unit(object)),
        Some(BodyEnd::Ret(answer)) => Ok(NativeStep::Done {
            answer: answer.dup(alloc)?,
            first: object,
        }),
        Some(BodyEnd::RetGiven(given)) => Ok(NativeStep::Done {
            answer: value_given(alloc, *given, object.as_ref(), latest, args)?,
            first: object,
        }),
        Some(BodyEnd::Fail(text)) => Ok(failed(text.dup(alloc)?, object)),
    }
}

/// The step of a body that has asked so many of its calls, of which the last answered `latest`.
/// What is kept begins with a number, and then come the arguments.
fn step_after(
    alloc: Global,
    plan: &BodyPlan,
    asked: usize,
    object: Option<Dynamic>,
    latest: Option<Dynamic>,
    kept: Values,
) -> Result<NativeStep, OutOfMemory>
    requires { 0 < length kept }
    ensures { IfOk result (λ step. step ≡ step_after plan.now asked (record { object = object; latest = latest; args = drop 1 kept })) }
{
    let mut kept = kept;
    let args = &kept.as_slice()[1..];
    let calls = plan.calls.as_slice();
    if asked >= calls.len() {
        return end_of(alloc, &plan.end, object, latest.as_ref(), args);
    }
    let request = call_with(alloc, &calls[asked], object.as_ref(), latest.as_ref(), args)?;
    kept.set(0, Dynamic::from(Value::Int(asked as i64 + 1)));
    Ok(NativeStep::Ask {
        request,
        carry: Carry {
            first: object,
            kept: Dynamic::from(Value::Array(kept)),
        },
    })
}

/// The number of calls asked so far, where what is kept begins with one of 1 to all of them.
fn count_in(calls: usize, kept: &[Dynamic]) -> Option<usize>
    ensures { result ≡ count_in calls kept.now }
{
    let count = kept.first()?.as_int()?;
    let asked = usize::try_from(count).ok()?;
    if 1 <= asked && asked <= calls {
        Some(asked)
    } else {
        None
    }
}

impl PlanBodies {
    pub fn new(plans: BodyPlans) -> PlanBodies
        ensures { result ≡ plans }
    {
        PlanBodies { plans }
    }

    /// Equal bodies.
    pub fn dup(&self, alloc: Global) -> Result<PlanBodies, OutOfMemory>
        ensures { IfOk result (λ bodies. bodies ≡ self.now) }
    {
        Ok(PlanBodies {
            plans: self.plans.dup(alloc)?,
        })
    }

    /// The body of a definition; none where the text has none of its number.
    fn plan(&self, def: &ScriptFuncDef) -> Option<&BodyPlan>
        ensures { option_copied result ≡ slice_get self.now def.now.body.0 }
    {
        self.plans.get(def.body.0 as usize)
    }

    /// The first step of a body.
    fn first_step(
        &self,
        alloc: Global,
        def: &ScriptFuncDef,
        object: Option<Dynamic>,
        args: Values,
    ) -> Result<NativeStep, OutOfMemory>
        ensures { IfOk result (λ step. step ≡ body_step self.now def.now object args) }
    {
        let Some(plan) = self.plan(def) else {
            return Ok(answer_unit(object));
        };
        let mut kept = args;
        kept.push_first(Dynamic::from(Value::Int(0)))?;
        step_after(alloc, plan, 0, object, None, kept)
    }

    /// The step of a body after a call that it asked for.
    fn next_step(
        &self,
        alloc: Global,
        def: &ScriptFuncDef,
        carry: Carry,
        answer: Result<Dynamic, EvalAltResult>,
    ) -> Result<NativeStep, OutOfMemory>
        ensures { IfOk result (λ step. step ≡ body_next self.now def.now carry answer) }
    {
        let Carry { first, kept } = carry;
        let Some(plan) = self.plan(def) else {
            return own_fault(alloc, "bad carry", first);
        };
        let kept = values_in(alloc, kept);
        let Some(asked) = count_in(plan.calls.len(), kept.as_slice()) else {
            return own_fault(alloc, "bad carry", first);
        };
        match answer {
            Ok(latest) => step_after(alloc, plan, asked, first, Some(latest), kept),
            Err(fault) => Ok(NativeStep::Failed { fault, first }),
        }
    }
}

impl Bodies for PlanBodies {
    ghost use Rattle.rhd_kit.specs.PlanBodies.{plan_starts, plan_resumes};

    ghost allows_start = { plan_starts };

    ghost allows_next = { plan_resumes };

    fn start(
        &mut self,
        alloc: Global,
        def: &ScriptFuncDef,
        _ctx: &NativeCallContext,
        this: Option<Dynamic>,
        args: Values,
    ) -> Result<NativeStep, OutOfMemory> {
        self.first_step(alloc, def, this, args)
    }

    fn resume(
        &mut self,
        alloc: Global,
        def: &ScriptFuncDef,
        _ctx: &NativeCallContext,
        carry: Carry,
        done: CallDone,
    ) -> Result<NativeStep, OutOfMemory> {
        self.next_step(alloc, def, carry, done.answer)
    }
}
