//! What the natives of the kit do.

ghost use Rattle.std.specs.Prelude.{◌≡◌, ◌-◌, IfOk, length, pos, take};
ghost use Rattle.std.specs.Option.{option_copied, option_map};
ghost use Rattle.rhd_value.specs.Tree.{unit};
ghost use Rattle.rhd_value.specs.Kinds.{plain};
ghost use Rattle.rhd_kit.specs.Kit.{arguments, answers, bytes_in, sum_of, changed_to, elements, last_of, without_last, payload_in};
ghost use Rattle.rhd_kit.specs.Kit.{position_of, call_of, asks_once, with_left, asks_with_left, asks_often, kit_does, passes_on, is_name_with_left, goes_on, kit_next, int_at, text_at};
ghost use Rattle.rhd_kit.specs.Values.{argument_at, own_fault, values_in};

use crate::kit::given::Given;
use crate::values::{answer_unit, failed, first_of, int_of, own_fault, owned, text_of, values_in};
use rhd_func::{CallRequest, CallShape, Carry, NativeCallContext, NativeStep};
use rhd_names::lookup_symbol_from_syntax;
use rhd_value::{Dynamic, EvalAltResult, OutOfMemory, Position, TypeTag, Value, Values};
use std::alloc::Global;

/// The answer of an integer made anew.
fn answer(number: i64, first: Option<Dynamic>) -> NativeStep
    ensures { result ≡ answers number first }
{
    NativeStep::Done {
        answer: Dynamic::from(Value::Int(number)),
        first,
    }
}

/// The bytes of a text, at most the greatest integer.
fn bytes_in(text: &str) -> i64
    ensures { result ≡ bytes_in text.now }
{
    text.len().min(i64::MAX as usize) as i64
}

/// The sum of the first two arguments, wrapped.
fn sum_of(given: &Given) -> i64
    ensures { result ≡ sum_of (arguments given.now.first given.now.args) }
{
    given.int(0).wrapping_add(given.int(1))
}

/// An integer in the place of a value, with the value's own marks.
fn changed_to(number: i64, value: Dynamic) -> Dynamic
    ensures { result ≡ changed_to number value }
{
    Dynamic {
        value: Value::Int(number),
        marks: value.marks,
    }
}

/// Changes the first argument to the sum.
fn add_to_first(given: Given) -> NativeStep
    ensures { result ≡ NativeStep.Done (plain unit) (option_map (changed_to (sum_of (arguments given.first given.args))) given.first) }
{
    let sum = sum_of(&given);
    let Given { first, args: _ } = given;
    match first {
        Some(first) => answer_unit(Some(changed_to(sum, first))),
        None => answer_unit(None),
    }
}

/// The last value, which is unit where there is none, and the values before it.
fn last_apart(values: Values) -> (Dynamic, Values)
    ensures last { result.0 ≡ last_of values }
    ensures rest { result.1 ≡ take (length values - 1) values }
{
    let mut values = values;
    match values.pop() {
        Some(last) => (last, values),
        None => (Dynamic::from(Value::Unit), values),
    }
}

/// Takes the last element off the first argument, and answers it.
fn pop(alloc: Global, given: Given) -> NativeStep
    ensures { result ≡ NativeStep.Done (last_of (elements (arguments given.first given.args))) (option_map without_last given.first) }
{
    let Given { first, args } = given;
    match first {
        Some(first) => {
            let marks = first.marks;
            let (answer, rest) = last_apart(values_in(alloc, first));
            let first = Dynamic {
                value: Value::Array(rest),
                marks,
            };
            NativeStep::Done {
                answer,
                first: Some(first),
            }
        }
        None => {
            let (answer, _rest) = last_apart(values_in(alloc, first_of(args)));
            NativeStep::Done {
                answer,
                first: None,
            }
        }
    }
}

/// The elements of an array; of a value of another kind, none.
#[tactic(auto, using(crate::proofs::Arrays::items_list))]
fn elements_of(value: &Dynamic) -> &[Dynamic]
    ensures { result.now ≡ values_in value.now.kind }
{
    match &value.value {
        Value::Array(values) => values.as_slice(),
        _ => &[],
    }
}

/// The number of elements of the first argument.
fn count(given: &Given) -> i64
    ensures { result ≡ pos (length (elements (arguments given.now.first given.now.args))) }
{
    match given.get(0) {
        Some(value) => elements_of(value).len() as i64,
        None => 0,
    }
}

/// The integer that the first argument holds, where that is a custom value; else 0.
fn payload_in(given: &Given) -> i64
    ensures { result ≡ payload_in (argument_at (arguments given.now.first given.now.args) 0).kind }
{
    match given.get(0) {
        Some(value) => match &value.value {
            Value::Custom(_, payload) => *payload,
            _ => 0,
        },
        None => 0,
    }
}

/// Answers the first argument.
fn echo(alloc: Global, given: Given) -> Result<NativeStep, OutOfMemory>
    ensures { IfOk result (λ step. step ≡ NativeStep.Done (argument_at (arguments given.first given.args) 0) given.first) }
{
    let (answer, first) = given.into_first(alloc)?;
    Ok(NativeStep::Done { answer, first })
}

/// Fails with the text of the first argument.
fn fail(alloc: Global, given: Given) -> Result<NativeStep, OutOfMemory>
    ensures { IfOk result (λ step. step ≡ own_fault (text_at (arguments given.first given.args) 0) given.first) }
{
    let text = owned(alloc, given.text(0))?;
    Ok(failed(text, given.first))
}

/// The position of the context, and none without one.
fn position_of(ctx: Option<&NativeCallContext>) -> Position
    ensures { result ≡ position_of (option_copied ctx.entry) }
{
    match ctx {
        Some(ctx) => ctx.pos,
        None => Position::NONE,
    }
}

/// The call of a name with its token, without arguments, scripts allowed.
fn call_of(
    alloc: Global,
    ctx: Option<&NativeCallContext>,
    name: &str,
) -> Result<CallRequest, OutOfMemory>
    ensures { IfOk result (λ request. request ≡ call_of (option_copied ctx.entry) name.now) }
{
    Ok(CallRequest::Named {
        name: owned(alloc, name)?,
        token: lookup_symbol_from_syntax(name),
        native_only: false,
        shape: CallShape::Plain(Values::new(alloc)),
        want: None,
        pos: position_of(ctx),
    })
}

/// Asks the call of a name, and keeps nothing.
fn ask_once(
    alloc: Global,
    ctx: Option<&NativeCallContext>,
    given: Given,
) -> Result<NativeStep, OutOfMemory>
    ensures { IfOk result (λ step. step ≡ asks_once (option_copied ctx.entry) (text_at (arguments given.first given.args) 0) given.first) }
{
    let request = call_of(alloc, ctx, given.text(0))?;
    Ok(NativeStep::Ask {
        request,
        carry: Carry {
            first: given.first,
            kept: Dynamic::from(Value::Unit),
        },
    })
}

/// What is kept of a name as it was given, with the number of calls still to come.
fn with_left(alloc: Global, name: Dynamic, left: i64) -> Result<Values, OutOfMemory>
    ensures { IfOk result (λ kept. kept ≡ with_left name left) }
{
    let mut kept = Values::new(alloc);
    kept.push(name)?;
    kept.push(Dynamic::from(Value::Int(left)))?;
    Ok(kept)
}

/// Asks the call of a name, with so many calls still to come after this one.
fn ask_with_left(
    alloc: Global,
    ctx: Option<&NativeCallContext>,
    name: Dynamic,
    left: i64,
    first: Option<Dynamic>,
) -> Result<NativeStep, OutOfMemory>
    ensures { IfOk result (λ step. step ≡ asks_with_left (option_copied ctx.entry) name left first) }
{
    let request = call_of(alloc, ctx, text_of(Some(&name)))?;
    let kept = with_left(alloc, name, left)?;
    Ok(NativeStep::Ask {
        request,
        carry: Carry {
            first,
            kept: Dynamic::from(Value::Array(kept)),
        },
    })
}

/// Asks the call of a name as often as a number says.
fn ask_often(
    alloc: Global,
    ctx: Option<&NativeCallContext>,
    given: Given,
) -> Result<NativeStep, OutOfMemory>
    ensures { IfOk result (λ step. step ≡ asks_often (option_copied ctx.entry) (argument_at (arguments given.first given.args) 0) (int_at (arguments given.first given.args) 1) given.first) }
{
    let times = given.int(1);
    if times < 1 {
        return Ok(answer_unit(given.first));
    }
    let (name, first) = given.into_first(alloc)?;
    ask_with_left(alloc, ctx, name, times - 1, first)
}

/// What the native of a number does with arguments of its types.
#[tactic(auto, unfolding(crate::specs::Kit::kit_does))]
pub fn act(
    number: u32,
    alloc: Global,
    ctx: Option<&NativeCallContext>,
    given: Given,
) -> Result<NativeStep, OutOfMemory>
    ensures { IfOk result (λ step. step ≡ kit_does number (option_copied ctx.entry) given.first (arguments given.first given.args)) }
{
    match number {
        6 => Ok(answer(bytes_in(given.text(0)), given.first)),
        7 => Ok(answer(sum_of(&given), given.first)),
        8 => Ok(pop(alloc, given)),
        9 => Ok(answer(count(&given), given.first)),
        10 => echo(alloc, given),
        11 => fail(alloc, given),
        12 => ask_once(alloc, ctx, given),
        13 => ask_often(alloc, ctx, given),
        15 => Ok(answer(payload_in(&given), given.first)),
        19 => Ok(add_to_first(given)),
        _ => Ok(answer(number as i64, given.first)),
    }
}

/// Answers or fails as a call did.
fn pass_on(answer: Result<Dynamic, EvalAltResult>, first: Option<Dynamic>) -> NativeStep
    ensures { result ≡ passes_on answer first }
{
    match answer {
        Ok(answer) => NativeStep::Done { answer, first },
        Err(fault) => NativeStep::Failed { fault, first },
    }
}

/// Whether they are a text and an integer of 0 or more.
fn is_name_with_left(kept: &[Dynamic]) -> bool
    ensures { result ≡ is_name_with_left kept.now }
{
    match kept {
        [name, left] => name.as_text().is_some() && left.as_int().is_some_and(|left| 0 <= left),
        _ => false,
    }
}

/// After a call of one that asks often: a fault at once, else the last answer or the next call.
fn ask_on(
    alloc: Global,
    ctx: Option<&NativeCallContext>,
    kept: Values,
    answer: Result<Dynamic, EvalAltResult>,
    first: Option<Dynamic>,
) -> Result<NativeStep, OutOfMemory>
    ensures { IfOk result (λ step. step ≡ goes_on (option_copied ctx.entry) (argument_at kept 0) (int_at kept 1) answer first) }
{
    let left = int_of(kept.get(1));
    match answer {
        Ok(_) if left >= 1 => ask_with_left(alloc, ctx, first_of(kept), left - 1, first),
        answer => Ok(pass_on(answer, first)),
    }
}

/// What the native of a number does after a call that it asked for.
pub fn go_on(
    number: u32,
    alloc: Global,
    ctx: Option<&NativeCallContext>,
    carry: Carry,
    answer: Result<Dynamic, EvalAltResult>,
) -> Result<NativeStep, OutOfMemory>
    ensures { IfOk result (λ step. step ≡ kit_next number (option_copied ctx.entry) carry answer) }
{
    let Carry { first, kept } = carry;
    if number == 12 && kept.kind() == TypeTag::Unit {
        return Ok(pass_on(answer, first));
    }
    if number == 13 {
        let kept = values_in(alloc, kept);
        if is_name_with_left(kept.as_slice()) {
            return ask_on(alloc, ctx, kept, answer, first);
        }
    }
    own_fault(alloc, "bad carry", first)
}
