//! What natives and bodies read in values, and what they make of them.

ghost use Rattle.std.specs.Prelude.{◌≡◌, IfOk, drop};
ghost use Rattle.std.specs.Option.{option_copied};
ghost use Rattle.rhd_value.specs.Kinds.{plain};
ghost use Rattle.rhd_value.specs.Tree.{unit};
ghost use Rattle.rhd_kit.specs.Values.{argument_at, int_of, text_of, values_in, own_fault};

use rhd_func::NativeStep;
use rhd_value::{Dynamic, EvalAltResult, OutOfMemory, Position, Text, Value, Values};
use std::alloc::Global;

/// The integer that a value is; 0 for another.
pub fn int_of(value: Option<&Dynamic>) -> i64
    ensures { result ≡ int_of (option_copied value.entry) }
{
    match value {
        Some(value) => value.as_int().unwrap_or(0),
        None => 0,
    }
}

/// The text that a value is; empty for another.
pub fn text_of(value: Option<&Dynamic>) -> &str
    ensures { result.now ≡ text_of (option_copied value.entry) }
{
    match value {
        Some(value) => match value.as_text() {
            Some(text) => text.as_str(),
            None => "",
        },
        None => "",
    }
}

/// The first of some values; unit where there is none.
pub fn first_of(values: Values) -> Dynamic
    ensures { result ≡ argument_at values 0 }
{
    let (first, _rest) = values.split_first();
    match first {
        Some(first) => first,
        None => Dynamic::from(Value::Unit),
    }
}

/// The first of some values, unit where there is none, and the others.
pub fn first_apart(values: Values) -> (Dynamic, Values)
    ensures first { result.0 ≡ argument_at values 0 }
    ensures rest { result.1 ≡ drop 1 values }
{
    let (first, rest) = values.split_first();
    match first {
        Some(first) => (first, rest),
        None => (Dynamic::from(Value::Unit), rest),
    }
}

/// The values of an array; of another kind, none.
#[tactic(auto, using(crate::proofs::Arrays::items_list))]
pub fn values_in(alloc: Global, value: Dynamic) -> Values
    ensures { result ≡ values_in value.kind }
{
    match value.into_value() {
        Value::Array(values) => values,
        _ => Values::new(alloc),
    }
}

/// A text of one's own.
pub fn owned(alloc: Global, text: &str) -> Result<Text, OutOfMemory>
    ensures { IfOk result (λ owned. owned ≡ text.now) }
{
    Text::from_str(alloc, text)
}

/// The fault of a native's own with this text.
pub fn failed(text: Text, first: Option<Dynamic>) -> NativeStep
    ensures { result ≡ own_fault text first }
{
    NativeStep::Failed {
        fault: EvalAltResult::ErrorRuntime(text, Position::NONE),
        first,
    }
}

/// The same, of a text that is borrowed.
pub fn own_fault(
    alloc: Global,
    text: &str,
    first: Option<Dynamic>,
) -> Result<NativeStep, OutOfMemory>
    ensures { IfOk result (λ step. step ≡ own_fault text.now first) }
{
    Ok(failed(owned(alloc, text)?, first))
}

/// The answer of unit.
pub fn answer_unit(first: Option<Dynamic>) -> NativeStep
    ensures { result ≡ NativeStep.Done (plain unit) first }
{
    NativeStep::Done {
        answer: Dynamic::from(Value::Unit),
        first,
    }
}
