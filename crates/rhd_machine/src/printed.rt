//! What the natives `print` and `debug` print, and what their calls answer.

ghost use Rattle.std.specs.Prelude.{◌≡◌, IfOk};
ghost use Rattle.rhd_machine.specs.Plans.{plan_of};
ghost use Rattle.rhd_engine.specs.Of.{lists_of};
ghost use Rattle.rhd_machine.specs.Printed.{printer, printer_named, no_text, printed_text, answer_after_printing};

use crate::plan::{is_qualified, name_of};
use rhd_call::{Layer, Pick};
use rhd_engine::{Engine, Printers};
use rhd_func::CallRequest;
use rhd_value::{Dynamic, EvalAltResult, OutOfMemory, Position, Text, TypeTag, Value};
use std::alloc::Global;

/// Whether the printer of a name is set; no other name has one.
fn printer_named(printers: Printers, name: &Text) -> Option<bool>
    ensures { result ≡ printer_named printers name.now }
{
    if name.as_str() == "print" {
        return Some(printers.print);
    }
    if name.as_str() == "debug" {
        return Some(printers.debug);
    }
    None
}

/// The same of an unqualified call that found a native by that name; a script or a built-in has none.
pub fn printer(printers: Printers, call: &CallRequest, pick: &Pick) -> Option<bool>
    ensures { result ≡ printer printers (plan_of call.now) pick.now }
{
    if is_qualified(call) || (pick.func.is_script() || pick.layer == Layer::Builtin) {
        return None;
    }
    printer_named(printers, name_of(call))
}

/// The fault of a value that is no text, where the printer is set.
pub fn no_text(
    alloc: Global,
    engine: &Engine,
    printer: Option<bool>,
    pos: Position,
    value: &Dynamic,
) -> Result<Option<EvalAltResult>, OutOfMemory>
    ensures { IfOk result (λ fault. fault ≡ no_text (lists_of info engine.now) printer pos value.now) }
{
    if printer != Some(true) || value.as_text().is_some() {
        return Ok(None);
    }
    Ok(Some(EvalAltResult::ErrorMismatchOutputType(
        TypeTag::Text.type_name(alloc)?,
        engine.display_type(alloc, value)?,
        pos,
    )))
}

/// The text that is printed, if one is.
pub fn printed_text(
    alloc: Global,
    printer: Option<bool>,
    value: &Dynamic,
) -> Result<Option<Text>, OutOfMemory>
    ensures { IfOk result (λ text. text ≡ printed_text printer value.now) }
{
    if printer != Some(true) {
        return Ok(None);
    }
    match value.as_text() {
        Some(text) => Ok(Some(text.dup(alloc)?)),
        None => Ok(None),
    }
}

/// What the call answers: unit in the place of a value that is to be printed.
pub fn answer_after_printing(printer: Option<bool>, value: Dynamic) -> Dynamic
    ensures { result ≡ answer_after_printing printer value }
{
    match printer {
        Some(_) => Dynamic::from(Value::Unit),
        None => value,
    }
}
