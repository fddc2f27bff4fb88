//! The fault of a call whose function isn't found.

ghost use Rattle.std.specs.Prelude.{◌≡◌, ◌++◌, IfOk, OnOk, map, codes};
ghost use Rattle.std.specs.List.{flat_map};
ghost use Rattle.rhd_func.specs.Shapes.{all_args};
ghost use Rattle.rhd_engine.specs.Display.{display};
ghost use Rattle.rhd_engine.specs.NotFound.{wrong_number, get_index, set_index, get_property, set_property, not_found, path_text, not_found_in};
ghost use Rattle.rhd_engine.specs.Of.{lists_of};

use crate::engine::Engine;
use rhd_func::CallShape;
use rhd_value::{Dynamic, EvalAltResult, OutOfMemory, ParseErrorType, Position, Text, Texts};
use std::alloc::Global;

/// The fault of a call with another number of arguments than it should have.
fn wrong_number(
    alloc: Global,
    pos: Position,
    types: &[Text],
    what: &str,
    should: usize,
) -> Result<EvalAltResult, OutOfMemory>
    ensures { IfOk result (λ fault. fault ≡ wrong_number pos types.now what.now should) }
{
    let count = types.len();
    let written = format!(in alloc;
        "System error: {count} argument(s) found for {what} (should be {should})"
    )?;
    let text = Text::from_string(alloc, written)?;
    let error = ParseErrorType::MalformedIndexExpr(text);
    Ok(EvalAltResult::ErrorParsing(error, pos))
}

/// The fault of an indexer that reads.
fn get_index(alloc: Global, pos: Position, types: &[Text]) -> Result<EvalAltResult, OutOfMemory>
    ensures { IfOk result (λ fault. fault ≡ get_index pos types.now) }
{
    match types {
        [object, index] => {
            let written = format!(in alloc; "{} [{}]", object.as_str(), index.as_str())?;
            let text = Text::from_string(alloc, written)?;
            Ok(EvalAltResult::ErrorIndexingType(text, pos))
        }
        _ => wrong_number(alloc, pos, types, "indexer", 2),
    }
}

/// The fault of an indexer that writes.
fn set_index(alloc: Global, pos: Position, types: &[Text]) -> Result<EvalAltResult, OutOfMemory>
    ensures { IfOk result (λ fault. fault ≡ set_index pos types.now) }
{
    match types {
        [object, index, value] => {
            let written = format!(in alloc;
                "{} [{}] = {}",
                object.as_str(),
                index.as_str(),
                value.as_str()
            )?;
            let text = Text::from_string(alloc, written)?;
            Ok(EvalAltResult::ErrorIndexingType(text, pos))
        }
        _ => wrong_number(alloc, pos, types, "index setter", 3),
    }
}

/// The fault of a getter.
fn get_property(
    alloc: Global,
    pos: Position,
    property: &str,
    types: &[Text],
) -> Result<EvalAltResult, OutOfMemory>
    ensures { IfOk result (λ fault. fault ≡ get_property pos property.now types.now) }
{
    match types {
        [object] => {
            let written = format!(in alloc;
                "Unknown property '{property}' - a getter is not registered for type '{}'",
                object.as_str()
            )?;
            let text = Text::from_string(alloc, written)?;
            Ok(EvalAltResult::ErrorDotExpr(text, pos))
        }
        _ => {
            let what = format!(in alloc; "property getter '{property}'")?;
            wrong_number(alloc, pos, types, what.as_str(), 1)
        }
    }
}

/// The fault of a setter.
fn set_property(
    alloc: Global,
    pos: Position,
    property: &str,
    types: &[Text],
) -> Result<EvalAltResult, OutOfMemory>
    ensures { IfOk result (λ fault. fault ≡ set_property pos property.now types.now) }
{
    match types {
        [object, value] => {
            let written = format!(in alloc;
                "No writable property '{property}' - a setter is not registered for type '{}' to handle '{}'",
                object.as_str(),
                value.as_str()
            )?;
            let text = Text::from_string(alloc, written)?;
            Ok(EvalAltResult::ErrorDotExpr(text, pos))
        }
        _ => {
            let what = format!(in alloc; "property setter '{property}'")?;
            wrong_number(alloc, pos, types, what.as_str(), 2)
        }
    }
}

/// Puts further names at the end, each after `::`.
fn push_more_names(out: &mut Text, names: &[Text]) -> Result<(), OutOfMemory>
    ensures { OnOk result (out.new ≡ out.old ++ flat_map (λ name. codes "::" ++ name) names.now) }
{
    for name in names {
        out.push("::")?;
        out.push(name.as_str())?;
    }
    Ok(())
}

/// The names of a path, with `::` between them.
pub fn path_text(alloc: Global, path: &[Text]) -> Result<Text, OutOfMemory>
    ensures { IfOk result (λ text. text ≡ path_text path.now) }
{
    match path {
        [] => Ok(Text::new(alloc)),
        [first, more @ ..] => {
            let mut text = first.dup(alloc)?;
            push_more_names(&mut text, more)?;
            Ok(text)
        }
    }
}

impl Engine {
    /// Puts the display types of values last.
    fn push_display_types(
        &self,
        alloc: Global,
        types: &mut Texts,
        values: &[Dynamic],
    ) -> Result<(), OutOfMemory>
        ensures { OnOk result (types.new ≡ types.old ++ map (display (lists_of info self.now)) values.now) }
    {
        for value in values {
            types.push(self.display_type(alloc, value)?)?;
        }
        Ok(())
    }

    /// The display types of all arguments.
    fn display_types(&self, alloc: Global, shape: &CallShape) -> Result<Texts, OutOfMemory>
        ensures { IfOk result (λ types. types ≡ map (display (lists_of info self.now)) (all_args shape.now)) }
    {
        let mut types = Texts::new(alloc);
        let args = match shape {
            CallShape::Plain(args) => args,
            CallShape::ByRef(first, args) => {
                types.push(self.display_type(alloc, first)?)?;
                args
            }
            CallShape::Method(object, args) => {
                types.push(self.display_type(alloc, object)?)?;
                args
            }
        };
        self.push_display_types(alloc, &mut types, args.as_slice())?;
        Ok(types)
    }

    /// The fault of a call whose function isn't found, by its name: that of an indexer, of a getter or
    /// setter of a property, or else of a function. `get$` and `set$` alone have the empty property.
    pub fn not_found(
        &self,
        alloc: Global,
        name: &Text,
        shape: &CallShape,
        pos: Position,
    ) -> Result<EvalAltResult, OutOfMemory>
        ensures { IfOk result (λ fault. fault ≡ not_found (lists_of info self.now) pos name.now (all_args shape.now)) }
    {
        let types = self.display_types(alloc, shape)?;
        let text = name.as_str();
        if text == "index$get$" {
            return get_index(alloc, pos, types.as_slice());
        }
        if text == "index$set$" {
            return set_index(alloc, pos, types.as_slice());
        }
        if let Some(property) = text.strip_prefix("get$") {
            return get_property(alloc, pos, property, types.as_slice());
        }
        if let Some(property) = text.strip_prefix("set$") {
            return set_property(alloc, pos, property, types.as_slice());
        }
        let signature = self.call_signature(alloc, name, shape)?;
        Ok(EvalAltResult::ErrorFunctionNotFound(signature, pos))
    }

    /// The fault of a qualified call whose function isn't found: its path, and its signature.
    #[tactic(auto, unfolding(crate::specs::NotFound::not_found_in))]
    pub fn not_found_in(
        &self,
        alloc: Global,
        path: &[Text],
        name: &Text,
        shape: &CallShape,
        pos: Position,
    ) -> Result<EvalAltResult, OutOfMemory>
        ensures { IfOk result (λ fault. fault ≡ not_found_in (lists_of info self.now) path.now pos name.now (all_args shape.now)) }
    {
        let mut text = path_text(alloc, path)?;
        text.push("::")?;
        let signature = self.call_signature(alloc, name, shape)?;
        text.push(signature.as_str())?;
        Ok(EvalAltResult::ErrorFunctionNotFound(text, pos))
    }
}
