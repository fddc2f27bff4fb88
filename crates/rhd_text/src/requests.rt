//! The calls that lines ask for.

ghost use Rattle.std.specs.Prelude.{◌≡◌, ℕ, List};
ghost use Rattle.std.specs.Option.{option_map};
ghost use Rattle.rhd_func.specs.declared.request.CallShape.TheVariants as shapes;
ghost use Rattle.rhd_layers.specs.Paths.{path_of};
ghost use Rattle.rhd_text.specs.Rows.{first_apart, shape_of, request_of};
ghost use Rattle.rhd_text.specs.ReadRows.{named_at, qualified_at, plan_at};
ghost use Rattle.rhd_syntax.specs.Answers.{Gives};
ghost use Rattle.rhd_syntax.specs.Reading.{wording_at};

use crate::keyword::CallWord;
use rhd_engine::path_of;
use rhd_func::{CallRequest, CallShape};
use rhd_names::lookup_symbol_from_syntax;
use rhd_plan::CallPlan;
use rhd_syntax::{
    Arguments, Stop, arguments_at, begins, is_end, name_at, plain_str_at, skip_blanks, text_here,
    want_at, wording_at,
};
use rhd_value::{Position, Text, Texts, TypeTag, Values};
use std::alloc::Global;

/// How a call hands its arguments over.
#[derive(Clone, Copy)]
pub enum Handing {
    /// All by value.
    ByValue,
    /// The first by reference.
    ByRef,
    /// The first as the object.
    AsObject,
}

/// Arguments of which the first is handed over by reference, where there is a first.
fn by_ref(args: Values) -> Option<CallShape>
    ensures { result ≡ first_apart (λ first more. shapes.ByRef first more) args }
{
    let (first, more) = args.split_first();
    Some(CallShape::ByRef(first?, more))
}

/// Arguments of which the first is the object, where there is a first.
fn of_object(args: Values) -> Option<CallShape>
    ensures { result ≡ first_apart (λ object more. shapes.Method object more) args }
{
    let (object, more) = args.split_first();
    Some(CallShape::Method(object?, more))
}

/// Arguments that are handed over so, where they are enough.
#[inline(always)]
fn shape_of(handing: Handing, args: Values) -> Option<CallShape>
    ensures { result ≡ shape_of handing args }
{
    match handing {
        Handing::ByValue => Some(CallShape::Plain(args)),
        Handing::ByRef => by_ref(args),
        Handing::AsObject => of_object(args),
    }
}

/// The request of a call by name, where the arguments are enough.
fn request_of(
    native_only: bool,
    handing: Handing,
    want: Option<TypeTag>,
    name: Text,
    args: Values,
    pos: Position,
) -> Option<CallRequest>
    ensures { result ≡ request_of native_only handing want name args pos }
{
    let shape = shape_of(handing, args)?;
    let token = lookup_symbol_from_syntax(name.as_str());
    Some(CallRequest::Named {
        name,
        token,
        native_only,
        shape,
        want,
        pos,
    })
}

/// What stands after the word of a call by name, to the end of the line. Values may be given ones
/// where `given` says so.
#[tactic(auto, unfolding(crate::specs::ReadRows::named_at))]
fn named_at(
    alloc: Global,
    bytes: &[u8],
    given: bool,
    native_only: bool,
    handing: Handing,
    pos: Position,
) -> Result<CallPlan, Stop>
    ensures { Gives (λ x. x) result (named_at given native_only handing pos bytes.now) }
{
    let (want, rest) = want_at(bytes)?;
    let (name, rest) = name_at(alloc, rest)?;
    let (args, rest) = arguments_at(alloc, rest, given)?;
    if !is_end(rest) {
        return Err(Stop::Bad);
    }
    let Arguments { values, places } = args;
    match request_of(native_only, handing, want, name, values, pos) {
        Some(request) => Ok(CallPlan { request, places }),
        None => Err(Stop::Bad),
    }
}

/// The names of the next text, which is a path, quoted or not, and the bytes after it.
#[tactic(auto, unfolding(rhd_syntax::specs::Reading::wording_at, rhd_syntax::specs::Reading::text_here))]
fn path_at(alloc: Global, bytes: &[u8]) -> Result<(Texts, &[u8]), Stop>
    ensures { Gives {Y = List (List ℕ) × List ℕ} (λ x. (x.0, x.1.now)) result (option_map (λ w. (path_of w.0, w.1)) (wording_at bytes.now)) }
{
    let here = skip_blanks(bytes);
    if begins(here, b'"') {
        let (path, rest) = text_here(alloc, here)?;
        return Ok((path_of(alloc, path.as_str())?, rest));
    }
    let (path, rest) = plain_str_at(here)?;
    Ok((path_of(alloc, path)?, rest))
}

/// What stands after the word of a call by a path and a name, to the end of the line. Values may
/// be given ones where `given` says so.
#[tactic(auto, unfolding(crate::specs::ReadRows::qualified_at))]
fn qualified_at(
    alloc: Global,
    bytes: &[u8],
    given: bool,
    handing: Handing,
    pos: Position,
) -> Result<CallPlan, Stop>
    ensures { Gives (λ x. x) result (qualified_at given handing pos bytes.now) }
{
    let (path, rest) = path_at(alloc, bytes)?;
    let (name, rest) = wording_at(alloc, rest)?;
    let (args, rest) = arguments_at(alloc, rest, given)?;
    if !is_end(rest) {
        return Err(Stop::Bad);
    }
    let Arguments { values, places } = args;
    match shape_of(handing, values) {
        Some(shape) => Ok(CallPlan {
            request: CallRequest::Qualified {
                path,
                name,
                shape,
                pos,
            },
            places,
        }),
        None => Err(Stop::Bad),
    }
}

/// What stands after the word of a call, to the end of the line. Values may be given ones where
/// `given` says so.
#[inline(always)]
pub fn plan_at(
    alloc: Global,
    bytes: &[u8],
    given: bool,
    call: CallWord,
    pos: Position,
) -> Result<CallPlan, Stop>
    ensures { Gives (λ x. x) result (plan_at given call pos bytes.now) }
{
    match call {
        CallWord::Call => named_at(alloc, bytes, given, false, Handing::ByValue, pos),
        CallWord::CallNative => named_at(alloc, bytes, given, true, Handing::ByValue, pos),
        CallWord::Ref => named_at(alloc, bytes, given, false, Handing::ByRef, pos),
        CallWord::RefNative => named_at(alloc, bytes, given, true, Handing::ByRef, pos),
        CallWord::Method => named_at(alloc, bytes, given, false, Handing::AsObject, pos),
        CallWord::MethodNative => named_at(alloc, bytes, given, true, Handing::AsObject, pos),
        CallWord::Qual => qualified_at(alloc, bytes, given, Handing::ByValue, pos),
        CallWord::QualRef => qualified_at(alloc, bytes, given, Handing::ByRef, pos),
    }
}
