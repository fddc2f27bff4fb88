//! The kinds and the number of the arguments of a call.

ghost use Rattle.std.specs.Prelude.{◌≡◌, ◌++◌, IfOk, OnOk, map};
ghost use Rattle.rhd_value.specs.Kinds.{tag_of};
ghost use Rattle.rhd_func.specs.Shapes.{all_args};
ghost use Rattle.rhd_dispatch.specs.Asks.{params_of};

use rhd_func::CallShape;
use rhd_value::{OutOfMemory, Types, Values};
use std::alloc::Global;

/// Puts the kinds of values last.
fn push_kinds(kinds: &mut Types, values: &Values) -> Result<(), OutOfMemory>
    ensures { OnOk result (kinds.new ≡ kinds.old ++ map tag_of values.now) }
{
    for value in values.as_slice() {
        kinds.push(value.kind())?;
    }
    Ok(())
}

/// The kinds of all arguments, in order.
#[inline(always)]
pub(crate) fn kinds_of(alloc: Global, shape: &CallShape) -> Result<Types, OutOfMemory>
    ensures { IfOk result (λ kinds. kinds ≡ map tag_of (all_args shape.now)) }
{
    let mut kinds = Types::new(alloc);
    match shape {
        CallShape::Plain(args) => push_kinds(&mut kinds, args)?,
        CallShape::ByRef(first, args) => {
            kinds.push(first.kind())?;
            push_kinds(&mut kinds, args)?;
        }
        CallShape::Method(object, args) => {
            kinds.push(object.kind())?;
            push_kinds(&mut kinds, args)?;
        }
    }
    Ok(kinds)
}

/// The number of arguments, an object not counted.
pub(crate) fn params_of(shape: &CallShape) -> u64
    ensures { result ≡ params_of shape.now }
{
    match shape {
        CallShape::Plain(args) => args.len() as u64,
        CallShape::ByRef(_, args) => args.as_slice().len() as u64 + 1,
        CallShape::Method(_, args) => args.len() as u64,
    }
}
