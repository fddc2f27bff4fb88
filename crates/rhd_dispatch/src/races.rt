//! Locked arguments.

ghost use Rattle.std.specs.Prelude.{◌≡◌, ◌≤◌, IfOk};
ghost use Rattle.rhd_value.specs.declared.fault.EvalAltResult.TheVariants.{ErrorDataRace};
ghost use Rattle.rhd_dispatch.specs.Races.{locked_from, locked_place, locked_text, data_race};

use rhd_func::CallShape;
use rhd_value::{Dynamic, EvalAltResult, OutOfMemory, Position, Text};
use std::alloc::Global;

/// The place of the first locked value, where the first has this place.
fn locked_from(start: u64, values: &[Dynamic]) -> Option<u64>
    requires { start ≤ 2 }
    ensures { result ≡ locked_from start values.now }
{
    let mut place = start;
    for value in values {
        if value.is_locked() {
            return Some(place);
        }
        place += 1;
    }
    None
}

/// The place of the first locked argument among all, from 1. A first argument by reference and an
/// object may be locked.
fn locked_place(shape: &CallShape) -> Option<u64>
    ensures { result ≡ locked_place shape.now }
{
    match shape {
        CallShape::Plain(args) => locked_from(1, args.as_slice()),
        CallShape::ByRef(_, args) => locked_from(2, args.as_slice()),
        CallShape::Method(_, args) => locked_from(2, args.as_slice()),
    }
}

/// The fault of a locked argument at a place.
fn locked_at(
    alloc: Global,
    name: &Text,
    place: u64,
    pos: Position,
) -> Result<EvalAltResult, OutOfMemory>
    ensures { IfOk result (λ fault. fault ≡ ErrorDataRace (locked_text name.now place) pos) }
{
    let written = format!(in alloc; "argument #{place} of function '{}'", name.as_str())?;
    let text = Text::from_string(alloc, written)?;
    Ok(EvalAltResult::ErrorDataRace(text, pos))
}

/// The fault of a call of this name with a locked argument; none where no argument is locked. A first
/// argument by reference and an object may be locked.
pub fn ensure_no_data_race(
    alloc: Global,
    name: &Text,
    shape: &CallShape,
    pos: Position,
) -> Result<Option<EvalAltResult>, OutOfMemory>
    ensures { IfOk result (λ fault. fault ≡ data_race name.now shape.now pos) }
{
    match locked_place(shape) {
        None => Ok(None),
        Some(place) => Ok(Some(locked_at(alloc, name, place, pos)?)),
    }
}
