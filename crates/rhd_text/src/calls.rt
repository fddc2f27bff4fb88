//! One call line by itself.

ghost use Rattle.std.specs.Prelude.{◌≡◌, IfOk, Some};
ghost use Rattle.rhd_plan.specs.declared.part.Part.TheVariants as parts;
ghost use Rattle.rhd_text.specs.Grammar.{IsCallOrNone};
ghost use Rattle.rhd_text.specs.ReadRows.{request_in};

use crate::line::line_at;
use crate::place::Place;
use rhd_call::Command;
use rhd_func::CallRequest;
use rhd_plan::Part;
use rhd_syntax::Stop;
use rhd_value::OutOfMemory;
use std::alloc::Global;

/// The request of a command, where that is a call.
fn requested(command: Command) -> Option<CallRequest>
    ensures { result ≡ request_in (Some (parts.Command command)) }
{
    match command {
        Command::Call(request) => Some(request),
        _ => None,
    }
}

/// The request of a line, where that is a call line.
fn request_in(line: Option<Part>) -> Option<CallRequest>
    ensures { result ≡ request_in line }
{
    match line {
        Some(Part::Command(command)) => requested(command),
        other => {
            drop(other);
            None
        }
    }
}

/// The request of a call line that stands at this line of a text, counted from 1; none exactly
/// where the bytes are no call line.
pub fn read_call(
    alloc: Global,
    line: &[u8],
    number: u32,
) -> Result<Option<CallRequest>, OutOfMemory>
    ensures { IfOk result (IsCallOrNone number line.now) }
{
    match line_at(alloc, line, Place { line: number }) {
        Ok(line) => Ok(request_in(line)),
        Err(Stop::Bad) => Ok(None),
        Err(Stop::Memory) => Err(OutOfMemory),
    }
}
