//! Reading a module text.

ghost use Rattle.std.specs.Prelude.{◌≡◌, IfOk};
ghost use Rattle.std.specs.Str.Lines.{lines};
ghost use Rattle.rhd_loader.specs.Reading.{after_line, said_from, StepSays, ReadsSaid};
ghost use Rattle.rhd_loader.specs.Said.{nothing_said};
ghost use Rattle.rhd_loader.specs.Says.{bad_line};

use crate::line::line_at;
use crate::said::{Said, Unsaid};
use rhd_syntax::Stop;
use rhd_text::first_line;
use rhd_value::{OutOfMemory, Text};
use std::alloc::Global;

/// The text of the fault where the line of this number is none.
#[tactic(auto, unfolding(crate::specs::Says::bad_line))]
fn bad_line(alloc: Global, number: usize) -> Result<Text, OutOfMemory>
    ensures { IfOk result (λ text. text ≡ bad_line number) }
{
    let mut text = Text::new(alloc);
    text.push("bad module text at line ")?;
    let digits = number.to_string(alloc)?;
    text.push(digits.as_str())?;
    Ok(text)
}

/// Reads the line of this number after what is said so far.
fn read_line(alloc: Global, said: &mut Said, line: &[u8], number: usize) -> Result<(), Unsaid>
    ensures { StepSays result said.new (after_line number said.old line.now) }
{
    match line_at(alloc, line) {
        Ok(None) => Ok(()),
        Ok(Some(part)) => said.add_part(alloc, part),
        Err(Stop::Bad) => Err(Unsaid::Fault(bad_line(alloc, number)?)),
        Err(Stop::Memory) => Err(Unsaid::Memory),
    }
}

/// What a module text says, or the text of its fault.
pub fn read_lines(alloc: Global, bytes: &[u8]) -> Result<Said, Unsaid>
    ensures { ReadsSaid result (said_from 1 nothing_said (lines bytes.now)) }
{
    let mut said = Said::new(alloc);
    let mut rest = bytes;
    let mut number = 0usize;
    while !rest.is_empty() {
        let (line, after) = first_line(rest);
        number += 1;
        match read_line(alloc, &mut said, line, number) {
            Ok(()) => {}
            Err(unsaid) => return Err(unsaid),
        }
        rest = after;
    }
    Ok(said)
}
