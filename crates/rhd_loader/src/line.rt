//! What one line of a module text says.

ghost use Rattle.rhd_syntax.specs.Answers.{Gives};
ghost use Rattle.rhd_loader.specs.Reading.{module_line};

use crate::forms::part_at;
use crate::part::ModulePart;
use rhd_syntax::{Stop, is_text};
use rhd_text::is_skipped;
use std::alloc::Global;

/// The part of a module text that a line is; none where it says nothing.
#[tactic(auto, unfolding(rhd_text::specs::ReadRows::line_by))]
pub fn line_at(alloc: Global, line: &[u8]) -> Result<Option<ModulePart>, Stop>
    ensures { Gives (λ x. x) result (module_line line.now) }
{
    if !is_text(line) {
        return Err(Stop::Bad);
    }
    if is_skipped(line) {
        return Ok(None);
    }
    Ok(Some(part_at(alloc, line)?))
}
