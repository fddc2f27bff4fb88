//! What one line says.

ghost use Rattle.std.specs.Prelude.{◌≡◌};
ghost use Rattle.rhd_text.specs.ReadRows.{is_skipped, part_at, line_by};
ghost use Rattle.rhd_syntax.specs.Answers.{Gives};

use crate::forms::part_at;
use crate::place::Place;
use rhd_plan::Part;
use rhd_syntax::{Stop, is_text, skip_blanks};
use std::alloc::Global;

/// Whether a line says nothing: it is blank, or a comment.
pub fn is_skipped(line: &[u8]) -> bool
    ensures { result ≡ is_skipped line.now }
{
    match skip_blanks(line) {
        [] => true,
        [b';', ..] => true,
        _ => false,
    }
}

/// The part of a text that a line is; none where it says nothing.
#[tactic(auto, unfolding(crate::specs::ReadRows::line_by))]
pub fn line_at(alloc: Global, line: &[u8], place: Place) -> Result<Option<Part>, Stop>
    ensures { Gives (λ x. x) result (line_by (part_at place) line.now) }
{
    if !is_text(line) {
        return Err(Stop::Bad);
    }
    if is_skipped(line) {
        return Ok(None);
    }
    Ok(Some(part_at(alloc, line, place)?))
}
