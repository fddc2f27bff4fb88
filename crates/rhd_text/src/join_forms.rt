//! The rows of the table that join a module to another, which differ in the command alone.

ghost use Rattle.std.specs.Prelude.{◌≡◌};
ghost use Rattle.rhd_text.specs.Rows.{joining, join_form};
ghost use Rattle.rhd_text.specs.ReadRows.{row_at};
ghost use Rattle.rhd_syntax.specs.Answers.{Gives};

use crate::keyword::JoinWord;
use crate::place::Place;
use rhd_call::{Command, ModuleId};
use rhd_plan::Part;
use rhd_syntax::{Stop, is_end, num_at};

/// The command of a word.
fn joining(word: JoinWord, into: ModuleId, other: ModuleId) -> Command
    ensures { result ≡ joining word into other }
{
    match word {
        JoinWord::Combine => Command::Combine {
            module: into,
            other,
        },
        JoinWord::CombineFlatten => Command::CombineFlatten {
            module: into,
            other,
        },
        JoinWord::Fill => Command::Fill {
            module: into,
            other,
        },
        JoinWord::Merge => Command::Merge {
            module: into,
            other,
        },
    }
}

/// The part of a line that joins two modules, by what stands after its word.
#[tactic(auto, unfolding(crate::specs::ReadRows::row_at))]
pub fn join_at(bytes: &[u8], place: Place, word: JoinWord) -> Result<Part, Stop>
    ensures { Gives (λ x. x) result (row_at place (join_form word) bytes.now) }
{
    let (module, rest) = num_at(bytes)?;
    let (other, rest) = num_at(rest)?;
    if !is_end(rest) {
        return Err(Stop::Bad);
    }
    Ok(Part::Command(joining(word, ModuleId(module), ModuleId(other))))
}
