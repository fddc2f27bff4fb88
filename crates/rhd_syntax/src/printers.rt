//! Words of printers.

ghost use Rattle.std.specs.Prelude.{◌≡◌};
ghost use Rattle.rhd_syntax.specs.Bytes.{printer_of};
ghost use Rattle.rhd_syntax.specs.Reading.{printer_at};
ghost use Rattle.rhd_syntax.specs.Answers.{Gives};

use crate::fault::Stop;
use crate::words::word_at;

/// A printer of a session.
#[derive(Clone, Copy)]
pub enum Printer {
    /// That of `print`.
    Print,
    /// That of `debug`.
    Debug,
}

/// The printer that a word says.
#[tactic(auto, unfolding(crate::specs::Bytes::printer_of))]
fn printer_of(word: &[u8]) -> Option<Printer>
    ensures { result ≡ printer_of word.now }
{
    if word == b"print".as_slice() {
        return Some(Printer::Print);
    }
    if word == b"debug".as_slice() {
        return Some(Printer::Debug);
    }
    None
}

/// A printer, and the bytes after its word.
#[tactic(auto, unfolding(crate::specs::Reading::printer_at))]
pub fn printer_at(bytes: &[u8]) -> Result<(Printer, &[u8]), Stop>
    ensures { Gives (λ x. (x.0, x.1.now)) result (printer_at bytes.now) }
{
    let (word, rest) = word_at(bytes)?;
    let Some(printer) = printer_of(word) else {
        return Err(Stop::Bad);
    };
    Ok((printer, rest))
}
