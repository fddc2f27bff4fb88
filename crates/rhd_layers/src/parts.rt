//! The parts of a name.

ghost use Rattle.std.specs.Prelude.{◌≡◌, map, IfOk};
ghost use Rattle.std.specs.Str.{trim};
ghost use Rattle.rhd_layers.specs.Statics.{parts_of};

use crate::paths::path_of;
use rhd_value::{OutOfMemory, Text, Texts};
use std::alloc::Global;

/// A text without the white space at its ends.
fn trimmed(alloc: Global, text: &str) -> Result<Text, OutOfMemory>
    ensures { IfOk result (λ trimmed. trimmed ≡ trim text.now) }
{
    let mut trimmed = Text::new(alloc);
    trimmed.push(text.trim())?;
    Ok(trimmed)
}

/// Texts, each without the white space at its ends.
fn all_trimmed(alloc: Global, names: &[Text]) -> Result<Texts, OutOfMemory>
    ensures { IfOk result (λ parts. parts ≡ map trim names.now) }
{
    let mut parts = Texts::new(alloc);
    for name in names {
        parts.push(trimmed(alloc, name.as_str())?)?;
    }
    Ok(parts)
}

/// The parts of a name, which is cut at each `::`. Where there are several, each is trimmed.
pub(crate) fn parts_of(alloc: Global, name: &Text) -> Result<Texts, OutOfMemory>
    ensures { IfOk result (λ parts. parts ≡ parts_of name.now) }
{
    let names = path_of(alloc, name.as_str())?;
    if names.len() == 1 {
        return Ok(names);
    }
    all_trimmed(alloc, names.as_slice())
}
