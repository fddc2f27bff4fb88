//! Paths to modules.

ghost use Rattle.std.specs.Prelude.{◌≡◌, IfOk};
ghost use Rattle.rhd_layers.specs.Paths.{path_of};

use rhd_value::{OutOfMemory, Text, Texts};
use std::alloc::Global;

/// For how many names there should be room at first: for one more than the path has pairs of colons.
fn room_for(path: &str) -> usize {
    path.as_bytes().iter().filter(|b| **b == b':').count() / 2 + 1
}

/// The names of a path, which have `::` between two.
pub fn path_of(alloc: Global, path: &str) -> Result<Texts, OutOfMemory>
    ensures { IfOk result (λ names. names ≡ path_of path.now) }
{
    let mut names = Texts::with_capacity(alloc, room_for(path))?;
    let mut rest = path;
    'parts: while let Some((name, after)) = rest.split_once("::") {
        names.push(Text::from_str(alloc, name)?)?;
        rest = after;
    }
    names.push(Text::from_str(alloc, rest)?)?;
    Ok(names)
}
